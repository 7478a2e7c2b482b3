//! The lines about a stream whose bytes are parts of an input, with their places in it.

ghost use Rattle.std.specs.Prelude.{◌≡◌, IfOk, map};
ghost use Rattle.flac_whole_pages.specs.Parts.{AreReached};
ghost use Rattle.flac_rescue.specs.Placed.{is_empty, placed_gap, placed_frame, placed_cut, left_text};

use crate::lines::lines_of;
use crate::missing::Gap;
use crate::survey::Survey;
use flac_salvage::WholeFrame;
use flac_whole_pages::{Left, Reached, none_reached};
use std::alloc::{AllocError, Global};

/// Whether nothing is missing in a gap.
fn is_empty(gap: &Gap) -> bool
    ensures { result ≡ is_empty gap.now }
{
    gap.first >= gap.next && gap.start >= gap.end
}

/// A gap with its place in the input.
fn placed_gap(left: &Left, reached: &mut Reached, gap: &Gap) -> Gap
    requires { AreReached left.now.parts.items reached.old }
    ensures placed { result ≡ placed_gap left.now gap.now }
    ensures reached { AreReached left.now.parts.items reached.new }
{
    if is_empty(gap) {
        return *gap;
    }
    let start = left.place_after(reached, gap.start);
    let end = left.place(reached, gap.end);
    Gap {
        start,
        end,
        first: gap.first,
        next: gap.next,
    }
}

/// Gaps with their places in the input.
fn placed_gaps(alloc: Global, left: &Left, gaps: &[Gap]) -> Result<Vec<Gap>, AllocError>
    ensures { IfOk result (λ placed. placed.items ≡ map (placed_gap left.now) gaps.now) }
{
    let mut placed = Vec::new(alloc);
    let mut reached = none_reached();
    for gap in gaps {
        placed.push(placed_gap(left, &mut reached, gap))?;
    }
    Ok(placed)
}

/// A frame with the place of its first byte in the input.
fn placed_frame(left: &Left, reached: &mut Reached, frame: &WholeFrame) -> WholeFrame
    requires { AreReached left.now.parts.items reached.old }
    ensures placed { result ≡ placed_frame left.now frame.now }
    ensures reached { AreReached left.now.parts.items reached.new }
{
    WholeFrame {
        at: left.place(reached, frame.at),
        bytes: frame.bytes,
        first: frame.first,
        size: frame.size,
    }
}

/// Frames with their places in the input.
fn placed_frames(
    alloc: Global,
    left: &Left,
    frames: &[WholeFrame],
) -> Result<Vec<WholeFrame>, AllocError>
    ensures { IfOk result (λ placed. placed.items ≡ map (placed_frame left.now) frames.now) }
{
    let mut placed = Vec::new(alloc);
    let mut reached = none_reached();
    for frame in frames {
        placed.push(placed_frame(left, &mut reached, frame))?;
    }
    Ok(placed)
}

/// Where the search for frames ended early, in the input; else where that for pages did.
fn placed_cut(left: &Left, cut: Option<usize>) -> Option<usize>
    ensures { result ≡ placed_cut left.now cut }
{
    match cut {
        Some(at) => {
            let mut reached = none_reached();
            Some(left.place(&mut reached, at))
        }
        None => left.cut,
    }
}

/// The lines of [`report`](crate::report) about a stream whose bytes are parts of an input
/// ([`left_of`](flac_whole_pages::left_of)), as those of an Ogg stream are: offsets are those in the input. A gap
/// begins where the byte before it ends, and ends at the byte after it, so a page that is lost between two frames is in
/// it.
///
/// # Errors
/// An allocation fails.
pub fn report_left(
    alloc: Global,
    path: &str,
    left: &Left,
    survey: &Survey,
) -> Result<Vec<u8>, AllocError>
    ensures { IfOk result (λ text. text.items ≡ left_text path.now left.now survey.now) }
{
    let gaps = placed_gaps(alloc, left, &survey.gaps)?;
    let others = placed_frames(alloc, left, &survey.others)?;
    let cut = placed_cut(left, survey.found.cut);
    lines_of(alloc, path, survey, &gaps, &others, cut)
}
