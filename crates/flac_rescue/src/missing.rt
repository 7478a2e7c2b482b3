//! What is missing between frames.

ghost use Rattle.std.specs.Prelude.{◌≡◌, ◌≤◌, ◌<◌, true, false, nat_eq, length, slice_index_or, IfOk};
ghost use Rattle.flac_salvage.specs.Chain.{Rise};
ghost use Rattle.flac_rescue.specs.Gaps.{gaps, last_of, AreWithin, others, limit_of, no_frame, IsKeptAt};

use flac_salvage::WholeFrame;
use std::alloc::{AllocError, Global};

/// A place in a stream at which something is missing: bytes that are of no frame, samples that no frame has, or both.
#[derive(Clone, Copy, Debug, PartialEq, Eq)]
pub struct Gap {
    /// The offset of the first byte that is of no frame.
    pub start: usize,
    /// The offset of the first byte after them.
    pub end: usize,
    /// The number of the first sample that is missing, counted from 0 in each channel.
    pub first: u64,
    /// The number of the first sample after them.
    pub next: u64,
}

/// The sample at which the last gap ends: the total, or the end of the last frame if none is stated.
pub(crate) fn last_of(total: u64, first: u64) -> u64
    ensures { result ≡ last_of total first }
{
    if total == 0 { first } else { total }
}

/// Whether the kept frame of this index is at an offset.
fn is_kept(kept: &[WholeFrame], index: usize, at: usize) -> bool
    ensures yes { result ≡ true → IsKeptAt kept.now index at }
    ensures not { result ≡ false → index < length kept.now →
        nat_eq (slice_index_or kept.now index no_frame).at at ≡ false }
{
    index < kept.len() && kept[index].at == at
}

/// What is missing of a stream, of which these frames were kept: before each of them, and after the last. A gap may be
/// empty. The frames of the stream begin at the offset `start` and end at the offset `end`; `total` is how many samples
/// STREAMINFO states, 0 if it states none (RFC 9639, section 8.2): then none is missing after the last frame.
///
/// # Errors
/// An allocation fails.
pub fn gaps(
    alloc: Global,
    kept: &[WholeFrame],
    start: usize,
    end: usize,
    total: u64,
) -> Result<Vec<Gap>, AllocError>
    requires within { AreWithin end kept.now }
    requires rise { Rise (limit_of total) 0 kept.now }
    ensures { IfOk result (λ found. found.items ≡ gaps total end start 0 kept.now) }
{
    let mut found = Vec::new(alloc);
    let mut at = start;
    let mut first = 0;
    for frame in kept {
        let next = frame.first;
        found.push(Gap {
            start: at,
            end: frame.at,
            first,
            next,
        })?;
        at = frame.at + frame.bytes as usize;
        first = frame.first + frame.size as u64;
    }
    let next = last_of(total, first);
    found.push(Gap {
        start: at,
        end,
        first,
        next,
    })?;
    Ok(found)
}

/// The frames that were found and not kept, in their order; those that were kept are some of them, in their order.
///
/// # Errors
/// An allocation fails.
pub fn others(
    alloc: Global,
    found: &[WholeFrame],
    kept: &[WholeFrame],
) -> Result<Vec<WholeFrame>, AllocError>
    ensures { IfOk result (λ left. left.items ≡ others found.now kept.now) }
{
    let mut left = Vec::new(alloc);
    let mut index = 0;
    for frame in found {
        if is_kept(kept, index, frame.at) {
            index += 1;
        } else {
            left.push(*frame)?;
        }
    }
    Ok(left)
}
