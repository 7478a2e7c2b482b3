//! All whole frames in bytes.

ghost use Rattle.std.specs.Prelude.{◌≡◌, ◌≤◌, ℕ, length, IfOk, IfErr, IfSome};
ghost use Rattle.flac_frame.specs.Viewed.{frame_of};
ghost use Rattle.flac_salvage.specs.Kept.{AreFound, kept_of};

use crate::next::next_whole;
use flac_bits::Why;
use flac_frame::{FrameBuffers, FrameView};
use flac_header::Profile;
use flac_info::StreamInfo;
use std::alloc::Global;

/// A frame that stands whole among other bytes (RFC 9639, section 9).
#[derive(Clone, Copy, Debug, PartialEq, Eq)]
pub struct WholeFrame {
    /// The offset of its first byte.
    pub at: usize,
    /// How many bytes it has, at most 16777215.
    pub bytes: u64,
    /// The number of its first sample, counted from 0 in each channel (section 9.1.5).
    pub first: u64,
    /// How many samples each channel has, at most 65535.
    pub size: usize,
}

/// The whole frames of bytes, one after another.
#[derive(Drop, Debug)]
pub struct WholeFrames {
    /// In the order of the bytes. None begins inside another.
    pub frames: Vec<WholeFrame>,
    /// Where the search ended because its budget was used up: up to that offset no other frame stands.
    pub cut: Option<usize>,
}

/// What is kept of a frame that stands at an offset, in n bytes.
fn whole_frame(stands: (usize, u64), frame: &FrameView<'_>, block_size: u16) -> WholeFrame
    ensures { result ≡ kept_of block_size (record { at = stands.0; len = stands.1; frame = frame_of frame.now }) }
{
    let (at, bytes) = stands;
    WholeFrame {
        at,
        bytes,
        first: frame.first_sample(block_size),
        size: frame.len(),
    }
}

/// Finds all whole frames from an offset on that fit STREAMINFO, whatever their numbers are: each is the first that
/// stands from the end of the one before it on. So each frame that stands whole is found, or begins inside a found one
/// ([`whole_frames_are_found`](crate::whole_frames_are_found)).
///
/// `budget` is how many bytes may be looked at; undamaged streams take 2 for each byte. See [`next_whole`].
///
/// # Errors
/// [`Why::Memory`] if an allocation fails.
pub fn whole_frames(
    alloc: Global,
    bytes: &[u8],
    from: usize,
    info: &StreamInfo,
    profile: Profile,
    budget: &mut u64,
) -> Result<WholeFrames, Why>
    requires from { from ≤ length bytes.now }
    ensures found { IfOk result (λ found. AreFound profile info.now bytes.now from found.cut found.frames.items) }
    ensures spent { IfOk result (λ found. IfSome found.cut (λ _. budget.new ≡ 0)) }
    ensures memory { IfErr result (λ e. e ≡ Why.Memory) }
{
    let mut buffers = FrameBuffers::new(
        alloc,
        info.channels() as u32,
        info.greatest_block() as u32,
    )?;
    let mut frames = Vec::new(alloc);
    let mut at = from;
    let mut cut = None;
    'looking: while at < bytes.len() {
        match next_whole(bytes, at, info, profile, &mut buffers, budget) {
            Ok(next) => match next {
                Some(whole) => {
                    frames.push(whole_frame(whole, &buffers.view(), info.greatest_block()))?;
                    at = whole.0 + whole.1 as usize;
                    buffers.anew();
                }
                None => break 'looking,
            },
            Err(end) => {
                cut = Some(end);
                break 'looking;
            }
        }
    }
    Ok(WholeFrames { frames, cut })
}
