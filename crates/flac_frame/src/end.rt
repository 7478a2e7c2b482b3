//! The end of a frame.

ghost use Rattle.std.specs.Prelude.{◌≡◌};
ghost use Rattle.flac_bits.specs.Reading.{Reads, CallInPlace};
ghost use Rattle.flac_frame.specs.Frame.{frame_end};

use flac_bits::{BitReader, Source, Why};

/// Reads the zeros up to a whole byte, and compares CRC-16 (RFC 9639, section 9.3).
#[tactic(auto, unfolding(crate::specs::Frame::frame_end))]
pub(crate) fn read_end<R: Source>(bits: &mut BitReader<R>) -> Result<(), Why>
    ensures reading { CallInPlace 0 (Reads (λ u. u) frame_end) bits.old bits.new result }
{
    if !bits.align()? {
        return Err(Why::NonzeroPadding);
    }
    let check = bits.check16();
    if bits.take(16)? != u64::from(check) {
        return Err(Why::FrameCheck);
    }
    Ok(())
}
