//! Reads a frame: its header, the samples of its channels, and its end.

ghost use Rattle.std.specs.Prelude.{◌≡◌, ◌≤◌, ◌<◌, ◌*◌, length, IfOk};
ghost use Rattle.flac_bits.specs.Reading.{CallInPlace};
ghost use Rattle.flac_frame.specs.Frame.{longest_block};
ghost use Rattle.flac_header.specs.Header.{channels_of};
ghost use Rattle.flac_frame.specs.inner.Reading.{ReadsInto, ReadsBody};

use crate::before::Before;
use crate::channels::read_subframes;
use crate::end::read_end;
use crate::limits::limits_at;
use crate::shape::Shape;
use crate::start::read_start;
use crate::stereo::join_channels;
use flac_bits::{BitReader, Source, Why};
use flac_header::{FrameHeader, Profile};
use flac_info::StreamInfo;

/// Reads what follows a header: the channels' samples, one channel after another, and the frame's end.
#[tactic(auto, unfolding(crate::specs::Frame::frame_body), using(crate::proofs::Bodies::some_fit, crate::proofs::Bodies::none_fits))]
fn read_body<R: Source>(
    bits: &mut BitReader<R>,
    info: &StreamInfo,
    profile: Profile,
    header: &FrameHeader,
    wide: &mut [i64],
    out: &mut [i32],
) -> Result<(), Why>
    requires channels { channels_of header.now.channel_code ≡ info.now.channels }
    requires wide { length wide.old ≡ info.now.channels * header.now.size }
    requires out { length out.old ≡ info.now.channels * header.now.size }
    ensures reading { CallInPlace 0 (ReadsBody profile info.now header.now out.new) bits.old bits.new result }
{
    let shape = Shape {
        channels: info.channels() as usize,
        block: header.size(),
        depth: info.depth() as u32,
        limits: limits_at(profile, info.rate()),
    };
    let assignment = header.channel_assignment();
    let fits = read_subframes(bits, assignment, &shape, wide)?;
    read_end(bits)?;
    if !fits {
        return Err(Why::SampleRange);
    }
    if !join_channels(assignment, &shape, wide, out) {
        return Err(Why::SampleRange);
    }
    Ok(())
}

/// Reads the frame that begins here, and writes its channels, one after another, to the front of `out`.
pub(crate) fn read_into<R: Source>(
    bits: &mut BitReader<R>,
    info: &StreamInfo,
    profile: Profile,
    before: &Option<Before>,
    wide: &mut [i64],
    out: &mut [i32],
) -> Result<FrameHeader, Why>
    requires wide { info.now.channels * longest_block profile info.now ≤ length wide.old }
    requires out { length out.old ≡ length wide.old }
    ensures size { IfOk result (λ h. h.size ≤ longest_block profile info.now) }
    ensures reading { ReadsInto profile info.now before.now out.new bits.old bits.new result }
{
    let header = read_start(bits, info, profile, before)?;
    let places = info.channels() as usize * header.size() as usize;
    read_body(
        bits,
        info,
        profile,
        &header,
        &mut wide[..places],
        &mut out[..places],
    )?;
    Ok(header)
}
