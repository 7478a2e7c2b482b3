//! Reads the header of a frame of a stream.

ghost use Rattle.std.specs.Prelude.{◌≡◌, ◌≤◌, ◌<◌, ◌^◌, nat_eq, IfOk};
ghost use Rattle.flac_bits.specs.Reading.{Reads, CallInPlace};
ghost use Rattle.flac_bits.specs.State.{started};
ghost use Rattle.flac_header.specs.Header.{channels_of, header as header_layout};
ghost use Rattle.flac_frame.specs.Frame.{differs, rate_in, depth_in, breaks_sequence, breaks_size, stream_header};
ghost use Rattle.flac_frame.specs.inner.Reading.{ReadsFromHeader, FitsStream};

use crate::before::Before;
use crate::limits::allows;
use flac_bits::{BitReader, Source, Why};
use flac_header::{FrameHeader, Profile, read_header};
use flac_info::StreamInfo;

/// Whether the rate is that of STREAMINFO; a code of 0 leaves it to STREAMINFO (RFC 9639, section 9.1.2).
fn has_rate(info: &StreamInfo, profile: Profile, header: &FrameHeader) -> bool
    ensures { result ≡ nat_eq (rate_in profile info.now header.now) info.now.rate }
{
    let left_out = match profile {
        Profile::Subset => false,
        Profile::Lax => !header.states_rate(),
    };
    left_out || header.rate() == info.rate()
}

/// Whether the depth is that of STREAMINFO; a code of 0 leaves it to STREAMINFO (RFC 9639, section 9.1.4).
fn has_depth(info: &StreamInfo, profile: Profile, header: &FrameHeader) -> bool
    ensures { result ≡ nat_eq (depth_in profile info.now header.now) info.now.depth }
{
    let left_out = match profile {
        Profile::Subset => false,
        Profile::Lax => !header.states_depth(),
    };
    left_out || header.depth() == info.depth() as u32
}

/// Whether the rate, the number of channels or the depth is not that of STREAMINFO.
fn differs(info: &StreamInfo, profile: Profile, header: &FrameHeader) -> bool
    ensures { result ≡ differs profile info.now header.now }
{
    !(has_rate(info, profile, header)
        && header.channels() == info.channels() as u32
        && has_depth(info, profile, header))
}

/// Whether the blocking strategy changes, or the number does not follow.
fn breaks_sequence(before: &Option<Before>, header: &FrameHeader) -> bool
    ensures { result ≡ breaks_sequence before.now header.now }
{
    match before {
        None => false,
        Some(before) => {
            header.variable() != before.strategy.is_variable() || header.number() != before.next
        }
    }
}

/// Whether the block is too long, or the one before was too short.
fn breaks_size(info: &StreamInfo, before: &Option<Before>, header: &FrameHeader) -> bool
    ensures breaks { result ≡ breaks_size info.now before.now header.now }
    // proof only
    ensures small { header.now.size ≤ 65535 }
{
    let size = header.size();
    let too_long = size > info.greatest_block() as u32;
    match before {
        None => too_long,
        Some(before) => {
            too_long
                || before.size < info.least_block() as u32
                || (!header.variable()
                    && (before.size != before.first_size || size > before.first_size))
        }
    }
}

/// What [`read_header`] does, proved by the reading of the layout.
fn header_by_layout<R: Source>(bits: &mut BitReader<R>) -> Result<FrameHeader, Why>
    ensures reading { CallInPlace 40 (λ old. Reads (λ h. h) header_layout (started old)) bits.old bits.new result }
{
    read_header(bits)
}

/// Reads the header of the frame that begins here, and compares it with STREAMINFO and the frames before.
#[tactic(auto, unfolding(crate::specs::Frame::stream_header), using(crate::proofs::Starts::size_allowed, crate::proofs::Starts::size_small))]
pub(crate) fn read_start<R: Source>(
    bits: &mut BitReader<R>,
    info: &StreamInfo,
    profile: Profile,
    before: &Option<Before>,
) -> Result<FrameHeader, Why>
    // proof only
    ensures number { IfOk result (λ h. h.number < 2 ^ 36) }
    // proof only
    ensures code { IfOk result (λ h. h.channel_code < 11) }
    // proof only
    ensures channels { IfOk result (λ h. channels_of h.channel_code ≡ info.now.channels) }
    // proof only
    ensures size { IfOk result (FitsStream profile info.now) }
    ensures reading { ReadsFromHeader (λ h. h) (stream_header profile info.now before.now) bits.old bits.new result }
{
    let header = header_by_layout(bits)?;
    if !allows(profile, &header) {
        return Err(Why::NotSubset);
    }
    if differs(info, profile, &header) {
        return Err(Why::HeaderMismatch);
    }
    if breaks_sequence(before, &header) {
        return Err(Why::Sequence);
    }
    if breaks_size(info, before, &header) {
        return Err(Why::BlockSize);
    }
    Ok(header)
}
