//! Reads the subframes of a frame.

ghost use Rattle.std.specs.Prelude.{◌≡◌, ◌≤◌, ◌<◌, ◌+◌, ◌*◌, IfOk, length, All, IsTrue};
ghost use Rattle.flac_bits.specs.Signed.{FitsBits};
ghost use Rattle.flac_bits.specs.Reading.{CallInPlace};
ghost use Rattle.flac_header.specs.Assignment.{code_of, IsAssignment};
ghost use Rattle.flac_frame.specs.Frame.{side_bit};
ghost use Rattle.flac_frame.specs.PlaneLists.{plane_of};
ghost use Rattle.flac_frame.specs.inner.Reading.{ReadsSubframe, ReadsEach};

use crate::planes::{LEFT, MIDDLE, RIGHT, SIDE};
use crate::shape::Shape;
use flac_bits::{BitReader, Source, Why};
use flac_header::ChannelAssignment;
use flac_subframe::{Limits, read_subframe};

/// How many bits the samples of a channel have more than those of the stream: 1 for a side channel (RFC 9639, section
/// 4.2).
#[tactic(auto, unfolding(crate::specs::Frame::side_bit))]
pub(crate) fn side_bit(assignment: ChannelAssignment, channel: usize) -> u32
    requires { IsAssignment assignment }
    ensures bit { result ≡ side_bit (code_of assignment) channel }
    ensures small { result ≤ 1 }
{
    match assignment {
        ChannelAssignment::Independent(_) => 0,
        ChannelAssignment::LeftSide => u32::from(channel == 1),
        ChannelAssignment::SideRight => u32::from(channel == 0),
        ChannelAssignment::MidSide => u32::from(channel == 1),
    }
}

/// Which plane a channel's subframe is of (RFC 9639, section 9.1.3).
pub(crate) fn plane_of(assignment: ChannelAssignment, channel: usize) -> usize
    requires { IsAssignment assignment }
    ensures { result ≡ plane_of (code_of assignment) channel }
{
    let is_first = channel == 0;
    match assignment {
        ChannelAssignment::Independent(_) => channel,
        ChannelAssignment::LeftSide => if is_first { LEFT } else { SIDE },
        ChannelAssignment::SideRight => if is_first { SIDE } else { RIGHT },
        ChannelAssignment::MidSide => if is_first { MIDDLE } else { SIDE },
    }
}

/// What [`read_subframe`] does, proved by the reading of the layout.
fn subframe_by_layout<R: Source>(
    bits: &mut BitReader<R>,
    depth: u32,
    block: u32,
    limits: &Limits,
    samples: &mut [i64],
) -> Result<bool, Why>
    requires depth { (1 ≤ depth) × (depth ≤ 33) }
    requires block { (1 ≤ block) × (block ≤ 65535) }
    requires places { length samples.old ≡ block }
    requires limits { (limits.now.partition ≤ 15) × (limits.now.linear ≤ 32) }
    // proof only
    ensures small { IfOk result (λ fits. IsTrue fits → All (FitsBits 34) samples.new) }
    ensures reading { CallInPlace 8 (ReadsSubframe depth block limits.now samples.new) bits.old bits.new result }
{
    read_subframe(bits, depth, block, limits, samples)
}

/// Reads a subframe for each channel into the channels' places, one channel after another, and returns whether each
/// sample fits.
#[tactic(auto, using(crate::proofs::Subframes::subframes_more))]
pub(crate) fn read_subframes<R: Source>(
    bits: &mut BitReader<R>,
    assignment: ChannelAssignment,
    shape: &Shape,
    samples: &mut [i64],
) -> Result<bool, Why>
    requires assignment { IsAssignment assignment }
    requires places { length samples.old ≡ shape.now.channels * shape.now.block }
    // proof only
    ensures small { IfOk result (λ fits. IsTrue fits → All (FitsBits 34) samples.new) }
    ensures reading { CallInPlace 0 (ReadsEach shape.now (code_of assignment) samples.new) bits.old bits.new result }
{
    let size = shape.block as usize;
    let mut fits = true;
    for channel in 0..shape.channels {
        let start = channel * size;
        let own = &mut samples[start..start + size];
        if !subframe_by_layout(
            bits,
            shape.depth + side_bit(assignment, channel),
            shape.block,
            &shape.limits,
            own,
        )? {
            fits = false;
        }
    }
    Ok(fits)
}
