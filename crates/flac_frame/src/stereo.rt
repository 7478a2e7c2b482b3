//! Left and right from decorrelated stereo channels.

ghost use Rattle.std.specs.Prelude.{◌≡◌, ◌<◌, ◌≤◌, ◌*◌, ◌∷◌, [], length, All, true};
ghost use Rattle.std.specs.Simd.Lanes.{zip2};
ghost use Rattle.flac_bits.specs.Signed.{FitsBits};
ghost use Rattle.flac_header.specs.Assignment.{code_of, IsAssignment};
ghost use Rattle.flac_frame.specs.Stereo.{left_of, right_of, joined_pair};
ghost use Rattle.flac_frame.specs.Frame.{each_fits};
ghost use Rattle.flac_frame.specs.inner.Reading.{chunks_in, joined_in};

use crate::samples::{lowest, narrow};
use crate::shape::Shape;
use flac_header::ChannelAssignment;
use flac_subframe::offset_binary;

/// The left and the right sample of two samples that were decorrelated (RFC 9639, section 4.2).
#[inline(always)]
#[tactic(auto, unfolding(crate::specs::Stereo::left_of, crate::specs::Stereo::right_of))]
fn join_samples(assignment: ChannelAssignment, first: i64, second: i64) -> (i64, i64)
    requires valid { IsAssignment assignment }
    requires joined { 7 < code_of assignment }
    requires first { FitsBits 34 first }
    requires second { FitsBits 34 second }
    ensures left { result.0 ≡ left_of (code_of assignment) first second }
    ensures right { result.1 ≡ right_of (code_of assignment) first second }
{
    match assignment {
        ChannelAssignment::Independent(_) => (first, second),
        ChannelAssignment::LeftSide => (first, first - second),
        ChannelAssignment::SideRight => (first + second, second),
        ChannelAssignment::MidSide => {
            let right = first - (second >> 1);
            (right + second, right)
        }
    }
}

/// Writes the left and the right samples of two decorrelated channels, and returns whether each fits the depth.
#[inline(always)]
fn join_two(
    assignment: ChannelAssignment,
    depth: u32,
    first: &[i64],
    second: &[i64],
    left: &mut [i32],
    right: &mut [i32],
) -> bool
    requires valid { IsAssignment assignment }
    requires joined { 7 < code_of assignment }
    requires depth { (1 ≤ depth) × (depth ≤ 32) }
    requires long { length second.now ≡ length first.now }
    requires lefts { length left.old ≡ length first.now }
    requires rights { length right.old ≡ length first.now }
    requires first { All (FitsBits 34) first.now }
    requires second { All (FitsBits 34) second.now }
    ensures fits { result ≡ each_fits depth (joined_pair (code_of assignment) (first.now ∷ second.now ∷ [])) }
    ensures left { result ≡ true → left.new ≡ zip2 (left_of (code_of assignment)) first.now second.now }
    ensures right { result ≡ true → right.new ≡ zip2 (right_of (code_of assignment)) first.now second.now }
{
    let mut wrong = 0;
    for i in 0..first.len() {
        let (joined_left, joined_right) = join_samples(assignment, first[i], second[i]);
        let over = offset_binary(joined_left, depth);
        let above = offset_binary(joined_right, depth);
        wrong |= over | above;
        let short_left = lowest(joined_left);
        let short_right = lowest(joined_right);
        left[i] = short_left;
        right[i] = short_right;
    }
    wrong >> depth == 0
}

/// Writes the samples of the channels, left and right for decorrelated ones, and returns whether each fits the depth.
/// In both arrays the channels come one after another.
#[tactic(auto, unfolding(crate::specs::Stereo::joined), using(crate::proofs::Bodies::each_is))]
pub(crate) fn join_channels(
    assignment: ChannelAssignment,
    shape: &Shape,
    samples: &[i64],
    out: &mut [i32],
) -> bool
    requires valid { IsAssignment assignment }
    requires two { 7 < code_of assignment → shape.now.channels ≡ 2 }
    requires long { length samples.now ≡ shape.now.channels * shape.now.block }
    requires places { length out.old ≡ length samples.now }
    requires small { All (FitsBits 34) samples.now }
    ensures fits { result ≡ each_fits shape.now.depth (joined_in shape.now (code_of assignment) samples.now) }
    ensures same { result ≡ true → chunks_in shape.now out.new ≡ joined_in shape.now (code_of assignment) samples.now }
{
    let block = shape.block as usize;
    let depth = shape.depth;
    if assignment.is_decorrelated() {
        let (first, second) = samples.split_at(block);
        let (left, right) = out.split_at_mut(block);
        // a loop for each assignment, so that the compiler takes several samples at once
        return match assignment {
            ChannelAssignment::Independent(_) => {
                join_two(assignment, depth, first, second, left, right)
            }
            ChannelAssignment::LeftSide => join_two(
                ChannelAssignment::LeftSide,
                depth,
                first,
                second,
                left,
                right,
            ),
            ChannelAssignment::SideRight => join_two(
                ChannelAssignment::SideRight,
                depth,
                first,
                second,
                left,
                right,
            ),
            ChannelAssignment::MidSide => join_two(
                ChannelAssignment::MidSide,
                depth,
                first,
                second,
                left,
                right,
            ),
        };
    }
    narrow(samples, depth, out)
}
