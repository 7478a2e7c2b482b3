//! Two channels in the decorrelation that takes the fewest bits (RFC 9639, section 4.2).

ghost use Rattle.std.specs.Prelude.{◌≡◌, ◌<◌, ◌≤◌, ◌+◌, ◌*◌, ◌^◌, ◌-ℤ◌, ◌+ℤ◌, ◌∷◌, [], length, All};
ghost use Rattle.std.specs.Int.{int_shr};
ghost use Rattle.flac_bits.specs.Signed.{FitsBits};
ghost use Rattle.flac_bits.specs.Written.{Writes};
ghost use Rattle.flac_header.specs.Assignment.{code_of, IsAssignment};
ghost use Rattle.flac_frame.specs.Audio.{samples_each};
ghost use Rattle.flac_frame.specs.Chosen.{HasPlaces};
ghost use Rattle.flac_frame.specs.Encoding.{block_of, partition_limit};
ghost use Rattle.flac_frame.specs.Frame.{side_bit};
ghost use Rattle.flac_frame.specs.Pair.{HaveCodings};
ghost use Rattle.flac_frame.specs.inner.Pair.{IsPairCode, IsFirstLeast, FitAsKept, kept_block, pair_cost, choices_cost};
ghost use Rattle.flac_frame.specs.inner.Subject.{HasOrders, HasPlanes, IsChoiceFor, AreMadeFor, kept_in, pair_spelling, choice_spelling};
ghost use Rattle.flac_frame.specs.Stereo.{side_of, middle_of, kept_as};

use crate::audio::Audio;
use crate::channels::{plane_of, side_bit};
use crate::encode::widen;
use crate::frame_choice::FrameChoice;
use crate::pair_choices::PairChoices;
use crate::plane::choose_plane;
use crate::planes::{LEFT, MIDDLE, Planes, RIGHT, SIDE};
use crate::subject::Subject;
use flac_bits::{BitWriter, Target, Why};
use flac_header::{ChannelAssignment, FrameHeader};
use flac_subframe::{Workspace, write_subframe_in};

/// The side of two samples (RFC 9639, section 4.2).
#[inline(always)]
fn side_of_samples(left: i32, right: i32) -> i64
    ensures { result ≡ left -ℤ right }
{
    left as i64 - right as i64
}

/// The middle of two samples: half their sum, rounded down (RFC 9639, section 4.2).
#[inline(always)]
fn middle_of_samples(left: i32, right: i32) -> i64
    ensures { result ≡ int_shr (left +ℤ right) 1 }
{
    (left as i64 + right as i64) >> 1
}

/// Puts the side of two channels into places.
fn put_side(left: &[i32], right: &[i32], side: &mut [i64])
    requires right { length right.now ≡ length left.now }
    requires side { length side.old ≡ length left.now }
    ensures { side.new ≡ side_of left.now right.now }
{
    for i in 0..left.len() {
        side[i] = side_of_samples(left[i], right[i]);
    }
}

/// Puts the side and the middle of two channels into places.
fn split_channels(left: &[i32], right: &[i32], side: &mut [i64], middle: &mut [i64])
    requires right { length right.now ≡ length left.now }
    requires side { length side.old ≡ length left.now }
    requires middle { length middle.old ≡ length left.now }
    ensures side { side.new ≡ side_of left.now right.now }
    ensures middle { middle.new ≡ middle_of left.now right.now }
{
    for i in 0..left.len() {
        side[i] = side_of_samples(left[i], right[i]);
        middle[i] = middle_of_samples(left[i], right[i]);
    }
}

/// The channel assignment of two channels whose subframes take the fewest bits, from those that left, right, side and
/// middle take, and these bits; the first of equals.
fn least_assignment(left: u64, right: u64, side: u64, middle: u64) -> (ChannelAssignment, u64)
    requires left { left ≤ 2 ^ 61 }
    requires right { right ≤ 2 ^ 61 }
    requires side { side ≤ 2 ^ 61 }
    requires middle { middle ≤ 2 ^ 61 }
    ensures valid { IsAssignment result.0 }
    ensures best { IsFirstLeast (pair_cost left right side middle) (code_of result.0) }
    ensures bits { result.1 ≡ pair_cost left right side middle (code_of result.0) }
{
    let independent = left + right;
    let left_side = left + side;
    let side_right = side + right;
    let middle_side = middle + side;
    if independent <= left_side.min(side_right).min(middle_side) {
        return (ChannelAssignment::Independent(2), independent);
    }
    if left_side <= side_right.min(middle_side) {
        return (ChannelAssignment::LeftSide, left_side);
    }
    if side_right <= middle_side {
        return (ChannelAssignment::SideRight, side_right);
    }
    (ChannelAssignment::MidSide, middle_side)
}

/// Chooses a shortest subframe of left, right, side and middle each. Returns the channel assignment whose two subframes
/// take the fewest bits, and these bits.
fn choose_planes(
    subject: &Subject<'_>,
    planes: &Planes<'_>,
    choices: &mut PairChoices,
    workspace: &mut Workspace,
) -> (ChannelAssignment, u64)
    requires block { length planes.now.left.now ≤ workspace.old.block }
    requires partition { partition_limit subject.now.audio.now ≤ workspace.old.most }
    requires codings { HaveCodings workspace.old.most choices.old }
    requires orders { HasOrders subject.now }
    ensures planes { HasPlanes subject.now planes.now choices.new }
    ensures valid { IsAssignment result.0 }
    ensures best { IsFirstLeast (choices_cost choices.new) (code_of result.0) }
    ensures bits { result.1 ≡ choices_cost choices.new (code_of result.0) }
    ensures codings { HaveCodings workspace.old.most choices.new }
    ensures room { workspace.new ≡ workspace.old }
{
    let depth = planes.depth;
    choose_plane(
        planes.left,
        depth,
        LEFT,
        subject,
        workspace,
        &mut choices.left,
    );
    choose_plane(
        planes.right,
        depth,
        RIGHT,
        subject,
        workspace,
        &mut choices.right,
    );
    choose_plane(
        planes.side,
        depth + 1,
        SIDE,
        subject,
        workspace,
        &mut choices.side,
    );
    choose_plane(
        planes.middle,
        depth,
        MIDDLE,
        subject,
        workspace,
        &mut choices.middle,
    );
    least_assignment(
        choices.left.bits(),
        choices.right.bits(),
        choices.side.bits(),
        choices.middle.bits(),
    )
}

/// Puts samples of two channels from `start` on into places, and their side and middle.
fn split_pair(
    audio: &Audio,
    start: usize,
    left: &mut [i64],
    right: &mut [i64],
    side: &mut [i64],
    middle: &mut [i64],
)
    requires two { length audio.now.channels ≡ 2 }
    requires within { start + length left.old ≤ samples_each audio.now.channels }
    requires right { length right.old ≡ length left.old }
    requires side { length side.old ≡ length left.old }
    requires middle { length middle.old ≡ length left.old }
    ensures block { left.new ∷ right.new ∷ [] ≡ block_of start (length left.old) audio.now.channels }
    ensures side { side.new ≡ side_of left.new right.new }
    ensures middle { middle.new ≡ middle_of left.new right.new }
    ensures left_fits { All (FitsBits audio.now.bits) left.new }
    ensures right_fits { All (FitsBits audio.now.bits) right.new }
{
    // called for its clauses, that the samples can be encoded
    let _channels = audio.channels();
    let size = left.len();
    let lefts = audio.part(0, start, size);
    let rights = audio.part(1, start, size);
    widen(lefts, left);
    widen(rights, right);
    split_channels(lefts, rights, side, middle);
}

/// Chooses how a block of two channels is written as a frame, with places for four times as many samples.
pub(crate) fn choose_pair(
    subject: &Subject<'_>,
    places: &mut [i64],
    choices: &mut PairChoices,
    workspace: &mut Workspace,
    choice: &mut FrameChoice,
)
    requires two { length subject.now.audio.now.channels ≡ 2 }
    requires places { 4 * subject.now.size ≤ length places.old }
    requires block { subject.now.size ≤ workspace.old.block }
    requires partition { partition_limit subject.now.audio.now ≤ workspace.old.most }
    requires codings { HaveCodings workspace.old.most choices.old }
    requires choices { HasPlaces 2 workspace.old.most choice.old }
    requires number { subject.now.number < 2 ^ 31 }
    requires orders { HasOrders subject.now }
    ensures chosen { IsChoiceFor subject.now choice.new }
    ensures codings { HaveCodings workspace.old.most choices.new }
    ensures choices { HasPlaces 2 workspace.old.most choice.new }
    ensures many { length choice.new.subframes.items ≡ length choice.old.subframes.items }
    ensures room { workspace.new ≡ workspace.old }
{
    let audio = subject.audio;
    // called for its clauses, that the samples can be encoded
    let _channels = audio.channels();
    let size = subject.size;
    let (left, rest) = places.split_at_mut(size);
    let (right, rest) = rest.split_at_mut(size);
    let (side, rest) = rest.split_at_mut(size);
    let middle = &mut rest[..size];
    split_pair(audio, subject.start, left, right, side, middle);
    let depth = audio.bits();
    let planes = Planes {
        left,
        right,
        side,
        middle,
        depth,
    };
    let (assignment, bits) = choose_planes(subject, &planes, choices, workspace);
    let code = assignment.code();
    // called for its clauses, that there is such a header
    let _header = FrameHeader::chosen_in(
        audio.profile(),
        size as u32,
        audio.rate(),
        code,
        depth,
        subject.number,
    );
    choice.code = code;
    choice.bits = bits;
    choices.keep(assignment, &mut choice.subframes);
}

/// Puts what a channel assignment keeps of two channels into places of 64 bits (RFC 9639, section 9.1.3).
fn put_kept(
    assignment: ChannelAssignment,
    left: &[i32],
    right: &[i32],
    first: &mut [i64],
    second: &mut [i64],
)
    requires valid { IsAssignment assignment }
    requires long { length right.now ≡ length left.now }
    requires first { length first.old ≡ length left.now }
    requires second { length second.old ≡ length left.now }
    ensures kept { kept_as (code_of assignment) (left.now ∷ right.now ∷ []) ≡ first.new ∷ second.new ∷ [] }
    // proof only
    ensures fits { FitAsKept (code_of assignment) left.now right.now first.new second.new }
{
    match assignment {
        ChannelAssignment::Independent(_) => {
            widen(left, first);
            widen(right, second);
        }
        ChannelAssignment::LeftSide => {
            widen(left, first);
            put_side(left, right, second);
        }
        ChannelAssignment::SideRight => {
            put_side(left, right, first);
            widen(right, second);
        }
        ChannelAssignment::MidSide => split_channels(left, right, second, first),
    }
}

/// Puts what a channel assignment keeps of two channels' samples from `start` on into places of 64 bits.
fn keep_pair(
    assignment: ChannelAssignment,
    audio: &Audio,
    start: usize,
    first: &mut [i64],
    second: &mut [i64],
)
    requires valid { IsAssignment assignment }
    requires two { length audio.now.channels ≡ 2 }
    requires within { start + length first.old ≤ samples_each audio.now.channels }
    requires second { length second.old ≡ length first.old }
    ensures kept { kept_block (code_of assignment) audio.now start (length first.old) ≡ first.new ∷ second.new ∷ [] }
    ensures first_fits { All (FitsBits (audio.now.bits + side_bit (code_of assignment) 0)) first.new }
    ensures second_fits { All (FitsBits (audio.now.bits + side_bit (code_of assignment) 1)) second.new }
{
    // called for its clauses, that the samples can be encoded
    let _channels = audio.channels();
    let size = first.len();
    let left = audio.part(0, start, size);
    let right = audio.part(1, start, size);
    put_kept(assignment, left, right, first, second);
}

/// Writes the subframes that were chosen of what a channel assignment keeps of two channels.
fn write_two<W: Target>(
    subject: &Subject<'_>,
    choice: &FrameChoice,
    first: &[i64],
    second: &[i64],
    workspace: &mut Workspace,
    writer: &mut BitWriter<W>,
) -> Result<(), Why>
    requires code { IsPairCode choice.now.code }
    requires some { 0 < length first.now }
    requires block { length first.now ≤ workspace.old.block }
    requires second { length second.now ≡ length first.now }
    requires first_fits { All (FitsBits (subject.now.audio.now.bits + side_bit choice.now.code 0)) first.now }
    requires second_fits { All (FitsBits (subject.now.audio.now.bits + side_bit choice.now.code 1)) second.now }
    requires made { AreMadeFor subject.now choice.now (first.now ∷ second.now ∷ []) }
    requires choices { 2 ≤ length choice.now.subframes.items }
    ensures text { Writes (pair_spelling subject.now choice.now first.now second.now) writer.old writer.new result }
    ensures room { workspace.new ≡ workspace.old }
{
    let assignment = choice.assignment();
    // called for its clauses, that the samples can be encoded
    let _channels = subject.audio.channels();
    let depth = subject.audio.bits();
    let subframes = choice.subframes.as_slice();
    let left = &subframes[0];
    let right = &subframes[1];
    let left_depth = depth + side_bit(assignment, 0);
    let right_depth = depth + side_bit(assignment, 1);
    let left_list = subject.predictors.list(plane_of(assignment, 0));
    let right_list = subject.predictors.list(plane_of(assignment, 1));
    write_subframe_in(left, left_list, first, left_depth, workspace, writer)?;
    write_subframe_in(right, right_list, second, right_depth, workspace, writer)
}

/// Writes the subframes that were chosen of a block of two channels, with places for twice as many samples.
pub(crate) fn write_pair<W: Target>(
    subject: &Subject<'_>,
    choice: &FrameChoice,
    places: &mut [i64],
    workspace: &mut Workspace,
    writer: &mut BitWriter<W>,
) -> Result<(), Why>
    requires two { length subject.now.audio.now.channels ≡ 2 }
    requires places { 2 * subject.now.size ≤ length places.old }
    requires block { subject.now.size ≤ workspace.old.block }
    requires code { IsPairCode choice.now.code }
    requires made { AreMadeFor subject.now choice.now (kept_in subject.now choice.now) }
    requires choices { 2 ≤ length choice.now.subframes.items }
    ensures text { Writes (choice_spelling subject.now choice.now) writer.old writer.new result }
    ensures room { workspace.new ≡ workspace.old }
{
    let size = subject.size;
    let (first, rest) = places.split_at_mut(size);
    let second = &mut rest[..size];
    let assignment = choice.assignment();
    keep_pair(assignment, subject.audio, subject.start, first, second);
    write_two(subject, choice, first, second, workspace, writer)
}
