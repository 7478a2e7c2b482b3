//! EncodesRange blocks of samples as frames.

ghost use Rattle.std.specs.Prelude.{◌≡◌, ◌≤◌, ◌<◌, ◌+◌, ◌-◌, ◌*◌, ◌^◌, length, IfOk};
ghost use Rattle.flac_bits.specs.Written.{Writes};
ghost use Rattle.flac_subframe.specs.format.Handed.{AreWithin};
ghost use Rattle.flac_frame.specs.Audio.{samples_each};
ghost use Rattle.flac_frame.specs.Chosen.{AreMadeByPlane, IsRangeByPlane, IsRangeWith, AllHaveCodings, HasPlaces};
ghost use Rattle.flac_frame.specs.inner.Subject.{HasOrders, HasChosen, apart_spelling, block_samples, lists_in, IsChoiceFor, choice_spelling, WritesFrameOf};
ghost use Rattle.flac_frame.specs.Encoding.{partition_limit, EncodesRange, EncodesByPlane, EncodesWith, CountsBytes};
ghost use Rattle.flac_frame.specs.inner.Encoding.{end_spelling};
ghost use Rattle.flac_frame.specs.Frame.{limits_at};
ghost use Rattle.flac_frame.specs.Pair.{HaveCodings};
ghost use Rattle.flac_frame.specs.PlaneLists.{lists_of, AreAllWithin};

use crate::audio::Audio;
use crate::encode_buffers::EncodeBuffers;
use crate::frame_choice::FrameChoice;
use crate::pair::{choose_pair, write_pair};
use crate::pair_choices::PairChoices;
use crate::plane::choose_plane;
use crate::plane_predictors::PlanePredictors;
use crate::subject::Subject;
use flac_bits::{BitWriter, Target, Why};
use flac_header::{FrameHeader, write_header};
use flac_subframe::{LinearPredictor, WideChoice, Workspace, write_subframe_in};
use std::ops::Range;

/// Writes samples to places of 64 bits.
pub(crate) fn widen(samples: &[i32], out: &mut [i64])
    requires { length out.old ≡ length samples.now }
    ensures { out.new ≡ samples.now }
{
    for i in 0..samples.len() {
        out[i] = samples[i] as i64;
    }
}

/// Chooses a shortest subframe of each channel by itself, and returns how many bits they take.
fn choose_channels(
    subject: &Subject<'_>,
    samples: &mut [i64],
    workspace: &mut Workspace,
    subframes: &mut [WideChoice],
) -> u64
    requires size { length samples.old ≡ subject.now.size }
    requires block { subject.now.size ≤ workspace.old.block }
    requires partition { partition_limit subject.now.audio.now ≤ workspace.old.most }
    requires orders { HasOrders subject.now }
    requires choices { length subject.now.audio.now.channels ≤ length subframes.old }
    requires codings { AllHaveCodings workspace.old.most subframes.old }
    ensures chosen { HasChosen subject.now subframes.new }
    ensures bits { result ≡ length (apart_spelling subject.now subframes.new) }
    ensures codings { AllHaveCodings workspace.old.most subframes.new }
    ensures room { workspace.new ≡ workspace.old }
{
    let audio = subject.audio;
    let start = subject.start;
    let size = subject.size;
    let depth = audio.bits();
    let channels = audio.channels();
    let mut bits = 0;
    for i in 0..channels.len() {
        widen(audio.part(i, start, size), samples);
        let choice = &mut subframes[i];
        choose_plane(samples, depth, i, subject, workspace, choice);
        bits += choice.bits();
    }
    bits
}

/// Chooses how a block of any number of channels but two is written as a frame, with places for as many samples.
fn choose_apart(
    subject: &Subject<'_>,
    samples: &mut [i64],
    workspace: &mut Workspace,
    choice: &mut FrameChoice,
)
    requires other { length subject.now.audio.now.channels ≡ 2 → ⊥ }
    requires size { length samples.old ≡ subject.now.size }
    requires block { subject.now.size ≤ workspace.old.block }
    requires partition { partition_limit subject.now.audio.now ≤ workspace.old.most }
    requires choices { HasPlaces (length subject.now.audio.now.channels) workspace.old.most choice.old }
    requires number { subject.now.number < 2 ^ 31 }
    requires orders { HasOrders subject.now }
    ensures chosen { IsChoiceFor subject.now choice.new }
    ensures choices { HasPlaces (length subject.now.audio.now.channels) workspace.old.most choice.new }
    ensures many { length choice.new.subframes.items ≡ length choice.old.subframes.items }
    ensures room { workspace.new ≡ workspace.old }
{
    let audio = subject.audio;
    let size = subject.size as u32;
    let depth = audio.bits();
    let channels = audio.channels();
    choice.code = channels.len() as u8 - 1;
    choice.bits = choose_channels(subject, samples, workspace, &mut choice.subframes);
    // called for its clauses, that there is such a header
    let _header = FrameHeader::chosen_in(
        audio.profile(),
        size,
        audio.rate(),
        choice.code,
        depth,
        subject.number,
    );
}

/// Chooses how a block is written as a frame, with places for four times as many samples.
fn choose_first(
    subject: &Subject<'_>,
    places: &mut [i64],
    choices: &mut PairChoices,
    workspace: &mut Workspace,
    choice: &mut FrameChoice,
)
    requires places { 4 * subject.now.size ≤ length places.old }
    requires block { subject.now.size ≤ workspace.old.block }
    requires partition { partition_limit subject.now.audio.now ≤ workspace.old.most }
    requires codings { HaveCodings workspace.old.most choices.old }
    requires choices { HasPlaces (length subject.now.audio.now.channels) workspace.old.most choice.old }
    requires number { subject.now.number < 2 ^ 31 }
    requires orders { HasOrders subject.now }
    ensures chosen { IsChoiceFor subject.now choice.new }
    ensures codings { HaveCodings workspace.old.most choices.new }
    ensures choices { HasPlaces (length subject.now.audio.now.channels) workspace.old.most choice.new }
    ensures many { length choice.new.subframes.items ≡ length choice.old.subframes.items }
    ensures room { workspace.new ≡ workspace.old }
{
    let channels = subject.audio.channels();
    if channels.len() == 2 {
        choose_pair(subject, places, choices, workspace, choice);
        return;
    }
    choose_apart(subject, &mut places[..subject.size], workspace, choice);
}

/// Writes the subframe that was chosen of each channel by itself, with places for as many samples.
fn write_channels<W: Target>(
    subject: &Subject<'_>,
    choice: &FrameChoice,
    samples: &mut [i64],
    workspace: &mut Workspace,
    writer: &mut BitWriter<W>,
) -> Result<(), Why>
    requires size { length samples.old ≡ subject.now.size }
    requires block { subject.now.size ≤ workspace.old.block }
    requires choices { length subject.now.audio.now.channels ≤ length choice.now.subframes.items }
    requires made { AreMadeByPlane (lists_in subject.now) choice.now.subframes.items (block_samples subject.now) }
    ensures text { Writes (apart_spelling subject.now choice.now.subframes.items) writer.old writer.new result }
    ensures room { workspace.new ≡ workspace.old }
{
    let audio = subject.audio;
    let start = subject.start;
    let size = subject.size;
    let depth = audio.bits();
    let channels = audio.channels();
    let subframes = choice.subframes.as_slice();
    for i in 0..channels.len() {
        widen(audio.part(i, start, size), samples);
        let predictors = subject.predictors.list(i);
        write_subframe_in(&subframes[i], predictors, samples, depth, workspace, writer)?;
    }
    Ok(())
}

/// Writes the zeros up to a whole byte, and CRC-16 (RFC 9639, section 9.3).
pub(crate) fn write_end<W: Target>(writer: &mut BitWriter<W>) -> Result<(), Why>
    ensures { Writes (end_spelling writer.old.mark) writer.old writer.new result }
{
    writer.align()?;
    let check = writer.check16();
    writer.put(16, check as u64)
}

/// Writes the subframes that were chosen of a block, with places for twice as many samples.
fn write_subframes<W: Target>(
    subject: &Subject<'_>,
    choice: &FrameChoice,
    places: &mut [i64],
    workspace: &mut Workspace,
    writer: &mut BitWriter<W>,
) -> Result<(), Why>
    requires places { 2 * subject.now.size ≤ length places.old }
    requires block { subject.now.size ≤ workspace.old.block }
    requires choices { length subject.now.audio.now.channels ≤ length choice.now.subframes.items }
    requires chosen { IsChoiceFor subject.now choice.now }
    ensures text { Writes (choice_spelling subject.now choice.now) writer.old writer.new result }
    ensures room { workspace.new ≡ workspace.old }
{
    let channels = subject.audio.channels();
    if channels.len() == 2 {
        return write_pair(subject, choice, places, workspace, writer);
    }
    let size = subject.size;
    write_channels(subject, choice, &mut places[..size], workspace, writer)
}

/// Writes the frame that was chosen of a block, with places for twice as many samples.
fn write_first<W: Target>(
    subject: &Subject<'_>,
    choice: &FrameChoice,
    places: &mut [i64],
    workspace: &mut Workspace,
    writer: &mut BitWriter<W>,
) -> Result<(), Why>
    requires places { 2 * subject.now.size ≤ length places.old }
    requires block { subject.now.size ≤ workspace.old.block }
    requires choices { length subject.now.audio.now.channels ≤ length choice.now.subframes.items }
    requires chosen { IsChoiceFor subject.now choice.now }
    requires whole { writer.old.mark.unread ≡ 0 }
    ensures wrote { WritesFrameOf subject.now writer.old writer.new result }
    ensures room { workspace.new ≡ workspace.old }
{
    let header = choice.header(subject.audio, subject.size, subject.number);
    write_header(&header, writer)?;
    write_subframes(subject, choice, places, workspace, writer)?;
    write_end(writer)
}

/// Chooses how samples `range` of each channel are written as frame `number`, before anything of it is written (RFC
/// 9639, section 9). [`FrameChoice::frame_bytes`] then counts its bytes, and [`write_frame`] writes it.
///
/// Each subframe is a shortest one over constant, verbatim, the fixed predictors and the linear ones that are passed. A
/// linear predictor is used only if its order is below the number of samples and each residual value is above -2^31 and
/// below 2^31. Among equals the fixed ones come first, then the linear ones in the order of the list. Two channels are
/// written as left and right, left and side, side and right, or mid and side (section 9.1.3), whichever takes the
/// fewest bits; among equals the first.
///
/// The range is within the samples, not empty, and no longer than the buffers' blocks; the number is below 2^31. The
/// order of each predictor is at most [`crate::greatest_order`]: [`LinearPredictor::are_within`] tests it.
///
/// The buffers are made for the profile of the samples, or for [`flac_header::Profile::Lax`]; the choice is made for
/// the profile of the buffers, and has a place for each channel. Nothing is allocated.
pub fn choose_frame(
    audio: &Audio,
    range: Range<usize>,
    number: u64,
    predictors: &[LinearPredictor],
    buffers: &mut EncodeBuffers,
    choice: &mut FrameChoice,
)
    requires some { range.start < range.end }
    requires within { range.end ≤ samples_each audio.now.channels }
    requires room { range.end - range.start ≤ buffers.old.block }
    requires partition { partition_limit audio.now ≤ buffers.old.most }
    requires number { number < 2 ^ 31 }
    requires orders { AreWithin (limits_at audio.now.profile audio.now.rate).linear predictors.now }
    requires places { HasPlaces (length audio.now.channels) buffers.old.most choice.old }
    ensures kept { buffers.new ≡ buffers.old }
    ensures chosen { IsRangeWith predictors.now audio.now range.start range.end number choice.new }
    ensures places { HasPlaces (length audio.now.channels) buffers.old.most choice.new }
    ensures many { length choice.new.subframes.items ≡ length choice.old.subframes.items }
{
    let planes = PlanePredictors::same(predictors);
    choose_frame_by_plane(audio, range, number, &planes, buffers, choice);
}

/// Chooses how samples `range` of each channel are written as frame `number`, as [`choose_frame`] does, with a list of
/// linear predictors for each plane: a subframe of a plane may be by one of the plane's own list, and by none of another.
///
/// The arguments are as for [`choose_frame`]; [`PlanePredictors::are_within`] tests the orders.
pub fn choose_frame_by_plane(
    audio: &Audio,
    range: Range<usize>,
    number: u64,
    predictors: &PlanePredictors<'_>,
    buffers: &mut EncodeBuffers,
    choice: &mut FrameChoice,
)
    requires some { range.start < range.end }
    requires within { range.end ≤ samples_each audio.now.channels }
    requires room { range.end - range.start ≤ buffers.old.block }
    requires partition { partition_limit audio.now ≤ buffers.old.most }
    requires number { number < 2 ^ 31 }
    requires orders { AreAllWithin (limits_at audio.now.profile audio.now.rate).linear (lists_of predictors.now) }
    requires places { HasPlaces (length audio.now.channels) buffers.old.most choice.old }
    ensures kept { buffers.new ≡ buffers.old }
    ensures chosen { IsRangeByPlane (lists_of predictors.now) audio.now range.start range.end number choice.new }
    ensures places { HasPlaces (length audio.now.channels) buffers.old.most choice.new }
    ensures many { length choice.new.subframes.items ≡ length choice.old.subframes.items }
{
    // read for the invariant of the buffers
    let _places = buffers.places.len();
    let block = Subject::of(audio, range, number, predictors);
    choose_first(
        &block,
        &mut buffers.places,
        &mut buffers.choices,
        &mut buffers.workspace,
        choice,
    );
}

/// Writes the frame that [`choose_frame`] chose for this range of the samples, this number and these predictors (RFC
/// 9639, section 9). The writer is at a whole byte.
///
/// ```
/// let mut choice = FrameChoice::new(alloc, audio.profile(), audio.channels().len())?;
/// choose_frame(&audio, start..end, number, &predictors, &mut buffers, &mut choice);
/// let bytes = choice.frame_bytes(&audio, end - start, number);
/// write_frame(&audio, start..end, number, &choice, &predictors, &mut buffers, &mut writer)?;
/// ```
///
/// # Errors
/// [`Why::Write`] if the target returns an error.
pub fn write_frame<W: Target>(
    audio: &Audio,
    range: Range<usize>,
    number: u64,
    choice: &FrameChoice,
    predictors: &[LinearPredictor],
    buffers: &mut EncodeBuffers,
    writer: &mut BitWriter<W>,
) -> Result<(), Why>
    requires some { range.start < range.end }
    requires within { range.end ≤ samples_each audio.now.channels }
    requires room { range.end - range.start ≤ buffers.old.block }
    requires places { length audio.now.channels ≤ length choice.now.subframes.items }
    requires chosen { IsRangeWith predictors.now audio.now range.start range.end number choice.now }
    requires whole { writer.old.mark.unread ≡ 0 }
    ensures kept { buffers.new ≡ buffers.old }
    ensures wrote { EncodesWith predictors.now audio.now range.start range.end number writer.old writer.new result }
{
    let planes = PlanePredictors::same(predictors);
    write_frame_by_plane(audio, range, number, choice, &planes, buffers, writer)
}

/// Writes the frame that [`choose_frame_by_plane`] chose for this range of the samples, this number and these predictors
/// (RFC 9639, section 9). The writer is at a whole byte.
///
/// # Errors
/// [`Why::Write`] if the target returns an error.
pub fn write_frame_by_plane<W: Target>(
    audio: &Audio,
    range: Range<usize>,
    number: u64,
    choice: &FrameChoice,
    predictors: &PlanePredictors<'_>,
    buffers: &mut EncodeBuffers,
    writer: &mut BitWriter<W>,
) -> Result<(), Why>
    requires some { range.start < range.end }
    requires within { range.end ≤ samples_each audio.now.channels }
    requires room { range.end - range.start ≤ buffers.old.block }
    requires places { length audio.now.channels ≤ length choice.now.subframes.items }
    requires chosen { IsRangeByPlane (lists_of predictors.now) audio.now range.start range.end number choice.now }
    requires whole { writer.old.mark.unread ≡ 0 }
    ensures kept { buffers.new ≡ buffers.old }
    ensures wrote { EncodesByPlane predictors.now audio.now range.start range.end number writer.old writer.new result }
{
    // read for the invariant of the buffers
    let _places = buffers.places.len();
    let frame = Subject::of(audio, range, number, predictors);
    write_first(
        &frame,
        choice,
        &mut buffers.places,
        &mut buffers.workspace,
        writer,
    )
}

/// Chooses how samples `range` of each channel are written as frame `number`, as [`choose_frame`] does without linear
/// predictors, and writes it. The writer is at a whole byte. Returns how many bytes the frame has, 1 to 16777215.
///
/// The range is not empty and within the samples, the number is below 2^31, and the buffers have room for the range.
/// They are made for the profile of the samples, by [`EncodeBuffers::new_in`] with [`Audio::profile`], or for
/// [`flac_header::Profile::Lax`], whose buffers serve both profiles; for samples of [`Audio::new`] also by
/// [`EncodeBuffers::new`]. Buffers of the subset have no room for the partitions of other samples (RFC 9639, section
/// 7).
///
/// ```
/// let mut buffers = EncodeBuffers::new_in(alloc, audio.profile(), 4096)?;
/// let bytes = encode_frame(&audio, 0..4096, 0, &mut buffers, &mut writer)?;
/// ```
///
/// # Errors
/// [`Why::Write`] if the target returns an error. Buffers that do not fit are no error: such a call is not proved.
pub fn encode_frame<W: Target>(
    audio: &Audio,
    range: Range<usize>,
    number: u64,
    buffers: &mut EncodeBuffers,
    writer: &mut BitWriter<W>,
) -> Result<u64, Why>
    requires some { range.start < range.end }
    requires within { range.end ≤ samples_each audio.now.channels }
    requires room { range.end - range.start ≤ buffers.old.block }
    requires partition { partition_limit audio.now ≤ buffers.old.most }
    requires number { number < 2 ^ 31 }
    requires whole { writer.old.mark.unread ≡ 0 }
    ensures kept { buffers.new ≡ buffers.old }
    ensures wrote { EncodesRange audio.now range.start range.end number writer.old writer.new result }
    ensures counted { IfOk result (λ bytes. writer.new.mark.bytes ≡ writer.old.mark.bytes + bytes) }
    // The count of the writer stops at 2^64 - 1.
    ensures bytes { IfOk result (CountsBytes writer.old writer.new) }
{
    encode_frame_with(audio, range, number, &[], buffers, writer)
}

/// Chooses how samples `range` of each channel are written as frame `number`, as [`choose_frame`] does, and writes it.
/// The writer is at a whole byte. Returns how many bytes the frame has, 1 to 16777215. It allocates nothing. The
/// buffers are as for [`encode_frame`].
///
/// # Errors
/// [`Why::Write`] if the target returns an error.
pub fn encode_frame_with<W: Target>(
    audio: &Audio,
    range: Range<usize>,
    number: u64,
    predictors: &[LinearPredictor],
    buffers: &mut EncodeBuffers,
    writer: &mut BitWriter<W>,
) -> Result<u64, Why>
    requires some { range.start < range.end }
    requires within { range.end ≤ samples_each audio.now.channels }
    requires room { range.end - range.start ≤ buffers.old.block }
    requires partition { partition_limit audio.now ≤ buffers.old.most }
    requires number { number < 2 ^ 31 }
    requires orders { AreWithin (limits_at audio.now.profile audio.now.rate).linear predictors.now }
    requires whole { writer.old.mark.unread ≡ 0 }
    ensures kept { buffers.new ≡ buffers.old }
    ensures wrote { EncodesWith predictors.now audio.now range.start range.end number writer.old writer.new result }
    ensures counted { IfOk result (λ bytes. writer.new.mark.bytes ≡ writer.old.mark.bytes + bytes) }
    // The count of the writer stops at 2^64 - 1.
    ensures bytes { IfOk result (CountsBytes writer.old writer.new) }
{
    let planes = PlanePredictors::same(predictors);
    encode_frame_by_plane(audio, range, number, &planes, buffers, writer)
}

/// Chooses how samples `range` of each channel are written as frame `number`, as [`choose_frame_by_plane`] does, and
/// writes it. The writer is at a whole byte. Returns how many bytes the frame has, 1 to 16777215. It allocates nothing.
/// The buffers are as for [`encode_frame`].
///
/// # Errors
/// [`Why::Write`] if the target returns an error.
pub fn encode_frame_by_plane<W: Target>(
    audio: &Audio,
    range: Range<usize>,
    number: u64,
    predictors: &PlanePredictors<'_>,
    buffers: &mut EncodeBuffers,
    writer: &mut BitWriter<W>,
) -> Result<u64, Why>
    requires some { range.start < range.end }
    requires within { range.end ≤ samples_each audio.now.channels }
    requires room { range.end - range.start ≤ buffers.old.block }
    requires partition { partition_limit audio.now ≤ buffers.old.most }
    requires number { number < 2 ^ 31 }
    requires orders { AreAllWithin (limits_at audio.now.profile audio.now.rate).linear (lists_of predictors.now) }
    requires whole { writer.old.mark.unread ≡ 0 }
    ensures kept { buffers.new ≡ buffers.old }
    ensures wrote { EncodesByPlane predictors.now audio.now range.start range.end number writer.old writer.new result }
    ensures counted { IfOk result (λ bytes. writer.new.mark.bytes ≡ writer.old.mark.bytes + bytes) }
    // The count of the writer stops at 2^64 - 1.
    ensures bytes { IfOk result (CountsBytes writer.old writer.new) }
{
    // called for its clauses, that the samples can be encoded
    let _channels = audio.channels();
    let before = writer.bytes_written();
    // read for the invariant of the buffers
    let _places = buffers.places.len();
    let subject = Subject::of(audio, range, number, predictors);
    choose_first(
        &subject,
        &mut buffers.places,
        &mut buffers.choices,
        &mut buffers.workspace,
        &mut buffers.choice,
    );
    write_first(
        &subject,
        &buffers.choice,
        &mut buffers.places,
        &mut buffers.workspace,
        writer,
    )?;
    Ok(writer.bytes_written() - before)
}
