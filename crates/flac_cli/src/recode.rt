//! `flac recode`: a stream whose samples are encoded anew.

ghost use Rattle.std.specs.Prelude.{◌≡◌, ◌≢◌, ◌≤◌, ◌++◌, ◌∷◌, [], true, not, map, IfOk, IfErr, OnOk, OnErr, Some};
ghost use Rattle.std.specs.List.{filter};
ghost use Rattle.flac_meta.specs.declared.block.Block.{Block};
ghost use Rattle.flac_frame.specs.Audio.{MakesAudio};
ghost use Rattle.flac_native.specs.Given.{fits_plan};
ghost use Rattle.flac_native.specs.Sent.{TargetFailed};
ghost use Rattle.flac_cli.specs.Asked.{asked_of};
ghost use Rattle.flac_cli.specs.Calls.{IfServed};
ghost use Rattle.flac_cli.specs.Recoded.{is_comment, no_comments, comments_first, in_order, WritesAnew, BeginsAnew};
ghost use Rattle.flac_cli.specs.RecodeRefusals.{asked_for, files_for, ReportsRecode, NamesRecoding, RecodesFile, BeginsRecode, CanBeRecoded, AddsRefusal};
ghost use Rattle.flac_cli.specs.Refusals.{refusal_of};
ghost use Rattle.flac_cli.specs.inner.Holding.{view_of, IsHeldReason};
ghost use Rattle.flac_cli.specs.inner.WaveOutcomes.{fault_by};
ghost use Rattle.flac_cli.specs.declared.encode.Refusal.TheVariants as refusal;
ghost use Rattle.flac_cli.specs.declared.recode.RecodeRefusal.TheVariants.{Unread, Refused};
ghost use Rattle.flac_bits.specs.declared.why.Why.TheVariants as why;
ghost use Rattle.flac_cli.specs.inner.Recoding.{CanBeAudio, IsReadyHeld, HoldsSource, IsReadyFrom, IsFaultIn, IsInputRefusal, IsRecodeRefusal, not_written};

use crate::encode::{Encoding, Refusal, plan_of, refuse_encoding, write_stream};
use crate::held_stream::{HeldStream, StreamHolder};
use crate::predictors::{ListFault, predictors_in};
use crate::report::refuse;
use crate::searching::searched;
use crate::streams::profile_of;
use flac_bits::{Source, Target, Why};
use flac_frame::{Audio, SetupFault};
use flac_jobs::{ContainerKind, RawFormat, Recoding};
use flac_meta::{Block, BlockList, Bytes, Comments, StreamInfo, Texts};
use flac_native::{EncodeFault, Fault, Plan, Profile};
use flac_ogg::decode_any;
use flac_subframe::LinearPredictor;
use std::alloc::{AllocError, Global};

/// Why a stream is not encoded anew.
#[derive(Clone, Copy)]
pub(crate) enum RecodeRefusal {
    /// The stream is refused, or it cannot be read, or an allocation fails.
    Unread(Fault),
    /// Its samples are not encoded.
    Refused(Refusal),
}

impl From<ListFault> for RecodeRefusal {
    ghost from_gives = { λ fault e. e ≡ Refused (refusal_of fault) };

    fn from(fault: ListFault) -> RecodeRefusal {
        RecodeRefusal::Refused(Refusal::from(fault))
    }
}

impl From<Fault> for RecodeRefusal {
    ghost from_gives = { λ fault e. e ≡ Unread fault };

    fn from(fault: Fault) -> RecodeRefusal {
        RecodeRefusal::Unread(fault)
    }
}

impl From<Why> for RecodeRefusal {
    ghost from_gives = { λ reason e. e ≡ Refused (refusal.Input reason) };

    fn from(why: Why) -> RecodeRefusal {
        RecodeRefusal::Refused(Refusal::Input(why))
    }
}

impl From<EncodeFault> for RecodeRefusal {
    ghost from_gives = { λ fault e. e ≡ Refused (refusal.Output fault) };

    fn from(fault: EncodeFault) -> RecodeRefusal {
        RecodeRefusal::Refused(Refusal::Output(fault))
    }
}

impl From<Refusal> for RecodeRefusal {
    ghost from_gives = { λ refusal e. e ≡ Refused refusal };

    fn from(refusal: Refusal) -> RecodeRefusal {
        RecodeRefusal::Refused(refusal)
    }
}

/// Whether a block has comments.
fn is_comment(block: &Block) -> bool
    ensures { result ≡ is_comment block.now }
{
    matches!(block, Block::VorbisComment(_))
}

/// Comments without a vendor and without a comment.
fn no_comments(alloc: Global) -> Block
    ensures { result ≡ no_comments }
{
    Block::VorbisComment(Comments {
        vendor: Bytes::from_vec(Vec::new(alloc)),
        list: Texts::from_vec(Vec::new(alloc)),
    })
}

/// Adds a copy of a block to those that have comments, or else to the others.
fn sort_block(
    first: &mut Vec<Block>,
    rest: &mut Vec<Block>,
    block: &Block,
) -> Result<(), AllocError>
    ensures first { OnOk result (first.new.items ≡ first.old.items ++ filter is_comment (block.now ∷ [])) }
    ensures rest { OnOk result (rest.new.items ≡
        rest.old.items ++ filter (λ b. not (is_comment b)) (block.now ∷ [])) }
{
    let copy = block.clone()?;
    if is_comment(block) {
        first.push(copy)?;
    } else {
        rest.push(copy)?;
    }
    Ok(())
}

/// Copies of the blocks in the order in which an Ogg stream has them: comments first, none if there are none (RFC 9639,
/// section 10.1).
fn comments_first(alloc: Global, blocks: &[Block]) -> Result<Vec<Block>, AllocError>
    ensures { IfOk result (λ list. list.items ≡ comments_first blocks.now) }
{
    let mut first = Vec::new(alloc);
    let mut rest = Vec::new(alloc);
    for block in blocks {
        sort_block(&mut first, &mut rest, block)?;
    }
    if first.is_empty() {
        first.push(no_comments(alloc))?;
    }
    first.append(&mut rest)?;
    Ok(first)
}

/// The blocks that are kept of a stream, in the order in which the new one has them.
fn in_order(alloc: Global, container: ContainerKind, blocks: Vec<Block>) -> Result<Vec<Block>, Why>
    ensures order { IfOk result (λ list. list.items ≡ in_order container blocks.items) }
    ensures memory { IfErr result (λ e. e ≡ why.Memory) }
{
    match container {
        ContainerKind::Native => Ok(blocks),
        ContainerKind::Ogg { serial: _ } => {
            let sorted = comments_first(alloc, &blocks)?;
            Ok(sorted)
        }
    }
}

/// The samples of a stream with this STREAMINFO.
///
/// # Errors
/// The first reason for which they cannot be encoded.
fn audio_of(
    profile: Profile,
    info: &StreamInfo,
    channels: Vec<Vec<i32>>,
) -> Result<Audio, SetupFault>
    ensures made { MakesAudio profile info.now.rate info.now.depth (map (λ c. c.items) channels.items) result }
    ensures good { OnOk result (CanBeAudio profile info.now channels.items) }
{
    let audio = Audio::new_in(profile, info.rate(), u32::from(info.depth()), channels)?;
    // Read only for the proof, which then knows what the model of an `Audio` keeps to.
    let _channels = audio.channels();
    Ok(audio)
}

/// A stream that was read, ready to be written.
#[derive(Drop)]
pub(crate) struct Ready {
    pub(crate) plan: Plan,
    pub(crate) list: BlockList,
    pub(crate) audio: Audio,
}

/// Makes a stream that was read ready to be written with these predictors.
///
/// # Errors
/// The first reason for which it cannot be: its samples, the block size and the seek points, the predictors, the
/// blocks. Out of memory.
pub(crate) fn ready_of(
    alloc: Global,
    encoding: &Encoding<'_>,
    predictors: Vec<LinearPredictor>,
    held: HeldStream,
) -> Result<Ready, Refusal>
    ensures found { IfOk result (λ r. IsReadyHeld encoding.now predictors.items held r) }
    ensures fits { IfOk result (λ r. fits_plan r.plan r.audio ≡ true) }
    ensures none { IfOk result (λ r. r.plan.found ≡ []) }
    ensures refused { IfErr result (λ e. IsHeldReason (asked_of encoding.now) predictors.items (view_of held) e) }
    ensures unwritten { IfErr result (λ e. e ≢ refusal.Output EncodeFault.Write) }
{
    let HeldStream {
        info,
        blocks,
        channels,
    } = held;
    let Some(info) = info else {
        return Err(Refusal::Input(Why::NotStreamInfoFirst));
    };
    let audio = audio_of(encoding.profile, &info, channels)?;
    let plan = plan_of(encoding.format, &audio, predictors)?;
    let ordered = in_order(alloc, encoding.container, blocks)?;
    let list = BlockList::new(ordered)?;
    Ok(Ready { plan, list, audio })
}

/// The fault of a stream that is held, whose sink fails only if an allocation does.
pub(crate) fn fault_of(fault: Fault) -> Fault
    ensures { result ≡ fault_by true fault }
{
    match fault.why {
        Why::Sink => Fault {
            at: fault.at,
            why: Why::Memory,
        },
        _ => fault,
    }
}

/// Reads a stream, native or Ogg, also outside the streamable subset, and holds all of it.
///
/// # Errors
/// The place and the reason. The stream is refused; an error of the source, or out of memory.
fn read_stream<R: Source>(alloc: Global, source: &mut R) -> Result<HeldStream, Fault>
    ensures held { IfOk result (λ held. HoldsSource R.Source source.old held) }
    ensures refused { IfErr result (λ f. IsFaultIn R.Source source.old source.new f) }
{
    let mut holder = StreamHolder::new(alloc);
    let outcome = decode_any(alloc, source, Profile::Lax, &mut holder);
    let StreamHolder {
        held,
        alloc: _,
        failures: _,
    } = holder;
    match outcome {
        Ok(()) => Ok(held),
        Err(fault) => Err(fault_of(fault)),
    }
}

/// Reads a stream, and makes it ready to be written with these predictors.
///
/// # Errors
/// The first reason for which it cannot be: its fault; its samples, the block size and the seek points, the predictors,
/// the blocks. An error of the source, or out of memory.
fn prepared<R: Source>(
    alloc: Global,
    encoding: &Encoding<'_>,
    predictors: Vec<LinearPredictor>,
    source: &mut R,
) -> Result<Ready, RecodeRefusal>
    ensures found { IfOk result (λ r. IsReadyFrom R.Source encoding.now predictors.items source.old r) }
    ensures fits { IfOk result (λ r. fits_plan r.plan r.audio ≡ true) }
    ensures none { IfOk result (λ r. r.plan.found ≡ []) }
    ensures refused { IfErr result
        (λ e. IsInputRefusal R.Source encoding.now predictors.items source.old source.new e) }
    ensures unwritten { IfErr result (λ e. e ≢ Refused (refusal.Output EncodeFault.Write)) }
{
    let held = read_stream(alloc, source)?;
    let ready = ready_of(alloc, encoding, predictors, held)?;
    Ok(ready)
}

/// Encodes the samples of a stream anew, and writes a stream of them with its metadata blocks. After an error, nothing
/// or a prefix of the new stream was sent. The encoder tries the predictors that [`encode_raw`] tries.
///
/// [`encode_raw`]: crate::encode::encode_raw
///
/// # Errors
/// The first reason for which it cannot be encoded as asked for: a line of the list, for which the source is not read;
/// the fault of the stream; its samples, the block size and the seek points, the predictors, the blocks, the container.
/// An error of the source or of the target, or out of memory.
fn recode_stream<R: Source, W: Target>(
    alloc: Global,
    encoding: &Encoding<'_>,
    source: &mut R,
    target: &mut W,
) -> Result<(), RecodeRefusal>
    ensures written { OnOk result (WritesAnew R.Source W.Target (asked_of encoding.now)
        source.old target.old target.new) }
    ensures begun { OnErr result (BeginsAnew R.Source W.Target (asked_of encoding.now)
        source.old target.old target.new) }
    ensures accepted { OnOk result (CanBeRecoded R.Source (asked_of encoding.now) source.old) }
    ensures refused { IfErr result (λ e. IsRecodeRefusal R.Source encoding.now source.old source.new e) }
    ensures failed { IfErr result (λ e. e ≡ not_written → TargetFailed W.Target target.old target.new) }
{
    let predictors = predictors_in(alloc, encoding.list)?;
    let ready = prepared(alloc, encoding, predictors, source)?;
    let tried = searched(alloc, encoding.effort, ready.plan, &ready.audio)?;
    write_stream(
        alloc,
        encoding.container,
        &tried,
        &ready.list,
        &ready.audio,
        target,
    )?;
    Ok(())
}

/// What a recoding asks an encoding for.
pub(crate) fn encoding_of<'a>(recoding: &Recoding<'_>, list: &'a [u8]) -> Encoding<'a>
    ensures { asked_of result ≡ asked_for recoding.now list.now }
{
    Encoding {
        profile: profile_of(recoding.lax),
        format: RawFormat {
            rate: 0,
            channels: 0,
            bits: 0,
            block: recoding.block,
            seek_every: recoding.seek_every,
        },
        container: recoding.container,
        comments: &[],
        list,
        effort: recoding.effort,
        any: true,
        keep: false,
        to_end: false,
    }
}

/// Writes the line of a recoding that failed, and returns the status 1.
pub(crate) fn refuse_recoding<E: Target>(
    alloc: Global,
    err: &mut E,
    recoding: &Recoding<'_>,
    refused: RecodeRefusal,
) -> u8
    ensures status { result ≡ 1 }
    ensures line { IfServed E.Target err.old err.new (AddsRefusal (files_for recoding.now) refused) }
{
    match refused {
        RecodeRefusal::Unread(fault) => refuse(err, recoding.input, Some(fault.at), fault.why),
        RecodeRefusal::Refused(reason) => {
            let job = recoding.to_encoding(alloc);
            refuse_encoding(err, &job, reason)
        }
    }
}

/// Reads a stream, native or Ogg, also outside the streamable subset, and encodes its samples anew. The new stream has
/// the same metadata blocks but for STREAMINFO and the seek table. Returns the exit status: 0 if it is written, else 1.
///
/// - `list`: the text of the recoding's list of predictors, empty if it has none.
/// - `source`: the stream.
/// - `target`: the file that is written.
/// - `err`: standard error. After status 1 the line of the error was written to it.
pub fn recode_file<R: Source, W: Target, E: Target>(
    alloc: Global,
    recoding: &Recoding<'_>,
    list: &[u8],
    source: &mut R,
    target: &mut W,
    err: &mut E,
) -> u8
    // The status is 0 or 1.
    ensures status { result ≤ 1 }
    // After status 0 the input is a stream, and exactly one of its samples and its blocks was added to the target.
    ensures recoded { result ≡ 0 →
        RecodesFile R.Source W.Target recoding.now list.now source.old target.old target.new }
    // After status 0 there was no reason to refuse it.
    ensures accepted { result ≡ 0 → CanBeRecoded R.Source (asked_for recoding.now list.now) source.old }
    // After status 1 nothing was added, or a prefix of such a stream.
    ensures begun { result ≡ 1 → BeginsRecode R.Source W.Target recoding.now list.now source.old target.old target.new }
    // If no device fails: the status is 1, and the line of the first reason to refuse the recoding was added to
    // standard error; or there is no reason, the status is 0, and nothing was added; or memory ran out, the status is
    // 1, and the line says that.
    ensures reported { ReportsRecode R.Source W.Target E.Target recoding.now list.now result source target err }
    // After status 1, whatever failed, its line was added to standard error, if that did not fail. It names the output
    // if that could not be written (39), the list for its predictors, and else the input.
    ensures named { result ≡ 1 → IfServed E.Target err.old err.new (NamesRecoding (files_for recoding.now)) }
{
    let encoding = encoding_of(recoding, list);
    match recode_stream(alloc, &encoding, source, target) {
        Ok(()) => 0,
        Err(refused) => refuse_recoding(alloc, err, recoding, refused),
    }
}
