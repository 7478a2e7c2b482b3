//! `flac encode` of WAV files.

ghost use Rattle.std.specs.Prelude.{◌≡◌, ◌≢◌, ◌≤◌, ◌<◌, ◌++◌, [], true, map, IfOk, IfErr, OnOk, OnErr, Some, None};
ghost use Rattle.flac_native.specs.Given.{fits_plan};
ghost use Rattle.flac_cli.specs.Calls.{IfKnown, IfServed, IfAllServe};
ghost use Rattle.flac_cli.specs.Asked.{texts_of};
ghost use Rattle.flac_cli.specs.Refusals.{refusal_of};
ghost use Rattle.flac_cli.specs.WaveRefusals.{refusal_of_wave, at_chunk, wave_text};
ghost use Rattle.flac_cli.specs.Waves.{format_with, kept_with, riff_block, EncodesWave, MayBeginWave};
ghost use Rattle.flac_cli.specs.inner.WaveSamples.{MakesRaw};
ghost use Rattle.flac_cli.specs.declared.encode_wave.WaveRefusal.TheVariants.{Refused};
ghost use Rattle.flac_cli.specs.declared.encode.Refusal.TheVariants as refusal;
ghost use Rattle.flac_bits.specs.declared.why.Why.TheVariants as why;
ghost use Rattle.flac_cli.specs.Reports.{files_of, AddsLine};
ghost use Rattle.flac_cli.specs.Named.{NamesWaveEncoding};
ghost use Rattle.flac_cli.specs.inner.Encoding.{AreAllowed, IsListFault, WritesAs};
ghost use Rattle.flac_cli.specs.inner.Preparing.{blocks_with, IsReadyFor, IsReadyFile, IsFileRefusal, RefusesFile, CanBeEncodedAs, RefusesAsWave, ReportsFile, not_written};
ghost use Rattle.flac_native.specs.Sent.{TargetFailed};

use crate::comments::comments_of;
use crate::encode::{Encoding, Refusal, plan_of, refuse_encoding, write_stream};
use crate::lines::{At, write_line};
use crate::predictors::{ListFault, predictors_in};
use crate::searching::searched;
use crate::speakers::with_mask;
use crate::wave_file::{WaveFile, read_file};
use crate::wave_samples::WaveSamples;
use flac_bits::{Source, Target, Why};
use flac_frame::{Audio, SetupFault, format_fault};
use flac_jobs::{Job, RawFormat};
use flac_meta::{Block, BlockList, Bytes};
use flac_native::{EncodeFault, Plan, Profile};
use flac_subframe::LinearPredictor;
use flac_wave::{WaveError, WaveFault, WaveFormat};
use std::alloc::{AllocError, Global};

/// Why a WAV file is not encoded.
#[derive(Clone, Copy)]
pub(crate) enum WaveRefusal {
    /// The file is no WAV file.
    Wave(WaveFault),
    /// Its samples are not encoded.
    Refused(Refusal),
}

impl From<Why> for WaveRefusal {
    ghost from_gives = { λ reason e. e ≡ Refused (refusal.Input reason) };

    fn from(why: Why) -> WaveRefusal {
        WaveRefusal::Refused(Refusal::Input(why))
    }
}

impl From<AllocError> for WaveRefusal {
    ghost from_gives = { λ error e. e ≡ Refused (refusal.Input why.Memory) };

    fn from(_error: AllocError) -> WaveRefusal {
        WaveRefusal::Refused(Refusal::Input(Why::Memory))
    }
}

impl From<WaveError> for WaveRefusal {
    ghost from_gives = { λ error e. e ≡ refusal_of_wave error };

    fn from(error: WaveError) -> WaveRefusal {
        match error {
            WaveError::Memory => WaveRefusal::Refused(Refusal::Input(Why::Memory)),
            WaveError::Read => WaveRefusal::Refused(Refusal::Input(Why::Read)),
            WaveError::Fault(fault) => WaveRefusal::Wave(fault),
        }
    }
}

impl From<ListFault> for WaveRefusal {
    ghost from_gives = { λ fault e. e ≡ Refused (refusal_of fault) };

    fn from(fault: ListFault) -> WaveRefusal {
        WaveRefusal::Refused(Refusal::from(fault))
    }
}

impl From<SetupFault> for WaveRefusal {
    ghost from_gives = { λ fault e. e ≡ Refused (refusal.Setup fault) };

    fn from(fault: SetupFault) -> WaveRefusal {
        WaveRefusal::Refused(Refusal::Setup(fault))
    }
}

impl From<EncodeFault> for WaveRefusal {
    ghost from_gives = { λ fault e. e ≡ Refused (refusal.Output fault) };

    fn from(fault: EncodeFault) -> WaveRefusal {
        WaveRefusal::Refused(Refusal::Output(fault))
    }
}

impl From<Refusal> for WaveRefusal {
    ghost from_gives = { λ refusal e. e ≡ Refused refusal };

    fn from(refusal: Refusal) -> WaveRefusal {
        WaveRefusal::Refused(refusal)
    }
}

/// Samples in this format.
///
/// # Errors
/// The first reason for which they cannot be encoded: rate, depth, channels, too many samples.
fn wave_audio(
    profile: Profile,
    format: RawFormat,
    channels: Vec<Vec<i32>>,
) -> Result<Audio, SetupFault>
    ensures { MakesRaw profile format (map (λ c. c.items) channels.items) result }
{
    let count = format.channels as usize;
    if let Some(fault) = format_fault(profile, format.rate, format.bits, count) {
        return Err(fault);
    }
    let audio = Audio::new_in(profile, format.rate, format.bits, channels)?;
    // Read only for the proof, which then knows what the model of an `Audio` keeps to.
    let _channels = audio.channels();
    Ok(audio)
}

/// Adds blocks that keep these pieces.
fn keep(blocks: &mut Vec<Block>, alloc: Global, pieces: &[Vec<u8>]) -> Result<(), AllocError>
    ensures { OnOk result (blocks.new.items ≡ blocks.old.items ++ map (λ p. riff_block p.items) pieces.now) }
{
    for piece in pieces {
        let bytes = Vec::from_slice(alloc, piece.as_slice())?;
        blocks.push(Block::Application {
            id: *b"riff",
            bytes: Bytes::from_vec(bytes),
        })?;
    }
    Ok(())
}

/// The blocks after STREAMINFO: these words and speakers as comments, and the pieces of a WAV file.
fn kept_list(
    alloc: Global,
    words: &[&str],
    mask: Option<u32>,
    before: &[Vec<u8>],
    after: &[Vec<u8>],
) -> Result<BlockList, Why>
    ensures list { IfOk result (λ list. list ≡ kept_with (texts_of words.now) mask before.now after.now) }
    ensures accepted { OnOk result (AreAllowed (kept_with (texts_of words.now) mask before.now after.now)) }
    ensures refused { IfErr result (λ e. IsListFault (kept_with (texts_of words.now) mask before.now after.now) e) }
{
    let comments = comments_of(alloc, words)?;
    let all = with_mask(alloc, comments, mask)?;
    let mut blocks = Vec::new(alloc);
    blocks.push(Block::VorbisComment(all))?;
    keep(&mut blocks, alloc, before)?;
    keep(&mut blocks, alloc, after)?;
    BlockList::new(blocks)
}

/// The blocks after STREAMINFO that an encoding asks for of a WAV file of this format: its comments, and the pieces of
/// the file, if this is kept.
pub(crate) fn blocks_of(
    alloc: Global,
    encoding: &Encoding<'_>,
    format: &WaveFormat,
    before: &[Vec<u8>],
    after: &[Vec<u8>],
) -> Result<BlockList, Why>
    ensures list { IfOk result (λ list. list ≡ blocks_with encoding.now format.now before.now after.now) }
    ensures accepted { OnOk result (AreAllowed (blocks_with encoding.now format.now before.now after.now)) }
    ensures refused { IfErr result (λ e. IsListFault (blocks_with encoding.now format.now before.now after.now) e) }
{
    let mask = format.other_mask();
    if encoding.keep {
        return kept_list(alloc, encoding.comments, mask, before, after);
    }
    kept_list(alloc, encoding.comments, mask, &before[..0], &after[..0])
}

/// A WAV file, ready to be encoded.
#[derive(Drop)]
struct Ready {
    format: RawFormat,
    plan: Plan,
    list: BlockList,
    audio: Audio,
}

/// The format of the samples of a WAV file, for a stream of this depth.
pub(crate) fn format_of(format: &WaveFormat, depth: u32, asked: RawFormat) -> RawFormat
    ensures { result ≡ format_with asked format.now depth }
{
    RawFormat {
        rate: format.rate,
        channels: format.channels,
        bits: depth,
        block: asked.block,
        seek_every: asked.seek_every,
    }
}

/// Makes a WAV file ready to be encoded with these predictors.
///
/// # Errors
/// The first reason for which it cannot be: its samples, the block size and the seek points, the predictors, the
/// comments and the pieces. Out of memory.
fn ready_of(
    alloc: Global,
    encoding: &Encoding<'_>,
    predictors: Vec<LinearPredictor>,
    file: WaveFile,
) -> Result<Ready, Refusal>
    ensures found { IfOk result (λ r. IsReadyFile encoding.now predictors.items file r) }
    ensures fits { IfOk result (λ r. fits_plan r.plan r.audio ≡ true) }
    ensures none { IfOk result (λ r. r.plan.found ≡ []) }
    ensures refused { IfErr result (λ e. IsFileRefusal encoding.now predictors.items file e) }
    ensures unwritten { IfErr result (λ e. e ≢ refusal.Output EncodeFault.Write) }
{
    let WaveFile {
        format: wave,
        pieces,
        samples,
        after,
    } = file;
    let WaveSamples {
        depth,
        channels,
        odd: _,
    } = samples;
    let format = format_of(&wave, depth, encoding.format);
    let audio = wave_audio(encoding.profile, format, channels)?;
    let plan = plan_of(format, &audio, predictors)?;
    let list = blocks_of(alloc, encoding, &wave, pieces.as_slice(), after.as_slice())?;
    Ok(Ready {
        format,
        plan,
        list,
        audio,
    })
}

/// Reads a WAV file, and makes it ready to be encoded with these predictors. Of its bytes none are held that are
/// neither its samples nor kept.
///
/// # Errors
/// The first reason for which it cannot be: the file, its samples, the block size and the seek points, the predictors,
/// the comments and the pieces. An error of the source, or out of memory.
fn taken_apart<R: Source>(
    alloc: Global,
    encoding: &Encoding<'_>,
    predictors: Vec<LinearPredictor>,
    source: &mut R,
) -> Result<Ready, WaveRefusal>
    ensures found { IfOk result (λ r. IfKnown R.Source source.old (IsReadyFor encoding.now predictors.items r)) }
    ensures fits { IfOk result (λ r. fits_plan r.plan r.audio ≡ true) }
    ensures none { IfOk result (λ r. r.plan.found ≡ []) }
    ensures refused { RefusesFile R.Source encoding.now predictors.items source.old source.new result }
    ensures unwritten { IfErr result (λ e. e ≢ Refused (refusal.Output EncodeFault.Write)) }
{
    let file = read_file(alloc, encoding.to_end, source)?;
    let ready = ready_of(alloc, encoding, predictors, file)?;
    Ok(ready)
}

/// Encodes a WAV file, and writes the stream, which keeps all of the file if that is asked for. After an error, nothing
/// or a prefix of the stream was sent. The encoder tries the predictors that [`encode_raw`] tries.
///
/// [`encode_raw`]: crate::encode::encode_raw
///
/// # Errors
/// The first reason for which the file cannot be encoded as asked for: a line of the list, for which the source is not
/// read; the file; the samples, the block size and the seek points, the predictors, the comments and the pieces, the
/// container. An error of the source or of the target, or out of memory.
pub(crate) fn encode_wave<R: Source, W: Target>(
    alloc: Global,
    encoding: &Encoding<'_>,
    source: &mut R,
    target: &mut W,
) -> Result<(), WaveRefusal>
    ensures written { OnOk result (WritesAs R.Source W.Target EncodesWave encoding.now
        source.old target.old target.new) }
    ensures begun { OnErr result (WritesAs R.Source W.Target MayBeginWave encoding.now
        source.old target.old target.new) }
    ensures accepted { OnOk result (IfKnown R.Source source.old (CanBeEncodedAs encoding.now)) }
    ensures refused { RefusesAsWave R.Source encoding.now source.old source.new result }
    ensures failed { IfErr result (λ e. e ≡ not_written → TargetFailed W.Target target.old target.new) }
{
    let predictors = predictors_in(alloc, encoding.list)?;
    let ready = taken_apart(alloc, encoding, predictors, source)?;
    let tried = searched(alloc, encoding.effort, ready.plan, &ready.audio)?;
    write_stream(
        alloc,
        encoding.container,
        &tried,
        &ready.list,
        &ready.audio,
        target,
    )?;
    Ok(())
}

/// Where in a WAV file a fault is.
pub(crate) fn chunk_at(chunk: Option<u64>) -> At
    ensures { result ≡ at_chunk chunk }
{
    match chunk {
        Some(number) => At::Chunk(number),
        None => At::Whole,
    }
}

/// Writes the line of a WAV file that is refused, and returns the status 1.
pub(crate) fn refuse_wave<E: Target>(err: &mut E, path: &str, fault: WaveFault) -> u8
    ensures status { result ≡ 1 }
    ensures line { IfServed E.Target err.old err.new (AddsLine path.now (wave_text (WaveRefusal.Wave fault))) }
{
    // If it cannot be written, there is no one left to report it to.
    let _ = write_line(err, path, chunk_at(fault.chunk), fault.why.as_str());
    1
}

/// Encodes a WAV file. Returns the status.
pub(crate) fn run_encode_wave<R: Source, W: Target, E: Target>(
    alloc: Global,
    job: &Job<'_>,
    encoding: &Encoding<'_>,
    source: &mut R,
    target: &mut W,
    err: &mut E,
) -> u8
    ensures status { result ≤ 1 }
    ensures encoded { result ≡ 0 →
        WritesAs R.Source W.Target EncodesWave encoding.now source.old target.old target.new }
    ensures accepted { result ≡ 0 → IfKnown R.Source source.old (CanBeEncodedAs encoding.now) }
    ensures begun { result ≡ 1 → WritesAs R.Source W.Target MayBeginWave encoding.now source.old target.old target.new }
    ensures refused { IfAllServe R.Source W.Target E.Target source target err
        (ReportsFile encoding.now job.now result) }
    ensures named { result ≡ 1 → IfServed E.Target err.old err.new (NamesWaveEncoding (files_of job.now)) }
{
    match encode_wave(alloc, encoding, source, target) {
        Ok(()) => 0,
        Err(refusal) => match refusal {
            WaveRefusal::Wave(fault) => refuse_wave(err, job.input(), fault),
            WaveRefusal::Refused(reason) => refuse_encoding(err, job, reason),
        },
    }
}
