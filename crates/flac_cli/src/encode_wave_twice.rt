//! `flac encode` of WAV files that can be read twice, as regular files: it holds one block of their samples.

ghost use Rattle.std.specs.Prelude.{◌≡◌, ◌≢◌, ◌≤◌, ◌++◌, ◌*◌, true, false, List, ℕ, None, Some, IfOk, IfErr, OnOk, OnErr};
ghost use Rattle.flac_native.specs.declared.fault.EncodeFault.TheVariants as encode;
ghost use Rattle.flac_raw.specs.Encoded.{HasSent, FailsLeft};
ghost use Rattle.flac_wave.specs.Format.{IsInRange};
ghost use Rattle.flac_wave.specs.Wave.{all_of};
ghost use Rattle.flac_cli.specs.Calls.{IfServed, IfKnown, IfRead};
ghost use Rattle.flac_cli.specs.Refusals.{refusal_of};
ghost use Rattle.flac_cli.specs.WaveRefusals.{CanBeKept};
ghost use Rattle.flac_cli.specs.Waves.{contents, wave_asked_by, wave_samples, stream_samples};
ghost use Rattle.flac_cli.specs.inner.WaveRaw.{Lowers, low_of};
ghost use Rattle.flac_cli.specs.WaveTwice.{is_wave_twice, WritesWaveTwice, AddsWaveTwiceLine, FailsWaveTwice, StopsWaveTwice};
ghost use Rattle.flac_cli.specs.declared.encode.Refusal.TheVariants.{Input, Output};
ghost use Rattle.flac_cli.specs.declared.encode_wave.WaveRefusal.TheVariants.{Refused};
ghost use Rattle.flac_cli.specs.inner.Preparing.{CanBeEncodedAs, RefusesFile};
ghost use Rattle.flac_cli.specs.inner.WaveSurvey.{HasDepth};
ghost use Rattle.flac_cli.specs.inner.WaveTwice.{as_wave_twice, wave_reason_as, IsForm, IsPlannedOf, IsPlannedFor};
ghost use Rattle.flac_cli.specs.inner.WaveTwice.{stream_fault_by, EncodesStream, StopsStream, CanBeCut, StopsCut};
ghost use Rattle.flac_cli.specs.inner.WaveTwice.{IsPlanRefusal, SendsPlan, StopsPlan, StopsWaveFor, WritesWaveFor};

use crate::dispatch::Task;
use crate::encode::{Encoding, Refusal, refuse_encoding};
use crate::encode_twice::reason_as;
use crate::encode_wave::{WaveRefusal, blocks_of, format_of, refuse_wave};
use crate::lines::{At, write_line};
use crate::predictors::{ListFault, predictors_in};
use crate::searching::search_of;
use crate::streams::profile_of;
use crate::wave_raw::{Lowered, Lowering, Turned, low_places};
use crate::wave_survey::{WaveSurvey, survey_file};
use flac_bits::{Source, Target, Why};
use flac_draft::Rewritable;
use flac_frame::{SetupFault, format_fault};
use flac_jobs::{ContainerKind, Job, RawFormat};
use flac_meta::BlockList;
use flac_native::{EncodeFault, sample_width};
use flac_raw::{PIECE, RawEncodeFault, RawPlan, encode_judged_in};
use flac_subframe::LinearPredictor;
use flac_wave::{Limited, fill};
use std::alloc::Global;

/// Why a WAV file that is read twice is not encoded. [`encode_wave_file_twice`] has written its line.
#[derive(Clone, Copy)]
pub struct WaveTwiceFault {
    /// The reason for which [`crate::run`] refuses it too; `None` if the second time other bytes came than the first.
    pub(crate) reason: Option<WaveRefusal>,
}

impl From<WaveRefusal> for WaveTwiceFault {
    ghost from_gives = { λ refusal e. e ≡ as_wave_twice refusal };

    fn from(refusal: WaveRefusal) -> WaveTwiceFault {
        WaveTwiceFault {
            reason: Some(refusal),
        }
    }
}

impl From<ListFault> for WaveTwiceFault {
    ghost from_gives = { λ fault e. e ≡ as_wave_twice (Refused (refusal_of fault)) };

    fn from(fault: ListFault) -> WaveTwiceFault {
        WaveTwiceFault {
            reason: Some(WaveRefusal::Refused(Refusal::from(fault))),
        }
    }
}

impl From<Why> for WaveTwiceFault {
    ghost from_gives = { λ why e. e ≡ as_wave_twice (Refused (Input why)) };

    fn from(why: Why) -> WaveTwiceFault {
        WaveTwiceFault {
            reason: Some(WaveRefusal::Refused(Refusal::Input(why))),
        }
    }
}

impl From<RawEncodeFault> for WaveTwiceFault {
    ghost from_gives = { λ fault e. e ≡ wave_reason_as fault };

    fn from(fault: RawEncodeFault) -> WaveTwiceFault {
        match reason_as(fault) {
            Some(refusal) => WaveTwiceFault {
                reason: Some(WaveRefusal::Refused(refusal)),
            },
            None => WaveTwiceFault { reason: None },
        }
    }
}

/// The stream that is to be written of samples.
#[derive(Drop)]
struct StreamPlan {
    container: ContainerKind,
    /// How the samples are encoded.
    plan: RawPlan,
    /// The blocks after STREAMINFO.
    list: BlockList,
}

/// What is to be encoded of a WAV file, after the first pass.
#[derive(Drop)]
struct WavePlan {
    /// The stream of its samples.
    stream: StreamPlan,
    /// What comes before the samples.
    pieces: Vec<Vec<u8>>,
    /// How many bytes of what comes after that are the samples, at most; `None` if all are.
    size: Option<u64>,
    /// How many bytes a sample has in the file.
    wide: usize,
    /// How many bits a stream has of it.
    depth: u32,
}

/// How the samples of a WAV file are encoded, of which this was found, with these predictors.
///
/// # Errors
/// The first reason for which they cannot be: the rate, the depth or the channels, too many samples, the block size and
/// the seek points, the predictors.
fn raw_plan_of(
    encoding: &Encoding<'_>,
    format: RawFormat,
    total: u64,
    predictors: Vec<LinearPredictor>,
) -> Result<RawPlan, SetupFault>
    ensures made { IfOk result (λ p. CanBeCut encoding.now format total predictors.items p) }
    ensures refused { IfErr result (StopsCut encoding.now format total predictors.items) }
{
    let channels = format.channels as usize;
    if let Some(fault) = format_fault(encoding.profile, format.rate, format.bits, channels) {
        return Err(fault);
    }
    if total >= 1 << 36 {
        return Err(SetupFault::TooLong);
    }
    let search = search_of(encoding.effort);
    RawPlan::new(encoding.profile, format, total, predictors, search)
}

/// What is to be encoded of a WAV file of which this was found, with these predictors. Only the container can be a
/// reason to refuse it then.
///
/// # Errors
/// The first reason for which it cannot be: its samples, the block size and the seek points, the predictors, the
/// comments and the pieces. Out of memory.
fn planned_of(
    alloc: Global,
    encoding: &Encoding<'_>,
    predictors: Vec<LinearPredictor>,
    file: WaveSurvey,
) -> Result<WavePlan, Refusal>
    requires range { IsInRange file.format }
    requires room { HasDepth file.format file.samples.depth }
    ensures planned { IfOk result (λ p. IsPlannedOf encoding.now predictors.items file p) }
    ensures form { IfOk result (λ p. IsForm p.wide p.depth) }
    ensures refused { IfErr result (λ e. IsPlanRefusal encoding.now predictors.items file e) }
    ensures unwritten { IfErr result (λ e. e ≢ Output EncodeFault.Write) }
{
    let WaveSurvey {
        format: wave,
        pieces,
        size,
        samples,
        after,
    } = file;
    let format = format_of(&wave, samples.depth, encoding.format);
    let plan = raw_plan_of(encoding, format, samples.total, predictors)?;
    let list = blocks_of(alloc, encoding, &wave, pieces.as_slice(), after.as_slice())?;
    Ok(WavePlan {
        stream: StreamPlan {
            container: encoding.container,
            plan,
            list,
        },
        pieces,
        size,
        wide: sample_width(wave.bits),
        depth: samples.depth,
    })
}

/// Reads a WAV file, and finds what is to be encoded of it with these predictors. None of its samples are held.
///
/// # Errors
/// The first reason for which it cannot be: the file, its samples, the block size and the seek points, the predictors,
/// the comments and the pieces. An error of the source, or out of memory.
fn first_pass<A: Source>(
    alloc: Global,
    encoding: &Encoding<'_>,
    predictors: Vec<LinearPredictor>,
    first: &mut A,
) -> Result<WavePlan, WaveRefusal>
    ensures planned { IfOk result (λ p. IfKnown A.Source first.old (IsPlannedFor encoding.now predictors.items p)) }
    ensures form { IfOk result (λ p. IsForm p.wide p.depth) }
    ensures refused { RefusesFile A.Source encoding.now predictors.items first.old first.new result }
    ensures unwritten { IfErr result (λ e. e ≢ Refused (Output EncodeFault.Write)) }
{
    let file = survey_file(alloc, encoding.to_end, first)?;
    let plan = planned_of(alloc, encoding, predictors, file)?;
    Ok(plan)
}

/// Whether the next bytes of a source are these.
///
/// # Errors
/// [`Why::Read`] if the source returns an error.
fn begins_with<R: Source>(source: &mut R, bytes: &[u8]) -> Result<bool, Why>
    ensures same { IfOk result (λ b. b ≡ true → R.known source.old ≡ true →
        R.coming source.old ≡ bytes.now ++ R.coming source.new) }
    ensures other { IfOk result (λ b. b ≡ false → R.known source.old ≡ true →
        (rest : List ℕ) → R.coming source.old ≢ bytes.now ++ rest) }
    ensures known { OnOk result (R.known source.old ≡ true → R.known source.new ≡ true) }
    ensures counted { OnOk result (R.raised source.new ≡ R.raised source.old) }
    ensures failed { OnErr result (R.known source.old ≡ true → R.raised source.new ≢ R.raised source.old) }
    ensures names { R.names source.new ≡ R.names source.old }
{
    let mut places = [0u8; PIECE];
    let mut rest = bytes;
    'parts: while !rest.is_empty() {
        let (part, more) = rest.split_at(rest.len().min(PIECE));
        let count = fill(source, &mut places, part.len())?;
        if &places[..count] != part {
            return Ok(false);
        }
        rest = more;
    }
    Ok(true)
}

/// Whether the next bytes of a source are these pieces.
///
/// # Errors
/// [`Why::Read`] if the source returns an error.
fn begins_with_all<R: Source>(source: &mut R, pieces: &[Vec<u8>]) -> Result<bool, Why>
    ensures same { IfOk result (λ b. b ≡ true → R.known source.old ≡ true →
        R.coming source.old ≡ all_of (contents pieces.now) ++ R.coming source.new) }
    ensures other { IfOk result (λ b. b ≡ false → R.known source.old ≡ true →
        (rest : List ℕ) → R.coming source.old ≢ all_of (contents pieces.now) ++ rest) }
    ensures known { OnOk result (R.known source.old ≡ true → R.known source.new ≡ true) }
    ensures counted { OnOk result (R.raised source.new ≡ R.raised source.old) }
    ensures failed { OnErr result (R.known source.old ≡ true → R.raised source.new ≢ R.raised source.old) }
    ensures names { R.names source.new ≡ R.names source.old }
{
    for piece in pieces {
        if !begins_with(source, piece.as_slice())? {
            return Ok(false);
        }
    }
    Ok(true)
}

/// Encodes the samples of a WAV file, of `wide` bytes each, of which all bits count.
fn encode_turned<S: Source, W: Rewritable + Drop>(
    alloc: Global,
    stream: StreamPlan,
    wide: usize,
    samples: &mut S,
    target: W,
) -> Result<W, RawEncodeFault>
    requires { wide ≤ 4 }
    ensures written { IfOk result (λ out. S.known samples.old ≡ true →
        HasSent W.Target target out (EncodesStream stream (wave_samples (8 * wide) (S.coming samples.old)))) }
    ensures fits { OnOk result (stream_fault_by stream ≡ None) }
    ensures known { IfOk result (λ out. W.known target ≡ true → W.known out ≡ true) }
    ensures counted { IfOk result (λ out. W.errors out ≡ W.errors target) }
    ensures names { IfOk result (λ out. W.names out ≡ W.names target) }
    ensures refused { IfErr result (λ e. IfRead S.Source samples.old samples.new
        (λ bytes. StopsStream stream e (wave_samples (8 * wide) bytes))) }
    ensures failed { IfErr result (λ e. FailsLeft W.Target target e) }
    ensures through { S.names samples.new ≡ S.names samples.old }
{
    let StreamPlan {
        container,
        plan,
        list,
    } = stream;
    let mut turned = Turned::new(samples, wide);
    let made = encode_judged_in(alloc, container, plan, list, &mut turned, target);
    let _samples = turned.into_source(); // for its clauses alone
    match made {
        Ok(out) => Ok(out),
        Err(fault) => Err(fault),
    }
}

/// Encodes the samples of a WAV file, of which only the highest bits count.
fn encode_lowered<S: Source, W: Rewritable + Drop>(
    alloc: Global,
    stream: StreamPlan,
    form: Lowering,
    samples: &mut S,
    target: W,
) -> Result<W, RawEncodeFault>
    requires { Lowers form }
    ensures written { IfOk result (λ out. S.known samples.old ≡ true →
        HasSent W.Target target out (EncodesStream stream (low_of form (S.coming samples.old)))) }
    ensures fits { OnOk result (stream_fault_by stream ≡ None) }
    ensures known { IfOk result (λ out. W.known target ≡ true → W.known out ≡ true) }
    ensures counted { IfOk result (λ out. W.errors out ≡ W.errors target) }
    ensures names { IfOk result (λ out. W.names out ≡ W.names target) }
    ensures refused { IfErr result (λ e. IfRead S.Source samples.old samples.new
        (λ bytes. StopsStream stream e (low_of form bytes))) }
    ensures failed { IfErr result (λ e. FailsLeft W.Target target e) }
    ensures through { S.names samples.new ≡ S.names samples.old }
{
    let low = low_places(alloc)?;
    let StreamPlan {
        container,
        plan,
        list,
    } = stream;
    let mut lowered = Lowered::new(samples, form, low);
    let made = encode_judged_in(alloc, container, plan, list, &mut lowered, target);
    let _samples = lowered.into_source(); // for its clauses alone
    match made {
        Ok(out) => Ok(out),
        Err(fault) => Err(fault),
    }
}

/// Encodes the samples of a WAV file, of `wide` bytes each, of which a stream has the highest `depth` bits.
fn encode_samples<S: Source, W: Rewritable + Drop>(
    alloc: Global,
    stream: StreamPlan,
    form: (usize, u32),
    samples: &mut S,
    target: W,
) -> Result<W, RawEncodeFault>
    requires { IsForm form.0 form.1 }
    ensures written { IfOk result (λ out. S.known samples.old ≡ true →
        HasSent W.Target target out (EncodesStream stream (stream_samples form.0 form.1 (S.coming samples.old)))) }
    ensures fits { OnOk result (stream_fault_by stream ≡ None) }
    ensures known { IfOk result (λ out. W.known target ≡ true → W.known out ≡ true) }
    ensures counted { IfOk result (λ out. W.errors out ≡ W.errors target) }
    ensures names { IfOk result (λ out. W.names out ≡ W.names target) }
    ensures refused { IfErr result (λ e. IfRead S.Source samples.old samples.new
        (λ bytes. StopsStream stream e (stream_samples form.0 form.1 bytes))) }
    ensures failed { IfErr result (λ e. FailsLeft W.Target target e) }
    ensures through { S.names samples.new ≡ S.names samples.old }
{
    let (wide, depth) = form;
    let shift = 8 * wide as u32 - depth;
    if shift == 0 {
        return encode_turned(alloc, stream, wide, samples, target);
    }
    let width = sample_width(depth);
    let form = Lowering { wide, width, shift };
    encode_lowered(alloc, stream, form, samples, target)
}

/// Encodes the samples of a source that has the same bytes as the one of which the plan was made.
///
/// # Errors
/// The source does not begin with the same pieces, or has no such samples after them. The container, before anything is
/// sent. An error of the source or of the target, or out of memory.
fn second_pass<R: Source, W: Rewritable + Drop>(
    alloc: Global,
    plan: WavePlan,
    second: &mut R,
    target: W,
) -> Result<W, WaveTwiceFault>
    requires { IsForm plan.wide plan.depth }
    ensures written { IfOk result (λ out. SendsPlan R.Source W.Target plan second.old target out) }
    ensures fits { OnOk result (stream_fault_by plan.stream ≡ None) }
    ensures refused { IfErr result (λ e. IfRead R.Source second.old second.new (StopsPlan plan e)) }
    ensures failed { IfErr result (λ e. FailsWaveTwice W.Target target e) }
    ensures known { IfOk result (λ out. W.known target ≡ true → W.known out ≡ true) }
    ensures counted { IfOk result (λ out. W.errors out ≡ W.errors target) }
    ensures names { IfOk result (λ out. W.names out ≡ W.names target) }
{
    let WavePlan {
        stream,
        pieces,
        size,
        wide,
        depth,
    } = plan;
    if !begins_with_all(second, pieces.as_slice())? {
        return Err(WaveTwiceFault { reason: None });
    }
    drop(pieces);
    let mut part = Limited::new(second, size);
    let made = encode_samples(alloc, stream, (wide, depth), &mut part, target);
    let _second = part.into_source(); // for its clauses alone
    match made {
        Ok(out) => Ok(out),
        Err(fault) => Err(WaveTwiceFault::from(fault)),
    }
}

/// Encodes the WAV file of a source that has the same bytes as the first one, which is surveyed before.
fn encode_passes<A: Source, R: Source, W: Rewritable + Drop>(
    alloc: Global,
    encoding: &Encoding<'_>,
    first: &mut A,
    second: &mut R,
    target: W,
) -> Result<W, WaveTwiceFault>
    ensures written { IfOk result
        (λ out. WritesWaveFor A.Source R.Source W.Target encoding.now first.old second.old target out) }
    ensures accepted { OnOk result (IfKnown A.Source first.old (CanBeEncodedAs encoding.now)) }
    ensures refused { IfErr result
        (StopsWaveFor A.Source R.Source encoding.now first.old first.new second.old second.new) }
    ensures failed { IfErr result (λ e. FailsWaveTwice W.Target target e) }
    ensures known { IfOk result (λ out. W.known target ≡ true → W.known out ≡ true) }
    ensures counted { IfOk result (λ out. W.errors out ≡ W.errors target) }
    ensures names { IfOk result (λ out. W.names out ≡ W.names target) }
{
    let predictors = predictors_in(alloc, encoding.list)?;
    let plan = first_pass(alloc, encoding, predictors, first)?;
    let out = second_pass(alloc, plan, second, target)?;
    Ok(out)
}

/// Writes the line of such an encoding that failed.
fn refuse_wave_twice<E: Target>(err: &mut E, job: &Job<'_>, fault: WaveTwiceFault)
    ensures { IfServed E.Target err.old err.new (AddsWaveTwiceLine job.now fault) }
{
    match fault.reason {
        Some(WaveRefusal::Refused(refusal)) => {
            let _status = refuse_encoding(err, job, refusal);
        }
        Some(WaveRefusal::Wave(fault)) => {
            let _status = refuse_wave(err, job.input(), fault);
        }
        None => {
            // If it cannot be written, there is no one left to report it to.
            let _ = write_line(err, job.input(), At::Whole, "94 Changed");
        }
    }
}

/// Whether a job is one for [`encode_wave_file_twice`]: it encodes a WAV file.
pub fn encodes_wave_twice(job: &Job<'_>) -> bool
    ensures { result ≡ is_wave_twice job.now }
{
    matches!(job, Job::EncodeWave { .. })
}

/// Encodes a WAV file that can be read twice, as a regular file, to a native or an Ogg stream: what [`crate::run`] does
/// for the same job, but it holds one block of samples, and what comes before and after them. It returns the target,
/// which has the whole stream. The first source is surveyed, then the samples of the second are encoded; it has the same
/// bytes, once more from the first on.
///
/// - `task`: the job ([`encodes_wave_twice`]), and the text of its list of predictors.
/// - `first`, `second`: the file that the job reads, twice.
/// - `target`: the file that it writes. Its first bytes are written over at the end: what comes before the frames, or
///   in Ogg the first page.
/// - `err`: standard error.
///
/// If the header states 0 bytes of samples, all that follows it is held in the first pass, which decides whether its
/// writer did not state their length.
///
/// ```
/// let out = encode_wave_file_twice(alloc, &task, &mut file, &mut same_file, DraftFile::new(out)?, &mut err)?;
/// ```
///
/// # Errors
/// Its line was written to `err`, if that could be written. What was sent to the target is no whole stream then.
///
/// - The first reason for which [`crate::run`] refuses the job, before anything is sent;
/// - 94 `Changed` if the second time the file begins with other bytes before its samples, or these are not as many, or
///   one does not fit the bits that the stream has;
/// - 1 `Read` if a source returns an error, 39 `Write` if the target does, 2 `Memory` if an allocation fails.
pub fn encode_wave_file_twice<A: Source, R: Source, W: Rewritable + Drop, E: Target>(
    alloc: Global,
    task: &Task<'_>,
    first: &mut A,
    second: &mut R,
    target: W,
    err: &mut E,
) -> Result<W, WaveTwiceFault>
    requires twice { is_wave_twice task.now.job.now ≡ true }
    // If both sources have the same bytes, the target was sent exactly the stream that `run` writes of them. If the
    // file is kept, it comes back byte for byte.
    ensures encoded { IfOk result
        (λ out. WritesWaveTwice A.Source R.Source W.Target task.now first.old second.old target out) }
    // There was no reason to refuse the bytes of the first source, and each line of the list is a predictor or has no
    // word.
    ensures accepted { OnOk result (IfKnown A.Source first.old (CanBeKept (wave_asked_by task.now))) }
    // Nothing was added to standard error.
    ensures silent { OnOk result (err.new ≡ err.old) }
    // If no source failed: this is the first reason to refuse the bytes of the first source; or the second source has
    // other bytes; or memory ran out, or the target failed.
    ensures refused { IfErr result
        (StopsWaveTwice A.Source R.Source task.now first.old first.new second.old second.new) }
    // Its line was added to standard error, if that did not fail. It names the output if that could not be written.
    ensures line { IfErr result (λ e. IfServed E.Target err.old err.new (AddsWaveTwiceLine task.now.job.now e)) }
    // With 39 the target returned an error, which is counted.
    ensures failed { IfErr result (λ e. FailsWaveTwice W.Target target e) }
    ensures known { IfOk result (λ out. W.known target ≡ true → W.known out ≡ true) }
    ensures counted { IfOk result (λ out. W.errors out ≡ W.errors target) }
    ensures names { IfOk result (λ out. W.names out ≡ W.names target) }
{
    let Job::EncodeWave {
        block,
        seek_every,
        container,
        comments,
        lax,
        effort,
        keep,
        to_end,
        ..
    } = task.job
    else {
        unreachable!()
    };
    let encoding = Encoding {
        profile: profile_of(*lax),
        format: RawFormat {
            rate: 0,
            channels: 0,
            bits: 0,
            block: *block,
            seek_every: *seek_every,
        },
        container: *container,
        comments: comments.as_slice(),
        list: task.list,
        effort: *effort,
        any: true,
        keep: *keep,
        to_end: *to_end,
    };
    match encode_passes(alloc, &encoding, first, second, target) {
        Ok(out) => Ok(out),
        Err(fault) => {
            refuse_wave_twice(err, task.job, fault);
            Err(fault)
        }
    }
}
