//! `flac encode` of raw samples.

ghost use Rattle.std.specs.Prelude.{◌≡◌, ◌+◌, ◌++◌, length, ◌≢◌, ◌&&◌, not, is_some, true, IfOk, IfErr, OnOk, OnErr, Some, None};
ghost use Rattle.flac_jobs.specs.Kinds.{file_kind};
ghost use Rattle.flac_native.specs.Given.{cut_of, with_predictors, fits_plan, plan_fault, MakesPlan};
ghost use Rattle.flac_native.specs.Sent.{TargetFailed};
ghost use Rattle.flac_cli.specs.Calls.{IfServed, IfKnown};
ghost use Rattle.flac_cli.specs.Asked.{asked_of, texts_of};
ghost use Rattle.flac_cli.specs.Encoded.{comments_of, comment_list, EncodesRaw, HasBegunRaw, SendsEncodedIn, SendsPrefixIn};
ghost use Rattle.flac_cli.specs.Lined.{text_at};
ghost use Rattle.flac_cli.specs.Refusals.{refusal_as, input_fault, stream_fault, refusal_of, text_of, IsReason};
ghost use Rattle.flac_cli.specs.Reports.{line_text, AddsLine, path_of, files_of};
ghost use Rattle.flac_cli.specs.declared.encode.Refusal.TheVariants.{Input, Setup, Output};
ghost use Rattle.flac_cli.specs.inner.Encoding.{AreRawFor, sound_for, CanBeInput, AreAllowed, IsListFault, WritesAs, RefusesRead, RefusesAsRaw, IsStreamFault};

use crate::comments::comments_of;
use crate::lines::{At, write_line};
use crate::predictors::{ListFault, predictors_in};
use crate::searching::searched;
use flac_bits::{Source, Target, Why};
use flac_frame::{Audio, SetupFault, format_fault};
use flac_jobs::{ContainerKind, Job, RawFormat, SearchEffort, file_kind};
use flac_meta::BlockList;
use flac_native::{EncodeFault, Plan, Profile, encode};
use flac_ogg::encode_ogg;
use flac_raw::{RawFault, audio_of};
use flac_subframe::LinearPredictor;
use flac_wave::fill;
use std::alloc::Global;
use std::io;

/// A source whose first bytes were pulled already, and come again.
#[derive(Drop)]
pub(crate) struct Fronted<'a, S: Source> {
    /// The bytes that were pulled, and did not come again yet.
    pub(crate) front: &'a [u8],
    /// What comes after them.
    pub(crate) source: S,
}

impl<'a, S: Source> Fronted<'a, S> {
    /// The source, without the bytes in front of it.
    pub(crate) fn into_source(self) -> S
        ensures { result ≡ self.entry.source }
    {
        let Fronted { front: _, source } = self;
        source
    }
}

impl<'a, S: Source> Source for Fronted<'a, S> {
    ghost known = { λ s. S.known s.source };

    ghost coming = { λ s. s.front.now ++ S.coming s.source };

    ghost after = { λ s. S.after s.source };

    ghost errors = { λ s. S.errors s.source };

    ghost raised = { λ s. S.raised s.source };

    ghost most = { λ s. length s.front.now + S.most s.source };

    ghost names = { λ s. S.names s.source };

    fn pull(&mut self, buf: &mut [u8]) -> io::Result<usize> {
        let front = self.front;
        if front.is_empty() {
            return self.source.pull(buf);
        }
        let count = front.len().min(buf.len());
        buf[..count].copy_from_slice(&front[..count]);
        self.front = &front[count..];
        Ok(count)
    }
}

/// What an encoding is asked for.
#[derive(Clone, Copy)]
pub(crate) struct Encoding<'a> {
    /// The profile of the stream.
    pub(crate) profile: Profile,
    /// The format of the raw samples, and how they are divided into blocks.
    pub(crate) format: RawFormat,
    /// The container of the stream.
    pub(crate) container: ContainerKind,
    /// Its comments, each `NAME=VALUE`.
    pub(crate) comments: &'a [&'a str],
    /// The text of a list of predictors that the encoder tries too, empty if there is none.
    pub(crate) list: &'a [u8],
    /// How far other predictors are sought for each block.
    pub(crate) effort: SearchEffort,
    /// Whether any bytes are taken as samples, also those that begin as a file that may hold a song.
    pub(crate) any: bool,
    /// Whether all of a WAV file is kept.
    pub(crate) keep: bool,
    /// Whether the samples of a WAV file may go on to its end, if it ends inside them.
    pub(crate) to_end: bool,
}

/// Why raw samples are not encoded.
#[derive(Clone, Copy)]
pub(crate) enum Refusal {
    /// The input cannot be read, the comments are too long, or an allocation fails.
    Input(Why),
    /// The samples or their format cannot be encoded.
    Setup(SetupFault),
    /// The input begins as a file that may hold a song, and not any bytes are taken.
    NotRaw,
    /// The input is not a whole number of samples of every channel.
    RawLength,
    /// The line of the list of this number, counted from 1, is no predictor.
    Line(u64),
    /// The stream cannot be written.
    Output(EncodeFault),
}

impl From<Why> for Refusal {
    ghost from_gives = { λ why e. e ≡ Input why };

    fn from(why: Why) -> Refusal {
        Refusal::Input(why)
    }
}

impl From<ListFault> for Refusal {
    ghost from_gives = { λ fault e. e ≡ refusal_of fault };

    fn from(fault: ListFault) -> Refusal {
        match fault {
            ListFault::Memory => Refusal::Input(Why::Memory),
            ListFault::Line(number) => Refusal::Line(number),
        }
    }
}

impl From<SetupFault> for Refusal {
    ghost from_gives = { λ fault e. e ≡ Setup fault };

    fn from(fault: SetupFault) -> Refusal {
        Refusal::Setup(fault)
    }
}

impl From<EncodeFault> for Refusal {
    ghost from_gives = { λ fault e. e ≡ Output fault };

    fn from(fault: EncodeFault) -> Refusal {
        Refusal::Output(fault)
    }
}

impl Refusal {
    /// The number and the name of the reason, as `48 RawLength`.
    pub(crate) fn as_str(self) -> &'static str
        ensures { result.now ≡ text_of self }
    {
        match self {
            Refusal::Input(why) => why.as_str(),
            Refusal::Setup(fault) => fault.as_str(),
            Refusal::NotRaw => "56 NotRaw",
            Refusal::RawLength => "48 RawLength",
            Refusal::Line(_) => "53 PredictorLine",
            Refusal::Output(fault) => fault.as_str(),
        }
    }

    /// Where in the file at fault the reason applies.
    pub(crate) fn at(self) -> At
        ensures { text_at result (text_of self) ≡ line_text self }
    {
        match self {
            Refusal::Line(number) => At::Line(number),
            _ => At::Whole,
        }
    }
}

/// The reason for which bytes are no samples of a format, as the program has it.
pub(crate) fn refusal_as(fault: RawFault) -> Refusal
    ensures { result ≡ refusal_as fault }
{
    match fault {
        RawFault::Input(why) => Refusal::Input(why),
        RawFault::Setup(fault) => Refusal::Setup(fault),
        RawFault::RawLength => Refusal::RawLength,
    }
}

/// How the samples are divided into frames, in their own profile.
///
/// # Errors
/// The first reason for which they cannot be: the block size, the seek points.
fn own_plan(format: RawFormat, audio: &Audio) -> Result<Plan, SetupFault>
    ensures made { MakesPlan (cut_of format.block audio.now format.seek_every) result }
    ensures fits { IfOk result (λ p. fits_plan p audio.now ≡ true) }
{
    Plan::new_in(audio.profile(), format.block, audio, format.seek_every)
}

/// Whether bytes that begin so are not taken as samples.
pub(crate) fn is_refused(any: bool, front: &[u8]) -> bool
    ensures { result ≡ (not any && is_some (file_kind front.now)) }
{
    !any && file_kind(front).is_some()
}

/// The samples that the bytes of a source are, for an encoding. The bytes of a file that may hold a song are refused
/// ([`file_kind`]), unless any bytes are taken.
///
/// # Errors
/// The first reason for which they are not taken: that of the format, that they begin as such a file, and those of
/// [`audio_of`].
fn samples_of<R: Source>(
    alloc: Global,
    encoding: &Encoding<'_>,
    source: &mut R,
) -> Result<Audio, Refusal>
    ensures raw { IfOk result (λ a. IfKnown R.Source source.old (AreRawFor encoding.now a)) }
    ensures sound { IfOk result (λ a. IfKnown R.Source source.old (λ bytes. a ≡ sound_for encoding.now bytes)) }
    ensures accepted { OnOk result (IfKnown R.Source source.old (CanBeInput encoding.now)) }
    ensures refused { RefusesRead R.Source source.old source.new (input_fault (asked_of encoding.now)) result }
    ensures unwritten { IfErr result (λ e. e ≢ Output EncodeFault.Write) }
{
    let format = encoding.format;
    let channels = format.channels as usize;
    if let Some(fault) = format_fault(encoding.profile, format.rate, format.bits, channels) {
        return Err(Refusal::Setup(fault));
    }
    let mut places = [0; 4];
    let count = fill(source, &mut places, 4)?;
    let front = &places[..count];
    if is_refused(encoding.any, front) {
        return Err(Refusal::NotRaw);
    }
    let mut fronted = Fronted { front, source };
    let audio = audio_of(alloc, &mut fronted, encoding.profile, format);
    let _source = fronted.into_source(); // for its clauses alone
    match audio {
        Ok(audio) => Ok(audio),
        Err(fault) => Err(refusal_as(fault)),
    }
}

/// How the samples are divided into frames, for which these predictors are tried.
///
/// # Errors
/// The first reason for which they cannot be: the block size, the seek points, the predictors.
pub(crate) fn plan_of(
    format: RawFormat,
    audio: &Audio,
    predictors: Vec<LinearPredictor>,
) -> Result<Plan, SetupFault>
    ensures made { MakesPlan
        (with_predictors (cut_of format.block audio.now format.seek_every) predictors.items) result }
    ensures fits { IfOk result (λ p. fits_plan p audio.now ≡ true) }
    ensures good { IfOk result (λ p. plan_fault p ≡ None) }
{
    // The block sizes are read only for the proof, which then knows what the model of a `Plan` keeps to.
    let plan = own_plan(format, audio)?;
    let _size = plan.block_size();
    let tried = plan.with_predictors(predictors)?;
    let _size = tried.block_size();
    Ok(tried)
}

/// The one block after STREAMINFO: comments of these words.
pub(crate) fn comment_list(alloc: Global, words: &[&str]) -> Result<BlockList, Why>
    ensures list { IfOk result (λ list. list ≡ comment_list (texts_of words.now)) }
    ensures accepted { OnOk result (AreAllowed (comment_list (texts_of words.now))) }
    ensures refused { IfErr result (λ e. IsListFault (comment_list (texts_of words.now)) e) }
{
    let comments = comments_of(alloc, words)?;
    BlockList::of_comments(alloc, comments)
}

/// Writes the samples as a stream. After an error, nothing or a prefix of the stream was sent.
pub(crate) fn write_stream<W: Target>(
    alloc: Global,
    container: ContainerKind,
    plan: &Plan,
    list: &BlockList,
    audio: &Audio,
    target: &mut W,
) -> Result<(), EncodeFault>
    requires { fits_plan plan.now audio.now ≡ true }
    ensures written { OnOk result
        (SendsEncodedIn W.Target container plan.now list.now audio.now target.old target.new) }
    ensures begun { OnErr result
        (SendsPrefixIn W.Target container plan.now list.now audio.now target.old target.new) }
    ensures accepted { OnOk result (stream_fault container plan.now list.now ≡ None) }
    ensures refused { IfErr result (λ e. IsStreamFault container plan.now list.now e) }
    ensures failed { IfErr result (λ e. e ≡ EncodeFault.Write → TargetFailed W.Target target.old target.new) }
{
    match container {
        ContainerKind::Native => encode(alloc, plan, list, audio, target),
        ContainerKind::Ogg { serial } => encode_ogg(alloc, serial, plan, list, audio, target),
    }
}

/// Encodes the raw samples of a source, and writes the stream. After an error, nothing or a prefix of the stream was
/// sent.
///
/// The encoder tries for each block constant and verbatim subframes, the fixed predictors and those of the list. If it
/// is asked to, it first seeks linear predictors for the block, and tries those that it finds: one for each channel
/// that a frame is likely to keep, or several. They are found by floating-point arithmetic, and nothing is claimed of
/// how good they are. The frame is a shortest one over all that are tried.
///
/// # Errors
/// The first reason for which the samples cannot be encoded as asked for: a line of the list, for which the source is
/// not read; the format, a file that may hold a song, the samples; the block size and the seek points, the predictors,
/// the comments, the container. An error of the source or of the target, or out of memory.
pub(crate) fn encode_raw<R: Source, W: Target>(
    alloc: Global,
    encoding: &Encoding<'_>,
    source: &mut R,
    target: &mut W,
) -> Result<(), Refusal>
    ensures written { OnOk result (WritesAs R.Source W.Target EncodesRaw encoding.now
        source.old target.old target.new) }
    ensures begun { OnErr result (WritesAs R.Source W.Target HasBegunRaw encoding.now
        source.old target.old target.new) }
    ensures accepted { OnOk result (IfKnown R.Source source.old
        (λ bytes. IsReason (asked_of encoding.now) bytes None)) }
    ensures refused { RefusesAsRaw R.Source encoding.now source.old source.new result }
    ensures failed { IfErr result (λ e. e ≡ Output EncodeFault.Write → TargetFailed W.Target target.old target.new) }
{
    let predictors = predictors_in(alloc, encoding.list)?;
    let audio = samples_of(alloc, encoding, source)?;
    let plan = plan_of(encoding.format, &audio, predictors)?;
    let list = comment_list(alloc, encoding.comments)?;
    let tried = searched(alloc, encoding.effort, plan, &audio)?;
    write_stream(alloc, encoding.container, &tried, &list, &audio, target)?;
    Ok(())
}

/// The path of the file at fault if an encoding fails.
fn path_at_fault<'a>(job: &Job<'a>, refusal: Refusal) -> &'a str
    ensures { result.now ≡ path_of (files_of job.now) refusal }
{
    let of_file = match refusal {
        Refusal::Line(_) => job.predictors(),
        Refusal::Setup(SetupFault::PredictorOrder) => job.predictors(),
        Refusal::Setup(SetupFault::TooManyPredictors) => job.predictors(),
        Refusal::Output(EncodeFault::Write) => job.output(),
        _ => None,
    };
    of_file.unwrap_or(job.input())
}

/// Writes the line of an encoding that failed, and returns the status 1.
pub(crate) fn refuse_encoding<E: Target>(err: &mut E, job: &Job<'_>, refusal: Refusal) -> u8
    ensures status { result ≡ 1 }
    ensures line { IfServed E.Target err.old err.new
        (AddsLine (path_of (files_of job.now) refusal) (line_text refusal)) }
{
    let path = path_at_fault(job, refusal);
    // If it cannot be written, there is no one left to report it to.
    let _ = write_line(err, path, refusal.at(), refusal.as_str());
    1
}
