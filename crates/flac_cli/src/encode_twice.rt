//! `flac encode` of raw samples that can be read twice, as those of a file: it holds one block of them.

ghost use Rattle.std.specs.Prelude.{◌≡◌, ◌≢◌, ◌&&◌, not, is_some, true, None, Some, IfOk, IfErr, OnOk};
ghost use Rattle.flac_jobs.specs.Kinds.{file_kind};
ghost use Rattle.flac_native.specs.declared.fault.EncodeFault.TheVariants as encode;
ghost use Rattle.flac_cli.specs.Asked.{asked_of, texts_of};
ghost use Rattle.flac_cli.specs.Calls.{IfServed, IfKnown};
ghost use Rattle.flac_cli.specs.Encoded.{asked_by, comment_list, EncodesRaw};
ghost use Rattle.flac_cli.specs.Refusals.{input_fault, refusal_of, IsReason, CanBeEncoded};
ghost use Rattle.flac_cli.specs.Tasks.{WritesEncoded};
ghost use Rattle.flac_cli.specs.Twice.{is_twice, AddsTwiceLine, FailsTwice, StopsTwice};
ghost use Rattle.flac_cli.specs.declared.encode.Refusal.TheVariants.{Input, Setup, Output};
ghost use Rattle.flac_cli.specs.inner.Encoding.{AreAllowed, IsListFault, CanBeInput, RefusesRead, WritesAs};
ghost use Rattle.flac_cli.specs.inner.Searching.{search_of};
ghost use Rattle.flac_cli.specs.inner.Twice.{reason_as, as_twice, AreSamplesFor, StopsFor};

use crate::dispatch::Task;
use crate::encode::{
    Encoding, Fronted, Refusal, comment_list, is_refused, refusal_as, refuse_encoding,
};
use crate::lines::{At, write_line};
use crate::predictors::{ListFault, predictors_in};
use crate::searching::search_of;
use crate::streams::profile_of;
use flac_bits::{Source, Target, Why};
use flac_draft::Rewritable;
use flac_frame::{SetupFault, format_fault};
use flac_jobs::Job;
use flac_native::EncodeFault;
use flac_raw::{RawEncodeFault, RawFault, RawPlan, encode_judged_in, judge};
use flac_wave::fill;
use std::alloc::Global;

/// Why raw samples that are read twice are not encoded. [`encode_file_twice`] has written its line.
#[derive(Clone, Copy)]
pub struct TwiceFault {
    /// The reason for which [`crate::run`] refuses them too; `None` if the second time other bytes came than the first.
    pub(crate) reason: Option<Refusal>,
}

impl From<Refusal> for TwiceFault {
    ghost from_gives = { λ refusal e. e ≡ as_twice refusal };

    fn from(refusal: Refusal) -> TwiceFault {
        TwiceFault {
            reason: Some(refusal),
        }
    }
}

impl From<Why> for TwiceFault {
    ghost from_gives = { λ why e. e ≡ as_twice (Input why) };

    fn from(why: Why) -> TwiceFault {
        TwiceFault {
            reason: Some(Refusal::Input(why)),
        }
    }
}

impl From<SetupFault> for TwiceFault {
    ghost from_gives = { λ fault e. e ≡ as_twice (Setup fault) };

    fn from(fault: SetupFault) -> TwiceFault {
        TwiceFault {
            reason: Some(Refusal::Setup(fault)),
        }
    }
}

impl From<ListFault> for TwiceFault {
    ghost from_gives = { λ fault e. e ≡ as_twice (refusal_of fault) };

    fn from(fault: ListFault) -> TwiceFault {
        TwiceFault {
            reason: Some(Refusal::from(fault)),
        }
    }
}

impl From<RawEncodeFault> for TwiceFault {
    ghost from_gives = { λ fault e. e ≡ record { reason = reason_as fault } };

    fn from(fault: RawEncodeFault) -> TwiceFault {
        TwiceFault {
            reason: reason_as(fault),
        }
    }
}

/// The reason for which they are not encoded.
pub(crate) fn reason_as(fault: RawEncodeFault) -> Option<Refusal>
    ensures { result ≡ reason_as fault }
{
    match fault {
        RawEncodeFault::Raw(fault) => Some(refusal_as(fault)),
        RawEncodeFault::Encode(fault) => Some(Refusal::Output(fault)),
        RawEncodeFault::Changed => None,
    }
}

/// How many samples of each channel the bytes of a source are, for an encoding. It holds none. The bytes of a file that
/// may hold a song are refused ([`file_kind`]), unless any bytes are taken.
///
/// # Errors
/// The first reason for which they are not taken: that of the format, that they begin as such a file, and those of
/// [`judge`].
fn judged<R: Source>(alloc: Global, encoding: &Encoding<'_>, source: &mut R) -> Result<u64, Refusal>
    ensures samples { IfOk result (λ total. IfKnown R.Source source.old (AreSamplesFor encoding.now total)) }
    ensures accepted { OnOk result (IfKnown R.Source source.old (CanBeInput encoding.now)) }
    ensures refused { RefusesRead R.Source source.old source.new (input_fault (asked_of encoding.now)) result }
    ensures unwritten { IfErr result (λ e. e ≢ Output encode.Write) }
{
    let format = encoding.format;
    let channels = format.channels as usize;
    if let Some(fault) = format_fault(encoding.profile, format.rate, format.bits, channels) {
        return Err(Refusal::Setup(fault));
    }
    let mut places = [0; 4];
    let count = fill(source, &mut places, 4)?;
    let front = &places[..count];
    if is_refused(encoding.any, front) {
        return Err(Refusal::NotRaw);
    }
    let mut fronted = Fronted { front, source };
    let total = judge(alloc, &mut fronted, encoding.profile, format);
    let _source = fronted.into_source(); // for its clauses alone
    match total {
        Ok(total) => Ok(total),
        Err(fault) => Err(refusal_as(fault)),
    }
}

/// Encodes the raw samples of a source that has the same bytes as the first one, which is judged before.
fn encode_passes<A: Source, R: Source, W: Rewritable + Drop>(
    alloc: Global,
    encoding: &Encoding<'_>,
    first: &mut A,
    second: &mut R,
    target: W,
) -> Result<W, TwiceFault>
    ensures written { IfOk result
        (λ out. WritesAs R.Source W.Target EncodesRaw encoding.now second.old target out) }
    ensures accepted { OnOk result (IfKnown A.Source first.old (λ bytes. IsReason (asked_of encoding.now) bytes None)) }
    ensures refused { IfErr result
        (StopsFor A.Source R.Source encoding.now first.old first.new second.old second.new) }
    ensures failed { IfErr result (λ e. FailsTwice W.Target target e) }
    ensures known { IfOk result (λ out. W.known target ≡ true → W.known out ≡ true) }
    ensures counted { IfOk result (λ out. W.errors out ≡ W.errors target) }
    ensures names { IfOk result (λ out. W.names out ≡ W.names target) }
{
    let predictors = predictors_in(alloc, encoding.list)?;
    let total = judged(alloc, encoding, first)?;
    let search = search_of(encoding.effort);
    let plan = RawPlan::new(encoding.profile, encoding.format, total, predictors, search)?;
    let list = comment_list(alloc, encoding.comments)?;
    let out = encode_judged_in(alloc, encoding.container, plan, list, second, target)?;
    Ok(out)
}

/// Writes the line of such an encoding that failed.
fn refuse_twice<E: Target>(err: &mut E, job: &Job<'_>, fault: TwiceFault)
    ensures { IfServed E.Target err.old err.new (AddsTwiceLine job.now fault) }
{
    match fault.reason {
        Some(refusal) => {
            let _status = refuse_encoding(err, job, refusal);
        }
        None => {
            // If it cannot be written, there is no one left to report it to.
            let _ = write_line(err, job.input(), At::Whole, "94 Changed");
        }
    }
}

/// Whether a job is one for [`encode_file_twice`]: it encodes raw samples.
pub fn encodes_twice(job: &Job<'_>) -> bool
    ensures { result ≡ is_twice job.now }
{
    matches!(job, Job::Encode { .. })
}

/// Encodes raw samples that can be read twice, as those of a file, to a native or an Ogg stream: what [`crate::run`]
/// does for the same job, but it holds one block of samples. It returns the target, which has the whole stream. The
/// first source is judged, then the second is encoded; it has the same bytes, once more from the first on.
///
/// - `task`: the job ([`encodes_twice`]), and the text of its list of predictors.
/// - `first`, `second`: the file that the job reads, twice.
/// - `target`: the file that it writes. Its first bytes are written over at the end: what comes before the frames, or
///   in Ogg the first page.
/// - `err`: standard error.
///
/// ```
/// let out = encode_file_twice(alloc, &task, &mut file, &mut same_file, DraftFile::new(out)?, &mut err)?;
/// ```
///
/// # Errors
/// Its line was written to `err`, if that could be written. What was sent to the target is no whole stream then.
///
/// - The first reason for which [`crate::run`] refuses the job, before anything is sent;
/// - 94 `Changed` if the second time the bytes are not as many samples, or one does not fit the bits of the format;
/// - 1 `Read` if a source returns an error, 39 `Write` if the target does, 2 `Memory` if an allocation fails.
pub fn encode_file_twice<A: Source, R: Source, W: Rewritable + Drop, E: Target>(
    alloc: Global,
    task: &Task<'_>,
    first: &mut A,
    second: &mut R,
    target: W,
    err: &mut E,
) -> Result<W, TwiceFault>
    requires twice { is_twice task.now.job.now ≡ true }
    // The target was sent exactly the stream that `run` writes of the bytes of the second source.
    ensures encoded { IfOk result (λ out. WritesEncoded R.Source W.Target task.now second.old target out) }
    // There was no reason to refuse the bytes of the first source, and each line of the list is a predictor or has no
    // word.
    ensures accepted { OnOk result (IfKnown A.Source first.old (CanBeEncoded (asked_by task.now))) }
    // Nothing was added to standard error.
    ensures silent { OnOk result (err.new ≡ err.old) }
    // If no source failed: this is the first reason to refuse the bytes of the first source; or the second source has
    // other bytes; or memory ran out, or the target failed.
    ensures refused { IfErr result (StopsTwice A.Source R.Source task.now first.old first.new second.old second.new) }
    // Its line was added to standard error, if that did not fail. It names the output if that could not be written.
    ensures line { IfErr result (λ e. IfServed E.Target err.old err.new (AddsTwiceLine task.now.job.now e)) }
    // With 39 the target returned an error, which is counted.
    ensures failed { IfErr result (λ e. FailsTwice W.Target target e) }
    ensures known { IfOk result (λ out. W.known target ≡ true → W.known out ≡ true) }
    ensures counted { IfOk result (λ out. W.errors out ≡ W.errors target) }
    ensures names { IfOk result (λ out. W.names out ≡ W.names target) }
{
    let Job::Encode {
        format,
        container,
        comments,
        lax,
        effort,
        raw,
        ..
    } = task.job
    else {
        unreachable!()
    };
    let encoding = Encoding {
        profile: profile_of(*lax),
        format: *format,
        container: *container,
        comments: comments.as_slice(),
        list: task.list,
        effort: *effort,
        any: *raw,
        keep: false,
        to_end: false,
    };
    match encode_passes(alloc, &encoding, first, second, target) {
        Ok(out) => Ok(out),
        Err(fault) => {
            refuse_twice(err, task.job, fault);
            Err(fault)
        }
    }
}
