//! What the program does for a job: each command is in the file of its name.

ghost use Rattle.std.specs.Prelude.{◌≡◌, ◌≤◌, true, List};
ghost use Rattle.flac_cli.specs.Calls.{IfServed, IfAllServe, IfKnown};
ghost use Rattle.flac_cli.specs.Encoded.{asked_by};
ghost use Rattle.flac_cli.specs.Refusals.{CanBeEncoded};
ghost use Rattle.flac_cli.specs.Reports.{ReportsTask};
ghost use Rattle.flac_cli.specs.Named.{NamesFault};
ghost use Rattle.flac_cli.specs.Waves.{wave_asked_by};
ghost use Rattle.flac_cli.specs.WaveRefusals.{CanBeKept, ReportsWaveTask};
ghost use Rattle.flac_cli.specs.Tasks.{NeedsStream, PrintsCounts, WritesSamples, WritesWave, WritesEncoded, BeginsEncoded, WritesEncodedWave, BeginsEncodedWave, WritesRetagged, ReportsReading};

use crate::decode::run_decode;
use crate::decode_wave::run_decode_wave;
use crate::encode::{Encoding, encode_raw, refuse_encoding};
use crate::encode_wave::run_encode_wave;
use crate::list::run_list;
use crate::report::Paths;
use crate::retag::run_retag;
use crate::streams::profile_of;
use crate::test::run_test;
use flac_bits::{Source, Target};
use flac_jobs::{Job, RawFormat};
use std::alloc::Global;

/// A job, and what is read for it before it is done.
#[derive(Clone, Copy)]
pub struct Task<'a> {
    /// The job.
    pub job: &'a Job<'a>,
    /// The text of its list of predictors, empty if there is none.
    pub list: &'a [u8],
}

/// Does a job, and returns the exit status: 0 if it is done, 1 if it failed.
///
/// - `task`: the job, and the text of its list of predictors.
/// - `source`: the file that the job reads.
/// - `target`: the file that it writes, if it writes one.
/// - `out`, `err`: standard output and standard error.
///
/// After status 1 the line of the error was written to `err`, if that could be written.
pub fn run<R: Source, W: Target, O: Target, E: Target>(
    alloc: Global,
    task: &Task<'_>,
    source: &mut R,
    target: &mut W,
    out: &mut O,
    err: &mut E,
) -> u8
    // A test, a decoding or a listing returns 0 only if the input is a stream.
    ensures stream { NeedsStream R.Source task.now result source.old source.new }
    // After status 0, a test has added to standard output exactly the line of the stream's counts.
    ensures tested { PrintsCounts R.Source O.Target task.now result source.old source.new out.old out.new }
    // After status 0, a decoding has added to the file exactly the samples of the stream's frames.
    ensures decoded { WritesSamples R.Source W.Target task.now result source.old source.new target.old target.new }
    // After status 0, an encoding has added to the file a stream of exactly the samples that the input is, in the
    // profile that is asked for, each frame a shortest one also over the predictors of the list.
    ensures encoded { result ≡ 0 → WritesEncoded R.Source W.Target task.now source.old target.old target.new }
    // After status 0 there was no reason to refuse the encoding, and each line of the list is a predictor or has no
    // word.
    ensures accepted { result ≡ 0 → IfKnown R.Source source.old (CanBeEncoded (asked_by task.now)) }
    // After status 1, an encoding has added nothing, or a prefix of such a stream.
    ensures begun { result ≡ 1 → BeginsEncoded R.Source W.Target task.now source.old target.old target.new }
    // If no device fails: the status is 1, and the line of the first reason to refuse the encoding was added to
    // standard error; or there is no reason, the status is 0, and nothing was added; or memory ran out, the status is
    // 1, and the line says that.
    ensures refused { IfAllServe R.Source W.Target E.Target source target err (ReportsTask task.now result) }
    // After status 0, a retagging has added to the file the same STREAMINFO, the comments, the other blocks and the
    // rest of the input.
    ensures retagged { result ≡ 0 → WritesRetagged R.Source W.Target task.now source.old target.old target.new }
    // After status 0, the encoding of a WAV file has added to the file a stream of its samples. If all of the WAV file
    // is to be kept, the WAV file of this stream is the input, byte for byte.
    ensures wave_encoded { result ≡ 0 → WritesEncodedWave R.Source W.Target task.now source.old target.old target.new }
    // After status 0 the input is a WAV file, and there was no reason to refuse its encoding.
    ensures wave_accepted { result ≡ 0 → IfKnown R.Source source.old (CanBeKept (wave_asked_by task.now)) }
    // After status 1, such an encoding has added nothing, or a prefix of such a stream.
    ensures wave_begun { result ≡ 1 → BeginsEncodedWave R.Source W.Target task.now source.old target.old target.new }
    // If no device fails: the same as `refused`, for the encoding of a WAV file.
    ensures wave_refused { IfAllServe R.Source W.Target E.Target source target err (ReportsWaveTask task.now result) }
    // After status 0, a decoding to a WAV file has added to the file exactly the WAV file of the stream.
    ensures wave_decoded { WritesWave R.Source W.Target task.now result source.old source.new target.old target.new }
    // The status is 0 or 1.
    ensures status { result ≤ 1 }
    // If no device that the job uses fails:
    // - A test, a decoding or a listing returns 0 and adds nothing to standard error, if the input is a stream. If it
    //   is refused, it returns 1 and adds exactly the line of the place and the reason.
    // - A retagging does so for the marker, the blocks, and comments that are too long.
    // - A decoding to a WAV file also refuses a stream that becomes no WAV file of its samples.
    // - Or memory ran out, or standard output failed while blocks were listed: then the line says that.
    ensures reported { ReportsReading R.Source W.Target O.Target E.Target task.now result source target out err }
    // After status 1 of a decoding, an encoding or a retagging, whatever failed, its line was added to standard error,
    // if that did not fail. It names the output if that could not be written (30 of a decoding, 39), and else the file
    // at fault.
    ensures named { result ≡ 1 → IfServed E.Target err.old err.new (NamesFault task.now.job.now) }
{
    match task.job {
        Job::Test { input, lax } => run_test(alloc, input, source, profile_of(*lax), out, err),
        Job::Decode { input, output, lax } => {
            let paths = Paths { input, output };
            run_decode(alloc, &paths, source, profile_of(*lax), target, err)
        }
        Job::List { input, lax } => run_list(alloc, input, source, profile_of(*lax), out, err),
        Job::Encode {
            format,
            container,
            comments,
            lax,
            effort,
            raw,
            ..
        } => {
            let encoding = Encoding {
                profile: profile_of(*lax),
                format: *format,
                container: *container,
                comments: comments.as_slice(),
                list: task.list,
                effort: *effort,
                any: *raw,
                keep: false,
                to_end: false,
            };
            match encode_raw(alloc, &encoding, source, target) {
                Ok(()) => 0,
                Err(refusal) => refuse_encoding(err, task.job, refusal),
            }
        }
        Job::DecodeWave { input, output, lax } => {
            let paths = Paths { input, output };
            run_decode_wave(alloc, &paths, source, profile_of(*lax), target, err)
        }
        Job::EncodeWave {
            block,
            seek_every,
            container,
            comments,
            lax,
            effort,
            keep,
            to_end,
            ..
        } => {
            let profile = profile_of(*lax);
            let list = task.list;
            let encoding = Encoding {
                profile,
                format: RawFormat {
                    rate: 0,
                    channels: 0,
                    bits: 0,
                    block: *block,
                    seek_every: *seek_every,
                },
                container: *container,
                comments: comments.as_slice(),
                list,
                effort: *effort,
                any: true,
                keep: *keep,
                to_end: *to_end,
            };
            run_encode_wave(alloc, task.job, &encoding, source, target, err)
        }
        Job::Retag {
            input,
            output,
            comments,
        } => {
            let paths = Paths { input, output };
            run_retag(alloc, &paths, comments.as_slice(), source, target, err)
        }
    }
}
