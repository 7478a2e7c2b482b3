//! `flac test` of Ogg streams one after another.

ghost use Rattle.std.specs.Prelude.{◌≡◌, ◌≤◌, ◌<◌, ◌++◌, [], Some, OnOk, OnErr, true};
ghost use Rattle.flac_native.specs.Places.{place_text};
ghost use Rattle.flac_cli.specs.Calls.{HasSent, IfServed};
ghost use Rattle.flac_cli.specs.Outcomes.{IsAnswer};
ghost use Rattle.flac_cli.specs.Reports.{fault_line};
ghost use Rattle.flac_cli.specs.Lined.{text_at};
ghost use Rattle.flac_cli.specs.Streams.{profile_of};
ghost use Rattle.flac_cli.specs.inner.Lined.{Adds};
ghost use Rattle.flac_cli.specs.Chains.{stream_path, numbered, PrintsChainCounts, ReportsChain};
ghost use Rattle.flac_cli.specs.inner.Chains.{CountsChain, RefusesCounts};

use crate::lines::{At, Lines};
use crate::report::refuse;
use crate::streams::profile_of;
use crate::test::{Counts, write_counts};
use flac_bits::{Source, Target, Why};
use flac_chain::{ChainFault, ChainRead, decode_chain};
use flac_native::{Place, Profile};
use std::alloc::Global;

/// The exit status of a job over streams one after another, and the source that it read.
#[derive(Drop)]
pub struct ChainDone<R> {
    /// The source, after the bytes that were read.
    pub source: R,
    /// 0 if the job is done, 1 if it failed.
    pub status: u8,
}

/// The counts of streams one after another, and their source.
#[derive(Drop)]
pub(crate) struct ChainCounts<R> {
    source: R,
    outcome: Result<Counts, ChainFault>,
}

/// Decodes streams one after another, and counts their frames and samples.
fn count_chain<R: Source>(alloc: Global, source: R, profile: Profile) -> ChainCounts<R>
    ensures counts { CountsChain R.Source profile source result }
    ensures refused { RefusesCounts R.Source profile source result }
{
    let mut counts = Counts {
        frames: 0,
        samples: 0,
    };
    let ChainRead { source, outcome } = decode_chain(alloc, source, profile, &mut counts);
    match outcome {
        Ok(()) => ChainCounts {
            source,
            outcome: Ok(counts),
        },
        Err(fault) => ChainCounts {
            source,
            outcome: Err(fault),
        },
    }
}

/// Sends the line of an error in the stream of this number through a buffer.
fn put_stream_line<W: Target>(
    lines: &mut Lines<W>,
    path: &str,
    number: u64,
    at: At,
    text: &str,
) -> Result<(), Why>
    requires { lines.old.held ≡ 0 }
    ensures { Adds W.Target (fault_line (numbered path.now number) (text_at at text.now))
        lines.old.target lines.new.target [] [] result }
{
    lines.put_both("flac: ", path)?;
    lines.put_counted(": stream ", number)?;
    lines.put(": ")?;
    lines.put_reason(at, text)?;
    lines.put("\n")?;
    lines.send()
}

/// Sends the line of an error in the stream of this number: `flac: PATH: stream 2: PLACE: TEXT`.
///
/// # Errors
/// [`Why::Write`] if the target fails.
pub(crate) fn write_stream_line<E: Target>(
    err: &mut E,
    path: &str,
    number: u64,
    at: At,
    text: &str,
) -> Result<(), Why>
    ensures sent { HasSent E.Target err.old err.new
        (fault_line (numbered path.now number) (text_at at text.now)) result }
    ensures failed { OnErr result (E.known err.old ≡ true → E.errors err.old < E.errors err.new) }
{
    let mut lines = Lines::new(err);
    put_stream_line(&mut lines, path, number, at, text)
}

/// Writes the line of an error in one of several streams, and returns the status 1.
pub(crate) fn refuse_stream<E: Target>(
    err: &mut E,
    path: &str,
    stream: u64,
    at: Place,
    why: Why,
) -> u8
    ensures status { result ≡ 1 }
    ensures line { IfServed E.Target err.old err.new
        (IsAnswer (Some (Some at, why)) (stream_path path.now stream) result) }
{
    if stream == 0 {
        return refuse(err, path, Some(at), why);
    }
    // If it cannot be written, there is no one left to report it to.
    let _ = write_stream_line(
        err,
        path,
        stream.saturating_add(1),
        At::place(Some(at)),
        why.as_str(),
    );
    1
}

/// Tests Ogg streams one after another, or one stream, native or Ogg. Prints the counts of all of them in one line.
///
/// - `input`: the path of the file, as lines name it.
/// - `source`: the bytes of the file, which is given back.
/// - `lax`: whether all of FLAC is accepted, or the streamable subset alone (RFC 9639, section 7).
/// - `out`, `err`: standard output and standard error.
///
/// After status 1 the line of the error was written to `err`, if that could be written. It has the number of the
/// stream, if it is not the first: `flac: song.oga: stream 2: page 5: 32 PageCheck`.
pub fn test_chain<R: Source, O: Target, E: Target>(
    alloc: Global,
    input: &str,
    source: R,
    lax: bool,
    out: &mut O,
    err: &mut E,
) -> ChainDone<R>
    // The status is 0 or 1.
    ensures status { result.status ≤ 1 }
    // After status 0 the input is streams one after another, and exactly the line of their counts was printed.
    ensures tested { PrintsChainCounts R.Source O.Target (profile_of lax) source result out }
    // If no device fails, the status and the line say what the input is: streams one after another, or refused in which
    // stream, where and why. Or memory ran out: then the line says that.
    ensures reported { ReportsChain R.Source O.Target E.Target (profile_of lax) input.now source result out err }
{
    let ChainCounts { source, outcome } = count_chain(alloc, source, profile_of(lax));
    match outcome {
        Ok(counts) => match write_counts(out, &counts) {
            Ok(()) => ChainDone { source, status: 0 },
            Err(why) => {
                let status = refuse(err, input, None, why);
                ChainDone { source, status }
            }
        },
        Err(fault) => {
            let ChainFault { stream, fault } = fault;
            let status = refuse_stream(err, input, stream, fault.at, fault.why);
            ChainDone { source, status }
        }
    }
}
