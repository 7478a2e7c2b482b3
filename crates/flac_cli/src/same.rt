//! `flac same`: compares the samples of two streams.

ghost use Rattle.std.specs.Prelude.{◌≡◌, ◌≤◌, ◌<◌, true, OnOk, OnErr};
ghost use Rattle.flac_compare.specs.Streams.{AreSame};
ghost use Rattle.flac_cli.specs.Calls.{HasSent};
ghost use Rattle.flac_cli.specs.Same.{two_numbers, difference_line, IfBothTold, ReportsSame};
ghost use Rattle.flac_cli.specs.inner.Lines.{SendsLine};
ghost use Rattle.flac_cli.specs.inner.Same.{PrintsDifference};

use crate::lines::Lines;
use crate::report::refuse;
use flac_bits::{Source, Target, Why};
use flac_compare::{Difference, Unread, compare_streams};
use flac_jobs::Comparison;
use flac_native::Profile;
use std::alloc::Global;

/// Sends a line of two numbers through a buffer.
fn put_two<O: Target>(
    lines: &mut Lines<O>,
    what: &str,
    first: u64,
    between: &str,
    second: u64,
) -> Result<(), Why>
    requires { lines.old.held ≡ 0 }
    ensures { SendsLine O.Target (two_numbers what.now first between.now second) lines.old lines.new result }
{
    lines.put_counted(what, first)?;
    lines.put_counted(between, second)?;
    lines.put("\n")?;
    lines.send()
}

/// Sends the line of a difference through a buffer.
fn put_difference<O: Target>(lines: &mut Lines<O>, difference: Difference) -> Result<(), Why>
    requires { lines.old.held ≡ 0 }
    ensures { SendsLine O.Target (difference_line difference) lines.old lines.new result }
{
    match difference {
        Difference::Rate(a, b) => put_two(lines, "rate ", u64::from(a), " ", u64::from(b)),
        Difference::Channels(a, b) => put_two(lines, "channels ", u64::from(a), " ", u64::from(b)),
        Difference::Depth(a, b) => put_two(lines, "bits ", u64::from(a), " ", u64::from(b)),
        Difference::Sample(n, c) => put_two(lines, "differ at sample ", n, " channel ", c as u64),
        Difference::Length(a, b) => put_two(lines, "samples ", a, " ", b),
    }
}

/// Writes the line of a difference.
///
/// # Errors
/// [`Why::Write`] if the target fails.
fn write_difference<O: Target>(out: &mut O, difference: Difference) -> Result<(), Why>
    ensures kept { O.errors out.old ≤ O.errors out.new }
    ensures known { OnOk result (O.known out.old ≡ true → O.known out.new ≡ true) }
    ensures sent { HasSent O.Target out.old out.new (difference_line difference) result }
    ensures failed { OnErr result (O.known out.old ≡ true → O.errors out.old < O.errors out.new) }
{
    let mut lines = Lines::new(out);
    put_difference(&mut lines, difference)
}

/// Prints the line of a difference, and returns the status 1.
fn tell_difference<O: Target, E: Target>(out: &mut O, err: &mut E, difference: Difference) -> u8
    ensures status { result ≡ 1 }
    ensures told { PrintsDifference O.Target E.Target difference out.old out.new err.old err.new }
{
    match write_difference(out, difference) {
        Ok(()) => 1,
        Err(why) => refuse(err, "standard output", None, why),
    }
}

/// Compares two streams, each native or Ogg, also outside the streamable subset: their sample rates, channels, bits per
/// sample, samples, and numbers of samples. Returns the exit status: 0 if all of these are the same, else 1.
///
/// - `paths`: those of the files that `first` and `second` are.
/// - `out`, `err`: standard output and standard error.
///
/// After status 1 the line of the first difference was written to `out`: `rate A B`, `channels A B`, `bits A B`,
/// `differ at sample N channel C`, or `samples A B`. Or one of the streams is refused before any difference, and the
/// line of the fault of its file was written to `err`.
pub fn compare_files<R: Source, S: Source, O: Target, E: Target>(
    alloc: Global,
    paths: &Comparison<'_>,
    first: &mut R,
    second: &mut S,
    out: &mut O,
    err: &mut E,
) -> u8
    // The status is 0 or 1.
    ensures status { result ≤ 1 }
    // After status 0 both inputs are streams of the same format and the same samples.
    ensures same { result ≡ 0 →
        IfBothTold R.Source S.Source first.old first.new second.old second.new AreSame }
    // If no device fails, the status and the line are those of what the two inputs are: nothing if they are the same,
    // the first difference, or the refusal of one of them. Or memory ran out: then the line says that.
    ensures reported { ReportsSame R.Source S.Source O.Target E.Target paths.now result first second out err }
{
    match compare_streams(alloc, first, second, Profile::Lax) {
        Ok(found) => match found {
            None => 0,
            Some(difference) => tell_difference(out, err, difference),
        },
        Err(unread) => match unread {
            Unread::First(fault) => refuse(err, paths.first, Some(fault.at), fault.why),
            Unread::Second(fault) => refuse(err, paths.second, Some(fault.at), fault.why),
        },
    }
}
