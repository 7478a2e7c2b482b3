//! The lines that `flac verify` prints.

ghost use Rattle.std.specs.Prelude.{◌≡◌, ◌≤◌, ◌<◌, ◌+◌, ◌++◌, cond, decimal, true, [], OnOk, OnErr};
ghost use Rattle.flac_cli.specs.Calls.{HasSent};
ghost use Rattle.flac_cli.specs.Lined.{text_at};
ghost use Rattle.flac_cli.specs.Reports.{fault_line};
ghost use Rattle.flac_cli.specs.Chains.{stream_path};
ghost use Rattle.flac_shelf.specs.Shown.{shown};
ghost use Rattle.flac_cli.specs.Verified.{ok_line, ok_part, bad_part, words_of, word_if, is_tagged, last_line};
ghost use Rattle.flac_cli.specs.inner.Verifying.{IsEnded, IsSent, IsTold};
ghost use Rattle.flac_cli.specs.inner.Lines.{SendsLine, AddsTo};

use crate::lines::{At, Lines, write_line};
use crate::verify::{Finding, Tally};
use crate::verify_change::Change;
use crate::verify_facts::Facts;
use flac_bits::{Target, Why};

/// A word that is printed if this holds.
fn word_if(holds: bool, word: &'static str) -> &'static str
    ensures { result.now ≡ word_if holds word.now }
{
    if holds { word } else { "" }
}

/// Whether tags of other programs are around a stream, as far as that was looked for.
fn is_tagged(tagged: Option<bool>) -> bool
    ensures { result ≡ is_tagged tagged }
{
    match tagged {
        Some(tagged) => tagged,
        None => false,
    }
}

/// Adds a name and a number, if this holds.
fn put_counted_if<W: Target>(
    lines: &mut Lines<W>,
    holds: bool,
    name: &str,
    number: u64,
) -> Result<(), Why>
    ensures { AddsTo W.Target (cond holds (name.now ++ decimal number) []) lines.old lines.new result }
{
    if holds {
        return lines.put_counted(name, number);
    }
    Ok(())
}

/// Adds the words after the counts of a stream.
fn put_words<O: Target>(
    lines: &mut Lines<O>,
    change: Change,
    tagged: Option<bool>,
    facts: &Facts,
) -> Result<(), Why>
    ensures { AddsTo O.Target (words_of change tagged facts.now) lines.old lines.new result }
{
    lines.put(word_if(facts.no_digest, " no-md5"))?;
    lines.put(word_if(facts.no_total, " no-total"))?;
    lines.put(word_if(facts.outside, " outside-subset"))?;
    lines.put(word_if(is_tagged(tagged), " id3"))?;
    lines.put(change.word())
}

/// Sends the line of a stream through a buffer.
fn put_ok<O: Target>(
    lines: &mut Lines<O>,
    path: &str,
    change: Change,
    tagged: Option<bool>,
    facts: &Facts,
) -> Result<(), Why>
    requires { lines.old.held ≡ 0 }
    ensures { SendsLine O.Target (ok_line path.now change tagged facts.now) lines.old lines.new result }
{
    lines.put_path("ok ", path)?;
    lines.put_counted(": frames ", facts.counts.frames)?;
    lines.put_counted(" samples ", facts.counts.samples)?;
    put_counted_if(lines, facts.streams > 1, " streams ", facts.streams)?;
    put_words(lines, change, tagged, facts)?;
    lines.put("\n")?;
    lines.send()
}

/// Sends the line of a stream: `ok PATH: frames N samples N`, how many streams there are, if there is more than one, what
/// they lack, and the word of a change.
///
/// # Errors
/// [`Why::Write`] if the target fails.
pub(crate) fn write_ok<O: Target>(
    out: &mut O,
    path: &str,
    change: Change,
    tagged: Option<bool>,
    facts: &Facts,
) -> Result<(), Why>
    ensures kept { O.errors out.old ≤ O.errors out.new }
    ensures known { OnOk result (O.known out.old ≡ true → O.known out.new ≡ true) }
    ensures sent { HasSent O.Target out.old out.new (ok_line path.now change tagged facts.now) result }
    ensures failed { OnErr result (O.known out.old ≡ true → O.errors out.old < O.errors out.new) }
{
    let mut lines = Lines::new(out);
    put_ok(&mut lines, path, change, tagged, facts)
}

/// Sends the last line through a buffer.
fn put_last<O: Target>(lines: &mut Lines<O>, tally: &Tally) -> Result<(), Why>
    requires { lines.old.held ≡ 0 }
    ensures { SendsLine O.Target (last_line tally.now.files tally.now.good tally.now.bad) lines.old lines.new result }
{
    lines.put_counted("verified ", tally.files)?;
    lines.put_counted(" ok ", tally.good)?;
    lines.put_counted(" bad ", tally.bad)?;
    lines.put("\n")?;
    lines.send()
}

/// Sends the last line: `verified N ok N bad N`.
///
/// # Errors
/// [`Why::Write`] if the target fails.
fn write_last<O: Target>(out: &mut O, tally: &Tally) -> Result<(), Why>
    ensures kept { O.errors out.old ≤ O.errors out.new }
    ensures known { OnOk result (O.known out.old ≡ true → O.known out.new ≡ true) }
    ensures sent { HasSent O.Target out.old out.new (last_line tally.now.files tally.now.good tally.now.bad) result }
    ensures failed { OnErr result (O.known out.old ≡ true → O.errors out.old < O.errors out.new) }
{
    let mut lines = Lines::new(out);
    put_last(&mut lines, tally)
}

/// Sends the line of a fault that is not of a file.
fn tell<E: Target>(err: &mut E, path: &str, at: At, text: &str)
    ensures { IsTold E.Target (fault_line path.now (text_at at text.now)) err.old err.new }
{
    // If it cannot be written, there is no one left to report it to.
    let _ = write_line(err, path, at, text);
}

/// Sends the line of a fault of a file, or of the stream of this number in it, with a word at its end, through a buffer.
fn put_fault<E: Target>(
    lines: &mut Lines<E>,
    path: &str,
    stream: u64,
    at: At,
    text: &str,
    word: &str,
) -> Result<(), Why>
    requires { lines.old.held ≡ 0 }
    ensures { SendsLine E.Target (fault_line (stream_path (shown path.now) stream) (text_at at text.now ++ word.now))
        lines.old lines.new result }
{
    lines.put_path("flac: ", path)?;
    put_counted_if(lines, stream != 0, ": stream ", stream.saturating_add(1))?;
    lines.put(": ")?;
    lines.put_reason(at, text)?;
    lines.put(word)?;
    lines.put("\n")?;
    lines.send()
}

/// Sends the line of a fault of a file, or of the stream of this number in it, with a word at its end.
///
/// # Errors
/// [`Why::Write`] if the target fails.
fn write_fault<E: Target>(
    err: &mut E,
    path: &str,
    stream: u64,
    at: At,
    text: &str,
    word: &str,
) -> Result<(), Why>
    ensures kept { E.errors err.old ≤ E.errors err.new }
    ensures known { OnOk result (E.known err.old ≡ true → E.known err.new ≡ true) }
    ensures sent { HasSent E.Target err.old err.new
        (fault_line (stream_path (shown path.now) stream) (text_at at text.now ++ word.now)) result }
    ensures failed { OnErr result (E.known err.old ≡ true → E.errors err.old < E.errors err.new) }
{
    let mut lines = Lines::new(err);
    put_fault(&mut lines, path, stream, at, text, word)
}

/// Sends the line of a file that is bad, or of the stream of this number in it: 0 is the first, which is not named.
pub(crate) fn tell_bad<E: Target>(
    err: &mut E,
    path: &str,
    stream: u64,
    at: At,
    text: &str,
    word: &str,
)
    ensures { IsTold E.Target (fault_line (stream_path (shown path.now) stream) (text_at at text.now ++ word.now))
        err.old err.new }
{
    // If it cannot be written, there is no one left to report it to.
    let _ = write_fault(err, path, stream, at, text, word);
}

/// Prints the line of a file. Returns false if standard output fails.
pub(crate) fn report<O: Target, E: Target>(
    finding: &Finding,
    change: Change,
    tagged: Option<bool>,
    path: &str,
    out: &mut O,
    err: &mut E,
) -> bool
    ensures out { IsSent O.Target (ok_part path.now change tagged finding.now) out.old out.new result }
    ensures err { IsTold E.Target (bad_part path.now change finding.now) err.old err.new }
{
    match finding {
        Finding::Good(facts) => write_ok(out, path, change, tagged, facts).is_ok(),
        Finding::Bad(flaw) => {
            tell_bad(
                err,
                path,
                flaw.stream,
                At::Place(flaw.fault.at),
                flaw.fault.why.as_str(),
                change.word(),
            );
            true
        }
        Finding::Unopened => {
            tell_bad(err, path, 0, At::Whole, "cannot be opened", change.word());
            true
        }
    }
}

/// Prints the last line. Returns false if standard output failed, now or before; then its line is on standard error.
pub(crate) fn report_end<O: Target, E: Target>(tally: &Tally, out: &mut O, err: &mut E) -> bool
    ensures { IsEnded O.Target E.Target tally.now out.old out.new err.old err.new result }
{
    let is_ended = write_last(out, tally).is_ok();
    if tally.is_written && is_ended {
        return true;
    }
    tell(err, "standard output", At::Whole, Why::Write.as_str());
    false
}
