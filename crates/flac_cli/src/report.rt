//! Lines of errors, and which file they name.

ghost use Rattle.std.specs.Prelude.{◌≡◌, ◌↔◌, ◌<◌, true, cond, Some};
ghost use Rattle.flac_cli.specs.Calls.{IfServed};
ghost use Rattle.flac_cli.specs.Outcomes.{IsAnswer};

use crate::lines::{At, write_line};
use flac_bits::{Target, Why};
use flac_native::Place;

/// Writes the line of an error, and returns the status 1.
pub(crate) fn refuse<E: Target>(err: &mut E, path: &str, at: Option<Place>, why: Why) -> u8
    ensures status { result ≡ 1 }
    ensures line { IfServed E.Target err.old err.new (IsAnswer (Some (at, why)) path.now result) }
{
    // If it cannot be written, there is no one left to report it to.
    let _ = write_line(err, path, At::place(at), why.as_str());
    1
}

/// The paths of the files of a job that writes one, as its lines name them.
#[derive(Clone, Copy)]
pub struct Paths<'a> {
    /// The path of the file that is read.
    pub input: &'a str,
    /// The path of the file that is written.
    pub output: &'a str,
}

impl<'a> Paths<'a> {
    /// The path of the file at fault.
    pub(crate) fn at_fault(&self, is_output: bool) -> &'a str
        ensures { result.now ≡ cond is_output self.now.output.now self.now.input.now }
    {
        if is_output { self.output } else { self.input }
    }
}

/// Whether the error is that of the file that a decoding writes.
pub(crate) fn is_of_samples(why: Why) -> bool
    ensures { (result ≡ true) ↔ (why ≡ Why.Sink) }
{
    matches!(why, Why::Sink)
}
