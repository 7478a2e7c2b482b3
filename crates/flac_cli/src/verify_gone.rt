//! Files of an older report that were not met.

ghost use Rattle.std.specs.Prelude.{◌≡◌, ◌≤◌, ◌<◌, ◌++◌, ◌↔◌, true, false, [], OnOk, OnErr};
ghost use Rattle.flac_shelf.specs.Records.{left_in};
ghost use Rattle.flac_cli.specs.Reports.{Serves};
ghost use Rattle.flac_cli.specs.Verified.{gone_line, gone_lines};
ghost use Rattle.flac_cli.specs.inner.Lined.{Adds};
ghost use Rattle.flac_cli.specs.inner.Verifying.{IsTold};

use crate::lines::Lines;
use flac_bits::{Target, Why};
use flac_shelf::Older;

/// Sends the line of a file that is gone through a buffer.
fn put_gone<E: Target>(lines: &mut Lines<E>, path: &str) -> Result<(), Why>
    requires { lines.old.held ≡ 0 }
    ensures { Adds E.Target (gone_line path.now) lines.old.target lines.new.target [] [] result }
{
    lines.put_path("gone ", path)?;
    lines.put("\n")?;
    lines.send()
}

/// Sends the line of a file that is gone.
///
/// # Errors
/// [`Why::Write`] if the target fails.
fn write_gone<E: Target>(err: &mut E, path: &str) -> Result<(), Why>
    ensures kept { E.errors err.old ≤ E.errors err.new }
    ensures known { OnOk result (E.known err.old ≡ true → E.known err.new ≡ true) }
    ensures sent { OnOk result (E.known err.old ≡ true → E.sent err.new ≡ E.sent err.old ++ gone_line path.now) }
    ensures failed { OnErr result (E.known err.old ≡ true → E.errors err.old < E.errors err.new) }
{
    let mut lines = Lines::new(err);
    put_gone(&mut lines, path)
}

/// Tells of a file that is gone.
fn tell_gone<E: Target>(err: &mut E, path: &str)
    ensures { IsTold E.Target (gone_line path.now) err.old err.new }
{
    // If it cannot be written, there is no one left to report it to.
    let _ = write_gone(err, path);
}

/// Prints the line `gone PATH`, with the path as [`flac_shelf::shown`] gives it, for each file of an older report that
/// was not met, in the order of the bytes of the paths. Returns whether there is one.
pub fn report_gone<E: Target>(older: &mut Older, err: &mut E) -> bool
    ensures gone { result ≡ false ↔ left_in older.old ≡ [] }
    ensures told { Serves E.Target err.old err.new → E.sent err.new ≡ E.sent err.old ++ gone_lines (left_in older.old) }
{
    let mut is_gone = false;
    'gone: while let Some(path) = older.take_gone() {
        tell_gone(err, path.as_str());
        is_gone = true;
    }
    is_gone
}
