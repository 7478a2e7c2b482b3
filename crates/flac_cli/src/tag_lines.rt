//! A file of lines that are comments.

ghost use Rattle.std.specs.Prelude.{◌≡◌};
ghost use Rattle.flac_cli.specs.Calls.{IfServed};
ghost use Rattle.flac_cli.specs.Lined.{text_at};
ghost use Rattle.flac_cli.specs.TagLines.{lines_place, lines_name};
ghost use Rattle.flac_cli.specs.Reports.{AddsLine};

use crate::lines::{At, write_line};
use flac_bits::Target;
use flac_edit::LinesFault;

/// Where a file is no list of comments.
fn place_of(fault: LinesFault) -> At
    ensures { result ≡ lines_place fault }
{
    match fault {
        LinesFault::Memory => At::Whole,
        LinesFault::Line(number) => At::Line(number),
    }
}

/// The number and the name of such a fault.
fn name_of(fault: LinesFault) -> &'static str
    ensures { result.now ≡ lines_name fault }
{
    match fault {
        LinesFault::Memory => "2 Memory",
        LinesFault::Line(_) => "49 CommentLine",
    }
}

/// Writes the line that a file is no list of comments, and returns the status 1.
pub fn refuse_lines<E: Target>(err: &mut E, path: &str, fault: LinesFault) -> u8
    ensures status { result ≡ 1 }
    ensures line { IfServed E.Target err.old err.new
        (AddsLine path.now (text_at (lines_place fault) (lines_name fault))) }
{
    let at = place_of(fault);
    let name = name_of(fault);
    // If it cannot be written, there is no one left to report it to.
    let _ = write_line(err, path, at, name);
    1
}
