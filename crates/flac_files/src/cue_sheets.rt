//! The files of cue sheets.

ghost use Rattle.std.specs.Prelude.{◌≡◌, ◌≤◌, length, IfOk, IfErr};

use crate::files::Input;
use crate::job_files::FileRefused;
use crate::pictures::read_all;

/// The most bytes of a text of a cue sheet. One of 254 tracks of 255 index points each has less than 4 MiB.
const MOST: u64 = 16_777_216;

/// Reads a text of at most 16 MiB, which may be a cue sheet; `-` is standard input.
///
/// # Errors
/// The file cannot be opened, or it cannot be read: the system returns an error, memory ran out, or it is longer.
pub fn read_cue_sheet<'a>(rt: &HostRuntime, path: &'a str) -> Result<Vec<u8>, FileRefused<'a>>
    ensures few { IfOk result (λ text. length text.items ≤ 16777216) }
    ensures refused { IfErr result (λ refused. refused.path.now ≡ path.now) }
{
    let Ok(input) = Input::open(rt, path) else {
        return Err(FileRefused {
            path,
            what: "opened",
        });
    };
    match read_all(rt, input, MOST) {
        Ok(text) => Ok(text),
        Err(_) => Err(FileRefused { path, what: "read" }),
    }
}
