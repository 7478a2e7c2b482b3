//! The files of lines that are comments, and of values of comments.

ghost use Rattle.std.specs.Prelude.{◌≡◌, ◌≤◌, length, IfOk, IfErr};

use crate::files::Input;
use crate::job_files::FileRefused;
use crate::pictures::read_all;
use std::io::ErrorKind;

/// The most bytes that the lines of a comment block can have: four for each byte of its content (RFC 9639, sections 8.1
/// and 8.6).
const MOST: u64 = 4 * 16_777_215;

/// The most bytes of a value of a comment: its block has 4 bytes each for the vendor's length, the number of comments
/// and the comment's length, and its name and `=` (RFC 9639, sections 8.1 and 8.6).
const MOST_OF_VALUE: u64 = 16_777_215 - 14;

/// Reads the value of a comment, of at most 16777201 bytes, as many as a metadata block can have; `-` is standard
/// input.
///
/// # Errors
/// The file cannot be opened, or it cannot be read: the system returns an error, memory ran out, or it is longer.
pub fn read_value<'a>(rt: &HostRuntime, path: &'a str) -> Result<Vec<u8>, FileRefused<'a>>
    ensures few { IfOk result (λ text. length text.items ≤ 16777201) }
    ensures refused { IfErr result (λ refused. refused.path.now ≡ path.now) }
{
    let Ok(input) = Input::open(rt, path) else {
        return Err(FileRefused {
            path,
            what: "opened",
        });
    };
    match read_all(rt, input, MOST_OF_VALUE) {
        Ok(text) => Ok(text),
        Err(error) if error.kind() == ErrorKind::FileTooLarge => Err(FileRefused {
            path,
            what: "added: a block has no room for it",
        }),
        Err(_) => Err(FileRefused { path, what: "read" }),
    }
}

/// Reads a file of lines of at most 67108860 bytes, as many as comments can have; `-` is standard input.
///
/// # Errors
/// The file cannot be opened, or it cannot be read: the system returns an error, memory ran out, or it is longer.
pub fn read_comment_lines<'a>(rt: &HostRuntime, path: &'a str) -> Result<Vec<u8>, FileRefused<'a>>
    ensures few { IfOk result (λ text. length text.items ≤ 67108860) }
    ensures refused { IfErr result (λ refused. refused.path.now ≡ path.now) }
{
    let Ok(input) = Input::open(rt, path) else {
        return Err(FileRefused {
            path,
            what: "opened",
        });
    };
    match read_all(rt, input, MOST) {
        Ok(text) => Ok(text),
        Err(_) => Err(FileRefused { path, what: "read" }),
    }
}
