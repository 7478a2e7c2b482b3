//! The files of pictures.

ghost use Rattle.std.specs.Prelude.{◌≡◌, ◌≤◌, ◌<◌, ◌^◌, length, IfOk, IfErr};

use crate::job_files::FileRefused;
use std::fs::File;
use std::io;
use std::io::{ErrorKind, Read};

/// The most bytes of a picture that a metadata block can have beside its other fields (RFC 9639, sections 8.1 and 8.8).
const MOST: u64 = 16_777_215 - 32;

/// Reads a picture of at most 16777183 bytes, as many as a metadata block can have.
///
/// # Errors
/// The file cannot be opened, or it cannot be read: the system returns an error, memory ran out, or it is longer.
pub fn read_picture<'a>(rt: &HostRuntime, path: &'a str) -> Result<Vec<u8>, FileRefused<'a>>
    ensures few { IfOk result (λ bytes. length bytes.items ≤ 16777183) }
    ensures refused { IfErr result (λ refused. refused.path.now ≡ path.now) }
{
    let Ok(file) = File::open(rt, path) else {
        return Err(FileRefused {
            path,
            what: "opened",
        });
    };
    match read_all(rt, file, MOST) {
        Ok(bytes) => Ok(bytes),
        Err(error) if error.kind() == ErrorKind::FileTooLarge => Err(FileRefused {
            path,
            what: "added: a block has no room for it",
        }),
        Err(_) => Err(FileRefused { path, what: "read" }),
    }
}

/// Reads a file of at most `most` bytes.
///
/// # Errors
/// That of the system; `FileTooLarge` if it is longer.
pub(crate) fn read_all<R: Read + Drop>(rt: &HostRuntime, file: R, most: u64) -> io::Result<Vec<u8>>
    requires { most < 2 ^ 32 }
    ensures few { IfOk result (λ bytes. length bytes.items ≤ most) }
{
    let mut bytes = Vec::new(rt.alloc());
    file.take(most + 1).read_to_end(&mut bytes)?;
    if bytes.len() as u64 > most {
        return Err(io::Error::from(ErrorKind::FileTooLarge));
    }
    Ok(bytes)
}
