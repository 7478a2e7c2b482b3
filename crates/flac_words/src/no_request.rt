//! Why a command line asks for nothing.

ghost use Rattle.std.specs.Prelude.{◌≤◌};

use clap::error::ErrorKind;
use flac_jobs::LineFault;
use std::alloc::{AllocError, Global};
use std::borrow::CowStr;

/// The line that is printed if an option of raw samples is missing.
pub(crate) const NO_FORMAT: &str =
    "flac: command: raw samples need --rate, --channels and --bits\n";

/// Why the words ask for nothing.
#[derive(Drop)]
pub(crate) enum NoRequest<'a> {
    /// `clap` refuses them, or has help to print, or an allocation fails.
    Words(clap::Error),
    /// For a reason that this line tells.
    Line(&'static str),
    /// The path of the file to write, this one, has the form of a comment.
    CommentAsPath(&'a str),
}

impl From<clap::Error> for NoRequest<'_> {
    fn from(error: clap::Error) -> Self {
        NoRequest::Words(error)
    }
}

impl From<AllocError> for NoRequest<'_> {
    fn from(error: AllocError) -> Self {
        NoRequest::Words(clap::Error::from(error))
    }
}

/// What to print for a reason.
pub(crate) fn fault_of(alloc: Global, reason: NoRequest<'_>) -> LineFault
    ensures { result.status ≤ 2 }
{
    match reason {
        NoRequest::Words(error) => printed(alloc, &error),
        NoRequest::Line(line) => LineFault::refused(line),
        NoRequest::CommentAsPath(path) => LineFault::comment_as_path(alloc, path),
    }
}

/// What to print for an error of `clap`: help is one of them.
fn printed(alloc: Global, error: &clap::Error) -> LineFault
    ensures { result.status ≤ 2 }
{
    if error.kind() != ErrorKind::OutOfMemory {
        if let Ok(text) = format!(in alloc; "{error}") {
            return LineFault {
                text: CowStr::Owned(text),
                status: if error.use_stderr() { 2 } else { 0 },
            };
        }
    }
    LineFault::no_memory()
}
