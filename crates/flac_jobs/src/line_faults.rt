//! Why a command line gives no job.

ghost use Rattle.std.specs.Cow.{cow_str_bytes};
ghost use Rattle.std.specs.Prelude.{◌≡◌, ◌≢◌, ◌≤◌, ◌⊎◌};

use std::alloc::{AllocError, Global};
use std::borrow::CowStr;
use std::io::ErrorKind;

/// What the program prints in place of a job, and its exit status.
///
/// Status 0: help was asked for, and the text goes to standard output. Status 1 (out of memory) and 2 (the command line
/// is refused): the text goes to standard error.
#[derive(Drop)]
pub struct LineFault {
    /// What is printed.
    pub text: CowStr<'static, Global>,
    /// The exit status.
    pub status: u8,
}

impl LineFault {
    /// Out of memory while the command line is read: status 1.
    pub fn no_memory() -> LineFault
        ensures { result.status ≡ 1 }
    {
        LineFault {
            text: CowStr::Borrowed("flac: command: 2 Memory\n"),
            status: 1,
        }
    }

    /// The command line is refused for a reason that this line tells: status 2. `text` begins with `flac: command: `
    /// and ends with a line end.
    pub fn refused(text: &'static str) -> LineFault
        ensures text { cow_str_bytes result.text ≡ text.now }
        ensures status { result.status ≡ 2 }
    {
        LineFault {
            text: CowStr::Borrowed(text),
            status: 2,
        }
    }

    /// The path of the file to write has the form of a comment, so that the path may be missing: status 2, or 1 if an
    /// allocation fails.
    pub fn comment_as_path(alloc: Global, path: &str) -> LineFault
        ensures { (result.status ≡ 1) ⊎ (result.status ≡ 2) }
    {
        match format!(in alloc;
            "flac: command: OUT has the form of a comment; a file of that name is ./{path}\n"
        ) {
            Ok(text) => LineFault {
                text: CowStr::Owned(text),
                status: 2,
            },
            Err(_) => LineFault::no_memory(),
        }
    }

    /// The command line could not be read: out of memory, or a word is not UTF-8.
    pub fn reading(kind: ErrorKind) -> LineFault
        ensures { result.status ≤ 2 }
    {
        if kind == ErrorKind::OutOfMemory {
            return LineFault::no_memory();
        }
        LineFault {
            text: CowStr::Borrowed("flac: command: a word is not text\n"),
            status: 2,
        }
    }

    /// The word of this number is not UTF-8, the program's name being word 0: status 2, or 1 if an allocation fails.
    pub fn not_text(alloc: Global, number: usize) -> LineFault
        ensures { (result.status ≡ 1) ⊎ (result.status ≡ 2) }
    {
        match format!(in alloc; "flac: command: word {number} is not text\n") {
            Ok(text) => LineFault {
                text: CowStr::Owned(text),
                status: 2,
            },
            Err(AllocError) => LineFault::no_memory(),
        }
    }

    /// Prints the text, and returns the status of the program: the fault's own, or 1 if help was asked for and cannot
    /// be printed.
    pub fn tell(&self, rt: &HostRuntime) -> u8
        ensures fault { self.now.status ≢ 0 → result ≡ self.now.status }
        ensures help { self.now.status ≡ 0 → result ≤ 1 }
    {
        if self.status == 0 {
            if rt.print(&self.text).is_err() {
                let _ = eprintln!(rt; "flac: command: 39 Write");
                return 1;
            }
        } else {
            let _ = rt.eprint(&self.text);
        }
        self.status
    }
}
