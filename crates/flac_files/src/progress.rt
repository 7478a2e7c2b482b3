//! How far a run over many files is.

use std::io::IsTerminal;
use std::time::Instant;

/// How many bytes a megabyte has.
const MEGABYTE: u64 = 1_000_000;

/// Shows how far a run over many files is, on standard error: if that is a terminal, and standard output is none, since
/// the lines there show it too.
#[derive(Drop)]
pub(crate) struct Progress {
    /// When the run began; `None` if nothing is shown.
    began: Option<Instant>,
    /// How many files were begun, up to 2^64 - 1.
    files: u64,
    /// The bytes of those before the last, up to 2^64 - 1.
    done: u64,
    /// The bytes of the last.
    last: u64,
}

impl Progress {
    /// Of a run that begins now.
    pub(crate) fn new(rt: &HostRuntime) -> Progress {
        let is_shown = rt.stderr().is_terminal() && !rt.stdout().is_terminal();
        Progress {
            began: if is_shown {
                Instant::now(rt).ok()
            } else {
                None
            },
            files: 0,
            done: 0,
            last: 0,
        }
    }

    /// Shows that a file of this size begins: the number of files, the bytes before it, and how many of them were read
    /// in a second.
    pub(crate) fn show(&mut self, rt: &HostRuntime, bytes: Option<u64>) {
        self.files = self.files.saturating_add(1);
        self.done = self.done.saturating_add(self.last);
        self.last = bytes.unwrap_or(0);
        let Some(began) = self.began else {
            return;
        };
        let seconds = match began.elapsed(rt) {
            Ok(passed) => passed.as_secs(),
            Err(_) => 0,
        };
        let megabytes = self.done / MEGABYTE;
        let rate = megabytes.checked_div(seconds).unwrap_or(megabytes);
        // The next line takes its place. If it cannot be shown, nothing is lost.
        let _ = eprint!(rt; "file {}: {megabytes} MB, {rate} MB/s   \r", self.files);
    }
}
