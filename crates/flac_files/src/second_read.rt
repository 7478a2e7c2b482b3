//! A regular file that a job reads twice.

use crate::files::{Input, STANDARD, STANDARD_OUTPUT};
use flac_jobs::Job;
use std::fs::{File, Metadata};
use std::io;
use std::io::Read;
use std::os::unix::fs::{FileExt, MetadataExt};

/// A regular file that is read once more, from its first byte on, whatever was read of it before.
#[derive(Drop)]
pub struct SecondRead {
    file: File,
    /// How many bytes were read.
    at: u64,
    found: Metadata,
}

impl SecondRead {
    /// Whether the file has another length than when it was opened, or another time at which it was changed. True if
    /// the system does not say.
    pub fn is_changed(&self) -> bool {
        match self.file.metadata() {
            Ok(now) => !is_same(&self.found, &now),
            Err(_) => true,
        }
    }
}

/// Whether a file has the same length, and the same times at which it was changed.
fn is_same(before: &Metadata, now: &Metadata) -> bool {
    before.len() == now.len()
        && (before.mtime(), before.mtime_nsec()) == (now.mtime(), now.mtime_nsec())
        && (before.ctime(), before.ctime_nsec()) == (now.ctime(), now.ctime_nsec())
}

impl Read for SecondRead {
    fn read(&mut self, places: &mut [u8]) -> io::Result<usize> {
        let count = self.file.read_at(places, self.at)?;
        self.at = self.at.saturating_add(count as u64);
        Ok(count)
    }
}

impl Input {
    /// The same file to be read a second time; `None` if it is no regular file.
    pub fn second(&self) -> Option<SecondRead> {
        let Input::File(file) = self else {
            return None;
        };
        let found = file.metadata().ok()?;
        if !found.is_file() {
            return None;
        }
        Some(SecondRead {
            file: file.try_clone().ok()?,
            at: 0,
            found,
        })
    }
}

/// Whether a job reads a regular file, and writes one, or to a path that has none.
pub fn reads_twice(rt: &HostRuntime, job: &Job<'_>) -> bool {
    match job.output() {
        Some(output) => is_regular(rt, job.input()) && may_be_regular(rt, output),
        None => false,
    }
}

/// Whether a regular file is at a path. `-` is standard input.
fn is_regular(rt: &HostRuntime, path: &str) -> bool {
    match std::fs::metadata(rt, path) {
        Ok(found) => path != STANDARD && found.is_file(),
        Err(_) => false,
    }
}

/// Whether a regular file is at a path, or none. `-` is standard output.
fn may_be_regular(rt: &HostRuntime, path: &str) -> bool {
    if path == STANDARD || path == STANDARD_OUTPUT {
        return false;
    }
    match std::fs::metadata(rt, path) {
        Ok(found) => found.is_file(),
        Err(_) => true,
    }
}
