//! The older report with which a verification compares files.

ghost use Rattle.std.specs.Prelude.{◌≡◌};

use flac_report::{BEGINNING, Recorded, is_line, recorded_of};
use flac_shelf::Older;
use std::alloc::{AllocError, Global};
use std::fs::File;
use std::io;
use std::io::Read;

/// An older report that cannot be used: its path, and which of its lines, counted from 1, is no line of a report;
/// `None` if it cannot be opened.
#[derive(Clone, Copy)]
pub struct OlderRefused<'a> {
    path: &'a str,
    line: Option<u64>,
}

impl OlderRefused<'_> {
    /// Prints the refusal on standard error, and returns the status of the program, 1.
    pub fn tell(&self, rt: &HostRuntime) -> u8
        ensures { result ≡ 1 }
    {
        let _ = match self.line {
            Some(line) => eprintln!(rt; "flac: {}: line {line}: cannot be read", self.path),
            None => eprintln!(rt; "flac: {}: cannot be opened", self.path),
        };
        1
    }
}

/// Reads the older report of this path, whole: each of its lines must be one of a report.
///
/// # Errors
/// It cannot be opened or read, a line is none of a report or was cut off, or memory ran out.
pub fn read_older<'a>(rt: &HostRuntime, path: &'a str) -> Result<Older, OlderRefused<'a>> {
    let Ok(text) = text_of(rt, path) else {
        return Err(OlderRefused { path, line: None });
    };
    match older_of(rt.alloc(), text.as_slice()) {
        Ok(older) => Ok(older),
        Err(line) => Err(OlderRefused {
            path,
            line: Some(line),
        }),
    }
}

/// The text of a file: only its first bytes, if a report does not begin so.
///
/// # Errors
/// That of the system, or memory ran out.
fn text_of(rt: &HostRuntime, path: &str) -> io::Result<Vec<u8>> {
    let mut text = Vec::new(rt.alloc());
    read_text(&mut File::open(rt, path)?, &mut text)?;
    Ok(text)
}

/// Adds the text of a file: only its first bytes, if a report does not begin so.
///
/// # Errors
/// That of the system, or memory ran out.
fn read_text(file: &mut File, text: &mut Vec<u8>) -> io::Result<()> {
    file.by_ref()
        .take(BEGINNING.len() as u64)
        .read_to_end(text)?;
    if is_line(text.as_slice()) {
        file.read_to_end(text)?;
    }
    Ok(())
}

/// The report of this text.
///
/// # Errors
/// The number of the first line that is none of a report, or that memory ran out for.
fn older_of(alloc: Global, text: &[u8]) -> Result<Older, u64> {
    let mut older = Older::none(alloc);
    let mut number = 0u64;
    for line in text.split_inclusive(|byte| *byte == b'\n') {
        number = number.saturating_add(1);
        if !add_line(alloc, &mut older, line).unwrap_or(false) {
            return Err(number);
        }
    }
    Ok(older)
}

/// Adds the file of a line. Returns false if it is no whole line of a report.
///
/// # Errors
/// Memory ran out.
fn add_line(alloc: Global, older: &mut Older, line: &[u8]) -> Result<bool, AllocError> {
    if !line.ends_with(b"\n") {
        return Ok(false);
    }
    match recorded_of(alloc, line)? {
        Some(Recorded { path, past }) => {
            older.add(path, past)?;
            Ok(true)
        }
        None => Ok(false),
    }
}
