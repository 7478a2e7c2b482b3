//! The report of a verification.

use crate::files::{Output, hold};
use crate::job_files::FileRefused;
use crate::replacement::create_beside;
use flac_jobs::Verification;
use flac_report::{Recorded, is_line, path_of, recorded_of};
use flac_shelf::Record;
use std::alloc::{AllocError, Global};
use std::collections::BTreeMap;
use std::fs::{File, Metadata, OpenOptions};
use std::io;
use std::io::{ErrorKind, Read, Seek, SeekFrom, Write};

/// The report of a verification, opened.
#[derive(Drop)]
pub struct ReportFile {
    /// What its lines are written to; [`Output::None`] if there is no report.
    pub output: Output,
    /// What it has of files, of a path what comes last in it.
    pub good: Record,
}

impl ReportFile {
    /// Opens the report that is asked for.
    ///
    /// A new report is a file that is not there, or is empty, or a device. One that is resumed may have lines, which
    /// stay until [`end_report`]; a last line that was cut off is taken away. A file that has other lines than those of
    /// a report is refused, and stays as it was.
    ///
    /// # Errors
    /// The report cannot be created, or cannot be read or cut off, or another verification writes to it.
    pub fn open<'a>(
        rt: &HostRuntime,
        asked: &Verification<'a>,
    ) -> Result<ReportFile, FileRefused<'a>> {
        match (asked.report, asked.resume) {
            (Some(path), _) => match created(rt, path) {
                Ok(report) => Ok(report),
                Err(_) => Err(FileRefused {
                    path,
                    what: "created",
                }),
            },
            (None, Some(path)) => match resumed(rt, path) {
                Ok(report) => Ok(report),
                Err(_) => Err(FileRefused {
                    path,
                    what: "resumed",
                }),
            },
            (None, None) => Ok(ReportFile::over(rt, Output::None)),
        }
    }

    /// A report without lines.
    fn over(rt: &HostRuntime, output: Output) -> ReportFile {
        ReportFile {
            output,
            good: Record::none(rt.alloc()),
        }
    }
}

/// Ends the report that lines were written to: a regular file is stored. One that was resumed then has the last line of
/// each file alone, in the order in which they were written.
///
/// # Errors
/// It cannot be stored, or cannot be replaced by a file with fewer lines: it has all lines then.
pub fn end_report<'a>(
    rt: &HostRuntime,
    asked: &Verification<'a>,
    output: Output,
) -> Result<(), FileRefused<'a>> {
    let Some(path) = asked.report.or(asked.resume) else {
        return Ok(());
    };
    match unended(rt, path, asked.report.is_none(), &output) {
        Some(what) => Err(FileRefused { path, what }),
        None => Ok(()),
    }
}

/// What cannot be done with a report that lines were written to; `None` if it is ended.
fn unended(
    rt: &HostRuntime,
    path: &str,
    is_resumed: bool,
    output: &Output,
) -> Option<&'static str> {
    if output.store().is_err() {
        return Some("stored");
    }
    if is_resumed && shorten(rt, path, output).is_err() {
        return Some("replaced");
    }
    None
}

/// Opens a new report.
///
/// # Errors
/// That of the system; `AlreadyExists` if it is a file that has bytes, which stays as it was.
fn created(rt: &HostRuntime, path: &str) -> io::Result<ReportFile> {
    let file = OpenOptions::new().write(true).create(true).open(rt, path)?;
    let output = if is_empty(rt, path, &file)? {
        Output::File(file)
    } else {
        Output::Device(file)
    };
    Ok(ReportFile::over(rt, output))
}

/// Locks a regular file without bytes. False if it is a device.
///
/// # Errors
/// That of the system; `AlreadyExists` if it has bytes.
fn is_empty(rt: &HostRuntime, path: &str, file: &File) -> io::Result<bool> {
    if !is_held(rt, path, file)? {
        return Ok(false);
    }
    if file.metadata()?.len() > 0 {
        return Err(io::Error::from(ErrorKind::AlreadyExists));
    }
    Ok(true)
}

/// Locks a regular file. False if it is a device.
///
/// # Errors
/// That of the system.
fn is_held(rt: &HostRuntime, path: &str, file: &File) -> io::Result<bool> {
    let found = file.metadata()?;
    if !found.is_file() {
        return Ok(false);
    }
    hold(rt, path, file, &found)?;
    Ok(true)
}

/// Opens a report that may have lines, to add others after them.
///
/// # Errors
/// That of the system, or that memory ran out; `InvalidData` if the file is no report.
fn resumed(rt: &HostRuntime, path: &str) -> io::Result<ReportFile> {
    let file = OpenOptions::new()
        .read(true)
        .write(true)
        .create(true)
        .open(rt, path)?;
    if !is_held(rt, path, &file)? {
        return Ok(ReportFile::over(rt, Output::Device(file)));
    }
    let mut good = Record::none(rt.alloc());
    read_good(rt, &file, &mut good)?;
    Ok(ReportFile {
        output: Output::File(file),
        good,
    })
}

/// Adds what a report has of files. A last line that was cut off is taken away.
///
/// # Errors
/// Those of [`resumed`].
fn read_good(rt: &HostRuntime, file: &File, good: &mut Record) -> io::Result<()> {
    let text = text_of(rt, file)?;
    let length = add_files(rt.alloc(), good, text.as_slice())?;
    if length < text.len() {
        cut(file, length as u64)?;
    }
    Ok(())
}

/// Cuts a report off after this many bytes, so that lines are added there.
///
/// # Errors
/// That of the system.
fn cut(mut file: &File, length: u64) -> io::Result<()> {
    file.set_len(length)?;
    file.seek(SeekFrom::Start(length))?;
    Ok(())
}

/// The text of a report, after which lines are added.
///
/// # Errors
/// That of the system, or that memory ran out.
fn text_of(rt: &HostRuntime, mut file: &File) -> io::Result<Vec<u8>> {
    let mut text = Vec::new(rt.alloc());
    file.rewind()?;
    file.read_to_end(&mut text)?;
    Ok(text)
}

/// Adds what a report has of files, by the last line of each. Returns how many bytes its whole lines have.
///
/// # Errors
/// `InvalidData` if there is a line that is none of a report, or memory ran out.
fn add_files(alloc: Global, good: &mut Record, text: &[u8]) -> io::Result<usize> {
    let mut length = 0usize;
    for line in text.split_inclusive(|byte| *byte == b'\n') {
        if !is_line(line) {
            return Err(io::Error::from(ErrorKind::InvalidData));
        }
        if is_whole(line) {
            add_file(alloc, good, line)?;
            length = length.saturating_add(line.len());
        }
    }
    Ok(length)
}

/// Whether a line was not cut off.
fn is_whole(line: &[u8]) -> bool {
    line.ends_with(b"\n")
}

/// Adds the file of a line, in place of one of the same path.
///
/// # Errors
/// Memory ran out.
fn add_file(alloc: Global, good: &mut Record, line: &[u8]) -> Result<(), AllocError> {
    match recorded_of(alloc, line)? {
        Some(Recorded { path, past }) => good.add(path, past),
        None => Ok(()),
    }
}

/// Leaves the last line of each file in a report that lines were added to: by a new file in its place, which is stored
/// first, if there are others.
///
/// # Errors
/// That of the system, or that memory ran out. The report stays as it was until its place is taken.
fn shorten(rt: &HostRuntime, path: &str, output: &Output) -> io::Result<()> {
    let Output::File(file) = output else {
        return Ok(());
    };
    let text = text_of(rt, file)?;
    shorten_to(rt, path, file, text.as_slice())
}

/// Leaves the last line of each file in a report of this text.
///
/// # Errors
/// Those of [`shorten`].
fn shorten_to(rt: &HostRuntime, path: &str, file: &File, text: &[u8]) -> io::Result<()> {
    let lines = last_lines(rt.alloc(), text)?;
    if lines.len() == text.len() {
        return Ok(());
    }
    replace(rt, path, &file.metadata()?, lines.as_slice())
}

/// Puts a new file with these lines in the place of a report.
///
/// # Errors
/// That of the system. The report stays as it was until its place is taken.
fn replace(rt: &HostRuntime, path: &str, found: &Metadata, lines: &[u8]) -> io::Result<()> {
    let (mut file, replacement) = create_beside(rt, path, found)?;
    match file.write_all(lines) {
        Ok(()) => replacement.end(rt, Output::File(file), 0),
        Err(error) => {
            replacement.remove(rt);
            Err(error)
        }
    }
}

/// The lines of a report without those after which there is another one of the same file.
///
/// # Errors
/// Memory ran out.
fn last_lines(alloc: Global, text: &[u8]) -> Result<Vec<u8>, AllocError> {
    let places = last_places(alloc, text)?;
    let mut lines = Vec::new(alloc);
    add_lines_at(alloc, &places, text, &mut lines)?;
    Ok(lines)
}

/// Adds the lines of a report that begin where the last of their files do, and those that name no file.
///
/// # Errors
/// Memory ran out.
fn add_lines_at(
    alloc: Global,
    places: &BTreeMap<String, usize>,
    text: &[u8],
    lines: &mut Vec<u8>,
) -> Result<(), AllocError> {
    let mut place = 0usize;
    for line in text.split_inclusive(|byte| *byte == b'\n') {
        if is_last(alloc, places, line, place)? {
            lines.extend_from_slice(line)?;
        }
        place = place.saturating_add(line.len());
    }
    Ok(())
}

/// Where the last line of each file begins in a report.
///
/// # Errors
/// Memory ran out.
fn last_places(alloc: Global, text: &[u8]) -> Result<BTreeMap<String, usize>, AllocError> {
    let mut places = BTreeMap::new(alloc);
    let mut place = 0usize;
    for line in text.split_inclusive(|byte| *byte == b'\n') {
        add_place(alloc, &mut places, line, place)?;
        place = place.saturating_add(line.len());
    }
    Ok(places)
}

/// Adds where a line begins, in place of an earlier one of its file.
///
/// # Errors
/// Memory ran out.
fn add_place(
    alloc: Global,
    places: &mut BTreeMap<String, usize>,
    line: &[u8],
    place: usize,
) -> Result<(), AllocError> {
    let Some(path) = path_of(alloc, line)? else {
        return Ok(());
    };
    match places.insert(path, place) {
        Ok(_) => Ok(()),
        Err(_) => Err(AllocError),
    }
}

/// Whether the line that begins here is the last of its file. So is one that names no file.
///
/// # Errors
/// Memory ran out.
fn is_last(
    alloc: Global,
    places: &BTreeMap<String, usize>,
    line: &[u8],
    place: usize,
) -> Result<bool, AllocError> {
    let Some(path) = path_of(alloc, line)? else {
        return Ok(true);
    };
    match places.get(path.as_str()) {
        Some(last) => Ok(*last == place),
        None => Ok(true),
    }
}
