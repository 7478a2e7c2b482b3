//! The lines of a report of a verification.

ghost use Rattle.std.specs.Prelude.{◌≡◌, ◌≤◌, true, length, IfOk, IfSome, option_map};
ghost use Rattle.std.specs.String.{string_bytes};
ghost use Rattle.flac_report.specs.Entries.{Entry, line_of};
ghost use Rattle.flac_report.specs.Lines.{said, IsReadFrom, IsPathFrom, IsFrontOf, BeginsSo, beginning};
ghost use Rattle.flac_report.specs.inner.Reading.{path_end, recorded_after, recorded_in, path_after, path_in, has_status, is_line};

use crate::members::past_in;
use crate::texts::text_in;
use flac_shelf::Past;
use std::alloc::{AllocError, Global};

/// What each line of a report begins with.
pub const BEGINNING: &[u8] = b"{\"path\":\"";

/// What a line of a report says.
#[derive(Drop)]
pub struct Recorded {
    /// The path of the file.
    pub path: String,
    /// What the report has of it.
    pub past: Past,
}

/// Where the quotation mark is that ends a path; the length of the text if there is none.
fn path_end(text: &[u8]) -> usize
    ensures value { result ≡ path_end text.now }
    ensures inside { result ≤ length text.now }
{
    for (index, byte) in text.iter().enumerate() {
        if *byte == b'"' {
            return index;
        }
    }
    text.len()
}

/// Whether a status comes after the path, which a text begins with.
fn has_status(text: &[u8]) -> bool
    ensures { result ≡ has_status text.now }
{
    text[path_end(text)..].starts_with(b"\",\"status\":\"")
}

/// Whether bytes may be a line of a report, or a part of one that was cut off.
#[tactic(auto, unfolding(crate::specs::inner::Reading::is_line))]
fn may_be_line(line: &[u8]) -> bool
    ensures { result ≡ is_line line.now }
{
    if line.starts_with(BEGINNING) {
        return !line.ends_with(b"\n") || has_status(&line[9..]);
    }
    BEGINNING.starts_with(line)
}

/// Whether bytes may be a line of a report, or a part of one that was cut off. It is true of the line of each file, and
/// of all that such a line begins with; false of bytes that neither begin with [`BEGINNING`] nor are a part of it.
pub fn is_line(line: &[u8]) -> bool
    ensures lines { (e : Entry) → IsFrontOf line.now (line_of e) → result ≡ true }
    ensures others { result ≡ true → BeginsSo line.now }
{
    may_be_line(line)
}

/// What a line says after its beginning.
fn recorded_after(alloc: Global, text: &[u8]) -> Result<Option<Recorded>, AllocError>
    ensures { IfOk result (λ recorded. option_map said recorded ≡ recorded_after text.now) }
{
    let end = path_end(text);
    let Some(past) = past_in(&text[end..]) else {
        return Ok(None);
    };
    match text_in(alloc, &text[..end])? {
        Some(path) => Ok(Some(Recorded { path, past })),
        None => Ok(None),
    }
}

/// What a line says.
#[tactic(auto, unfolding(crate::specs::inner::Reading::recorded_in))]
fn recorded_in(alloc: Global, line: &[u8]) -> Result<Option<Recorded>, AllocError>
    ensures { IfOk result (λ recorded. option_map said recorded ≡ recorded_in line.now) }
{
    if line.starts_with(BEGINNING) {
        return recorded_after(alloc, &line[9..]);
    }
    Ok(None)
}

/// What a line of a report says. Of the line of a file it is the file's path, its size and time, and its audio, or that
/// it was not good. It is `None` of a line that does not begin with [`BEGINNING`], has another status, or whose path,
/// digest or number of samples is none. Members after these are not looked at.
///
/// ```
/// let line = b"{\"path\":\"a.flac\",\"status\":\"bad\",\"bytes\":5}\n";
/// let recorded = recorded_of(rt.alloc(), line)?; // "a.flac", of 5 bytes, without audio
/// ```
///
/// # Errors
/// An allocation fails.
pub fn recorded_of(alloc: Global, line: &[u8]) -> Result<Option<Recorded>, AllocError>
    ensures read { IfOk result (IsReadFrom line.now) }
    ensures others { IfOk result (λ recorded. IfSome recorded (λ _. IsFrontOf beginning line.now)) }
{
    recorded_in(alloc, line)
}

/// The path that a line says after its beginning.
fn path_after(alloc: Global, text: &[u8]) -> Result<Option<String>, AllocError>
    ensures { IfOk result (λ path. option_map string_bytes path ≡ path_after text.now) }
{
    let end = path_end(text);
    if end < text.len() {
        return text_in(alloc, &text[..end]);
    }
    Ok(None)
}

/// The path of a line.
#[tactic(auto, unfolding(crate::specs::inner::Reading::path_in))]
fn path_in(alloc: Global, line: &[u8]) -> Result<Option<String>, AllocError>
    ensures { IfOk result (λ path. option_map string_bytes path ≡ path_in line.now) }
{
    if line.starts_with(BEGINNING) {
        return path_after(alloc, &line[9..]);
    }
    Ok(None)
}

/// The path of a line of a report. It is `None` of a line that does not begin with [`BEGINNING`], or whose path is none
/// or is not ended.
///
/// # Errors
/// An allocation fails.
pub fn path_of(alloc: Global, line: &[u8]) -> Result<Option<String>, AllocError>
    ensures read { IfOk result (λ path. IsPathFrom line.now (option_map string_bytes path)) }
    ensures others { IfOk result (λ path. IfSome path (λ _. IsFrontOf beginning line.now)) }
{
    path_in(alloc, line)
}
