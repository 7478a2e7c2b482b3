//! `flac tag`: the comments of a native file, in place or in a new file.

ghost use Rattle.std.specs.Prelude.{◌≡◌, ◌≢◌, ◌≤◌, true, length, codes, Some, IfOk, IfSome};
ghost use Rattle.flac_edit.specs.Device.{Only};
ghost use Rattle.flac_edit.specs.Tagged.{LeavesTagged, ReadsTagged, HasTagged, KeepsComments, IfNothingChanges, SendsRewritten};
ghost use Rattle.flac_cli.specs.Calls.{IfServed};
ghost use Rattle.flac_cli.specs.Named.{NamesRetagging};
ghost use Rattle.flac_cli.specs.Reports.{AddsLine};
ghost use Rattle.flac_edit.specs.declared.tagging.Tagged.TheVariants.{Flipped};

use crate::lines::{At, write_line};
use crate::report::{Paths, refuse};
use crate::retag::is_of_target;
use flac_bits::{Source, Target, Why};
use flac_edit::{Device, DeviceError, Edit, TagFault, Tagged, rewrite, tag_in_place};
use flac_jobs::TagEdit;
use flac_meta::Bytes;
use std::alloc::{AllocError, Global};

/// The edits that the command line gives; `lines` are the comments of its file of lines, and `files` the bytes of the
/// files that its edits name, in their order. A value whose file is not among them is empty.
///
/// # Errors
/// `AllocError` if an allocation fails.
pub fn edits_of<'a>(
    alloc: Global,
    words: &[TagEdit<'a>],
    lines: &'a [Bytes],
    files: &'a [Bytes],
) -> Result<Vec<Edit<'a>>, AllocError>
    ensures { IfOk result (λ edits. length edits.items ≡ length words.now) }
{
    let mut edits = Vec::with_capacity(alloc, words.len())?;
    let mut left = files;
    for word in words {
        edits.push(edit_of(word, lines, left))?;
        if reads_file(word) {
            left = left.get(1..).unwrap_or(&[]);
        }
    }
    Ok(edits)
}

/// The name and the value of a comment; the value is empty if there is no `=`.
fn parts_of(comment: &str) -> (&str, &str) {
    match comment.split_once('=') {
        Some(parts) => parts,
        None => (comment, ""),
    }
}

/// Whether the value of an edit is that of a file.
fn reads_file(word: &TagEdit<'_>) -> bool {
    matches!(word, TagEdit::SetFile(_) | TagEdit::AddFile(_))
}

/// The bytes of the first of these files; none if there is no file.
fn first_of(files: &[Bytes]) -> &[u8] {
    match files.split_first() {
        Some((first, _)) => first.as_slice(),
        None => &[],
    }
}

/// The edit that a word gives; the first of these files has its value, if a file has it.
fn edit_of<'a>(word: &TagEdit<'a>, lines: &'a [Bytes], files: &'a [Bytes]) -> Edit<'a> {
    match word {
        TagEdit::Clear => Edit::Clear,
        TagEdit::Lines => Edit::Replace(lines),
        TagEdit::Remove(name) => Edit::Remove(name.as_bytes()),
        TagEdit::RemovePair(comment) => {
            let (name, value) = parts_of(comment);
            Edit::RemovePair(name.as_bytes(), value.as_bytes())
        }
        TagEdit::SetFile(word) => {
            let (name, _) = parts_of(word);
            Edit::Set(name.as_bytes(), first_of(files))
        }
        TagEdit::AddFile(word) => {
            let (name, _) = parts_of(word);
            Edit::Add(name.as_bytes(), first_of(files))
        }
        TagEdit::Set(comment) => {
            let (name, value) = parts_of(comment);
            Edit::Set(name.as_bytes(), value.as_bytes())
        }
        TagEdit::Add(comment) => {
            let (name, value) = parts_of(comment);
            Edit::Add(name.as_bytes(), value.as_bytes())
        }
    }
}

/// Writes the line of a fault of an edit in place.
fn tell_fault<E: Target>(err: &mut E, path: &str, fault: TagFault) {
    let (at, why) = match fault {
        TagFault::Stream(fault) => (Some(fault.at), fault.why),
        TagFault::Device(DeviceError::Memory) => (None, Why::Memory),
        TagFault::Device(DeviceError::Failed) => (None, Why::Write),
    };
    let _status = refuse(err, path, at, why);
}

/// Edits the comments of a native file in place, as [`tag_in_place`] does. `source` reads the file that `device` is,
/// from its first byte on. Returns what became of it; `None` if it is refused or could not be edited. Then the line of
/// the error was written to `err`, if that could be written.
pub fn tag_file<R: Source, D: Device, E: Target>(
    alloc: Global,
    path: &str,
    edits: &[Edit<'_>],
    source: &mut R,
    device: &mut D,
    err: &mut E,
) -> Option<Tagged>
    requires same { D.known device.old ≡ true
        → (R.known source.old ≡ true) × (R.coming source.old ≡ D.seen device.old) }
    requires durable { D.known device.old ≡ true → Only (D.seen device.old) (D.time device.old) }
    // A crash at any moment leaves a file that is read as the old blocks, or as those with the edited comments, before
    // the same frames.
    ensures any_moment { LeavesTagged R.Source D.Device source.old edits.now device.old device.new }
    // Whatever is returned, a read finds the old blocks, or those with the edited comments.
    ensures reads { ReadsTagged R.Source D.Device source.old edits.now device.old device.new }
    // `Flipped`: it has the edited comments, and they are stored.
    ensures flipped { result ≡ Some Flipped → HasTagged R.Source D.Device source.old edits.now device.old device.new }
    ensures stored { IfSome result (λ _. D.known device.old ≡ true → Only (D.seen device.new) (D.time device.new)) }
    // `Same` and `NoRoom`: nothing was written.
    ensures untouched { IfSome result (λ done. done ≢ Tagged.Flipped → device.new ≡ device.old) }
    // `Same` if the edits change none of its comments, and only then.
    ensures same { result ≡ Some Tagged.Same → KeepsComments R.Source source.old edits.now }
    ensures idle { IfSome result (λ done. IfNothingChanges R.Source source.old edits.now (done ≡ Tagged.Same)) }
    // Nothing was written to standard error unless it is refused.
    ensures silent { IfSome result (λ _. err.new ≡ err.old) }
{
    match tag_in_place(alloc, device, source, edits) {
        Ok(tagged) => Some(tagged),
        Err(fault) => {
            tell_fault(err, path, fault);
            None
        }
    }
}

/// Writes the line that there is no room in a file for its comments, and returns the status 1.
pub fn refuse_room<E: Target>(err: &mut E, path: &str) -> u8
    ensures status { result ≡ 1 }
    ensures line { IfServed E.Target err.old err.new (AddsLine path.now (codes "54 NoRoom")) }
{
    // If it cannot be written, there is no one left to report it to.
    let _ = write_line(err, path, At::Whole, "54 NoRoom");
    1
}

/// Writes a native stream with edited comments and `padding` bytes of padding, as [`rewrite`] does. Returns the status:
/// 1 if it failed, and the line of the error was written to `err`, if that could be written.
pub fn rewrite_file<R: Source, W: Target, E: Target>(
    alloc: Global,
    paths: &Paths<'_>,
    edits: &[Edit<'_>],
    padding: u32,
    source: &mut R,
    target: &mut W,
    err: &mut E,
) -> u8
    ensures status { result ≤ 1 }
    // After status 0 the input was written with its blocks arranged so, and its frames as they are.
    ensures rewritten { result ≡ 0 →
        SendsRewritten R.Source W.Target source.old edits.now padding target.old target.new }
    // After status 0 nothing was written to standard error.
    ensures silent { result ≡ 0 → err.new ≡ err.old }
    // After status 1 the line of a reason was added to standard error, if that did not fail. It names the output if that
    // could not be written (39), and else the input.
    ensures named { result ≡ 1 → IfServed E.Target err.old err.new
        (NamesRetagging paths.now.input.now paths.now.output.now) }
{
    match rewrite(alloc, source, edits, padding, target) {
        Ok(()) => 0,
        Err(fault) => {
            let path = paths.at_fault(is_of_target(fault));
            refuse(err, path, fault.at, fault.why)
        }
    }
}
