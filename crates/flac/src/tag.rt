//! `flac tag`: edits the comments of files.

use crate::edited::{end_edit, tell_edited};
use crate::ogg_tag::tag_ogg;
use crate::tag_out::tag_to;
use flac_bits::Counted;
use flac_cli::{Paths, edits_of, refuse_lines, refuse_room, rewrite_file, tag_file};
use flac_edit::{Edit, Tagged, comments_of_lines};
use flac_files::{FileRefused, TagFile, read_comment_lines, read_value};
use flac_jobs::{TagEdit, TagMode, Tagging};
use flac_meta::Bytes;

/// Edits the comments of each file. Returns the status: 1 if one is refused.
pub(crate) fn tag_files(rt: &HostRuntime, tagging: &Tagging<'_>) -> u8 {
    match tagging.lines {
        Some(path) => tag_by_lines(rt, tagging, path),
        None => tag_each(rt, tagging, &[]),
    }
}

/// Edits the comments of each file by those of a file of lines. Returns the status.
fn tag_by_lines(rt: &HostRuntime, tagging: &Tagging<'_>, path: &str) -> u8 {
    match read_comment_lines(rt, path) {
        Ok(text) => tag_by_text(rt, tagging, path, &text),
        Err(refused) => refused.tell(rt),
    }
}

/// Edits the comments of each file by those of the lines of a file. Returns the status.
fn tag_by_text(rt: &HostRuntime, tagging: &Tagging<'_>, path: &str, text: &[u8]) -> u8 {
    match comments_of_lines(rt.alloc(), text) {
        Ok(lines) => tag_each(rt, tagging, &lines),
        Err(fault) => refuse_lines(&mut Counted::new(rt.stderr()), path, fault),
    }
}

/// Edits the comments of each file; `lines` are those of the file of lines. Returns the status: 1 if one is refused.
fn tag_each(rt: &HostRuntime, tagging: &Tagging<'_>, lines: &[Bytes]) -> u8 {
    match values_of(rt, tagging) {
        Ok(files) => tag_with(rt, tagging, lines, &files),
        Err(refused) => refused.tell(rt),
    }
}

/// The values of comments that are in files.
fn values_of<'a>(rt: &HostRuntime, tagging: &Tagging<'a>) -> Result<Vec<Bytes>, FileRefused<'a>> {
    let mut values = Vec::new(rt.alloc());
    for edit in &tagging.edits {
        let (TagEdit::SetFile(word) | TagEdit::AddFile(word)) = edit else {
            continue;
        };
        let path = match word.split_once('=') {
            Some((_, path)) => path,
            None => word,
        };
        let value = read_value(rt, path)?;
        if values.push(Bytes::from_vec(value)).is_err() {
            return Err(FileRefused { path, what: "read" });
        }
    }
    Ok(values)
}

/// Edits the comments of each file; `lines` are those of the file of lines, `files` the values that are in files.
/// Returns the status: 1 if one is refused.
fn tag_with(rt: &HostRuntime, tagging: &Tagging<'_>, lines: &[Bytes], files: &[Bytes]) -> u8 {
    let Ok(edits) = edits_of(rt.alloc(), &tagging.edits, lines, files) else {
        let _ = eprintln!(rt; "flac: command: 2 Memory");
        return 1;
    };
    if let Some(output) = tagging.output {
        return tag_to(rt, tagging, output, &edits);
    }
    let mut status = 0;
    for path in &tagging.inputs {
        if tag_one(rt, tagging, path, &edits) != 0 {
            status = 1;
        }
    }
    status
}

/// Edits the comments of a file. Returns the status.
fn tag_one(rt: &HostRuntime, tagging: &Tagging<'_>, path: &str, edits: &[Edit<'_>]) -> u8 {
    let done = match TagFile::open(rt, path) {
        Ok(file) => tag_opened(rt, tagging, path, &file, edits),
        Err(refused) => Err(refused),
    };
    tell_edited(rt, path, tagging.verbose, done)
}

/// Edits the comments of a file that was opened. Returns what became of it; `None` if it is refused, and its line was
/// printed.
fn tag_opened<'a>(
    rt: &HostRuntime,
    tagging: &Tagging<'_>,
    path: &str,
    file: &TagFile<'a>,
    edits: &[Edit<'_>],
) -> Result<Option<&'static str>, FileRefused<'a>> {
    if file.is_ogg() {
        return tag_ogg(rt, tagging, path, file, edits);
    }
    let mode = tagging.mode.unwrap_or(TagMode::Either);
    if mode == TagMode::Rewrite {
        return rewrite_opened(rt, tagging, path, file, edits);
    }
    match tag_in(rt, path, file, edits)? {
        Some(Tagged::Same) => Ok(Some("same")),
        Some(Tagged::Flipped) => {
            if tagging.keep_times {
                file.keep_time()?;
            }
            Ok(Some("flipped"))
        }
        Some(Tagged::NoRoom) if mode == TagMode::InPlace => {
            let _status = refuse_room(&mut Counted::new(rt.stderr()), path);
            Ok(None)
        }
        Some(Tagged::NoRoom) => rewrite_opened(rt, tagging, path, file, edits),
        None => Ok(None),
    }
}

/// Edits the comments of a file in place.
fn tag_in<'a>(
    rt: &HostRuntime,
    path: &str,
    file: &TagFile<'a>,
    edits: &[Edit<'_>],
) -> Result<Option<Tagged>, FileRefused<'a>> {
    let mut source = Counted::new(file.reader()?);
    let mut device = file.device()?;
    let mut err = Counted::new(rt.stderr());
    Ok(tag_file(rt.alloc(), path, edits, &mut source, &mut device, &mut err))
}

/// Writes a new file with edited comments, which takes the place of the old one.
fn rewrite_opened<'a>(
    rt: &HostRuntime,
    tagging: &Tagging<'_>,
    path: &str,
    file: &TagFile<'a>,
    edits: &[Edit<'_>],
) -> Result<Option<&'static str>, FileRefused<'a>> {
    let mut source = Counted::new(file.reader()?);
    let (output, ending) = file.beside(rt)?;
    let mut target = Counted::new(output);
    let mut err = Counted::new(rt.stderr());
    let paths = Paths {
        input: path,
        output: path,
    };
    let status = rewrite_file(
        rt.alloc(),
        &paths,
        edits,
        tagging.padding,
        &mut source,
        &mut target,
        &mut err,
    );
    end_edit(
        rt,
        file,
        tagging.keep_times,
        target.into_inner(),
        ending,
        status,
    )
}
