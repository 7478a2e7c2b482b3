//! `flac edit`: edits the metadata blocks of files.

use crate::edited::{end_edit, tell_edited};
use crate::ogg_edit::edit_ogg_file;
use flac_bits::Counted;
use flac_cli::{EditPaths, edit_changes, edit_file, picture_of, points_of, removals_of};
use flac_edit::{BlockEdits, Removal};
use flac_files::{FileRefused, TagFile, read_cue_sheet, read_picture};
use flac_jobs::{Editing, PictureWord};
use flac_meta::{Picture, SeekPoint};

/// Edits the metadata blocks of each file. Returns the status: 1 if one is refused.
pub(crate) fn edit_files(rt: &HostRuntime, editing: &Editing<'_>) -> u8 {
    let names = match &editing.removals {
        Some(names) => names.as_slice(),
        None => &[],
    };
    let Ok(removals) = removals_of(rt.alloc(), names) else {
        let _ = eprintln!(rt; "flac: command: 2 Memory");
        return 1;
    };
    let found = match &editing.pictures {
        Some(words) => pictures_of(rt, words.as_slice()),
        None => Ok(Vec::new(rt.alloc())),
    };
    match found {
        Ok(pictures) => edit_with_sheet(rt, editing, &removals, &pictures),
        Err(refused) => refused.tell(rt),
    }
}

/// Reads the cue sheet, if there is to be one, and edits each file. Returns the status.
fn edit_with_sheet(
    rt: &HostRuntime,
    editing: &Editing<'_>,
    removals: &[Removal],
    pictures: &[Picture],
) -> u8 {
    let Some(path) = editing.sheet else {
        return edit_by(rt, editing, removals, None, pictures);
    };
    match read_cue_sheet(rt, path) {
        Ok(text) => edit_by(rt, editing, removals, Some(text.as_slice()), pictures),
        Err(refused) => refused.tell(rt),
    }
}

/// Edits each file by these removals, the text of this cue sheet, and these pictures. Returns the status.
fn edit_by<'a>(
    rt: &HostRuntime,
    editing: &Editing<'_>,
    removals: &'a [Removal],
    cue: Option<&'a [u8]>,
    pictures: &'a [Picture],
) -> u8 {
    let edits = BlockEdits {
        removals,
        cue,
        points: None,
        pictures,
        padding: editing.padding,
    };
    edit_each(rt, editing, &edits)
}

/// Reads the pictures.
fn pictures_of<'a>(
    rt: &HostRuntime,
    words: &[PictureWord<'a>],
) -> Result<Vec<Picture>, FileRefused<'a>> {
    let mut pictures = Vec::new(rt.alloc());
    for word in words {
        let picture = picture_in(rt, word)?;
        if pictures.push(picture).is_err() {
            return Err(FileRefused {
                path: word.path,
                what: "read",
            });
        }
    }
    Ok(pictures)
}

/// Reads a picture.
fn picture_in<'a>(rt: &HostRuntime, word: &PictureWord<'a>) -> Result<Picture, FileRefused<'a>> {
    let path = word.path;
    let bytes = read_picture(rt, path)?;
    match picture_of(rt.alloc(), word, &bytes) {
        Ok(Some(picture)) => Ok(picture),
        Ok(None) => Err(FileRefused {
            path,
            what: "added: it is no PNG or JPEG picture",
        }),
        Err(_) => Err(FileRefused { path, what: "read" }),
    }
}

/// Edits each file. Returns the status.
fn edit_each(rt: &HostRuntime, editing: &Editing<'_>, edits: &BlockEdits<'_>) -> u8 {
    let mut status = 0;
    for path in &editing.inputs {
        if edit_one(rt, editing, path, edits) != 0 {
            status = 1;
        }
    }
    status
}

/// Edits a file. Returns the status.
fn edit_one(rt: &HostRuntime, editing: &Editing<'_>, path: &str, edits: &BlockEdits<'_>) -> u8 {
    let done = match TagFile::open_to_edit(rt, path) {
        Ok(file) => edit_opened(rt, editing, path, &file, edits),
        Err(refused) => Err(refused),
    };
    tell_edited(rt, path, editing.verbose, done)
}

/// Edits the blocks of a file that was opened, if the edits change them. Returns what became of it; `None` if it is
/// refused, and its line was printed.
fn edit_opened<'a>(
    rt: &HostRuntime,
    editing: &Editing<'_>,
    path: &str,
    file: &TagFile<'a>,
    edits: &BlockEdits<'_>,
) -> Result<Option<&'static str>, FileRefused<'a>> {
    if file.is_ogg() {
        return edit_ogg_file(rt, editing, path, file, edits);
    }
    let Some(every) = editing.seek_every else {
        return edit_blocks(rt, editing, path, file, edits);
    };
    let Some(points) = points_in(rt, path, file, every)? else {
        return Ok(None);
    };
    let with_table = BlockEdits {
        points: Some(&points),
        ..*edits
    };
    edit_blocks(rt, editing, path, file, &with_table)
}

/// The points of the seek table that a file gets; `None` if it is refused, and its line was printed.
fn points_in<'a>(
    rt: &HostRuntime,
    path: &str,
    file: &TagFile<'a>,
    every: u32,
) -> Result<Option<Vec<SeekPoint>>, FileRefused<'a>> {
    if every == 0 {
        return Ok(Some(Vec::new(rt.alloc())));
    }
    let bytes = file.contents(rt)?;
    let mut err = Counted::new(rt.stderr());
    Ok(points_of(rt.alloc(), path, &bytes, every, &mut err))
}

/// Edits the blocks of a file by these edits, if they change them. Returns what became of it; `None` if it is refused,
/// and its line was printed.
fn edit_blocks<'a>(
    rt: &HostRuntime,
    editing: &Editing<'_>,
    path: &str,
    file: &TagFile<'a>,
    edits: &BlockEdits<'_>,
) -> Result<Option<&'static str>, FileRefused<'a>> {
    let mut source = Counted::new(file.reader()?);
    let mut err = Counted::new(rt.stderr());
    let paths = EditPaths {
        stream: path,
        sheet: editing.sheet,
    };
    match edit_changes(rt.alloc(), &paths, edits, &mut source, &mut err) {
        Some(true) => rewrite_opened(rt, editing, &paths, file, edits),
        Some(false) => Ok(Some("same")),
        None => Ok(None),
    }
}

/// Writes a new file with edited blocks, which takes the place of the old one.
fn rewrite_opened<'a>(
    rt: &HostRuntime,
    editing: &Editing<'_>,
    paths: &EditPaths<'_>,
    file: &TagFile<'a>,
    edits: &BlockEdits<'_>,
) -> Result<Option<&'static str>, FileRefused<'a>> {
    let mut source = Counted::new(file.reader()?);
    let (output, ending) = file.beside(rt)?;
    let mut target = Counted::new(output);
    let mut err = Counted::new(rt.stderr());
    let status = edit_file(rt.alloc(), paths, edits, &mut source, &mut target, &mut err);
    end_edit(
        rt,
        file,
        editing.keep_times,
        target.into_inner(),
        ending,
        status,
    )
}
