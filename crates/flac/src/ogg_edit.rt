//! `flac edit` of an Ogg stream: a new file takes its place.

use crate::edited::end_edit;
use flac_around::Trimmed;
use flac_bits::Counted;
use flac_cli::{EditPaths, edit_ogg, ogg_edits_change};
use flac_edit::BlockEdits;
use flac_files::{FileRefused, TagFile};
use flac_jobs::Editing;

/// Edits the blocks of an Ogg stream, if the edits change them. Returns what became of it; `None` if it is refused, and
/// its line was printed.
///
/// # Errors
/// It is to get a seek table, which an Ogg stream does not have (RFC 9639, section 10.1); or that of the system.
pub(crate) fn edit_ogg_file<'a>(
    rt: &HostRuntime,
    editing: &Editing<'_>,
    path: &str,
    file: &TagFile<'a>,
    edits: &BlockEdits<'_>,
) -> Result<Option<&'static str>, FileRefused<'a>> {
    if editing.seek_every.unwrap_or(0) != 0 {
        return Err(file.refused("edited: an Ogg stream has no seek table"));
    }
    let without_table = BlockEdits {
        points: if editing.seek_every.is_some() {
            Some(&[])
        } else {
            None
        },
        ..*edits
    };
    let paths = EditPaths {
        stream: path,
        sheet: editing.sheet,
    };
    edit_blocks(rt, editing, &paths, file, &without_table)
}

/// Edits the blocks of an Ogg stream by these edits, if they change them.
fn edit_blocks<'a>(
    rt: &HostRuntime,
    editing: &Editing<'_>,
    paths: &EditPaths<'_>,
    file: &TagFile<'a>,
    edits: &BlockEdits<'_>,
) -> Result<Option<&'static str>, FileRefused<'a>> {
    let source = Trimmed::new(Counted::new(file.reader()?));
    let mut err = Counted::new(rt.stderr());
    match ogg_edits_change(rt.alloc(), paths, edits, source, &mut err) {
        Some(true) => rewrite_ogg(rt, editing, paths, file, edits),
        Some(false) => Ok(Some("same")),
        None => Ok(None),
    }
}

/// Writes a new file with edited blocks, which takes the place of the old one.
fn rewrite_ogg<'a>(
    rt: &HostRuntime,
    editing: &Editing<'_>,
    paths: &EditPaths<'_>,
    file: &TagFile<'a>,
    edits: &BlockEdits<'_>,
) -> Result<Option<&'static str>, FileRefused<'a>> {
    let source = Trimmed::new(Counted::new(file.reader()?));
    let (output, ending) = file.beside(rt)?;
    let mut target = Counted::new(output);
    let mut err = Counted::new(rt.stderr());
    let status = edit_ogg(rt.alloc(), paths, edits, source, &mut target, &mut err);
    end_edit(
        rt,
        file,
        editing.keep_times,
        target.into_inner(),
        ending,
        status,
    )
}
