//! `flac tag` of an Ogg stream: a new file takes its place.

use crate::edited::end_edit;
use flac_around::Trimmed;
use flac_bits::Counted;
use flac_cli::{Paths, ogg_comments_change, refuse_room, retag_ogg};
use flac_edit::Edit;
use flac_files::{FileRefused, TagFile};
use flac_jobs::{TagMode, Tagging};

/// Edits the comments of an Ogg stream, if the edits change them. Returns what became of it; `None` if it is refused,
/// and its line was printed.
pub(crate) fn tag_ogg<'a>(
    rt: &HostRuntime,
    tagging: &Tagging<'_>,
    path: &str,
    file: &TagFile<'a>,
    edits: &[Edit<'_>],
) -> Result<Option<&'static str>, FileRefused<'a>> {
    if tagging.mode == Some(TagMode::Rewrite) {
        return rewrite_ogg(rt, tagging, path, file, edits);
    }
    let source = Trimmed::new(Counted::new(file.reader()?));
    let mut err = Counted::new(rt.stderr());
    match ogg_comments_change(rt.alloc(), path, edits, source, &mut err) {
        Some(false) => Ok(Some("same")),
        Some(true) if tagging.mode == Some(TagMode::InPlace) => {
            let _status = refuse_room(&mut err, path);
            Ok(None)
        }
        Some(true) => rewrite_ogg(rt, tagging, path, file, edits),
        None => Ok(None),
    }
}

/// Writes a new file with edited comments, which takes the place of the old one.
fn rewrite_ogg<'a>(
    rt: &HostRuntime,
    tagging: &Tagging<'_>,
    path: &str,
    file: &TagFile<'a>,
    edits: &[Edit<'_>],
) -> Result<Option<&'static str>, FileRefused<'a>> {
    let source = Trimmed::new(Counted::new(file.reader()?));
    let (output, ending) = file.beside(rt)?;
    let mut target = Counted::new(output);
    let mut err = Counted::new(rt.stderr());
    let paths = Paths {
        input: path,
        output: path,
    };
    let status = retag_ogg(rt.alloc(), &paths, edits, source, &mut target, &mut err);
    end_edit(
        rt,
        file,
        tagging.keep_times,
        target.into_inner(),
        ending,
        status,
    )
}
