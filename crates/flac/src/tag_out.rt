//! `flac tag --out`: the stream with edited comments as another file.

use flac_around::Trimmed;
use flac_bits::Counted;
use flac_cli::{Paths, retag_ogg, rewrite_file};
use flac_edit::Edit;
use flac_files::{Input, JobFiles, Output, is_ogg_at};
use flac_jobs::{Job, Tagging};

/// Writes the one stream with edited comments to a file. Returns the status.
pub(crate) fn tag_to(
    rt: &HostRuntime,
    tagging: &Tagging<'_>,
    output: &str,
    edits: &[Edit<'_>],
) -> u8 {
    let mut status = 0;
    for path in &tagging.inputs {
        // The file is replaced or not as one of `retag` is.
        let job = Job::Retag {
            input: path,
            output,
            comments: Vec::new(rt.alloc()),
        };
        status = match JobFiles::open_whole(rt, &job, false) {
            Ok(files) => {
                let paths = Paths {
                    input: path,
                    output,
                };
                tag_over(rt, tagging, &paths, edits, files)
            }
            Err(refused) => refused.tell(rt),
        };
    }
    status
}

/// Writes the stream of these files with edited comments. Returns the status.
fn tag_over(
    rt: &HostRuntime,
    tagging: &Tagging<'_>,
    paths: &Paths<'_>,
    edits: &[Edit<'_>],
    files: JobFiles<'_>,
) -> u8 {
    let JobFiles {
        input,
        list: _,
        output,
        ending,
    } = files;
    let mut target = Counted::new(output);
    let status = if is_ogg_at(rt, paths.input) {
        let mut err = Counted::new(rt.stderr());
        let source = Trimmed::new(Counted::new(input));
        retag_ogg(rt.alloc(), paths, edits, source, &mut target, &mut err)
    } else {
        tag_native(rt, tagging, paths, edits, input, &mut target)
    };
    match ending.end(rt, target.into_inner(), status) {
        Ok(()) => status,
        Err(refused) => refused.tell(rt),
    }
}

/// Writes a native stream with edited comments. Returns the status.
fn tag_native(
    rt: &HostRuntime,
    tagging: &Tagging<'_>,
    paths: &Paths<'_>,
    edits: &[Edit<'_>],
    input: Input,
    target: &mut Counted<Output>,
) -> u8 {
    let mut source = Counted::new(input);
    let mut err = Counted::new(rt.stderr());
    rewrite_file(
        rt.alloc(),
        paths,
        edits,
        tagging.padding,
        &mut source,
        target,
        &mut err,
    )
}
