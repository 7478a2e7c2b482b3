//! `flac recode --copy`: a stream whose frames are copied as they are.

use flac_around::{Between, Trimmed};
use flac_bits::Counted;
use flac_cli::copy_file;
use flac_files::JobFiles;
use flac_jobs::StreamCopy;

/// Opens the files, and copies the stream. Returns the status.
pub(crate) fn copy(rt: &HostRuntime, copy: &StreamCopy<'_>) -> u8 {
    let job = copy.to_encoding(rt.alloc());
    match JobFiles::open_whole(rt, &job, copy.force) {
        Ok(files) => copy_over(rt, copy, files),
        Err(refused) => refused.tell(rt),
    }
}

/// Copies the stream of these files. Returns the status.
fn copy_over(rt: &HostRuntime, copy: &StreamCopy<'_>, files: JobFiles<'_>) -> u8 {
    let JobFiles {
        input,
        list: _,
        output,
        ending,
    } = files;
    let source = Trimmed::new(Between::new(Counted::new(input)));
    let mut target = Counted::new(output);
    let mut err = Counted::new(rt.stderr());
    let status = copy_file(rt.alloc(), copy, source, &mut target, &mut err);
    match ending.end(rt, target.into_inner(), status) {
        Ok(()) => status,
        Err(refused) => refused.tell(rt),
    }
}
