//! `flac recode`: a stream whose samples are encoded anew.

use flac_around::{Between, Trimmed};
use flac_bits::Counted;
use flac_cli::recode_file;
use flac_files::JobFiles;
use flac_jobs::Recoding;

/// Opens the files, and encodes the stream anew. Returns the status.
pub(crate) fn recode(rt: &HostRuntime, recoding: &Recoding<'_>) -> u8 {
    let job = recoding.to_encoding(rt.alloc());
    match JobFiles::open_whole(rt, &job, recoding.force) {
        Ok(files) => recode_over(rt, recoding, files),
        Err(refused) => refused.tell(rt),
    }
}

/// Encodes the stream of these files anew. Returns the status.
fn recode_over(rt: &HostRuntime, recoding: &Recoding<'_>, files: JobFiles<'_>) -> u8 {
    let JobFiles {
        input,
        list,
        output,
        ending,
    } = files;
    let mut source = Trimmed::new(Between::new(Counted::new(input)));
    let mut target = Counted::new(output);
    let mut err = Counted::new(rt.stderr());
    let status = recode_file(
        rt.alloc(),
        recoding,
        list.text.as_slice(),
        &mut source,
        &mut target,
        &mut err,
    );
    match ending.end(rt, target.into_inner(), status) {
        Ok(()) => status,
        Err(refused) => refused.tell(rt),
    }
}
