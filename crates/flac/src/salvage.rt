//! `flac salvage`: the whole frames of a damaged stream, encoded anew.

use flac_bits::Counted;
use flac_cli::salvage_file;
use flac_files::JobFiles;
use flac_jobs::Salvage;

/// Opens the files, and encodes the frames that are whole. Returns the status.
pub(crate) fn salvage(rt: &HostRuntime, salvage: &Salvage<'_>) -> u8 {
    let recoding = salvage.to_recoding();
    let job = recoding.to_encoding(rt.alloc());
    match JobFiles::open_whole(rt, &job, salvage.force) {
        Ok(files) => salvage_over(rt, salvage, files),
        Err(refused) => refused.tell(rt),
    }
}

/// Encodes the whole frames of these files. Returns the status.
fn salvage_over(rt: &HostRuntime, salvage: &Salvage<'_>, files: JobFiles<'_>) -> u8 {
    let JobFiles {
        input,
        list: _,
        output,
        ending,
    } = files;
    let mut source = Counted::new(input);
    let mut target = Counted::new(output);
    let mut err = Counted::new(rt.stderr());
    let status = salvage_file(rt.alloc(), salvage, &mut source, &mut target, &mut err);
    match ending.end(rt, target.into_inner(), status) {
        Ok(()) => status,
        Err(refused) => refused.tell(rt),
    }
}
