//! `flac export`: writes a part of the metadata of a stream to a file.

use flac_around::Trimmed;
use flac_bits::Counted;
use flac_cli::{export_file, export_ogg};
use flac_files::{Input, JobFiles, Output, is_ogg_at};
use flac_jobs::{ExportPart, Exporting, Job};

/// Opens the files, and exports the part. Returns the status.
pub(crate) fn export(rt: &HostRuntime, exporting: &Exporting<'_>) -> u8 {
    let Some(part) = exporting.part else {
        return 2;
    };
    // The file is replaced or not as one of raw samples is.
    let job = Job::Decode {
        input: exporting.input,
        output: exporting.output,
        lax: true,
    };
    match JobFiles::open_whole(rt, &job, exporting.force) {
        Ok(files) => export_over(rt, exporting, part, files),
        Err(refused) => refused.tell(rt),
    }
}

/// Exports the part over these files. Returns the status.
fn export_over(
    rt: &HostRuntime,
    exporting: &Exporting<'_>,
    part: ExportPart,
    files: JobFiles<'_>,
) -> u8 {
    let JobFiles {
        input,
        list: _,
        output,
        ending,
    } = files;
    let mut target = Counted::new(output);
    let status = if is_ogg_at(rt, exporting.input) {
        export_from_ogg(rt, exporting, part, input, &mut target)
    } else {
        export_from_native(rt, exporting, part, input, &mut target)
    };
    match ending.end(rt, target.into_inner(), status) {
        Ok(()) => status,
        Err(refused) => refused.tell(rt),
    }
}

/// Exports the part of a native stream. Returns the status.
fn export_from_native(
    rt: &HostRuntime,
    exporting: &Exporting<'_>,
    part: ExportPart,
    input: Input,
    target: &mut Counted<Output>,
) -> u8 {
    let mut source = Counted::new(input);
    let mut err = Counted::new(rt.stderr());
    export_file(rt.alloc(), exporting, part, &mut source, target, &mut err)
}

/// Exports the part of an Ogg stream. Returns the status.
fn export_from_ogg(
    rt: &HostRuntime,
    exporting: &Exporting<'_>,
    part: ExportPart,
    input: Input,
    target: &mut Counted<Output>,
) -> u8 {
    let source = Trimmed::new(Counted::new(input));
    let mut err = Counted::new(rt.stderr());
    export_ogg(rt.alloc(), exporting, part, source, target, &mut err)
}
