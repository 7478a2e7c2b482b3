//! `flac list` of several streams, of their blocks alone, of some blocks, or as lines of JSON.

use crate::between::list_tags;
use crate::chain::{Listed, list_streams};
use flac_around::Between;
use flac_bits::{Counted, Source};
use flac_cli::{ListedFile, json_head, json_stream, list_head, list_stream};
use flac_files::{Input, JobFiles};
use flac_jobs::{Job, Listing};

/// How metadata is listed.
#[derive(Clone, Copy)]
pub(crate) struct Form {
    /// Whether streams outside the streamable subset are accepted.
    pub(crate) lax: bool,
    /// Whether the blocks alone are read.
    pub(crate) head: bool,
    /// Whether it is printed as JSON.
    pub(crate) json: bool,
}

/// Lists the metadata of each stream. Returns the status: 1 if that of one is not 0.
pub(crate) fn list_files(rt: &HostRuntime, listing: &Listing<'_>) -> u8 {
    // A listing whose words name no blocks was refused.
    let names = match &listing.blocks {
        Some(names) => names.as_slice(),
        None => &[],
    };
    let mut status = 0;
    for path in &listing.inputs {
        let file = ListedFile { path, names };
        if list_file(rt, &file, listing) != 0 {
            status = 1;
        }
    }
    status
}

/// Lists the metadata of one of the streams; if there are several and the lines are none of JSON, after a line with its
/// path. Returns the status.
fn list_file(rt: &HostRuntime, file: &ListedFile<'_>, listing: &Listing<'_>) -> u8 {
    let path = file.path;
    if listing.inputs.len() > 1 && !listing.json && println!(rt; "{path}").is_err() {
        let _ = eprintln!(rt; "flac: {path}: 39 Write");
        return 1;
    }
    let job = Job::List {
        input: path,
        lax: listing.lax,
    };
    let form = Form {
        lax: listing.lax,
        head: listing.head,
        json: listing.json,
    };
    match JobFiles::open(rt, &job, false) {
        Ok(files) if listing.any => list_between(rt, file, form, files.input),
        Ok(files) => list_source(rt, file, form, &mut Counted::new(files.input)),
        Err(refused) => refused.tell(rt),
    }
}

/// Lists the metadata of the streams between the tags of other programs. The lines of all blocks end with those of the
/// tags that were read. Returns the status.
pub(crate) fn list_between(
    rt: &HostRuntime,
    file: &ListedFile<'_>,
    form: Form,
    input: Input,
) -> u8 {
    let Listed { source, status } = list_streams(rt, file, form, Between::new(Counted::new(input)));
    if status != 0 || form.json || !file.names.is_empty() {
        return status;
    }
    // Of the blocks alone the end was not read, so only a tag before the stream is known.
    let after = if form.head { 0 } else { source.after() };
    list_tags(rt, file.path, source.before(), after)
}

/// Lists the metadata of the stream that this source is. Returns the status.
pub(crate) fn list_source<R: Source>(
    rt: &HostRuntime,
    file: &ListedFile<'_>,
    form: Form,
    source: &mut R,
) -> u8 {
    let alloc = rt.alloc();
    let mut out = Counted::new(rt.stdout());
    let mut err = Counted::new(rt.stderr());
    match (form.json, form.head) {
        (true, true) => json_head(alloc, file, source, &mut out, &mut err),
        (true, false) => json_stream(alloc, file, form.lax, source, &mut out, &mut err),
        (false, true) => list_head(alloc, file, source, &mut out, &mut err),
        (false, false) => list_stream(alloc, file, form.lax, source, &mut out, &mut err),
    }
}
