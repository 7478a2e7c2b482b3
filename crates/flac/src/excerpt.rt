//! `flac decode` of a part of a stream: its files.

use flac_around::{Between, Trimmed};
use flac_bits::{Counted, Target};
use flac_cli::{decode_excerpt, seek_excerpt};
use flac_files::{FileRefused, Input, JobFiles};
use flac_jobs::Excerpt;
use std::io::Seek;

/// Opens the files, and decodes the part. Returns the status.
pub(crate) fn excerpt(rt: &HostRuntime, asked: &Excerpt<'_>) -> u8 {
    let job = asked.to_job();
    match JobFiles::open(rt, &job, asked.force) {
        Ok(files) => decode_over(rt, asked, files),
        Err(refused) => refused.tell(rt),
    }
}

/// Decodes the part of the stream of these files. Returns the status.
fn decode_over(rt: &HostRuntime, excerpt: &Excerpt<'_>, files: JobFiles<'_>) -> u8 {
    let JobFiles {
        input,
        list: _,
        output,
        ending,
    } = files;
    let mut target = Counted::new(output);
    let status = match sought(rt, excerpt, &input, &mut target) {
        Ok(Some(status)) => status,
        Ok(None) => decode_all(rt, excerpt, input, &mut target),
        Err(refused) => refused.tell(rt),
    };
    match ending.end(rt, target.into_inner(), status) {
        Ok(()) => status,
        Err(refused) => refused.tell(rt),
    }
}

/// Decodes the part from a frame before it on, if the input is a regular file of a native stream. Returns the status;
/// `None` if the part has to be decoded from the beginning, where the file is then again.
///
/// # Errors
/// The file cannot be moved to its beginning.
fn sought<'a, W: Target>(
    rt: &HostRuntime,
    excerpt: &Excerpt<'a>,
    input: &Input,
    target: &mut W,
) -> Result<Option<u8>, FileRefused<'a>> {
    let Input::File(file) = input else {
        return Ok(None);
    };
    if excerpt.any || !file.metadata().is_ok_and(|found| found.is_file()) {
        return Ok(None);
    }
    let mut file = file;
    let mut err = Counted::new(rt.stderr());
    let status = seek_excerpt(rt.alloc(), excerpt, file, target, &mut err);
    if status.is_none() && file.rewind().is_err() {
        return Err(FileRefused {
            path: excerpt.input,
            what: "read",
        });
    }
    Ok(status)
}

/// Decodes the part of the stream from the beginning of the input on. Returns the status.
fn decode_all<W: Target>(
    rt: &HostRuntime,
    excerpt: &Excerpt<'_>,
    input: Input,
    target: &mut W,
) -> u8 {
    let mut err = Counted::new(rt.stderr());
    if excerpt.any {
        let mut source = Trimmed::new(Between::new(Counted::new(input)));
        return decode_excerpt(rt.alloc(), excerpt, &mut source, target, &mut err);
    }
    let mut source = Counted::new(input);
    decode_excerpt(rt.alloc(), excerpt, &mut source, target, &mut err)
}
