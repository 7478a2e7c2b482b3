//! `flac retag`.

use super::{COMMENTS, FORCE, STREAM, STREAM_OUT, Usage, Word, paths_of, request_for, values_of};
use crate::no_request::{NO_FORMAT, NoRequest};
use clap::ArgMatches;
use flac_jobs::{Job, Request};
use std::alloc::Global;

const RETAG_EXAMPLE: &str = "Example:
  $ flac retag song.flac other.flac TITLE=Song ARTIST=Someone

For daily use take flac tag: it edits some comments and keeps the others and the vendor, in
place or, with --out, in another file.

The comments take the place of all that IN has: without a COMMENT, OUT has none. The
vendor, which names the program that wrote the stream, becomes \"flac profile 1\".

STREAMINFO, the other blocks and the frames stay as they are, but padding is written as
zeros. The frames are not verified. If the metadata is refused, nothing is written.

OUT has to be another file than IN: else it cannot be created, and IN stays as it is. If
the job fails later, what was written before stays in OUT. But if OUT was a file with
bytes, it stays as it was, and what was written is in OUT.part beside it.

A file with bytes is replaced only if it is a native stream with the STREAMINFO of IN,
and not if IN is a pipe. With --force any file is replaced. A word such as TITLE=Song is
no name of OUT: write ./TITLE=Song.";

static RETAG: Usage = Usage {
    name: "retag",
    about: "Writes a stream with other comments",
    words: &RETAG_WORDS,
    example: RETAG_EXAMPLE,
};

/// What `clap` is told of `retag`.
pub(crate) fn usage() -> &'static Usage {
    &RETAG
}

/// The arguments of `retag`.
const RETAG_WORDS: [Word; 4] = [STREAM, STREAM_OUT, COMMENTS, FORCE];

/// What `retag` asks for.
///
/// # Errors
/// A path is missing, or memory ran out.
pub(crate) fn retag_request<'a>(
    alloc: Global,
    given: &ArgMatches<'a>,
) -> Result<Request<'a>, NoRequest<'a>> {
    let Some((input, output)) = paths_of(given) else {
        return Err(NoRequest::Line(NO_FORMAT));
    };
    let comments = values_of(alloc, given, "COMMENT")?;
    Ok(request_for(
        given,
        Job::Retag {
            input,
            output,
            comments,
        },
    ))
}
