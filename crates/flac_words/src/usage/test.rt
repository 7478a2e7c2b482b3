//! `flac test`.

use super::{ANY, LAX, STREAM, Usage, Word, asks_lax, request_for};
use crate::no_request::{NO_FORMAT, NoRequest};
use clap::ArgMatches;
use flac_jobs::{Job, Request};

const TEST_EXAMPLE: &str = "Example:
  $ flac test song.flac
  frames 2584 samples 10584000

Samples are counted per channel. If the stream states their number and their MD5 digest,
both were verified. A file that was cut off:
  $ flac test cut.flac
  flac: cut.flac: frame 1291: 3 Truncated";

static TEST: Usage = Usage {
    name: "test",
    about: "Decodes a stream, and prints how many frames and samples it has",
    words: &TEST_WORDS,
    example: TEST_EXAMPLE,
};

/// What `clap` is told of `test`.
pub(crate) fn usage() -> &'static Usage {
    &TEST
}

/// The arguments of `test`.
const TEST_WORDS: [Word; 3] = [STREAM, LAX, ANY];

/// What `test` asks for.
///
/// # Errors
/// A path is missing.
pub(crate) fn test_request<'a>(given: &ArgMatches<'a>) -> Result<Request<'a>, NoRequest<'a>> {
    let Some(input) = given.get_str("IN") else {
        return Err(NoRequest::Line(NO_FORMAT));
    };
    let lax = asks_lax(given);
    Ok(request_for(given, Job::Test { input, lax }))
}
