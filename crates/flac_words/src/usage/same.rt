//! `flac same`.

use super::{Usage, Word, WordKind};
use crate::no_request::{NO_FORMAT, NoRequest};
use clap::ArgMatches;
use flac_jobs::{Comparison, Request};

const SAME_EXAMPLE: &str = "Example:
  $ flac same song.flac other.oga
  $ flac same song.flac louder.flac
  differ at sample 4711 channel 0

The exit status is 0 if both are streams of the same samples, sample rate, channels and bits
per sample, whatever their containers, tags and block sizes. It is 1 if they differ, and a
line says in what: rate, channels, bits, the first sample, or the number of samples; and if
one of them is refused.";

static SAME: Usage = Usage {
    name: "same",
    about: "Compares the samples of two streams, and prints the first difference",
    words: &SAME_WORDS,
    example: SAME_EXAMPLE,
};

/// What `clap` is told of `same`.
pub(crate) fn usage() -> &'static Usage {
    &SAME
}

/// The arguments of `same`.
const SAME_WORDS: [Word; 2] = [
    Word {
        name: "FIRST",
        kind: WordKind::File,
        help: "A stream; - for standard input, for one of the two",
    },
    Word {
        name: "SECOND",
        kind: WordKind::File,
        help: "Another stream; - for standard input",
    },
];

/// What `same` asks for.
///
/// # Errors
/// A path is missing.
pub(crate) fn same_request<'a>(given: &ArgMatches<'a>) -> Result<Request<'a>, NoRequest<'a>> {
    match given.get_str("FIRST").zip(given.get_str("SECOND")) {
        Some((first, second)) => Ok(Request::Same(Comparison { first, second })),
        None => Err(NoRequest::Line(NO_FORMAT)),
    }
}

/// Why a comparison is refused: a line; `None` if it is not.
pub(crate) fn refusal_of_comparison(comparison: &Comparison<'_>) -> Option<&'static str> {
    if comparison.first == "-" && comparison.second == "-" {
        return Some("flac: command: same reads standard input only once\n");
    }
    None
}
