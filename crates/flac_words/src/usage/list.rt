//! `flac list`.

use super::block_names::block_names;
use super::{ANY, LAX, STREAMS, Usage, Word, WordKind, asks_lax, request_for, values_of};
use crate::no_request::NoRequest;
use clap::ArgMatches;
use flac_jobs::{Job, Listing, Request};
use std::alloc::{AllocError, Global};

const LIST_EXAMPLE: &str = "Example:
  $ flac list song.flac
  block 0 STREAMINFO 34
    blocks 4096 4096 frames 14 9217 rate 44100 channels 2 depth 16 samples 10584000
    md5 1e9f2ec1e5a1a1d5f6a3b8a7c0de4a31
  block 1 VORBIS_COMMENT 51
    vendor reference libFLAC 1.4.2 20221022
    comment TITLE=x

Of several streams each has a line with its path before its own. If one is refused, its
line is on standard error, the others are listed, and the exit status is 1. With --head
the blocks are read and no frame is: a moment also for a long stream.

With --any lines at the end say how long the tags of other programs are, in bytes:
  before ID3v2 1034
  after ID3v1 128

With --json each stream is a line of JSON. With --block only some blocks are listed. If a
stream has none of them, nothing is listed of it, and the exit status is 0; with --json its
line has no block. A block is named by its number, 0 for STREAMINFO, or by its type:
streaminfo, padding, application, application:ID, seektable, vorbis_comment, cuesheet,
picture, or type_7 to type_126. ID is four characters, or 0x and eight hexadecimal digits.

Bytes of a text outside 20 to 7E (hexadecimal), and the backslash, are shown as \\x and
two digits.";

static LIST: Usage = Usage {
    name: "list",
    about: "Decodes a stream, and lists its metadata blocks",
    words: &LIST_WORDS,
    example: LIST_EXAMPLE,
};

/// What `clap` is told of `list`.
pub(crate) fn usage() -> &'static Usage {
    &LIST
}

/// The arguments of `list`.
const LIST_WORDS: [Word; 6] = [
    STREAMS,
    Word {
        name: "head",
        kind: WordKind::Flag,
        help: "Reads the metadata blocks alone: no frame is verified",
    },
    Word {
        name: "json",
        kind: WordKind::Flag,
        help: "Prints a line of JSON for each stream",
    },
    Word {
        name: "block",
        kind: WordKind::Texts("N|TYPE[:ID]"),
        help: "Lists the block of this number, or all of this type",
    },
    LAX,
    ANY,
];

/// What `list` asks for: a job for one stream of which all is listed as text, else a listing.
///
/// # Errors
/// Memory ran out.
pub(crate) fn list_request<'a>(
    alloc: Global,
    given: &ArgMatches<'a>,
) -> Result<Request<'a>, NoRequest<'a>> {
    if let Some(input) = listed_whole(given) {
        let lax = asks_lax(given);
        return Ok(request_for(given, Job::List { input, lax }));
    }
    Ok(Request::ListFiles(listing_of(alloc, given)?))
}

/// The listing that is asked for.
///
/// # Errors
/// Memory ran out.
fn listing_of<'a>(alloc: Global, given: &ArgMatches<'a>) -> Result<Listing<'a>, AllocError> {
    let blocks = block_names(alloc, given.get_strs("block").unwrap_or(&[]))?;
    Ok(Listing {
        inputs: values_of(alloc, given, "IN")?,
        lax: asks_lax(given),
        any: given.get_flag("any"),
        head: given.get_flag("head"),
        json: given.get_flag("json"),
        blocks,
    })
}

/// The one stream of which all is listed as text; `None` if more or less is asked for.
fn listed_whole<'a>(given: &ArgMatches<'a>) -> Option<&'a str> {
    match given.get_strs("IN") {
        Some([input]) if !asks_part(given) => Some(input),
        _ => None,
    }
}

/// Whether a part of the metadata is asked for, or JSON.
fn asks_part(given: &ArgMatches<'_>) -> bool {
    given.get_flag("head") || given.get_flag("json") || given.get_str("block").is_some()
}

/// Why a listing is refused whose words were all read: a line; `None` if it is not.
pub(crate) fn refusal_of_listing(listing: &Listing<'_>) -> Option<&'static str> {
    if listing.blocks.is_none() {
        return Some("flac: command: --block takes the number of a block, or a type\n");
    }
    None
}
