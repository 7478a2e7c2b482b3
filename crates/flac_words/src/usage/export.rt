//! `flac export`.

use super::{FORCE, Usage, Word, WordKind, paths_of};
use crate::no_request::{NO_FORMAT, NoRequest};
use clap::ArgMatches;
use flac_jobs::{ExportPart, Exporting, Request};

const EXPORT_EXAMPLE: &str = "Examples:
  $ flac export song.flac picture cover.jpg
  $ flac export song.flac tags - | sort
  $ flac export album.flac cuesheet album.cue

PART is tags, picture, cuesheet, or the number of a block, as list has it. Tags are a line
each, escaped as list has them: bytes outside 20 to 7E (hexadecimal) and the backslash are
\\x and two digits. Of a picture it is the data of the first one, of a cue sheet the text of
the first one, which edit --cuesheet takes; of a block the content without its header; that
of padding is zeros. No frame is read.

A file OUT that is a stream or another file of sound (RIFF, RF64, BW64, FORM, ID3) is not
replaced without --force; any other that has bytes is replaced once the new one is whole.";

static EXPORT: Usage = Usage {
    name: "export",
    about: "Writes tags, a picture, a cue sheet or the content of a block to a file",
    words: &EXPORT_WORDS,
    example: EXPORT_EXAMPLE,
};

/// What `clap` is told of `export`.
pub(crate) fn usage() -> &'static Usage {
    &EXPORT
}

/// The arguments of `export`.
const EXPORT_WORDS: [Word; 4] = [
    Word {
        name: "IN",
        kind: WordKind::File,
        help: "The stream; - for standard input",
    },
    Word {
        name: "PART",
        kind: WordKind::File,
        help: "What is written: tags, picture, cuesheet, or the number of a block",
    },
    Word {
        name: "OUT",
        kind: WordKind::File,
        help: "The file that it is written to; - for standard output",
    },
    FORCE,
];

/// What `export` asks for.
///
/// # Errors
/// A path or the part is missing.
pub(crate) fn export_request<'a>(given: &ArgMatches<'a>) -> Result<Request<'a>, NoRequest<'a>> {
    match paths_of(given).zip(given.get_str("PART")) {
        Some(((input, output), part)) => Ok(Request::Export(Exporting {
            input,
            part: part_of(part),
            output,
            force: given.get_flag("force"),
        })),
        None => Err(NoRequest::Line(NO_FORMAT)),
    }
}

/// Which part a word names.
fn part_of(word: &str) -> Option<ExportPart> {
    match word {
        "tags" => Some(ExportPart::Tags),
        "picture" => Some(ExportPart::Picture),
        "cuesheet" => Some(ExportPart::CueSheet),
        _ => Some(ExportPart::Block(word.parse::<u32>().ok()?)),
    }
}

/// Why an exporting is refused whose words were all read: a line; `None` if it is not.
pub(crate) fn refusal_of_exporting(exporting: &Exporting<'_>) -> Option<&'static str> {
    if exporting.part.is_none() {
        return Some(
            "flac: command: export takes tags, picture, cuesheet or the number of a block\n",
        );
    }
    None
}
