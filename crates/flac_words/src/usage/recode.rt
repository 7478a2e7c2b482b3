//! `flac recode`.

use super::encode::{container_of, effort_of};
use super::{FORCE, STREAM, STREAM_OUT, Usage, Word, WordKind, paths_of};
use crate::no_request::{NO_FORMAT, NoRequest};
use clap::ArgMatches;
use flac_jobs::{ContainerKind, Recoding, Request, SearchEffort, StreamCopy};

const RECODE_EXAMPLE: &str = "Example, smaller, and as an Ogg stream:
  $ flac recode song.flac smaller.flac --search full
  $ flac recode song.flac song.oga --ogg
Example, the same frames in another container:
  $ flac recode song.flac song.oga --ogg --copy
  $ flac recode song.oga song.flac --copy

IN is a native stream or one in Ogg, also outside the streamable subset, and also between an
ID3v2 tag before it and an ID3v1 tag after it, which are left out. OUT has exactly its
samples, sample rate, channels and bits per sample, and its metadata blocks in their order:
comments and their vendor, pictures, cue sheets and applications byte for byte, and padding
of the same length. STREAMINFO is written anew. A seek table is left out, since its offsets
are those of the old frames; --seek-every writes a new one.

In an Ogg stream the comments come first; a stream without comments gets an empty block.

With --copy no sample is encoded anew: each frame is copied byte by byte, and decoded to verify
it. STREAMINFO stays as it is, and so do all blocks but a seek table, which an Ogg stream does
not have. A stream is then copied also if it is outside the streamable subset.

A stream with an error is refused, and a line says where and why. Without --lax a stream
with a rate or a depth outside the streamable subset is refused (40, 41).

OUT has to be another file than IN and LIST. It is written beside its place, as OUT.part, and
named OUT when all is done; after an error nothing of it stays. It may replace a native
stream that has the samples of IN by its STREAMINFO, but no other file of sound: no other
stream, and none that begins with RIFF, RF64, BW64, FORM or ID3. A name that ends in .wav is
refused. With --force any file is replaced, and any name taken.";

static RECODE: Usage = Usage {
    name: "recode",
    about: "Encodes a stream anew: the same samples and metadata, native or Ogg",
    words: &RECODE_WORDS,
    example: RECODE_EXAMPLE,
};

/// What `clap` is told of `recode`.
pub(crate) fn usage() -> &'static Usage {
    &RECODE
}

/// The words of `--search`.
const EFFORTS: [&str; 3] = ["none", "quick", "full"];

/// The arguments of `recode`.
const RECODE_WORDS: [Word; 11] = [
    STREAM,
    STREAM_OUT,
    Word {
        name: "copy",
        kind: WordKind::Flag,
        help: "Copies the frames as they are",
    },
    Word {
        name: "block",
        kind: WordKind::Number(&[]),
        help: "Samples of a block, 16 to 16384; to 4608 at rates up to 48000; with --lax to 65535; if not given, 4096",
    },
    Word {
        name: "seek-every",
        kind: WordKind::Number(&[]),
        help: "Samples from one point of a seek table to the next; 0, or not given: no table",
    },
    Word {
        name: "search",
        kind: WordKind::OneOf("EFFORT", &EFFORTS),
        help: "How far linear predictors are sought; if not given, quick",
    },
    Word {
        name: "ogg",
        kind: WordKind::Flag,
        help: "Writes an Ogg stream, which has no seek table",
    },
    Word {
        name: "serial",
        kind: WordKind::Number(&["1"]),
        help: "The number of the Ogg stream",
    },
    Word {
        name: "predictors",
        kind: WordKind::Text("LIST"),
        help: "The file of linear predictors that the encoder tries too",
    },
    Word {
        name: "lax",
        kind: WordKind::Flag,
        help: "Writes streams outside the streamable subset too, which other players may refuse",
    },
    FORCE,
];

/// What `recode` asks for.
///
/// # Errors
/// A path is missing.
pub(crate) fn recode_request<'a>(given: &ArgMatches<'a>) -> Result<Request<'a>, NoRequest<'a>> {
    let Some((input, output)) = paths_of(given) else {
        return Err(NoRequest::Line(NO_FORMAT));
    };
    Ok(Request::Recode(Recoding {
        input,
        output,
        block: given.get_one("block").unwrap_or(4096),
        seek_every: given.get_one("seek-every").unwrap_or(0),
        container: container_of(given),
        lax: given.get_flag("lax"),
        predictors: given.get_str("predictors"),
        effort: effort_of(given, SearchEffort::Quick),
        force: given.get_flag("force"),
    }))
}

/// The line of a copy whose words say how samples are encoded.
const COPY_ENCODES: &str =
    "flac: command: --copy with --block, --seek-every, --search or --predictors\n";

/// Whether the words say how samples are encoded.
fn says_how(given: &ArgMatches<'_>) -> bool {
    given.get_one::<u32>("block").is_some()
        || given.get_one::<u32>("seek-every").is_some()
        || given.get_str("search").is_some()
        || given.get_str("predictors").is_some()
}

/// What `recode --copy` asks for.
///
/// # Errors
/// A path is missing, or the words also say how samples are encoded.
pub(crate) fn copy_request<'a>(given: &ArgMatches<'a>) -> Result<Request<'a>, NoRequest<'a>> {
    if says_how(given) {
        return Err(NoRequest::Line(COPY_ENCODES));
    }
    let Some((input, output)) = paths_of(given) else {
        return Err(NoRequest::Line(NO_FORMAT));
    };
    Ok(Request::Copy(StreamCopy {
        input,
        output,
        container: container_of(given),
        force: given.get_flag("force"),
    }))
}

/// Why a recoding is refused: a line; `None` if it is not.
pub(crate) fn refusal_of_recoding(recoding: &Recoding<'_>) -> Option<&'static str> {
    if recoding.seek_every != 0 && recoding.container != ContainerKind::Native {
        return Some("flac: command: --ogg with --seek-every\n");
    }
    None
}
