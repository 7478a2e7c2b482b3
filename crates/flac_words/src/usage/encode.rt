//! `flac encode`.

use super::{COMMENTS, FORCE, STREAM_OUT, Usage, Word, WordKind, paths_of, request_for, values_of};
use crate::no_request::{NO_FORMAT, NoRequest};
use clap::ArgMatches;
use flac_jobs::{ContainerKind, Job, RawFormat, Request, SearchEffort};
use std::alloc::Global;

const ENCODE_EXAMPLE: &str = "Example, of a WAV file:
  $ flac encode song.wav song.flac TITLE=Song

Example, of raw samples of 44100 Hz, two interleaved channels, 16 bits, little-endian:
  $ flac encode song.raw song.flac --rate 44100 --channels 2 --bits 16 TITLE=Song

Raw samples that begin as a file of sound are refused, since the file would become
noise: with fLaC, OggS, RIFF, RF64, BW64, FORM or ID3. With --raw they are taken.

A sample takes whole bytes: two for 12 bits, three for 20 bits. With --seek-every 441000
the stream has a seek table with a point every ten seconds. With --ogg it is an Ogg
stream.

The encoder tries constant, verbatim and fixed predictors, and those of the list that
--predictors names. A line of the list is one linear predictor: PRECISION SHIFT C1 C2 ..,
C1 for the nearest sample, # before a comment. Of equally short forms the first is
written. A list has at most 64 predictors. Their orders are at most 12 at rates up to
48000 Hz, and at most 32 at higher rates and with --lax.

With --search quick the encoder also seeks linear predictors for each block, and tries
them too; with --search full it seeks more. Files mostly get smaller, and take longer to
encode. Without --search, WAV files are encoded as with quick, raw samples as with none.

The stream of a WAV file keeps all of it, and flac decode writes the same file again.
With --no-keep it has the samples alone, and becomes a WAV file without what was before
and after them. If the file names other speakers than is usual for its channels, they
are in the comment WAVEFORMATEXTENSIBLE_CHANNEL_MASK. A WAV file that ends inside its
samples (69 DataCut), or states 0 bytes of them where they are (92 DataUnstated), is
refused; with --to-end those that are there are encoded.

With --lax streams outside the streamable subset are written: rates up to 1048575 Hz, 4
to 32 bits, blocks of up to 65535 samples, partition orders up to 15. Other players may
refuse them.

OUT has to be another file than IN and LIST: else it cannot be created, and these stay
as they are. A regular file IN is read twice, and one block of it is held. If that fails,
or IN is written to meanwhile (94 Changed), nothing of it stays: a new OUT is empty, and
another one as it was. A pipe is held in memory; if that fails, what was written stays in
OUT, or in OUT.part if OUT is a file with bytes.

OUT may replace a stream, but no other file of sound: none that begins with RIFF, RF64,
BW64, FORM or ID3. With --force any file is replaced. A word such as TITLE=Song is no
name of OUT: write ./TITLE=Song.";

static ENCODE: Usage = Usage {
    name: "encode",
    about: "Encodes a WAV file, or raw samples: interleaved, signed little-endian, whole bytes a sample",
    words: &ENCODE_WORDS,
    example: ENCODE_EXAMPLE,
};

/// What `clap` is told of `encode`.
pub(crate) fn usage() -> &'static Usage {
    &ENCODE
}

/// The words of `--search`.
const EFFORTS: [&str; 3] = ["none", "quick", "full"];

/// The arguments of `encode`.
const ENCODE_WORDS: [Word; 17] = [
    Word {
        name: "IN",
        kind: WordKind::File,
        help: "A WAV file, or raw samples if --rate, --channels and --bits are given; - for standard input",
    },
    STREAM_OUT,
    COMMENTS,
    Word {
        name: "rate",
        kind: WordKind::Number(&[]),
        help: "Samples a second; of raw samples, with --channels and --bits",
    },
    Word {
        name: "channels",
        kind: WordKind::Number(&[]),
        help: "Channels, 1 to 8",
    },
    Word {
        name: "bits",
        kind: WordKind::Number(&[]),
        help: "Bits of a sample: 8, 12, 16, 20, 24 or 32; with --lax 4 to 32",
    },
    Word {
        name: "block",
        kind: WordKind::Number(&["4096"]),
        help: "Samples of a block, 16 to 16384; to 4608 at rates up to 48000; with --lax to 65535",
    },
    Word {
        name: "seek-every",
        kind: WordKind::Number(&["0"]),
        help: "Samples from one point of a seek table to the next; 0: no table",
    },
    Word {
        name: "search",
        kind: WordKind::OneOf("EFFORT", &EFFORTS),
        help: "How far linear predictors are sought; if not given, quick for WAV, none for raw samples",
    },
    Word {
        name: "ogg",
        kind: WordKind::Flag,
        help: "Writes an Ogg stream, which has no seek table",
    },
    Word {
        name: "serial",
        kind: WordKind::Number(&["1"]),
        help: "The number of the Ogg stream",
    },
    Word {
        name: "predictors",
        kind: WordKind::Text("LIST"),
        help: "The file of linear predictors that the encoder tries too",
    },
    Word {
        name: "lax",
        kind: WordKind::Flag,
        help: "Writes streams outside the streamable subset too, which other players may refuse",
    },
    Word {
        name: "raw",
        kind: WordKind::Flag,
        help: "Takes any bytes as raw samples, also those of a stream or a WAV file",
    },
    Word {
        name: "no-keep",
        kind: WordKind::Flag,
        help: "Keeps nothing of a WAV file but its samples and which speakers they are for",
    },
    Word {
        name: "to-end",
        kind: WordKind::Flag,
        help: "Takes the samples of a WAV file that was cut, up to its end",
    },
    FORCE,
];

/// What `encode` asks for.
///
/// # Errors
/// A path is missing, or an option of raw samples if others are given; or memory ran out.
pub(crate) fn encode_request<'a>(
    alloc: Global,
    given: &ArgMatches<'a>,
) -> Result<Request<'a>, NoRequest<'a>> {
    let format = format_of(given);
    if format.is_none() && asks_raw(given) {
        return Err(NoRequest::Line(NO_FORMAT));
    }
    let Some(paths) = paths_of(given) else {
        return Err(NoRequest::Line(NO_FORMAT));
    };
    let comments = values_of(alloc, given, "COMMENT")?;
    let job = match format {
        Some(format) => raw_job(given, paths, format, comments),
        None => wave_job(given, paths, comments),
    };
    Ok(request_for(given, job))
}

/// The encoding of raw samples of a format.
fn raw_job<'a>(
    given: &ArgMatches<'a>,
    (input, output): (&'a str, &'a str),
    format: RawFormat,
    comments: Vec<&'a str>,
) -> Job<'a> {
    Job::Encode {
        input,
        output,
        format,
        container: container_of(given),
        comments,
        lax: given.get_flag("lax"),
        predictors: given.get_str("predictors"),
        effort: effort_of(given, SearchEffort::None),
        raw: given.get_flag("raw"),
    }
}

/// The encoding of a WAV file.
fn wave_job<'a>(
    given: &ArgMatches<'a>,
    (input, output): (&'a str, &'a str),
    comments: Vec<&'a str>,
) -> Job<'a> {
    Job::EncodeWave {
        input,
        output,
        block: given.get_one("block").unwrap_or(4096),
        seek_every: given.get_one("seek-every").unwrap_or(0),
        container: container_of(given),
        comments,
        lax: given.get_flag("lax"),
        predictors: given.get_str("predictors"),
        effort: effort_of(given, SearchEffort::Quick),
        keep: !given.get_flag("no-keep"),
        to_end: given.get_flag("to-end"),
    }
}

/// The format of raw samples that the options give.
fn format_of(given: &ArgMatches<'_>) -> Option<RawFormat> {
    let rate: Option<u32> = given.get_one("rate");
    let ((rate, channels), bits) = rate
        .zip(given.get_one("channels"))
        .zip(given.get_one("bits"))?;
    Some(RawFormat {
        rate,
        channels,
        bits,
        block: given.get_one("block").unwrap_or(4096),
        seek_every: given.get_one("seek-every").unwrap_or(0),
    })
}

/// Whether raw samples are asked for, by `--raw` or one of the options of a format.
fn asks_raw(given: &ArgMatches<'_>) -> bool {
    given.get_flag("raw")
        || given.get_one::<u32>("rate").is_some()
        || given.get_one::<u32>("channels").is_some()
        || given.get_one::<u32>("bits").is_some()
}

/// How far linear predictors are sought: as far as `--search` says, else as far as is usual for the input.
pub(crate) fn effort_of(given: &ArgMatches<'_>, usual: SearchEffort) -> SearchEffort {
    let Some(word) = given.get_str("search") else {
        return usual;
    };
    if word == "full" {
        SearchEffort::Full
    } else if word == "quick" {
        SearchEffort::Quick
    } else {
        SearchEffort::None
    }
}

/// The container that the options give.
pub(crate) fn container_of(given: &ArgMatches<'_>) -> ContainerKind {
    if given.get_flag("ogg") {
        ContainerKind::Ogg {
            serial: given.get_one("serial").unwrap_or(1),
        }
    } else {
        ContainerKind::Native
    }
}
