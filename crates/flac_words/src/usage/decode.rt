//! `flac decode`.

use super::moments::moment_of;
use super::{ANY, FORCE, LAX, STREAM, Usage, Word, WordKind, asks_lax, paths_of, request_for};
use crate::no_request::{NO_FORMAT, NoRequest};
use clap::ArgMatches;
use flac_jobs::{Excerpt, Job, Moment, Request};

const DECODE_EXAMPLE: &str = "Example, a WAV file, the same byte for byte if the stream keeps one:
  $ flac decode song.flac song.wav

Example, raw samples, of a stream of 44100 Hz with two channels of 16 bits:
  $ flac decode song.flac song.raw
  $ sox -t raw -r 44100 -c 2 -b 16 -e signed -L song.raw song.wav

Example, the part between two times, and the first 44100 samples:
  $ flac decode song.flac part.wav --from 1:30 --to 1:45.5
  $ flac decode song.flac part.wav --to 44100

--from and --to take the number of a sample, counted per channel from 0 on, or a time m:ss
or h:mm:ss, also with a fraction of a second of up to nine digits. The sample at --to is
not in the part. A part is written as a plain WAV file or as raw samples. Of a native stream
in a file at most some 256 KiB before the part are read and judged too, of standard input
all up to its end.

OUT has to be another file than IN: else it cannot be created, and IN stays as it is. If
decoding fails, the samples written before stay in OUT. But if OUT was a file with
bytes, it stays as it was, and these samples are in OUT.part beside it.

OUT is not replaced if it is a file of sound: a stream, or one that begins with RIFF,
RF64, BW64, FORM or ID3. A WAV file that is written may replace another. Any name is taken:
if it does not end in .wav, OUT gets raw samples, also as song.flac. With --force any file
is replaced.";

static DECODE: Usage = Usage {
    name: "decode",
    about: "Decodes a stream to a WAV file, or to raw samples: interleaved, signed little-endian, whole bytes a sample",
    words: &DECODE_WORDS,
    example: DECODE_EXAMPLE,
};

/// What `clap` is told of `decode`.
pub(crate) fn usage() -> &'static Usage {
    &DECODE
}

/// The arguments of `decode`.
const DECODE_WORDS: [Word; 8] = [
    STREAM,
    Word {
        name: "OUT",
        kind: WordKind::File,
        help: "The file that the samples are written to; if it ends in .wav, in any case, as a WAV file; - for standard output",
    },
    Word {
        name: "wav",
        kind: WordKind::Flag,
        help: "Writes a WAV file: the one that the stream was encoded of, or else a plain one",
    },
    Word {
        name: "from",
        kind: WordKind::Text("MOMENT"),
        help: "Writes the samples from this one or this time on",
    },
    Word {
        name: "to",
        kind: WordKind::Text("MOMENT"),
        help: "Writes the samples before this one or this time",
    },
    LAX,
    ANY,
    FORCE,
];

/// What `decode` asks for, all samples.
///
/// # Errors
/// A path is missing.
pub(crate) fn decode_request<'a>(given: &ArgMatches<'a>) -> Result<Request<'a>, NoRequest<'a>> {
    let Some((input, output)) = paths_of(given) else {
        return Err(NoRequest::Line(NO_FORMAT));
    };
    let lax = asks_lax(given);
    let job = if asks_wave(given, output) {
        Job::DecodeWave { input, output, lax }
    } else {
        Job::Decode { input, output, lax }
    };
    Ok(request_for(given, job))
}

/// Whether a part of the samples is asked for.
pub(crate) fn asks_excerpt(given: &ArgMatches<'_>) -> bool {
    given.get_str("from").is_some() || given.get_str("to").is_some()
}

/// The part of the samples that is asked for.
///
/// # Errors
/// A path is missing, or a word is no moment.
pub(crate) fn excerpt_request<'a>(given: &ArgMatches<'a>) -> Result<Request<'a>, NoRequest<'a>> {
    let Some((input, output)) = paths_of(given) else {
        return Err(NoRequest::Line(NO_FORMAT));
    };
    let Some((from, to)) = moments_of(given) else {
        return Err(NoRequest::Line(
            "flac: command: --from and --to take a number of samples, or a time m:ss, m:ss.fraction or h:mm:ss\n",
        ));
    };
    Ok(Request::Excerpt(Excerpt {
        input,
        output,
        from,
        to,
        wave: asks_wave(given, output),
        lax: asks_lax(given),
        any: given.get_flag("any"),
        force: given.get_flag("force"),
    }))
}

/// Where the part begins, and where it ends if that is given; `None` if a word is no moment.
fn moments_of(given: &ArgMatches<'_>) -> Option<(Moment, Option<Moment>)> {
    let from = match given.get_str("from") {
        Some(word) => moment_of(word)?,
        None => Moment::Sample(0),
    };
    match given.get_str("to") {
        Some(word) => Some((from, Some(moment_of(word)?))),
        None => Some((from, None)),
    }
}

/// Why a part is refused whose words were all read: a line; `None` if it is not.
pub(crate) fn refusal_of_excerpt(excerpt: &Excerpt<'_>) -> Option<&'static str> {
    if is_before(excerpt.to?, excerpt.from) {
        Some("flac: command: --to is before --from\n")
    } else {
        None
    }
}

/// Whether a moment is before another of the same kind.
fn is_before(one: Moment, other: Moment) -> bool {
    match (one, other) {
        (Moment::Sample(one), Moment::Sample(other)) => one < other,
        (Moment::Time(one), Moment::Time(other)) => one < other,
        _ => false,
    }
}

/// Whether a WAV file is written to this path.
fn asks_wave(given: &ArgMatches<'_>, output: &str) -> bool {
    given.get_flag("wav") || names_wave(output)
}

/// Whether a path ends in `.wav`, in any case.
fn names_wave(path: &str) -> bool {
    let bytes = path.as_bytes();
    bytes.len() >= 4 && bytes[bytes.len() - 4..].eq_ignore_ascii_case(b".wav")
}
