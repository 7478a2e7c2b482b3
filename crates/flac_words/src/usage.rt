//! The commands of the program as `clap` is given them: their arguments and their help.

pub(crate) mod block_names;
pub(crate) mod decode;
pub(crate) mod edit;
pub(crate) mod encode;
pub(crate) mod export;
pub(crate) mod list;
pub(crate) mod moments;
pub(crate) mod named;
pub(crate) mod recode;
pub(crate) mod retag;
pub(crate) mod salvage;
pub(crate) mod same;
pub(crate) mod tag;
pub(crate) mod test;
pub(crate) mod verify;

use clap::ArgMatches;
use flac_jobs::{CommandLine, Job, Request};
use std::alloc::{AllocError, Global};

pub(crate) const EXAMPLES: &str = "Examples:
  flac test song.flac             is the stream whole and right?
  flac list song.flac             its metadata
  flac verify Music               are all streams of a folder whole and right?
  flac decode song.flac song.wav  a WAV file of it
  flac decode song.flac song.raw  its samples
  flac encode song.wav song.flac  encodes a WAV file, and keeps all of it
  flac encode song.raw song.flac --rate 44100 --channels 2 --bits 16
  flac encode song.raw song.oga --ogg --rate 44100 --channels 2 --bits 16
  flac retag song.flac other.flac TITLE=Song
  flac tag --set TITLE=Song song.flac   edits its comments in place

The exit status is 0 if the job is done. It is 1 if a stream is refused, and a line says
where and why:
  flac: song.flac: frame 3: 26 FrameCheck";

/// The version of the program, which `--version` prints after its name.
pub(crate) const VERSION: &str = "(proved) 1.0.0";

/// A command of the program: its arguments, and what its help says before and after them.
#[derive(Clone, Copy)]
pub(crate) struct Usage {
    pub(crate) name: &'static str,
    pub(crate) about: &'static str,
    pub(crate) words: &'static [Word],
    pub(crate) example: &'static str,
}

/// An argument of a command.
#[derive(Clone, Copy)]
pub(crate) struct Word {
    pub(crate) name: &'static str,
    pub(crate) kind: WordKind,
    pub(crate) help: &'static str,
}

/// What an argument is.
#[derive(Clone, Copy)]
pub(crate) enum WordKind {
    /// The path of a file, which has to be given.
    File,
    /// The paths of one or more files.
    Files,
    /// As many comments as are given.
    Comments,
    /// An option without a value.
    Flag,
    /// Such an option, with a short form of this letter.
    ShortFlag(char),
    /// An option whose value is a text, which help names so.
    Text(&'static str),
    /// Such an option, which may be given several times.
    Texts(&'static str),
    /// An option whose value is a whole number below 2^32, with at most one default.
    Number(&'static [&'static str]),
    /// An option whose value, which help names so, is one of these words.
    OneOf(&'static str, &'static [&'static str]),
}

pub(crate) const STREAM: Word = Word {
    name: "IN",
    kind: WordKind::File,
    help: "The stream; - for standard input",
};

pub(crate) const STREAMS: Word = Word {
    name: "IN",
    kind: WordKind::Files,
    help: "The streams; - for standard input",
};

pub(crate) const STREAM_OUT: Word = Word {
    name: "OUT",
    kind: WordKind::File,
    help: "The file that the stream is written to; - for standard output",
};

pub(crate) const COMMENTS: Word = Word {
    name: "COMMENT",
    kind: WordKind::Comments,
    help: "Comments, each NAME=VALUE",
};

/// The option `--force` of `decode`, `encode` and `retag`.
pub(crate) const FORCE: Word = Word {
    name: "force",
    kind: WordKind::Flag,
    help: "Replaces OUT whatever it is, but never a file that is read",
};

/// The option `--lax` of `test`, `decode` and `list`.
pub(crate) const LAX: Word = Word {
    name: "lax",
    kind: WordKind::Flag,
    help: "Accepts streams outside the streamable subset too, which are else refused with 14",
};

/// The option `--any` of `test`, `decode` and `list`.
pub(crate) const ANY: Word = Word {
    name: "any",
    kind: WordKind::Flag,
    help: "Reads all that --lax does, also between an ID3v2 tag before the stream and an ID3v1 tag after it",
};

/// Whether streams outside the streamable subset are accepted.
pub(crate) fn asks_lax(given: &ArgMatches<'_>) -> bool {
    given.get_flag("lax") || given.get_flag("any")
}

/// The paths IN and OUT that are given.
pub(crate) fn paths_of<'a>(given: &ArgMatches<'a>) -> Option<(&'a str, &'a str)> {
    given.get_str("IN").zip(given.get_str("OUT"))
}

/// What is asked for by a job, with the options that commands of jobs share.
pub(crate) fn request_for<'a>(given: &ArgMatches<'a>, job: Job<'a>) -> Request<'a> {
    Request::Job(CommandLine {
        job,
        force: given.get_flag("force"),
        any: given.get_flag("any"),
    })
}

/// The values that are given of an argument.
pub(crate) fn values_of<'a>(
    alloc: Global,
    given: &ArgMatches<'a>,
    name: &str,
) -> Result<Vec<&'a str>, AllocError> {
    given.get_strs(name).unwrap_or(&[]).to_vec(alloc)
}
