//! `flac verify`.

use super::{Usage, Word, WordKind, values_of};
use crate::no_request::NoRequest;
use clap::ArgMatches;
use flac_jobs::{Request, Verification};
use std::alloc::Global;

const VERIFY_EXAMPLE: &str = "Example:
  $ flac verify Music cut.flac
  ok Music/01.flac: frames 2584 samples 10584000
  ok Music/02.flac: frames 2584 samples 10584000 no-md5
  flac: cut.flac: frame 1291: 3 Truncated
  verified 3 ok 2 bad 1

The line of a good file goes to standard output, that of a bad one to standard error. A
word says what a stream does not state: its MD5 digest (no-md5), the number of its samples
(no-total); or that it is outside the streamable subset (outside-subset), or that tags of
other programs are around it (id3). Ogg streams one after another in a file are counted
together: streams N comes after the counts, and a fault names its stream.

--report writes a line of JSON for each file, as it is done: its path, size and time, and
what was found. --resume goes on with such a report after a run that was cut off, or over
other files: at the end it has the last line of each file.

--against compares with an older report. A word ends the line of each file: same (audio,
size and time), tags (the same audio, at another size or time), audio (another digest,
number of samples or format), new (not in OLD), worse (it was good, and is bad), better
(it was bad, and is good). A file that was bad and still is is the same. After all files,
gone PATH on standard error says that OLD has a file that was not met now. The exit status
is 1 if there is an audio, worse or gone. Where neither has an MD5 digest, the same audio
means as many samples in the same format, and no more.

With --all a bad file is read again, whole into memory, and lines after its own say what
is lost: for each damaged part its samples, their time and their bytes, and then how much
was found.

In a folder, and in the folders in it, files are read whose names end in .flac, .fla, .oga
or .ogg, but not Ogg files of Vorbis, Opus and other codecs. Links to folders are not
followed, unless they are named. The exit status is 0 if all files are good.";

static VERIFY: Usage = Usage {
    name: "verify",
    about: "Decodes many files, also those of folders, and prints a line for each",
    words: &VERIFY_WORDS,
    example: VERIFY_EXAMPLE,
};

/// What `clap` is told of `verify`.
pub(crate) fn usage() -> &'static Usage {
    &VERIFY
}

/// The arguments of `verify`.
const VERIFY_WORDS: [Word; 6] = [
    Word {
        name: "PATH",
        kind: WordKind::Files,
        help: "The files and folders",
    },
    Word {
        name: "subset",
        kind: WordKind::Flag,
        help: "Refuses streams outside the streamable subset, with 14",
    },
    Word {
        name: "report",
        kind: WordKind::Text("OUT"),
        help: "Writes a report to this new file, a line of JSON for each file",
    },
    Word {
        name: "resume",
        kind: WordKind::Text("OUT"),
        help: "Adds to this report, and leaves out files that it has as good",
    },
    Word {
        name: "against",
        kind: WordKind::Text("OLD"),
        help: "Compares each file with this older report",
    },
    Word {
        name: "all",
        kind: WordKind::Flag,
        help: "Says of each bad native file which samples are lost, frame by frame",
    },
];

/// What `verify` asks for.
///
/// # Errors
/// Memory ran out.
pub(crate) fn verify_request<'a>(
    alloc: Global,
    given: &ArgMatches<'a>,
) -> Result<Request<'a>, NoRequest<'a>> {
    Ok(Request::Verify(Verification {
        paths: values_of(alloc, given, "PATH")?,
        subset: given.get_flag("subset"),
        report: given.get_str("report"),
        resume: given.get_str("resume"),
        against: given.get_str("against"),
        all: given.get_flag("all"),
    }))
}

/// Why a verification is refused whose words were all read: a line; `None` if it is not.
pub(crate) fn refusal_of_verification(verification: &Verification<'_>) -> Option<&'static str> {
    if verification.report.is_some() && verification.resume.is_some() {
        return Some("flac: command: --report with --resume\n");
    }
    if verification.against.is_some() && verification.resume.is_some() {
        return Some("flac: command: --against with --resume\n");
    }
    None
}
