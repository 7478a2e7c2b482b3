//! `flac salvage`.

use super::{FORCE, STREAM_OUT, Usage, Word, WordKind, paths_of};
use crate::no_request::{NO_FORMAT, NoRequest};
use clap::ArgMatches;
use flac_jobs::{Filling, Request, Salvage};

const SALVAGE_EXAMPLE: &str = "Example:
  $ flac salvage damaged.flac saved.flac

IN is read also after an error, and each frame is looked for that is whole: its checks hold,
and it fits STREAMINFO and the frames before and after it. Their samples are encoded anew,
each at its place. What is lost between them is silence in OUT; with --gap it is left out,
and OUT is shorter. What is lost is listed on standard error. The status is 0 if OUT was
written, whatever is lost, and 1 if it was not. The metadata of IN has to be whole.

OUT has to be another file than IN. It is written beside its place, as OUT.part, and named OUT
when all is done; after an error nothing of it stays. It may replace a native stream that has
the samples of IN by its STREAMINFO, but no other file of sound: no other stream, and none
that begins with RIFF, RF64, BW64, FORM or ID3. A name that ends in .wav is refused. With
--force any file is replaced, and any name taken.";

static SALVAGE: Usage = Usage {
    name: "salvage",
    about: "Encodes the whole frames of a damaged stream anew, with silence for what is lost",
    words: &SALVAGE_WORDS,
    example: SALVAGE_EXAMPLE,
};

/// What `clap` is told of `salvage`.
pub(crate) fn usage() -> &'static Usage {
    &SALVAGE
}

/// The arguments of `salvage`.
const SALVAGE_WORDS: [Word; 6] = [
    Word {
        name: "IN",
        kind: WordKind::File,
        help: "The damaged stream; - for standard input",
    },
    STREAM_OUT,
    Word {
        name: "silence",
        kind: WordKind::Flag,
        help: "Writes zeros for samples that are lost, the default",
    },
    Word {
        name: "gap",
        kind: WordKind::Flag,
        help: "Leaves samples out that are lost",
    },
    Word {
        name: "lax",
        kind: WordKind::Flag,
        help: "Writes streams outside the streamable subset too, which other players may refuse",
    },
    FORCE,
];

/// What `salvage` asks for.
///
/// # Errors
/// A path is missing, or both fillings are asked for.
pub(crate) fn salvage_request<'a>(given: &ArgMatches<'a>) -> Result<Request<'a>, NoRequest<'a>> {
    let gap = given.get_flag("gap");
    if gap && given.get_flag("silence") {
        return Err(NoRequest::Line("flac: command: --silence with --gap\n"));
    }
    let Some((input, output)) = paths_of(given) else {
        return Err(NoRequest::Line(NO_FORMAT));
    };
    Ok(Request::Salvage(Salvage {
        input,
        output,
        filling: if gap {
            Filling::Nothing
        } else {
            Filling::Silence
        },
        lax: given.get_flag("lax"),
        force: given.get_flag("force"),
    }))
}
