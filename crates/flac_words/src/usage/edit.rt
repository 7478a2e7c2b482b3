//! `flac edit`.

use super::block_names::{block_names, names_stream_info};
use super::named::{Named, all_named};
use super::{Usage, Word, WordKind, values_of};
use crate::no_request::NoRequest;
use clap::ArgMatches;
use flac_jobs::{BlockName, Editing, PictureForm, PictureWord, Request};
use std::alloc::{AllocError, Global};

const EDIT_EXAMPLE: &str = "Examples:
  $ flac edit --picture cover.jpg song.flac                adds a front cover
  $ flac edit --remove-block picture --padding 4096 *.flac
  $ flac edit --cuesheet album.cue album.flac              puts in a cue sheet
  $ flac edit --seek-every 441000 song.flac                a seek point every 10 seconds

A block is named by its number, as list has it, or by its type: padding, application,
application:ID, seektable, vorbis_comment, cuesheet, picture, or type_7 to type_126. ID is
four characters, or 0x and eight hexadecimal digits. STREAMINFO cannot be removed.

A picture is a PNG or JPEG file, of which the sizes are read. Any other is given as
TYPE:MEDIA:WIDTHxHEIGHTxDEPTH:FILE or TYPE:MEDIA:WIDTHxHEIGHTxDEPTH/COLOURS:FILE. TYPE is 0
to 20: 3 is the front cover, 4 the back cover, 8 the artist; without it, it is 3. Of types
1 and 2 there is one picture at most. Pictures are put before comments and padding.

SHEET is a cue sheet, as programs for CDs and export write it. It takes the place of all that
are there, and is put before comments and padding. What it says besides CATALOG, TRACK,
FLAGS, ISRC and INDEX is not kept. It is that of a CD if the stream has 44100 Hz, 16 bits, one
or two channels and a whole number of frames of 588 samples: then places are mm:ss:ff, else
also numbers of samples. A stream for which a line breaks a rule is refused.

With --seek-every all old seek tables are replaced by one before comments and padding, which
has a point for each frame with a sample whose number is a multiple of N; by none with 0. The
file is read into memory and verified first: a damaged stream is refused.

With --padding all old padding is replaced by one block at the end. A file whose blocks are
so already is not written; a new file takes the place of any other. Frames are copied as
they are, and not verified without --seek-every. A file that is refused stays as it was, and
a line says why; the exit status is then 1.

An Ogg stream keeps its serial number, and its comments come first; its frames are verified.
It has no seek table: with --seek-every other than 0 it is refused.";

static EDIT: Usage = Usage {
    name: "edit",
    about: "Removes metadata blocks of streams, adds pictures, cue sheets, seek tables, padding",
    words: &EDIT_WORDS,
    example: EDIT_EXAMPLE,
};

/// What `clap` is told of `edit`.
pub(crate) fn usage() -> &'static Usage {
    &EDIT
}

/// The arguments of `edit`.
const EDIT_WORDS: [Word; 8] = [
    Word {
        name: "FILE",
        kind: WordKind::Files,
        help: "The streams",
    },
    Word {
        name: "remove-block",
        kind: WordKind::Texts("N|TYPE[:ID]"),
        help: "Removes the block of this number, or all of this type",
    },
    Word {
        name: "picture",
        kind: WordKind::Texts("[TYPE:]FILE"),
        help: "Adds a picture",
    },
    Word {
        name: "cuesheet",
        kind: WordKind::Text("SHEET"),
        help: "Puts in a cue sheet in place of the old; - for standard input",
    },
    Word {
        name: "seek-every",
        kind: WordKind::Number(&[]),
        help: "Samples from one seek point to the next, in place of the old; 0: none",
    },
    Word {
        name: "padding",
        kind: WordKind::Number(&[]),
        help: "Bytes of padding in place of the old; 0: none",
    },
    Word {
        name: "keep-times",
        kind: WordKind::Flag,
        help: "Keeps the time at which each file was changed",
    },
    Word {
        name: "verbose",
        kind: WordKind::ShortFlag('v'),
        help: "Prints what became of each file: same or rewritten",
    },
];

/// What `edit` asks for.
///
/// # Errors
/// Memory ran out.
pub(crate) fn edit_request<'a>(
    alloc: Global,
    given: &ArgMatches<'a>,
) -> Result<Request<'a>, NoRequest<'a>> {
    Ok(Request::Edit(editing_of(alloc, given)?))
}

/// The editing that is asked for.
///
/// # Errors
/// Memory ran out.
fn editing_of<'a>(alloc: Global, given: &ArgMatches<'a>) -> Result<Editing<'a>, AllocError> {
    let removals = removals_of(alloc, given.get_strs("remove-block").unwrap_or(&[]))?;
    let pictures = all_named(alloc, given.get_strs("picture").unwrap_or(&[]))?;
    Ok(Editing {
        inputs: values_of(alloc, given, "FILE")?,
        removals,
        pictures,
        sheet: given.get_str("cuesheet"),
        seek_every: given.get_one("seek-every"),
        padding: given.get_one("padding"),
        keep_times: given.get_flag("keep-times"),
        verbose: given.get_flag("verbose"),
    })
}

/// Which blocks are removed by the words; `None` if one names no blocks, or STREAMINFO.
fn removals_of(alloc: Global, words: &[&str]) -> Result<Option<Vec<BlockName>>, AllocError> {
    match block_names(alloc, words)? {
        Some(names) if !names_stream_info(&names) => Ok(Some(names)),
        _ => Ok(None),
    }
}

impl<'a> Named<'a> for PictureWord<'a> {
    /// The picture that a word names. What is before its first `:` is a type if it is a number, and else belongs to the
    /// path.
    fn of(word: &'a str) -> Option<PictureWord<'a>> {
        if let Some((front, rest)) = word.split_once(':') {
            if let Ok(kind) = front.parse::<u32>() {
                return picture_of(kind, rest);
            }
        }
        Some(PictureWord {
            kind: 3,
            form: None,
            path: word,
        })
    }
}

/// The picture of a type that a text names: a path, or `MEDIA:WIDTHxHEIGHTxDEPTH[/COLOURS]:FILE`. `None` if the type is
/// above 20, or what is between the first two `:` looks like sizes and is none.
fn picture_of(kind: u32, text: &str) -> Option<PictureWord<'_>> {
    if kind > 20 {
        return None;
    }
    let form = None;
    let plain = PictureWord {
        kind,
        form,
        path: text,
    };
    let Some((media, sizes, path)) = parts_of(text) else {
        return Some(plain);
    };
    let form = form_of(media, sizes);
    if form.is_some() {
        return Some(PictureWord { kind, form, path });
    }
    if has_form_of_sizes(sizes) {
        None
    } else {
        Some(plain)
    }
}

/// What is before the first `:` of a text, between it and the second, and after that.
fn parts_of(text: &str) -> Option<(&str, &str, &str)> {
    let (media, rest) = text.split_once(':')?;
    let (sizes, path) = rest.split_once(':')?;
    Some((media, sizes, path))
}

/// Whether a text is meant as sizes: digits, `/` and at least one `x`.
fn has_form_of_sizes(text: &str) -> bool {
    for byte in text.as_bytes() {
        if !byte.is_ascii_digit() && *byte != b'x' && *byte != b'/' {
            return false;
        }
    }
    text.contains('x')
}

/// The format and the sizes of a text `WIDTHxHEIGHTxDEPTH[/COLOURS]`.
fn form_of<'a>(media: &'a str, text: &str) -> Option<PictureForm<'a>> {
    let (sizes, colours) = text.split_once('/').unwrap_or((text, "0"));
    let (width, rest) = sizes.split_once('x')?;
    let (height, depth) = rest.split_once('x')?;
    Some(PictureForm {
        media,
        width: number_of(width)?,
        height: number_of(height)?,
        depth: number_of(depth)?,
        colours: number_of(colours)?,
    })
}

/// The number below 2^32 of a text.
fn number_of(text: &str) -> Option<u32> {
    text.parse::<u32>().ok()
}

/// Why an editing is refused whose words were all read: a line; `None` if it is not.
pub(crate) fn refusal_of_editing(editing: &Editing<'_>) -> Option<&'static str> {
    let Some(removals) = &editing.removals else {
        return Some(
            "flac: command: --remove-block takes a number from 1 on, or a type other than STREAMINFO\n",
        );
    };
    let Some(pictures) = &editing.pictures else {
        return Some(
            "flac: command: --picture takes [TYPE:]FILE or TYPE:MEDIA:WIDTHxHEIGHTxDEPTH:FILE, the type 0 to 20\n",
        );
    };
    let is_idle = editing.padding.is_none()
        && editing.sheet.is_none()
        && editing.seek_every.is_none();
    if removals.is_empty() && pictures.is_empty() && is_idle {
        return Some(
            "flac: command: edit needs --remove-block, --picture, --cuesheet, --seek-every or --padding\n",
        );
    }
    None
}
