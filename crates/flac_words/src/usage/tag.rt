//! `flac tag`.

use super::{Usage, Word, WordKind, values_of};
use crate::no_request::NoRequest;
use crate::requests::is_comment;
use clap::ArgMatches;
use flac_jobs::{Request, TagEdit, TagMode, Tagging};
use std::alloc::{AllocError, Global};

const TAG_EXAMPLE: &str = "Examples:
  $ flac tag --set TITLE=Air --remove COMMENT --add ARTIST=Someone song.flac
  $ flac export song.flac tags song.txt; flac tag --from song.txt song.flac
  $ flac tag --set-file LYRICS=words.txt --remove GENRE=Other --out copy.flac song.flac

The edits are made in this order, whatever that of the words: --clear, --from, --remove,
--set, --set-file, --add. Names are compared but for the case of ASCII letters, values byte
by byte. A second --set or --set-file of a name adds its value. All other comments stay byte
for byte, and so does the vendor.

--from takes all comments away and adds those of LINES, one a line: NAME=VALUE, as export
writes them. A backslash, x and two hexadecimal digits are a byte; the backslash itself,
control characters and ends of lines are written so. Other text is itself, also UTF-8. If a
line is no comment, no file is changed.

If padding beside the comments has room, some hundred bytes are written in place: at
every moment of a crash the file has the old comments or the new ones, and no byte of
the frames is written. Else a new file takes the place of the old one, with the comments
and padding after the other blocks, so that the next edit is in place. With --in-place
no new file is written; with --rewrite always. With --out the one FILE stays as it is, and
OUT gets the stream with the edited comments, if it is new or another copy of that stream.

An Ogg stream is written anew if its comments change, with its serial number and each frame
byte by byte; its frames are verified. It gets no padding, and --in-place refuses it with 54.

Each file is done or refused by itself. One that is refused stays as it was, and a line
says why; the exit status is then 1. The frames of native streams are not verified.";

/// The bytes of padding of a new file if their number is not given.
const USUAL_PADDING: u32 = 8192;

static TAG: Usage = Usage {
    name: "tag",
    about: "Edits the comments of streams, in place if there is room",
    words: &TAG_WORDS,
    example: TAG_EXAMPLE,
};

/// What `clap` is told of `tag`.
pub(crate) fn usage() -> &'static Usage {
    &TAG
}

/// The arguments of `tag`.
const TAG_WORDS: [Word; 13] = [
    Word {
        name: "FILE",
        kind: WordKind::Files,
        help: "The streams",
    },
    Word {
        name: "clear",
        kind: WordKind::Flag,
        help: "Takes all comments away",
    },
    Word {
        name: "from",
        kind: WordKind::Text("LINES"),
        help: "Puts the comments of this file in the place of all; - for standard input",
    },
    Word {
        name: "remove",
        kind: WordKind::Texts("NAME[=VALUE]"),
        help: "Takes all comments of this name away, or those of this name and value",
    },
    Word {
        name: "set",
        kind: WordKind::Texts("NAME=VALUE"),
        help: "Puts this comment in the place of all of its name",
    },
    Word {
        name: "set-file",
        kind: WordKind::Texts("NAME=FILE"),
        help: "The same with the bytes of a file as its value",
    },
    Word {
        name: "add",
        kind: WordKind::Texts("NAME=VALUE"),
        help: "Adds this comment at the end",
    },
    Word {
        name: "in-place",
        kind: WordKind::Flag,
        help: "Writes no new file: without room in place, it is refused with 54",
    },
    Word {
        name: "rewrite",
        kind: WordKind::Flag,
        help: "Writes a new file, also if there is room in place",
    },
    Word {
        name: "out",
        kind: WordKind::Text("OUT"),
        help: "Writes the stream to this file, and leaves FILE as it is; - for standard output",
    },
    Word {
        name: "padding",
        kind: WordKind::Number(&["8192"]),
        help: "Bytes of padding of a new file, as --rewrite always writes one; 0: none",
    },
    Word {
        name: "keep-times",
        kind: WordKind::Flag,
        help: "Keeps the time at which each file was changed",
    },
    Word {
        name: "verbose",
        kind: WordKind::ShortFlag('v'),
        help: "Prints what became of each file: same, flipped or rewritten",
    },
];

/// What `tag` asks for.
///
/// # Errors
/// Memory ran out.
pub(crate) fn tag_request<'a>(
    alloc: Global,
    given: &ArgMatches<'a>,
) -> Result<Request<'a>, NoRequest<'a>> {
    Ok(Request::Tag(tagging_of(alloc, given)?))
}

/// The tagging that is asked for.
///
/// # Errors
/// Memory ran out.
fn tagging_of<'a>(alloc: Global, given: &ArgMatches<'a>) -> Result<Tagging<'a>, AllocError> {
    let edits = edits_of(alloc, given)?;
    Ok(Tagging {
        inputs: values_of(alloc, given, "FILE")?,
        edits,
        lines: given.get_str("from"),
        output: given.get_str("out"),
        mode: mode_of(given.get_flag("in-place"), given.get_flag("rewrite")),
        padding: given.get_one("padding").unwrap_or(USUAL_PADDING),
        keep_times: given.get_flag("keep-times"),
        verbose: given.get_flag("verbose"),
    })
}

/// How files may be edited.
fn mode_of(in_place: bool, rewrite: bool) -> Option<TagMode> {
    match (in_place, rewrite) {
        (true, true) => None,
        (true, false) => Some(TagMode::InPlace),
        (false, true) => Some(TagMode::Rewrite),
        (false, false) => Some(TagMode::Either),
    }
}

/// The edits, in the order in which they are made.
///
/// # Errors
/// Memory ran out.
fn edits_of<'a>(alloc: Global, given: &ArgMatches<'a>) -> Result<Vec<TagEdit<'a>>, AllocError> {
    let mut edits = Vec::new(alloc);
    add_edits(&mut edits, given)?;
    Ok(edits)
}

/// Adds the edits, in that order.
///
/// # Errors
/// Memory ran out.
fn add_edits<'a>(edits: &mut Vec<TagEdit<'a>>, given: &ArgMatches<'a>) -> Result<(), AllocError> {
    if given.get_flag("clear") {
        edits.push(TagEdit::Clear)?;
    }
    if given.get_str("from").is_some() {
        edits.push(TagEdit::Lines)?;
    }
    add_option(edits, given, "remove")?;
    add_option(edits, given, "set")?;
    add_option(edits, given, "set-file")?;
    add_option(edits, given, "add")
}

/// Adds an edit for each word of an option.
///
/// # Errors
/// Memory ran out.
fn add_option<'a>(
    edits: &mut Vec<TagEdit<'a>>,
    given: &ArgMatches<'a>,
    option: &str,
) -> Result<(), AllocError> {
    for word in given.get_strs(option).unwrap_or(&[]) {
        let edit = edit_of(edits, option, word);
        edits.push(edit)?;
    }
    Ok(())
}

/// The edit for a word of an option. The second of a name that sets a comment adds it, so that all of them stand there.
fn edit_of<'a>(edits: &[TagEdit<'a>], option: &str, word: &'a str) -> TagEdit<'a> {
    match option {
        "remove" if word.contains('=') => TagEdit::RemovePair(word),
        "remove" => TagEdit::Remove(word),
        "set" if !has_setting(edits, word) => TagEdit::Set(word),
        "set-file" if has_setting(edits, word) => TagEdit::AddFile(word),
        "set-file" => TagEdit::SetFile(word),
        _ => TagEdit::Add(word),
    }
}

/// Whether one of the edits sets a comment of the name of this one.
fn has_setting(edits: &[TagEdit<'_>], comment: &str) -> bool {
    for edit in edits {
        if let TagEdit::Set(other) | TagEdit::SetFile(other) = edit {
            if name_of(other).eq_ignore_ascii_case(name_of(comment)) {
                return true;
            }
        }
    }
    false
}

/// The name of a comment: what is before its first `=`.
fn name_of(comment: &str) -> &str {
    match comment.split_once('=') {
        Some((name, _)) => name,
        None => comment,
    }
}

/// Why a tagging is refused whose words were all read: a line; `None` if it is not.
pub(crate) fn refusal_of_tagging(tagging: &Tagging<'_>) -> Option<&'static str> {
    if tagging.mode.is_none() {
        return Some("flac: command: --in-place with --rewrite\n");
    }
    let line = line_of_output(tagging);
    if line.is_some() {
        return line;
    }
    let writes = tagging.mode == Some(TagMode::Rewrite) || tagging.output.is_some();
    if tagging.edits.is_empty() && !writes {
        return Some(line_of_none(tagging));
    }
    line_of_edits(&tagging.edits)
}

/// What to print of edits, if the comment of one is none.
fn line_of_edits(edits: &[TagEdit<'_>]) -> Option<&'static str> {
    for edit in edits {
        if lacks_equals(edit) {
            return Some("flac: command: comment without =\n");
        }
        if has_bad_name(edit) {
            return Some("flac: command: 55 FieldName\n");
        }
    }
    None
}

/// What to print of a tagging to another file, if its words do not fit.
fn line_of_output(tagging: &Tagging<'_>) -> Option<&'static str> {
    let _output = tagging.output?;
    if tagging.mode == Some(TagMode::InPlace) {
        return Some("flac: command: --in-place with --out\n");
    }
    if tagging.keep_times {
        return Some("flac: command: --keep-times with --out\n");
    }
    if tagging.inputs.len() != 1 {
        return Some("flac: command: --out with several files\n");
    }
    None
}

/// What to print of a tagging without an edit: what is meant by a comment among the files, or by a length of padding.
fn line_of_none(tagging: &Tagging<'_>) -> &'static str {
    if tagging.inputs.iter().any(|path| is_comment(path)) {
        return "flac: command: to set a comment: flac tag --set NAME=VALUE FILE\n";
    }
    if tagging.padding != USUAL_PADDING {
        return "flac: command: to set the padding alone: flac edit --padding N FILE\n";
    }
    "flac: command: tag needs --clear, --from, --remove, --set, --set-file, --add or --rewrite\n"
}

/// Whether the comment of an edit has no `=`.
fn lacks_equals(edit: &TagEdit<'_>) -> bool {
    match edit {
        TagEdit::Set(comment)
        | TagEdit::SetFile(comment)
        | TagEdit::AddFile(comment)
        | TagEdit::Add(comment) => !comment.contains('='),
        TagEdit::Clear | TagEdit::Lines | TagEdit::Remove(_) | TagEdit::RemovePair(_) => false,
    }
}

/// Whether the name of an edit is none (RFC 9639, section 8.6).
fn has_bad_name(edit: &TagEdit<'_>) -> bool {
    match edit {
        TagEdit::RemovePair(comment)
        | TagEdit::Set(comment)
        | TagEdit::SetFile(comment)
        | TagEdit::AddFile(comment)
        | TagEdit::Add(comment) => !is_name(name_of(comment)),
        TagEdit::Remove(name) => !is_name(name),
        TagEdit::Clear | TagEdit::Lines => false,
    }
}

/// Whether this is a name of comments: some bytes from 20 to 7E (hexadecimal), and no `=` (RFC 9639, section 8.6).
fn is_name(text: &str) -> bool {
    for byte in text.as_bytes() {
        if !(b' '..=b'~').contains(byte) || *byte == b'=' {
            return false;
        }
    }
    !text.is_empty()
}
