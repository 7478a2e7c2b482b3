//! Taggings: what `flac tag` is asked for.

/// An edit of the comments of a stream (RFC 9639, section 8.6), by the words of the command line. A comment is a text
/// `NAME=VALUE`. A name has the bytes 20 to 7E (hexadecimal) without `=`.
#[derive(Clone, Copy, Debug, PartialEq, Eq)]
pub enum TagEdit<'a> {
    /// Takes all comments away.
    Clear,
    /// Puts the comments of the file of lines in the place of all.
    Lines,
    /// Takes all comments of this name away.
    Remove(&'a str),
    /// Takes all comments of the name and the value of this comment away.
    RemovePair(&'a str),
    /// Puts this comment in the place of all of its name.
    Set(&'a str),
    /// Puts a comment in the place of all of its name; the word is `NAME=PATH`, and the file at that path has its
    /// value.
    SetFile(&'a str),
    /// Adds such a comment at the end.
    AddFile(&'a str),
    /// Adds this comment at the end.
    Add(&'a str),
}

/// How a file may be edited.
#[derive(Clone, Copy, Debug, PartialEq, Eq)]
pub enum TagMode {
    /// In place if there is room, else as a new file that takes its place.
    Either,
    /// In place alone.
    InPlace,
    /// As a new file alone.
    Rewrite,
}

/// The files whose comments are edited, each by itself.
#[derive(Debug, Drop)]
pub struct Tagging<'a> {
    /// The paths of the files.
    pub inputs: Vec<&'a str>,
    /// The edits, one after another.
    pub edits: Vec<TagEdit<'a>>,
    /// The path of the file of lines, `-` for standard input; `None` if there is no edit [`TagEdit::Lines`].
    pub lines: Option<&'a str>,
    /// The path of the stream that has the edited comments, `-` for standard output; `None` if each file is edited
    /// itself.
    pub output: Option<&'a str>,
    /// How a file may be edited; `None` if the command line asks for both modes.
    pub mode: Option<TagMode>,
    /// How many bytes of padding a new file has after the comments; 0 for none.
    pub padding: u32,
    /// Whether each file keeps the time at which it was changed.
    pub keep_times: bool,
    /// Whether what became of each file is printed.
    pub verbose: bool,
}
