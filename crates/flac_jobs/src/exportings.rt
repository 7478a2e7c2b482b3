//! Exportings: what `flac export` is asked for.

/// A part of the metadata of a stream.
#[derive(Clone, Copy, Debug, PartialEq, Eq)]
pub enum ExportPart {
    /// The comments, a line each.
    Tags,
    /// The data of the first picture.
    Picture,
    /// The first cue sheet as text.
    CueSheet,
    /// The content of the block of this number; STREAMINFO is block 0.
    Block(u32),
}

/// A part of the metadata of a stream that is written to a file.
#[derive(Debug, Drop)]
pub struct Exporting<'a> {
    /// The path of the stream.
    pub input: &'a str,
    /// Which part; `None` if the word of the command line is none.
    pub part: Option<ExportPart>,
    /// The path of the file that is written.
    pub output: &'a str,
    /// Whether it replaces that file, whatever it is.
    pub force: bool,
}
