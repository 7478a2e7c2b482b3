//! Editings: what `flac edit` is asked for.

/// Metadata blocks that are removed or listed, by a word of the command line. STREAMINFO cannot be removed.
#[derive(Clone, Copy, Debug, PartialEq, Eq)]
pub enum BlockName {
    /// The block of this number; STREAMINFO is block 0.
    Number(u32),
    /// All blocks of this type, 0 to 126 (RFC 9639, section 8.1).
    Kind(u8),
    /// All application blocks of this identifier (section 8.4).
    Application([u8; 4]),
}

/// The format and the sizes of a picture as the command line states them.
#[derive(Clone, Copy, Debug, PartialEq, Eq)]
pub struct PictureForm<'a> {
    /// The media type.
    pub media: &'a str,
    /// Width in pixels.
    pub width: u32,
    /// Height in pixels.
    pub height: u32,
    /// Bits per pixel.
    pub depth: u32,
    /// How many colours an indexed picture has, 0 for others.
    pub colours: u32,
}

/// A picture that is added.
#[derive(Clone, Copy, Debug, PartialEq, Eq)]
pub struct PictureWord<'a> {
    /// Its type, 0 to 20 (RFC 9639, section 8.8): 3 is the front cover.
    pub kind: u32,
    /// Its format and sizes; `None` if they are read from the file, a PNG or JPEG picture.
    pub form: Option<PictureForm<'a>>,
    /// The path of its file.
    pub path: &'a str,
}

/// The files whose metadata blocks are edited, each by itself.
#[derive(Debug, Drop)]
pub struct Editing<'a> {
    /// The paths of the files.
    pub inputs: Vec<&'a str>,
    /// The blocks that are removed; `None` if a word names no blocks that can be.
    pub removals: Option<Vec<BlockName>>,
    /// The pictures that are added; `None` if a word is no picture.
    pub pictures: Option<Vec<PictureWord<'a>>>,
    /// The path of the file of the cue sheet that each stream gets in place of its own, `-` for standard input; `None`
    /// if it keeps its own.
    pub sheet: Option<&'a str>,
    /// The inter-channel samples from one seek point to the next in the seek table that each stream gets in place of
    /// its own, 0 for none; `None` if it keeps its own.
    pub seek_every: Option<u32>,
    /// How many bytes of padding come in place of the old padding, 0 for none; `None` if it stays.
    pub padding: Option<u32>,
    /// Whether each file keeps the time at which it was changed.
    pub keep_times: bool,
    /// Whether what became of each file is printed.
    pub verbose: bool,
}
