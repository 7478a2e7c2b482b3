//! Listings: what `flac list` is asked for beside one stream.

use crate::editings::BlockName;

/// The streams whose metadata is listed, one after another; each after a line with its path if there are several.
#[derive(Debug, Drop)]
pub struct Listing<'a> {
    /// The paths of the streams.
    pub inputs: Vec<&'a str>,
    /// Whether streams outside the streamable subset (RFC 9639, section 7) are accepted too.
    pub lax: bool,
    /// Whether each stream is read between the tags that other programs put around one.
    pub any: bool,
    /// Whether the blocks alone are read, and no frame is verified.
    pub head: bool,
    /// Whether the metadata is printed as JSON.
    pub json: bool,
    /// The blocks that are listed, no name for all; `None` if a word names no blocks.
    pub blocks: Option<Vec<BlockName>>,
}
