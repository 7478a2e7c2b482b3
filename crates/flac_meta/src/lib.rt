//! Metadata blocks of a FLAC stream: reading, writing, and lists of them (RFC 9639, section 8).
//!
//! | To | Begin with |
//! |---|---|
//! | read the blocks of a stream | [`read_block`] and [`Seen::new`] |
//! | write a block | [`write_block`] |
//! | write tags that are no [`Block`] | [`write_comments`] |
//! | make tags | [`Comments::new`] |
//! | look a tag up by its name | [`Comments::find`] |
//! | make a STREAMINFO | [`StreamInfo::new`] |
//! | list the blocks after STREAMINFO for an encoder | [`BlockList::new`] |
//! | list tags alone for an encoder | [`BlockList::of_comments`] |
//! | find where to begin a search for a sample | [`SeekTable::before`] |
//!
//! The content of a block has at most [`MOST_BYTES`] bytes.
#![tactic(auto)]

mod block;
mod block_list;
mod comments;
mod cue_sheet;
mod fields;
mod fits;
mod laws;
mod lists;
mod picture;
mod put;
mod seek_table;
mod stream_info;

pub use block::{Block, Seen, read_block, write_block, write_comments};
pub use block_list::BlockList;
pub use comments::{Comments, Values};
pub use cue_sheet::{CueIndex, CueIndices, CueSheet, CueTrack, CueTracks};
pub use fields::MOST_BYTES;
pub use flac_info::StreamInfo;
pub use laws::blocks_are_spelled;
pub use lists::{Bytes, Entries, Texts};
pub use picture::Picture;
pub use seek_table::{SeekPoint, SeekTable};
