//! Edits the metadata of streams: comments of a native file in place, where a crash at any moment leaves the old blocks
//! or the new ones; a native stream that is written anew; and lists of blocks, in whatever container they were.
#![tactic(auto)]

mod block_edits;
mod changing;
mod choosing;
mod crash_file;
mod cue_sheets;
mod device;
mod edits;
mod exporting;
mod exporting_parts;
mod flipping;
mod in_place;
mod laws;
mod lines;
mod memory;
mod padding;
mod planning;
mod retagging;
mod rewriting;
mod rewriting_blocks;
mod slots;
mod store;
mod tagging;

pub use block_edits::{BlockEdits, BlockFault, Removal};
pub use changing::{blocks_change, edits_change};
pub use crash_file::{Call, CrashFile};
pub use device::{Device, DeviceError};
pub use edits::{Edit, edited};
pub use exporting::{comment_lines, content_of, first_picture, first_sheet};
pub use exporting_parts::{Part, export_part, part_of_blocks};
pub use in_place::edit_in_place;
pub use laws::{cue_sheets_come_back, edits_settle, lines_are_read, streams_stay};
pub use lines::{LinesFault, comments_of_lines};
pub use memory::MemoryFile;
pub use retagging::{comments_change, retagged_blocks};
pub use rewriting::{rewrite, rewritten_blocks};
pub use rewriting_blocks::{EditFault, edited_blocks, rewrite_blocks};
pub use slots::Slot;
pub use tagging::{TagFault, Tagged, comments_among, tag_in_place};
