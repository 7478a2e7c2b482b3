//! Encoders that hold one block of samples, and write the head of the stream last.
//!
//! | To | Begin with |
//! |---|---|
//! | encode a native stream with the number of samples and their digest, block by block | [`DraftEncoder`] |
//! | give it a seek table, if the number of samples is known | [`DraftEncoder::new_with_table`] |
//! | encode an Ogg stream so | [`OggDraftEncoder`] |
//! | keep the stream in memory | [`DraftMemory`] |
//! | write it to a file | [`DraftFile`] |
//! | write it to a place of one's own | [`Rewritable`] |
#![tactic(auto)]

mod draft_encoder;
mod draft_fault;
mod draft_file;
mod draft_head;
mod laws;
mod memory;
mod ogg_draft_encoder;
mod ogg_pages;
mod point_table;
mod rewritable;
mod table_faults;

pub use draft_encoder::DraftEncoder;
pub use draft_fault::{DraftFault, Unfinished};
pub use draft_file::DraftFile;
pub use laws::{drafts_are_encoded, found_are_encoded};
pub use memory::DraftMemory;
pub use ogg_draft_encoder::OggDraftEncoder;
pub use rewritable::Rewritable;
