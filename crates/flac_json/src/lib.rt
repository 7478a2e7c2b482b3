//! Metadata blocks of FLAC streams as JSON: each block an object, each file a line (RFC 8259; RFC 9639, section 8).
#![tactic(auto)]

mod blocks;
mod fields;
mod laws;
mod lines;
mod texts;

pub use blocks::{block_json, without_zeros};
pub use fields::Field;
pub use laws::{blocks_are_determined, lines_are_put_together, texts_have_one_reading};
pub use lines::{line_end, line_front};
