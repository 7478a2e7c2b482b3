//! Compares two FLAC streams: whether they have the same format and the same samples, whatever their containers, block
//! sizes and encoders (RFC 9639, sections 8.2 and 9).
//!
//! | To | Begin with |
//! |---|---|
//! | compare two streams, native or Ogg | [`compare_streams`] |
//! | compare what two readers still have to give | [`compare`] |
//!
//! Both streams are read side by side, one frame of each at a time.
#![tactic(auto)]

mod comparing;
mod difference;
mod frames;
mod stepping;
mod streams;

pub use comparing::compare;
pub use difference::{Difference, Unread};
pub use streams::compare_streams;
