//! Moves the frames of a FLAC stream into another container, or under other metadata, each frame's bytes as they are
//! (RFC 9639, sections 6, 9 and 10.1).
//!
//! | To | Call |
//! |---|---|
//! | open a stream, native or Ogg, and look at its metadata | [`open`] |
//! | write it with metadata that may differ, as a native stream or in Ogg | [`Copying::write_native`], [`Copying::write_ogg`] |
//! | write it in the container in which it was read, or in a given one | [`Copying::write_alike`], [`Copying::write`] |
//! | copy a stream into Ogg | [`copy_to_ogg`] |
#![tactic(auto)]

mod again;
mod blocks;
mod copying;
mod fault;
mod frames;
mod given;
mod head;
mod input;
mod ogg_head;
mod opened;
mod outgoing;
mod output;
mod packets;
mod parts;
mod replayed;
mod serial;
mod to_ogg;
mod writing;

pub use fault::CopyFault;
pub use opened::{Copying, open};
pub use to_ogg::copy_to_ogg;
