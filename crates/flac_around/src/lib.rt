//! What other programs put around a stream: an ID3v2 tag before it, and an ID3v1 tag after it.
//!
//! [`Between`] is a source of the bytes between, so that a call which reads a stream needs to know nothing of tags.
//! [`BetweenShelf`] is a list of files that are read so. [`ChainLink`] is a source of one of several Ogg streams, one
//! after another.
#![tactic(auto)]

mod between;
mod between_shelf;
mod chain_link;
mod filling;
mod laws;
mod page_parts;
mod page_reading;
mod span;
mod tags;
mod trimmed;
mod walk;

pub use between::Between;
pub use between_shelf::BetweenShelf;
pub use chain_link::ChainLink;
pub use laws::{links_are_the_input, parts_are_the_input, tags_come_off};
pub use span::between_tags;
pub use trimmed::Trimmed;
