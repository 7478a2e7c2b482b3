//! Chained Ogg streams of FLAC: streams one after another in one file (RFC 3533, section 4).
#![tactic(auto)]

mod chain;
mod following;
mod laws;
mod link;

pub use chain::{ChainFault, ChainRead, decode_chain};
pub use laws::chains_are_read_once;
