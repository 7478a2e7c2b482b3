//! Whole frames in what is left of a damaged stream, and those of them that belong together (RFC 9639, section 9).
#![tactic(auto)]

mod chain;
mod find;
mod laws;
mod next;

pub use chain::{MOST_UNORDERED, best_chain};
pub use find::{WholeFrame, WholeFrames, whole_frames};
pub use laws::{frames_are_local, whole_frames_are_found};
pub use next::{next_whole, whole_at};
