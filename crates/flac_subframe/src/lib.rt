//! Subframes: reading them, and the search for the shortest one (RFC 9639, section 9.2).
//!
//! The crate has two modules. `format` reads and writes subframes; `search` chooses the shortest one, and names
//! `format`. The definitions (`specs/`), the lemmas (`proofs/lemmas/`) and the proofs of functions (`proofs/format/`,
//! `proofs/search/`) are divided in the same way.
#![tactic(auto)]

mod format;
mod search;

pub use format::laws::{samples_are_restored, subframes_are_read_again, subframes_are_spelled};
pub use format::limits::Limits;
pub use format::linear::LinearPredictor;
pub use format::numbers::offset_binary;
pub use format::predictors::{predict_fixed, predict_linear};
pub use format::subframe::read_subframe;
pub use search::chosen::{Choice, choose, choose_with};
pub use search::family_laws::{family_is_plain, family_with_is_plain};
pub use search::wide_choice::{WideChoice, choose_in, write_subframe_in};
pub use search::workspace::Workspace;
pub use search::written::{write_subframe, write_subframe_with};
