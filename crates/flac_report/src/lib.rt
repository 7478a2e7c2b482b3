//! Lines of the report of a verification, read again: of each file its path, its size and time, and its audio.
//!
//! `Entries.antt` in `specs/` has what a line says, and how it is written: an object of JSON (RFC 8259).
#![tactic(auto)]

mod laws;
mod lines;
mod members;
mod numbers;
mod texts;

pub use laws::{cut_reports_are_read, lines_are_apart, lines_are_determined};
pub use lines::{BEGINNING, Recorded, is_line, path_of, recorded_of};
