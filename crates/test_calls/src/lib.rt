//! What the tests of several crates call: samples, streams that are encoded, and what a decoder gives. It has no tests,
//! so that it is proved once.
#![tactic(auto)]

mod decoding;
mod encoding;
mod pushing;
mod samples;

pub use decoding::{PEAKS, are_of_a_cut, ends, next_type, peaks_to_end, two_faults};
pub use encoding::{encoded, encoded_by, no_comments};
pub use pushing::{Narrow, Recorder, count_rising, number_of, setup_number};
pub use samples::{list_of, sample, wave};
