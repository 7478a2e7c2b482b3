//! Cue sheets as text, as CD tools and the reference's `metaflac` write them (RFC 9639, section 8.7).
#![tactic(auto)]

mod audio;
mod fault;
mod laws;
mod open;
mod reading;
mod text;
mod words;

pub use audio::CueAudio;
pub use fault::{CueFault, CueWhy};
pub use laws::cue_comes_back;
pub use reading::cue_sheet;
pub use text::cue_text;
