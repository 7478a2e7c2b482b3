//! Raw samples: interleaved channel by channel, signed little-endian, each sign-extended to whole bytes. They are the
//! bytes whose MD5 STREAMINFO states (RFC 9639, section 8.2).
//!
//! | To | Begin with |
//! |---|---|
//! | read all samples of a source | [`audio_of`] |
//! | read them block by block | [`RawBlocks`] |
//! | judge them, and count them, without holding any | [`judge`] |
//! | encode what was judged, block by block | [`RawPlan`], [`encode_judged`] |
//! | the same, native or in Ogg | [`encode_judged_in`] |
//! | do both, of a file that can be read twice | [`encode_twice`] |
#![tactic(auto)]

mod audio;
mod blocks;
mod judging;
mod raw;
mod raw_draft;
mod raw_fault;
mod raw_plan;
mod second_pass;
mod two_passes;

pub use audio::audio_of;
pub use blocks::RawBlocks;
pub use judging::judge;
pub use raw::{PIECE, no_samples, push_piece, read_channels};
pub use raw_fault::{RawEncodeFault, RawFault};
pub use raw_plan::RawPlan;
pub use second_pass::{encode_judged, encode_judged_in};
pub use two_passes::{RawEncoding, encode_twice};
