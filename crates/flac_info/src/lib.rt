//! STREAMINFO, the properties of a whole stream (RFC 9639, section 8.2): what a frame header leaves out, and what frames
//! are judged by. `flac_meta` reads and writes it as a metadata block, and re-exports it.
//!
//! ```
//! // blocks of 4096 samples, 44100 Hz, 2 channels, 16 bits
//! let info = StreamInfo::of_format(4096, 44100, 2, 16);
//! ```
#![tactic(auto)]

mod stream_info;

pub use stream_info::StreamInfo;
