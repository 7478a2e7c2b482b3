//! Frame headers: their values, reading, writing, and the rules of the streamable subset (RFC 9639, sections 7 and
//! 9.1).
#![tactic(auto)]

mod blocking_strategy;
mod channel_assignment;
mod choice;
mod frame_header;
mod laws;
mod read;
mod subset;
mod write;

pub use blocking_strategy::BlockingStrategy;
pub use channel_assignment::ChannelAssignment;
pub use choice::{depth_code_in, rate_code_in};
pub use frame_header::FrameHeader;
pub use laws::{codes_are_inverse, headers_are_spelled};
pub use read::read_header;
pub use subset::{Profile, subset_allows};
pub use write::write_header;
