//! Encoders that are pushed to: a native or an Ogg stream, a block at a time, as a recorder makes it, whose samples are
//! not all there yet (RFC 9639, sections 6 and 10.1).
//!
//! | To | Begin with |
//! |---|---|
//! | encode a native stream | [`StreamEncoder`] |
//! | encode an Ogg stream | [`OggEncoder`] |
//! | encode outside the streamable subset | [`StreamFormat`] and [`StreamEncoder::new_in`] |
//! | try linear predictors of one's own | [`LinearPredictor`] and [`StreamEncoder::set_predictors`] |
//! | find linear predictors for each block | [`Search`] and [`StreamEncoder::set_search`] |
//! | encode one block as a frame | [`StreamFormat::encode_block`] |
//! | encode the blocks of a stream for a container of one's own | [`BlockEncoder`] |
//!
//! It re-exports what its users need from the crates below: sources and targets, metadata blocks, and errors.
#![tactic(auto)]

mod block_encoder;
mod block_search;
mod laws;
mod ogg_encoder;
mod stream_encoder;
mod stream_format;

pub use block_encoder::BlockEncoder;
pub use flac_bits::{Collected, Counted, Target, Why};
pub use flac_frame::{EncodeBuffers, SetupFault};
pub use flac_meta::{Block, BlockList, Bytes, Comments, Texts};
pub use flac_native::{EncodeFault, LinearPredictor, Profile};
pub use flac_predict::Search;
pub use laws::found_shorten;
pub use ogg_encoder::OggEncoder;
pub use stream_encoder::StreamEncoder;
pub use stream_format::{StreamFormat, block_len};
