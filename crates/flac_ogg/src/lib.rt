//! FLAC in Ogg: decoding, encoding, and streams in either container. Each metadata block and each frame is in a packet
//! of its own (RFC 9639, section 10.1; RFC 3533).
//!
//! | To | Begin with |
//! |---|---|
//! | decode block by block and frame by frame | [`ogg_decoder`] |
//! | decode into a [`Sink`] | [`decode_ogg`] |
//! | decode a native or an Ogg stream into a sink | [`decode_any`] |
//! | verify a stream in memory | [`verify`] |
//! | encode samples that are all there | [`Audio`], [`Plan`] and [`encode_ogg`] |
//! | encode outside the streamable subset | [`Audio::new_in`] |
//! | try linear predictors of one's own | [`LinearPredictor`] and [`Plan::with_predictors`] |
//! | encode into memory, and decode again | [`encode_and_decode`] |
//!
//! It re-exports what its users need from the crates below.
#![tactic(auto)]

mod decoding;
mod encoding;
mod headers;
mod held_packet;
mod laws;
mod mapping;
mod packets;
mod verifying;

pub use decoding::{
    Fronted, begins_page, decode_any, decode_ogg, ogg_decoder, ogg_decoder_returning, pull_front,
};
pub use encoding::{begins_with_comment, encode_ogg};
pub use flac_bits::{Collected, Counted, Memory, Pieces, Source, Target, Why};
pub use flac_frame::{Audio, FrameView, SetupFault};
pub use flac_meta::{
    Block, BlockList, Bytes, Comments, CueIndex, CueIndices, CueSheet, CueTrack, CueTracks,
    Picture, SeekPoint, SeekTable, StreamInfo, Texts,
};
pub use flac_native::{
    Decoder, EncodeFault, Fault, Item, LinearPredictor, Place, Plan, Profile, Refused, Sink,
    SinkFault, decode,
};
pub use flac_pages::{PacketBytes, Pages};
pub use headers::{Headers, headers_of};
pub use held_packet::HeldPacket;
pub use laws::{
    calls_break_at_pages, encoded_are_read, encoded_items, nothing_is_outside_lax, only_one_way,
    same_items, some_way, subset_is_lax,
};
pub use mapping::read_mapping;
pub use packets::{OggPackets, page_place};
pub use verifying::{encode_and_decode, verify};
