//! Native FLAC streams: decoding, encoding, seeking and retagging (RFC 9639, section 6).
//!
//! | To | Begin with |
//! |---|---|
//! | decode block by block and frame by frame | [`Decoder::new`] |
//! | decode into a [`Sink`] | [`decode`] |
//! | read a stream from a frame on | [`Decoder::resume`] |
//! | find the byte at which one is refused | [`locate_fault`] |
//! | encode samples that are all there | [`Audio`], [`Plan`] and [`encode`] |
//! | encode outside the streamable subset | [`Audio::new_in`] |
//! | try linear predictors of one's own | [`LinearPredictor`] and [`Plan::with_predictors`] |
//! | replace the comments | [`retag`] |
//! | read the metadata blocks alone | [`read_blocks`] |
//! | write a stream with other metadata blocks | [`send_with_blocks`] |
//!
//! It re-exports what its users need from the crates below: sources and targets, metadata blocks, frames, and errors. A
//! program names this crate alone.
#![tactic(auto)]

mod chosen_frames;
mod container;
mod decoder;
mod decoding;
mod digest;
mod encoding;
mod fault;
mod format;
mod found;
mod item;
mod laws;
mod located;
mod native;
mod plan;
mod position;
mod retagging;
mod rewriting;
mod sample_bytes;
mod sinks;
mod targets;
mod track;

pub use chosen_frames::{ChosenFrames, info_of};
pub use container::{Container, Part};
pub use decoder::{Decoder, bytes_from};
pub use decoding::{Sink, SinkFault, decode, decode_into};
pub use digest::feed_slices;
pub use encoding::{encode, send_head};
pub use fault::{EncodeFault, Fault, Place, Refused};
pub use flac_bits::{
    BitReader, BitWriter, Collected, Counted, Memory, Pieces, Source, Target, Why,
};
pub use flac_frame::{
    Audio, EncodeBuffers, FrameView, PlanePredictors, SetupFault, greatest_order,
};
pub use flac_header::Profile;
pub use flac_meta::{
    Block, BlockList, Bytes, Comments, CueIndex, CueIndices, CueSheet, CueTrack, CueTracks,
    Entries, Picture, SeekPoint, SeekTable, StreamInfo, Texts,
};
pub use flac_subframe::LinearPredictor;
pub use item::Item;
pub use laws::{
    blocks_are_in_order, encoded_are_read_back, encoded_are_resumed, encoded_are_streams,
    failures_are_placed, frames_are_resumed, nothing_is_outside_lax, only_one_head, only_one_way,
    points_name_frames, retagged_are_read, some_way, streams_are_ordered, streams_are_whole,
    subset_is_lax,
};
pub use located::{Located, locate_fault};
pub use native::{MARKER, read_marker};
pub use plan::{Plan, count_points, has_point, predictors_fault};
pub use retagging::{RetagFault, read_blocks, retag};
pub use rewriting::send_with_blocks;
pub use sample_bytes::{put_rows, sample_width};
pub use sinks::{Failures, SampleWriter};
pub use targets::FixedBuffer;
pub use track::Track;
