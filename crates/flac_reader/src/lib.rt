//! Reads FLAC streams, native or Ogg: first the metadata, then frames or samples one after another, or from the frame
//! on that holds a sample (RFC 9639, sections 6 and 10.1).
//!
//! | To | Begin with |
//! |---|---|
//! | open a stream in either container | [`open`] |
//! | open a native stream, or an Ogg stream | [`open_native`], [`open_ogg`] |
//! | read stream information and comments | [`Reader::info`], [`Reader::comments`] |
//! | read frame by frame, or sample by sample | [`Reader::next`], [`Reader::into_samples`] |
//! | go to the frame of a native stream that holds a sample | [`Reader::seek_in`], [`Reader::seek_file`] |
//!
//! It re-exports what its users need from the crates below: with its names alone a program can keep a reader in a
//! struct, as `Reader<BitReader<Counted<File>>>` or `Reader<OggPackets<Counted<File>>>`.
#![tactic(auto)]

mod either;
mod head;
mod keep;
mod laws;
mod opening;
mod reader;
mod returned;
mod samples;
mod seeking;
mod sought;
mod spot;
mod stereo;
mod time;

pub use either::{Opened, open};
pub use flac_native::{
    BitReader, Block, Comments, Container, Counted, Decoder, Fault, FrameView, Item, Memory, Place,
    Profile, Refused, SeekPoint, Source, StreamInfo, Why,
};
pub use flac_ogg::{Fronted, OggPackets};
pub use head::read_blocks;
pub use keep::Keep;
pub use laws::{encoded_are_cut, encoded_are_sought, streams_are_cut};
pub use opening::{open_native, open_ogg};
pub use reader::Reader;
pub use returned::{Returned, move_to};
pub use samples::Samples;
pub use stereo::{StereoSamples, stereo_samples};
