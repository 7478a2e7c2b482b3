//! The mapping of FLAC into Ogg (RFC 9639, section 10.1): the first packet, which has the fields of the mapping and
//! STREAMINFO, and the header packets after it, a metadata block each. How they are read, and how they are written.

ghost use Rattle.std.specs.Prelude.{◌≡◌, ◌^◌, ◌<◌, true, is_some, None, OnOk, IfOk, IfErr};
ghost use Rattle.flac_bits.specs.Bits.{bits_of};
ghost use Rattle.flac_bits.specs.Reading.{Counts, Reads, CallInPlace};
ghost use Rattle.flac_bits.specs.Written.{Writes};
ghost use Rattle.flac_meta.specs.Listed.{block_fault};
ghost use Rattle.flac_meta.specs.Spelling.{block_spelling};
ghost use Rattle.flac_native.specs.Track.{stand_of, IsMadeAs, piece_of, kept};
ghost use Rattle.flac_ogg.specs.Mapping.{mapping, is_first_block};
ghost use Rattle.flac_ogg.specs.Native.{mapping_spelling};
ghost use Rattle.flac_ogg.specs.Writing.{header_count};
ghost use Rattle.flac_ogg.specs.inner.Telling.{block_packet, first_packet, BlockInOrder, GivesBlockPart, TrackGoesOn, ReadsBlock};
ghost use Rattle.flac_ogg.specs.inner.Writing.{first_spelling, mapped_spelling};

use flac_bits::{BitReader, BitWriter, Collected, Source, Target, Why};
use flac_meta::{Block, StreamInfo, write_block};
use flac_native::{MARKER, Part, Place, Track};
use std::alloc::Global;

/// The first five bytes of the first packet: 7F and `FLAC` (RFC 9639, section 10.1).
const MAPPING_NAME: u64 = 0x7F464C4143;

/// The two bytes after them: version 1.0 of the mapping.
const MAPPING_VERSION: u64 = 0x0100;

// ---- Reading

/// Reads what the first packet has before STREAMINFO: the byte 7F and `FLAC`, version 1.0, the number of header
/// packets, which may be any, and `fLaC` (RFC 9639, section 10.1).
///
/// # Errors
/// [`Why::BadMapping`] if these are other bytes, [`Why::Truncated`] if there are fewer; [`Why::Read`] if the source
/// returns an error.
#[tactic(auto, unfolding(crate::specs::Mapping::mapping))]
pub fn read_mapping<R: Source>(bits: &mut BitReader<R>) -> Result<(), Why>
    ensures reading { CallInPlace 104 (Reads (λ u. u) mapping) bits.old bits.new result }
{
    let name = bits.take(40)?;
    let version = bits.take(16)?;
    let _count = bits.take(16)?;
    let marker = bits.take(32)?;
    if name != MAPPING_NAME || version != MAPPING_VERSION || marker != MARKER {
        return Err(Why::BadMapping);
    }
    Ok(())
}

/// Whether the first block comes next.
pub(crate) fn is_first_block(track: &Track) -> bool
    ensures { result ≡ is_first_block (stand_of track.now).phase (stand_of track.now).index }
{
    matches!(track.place(), Place::Block(0))
}

/// What [`Track::next_block`] does, proved by the reading of the layout.
fn block_by_layout<R: Source>(bits: &mut BitReader<R>, track: &mut Track) -> Result<(), Why>
    ensures reading { ReadsBlock track.new (stand_of track.old) bits.old bits.new result }
    // proof only
    ensures next { OnOk result (TrackGoesOn track.old track.new (kept track.new)) }
    ensures made { OnOk result (is_some track.new.block ≡ true) }
{
    track.next_block(bits)
}

/// Reads a block.
pub(crate) fn read_block<R: Source>(bits: &mut BitReader<R>, track: &mut Track) -> Result<Part, Why>
    ensures spends { OnOk result (bits.new.most < bits.old.most) }
    ensures counts { Counts bits.old bits.new result }
    ensures reads { GivesBlockPart track.new (block_packet (stand_of track.old)) bits.old bits.new result }
    // proof only
    ensures made { IfOk result (λ part. IsMadeAs part track.old track.new) }
    ensures ordered { IfOk result (λ part. BlockInOrder part track.old track.new) }
    ensures next { IfOk result (λ part. TrackGoesOn track.old track.new (piece_of track.new part)) }
{
    block_by_layout(bits, track)?;
    Ok(Part::Block)
}

/// Reads the mapping, and the block after it.
pub(crate) fn read_first_block<R: Source>(
    bits: &mut BitReader<R>,
    track: &mut Track,
) -> Result<Part, Why>
    ensures spends { OnOk result (bits.new.most < bits.old.most) }
    ensures counts { Counts bits.old bits.new result }
    ensures reads { GivesBlockPart track.new (first_packet (stand_of track.old)) bits.old bits.new result }
    // proof only
    ensures made { IfOk result (λ part. IsMadeAs part track.old track.new) }
    ensures ordered { IfOk result (λ part. BlockInOrder part track.old track.new) }
    ensures next { IfOk result (λ part. TrackGoesOn track.old track.new (piece_of track.new part)) }
{
    read_mapping(bits)?;
    read_block(bits, track)
}

// ---- Writing

/// How many header packets follow the first one; 0 if 16 bits cannot hold it (RFC 9639, section 10.1).
fn header_count(blocks: usize) -> u64
    ensures value { result ≡ header_count blocks }
    ensures small { result < 2 ^ 16 }
{
    if blocks > 65535 { 0 } else { blocks as u64 }
}

/// Writes the mapping before `head`, which is the marker or begins with it (RFC 9639, section 10.1).
fn write_mapped<W: Target>(count: u64, head: &[u8], writer: &mut BitWriter<W>) -> Result<(), Why>
    requires { count < 2 ^ 16 }
    ensures { Writes (mapped_spelling count head.now) writer.old writer.new result }
{
    writer.put(40, MAPPING_NAME)?;
    writer.put(16, MAPPING_VERSION)?;
    writer.put(16, count)?;
    writer.put_bytes(head)?;
    Ok(())
}

/// Writes what the first packet has before STREAMINFO (RFC 9639, section 10.1).
fn write_mapping<W: Target>(count: u64, writer: &mut BitWriter<W>) -> Result<(), Why>
    requires { count < 2 ^ 16 }
    ensures { Writes (mapping_spelling count) writer.old writer.new result }
{
    write_mapped(count, b"fLaC", writer)
}

/// Writes the first packet: the mapping, and STREAMINFO, which is marked last if there are no other blocks.
fn write_first<W: Target>(
    info: StreamInfo,
    blocks: usize,
    writer: &mut BitWriter<W>,
) -> Result<(), Why>
    ensures { Writes (first_spelling blocks info) writer.old writer.new result }
{
    write_mapping(header_count(blocks), writer)?;
    write_block(&Block::StreamInfo(info), blocks == 0, writer)
}

/// The first packet. Its only error is `Memory`: an allocation failed.
pub(crate) fn first_packet(alloc: Global, info: StreamInfo, blocks: usize) -> Result<Vec<u8>, Why>
    ensures packet { IfOk result (λ packet. bits_of packet.items ≡ first_spelling blocks info) }
    ensures memory { IfErr result (λ e. e ≡ Why.Memory) }
{
    let mut writer = BitWriter::new(Collected::new(alloc));
    match write_first(info, blocks, &mut writer) {
        Ok(()) => writer.into_bytes(),
        Err(why) => Err(why.in_memory()),
    }
}

/// The first packet of a stream with `blocks` blocks after STREAMINFO: the mapping, and then the marker and STREAMINFO
/// as they begin a native stream. Its only error is `Memory`: an allocation failed.
pub(crate) fn mapped(alloc: Global, blocks: usize, head: &[u8]) -> Result<Vec<u8>, Why>
    ensures packet { IfOk result (λ packet. bits_of packet.items ≡ mapped_spelling (header_count blocks) head.now) }
    ensures memory { IfErr result (λ e. e ≡ Why.Memory) }
{
    let mut writer = BitWriter::new(Collected::new(alloc));
    match write_mapped(header_count(blocks), head, &mut writer) {
        Ok(()) => writer.into_bytes(),
        Err(why) => Err(why.in_memory()),
    }
}

/// A block as a packet. Its only error is `Memory`: an allocation failed.
pub(crate) fn block_packet(alloc: Global, block: &Block, last: bool) -> Result<Vec<u8>, Why>
    requires { block_fault block.now ≡ None }
    ensures packet { IfOk result (λ packet. bits_of packet.items ≡ block_spelling last block.now) }
    ensures memory { IfErr result (λ e. e ≡ Why.Memory) }
{
    let mut writer = BitWriter::new(Collected::new(alloc));
    match write_block(block, last, &mut writer) {
        Ok(()) => writer.into_bytes(),
        Err(why) => Err(why.in_memory()),
    }
}
