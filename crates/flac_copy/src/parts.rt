//! A metadata block or a frame that is all of a packet's bytes.

ghost use Rattle.std.specs.Prelude.{◌≡◌, [], true, is_some, OnOk, IfOk};
ghost use Rattle.flac_native.specs.Stream.{block as block_piece, framed};
ghost use Rattle.flac_native.specs.Track.{stand_of, shown, ReadsPart};
ghost use Rattle.flac_ogg.specs.Mapping.{is_first_block};
ghost use Rattle.flac_copy.specs.Frames.{IsFrameOf};
ghost use Rattle.flac_copy.specs.Parts.{before_bytes, SpellsBlock, SpellsHeader, AddsBlock};

use crate::frames::take_frame;
use flac_bits::{BitReader, Memory, Source, Why};
use flac_meta::Block;
use flac_native::{Place, Track};
use flac_ogg::read_mapping;

/// A reader at the first of these bytes.
fn read_bytes(bytes: &[u8]) -> BitReader<Memory<'_>>
    ensures { result ≡ before_bytes bytes.now }
{
    BitReader::new(Memory::new(bytes))
}

/// Whether no bit is left.
fn is_over<R: Source>(reader: &mut BitReader<R>) -> bool
    ensures { result ≡ true → reader.old.known ≡ true → reader.old.cursor.left ≡ [] }
{
    match reader.at_end() {
        Ok(over) => over,
        Err(_) => false,
    }
}

/// The reason if a part is not all of its packet: bits are missing.
fn in_packet(why: Why) -> Why {
    match why {
        Why::Truncated => Why::PacketLength,
        other => other,
    }
}

/// Whether the first block comes next.
fn is_first_block(track: &Track) -> bool
    ensures { result ≡ is_first_block (stand_of track.now).phase (stand_of track.now).index }
{
    matches!(track.place(), Place::Block(0))
}

/// Reads the next block.
fn read_block<R: Source>(reader: &mut BitReader<R>, track: &mut Track) -> Result<(bool, Block), Why>
    ensures spelled { SpellsBlock track.old reader.old reader.new result }
    ensures next { IfOk result (λ b. ReadsPart track.old (block_piece b.0 b.1) track.new) }
{
    track.block(reader)
}

/// Reads the mapping, and the first block.
fn read_first_block<R: Source>(
    reader: &mut BitReader<R>,
    track: &mut Track,
) -> Result<(bool, Block), Why>
    requires { is_first_block (stand_of track.old).phase (stand_of track.old).index ≡ true }
    ensures spelled { SpellsHeader track.old reader.old reader.new result }
    ensures next { IfOk result (λ b. ReadsPart track.old (block_piece b.0 b.1) track.new) }
{
    read_mapping(reader)?;
    read_block(reader, track)
}

/// Reads the block of a header packet; in the first one the mapping comes before it (RFC 9639, section 10.1).
fn read_header<R: Source>(
    reader: &mut BitReader<R>,
    track: &mut Track,
) -> Result<(bool, Block), Why>
    ensures spelled { SpellsHeader track.old reader.old reader.new result }
    ensures next { IfOk result (λ b. ReadsPart track.old (block_piece b.0 b.1) track.new) }
{
    if is_first_block(track) {
        return read_first_block(reader, track);
    }
    read_block(reader, track)
}

/// Reads the block that is all of a header packet, and adds it to these.
///
/// # Errors
/// The block's own, or that of the mapping. [`Why::PacketLength`] if the packet ends inside the block, or goes on after
/// it. [`Why::Memory`] if an allocation fails.
pub(crate) fn add_header(
    track: &mut Track,
    packet: &[u8],
    blocks: &mut Vec<Block>,
) -> Result<(), Why>
    ensures { OnOk result (AddsBlock track.old track.new packet.now blocks.old.items blocks.new.items) }
{
    let mut reader = read_bytes(packet);
    match read_header(&mut reader, track) {
        Ok((_last, block)) => {
            blocks.push(block)?;
            if !is_over(&mut reader) {
                return Err(Why::PacketLength);
            }
            Ok(())
        }
        Err(why) => Err(in_packet(why)),
    }
}

/// Reads the frame that is all of a packet.
///
/// # Errors
/// Those of [`Track::next_frame`]; [`Why::PacketLength`] if the packet ends inside the frame, or goes on after it.
pub(crate) fn read_frame(track: &mut Track, packet: &[u8]) -> Result<(), Why>
    ensures frame { OnOk result (IsFrameOf Why.Truncated (stand_of track.old) packet.now (shown track.new)) }
    ensures next { OnOk result (ReadsPart track.old (framed (shown track.new)) track.new) }
    ensures made { OnOk result (is_some (stand_of track.new).info ≡ true) }
{
    let mut reader = read_bytes(packet);
    match take_frame(&mut reader, track) {
        Ok(n) => {
            if n != packet.len() as u64 {
                return Err(Why::PacketLength);
            }
            Ok(())
        }
        Err(why) => Err(in_packet(why)),
    }
}
