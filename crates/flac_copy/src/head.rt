//! Reads what comes before the frames of a native stream.

ghost use Rattle.std.specs.Prelude.{◌≡◌, ◌≤◌, ◌+◌, OnOk, IfOk};
ghost use Rattle.flac_bits.specs.Reading.{Counts};
ghost use Rattle.flac_bits.specs.Handing.{reason_of};
ghost use Rattle.flac_native.specs.Item.{fault_pair};
ghost use Rattle.flac_copy.specs.Heads.{TakesBlock, TakesBlocks, CountsBytes, TakesHead, PassesHead, ReadsHead};

use crate::again::Again;
use flac_bits::{BitReader, Source, Why};
use flac_meta::Block;
use flac_native::{Fault, Place, Track, read_marker};
use std::alloc::Global;

/// Reads the next metadata block, and adds it to these.
fn take_block<R: Source>(
    reader: &mut BitReader<R>,
    track: &mut Track,
    blocks: &mut Vec<Block>,
) -> Result<(), Why>
    // proof only
    ensures spends { OnOk result (reader.new.most + 32 ≤ reader.old.most) }
    ensures taken { OnOk result
        (TakesBlock track.old track.new reader.old reader.new blocks.old.items blocks.new.items) }
    ensures counts { Counts reader.old reader.new result }
{
    let (_last, block) = track.block(reader)?;
    blocks.push(block)?;
    Ok(())
}

/// Reads metadata blocks up to the last (RFC 9639, section 8).
fn take_blocks<R: Source>(
    reader: &mut BitReader<R>,
    track: &mut Track,
    blocks: &mut Vec<Block>,
) -> Result<(), Fault>
    ensures taken { OnOk result
        (TakesBlocks track.old track.new reader.old reader.new blocks.old.items blocks.new.items) }
    ensures counts { Counts reader.old reader.new (reason_of fault_pair result) }
{
    'reading: while !track.is_past_metadata() {
        let at = track.place();
        if let Err(why) = take_block(reader, track, blocks) {
            return Err(Fault { at, why });
        }
    }
    Ok(())
}

/// How many bytes were read, all of them whole.
fn bytes_read<R: Source>(reader: &BitReader<R>, track: &Track) -> Result<u64, Fault>
    ensures { IfOk result (CountsBytes reader.now) }
{
    let count = reader.bytes_taken();
    if reader.unread() != 0 || count == u64::MAX {
        return Err(Fault {
            at: track.place(),
            why: Why::Truncated,
        });
    }
    Ok(count)
}

/// Reads the marker and the metadata blocks, of which the last is marked (RFC 9639, sections 6 and 8). Returns how many
/// bytes they have.
fn take_head<R: Source>(
    reader: &mut BitReader<R>,
    track: &mut Track,
    blocks: &mut Vec<Block>,
) -> Result<u64, Fault>
    ensures taken { IfOk result
        (TakesHead track.old track.new reader.old reader.new blocks.old.items blocks.new.items) }
    ensures names { reader.new.names ≡ reader.old.names }
{
    if let Err(why) = read_marker(reader) {
        return Err(Fault {
            at: Place::Marker,
            why,
        });
    }
    match take_blocks(reader, track, blocks) {
        Ok(()) => bytes_read(reader, track),
        Err(fault) => Err(fault),
    }
}

/// Reads the marker and the metadata blocks from the first byte of a source on, and lets all bytes come again. Returns
/// how many bytes they have.
fn pass_head<R: Source>(
    again: &mut Again<R>,
    track: &mut Track,
    blocks: &mut Vec<Block>,
) -> Result<u64, Fault>
    requires { again.old.given ≡ 0 }
    ensures { IfOk result
        (PassesHead R.Source track.old track.new again.old again.new blocks.old.items blocks.new.items) }
{
    let mut reader = BitReader::new(again);
    let taken = take_head(&mut reader, track, blocks);
    let _again = reader.into_source(); // for its clauses alone
    taken
}

/// The fault, with the reason of the source whose bytes come again if that had one.
fn own_fault<R: Source>(again: &Again<R>, fault: Fault) -> Fault {
    match fault.why {
        Why::Read => Fault {
            at: fault.at,
            why: again.fault().unwrap_or(Why::Read),
        },
        _ => fault,
    }
}

/// Reads the marker and the metadata blocks, and drops their bytes (RFC 9639, sections 6 and 8).
///
/// # Errors
/// The fault of the marker or of a block at its place, as [`flac_native::decode`] reports it.
pub(crate) fn read_head<R: Source>(
    alloc: Global,
    again: &mut Again<R>,
    track: &mut Track,
) -> Result<Vec<Block>, Fault>
    requires { again.old.given ≡ 0 }
    ensures { IfOk result (λ blocks. ReadsHead R.Source track.old track.new again.old again.new blocks.items) }
{
    let mut blocks = Vec::new(alloc);
    match pass_head(again, track, &mut blocks) {
        Ok(count) => match again.hold(count as usize) {
            Ok(()) => {
                again.skip(count as usize);
                Ok(blocks)
            }
            Err(why) => Err(Fault {
                at: track.place(),
                why,
            }),
        },
        Err(fault) => Err(own_fault(again, fault)),
    }
}
