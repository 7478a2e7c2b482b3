//! Reads what comes before the frames of an Ogg stream.

ghost use Rattle.std.specs.Prelude.{[], OnOk, IfOk};
ghost use Rattle.flac_copy.specs.Heads.{TakesHeader, TakesHeaders};

use crate::packets::next_packet;
use crate::parts::add_header;
use flac_bits::{Source, Why};
use flac_meta::Block;
use flac_native::{Fault, Place, Track};
use flac_ogg::page_place;
use flac_pages::{PacketFault, Pages};
use std::alloc::Global;

/// The fault of a packet that is not the part of this place: that of a page if a page is refused.
pub(crate) fn fault_in_packet(at: Place, fault: PacketFault) -> Fault {
    match fault {
        (Some(page), why) => Fault {
            at: page_place(page, why),
            why,
        },
        (None, Why::BadMapping) => Fault {
            at: Place::Marker,
            why: Why::BadMapping,
        },
        (None, why) => Fault { at, why },
    }
}

/// Reads the next header packet, and adds its block to these.
fn take_header<R: Source>(
    pages: &mut Pages<R>,
    track: &mut Track,
    packet: &mut Vec<u8>,
    blocks: &mut Vec<Block>,
) -> Result<(), PacketFault>
    ensures { OnOk result (TakesHeader track.old track.new pages.old pages.new blocks.old.items blocks.new.items) }
{
    match next_packet(pages, packet, true) {
        Ok(true) => match add_header(track, packet.as_slice(), blocks) {
            Ok(()) => Ok(()),
            Err(why) => Err((None, why)),
        },
        Ok(false) => Err((None, Why::PacketLength)),
        Err(fault) => Err(fault),
    }
}

/// Reads header packets up to that of the last block (RFC 9639, section 10.1), and adds their blocks to these.
fn take_headers<R: Source>(
    pages: &mut Pages<R>,
    track: &mut Track,
    packet: &mut Vec<u8>,
    blocks: &mut Vec<Block>,
) -> Result<(), Fault>
    ensures { OnOk result (TakesHeaders track.old track.new pages.old pages.new blocks.old.items blocks.new.items) }
{
    // More blocks than this have no place.
    'reading: for _ in 0..u64::MAX {
        if track.is_past_metadata() {
            return Ok(());
        }
        let at = track.place();
        match take_header(pages, track, packet, blocks) {
            Ok(()) => {}
            Err(fault) => return Err(fault_in_packet(at, fault)),
        }
    }
    Err(Fault {
        at: track.place(),
        why: Why::PacketLength,
    })
}

/// Reads the header packets, and returns their blocks.
///
/// # Errors
/// The fault of a page, of the mapping or of a block at its place, as [`flac_ogg::decode_ogg`] reports it; but a packet
/// that is cut off, or longer than any part, is refused as such, whatever its bytes are.
pub(crate) fn read_headers<R: Source>(
    alloc: Global,
    pages: &mut Pages<R>,
    track: &mut Track,
) -> Result<Vec<Block>, Fault>
    ensures { IfOk result (λ blocks. TakesHeaders track.old track.new pages.old pages.new [] blocks.items) }
{
    let mut blocks = Vec::new(alloc);
    let mut packet = Vec::new(alloc);
    match take_headers(pages, track, &mut packet, &mut blocks) {
        Ok(()) => Ok(blocks),
        Err(fault) => Err(fault),
    }
}
