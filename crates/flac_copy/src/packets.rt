//! The packets of an Ogg stream, one after another in memory.

ghost use Rattle.std.specs.Prelude.{◌≡◌, [], true, length, OnOk, IfOk};
ghost use Rattle.flac_bits.specs.Reading.{Counts};
ghost use Rattle.flac_copy.specs.Packets.{TakesBytes, HoldsPacket, HoldsNext};

use flac_bits::{BitReader, Source, Why};
use flac_pages::{PacketBytes, PacketFault, Pages, end_item, packet_bits};

/// How many bytes are taken at once.
const PIECE: usize = 4096;

/// The most bytes of a packet that is an item: a block has 4 bytes before its content, which has at most 16777215 (RFC
/// 9639, section 8.1).
const MOST: usize = 16777219;

/// Takes the bytes that are left of a packet; if they are more than an item has, only some of them.
fn take_bytes<R: Source>(bits: &mut BitReader<R>, bytes: &mut Vec<u8>) -> Result<(), Why>
    requires { bits.old.cursor.mark.unread ≡ 0 }
    ensures counts { Counts bits.old bits.new result }
    ensures taken { OnOk result (TakesBytes bits.old bits.new bytes.old.items bytes.new.items) }
{
    let mut piece = [0; PIECE];
    'taking: while bytes.len() <= MOST {
        let n = bits.take_bytes(&mut piece)?;
        bytes.extend_from_slice(&piece[..n])?;
        if n < PIECE {
            return Ok(());
        }
    }
    Ok(())
}

/// Puts the bytes of the packet that was begun after these, and goes to its end.
///
/// # Errors
/// - [`Why::PacketLength`] if the packet is longer than any item, or still open at the end of the last page.
/// - If a refused page breaks the packet off: the number of pages before that page, and its error.
/// - [`Why::Memory`] if an allocation fails.
fn hold_packet<R: Source>(pages: &mut Pages<R>, bytes: &mut Vec<u8>) -> Result<(), PacketFault>
    requires { bytes.old.items ≡ [] }
    ensures { OnOk result (HoldsPacket pages.old pages.new bytes.new.items) }
{
    let mut bits = packet_bits(PacketBytes::over(pages));
    let read = take_bytes(&mut bits, bytes);
    let (told, _pages) = end_item(bits, read);
    told
}

/// Reads the next packet, and puts its bytes in place of those that there are. False if there is none: the last page
/// was read, and the input ends after it. `missing` says whether a metadata block is still to come.
///
/// # Errors
/// - [`Why::PacketLength`] if the packet is longer than any item, or still open at the end of the last page; or if a
///   block is missing, and a byte follows the last page.
/// - If a page is refused: the number of pages before it, and its error.
/// - [`Why::Memory`] if an allocation fails.
pub(crate) fn next_packet<R: Source>(
    pages: &mut Pages<R>,
    bytes: &mut Vec<u8>,
    missing: bool,
) -> Result<bool, PacketFault>
    ensures { IfOk result (HoldsNext pages.old pages.new bytes.new.items) }
{
    bytes.clear();
    if !pages.is_between_packets() {
        return Err((None, Why::PacketLength));
    }
    match pages.next_packet() {
        Ok(true) => match hold_packet(pages, bytes) {
            Ok(()) => Ok(true),
            Err(fault) => Err(fault),
        },
        Ok(false) => Ok(false),
        Err((_, _)) if missing && pages.is_last() => Err((None, Why::PacketLength)),
        Err((page, why)) => Err((Some(page), why)),
    }
}
