//! One item in one packet.

ghost use Rattle.std.specs.Prelude.{◌≡◌, ◌≢◌, ◌≤◌, ◌+◌, ◌*◌, true, false, length, OnOk, IfOk, IfErr, IfSome, None, Ok, Err};
ghost use Rattle.flac_bits.specs.Bits.{is_nil};
ghost use Rattle.flac_bits.specs.Layout.{bits as number};
ghost use Rattle.flac_bits.specs.Lists.{list_of};
ghost use Rattle.flac_bits.specs.Reading.{Counts};
ghost use Rattle.flac_pages.specs.Items.{TellsPacket, Meets, TellsPages, GivesBack, JudgesPacket, GoesAfter, HasAfter, CountsSo, HasItsPage};
ghost use Rattle.flac_pages.specs.Bytes.{StartsAt, names_of};
ghost use Rattle.flac_pages.specs.Packets.{on_page};
ghost use Rattle.flac_pages.specs.inner.Items.{why_in, FailsAtEnd};

use crate::packet_bytes::PacketBytes;
use crate::page::{PacketFault, PageFault};
use crate::pages::Pages;
use flac_bits::{BitReader, Source, Why, read_bytes};

/// Makes a reader of the bits of a packet, to read an item from. [`end_item`] returns the pages.
pub fn packet_bits<R: Source>(packet: PacketBytes<'_, R>) -> BitReader<PacketBytes<'_, R>>
    ensures at { StartsAt packet.entry result }
    // proof only
    ensures names { result.names ≡ names_of packet.entry }
{
    BitReader::new(packet)
}

/// The error of an item's reader in terms of its packet: that of a refused page has the number of pages before it, and
/// an item that the packet cuts off is [`Why::PacketLength`].
fn why_in(fault: Option<PageFault>, why: Why) -> PacketFault
    ensures value { result ≡ why_in fault why }
    ensures memory { IfSome fault (λ f. f.1 ≢ Why.Memory) → result.1 ≡ Why.Memory → why ≡ Why.Memory }
{
    match why {
        Why::Truncated => (None, Why::PacketLength),
        Why::Read => match fault {
            Some((page, why)) => (Some(page), why),
            None => (None, Why::Read),
        },
        other => (None, other),
    }
}

/// Whether no bit of a packet is left. The checks restart first: the item was judged, so none is computed of the bytes
/// that are dropped here.
fn at_end<R: Source>(bits: &mut BitReader<R>) -> Result<bool, Why>
    ensures spends { OnOk result (bits.new.most ≤ bits.old.most) }
    ensures counts { Counts bits.old bits.new result }
    ensures memory { IfErr result (λ e. e ≢ Why.Memory) }
    ensures over { IfOk result (λ over. bits.old.known ≡ true → over ≡ is_nil bits.old.cursor.left) }
    ensures ended { result ≡ Ok true → bits.old.known ≡ true → bits.old.cursor.mark.short ≡ Why.Read → ⊥ }
    ensures read { IfErr result (λ e. FailsAtEnd bits.old bits.new e) }
{
    bits.start_checks();
    bits.at_end()
}

/// Checks that the packet ends after a whole item.
fn end_after<'a, R: Source>(
    bits: BitReader<PacketBytes<'a, R>>,
) -> (Result<(), PacketFault>, &'a mut Pages<R>)
    ensures kept { bits.entry.errors ≤ result.1.now.errors }
    // proof only
    ensures back { GivesBack bits.entry result.1.ghost_name result.1.now (Ok tt) result.0 }
    ensures spends { OnOk result.0 (8 * (result.1.now.most + length result.1.now.body) ≤ bits.entry.most) }
    ensures memory { IfErr result.0 (λ e. e.1 ≢ Why.Memory) }
    ensures page { bits.entry.raised ≡ 0 → IfErr result.0 (λ e. HasItsPage result.1.now.count e) }
    ensures judges { JudgesPacket bits.entry result.1.now (Ok tt) result.0 }
    ensures after { OnOk result.0 (GoesAfter bits.entry result.1.now) }
{
    let mut bits = bits;
    let over = at_end(&mut bits);
    let packet = bits.into_source();
    let fault = packet.why();
    let pages = packet.into_pages();
    match over {
        Ok(true) => {
            let ended = pages.end_packet();
            (ended, pages)
        }
        Ok(false) => (Err((None, Why::PacketLength)), pages),
        Err(why) => (Err(why_in(fault, why)), pages),
    }
}

/// Checks that a packet ends after the item that was read from its bits, and returns the pages. `read` is what the
/// item's reader returned. At `Ok` the packet is just the item, and the next packet can be begun.
///
/// # Errors
/// - The item's own error.
/// - [`Why::PacketLength`] if the packet ends inside the item, goes on after it, or is still open at the end of the
///   last page.
/// - If a refused page breaks the packet off: the number of pages before that page, and its error.
pub fn end_item<'a, R: Source, X: Drop>(
    bits: BitReader<PacketBytes<'a, R>>,
    read: Result<X, Why>,
) -> (Result<X, PacketFault>, &'a mut Pages<R>)
    ensures kept { bits.entry.errors ≤ result.1.now.errors }
    // proof only
    ensures back { GivesBack bits.entry result.1.ghost_name result.1.now read result.0 }
    // The bits that were read are spent.
    ensures spends { OnOk result.0 (8 * (result.1.now.most + length result.1.now.body) ≤ bits.entry.most) }
    ensures memory { IfErr result.0 (λ e. e.1 ≡ Why.Memory → read ≡ Err Why.Memory) }
    // Read has the page that was being read.
    ensures page { CountsSo read bits.entry.raised → IfErr result.0 (λ e. HasItsPage result.1.now.count e) }
    ensures same { IfOk result.0 (λ item. read ≡ Ok item) }
    ensures judges { JudgesPacket bits.entry result.1.now read result.0 }
    ensures after { OnOk result.0 (GoesAfter bits.entry result.1.now) }
{
    match read {
        Ok(item) => match end_after(bits) {
            (Ok(()), pages) => (Ok(item), pages),
            (Err(why), pages) => (Err(why), pages),
        },
        Err(why) => {
            let packet = bits.into_source();
            let why = why_in(packet.why(), why);
            (Err(why), packet.into_pages())
        }
    }
}

/// Reads the packet that was begun into `out`. It must have exactly as many bytes. At `Ok` the next packet can be
/// begun.
///
/// # Errors
/// - [`Why::PacketLength`] if the packet has another length, or is still open at the end of the last page.
/// - If a refused page breaks the packet off: the number of pages before that page, and its error.
pub fn read_packet<R: Source>(pages: &mut Pages<R>, out: &mut [u8]) -> Result<(), PacketFault>
    ensures kept { pages.old.errors ≤ pages.new.errors }
    ensures names { pages.new.names ≡ pages.old.names }
    // Read is reported only if the device returned an error in the call.
    ensures meets { Meets pages.old.raised pages.new.raised result }
    ensures memory { IfErr result (λ e. e.1 ≢ Why.Memory) }
    ensures page { IfErr result (λ e. HasItsPage pages.new.count e) }
    // If a refused page breaks the packet off, it ends in none of the pages before that page.
    ensures pages { TellsPages (on_page pages.old) pages.new result }
    ensures tells { TellsPacket (λ _. out.new) None (list_of (length out.old) (number 8)) pages.old pages.new result }
    ensures stands { OnOk result ((pages.new.rest ≡ 0) × (pages.new.more ≡ false)) }
    ensures ahead { OnOk result (pages.old.known ≡ true → HasAfter pages.old pages.new) }
{
    let mut bits = packet_bits(PacketBytes::over(pages));
    let read = read_bytes(&mut bits, out);
    let (told, _pages) = end_item(bits, read);
    told
}
