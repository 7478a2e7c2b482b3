//! The native stream in the packets of an Ogg stream.

ghost use Rattle.std.specs.Prelude.{◌≡◌, ◌≢◌, ◌≤◌, [], true, false, length, None, Some, OnOk, IfOk, IfErr};
ghost use Rattle.flac_header.specs.declared.subset.Profile.{Profile};
ghost use Rattle.flac_native.specs.Item.{fault_pair};
ghost use Rattle.flac_pages.specs.Page.{went_on, goes_on_after};
ghost use Rattle.flac_pages.specs.Pages.{next_page, end_fault};
ghost use Rattle.flac_c.specs.Answers.{IsAnswered, in_c};
ghost use Rattle.flac_c.specs.Unpacked.{HasMapping, Maps, RefusesPages, WritesNative, WritesAny};
ghost use Rattle.flac_c.specs.inner.Unpacked.{after_or_last, PageAdded, IsUnpacked, StopsAt, RefusesPage, IsEndFault};

use crate::fault::{FlacProvedFault, in_c};
use crate::texts::copy;
use flac_bits::{BitReader, Memory, Why};
use flac_native::{Fault, Place, bytes_from};
use flac_ogg::{page_place, read_mapping};
use flac_pages::{Before, PageBuffer, PageFault, next_page};
use std::alloc::Global;

/// Whether the bytes of all packets begin with the mapping.
fn has_mapping(packed: &[u8]) -> bool
    ensures some { result ≡ true → HasMapping packed.now }
    ensures none { result ≡ false → HasMapping packed.now → ⊥ }
{
    let mut bits = BitReader::new(Memory::new(packed));
    let outcome = read_mapping(&mut bits);
    // Given back only for the proof, which then knows that a source in memory returns no error.
    let _source = bits.into_source();
    match outcome {
        Ok(()) => true,
        Err(_) => false,
    }
}

/// Whether a packet goes on after the pages before.
fn went_on(before: Option<Before>) -> bool
    ensures { result ≡ went_on before }
{
    match before {
        Some(before) => before.goes_on,
        None => false,
    }
}

/// Whether a packet goes on after these segments.
fn goes_on_after(before: bool, lacing: &[u8]) -> bool
    ensures { result ≡ goes_on_after before lacing.now }
{
    let mut goes_on = before;
    for i in 0..lacing.len() {
        goes_on = lacing[i] == 255;
    }
    goes_on
}

/// What the page after a page must agree with; `None` after the page that is marked last (RFC 3533, section 6).
fn after_page(page: &PageBuffer, before: Option<Before>) -> Option<Before>
    ensures { result ≡ after_or_last before page.now }
{
    let head = page.head();
    if head.flags / 4 % 2 == 1 {
        return None;
    }
    let goes_on = goes_on_after(went_on(before), page.lacing());
    Some(Before {
        serial: head.serial,
        sequence: head.sequence,
        goes_on,
    })
}

/// Reads the next page, adds the bytes of its segments to a list, and returns what the page after it must agree with;
/// `None` if it is marked last.
fn add_page(
    bits: &mut BitReader<Memory<'_>>,
    room: &mut PageBuffer,
    before: Option<Before>,
    list: &mut Vec<u8>,
) -> Result<Option<Before>, Why>
    requires { bits.old.known ≡ true }
    ensures read { IfOk result (PageAdded before bits.old bits.new list.old.items list.new.items) }
    ensures refused { IfErr result (RefusesPage before bits.old bits.new) }
{
    match next_page(bits, room, before) {
        Ok(()) => {}
        Err(why) => return Err(why),
    }
    match list.extend_from_slice(room.body()) {
        Ok(()) => Ok(after_page(room, before)),
        Err(_) => Err(Why::Memory),
    }
}

/// Judges what comes after the page marked last, of which there are as many as are counted: nothing may come.
fn judge_end(bits: &mut BitReader<Memory<'_>>, count: u64) -> Result<(), PageFault>
    requires known { bits.old.known ≡ true }
    requires short { bits.old.cursor.mark.short ≡ Why.Truncated }
    ensures over { OnOk result (end_fault bits.old.cursor ≡ None) }
    ensures fault { IfErr result (IsEndFault count bits.old bits.new) }
{
    match bits.at_end() {
        Ok(true) => Ok(()),
        Ok(false) => Err((count, Why::PageOrder)),
        Err(why) => Err((count, why)),
    }
}

/// Reads all pages, and collects the bytes of their segments.
fn unpack(
    alloc: Global,
    bits: &mut BitReader<Memory<'_>>,
    list: &mut Vec<u8>,
) -> Result<(), PageFault>
    requires known { bits.old.known ≡ true }
    requires short { bits.old.cursor.mark.short ≡ Why.Truncated }
    requires none { list.old.items ≡ [] }
    ensures read { OnOk result (IsUnpacked bits.old list.new.items) }
    ensures refused { IfErr result (λ e. bits.new.errors ≡ bits.old.errors → e.1 ≢ Why.Memory → StopsAt bits.old e) }
{
    let mut room = match PageBuffer::new(alloc) {
        Ok(room) => room,
        Err(why) => return Err((0, why)),
    };
    let mut before = None;
    for count in 0..u64::MAX {
        match add_page(bits, &mut room, before, list) {
            Ok(Some(after)) => before = Some(after),
            Ok(None) => return judge_end(bits, count + 1),
            Err(why) => return Err((count, why)),
        }
    }
    Err((u64::MAX, Why::Memory))
}

/// Collects the bytes of all packets of an Ogg stream, which begin with the mapping.
fn packed_of(alloc: Global, bytes: &[u8], list: &mut Vec<u8>) -> Result<(), Fault>
    requires { list.old.items ≡ [] }
    ensures read { OnOk result (Maps bytes.now list.new.items) }
    ensures refused { IfErr result (λ f. RefusesPages bytes.now (Some (fault_pair f))) }
{
    let mut bits = BitReader::new(Memory::new(bytes));
    let outcome = unpack(alloc, &mut bits, list);
    // Given back only for the proof, which then knows that a source in memory returns no error.
    let _source = bits.into_source();
    match outcome {
        Ok(()) => {}
        Err((page, why)) => {
            return Err(Fault {
                at: page_place(page, why),
                why,
            });
        }
    }
    if has_mapping(list.as_slice()) {
        return Ok(());
    }
    Err(Fault {
        at: Place::Marker,
        why: Why::BadMapping,
    })
}

/// Copies the native stream that is in the packets of an Ogg stream to the front of `out`, as far as there is room: the
/// bytes of all packets from the marker in the mapping on (RFC 3533, section 6; RFC 9639, section 10.1). Of a stream it
/// is a native stream of the same metadata blocks and frames, for the calls that read native streams. `len` becomes the
/// number of its bytes.
///
/// Pages are judged, each and in their order, and so is the mapping; metadata and frames are not.
///
/// Returns 0, or the number of the fault of a page or of the mapping, or 2 if an allocation fails; `out` and `len` are
/// unchanged then.
#[unsafe(no_mangle)]
pub extern "C" fn flac_proved_native(
    alloc: Global,
    bytes: &[u8],
    out: &mut [u8],
    len: &mut usize,
    fault: &mut FlacProvedFault,
) -> u32
    ensures native { result ≡ 0 → WritesNative bytes.now out.old out.new len.new }
    ensures streams { (profile : Profile) → WritesAny profile bytes.now result out.old out.new len.new }
    ensures refused { result ≢ 0 → IsAnswered (RefusesPages bytes.now) fault.new }
    ensures kept { result ≢ 0 → (out.new ≡ out.old) × (len.new ≡ len.old) }
    ensures number { result ≡ fault.new.number }
    ensures clear { result ≡ 0 → fault.new ≡ in_c None }
{
    let mut packed = Vec::new(alloc);
    match packed_of(alloc, bytes, &mut packed) {
        Ok(()) => {
            *fault = in_c(Ok(()));
            *len = copy(bytes_from(packed.as_slice(), 9), out);
            0
        }
        Err(refusal) => {
            *fault = in_c(Err(refusal));
            fault.number
        }
    }
}
