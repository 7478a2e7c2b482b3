//! The pages of the header packets of a draft in Ogg, the packet that it holds back, and how it ends.

ghost use Rattle.std.specs.Prelude.{◌≡◌, ◌≢◌, ◌<◌, ◌++◌, true, false, None, ⊤, MatchOption, IfOk, IfErr, OnOk, OnErr};
ghost use Rattle.flac_bits.specs.Bits.{bits_of};
ghost use Rattle.flac_bits.specs.Forms.{AreBytes, IsBytes};
ghost use Rattle.flac_bits.specs.State.{Rises};
ghost use Rattle.flac_encoder.specs.Pushing.{shape_of, shape_fault, open_info};
ghost use Rattle.flac_encoder.specs.PushingOgg.{open_fault, frame_pages, IsOpenFault};
ghost use Rattle.flac_pages.specs.Placed.{sequence_after};
ghost use Rattle.flac_ogg.specs.Headers.{AreHeadersOf};
ghost use Rattle.flac_draft.specs.inner.Ending.{IsFirstPage, EndsAs};

use crate::draft_head::{head_bytes, info_with};
use crate::rewritable::Rewritable;
use flac_bits::{Target, Why, bytes_fit, send_all};
use flac_encoder::StreamFormat;
use flac_meta::{BlockList, StreamInfo};
use flac_native::EncodeFault;
use flac_ogg::{Headers, HeldPacket, begins_with_comment, headers_of};
use flac_pages::{PacketKind, PacketMarks};
use std::alloc::Global;

/// The size of the first page in bytes: the 27 of a page header, one lacing value, and the 51 of the packet with the
/// mapping and STREAMINFO (RFC 3533, section 6; RFC 9639, section 10.1).
const FIRST_PAGE: usize = 79;

/// The header packets: the mapping with STREAMINFO, and a block each (RFC 9639, section 10.1). `None` if an allocation
/// fails.
fn header_packets(alloc: Global, serial: u32, info: StreamInfo, list: &BlockList) -> Option<Headers>
    requires { IsBytes 16 info.digest }
    ensures made { MatchOption result ⊤ (λ h. AreHeadersOf info list.now h) }
    ensures serial { MatchOption result ⊤ (λ h. h.serial ≡ serial) }
{
    let Some(head) = head_bytes(alloc, info, list, Vec::new(alloc)) else {
        return None;
    };
    match headers_of(alloc, serial, head.as_slice(), list) {
        Ok(headers) => Some(headers),
        Err(_) => None,
    }
}

/// The header packets of a stream of a format, whose STREAMINFO states only the format.
///
/// # Errors
/// [`EncodeFault::Setup`] with the fault of the format, or [`EncodeFault::BadMapping`] if the list does not begin with a
/// Vorbis comment, the first that applies. Else [`EncodeFault::Memory`] if an allocation fails.
pub(crate) fn open_headers(
    alloc: Global,
    serial: u32,
    format: &StreamFormat,
    list: &BlockList,
) -> Result<Headers, EncodeFault>
    ensures made { IfOk result (λ h. AreHeadersOf (open_info (shape_of format.now)) list.now h) }
    ensures serial { IfOk result (λ h. h.serial ≡ serial) }
    ensures accepted { OnOk result (shape_fault (shape_of format.now) ≡ None) }
    ensures listed { OnOk result (open_fault (shape_of format.now) list.now ≡ None) }
    ensures refused { IfErr result (λ e. IsOpenFault (shape_of format.now) list.now e) }
    ensures unsent { IfErr result (λ e. e ≢ EncodeFault.Write) }
{
    if let Some(fault) = format.fault() {
        return Err(EncodeFault::Setup(fault));
    }
    if !begins_with_comment(list.blocks()) {
        return Err(EncodeFault::BadMapping);
    }
    let info = info_with(format, 0, 0, 0, [0; 16]);
    match header_packets(alloc, serial, info, list) {
        Some(headers) => Ok(headers),
        None => Err(EncodeFault::Memory),
    }
}

/// The first page, which has the packet of the mapping and STREAMINFO. `None` if an allocation fails.
pub(crate) fn first_page(
    alloc: Global,
    serial: u32,
    info: StreamInfo,
    list: &BlockList,
) -> Option<Vec<u8>>
    requires { IsBytes 16 info.digest }
    ensures { MatchOption result ⊤ (λ page. IsFirstPage serial info list.now page.items) }
{
    let Some(headers) = header_packets(alloc, serial, info, list) else {
        return None;
    };
    let Headers { sent, held, .. } = headers;
    let mut pages = sent;
    let Ok(()) = pages.extend_from_slice(held.middle.as_slice()) else {
        return None;
    };
    pages.truncate(FIRST_PAGE);
    Some(pages)
}

/// Holds back a frame, up to whose end the stream has `end` samples of each channel. Its only error is `Memory`: an
/// allocation failed.
pub(crate) fn held_frame(
    alloc: Global,
    serial: u32,
    sequence: u32,
    end: u64,
    packet: &[u8],
) -> Result<HeldPacket, Why>
    ensures middle { IfOk result (λ h. bits_of h.middle.items ≡ frame_pages serial sequence end false packet.now) }
    ensures last { IfOk result (λ h. bits_of h.last.items ≡ frame_pages serial sequence end true packet.now) }
    ensures next { IfOk result (λ h. h.next ≡ sequence_after sequence packet.now) }
    ensures bytes { AreBytes packet.now }
    ensures memory { IfErr result (λ e. e ≡ Why.Memory) }
{
    bytes_fit(packet);
    let marks = PacketMarks {
        serial,
        sequence,
        kind: PacketKind::Frame { end },
        first: false,
        last: false,
    };
    HeldPacket::new(alloc, marks, packet)
}

/// Sends the last pages, and writes the first one over the one that is there. Its only error is `Write`: the target
/// returned an error.
pub(crate) fn end_stream<W: Rewritable>(
    target: &mut W,
    last: &[u8],
    start: u64,
    first: &[u8],
) -> Result<(), EncodeFault>
    ensures written { OnOk result
        (W.known target.old ≡ true → EndsAs start last.now first.now (W.sent target.old) (W.sent target.new)) }
    ensures known { OnOk result (W.known target.old ≡ true → W.known target.new ≡ true) }
    ensures counted { OnOk result (W.errors target.new ≡ W.errors target.old) }
    ensures names { W.names target.new ≡ W.names target.old }
    ensures write { IfErr result (λ e. e ≡ EncodeFault.Write) }
    ensures rises { OnErr result (W.known target.old ≡ true → W.errors target.old < W.errors target.new) }
    ensures risen { OnErr result (Rises (W.errors target.old) (W.errors target.new)) }
{
    let Ok(()) = send_all(target, last) else {
        return Err(EncodeFault::Write);
    };
    match target.write_over(start, first) {
        Ok(()) => Ok(()),
        Err(_) => Err(EncodeFault::Write),
    }
}
