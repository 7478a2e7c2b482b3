//! The header packets of a stream.

ghost use Rattle.std.specs.Prelude.{◌≡◌, ◌≤◌, ◌∷◌, [], length, IfOk, IfErr, OnOk};
ghost use Rattle.flac_bits.specs.Bits.{bits_of};
ghost use Rattle.flac_ogg.specs.Headers.{AreHeaders, AreHeadersOf, AreHeadersOfHead, AddsHeader, AddsBlocks};

use crate::held_packet::HeldPacket;
use crate::mapping::{block_packet, first_packet, mapped};
use flac_bits::{Why, bytes_fit};
use flac_meta::{BlockList, StreamInfo};
use flac_pages::{PacketKind, PacketMarks};
use std::alloc::Global;

/// The header packets of a stream with this serial number: the pages of all but the last, and the last, which is held
/// back.
#[derive(Drop)]
pub struct Headers {
    /// The serial number of the stream.
    pub serial: u32,
    /// The pages of all packets but the last.
    pub sent: Vec<u8>,
    /// The last packet.
    pub held: HeldPacket,
}

impl Headers {
    /// The first header packet alone. Its only error is `Memory`: an allocation failed.
    pub(crate) fn new(alloc: Global, serial: u32, packet: &[u8]) -> Result<Headers, Why>
        ensures made { IfOk result (λ h. AreHeaders (bits_of packet.now ∷ []) h) }
        ensures serial { IfOk result (λ h. h.serial ≡ serial) }
        ensures memory { IfErr result (λ e. e ≡ Why.Memory) }
    {
        bytes_fit(packet);
        let marks = PacketMarks {
            serial,
            sequence: 0,
            kind: PacketKind::Header,
            first: true,
            last: false,
        };
        let held = HeldPacket::new(alloc, marks, packet)?;
        let sent = Vec::new(alloc);
        Ok(Headers { serial, sent, held })
    }

    /// Adds a header packet. Its only error is `Memory`: an allocation failed; the packets are of no use then.
    fn push(&mut self, alloc: Global, packet: &[u8]) -> Result<(), Why>
        ensures put { OnOk result (AddsHeader (bits_of packet.now) self.old self.new) }
        ensures serial { OnOk result (self.new.serial ≡ self.old.serial) }
        ensures memory { IfErr result (λ e. e ≡ Why.Memory) }
    {
        bytes_fit(packet);
        let marks = PacketMarks {
            serial: self.serial,
            sequence: self.held.next,
            kind: PacketKind::Header,
            first: false,
            last: false,
        };
        let held = HeldPacket::new(alloc, marks, packet)?;
        self.sent.extend_from_slice(self.held.middle.as_slice())?;
        self.held = held;
        Ok(())
    }

    /// Adds a packet for each block. Its only error is `Memory`: an allocation failed.
    pub(crate) fn push_blocks(&mut self, alloc: Global, list: &BlockList) -> Result<(), Why>
        ensures put { OnOk result (AddsBlocks list.now self.old self.new) }
        ensures serial { OnOk result (self.new.serial ≡ self.old.serial) }
        ensures memory { IfErr result (λ e. e ≡ Why.Memory) }
    {
        let blocks = list.blocks();
        let count = blocks.len();
        for i in 0..count {
            let packet = block_packet(alloc, &blocks[i], i + 1 == count)?;
            self.push(alloc, packet.as_slice())?;
        }
        Ok(())
    }
}

/// The header packets: the mapping with STREAMINFO, and a block each. Its only error is `Memory`: an allocation failed.
pub(crate) fn header_packets(
    alloc: Global,
    serial: u32,
    info: StreamInfo,
    list: &BlockList,
) -> Result<Headers, Why>
    ensures made { IfOk result (λ h. AreHeadersOf info list.now h) }
    ensures serial { IfOk result (λ h. h.serial ≡ serial) }
    ensures memory { IfErr result (λ e. e ≡ Why.Memory) }
{
    let blocks = list.blocks();
    let first = first_packet(alloc, info, blocks.len())?;
    let mut headers = Headers::new(alloc, serial, first.as_slice())?;
    headers.push_blocks(alloc, list)?;
    Ok(headers)
}

/// The header packets of the blocks with which a native stream begins: STREAMINFO, after the mapping, and those of the
/// list (RFC 9639, section 10.1). For encoders of other crates, such as `OggEncoder` of `flac_encoder`. `head` is what
/// a native stream of them begins with: the marker and STREAMINFO are its first 42 bytes.
///
/// # Errors
/// [`Why::Memory`] if an allocation fails.
pub fn headers_of(alloc: Global, serial: u32, head: &[u8], list: &BlockList) -> Result<Headers, Why>
    requires { 42 ≤ length head.now }
    ensures made { IfOk result (λ h. AreHeadersOfHead head.now list.now h) }
    ensures serial { IfOk result (λ h. h.serial ≡ serial) }
    ensures memory { IfErr result (λ e. e ≡ Why.Memory) }
{
    let blocks = list.blocks();
    let first = mapped(alloc, blocks.len(), &head[..42])?;
    let mut headers = Headers::new(alloc, serial, first.as_slice())?;
    headers.push_blocks(alloc, list)?;
    Ok(headers)
}
