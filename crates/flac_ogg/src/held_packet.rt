//! The last packet so far of an Ogg stream, of which it is not known yet whether more follow.

ghost use Rattle.std.specs.Prelude.{◌≡◌, true, false, IfOk, IfErr};
ghost use Rattle.flac_bits.specs.Bits.{bits_of};
ghost use Rattle.flac_pages.specs.Placed.{sequence_after};
ghost use Rattle.flac_pages.specs.Written.{packet_spelling};
ghost use Rattle.flac_ogg.specs.Held.{pages_marked};

use flac_bits::{BitWriter, Collected, Why};
use flac_pages::{PacketMarks, write_packet};
use std::alloc::Global;

/// The pages of a packet, and the number of the page after them.
#[derive(Drop)]
struct PacketPages {
    bytes: Vec<u8>,
    next: u32,
}

/// The pages of a packet, in memory (RFC 3533, sections 5 and 6). Its only error is `Memory`: an allocation failed.
fn packet_pages(alloc: Global, marks: PacketMarks, packet: &[u8]) -> Result<PacketPages, Why>
    ensures pages { IfOk result (λ p. bits_of p.bytes.items ≡ packet_spelling marks packet.now) }
    ensures next { IfOk result (λ p. p.next ≡ sequence_after marks.sequence packet.now) }
    ensures memory { IfErr result (λ e. e ≡ Why.Memory) }
{
    let mut writer = BitWriter::new(Collected::new(alloc));
    match write_packet(marks, packet, &mut writer) {
        Ok(next) => {
            let bytes = writer.into_bytes()?;
            Ok(PacketPages { bytes, next })
        }
        Err(why) => Err(why.in_memory()),
    }
}

/// The pages of a packet of which it is not known yet whether more follow: as they are if more follow, as they are if
/// it ends the stream, and the number of the page after them.
pub struct HeldPacket {
    /// The pages if more packets follow.
    pub middle: Vec<u8>,
    /// The pages if the packet ends the stream.
    pub last: Vec<u8>,
    /// The number of the page after them.
    pub next: u32,
}

impl Drop for HeldPacket {
    fn drop(self) {
        let HeldPacket {
            middle: _,
            last: _,
            next: _,
        } = self;
    }
}

impl HeldPacket {
    /// Holds a packet of these marks, apart from whether it is the last. Its only error is `Memory`: an allocation
    /// failed.
    pub fn new(alloc: Global, marks: PacketMarks, packet: &[u8]) -> Result<HeldPacket, Why>
        ensures middle { IfOk result (λ h. bits_of h.middle.items ≡ pages_marked marks false packet.now) }
        ensures last { IfOk result (λ h. bits_of h.last.items ≡ pages_marked marks true packet.now) }
        ensures next { IfOk result (λ h. h.next ≡ sequence_after marks.sequence packet.now) }
        ensures memory { IfErr result (λ e. e ≡ Why.Memory) }
    {
        let middle = PacketMarks {
            last: false,
            ..marks
        };
        let last = PacketMarks {
            last: true,
            ..marks
        };
        let ending = packet_pages(alloc, last, packet)?;
        let pages = packet_pages(alloc, middle, packet)?;
        Ok(HeldPacket {
            middle: pages.bytes,
            last: ending.bytes,
            next: pages.next,
        })
    }
}
