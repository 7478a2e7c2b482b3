//! Writing of pages and packets.

ghost use Rattle.std.specs.Prelude.{◌≡◌, ◌≤◌, ◌<◌, ◌+◌, ◌/◌, ◌%◌, ◌^◌, ◌∷◌, ◌++◌, [], length, take, replicate, IfOk};
ghost use Rattle.flac_bits.specs.Written.{Writes};
ghost use Rattle.flac_pages.specs.Page.{page_of, page_sum, page_spelling};
ghost use Rattle.flac_pages.specs.Placed.{AreInOrder, placed_in, stream_spelling};
ghost use Rattle.flac_pages.specs.inner.Heads.{head_bytes};
ghost use Rattle.flac_pages.specs.Written.{granule_at, last_page, summed, head_at, packet_spelling};

use crate::page::{CAPTURE_PATTERN, CONTINUED, FIRST, Head, LAST, MOST_BODY};
use flac_bits::{BitWriter, Target, Why, crc32_after};

/// What a packet is (RFC 9639, section 10.1).
#[derive(Clone, Copy, Debug, PartialEq, Eq)]
pub enum PacketKind {
    /// A header packet, which has no samples.
    Header,
    /// A frame.
    Frame {
        /// The number of inter-channel samples from the start of the stream to the end of this frame.
        end: u64,
    },
}

impl PacketKind {
    /// The granule position of a page of such a packet, on which the packet ends or goes on (RFC 9639, section 10.1;
    /// RFC 3533, section 6): 0 on each page of a header packet; on a page of a frame the number of samples so far if
    /// the frame ends there, and 2^64 - 1 if it goes on.
    pub fn granule(self, ends: bool) -> u64
        ensures { result ≡ granule_at self ends }
    {
        match self {
            PacketKind::Header => 0,
            PacketKind::Frame { end } => { if ends { end } else { u64::MAX } }
        }
    }
}

/// The position of a packet in its stream.
#[derive(Clone, Copy, Debug, PartialEq, Eq)]
pub struct PacketMarks {
    /// The serial number of the stream.
    pub serial: u32,
    /// The number of the page that the packet begins.
    pub sequence: u32,
    /// What the packet is, which gives its pages their granule positions.
    pub kind: PacketKind,
    /// Whether it is the first packet of the stream.
    pub first: bool,
    /// Whether it is the last packet of the stream.
    pub last: bool,
}

/// The end of a packet in a slice of bytes in which packets follow one another.
#[derive(Clone, Copy, Debug, PartialEq, Eq)]
pub struct PacketAt {
    /// The index after its last byte.
    pub end: usize,
    /// What the packet is, which gives its pages their granule positions.
    pub kind: PacketKind,
}

/// The bytes of a page before its lacing values (RFC 3533, section 6, fields 1 to 8): `OggS`, version 0, the fields of
/// `head` with this checksum in place of its own, and the number of lacing values.
fn head_bytes(head: Head, sum: u32, count: u8) -> [u8; 27]
    ensures { result ≡ head_bytes head sum count }
{
    let [o, g, h, s] = CAPTURE_PATTERN;
    let [g0, g1, g2, g3, g4, g5, g6, g7] = head.granule.to_le_bytes();
    let [a0, a1, a2, a3] = head.serial.to_le_bytes();
    let [n0, n1, n2, n3] = head.sequence.to_le_bytes();
    let [c0, c1, c2, c3] = sum.to_le_bytes();
    [
        o, g, h, s, 0, head.flags, g0, g1, g2, g3, g4, g5, g6, g7, a0, a1, a2, a3, n0, n1, n2, n3,
        c0, c1, c2, c3, count,
    ]
}

/// The checksum of a page (RFC 3533, section 6, field 7): the remainder over all of the page, whose own checksum counts
/// as 0. `lacing` has at most 255 values.
pub fn page_checksum(head: Head, lacing: &[u8], body: &[u8]) -> u32
    requires { length lacing.now ≤ 255 }
    ensures { result ≡ page_sum (page_of head lacing.now body.now) }
{
    let count = lacing.len() as u8;
    let check = crc32_after(0, &head_bytes(head, 0, count));
    let check = crc32_after(check, lacing);
    crc32_after(check, body)
}

/// Writes a page (RFC 3533, section 6). `lacing` has the lengths of the segments, at most 255, and `body` their bytes.
/// That these agree is not checked. The checksum is computed; that of `head` is not used.
///
/// # Errors
/// [`Why::Write`] if the target fails.
pub fn write_page<W: Target>(
    head: Head,
    lacing: &[u8],
    body: &[u8],
    writer: &mut BitWriter<W>,
) -> Result<(), Why>
    requires { length lacing.now ≤ 255 }
    ensures { Writes (page_spelling (summed (page_of head lacing.now body.now))) writer.old writer.new result }
{
    let sum = page_checksum(head, lacing, body);
    let count = lacing.len() as u8;
    writer.put_bytes(&head_bytes(head, sum, count))?;
    writer.put_bytes(lacing)?;
    writer.put_bytes(body)
}

/// The fixed fields of page `page` of a packet, whose last page is `last`, counted from 0.
fn head_of(marks: PacketMarks, last: usize, page: usize) -> Head
    ensures { result ≡ head_at marks last page }
{
    let begins = if page == 0 {
        if marks.first { FIRST } else { 0 }
    } else {
        CONTINUED
    };
    let ends = if page == last && marks.last { LAST } else { 0 };
    Head {
        flags: begins + ends,
        granule: marks.kind.granule(page == last),
        serial: marks.serial,
        sequence: marks.sequence.wrapping_add((page % 4_294_967_296) as u32),
        sum: 0,
    }
}

/// Fills in the lacing values of a last page of `bytes` bytes, in an array of 255s, and returns how many they are.
fn put_lacing(bytes: usize, lacing: &mut [u8; 255]) -> usize
    requires bytes { bytes < 65025 }
    requires places { lacing.old ≡ replicate 255 255 }
    ensures few { result ≤ 255 }
    ensures long { length lacing.new ≡ 255 }
    ensures values { take result lacing.new ≡ replicate (bytes / 255) 255 ++ (bytes % 255) ∷ [] }
{
    let full = bytes / 255;
    lacing[full] = (bytes % 255) as u8;
    full + 1
}

/// Writes the last page of a packet. It has fewer bytes than a page can have.
#[tactic(auto, unfolding(crate::specs::Packets::lacing_of))]
fn write_last<W: Target>(head: Head, rest: &[u8], writer: &mut BitWriter<W>) -> Result<(), Why>
    requires { length rest.now < 65025 }
    ensures { Writes (page_spelling (summed (last_page head rest.now))) writer.old writer.new result }
{
    let mut lacing = [255u8; 255];
    let count = put_lacing(rest.len(), &mut lacing);
    write_page(head, &lacing[..count], rest, writer)
}

/// Writes a packet that begins a page: pages of 255 segments of 255 bytes, and one of the rest, which may have no bytes
/// (RFC 3533, sections 5 and 6). Returns the number of the page after it.
///
/// # Errors
/// [`Why::Write`] if the target fails.
pub fn write_packet<W: Target>(
    marks: PacketMarks,
    packet: &[u8],
    writer: &mut BitWriter<W>,
) -> Result<u32, Why>
    ensures wrote { Writes (packet_spelling marks packet.now) writer.old writer.new result }
    ensures next { IfOk result (λ n. n ≡ (marks.sequence + (length packet.now / 65025 + 1)) % 2 ^ 32) }
{
    let last = packet.len() / MOST_BODY;
    for page in 0..last {
        let from = MOST_BODY * page;
        let head = head_of(marks, last, page);
        write_page(head, &[255; 255], &packet[from..from + MOST_BODY], writer)?;
    }
    let head = head_of(marks, last, last);
    write_last(head, &packet[MOST_BODY * last..], writer)?;
    Ok(head.sequence.wrapping_add(1))
}

/// Writes all packets of a stream, one after another, each on pages of its own (RFC 3533, sections 5 and 6).
///
/// The packets are in `bytes`, one after another: the first begins at index 0, and each other one at the end of the one
/// before. The ends must not fall, and none is past the end of `bytes`; a packet may have no bytes. Pages are numbered
/// from 0; the first packet begins the stream, and the last one ends it.
///
/// # Errors
/// [`Why::Write`] if the target fails.
pub fn write_packets<W: Target>(
    serial: u32,
    bytes: &[u8],
    packets: &[PacketAt],
    writer: &mut BitWriter<W>,
) -> Result<(), Why>
    requires { AreInOrder 0 (length bytes.now) packets.now }
    ensures { Writes (stream_spelling serial (placed_in bytes.now 0 packets.now)) writer.old writer.new result }
{
    let count = packets.len();
    let mut from = 0;
    let mut sequence = 0;
    for i in 0..count {
        let PacketAt { end, kind } = packets[i];
        let marks = PacketMarks {
            serial,
            sequence,
            kind,
            first: i == 0,
            last: i + 1 == count,
        };
        sequence = write_packet(marks, &bytes[from..end], writer)?;
        from = end;
    }
    Ok(())
}
