ghost use Rattle.std.specs.Prelude.{◌≡◌, length};
ghost use Rattle.flac_pages.specs.Placed.{AreInOrder};

use flac_bits::{BitReader, BitWriter, Collected, Memory, Pieces, Source, Why};
use flac_pages::{
    Before, PacketAt, PacketBytes, PacketKind, PacketMarks, PageBuffer, Pages, next_page,
    write_packet, write_packets,
};
use std::alloc::Global;
use std::test::Fail;
use test_vectors::bytes_of;

/// What `flac --ogg --no-padding`, version 1.4.2, writes of the mono samples 0, 1, .., 15 at 44100 Hz: four pages of
/// one packet each.
pub(crate) const STREAM: [u8; 246] = [
    0x4F, 0x67, 0x67, 0x53, 0x00, 0x02, 0x00, 0x00, 0x00, 0x00, 0x00, 0x00, 0x00, 0x00, 0x01, 0x00,
    0x00, 0x00, 0x00, 0x00, 0x00, 0x00, 0x76, 0x18, 0x88, 0xE8, 0x01, 0x33, 0x7F, 0x46, 0x4C, 0x41,
    0x43, 0x01, 0x00, 0x00, 0x02, 0x66, 0x4C, 0x61, 0x43, 0x00, 0x00, 0x00, 0x22, 0x00, 0x10, 0x00,
    0x10, 0x00, 0x00, 0x11, 0x00, 0x00, 0x11, 0x0A, 0xC4, 0x40, 0xF0, 0x00, 0x00, 0x00, 0x10, 0x2D,
    0xFE, 0xAE, 0xBF, 0xCE, 0xAD, 0xFE, 0x13, 0x0B, 0xA1, 0xB4, 0x5A, 0xE5, 0xAE, 0xC2, 0x02, 0x4F,
    0x67, 0x67, 0x53, 0x00, 0x00, 0x00, 0x00, 0x00, 0x00, 0x00, 0x00, 0x00, 0x00, 0x01, 0x00, 0x00,
    0x00, 0x01, 0x00, 0x00, 0x00, 0x35, 0x8C, 0x5B, 0x89, 0x01, 0x2C, 0x04, 0x00, 0x00, 0x28, 0x20,
    0x00, 0x00, 0x00, 0x72, 0x65, 0x66, 0x65, 0x72, 0x65, 0x6E, 0x63, 0x65, 0x20, 0x6C, 0x69, 0x62,
    0x46, 0x4C, 0x41, 0x43, 0x20, 0x31, 0x2E, 0x34, 0x2E, 0x32, 0x20, 0x32, 0x30, 0x32, 0x32, 0x31,
    0x30, 0x32, 0x32, 0x00, 0x00, 0x00, 0x00, 0x4F, 0x67, 0x67, 0x53, 0x00, 0x00, 0x00, 0x00, 0x00,
    0x00, 0x00, 0x00, 0x00, 0x00, 0x01, 0x00, 0x00, 0x00, 0x02, 0x00, 0x00, 0x00, 0xE3, 0xBF, 0x92,
    0x54, 0x01, 0x16, 0x83, 0x00, 0x00, 0x12, 0x00, 0x00, 0x00, 0x00, 0x00, 0x00, 0x00, 0x00, 0x00,
    0x00, 0x00, 0x00, 0x00, 0x00, 0x00, 0x00, 0x00, 0x10, 0x4F, 0x67, 0x67, 0x53, 0x00, 0x04, 0x10,
    0x00, 0x00, 0x00, 0x00, 0x00, 0x00, 0x00, 0x01, 0x00, 0x00, 0x00, 0x03, 0x00, 0x00, 0x00, 0xF7,
    0x95, 0x8D, 0x37, 0x01, 0x11, 0xFF, 0xF8, 0x69, 0x08, 0x00, 0x0F, 0x30, 0x14, 0x00, 0x00, 0x00,
    0x01, 0x00, 0x3F, 0xFF, 0xCB, 0x50,
];

/// How packets end: the page and the fault, or the input's end.
type End = Option<(u64, Why)>;

/// Whether a packet begins here, or why not.
fn begin<R: Source>(pages: &mut Pages<R>) -> Result<bool, (u64, Why)> {
    if !pages.is_between_packets() {
        return Err((pages.count(), Why::PacketLength));
    }
    pages.next_packet()
}

/// How long the packet is that was begun, at most 400 bytes of it.
fn length_of<R: Source>(pages: &mut Pages<R>) -> Result<usize, End> {
    let mut room = [0u8; 400];
    let mut reader = BitReader::new(PacketBytes::over(pages));
    let taken = reader.take_bytes(&mut room);
    let packet = reader.into_source();
    let fault = packet.why();
    let _pages = packet.into_pages();
    match taken {
        Ok(n) => Ok(n),
        Err(_) => Err(fault),
    }
}

/// How long the next packet is, or how the packets end.
fn next_length<R: Source>(pages: &mut Pages<R>) -> Result<usize, End> {
    match begin(pages) {
        Ok(true) => length_of(pages),
        Ok(false) => Err(None),
        Err(fault) => Err(Some(fault)),
    }
}

/// How long the packets are, at most five of them, and how they end.
fn packets<R: Source + Drop>(alloc: Global, source: R) -> Result<([usize; 5], End), Why> {
    let mut pages = Pages::new(alloc, source)?;
    let mut lengths = [0usize; 5];
    for i in 0..5 {
        match next_length(&mut pages) {
            Ok(n) => lengths[i] = n,
            Err(end) => return Ok((lengths, end)),
        }
    }
    Ok((lengths, None))
}

/// Pages in hex, by name.
const PIECES: &str = "# The four pages of `STREAM`.
PAGE_0 4f676753000200000000000000000100000000000000761888e801337f464c414301000002664c614300000022001000100000110000110ac440f0000000102dfeaebfceadfe130ba1b45ae5aec202
PAGE_1 4f676753000000000000000000000100000001000000358c5b89012c04000028200000007265666572656e6365206c6962464c414320312e342e3220323032323130323200000000
PAGE_2 4f676753000000000000000000000100000002000000e3bf9254011683000012000000000000000000000000000000000010
PAGE_3 4f676753000410000000000000000100000003000000f7958d370111fff86908000f301400000001003fffcb50
# The third one with another byte, and the fourth one without its last byte.
OTHER_BYTE 4f676753000000000000000000000100000002000000e3bf9254011683000012000000000000000100000000000000000010
CUT 4f676753000410000000000000000100000003000000f7958d370111fff86908000f301400000001003fffcb
# The head of a page marked last, of a packet of 255 zeros and one of one zero.
FULL 4f6767530004000000000000000001000000010000003ef62db003ff0001
# The head of a page of 255 zeros whose packet goes on, the page on which it ends, and the same with another position.
BEGUN 4f6767530000ffffffffffffffff01000000010000002f11204e01ff
ENDED 4f676753000500000000000000000100000002000000605644370100
OTHER_END 4f676753000501000000000000000100000002000000605644370100";

/// Pages, how long their packets are, at most five of them, and the page and the fault at which they end.
const READ: &str = "PAGE_0 PAGE_1 PAGE_2 PAGE_3 | ([51, 44, 22, 17, 0], None)
PAGE_0 PAGE_1 PAGE_2 CUT | ([51, 44, 22, 0, 0], Some((3, Truncated)))
PAGE_0 PAGE_1 PAGE_2 | ([51, 44, 22, 0, 0], Some((3, NoEndPage)))
PAGE_0 PAGE_1 OTHER_BYTE PAGE_3 | ([51, 44, 0, 0, 0], Some((2, PageCheck)))
PAGE_0 PAGE_1 PAGE_3 | ([51, 44, 0, 0, 0], Some((2, PageOrder)))
PAGE_0 PAGE_1 PAGE_2 PAGE_3 4f | ([51, 44, 22, 17, 0], Some((4, PageOrder)))
# Packets of whole segments.
PAGE_0 FULL 00*256 | ([51, 255, 1, 0, 0], None)
PAGE_0 BEGUN 00*255 ENDED | ([51, 255, 0, 0, 0], None)
PAGE_0 BEGUN 00*255 OTHER_END | ([51, 0, 0, 0, 0], Some((2, PageCheck)))
# A packet of no bytes.
4f6767530002000000000000000009000000000000001659733f0133 00*51 4f6767530000010000000000000009000000010000007adff6680100 4f676753000407000000000000000900000002000000539d323602ff2d 00*300 | ([51, 0, 300, 0, 0], None)";

/// The hex digits of the page of this name, or else the word itself.
fn digits_of<'a>(word: &'a str) -> &'a str {
    for line in PIECES.lines() {
        if let Some((name, digits)) = line.split_once(' ') {
            if name == word {
                return digits;
            }
        }
    }
    word
}

/// The bytes of some words, of which each is the name of a page or hex digits.
fn pages_of(alloc: Global, words: &str) -> Result<Vec<u8>, Fail> {
    let mut bytes = Vec::new(alloc);
    for word in words.split_whitespace() {
        bytes.extend_from_slice(&bytes_of(alloc, digits_of(word))?)?;
    }
    Ok(bytes)
}

/// The lengths of packets and how they end, as text.
fn told(alloc: Global, bytes: &[u8], most: usize) -> Result<String, Fail> {
    let source = Pieces::new(Memory::new(bytes), most.max(1));
    let found = packets(alloc, source)?;
    Ok(format!(in alloc; "{found:?}")?)
}

/// Whether the pages of a row have the packets that the row says.
fn are_read(alloc: Global, words: &str, wanted: &str, most: usize) -> Result<bool, Fail> {
    let bytes = pages_of(alloc, words)?;
    let found = told(alloc, &bytes, most)?;
    Ok(found.as_str() == wanted)
}

/// The pages come in pieces of one byte, and of many.
#[test]
fn reads_packets(rt: HostRuntime) -> Result<(), Fail> {
    for row in READ.lines() {
        if let Some((words, wanted)) = row.split_once(" | ") {
            assert!(rt; are_read(rt.alloc(), words, wanted, 1)?, "{row}");
            assert!(rt; are_read(rt.alloc(), words, wanted, 4096)?, "{row}");
        }
    }
    Ok(())
}

/// Pages that are read by themselves: the number, the flags, the position, the lacing values and the length of the body
/// of each, and why no further one is read.
const ALONE: &str =
    "PAGE_0 PAGE_1 PAGE_2 PAGE_3 | 0 2 0 [51] 51, 1 0 0 [44] 44, 2 0 0 [22] 22, 3 4 16 [17] 17, NoEndPage
PAGE_0 PAGE_1 PAGE_3 | 0 2 0 [51] 51, 1 0 0 [44] 44, PageOrder
PAGE_0 PAGE_1 CUT | 0 2 0 [51] 51, 1 0 0 [44] 44, Truncated
PAGE_0 PAGE_1 OTHER_BYTE | 0 2 0 [51] 51, 1 0 0 [44] 44, PageCheck
PAGE_0 4f | 0 2 0 [51] 51, Truncated
PAGE_1 | BadMapping";

/// A page in text.
fn told_page(alloc: Global, room: &PageBuffer) -> Result<String, Fail> {
    let (head, lacing, len) = (room.head(), room.lacing(), room.body().len());
    let (number, flags, granule) = (head.sequence, head.flags, head.granule);
    Ok(format!(in alloc; "{number} {flags} {granule} {lacing:?} {len}, ")?)
}

/// The pages of some bytes in text, at most five, and why no further one is read.
fn told_alone(alloc: Global, bytes: &[u8], room: &mut PageBuffer) -> Result<String, Fail> {
    let mut reader = BitReader::new(Memory::new(bytes));
    let mut text = String::new(alloc);
    let mut before = None;
    for _ in 0..5 {
        if let Err(why) = next_page(&mut reader, room, before) {
            text.push_str(&format!(in alloc; "{why:?}")?)?;
            break;
        }
        text.push_str(&told_page(alloc, room)?)?;
        let head = room.head();
        before = Some(Before {
            serial: head.serial,
            sequence: head.sequence,
            goes_on: false,
        });
    }
    Ok(text)
}

#[test]
fn reads_pages(rt: HostRuntime) -> Result<(), Fail> {
    let mut room = PageBuffer::new(rt.alloc())?;
    for row in ALONE.lines() {
        let (words, wanted) = row.split_once(" | ").unwrap_or((row, ""));
        let bytes = pages_of(rt.alloc(), words)?;
        let text = told_alone(rt.alloc(), &bytes, &mut room)?;
        assert!(rt; text.as_str() == wanted, "{row}");
    }
    Ok(())
}

/// The pages of a packet, and the number of the page after them.
fn written(alloc: Global, marks: PacketMarks, packet: &[u8]) -> Result<(u32, Vec<u8>), Why> {
    let mut writer = BitWriter::new(Collected::new(alloc));
    let next = write_packet(marks, packet, &mut writer)?;
    Ok((next, writer.into_bytes()?))
}

/// Appends the pages of a packet, and returns the number of the page after them.
fn append(
    alloc: Global,
    all: &mut Vec<u8>,
    marks: PacketMarks,
    packet: &[u8],
) -> Result<u32, Fail> {
    let (next, pages) = written(alloc, marks, packet)?;
    all.extend_from_slice(&pages)?;
    Ok(next)
}

/// A packet of the stream with serial number 1 that is neither its first nor its last one.
fn marks_of(sequence: u32, kind: PacketKind) -> PacketMarks {
    PacketMarks {
        serial: 1,
        sequence,
        kind,
        first: false,
        last: false,
    }
}

/// The packets of `STREAM`.
fn stream_packets() -> [&'static [u8]; 4] {
    [
        &STREAM[28..79],
        &STREAM[107..151],
        &STREAM[179..201],
        &STREAM[229..],
    ]
}

/// The marks of the packet of `STREAM` that is on this page.
fn stream_marks(sequence: u32) -> PacketMarks {
    let mut marks = marks_of(sequence, PacketKind::Header);
    marks.first = sequence == 0;
    if sequence == 3 {
        marks.last = true;
        marks.kind = PacketKind::Frame { end: 16 };
    }
    marks
}

#[test]
fn writes_the_pages_of_a_stream(rt: HostRuntime) -> Result<(), Fail> {
    let mut all = Vec::new(rt.alloc());
    let mut sequence = 0;
    for packet in stream_packets() {
        sequence = append(rt.alloc(), &mut all, stream_marks(sequence), packet)?;
    }
    assert!(rt; sequence == 4 && all.as_slice() == STREAM.as_slice());
    Ok(())
}

/// Pages of packets of 255, 510 and 65025 bytes, of which the last goes on for no bytes on a page of its own.
pub(crate) const WHOLE_SEGMENTS: &str =
    "4f6767530000050000000000000001000000010000008ba2372c02ff00 07*255
4f6767530000050000000000000001000000020000000abc7f5303ffff00 08*510
4f6767530000ffffffffffffffff01000000030000006177258aff ff*255 09*65025
4f67675300050500000000000000010000000400000008ffaf090100";

/// Packets of whole segments, each of one byte that is repeated.
pub(crate) const PACKETS: [(u8, usize); 3] = [(7, 255), (8, 510), (9, 65025)];

/// Appends the pages of a packet that repeats a byte, and returns the number of the page after them.
fn append_whole(
    alloc: Global,
    all: &mut Vec<u8>,
    sequence: u32,
    packet: (u8, usize),
) -> Result<u32, Fail> {
    let (byte, length) = packet;
    let mut marks = marks_of(sequence, PacketKind::Frame { end: 5 });
    marks.last = length == 65025;
    append(alloc, all, marks, &vec![in alloc; byte; length]?)
}

#[test]
fn writes_packets_of_whole_segments(rt: HostRuntime) -> Result<(), Fail> {
    let mut all = Vec::new(rt.alloc());
    let mut sequence = 1;
    for packet in PACKETS {
        sequence = append_whole(rt.alloc(), &mut all, sequence, packet)?;
    }
    let wanted = bytes_of(rt.alloc(), WHOLE_SEGMENTS)?;
    assert!(rt; sequence == 5 && all.as_slice() == wanted.as_slice());
    Ok(())
}

/// Packets of whole segments of zeros, each the last of its stream: how many bytes it has, the number of the page after
/// it, and its pages.
const LAST_PACKETS: [(usize, u32, &str); 3] = [
    (
        255,
        8,
        "4f6767530004050000000000000001000000070000001dd3163d02ff00 00*255",
    ),
    (
        510,
        8,
        "4f676753000405000000000000000100000007000000f432592903ffff00 00*510",
    ),
    (
        65025,
        9,
        "4f6767530000ffffffffffffffff010000000700000014b55703ff ff*255 00*65025
4f6767530005050000000000000001000000080000001e30ee150100",
    ),
];

/// Whether a packet of this many zeros is written as these pages, and `next` is the number of the page after them.
fn writes_zeros(
    alloc: Global,
    marks: PacketMarks,
    length: usize,
    next: u32,
    pages: &str,
) -> Result<bool, Fail> {
    let zeros = vec![in alloc; 0u8; length]?;
    let (after, found) = written(alloc, marks, &zeros)?;
    Ok(after == next && found.as_slice() == bytes_of(alloc, pages)?.as_slice())
}

#[test]
fn last_packets_of_whole_segments(rt: HostRuntime) -> Result<(), Fail> {
    let mut marks = marks_of(7, PacketKind::Frame { end: 5 });
    marks.last = true;
    for (length, next, pages) in LAST_PACKETS {
        assert!(rt;
            writes_zeros(rt.alloc(), marks, length, next, pages)?,
            "{length}"
        );
    }
    Ok(())
}

/// Pages of a packet of 70000 zeros: of header packets each has position 0, of frames the one on which it ends has its
/// samples.
const LONG_HEADER: &str = "4f676753000000000000000000000100000001000000dc77ac19ff ff*255 00*65025
4f676753000100000000000000000100000002000000540b04a814 ff*19 82 00*4975";

const LONG_FRAME: &str = "4f6767530000ffffffffffffffff01000000010000006b5464fbff ff*255 00*65025
4f676753000100100000000000000100000002000000de4eb8b414 ff*19 82 00*4975";

/// Whether a packet of this kind of 70000 zeros is written as these two pages.
fn writes_long(alloc: Global, kind: PacketKind, pages: &str) -> Result<bool, Fail> {
    writes_zeros(alloc, marks_of(1, kind), 70000, 3, pages)
}

#[test]
fn positions_of_long_packets(rt: HostRuntime) -> Result<(), Fail> {
    assert!(rt; writes_long(rt.alloc(), PacketKind::Header, LONG_HEADER)?);
    let frame = PacketKind::Frame { end: 4096 };
    assert!(rt; writes_long(rt.alloc(), frame, LONG_FRAME)?);
    assert!(rt; PacketKind::Header.granule(false) == 0 && frame.granule(true) == 4096);
    Ok(())
}

/// The pages of all packets of a stream.
fn all_written(
    alloc: Global,
    serial: u32,
    bytes: &[u8],
    packets: &[PacketAt],
) -> Result<Vec<u8>, Why>
    requires { AreInOrder 0 (length bytes.now) packets.now }
{
    let mut writer = BitWriter::new(Collected::new(alloc));
    write_packets(serial, bytes, packets, &mut writer)?;
    writer.finish()?;
    Ok(writer.into_target().into_bytes())
}

/// The packets of `STREAM`, one after another.
const STREAM_PACKETS: [u8; 134] = [
    0x7F, 0x46, 0x4C, 0x41, 0x43, 0x01, 0x00, 0x00, 0x02, 0x66, 0x4C, 0x61, 0x43, 0x00, 0x00, 0x00,
    0x22, 0x00, 0x10, 0x00, 0x10, 0x00, 0x00, 0x11, 0x00, 0x00, 0x11, 0x0A, 0xC4, 0x40, 0xF0, 0x00,
    0x00, 0x00, 0x10, 0x2D, 0xFE, 0xAE, 0xBF, 0xCE, 0xAD, 0xFE, 0x13, 0x0B, 0xA1, 0xB4, 0x5A, 0xE5,
    0xAE, 0xC2, 0x02, 0x04, 0x00, 0x00, 0x28, 0x20, 0x00, 0x00, 0x00, 0x72, 0x65, 0x66, 0x65, 0x72,
    0x65, 0x6E, 0x63, 0x65, 0x20, 0x6C, 0x69, 0x62, 0x46, 0x4C, 0x41, 0x43, 0x20, 0x31, 0x2E, 0x34,
    0x2E, 0x32, 0x20, 0x32, 0x30, 0x32, 0x32, 0x31, 0x30, 0x32, 0x32, 0x00, 0x00, 0x00, 0x00, 0x83,
    0x00, 0x00, 0x12, 0x00, 0x00, 0x00, 0x00, 0x00, 0x00, 0x00, 0x00, 0x00, 0x00, 0x00, 0x00, 0x00,
    0x00, 0x00, 0x00, 0x00, 0x10, 0xFF, 0xF8, 0x69, 0x08, 0x00, 0x0F, 0x30, 0x14, 0x00, 0x00, 0x00,
    0x01, 0x00, 0x3F, 0xFF, 0xCB, 0x50,
];

/// A header packet that ends at this place.
fn header_at(end: usize) -> PacketAt
    ensures { result.end ≡ end }
{
    PacketAt {
        end,
        kind: PacketKind::Header,
    }
}

/// A frame that ends at this place, with this position.
fn frame_at(end: usize, position: u64) -> PacketAt
    ensures { result.end ≡ end }
{
    PacketAt {
        end,
        kind: PacketKind::Frame { end: position },
    }
}

#[test]
fn writes_the_packets_of_a_stream(rt: HostRuntime) -> Result<(), Fail> {
    let ends = [
        header_at(51),
        header_at(95),
        header_at(117),
        frame_at(134, 16),
    ];
    let found = all_written(rt.alloc(), 1, &STREAM_PACKETS, &ends)?;
    assert!(rt; found.as_slice() == STREAM.as_slice());
    Ok(())
}

/// Pages of packets of 51, 0 and 300 zeros.
const NO_BYTES: &str = "4f6767530002000000000000000009000000000000001659733f0133 00*51
4f6767530000010000000000000009000000010000007adff6680100
4f676753000407000000000000000900000002000000539d323602ff2d 00*300";

#[test]
fn writes_a_packet_of_no_bytes(rt: HostRuntime) -> Result<(), Fail> {
    let ends = [header_at(51), frame_at(51, 1), frame_at(351, 7)];
    let found = all_written(rt.alloc(), 9, &[0; 351], &ends)?;
    let wanted = bytes_of(rt.alloc(), NO_BYTES)?;
    assert!(rt; found.as_slice() == wanted.as_slice());
    Ok(())
}
