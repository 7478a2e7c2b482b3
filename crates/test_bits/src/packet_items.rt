//! Packets of known lengths: one that goes on after what is read of it, that ends before, that is broken off, or that
//! the last page leaves open.

use crate::packets::{PACKETS, STREAM, WHOLE_SEGMENTS};
use flac_bits::{BitWriter, Collected, Memory, Source, Why};
use flac_pages::{Head, Pages, read_packet, write_page};
use std::alloc::Global;
use std::process::Abort;
use std::test::Fail;
use test_vectors::bytes_of;

/// Whether a packet of a length is read, and not the end; or why not, and on which page.
type Outcome = Result<bool, (Option<u64>, Why)>;

/// How many packets had these lengths, and what came after them.
type Answer = (usize, Outcome);

/// Reads the next packet, which is to have as many bytes as there are places.
fn read_next<R: Source>(pages: &mut Pages<R>, room: &mut [u8]) -> Outcome {
    if !pages.is_between_packets() {
        return Err((None, Why::Spent));
    }
    match pages.next_packet() {
        Ok(true) => read_packet(pages, room).and(Ok(true)),
        Ok(false) => Ok(false),
        Err((page, why)) => Err((Some(page), why)),
    }
}

/// Reads the next packet, which is to have this length, at most 400.
fn read_length<R: Source>(pages: &mut Pages<R>, length: usize) -> Outcome {
    let mut room = [0u8; 400];
    read_next(pages, &mut room[..length.min(400)])
}

/// Reads packets of these lengths, one after another, up to the end or to one that has another length.
fn read_all<R: Source + Drop>(alloc: Global, source: R, lengths: &[usize]) -> Result<Answer, Why> {
    let mut pages = Pages::new(alloc, source)?;
    let mut count = 0usize;
    let mut outcome = Ok(true);
    for length in lengths {
        if outcome == Ok(true) {
            outcome = read_length(&mut pages, *length);
            count = count.wrapping_add(usize::from(outcome == Ok(true)));
        }
    }
    Ok((count, outcome))
}

/// All packets of the stream and its end; a packet of other lengths than its own; and the last one without its last
/// byte.
#[test]
fn lengths(rt: HostRuntime) -> Result<(), Fail> {
    let wrong = Err((None, Why::PacketLength));
    let rows = [
        (246, [51, 44, 22, 17, 5], (4, Ok(false))),
        (246, [51, 43, 22, 17, 5], (1, wrong)),
        (246, [51, 44, 23, 17, 5], (2, wrong)),
        (
            245,
            [51, 44, 22, 17, 5],
            (3, Err((Some(3), Why::Truncated))),
        ),
    ];
    for (end, lengths, wanted) in rows {
        let source = Memory::new(STREAM.get(..end).unwrap_or(&[]));
        let found = read_all(rt.alloc(), source, &lengths)?;
        assert!(rt; found == wanted, "{found:?}");
    }
    Ok(())
}

/// The fixed fields of a page, of which the writer makes the sum.
fn head(flags: u8, sequence: u32) -> Head {
    Head {
        flags,
        granule: 0,
        serial: 1,
        sequence,
        sum: 0,
    }
}

/// A packet of 51 bytes, and one that goes on after its page, which is marked so.
fn open_packet(alloc: Global, flags: u8) -> Result<Answer, Why> {
    let mut writer = BitWriter::new(Collected::new(alloc));
    write_page(head(2, 0), &[51], &[7; 51], &mut writer)?;
    write_page(head(flags, 1), &[255], &[9; 255], &mut writer)?;
    writer.finish()?;
    let target = writer.into_target();
    read_all(alloc, Memory::new(target.bytes()), &[51, 255])
}

#[test]
fn open_ends(rt: HostRuntime) -> Result<(), Fail> {
    let marked_last = open_packet(rt.alloc(), 4)?;
    assert!(rt; marked_last == (1, Err((None, Why::PacketLength))));
    let not_marked = open_packet(rt.alloc(), 0)?;
    assert!(rt; not_marked == (1, Err((Some(2), Why::NoEndPage))));
    Ok(())
}

/// The first page of `STREAM`, and pages of packets of whole segments.
fn whole_stream(alloc: Global) -> Result<Vec<u8>, Fail> {
    let mut stream = Vec::from_slice(alloc, &STREAM[..79])?;
    stream.extend_from_slice(&bytes_of(alloc, WHOLE_SEGMENTS)?)?;
    Ok(stream)
}

/// Whether the next packet is these bytes, for which there is as much room.
fn comes_next<R: Source>(pages: &mut Pages<R>, room: &mut [u8], wanted: &[u8]) -> bool {
    read_next(pages, room) == Ok(true) && &*room == wanted
}

/// Whether the next packet is this byte, so often.
fn repeats<R: Source>(
    alloc: Global,
    pages: &mut Pages<R>,
    byte: u8,
    length: usize,
) -> Result<bool, Fail> {
    let mut room = vec![in alloc; 0u8; length]?;
    let wanted = vec![in alloc; byte; length]?;
    Ok(comes_next(pages, &mut room, &wanted))
}

/// How many packets of whole segments come next, each to its last byte.
fn count_whole<R: Source>(alloc: Global, pages: &mut Pages<R>) -> Result<u32, Fail> {
    let mut count = 0u32;
    for (byte, length) in PACKETS {
        if repeats(alloc, pages, byte, length)? {
            count = count.wrapping_add(1);
        }
    }
    Ok(count)
}

/// Reads a first packet, packets of whole segments, and the end after them.
fn read_whole_segments<R: Source>(
    rt: &impl Abort,
    alloc: Global,
    pages: &mut Pages<R>,
) -> Result<(), Fail> {
    assert!(rt; read_length(pages, 51) == Ok(true));
    assert!(rt; count_whole(alloc, pages)? == 3);
    assert!(rt; read_next(pages, &mut []) == Ok(false));
    Ok(())
}

/// Packets of whole segments are read back.
#[test]
fn whole_segments(rt: HostRuntime) -> Result<(), Fail> {
    let stream = whole_stream(rt.alloc())?;
    let mut pages = Pages::new(rt.alloc(), Memory::new(&stream))?;
    read_whole_segments(&rt, rt.alloc(), &mut pages)
}
