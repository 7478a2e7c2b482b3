//! Streams that are long, or never end.

use crate::program::{Outcome, TEST, answers, bytes_of, perform_on};
use flac_bits::{BitWriter, Collected, Counted, Target, Why};
use flac_pages::{Head, write_page};
use std::alloc::Global;
use std::io;
use std::io::Read;
use std::test::Fail;

/// The fixed fields of a page of stream 1, of which the writer makes the sum.
fn head(flags: u8, granule: u64, sequence: u32) -> Head {
    Head {
        flags,
        granule,
        serial: 1,
        sequence,
        sum: 0,
    }
}

/// 100000 pages of no segments.
fn write_empty_pages<W: Target>(writer: &mut BitWriter<W>) -> Result<(), Why> {
    for sequence in 2..100002 {
        write_page(head(0, u64::MAX, sequence), &[], &[], writer)?;
    }
    Ok(())
}

/// 100000 pages of no segments, and the page marked last, of one frame.
fn empty_pages(alloc: Global, frame: &[u8]) -> Result<Vec<u8>, Why> {
    let mut writer = BitWriter::new(Collected::new(alloc));
    write_empty_pages(&mut writer)?;
    write_page(head(4, 1, 100002), &[15], frame, &mut writer)?;
    writer.finish()?;
    Ok(writer.into_target().into_bytes())
}

/// A stream of many pages of no segments.
fn empty_stream(alloc: Global) -> Result<Vec<u8>, Fail> {
    let mut stream = bytes_of(alloc, "MAPPING COMMENT")?;
    let frame = bytes_of(alloc, "ONE_FRAME")?;
    stream.extend_from_slice(&empty_pages(alloc, &frame)?)?;
    Ok(stream)
}

#[test]
fn many_pages_without_segments(rt: HostRuntime) -> Result<(), Fail> {
    let stream = empty_stream(rt.alloc())?;
    assert!(rt; stream.len() == 79 + 40 + 2700000 + 43);
    answers(&rt, rt.alloc(), &stream, "frames 1 samples 1");
    Ok(())
}

/// Some bytes, one at a time, then 2^25 zeros; and how many bytes were taken of both.
#[derive(Drop)]
struct Zeros<'a> {
    front: &'a [u8],
    left: usize,
    taken: usize,
}

impl Read for Zeros<'_> {
    fn read(&mut self, buf: &mut [u8]) -> io::Result<usize> {
        if let Some((byte, rest)) = self.front.split_first() {
            let Some(place) = buf.first_mut() else {
                return Ok(0);
            };
            *place = *byte;
            self.front = rest;
            self.taken = self.taken.wrapping_add(1);
            return Ok(1);
        }
        let count = buf.len().min(self.left);
        buf.fill(0);
        self.left -= count;
        self.taken = self.taken.wrapping_add(count);
        Ok(count)
    }
}

/// What comes of testing these bytes.
fn perform_zeros(alloc: Global, zeros: &mut Zeros<'_>) -> Outcome {
    let mut source = Counted::new(zeros);
    let found = perform_on(alloc, &TEST, &mut source);
    let _device = source.into_inner();
    found
}

/// A quotient whose zeros do not end within the 16777215 bytes of a frame: the source is asked for one piece of 8192
/// bytes more at most.
#[test]
fn endless_quotient(rt: HostRuntime) -> Result<(), Fail> {
    let alloc = rt.alloc();
    let front = bytes_of(alloc, "MONO fff86908000f301000")?;
    let mut zeros = Zeros {
        front: &front,
        left: 33554432,
        taken: 0,
    };
    let found = perform_zeros(alloc, &mut zeros);
    assert!(rt; found.is(1, &[], "", "flac: a.flac: frame 0: 25 FrameTooLong\n"));
    assert!(rt; zeros.taken > 42 + 16777215, "{}", zeros.taken);
    assert!(rt; zeros.taken <= 42 + 16777215 + 8192, "{}", zeros.taken);
    Ok(())
}
