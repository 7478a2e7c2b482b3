//! Streams that come in pieces: however a source cuts its bytes, a sink and a decoder get the same items and the same
//! end.

ghost use Rattle.std.specs.Prelude.{⊤, [], true};

use flac_bits::{Memory, Pieces};
use flac_native::{
    Block, Container, Decoder, Fault, FrameView, Item, Profile, Sink, SinkFault, decode,
};
use flac_ogg::{decode_ogg, ogg_decoder};
use std::alloc::Global;
use std::mem::drop;
use std::process::Abort;
use std::test::Fail;
use test_vectors::{
    ALTERNATING, CUT_COMMENTS, EQUAL_8, EQUAL_24, EQUAL_32, EVERY_BLOCK, EXAMPLE, EXAMPLE_INFO,
    EXAMPLE_TAGGED, LEFT_SIDE, NO_SAMPLES, ONE_SAMPLE, ONE_SAMPLE_COMMENTED, PAGES,
    PAGES_OF_NO_SAMPLES, RISING, RISING_ALONE, SILENT, SILENT_ALONE, TEN_THOUSAND, TWO_INFOS,
};

/// How many blocks and frames there are, and a sum of all samples in their order.
#[derive(Clone, Copy, PartialEq, Eq)]
pub(crate) struct Tally {
    blocks: u32,
    frames: u32,
    sum: u32,
}

/// No items.
const NOTHING: Tally = Tally {
    blocks: 0,
    frames: 0,
    sum: 0,
};

/// A sum with the samples of one channel.
pub(crate) fn sum_of(before: u32, samples: &[i32]) -> u32 {
    let mut sum = before;
    for sample in samples {
        sum = sum
            .wrapping_mul(31)
            .wrapping_add(sample.unsigned_abs())
            .wrapping_add(sample.is_negative() as u32);
    }
    sum
}

impl Tally {
    /// How many blocks and frames there are.
    pub(crate) fn counts(&self) -> (u32, u32) {
        (self.blocks, self.frames)
    }

    /// One block more.
    fn note_block(&mut self) {
        self.blocks = self.blocks.saturating_add(1);
    }

    /// One frame more.
    fn note(&mut self, frame: &FrameView<'_>) {
        self.frames = self.frames.saturating_add(1);
        for i in 0..8 {
            if i < frame.channels() {
                self.sum = sum_of(self.sum, frame.channel(i));
            }
        }
    }
}

impl Sink for Tally {
    ghost takes = { λ old item new. ⊤ };

    ghost known = { λ _. true };

    ghost errors = { λ _. 0 };

    ghost names = { λ _. [] };

    fn block(&mut self, _block: &Block) -> Result<(), SinkFault> {
        self.note_block();
        Ok(())
    }

    fn frame(&mut self, frame: &FrameView<'_>) -> Result<(), SinkFault> {
        self.note(frame);
        Ok(())
    }
}

/// What a stream comes to: its items, and its end.
pub(crate) type Told = (Tally, Result<(), Fault>);

/// Notes what a decoder gives, up to the end.
fn note_all<C: Container>(decoder: &mut Decoder<C>, tally: &mut Tally) -> Result<(), Fault> {
    for _ in 0..u64::MAX {
        match decoder.next()? {
            Item::Block(_) => tally.note_block(),
            Item::Frame(frame) => tally.note(&frame),
            Item::End => return Ok(()),
        }
    }
    Ok(())
}

/// What a native stream comes to, item by item.
pub(crate) fn native_items(alloc: Global, stream: &[u8], most: usize) -> Told {
    let source = Pieces::new(Memory::new(stream), most.max(1));
    let mut decoder = Decoder::new(alloc, source, Profile::Subset);
    let mut tally = NOTHING;
    let end = note_all(&mut decoder, &mut tally);
    drop(decoder);
    (tally, end)
}

/// What an Ogg stream comes to, item by item.
pub(crate) fn ogg_items(alloc: Global, stream: &[u8], most: usize) -> Told {
    let source = Pieces::new(Memory::new(stream), most.max(1));
    match ogg_decoder(alloc, source, Profile::Subset) {
        Ok(mut decoder) => {
            let mut tally = NOTHING;
            let end = note_all(&mut decoder, &mut tally);
            drop(decoder);
            (tally, end)
        }
        Err(fault) => (NOTHING, Err(fault)),
    }
}

/// What a stream comes to, by a sink.
pub(crate) fn sunk(alloc: Global, stream: &[u8], ogg: bool, most: usize) -> Told {
    let mut source = Pieces::new(Memory::new(stream), most.max(1));
    let mut tally = NOTHING;
    let end = if ogg {
        decode_ogg(alloc, &mut source, Profile::Subset, &mut tally)
    } else {
        decode(alloc, &mut source, Profile::Subset, &mut tally)
    };
    (tally, end)
}

/// Whether a stream comes to the same in pieces of 1, 2, 3 and 4096 bytes, by a sink and by a decoder.
fn is_same(alloc: Global, stream: &[u8], ogg: bool, wanted: &Told) -> bool {
    let mut same = true;
    for most in [1, 2, 3, 4096] {
        let items = if ogg {
            ogg_items(alloc, stream, most)
        } else {
            native_items(alloc, stream, most)
        };
        same = same && items == *wanted && sunk(alloc, stream, ogg, most) == *wanted;
    }
    same
}

/// Reads some bytes in pieces: they are accepted or not, and come to the same however they are cut.
fn reads_bytes(rt: &impl Abort, alloc: Global, bytes: &[u8], ogg: bool, good: bool) {
    let wanted = sunk(alloc, bytes, ogg, usize::MAX);
    assert!(rt; wanted.1.is_ok() == good, "{} bytes", bytes.len());
    assert!(rt;
        is_same(alloc, bytes, ogg, &wanted),
        "{} bytes",
        bytes.len()
    );
}

/// Reads a stream, its front without the last byte, and the stream with a byte more.
fn reads(rt: &impl Abort, alloc: Global, stream: &str, ogg: bool, good: bool) -> Result<(), Fail> {
    let mut bytes = hex::decode(alloc, stream)?;
    let whole = bytes.len();
    bytes.push(0)?;
    for length in [whole, whole.saturating_sub(1), whole.saturating_add(1)] {
        let front = bytes.get(..length).unwrap_or(&[]);
        reads_bytes(rt, alloc, front, ogg, good && length == whole);
    }
    Ok(())
}

/// Native streams that are accepted.
const ACCEPTED: [&str; 16] = [
    EXAMPLE,
    ONE_SAMPLE,
    NO_SAMPLES,
    RISING,
    SILENT,
    EQUAL_8,
    EQUAL_24,
    EQUAL_32,
    ONE_SAMPLE_COMMENTED,
    EXAMPLE_TAGGED,
    TEN_THOUSAND,
    RISING_ALONE,
    SILENT_ALONE,
    ALTERNATING,
    LEFT_SIDE,
    EVERY_BLOCK,
];

#[test]
fn native_streams_in_pieces(rt: HostRuntime) -> Result<(), Fail> {
    for stream in ACCEPTED.iter() {
        reads(&rt, rt.alloc(), *stream, false, true)?;
    }
    Ok(())
}

#[test]
fn refused_streams_in_pieces(rt: HostRuntime) -> Result<(), Fail> {
    for stream in [EXAMPLE_INFO, TWO_INFOS, CUT_COMMENTS] {
        reads(&rt, rt.alloc(), stream, false, false)?;
    }
    Ok(())
}

#[test]
fn pages_in_pieces(rt: HostRuntime) -> Result<(), Fail> {
    for stream in [PAGES, PAGES_OF_NO_SAMPLES] {
        reads(&rt, rt.alloc(), stream, true, true)?;
    }
    Ok(())
}
