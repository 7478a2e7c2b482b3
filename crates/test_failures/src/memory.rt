//! Encoding and decoding while an allocation fails: an encoder that returns `Memory` has sent nothing, and does its work
//! when it is called again; a decoder returns it at the marker or at a metadata block, and never after the last of these.
//! So each test here passes whichever one of its allocations fails; by hand, `rt try --test --fail-alloc N` makes the one
//! of number N fail, and `conformance/checks/allocations.py` has a program of its own that reads, in which each one does.

use crate::pieces::{Told, native_items};
use crate::predicted::{Encoder, made, outside, predictors, wave};
use crate::writes::{Written, write};
use flac_bits::{Counted, Target};
use flac_encoder::{OggEncoder, StreamEncoder};
use flac_frame::Audio;
use flac_meta::{Block, BlockList, Comments};
use flac_native::{EncodeFault, LinearPredictor, Place, Plan, Why};
use std::alloc::Global;
use std::io;
use std::io::Write;
use std::process::Abort;
use std::test::Fail;
use test_vectors::{
    OUTSIDE, OUTSIDE_PAGES, TEN_THOUSAND, WAVE_PREDICTED, WAVE_PREDICTED_PAGES, WAVES_PUSHED,
    WAVES_PUSHED_PAGES,
};

/// A writer that allocates nothing. It keeps the first 512 bytes.
#[derive(Drop)]
struct FixedBuffer {
    bytes: [u8; 512],
    len: usize,
}

impl FixedBuffer {
    /// A room without bytes.
    fn new() -> FixedBuffer {
        FixedBuffer {
            bytes: [0; 512],
            len: 0,
        }
    }

    /// Whether it took these bytes, and no more.
    fn has(&self, wanted: &[u8]) -> bool {
        self.len == wanted.len() && self.bytes.starts_with(wanted)
    }
}

impl Write for FixedBuffer {
    fn write(&mut self, bytes: &[u8]) -> io::Result<usize> {
        for byte in bytes {
            if self.len < 512 {
                self.bytes[self.len] = *byte;
            }
            self.len = self.len.saturating_add(1);
        }
        Ok(bytes.len())
    }

    fn flush(&mut self) -> io::Result<()> {
        Ok(())
    }
}

/// Bytes of hex digits, at the second try if an allocation fails at the first.
fn bytes_of(alloc: Global, digits: &str) -> Result<Vec<u8>, Fail> {
    match hex::decode(alloc, digits) {
        Ok(bytes) => Ok(bytes),
        Err(_) => Ok(hex::decode(alloc, digits)?),
    }
}

// ---- samples that are all there

/// Samples, a plan for them, and blocks.
#[derive(Drop)]
struct Given {
    audio: Audio,
    plan: Plan,
    blocks: BlockList,
}

/// Blocks of a stream, in a container: one of comments, or none.
fn blocks_of(alloc: Global, ogg: bool) -> Option<BlockList> {
    if !ogg {
        return BlockList::new(Vec::new(alloc)).ok();
    }
    let comments = Comments::new(alloc, b"").ok()?;
    let blocks = vec![in alloc; Block::VorbisComment(comments)].ok()?;
    BlockList::new(blocks).ok()
}

/// Samples outside the streamable subset, or a wave, and a predictor.
fn setup(alloc: Global, lax: bool, ogg: bool) -> Option<Given> {
    let audio = if lax { outside(alloc)? } else { wave(alloc)? };
    let predictors = predictors(alloc)?;
    let plan = Plan::new_in(audio.profile(), 16, &audio, 0).ok()?;
    let plan = plan.with_predictors(predictors).ok()?;
    let blocks = blocks_of(alloc, ogg)?;
    Some(Given {
        audio,
        plan,
        blocks,
    })
}

/// The same, at the second try if an allocation fails at the first.
fn setup_again(alloc: Global, lax: bool, ogg: bool) -> Result<Given, Fail> {
    match setup(alloc, lax, ogg) {
        Some(setup) => Ok(setup),
        None => made(setup(alloc, lax, ogg)),
    }
}

/// What encoding returns, and what it sends.
fn sent(alloc: Global, written: &Written<'_>) -> (Result<(), EncodeFault>, FixedBuffer) {
    let mut target = Counted::new(FixedBuffer::new());
    let outcome = write(alloc, written, &mut target);
    (outcome, target.into_inner())
}

/// Whether these bytes are sent, at the second try if the first returns `Memory`, which sends nothing.
fn is_sent(alloc: Global, written: &Written<'_>, wanted: &[u8]) -> bool {
    match sent(alloc, written) {
        (Ok(()), place) => place.has(wanted),
        (Err(EncodeFault::Memory), first) => {
            let (outcome, second) = sent(alloc, written);
            first.has(&[]) && outcome.is_ok() && second.has(wanted)
        }
        (Err(_), _) => false,
    }
}

/// Encodes samples outside the streamable subset, or a wave, and compares what is sent.
fn encodes(rt: &impl Abort, alloc: Global, lax: bool, ogg: bool, wanted: &str) -> Result<(), Fail> {
    let wanted = bytes_of(alloc, wanted)?;
    let Given {
        audio,
        plan,
        blocks,
    } = setup_again(alloc, lax, ogg)?;
    let written = Written {
        audio: &audio,
        plan: &plan,
        list: &blocks,
        ogg,
    };
    assert!(rt; is_sent(alloc, &written, &wanted));
    Ok(())
}

#[test]
fn encoding(rt: HostRuntime) -> Result<(), Fail> {
    encodes(&rt, rt.alloc(), false, false, WAVE_PREDICTED)
}

#[test]
fn encoding_in_ogg(rt: HostRuntime) -> Result<(), Fail> {
    encodes(&rt, rt.alloc(), false, true, WAVE_PREDICTED_PAGES)
}

#[test]
fn encoding_outside_the_subset(rt: HostRuntime) -> Result<(), Fail> {
    encodes(&rt, rt.alloc(), true, false, OUTSIDE)
}

#[test]
fn encoding_outside_the_subset_in_ogg(rt: HostRuntime) -> Result<(), Fail> {
    encodes(&rt, rt.alloc(), true, true, OUTSIDE_PAGES)
}

// ---- block by block

/// The predictor, at the second try if an allocation fails at the first.
fn predictors_again(alloc: Global) -> Result<Vec<LinearPredictor>, Fail> {
    match predictors(alloc) {
        Some(list) => Ok(list),
        None => made(predictors(alloc)),
    }
}

/// Pushes the wave, once more if the first try returns `Memory`.
fn send_again<E: Encoder>(encoder: &mut E) -> u8 {
    match encoder.send() {
        2 => encoder.send(),
        other => other,
    }
}

/// Pushes the wave five times, the second to the fourth time with the predictor. Returns 0 if nothing is refused.
fn push_waves<E: Encoder>(encoder: &mut E, alloc: Global, one: Vec<LinearPredictor>) -> u8 {
    let first = send_again(encoder) | encoder.set(one);
    let second = send_again(encoder) | send_again(encoder) | send_again(encoder);
    first | second | encoder.set(Vec::new(alloc)) | send_again(encoder)
}

/// Makes an encoder of a container, pushes, and ends. Returns the number of the fault for which something is refused, 0
/// if nothing is, and 2 only if the making is.
fn pushed<W: Target + Drop>(
    alloc: Global,
    ogg: bool,
    blocks: &BlockList,
    one: Vec<LinearPredictor>,
    target: W,
) -> u8 {
    if ogg {
        match OggEncoder::new(alloc, 1, 44100, 16, 1, 16, blocks, target) {
            Ok(encoder) => {
                let mut encoder = encoder;
                push_waves(&mut encoder, alloc, one) | encoder.end()
            }
            Err(fault) => fault.number(),
        }
    } else {
        match StreamEncoder::new(alloc, 44100, 16, 1, 16, blocks, target) {
            Ok(encoder) => {
                let mut encoder = encoder;
                push_waves(&mut encoder, alloc, one) | encoder.end()
            }
            Err(fault) => fault.number(),
        }
    }
}

/// What pushing returns, and what it sends.
fn tried(alloc: Global, ogg: bool, blocks: &BlockList) -> Result<(u8, FixedBuffer), Fail> {
    let one = predictors_again(alloc)?;
    let mut target = Counted::new(FixedBuffer::new());
    let number = pushed(alloc, ogg, blocks, one, &mut target);
    Ok((number, target.into_inner()))
}

/// Whether these bytes are pushed, at the second try if no encoder is made at the first, which sends nothing.
fn is_pushed(alloc: Global, ogg: bool, blocks: &BlockList, wanted: &[u8]) -> Result<bool, Fail> {
    let (number, place) = tried(alloc, ogg, blocks)?;
    if number != 2 {
        return Ok(number == 0 && place.has(wanted));
    }
    let (again, second) = tried(alloc, ogg, blocks)?;
    Ok(place.has(&[]) && again == 0 && second.has(wanted))
}

/// Those blocks, at the second try if an allocation fails at the first.
fn blocks_again(alloc: Global, ogg: bool) -> Result<BlockList, Fail> {
    match blocks_of(alloc, ogg) {
        Some(blocks) => Ok(blocks),
        None => made(blocks_of(alloc, ogg)),
    }
}

/// Pushes the wave, and compares what is sent.
fn pushes(rt: &impl Abort, alloc: Global, ogg: bool, wanted: &str) -> Result<(), Fail> {
    let wanted = bytes_of(alloc, wanted)?;
    let blocks = blocks_again(alloc, ogg)?;
    assert!(rt; is_pushed(alloc, ogg, &blocks, &wanted)?);
    Ok(())
}

#[test]
fn pushing(rt: HostRuntime) -> Result<(), Fail> {
    pushes(&rt, rt.alloc(), false, WAVES_PUSHED)
}

#[test]
fn pushing_in_ogg(rt: HostRuntime) -> Result<(), Fail> {
    pushes(&rt, rt.alloc(), true, WAVES_PUSHED_PAGES)
}

// ---- reading

/// Whether all of a stream of two blocks and three frames was read, or an allocation failed at the marker or at a block.
fn reads_or_fails_early(told: &Told) -> bool {
    let (blocks, frames) = told.0.counts();
    let Err(fault) = told.1 else {
        return blocks == 2 && frames == 3;
    };
    let place = match fault.at {
        Place::Marker => Some(0),
        Place::Block(index) => Some(index),
        _ => None,
    };
    fault.why == Why::Memory && place == Some(u64::from(blocks)) && frames == 0
}

/// 10000 samples in three frames, after STREAMINFO and a seek table: no allocation fails after these.
#[test]
fn decoding_item_by_item(rt: HostRuntime) -> Result<(), Fail> {
    let stream = bytes_of(rt.alloc(), TEN_THOUSAND)?;
    for most in [1, 4096] {
        let told = native_items(rt.alloc(), &stream, most);
        assert!(rt; reads_or_fails_early(&told));
    }
    Ok(())
}
