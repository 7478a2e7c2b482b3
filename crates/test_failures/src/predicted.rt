//! Writes that fail in turn, of streams by linear predictors and outside the streamable subset.

use crate::writes::{Trickle, Written, each_write_fails, is_front};
use flac_bits::{Counted, FailAt, Target};
use flac_encoder::{OggEncoder, StreamEncoder};
use flac_frame::Audio;
use flac_meta::BlockList;
use flac_native::{LinearPredictor, Plan, Profile};
use std::alloc::Global;
use std::mem::drop;
use std::process::Abort;
use std::test::Fail;
use test_calls::{no_comments, number_of, setup_number};
use test_vectors::{
    OUTSIDE, OUTSIDE_PAGES, WAVE_PREDICTED, WAVE_PREDICTED_PAGES, WAVE_SAMPLES, WAVES_PUSHED,
    WAVES_PUSHED_PAGES,
};

/// What was made, or the failure of the test if an allocation failed.
pub(crate) fn made<T>(found: Option<T>) -> Result<T, Fail> {
    match found {
        Some(found) => Ok(found),
        None => Err(Fail::new("out of memory")),
    }
}

/// A predictor of these samples: the one before with the other sign.
pub(crate) fn predictors(alloc: Global) -> Option<Vec<LinearPredictor>> {
    let predictor = LinearPredictor::new(1, 0, &[-1])?;
    vec![in alloc; predictor].ok()
}

/// These samples of one channel, of 16 bits at 44100 Hz.
pub(crate) fn wave(alloc: Global) -> Option<Audio> {
    let samples = WAVE_SAMPLES.to_vec(alloc).ok()?;
    let channels = vec![in alloc; samples].ok()?;
    Audio::new(44100, 16, channels).ok()
}

/// Sixteen zeros of 5 bits at 65537 Hz.
pub(crate) fn outside(alloc: Global) -> Option<Audio> {
    let samples = vec![in alloc; 0; 16].ok()?;
    let channels = vec![in alloc; samples].ok()?;
    Audio::new_in(Profile::Lax, 65537, 5, channels).ok()
}

/// Each byte of samples fails in turn: as a native stream, and in pages.
fn each_fails(
    rt: &impl Abort,
    alloc: Global,
    audio: &Audio,
    plan: &Plan,
    stream: &str,
    paged: &str,
) -> Result<(), Fail> {
    let (stream, paged) = (hex::decode(alloc, stream)?, hex::decode(alloc, paged)?);
    let (none, list) = (BlockList::new(Vec::new(alloc))?, no_comments(alloc)?);
    let native = Written {
        audio,
        plan,
        list: &none,
        ogg: false,
    };
    let pages = Written {
        audio,
        plan,
        list: &list,
        ogg: true,
    };
    each_write_fails(rt, alloc, &native, &stream);
    each_write_fails(rt, alloc, &pages, &paged);
    Ok(())
}

#[test]
fn writes_by_predictors_fail(rt: HostRuntime) -> Result<(), Fail> {
    let audio = made(wave(rt.alloc()))?;
    let list = made(predictors(rt.alloc()))?;
    let plan = Plan::new_in(audio.profile(), 16, &audio, 0)?.with_predictors(list)?;
    let (stream, paged) = (WAVE_PREDICTED, WAVE_PREDICTED_PAGES);
    each_fails(&rt, rt.alloc(), &audio, &plan, stream, paged)
}

#[test]
fn writes_outside_the_subset_fail(rt: HostRuntime) -> Result<(), Fail> {
    let audio = made(outside(rt.alloc()))?;
    let plan = Plan::new_in(audio.profile(), 16, &audio, 0)?;
    each_fails(&rt, rt.alloc(), &audio, &plan, OUTSIDE, OUTSIDE_PAGES)
}

// ---- block by block

/// An encoder of either container.
pub(crate) trait Encoder {
    /// Sets predictors, and returns the number of the fault for which they are refused, 0 if they are not.
    fn set(&mut self, list: Vec<LinearPredictor>) -> u8;

    /// Pushes the wave, and returns the number of the fault, 0 if there is none.
    fn send(&mut self) -> u8;

    /// Ends the stream, and returns the number of the fault, 0 if there is none.
    fn end(self) -> u8;
}

impl<W: Target + Drop> Encoder for StreamEncoder<W> {
    fn set(&mut self, list: Vec<LinearPredictor>) -> u8 {
        setup_number(self.set_predictors(list))
    }

    fn send(&mut self) -> u8 {
        number_of(self.push(&[WAVE_SAMPLES.as_slice()]))
    }

    fn end(self) -> u8 {
        match self.finish() {
            Ok(target) => {
                drop(target);
                0
            }
            Err(fault) => fault.number(),
        }
    }
}

impl<W: Target + Drop> Encoder for OggEncoder<W> {
    fn set(&mut self, list: Vec<LinearPredictor>) -> u8 {
        setup_number(self.set_predictors(list))
    }

    fn send(&mut self) -> u8 {
        number_of(self.push(&[WAVE_SAMPLES.as_slice()]))
    }

    fn end(self) -> u8 {
        match self.finish() {
            Ok(target) => {
                drop(target);
                0
            }
            Err(fault) => fault.number(),
        }
    }
}

/// What is returned by the making of an encoder, by each of five pushes, and by its end; 0 is no fault, and 255 that it
/// was not asked.
type Answers = [u8; 7];

/// The predictor, and none.
type Lists = [Vec<LinearPredictor>; 2];

/// Pushes the wave five times, the second to the fourth time with the predictor, and ends. Setting it does not ask the
/// target.
fn push_waves<E: Encoder>(encoder: E, lists: Lists) -> Answers {
    let mut encoder = encoder;
    let [one, none] = lists;
    let first = encoder.send();
    let set = encoder.set(one);
    let (second, third, fourth) = (encoder.send(), encoder.send(), encoder.send());
    let unset = encoder.set(none);
    let fifth = encoder.send();
    [
        set | unset,
        first,
        second,
        third,
        fourth,
        fifth,
        encoder.end(),
    ]
}

/// The same with an encoder that is made for it, in a container.
fn pushed<W: Target + Drop>(
    alloc: Global,
    ogg: bool,
    blocks: &BlockList,
    lists: Lists,
    target: W,
) -> Answers {
    if ogg {
        match OggEncoder::new(alloc, 1, 44100, 16, 1, 16, blocks, target) {
            Ok(encoder) => push_waves(encoder, lists),
            Err(fault) => [fault.number(), 255, 255, 255, 255, 255, 255],
        }
    } else {
        match StreamEncoder::new(alloc, 44100, 16, 1, 16, blocks, target) {
            Ok(encoder) => push_waves(encoder, lists),
            Err(fault) => [fault.number(), 255, 255, 255, 255, 255, 255],
        }
    }
}

/// The blocks of a stream, the stream, and where the bytes end that each call sends. Of pages the last is held back.
#[derive(Clone, Copy)]
struct Pushing<'a> {
    ogg: bool,
    blocks: &'a BlockList,
    wanted: &'a [u8],
    ends: [usize; 7],
}

impl Pushing<'_> {
    /// What the calls return if the byte of this number is not written.
    fn answers(&self, byte: usize) -> Answers {
        let later = if byte < self.ends[0] { 255 } else { 38 };
        let mut answers = [0; 7];
        let mut failed = false;
        for i in 0..7 {
            if failed {
                answers[i] = later;
            } else if byte < self.ends[i] {
                answers[i] = 39;
                failed = true;
            }
        }
        answers
    }
}

/// Pushes to a target that takes a byte at a time. The byte of this number is not written, if there are as many.
fn push_fails(rt: &impl Abort, alloc: Global, pushing: &Pushing<'_>, n: usize) -> Result<(), Fail> {
    let lists = [made(predictors(alloc))?, Vec::new(alloc)];
    let mut target = FailAt::new(Counted::new(Trickle::new(alloc)), n as u64);
    let answers = pushed(alloc, pushing.ogg, pushing.blocks, lists, &mut target);
    let bytes = target.into_inner().into_inner().into_bytes();
    let wanted = pushing.wanted;
    assert!(rt; answers == pushing.answers(n), "byte {n}");
    assert!(rt; is_front(&bytes, wanted, n.min(wanted.len())), "byte {n}");
    Ok(())
}

/// Each byte fails in turn. Then the encoder is spent.
fn each_push_fails(rt: &impl Abort, alloc: Global, pushing: &Pushing<'_>) -> Result<(), Fail> {
    for n in 0..pushing.wanted.len().saturating_add(1) {
        push_fails(rt, alloc, pushing, n)?;
    }
    Ok(())
}

#[test]
fn pushes_with_predictors_fail(rt: HostRuntime) -> Result<(), Fail> {
    let wanted = hex::decode(rt.alloc(), WAVES_PUSHED)?;
    let blocks = BlockList::new(Vec::new(rt.alloc()))?;
    let pushing = Pushing {
        ogg: false,
        blocks: &blocks,
        wanted: &wanted,
        ends: [42, 76, 92, 108, 124, 158, 158],
    };
    each_push_fails(&rt, rt.alloc(), &pushing)
}

#[test]
fn pushed_pages_with_predictors_fail(rt: HostRuntime) -> Result<(), Fail> {
    let wanted = hex::decode(rt.alloc(), WAVES_PUSHED_PAGES)?;
    let blocks = no_comments(rt.alloc())?;
    let pushing = Pushing {
        ogg: true,
        blocks: &blocks,
        wanted: &wanted,
        ends: [79, 119, 181, 225, 269, 313, 375],
    };
    each_push_fails(&rt, rt.alloc(), &pushing)
}
