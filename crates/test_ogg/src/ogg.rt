//! Ogg streams that are written: pages whose sums were worked out apart from this project.

use flac_bits::Collected;
use flac_frame::Audio;
use flac_meta::{Block, BlockList, Bytes, Comments, Texts};
use flac_native::{EncodeFault, Plan};
use flac_ogg::{encode_and_decode, encode_ogg};
use std::alloc::Global;
use std::mem::drop;
use std::process::Abort;
use std::test::Fail;
use test_calls::sample;
use test_vectors::{ONE_SAMPLE_COMMENTED, PAGES, PAGES_OF_NO_SAMPLES, channels_of};

/// A block of no vendor and no comments, after this many paddings.
pub(crate) fn comments(alloc: Global, paddings: usize) -> Result<BlockList, Fail> {
    let mut blocks = Vec::new(alloc);
    for _ in 0..paddings {
        blocks.push(Block::Padding(0))?;
    }
    blocks.push(Block::VorbisComment(Comments {
        vendor: Bytes::from_vec(Vec::new(alloc)),
        list: Texts::from_vec(Vec::new(alloc)),
    }))?;
    Ok(BlockList::new(blocks)?)
}

/// Writes samples with that block after paddings, and seek points every n samples: the outcome, and the pages.
fn pages_of(
    alloc: Global,
    audio: &Audio,
    paddings: usize,
    every: u32,
) -> Result<(Result<(), EncodeFault>, Vec<u8>), Fail> {
    let plan = Plan::new_in(audio.profile(), 4096, audio, every)?;
    let list = comments(alloc, paddings)?;
    let mut target = Collected::new(alloc);
    let outcome = encode_ogg(alloc, 1, &plan, &list, audio, &mut target);
    drop(list);
    Ok((outcome, target.into_bytes()))
}

/// Writes samples with that block, and compares the pages.
fn writes(rt: &impl Abort, alloc: Global, audio: &Audio, wanted: &str) -> Result<(), Fail> {
    let (outcome, pages) = pages_of(alloc, audio, 0, 0)?;
    assert!(rt; outcome == Ok(()));
    let wanted = hex::decode(alloc, wanted)?;
    assert!(rt; pages.as_slice() == wanted.as_slice());
    Ok(())
}

#[test]
fn one_sample_in_pages(rt: HostRuntime) -> Result<(), Fail> {
    let audio = sample(rt.alloc())?;
    writes(&rt, rt.alloc(), &audio, PAGES)
}

#[test]
fn no_samples_in_pages(rt: HostRuntime) -> Result<(), Fail> {
    let audio = Audio::new(44100, 16, channels_of(rt.alloc(), ";;")?)?;
    writes(&rt, rt.alloc(), &audio, PAGES_OF_NO_SAMPLES)
}

/// Checks that nothing is written of a sample, after paddings and with seek points.
fn is_refused(rt: &impl Abort, alloc: Global, paddings: usize, every: u32) -> Result<(), Fail> {
    let audio = sample(alloc)?;
    let (outcome, pages) = pages_of(alloc, &audio, paddings, every)?;
    assert!(rt; outcome == Err(EncodeFault::BadMapping));
    assert!(rt; pages.len() == 0);
    Ok(())
}

/// A list that does not begin with a comment block is refused, and a plan that asks for a seek table; nothing is sent.
#[test]
fn no_stream_in_ogg(rt: HostRuntime) -> Result<(), Fail> {
    is_refused(&rt, rt.alloc(), 1, 0)?;
    is_refused(&rt, rt.alloc(), 0, 1)?;
    is_refused(&rt, rt.alloc(), 1, 1)
}

/// One sample with that block after paddings, encoded and decoded again in one call: in pages if there is a serial
/// number.
fn both_ways(
    alloc: Global,
    serial: Option<u32>,
    paddings: usize,
) -> Result<Result<Vec<u8>, EncodeFault>, Fail> {
    let audio = sample(alloc)?;
    let plan = Plan::new_in(audio.profile(), 4096, &audio, 0)?;
    let list = comments(alloc, paddings)?;
    let outcome = encode_and_decode(alloc, serial, &plan, &list, &audio);
    drop(list);
    Ok(outcome)
}

/// Whether this stream comes of it.
fn comes_back(alloc: Global, serial: Option<u32>, wanted: &str) -> Result<bool, Fail> {
    let found = both_ways(alloc, serial, 0)??;
    let wanted = hex::decode(alloc, wanted)?;
    Ok(found.as_slice() == wanted.as_slice())
}

/// The pages of an Ogg stream, and the native stream of the same blocks and frame.
#[test]
fn encoded_and_decoded(rt: HostRuntime) -> Result<(), Fail> {
    assert!(rt; comes_back(rt.alloc(), Some(1), PAGES)?);
    assert!(rt; comes_back(rt.alloc(), None, ONE_SAMPLE_COMMENTED)?);
    let refused = both_ways(rt.alloc(), Some(1), 1)?.err();
    assert!(rt; refused == Some(EncodeFault::BadMapping));
    Ok(())
}
