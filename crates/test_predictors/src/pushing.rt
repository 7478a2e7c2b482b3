//! Blocks that are pushed to encoders that search for linear predictors.

use crate::finding::resonance;
use flac_bits::{BitWriter, Collected};
use flac_encoder::{BlockEncoder, OggEncoder, Search, StreamEncoder, StreamFormat, found_shorten};
use flac_frame::{Audio, EncodeBuffers, PlanePredictors, encode_frame_by_plane, greatest_order};
use flac_meta::{BlockList, Comments};
use flac_native::{EncodeFault, Profile};
use flac_predict::Finder;
use std::alloc::Global;
use std::mem::drop;
use std::test::Fail;

/// Blocks of at most 1024 samples of one channel of 16 bits.
fn format() -> StreamFormat {
    StreamFormat {
        profile: Profile::Subset,
        rate: 44100,
        bits: 16,
        channels: 1,
        block_size: 1024,
    }
}

/// The frame of a block under a search; each call is made once more if an allocation fails, after which the encoder is as
/// it was.
fn frame(
    encoder: &mut BlockEncoder,
    search: Option<Search>,
    block: &[&[i32]],
) -> Result<Vec<u8>, EncodeFault> {
    if encoder.set_search(search).is_err() {
        encoder.set_search(search)?;
    }
    match encoder.encode(block) {
        Err(EncodeFault::Memory) => encoder.encode(block),
        other => other,
    }
}

/// The frames of a block without a search, with each, and without one again.
fn frames(
    alloc: Global,
    encoder: &mut BlockEncoder,
    block: &[&[i32]],
) -> Result<Vec<Vec<u8>>, Fail> {
    let mut frames = Vec::new(alloc);
    for search in [None, Some(Search::Quick), Some(Search::Full), None] {
        frames.push(frame(encoder, search, block)?)?;
    }
    Ok(frames)
}

/// Each sample of a resonance follows from the two before by factors that no fixed predictor has, so that a predictor
/// that is found makes the frame shorter; the encoder does again what it did when the search is over.
#[test]
fn searches_if_asked(rt: HostRuntime) -> Result<(), Fail> {
    let samples = resonance(rt.alloc(), 1024, 900)?;
    let mut encoder = BlockEncoder::new(rt.alloc(), &format())?;
    let frames = frames(rt.alloc(), &mut encoder, &[samples.as_slice()]);
    drop(encoder);
    let frames = frames?;
    assert!(rt; frames.len() == 4);
    if frames.len() == 4 {
        assert!(rt; frames[1].len() < frames[0].len());
        assert!(rt; frames[2].len() <= frames[1].len());
        assert!(rt; frames[3].as_slice() == frames[0].as_slice());
    }
    // A law: nothing happens.
    found_shorten();
    Ok(())
}

/// A block as frame 0, over the predictors that a finder finds for it.
fn by_finder(alloc: Global, samples: &[i32], search: Search) -> Result<Vec<u8>, Fail> {
    let mut channels = Vec::new(alloc);
    channels.push(Vec::from_slice(alloc, samples)?)?;
    let audio = Audio::new(44100, 16, channels)?;
    let mut writer = BitWriter::new(Collected::new(alloc));
    let mut finder = Finder::new(alloc, 1024)?;
    let mut buffers = EncodeBuffers::new_in(alloc, Profile::Subset, 1024)?;
    let limit = greatest_order(audio.profile(), audio.rate());
    let end = audio.len();
    if end >= 1 && end <= 1024 {
        let lists = finder.find(alloc, &audio, 0..end, &[], search)?;
        let planes = PlanePredictors {
            lists: &lists,
            others: &[],
        };
        if planes.are_within(limit) {
            encode_frame_by_plane(&audio, 0..end, 0, &planes, &mut buffers, &mut writer)?;
        }
    }
    Ok(writer.into_bytes()?)
}

/// What is pushed to an encoder of native streams that searches.
fn native(alloc: Global, samples: &[i32], search: Search) -> Result<Vec<u8>, Fail> {
    let list = BlockList::new(Vec::new(alloc))?;
    let mut encoder = StreamEncoder::new_in(alloc, &format(), &list, Collected::new(alloc))?;
    encoder.set_search(Some(search))?;
    encoder.push(&[samples])?;
    Ok(encoder.finish()?.into_bytes())
}

/// The same of Ogg streams.
fn paged(alloc: Global, samples: &[i32], search: Search) -> Result<Vec<u8>, Fail> {
    let list = BlockList::of_comments(alloc, Comments::new(alloc, b"")?)?;
    let mut encoder = OggEncoder::new_in(alloc, 1, &format(), &list, Collected::new(alloc))?;
    encoder.set_search(Some(search))?;
    encoder.push(&[samples])?;
    Ok(encoder.finish()?.into_bytes())
}

/// The frames that are pushed are those over the predictors that a finder finds.
#[test]
fn pushes_as_found(rt: HostRuntime) -> Result<(), Fail> {
    let alloc = rt.alloc();
    let samples = resonance(alloc, 1024, 900)?;
    for search in [Search::Quick, Search::Full] {
        let wanted = by_finder(alloc, &samples, search)?;
        assert!(rt; wanted.len() > 10);
        assert!(rt; native(alloc, &samples, search)?.ends_with(&wanted));
        assert!(rt; paged(alloc, &samples, search)?.ends_with(&wanted));
    }
    Ok(())
}
