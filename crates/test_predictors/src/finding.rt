//! What is found for blocks of samples.

ghost use Rattle.std.specs.Prelude.{◌≡◌, ◌≤◌, ◌<◌};

use flac_frame::{Audio, greatest_order};
use flac_predict::{Finder, Search, found_in, more_predictors_shorten};
use flac_subframe::LinearPredictor;
use std::alloc::Global;
use std::test::Fail;

/// A resonance of 16 bits: each sample is 1.5 times the last one less 0.9 of the one before, and starts anew when it has
/// died away.
pub(crate) fn resonance(alloc: Global, len: usize, push: i32) -> Result<Vec<i32>, Fail> {
    let mut samples = Vec::new(alloc);
    let mut last: i32 = 0;
    let mut before: i32 = 0;
    for _ in 0..len {
        let start = if last.unsigned_abs() < 50 { push } else { 0 };
        let grown = (last.saturating_mul(3) / 2).saturating_sub(before.saturating_mul(9) / 10);
        before = last;
        last = grown.saturating_add(start).max(-32768).min(32767);
        samples.push(last)?;
    }
    Ok(samples)
}

/// Samples of 16 bits, `len` of each channel, which differ. The first is silence if `push` is 0.
fn audio(alloc: Global, channels: i32, len: usize, push: i32) -> Result<Option<Audio>, Fail> {
    let mut lists = Vec::new(alloc);
    for channel in 0..channels {
        lists.push(resonance(alloc, len, push.saturating_add(channel))?)?;
    }
    Ok(Audio::new(44100, 16, lists).ok())
}

/// How many predictors the list of each plane has beside the given ones, 1000 for one that does not begin with these.
fn counts_of(
    alloc: Global,
    lists: &[Vec<LinearPredictor>],
    given: &[LinearPredictor],
) -> Result<Vec<usize>, Fail> {
    let mut counts = Vec::new(alloc);
    for list in lists {
        let begins = list.len() >= given.len() && &list.as_slice()[..given.len()] == given;
        counts.push(if begins {
            list.len() - given.len()
        } else {
            1000
        })?;
    }
    Ok(counts)
}

/// The counts of each block in turn.
fn counts(
    alloc: Global,
    audio: &Audio,
    block_size: usize,
    given: &[LinearPredictor],
    search: Search,
) -> Result<Vec<Vec<usize>>, Fail> {
    let mut counts = Vec::new(alloc);
    let limit = greatest_order(audio.profile(), audio.rate());
    if block_size < 1 || block_size > 65535 || !LinearPredictor::are_within(given, limit) {
        return Ok(counts);
    }
    let frames = found_in(alloc, audio, block_size, given, search)?;
    for lists in frames.as_slice() {
        counts.push(counts_of(alloc, lists.as_slice(), given)?)?;
    }
    Ok(counts)
}

/// Whether the planes of each block but the last have as many predictors as this. The last block has 52 samples, which
/// are not searched, and no lists.
fn are_found(alloc: Global, audio: &Audio, search: Search, due: &[usize]) -> Result<bool, Fail> {
    let counts = counts(alloc, audio, 1024, &[], search)?;
    let mut blocks = counts.len() == 3;
    for number in 0..counts.len() {
        let each = if number < 2 { due } else { &[] };
        blocks &= counts[number].as_slice() == each;
    }
    Ok(blocks)
}

/// Whether this is so of channels that differ.
fn are_found_of(
    alloc: Global,
    channels: i32,
    push: i32,
    search: Search,
    due: &[usize],
) -> Result<bool, Fail> {
    match audio(alloc, channels, 2100, push)? {
        Some(audio) => are_found(alloc, &audio, search, due),
        None => Ok(false),
    }
}

/// Whether this is so of two channels that are the same.
fn are_found_twice(alloc: Global, search: Search, due: &[usize]) -> Result<bool, Fail> {
    let mut lists = Vec::new(alloc);
    for _ in 0..2 {
        lists.push(resonance(alloc, 2100, 900)?)?;
    }
    match Audio::new(44100, 16, lists) {
        Ok(audio) => are_found(alloc, &audio, search, due),
        Err(_) => Ok(false),
    }
}

#[test]
fn finds_predictors(rt: HostRuntime) -> Result<(), Fail> {
    let alloc = rt.alloc();
    assert!(rt; are_found_of(alloc, 1, 900, Search::Quick, &[1])?);
    assert!(rt; are_found_of(alloc, 1, 900, Search::Full, &[3])?);
    assert!(rt; are_found_of(alloc, 2, 900, Search::Quick, &[1, 1, 1, 1])?);
    assert!(rt; are_found_of(alloc, 2, 900, Search::Full, &[3, 3, 3, 3])?);
    assert!(rt; are_found_of(alloc, 3, 900, Search::Quick, &[1, 1, 1])?);
    assert!(rt; are_found_of(alloc, 1, 0, Search::Full, &[0])?);
    Ok(())
}

#[test]
fn finds_predictors_of_planes(rt: HostRuntime) -> Result<(), Fail> {
    let alloc = rt.alloc();
    // The side of channels that are the same is silence.
    assert!(rt; are_found_twice(alloc, Search::Quick, &[1, 1, 0, 1])?);
    assert!(rt; are_found_twice(alloc, Search::Full, &[3, 3, 0, 3])?);
    Ok(())
}

/// A list of one predictor, the line through the last two samples.
fn line(alloc: Global) -> Result<Vec<LinearPredictor>, Fail> {
    let mut given = Vec::new(alloc);
    if let Some(predictor) = LinearPredictor::new(3, 0, &[2, -1]) {
        given.push(predictor)?;
    }
    Ok(given)
}

#[test]
fn keeps_those_given(rt: HostRuntime) -> Result<(), Fail> {
    let alloc = rt.alloc();
    let given = line(alloc)?;
    assert!(rt; given.len() == 1);
    let Some(audio) = audio(alloc, 1, 200, 900)? else {
        assert!(rt; false);
        return Ok(());
    };
    let counts = counts(alloc, &audio, 150, given.as_slice(), Search::Full)?;
    assert!(rt; counts.len() == 2);
    if counts.len() == 2 {
        assert!(rt; counts[0].as_slice() == [3].as_slice());
        assert!(rt; counts[1].len() == 0);
    }
    Ok(())
}

#[test]
fn finds_block_by_block(rt: HostRuntime) -> Result<(), Fail> {
    let alloc = rt.alloc();
    let given = line(alloc)?;
    let Some(audio) = audio(alloc, 1, 300, 900)? else {
        assert!(rt; false);
        return Ok(());
    };
    let mut finder = Finder::new(alloc, 200)?;
    if audio.len() >= 300 {
        let whole = finder.find(alloc, &audio, 100..300, &given, Search::Quick)?;
        assert!(rt; counts_of(alloc, &whole, &given)?.as_slice() == [1].as_slice());
        let shortest = finder.find(alloc, &audio, 0..64, &given, Search::Full)?;
        assert!(rt; counts_of(alloc, &shortest, &given)?.as_slice() == [3].as_slice());
        let short = finder.find(alloc, &audio, 0..63, &given, Search::Quick)?;
        assert!(rt; short.len() == 0);
    }
    // A law: nothing happens.
    more_predictors_shorten();
    Ok(())
}
