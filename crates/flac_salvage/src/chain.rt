//! The best chain of frames among those that were found.

ghost use Rattle.std.specs.Prelude.{◌≡◌, ◌≤◌, ◌<◌, ◌+◌, ℕ, length, drop, IfOk, IfSome, true, Ok, None, max, ◌&&◌, nat_eq};
ghost use Rattle.flac_salvage.specs.Chain.{IsBest, chain, fits, samples_of, end_of};
ghost use Rattle.flac_salvage.specs.inner.Values.{most_with, AreMost};

use crate::find::WholeFrame;
use std::alloc::{AllocError, Global};

/// The most frames among which a chain is sought if their samples do not all rise.
pub const MOST_UNORDERED: usize = 524288;

/// Whether a frame may come next in a chain: it does not begin before the sample `from`, and ends within the limit.
fn fits(frame: &WholeFrame, limit: u64, from: u64) -> bool
    ensures { result ≡ fits limit from frame.now }
{
    let size = frame.size as u64;
    frame.first >= from && size <= limit && frame.first <= limit - size
}

/// Whether the samples of all frames rise.
fn all_rise(frames: &[WholeFrame], limit: u64) -> bool
    ensures { result ≡ true → chain limit 0 frames.now ≡ frames.now }
{
    let mut from = 0;
    for frame in frames {
        if !fits(frame, limit, from) {
            return false;
        }
        from = frame.first + frame.size as u64;
    }
    true
}

/// The most samples of chains.
#[derive(Clone, Copy)]
struct Most {
    /// Of those that begin with a frame; 0 if none does.
    first: u64,
    /// Of all chains of this frame and those after it.
    any: u64,
}

/// The greater of two numbers of samples.
fn greater(first: u64, second: u64) -> u64
    ensures { result ≡ max first second }
{
    if first < second { second } else { first }
}

/// The greater of a number and the most samples of a chain that begins with a frame, if that may begin so late.
fn raised(top: u64, frame: &WholeFrame, from: u64, first: u64) -> u64
    ensures may { from ≤ frame.now.first → result ≡ max top first }
    ensures not { frame.now.first < from → result ≡ top }
{
    if frame.first >= from {
        greater(top, first)
    } else {
        top
    }
}

/// The most samples of a chain of the frames from `begin` on that begins at the sample `from` or later.
fn most_after(frames: &[WholeFrame], most: &[Most], begin: usize, from: u64, limit: u64) -> u64
    requires same { length most.now ≡ length frames.now }
    requires known { AreMost limit frames.now begin most.now }
    requires within { begin ≤ length frames.now }
    ensures { result ≡ samples_of (chain limit from (drop begin frames.now)) }
{
    let mut top = 0;
    for j in begin..frames.len() {
        if most[j].any <= top {
            return top;
        }
        top = raised(top, &frames[j], from, most[j].first);
    }
    top
}

/// The most samples of a chain that begins with the frame at an index.
fn most_with(frames: &[WholeFrame], most: &[Most], index: usize, limit: u64) -> u64
    requires same { length most.now ≡ length frames.now }
    requires known { AreMost limit frames.now (index + 1) most.now }
    requires within { index < length frames.now }
    ensures { result ≡ most_with limit (drop index frames.now) }
{
    let frame = frames[index];
    if !fits(&frame, limit, 0) {
        return 0;
    }
    let size = frame.size as u64;
    size + most_after(frames, most, index + 1, frame.first + size, limit)
}

/// Finds the most samples of the chains that begin with each frame.
fn fill(frames: &[WholeFrame], limit: u64, most: &mut [Most])
    requires { length most.old ≡ length frames.now }
    ensures { AreMost limit frames.now 0 most.new }
{
    let mut index = frames.len();
    let mut any = 0;
    'back: while index > 0 {
        index -= 1;
        let first = most_with(frames, most, index, limit);
        any = greater(any, first);
        most[index] = Most { first, any };
    }
}

/// Whether a frame is the next of the chain, of which so many samples are left.
fn is_next(frame: &WholeFrame, limit: u64, from: u64, first: u64, left: u64) -> bool
    ensures { result ≡ (fits limit from frame.now && nat_eq first left) }
{
    fits(frame, limit, from) && first == left
}

/// Takes the frames of the chain.
fn choose(
    alloc: Global,
    frames: &[WholeFrame],
    limit: u64,
    most: &[Most],
) -> Result<Vec<WholeFrame>, AllocError>
    requires same { length most.now ≡ length frames.now }
    requires known { AreMost limit frames.now 0 most.now }
    ensures { IfOk result (λ kept. kept.items ≡ chain limit 0 frames.now) }
{
    let mut kept = Vec::new(alloc);
    let mut from = 0;
    let mut left = most_after(frames, most, 0, 0, limit);
    for index in 0..frames.len() {
        let frame = frames[index];
        if is_next(&frame, limit, from, most[index].first, left) {
            kept.push(frame)?;
            let size = frame.size as u64;
            from = frame.first + size;
            left -= size;
        }
    }
    Ok(kept)
}

/// The frames of the chain, by the most samples of those that begin with each frame.
fn chosen(alloc: Global, frames: &[WholeFrame], limit: u64) -> Result<Vec<WholeFrame>, AllocError>
    ensures { IfOk result (λ kept. kept.items ≡ chain limit 0 frames.now) }
{
    let mut most = Vec::new(alloc);
    most.resize(frames.len(), Most { first: 0, any: 0 })?;
    fill(frames, limit, &mut most);
    choose(alloc, frames, limit, &most)
}

/// Chooses the best chain of the frames that were found, in the order of the bytes: frames whose samples rise, none of
/// which ends past the sample `limit`, with the most samples. Of two such chains it is the one that has the earlier
/// frame where they part. `None` if the samples of the frames do not all rise, and there are more than
/// [`MOST_UNORDERED`] frames.
///
/// Where all rise, it takes a comparison for each frame; else for each frame at most as many as frames follow, and few
/// if they nearly rise.
///
/// # Errors
/// An allocation fails.
pub fn best_chain(
    alloc: Global,
    frames: &[WholeFrame],
    limit: u64,
) -> Result<Option<Vec<WholeFrame>>, AllocError>
    ensures chosen { IfOk result (λ o. IfSome o (λ kept. kept.items ≡ chain limit 0 frames.now)) }
    ensures best { IfOk result (λ o. IfSome o (λ kept. IsBest limit 0 frames.now kept.items)) }
    ensures many { result ≡ Ok None → 524288 < length frames.now }
{
    if all_rise(frames, limit) {
        return Ok(Some(Vec::from_slice(alloc, frames)?));
    }
    if frames.len() > MOST_UNORDERED {
        return Ok(None);
    }
    Ok(Some(chosen(alloc, frames, limit)?))
}
