//! The next whole frame in bytes.

ghost use Rattle.std.specs.Prelude.{◌≡◌, ◌≤◌, ◌<◌, IfOk, IfErr, OnErr, IfSome, Ok, Some, None, ◌+◌, length, get_or, false};
ghost use Rattle.flac_salvage.specs.inner.Finding.{EachFrameAt, IsHeldAs, IsNextIn, IsSpentAt};
ghost use Rattle.flac_info.specs.Info.{KeepsRules};
ghost use Rattle.flac_salvage.specs.inner.Syncs.{IsSync};
ghost use Rattle.flac_salvage.specs.Standing.{Stands, NoneStands, EachStanding};
ghost use Rattle.flac_native.specs.FrameAt.{IsFrameAt};

use flac_bits::{BitReader, Memory, Why};
use flac_frame::FrameBuffers;
use flac_header::Profile;
use flac_info::StreamInfo;
use flac_native::bytes_from;

/// What a refusal takes off a budget at least: the bytes that a reader holds, which are written when it is made.
const READER: u64 = 8192;

/// Reads the frame with which these bytes begin, whatever its number is, and returns how many bytes it has. Takes the
/// bytes that were looked at off a budget.
fn fill_frame(
    bytes: &[u8],
    info: &StreamInfo,
    profile: Profile,
    buffers: &mut FrameBuffers,
    budget: &mut u64,
) -> Result<u64, Why>
    requires rules { KeepsRules info.now }
    requires channels { info.now.channels ≤ buffers.old.channels }
    requires block { info.now.greatest_block ≤ buffers.old.max_block }
    requires first { buffers.old.before ≡ None }
    ensures room { (buffers.new.channels ≡ buffers.old.channels) × (buffers.new.max_block ≡ buffers.old.max_block) }
    ensures first { OnErr result (buffers.new.before ≡ None) }
    ensures found { IfOk result (λ n. IsFrameAt profile info.now bytes.now buffers.new.held n) }
    ensures only { EachFrameAt profile info.now bytes.now (IsHeldAs result buffers.new.held) }
{
    // Read only for the proof, which then knows that a slice is shorter than 2^64 bytes.
    let _len = bytes.len();
    let mut bits = BitReader::new(Memory::new(bytes));
    let outcome = buffers.fill(&mut bits, info, profile);
    let taken = bits.bytes_taken();
    let cost = if outcome.is_ok() {
        taken
    } else {
        taken.max(READER)
    };
    *budget = budget.saturating_sub(cost);
    // Given back only for the proof, which then knows that a source in memory returns no error.
    let _source = bits.into_source();
    match outcome {
        Ok(()) => Ok(taken),
        Err(why) => Err(why),
    }
}

/// Whether the sync code is at an offset.
fn has_sync(bytes: &[u8], at: usize) -> bool
    requires { at < length bytes.now }
    ensures bytes { (get_or bytes.now at 0 < 256) × (get_or bytes.now (at + 1) 0 < 256) }
    ensures sync { result ≡ false → IsSync bytes.now at → ⊥ }
{
    if at + 1 >= bytes.len() {
        return false;
    }
    let first = bytes[at];
    let second = bytes[at + 1];
    first == 255 && second >= 248 && second <= 249
}

/// Does what [`fill_frame`] does with the bytes from an offset on. No reader is made if the sync code is not there.
fn fill_at(
    bytes: &[u8],
    at: usize,
    info: &StreamInfo,
    profile: Profile,
    buffers: &mut FrameBuffers,
    budget: &mut u64,
) -> Result<u64, Why>
    requires rules { KeepsRules info.now }
    requires channels { info.now.channels ≤ buffers.old.channels }
    requires block { info.now.greatest_block ≤ buffers.old.max_block }
    requires within { at < length bytes.now }
    requires first { buffers.old.before ≡ None }
    ensures room { (buffers.new.channels ≡ buffers.old.channels) × (buffers.new.max_block ≡ buffers.old.max_block) }
    ensures first { OnErr result (buffers.new.before ≡ None) }
    ensures found { IfOk result (λ n. Stands profile info.now bytes.now at buffers.new.held n) }
    ensures only { EachStanding profile info.now bytes.now at (IsHeldAs result buffers.new.held) }
{
    if !has_sync(bytes, at) {
        return Err(Why::BadSync);
    }
    fill_frame(bytes_from(bytes, at as u64), info, profile, buffers, budget)
}

/// Reads the frame that stands whole at an offset and fits STREAMINFO, whatever its number is, and returns how many
/// bytes it has. The frame is in the buffers. `None` if none stands there.
pub fn whole_at(
    bytes: &[u8],
    at: usize,
    info: &StreamInfo,
    profile: Profile,
    buffers: &mut FrameBuffers,
) -> Option<u64>
    requires channels { info.now.channels ≤ buffers.old.channels }
    requires block { info.now.greatest_block ≤ buffers.old.max_block }
    requires first { buffers.old.before ≡ None }
    ensures room { (buffers.new.channels ≡ buffers.old.channels) × (buffers.new.max_block ≡ buffers.old.max_block) }
    ensures found { IfSome result (λ n. Stands profile info.now bytes.now at buffers.new.held n) }
    ensures only { EachStanding profile info.now bytes.now at (λ f n. (buffers.new.held ≡ f) × (result ≡ Some n)) }
{
    // Asked only for the proof, which then knows that STREAMINFO keeps its rules.
    let _channels = info.channels();
    if at >= bytes.len() {
        return None;
    }
    // One frame is read, whatever it costs.
    let mut budget = u64::MAX;
    match fill_at(bytes, at, info, profile, buffers, &mut budget) {
        Ok(taken) => Some(taken),
        Err(_) => None,
    }
}

/// The least offset from `from` on at which a whole frame stands that fits STREAMINFO, whatever its number is, and how
/// many bytes it has. The frame is in the buffers. `None` if there is none.
///
/// Each place with a sync code takes the bytes that were looked at there off the budget, and at least 8192 if no frame
/// is there, so that hostile bytes, in which
/// each frame is refused only at its end, cannot hold the search up.
///
/// # Errors
/// The offset at which the search ended, if the budget is used up: no whole frame stands before it.
pub fn next_whole(
    bytes: &[u8],
    from: usize,
    info: &StreamInfo,
    profile: Profile,
    buffers: &mut FrameBuffers,
    budget: &mut u64,
) -> Result<Option<(usize, u64)>, usize>
    requires channels { info.now.channels ≤ buffers.old.channels }
    requires block { info.now.greatest_block ≤ buffers.old.max_block }
    requires first { buffers.old.before ≡ None }
    ensures room { (buffers.new.channels ≡ buffers.old.channels) × (buffers.new.max_block ≡ buffers.old.max_block) }
    ensures found { IfOk result (λ o. IfSome o (IsNextIn profile info.now bytes.now from buffers.new.held)) }
    ensures none { result ≡ Ok None → (buffers.new.before ≡ None) × NoneStands profile info.now bytes.now from }
    ensures spent { IfErr result (IsSpentAt profile info.now bytes.now from buffers.new.before budget.new) }
{
    // Asked only for the proof, which then knows that STREAMINFO keeps its rules.
    let _channels = info.channels();
    let mut at = from;
    'looking: while at < bytes.len() {
        if *budget == 0 {
            return Err(at);
        }
        if let Ok(taken) = fill_at(bytes, at, info, profile, buffers, budget) {
            return Ok(Some((at, taken)));
        }
        at += 1;
    }
    Ok(None)
}
