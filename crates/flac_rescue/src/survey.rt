//! Surveys of damaged streams.

ghost use Rattle.std.specs.Prelude.{◌≡◌, ◌≤◌, ◌<◌, ◌⊎◌, ◌∷◌, length, Some, IfOk, IfErr, IfSome};
ghost use Rattle.flac_meta.specs.declared.block.Block.TheVariants as block_of;
ghost use Rattle.flac_salvage.specs.Kept.{AreFound};
ghost use Rattle.flac_salvage.specs.Chain.{chain, IsBest};
ghost use Rattle.flac_rescue.specs.Survey.{BeginsWithInfo, IsSurvey, IsSurveyFault, IsFirstInfo, IsOrderFault};
ghost use Rattle.flac_rescue.specs.Head.{IsHead};
ghost use Rattle.flac_rescue.specs.Gaps.{limit_of, AreWithin};

use crate::head::{Head, read_head};
use crate::missing::{Gap, gaps, others};
use flac_meta::Block;
use flac_native::{Fault, Place, Profile, StreamInfo, Why};
use flac_salvage::{WholeFrame, WholeFrames, best_chain, whole_frames};
use std::alloc::{AllocError, Global};

/// What was found of a stream.
#[derive(Drop)]
pub struct Survey {
    /// STREAMINFO.
    pub info: StreamInfo,
    /// The metadata blocks, STREAMINFO the first.
    pub blocks: Vec<Block>,
    /// The offset of the first byte after them.
    pub front: usize,
    /// All whole frames.
    pub found: WholeFrames,
    /// Those of them that belong together: the best chain ([`best_chain`]).
    pub kept: Vec<WholeFrame>,
    /// What is missing between these; a gap may be empty.
    pub gaps: Vec<Gap>,
    /// The whole frames that are not kept.
    pub others: Vec<WholeFrame>,
}

/// Why a stream was not surveyed.
#[derive(Clone, Copy, Debug, PartialEq, Eq)]
pub enum SurveyFault {
    /// The marker or a metadata block is refused.
    Head(Fault),
    /// An allocation failed.
    Memory,
    /// Its frames are out of order, and there are more than [`flac_salvage::MOST_UNORDERED`].
    Unordered,
}

impl From<AllocError> for SurveyFault {
    ghost use Rattle.flac_rescue.specs.declared.survey.SurveyFault.TheVariants.{Memory};

    ghost from_gives = { λ _ fault. fault ≡ Memory };

    fn from(_error: AllocError) -> SurveyFault {
        SurveyFault::Memory
    }
}

/// How many bytes may be looked at in the search for frames.
fn budget_for(bytes: &[u8]) -> u64 {
    (bytes.len() as u64)
        .saturating_mul(64)
        .saturating_add(16_777_215)
}

/// The sample before which the stream ends.
fn limit_of(total: u64) -> u64
    ensures { result ≡ limit_of total }
{
    if total == 0 { u64::MAX } else { total }
}

/// STREAMINFO, if it is the first of these blocks.
pub(crate) fn info_of(blocks: &[Block]) -> Option<StreamInfo>
    ensures some { IfSome result (λ info. BeginsWithInfo info blocks.now) }
    ensures first { IsFirstInfo blocks.now result }
{
    match blocks.first() {
        Some(Block::StreamInfo(info)) => Some(*info),
        _ => None,
    }
}

/// Chooses the frames that are kept.
///
/// # Errors
/// [`SurveyFault::Memory`] and [`SurveyFault::Unordered`].
fn choose(alloc: Global, found: &[WholeFrame], total: u64) -> Result<Vec<WholeFrame>, SurveyFault>
    ensures kept { IfOk result (λ kept. kept.items ≡ chain (limit_of total) 0 found.now) }
    ensures best { IfOk result (λ kept. IsBest (limit_of total) 0 found.now kept.items) }
    ensures fault { IfErr result (IsOrderFault found.now) }
{
    match best_chain(alloc, found, limit_of(total))? {
        Some(kept) => Ok(kept),
        None => Err(SurveyFault::Unordered),
    }
}

/// Finds all whole frames from an offset on.
///
/// # Errors
/// [`SurveyFault::Memory`].
fn find(
    alloc: Global,
    bytes: &[u8],
    front: usize,
    info: &StreamInfo,
) -> Result<WholeFrames, SurveyFault>
    requires { front ≤ length bytes.now }
    ensures found { IfOk result (λ f. AreFound Profile.Lax info.now bytes.now front f.cut f.frames.items) }
    ensures within { IfOk result (λ f. AreWithin (length bytes.now) f.frames.items) }
    ensures fault { IfErr result (λ e. e ≡ SurveyFault.Memory) }
{
    let mut budget = budget_for(bytes);
    match whole_frames(alloc, bytes, front, info, Profile::Lax, &mut budget) {
        Ok(found) => Ok(found),
        Err(_) => Err(SurveyFault::Memory),
    }
}

/// Surveys the frames after the metadata blocks.
///
/// # Errors
/// [`SurveyFault::Memory`] and [`SurveyFault::Unordered`].
fn survey_frames(
    alloc: Global,
    bytes: &[u8],
    blocks: Vec<Block>,
    front: usize,
    info: StreamInfo,
) -> Result<Survey, SurveyFault>
    requires within { front ≤ length bytes.now }
    requires head { IsHead bytes.now blocks.items front }
    requires info { BeginsWithInfo info blocks.items }
    ensures survey { IfOk result (λ s. IsSurvey bytes.now s) }
    ensures fault { IfErr result (λ e. IsSurveyFault bytes.now e) }
{
    let found = find(alloc, bytes, front, &info)?;
    let stated = info.total();
    let kept = choose(alloc, found.frames.as_slice(), stated)?;
    let missing = gaps(alloc, kept.as_slice(), front, bytes.len(), stated)?;
    let left = others(alloc, found.frames.as_slice(), kept.as_slice())?;
    Ok(Survey {
        info,
        blocks,
        front,
        found,
        kept,
        gaps: missing,
        others: left,
    })
}

/// The fault of metadata blocks that are longer than the input.
const CUT: Fault = Fault {
    at: Place::Block(0),
    why: Why::Truncated,
};

/// Surveys a native stream: reads its metadata blocks, finds all frames that stand whole after them, chooses those that
/// belong together, and says what is missing between these.
///
/// The search looks at 64 bytes for each byte at most, and 16777215 more; undamaged streams take 2.
///
/// # Errors
/// [`SurveyFault::Head`] with the fault of the marker or of a metadata block, as [`flac_native::decode`] tells it, or of an
/// allocation that failed there; else [`SurveyFault::Memory`] if one failed later, or [`SurveyFault::Unordered`].
pub fn survey_bytes(alloc: Global, bytes: &[u8]) -> Result<Survey, SurveyFault>
    ensures survey { IfOk result (λ s. IsSurvey bytes.now s) }
    ensures fault { IfErr result (λ e. IsSurveyFault bytes.now e) }
{
    let Head { blocks, front } = match read_head(alloc, bytes) {
        Ok(head) => head,
        Err(fault) => return Err(SurveyFault::Head(fault)),
    };
    let front = front as usize;
    let Some(info) = info_of(&blocks) else {
        return Err(SurveyFault::Head(CUT));
    };
    if front > bytes.len() {
        return Err(SurveyFault::Head(CUT));
    }
    survey_frames(alloc, bytes, blocks, front, info)
}
