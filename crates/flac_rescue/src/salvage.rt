//! The samples that are made of what is left of a damaged stream.

ghost use Rattle.std.specs.Prelude.{◌≡◌, ◌⊎◌, ◌≤◌, map, false, OnOk, IfOk, IfErr, None};
ghost use Rattle.flac_salvage.specs.Chain.{Rise};
ghost use Rattle.flac_salvage.specs.Standing.{EachStanding};
ghost use Rattle.flac_rescue.specs.Channels.{IsExtendedBy};
ghost use Rattle.flac_rescue.specs.Gaps.{limit_of};
ghost use Rattle.flac_rescue.specs.Salvaged.{AreSalvaged, and_missing, is_too_long, with_missing, HasAddedFrames, IsSalvageFault};
ghost use Rattle.flac_rescue.specs.Survey.{IsSurvey};

use crate::channels::{add_silence, empty_channels, extend_channels};
use crate::missing::{Gap, last_of};
use crate::survey::Survey;
use flac_bits::Why;
use flac_frame::FrameBuffers;
use flac_native::{Profile, StreamInfo};
use flac_salvage::{WholeFrame, whole_at};
use std::alloc::{AllocError, Global};

/// The most samples of silence in a salvaged stream, those of all channels counted: in stereo 3 hours and 22 minutes at
/// 44100 Hz.
pub const MOST_SILENCE: u64 = 1_073_741_824;

/// Why no samples are made of what is left of a stream.
#[derive(Clone, Copy, Debug, PartialEq, Eq)]
pub enum SalvageFault {
    /// An allocation failed.
    Memory,
    /// The silence would have more than [`MOST_SILENCE`] samples.
    TooLong,
}

impl From<AllocError> for SalvageFault {
    ghost use Rattle.flac_rescue.specs.declared.salvage.SalvageFault.TheVariants.{Memory};

    ghost from_gives = { λ _ fault. fault ≡ Memory };

    fn from(_error: AllocError) -> SalvageFault {
        SalvageFault::Memory
    }
}

/// How many samples are missing in these gaps, at most 2^64 - 1.
fn missing_in(gaps: &[Gap]) -> u64
    ensures { result ≡ and_missing 0 gaps.now }
{
    let mut sum: u64 = 0;
    for gap in gaps {
        sum = sum.saturating_add(gap.next.saturating_sub(gap.first));
    }
    sum
}

/// Whether there would be too much silence.
fn is_too_long(silence: bool, survey: &Survey) -> bool
    ensures { result ≡ is_too_long silence survey.now }
{
    let channels = u64::from(survey.info.channels());
    let samples = missing_in(&survey.gaps).saturating_mul(channels);
    silence && samples > MOST_SILENCE
}

/// Adds so many missing samples: silence in their place, or nothing.
fn add_missing(channels: &mut [Vec<i32>], silence: bool, count: u64) -> Result<(), AllocError>
    ensures { OnOk result (map (λ c. c.items) channels.new ≡
        with_missing silence count (map (λ c. c.items) channels.old)) }
{
    if silence {
        add_silence(channels, count)
    } else {
        Ok(())
    }
}

/// Adds the samples of the frame that stands at an offset.
fn add_frame(
    bytes: &[u8],
    at: usize,
    info: &StreamInfo,
    buffers: &mut FrameBuffers,
    channels: &mut [Vec<i32>],
) -> Result<(), AllocError>
    requires channels { info.now.channels ≤ buffers.old.channels }
    requires block { info.now.greatest_block ≤ buffers.old.max_block }
    ensures room { (buffers.new.channels ≡ buffers.old.channels) × (buffers.new.max_block ≡ buffers.old.max_block) }
    ensures added { OnOk result
        (EachStanding Profile.Lax info.now bytes.now at (IsExtendedBy channels.old channels.new)) }
{
    buffers.anew();
    match whole_at(bytes, at, info, Profile::Lax, buffers) {
        Some(_) => extend_channels(channels, &buffers.view()),
        None => Ok(()),
    }
}

/// Adds the samples of these frames, and what is missing before each and after the last.
fn add_frames(
    bytes: &[u8],
    kept: &[WholeFrame],
    info: &StreamInfo,
    silence: bool,
    buffers: &mut FrameBuffers,
    channels: &mut [Vec<i32>],
) -> Result<(), AllocError>
    requires rise { Rise (limit_of info.now.total) 0 kept.now }
    requires channels { info.now.channels ≤ buffers.old.channels }
    requires block { info.now.greatest_block ≤ buffers.old.max_block }
    ensures { OnOk result (HasAddedFrames info.now bytes.now silence kept.now channels.old channels.new) }
{
    let total = info.total();
    let mut from: u64 = 0;
    for frame in kept {
        add_missing(channels, silence, frame.first - from)?;
        add_frame(bytes, frame.at, info, buffers, channels)?;
        from = frame.first + frame.size as u64;
    }
    let end = last_of(total, from);
    add_missing(channels, silence, end.saturating_sub(from))
}

/// Buffers for the frames of a stream.
pub(crate) fn buffers_for(alloc: Global, info: &StreamInfo) -> Result<FrameBuffers, AllocError>
    ensures before { IfOk result (λ b. b.before ≡ None) }
    ensures channels { IfOk result (λ b. info.now.channels ≤ b.channels) }
    ensures block { IfOk result (λ b. info.now.greatest_block ≤ b.max_block) }
{
    match FrameBuffers::new(alloc, info.channels() as u32, info.greatest_block() as u32) {
        Ok(buffers) => Ok(buffers),
        Err(_) => Err(AllocError),
    }
}

/// Makes channels of what was found of a native stream: the samples of the frames that are kept, each where its number
/// says. With `silence`, what is missing is silent; else it is left out.
///
/// The samples are held in memory. A stream may state any total, and a frame any number, so silence is bounded.
///
/// # Errors
/// [`SalvageFault::TooLong`] if the silence would have more than [`MOST_SILENCE`] samples, those of all channels counted;
/// else [`SalvageFault::Memory`] if an allocation fails.
pub fn salvage_samples(
    alloc: Global,
    bytes: &[u8],
    survey: &Survey,
    silence: bool,
) -> Result<Vec<Vec<i32>>, SalvageFault>
    requires { IsSurvey bytes.now survey.now }
    ensures made { IfOk result
        (λ channels. AreSalvaged bytes.now survey.now silence (map (λ c. c.items) channels.items)) }
    ensures accepted { OnOk result (is_too_long silence survey.now ≡ false) }
    ensures fault { IfErr result (IsSalvageFault silence survey.now) }
{
    if is_too_long(silence, survey) {
        return Err(SalvageFault::TooLong);
    }
    let info = survey.info;
    let mut channels = empty_channels(alloc, usize::from(info.channels()))?;
    let mut buffers = buffers_for(alloc, &info)?;
    add_frames(
        bytes,
        &survey.kept,
        &info,
        silence,
        &mut buffers,
        &mut channels,
    )?;
    Ok(channels)
}
