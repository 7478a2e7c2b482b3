//! A pass over raw samples that judges them and holds none.

ghost use Rattle.std.specs.Prelude.{◌≡◌, ◌≤◌, ◌<◌, ◌+◌, ◌-◌, ◌^◌, ◌&&◌, min, IfOk, IfErr, OnOk};
ghost use Rattle.flac_raw.specs.Raw.{AreRaw};
ghost use Rattle.flac_raw.specs.Reading.{HasRead, IfKnown, IfRead};
ghost use Rattle.flac_raw.specs.Blocks.{row_of};
ghost use Rattle.flac_raw.specs.Faults.{AreSamples, StopsAsRaw, StopsInside};
ghost use Rattle.flac_raw.specs.inner.Surveyed.{IsFound};

use crate::blocks::RawBlocks;
use crate::raw::PIECE;
use crate::raw_fault::RawFault;
use flac_bits::Source;
use flac_frame::{SetupFault, format_fault};
use flac_header::Profile;
use flac_jobs::RawFormat;
use flac_native::sample_width;
use std::alloc::Global;

/// What a pass over raw samples found.
#[derive(Clone, Copy)]
struct Survey {
    /// How many samples of each channel there are, at most 2^64 - 1.
    total: u64,
    /// Whether each of them fits the depth.
    small: bool,
}

/// A survey with a block of `count` samples more, which fit the depth or do not.
fn with_block(survey: Survey, count: usize, fit: bool) -> Survey
    ensures total { result.total ≡ min (survey.total + count) (2 ^ 64 - 1) }
    ensures small { result.small ≡ (survey.small && fit) }
{
    Survey {
        total: survey.total.saturating_add(count as u64),
        small: survey.small && fit,
    }
}

/// Reads all blocks of a source.
fn read_survey<R: Source>(
    blocks: &mut RawBlocks,
    bits: u32,
    source: &mut R,
) -> Result<Survey, RawFault>
    requires { (1 ≤ bits) × (bits ≤ 32) }
    ensures all { IfOk result (λ s. IfKnown R.Source source.old (IsFound bits blocks.old s)) }
    ensures read { OnOk result (HasRead R.Source source.old source.new) }
    ensures refused { IfErr result (λ e. IfRead R.Source source.old source.new (StopsInside (row_of blocks.old) e)) }
    ensures names { R.names source.new ≡ R.names source.old }
{
    let size = blocks.size();
    let mut found = Survey {
        total: 0,
        small: true,
    };
    'pieces: loop {
        let count = blocks.next(source)?;
        let fit = blocks.fit(bits);
        found = with_block(found, count, fit);
        if count < size {
            return Ok(found);
        }
    }
}

/// How many samples of each channel the bytes of a source are, if they can be encoded. It reads all bytes, at most
/// 16384 at once, and holds none.
///
/// ```
/// let total = judge(alloc, &mut source, Profile::Subset, format)?;
/// ```
///
/// # Errors
/// The first reason for which they are no samples of the format: [`RawFault::Setup`] for the rate, the depth or the
/// channels; [`RawFault::RawLength`]; [`RawFault::Setup`] for a sample that does not fit the depth, or 2^36 samples
/// of each channel or more. [`RawFault::Input`] with [`Why::Read`] if the source returns an error, or with
/// [`Why::Memory`] if an allocation fails.
///
/// [`Why::Read`]: flac_bits::Why::Read
/// [`Why::Memory`]: flac_bits::Why::Memory
pub fn judge<R: Source>(
    alloc: Global,
    source: &mut R,
    profile: Profile,
    format: RawFormat,
) -> Result<u64, RawFault>
    ensures samples { IfOk result (λ total. IfKnown R.Source source.old (λ bytes.
        AreSamples profile format bytes total)) }
    ensures raw { OnOk result (IfKnown R.Source source.old (AreRaw profile format)) }
    ensures short { IfOk result (λ total. total < 2 ^ 36) }
    ensures read { OnOk result (HasRead R.Source source.old source.new) }
    ensures refused { IfErr result (λ e. IfRead R.Source source.old source.new (StopsAsRaw profile format e)) }
    ensures names { R.names source.new ≡ R.names source.old }
{
    let channels = format.channels as usize;
    if let Some(fault) = format_fault(profile, format.rate, format.bits, channels) {
        return Err(RawFault::Setup(fault));
    }
    let width = sample_width(format.bits);
    let size = PIECE / (channels * width);
    let mut blocks = RawBlocks::new(alloc, channels, width, size)?;
    let found = read_survey(&mut blocks, format.bits, source)?;
    if !found.small {
        return Err(RawFault::Setup(SetupFault::SampleTooLarge));
    }
    if found.total >= 1 << 36 {
        return Err(RawFault::Setup(SetupFault::TooLong));
    }
    Ok(found.total)
}
