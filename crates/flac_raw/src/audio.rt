//! All raw samples of a source.

ghost use Rattle.std.specs.Prelude.{◌≡◌, None, IfOk, IfErr, OnOk};
ghost use Rattle.flac_raw.specs.Raw.{IsRaw, raw_sound};
ghost use Rattle.flac_raw.specs.Reading.{IfKnown, IfRead};
ghost use Rattle.flac_raw.specs.Faults.{raw_fault, StopsAsRaw};

use crate::raw::read_channels;
use crate::raw_fault::RawFault;
use flac_bits::Source;
use flac_frame::{Audio, format_fault};
use flac_header::Profile;
use flac_jobs::RawFormat;
use flac_native::sample_width;
use std::alloc::Global;

/// The samples that the bytes of a source are. They are all held.
///
/// ```
/// let audio = audio_of(alloc, &mut Memory::new(&bytes), Profile::Subset, format)?;
/// ```
///
/// # Errors
/// The first reason for which they are no samples of the format: [`RawFault::Setup`] for the rate, the depth or the
/// channels; [`RawFault::RawLength`]; [`RawFault::Setup`] for a sample that does not fit the depth, or too many
/// samples. [`RawFault::Input`] with [`Why::Read`] if the source returns an error, or with [`Why::Memory`] if an
/// allocation fails.
///
/// [`Why::Read`]: flac_bits::Why::Read
/// [`Why::Memory`]: flac_bits::Why::Memory
pub fn audio_of<R: Source>(
    alloc: Global,
    source: &mut R,
    profile: Profile,
    format: RawFormat,
) -> Result<Audio, RawFault>
    ensures raw { IfOk result (λ a. IfKnown R.Source source.old (λ bytes. IsRaw profile format bytes a)) }
    ensures sound { IfOk result (λ a. IfKnown R.Source source.old (λ bytes. a ≡ raw_sound profile format bytes)) }
    ensures accepted { OnOk result (IfKnown R.Source source.old (λ bytes. raw_fault profile format bytes ≡ None)) }
    ensures refused { IfErr result (λ e. IfRead R.Source source.old source.new (StopsAsRaw profile format e)) }
    ensures names { R.names source.new ≡ R.names source.old }
{
    let channels = format.channels as usize;
    if let Some(fault) = format_fault(profile, format.rate, format.bits, channels) {
        return Err(RawFault::Setup(fault));
    }
    let width = sample_width(format.bits);
    let Some(lists) = read_channels(alloc, source, channels, width)? else {
        return Err(RawFault::RawLength);
    };
    let audio = Audio::new_in(profile, format.rate, format.bits, lists)?;
    // Read only for the proof, which then knows what the model of an `Audio` keeps to.
    let _channels = audio.channels();
    Ok(audio)
}
