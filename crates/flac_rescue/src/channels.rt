//! Channels of samples, to which those of frames are added.

ghost use Rattle.std.specs.Prelude.{◌≡◌, [], ◌++◌, pos, map, replicate, IfOk, OnOk};
ghost use Rattle.flac_frame.specs.Viewed.{frame_of};
ghost use Rattle.flac_rescue.specs.Channels.{with_silence, IsExtended};

use flac_frame::FrameView;
use std::alloc::{AllocError, Global};

/// A vector without samples for each of `count` channels.
///
/// # Errors
/// An allocation fails.
pub fn empty_channels(alloc: Global, count: usize) -> Result<Vec<Vec<i32>>, AllocError>
    ensures { IfOk result (λ channels. map (λ c. c.items) channels.items ≡ replicate count []) }
{
    let mut channels = Vec::with_capacity(alloc, count)?;
    for channel in 0..count {
        // Read only for the proof, whose invariant names it.
        let _channel = channel;
        channels.push(Vec::new(alloc))?;
    }
    Ok(channels)
}

/// Adds the samples of a frame to those of a channel.
fn add_samples(samples: &mut Vec<i32>, more: &[i32]) -> Result<(), AllocError>
    ensures { OnOk result (samples.new.items ≡ samples.old.items ++ more.now) }
{
    samples.extend_from_slice(more)?;
    Ok(())
}

/// Adds the samples of a frame to those of its channels.
///
/// # Errors
/// An allocation fails. Some channels may have them then.
pub fn extend_channels(channels: &mut [Vec<i32>], frame: &FrameView<'_>) -> Result<(), AllocError>
    ensures { OnOk result (IsExtended channels.old (frame_of frame.now) channels.new) }
{
    let count = channels.len().min(frame.channels());
    for channel in 0..count {
        let more = frame.channel(channel);
        add_samples(&mut channels[channel], more)?;
    }
    Ok(())
}

/// Adds so many samples of silence to those of a channel.
fn add_zeros(samples: &mut Vec<i32>, count: u64) -> Result<(), AllocError>
    ensures { OnOk result (samples.new.items ≡ samples.old.items ++ replicate count (pos 0)) }
{
    let Some(len) = samples.len().checked_add(count as usize) else {
        return Err(AllocError);
    };
    samples.resize(len, 0)?;
    Ok(())
}

/// Adds so many samples of silence to each channel.
///
/// # Errors
/// An allocation fails. Some channels may have them then.
pub(crate) fn add_silence(channels: &mut [Vec<i32>], count: u64) -> Result<(), AllocError>
    ensures { OnOk result (map (λ c. c.items) channels.new ≡ with_silence count (map (λ c. c.items) channels.old)) }
{
    for channel in 0..channels.len() {
        add_zeros(&mut channels[channel], count)?;
    }
    Ok(())
}
