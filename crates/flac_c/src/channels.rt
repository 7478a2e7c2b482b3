//! The channels of interleaved samples.

ghost use Rattle.std.specs.Prelude.{◌≡◌, ◌<◌, ◌≤◌, ◌/◌, map, length, IfOk};
ghost use Rattle.flac_c.specs.Interleaved.{channel_at, all_channels};

use std::alloc::{AllocError, Global};

/// The samples of one of `count` channels that are interleaved.
#[tactic(auto, unfolding(crate::specs::Interleaved::channel_at))]
fn channel_of(
    alloc: Global,
    samples: &[i32],
    count: usize,
    channel: usize,
) -> Result<Vec<i32>, AllocError>
    requires { channel < count }
    ensures { IfOk result (λ v. v.items ≡ channel_at samples.now count channel (length samples.now / count)) }
{
    let each = samples.len() / count;
    let mut own = Vec::with_capacity(alloc, each)?;
    for i in 0..each {
        own.push(samples[i * count + channel])?;
    }
    Ok(own)
}

/// The samples of each of `count` channels that are interleaved.
///
/// # Errors
/// An allocation failed.
#[tactic(auto, unfolding(crate::specs::Interleaved::channels_at))]
pub(crate) fn channels_of(
    alloc: Global,
    samples: &[i32],
    count: usize,
) -> Result<Vec<Vec<i32>>, AllocError>
    requires { 1 ≤ count }
    ensures { IfOk result (λ v. map (λ c. c.items) v.items ≡ all_channels samples.now count) }
{
    let mut channels = Vec::with_capacity(alloc, count)?;
    for channel in 0..count {
        channels.push(channel_of(alloc, samples, count, channel)?)?;
    }
    Ok(channels)
}
