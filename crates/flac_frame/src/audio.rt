//! Samples to be encoded.

ghost use Rattle.std.specs.Prelude.{◌≡◌, ◌≤◌, ◌<◌, ◌+◌, [], map, length, take, drop, slice_index_or, nat_eq, Some, None};
ghost use Rattle.flac_frame.specs.Audio.{samples_each, channels_fault, audio_fault, MakesAudio, IsSound};

use crate::samples::samples_fault;
use crate::setup::{SetupFault, format_fault};
use flac_header::Profile;
use std::marker::Model;

/// Samples to be encoded: the profile of the streams that they may be in, their rate in Hz, the bits per sample, and
/// the samples of 1 to 8 channels of one length. They are always such as can be encoded.
///
/// ```
/// let audio = Audio::new(44100, 16, channels)?;
/// ```
#[derive(Debug)]
pub struct Audio {
    profile: Profile,
    rate: u32,
    bits: u32,
    channels: Vec<Vec<i32>>,
}

impl Drop for Audio {
    fn drop(self) {
        let Audio {
            profile: _,
            rate: _,
            bits: _,
            channels: _,
        } = self;
    }
}

impl Model for Audio {
    ghost use Rattle.std.specs.Prelude.{◌≡◌, map, None};
    ghost use Rattle.flac_frame.specs.Audio.{Sound, audio_fault};

    ghost Value = { Sound };

    ghost view = { λ a. record { profile = a.profile; rate = a.rate; bits = a.bits; channels = map (λ c. c.items) a.channels.items } };

    ghost invariant = { λ a. audio_fault a.profile a.rate a.bits (map (λ c. c.items) a.channels.items) ≡ None };
}

/// How many samples the first channel has; 0 if there is none.
#[tactic(auto, using(crate::proofs::Sounds::samples_in_first))]
fn samples_each(channels: &[Vec<i32>]) -> usize
    ensures { result ≡ samples_each (map (λ c. c.items) channels.now) }
{
    if channels.is_empty() {
        return 0;
    }
    channels[0].len()
}

/// The samples of at most 8 channels, in the first of these places.
fn slices_of(channels: &[Vec<i32>]) -> [&[i32]; 8]
    requires { length channels.now ≤ 8 }
    ensures { map (λ c. c.now) (take (length channels.now) result) ≡ map (λ c. c.items) channels.now }
{
    let mut slices: [&[i32]; 8] = [&[]; 8];
    for i in 0..channels.len() {
        slices[i] = channels[i].as_slice();
    }
    slices
}

/// Why 1 to 8 channels cannot be encoded, or `None` if they can.
fn channels_fault(channels: &[Vec<i32>], bits: u32) -> Option<SetupFault>
    requires bits { (1 ≤ bits) × (bits ≤ 32) }
    requires some { 1 ≤ length channels.now }
    requires few { length channels.now ≤ 8 }
    ensures { result ≡ channels_fault bits (map (λ c. c.items) channels.now) }
{
    let slices = slices_of(channels);
    if let Some(fault) = samples_fault(&slices[..channels.len()], bits) {
        return Some(fault);
    }
    let len = samples_each(channels);
    if len as u64 >= 1 << 36 {
        return Some(SetupFault::TooLong);
    }
    None
}

/// Why samples cannot be encoded, or `None` if they can.
fn fault_of(profile: Profile, rate: u32, bits: u32, channels: &[Vec<i32>]) -> Option<SetupFault>
    ensures { result ≡ audio_fault profile rate bits (map (λ c. c.items) channels.now) }
{
    if let Some(fault) = format_fault(profile, rate, bits, channels.len()) {
        return Some(fault);
    }
    channels_fault(channels, bits)
}

impl Audio {
    /// Makes samples for streams of the streamable subset: as [`Audio::new_in`] does for [`Profile::Subset`].
    ///
    /// # Errors
    /// Those of [`Audio::new_in`].
    pub fn new(rate: u32, bits: u32, channels: Vec<Vec<i32>>) -> Result<Audio, SetupFault>
        ensures { MakesAudio Profile.Subset rate bits (map (λ c. c.items) channels.items) result }
    {
        Audio::new_in(Profile::Subset, rate, bits, channels)
    }

    /// Makes samples for streams of a profile, with a rate in Hz, of `bits` bits each: one vector for each channel (RFC
    /// 9639, sections 7, 8.2 and 9.1.2 to 9.1.4).
    ///
    /// ```
    /// let audio = Audio::new_in(Profile::Lax, 65537, 5, channels)?;
    /// ```
    ///
    /// # Errors
    /// The first of these that applies:
    ///
    /// - [`SetupFault::BadRate`] if the rate is neither 1 to 65535 nor a multiple of 10 up to 655350; in
    ///   [`Profile::Lax`] if it is not 1 to 1048575;
    /// - [`SetupFault::BadDepth`] if `bits` is not 8, 12, 16, 20, 24 or 32; in [`Profile::Lax`] if it is not 4 to 32;
    /// - [`SetupFault::BadChannels`] if there is no channel, or there are more than 8;
    /// - [`SetupFault::LengthsDiffer`] if the channels differ in length;
    /// - [`SetupFault::SampleTooLarge`] if a sample is below -2^(bits - 1), or is 2^(bits - 1) or more;
    /// - [`SetupFault::TooLong`] if a channel has 2^36 samples or more.
    pub fn new_in(
        profile: Profile,
        rate: u32,
        bits: u32,
        channels: Vec<Vec<i32>>,
    ) -> Result<Audio, SetupFault>
        ensures { MakesAudio profile rate bits (map (λ c. c.items) channels.items) result }
    {
        if let Some(fault) = fault_of(profile, rate, bits, &channels) {
            return Err(fault);
        }
        Ok(Audio {
            profile,
            rate,
            bits,
            channels,
        })
    }

    /// The profile of the streams that the samples may be in.
    pub fn profile(&self) -> Profile
        ensures { result ≡ self.now.profile }
    {
        self.profile
    }

    /// The sample rate in Hz: 1 to 655350 in [`Profile::Subset`], 1 to 1048575 in [`Profile::Lax`].
    pub fn rate(&self) -> u32
        ensures { result ≡ self.now.rate }
    {
        self.rate
    }

    /// Bits per sample: 8, 12, 16, 20, 24 or 32 in [`Profile::Subset`], 4 to 32 in [`Profile::Lax`].
    pub fn bits(&self) -> u32
        ensures { result ≡ self.now.bits }
    {
        self.bits
    }

    /// The samples of each channel, 1 to 8 channels.
    #[tactic(auto, using(crate::proofs::Sounds::sound_is))]
    pub fn channels(&self) -> &[Vec<i32>]
        ensures items { map (λ c. c.items) result.now ≡ self.now.channels }
        ensures sound { IsSound self.now }
    {
        self.channels.as_slice()
    }

    /// The `size` samples of a channel from index `start` on. Both are counted from 0: the channel is below the number
    /// of channels, and `start + size` is at most [`Audio::len`].
    ///
    /// ```
    /// let block = audio.part(0, 4096, 4096); // samples 4096 to 8191 of the first channel
    /// ```
    pub fn part(&self, channel: usize, start: usize, size: usize) -> &[i32]
        requires channel { channel < length self.now.channels }
        requires within { start + size ≤ samples_each self.now.channels }
        ensures part { result.now ≡ take size (drop start (slice_index_or self.now.channels channel [])) }
        ensures long { length result.now ≡ size }
    {
        let channels = self.channels();
        let samples = channels[channel].as_slice();
        &samples[start..start + size]
    }

    /// How many samples each channel has, below 2^36.
    pub fn len(&self) -> usize
        ensures { result ≡ samples_each self.now.channels }
    {
        samples_each(&self.channels)
    }

    /// Whether the channels have no samples.
    pub fn is_empty(&self) -> bool
        ensures { result ≡ nat_eq (samples_each self.now.channels) 0 }
    {
        self.len() == 0
    }

    /// Returns the samples of each channel.
    pub fn into_channels(self) -> Vec<Vec<i32>>
        ensures { map (λ c. c.items) result.items ≡ self.channels }
    {
        let Audio {
            profile: _,
            rate: _,
            bits: _,
            channels: lists,
        } = self;
        lists
    }
}
