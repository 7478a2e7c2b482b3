//! Encodes samples.

ghost use Rattle.std.specs.Prelude.{◌≡◌, ◌≢◌, length, IfOk, IfErr, OnOk, None, option_map, true};
ghost use Rattle.flac_frame.specs.Setup.{number_of};
ghost use Rattle.flac_native.specs.Given.{fits_plan};
ghost use Rattle.flac_c.specs.Bound.{FitsBound};
ghost use Rattle.flac_c.specs.Encoded.{sound_of, serial_of, samples_fault, stream_fault, IsPlanned, IsMemoryOr, CanBeEncoded, EncodedBy, IsEncoded, IsRefused, WritesSubset, WritesBy, RefusesBy};

use crate::channels::channels_of;
use crate::profiles::profile_of;
use crate::searching::searched;
use crate::tags::{FlacProvedTags, blocks_of};
use crate::texts::copy;
use flac_bits::Why;
use flac_frame::{Audio, SetupFault};
use flac_native::{Plan, Profile};
use flac_ogg::encode_and_decode;
use std::alloc::Global;

/// What samples are, and how they are encoded.
#[repr(C)]
#[derive(Clone, Copy, Drop)]
pub struct FlacProvedSettings {
    /// The sample rate in Hz: 1 to 65535, or a multiple of 10 up to 655350 (RFC 9639, section 9.1.2).
    pub rate: u32,
    /// How many channels there are, 1 to 8.
    pub channels: u32,
    /// Bits per sample: 8, 12, 16, 20, 24 or 32.
    pub bits: u32,
    /// How many samples of each channel a frame has: 16 to 4608, or to 16384 above 48000 Hz.
    pub block_size: u32,
    /// The distance of seek points in samples of each channel; 0: there is no seek table.
    pub seek_every: u32,
    /// 0: a native stream; any other number: an Ogg stream.
    pub ogg: u32,
    /// The serial number of an Ogg stream (RFC 3533, section 6).
    pub serial: u32,
}

/// In which profile samples are encoded, and with how much effort.
#[repr(C)]
#[derive(Clone, Copy, Drop)]
pub struct FlacProvedOptions {
    /// 0: a stream of the streamable subset (RFC 9639, section 7); any other number: of all streams.
    pub profile: u32,
    /// 0: the predictors that the format has as fixed (section 9.2.5); 1: and the linear ones (section 9.2.6) that a
    /// quick search finds for each block; any other number: those that a longer search finds.
    pub effort: u32,
}

/// The serial number of an Ogg stream; `None` for a native one.
fn serial_of(settings: &FlacProvedSettings) -> Option<u32>
    ensures { result ≡ serial_of settings.now }
{
    if settings.ogg == 0 {
        return None;
    }
    Some(settings.serial)
}

/// The channels of interleaved samples.
///
/// # Errors
/// The number of the reason for which they cannot be encoded, or 2 if an allocation fails.
#[tactic(auto, using(crate::proofs::Encodings::some_setup))]
fn audio_of(
    alloc: Global,
    settings: &FlacProvedSettings,
    profile: Profile,
    samples: &[i32],
) -> Result<Audio, u32>
    ensures sound { IfOk result (λ a. a ≡ sound_of profile settings.now samples.now) }
    ensures good { OnOk result (CanBeEncoded profile settings.now samples.now) }
    ensures refused { IfErr result
        (IsMemoryOr (option_map number_of (samples_fault profile settings.now samples.now))) }
    ensures some { IfErr result (λ n. n ≢ 0) }
{
    let count = settings.channels as usize;
    if count < 1 || count > 8 {
        return Err(u32::from(SetupFault::BadChannels.number()));
    }
    if samples.len() % count != 0 {
        return Err(u32::from(SetupFault::LengthsDiffer.number()));
    }
    let Ok(channels) = channels_of(alloc, samples, count) else {
        return Err(u32::from(Why::Memory.number()));
    };
    match Audio::new_in(profile, settings.rate, settings.bits, channels) {
        Ok(audio) => {
            // Read only for the proof, which then knows what the model of an `Audio` keeps to.
            let _sound = audio.channels();
            Ok(audio)
        }
        Err(fault) => Err(u32::from(fault.number())),
    }
}

/// How the samples are divided into frames, in their own profile.
///
/// # Errors
/// The first reason for which they cannot be: the block size, the seek points.
fn own_plan(settings: &FlacProvedSettings, audio: &Audio) -> Result<Plan, SetupFault>
    ensures made { IsPlanned settings.now audio.now result }
    ensures fits { IfOk result (λ p. fits_plan p audio.now ≡ true) }
{
    Plan::new_in(
        audio.profile(),
        settings.block_size,
        audio,
        settings.seek_every,
    )
}

/// Encodes channels.
///
/// # Errors
/// The number of the reason for which these settings or comments are refused, or 2 if an allocation fails.
#[tactic(auto, using(crate::proofs::Encodings::some_setup, crate::proofs::Encodings::some_encode, crate::proofs::Numbered::some_number))]
fn stream_of(
    alloc: Global,
    settings: &FlacProvedSettings,
    effort: u32,
    tags: &FlacProvedTags<'_>,
    audio: &Audio,
) -> Result<Vec<u8>, u32>
    ensures encoded { IfOk result (λ v. EncodedBy effort settings.now tags.now audio.now v.items) }
    ensures accepted { OnOk result (stream_fault settings.now tags.now audio.now ≡ None) }
    ensures refused { IfErr result (λ n. IsMemoryOr (stream_fault settings.now tags.now audio.now) n) }
    ensures some { IfErr result (λ n. n ≢ 0) }
{
    let plan = match own_plan(settings, audio) {
        Ok(plan) => plan,
        Err(fault) => return Err(u32::from(fault.number())),
    };
    // Read only for the proof, which then knows what the model of a `Plan` keeps to.
    let _good = plan.block_size();
    let list = match blocks_of(alloc, tags) {
        Ok(list) => list,
        Err(why) => return Err(u32::from(why.number())),
    };
    let tried = match searched(alloc, effort, plan, audio) {
        Ok(tried) => tried,
        Err(why) => return Err(u32::from(why.number())),
    };
    match encode_and_decode(alloc, serial_of(settings), &tried, &list, audio) {
        Ok(stream) => Ok(stream),
        Err(fault) => Err(u32::from(fault.number())),
    }
}

/// Encodes interleaved samples.
///
/// # Errors
/// The number of the first reason for which they are refused, or 2 if an allocation fails.
fn encoded(
    alloc: Global,
    settings: &FlacProvedSettings,
    profile: Profile,
    effort: u32,
    samples: &[i32],
    tags: &FlacProvedTags<'_>,
) -> Result<Vec<u8>, u32>
    ensures encoded { IfOk result (λ v. IsEncoded profile effort settings.now samples.now tags.now v.items) }
    ensures refused { IfErr result (λ n. IsRefused profile settings.now samples.now tags.now n) }
    ensures some { IfErr result (λ n. n ≢ 0) }
{
    let audio = audio_of(alloc, settings, profile, samples)?;
    stream_of(alloc, settings, effort, tags, &audio)
}

/// Encodes samples with comments as a stream of these settings, native or Ogg, decodes it again, and writes its bytes
/// to the front of `out`, as far as there is room. The samples are interleaved: those of all channels at the first
/// index, channel by channel, then those at the next. `len` becomes the number of bytes of the stream, at most what
/// `flac_proved_bound` returns.
///
/// Returns 0, or the number of the first reason for which they are not encoded; `out` and `len` are unchanged then:
///
/// - 42 if `channels` is 0 or above 8, 43 if the number of samples is no multiple of it;
/// - 40, 41, 44 or 45 for the rate, the bits, a sample, or the length, as [`Audio::new`] refuses them;
/// - 46, 45 or 47 for the block size, the number of frames, or the seek points, as [`Plan::new`] refuses them;
/// - 7 if the comments are longer than 16777215 bytes;
/// - 37 if a seek table is asked for in an Ogg stream.
///
/// Or 2 if an allocation fails.
#[unsafe(no_mangle)]
pub extern "C" fn flac_proved_encode(
    alloc: Global,
    settings: &FlacProvedSettings,
    samples: &[i32],
    tags: &FlacProvedTags<'_>,
    out: &mut [u8],
    len: &mut usize,
) -> u32
    ensures encoded { result ≡ 0 → WritesSubset settings.now samples.now tags.now out.old out.new len.new }
    ensures fits { result ≡ 0 → FitsBound settings.now (length samples.now) tags.now (length out.old) len.new }
    ensures refused { result ≢ 0 → IsRefused Profile.Subset settings.now samples.now tags.now result }
    ensures kept { result ≢ 0 → (out.new ≡ out.old) × (len.new ≡ len.old) }
{
    match encoded(alloc, settings, Profile::Subset, 0, samples, tags) {
        Ok(stream) => {
            *len = copy(stream.as_slice(), out);
            0
        }
        Err(number) => number,
    }
}

/// Encodes samples with comments as a stream of a profile, as [`flac_proved_encode`] does, and searches for linear
/// predictors, if that is wanted (RFC 9639, sections 7 and 9.2.6). Of all streams the rate is 1 to 1048575 Hz, the bits
/// per sample are 4 to 32, and a block has 16 to 65535 samples of each channel. Each frame is the shortest of the forms
/// that the encoder knows, with the predictors that were found; so no stream is longer for a search.
///
/// Returns 0, or the number of the first reason for which they are not encoded, as [`flac_proved_encode`] does; `out`
/// and `len` are unchanged then.
#[unsafe(no_mangle)]
pub extern "C" fn flac_proved_encode_in(
    alloc: Global,
    settings: &FlacProvedSettings,
    options: &FlacProvedOptions,
    samples: &[i32],
    tags: &FlacProvedTags<'_>,
    out: &mut [u8],
    len: &mut usize,
) -> u32
    ensures encoded { result ≡ 0 → WritesBy options.now settings.now samples.now tags.now out.old out.new len.new }
    ensures fits { result ≡ 0 → FitsBound settings.now (length samples.now) tags.now (length out.old) len.new }
    ensures refused { result ≢ 0 → RefusesBy options.now settings.now samples.now tags.now result }
    ensures kept { result ≢ 0 → (out.new ≡ out.old) × (len.new ≡ len.old) }
{
    match encoded(
        alloc,
        settings,
        profile_of(options.profile),
        options.effort,
        samples,
        tags,
    ) {
        Ok(stream) => {
            *len = copy(stream.as_slice(), out);
            0
        }
        Err(number) => number,
    }
}
