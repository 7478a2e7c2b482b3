//! The samples of a WAV file, as they are read from a source.

ghost use Rattle.std.specs.Prelude.{◌≡◌, ◌<◌, ◌*◌, ◌%◌, ◌/◌, not, nat_eq, [], map, length, ℕ, List, IfOk, IfErr, IfSome, OnOk, None};
ghost use Rattle.flac_frame.specs.Audio.{samples_each};
ghost use Rattle.flac_wave.specs.Calls.{IfRead};
ghost use Rattle.flac_wave.specs.Format.{IsInRange, row_of};
ghost use Rattle.flac_cli.specs.inner.HeldWaves.{shifted, HasRoom, IsHeld, AreHeld, HoldsMore, AreHeldOf};
ghost use Rattle.flac_raw.specs.Reading.{HasRead, IfSomeRead, IfNoneRead, EndsInside};
ghost use Rattle.flac_cli.specs.inner.WaveSamples.{AreTaken, AreTakenOf};

use crate::decode_wave::turn;
use flac_bits::{Source, Why, bytes_fit};
use flac_native::sample_width;
use flac_raw::{PIECE, no_samples, push_piece};
use flac_wave::{WaveFormat, fill};
use std::alloc::Global;

/// The samples of a WAV file, as those of a stream.
#[derive(Drop)]
pub(crate) struct WaveSamples {
    /// How many bits each has.
    pub(crate) depth: u32,
    /// Those of each channel.
    pub(crate) channels: Vec<Vec<i32>>,
    /// Whether the file has an odd number of bytes of them.
    pub(crate) odd: bool,
}

/// The samples of a WAV file as they are read: numbers of all bits of their bytes.
#[derive(Drop)]
pub(crate) struct HeldSamples {
    /// How many bits of each a stream has, the highest ones: the bits below are zeros in all samples that were read.
    depth: u32,
    /// Those of each channel.
    channels: Vec<Vec<i32>>,
}

/// Whether whole inter-channel samples, of `row` bytes each, are of an odd number of bytes.
fn are_odd(channels: &[Vec<i32>], row: usize) -> bool
    ensures { not result ≡ nat_eq (samples_each (map (λ c. c.items) channels.now) * row % 2) 0 }
{
    match channels.first() {
        Some(first) => first.len() % 2 == 1 && row % 2 == 1,
        None => false,
    }
}

/// Shifts samples down by `shift` bits.
fn lower_samples(samples: &mut [i32], shift: u32)
    requires { shift < 32 }
    ensures { samples.new ≡ shifted shift samples.old }
{
    for i in 0..samples.len() {
        samples[i] >>= shift;
    }
}

/// Shifts the samples of all channels down by `shift` bits.
fn lower_channels(channels: &mut [Vec<i32>], shift: u32)
    requires { shift < 32 }
    ensures { map (λ c. c.items) channels.new ≡ map (shifted shift) (map (λ c. c.items) channels.old) }
{
    for i in 0..channels.len() {
        lower_samples(&mut channels[i], shift);
    }
}

/// The samples as those of a stream, shifted down in place if their bytes have more bits.
fn stream_samples(format: &WaveFormat, held: HeldSamples) -> WaveSamples
    requires range { IsInRange format.now }
    requires depth { HasRoom format.now held.depth }
    ensures { (bytes : List ℕ) → AreHeld format.now bytes held → AreTaken format.now bytes result }
{
    let HeldSamples { depth, channels } = held;
    let width = sample_width(format.bits);
    let odd = are_odd(channels.as_slice(), format.channels as usize * width);
    let shift = 8 * width as u32 - depth;
    if shift == 0 {
        return WaveSamples {
            depth,
            channels,
            odd,
        };
    }
    let mut channels = channels;
    lower_channels(&mut channels, shift);
    WaveSamples {
        depth,
        channels,
        odd,
    }
}

/// No samples of this format.
///
/// # Errors
/// An allocation failed.
fn none_held(alloc: Global, format: &WaveFormat) -> Result<HeldSamples, Why>
    requires range { IsInRange format.now }
    ensures none { IfOk result (IsHeld format.now [] 0) }
    ensures many { IfOk result (λ held. length held.channels.items ≡ format.now.channels) }
    ensures room { IfOk result (λ held. HasRoom format.now held.depth) }
    ensures memory { IfErr result (λ e. e ≡ Why.Memory) }
{
    let channels = no_samples(alloc, format.channels as usize)?;
    let depth = format.depth_of(&[]);
    Ok(HeldSamples { depth, channels })
}

/// Adds the samples of a piece of whole inter-channel samples, whose bytes become signed numbers if they are unsigned.
///
/// # Errors
/// An allocation failed.
fn hold_piece(format: &WaveFormat, piece: &mut [u8], held: &mut HeldSamples) -> Result<(), Why>
    requires range { IsInRange format.now }
    requires many { length held.old.channels.items ≡ format.now.channels }
    requires whole { length piece.old % row_of format.now ≡ 0 }
    requires room { HasRoom format.now held.old.depth }
    ensures more { OnOk result (HoldsMore format.now piece.old held.old held.new) }
    ensures many { OnOk result (length held.new.channels.items ≡ format.now.channels) }
    ensures room { OnOk result (HasRoom format.now held.new.depth) }
    ensures memory { IfErr result (λ e. e ≡ Why.Memory) }
{
    bytes_fit(piece);
    held.depth = held.depth.max(format.depth_of(piece));
    let width = sample_width(format.bits);
    turn(width, piece);
    let count = piece.len() / format.row() as usize;
    push_piece(piece, count, width, &mut held.channels)
}

/// Reads all bytes of a source as the samples of a WAV file of this format. `None` if the last inter-channel sample is
/// not whole. The bytes are read in pieces of at most 16384, and none of them is held beside the samples.
///
/// # Errors
/// The source returned an error, or an allocation failed.
fn read_held<R: Source>(
    alloc: Global,
    format: &WaveFormat,
    source: &mut R,
) -> Result<Option<HeldSamples>, Why>
    requires range { IsInRange format.now }
    ensures held { IfSomeRead R.Source source.old (AreHeldOf format.now) result }
    ensures room { IfOk result (λ o. IfSome o (λ h. HasRoom format.now h.depth)) }
    ensures part { IfNoneRead R.Source source.old (EndsInside (row_of format.now)) result }
    ensures read { OnOk result (HasRead R.Source source.old source.new) }
    ensures memory { IfErr result (λ e. IfRead R.Source source.old source.new (e ≡ Why.Memory)) }
    ensures names { R.names source.new ≡ R.names source.old }
{
    let row = format.row() as usize;
    let size = PIECE / row * row;
    let mut held = none_held(alloc, format)?;
    let mut piece = [0u8; PIECE];
    'pieces: loop {
        let count = fill(source, &mut piece, size)?;
        if count % row != 0 {
            return Ok(None);
        }
        hold_piece(format, &mut piece[..count], &mut held)?;
        if count < size {
            return Ok(Some(held));
        }
    }
}

/// Reads all bytes of a source as the samples of a WAV file of this format. `None` if the last inter-channel sample is
/// not whole.
///
/// No bytes are held beside the samples: those of 8 bits, which are unsigned in the file, become signed as they are
/// read, and samples of which fewer bits count than they have are shifted down once all were read.
///
/// # Errors
/// The source returned an error, or an allocation failed.
pub(crate) fn read_samples<R: Source>(
    alloc: Global,
    format: &WaveFormat,
    source: &mut R,
) -> Result<Option<WaveSamples>, Why>
    requires range { IsInRange format.now }
    ensures taken { IfSomeRead R.Source source.old (AreTakenOf format.now) result }
    ensures part { IfNoneRead R.Source source.old (EndsInside (row_of format.now)) result }
    ensures read { OnOk result (HasRead R.Source source.old source.new) }
    ensures memory { IfErr result (λ e. IfRead R.Source source.old source.new (e ≡ Why.Memory)) }
    ensures names { R.names source.new ≡ R.names source.old }
{
    match read_held(alloc, format, source)? {
        Some(held) => Ok(Some(stream_samples(format, held))),
        None => Ok(None),
    }
}
