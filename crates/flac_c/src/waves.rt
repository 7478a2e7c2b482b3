//! Describes a WAV file in memory.

ghost use Rattle.std.specs.Prelude.{◌≡◌, ◌≢◌, List, ℕ, false};
ghost use Rattle.flac_wave.specs.Format.{IsInRange};
ghost use Rattle.flac_wave.specs.Wave.{IsWave, IsErrorOf, parts_of};
ghost use Rattle.flac_c.specs.Waves.{DescribesWave, RefusesWave};

use flac_bits::Why;
use flac_wave::{Wave, WaveError, wave_of};
use std::alloc::Global;

/// A WAV file of PCM samples: their format, and where they are.
#[repr(C)]
#[derive(Clone, Copy, Drop)]
pub struct FlacProvedWave {
    /// Bytes from the first byte of the file to the first sample.
    pub offset: u64,
    /// Bytes of all samples.
    pub len: u64,
    /// The sample rate in Hz.
    pub rate: u32,
    /// How many channels there are, 1 to 8.
    pub channels: u32,
    /// Bits per sample that a stream has of them, 8 to 32: the bits that count, if they are 8, 12, 16, 20, 24 or 32 and
    /// all bits below them are zeros; else all bits of their bytes.
    pub bits: u32,
    /// Bytes of a sample, 1 to 4.
    pub width: u32,
}

/// The format and the place of the samples of a file.
fn wave_in_c(bytes: &[u8], wave: &Wave<'_>) -> FlacProvedWave
    requires wave { IsWave false bytes.now (parts_of wave.now) }
    requires range { IsInRange wave.now.format }
    ensures { DescribesWave bytes.now result }
{
    let after = bytes.len() - wave.back.len();
    FlacProvedWave {
        offset: (after - wave.samples.len()) as u64,
        len: wave.samples.len() as u64,
        rate: wave.format.rate,
        channels: wave.format.channels,
        bits: wave.format.depth_of(wave.samples),
        width: (wave.format.bits + 7) / 8,
    }
}

/// The number of the reason for which bytes in memory are no WAV file, or 2 if an allocation failed.
fn number_of(error: WaveError) -> u32
    ensures number { (bytes : List ℕ) → IsErrorOf false bytes error → RefusesWave bytes result }
    ensures some { result ≢ 0 }
{
    match error {
        WaveError::Memory => u32::from(Why::Memory.number()),
        WaveError::Read => u32::from(Why::Read.number()),
        WaveError::Fault(fault) => fault.why.number(),
    }
}

/// Takes a WAV file apart that is in memory: RIFF, RF64 or BW64, of PCM samples of 1 to 32 bits in 1 to 8 channels. Its
/// samples are the `len` bytes from `offset` on.
///
/// Returns 0, or the number of the reason for which the bytes are no such file, 60 to 70 or 92 as
/// [`flac_wave::WaveWhy::number`], or 2 if an allocation fails; `wave` is unchanged then.
#[unsafe(no_mangle)]
pub extern "C" fn flac_proved_wave(alloc: Global, bytes: &[u8], wave: &mut FlacProvedWave) -> u32
    ensures found { result ≡ 0 → DescribesWave bytes.now wave.new }
    ensures refused { result ≢ 0 → RefusesWave bytes.now result }
    ensures kept { result ≢ 0 → wave.new ≡ wave.old }
{
    match wave_of(alloc, bytes, false) {
        Ok(found) => {
            *wave = wave_in_c(bytes, &found);
            0
        }
        Err(error) => number_of(error),
    }
}
