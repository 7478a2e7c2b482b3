//! The chunk `fmt ` of a WAV file.

ghost use Rattle.std.specs.Prelude.{◌≡◌, ◌≤◌, ◌+◌, ◌*◌, ◌<◌, length, None, Some, IfOk, IfErr};
ghost use Rattle.flac_wave.specs.Format.{short_at, long_at, is_extensible, has_pcm_guid, is_pcm, fields_fit, format_fault, format_of, row_of};
ghost use Rattle.flac_wave.specs.Chunks.{size_of};

use crate::why::WaveWhy;
use byteorder::{ByteOrder, LittleEndian};

/// The format of the samples of a WAV file.
#[derive(Clone, Copy, Debug, PartialEq, Eq)]
pub struct WaveFormat {
    /// Sample rate in Hz.
    pub rate: u32,
    /// The number of channels, 1 to 8.
    pub channels: u32,
    /// The bits of a sample, 1 to 32. It has the fewest whole bytes that hold them.
    pub bits: u32,
    /// How many of these bits count, the highest of them.
    pub valid: u32,
    /// Which speakers the channels are for, if the file says so.
    pub mask: Option<u32>,
}

/// The number of two bytes at a place, the lowest first.
fn short_at(bytes: &[u8], place: usize) -> u32
    requires { place + 2 ≤ length bytes.now }
    ensures value { result ≡ short_at place bytes.now }
    ensures small { result < 65536 }
{
    u32::from(LittleEndian::read_u16(&bytes[place..]))
}

/// The number of four bytes at a place, the lowest first.
pub(crate) fn long_at(bytes: &[u8], place: usize) -> u32
    requires { place + 4 ≤ length bytes.now }
    ensures { result ≡ long_at place bytes.now }
{
    LittleEndian::read_u32(&bytes[place..])
}

/// Whether the coding is `WAVE_FORMAT_EXTENSIBLE`, with all its fields.
fn is_extensible(chunk: &[u8]) -> bool
    requires { 10 ≤ length chunk.now }
    ensures { result ≡ is_extensible chunk.now }
{
    short_at(chunk, 8) == 65534 && long_at(chunk, 4) >= 40
}

/// Whether the coding of an extensible format is PCM.
fn has_pcm_guid(chunk: &[u8]) -> bool
    requires { 48 ≤ length chunk.now }
    ensures { result ≡ has_pcm_guid chunk.now }
{
    long_at(chunk, 32) == 1
        && long_at(chunk, 36) == 0x0010_0000
        && long_at(chunk, 40) == 0xAA00_0080
        && long_at(chunk, 44) == 0x719B_3800
}

/// Whether the samples are PCM.
#[tactic(auto, unfolding(crate::specs::Format::is_pcm))]
fn is_pcm(chunk: &[u8]) -> bool
    requires whole { 8 + size_of chunk.now ≤ length chunk.now }
    requires long { 16 ≤ size_of chunk.now }
    ensures { result ≡ is_pcm chunk.now }
{
    short_at(chunk, 8) == 1 || (is_extensible(chunk) && has_pcm_guid(chunk))
}

/// Whether the fields fit one another.
#[tactic(auto, unfolding(crate::specs::Format::fields_fit))]
fn fields_fit(chunk: &[u8]) -> bool
    requires { 24 ≤ length chunk.now }
    ensures { result ≡ fields_fit chunk.now }
{
    let channels = short_at(chunk, 10);
    let bits = short_at(chunk, 22);
    if channels == 0 || channels > 8 || bits == 0 || bits > 32 {
        return false;
    }
    short_at(chunk, 20) == channels * ((bits + 7) / 8)
}

/// The format that a chunk `fmt ` states.
///
/// # Errors
/// Why it is not the format of samples that are read.
#[tactic(auto, unfolding(crate::specs::Format::format_fault, crate::specs::Format::format_of))]
pub(crate) fn format_at(chunk: &[u8]) -> Result<WaveFormat, WaveWhy>
    requires { 8 + size_of chunk.now ≤ length chunk.now }
    ensures found { IfOk result (λ f. (format_fault chunk.now ≡ None) × (f ≡ format_of chunk.now)) }
    ensures fault { IfErr result (λ e. format_fault chunk.now ≡ Some e) }
{
    if long_at(chunk, 4) < 16 {
        return Err(WaveWhy::FormatLength);
    }
    if !is_pcm(chunk) {
        return Err(WaveWhy::Coding);
    }
    if !fields_fit(chunk) {
        return Err(WaveWhy::FormatFields);
    }
    let bits = short_at(chunk, 22);
    let extensible = is_extensible(chunk);
    Ok(WaveFormat {
        rate: long_at(chunk, 12),
        channels: short_at(chunk, 10),
        bits,
        valid: if extensible {
            short_at(chunk, 26)
        } else {
            bits
        },
        mask: if extensible {
            Some(long_at(chunk, 28))
        } else {
            None
        },
    })
}

impl WaveFormat {
    /// How many bytes an inter-channel sample has.
    pub fn row(&self) -> u64
        ensures { result ≡ row_of self.now }
    {
        u64::from(self.channels) * ((u64::from(self.bits) + 7) / 8)
    }
}
