//! Plain WAV files: samples, and what is needed to read them.

ghost use Rattle.std.specs.Prelude.{◌≡◌, ◌<◌, ◌≤◌, ◌+◌, ◌*◌, ◌%◌, ◌++◌, ◌||◌, [], map, nat_lt, IfOk, OnOk};
ghost use Rattle.byteorder.specs.Endian.{little_bytes};
ghost use Rattle.flac_wave.specs.Format.{row_of};
ghost use Rattle.flac_wave.specs.Plain.{mask_of, plain_format, needs_extensible, format_fields, basic_chunk, extensible_chunk, format_chunk, format_len, other_mask, file_header, data_header, sizes_chunk, short_pieces, long_pieces, known_pieces, plain_pieces, riff_size, CanBeWritten};

use crate::chunks::{DATA, FORMAT, LONG_SIZES, RF64, RIFF, WAVE};
use crate::format::WaveFormat;
use std::alloc::{AllocError, Global};

/// The speakers of 1 to 8 channels of a stream.
#[tactic(auto, unfolding(crate::specs::Plain::mask_of))]
fn mask_of(channels: u32) -> u32
    ensures { result ≡ mask_of channels }
{
    if channels == 1 {
        return 0x4;
    }
    if channels == 2 {
        return 0x3;
    }
    if channels == 3 {
        return 0x7;
    }
    if channels == 4 {
        return 0x33;
    }
    if channels == 5 {
        return 0x37;
    }
    if channels == 6 {
        return 0x3F;
    }
    if channels == 7 {
        return 0x70F;
    }
    0x63F
}

impl WaveFormat {
    /// Which speakers the channels are for, if the file says others than RFC 9639, section 9.1.3, has for n channels.
    pub fn other_mask(&self) -> Option<u32>
        ensures { result ≡ other_mask self.now }
    {
        let mask = self.mask?;
        if mask == mask_of(self.channels) {
            return None;
        }
        Some(mask)
    }
}

/// Whether a chunk `fmt ` of 16 bytes is too short for a format.
fn needs_extensible(channels: u32, bits: u32) -> bool
    ensures { result ≡ needs_extensible channels bits }
{
    channels > 2 || bits > 16 || bits % 8 > 0
}

impl WaveFormat {
    /// The format of a plain WAV file of the samples of a stream: `rate` in Hz, below 134217728 (2^27), 1 to 8
    /// channels, `bits` bits of a sample, 1 to 32. Its samples have whole bytes, of which the highest `bits` bits
    /// count. It states the speakers of its channels if it has more than 2 channels, more than 16 bits, or if its bits
    /// are no multiple of 8.
    #[tactic(auto, unfolding(crate::specs::Plain::plain_format))]
    pub fn plain(rate: u32, channels: u32, bits: u32) -> WaveFormat
        requires rate { rate < 134217728 }
        requires channels { (0 < channels) × (channels < 9) }
        requires bits { (0 < bits) × (bits < 33) }
        ensures value { result ≡ plain_format rate channels bits }
        ensures written { CanBeWritten result }
    {
        WaveFormat {
            rate,
            channels,
            bits: 8 * ((bits + 7) / 8),
            valid: bits,
            mask: if needs_extensible(channels, bits) {
                Some(mask_of(channels))
            } else {
                None
            },
        }
    }
}

/// Adds a number as two bytes, the lowest first.
fn put_short(bytes: &mut Vec<u8>, value: u16) -> Result<(), AllocError>
    ensures { OnOk result (bytes.new.items ≡ bytes.old.items ++ little_bytes 2 value) }
{
    bytes.extend_from_slice(&value.to_le_bytes())
}

/// Adds a number as four bytes, the lowest first.
fn put_long(bytes: &mut Vec<u8>, value: u32) -> Result<(), AllocError>
    ensures { OnOk result (bytes.new.items ≡ bytes.old.items ++ little_bytes 4 value) }
{
    bytes.extend_from_slice(&value.to_le_bytes())
}

/// Adds a number as eight bytes, the lowest first.
fn put_longer(bytes: &mut Vec<u8>, value: u64) -> Result<(), AllocError>
    ensures { OnOk result (bytes.new.items ≡ bytes.old.items ++ little_bytes 8 value) }
{
    bytes.extend_from_slice(&value.to_le_bytes())
}

/// The header of a file: its identifier, the length of what follows, `WAVE`.
#[tactic(auto, unfolding(crate::specs::Plain::file_header))]
fn file_header(alloc: Global, id: u32, size: u32) -> Result<Vec<u8>, AllocError>
    ensures { IfOk result (λ v. v.items ≡ file_header id size) }
{
    let mut bytes = Vec::with_capacity(alloc, 12)?;
    put_long(&mut bytes, id)?;
    put_long(&mut bytes, size)?;
    put_long(&mut bytes, WAVE)?;
    Ok(bytes)
}

/// `data` and the length of the samples.
#[tactic(auto, unfolding(crate::specs::Plain::data_header))]
fn data_header(alloc: Global, size: u32) -> Result<Vec<u8>, AllocError>
    ensures { IfOk result (λ v. v.items ≡ data_header size) }
{
    let mut bytes = Vec::with_capacity(alloc, 8)?;
    put_long(&mut bytes, DATA)?;
    put_long(&mut bytes, size)?;
    Ok(bytes)
}

/// The chunk `ds64` of 28 bytes.
#[tactic(auto, unfolding(crate::specs::Plain::sizes_chunk))]
fn sizes_chunk(alloc: Global, all: u64, size: u64, total: u64) -> Result<Vec<u8>, AllocError>
    ensures { IfOk result (λ v. v.items ≡ sizes_chunk all size total) }
{
    let mut bytes = Vec::with_capacity(alloc, 36)?;
    put_long(&mut bytes, LONG_SIZES)?;
    put_long(&mut bytes, 28)?;
    put_longer(&mut bytes, all)?;
    put_longer(&mut bytes, size)?;
    put_longer(&mut bytes, total)?;
    put_long(&mut bytes, 0)?;
    Ok(bytes)
}

/// The fields that both forms of the chunk `fmt ` begin with.
#[tactic(auto, unfolding(crate::specs::Plain::format_fields))]
fn format_fields(
    alloc: Global,
    size: u32,
    coding: u16,
    format: &WaveFormat,
) -> Result<Vec<u8>, AllocError>
    requires { CanBeWritten format.now }
    ensures { IfOk result (λ v. v.items ≡ format_fields size coding format.now) }
{
    let row = format.channels * ((format.bits + 7) / 8);
    let mut bytes = Vec::with_capacity(alloc, 48)?;
    put_long(&mut bytes, FORMAT)?;
    put_long(&mut bytes, size)?;
    put_short(&mut bytes, coding)?;
    put_short(&mut bytes, format.channels as u16)?;
    put_long(&mut bytes, format.rate)?;
    put_long(&mut bytes, format.rate * row)?;
    put_short(&mut bytes, row as u16)?;
    put_short(&mut bytes, format.bits as u16)?;
    Ok(bytes)
}

/// The chunk `fmt ` of 40 bytes.
#[tactic(auto, unfolding(crate::specs::Plain::format_fields, crate::specs::Plain::extensible_chunk))]
fn extensible_chunk(alloc: Global, format: &WaveFormat, mask: u32) -> Result<Vec<u8>, AllocError>
    requires format { CanBeWritten format.now }
    requires valid { format.now.valid < 65536 }
    ensures { IfOk result (λ v. v.items ≡ extensible_chunk format.now mask) }
{
    let mut bytes = format_fields(alloc, 40, 65534, format)?;
    put_short(&mut bytes, 22)?;
    put_short(&mut bytes, format.valid as u16)?;
    put_long(&mut bytes, mask)?;
    put_long(&mut bytes, 1)?;
    put_long(&mut bytes, 0x0010_0000)?;
    put_long(&mut bytes, 0xAA00_0080)?;
    put_long(&mut bytes, 0x719B_3800)?;
    Ok(bytes)
}

/// The chunk `fmt ` of a plain file.
#[tactic(auto, unfolding(crate::specs::Plain::basic_chunk))]
fn format_chunk(alloc: Global, format: &WaveFormat) -> Result<Vec<u8>, AllocError>
    requires { CanBeWritten format.now }
    ensures { IfOk result (λ v. v.items ≡ format_chunk format.now) }
{
    match format.mask {
        None => format_fields(alloc, 16, 1, format),
        Some(mask) => extensible_chunk(alloc, format, mask),
    }
}

/// How many bytes the chunk `fmt ` has.
fn format_len(format: &WaveFormat) -> u64
    ensures value { result ≡ format_len format.now }
    ensures small { result ≤ 48 }
{
    match format.mask {
        None => 24,
        Some(_) => 48,
    }
}

/// The pieces of a file whose headers state these lengths.
fn short_pieces(
    alloc: Global,
    format: &WaveFormat,
    all: u32,
    size: u32,
) -> Result<Vec<Vec<u8>>, AllocError>
    requires { CanBeWritten format.now }
    ensures { IfOk result (λ pieces. map (λ p. p.items) pieces.items ≡ short_pieces format.now all size) }
{
    let mut pieces = Vec::with_capacity(alloc, 4)?;
    pieces.push(file_header(alloc, RIFF, all)?)?;
    pieces.push(format_chunk(alloc, format)?)?;
    pieces.push(data_header(alloc, size)?)?;
    Ok(pieces)
}

/// The pieces of an RF64 file, of which `all` bytes follow the first 8.
fn long_pieces(
    alloc: Global,
    format: &WaveFormat,
    all: u64,
    size: u64,
    total: u64,
) -> Result<Vec<Vec<u8>>, AllocError>
    requires format { CanBeWritten format.now }
    requires all { all ≡ 36 + riff_size format.now size }
    ensures { IfOk result (λ pieces. map (λ p. p.items) pieces.items ≡ long_pieces format.now size total) }
{
    let mut pieces = Vec::with_capacity(alloc, 4)?;
    pieces.push(file_header(alloc, RF64, u32::MAX)?)?;
    pieces.push(sizes_chunk(alloc, all, size, total)?)?;
    pieces.push(format_chunk(alloc, format)?)?;
    pieces.push(data_header(alloc, u32::MAX)?)?;
    Ok(pieces)
}

/// The pieces of a file of a known number of samples.
fn known_pieces(
    alloc: Global,
    format: &WaveFormat,
    size: u64,
    total: u64,
) -> Result<Vec<Vec<u8>>, AllocError>
    requires format { CanBeWritten format.now }
    requires size { size < 4398046511104 }
    ensures { IfOk result (λ pieces. map (λ p. p.items) pieces.items ≡ known_pieces format.now size total) }
{
    let all = 12 + format_len(format) + size + size % 2;
    if all < 4_294_967_295 {
        return short_pieces(alloc, format, all as u32, size as u32);
    }
    long_pieces(alloc, format, 36 + all, size, total)
}

/// The pieces of a plain WAV file of `total` inter-channel samples, or of any number of them if `total` is 0: the
/// header of the file, its chunks, and the header of the samples. After these come the samples, and a zero if they have
/// an odd number of bytes. If `total` is 0, no zero follows them: then a last piece, without a byte, says so.
///
/// `total` is below 2^36. The format is one of [`WaveFormat::plain`], or another of 1 to 8 channels of 1 to 32 bits of
/// which a second has fewer than 2^32 bytes; without speakers (`mask`) all its bits count. If 4294967295 bytes or more
/// would follow the first 8, the file is one of RF64. If `total` is 0, the headers state the length FFFFFFFF.
///
/// ```
/// let format = WaveFormat::plain(44100, 2, 16);
/// let pieces = plain_pieces(rt.alloc(), &format, 1000)?;
/// ```
///
/// # Errors
/// An allocation fails.
pub fn plain_pieces(
    alloc: Global,
    format: &WaveFormat,
    total: u64,
) -> Result<Vec<Vec<u8>>, AllocError>
    requires format { CanBeWritten format.now }
    requires total { total < 68719476736 }
    ensures { IfOk result (λ pieces. map (λ p. p.items) pieces.items ≡ plain_pieces format.now total) }
{
    if total == 0 {
        let mut pieces = short_pieces(alloc, format, u32::MAX, u32::MAX)?;
        pieces.push(Vec::new(alloc))?;
        return Ok(pieces);
    }
    known_pieces(alloc, format, total * format.row(), total)
}
