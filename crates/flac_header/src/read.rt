//! Reading of frame headers.

ghost use Rattle.std.specs.Prelude.{◌≡◌, ◌<◌, ◌+◌, ◌^◌, IfOk};
ghost use Rattle.flac_bits.specs.Reading.{Reads, Means, CallInPlace};
ghost use Rattle.flac_bits.specs.State.{started};
ghost use Rattle.flac_bits.specs.Number.{number};
ghost use Rattle.flac_bits.specs.Coded.{IsNumber};
ghost use Rattle.flac_header.specs.Header.{size_field, rate_field, rate_of_code, header, IsSize, IsRate};
ghost use Rattle.flac_header.specs.inner.Codes.{codes, codes_of, AreValid};

use crate::blocking_strategy::BlockingStrategy;
use crate::frame_header::FrameHeader;
use flac_bits::{BitReader, Source, Why, read_number};

/// The block size of a code, with the field that codes 6 and 7 ask for (RFC 9639, section 9.1.6).
#[tactic(auto, unfolding(crate::specs::Header::size_field))]
fn read_size<R: Source>(bits: &mut BitReader<R>, code: u8) -> Result<u32, Why>
    requires chosen { 0 < code }
    requires small { code < 16 }
    // proof only
    ensures fits { IfOk result (λ v. IsSize code v) }
    ensures reading { CallInPlace 0 (Reads (λ v. v) (size_field code)) bits.old bits.new result }
{
    let size = match code {
        1 => 192,
        2..=5 => 144 << code,
        6 => bits.take(8)? as u32 + 1,
        7 => {
            let less_one = bits.take(16)? as u32;
            if less_one == 65535 {
                return Err(Why::ReservedCode);
            }
            less_one + 1
        }
        _ => 1 << code,
    };
    Ok(size)
}

/// The rate in Hz that a code names by itself, and 0 for every other code (RFC 9639, section 9.1.2).
fn named_rate(code: u8) -> u32
    ensures is { result ≡ rate_of_code code }
    // proof only
    ensures fits { code < 12 → IsRate code result }
{
    match code {
        0 => 0,
        1 => 88200,
        2 => 176400,
        3 => 192000,
        4 => 8000,
        5 => 16000,
        6 => 22050,
        7 => 24000,
        8 => 32000,
        9 => 44100,
        10 => 48000,
        11 => 96000,
        _ => 0,
    }
}

/// The rate in Hz of a code, with the field that codes 12 to 14 ask for (RFC 9639, section 9.1.7).
#[tactic(auto, unfolding(crate::specs::Header::rate_field))]
fn read_rate<R: Source>(bits: &mut BitReader<R>, code: u8) -> Result<u32, Why>
    requires { code < 15 }
    // proof only
    ensures fits { IfOk result (λ v. IsRate code v) }
    ensures reading { CallInPlace 0 (Reads (λ v. v) (rate_field code)) bits.old bits.new result }
{
    let rate = match code {
        12 => bits.take(8)? as u32 * 1000,
        13 => bits.take(16)? as u32,
        14 => bits.take(16)? as u32 * 10,
        _ => named_rate(code),
    };
    Ok(rate)
}

/// What [`read_number`] does, proved by the reading of the layout.
fn number_by_layout<R: Source>(bits: &mut BitReader<R>, max_bits: u32) -> Result<u64, Why>
    // proof only
    ensures fits { IfOk result (λ v. IsNumber max_bits v) }
    ensures reading { CallInPlace 8 (Reads (λ v. v) (number max_bits)) bits.old bits.new result }
{
    read_number(bits, max_bits)
}

/// What is before the coded number of a header.
struct Codes {
    strategy: BlockingStrategy,
    size_code: u8,
    rate_code: u8,
    channel_code: u8,
    depth_code: u8,
}

/// Reads the sync code of a header, its blocking strategy and its codes.
#[tactic(auto, unfolding(crate::specs::inner::Codes::codes))]
fn read_codes<R: Source>(bits: &mut BitReader<R>) -> Result<Codes, Why>
    // proof only
    ensures fits { IfOk result AreValid }
    ensures reading { CallInPlace 32 (Reads codes_of codes) bits.old bits.new result }
{
    if bits.take(15)? != 0x7FFC {
        return Err(Why::BadSync);
    }
    let bit = bits.take(1)?;
    let strategy = BlockingStrategy::from_bit(bit);
    let size_code = bits.take(4)? as u8;
    if size_code == 0 {
        return Err(Why::ReservedCode);
    }
    let rate_code = bits.take(4)? as u8;
    if rate_code == 15 {
        return Err(Why::ReservedCode);
    }
    let channel_code = bits.take(4)? as u8;
    if channel_code > 10 {
        return Err(Why::ReservedCode);
    }
    let depth_code = bits.take(3)? as u8;
    if depth_code == 3 {
        return Err(Why::ReservedCode);
    }
    if bits.take(1)? != 0 {
        return Err(Why::ReservedCode);
    }
    Ok(Codes {
        strategy,
        size_code,
        rate_code,
        channel_code,
        depth_code,
    })
}

/// Reads a header from its first bit on; the checks began there.
fn read_fields<R: Source>(bits: &mut BitReader<R>) -> Result<FrameHeader, Why>
    ensures reading { CallInPlace 40 (Reads (λ h. h) header) bits.old bits.new result }
{
    let Codes {
        strategy,
        size_code,
        rate_code,
        channel_code,
        depth_code,
    } = read_codes(bits)?;
    let number = number_by_layout(bits, strategy.number_bits())?;
    let size = read_size(bits, size_code)?;
    let rate = read_rate(bits, rate_code)?;
    let check = bits.check8();
    if bits.take(8)? != u64::from(check) {
        return Err(Why::HeaderCheck);
    }
    Ok(FrameHeader {
        strategy,
        size_code,
        size,
        rate_code,
        rate,
        channel_code,
        depth_code,
        number,
    })
}

/// Reads a frame header with its CRC-8 (RFC 9639, section 9.1). The reader should be at a whole byte: there the checks
/// begin anew.
///
/// ```
/// let mut bits = BitReader::new(Memory::new(&[0xFF, 0xF8, 0x69, 0x08, 0x00, 0x0F, 0x30]));
/// let header = read_header(&mut bits)?; // 16 samples of one channel, 16 bits at 44100 Hz
/// ```
///
/// # Errors
/// The error of the field that ends first:
///
/// - [`Why::BadSync`] if the first 15 bits are not the sync code.
/// - [`Why::ReservedCode`] if a code is reserved or forbidden, the reserved bit is set, or the block size is 65536.
/// - [`Why::BadNumber`] if the coded number is malformed, too long, or not in its shortest form.
/// - [`Why::HeaderCheck`] if the CRC-8 differs.
/// - Those of [`BitReader`].
pub fn read_header<R: Source>(bits: &mut BitReader<R>) -> Result<FrameHeader, Why>
    ensures reading { CallInPlace 40 (λ old. Means (λ h. h) header (started old)) bits.old bits.new result }
{
    bits.start_checks();
    read_fields(bits)
}
