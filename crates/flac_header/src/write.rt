//! Writing of frame headers.

ghost use Rattle.std.specs.Prelude.{◌≡◌, ◌≤◌, ◌*◌, ℕ, length};
ghost use Rattle.flac_bits.specs.Written.{Writes};
ghost use Rattle.flac_bits.specs.inner.Written.{WritesParts};
ghost use Rattle.flac_header.specs.Header.{IsSize, IsRate};
ghost use Rattle.flac_header.specs.Spelling.{size_spelling, rate_spelling, code_parts, header_parts, header_spelling, restarted};

use crate::frame_header::FrameHeader;
use flac_bits::{BitWriter, Target, Why, number_len, write_number};

/// Writes the block size, if the code asks for a field (RFC 9639, section 9.1.6).
#[tactic(auto, unfolding(crate::specs::Spelling::size_spelling))]
fn put_size<W: Target>(writer: &mut BitWriter<W>, code: u8, size: u32) -> Result<(), Why>
    requires { IsSize code size }
    ensures { Writes (size_spelling code size) writer.old writer.new result }
{
    match code {
        6 => writer.put(8, (size - 1) as u64),
        7 => writer.put(16, (size - 1) as u64),
        _ => Ok(()),
    }
}

/// Writes the rate, if the code asks for a field (RFC 9639, section 9.1.7).
#[tactic(auto, unfolding(crate::specs::Spelling::rate_spelling))]
fn put_rate<W: Target>(writer: &mut BitWriter<W>, code: u8, rate: u32) -> Result<(), Why>
    requires { IsRate code rate }
    ensures { Writes (rate_spelling code rate) writer.old writer.new result }
{
    match code {
        12 => writer.put(8, (rate / 1000) as u64),
        13 => writer.put(16, rate as u64),
        14 => writer.put(16, (rate / 10) as u64),
        _ => Ok(()),
    }
}

/// Writes the sync code, the blocking strategy, the codes and the reserved bit.
#[tactic(auto, unfolding(crate::specs::Spelling::code_parts))]
fn put_codes<W: Target>(writer: &mut BitWriter<W>, header: &FrameHeader) -> Result<(), Why>
    ensures { WritesParts (code_parts header.now) writer.old writer.new result }
{
    let strategy = header.strategy.bit();
    writer.put(15, 0x7FFC)?;
    writer.put(1, strategy)?;
    writer.put(4, header.size_code as u64)?;
    writer.put(4, header.rate_code as u64)?;
    writer.put(4, header.channel_code as u64)?;
    writer.put(3, header.depth_code as u64)?;
    writer.put(1, 0)
}

/// Writes all but the check.
#[tactic(auto, unfolding(crate::specs::Spelling::header_parts))]
fn put_fields<W: Target>(writer: &mut BitWriter<W>, header: &FrameHeader) -> Result<(), Why>
    ensures { WritesParts (header_parts header.now) writer.old writer.new result }
{
    put_codes(writer, header)?;
    write_number(header.number, writer)?;
    put_size(writer, header.size_code, header.size)?;
    put_rate(writer, header.rate_code, header.rate)
}

/// Writes a frame header with its CRC-8 at a whole byte, where the checks begin anew (RFC 9639, section 9.1).
///
/// # Errors
/// [`Why::Write`] if the target fails.
pub fn write_header<W: Target>(header: &FrameHeader, writer: &mut BitWriter<W>) -> Result<(), Why>
    requires { writer.old.mark.unread ≡ 0 }
    ensures { Writes (header_spelling header.now) (restarted writer.old) writer.new result }
{
    writer.start_checks()?;
    put_fields(writer, header)?;
    let check = writer.check8();
    writer.put(8, check as u64)
}

/// How many bytes the block size takes under a code: none if the code names it (RFC 9639, section 9.1.6).
fn size_bytes(code: u8) -> u64
    ensures long { (size : ℕ) → length (size_spelling code size) ≡ 8 * result }
    ensures few { result ≤ 2 }
{
    match code {
        6 => 1,
        7 => 2,
        _ => 0,
    }
}

/// How many bytes the rate takes under a code: none if the code names it, or leaves it to STREAMINFO (RFC 9639, section
/// 9.1.7).
fn rate_bytes(code: u8) -> u64
    ensures long { (rate : ℕ) → length (rate_spelling code rate) ≡ 8 * result }
    ensures few { result ≤ 2 }
{
    match code {
        12 => 1,
        13 => 2,
        14 => 2,
        _ => 0,
    }
}

impl FrameHeader {
    /// How many bytes the header has, with its CRC-8: 6 to 16 (RFC 9639, section 9.1). [`write_header`] writes as many.
    ///
    /// ```
    /// let bytes = header.bytes(); // 6, if codes name the block size and the rate, and the number is below 128
    /// ```
    pub fn bytes(&self) -> u64
        ensures bytes { length (header_spelling self.now) ≡ 8 * result }
        ensures few { (6 ≤ result) × (result ≤ 16) }
    {
        let coded = number_len(self.number) as u64;
        5 + coded + size_bytes(self.size_code) + rate_bytes(self.rate_code)
    }
}
