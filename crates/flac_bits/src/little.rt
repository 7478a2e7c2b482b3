//! Numbers whose lowest byte comes first.

ghost use Rattle.std.specs.Prelude.{◌+◌};
ghost use Rattle.flac_bits.specs.LittleEndian.{little_32, little_64, little_bits};
ghost use Rattle.flac_bits.specs.Reading.{Reads, CallInPlace, PullsFor};
ghost use Rattle.flac_bits.specs.Written.{Writes};

use crate::bytes::read_bytes;
use crate::reader::BitReader;
use crate::source::Source;
use crate::target::Target;
use crate::why::Why;
use crate::writer::BitWriter;
use byteorder::{ByteOrder, LittleEndian};

/// Reads an unsigned number of four bytes, the lowest first (RFC 9639, section 8.6; RFC 3533, section 6).
///
/// # Errors
/// Those of [`BitReader`].
#[tactic(auto, using(crate::proofs::LittleNumbers::bytes_are_little_32))]
pub fn read_little_32<R: Source>(bits: &mut BitReader<R>) -> Result<u32, Why>
    ensures reading { CallInPlace 32 (Reads (λ v. v) little_32) bits.old bits.new result }
    ensures needed { PullsFor 32 bits.old bits.new result }
{
    let mut bytes = [0; 4];
    read_bytes(bits, &mut bytes)?;
    Ok(LittleEndian::read_u32(&bytes))
}

/// Reads an unsigned number of eight bytes, the lowest first (RFC 3533, section 6).
///
/// # Errors
/// Those of [`BitReader`].
#[tactic(auto, unfolding(crate::specs::LittleEndian::little_64))]
pub fn read_little_64<R: Source>(bits: &mut BitReader<R>) -> Result<u64, Why>
    ensures reading { CallInPlace 64 (Reads (λ v. v) little_64) bits.old bits.new result }
    ensures needed { PullsFor 64 bits.old bits.new result }
{
    let low = read_little_32(bits)?;
    let high = read_little_32(bits)?;
    Ok(u64::from(low) + 4_294_967_296 * u64::from(high))
}

/// Writes a number as four bytes, the lowest first (RFC 9639, section 8.6).
///
/// # Errors
/// [`Why::Write`] if the target fails.
pub fn put_little_32<W: Target>(value: u32, writer: &mut BitWriter<W>) -> Result<(), Why>
    ensures { Writes (little_bits value) writer.old writer.new result }
{
    let mut bytes = [0; 4];
    LittleEndian::write_u32(&mut bytes, value);
    writer.put_bytes(&bytes)
}
