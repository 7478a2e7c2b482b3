//! Writes fields inside the content of a block.

ghost use Rattle.std.specs.Prelude.{◌<◌, ◌^◌, length};
ghost use Rattle.flac_bits.specs.Written.{Writes};
ghost use Rattle.flac_meta.specs.inner.Fielded.{fields_spelling};
ghost use Rattle.flac_meta.specs.Spelling.{zero_bits, little_sized, sized_bits};

use crate::fields::Field;
use flac_bits::{BitWriter, Target, Why, put_little_32};

/// Writes these fields, one after another.
pub(crate) fn put_fields<W: Target>(writer: &mut BitWriter<W>, fields: &[Field]) -> Result<(), Why>
    ensures { Writes (fields_spelling fields.now) writer.old writer.new result }
{
    for field in fields {
        writer.put(field.bits, field.value)?;
    }
    Ok(())
}

/// Writes `count` zero bits.
pub(crate) fn put_zeros<W: Target>(writer: &mut BitWriter<W>, count: u32) -> Result<(), Why>
    ensures { Writes (zero_bits count) writer.old writer.new result }
{
    writer.put(count % 64, 0)?;
    for i in 0..count / 64 {
        let _i = i;
        writer.put(64, 0)?;
    }
    Ok(())
}

/// Writes the number of bytes in 32 bits, lowest byte first, and the bytes.
pub(crate) fn put_little_sized<W: Target>(
    writer: &mut BitWriter<W>,
    bytes: &[u8],
) -> Result<(), Why>
    requires { length bytes.now < 2 ^ 24 }
    ensures { Writes (little_sized bytes.now) writer.old writer.new result }
{
    put_little_32(bytes.len() as u32, writer)?;
    writer.put_bytes(bytes)
}

/// Writes the number of bytes in 32 bits, and the bytes.
pub(crate) fn put_sized<W: Target>(writer: &mut BitWriter<W>, bytes: &[u8]) -> Result<(), Why>
    requires { length bytes.now < 2 ^ 24 }
    ensures { Writes (sized_bits bytes.now) writer.old writer.new result }
{
    writer.put(32, bytes.len() as u64)?;
    writer.put_bytes(bytes)
}
