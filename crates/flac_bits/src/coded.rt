//! Writing of coded numbers, and their length.

ghost use Rattle.std.specs.Prelude.{◌≡◌, ◌≤◌, ◌<◌, ◌-◌, ◌*◌, ◌/◌, ◌^◌, cond, nat_eq, length};
ghost use Rattle.flac_bits.specs.Coded.{number_spelling, six_bits};
ghost use Rattle.flac_bits.specs.Written.{Writes};

use crate::target::Target;
use crate::why::Why;
use crate::writer::BitWriter;

/// How many bytes a number takes as a coded number (RFC 9639, section 9.1.5): 1 to 7.
///
/// ```
/// number_len(127); // 1
/// number_len(128); // 2
/// ```
pub fn number_len(value: u64) -> u32
    ensures long { length (number_spelling value) ≡ 8 * result }
    ensures few { (1 ≤ result) × (result ≤ 7) }
{
    if value < 0x80 {
        1
    } else if value < 0x800 {
        2
    } else if value < 0x1_0000 {
        3
    } else if value < 0x20_0000 {
        4
    } else if value < 0x400_0000 {
        5
    } else if value < 0x8000_0000 {
        6
    } else {
        7
    }
}

/// The bits of a lead byte that say how many bytes follow it.
fn lead_bits(count: u32) -> u64
    requires { count ≤ 6 }
    ensures { result ≡ cond (nat_eq count 0) 0 (256 - 128 / 2 ^ count) }
{
    if count == 0 { 0 } else { 256 - (128 >> count) }
}

/// The number without its lowest `groups` groups of six bits.
#[tactic(auto, using(crate::proofs::CodedTie::one_group_more, crate::proofs::CodedTie::no_groups))]
fn without_groups(value: u64, groups: u32) -> u64
    requires { groups ≤ 6 }
    ensures { result ≡ value / 64 ^ groups }
{
    let mut high = value;
    for i in 0..groups {
        let _i = i;
        high /= 64;
    }
    high
}

/// Writes the lowest `count` groups of six bits, the highest first, each in a byte that begins with the bits 10.
fn put_groups<W: Target>(writer: &mut BitWriter<W>, count: u32, value: u64) -> Result<(), Why>
    requires { count ≤ 6 }
    ensures { Writes (six_bits count value) writer.old writer.new result }
{
    for i in 0..count {
        let group = without_groups(value, count - (i + 1)) % 64;
        writer.put(8, 128 + group)?;
    }
    Ok(())
}

/// Writes a number below 2^36 as a coded number, in the shortest of its forms (RFC 9639, section 9.1.5): 1 to 7 bytes.
///
/// ```
/// let mut writer = BitWriter::new(Collected::new(rt.alloc()));
/// write_number(128, &mut writer)?; // C2 80
/// ```
///
/// # Errors
/// [`Why::Write`] if the target fails.
pub fn write_number<W: Target>(value: u64, writer: &mut BitWriter<W>) -> Result<(), Why>
    requires { value < 2 ^ 36 }
    ensures { Writes (number_spelling value) writer.old writer.new result }
{
    let count = number_len(value) - 1;
    let high = without_groups(value, count);
    writer.put(8, lead_bits(count) + high)?;
    put_groups(writer, count, value)
}
