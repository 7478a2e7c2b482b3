//! Fields inside the content of a block: how they are read, and what is to be written.

ghost use Rattle.std.specs.Prelude.{◌≡◌, ◌<◌, ◌≤◌, ◌^◌, OnOk, ◌*◌, length, ⊤, Err, IfOk, ◌+◌, ◌-◌, min};
ghost use Rattle.flac_bits.specs.Bits.{bit_value};
ghost use Rattle.flac_bits.specs.Layout.{bits as number};
ghost use Rattle.flac_bits.specs.Lists.{list_of};
ghost use Rattle.flac_bits.specs.Reading.{Counts, Reads, ReadsGivenMemory, Call};
ghost use Rattle.flac_meta.specs.Fields.{ends_short, sized, number_32, zeros};
ghost use Rattle.flac_meta.specs.inner.Counted.{counted};
ghost use Rattle.flac_meta.specs.Padding.{skipped};
ghost use Rattle.flac_bits.specs.LittleEndian.{little_32};

use crate::lists::Bytes;
use flac_bits::{BitReader, Source, Why, read_little_32};
use std::alloc::Global;

/// A number, and how many bits it takes, at most 64.
#[derive(Clone, Copy)]
pub struct Field {
    pub bits: u32,
    pub value: u64,
    ghost few: { bits ≤ 64 },
    ghost fits: { value < 2 ^ bits },
}

/// A flag as a number of one bit.
pub(crate) fn flag(set: bool) -> u64
    ensures value { result ≡ bit_value set }
    ensures fits { result < 2 ^ 1 }
{
    if set { 1 } else { 0 }
}

/// Skips `length` bytes.
#[tactic(auto, using(crate::proofs::Skips::skip_more, crate::proofs::Skips::skip_last))]
pub(crate) fn skip_bytes<R: Source>(bits: &mut BitReader<R>, length: u32) -> Result<(), Why>
    requires { length < 2 ^ 24 }
    ensures reading { Call 0 (Reads (λ _. tt) (skipped (8 * length))) bits.old bits.new result }
{
    for i in 0..length / 8 {
        let _i = i;
        let _word = bits.take(64)?;
    }
    let _rest = bits.take(8 * (length % 8))?;
    Ok(())
}

/// Skips the last bytes of a content that has too few of them, and returns the error: [`Why::BlockLength`] if they can
/// be read.
pub(crate) fn too_short<R: Source>(bits: &mut BitReader<R>, left: u32) -> Why
    requires { left < 2 ^ 24 }
    ensures counts { Counts {X = ⊤} bits.old bits.new (Err result) }
    ensures reads { Reads {X = ⊤} (λ u. u) (ends_short left) bits.old bits.new (Err result) }
{
    match skip_bytes(bits, left) {
        Ok(()) => Why::BlockLength,
        Err(why) => why,
    }
}

/// Reads `size` bytes. Memory is allocated as they come, not by the number that the input states.
#[tactic(auto, using(flac_bits::proofs::Lists::list_more, flac_bits::proofs::Lists::list_end, flac_bits::proofs::Lists::list_start))]
pub(crate) fn read_raw<R: Source>(
    alloc: Global,
    bits: &mut BitReader<R>,
    size: u32,
) -> Result<Bytes, Why>
    ensures size { IfOk result (λ b. length b ≡ size) }
    ensures reading { Call 0 (ReadsGivenMemory (λ b. b) (list_of size (number 8))) bits.old bits.new result }
{
    let mut bytes = Vec::new(alloc);
    for i in 0..size {
        let _i = i;
        bytes.push(bits.take(8)? as u8)?;
    }
    Ok(Bytes::from_vec(bytes))
}

/// Reads `size` bytes, of a content of which `left` bytes are left.
fn read_counted<R: Source>(
    alloc: Global,
    bits: &mut BitReader<R>,
    size: u32,
    left: u32,
) -> Result<Bytes, Why>
    ensures fits { IfOk result (λ b. length b ≤ left) }
    ensures reading { Call 0 (ReadsGivenMemory (λ b. b) (counted size left)) bits.old bits.new result }
{
    if left < size {
        return Err(Why::BlockLength);
    }
    read_raw(alloc, bits, size)
}

/// Reads a number of 32 bits, of a content of which `left` bytes are left.
#[tactic(auto, unfolding(crate::specs::Fields::number_32))]
pub(crate) fn read_number_32<R: Source>(bits: &mut BitReader<R>, left: u32) -> Result<u32, Why>
    requires { left < 2 ^ 24 }
    ensures fits { OnOk result (4 ≤ left) }
    ensures reading { Call 0 (Reads (λ v. v) (number_32 left)) bits.old bits.new result }
{
    if left < 4 {
        return Err(too_short(bits, left));
    }
    Ok(bits.take(32)? as u32)
}

/// Reads a number of 32 bits and that many bytes, of a content of which `left` bytes are left.
pub(crate) fn read_sized<R: Source>(
    alloc: Global,
    bits: &mut BitReader<R>,
    left: u32,
) -> Result<Bytes, Why>
    requires { left < 2 ^ 24 }
    ensures fits { IfOk result (λ b. 4 + length b ≤ left) }
    ensures reading { Call 0 (ReadsGivenMemory (λ b. b) (sized (number 32) left)) bits.old bits.new result }
{
    let size = read_number_32(bits, left)?;
    read_counted(alloc, bits, size, left - 4)
}

/// Reads a number of 32 bits, lowest byte first, and that many bytes, of a content of which `left` bytes are left.
#[tactic(auto, unfolding(crate::specs::Fields::sized))]
pub(crate) fn read_sized_little<R: Source>(
    alloc: Global,
    bits: &mut BitReader<R>,
    left: u32,
) -> Result<Bytes, Why>
    requires { left < 2 ^ 24 }
    ensures fits { IfOk result (λ b. 4 + length b ≤ left) }
    ensures reading { Call 0 (ReadsGivenMemory (λ b. b) (sized little_32 left)) bits.old bits.new result }
{
    if left < 4 {
        return Err(too_short(bits, left));
    }
    let size = read_little_32(bits)?;
    read_counted(alloc, bits, size, left - 4)
}

/// Reads `count` bits, and returns whether all are zeros.
#[tactic(auto, using(crate::proofs::Zeros::zeros_first, crate::proofs::Zeros::zeros_more, crate::proofs::Zeros::zeros_end))]
pub(crate) fn read_zeros<R: Source>(bits: &mut BitReader<R>, count: u32) -> Result<bool, Why>
    ensures reading { Call 0 (Reads (λ z. z) (zeros count)) bits.old bits.new result }
{
    let mut clear = bits.take(count % 64)? == 0;
    for i in 0..count / 64 {
        let _i = i;
        let word = bits.take(64)?;
        clear &= word == 0;
    }
    Ok(clear)
}

/// The most bytes that the content of a metadata block can have (RFC 9639, section 8.1): 2^24 - 1.
pub const MOST_BYTES: u64 = 16777215;

/// The length in bytes that stands for all above [`MOST_BYTES`].
pub(crate) const TOO_LONG: u64 = MOST_BYTES + 1;

/// The sum of two lengths, or 16777216 if it is larger.
pub(crate) fn capped(a: u64, b: usize) -> u64
    requires { a ≤ 16777216 }
    ensures { result ≡ min (a + b) 16777216 }
{
    if b as u64 >= TOO_LONG {
        return TOO_LONG;
    }
    (a + b as u64).min(TOO_LONG)
}
