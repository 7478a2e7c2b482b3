//! Signed numbers of a given number of bits.

ghost use Rattle.std.specs.Prelude.{◌≡◌, ◌<◌, ◌≤◌, ◌^◌, ◌↔◌, pos, IsTrue};
ghost use Rattle.flac_bits.specs.Signed.{FitsBits};
ghost use Rattle.flac_subframe.specs.format.inner.Summing.{IsNear};

/// A number in offset binary of `bits` bits, 1 to 63: moved up by half the range, 2^(bits - 1). It is below 2^bits
/// exactly if the number has a two's complement form of that many bits. Several numbers are below it exactly if their
/// bitwise or is.
///
/// ```
/// let small = offset_binary(-128, 8); // 0
/// let large = offset_binary(128, 8); // 256, which 8 bits do not hold
/// ```
#[inline(always)]
pub fn offset_binary(number: i64, bits: u32) -> u64
    requires positive { 1 ≤ bits }
    requires small { bits ≤ 63 }
    ensures { (result < 2 ^ bits) ↔ FitsBits bits number }
{
    let half = 1i64 << (bits - 1);
    number.wrapping_add(half).cast_unsigned()
}

/// The same for 1 to 33 bits, of a number to which half the range can be added, so that no sum wraps.
#[inline(always)]
pub(crate) fn offset_near(number: i64, bits: u32) -> u64
    requires positive { 1 ≤ bits }
    requires small { bits ≤ 33 }
    requires near { IsNear number }
    ensures { (result < 2 ^ bits) ↔ FitsBits bits number }
{
    let offset = 1i64 << (bits - 1);
    (number + offset).cast_unsigned()
}

/// Whether a number is below 2^bits, for 1 to 64 bits.
#[inline(always)]
pub(crate) fn is_below(number: u64, bits: u32) -> bool
    requires positive { 1 ≤ bits }
    requires small { bits ≤ 64 }
    ensures { IsTrue result ↔ number < 2 ^ bits }
{
    number <= u64::MAX >> (64 - bits)
}

/// Whether a number has a two's complement form of `bits` bits, 1 to 33, by a single comparison, whose limit is the same
/// for each number of a loop.
#[inline(always)]
pub(crate) fn fits_bits(number: i64, bits: u32) -> bool
    requires positive { 1 ≤ bits }
    requires small { bits ≤ 33 }
    requires near { IsNear number }
    ensures { IsTrue result ↔ FitsBits bits number }
{
    is_below(offset_near(number, bits), bits)
}

/// The same by a call, which is never inlined. A loop that leaves by it, although the answer is known, is faster than one
/// that leaves with `false`: there the compiler makes the result anew in each round.
#[cold]
#[inline(never)]
pub(crate) fn fits_apart(number: i64, bits: u32) -> bool
    requires positive { 1 ≤ bits }
    requires small { bits ≤ 33 }
    requires near { IsNear number }
    ensures { IsTrue result ↔ FitsBits bits number }
{
    fits_bits(number, bits)
}

/// Two to the power of the exponent, as a number of places.
#[inline(always)]
pub(crate) fn power(exponent: u8) -> usize
    requires { exponent ≤ 15 }
    ensures { result ≡ 2 ^ exponent }
{
    1 << exponent
}

/// Two to the power of the exponent, as a factor.
#[inline(always)]
pub(crate) fn power_of_two(exponent: u32) -> i64
    requires { exponent ≤ 33 }
    ensures { result ≡ pos (2 ^ exponent) }
{
    1 << exponent
}

/// How many places are left free between two working arrays, of which a loop reads one and writes the other. In blocks
/// of 4096 samples they would otherwise stand a multiple of 4096 bytes apart, and a processor takes a load for one of
/// what it has just stored if the addresses agree in their lowest twelve bits.
pub(crate) const APART: usize = 256;
