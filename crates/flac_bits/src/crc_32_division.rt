//! The CRC-32 of many bytes. They are divided by a multiple of its generator that has few terms, byte by byte: this
//! needs no table, and becomes vector code. The remainder has the same check as all the bytes.
//!
//! The multiple is x^2400 + x^1240 + x^936 + x^712 + 1, the eighth power of x^300 + x^155 + x^117 + x^89 + 1. Since its
//! exponents are whole bytes, a byte of the quotient is the exclusive or of a byte and of four of the quotient before.

ghost use Rattle.std.specs.Prelude.{◌≡◌, ◌<◌, ◌≤◌, ◌+◌, ℕ, length, bit_xor};
ghost use Rattle.flac_bits.specs.Bits.{bits_of};
ghost use Rattle.flac_bits.specs.Check.{fed};
ghost use Rattle.flac_bits.specs.inner.Divided.{value_at, mixed_at, lower_32, register_32, DividesOn, IsRest};

use crate::crc_8_16_division::zeros;
use crate::crc_of_bytes::crc32_by_eights;

/// How many bytes the remainder has.
const REST: usize = 300;

/// The most bytes that are divided at once.
pub(crate) const MOST_DIVIDED: usize = 8192;

/// A byte and those of the quotient that the lower terms of the multiple add to it.
#[inline(always)]
fn with_lower_terms(byte: u8, quotient: &[u8], place: usize) -> u8
    requires { place + 155 < length quotient.now }
    ensures { result ≡ bit_xor byte (mixed_at lower_32 (value_at quotient.now) place) }
{
    byte ^ (quotient[place + 155]
        ^ (quotient[place + 117] ^ (quotient[place + 89] ^ quotient[place])))
}

/// Adds to a quotient, which begins after 300 zeros, its bytes `from` to `to`.
#[inline(never)]
fn divide(bytes: &[u8], from: usize, to: usize, quotient: &mut [u8])
    requires order { from ≤ to }
    requires bytes { to ≤ length bytes.now }
    requires room { to + 300 ≤ length quotient.old }
    // proof only
    ensures long { length quotient.new ≡ length quotient.old }
    ensures divided { DividesOn 300 lower_32 bytes.now from to quotient.old quotient.new }
{
    for i in from..to {
        quotient[i + REST] = with_lower_terms(bytes[i], quotient, i);
    }
}

/// Fills in the remainder: the last 300 of the bytes, which begin at `from`, and what the quotient adds to them.
#[inline(never)]
fn put_rest(bytes: &[u8], from: usize, quotient: &[u8], rest: &mut [u8; 300])
    requires bytes { from + 300 ≤ length bytes.now }
    requires room { from + 455 ≤ length quotient.now }
    ensures { IsRest 300 lower_32 bytes.now from quotient.now rest.new }
{
    for j in 0..REST {
        rest[j] = with_lower_terms(bytes[j + from], quotient, j + from);
    }
}

/// The first four bytes, with the register of the check in them.
#[inline(always)]
fn first_four(check: u32, bytes: &[u8]) -> [u8; 4]
    requires { 4 ≤ length bytes.now }
    ensures { (p : ℕ) → p < 4 → bit_xor (value_at (register_32 check) p) (value_at bytes.now p) ≡ value_at result p }
{
    [
        (check >> 24) as u8 ^ bytes[0],
        ((check >> 16) % 256) as u8 ^ bytes[1],
        ((check >> 8) % 256) as u8 ^ bytes[2],
        (check % 256) as u8 ^ bytes[3],
    ]
}

/// The CRC-32 after more bytes, by the remainder of a division.
pub(crate) fn crc32_divided(check: u32, bytes: &[u8]) -> u32
    requires enough { 304 ≤ length bytes.now }
    requires few { length bytes.now ≤ 8192 }
    ensures { result ≡ fed 32 79764919 check (bits_of bytes.now) }
{
    let end = bytes.len() - REST;
    let mut quotient: [u8; 8492] = zeros();
    divide(&first_four(check, bytes), 0, 4, &mut quotient);
    divide(bytes, 4, end, &mut quotient);
    let mut rest: [u8; 300] = zeros();
    put_rest(bytes, end, &quotient, &mut rest);
    crc32_by_eights(0, &rest)
}
