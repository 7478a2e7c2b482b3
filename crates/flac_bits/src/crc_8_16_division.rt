//! Both checks of many bytes. They are divided by a multiple of both generators that has few terms, byte by byte: this
//! needs no table, and becomes vector code. The remainder has the same checks as all the bytes.
//!
//! The multiple is x^2280 + x^136 + x^40 + 1, the eighth power of x^285 + x^17 + x^5 + 1. Since its exponents are whole
//! bytes, a byte of the quotient is the exclusive or of a byte and of three of the quotient before.
//!
//! The register of the CRC-16 goes into the first two bytes, before the division. That of the CRC-8 need not: the CRC-8
//! repeats itself every 127 bytes of zeros, and so many come between, or a multiple.

ghost use Rattle.std.specs.Prelude.{◌≡◌, ◌<◌, ◌≤◌, ◌+◌, ◌%◌, ℕ, length, bit_xor};
ghost use Rattle.flac_bits.specs.Bits.{bits_of};
ghost use Rattle.flac_bits.specs.Check.{fed};
ghost use Rattle.flac_bits.specs.inner.Divided.{value_at, mixed_at, lower_both, register_16, DividesOn, IsRest};

use crate::crc_of_bytes::both_by_eights;

/// How many bytes the remainder has.
const REST: usize = 285;

/// After how many bytes of zeros a CRC-8 is what it was.
pub(crate) const PERIOD: usize = 127;

/// The most bytes that are divided at once: two more than a multiple of the period.
pub(crate) const MOST_DIVIDED: usize = 4066;

/// So many zeros.
#[inline(always)]
pub(crate) fn zeros<const N: usize>() -> [u8; N]
    ensures { (k : ℕ) → value_at result k ≡ 0 }
{
    [0; N]
}

/// A byte and those of the quotient that the lower terms of the multiple add to it.
#[inline(always)]
fn with_lower_terms(byte: u8, quotient: &[u8], place: usize) -> u8
    requires { place + 17 < length quotient.now }
    ensures { result ≡ bit_xor byte (mixed_at lower_both (value_at quotient.now) place) }
{
    byte ^ (quotient[place + 17] ^ (quotient[place + 5] ^ quotient[place]))
}

/// Adds to a quotient, which begins after 285 zeros, its bytes `from` to `to`.
#[inline(never)]
fn divide(bytes: &[u8], from: usize, to: usize, quotient: &mut [u8])
    requires order { from ≤ to }
    requires bytes { to ≤ length bytes.now }
    requires room { to + 285 ≤ length quotient.old }
    // proof only
    ensures long { length quotient.new ≡ length quotient.old }
    ensures divided { DividesOn 285 lower_both bytes.now from to quotient.old quotient.new }
{
    for i in from..to {
        quotient[i + REST] = with_lower_terms(bytes[i], quotient, i);
    }
}

/// Fills in the remainder: the last 285 of the bytes, which begin at `from`, and what the quotient adds to them.
#[inline(never)]
fn put_rest(bytes: &[u8], from: usize, quotient: &[u8], rest: &mut [u8; 285])
    requires bytes { from + 285 ≤ length bytes.now }
    requires room { from + 302 ≤ length quotient.now }
    ensures { IsRest 285 lower_both bytes.now from quotient.now rest.new }
{
    for j in 0..REST {
        rest[j] = with_lower_terms(bytes[j + from], quotient, j + from);
    }
}

/// The first two bytes, with the register of the CRC-16 in them.
#[inline(always)]
fn first_two(register: &[u8; 2], bytes: &[u8]) -> [u8; 2]
    requires { 2 ≤ length bytes.now }
    ensures { (p : ℕ) → p < 2 → bit_xor (value_at register.now p) (value_at bytes.now p) ≡ value_at result p }
{
    [register[0] ^ bytes[0], register[1] ^ bytes[1]]
}

/// The bytes of a CRC-16.
#[inline(always)]
fn register_of(check: u16) -> [u8; 2]
    ensures { result ≡ register_16 check }
{
    [(check >> 8) as u8, (check % 256) as u8]
}

/// Both checks after more bytes, by the remainder of a division. They are two more than a multiple of the period.
pub(crate) fn both_divided(checks: (u8, u16), bytes: &[u8]) -> (u8, u16)
    requires enough { 383 ≤ length bytes.now }
    requires few { length bytes.now ≤ 4066 }
    requires whole { length bytes.now % 127 ≡ 2 }
    ensures eight { result.0 ≡ fed 8 7 checks.0 (bits_of bytes.now) }
    ensures sixteen { result.1 ≡ fed 16 32773 checks.1 (bits_of bytes.now) }
{
    let register = register_of(checks.1);
    let end = bytes.len() - REST;
    let mut quotient: [u8; 4096] = zeros();
    divide(&first_two(&register, bytes), 0, 2, &mut quotient);
    divide(bytes, 2, end, &mut quotient);
    let mut rest: [u8; 285] = zeros();
    put_rest(bytes, end, &quotient, &mut rest);
    let own = both_by_eights((checks.0, 0), &register);
    let left = both_by_eights((0, 0), &rest);
    (own.0 ^ left.0, left.1)
}
