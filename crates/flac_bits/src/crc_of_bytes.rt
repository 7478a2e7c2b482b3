//! Checksums of bytes.

ghost use Rattle.std.specs.Prelude.{◌≡◌, ◌<◌, ◌≤◌, ◌/◌, ◌%◌, ◌^◌, length};
ghost use Rattle.flac_bits.specs.Bits.{unsigned, bits_of};
ghost use Rattle.flac_bits.specs.State.{feed};
ghost use Rattle.flac_bits.specs.Check.{fed, remainder, ChecksAreRemainders};

use crate::crc_8_16_division::{PERIOD, both_divided};
use crate::crc_32_division::crc32_divided;
use crate::{crc_8_16_division, crc_8_16_tables, crc_32_division, crc_32_tables};

/// The CRC-8 after one more bit.
fn fed8(check: u8, bit: bool) -> u8
    ensures { result ≡ feed 8 7 check bit }
{
    let shifted = check << 1;
    if (check >> 7 == 1) == bit {
        shifted
    } else {
        shifted ^ 7
    }
}

/// The CRC-16 after one more bit.
fn fed16(check: u16, bit: bool) -> u16
    ensures { result ≡ feed 16 32773 check bit }
{
    let shifted = check << 1;
    if (check >> 15 == 1) == bit {
        shifted
    } else {
        shifted ^ 0x8005
    }
}

/// The CRC-8 after the lowest n bits of a value.
#[tactic(auto, unfolding(crate::specs::Check::fed), using(crate::proofs::Check::fed_bit))]
pub(crate) fn bits_checked8(check: u8, value: u8, n: u32) -> u8
    requires { n ≤ 8 }
    ensures { result ≡ fed 8 7 check (unsigned n value) }
{
    let mut check = check;
    for i in 0..n {
        check = fed8(check, (value >> (n - 1 - i)) & 1 == 1);
    }
    check
}

/// The CRC-16 after the lowest n bits of a value.
#[tactic(auto, unfolding(crate::specs::Check::fed), using(crate::proofs::Check::fed_bit))]
pub(crate) fn bits_checked16(check: u16, value: u8, n: u32) -> u16
    requires { n ≤ 8 }
    ensures { result ≡ fed 16 32773 check (unsigned n value) }
{
    let mut check = check;
    for i in 0..n {
        check = fed16(check, (value >> (n - 1 - i)) & 1 == 1);
    }
    check
}

/// The CRC-8 of an entry of the tables of both.
#[inline(always)]
fn crc8_of(entry: u32) -> u8
    ensures { result ≡ entry % 256 }
{
    (entry % 256) as u8
}

/// The CRC-16 of such an entry.
#[inline(always)]
fn crc16_of(entry: u32) -> u16
    ensures { result ≡ entry / 65536 }
{
    (entry >> 16) as u16
}

/// Both checks after one more byte.
#[inline(always)]
fn byte_checked(checks: (u8, u16), byte: u8) -> (u8, u16)
    ensures eight { result.0 ≡ fed 8 7 checks.0 (unsigned 8 byte) }
    ensures sixteen { result.1 ≡ fed 16 32773 checks.1 (unsigned 8 byte) }
{
    let (check8, check16) = checks;
    let entry8 = crc_8_16_tables::AFTER_0[(check8 ^ byte) as usize];
    let entry16 = crc_8_16_tables::AFTER_0[((check16 >> 8) as u8 ^ byte) as usize];
    (crc8_of(entry8), (check16 << 8) ^ crc16_of(entry16))
}

/// Both checks after eight more bytes, by a table for each place. Their registers meet the first bytes alone, so one
/// look-up for both is enough for each byte from the third on.
#[inline(always)]
fn eight_checked(checks: (u8, u16), bytes: &[u8]) -> (u8, u16)
    requires { length bytes.now ≡ 8 }
    ensures eight { result.0 ≡ fed 8 7 checks.0 (bits_of bytes.now) }
    ensures sixteen { result.1 ≡ fed 16 32773 checks.1 (bits_of bytes.now) }
{
    let (check8, check16) = checks;
    let rest = crc_8_16_tables::AFTER_5[bytes[2] as usize]
        ^ (crc_8_16_tables::AFTER_4[bytes[3] as usize]
            ^ (crc_8_16_tables::AFTER_3[bytes[4] as usize]
                ^ (crc_8_16_tables::AFTER_2[bytes[5] as usize]
                    ^ (crc_8_16_tables::AFTER_1[bytes[6] as usize]
                        ^ crc_8_16_tables::AFTER_0[bytes[7] as usize]))));
    let entry8 = crc_8_16_tables::AFTER_7[(check8 ^ bytes[0]) as usize]
        ^ (crc_8_16_tables::AFTER_6[bytes[1] as usize] ^ rest);
    let entry16 = crc_8_16_tables::AFTER_7[((check16 >> 8) as u8 ^ bytes[0]) as usize]
        ^ (crc_8_16_tables::AFTER_6[((check16 % 256) as u8 ^ bytes[1]) as usize] ^ rest);
    (crc8_of(entry8), crc16_of(entry16))
}

/// Both checks after more bytes, byte by byte.
#[tactic(auto, unfolding(crate::specs::Check::fed))]
fn each_checked(checks: (u8, u16), bytes: &[u8]) -> (u8, u16)
    ensures eight { result.0 ≡ fed 8 7 checks.0 (bits_of bytes.now) }
    ensures sixteen { result.1 ≡ fed 16 32773 checks.1 (bits_of bytes.now) }
{
    let mut checks = checks;
    for i in 0..bytes.len() {
        checks = byte_checked(checks, bytes[i]);
    }
    checks
}

/// Both checks after more bytes, eight at a time.
#[tactic(auto, unfolding(crate::specs::Check::fed))]
pub(crate) fn both_by_eights(checks: (u8, u16), bytes: &[u8]) -> (u8, u16)
    ensures eight { result.0 ≡ fed 8 7 checks.0 (bits_of bytes.now) }
    ensures sixteen { result.1 ≡ fed 16 32773 checks.1 (bits_of bytes.now) }
{
    let eights = bytes.len() / 8;
    let mut checks = checks;
    for i in 0..eights {
        checks = eight_checked(checks, &bytes[8 * i..8 * i + 8]);
    }
    each_checked(checks, &bytes[8 * eights..])
}

/// Both checks after more bytes, of which most can be divided at once. The division is faster if they are many.
fn both_at_once(checks: (u8, u16), bytes: &[u8]) -> (u8, u16)
    requires { length bytes.now < 4066 }
    ensures eight { result.0 ≡ fed 8 7 checks.0 (bits_of bytes.now) }
    ensures sixteen { result.1 ≡ fed 16 32773 checks.1 (bits_of bytes.now) }
{
    if bytes.len() < 640 {
        return both_by_eights(checks, bytes);
    }
    let most = (bytes.len() - 2) / PERIOD * PERIOD + 2;
    let checks = both_divided(checks, &bytes[..most]);
    both_by_eights(checks, &bytes[most..])
}

/// The CRC-8 (generator x^8 + x^2 + x + 1) and the CRC-16 (x^16 + x^15 + x^2 + 1) after more bytes, in one pass over
/// them.
#[tactic(auto, unfolding(crate::specs::Check::fed))]
pub(crate) fn both_checked(check8: u8, check16: u16, bytes: &[u8]) -> (u8, u16)
    ensures eight { result.0 ≡ fed 8 7 check8 (bits_of bytes.now) }
    ensures sixteen { result.1 ≡ fed 16 32773 check16 (bits_of bytes.now) }
{
    let parts = bytes.len() / crc_8_16_division::MOST_DIVIDED;
    let mut checks = (check8, check16);
    for i in 0..parts {
        let from = crc_8_16_division::MOST_DIVIDED * i;
        checks = both_divided(checks, &bytes[from..from + crc_8_16_division::MOST_DIVIDED]);
    }
    both_at_once(checks, &bytes[crc_8_16_division::MOST_DIVIDED * parts..])
}

/// The CRC-8 after more bytes.
pub(crate) fn checked8(check: u8, bytes: &[u8]) -> u8
    ensures { result ≡ fed 8 7 check (bits_of bytes.now) }
{
    both_checked(check, 0, bytes).0
}

/// The CRC-16 after more bytes.
pub(crate) fn checked16(check: u16, bytes: &[u8]) -> u16
    ensures { result ≡ fed 16 32773 check (bits_of bytes.now) }
{
    both_checked(0, check, bytes).1
}

/// The CRC-32 after one more byte.
#[inline(always)]
fn crc32_after_byte(check: u32, byte: u8) -> u32
    ensures { result ≡ fed 32 79764919 check (unsigned 8 byte) }
{
    (check << 8) ^ crc_32_tables::AFTER_0[((check >> 24) as u8 ^ byte) as usize]
}

/// The CRC-32 after eight more bytes, by a table for each place.
#[inline(always)]
fn crc32_after_eight(check: u32, bytes: &[u8]) -> u32
    requires { length bytes.now ≡ 8 }
    ensures { result ≡ fed 32 79764919 check (bits_of bytes.now) }
{
    crc_32_tables::AFTER_7[((check >> 24) as u8 ^ bytes[0]) as usize]
        ^ (crc_32_tables::AFTER_6[(((check >> 16) % 256) as u8 ^ bytes[1]) as usize]
            ^ (crc_32_tables::AFTER_5[(((check >> 8) % 256) as u8 ^ bytes[2]) as usize]
                ^ (crc_32_tables::AFTER_4[((check % 256) as u8 ^ bytes[3]) as usize]
                    ^ (crc_32_tables::AFTER_3[bytes[4] as usize]
                        ^ (crc_32_tables::AFTER_2[bytes[5] as usize]
                            ^ (crc_32_tables::AFTER_1[bytes[6] as usize]
                                ^ crc_32_tables::AFTER_0[bytes[7] as usize]))))))
}

/// The CRC-32 after more bytes, byte by byte.
#[tactic(auto, unfolding(crate::specs::Check::fed))]
fn crc32_byte_by_byte(check: u32, bytes: &[u8]) -> u32
    ensures { result ≡ fed 32 79764919 check (bits_of bytes.now) }
{
    let mut check = check;
    for i in 0..bytes.len() {
        check = crc32_after_byte(check, bytes[i]);
    }
    check
}

/// The CRC-32 after more bytes, eight at a time.
#[tactic(auto, unfolding(crate::specs::Check::fed))]
pub(crate) fn crc32_by_eights(check: u32, bytes: &[u8]) -> u32
    ensures { result ≡ fed 32 79764919 check (bits_of bytes.now) }
{
    let eights = bytes.len() / 8;
    let mut check = check;
    for i in 0..eights {
        check = crc32_after_eight(check, &bytes[8 * i..8 * i + 8]);
    }
    crc32_byte_by_byte(check, &bytes[8 * eights..])
}

/// The CRC-32 after more bytes, which can be divided at once. The division is faster if they are many.
fn crc32_at_once(check: u32, bytes: &[u8]) -> u32
    requires { length bytes.now ≤ 8192 }
    ensures { result ≡ fed 32 79764919 check (bits_of bytes.now) }
{
    if bytes.len() < 800 {
        return crc32_by_eights(check, bytes);
    }
    crc32_divided(check, bytes)
}

/// The CRC-32 after more bytes, as [`crc32`] has it, from the CRC-32 `check` of the bytes before. It is for a page
/// whose parts are in several places.
#[tactic(auto, unfolding(crate::specs::Check::fed))]
pub fn crc32_after(check: u32, bytes: &[u8]) -> u32
    ensures { result ≡ fed 32 79764919 check (bits_of bytes.now) }
{
    let parts = bytes.len() / crc_32_division::MOST_DIVIDED;
    let mut check = check;
    for i in 0..parts {
        let from = crc_32_division::MOST_DIVIDED * i;
        check = crc32_divided(check, &bytes[from..from + crc_32_division::MOST_DIVIDED]);
    }
    crc32_at_once(check, &bytes[crc_32_division::MOST_DIVIDED * parts..])
}

/// The CRC-8 of bytes, as a frame header has it (RFC 9639, section 9.1.8): generator x^8 + x^2 + x + 1, from 0. It is
/// for bytes that are in memory: a reader and a writer report that of the bits that went through them.
#[tactic(auto, using(crate::proofs::Check::fed_from_zero))]
pub fn crc8(bytes: &[u8]) -> u8
    ensures { result ≡ remainder 8 7 (bits_of bytes.now) }
{
    checked8(0, bytes)
}

/// The CRC-16 of bytes, as a frame has it (RFC 9639, section 9.3): generator x^16 + x^15 + x^2 + 1, from 0. It is for
/// bytes that are in memory, as [`crc8`] is.
#[tactic(auto, using(crate::proofs::Check::fed_from_zero))]
pub fn crc16(bytes: &[u8]) -> u16
    ensures { result ≡ remainder 16 32773 (bits_of bytes.now) }
{
    checked16(0, bytes)
}

/// The CRC-32 of bytes, as an Ogg page has it (RFC 3533, section 6): generator 04C11DB7, from 0, no reflection. The
/// checksum's own field counts as zero. It is for bytes that are in memory, as [`crc8`] is.
#[tactic(auto, using(crate::proofs::Check::fed_from_zero))]
pub fn crc32(bytes: &[u8]) -> u32
    ensures { result ≡ remainder 32 79764919 (bits_of bytes.now) }
{
    crc32_after(0, bytes)
}

/// The checksum of an Ogg page of these bytes, in which the four bytes of the checksum are zeros (RFC 3533, section 6):
/// their [`crc32`].
pub fn page_sum(bytes: &[u8]) -> u32
    ensures { result ≡ remainder 32 79764919 (bits_of bytes.now) }
{
    crc32(bytes)
}

/// Law: the checks that a reader or a writer reports are the remainders of the bits since the checks began.
pub fn checks_are_remainders()
    ensures { ChecksAreRemainders }
{}
