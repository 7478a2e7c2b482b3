//! Bits that were written and do not fill a word yet.

ghost use Rattle.std.specs.Prelude.{◌≡◌, ◌<◌, ◌≤◌, ◌+◌, ◌-◌, ◌^◌, ◌++◌, [], List, Bool, length};
ghost use Rattle.flac_bits.specs.Bits.{unsigned};
ghost use Rattle.flac_bits.specs.Check.{fed};

use crate::crc_of_bytes::{bits_checked8, bits_checked16};
use std::marker::Model;

/// At most 63 bits, the last of them lowest in the word.
#[derive(Drop)]
pub struct Rest {
    word: u64,
    count: u32,
}

impl Model for Rest {
    ghost Value = { List Bool };

    ghost view = { λ r. unsigned r.count r.word };

    ghost invariant = { λ r. r.count ≤ 63 };
}

/// The CRC-8 after the lowest `count` bits of a word.
#[tactic(auto, using(crate::proofs::Appending::fed_rest))]
fn word_checked8(check: u8, word: u64, count: u32) -> u8
    requires { count ≤ 63 }
    ensures { result ≡ fed 8 7 check (unsigned count word) }
{
    let mut check = check;
    for i in 0..count / 8 {
        check = bits_checked8(check, ((word >> (count - 8 * i - 8)) % 256) as u8, 8);
    }
    bits_checked8(check, (word % 256) as u8, count % 8)
}

/// The CRC-16 after the lowest `count` bits of a word.
#[tactic(auto, using(crate::proofs::Appending::fed_rest))]
fn word_checked16(check: u16, word: u64, count: u32) -> u16
    requires { count ≤ 63 }
    ensures { result ≡ fed 16 32773 check (unsigned count word) }
{
    let mut check = check;
    for i in 0..count / 8 {
        check = bits_checked16(check, ((word >> (count - 8 * i - 8)) % 256) as u8, 8);
    }
    bits_checked16(check, (word % 256) as u8, count % 8)
}

impl Rest {
    /// No bits.
    pub(crate) fn empty() -> Rest
        ensures { result ≡ [] }
    {
        Rest { word: 0, count: 0 }
    }

    /// A copy.
    #[inline(always)]
    pub(crate) fn copied(&self) -> Rest
        ensures { result ≡ self.now }
    {
        Rest {
            word: self.word,
            count: self.count,
        }
    }

    /// How many bits are held.
    #[inline(always)]
    pub(crate) fn count(&self) -> u32
        ensures { (result ≡ length self.now) × (result ≤ 63) }
    {
        self.count
    }

    /// Adds the n bits of a number to those held; there is room for them.
    #[inline(always)]
    pub(crate) fn put(&mut self, n: u32, value: u64)
        requires room { length self.old + n ≤ 63 }
        requires fits { value < 2 ^ n }
        ensures { self.new ≡ self.old ++ unsigned n value }
    {
        self.word = (self.word << n) + value;
        self.count += n;
    }

    /// Adds the n bits of a number, which fill a word, and takes this word off.
    #[inline(always)]
    pub(crate) fn fill(&mut self, n: u32, value: u64) -> u64
        requires enough { 64 ≤ length self.old + n }
        requires few { n ≤ 64 }
        requires fits { value < 2 ^ n }
        ensures { unsigned 64 result ++ self.new ≡ self.old ++ unsigned n value }
    {
        let free = 64 - self.count;
        let rest = n - free;
        let word = (self.word << (free - 1) << 1) + (value >> rest);
        self.word = value;
        self.count = rest;
        word
    }

    /// Takes the first eight bits.
    pub(crate) fn take_byte(&mut self) -> u8
        requires { 8 ≤ length self.old }
        ensures { self.old ≡ unsigned 8 result ++ self.new }
    {
        let rest = self.count - 8;
        let byte = ((self.word >> rest) % 256) as u8;
        self.count = rest;
        byte
    }

    /// The CRC-8 after the bits held.
    pub(crate) fn checked8(&self, check: u8) -> u8
        ensures { result ≡ fed 8 7 check self.now }
    {
        word_checked8(check, self.word, self.count)
    }

    /// The CRC-16 after the bits held.
    pub(crate) fn checked16(&self, check: u16) -> u16
        ensures { result ≡ fed 16 32773 check self.now }
    {
        word_checked16(check, self.word, self.count)
    }
}
