//! Bits that were written and not sent yet.

ghost use Rattle.flac_bits.specs.inner.Runs.{PutsValues};
ghost use Rattle.std.specs.Prelude.{◌≡◌, ◌<◌, ◌≤◌, ◌+◌, ◌-◌, ◌%◌, ◌^◌, ◌++◌, [], true, false, All, length, take, drop, min, IfErr};
ghost use Rattle.flac_bits.specs.declared.why.Why.TheVariants.{Truncated};
ghost use Rattle.flac_bits.specs.Bits.{unsigned, bits_of};
ghost use Rattle.flac_bits.specs.Rice.{IsResidual};
ghost use Rattle.flac_bits.specs.State.{past};
ghost use Rattle.flac_bits.specs.Unsent.{Unsent, none_unsent, Puts, KeepsBits};
ghost use Rattle.flac_bits.specs.Sending.{Sends};

use crate::HOLD;
use crate::crc_of_bytes::{both_checked, checked8, checked16};
use crate::rest::Rest;
use crate::run::{put_codes, put_word};
use crate::send::send_all;
use crate::target::Target;
use crate::why::Why;
use std::marker::Model;

/// An array of whole bytes, and the bits after them.
#[derive(Drop)]
pub struct Unsent {
    rest: Rest,
    bytes: [u8; HOLD],
    end: usize,
    before: u64,
    from: usize,
    check8: u8,
    check16: u16,
}

impl Model for Unsent {
    ghost Value = { Unsent };

    ghost view = { λ u. record {
      bytes = take u.end u.bytes;
      rest = u.rest;
      mark = past (bits_of (drop u.from (take u.end u.bytes)) ++ u.rest) (record {
        unread = 0;
        bytes = min (u.before + u.from) (2 ^ 64 - 1);
        check8 = u.check8;
        check16 = u.check16;
        short = Truncated;
      });
    } };

    ghost invariant = { λ u. (u.from ≤ u.end) × (u.end ≤ 16384) × (length u.bytes ≡ 16384) };
}

impl Unsent {
    /// Nothing is held.
    pub(crate) fn new() -> Unsent
        ensures { result ≡ none_unsent }
    {
        Unsent {
            rest: Rest::empty(),
            bytes: [0; HOLD],
            end: 0,
            before: 0,
            from: 0,
            check8: 0,
            check16: 0,
        }
    }

    /// Adds the n bits of a number to those held, if they do not fill a word; false if they do.
    #[inline(always)]
    pub(crate) fn put(&mut self, n: u32, value: u64) -> bool
        requires few { n ≤ 64 }
        requires fits { value < 2 ^ n }
        ensures put { result ≡ true → Puts (unsigned n value) self.old self.new }
        ensures full { result ≡ false → (self.new ≡ self.old) × (64 ≤ length self.old.rest + n) }
    {
        if self.rest.count() + n > 63 {
            return false;
        }
        self.rest.put(n, value);
        true
    }

    /// Whether there is room for one more word.
    pub(crate) fn has_room(&self) -> bool
        ensures { result ≡ true → length self.now.bytes + 8 ≤ 16384 }
    {
        self.end <= HOLD - 8
    }

    /// Adds the n bits of a number, which fill a word; there is room for it.
    #[inline(always)]
    pub(crate) fn fill(&mut self, n: u32, value: u64)
        requires room { length self.old.bytes + 8 ≤ 16384 }
        requires enough { 64 ≤ length self.old.rest + n }
        requires few { n ≤ 64 }
        requires fits { value < 2 ^ n }
        ensures { Puts (unsigned n value) self.old self.new }
    {
        let word = self.rest.fill(n, value);
        put_word(&mut self.bytes, self.end, word);
        self.end += 8;
    }

    /// Adds the Rice codes of values from the index `from` on, as far as there is room for them and their quotients are
    /// at most 30, and returns where it stopped.
    #[inline(always)]
    pub(crate) fn put_codes(&mut self, k: u32, values: &[i64], from: usize) -> usize
        requires k { k ≤ 32 }
        requires range { All IsResidual values.now }
        requires from { from ≤ length values.now }
        ensures within { (from ≤ result) × (result ≤ length values.now) }
        ensures put { PutsValues k values.now from result (λ text. Puts text self.old self.new) }
    {
        let mut rest = self.rest.copied();
        let (end, next) = put_codes(&mut rest, &mut self.bytes, self.end, k, values, from);
        self.rest = rest;
        self.end = end;
        next
    }

    /// How many bits the current byte still lacks.
    pub(crate) fn unread(&self) -> u32
        ensures { (result ≡ self.now.mark.unread) × (result < 8) }
    {
        (64 - self.rest.count()) % 8
    }

    /// How many bytes were written, at most 2^64 - 1. A byte counts from its first bit on.
    pub(crate) fn bytes_begun(&self) -> u64
        ensures { result ≡ self.now.mark.bytes }
    {
        let begun = (self.rest.count() as usize + 7) / 8;
        self.before.saturating_add((self.end + begun) as u64)
    }

    /// The CRC-8 of the bits since the checks began.
    pub(crate) fn check8(&self) -> u8
        ensures { result ≡ self.now.mark.check8 }
    {
        let check = checked8(self.check8, &self.bytes[self.from..self.end]);
        self.rest.checked8(check)
    }

    /// The CRC-16 of the bits since the checks began.
    pub(crate) fn check16(&self) -> u16
        ensures { result ≡ self.now.mark.check16 }
    {
        let check = checked16(self.check16, &self.bytes[self.from..self.end]);
        self.rest.checked16(check)
    }

    /// Moves the first eight bits after the whole bytes into the array.
    fn settle_byte(&mut self)
        requires room { length self.old.bytes < 16384 }
        requires enough { 8 ≤ length self.old.rest }
        ensures kept { KeepsBits self.old self.new }
        ensures long { length self.new.bytes ≡ length self.old.bytes + 1 }
        ensures left { length self.new.rest + 8 ≡ length self.old.rest }
    {
        let byte = self.rest.take_byte();
        self.bytes[self.end] = byte;
        self.end += 1;
    }

    /// How many bits there are after the whole bytes.
    fn rest_count(&self) -> u32
        ensures count { (result ≡ length self.now.rest) × (result ≤ 63) }
        ensures unread { (length self.now.rest + self.now.mark.unread) % 8 ≡ 0 }
    {
        self.rest.count()
    }

    /// Moves all whole bytes of the bits held into the array.
    pub(crate) fn settle(&mut self)
        requires { length self.old.bytes + 8 ≤ 16384 }
        ensures kept { KeepsBits self.old self.new }
        ensures left { self.new.mark.unread ≡ 0 → self.new.rest ≡ [] }
    {
        for i in 0..self.rest_count() / 8 {
            let _i = i;
            self.settle_byte();
        }
    }

    /// Restarts the checks; there are no bits after the whole bytes.
    pub(crate) fn start_checks(&mut self)
        requires { self.old.rest ≡ [] }
        ensures { self.new ≡ record self.old { mark = record self.old.mark { check8 = 0; check16 = 0 } } }
    {
        self.from = self.end;
        self.check8 = 0;
        self.check16 = 0;
    }

    /// Sends the whole bytes.
    #[inline(never)]
    pub(crate) fn send_to<W: Target>(&mut self, target: &mut W) -> Result<(), Why>
        ensures sends { Sends W.Target self.old.bytes target.old target.new result }
        ensures kept { (self.new.rest ≡ self.old.rest) × (self.new.mark ≡ self.old.mark) }
        ensures sent { result ≡ Ok tt → self.new.bytes ≡ [] }
        ensures write { IfErr result (λ e. e ≡ Why.Write) }
    {
        send_all(target, &self.bytes[..self.end])?;
        let (check8, check16) = both_checked(
            self.check8,
            self.check16,
            &self.bytes[self.from..self.end],
        );
        self.check8 = check8;
        self.check16 = check16;
        self.before = self.before.saturating_add(self.end as u64);
        self.from = 0;
        self.end = 0;
        Ok(())
    }
}
