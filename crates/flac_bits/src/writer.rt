//! Writing of bits to a target of bytes.

ghost use Rattle.flac_bits.specs.inner.Runs.{PutsValues};
ghost use Rattle.std.specs.Prelude.{◌≡◌, ◌<◌, ◌≤◌, ◌+◌, ◌-◌, ◌*◌, ◌/◌, ◌%◌, ◌^◌, ◌++◌, [], All, length, flat_map, IfOk, OnOk, IfErr};
ghost use Rattle.flac_bits.specs.Bits.{unsigned, bits_of};
ghost use Rattle.flac_bits.specs.Meaning.{unary_bits};
ghost use Rattle.flac_bits.specs.Rice.{IsResidual, value_bits};
ghost use Rattle.flac_bits.specs.Signed.{signed, modulo};
ghost use Rattle.flac_bits.specs.Standing.{standing, WritesTo, SendsWhole};
ghost use Rattle.flac_bits.specs.State.{first_mark};
ghost use Rattle.flac_bits.specs.Written.{Written, AreAll, Adds, Writes, Starts};

use crate::signed::folded;
use crate::stretch::eight_bytes;
use crate::target::{Collected, Target};
use crate::unsent::Unsent;
use crate::why::Why;
use std::marker::Model;

/// Writes to a target bit by bit, the highest bit of a byte first.
///
/// Up to 16384 bytes are held before they are sent; [`BitWriter::finish`] sends what is held. After an error the target
/// has received a prefix of the bits that were to be written, and nothing more should be written.
///
/// # Errors
/// Each call returns [`Why::Write`] if the target returned an error.
#[derive(Drop)]
pub struct BitWriter<W: Target> {
    target: W,
    held: Unsent,
}

impl<W: Target> Model for BitWriter<W> {
    ghost Value = { Written };

    ghost view = { λ w. standing W.Target w.target w.held };
}

/// Makes room for one more word, by sending what is held if need be.
#[inline(always)]
fn make_room<W: Target>(held: &mut Unsent, target: &mut W) -> Result<(), Why>
    ensures room { OnOk result (length held.new.bytes + 8 ≤ 16384) }
    ensures rest { held.new.rest ≡ held.old.rest }
    ensures writes { Writes [] (standing W.Target target.old held.old) (standing W.Target target.new held.new) result }
{
    if held.has_room() {
        return Ok(());
    }
    held.send_to(target)
}

/// Writes the n bits of a number, which fill a word.
#[inline(never)]
fn put_more<W: Target>(held: &mut Unsent, target: &mut W, n: u32, value: u64) -> Result<(), Why>
    requires enough { 64 ≤ length held.old.rest + n }
    requires few { n ≤ 64 }
    requires fits { value < 2 ^ n }
    ensures { WritesTo W.Target (unsigned n value) target.old held.old target.new held.new result }
{
    make_room(held, target)?;
    held.fill(n, value);
    Ok(())
}

/// Restarts the checks if the bits written are whole bytes; else nothing changes.
fn start<W: Target>(held: &mut Unsent, target: &mut W) -> Result<(), Why>
    ensures { Starts (standing W.Target target.old held.old) (standing W.Target target.new held.new) result }
{
    if held.unread() != 0 {
        return Ok(());
    }
    make_room(held, target)?;
    held.settle();
    held.start_checks();
    Ok(())
}

/// Sends all whole bytes.
fn send_rest<W: Target>(held: &mut Unsent, target: &mut W) -> Result<(), Why>
    ensures writes { Writes [] (standing W.Target target.old held.old) (standing W.Target target.new held.new) result }
    ensures whole { OnOk result (SendsWhole W.Target target.old held.old target.new) }
{
    make_room(held, target)?;
    held.settle();
    held.send_to(target)
}

/// The n lowest bits of a signed number in two's complement.
fn lowest_bits(n: u32, value: i64) -> u64
    requires { (1 ≤ n) × (n ≤ 64) }
    ensures { result ≡ modulo n value }
{
    (value.cast_unsigned() << (64 - n)) >> (64 - n)
}

impl<W: Target> BitWriter<W> {
    /// Makes a writer that adds to what the target was sent. Both checks begin here, and no byte is counted yet.
    ///
    /// ```
    /// let mut writer = BitWriter::new(Collected::new(rt.alloc()));
    /// writer.put(4, 10)?;
    /// writer.put_signed(4, -3)?;
    /// let bytes = writer.into_bytes()?; // [0xAD]
    /// ```
    pub fn new(target: W) -> BitWriter<W>
        ensures { result ≡ record {
          known = W.known target;
          errors = W.errors target;
          names = W.names target;
          sent = W.sent target;
          bits = bits_of (W.sent target);
          mark = first_mark;
        } }
    {
        BitWriter {
            target,
            held: Unsent::new(),
        }
    }

    /// Writes a number below 2^n as n bits, the highest first. n is at most 64.
    ///
    /// # Errors
    /// [`Why::Write`] if the target fails.
    #[inline(always)]
    pub fn put(&mut self, n: u32, value: u64) -> Result<(), Why>
        requires small { n ≤ 64 }
        requires fits { value < 2 ^ n }
        ensures { Writes (unsigned n value) self.old self.new result }
    {
        if self.held.put(n, value) {
            return Ok(());
        }
        put_more(&mut self.held, &mut self.target, n, value)
    }

    /// Writes the n lowest bits of a signed number in two's complement. n is 1 to 64.
    ///
    /// # Errors
    /// [`Why::Write`] if the target fails.
    pub fn put_signed(&mut self, n: u32, value: i64) -> Result<(), Why>
        requires { (1 ≤ n) × (n ≤ 64) }
        ensures { Writes (signed n value) self.old self.new result }
    {
        self.put(n, lowest_bits(n, value))
    }

    /// Writes q zeros and a one.
    ///
    /// # Errors
    /// [`Why::Write`] if the target fails.
    pub fn put_unary(&mut self, q: u64) -> Result<(), Why>
        ensures { Writes (unary_bits q) self.old self.new result }
    {
        for i in 0..q / 64 {
            let _i = i;
            self.put(64, 0)?;
        }
        self.put((q % 64) as u32 + 1, 1)
    }

    /// Writes a number under a Rice code with the parameter k, at most 32: value / 2^k zeros, a one, and the lowest k
    /// bits (RFC 9639, section 9.2.7.2). The number of a residual value is the folded one.
    ///
    /// # Errors
    /// [`Why::Write`] if the target fails.
    #[inline(always)]
    pub fn put_rice(&mut self, k: u32, value: u64) -> Result<(), Why>
        requires { k ≤ 32 }
        ensures { Writes (unary_bits (value / 2 ^ k) ++ unsigned k value) self.old self.new result }
    {
        let zeros = value >> k;
        let low = value % (1 << k);
        if zeros < 31 {
            return self.put(zeros as u32 + 1 + k, (1 << k) + low);
        }
        self.put_long_rice(k, zeros, low)
    }

    /// Writes a Rice code of 31 zeros or more, in two parts.
    #[inline(never)]
    fn put_long_rice(&mut self, k: u32, zeros: u64, low: u64) -> Result<(), Why>
        requires k { k ≤ 32 }
        requires low { low < 2 ^ k }
        ensures { Writes (unary_bits zeros ++ unsigned k low) self.old self.new result }
    {
        self.put_unary(zeros)?;
        self.put(k, low)
    }

    /// Writes the codes of values from the index `from` on, as far as this needs no sending, and returns where it
    /// stopped.
    #[inline(never)]
    fn put_ready(&mut self, k: u32, values: &[i64], from: usize) -> usize
        requires k { k ≤ 32 }
        requires range { All IsResidual values.now }
        requires from { from ≤ length values.now }
        ensures within { (from ≤ result) × (result ≤ length values.now) }
        ensures put { PutsValues k values.now from result (λ text. Adds text self.old self.new) }
    {
        self.held.put_codes(k, values, from)
    }

    /// Writes residual values one after another, each under a Rice code with the parameter k, at most 32: the values of
    /// a partition (RFC 9639, sections 9.2.7.2 and 9.2.7.3). Each value lies strictly between -2^31 and 2^31.
    ///
    /// # Errors
    /// [`Why::Write`] if the target fails.
    pub fn put_rice_partition(&mut self, k: u32, values: &[i64]) -> Result<(), Why>
        requires k { k ≤ 32 }
        requires range { All IsResidual values.now }
        ensures { Writes (flat_map (value_bits k) values.now) self.old self.new result }
    {
        let mut i = self.put_ready(k, values, 0);
        while i < values.len() {
            self.put_rice(k, folded(values[i]))?;
            i = self.put_ready(k, values, i + 1);
        }
        Ok(())
    }

    /// Writes zeros up to the next whole byte, 0 to 7 of them.
    ///
    /// # Errors
    /// [`Why::Write`] if the target fails.
    pub fn align(&mut self) -> Result<(), Why>
        ensures { Writes (unsigned self.old.mark.unread 0) self.old self.new result }
    {
        let held = &self.held;
        let unread = held.unread();
        self.put(unread, 0)
    }

    /// Writes bytes, at a whole byte or inside one.
    ///
    /// # Errors
    /// [`Why::Write`] if the target fails.
    pub fn put_bytes(&mut self, bytes: &[u8]) -> Result<(), Why>
        ensures { Writes (bits_of bytes.now) self.old self.new result }
    {
        let eights = bytes.len() / 8;
        for i in 0..eights {
            self.put(64, eight_bytes(bytes, 8 * i))?;
        }
        for i in 8 * eights..bytes.len() {
            self.put(8, bytes[i] as u64)?;
        }
        Ok(())
    }

    /// How many bytes were written since the writer was made, at most 2^64 - 1. A byte counts from its first bit on.
    pub fn bytes_written(&self) -> u64
        ensures { result ≡ self.now.mark.bytes }
    {
        self.held.bytes_begun()
    }

    /// The CRC-8 of the bits written since the checks began: generator x^8 + x^2 + x + 1, from 0 (RFC 9639, section
    /// 9.1.8).
    pub fn check8(&self) -> u8
        ensures { result ≡ self.now.mark.check8 }
    {
        self.held.check8()
    }

    /// The CRC-16 of the bits written since the checks began: generator x^16 + x^15 + x^2 + 1, from 0 (RFC 9639,
    /// section 9.3).
    pub fn check16(&self) -> u16
        ensures { result ≡ self.now.mark.check16 }
    {
        self.held.check16()
    }

    /// Restarts both checks from 0 if the bits written are whole bytes; else they go on.
    ///
    /// # Errors
    /// [`Why::Write`] if the target fails.
    pub fn start_checks(&mut self) -> Result<(), Why>
        ensures { Starts self.old self.new result }
    {
        start(&mut self.held, &mut self.target)
    }

    /// Sends the whole bytes that are held. If the bits written are whole bytes, the target has then received all of
    /// them; call [`BitWriter::align`] before if they may not be.
    ///
    /// # Errors
    /// [`Why::Write`] if the target fails.
    pub fn finish(&mut self) -> Result<(), Why>
        ensures writes { Writes [] self.old self.new result }
        ensures whole { OnOk result (AreAll self.old self.new.sent) }
    {
        send_rest(&mut self.held, &mut self.target)
    }

    /// Returns the target. Bits that are held are lost: call [`BitWriter::finish`] before.
    pub fn into_target(self) -> W
        ensures known { W.known result ≡ self.known }
        ensures sent { W.sent result ≡ self.sent }
        ensures errors { W.errors result ≡ self.errors }
        ensures names { W.names result ≡ self.names }
    {
        let BitWriter { target, held: _ } = self;
        target
    }
}

impl BitWriter<Collected> {
    /// Ends the writing into memory, and returns the bytes that were written. The bits must be a whole number of bytes.
    ///
    /// ```
    /// let mut writer = BitWriter::new(Collected::new(rt.alloc()));
    /// writer.put(32, 0x664C6143)?;
    /// let bytes = writer.into_bytes()?; // b"fLaC"
    /// ```
    ///
    /// # Errors
    /// [`Why::Memory`] if an allocation failed.
    pub fn into_bytes(self) -> Result<Vec<u8>, Why>
        ensures bytes { IfOk result (λ bytes. AreAll self bytes.items) }
        ensures memory { IfErr result (λ e. e ≡ Why.Memory) }
    {
        let mut writer = self;
        match writer.finish() {
            Ok(()) => {
                let target = writer.into_target();
                Ok(target.into_bytes())
            }
            Err(why) => Err(why.in_memory()),
        }
    }
}
