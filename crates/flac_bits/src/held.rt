//! The bytes that were pulled from a source, and the word that holds the first bits of them.

ghost use Rattle.std.specs.Prelude.{◌≡◌, ◌≢◌, ◌<◌, ◌≤◌, ◌+◌, ◌-◌, ◌/◌, ◌%◌, ◌^◌, ◌++◌, [], true, false, length, take, drop, replicate, min, IfSome, Some, None, Ok, IsTrue, ◌↔◌};
ghost use Rattle.flac_bits.specs.declared.why.Why.TheVariants.{Truncated};
ghost use Rattle.flac_bits.specs.Reasons.{of_output};
ghost use Rattle.flac_bits.specs.Bits.{unsigned, bits_of};
ghost use Rattle.flac_bits.specs.Meaning.{unary_bits};
ghost use Rattle.flac_bits.specs.State.{past};
ghost use Rattle.flac_bits.specs.inner.Reading.{AreResiduals};
ghost use Rattle.flac_bits.specs.inner.Stretches.{HasRice};
ghost use Rattle.flac_bits.specs.Store.{Store, passed, hides_late};
ghost use Rattle.flac_bits.specs.inner.Store.{Takes, Passes, HoldsSame, PassesValues, Lifts, ComesWhole, Fences, ClosesAt, no_fence, empty_store, seen as seen_bytes, room_after as room_after_bytes};
ghost use Rattle.flac_bits.specs.inner.Pulling.{Pulls};

use crate::PULL;
use crate::crc_of_bytes::{bits_checked8, bits_checked16, both_checked, checked8, checked16};
use crate::source::Source;
use crate::stretch::{four_bytes, values_by};
use crate::why::Why;
use crate::word::Word;
use std::marker::Model;

/// An array of bytes, of which some are taken, and a word with the bits that come first. Bytes from `end` to `filled`
/// are past a fence; `room` is how many more may be pulled up to it, `None` if there is no fence.
#[derive(Drop)]
pub struct Held {
    word: Word,
    bytes: [u8; PULL],
    place: usize,
    end: usize,
    filled: usize,
    room: Option<u64>,
    before: u64,
    from: usize,
    check8: u8,
    check16: u16,
}

impl Model for Held {
    ghost Value = { Store };

    ghost view = { λ h. record {
      word = h.word;
      bytes = drop h.place (take h.end h.bytes);
      mark = past (passed (drop h.from (take h.place h.bytes)) h.word) (record {
        unread = 0;
        bytes = min (h.before + h.from) (2 ^ 64 - 1);
        check8 = h.check8;
        check16 = h.check16;
        short = Truncated;
      });
      fence = record { room = h.room; hidden = drop h.end (take h.filled h.bytes) };
    } };

    ghost invariant = { λ h. (h.from ≤ h.place) × (h.place ≤ h.end) × (h.end ≤ 8192)
        × (passed (drop h.from (take h.place h.bytes)) h.word ++ h.word ≡ bits_of (drop h.from (take h.place h.bytes)))
        × (length h.bytes ≡ 8192) × (h.end ≤ h.filled) × (h.filled ≤ 8192) × (hides_late h.room h.end h.filled ≡ true) };
}

/// How many of n bytes are before a fence.
fn seen(room: Option<u64>, n: usize) -> usize
    ensures { result ≡ seen_bytes room n }
{
    match room {
        None => n,
        Some(room) => room.min(n as u64) as usize,
    }
}

/// The room up to the fence after n more bytes.
fn room_after(room: Option<u64>, n: usize) -> Option<u64>
    ensures { result ≡ room_after_bytes room n }
{
    match room {
        None => None,
        Some(room) => Some(room.saturating_sub(n as u64)),
    }
}

impl Held {
    /// Nothing is held, and there is no fence.
    pub(crate) fn new() -> Held
        ensures { result ≡ empty_store }
    {
        Held {
            word: Word::empty(),
            bytes: [0; PULL],
            place: 0,
            end: 0,
            filled: 0,
            room: None,
            before: 0,
            from: 0,
            check8: 0,
            check16: 0,
        }
    }

    /// How many bits the word has.
    #[inline(always)]
    pub(crate) fn ready(&self) -> u32
        ensures { (result ≡ length self.now.word) × (result ≤ 63) }
    {
        self.word.count()
    }

    /// Takes n bits off the word, which has them.
    #[inline(always)]
    pub(crate) fn take(&mut self, n: u32) -> u64
        requires { n ≤ length self.old.word }
        ensures { Takes (unsigned n result) self.old self.new × (result < 2 ^ n) }
    {
        self.word.take(n)
    }

    /// Takes zeros and a one, if the word has them and there are at most `limit` zeros.
    #[inline(always)]
    pub(crate) fn unary(&mut self, limit: u64) -> Option<u64>
        ensures some { IfSome result (λ q. (q ≤ limit) × Takes (unary_bits q) self.old self.new) }
        ensures none { result ≡ None → self.new ≡ self.old }
    {
        self.word.unary(limit)
    }

    /// Takes all bits of the word, if they are zeros and at most `limit`, and returns how many they were, else 0.
    pub(crate) fn blank(&mut self, limit: u64) -> u64
        ensures few { result ≤ limit }
        ensures taken { Takes (replicate result false) self.old self.new }
    {
        self.word.blank(limit)
    }

    /// Takes zeros, a one and k bits, if the word has them and there are at most `limit` zeros.
    #[inline(always)]
    pub(crate) fn rice(&mut self, k: u32, limit: u64) -> Option<u64>
        requires k { k ≤ 30 }
        requires limit { limit < 2 ^ 32 }
        ensures some { IfSome result (HasRice k limit (λ text. Takes text self.old self.new)) }
        ensures none { result ≡ None → self.new ≡ self.old }
    {
        self.word.rice(k, limit)
    }

    /// Fills `values` from the index `from` on with residual values under the Rice parameter k, as far as the word and
    /// the bytes held have them, and returns where it stopped.
    #[inline(never)]
    pub(crate) fn values(&mut self, k: u32, values: &mut [i64], from: usize) -> usize
        requires k { k ≤ 26 }
        requires from { from ≤ length values.old }
        ensures within { (from ≤ result) × (result ≤ length values.old) }
        ensures read { PassesValues k self.old self.new values.old from values.new result }
        // proof only
        ensures fits { AreResiduals values.old from → AreResiduals values.new result }
    {
        let mut word = self.word.copied();
        let (used, next) = values_by(
            &mut word,
            &self.bytes[self.place..self.end],
            k,
            values,
            from,
        );
        self.word = word;
        self.place += used;
        next
    }

    /// Moves four bytes into the word, if it has room for them.
    #[inline(always)]
    pub(crate) fn top_up(&mut self)
        ensures { HoldsSame self.old self.new }
    {
        let place = self.place;
        if self.word.count() < 32 && self.end - place >= 4 {
            self.word.put(four_bytes(&self.bytes, place));
            self.place = place + 4;
        }
    }

    /// Moves a byte into the word, which is empty; false if no byte is held.
    #[inline(never)]
    pub(crate) fn begin_byte(&mut self) -> bool
        requires { self.old.word ≡ [] }
        ensures more { result ≡ true → HoldsSame self.old self.new × (length self.new.word ≡ 8) }
        ensures none { result ≡ false → (self.new ≡ self.old) × (self.old.bytes ≡ []) }
    {
        if self.place == self.end {
            return false;
        }
        let byte = self.bytes[self.place];
        self.word = Word::of_byte(byte);
        self.place += 1;
        true
    }

    /// Moves the whole bytes of the word back into the array.
    #[inline(never)]
    pub(crate) fn put_back(&mut self)
        ensures same { HoldsSame self.old self.new }
        ensures part { length self.new.word ≡ self.old.mark.unread }
    {
        let count = self.word.count();
        self.place -= count as usize / 8;
        self.word.keep(count % 8);
    }

    /// The error if no byte is left and the source did not fail: that of a fence, or that of the end.
    pub(crate) fn short(&self) -> Why
        ensures fence { self.now.fence.room ≡ Some 0 → result ≡ Why.FrameTooLong }
        ensures over { (self.now.fence.room ≡ Some 0 → ⊥) → result ≡ Why.Truncated }
        ensures memory { result ≢ Why.Memory }
        ensures device { (result ≢ Why.Read) × (of_output result ≡ false) }
    {
        match self.room {
            Some(0) => Why::FrameTooLong,
            _ => Why::Truncated,
        }
    }

    /// Whether no byte is held after the word.
    #[inline(always)]
    pub(crate) fn is_drained(&self) -> bool
        ensures { IsTrue result ↔ (self.now.bytes ≡ []) }
    {
        self.place == self.end
    }

    /// Copies the next bytes to the front of `out`, as many as are held and fit.
    pub(crate) fn copy(&mut self, out: &mut [u8]) -> usize
        requires { self.old.word ≡ [] }
        ensures bound { result ≤ length out.new }
        ensures taken { Passes (bits_of (take result out.new)) self.old self.new }
        ensures word { self.new.word ≡ [] }
        ensures all { result < length out.new → self.new.bytes ≡ [] }
    {
        let n = out.len().min(self.end - self.place);
        out[..n].copy_from_slice(&self.bytes[self.place..self.place + n]);
        self.place += n;
        n
    }

    /// Pulls bytes from the source, if all that were held are taken; false at the end and at a fence.
    #[inline(never)]
    pub(crate) fn pull<R: Source>(&mut self, source: &mut R) -> Result<bool, Why>
        requires { (self.old.word ≡ []) × (self.old.bytes ≡ []) }
        ensures pulls { Pulls R.Source self.old self.new source.old source.new result }
        ensures more { result ≡ Ok true → 0 < length self.new.bytes }
        ensures word { self.new.word ≡ [] }
    {
        match self.room {
            Some(0) => Ok(false),
            _ => self.pull_more(source),
        }
    }

    /// What [`Held::pull`] does if no fence is here.
    fn pull_more<R: Source>(&mut self, source: &mut R) -> Result<bool, Why>
        requires taken { (self.old.word ≡ []) × (self.old.bytes ≡ []) }
        requires room { self.old.fence.room ≡ Some 0 → ⊥ }
        ensures pulls { Pulls R.Source self.old self.new source.old source.new result }
        ensures more { result ≡ Ok true → 0 < length self.new.bytes }
        ensures word { self.new.word ≡ [] }
    {
        let (check8, check16) = both_checked(
            self.check8,
            self.check16,
            &self.bytes[self.from..self.end],
        );
        self.check8 = check8;
        self.check16 = check16;
        self.before = self.before.saturating_add(self.end as u64);
        self.from = 0;
        self.place = 0;
        self.end = 0;
        self.filled = 0;
        match source.pull(&mut self.bytes) {
            Ok(0) => Ok(false),
            Ok(n) => {
                self.filled = n;
                self.end = seen(self.room, n);
                self.room = room_after(self.room, self.end);
                Ok(true)
            }
            Err(_) => {
                self.room = None;
                Err(Why::Read)
            }
        }
    }

    /// Removes the fence.
    pub(crate) fn lift(&mut self)
        ensures held { Lifts self.old self.new }
        // proof only
        ensures after { ComesWhole self.old.fence }
    {
        self.end = self.filled;
        self.room = None;
    }

    /// Sets a fence `bytes` bytes after the current byte, in place of any other.
    pub(crate) fn fence(&mut self, bytes: u64)
        ensures mark { self.new.mark ≡ self.old.mark }
        // proof only
        ensures part { length self.new.word ≡ self.old.mark.unread }
        ensures held { Fences bytes self.old self.new }
        // proof only
        ensures after { ComesWhole self.old.fence }
    {
        self.lift();
        self.put_back();
        self.close(bytes);
    }

    /// Sets a fence after the next `bytes` bytes, those of the array first and then those of the source.
    fn close(&mut self, bytes: u64)
        requires { self.old.fence ≡ no_fence }
        ensures { ClosesAt bytes self.old self.new }
    {
        let held = (self.end - self.place) as u64;
        if bytes < held {
            self.end = self.place + bytes as usize;
            self.room = Some(0);
        } else {
            self.room = Some(bytes - held);
        }
    }

    /// How many bits of the current byte are not read yet.
    #[inline(always)]
    pub(crate) fn unread(&self) -> u32
        ensures { (result ≡ self.now.mark.unread) × (result < 8) }
    {
        self.word.count() % 8
    }

    /// How many bytes were read, at most 2^64 - 1.
    pub(crate) fn bytes_taken(&self) -> u64
        ensures { result ≡ self.now.mark.bytes }
    {
        self.before
            .saturating_add((self.place - self.word.count() as usize / 8) as u64)
    }

    /// The CRC-8 of the bits since the checks began.
    pub(crate) fn check8(&self) -> u8
        ensures { result ≡ self.now.mark.check8 }
    {
        let count = self.word.count();
        let whole = self.place - (count as usize + 7) / 8;
        let check = checked8(self.check8, &self.bytes[self.from..whole]);
        let rest = count % 8;
        if rest == 0 {
            return check;
        }
        bits_checked8(check, self.bytes[whole] >> rest, 8 - rest)
    }

    /// The CRC-16 of the bits since the checks began.
    pub(crate) fn check16(&self) -> u16
        ensures { result ≡ self.now.mark.check16 }
    {
        let count = self.word.count();
        let whole = self.place - (count as usize + 7) / 8;
        let check = checked16(self.check16, &self.bytes[self.from..whole]);
        let rest = count % 8;
        if rest == 0 {
            return check;
        }
        bits_checked16(check, self.bytes[whole] >> rest, 8 - rest)
    }

    /// Restarts the checks at a whole byte.
    pub(crate) fn start_checks(&mut self)
        requires { self.old.mark.unread ≡ 0 }
        ensures { self.new ≡ record self.old { mark = record self.old.mark { check8 = 0; check16 = 0 } } }
    {
        self.from = self.place - self.word.count() as usize / 8;
        self.check8 = 0;
        self.check16 = 0;
    }
}
