//! Bits held in a word.

ghost use Rattle.flac_bits.specs.inner.Ahead.{in_word};
ghost use Rattle.std.specs.Prelude.{◌≡◌, ◌<◌, ◌≤◌, ◌+◌, ◌-◌, ◌*◌, ◌/◌, ◌%◌, ◌^◌, ◌++◌, [], ℕ, List, Bool, false, length, replicate, IfSome, Some, None};
ghost use Rattle.flac_bits.specs.Bits.{unsigned};
ghost use Rattle.flac_bits.specs.Meaning.{unary_bits};
ghost use Rattle.flac_bits.specs.Rice.{IsResidual};
ghost use Rattle.flac_bits.specs.inner.Stretches.{top_bits, first_bytes, Agrees, ComesAfter, KeepsNext, KeepsNextAfter, HasRice, HasValue, IsValueAt};

use crate::signed::value_of_code;
use std::marker::Model;

/// At most 63 bits, the first of them highest in the word, and zeros below them.
#[derive(Drop)]
pub struct Word {
    word: u64,
    count: u32,
}

impl Model for Word {
    ghost Value = { List Bool };

    ghost view = { λ w. unsigned w.count (w.word / 2 ^ (64 - w.count)) };

    ghost invariant = { λ w. (w.count ≤ 63) × (w.word % 2 ^ (64 - w.count) ≡ 0) };
}

impl Word {
    /// No bits.
    pub(crate) fn empty() -> Word
        ensures { result ≡ [] }
    {
        Word { word: 0, count: 0 }
    }

    /// A copy.
    #[inline(always)]
    pub(crate) fn copied(&self) -> Word
        ensures { result ≡ self.now }
    {
        Word {
            word: self.word,
            count: self.count,
        }
    }

    /// How many bits are held.
    #[inline(always)]
    pub(crate) fn count(&self) -> u32
        ensures { (result ≡ length self.now) × (result ≤ 63) }
    {
        self.count
    }

    /// Takes the first n bits as a number.
    #[inline(always)]
    pub(crate) fn take(&mut self, n: u32) -> u64
        requires { n ≤ length self.old }
        ensures { (self.old ≡ unsigned n result ++ self.new) × (result < 2 ^ n) }
    {
        let value = self.word >> 1 >> (63 - n);
        self.word <<= n;
        self.count -= n;
        value
    }

    /// The n bits of a value below 2^n.
    #[inline(always)]
    fn of_bits(value: u64, n: u32) -> Word
        requires few { n ≤ 63 }
        requires small { value < 2 ^ n }
        ensures { result ≡ unsigned n value }
    {
        Word {
            word: (value << (63 - n)) << 1,
            count: n,
        }
    }

    /// Keeps the first n bits only.
    #[inline(always)]
    pub(crate) fn keep(&mut self, n: u32)
        requires few { n ≤ 63 }
        requires held { n ≤ length self.old }
        ensures { (rest : List Bool) × (self.old ≡ self.new ++ rest) × (length self.new ≡ n) }
    {
        let value = self.take(n);
        *self = Word::of_bits(value, n);
    }

    /// The bits of one byte.
    #[inline(always)]
    pub(crate) fn of_byte(byte: u8) -> Word
        ensures { result ≡ unsigned 8 byte }
    {
        Word {
            word: u64::from(byte) << 56,
            count: 8,
        }
    }

    /// Adds 32 bits to those held.
    #[inline(always)]
    pub(crate) fn put(&mut self, value: u32)
        requires { length self.old < 32 }
        ensures { self.new ≡ self.old ++ unsigned 32 value }
    {
        self.word += u64::from(value) << (32 - self.count);
        self.count += 32;
    }

    /// Takes zeros and a one, if they are held and there are at most `limit` zeros.
    #[inline(always)]
    pub(crate) fn unary(&mut self, limit: u64) -> Option<u64>
        ensures some { IfSome result (λ q. (q ≤ limit) × (self.old ≡ unary_bits q ++ self.new)) }
        ensures none { result ≡ None → self.new ≡ self.old }
    {
        let zeros = (self.word | 1).leading_zeros();
        if zeros < self.count && u64::from(zeros) <= limit {
            self.word <<= zeros + 1;
            self.count -= zeros + 1;
            Some(u64::from(zeros))
        } else {
            None
        }
    }

    /// Takes all bits, if they are zeros and at most `limit`, and returns how many they were, else 0.
    pub(crate) fn blank(&mut self, limit: u64) -> u64
        ensures few { result ≤ limit }
        ensures taken { self.old ≡ replicate result false ++ self.new }
    {
        let count = u64::from(self.count);
        if self.word != 0 || count > limit {
            return 0;
        }
        *self = Word::empty();
        count
    }

    /// Takes zeros, a one and k bits, if all are held and there are at most `limit` zeros.
    #[inline(always)]
    pub(crate) fn rice(&mut self, k: u32, limit: u64) -> Option<u64>
        requires k { k ≤ 30 }
        requires limit { limit < 2 ^ 32 }
        ensures some { IfSome result (HasRice k limit (λ text. self.old ≡ text ++ self.new)) }
        ensures none { result ≡ None → self.new ≡ self.old }
    {
        let zeros = (self.word | 1).leading_zeros();
        let used = zeros + 1 + k;
        if used <= self.count && u64::from(zeros) <= limit {
            let low = (self.word << (zeros + 1)) >> 1 >> (63 - k);
            self.word <<= used;
            self.count -= used;
            Some((u64::from(zeros) << k) + low)
        } else {
            None
        }
    }

    /// The same bits, for bits that come next to be put below them.
    #[inline(always)]
    pub(crate) fn ahead(&self) -> Ahead
        ensures same { top_bits result.word result.count ≡ self.now }
        // proof only
        ensures few { result.count ≤ 63 }
        // proof only
        ensures clean { result.word % 2 ^ (64 - result.count) ≡ 0 }
    {
        Ahead {
            word: self.word,
            count: self.count,
        }
    }
}

/// The code of a residual value under the Rice parameter k at the front of a word, if all of it is there: how many bits
/// it has, the value, and the word after it. If it has more bits than are held, nothing is said.
#[inline(always)]
pub(crate) fn code_of(word: u64, k: u32) -> (u32, i64, u64)
    requires { k ≤ 26 }
    ensures bits { result.0 ≤ 91 }
    ensures read { IsValueAt k word result.0 result.1 result.2 }
    // proof only
    ensures fits { result.0 ≤ 63 → IsResidual result.1 }
    // proof only
    ensures next { KeepsNextAfter result.0 word result.2 }
{
    // 64 if no bit is set: too many in any case
    let zeros = word.leading_zeros();
    // so that only one shift is by an unknown number if k is known
    let ahead = word << (zeros % 64);
    let value = value_of_code(zeros, ahead >> (63 - k), k);
    (zeros + 1 + k, value, ahead << (k + 1))
}

/// At most 63 bits, the first of them highest in the word. Below them are the first of the bits that come next, as far
/// as these were read: what is put there again changes nothing.
#[derive(Clone, Copy)]
pub(crate) struct Ahead {
    pub(crate) word: u64,
    pub(crate) count: u32,
}

impl Ahead {
    /// The bits alone.
    #[inline(always)]
    pub(crate) fn cut(self) -> Word
        requires { self.count ≤ 63 }
        ensures { result ≡ top_bits self.word self.count }
    {
        Word::of_bits(self.word >> 1 >> (63 - self.count), self.count)
    }

    /// Adds the first of the eight bytes that come next, as many as there is room for, and returns how many. The other
    /// bits of the eight come to stand below them: so no bits need to be removed, which would take more steps one
    /// after another.
    #[inline(always)]
    pub(crate) fn fill(&mut self, eight: u64) -> u32
        requires few { self.old.count ≤ 63 }
        requires next { Agrees self.old.word self.old.count eight }
        ensures few { (result ≤ 7) × (self.new.count ≤ 63) }
        ensures put { in_word self.new ≡ in_word self.old ++ first_bytes result eight }
        ensures next { (after : ℕ) → ComesAfter result eight after → Agrees self.new.word self.new.count after }
    {
        let n = 7 - self.count / 8;
        self.word |= eight >> self.count;
        self.count = 56 + self.count % 8;
        n
    }

    /// Takes the code of a residual value under the Rice parameter k, if all of it is held.
    #[inline(always)]
    pub(crate) fn value(&mut self, k: u32) -> Option<i64>
        requires few { self.old.count ≤ 63 }
        requires k { k ≤ 26 }
        ensures some { IfSome result (λ v. HasValue k v self.old.word self.old.count self.new.word self.new.count) }
        ensures fits { IfSome result IsResidual }
        ensures few { self.new.count ≤ 63 }
        ensures next { KeepsNext self.old.word self.old.count self.new.word self.new.count }
        ensures none { result ≡ None → self.new ≡ self.old }
    {
        let (bits, value, rest) = code_of(self.word, k);
        if bits <= self.count {
            self.word = rest;
            self.count -= bits;
            Some(value)
        } else {
            None
        }
    }
}
