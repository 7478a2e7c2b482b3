//! Reading of values under a Rice code from a word and the bytes after it.

ghost use Rattle.flac_bits.specs.inner.Reading.{AreResiduals};
ghost use Rattle.flac_bits.specs.inner.Ahead.{in_word};
ghost use Rattle.std.specs.Prelude.{◌≡◌, ◌<◌, ◌≤◌, ◌+◌, ◌-◌, ◌%◌, ◌^◌, ℕ, length, take, drop};
ghost use Rattle.flac_bits.specs.Bits.{unsigned, bits_of};
ghost use Rattle.flac_bits.specs.inner.Store.{four_at};
ghost use Rattle.flac_bits.specs.inner.Stretches.{ReadsOff, ReadsOffBytes, Agrees};

use crate::word::{Ahead, Word, code_of};

/// The largest Rice parameter under which each value whose whole code the word has is in its range.
pub const MOST_READY: u32 = 26;

/// The least Rice parameter under which the codes of a filled word are so few that it is as fast or faster to ask once
/// whether they are all there. That loop is short enough to be fast wherever its jump falls.
const AT_ONCE: u32 = 5;

/// Four bytes as a number, the first of them highest.
#[inline(always)]
pub(crate) fn four_bytes(bytes: &[u8], place: usize) -> u32
    requires { place + 4 ≤ length bytes.now }
    ensures { unsigned 32 result ≡ bits_of (four_at bytes.now place) }
{
    u32::from_be_bytes([
        bytes[place],
        bytes[place + 1],
        bytes[place + 2],
        bytes[place + 3],
    ])
}

/// Eight bytes as a number, the first of them highest.
#[inline(always)]
pub(crate) fn eight_bytes(bytes: &[u8], place: usize) -> u64
    requires { place + 8 ≤ length bytes.now }
    ensures { unsigned 64 result ≡ bits_of (take 8 (drop place bytes.now)) }
{
    let high = four_bytes(bytes, place);
    let low = four_bytes(bytes, place + 4);
    (u64::from(high) << 32) + u64::from(low)
}

/// Fills `values` from the index `from` up to `to` with residual values, as far as the word has them, and returns where
/// it stopped.
#[inline(always)]
fn values_held(word: &mut Ahead, k: u32, values: &mut [i64], from: usize, to: usize) -> usize
    requires few { word.old.count ≤ 63 }
    requires k { k ≤ 26 }
    requires from { from ≤ to }
    requires to { to ≤ length values.old }
    ensures within { (from ≤ result) × (result ≤ to) }
    ensures few { word.new.count ≤ 63 }
    ensures next { (eight : ℕ) → Agrees word.old.word word.old.count eight → Agrees word.new.word word.new.count eight }
    ensures read { ReadsOff k (in_word word.old) (in_word word.new) values.old from values.new result }
    // proof only
    ensures fits { AreResiduals values.old from → AreResiduals values.new result }
{
    let mut i = from;
    while i < to {
        match word.value(k) {
            Some(value) => {
                values[i] = value;
                i += 1;
            }
            None => return i,
        }
    }
    i
}

/// What [`values_held`] does, by a call, which is never inlined: otherwise the compiler keeps each value and each word
/// of the loop before for it, which takes a store for each.
#[cold]
#[inline(never)]
fn values_apart(word: Ahead, k: u32, values: &mut [i64], from: usize, to: usize) -> (Ahead, usize)
    requires few { word.count ≤ 63 }
    requires k { k ≤ 26 }
    requires from { from ≤ to }
    requires to { to ≤ length values.old }
    ensures within { (from ≤ result.1) × (result.1 ≤ to) }
    ensures few { result.0.count ≤ 63 }
    ensures next { (eight : ℕ) → Agrees word.word word.count eight → Agrees result.0.word result.0.count eight }
    ensures read { ReadsOff k (in_word word) (in_word result.0) values.old from values.new result.1 }
    // proof only
    ensures fits { AreResiduals values.old from → AreResiduals values.new result.1 }
{
    let mut after = word;
    let next = values_held(&mut after, k, values, from, to);
    (after, next)
}

/// What [`values_held`] does, but under most parameters it is asked once whether the word has all the codes, after the
/// last of them. If it has not, they are read again, one by one.
#[inline(always)]
fn values_at_once(word: &mut Ahead, k: u32, values: &mut [i64], from: usize, to: usize) -> usize
    requires few { word.old.count ≤ 63 }
    requires k { k ≤ 26 }
    requires from { from ≤ to }
    requires to { to ≤ length values.old }
    requires few_values { to ≤ from + 56 }
    ensures within { (from ≤ result) × (result ≤ to) }
    ensures few { word.new.count ≤ 63 }
    ensures next { (eight : ℕ) → Agrees word.old.word word.old.count eight → Agrees word.new.word word.new.count eight }
    ensures read { ReadsOff k (in_word word.old) (in_word word.new) values.old from values.new result }
    // proof only
    ensures fits { AreResiduals values.old from → AreResiduals values.new result }
{
    if k < AT_ONCE {
        return values_held(word, k, values, from, to);
    }
    let mut rest = word.word;
    let mut taken = 0;
    for i in from..to {
        let (bits, value, after) = code_of(rest, k);
        values[i] = value;
        taken += bits;
        rest = after;
    }
    if taken <= word.count {
        word.word = rest;
        word.count -= taken;
        return to;
    }
    let (after, next) = values_apart(*word, k, values, from, to);
    *word = after;
    next
}

/// Fills at most `most` places of `values` from the index `from` on with residual values, as far as the word has them,
/// and returns where it stopped. If all these places are there, how many values are read is a fixed number, and the
/// compiler makes no loop of them.
#[inline(always)]
fn next_values(word: &mut Ahead, k: u32, values: &mut [i64], from: usize, most: usize) -> usize
    requires few { word.old.count ≤ 63 }
    requires k { k ≤ 26 }
    requires from { from ≤ length values.old }
    requires few_values { most ≤ 56 }
    ensures within { (from ≤ result) × (result ≤ length values.old) }
    ensures few { word.new.count ≤ 63 }
    ensures next { (eight : ℕ) → Agrees word.old.word word.old.count eight → Agrees word.new.word word.new.count eight }
    ensures read { ReadsOff k (in_word word.old) (in_word word.new) values.old from values.new result }
    // proof only
    ensures fits { AreResiduals values.old from → AreResiduals values.new result }
{
    let left = values.len() - from;
    if k >= AT_ONCE && left >= most {
        return values_at_once(word, k, values, from, from + most);
    }
    values_at_once(word, k, values, from, from + most.min(left))
}

/// Fills `values` from the index `from` on with residual values, as far as the word and the bytes after it have them.
/// Returns how many bytes went into the word, and where it stopped.
#[inline(always)]
fn values_in(
    word: &mut Ahead,
    bytes: &[u8],
    k: u32,
    values: &mut [i64],
    from: usize,
) -> (usize, usize)
    requires few { word.old.count ≤ 63 }
    requires clean { word.old.word % 2 ^ (64 - word.old.count) ≡ 0 }
    requires k { k ≤ 26 }
    requires from { from ≤ length values.old }
    ensures used { result.0 ≤ length bytes.now }
    ensures within { (from ≤ result.1) × (result.1 ≤ length values.old) }
    ensures few { word.new.count ≤ 63 }
    ensures read { ReadsOffBytes k (in_word word.old) bytes.now (in_word word.new) values.old from values.new result }
    // proof only
    ensures fits { AreResiduals values.old from → AreResiduals values.new result.1 }
{
    // as many values as a filled word nearly always has: if it has fewer, a branch is mispredicted
    let at_once = 56 / (k as usize + 3);
    let mut used = 0;
    let mut i = from;
    while bytes.len() - used >= 8 && i < values.len() {
        used += word.fill(eight_bytes(bytes, used)) as usize;
        let next = next_values(word, k, values, i, at_once);
        if next == i {
            return (used, i);
        }
        i = next;
    }
    (used, i)
}

/// What [`values_in`] does, with a word whose bits stand alone before and after.
#[inline(always)]
fn values_of(
    word: &mut Word,
    bytes: &[u8],
    k: u32,
    values: &mut [i64],
    from: usize,
) -> (usize, usize)
    requires k { k ≤ 26 }
    requires from { from ≤ length values.old }
    ensures used { result.0 ≤ length bytes.now }
    ensures within { (from ≤ result.1) × (result.1 ≤ length values.old) }
    ensures read { ReadsOffBytes k word.old bytes.now word.new values.old from values.new result }
    // proof only
    ensures fits { AreResiduals values.old from → AreResiduals values.new result.1 }
{
    let mut ahead = word.ahead();
    let taken = values_in(&mut ahead, bytes, k, values, from);
    *word = ahead.cut();
    taken
}

/// What [`values_of`] does, compiled anew for each of the usual parameters.
#[inline(always)]
pub(crate) fn values_by(
    word: &mut Word,
    bytes: &[u8],
    k: u32,
    values: &mut [i64],
    from: usize,
) -> (usize, usize)
    requires k { k ≤ 26 }
    requires from { from ≤ length values.old }
    ensures used { result.0 ≤ length bytes.now }
    ensures within { (from ≤ result.1) × (result.1 ≤ length values.old) }
    ensures read { ReadsOffBytes k word.old bytes.now word.new values.old from values.new result }
    // proof only
    ensures fits { AreResiduals values.old from → AreResiduals values.new result.1 }
{
    match k {
        0 => values_of(word, bytes, 0, values, from),
        1 => values_of(word, bytes, 1, values, from),
        2 => values_of(word, bytes, 2, values, from),
        3 => values_of(word, bytes, 3, values, from),
        4 => values_of(word, bytes, 4, values, from),
        5 => values_of(word, bytes, 5, values, from),
        6 => values_of(word, bytes, 6, values, from),
        7 => values_of(word, bytes, 7, values, from),
        8 => values_of(word, bytes, 8, values, from),
        9 => values_of(word, bytes, 9, values, from),
        10 => values_of(word, bytes, 10, values, from),
        11 => values_of(word, bytes, 11, values, from),
        12 => values_of(word, bytes, 12, values, from),
        13 => values_of(word, bytes, 13, values, from),
        14 => values_of(word, bytes, 14, values, from),
        15 => values_of(word, bytes, 15, values, from),
        16 => values_of(word, bytes, 16, values, from),
        k => values_of(word, bytes, k, values, from),
    }
}
