//! Writing of residual values under a Rice code to a word and the bytes before it.

ghost use Rattle.std.specs.Prelude.{◌≡◌, ◌<◌, ◌≤◌, ◌+◌, ◌^◌, ◌++◌, All, length, take, drop, flat_map, IfSome, None};
ghost use Rattle.std.specs.Int.{bytes_high_first};
ghost use Rattle.flac_bits.specs.Bits.{unsigned};
ghost use Rattle.flac_bits.specs.Rice.{IsResidual, value_bits};
ghost use Rattle.flac_bits.specs.inner.Runs.{ExtendsTo, Extended, IsCode, AreNextCodes, PutsValues};

use crate::rest::Rest;
use crate::signed::folded;

/// Writes a word at an index, its highest byte first.
#[inline(always)]
pub(crate) fn put_word(bytes: &mut [u8], place: usize, word: u64)
    requires { place + 8 ≤ length bytes.old }
    ensures { take (place + 8) bytes.new ≡ take place bytes.old ++ bytes_high_first 8 word }
{
    bytes[place..place + 8].copy_from_slice(&word.to_be_bytes());
}

/// Adds the n bits of a number to those in the word, and the word to the bytes before the index `end` if they fill it.
/// Returns the index after these bytes, or `None` if there is no room.
#[inline(always)]
fn put_bits(rest: &mut Rest, bytes: &mut [u8], end: usize, n: u32, value: u64) -> Option<usize>
    requires few { n ≤ 64 }
    requires fits { value < 2 ^ n }
    requires end { end ≤ length bytes.old }
    ensures some { IfSome result (ExtendsTo (unsigned n value) rest.old rest.new end bytes.old bytes.new) }
    ensures none { result ≡ None → (rest.new ≡ rest.old) × (bytes.new ≡ bytes.old) }
{
    if rest.count() + n <= 63 {
        rest.put(n, value);
        return Some(end);
    }
    if bytes.len() - end < 8 {
        return None;
    }
    let word = rest.fill(n, value);
    put_word(bytes, end, word);
    Some(end + 8)
}

/// The Rice code of a value as a number of n bits, after n, if its quotient is at most 30.
#[inline(always)]
fn code_of(k: u32, value: i64) -> Option<(u32, u64)>
    requires k { k ≤ 32 }
    requires value { IsResidual value }
    ensures { IfSome result (IsCode (value_bits k value)) }
{
    let number = folded(value);
    let zeros = number >> k;
    if zeros > 30 {
        return None;
    }
    let low = number % (1 << k);
    Some((zeros as u32 + 1 + k, (1 << k) + low))
}

/// The Rice codes of two values as one number, if they have at most 64 bits.
#[inline(always)]
fn pair_of(k: u32, first: i64, second: i64) -> Option<(u32, u64)>
    requires k { k ≤ 32 }
    requires first { IsResidual first }
    requires second { IsResidual second }
    ensures { IfSome result (IsCode (value_bits k first ++ value_bits k second)) }
{
    let one = folded(first);
    let two = folded(second);
    let n = (one >> k) + 1 + u64::from(k);
    let m = (two >> k) + 1 + u64::from(k);
    if n + m > 64 {
        return None;
    }
    let high = (1 << k) + one % (1 << k);
    let low = (1 << k) + two % (1 << k);
    Some(((n + m) as u32, (high << m as u32) + low))
}

/// The codes of the next two values as one number of n bits, or that of the next one, after n; and the index of the
/// value after them. It is `None` if the code of the next one has a quotient of 31 or more.
#[inline(always)]
fn next_codes(k: u32, values: &[i64], i: usize) -> Option<(u32, u64, usize)>
    requires k { k ≤ 32 }
    requires range { All IsResidual values.now }
    requires i { i < length values.now }
    ensures { IfSome result (λ code. AreNextCodes k values.now i code) }
{
    if i + 1 < values.len() {
        match pair_of(k, values[i], values[i + 1]) {
            Some((n, codes)) => return Some((n, codes, i + 2)),
            None => {}
        }
    }
    let (n, code) = code_of(k, values[i])?;
    Some((n, code, i + 1))
}

/// Adds the Rice codes of values from the index `from` on, as far as there is room and quotients are at most 30.
/// Returns the index after the bytes, and where it stopped.
#[inline(always)]
pub(crate) fn put_codes(
    rest: &mut Rest,
    bytes: &mut [u8],
    end: usize,
    k: u32,
    values: &[i64],
    from: usize,
) -> (usize, usize)
    requires k { k ≤ 32 }
    requires range { All IsResidual values.now }
    requires end { end ≤ length bytes.old }
    requires from { from ≤ length values.now }
    ensures end { (end ≤ result.0) × (result.0 ≤ length bytes.old) }
    ensures within { (from ≤ result.1) × (result.1 ≤ length values.now) }
    ensures put { PutsValues k values.now from result.1 (Extended rest.old rest.new end bytes.old result.0 bytes.new) }
{
    let mut end = end;
    let mut i = from;
    while i < values.len() {
        match next_codes(k, values, i) {
            Some((n, codes, next)) => match put_bits(rest, bytes, end, n, codes) {
                Some(to) => {
                    end = to;
                    i = next;
                }
                None => return (end, i),
            },
            None => return (end, i),
        }
    }
    (end, i)
}
