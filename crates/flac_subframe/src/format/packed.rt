//! Restores narrow samples by linear predictors, two products by one multiplication: where the sums of products fit 32
//! bits, a number of 64 bits, here called a word, holds two of them.

ghost use Rattle.std.specs.Prelude.{ℕ, ℤ, ◌≡◌, ◌+◌, ◌-◌, ◌*◌, ◌<◌, ◌≤◌, ◌^◌, ◌+ℤ◌, ◌*ℤ◌, pos, List, length, All, IsTrue};
ghost use Rattle.std.specs.List.{AllWithin, sum_by};
ghost use Rattle.std.specs.Int.{int_shr};
ghost use Rattle.std.specs.Int.RustNames.{unsigned_abs};
ghost use Rattle.flac_bits.specs.Signed.{FitsBits};
ghost use Rattle.flac_subframe.specs.format.Numbers.{sample_at};
ghost use Rattle.flac_subframe.specs.format.Prediction.{Restored};
ghost use Rattle.flac_subframe.specs.format.inner.Packing.{packed, paired, ArePaired, IsSampleOf};
ghost use Rattle.flac_subframe.specs.format.inner.Summing.{IsHeld, IsNear, AreAdded};
ghost use Rattle.flac_subframe.specs.format.inner.Sums.{MustFit};

use crate::format::numbers::{fits_apart, fits_bits};

/// Whether each sum of products with samples of `bits` bits, 1 to 33, is less than 2^31 from 0.
pub(crate) fn are_narrow(coefficients: &[i64], bits: u32) -> bool
    requires few { length coefficients.now ≤ 32 }
    requires small { All (FitsBits 15) coefficients.now }
    requires positive { 1 ≤ bits }
    requires bits { bits ≤ 33 }
    ensures { IsTrue result → sum_by unsigned_abs coefficients.now * 2 ^ (bits - 1) < 2 ^ 31 }
{
    let mut sum = 0;
    for coefficient in coefficients {
        sum += coefficient.unsigned_abs();
    }
    sum < 0x8000_0000 >> (bits - 1)
}

/// How many words hold the sums of a linear predictor of an order, 1 to 12: half as many as its coefficients.
#[inline(always)]
fn words_of(order: usize) -> usize
    requires some { 1 ≤ order }
    requires few { order ≤ 12 }
    ensures some { 1 ≤ result }
    ensures few { result ≤ 6 }
    ensures enough { order ≤ result + result }
{
    (order + 1) / 2
}

/// The coefficient at an index, 0 past the last.
#[inline(always)]
fn coefficient_at(coefficients: &[i64], at: usize) -> i64
    requires small { All (FitsBits 15) coefficients.now }
    ensures is { result ≡ sample_at coefficients.now at }
    ensures fits { FitsBits 15 result }
{
    if at < coefficients.len() {
        coefficients[at]
    } else {
        0
    }
}

/// The factor for two sums: one coefficient times 2^32, and another.
#[inline(always)]
fn pair(high: i64, low: i64) -> i64
    requires high { FitsBits 15 high }
    requires low { FitsBits 15 low }
    ensures { result ≡ paired high low }
{
    0x1_0000_0000 * high + low
}

/// Puts the factors for the first `half` words into places: for word j the coefficient j, and that `half` places after
/// it. It is a call of its own: otherwise the compiler makes lanes of some of the loops that multiply by the factors
/// for processors with AVX2, which take 1.2 to 2.7 times as long.
#[inline(never)]
fn put_factors(coefficients: &[i64], half: usize, factors: &mut [i64])
    requires half { half ≤ length factors.old }
    requires small { All (FitsBits 15) coefficients.now }
    ensures { ArePaired half coefficients.now factors.new }
{
    for j in 0..half {
        factors[j] = pair(
            coefficient_at(coefficients, j),
            coefficient_at(coefficients, j + half),
        );
    }
}

/// What comes after the last word, from the first word: the second sum of that as the first one, and 0 as the second.
#[inline(always)]
fn word_after(first: i64) -> i64
    ensures { (high low : ℤ) → unsigned_abs low < 2 ^ 31 → first ≡ packed high low → result ≡ packed low (pos 0) }
{
    let low = (first.cast_unsigned() & 0xFFFF_FFFF) as i64;
    0x1_0000_0000 * (low - 0x8000_0000) + 0x8000_0000
}

/// The sample of this residual value, from the first word, whose first sum is shifted to the right by `shift`, 0 to 15
/// bits.
#[inline(always)]
fn sample_of(first: i64, shift: u32, residual: i64) -> i64
    requires shift { shift < 16 }
    requires residual { FitsBits 32 residual }
    ensures value { IsSampleOf first shift residual result }
    // proof only
    ensures near { IsNear result }
{
    (first >> (32 + shift)) + residual
}

/// A sum and one product more.
#[inline(always)]
fn plus(sum: i64, factor: i64, sample: i64) -> i64
    requires product { IsHeld (factor *ℤ sample) }
    requires sum { IsHeld (sum +ℤ (factor *ℤ sample)) }
    ensures { result ≡ sum +ℤ (factor *ℤ sample) }
{
    sum + factor * sample
}

/// Adds the products of one more sample with the first `count` factors to the sums, each of which moves one place
/// forward.
#[inline(always)]
pub(crate) fn add_sample(count: usize, factors: &[i64], sample: i64, sums: &mut [i64])
    requires factors { count ≤ length factors.now }
    requires places { count < length sums.old }
    requires products { (j : ℕ) → j < count → IsHeld (sample_at factors.now j *ℤ sample) }
    requires sums { (j : ℕ) → j < count → IsHeld (sample_at sums.old (j + 1) +ℤ (sample_at factors.now j *ℤ sample)) }
    ensures added { AreAdded count factors.now sample sums.old sums.new }
    ensures last { sample_at sums.new count ≡ sample_at sums.old count }
    // proof only
    ensures long { length sums.new ≡ length sums.old }
{
    for j in 0..count {
        sums[j] = plus(sums[j + 1], factors[j], sample);
    }
}

/// Restores by a linear predictor of an order, from the front, as [`crate::format::restoration::restore_linear`] does. The sums
/// of products for the samples to come are held in words beside the slice: word j holds the sum j, and that half the
/// order after it. Each sample is multiplied by all factors once it is known. The result is whether each sample fits in
/// `bits` bits. The first that does not is left in the slice, and is not multiplied.
#[inline(always)]
pub(crate) fn restore_packed(
    order: usize,
    coefficients: &[i64],
    shift: u32,
    bits: u32,
    samples: &mut [i64],
) -> bool
    requires some { 1 ≤ order }
    requires few { order ≤ 12 }
    requires order { length coefficients.now ≡ order }
    requires small { All (FitsBits 15) coefficients.now }
    requires narrow { sum_by unsigned_abs coefficients.now * 2 ^ (bits - 1) < 2 ^ 31 }
    requires shift { shift < 16 }
    requires enough { order ≤ length samples.old }
    requires positive { 1 ≤ bits }
    requires bits { bits ≤ 33 }
    requires warm_up { AllWithin (FitsBits bits) samples.old 0 order }
    requires residual { AllWithin (FitsBits 32) samples.old order (length samples.old) }
    ensures restored { IsTrue result → Restored coefficients.now shift samples.old samples.new }
    ensures fits { IsTrue result → All (FitsBits bits) samples.new }
    ensures only { MustFit bits coefficients.now shift samples.old result }
{
    let half = words_of(order);
    let mut factors = [0; 6];
    put_factors(coefficients, half, &mut factors);
    let mut words = [0x8000_0000; 7];
    for i in 0..order {
        words[half] = word_after(words[0]);
        add_sample(half, &factors, samples[i], &mut words);
    }
    for i in order..samples.len() {
        let sample = sample_of(words[0], shift, samples[i]);
        samples[i] = sample;
        if !fits_bits(sample, bits) {
            return fits_apart(sample, bits);
        }
        words[half] = word_after(words[0]);
        add_sample(half, &factors, sample, &mut words);
    }
    true
}
