//! What linear predictors leave of narrow samples: the sums of products are made for all samples at once, a few
//! coefficients at a time, by loops that the compiler makes lanes of.

ghost use Rattle.std.specs.Prelude.{ℕ, ◌≡◌, ◌<◌, ◌≤◌, ◌^◌, ◌*◌, ◌+◌, ◌+ℤ◌, ◌-ℤ◌, ◌*ℤ◌, IsTrue, length, map, All};
ghost use Rattle.std.specs.Int.RustNames.{unsigned_abs};
ghost use Rattle.std.specs.Int.{int_shr};
ghost use Rattle.std.specs.List.{sum_by};
ghost use Rattle.flac_bits.specs.Rice.{IsResidual, folded};
ghost use Rattle.flac_bits.specs.Signed.{FitsBits};
ghost use Rattle.flac_subframe.specs.format.Bodies.{differences};
ghost use Rattle.flac_subframe.specs.format.Numbers.{sample_at};
ghost use Rattle.flac_subframe.specs.format.inner.Products.{HasSums, StayBelow, AreLeft, AreApart};

use crate::format::folding::fold_narrow;

/// A sum and one product more.
#[inline(always)]
fn plus(sum: i32, coefficient: i32, sample: i32) -> i32
    requires product { unsigned_abs (coefficient *ℤ sample) < 2 ^ 31 }
    requires sum { unsigned_abs (sum +ℤ (coefficient *ℤ sample)) < 2 ^ 31 }
    ensures { result ≡ sum +ℤ (coefficient *ℤ sample) }
{
    sum + coefficient * sample
}

/// Adds to each sum the product of one coefficient. A call of its own is made of lanes; inside its caller, where the
/// compiler does not see that the places are apart, it is not.
#[inline(never)]
fn add_one(coefficients: &[i32], done: usize, samples: &[i32], sums: &mut [i32])
    requires some { done + 1 ≤ length coefficients.now }
    requires places { length sums.old + length coefficients.now ≡ length samples.now }
    requires small { StayBelow (2 ^ 31) coefficients.now samples.now }
    requires before { HasSums done coefficients.now samples.now sums.old }
    ensures after { HasSums (done + 1) coefficients.now samples.now sums.new }
    // proof only
    ensures long { length sums.new ≡ length sums.old }
{
    let order = coefficients.len();
    let coefficient = coefficients[done];
    for index in 0..sums.len() {
        let at = order + index;
        sums[index] = plus(sums[index], coefficient, samples[at - 1 - done]);
    }
}

/// Adds to each sum the products of four coefficients. It is a call of its own for the same reason.
#[inline(never)]
fn add_four(coefficients: &[i32], done: usize, samples: &[i32], sums: &mut [i32])
    requires some { done + 4 ≤ length coefficients.now }
    requires places { length sums.old + length coefficients.now ≡ length samples.now }
    requires small { StayBelow (2 ^ 31) coefficients.now samples.now }
    requires before { HasSums done coefficients.now samples.now sums.old }
    ensures after { HasSums (done + 4) coefficients.now samples.now sums.new }
    // proof only
    ensures long { length sums.new ≡ length sums.old }
{
    let order = coefficients.len();
    let first = coefficients[done];
    let second = coefficients[done + 1];
    let third = coefficients[done + 2];
    let fourth = coefficients[done + 3];
    for index in 0..sums.len() {
        let at = order + index;
        let one = plus(sums[index], first, samples[at - 1 - done]);
        let two = plus(one, second, samples[at - 2 - done]);
        let three = plus(two, third, samples[at - 3 - done]);
        sums[index] = plus(three, fourth, samples[at - 4 - done]);
    }
}

/// Makes zeros the sums of all products.
fn add_all(coefficients: &[i32], samples: &[i32], sums: &mut [i32])
    requires few { length coefficients.now ≤ 32 }
    requires places { length sums.old + length coefficients.now ≡ length samples.now }
    requires small { StayBelow (2 ^ 31) coefficients.now samples.now }
    requires before { HasSums 0 coefficients.now samples.now sums.old }
    ensures after { HasSums (length coefficients.now) coefficients.now samples.now sums.new }
    // proof only
    ensures long { length sums.new ≡ length sums.old }
{
    let order = coefficients.len();
    let mut done = 0;
    while done + 4 <= order {
        add_four(coefficients, done, samples, sums);
        done += 4;
    }
    while done < order {
        add_one(coefficients, done, samples, sums);
        done += 1;
    }
}

/// What the predictor leaves, from the sums, in their places, and the same as unsigned numbers.
fn leave(order: usize, shift: u32, samples: &[i32], values: &mut [i32], folds: &mut [u32])
    requires shift { shift < 16 }
    requires places { length values.old + order ≡ length samples.now }
    requires folds { length folds.old ≡ length values.old }
    requires small { AreApart (2 ^ 31) order samples.now values.old }
    ensures values { AreLeft order samples.now shift values.old values.new }
    ensures range { All IsResidual values.new }
    ensures folds { folds.new ≡ map folded values.new }
    // proof only
    ensures long { length values.new ≡ length values.old }
{
    for index in 0..values.len() {
        let value = samples[order + index] - (values[index] >> shift);
        values[index] = value;
        folds[index] = fold_narrow(value);
    }
}

/// Whether no sum of products with samples that are at most `peak` from 0 comes near the end of 32 bits.
fn are_small(coefficients: &[i32], peak: u32) -> bool
    requires few { length coefficients.now ≤ 32 }
    requires small { All (FitsBits 15) coefficients.now }
    ensures { IsTrue result → (1 + sum_by unsigned_abs coefficients.now) * peak < 2 ^ 31 }
{
    let mut sum: u64 = 0;
    for coefficient in coefficients {
        sum += u64::from(coefficient.unsigned_abs());
    }
    (1 + sum) * u64::from(peak) < 0x8000_0000
}

/// What a linear predictor leaves of narrow samples that are at most `peak` from 0, and the same as unsigned numbers,
/// if the sums fit 32 bits: whether they do (RFC 9639, section 9.2.6).
pub(crate) fn take_products(
    coefficients: &[i32],
    shift: u32,
    samples: &[i32],
    peak: u32,
    values: &mut [i32],
    folds: &mut [u32],
) -> bool
    requires few { length coefficients.now ≤ 32 }
    requires small { All (FitsBits 15) coefficients.now }
    requires shift { shift < 16 }
    requires peak { (i : ℕ) → unsigned_abs (sample_at samples.now i) ≤ peak }
    requires places { length values.old + length coefficients.now ≡ length samples.now }
    requires folds { length folds.old ≡ length values.old }
    ensures values { IsTrue result → values.new ≡ differences coefficients.now shift samples.now }
    ensures range { IsTrue result → All IsResidual values.new }
    ensures folds { IsTrue result → folds.new ≡ map folded values.new }
{
    if !are_small(coefficients, peak) {
        return false;
    }
    values.fill(0);
    add_all(coefficients, samples, values);
    leave(coefficients.len(), shift, samples, values, folds);
    true
}

/// What the predictor leaves, from the sums, in 64 bits.
#[inline(never)]
fn leave_wide(order: usize, shift: u32, samples: &[i32], sums: &[i32], values: &mut [i64])
    requires shift { shift < 16 }
    requires places { length values.old + order ≡ length samples.now }
    requires sums { length sums.now ≡ length values.old }
    requires small { AreApart (2 ^ 31) order samples.now sums.now }
    ensures values { AreLeft order samples.now shift sums.now values.new }
    // proof only
    ensures long { length values.new ≡ length values.old }
{
    for index in 0..sums.len() {
        values[index] = i64::from(samples[order + index] - (sums[index] >> shift));
    }
}

/// What a linear predictor leaves of narrow samples that are at most `peak` from 0, in 64 bits, if the sums fit 32 bits:
/// whether they do (RFC 9639, section 9.2.6).
pub(crate) fn take_products_wide(
    coefficients: &[i32],
    shift: u32,
    samples: &[i32],
    peak: u32,
    sums: &mut [i32],
    values: &mut [i64],
) -> bool
    requires few { length coefficients.now ≤ 32 }
    requires small { All (FitsBits 15) coefficients.now }
    requires shift { shift < 16 }
    requires peak { (i : ℕ) → unsigned_abs (sample_at samples.now i) ≤ peak }
    requires places { length values.old + length coefficients.now ≡ length samples.now }
    requires sums { length sums.old ≡ length values.old }
    ensures values { IsTrue result → values.new ≡ differences coefficients.now shift samples.now }
    // proof only
    ensures long { length values.new ≡ length values.old }
{
    if !are_small(coefficients, peak) {
        return false;
    }
    sums.fill(0);
    add_all(coefficients, samples, sums);
    leave_wide(coefficients.len(), shift, samples, sums, values);
    true
}
