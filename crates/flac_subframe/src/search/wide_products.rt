//! What linear predictors leave of narrow samples where the sums of products need 64 bits, as of 24-bit samples: made
//! for all samples at once, a few coefficients at a time. The loops are those of `products.rt` written out for another
//! width: there each lane has 32 bits, so that the processor works out twice as many sums at once.

ghost use Rattle.std.specs.Prelude.{ℕ, ◌≡◌, ◌<◌, ◌≤◌, ◌^◌, ◌+◌, ◌+ℤ◌, ◌-ℤ◌, ◌*ℤ◌, IsTrue, ◌↔◌, length, All};
ghost use Rattle.std.specs.Int.{int_shr};
ghost use Rattle.std.specs.Int.RustNames.{unsigned_abs};
ghost use Rattle.flac_bits.specs.Rice.{IsResidual};
ghost use Rattle.flac_bits.specs.Signed.{FitsBits};
ghost use Rattle.flac_subframe.specs.format.Bodies.{differences};
ghost use Rattle.flac_subframe.specs.format.inner.Products.{HasSums, StayBelow, AreLeft, AreApart};

use crate::format::leaving::are_residual;

/// A sum and one product more.
#[inline(always)]
fn plus(sum: i64, coefficient: i32, sample: i32) -> i64
    requires product { unsigned_abs (coefficient *ℤ sample) < 2 ^ 63 }
    requires sum { unsigned_abs (sum +ℤ (coefficient *ℤ sample)) < 2 ^ 63 }
    ensures { result ≡ sum +ℤ (coefficient *ℤ sample) }
{
    sum + i64::from(coefficient) * i64::from(sample)
}

/// Adds to each sum the product of one coefficient.
fn add_one(coefficients: &[i32], done: usize, samples: &[i32], sums: &mut [i64])
    requires some { done + 1 ≤ length coefficients.now }
    requires places { length sums.old + length coefficients.now ≡ length samples.now }
    requires small { StayBelow (2 ^ 63) coefficients.now samples.now }
    requires before { HasSums done coefficients.now samples.now sums.old }
    ensures after { HasSums (done + 1) coefficients.now samples.now sums.new }
    // proof only
    ensures long { length sums.new ≡ length sums.old }
{
    let order = coefficients.len();
    let coefficient = coefficients[done];
    for index in 0..sums.len() {
        let at = order + index;
        sums[index] = plus(sums[index], coefficient, samples[at - 1 - done]);
    }
}

/// Adds to each sum the products of four coefficients.
fn add_four(coefficients: &[i32], done: usize, samples: &[i32], sums: &mut [i64])
    requires some { done + 4 ≤ length coefficients.now }
    requires places { length sums.old + length coefficients.now ≡ length samples.now }
    requires small { StayBelow (2 ^ 63) coefficients.now samples.now }
    requires before { HasSums done coefficients.now samples.now sums.old }
    ensures after { HasSums (done + 4) coefficients.now samples.now sums.new }
    // proof only
    ensures long { length sums.new ≡ length sums.old }
{
    let order = coefficients.len();
    let first = coefficients[done];
    let second = coefficients[done + 1];
    let third = coefficients[done + 2];
    let fourth = coefficients[done + 3];
    for index in 0..sums.len() {
        let at = order + index;
        let one = plus(sums[index], first, samples[at - 1 - done]);
        let two = plus(one, second, samples[at - 2 - done]);
        let three = plus(two, third, samples[at - 3 - done]);
        sums[index] = plus(three, fourth, samples[at - 4 - done]);
    }
}

/// Makes zeros the sums of all products.
fn add_all(coefficients: &[i32], samples: &[i32], sums: &mut [i64])
    requires few { length coefficients.now ≤ 32 }
    requires places { length sums.old + length coefficients.now ≡ length samples.now }
    requires small { StayBelow (2 ^ 63) coefficients.now samples.now }
    requires before { HasSums 0 coefficients.now samples.now sums.old }
    ensures after { HasSums (length coefficients.now) coefficients.now samples.now sums.new }
    // proof only
    ensures long { length sums.new ≡ length sums.old }
{
    let order = coefficients.len();
    let mut done = 0;
    while done + 4 <= order {
        add_four(coefficients, done, samples, sums);
        done += 4;
    }
    while done < order {
        add_one(coefficients, done, samples, sums);
        done += 1;
    }
}

/// What the predictor leaves, from the sums, in their places.
fn leave(order: usize, shift: u32, samples: &[i32], values: &mut [i64])
    requires shift { shift < 16 }
    requires places { length values.old + order ≡ length samples.now }
    requires small { AreApart (2 ^ 63) order samples.now values.old }
    ensures values { AreLeft order samples.now shift values.old values.new }
    // proof only
    ensures long { length values.new ≡ length values.old }
{
    for index in 0..values.len() {
        let sample = i64::from(samples[order + index]);
        values[index] = sample - (values[index] >> shift);
    }
}

/// What a linear predictor leaves of narrow samples (RFC 9639, section 9.2.6), and whether a residual may have it all.
pub(crate) fn take_wide_products(
    coefficients: &[i32],
    shift: u32,
    samples: &[i32],
    values: &mut [i64],
) -> bool
    requires few { length coefficients.now ≤ 32 }
    requires small { All (FitsBits 15) coefficients.now }
    requires shift { shift < 16 }
    requires fits { All (FitsBits 27) samples.now }
    requires places { length values.old + length coefficients.now ≡ length samples.now }
    ensures all { values.new ≡ differences coefficients.now shift samples.now }
    ensures range { IsTrue result ↔ All IsResidual (differences coefficients.now shift samples.now) }
{
    values.fill(0);
    add_all(coefficients, samples, values);
    leave(coefficients.len(), shift, samples, values);
    are_residual(values)
}
