//! What predictors leave of samples.

ghost use Rattle.std.specs.Prelude.{◌≡◌, ◌<◌, ◌≤◌, ◌-◌, ◌+◌, length, All, IsTrue, ◌↔◌};
ghost use Rattle.flac_bits.specs.Signed.{FitsBits};
ghost use Rattle.flac_bits.specs.Rice.{IsResidual};
ghost use Rattle.flac_subframe.specs.format.Prediction.{fixed_coefficients};
ghost use Rattle.flac_subframe.specs.format.Bodies.{differences};

use crate::format::fixed::{predict_after, sample_before};
use crate::format::predictors::predict_linear;

/// What the fixed predictor of an order leaves of the samples.
#[inline(always)]
fn take_order(order: usize, samples: &[i64], values: &mut [i64])
    requires order { order ≤ 4 }
    requires fits { All (FitsBits 33) samples.now }
    requires places { length values.old + order ≡ length samples.now }
    ensures { values.new ≡ differences (fixed_coefficients order) 0 samples.now }
{
    for index in 0..values.len() {
        let at = order + index;
        let first = sample_before(samples, order, at, 1);
        let second = sample_before(samples, order, at, 2);
        let third = sample_before(samples, order, at, 3);
        let fourth = sample_before(samples, order, at, 4);
        values[index] = samples[at] - predict_after(order, first, second, third, fourth);
    }
}

/// Whether a value is one that a residual may have.
#[inline(always)]
fn is_residual(value: i64) -> bool
    ensures { IsTrue result ↔ IsResidual value }
{
    -0x8000_0000 < value && value < 0x8000_0000
}

/// Whether each value is one that a residual may have.
pub(crate) fn are_residual(values: &[i64]) -> bool
    ensures { IsTrue result ↔ All IsResidual values.now }
{
    let mut all = true;
    for value in values {
        all &= is_residual(*value);
    }
    all
}

/// What the fixed predictor of an order leaves of the samples, by a loop for each order.
pub(crate) fn take_fixed(order: usize, samples: &[i64], values: &mut [i64])
    requires order { order ≤ 4 }
    requires fits { All (FitsBits 33) samples.now }
    requires places { length values.old + order ≡ length samples.now }
    ensures all { values.new ≡ differences (fixed_coefficients order) 0 samples.now }
    // proof only
    ensures long { length values.new ≡ length values.old }
{
    match order {
        0 => take_order(0, samples, values),
        1 => take_order(1, samples, values),
        2 => take_order(2, samples, values),
        3 => take_order(3, samples, values),
        4 => take_order(4, samples, values),
        // No order is above 4, which has an arm of its own so that its loop has a constant order.
        _ => take_order(order, samples, values),
    }
}

/// What the fixed predictor of an order leaves of the samples (RFC 9639, section 9.2.5), and whether a residual may
/// have it all.
pub(crate) fn take_differences(order: usize, samples: &[i64], values: &mut [i64]) -> bool
    requires order { order ≤ 4 }
    requires fits { All (FitsBits 33) samples.now }
    requires places { length values.old + order ≡ length samples.now }
    ensures all { values.new ≡ differences (fixed_coefficients order) 0 samples.now }
    ensures range { IsTrue result ↔ All IsResidual (differences (fixed_coefficients order) 0 samples.now) }
{
    take_fixed(order, samples, values);
    are_residual(values)
}

/// What a linear predictor leaves of the samples (RFC 9639, section 9.2.6).
pub(crate) fn take_linear(coefficients: &[i32], shift: u32, samples: &[i64], values: &mut [i64])
    requires few { length coefficients.now ≤ 32 }
    requires small { All (FitsBits 15) coefficients.now }
    requires shift { shift < 16 }
    requires fits { All (FitsBits 33) samples.now }
    requires places { length values.old + length coefficients.now ≡ length samples.now }
    ensures all { values.new ≡ differences coefficients.now shift samples.now }
    // proof only
    ensures long { length values.new ≡ length values.old }
{
    let order = coefficients.len();
    for index in 0..values.len() {
        let at = order + index;
        values[index] = samples[at] - predict_linear(coefficients, shift, &samples[..at]);
    }
}

/// What a linear predictor leaves of the samples, and whether a residual may have it all.
pub(crate) fn take_weighed(
    coefficients: &[i32],
    shift: u32,
    samples: &[i64],
    values: &mut [i64],
) -> bool
    requires few { length coefficients.now ≤ 32 }
    requires small { All (FitsBits 15) coefficients.now }
    requires shift { shift < 16 }
    requires fits { All (FitsBits 33) samples.now }
    requires places { length values.old + length coefficients.now ≡ length samples.now }
    ensures all { values.new ≡ differences coefficients.now shift samples.now }
    ensures range { IsTrue result ↔ All IsResidual (differences coefficients.now shift samples.now) }
{
    take_linear(coefficients, shift, samples, values);
    are_residual(values)
}
