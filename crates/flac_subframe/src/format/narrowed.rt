//! Samples of few bits in 32 bits each, and what the fixed predictors leave of them.

ghost use Rattle.std.specs.Prelude.{◌∷◌, [], ◌≡◌, ◌<◌, ◌≤◌, ◌^◌, ◌-◌, ◌+◌, ℕ, length, map, All, IsTrue, FitsSigned};
ghost use Rattle.std.specs.Int.{w32};
ghost use Rattle.std.specs.Int.RustNames.{unsigned_abs};
ghost use Rattle.flac_bits.specs.Signed.{FitsBits};
ghost use Rattle.flac_subframe.specs.format.Numbers.{sample_at};
ghost use Rattle.flac_bits.specs.Rice.{folded};
ghost use Rattle.flac_subframe.specs.format.Prediction.{prediction, fixed_coefficients};
ghost use Rattle.flac_subframe.specs.format.Bodies.{differences};

use crate::format::folding::fold_narrow;
use crate::format::numbers::offset_binary;

/// The lowest 32 bits of a sample, which are the sample if it fits them.
#[inline(always)]
fn lowest(sample: i64) -> i32
    ensures { FitsSigned w32 sample → result ≡ sample }
{
    ((sample.cast_unsigned() & 0xFFFF_FFFF) as u32).cast_signed()
}

/// Whether each sample has so few bits that what a fixed predictor leaves is in the range of a residual; if so, the
/// samples in 32 bits each.
pub(crate) fn narrow(samples: &[i64], narrowed: &mut [i32]) -> bool
    requires places { length narrowed.old ≡ length samples.now }
    ensures fits { IsTrue result → All (FitsBits 27) samples.now }
    ensures same { IsTrue result → narrowed.new ≡ samples.now }
{
    // no exit inside, so that the compiler takes several samples at once
    let mut all: u64 = 0;
    for i in 0..samples.len() {
        let sample = samples[i];
        all |= offset_binary(sample, 27);
        narrowed[i] = lowest(sample);
    }
    all < 0x800_0000
}

/// How far from 0 narrow samples are at most, or, if that is not asked, how far they can be.
pub(crate) fn peak(samples: &[i32], narrow: bool, asked: bool) -> u32
    requires fits { IsTrue narrow → All (FitsBits 27) samples.now }
    ensures { IsTrue narrow → (i : ℕ) → unsigned_abs (sample_at samples.now i) ≤ result }
{
    if !narrow || !asked {
        return 0x400_0000;
    }
    let mut most: u32 = 0;
    for sample in samples {
        most = most.max(sample.unsigned_abs());
    }
    most
}

/// The sample `back` places before an index, 0 where a predictor of the order does not read it.
#[inline(always)]
fn narrow_before(samples: &[i32], order: usize, at: usize, back: usize) -> i32
    requires some { 1 ≤ back }
    requires enough { order ≤ at }
    requires within { at ≤ length samples.now }
    requires fits { All (FitsBits 27) samples.now }
    ensures value { back ≤ order → result ≡ sample_at samples.now (at - back) }
    ensures fits { FitsBits 27 result }
{
    if back <= order { samples[at - back] } else { 0 }
}

/// What the fixed predictor of an order says after four samples, the nearest first (RFC 9639, section 9.2.5), with no
/// product but by a power of two or by 3.
#[inline(always)]
fn predict_narrow(order: usize, first: i32, second: i32, third: i32, fourth: i32) -> i32
    requires order { order ≤ 4 }
    requires first { FitsBits 27 first }
    requires second { FitsBits 27 second }
    requires third { FitsBits 27 third }
    requires fourth { FitsBits 27 fourth }
    ensures value { result ≡ prediction (fixed_coefficients order) 0 (fourth ∷ third ∷ second ∷ first ∷ []) 4 }
    // proof only
    ensures small { unsigned_abs result ≤ 2 ^ 30 }
{
    match order {
        0 => 0,
        1 => first,
        2 => 2 * first - second,
        3 => 3 * (first - second) + third,
        _ => 4 * (first + third - second) - (2 * second + fourth),
    }
}

/// What the fixed predictor of an order leaves of narrow samples, and the same as unsigned numbers.
#[inline(always)]
pub(crate) fn take_narrow_order(
    order: usize,
    samples: &[i32],
    values: &mut [i32],
    folds: &mut [u32],
)
    requires order { order ≤ 4 }
    requires fits { All (FitsBits 27) samples.now }
    requires places { length values.old + order ≡ length samples.now }
    requires folds { length folds.old ≡ length values.old }
    ensures values { values.new ≡ differences (fixed_coefficients order) 0 samples.now }
    ensures folds { folds.new ≡ map folded (differences (fixed_coefficients order) 0 samples.now) }
{
    for index in 0..values.len() {
        let at = order + index;
        let first = narrow_before(samples, order, at, 1);
        let second = narrow_before(samples, order, at, 2);
        let third = narrow_before(samples, order, at, 3);
        let fourth = narrow_before(samples, order, at, 4);
        let value = samples[at] - predict_narrow(order, first, second, third, fourth);
        values[index] = value;
        folds[index] = fold_narrow(value);
    }
}

/// The same, by a loop for each order.
pub(crate) fn take_narrow(order: usize, samples: &[i32], values: &mut [i32], folds: &mut [u32])
    requires order { order ≤ 4 }
    requires fits { All (FitsBits 27) samples.now }
    requires places { length values.old + order ≡ length samples.now }
    requires folds { length folds.old ≡ length values.old }
    ensures values { values.new ≡ differences (fixed_coefficients order) 0 samples.now }
    ensures folds { folds.new ≡ map folded (differences (fixed_coefficients order) 0 samples.now) }
{
    match order {
        0 => take_narrow_order(0, samples, values, folds),
        1 => take_narrow_order(1, samples, values, folds),
        2 => take_narrow_order(2, samples, values, folds),
        3 => take_narrow_order(3, samples, values, folds),
        4 => take_narrow_order(4, samples, values, folds),
        // No order is above 4, which has an arm of its own so that its loop has a constant order.
        _ => take_narrow_order(order, samples, values, folds),
    }
}
