//! Restores samples by fixed predictors, in the places of the residual.

ghost use Rattle.std.specs.Prelude.{◌≡◌, ◌∷◌, [], ◌+◌, ◌-◌, ◌<◌, ◌≤◌, ◌^◌, ◌+ℤ◌, ◌-ℤ◌, ◌↔◌, ℤ, List, length, All, IsTrue};
ghost use Rattle.std.specs.List.{AllWithin};
ghost use Rattle.std.specs.Int.RustNames.{unsigned_abs};
ghost use Rattle.flac_bits.specs.Signed.{FitsBits};
ghost use Rattle.flac_subframe.specs.format.Numbers.{sample_at};
ghost use Rattle.flac_subframe.specs.format.Prediction.{fixed_coefficients, prediction, Restored};
ghost use Rattle.flac_subframe.specs.format.inner.Summing.{IsHeld};
ghost use Rattle.flac_subframe.specs.format.inner.Sums.{RestoredFrom, MustFit};

use crate::format::numbers::{is_below, offset_near};

/// How many samples are restored before they are judged. After samples that fit, the sums of so many residual values
/// stay below 2^63, whatever the values are.
const GROUP: usize = 240;

/// The prediction of the fixed predictor of an order after four samples, the nearest first (RFC 9639, section 9.2.5).
#[inline(always)]
pub(crate) fn predict_after(order: usize, first: i64, second: i64, third: i64, fourth: i64) -> i64
    requires order { order ≤ 4 }
    requires first { FitsBits 33 first }
    requires second { FitsBits 33 second }
    requires third { FitsBits 33 third }
    requires fourth { FitsBits 33 fourth }
    ensures value { result ≡ prediction (fixed_coefficients order) 0 (fourth ∷ third ∷ second ∷ first ∷ []) 4 }
    // proof only
    ensures small { unsigned_abs result ≤ 2 ^ 51 }
{
    match order {
        0 => 0,
        1 => first,
        2 => 2 * first - second,
        3 => 3 * (first - second) + third,
        _ => 4 * (first + third) - 6 * second - fourth,
    }
}

/// The sample `back` places before an index, 0 where a predictor of the order does not read it.
#[inline(always)]
pub(crate) fn sample_before(samples: &[i64], order: usize, at: usize, back: usize) -> i64
    requires some { 1 ≤ back }
    requires enough { order ≤ at }
    requires within { at ≤ length samples.now }
    requires fits { AllWithin (FitsBits 33) samples.now 0 at }
    ensures value { back ≤ order → result ≡ sample_at samples.now (at - back) }
    ensures fits { FitsBits 33 result }
{
    if back <= order { samples[at - back] } else { 0 }
}

/// By how much a number is greater than another.
#[inline(always)]
fn gap(number: i64, other: i64) -> i64
    requires { IsHeld (number -ℤ other) }
    ensures { result ≡ number -ℤ other }
{
    number - other
}

/// A running sum after one number more, if the order has the sum of this level; else the number itself, which is for
/// the level below.
#[inline(always)]
fn raised(order: usize, level: usize, sum: i64, number: i64) -> i64
    requires { IsHeld (sum +ℤ number) }
    ensures added { level ≤ order → result ≡ sum +ℤ number }
    ensures passed { order < level → result ≡ number }
{
    if level <= order { sum + number } else { number }
}

/// Restores `count` samples from an index on by the fixed predictor of an order: whether each of them fits. The last
/// sample and its first three differences are running sums: each residual value is added to the highest difference of
/// the order, and each difference to the one below. The loop has no exit, which is faster, and goes on after a sample
/// that does not fit. No sum leaves its type.
#[inline(always)]
fn restore_group(order: usize, bits: u32, samples: &mut [i64], at: usize, count: usize) -> bool
    requires order { order ≤ 4 }
    requires positive { 1 ≤ bits }
    requires bits { bits ≤ 33 }
    requires enough { order ≤ at }
    requires few { count ≤ 240 }
    requires within { at + count ≤ length samples.old }
    requires before { AllWithin (FitsBits bits) samples.old 0 at }
    requires residual { AllWithin (FitsBits 32) samples.old at (at + count) }
    ensures restored { RestoredFrom (fixed_coefficients order) 0 samples.old samples.new at (at + count) }
    ensures fits { IsTrue result ↔ AllWithin (FitsBits bits) samples.new at (at + count) }
{
    let first = sample_before(samples, order, at, 1);
    let second = sample_before(samples, order, at, 2);
    let third = sample_before(samples, order, at, 3);
    let fourth = sample_before(samples, order, at, 4);
    let past_slope = gap(second, third);
    let past_bend = gap(past_slope, gap(third, fourth));
    let mut value = first;
    let mut slope = gap(first, second);
    let mut bend = gap(slope, past_slope);
    let mut twist = gap(bend, past_bend);
    let mut wrong = 0;
    for i in 0..count {
        twist = raised(order, 4, twist, samples[at + i]);
        bend = raised(order, 3, bend, twist);
        slope = raised(order, 2, slope, bend);
        value = raised(order, 1, value, slope);
        wrong |= offset_near(value, bits);
        samples[at + i] = value;
    }
    is_below(wrong, bits)
}

/// Restores by the fixed predictor of an order, a group of samples after another.
#[inline(always)]
fn restore_order(order: usize, bits: u32, samples: &mut [i64]) -> bool
    requires order { order ≤ 4 }
    requires enough { order ≤ length samples.old }
    requires positive { 1 ≤ bits }
    requires bits { bits ≤ 33 }
    requires warm_up { AllWithin (FitsBits bits) samples.old 0 order }
    requires residual { AllWithin (FitsBits 32) samples.old order (length samples.old) }
    ensures restored { IsTrue result → Restored (fixed_coefficients order) 0 samples.old samples.new }
    ensures fits { IsTrue result → All (FitsBits bits) samples.new }
    ensures only { MustFit bits (fixed_coefficients order) 0 samples.old result }
{
    let mut at = order;
    while at < samples.len() {
        let count = GROUP.min(samples.len() - at);
        if !restore_group(order, bits, samples, at, count) {
            return false;
        }
        at += count;
    }
    true
}

/// Turns warm-up samples and the residual of the fixed predictor of an order into samples, from the front (RFC 9639,
/// section 9.2.5): whether each of them fits. If one does not, what is in its place and after it is of no use.
#[inline(never)]
pub(crate) fn restore_fixed(order: usize, bits: u32, samples: &mut [i64]) -> bool
    requires order { order ≤ 4 }
    requires enough { order ≤ length samples.old }
    requires positive { 1 ≤ bits }
    requires bits { bits ≤ 33 }
    requires warm_up { AllWithin (FitsBits bits) samples.old 0 order }
    requires residual { AllWithin (FitsBits 32) samples.old order (length samples.old) }
    ensures restored { IsTrue result → Restored (fixed_coefficients order) 0 samples.old samples.new }
    ensures fits { IsTrue result → All (FitsBits bits) samples.new }
    ensures only { MustFit bits (fixed_coefficients order) 0 samples.old result }
{
    match order {
        0 => restore_order(0, bits, samples),
        1 => restore_order(1, bits, samples),
        2 => restore_order(2, bits, samples),
        3 => restore_order(3, bits, samples),
        4 => restore_order(4, bits, samples),
        // No order is above 4, which has an arm of its own so that its loop has a constant order.
        _ => restore_order(order, bits, samples),
    }
}
