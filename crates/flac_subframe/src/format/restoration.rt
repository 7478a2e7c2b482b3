//! Restores samples by linear predictors, in the places of the residual.

ghost use Rattle.std.specs.Prelude.{◌≡◌, ◌-◌, ◌<◌, ◌≤◌, ◌^◌, ◌+ℤ◌, ℤ, List, length, All, IsTrue};
ghost use Rattle.std.specs.List.{AllWithin};
ghost use Rattle.std.specs.Int.RustNames.{unsigned_abs};
ghost use Rattle.flac_bits.specs.Signed.{FitsBits};
ghost use Rattle.flac_subframe.specs.format.Numbers.{sample_at};
ghost use Rattle.flac_subframe.specs.format.Prediction.{prediction, Restored};
ghost use Rattle.flac_subframe.specs.format.inner.Summing.{IsNear};
ghost use Rattle.std.specs.Int.{int_shr};
ghost use Rattle.flac_subframe.specs.format.inner.Sums.{MustFit};

use crate::format::numbers::{fits_apart, fits_bits};
use crate::format::packed::{add_sample, are_narrow, restore_packed};

/// The prediction of a linear predictor for the sample at an index, of which the nearest sample is known (RFC 9639,
/// section 9.2.6).
#[inline(always)]
fn predict_at(
    order: usize,
    coefficients: &[i64],
    shift: u32,
    samples: &[i64],
    at: usize,
    near: i64,
) -> i64
    requires some { 1 ≤ order }
    requires few { order ≤ 32 }
    requires order { length coefficients.now ≡ order }
    requires small { All (FitsBits 15) coefficients.now }
    requires shift { shift < 16 }
    requires enough { order ≤ at }
    requires within { at ≤ length samples.now }
    requires fits { AllWithin (FitsBits 33) samples.now 0 at }
    requires near { near ≡ sample_at samples.now (at - 1) }
    ensures value { result ≡ prediction coefficients.now shift samples.now at }
    // proof only
    ensures small { unsigned_abs result ≤ 2 ^ 51 }
{
    let mut sum = 0;
    for j in 1..order {
        sum += coefficients[j] * samples[at - 1 - j];
    }
    (sum + coefficients[0] * near) >> shift
}

/// Restores by a linear predictor of an order, whose nearest sample is held beside the slice.
#[inline(always)]
fn restore_by(
    order: usize,
    coefficients: &[i64],
    shift: u32,
    bits: u32,
    samples: &mut [i64],
) -> bool
    requires some { 1 ≤ order }
    requires few { order ≤ 32 }
    requires order { length coefficients.now ≡ order }
    requires small { All (FitsBits 15) coefficients.now }
    requires shift { shift < 16 }
    requires enough { order ≤ length samples.old }
    requires positive { 1 ≤ bits }
    requires bits { bits ≤ 33 }
    requires warm_up { AllWithin (FitsBits bits) samples.old 0 order }
    requires residual { AllWithin (FitsBits 32) samples.old order (length samples.old) }
    ensures restored { IsTrue result → Restored coefficients.now shift samples.old samples.new }
    ensures fits { IsTrue result → All (FitsBits bits) samples.new }
    ensures only { MustFit bits coefficients.now shift samples.old result }
{
    let mut near = samples[order - 1];
    for i in order..samples.len() {
        let sample = predict_at(order, coefficients, shift, samples, i, near) + samples[i];
        if !fits_bits(sample, bits) {
            return false;
        }
        samples[i] = sample;
        near = sample;
    }
    true
}

/// The sample of this residual value, from the sum of products, which is shifted to the right by `shift`, 0 to 15 bits.
#[inline(always)]
fn sample_of(sum: i64, shift: u32, residual: i64) -> i64
    requires shift { shift < 16 }
    requires sum { unsigned_abs sum ≤ 2 ^ 51 }
    requires residual { FitsBits 32 residual }
    ensures value { result ≡ int_shr sum shift +ℤ residual }
    // proof only
    ensures near { IsNear result }
{
    (sum >> shift) + residual
}

/// Restores by a linear predictor of an order. The sums of products for the next samples are held beside the slice:
/// each sample is multiplied by all coefficients once it is known, and is not read again. This is faster than
/// [`restore_by`], whose loop reads the last samples again, and on processors with AVX2 by far: there the compiler
/// makes lanes of that loop, which wait for the samples that were just stored. The result is whether each sample fits
/// in `bits` bits. The first that does not is left in the slice, and is not multiplied.
#[inline(always)]
fn restore_summed(
    order: usize,
    coefficients: &[i64],
    shift: u32,
    bits: u32,
    samples: &mut [i64],
) -> bool
    requires some { 1 ≤ order }
    requires few { order ≤ 12 }
    requires order { length coefficients.now ≡ order }
    requires small { All (FitsBits 15) coefficients.now }
    requires shift { shift < 16 }
    requires enough { order ≤ length samples.old }
    requires positive { 1 ≤ bits }
    requires bits { bits ≤ 33 }
    requires warm_up { AllWithin (FitsBits bits) samples.old 0 order }
    requires residual { AllWithin (FitsBits 32) samples.old order (length samples.old) }
    ensures restored { IsTrue result → Restored coefficients.now shift samples.old samples.new }
    ensures fits { IsTrue result → All (FitsBits bits) samples.new }
    ensures only { MustFit bits coefficients.now shift samples.old result }
{
    let mut sums = [0i64; 13];
    for i in 0..order {
        add_sample(order, coefficients, samples[i], &mut sums);
    }
    for i in order..samples.len() {
        let sample = sample_of(sums[0], shift, samples[i]);
        samples[i] = sample;
        if !fits_bits(sample, bits) {
            return fits_apart(sample, bits);
        }
        add_sample(order, coefficients, sample, &mut sums);
    }
    true
}

/// Copies coefficients. It is a call of its own: otherwise the compiler makes lanes of more of the loops that multiply
/// by the copy for processors with AVX2, which take up to twice as long. Of orders 10 to 12 it makes them all the same.
#[inline(never)]
fn copy_coefficients(coefficients: &[i64], places: &mut [i64])
    requires { length places.old ≡ length coefficients.now }
    ensures { places.new ≡ coefficients.now }
{
    places.copy_from_slice(coefficients);
}

/// Restores by a linear predictor, however large the sums of products are.
#[inline(never)]
fn restore_wide(coefficients: &[i64], shift: u32, bits: u32, samples: &mut [i64]) -> bool
    requires some { 1 ≤ length coefficients.now }
    requires few { length coefficients.now ≤ 32 }
    requires small { All (FitsBits 15) coefficients.now }
    requires shift { shift < 16 }
    requires enough { length coefficients.now ≤ length samples.old }
    requires positive { 1 ≤ bits }
    requires bits { bits ≤ 33 }
    requires warm_up { AllWithin (FitsBits bits) samples.old 0 (length coefficients.now) }
    requires residual { AllWithin (FitsBits 32) samples.old (length coefficients.now) (length samples.old) }
    ensures restored { IsTrue result → Restored coefficients.now shift samples.old samples.new }
    ensures fits { IsTrue result → All (FitsBits bits) samples.new }
    ensures only { MustFit bits coefficients.now shift samples.old result }
{
    let order = coefficients.len();
    let mut places = [0; 32];
    let factors = &mut places[..order];
    copy_coefficients(coefficients, factors);
    match order {
        1 => restore_summed(1, factors, shift, bits, samples),
        2 => restore_summed(2, factors, shift, bits, samples),
        3 => restore_summed(3, factors, shift, bits, samples),
        4 => restore_summed(4, factors, shift, bits, samples),
        5 => restore_summed(5, factors, shift, bits, samples),
        6 => restore_summed(6, factors, shift, bits, samples),
        7 => restore_summed(7, factors, shift, bits, samples),
        8 => restore_summed(8, factors, shift, bits, samples),
        9 => restore_summed(9, factors, shift, bits, samples),
        10 => restore_summed(10, factors, shift, bits, samples),
        11 => restore_summed(11, factors, shift, bits, samples),
        12 => restore_summed(12, factors, shift, bits, samples),
        order => restore_by(order, factors, shift, bits, samples),
    }
}

/// Turns warm-up samples and the residual of a linear predictor into samples, from the front (RFC 9639, section 9.2.6):
/// whether each of them fits. If one does not, what is in its place and after it is of no use. Sums of 5 to 12 products
/// are made two at once if they fit 32 bits.
#[inline(never)]
pub(crate) fn restore_linear(
    coefficients: &[i64],
    shift: u32,
    bits: u32,
    samples: &mut [i64],
) -> bool
    requires some { 1 ≤ length coefficients.now }
    requires few { length coefficients.now ≤ 32 }
    requires small { All (FitsBits 15) coefficients.now }
    requires shift { shift < 16 }
    requires enough { length coefficients.now ≤ length samples.old }
    requires positive { 1 ≤ bits }
    requires bits { bits ≤ 33 }
    requires warm_up { AllWithin (FitsBits bits) samples.old 0 (length coefficients.now) }
    requires residual { AllWithin (FitsBits 32) samples.old (length coefficients.now) (length samples.old) }
    ensures restored { IsTrue result → Restored coefficients.now shift samples.old samples.new }
    ensures fits { IsTrue result → All (FitsBits bits) samples.new }
    ensures only { MustFit bits coefficients.now shift samples.old result }
{
    if !are_narrow(coefficients, bits) {
        return restore_wide(coefficients, shift, bits, samples);
    }
    match coefficients.len() {
        5 => restore_packed(5, coefficients, shift, bits, samples),
        6 => restore_packed(6, coefficients, shift, bits, samples),
        7 => restore_packed(7, coefficients, shift, bits, samples),
        8 => restore_packed(8, coefficients, shift, bits, samples),
        9 => restore_packed(9, coefficients, shift, bits, samples),
        10 => restore_packed(10, coefficients, shift, bits, samples),
        11 => restore_packed(11, coefficients, shift, bits, samples),
        12 => restore_packed(12, coefficients, shift, bits, samples),
        _ => restore_wide(coefficients, shift, bits, samples),
    }
}
