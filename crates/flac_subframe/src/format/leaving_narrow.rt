//! What a linear predictor leaves of samples, in 64 bits, worked out in 32 where they are narrow.

ghost use Rattle.std.specs.Prelude.{◌≡◌, ◌<◌, ◌≤◌, ◌+◌, IsTrue, length, All};
ghost use Rattle.flac_bits.specs.Signed.{FitsBits};
ghost use Rattle.flac_subframe.specs.format.Bodies.{differences};

use crate::format::leaving::take_linear;
use crate::format::narrowed::{narrow, peak};
use crate::format::numbers::APART;
use crate::format::products::take_products_wide;

/// What a linear predictor leaves of the samples, worked out in 32 bits, if the samples and their sums fit these and the
/// places hold both: whether they do.
fn take_in_lanes(
    coefficients: &[i32],
    shift: u32,
    samples: &[i64],
    shorts: &mut [i32],
    values: &mut [i64],
) -> bool
    requires few { length coefficients.now ≤ 32 }
    requires small { All (FitsBits 15) coefficients.now }
    requires shift { shift < 16 }
    requires places { length values.old + length coefficients.now ≡ length samples.now }
    requires block { length samples.now ≤ 65535 }
    ensures all { IsTrue result → values.new ≡ differences coefficients.now shift samples.now }
    // proof only
    ensures long { length values.new ≡ length values.old }
{
    let count = samples.len();
    if shorts.len() < 2 * count + APART {
        return false;
    }
    let (narrowed, sums) = shorts.split_at_mut(count + APART);
    let narrowed = &mut narrowed[..count];
    let sums = &mut sums[..values.len()];
    if !narrow(samples, narrowed) {
        return false;
    }
    let peak = peak(narrowed, true, true);
    take_products_wide(coefficients, shift, narrowed, peak, sums, values)
}

/// What a linear predictor leaves of the samples (RFC 9639, section 9.2.6). With places in 32 bits for twice as many
/// samples and 256 more it mostly takes a fourth of the time.
pub(crate) fn take_left(
    coefficients: &[i32],
    shift: u32,
    samples: &[i64],
    shorts: &mut [i32],
    values: &mut [i64],
)
    requires few { length coefficients.now ≤ 32 }
    requires small { All (FitsBits 15) coefficients.now }
    requires shift { shift < 16 }
    requires fits { All (FitsBits 33) samples.now }
    requires places { length values.old + length coefficients.now ≡ length samples.now }
    requires block { length samples.now ≤ 65535 }
    ensures all { values.new ≡ differences coefficients.now shift samples.now }
    // proof only
    ensures long { length values.new ≡ length values.old }
{
    if !take_in_lanes(coefficients, shift, samples, shorts, values) {
        take_linear(coefficients, shift, samples, values);
    }
}
