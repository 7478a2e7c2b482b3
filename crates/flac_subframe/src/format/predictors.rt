//! Predicts a sample from those before it.

ghost use Rattle.std.specs.Prelude.{◌≡◌, ◌<◌, ◌≤◌, ◌^◌, length, All};
ghost use Rattle.std.specs.Int.RustNames.{unsigned_abs};
ghost use Rattle.flac_bits.specs.Signed.{FitsBits};
ghost use Rattle.flac_subframe.specs.format.Prediction.{prediction, weighted, fixed_coefficients};

/// The coefficients of the fixed predictor of an order, that of the nearest sample first (RFC 9639, section 9.2.5).
pub(crate) fn fixed_coefficients(order: u32) -> &'static [i32]
    requires { order ≤ 4 }
    ensures { result.now ≡ fixed_coefficients order }
{
    match order {
        0 => &[],
        1 => &[1],
        2 => &[2, -1],
        3 => &[3, -3, 1],
        _ => &[4, -6, 4, -1],
    }
}

/// The prediction of a linear predictor for the sample after these: the sum of the products of coefficients and
/// samples, shifted to the right, rounded down (RFC 9639, section 9.2.6). The first coefficient is that of the nearest,
/// the last sample.
///
/// There are at most 32 coefficients, of at most 15 bits each; at least as many samples, of at most 33 bits each; and
/// the shift is 0 to 15.
///
/// ```
/// let next = predict_linear(&[1], 1, &[-3]); // -2
/// ```
pub fn predict_linear(coefficients: &[i32], shift: u32, samples: &[i64]) -> i64
    requires few { length coefficients.now ≤ 32 }
    requires small { All (FitsBits 15) coefficients.now }
    requires shift { shift < 16 }
    requires enough { length coefficients.now ≤ length samples.now }
    requires samples { All (FitsBits 33) samples.now }
    ensures value { result ≡ prediction coefficients.now shift samples.now (length samples.now) }
    ensures bound { unsigned_abs result ≤ 2 ^ 51 }
    ensures small { unsigned_abs (weighted coefficients.now samples.now (length samples.now)) ≤ 2 ^ 51 }
{
    let mut sum: i64 = 0;
    let mut at = samples.len();
    for coefficient in coefficients {
        at -= 1;
        sum += i64::from(*coefficient) * samples[at];
    }
    sum >> shift
}

/// The prediction of the fixed predictor of an order, 0 to 4, for the sample after these (RFC 9639, section 9.2.5).
/// There are at least as many samples as the order, of at most 33 bits each.
///
/// ```
/// let next = predict_fixed(2, &[0, 1]); // 2
/// ```
pub fn predict_fixed(order: u32, samples: &[i64]) -> i64
    requires order { order ≤ 4 }
    requires enough { order ≤ length samples.now }
    requires samples { All (FitsBits 33) samples.now }
    ensures value { result ≡ prediction (fixed_coefficients order) 0 samples.now (length samples.now) }
    ensures bound { unsigned_abs result ≤ 2 ^ 51 }
{
    predict_linear(fixed_coefficients(order), 0, samples)
}
