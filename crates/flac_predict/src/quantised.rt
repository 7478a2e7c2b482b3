//! Coefficients in whole numbers.

ghost use Rattle.std.specs.Prelude.{◌≡◌, ◌≤◌, ◌<◌, length, IfSome};

use std::num::saturating_f64_to_i32;

/// A predictor in whole numbers: its coefficients are the first `order`, at most 12, with a shift of at most 15.
#[derive(Clone, Copy)]
pub(crate) struct Quantised {
    pub(crate) coefficients: [i32; 12],
    pub(crate) order: usize,
    pub(crate) shift: u32,
    ghost few: { order ≤ 12 },
    ghost small: { shift ≤ 15 },
}

/// The largest of the first `order` numbers, without their signs. NaN is passed over.
fn largest(row: &[f64; 12], order: usize) -> f64
    requires { order ≤ 12 }
{
    let mut largest: f64 = 0.0;
    for place in 0..order {
        largest = largest.max(row[place].abs());
    }
    largest
}

/// The greatest shift under which a number stays below a limit, at most 15, and the power of two.
fn shift_below(number: f64, limit: f64) -> (u32, f64)
    ensures { result.0 ≤ 15 }
{
    let mut shift: u32 = 0;
    let mut scale = 1.0;
    for next in 1..16 {
        if number * (scale * 2.0) < limit {
            scale *= 2.0;
            shift = next;
        }
    }
    (shift, scale)
}

/// Rounds a number to one from `-limit - 1` to `limit`. It is total: an infinity becomes the nearer end, and NaN some
/// number of this range, since `max` and `min` pass over NaN.
fn rounded(number: f64, limit: f64) -> i32 {
    let half = if number < 0.0 { -0.5 } else { 0.5 };
    saturating_f64_to_i32((number + half).max(-limit - 1.0).min(limit))
}

/// The largest coefficient of a precision in bits.
fn limit_of(precision: u32) -> f64 {
    let mut power = 0.5;
    for _ in 0..precision {
        power *= 2.0;
    }
    power - 1.0
}

/// The first `order` coefficients in whole numbers of `precision` bits: the error of rounding one is added to the next.
/// `None` if all are 0, or one is too large for the precision without a shift.
///
/// It takes any floats. No infinity is rounded, since it is too large; and a whole number is neither an infinity nor NaN,
/// so none reaches a coefficient.
pub(crate) fn quantise(row: &[f64; 12], order: usize, precision: u32) -> Option<Quantised>
    requires { order ≤ 12 }
    ensures { IfSome result (λ q. q.order ≡ order) }
{
    let limit = limit_of(precision);
    let most = largest(row, order);
    if !(most > 0.0) || !(most < limit) {
        return None;
    }
    let (shift, scale) = shift_below(most, limit);
    let mut coefficients = [0; 12];
    let mut error = 0.0;
    for place in 0..order {
        error += row[place] * scale;
        let number = rounded(error, limit);
        error -= f64::from(number);
        coefficients[place] = number;
    }
    Some(Quantised {
        coefficients,
        order,
        shift,
    })
}
