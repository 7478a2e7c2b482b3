//! Two channels, their side and their middle (RFC 9639, section 4.2).

ghost use Rattle.std.specs.Prelude.{◌≡◌, ◌≤◌, ◌<◌, ◌+◌, length};

use crate::correlate::autocorrelation;
use crate::windows::put_weighed;

/// Subtracts the first `count` weighed samples of the right channel from those of the left.
fn subtract(left: &mut [f64], right: &[f64], count: usize)
    requires left { count ≤ length left.old }
    requires right { count ≤ length right.now }
    ensures { length left.new ≡ length left.old }
{
    for place in 0..count {
        left[place] -= right[place];
    }
}

/// The autocorrelation of the middle, half the sum of two, from those of both and of their side.
fn middle_sums(left: &[f64; 13], right: &[f64; 13], side: &[f64; 13]) -> [f64; 13] {
    let mut sums = [0.0; 13];
    for lag in 0..13 {
        sums[lag] = (left[lag] + right[lag]) * 0.5 - side[lag] * 0.25;
    }
    sums
}

/// The autocorrelations of left, right, side and middle, for samples that are weighed. Two places are working arrays.
pub(crate) fn pair_sums(
    left: &[i32],
    right: &[i32],
    weights: &[f64],
    first: &mut [f64],
    second: &mut [f64],
) -> [[f64; 13]; 4]
    requires right { length right.now ≡ length left.now }
    requires weights { length weights.now ≡ length left.now }
    requires first { length left.now + 16 ≤ length first.old }
    requires second { length left.now + 16 ≤ length second.old }
    ensures first { length first.new ≡ length first.old }
    ensures second { length second.new ≡ length second.old }
{
    let count = left.len();
    put_weighed(left, weights, first);
    put_weighed(right, weights, second);
    let lefts = autocorrelation(first, count);
    let rights = autocorrelation(second, count);
    subtract(first, second, count);
    let sides = autocorrelation(first, count);
    let middles = middle_sums(&lefts, &rights, &sides);
    [lefts, rights, sides, middles]
}
