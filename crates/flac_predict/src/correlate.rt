//! Autocorrelation: the sums of the products of samples with those some places before.

ghost use Rattle.std.specs.Prelude.{◌≡◌, ◌≤◌, ◌<◌, ◌+◌, length};

use crate::windows::put_weighed;
use std::simd::prelude::*;

/// The autocorrelation of the first `count` samples for 0 to 12 places. The 16 samples after them must be zeros.
///
/// The sums are in `f64`: in `f32` they lose up to 2.4 % of the bytes of sounds whose highest frequencies are nearly empty.
pub(crate) fn autocorrelation(samples: &[f64], count: usize) -> [f64; 13]
    requires { count + 16 ≤ length samples.now }
{
    let mut eight: f64x8 = Simd::splat(0.0);
    let mut four: f64x4 = Simd::splat(0.0);
    let mut two: f64x2 = Simd::splat(0.0);
    for place in 0..count {
        let one = samples[place];
        let first: f64x8 = Simd::splat(one);
        let second: f64x4 = Simd::splat(one);
        let third: f64x2 = Simd::splat(one);
        let next = &samples[place..place + 16];
        eight += first * Simd::from_slice(&next[..8]);
        four += second * Simd::from_slice(&next[8..12]);
        two += third * Simd::from_slice(&next[12..14]);
    }
    let eight = eight.to_array();
    let four = four.to_array();
    let two = two.to_array();
    let mut sums = [0.0; 13];
    sums[..8].copy_from_slice(&eight);
    sums[8..12].copy_from_slice(&four);
    sums[12] = two[0];
    sums
}

/// The autocorrelation of samples that are weighed. The places are a working array.
pub(crate) fn weighed_sums(samples: &[i32], weights: &[f64], places: &mut [f64]) -> [f64; 13]
    requires weights { length weights.now ≡ length samples.now }
    requires places { length samples.now + 16 ≤ length places.old }
    ensures { length places.new ≡ length places.old }
{
    put_weighed(samples, weights, places);
    autocorrelation(places, samples.len())
}
