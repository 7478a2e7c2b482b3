//! Windows: what the samples of a block are weighed with before their autocorrelation.

ghost use Rattle.std.specs.Prelude.{◌≡◌, ◌≤◌, ◌<◌, ◌+◌, length};

use std::num::nearest_usize_to_f64;

/// The weight at a place of a slope of `side` samples, from near 0 to near 1: 3t^2 - 2t^3.
fn slope(place: usize, side: usize) -> f64 {
    let at = (nearest_usize_to_f64(place) + 0.5) / nearest_usize_to_f64(side);
    at * at * (3.0 - 2.0 * at)
}

/// Writes the weights of a block: 1, but for a slope of `side` samples at both ends.
pub(crate) fn put_window(weights: &mut [f64], side: usize)
    ensures { length weights.new ≡ length weights.old }
{
    let size = weights.len();
    for place in 0..size {
        let from_end = place.min(size - 1 - place);
        weights[place] = if from_end < side {
            slope(from_end, side)
        } else {
            1.0
        };
    }
}

/// Writes samples with their weights, and 16 zeros after them.
pub(crate) fn put_weighed(samples: &[i32], weights: &[f64], places: &mut [f64])
    requires weights { length weights.now ≡ length samples.now }
    requires places { length samples.now + 16 ≤ length places.old }
    ensures { length places.new ≡ length places.old }
{
    let count = samples.len();
    for place in 0..count {
        places[place] = f64::from(samples[place]) * weights[place];
    }
    places[count..count + 16].fill(0.0);
}
