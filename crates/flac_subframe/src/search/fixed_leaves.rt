//! What the fixed predictors leave of narrow samples, in partitions of sixteen: each is measured before any of it is kept,
//! and only until a lower bound shows that the predictor takes too many bits.

ghost use Rattle.std.specs.Prelude.{◌≡◌, ◌<◌, ◌≤◌, ◌^◌, ◌+◌, ◌-◌, ◌*◌, ℕ, length, All, slice_index};
ghost use Rattle.std.specs.List.{sum_by};
ghost use Rattle.flac_bits.specs.Signed.{FitsBits};
ghost use Rattle.flac_subframe.specs.format.Bodies.{differences};
ghost use Rattle.flac_subframe.specs.format.Prediction.{fixed_coefficients};
ghost use Rattle.flac_subframe.specs.format.inner.Cost.{value_cost};
ghost use Rattle.flac_subframe.specs.search.inner.Halves.{HasWidths, IsWidth, part, segment};
ghost use Rattle.flac_subframe.specs.search.inner.Leaves.{CostsAtLeastBeside, IsLeaf};

use crate::format::narrowed::take_narrow_order;
use crate::format::numbers::power;
use crate::search::cost::weigh;
use crate::search::pruning::bound_part;

/// What is known of the values of a partition: their width, their bits under parameter 0, and a lower bound on their
/// bits under any coding.
#[derive(Clone, Copy)]
pub(crate) struct Leaf {
    pub(crate) width: u8,
    pub(crate) bits: u64,
    pub(crate) bound: u64,
}

/// A fixed predictor of an order, and narrow samples, of which there are sixteen for each of the finest partitions.
#[derive(Drop)]
pub(crate) struct FixedView<'a> {
    pub(crate) samples: &'a [i32],
    pub(crate) order: usize,
    pub(crate) partition_order: u8,
    ghost few: { order ≤ 4 },
    ghost fits: { All (FitsBits 27) samples.now },
    ghost coarse: { partition_order ≤ 8 },
    ghost sixteens: { length samples.now ≡ 16 * 2 ^ partition_order },
}

/// What the fixed predictor of an order leaves of samples, measured. The arrays are working arrays for it.
#[inline(always)]
fn leaf_of(order: usize, samples: &[i32], values: &mut [i32], folds: &mut [u32]) -> Leaf
    requires order { order ≤ 4 }
    requires fits { All (FitsBits 27) samples.now }
    requires places { length values.old + order ≡ length samples.now }
    requires folds { length folds.old ≡ length values.old }
    requires few { length values.old ≤ 16 }
    ensures { IsLeaf (differences (fixed_coefficients order) 0 samples.now) result }
{
    take_narrow_order(order, samples, values, folds);
    let leaf = weigh(folds, true);
    let bound = bound_part(values, leaf.1, leaf.0, true);
    Leaf {
        width: leaf.0,
        bits: leaf.1,
        bound,
    }
}

/// The same of the first sixteen samples, of which the predictor leaves fewer. It is a call of its own, so that a loop
/// over the other partitions tests for no other length.
#[inline(never)]
fn first_leaf(order: usize, samples: &[i32]) -> Leaf
    requires order { order ≤ 4 }
    requires fits { All (FitsBits 27) samples.now }
    requires long { length samples.now ≡ 16 }
    ensures { IsLeaf (differences (fixed_coefficients order) 0 samples.now) result }
{
    let count = 16 - order;
    let mut values = [0i32; 16];
    let mut folds = [0u32; 16];
    leaf_of(order, samples, &mut values[..count], &mut folds[..count])
}

/// The same of sixteen samples, with those before them that the predictor reads.
#[inline(always)]
fn next_leaf(order: usize, samples: &[i32]) -> Leaf
    requires order { order ≤ 4 }
    requires fits { All (FitsBits 27) samples.now }
    requires long { length samples.now ≡ order + 16 }
    ensures { IsLeaf (differences (fixed_coefficients order) 0 samples.now) result }
{
    let mut values = [0i32; 16];
    let mut folds = [0u32; 16];
    leaf_of(order, samples, &mut values, &mut folds)
}

/// The same of the sixteen samples of a partition.
#[inline(always)]
fn leaf_at(order: usize, samples: &[i32], index: usize) -> Leaf
    requires order { order ≤ 4 }
    requires fits { All (FitsBits 27) samples.now }
    requires within { index * 16 + 16 ≤ length samples.now }
    ensures { let left = differences (fixed_coefficients order) 0 samples.now in
        IsLeaf (segment (index * 16 - order) ((index + 1) * 16 - order) left) result }
{
    if index == 0 {
        return first_leaf(order, &samples[..16]);
    }
    let at = index * 16;
    next_leaf(order, &samples[at - order..at + 16])
}

/// [`leaves_by_fixed`] for an order that its callers fix.
#[inline(always)]
fn leaves_of_order(
    order: usize,
    samples: &[i32],
    partition_order: u8,
    below: u64,
    widths: &mut [u8],
    sums: &mut [u64],
) -> u64
    requires order { order ≤ 4 }
    requires fits { All (FitsBits 27) samples.now }
    requires few { partition_order ≤ 8 }
    requires sixteens { length samples.now ≡ 16 * 2 ^ partition_order }
    requires widths { length widths.old ≡ 2 ^ partition_order }
    requires sums { length sums.old ≡ 2 ^ partition_order }
    ensures bound { CostsAtLeastBeside partition_order order (differences (fixed_coefficients order) 0 samples.now) result }
    ensures widths { result < below → (j : ℕ) → j < 2 ^ partition_order → IsWidth
        (part order (differences (fixed_coefficients order) 0 samples.now) partition_order j) (slice_index widths.new j) }
    // proof only
    ensures small { result < below → (j : ℕ) → j < 2 ^ partition_order → slice_index widths.new j ≤ 32 }
    ensures costs { result < below → (j : ℕ) → j < 2 ^ partition_order → slice_index sums.new j ≡ sum_by (value_cost 0)
        (part order (differences (fixed_coefficients order) 0 samples.now) partition_order j) }
{
    let count = sums.len();
    let mut bound = 0;
    for j in 0..count {
        if bound >= below {
            return bound;
        }
        let leaf = leaf_at(order, samples, j);
        widths[j] = leaf.width;
        sums[j] = leaf.bits;
        bound += leaf.bound;
    }
    bound
}

/// Measures what the fixed predictor of an order leaves of narrow samples in partitions of sixteen, until a lower bound
/// on its bits reaches `below`: the sum of one for each partition, beside which come the header and the parameters. If
/// it does not, the width of each partition and its bits under parameter 0 are in the arrays.
fn leaves_by_fixed(
    order: usize,
    samples: &[i32],
    partition_order: u8,
    below: u64,
    widths: &mut [u8],
    sums: &mut [u64],
) -> u64
    requires order { order ≤ 4 }
    requires fits { All (FitsBits 27) samples.now }
    requires few { partition_order ≤ 8 }
    requires sixteens { length samples.now ≡ 16 * 2 ^ partition_order }
    requires widths { length widths.old ≡ 2 ^ partition_order }
    requires sums { length sums.old ≡ 2 ^ partition_order }
    ensures bound { CostsAtLeastBeside partition_order order (differences (fixed_coefficients order) 0 samples.now) result }
    ensures widths { result < below → (j : ℕ) → j < 2 ^ partition_order → IsWidth
        (part order (differences (fixed_coefficients order) 0 samples.now) partition_order j) (slice_index widths.new j) }
    // proof only
    ensures small { result < below → (j : ℕ) → j < 2 ^ partition_order → slice_index widths.new j ≤ 32 }
    ensures costs { result < below → (j : ℕ) → j < 2 ^ partition_order → slice_index sums.new j ≡ sum_by (value_cost 0)
        (part order (differences (fixed_coefficients order) 0 samples.now) partition_order j) }
{
    match order {
        0 => leaves_of_order(0, samples, partition_order, below, widths, sums),
        1 => leaves_of_order(1, samples, partition_order, below, widths, sums),
        2 => leaves_of_order(2, samples, partition_order, below, widths, sums),
        3 => leaves_of_order(3, samples, partition_order, below, widths, sums),
        4 => leaves_of_order(4, samples, partition_order, below, widths, sums),
        // no order is above 4
        _ => leaves_of_order(order, samples, partition_order, below, widths, sums),
    }
}

/// The same, with each width at its place after those of the coarser partitions.
pub(crate) fn lowest_by_fixed(
    order: usize,
    samples: &[i32],
    partition_order: u8,
    below: u64,
    widths: &mut [u8],
    sums: &mut [u64],
) -> u64
    requires order { order ≤ 4 }
    requires fits { All (FitsBits 27) samples.now }
    requires few { partition_order ≤ 8 }
    requires sixteens { length samples.now ≡ 16 * 2 ^ partition_order }
    requires widths { 2 * 2 ^ partition_order ≤ length widths.old }
    requires sums { 2 ^ partition_order ≤ length sums.old }
    ensures bound { CostsAtLeastBeside partition_order order (differences (fixed_coefficients order) 0 samples.now) result }
    ensures widths { result < below → HasWidths
        order (differences (fixed_coefficients order) 0 samples.now) partition_order partition_order widths.new }
    ensures costs { result < below → (j : ℕ) → j < 2 ^ partition_order → slice_index sums.new j ≡ sum_by (value_cost 0)
        (part order (differences (fixed_coefficients order) 0 samples.now) partition_order j) }
    // proof only
    ensures long { length widths.new ≡ length widths.old }
{
    let first = power(partition_order);
    let row = &mut sums[..first];
    leaves_by_fixed(
        order,
        samples,
        partition_order,
        below,
        &mut widths[first..2 * first],
        row,
    )
}
