//! The width of each partition at each partition order, and the bits of the finest under parameter 0.

ghost use Rattle.std.specs.Prelude.{◌≡◌, ◌<◌, ◌≤◌, ◌^◌, ◌+◌, ◌*◌, ℕ, length, map, All, slice_index};
ghost use Rattle.std.specs.List.{sum_by};
ghost use Rattle.flac_subframe.specs.search.inner.Views.{AreMeasured, ArePriced, HasWidthsOf, TakesAtLeastBeside};

use crate::format::numbers::power;
use crate::search::cost::weigh;
use crate::search::pruning::bound_part;
use crate::search::view::ResidualView;

/// [`leaves`] for partitions of sixteen values or of another number, which its callers fix.
#[inline(always)]
fn leaves_of(residual: &ResidualView<'_>, sixteen: bool, widths: &mut [u8], sums: &mut [u64]) -> u64
    requires places { length widths.old ≡ 2 ^ residual.now.partition_order }
    requires sums { length sums.old ≡ 2 ^ residual.now.partition_order }
    ensures widths { AreMeasured residual.now widths.new }
    // proof only
    ensures small { (j : ℕ) → j < 2 ^ residual.now.partition_order → slice_index widths.new j ≤ 32 }
    ensures costs { ArePriced residual.now 0 sums.new }
    ensures bound { TakesAtLeastBeside residual.now result }
{
    let size = (residual.values.len() + residual.order) >> residual.partition_order;
    let count = power(residual.partition_order);
    let mut bound = 0;
    let mut rest = residual.values;
    let mut left = residual.folds;
    let mut long = size - residual.order;
    for j in 0..count {
        let (front, after) = rest.split_at(long);
        let (first, others) = left.split_at(long);
        let leaf = weigh(first, sixteen);
        widths[j] = leaf.0;
        sums[j] = leaf.1;
        bound += bound_part(front, leaf.1, leaf.0, sixteen);
        rest = after;
        left = others;
        long = size;
    }
    bound
}

/// The width of each partition at the finest partition order, and its bits under parameter 0; and a lower bound on the
/// bits of the values in any form, the sum of one for each partition, beside which come the header and the parameters.
fn leaves(residual: &ResidualView<'_>, widths: &mut [u8], sums: &mut [u64]) -> u64
    requires places { length widths.old ≡ 2 ^ residual.now.partition_order }
    requires sums { length sums.old ≡ 2 ^ residual.now.partition_order }
    ensures widths { AreMeasured residual.now widths.new }
    // proof only
    ensures small { (j : ℕ) → j < 2 ^ residual.now.partition_order → slice_index widths.new j ≤ 32 }
    ensures costs { ArePriced residual.now 0 sums.new }
    ensures bound { TakesAtLeastBeside residual.now result }
{
    if (residual.values.len() + residual.order) >> residual.partition_order == 16 {
        return leaves_of(residual, true, widths, sums);
    }
    leaves_of(residual, false, widths, sums)
}

/// The same, with each width at its place after those of the coarser partitions.
pub(crate) fn lowest(residual: &ResidualView<'_>, widths: &mut [u8], sums: &mut [u64]) -> u64
    requires places { 2 * 2 ^ residual.now.partition_order ≤ length widths.old }
    requires sums { 2 ^ residual.now.partition_order ≤ length sums.old }
    ensures widths { HasWidthsOf residual.now residual.now.partition_order widths.new }
    // proof only
    ensures long { length widths.new ≡ length widths.old }
    ensures costs { ArePriced residual.now 0 sums.new }
    ensures bound { TakesAtLeastBeside residual.now result }
{
    let first = power(residual.partition_order);
    let row = &mut sums[..first];
    leaves(residual, &mut widths[first..2 * first], row)
}

/// The width of each partition at each partition order, the larger of its two halves', from those of the finest.
pub(crate) fn widen(residual: &ResidualView<'_>, widths: &mut [u8])
    requires places { 2 * 2 ^ residual.now.partition_order ≤ length widths.old }
    requires finest { HasWidthsOf residual.now residual.now.partition_order widths.old }
    ensures widths { HasWidthsOf residual.now 0 widths.new }
    // proof only
    ensures long { length widths.new ≡ length widths.old }
{
    let mut at = power(residual.partition_order);
    while at > 1 {
        at -= 1;
        widths[at] = widths[2 * at].max(widths[2 * at + 1]);
    }
}
