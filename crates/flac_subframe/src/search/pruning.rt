//! Lower bounds on the bits of a residual, known before its parameters are tried.

ghost use Rattle.std.specs.Prelude.{◌≡◌, ◌<◌, ◌≤◌, ◌^◌, ◌+◌, ◌-◌, ◌*◌, ℕ, length, map, All, IsTrue, slice_index, false};
ghost use Rattle.std.specs.Int.Count.{count_leading_zeros};
ghost use Rattle.std.specs.List.{sum_by};
ghost use Rattle.flac_subframe.specs.format.inner.Cost.{value_cost};
ghost use Rattle.flac_bits.specs.Rice.{folded};
ghost use Rattle.flac_subframe.specs.format.Spelling.{FitsWidth};
ghost use Rattle.flac_subframe.specs.search.inner.Halves.{IsWidth};
ghost use Rattle.flac_subframe.specs.search.inner.Views.{ArePriced, HasWidthsOf, TakesAtLeast, TakesAtLeastAbove, TakesAtLeastAt, TakesAtLeastBeside, TakesAtLeastFinest};

use crate::format::numbers::power;
use crate::search::cost::quotients;
use crate::search::view::ResidualView;
use crate::search::widths::{lowest, widen};

/// The greatest partition order whose tables are made at once. Above it a partition is often so short that its
/// parameter takes more than it saves, so finer partitions are tried only if no bound rules them out.
pub(crate) const COARSE: u8 = 8;

/// A shift that brings the number of bits near the number of values.
#[inline(always)]
fn shift_to(count: u64, bits: u64) -> u32
    ensures { result ≤ 40 }
{
    let shift = count
        .leading_zeros()
        .saturating_sub(bits.leading_zeros())
        .min(40);
    if bits >> shift < count {
        shift.saturating_sub(1)
    } else {
        shift
    }
}

/// A lower bound on the bits of sixteen values under any coding, from their bits under parameter 0 and their width,
/// without a branch.
#[inline(always)]
fn bound_sixteen(values: &[i32], bits: u64, width: u8) -> u64
    requires long { length values.now ≡ 16 }
    requires bits { bits ≡ sum_by (value_cost 0) values.now }
    requires small_width { width ≤ 32 }
    requires width { IsWidth values.now width }
    ensures rice { (k : ℕ) → result ≤ sum_by (value_cost k) values.now }
    ensures escape { (n : ℕ) → All (FitsWidth n) values.now → result ≤ n * length values.now }
    // proof only
    ensures small { result ≤ 2 ^ 21 }
{
    let shift = 59 - bits.leading_zeros();
    let rice = 16 * u64::from(shift) + (bits >> shift);
    rice.min(16 * u64::from(width))
}

/// What [`bound_part`] does, for any number of values.
#[inline(always)]
fn bound_any(values: &[i32], bits: u64, width: u8) -> u64
    requires few { length values.now ≤ 65535 }
    requires bits { bits ≡ sum_by (value_cost 0) values.now }
    requires small_width { width ≤ 32 }
    requires width { IsWidth values.now width }
    ensures rice { (k : ℕ) → result ≤ sum_by (value_cost k) values.now }
    ensures escape { (n : ℕ) → All (FitsWidth n) values.now → result ≤ n * length values.now }
    // proof only
    ensures small { result ≤ 2 ^ 21 }
{
    let count = values.len() as u64;
    let shift = shift_to(count, bits);
    let quotient = bits >> shift;
    if quotient < count || quotient >= 2 * count {
        return 0;
    }
    let rice = count * u64::from(shift) + quotient;
    rice.min(count * u64::from(width))
}

/// The same as a call of its own, so that a loop over partitions of sixteen values tests for no other length.
#[inline(never)]
fn bound_apart(values: &[i32], bits: u64, width: u8) -> u64
    requires few { length values.now ≤ 65535 }
    requires bits { bits ≡ sum_by (value_cost 0) values.now }
    requires small_width { width ≤ 32 }
    requires width { IsWidth values.now width }
    ensures rice { (k : ℕ) → result ≤ sum_by (value_cost k) values.now }
    ensures escape { (n : ℕ) → All (FitsWidth n) values.now → result ≤ n * length values.now }
    // proof only
    ensures small { result ≤ 2 ^ 21 }
{
    bound_any(values, bits, width)
}

/// A lower bound on the bits of a partition's values under any coding, from their bits under parameter 0 and their
/// width. Its callers fix whether the number of values is mostly sixteen.
#[inline(always)]
pub(crate) fn bound_part(values: &[i32], bits: u64, width: u8, sixteen: bool) -> u64
    requires few { length values.now ≤ 65535 }
    requires bits { bits ≡ sum_by (value_cost 0) values.now }
    requires small_width { width ≤ 32 }
    requires width { IsWidth values.now width }
    ensures rice { (k : ℕ) → result ≤ sum_by (value_cost k) values.now }
    ensures escape { (n : ℕ) → All (FitsWidth n) values.now → result ≤ n * length values.now }
    // proof only
    ensures small { result ≤ 2 ^ 21 }
{
    if values.len() == 16 {
        return bound_sixteen(values, bits, width);
    }
    if sixteen {
        return bound_apart(values, bits, width);
    }
    bound_any(values, bits, width)
}

/// [`bound_closely`] for a number of values that its callers fix.
#[inline(always)]
fn bound_closely_of(values: &[i32], folds: &[u32], count: usize, bits: u64, width: u8) -> u64
    requires count { count ≡ length values.now }
    requires few { length values.now ≤ 65535 }
    requires folded { folds.now ≡ map folded values.now }
    requires long { length folds.now ≡ length values.now }
    requires small_folds { All (λ n. n < 2 ^ 32) folds.now }
    requires bits { bits ≡ sum_by (value_cost 0) values.now }
    requires small_width { width ≤ 32 }
    requires width { IsWidth values.now width }
    ensures rice { (k : ℕ) → result ≤ sum_by (value_cost k) values.now }
    ensures escape { (n : ℕ) → All (FitsWidth n) values.now → result ≤ n * length values.now }
    // proof only
    ensures small { result ≤ 2 ^ 21 }
{
    let count = count as u64;
    let least = count + count / 2;
    let shift = shift_to(least, bits).min(29) as u8;
    let low = quotients(folds, shift, width);
    let high = quotients(folds, shift + 1, width);
    if low < count || high > count {
        return bound_part(values, bits, width, true);
    }
    let under = low + count * (1 + u64::from(shift));
    let over = high + count * (2 + u64::from(shift));
    under.min(over).min(count * u64::from(width))
}

/// What [`bound_closely`] does, for any number of values.
#[inline(never)]
fn bound_any_closely(values: &[i32], folds: &[u32], bits: u64, width: u8) -> u64
    requires few { length values.now ≤ 65535 }
    requires folded { folds.now ≡ map folded values.now }
    requires long { length folds.now ≡ length values.now }
    requires small_folds { All (λ n. n < 2 ^ 32) folds.now }
    requires bits { bits ≡ sum_by (value_cost 0) values.now }
    requires small_width { width ≤ 32 }
    requires width { IsWidth values.now width }
    ensures rice { (k : ℕ) → result ≤ sum_by (value_cost k) values.now }
    ensures escape { (n : ℕ) → All (FitsWidth n) values.now → result ≤ n * length values.now }
    // proof only
    ensures small { result ≤ 2 ^ 21 }
{
    bound_closely_of(values, folds, values.len(), bits, width)
}

/// A closer lower bound, from the values' exact bits under two parameters: the best is one of these if the sum of the
/// quotients is the number of values or more under the first, and at most that under the second.
#[inline(always)]
fn bound_closely(values: &[i32], folds: &[u32], bits: u64, width: u8) -> u64
    requires few { length values.now ≤ 65535 }
    requires folded { folds.now ≡ map folded values.now }
    requires long { length folds.now ≡ length values.now }
    requires small_folds { All (λ n. n < 2 ^ 32) folds.now }
    requires bits { bits ≡ sum_by (value_cost 0) values.now }
    requires small_width { width ≤ 32 }
    requires width { IsWidth values.now width }
    ensures rice { (k : ℕ) → result ≤ sum_by (value_cost k) values.now }
    ensures escape { (n : ℕ) → All (FitsWidth n) values.now → result ≤ n * length values.now }
    // proof only
    ensures small { result ≤ 2 ^ 21 }
{
    if values.len() == 16 {
        return bound_closely_of(values, folds, 16, bits, width);
    }
    bound_any_closely(values, folds, bits, width)
}

/// A lower bound, and of how many values it was made.
#[derive(Clone, Copy)]
struct Bound {
    bits: u64,
    seen: usize,
}

/// Whether lower bounds show that each form of a residual takes too many bits, and how often a value's bits under one
/// parameter or its width were computed for them.
#[derive(Clone, Copy)]
pub(crate) struct Verdict {
    pub(crate) dear: bool,
    pub(crate) priced: u64,
}

/// The sum of the closer lower bounds of the finest partitions, or of the first of them once they reach `below`.
fn bound_parts(residual: &ResidualView<'_>, sums: &[u64], widths: &[u8], below: u64) -> Bound
    requires places { 2 ^ residual.now.partition_order ≤ length sums.now }
    requires costs { ArePriced residual.now 0 sums.now }
    requires widths { HasWidthsOf residual.now residual.now.partition_order widths.now }
    requires widths_long { 2 * 2 ^ residual.now.partition_order ≤ length widths.now }
    ensures all { TakesAtLeast residual.now result.bits }
    ensures last { TakesAtLeastFinest residual.now result.bits }
    ensures seen { result.seen ≤ length residual.now.values.now }
{
    let size = (residual.values.len() + residual.order) >> residual.partition_order;
    let count = power(residual.partition_order);
    let mut bits = 0;
    let mut rest = residual.values;
    let mut left = residual.folds;
    let mut long = size - residual.order;
    for j in 0..count {
        if bits >= below {
            let seen = residual.values.len() - rest.len();
            return Bound { bits, seen };
        }
        let (front, after) = rest.split_at(long);
        let (first, others) = left.split_at(long);
        bits += bound_closely(front, first, sums[j], widths[count + j]);
        rest = after;
        left = others;
        long = size;
    }
    let seen = residual.values.len() - rest.len();
    Bound { bits, seen }
}

/// Whether the closer bound shows that the residual takes `below` bits or more. It is computed only if the rougher
/// bound, which is less by about half a bit for each value, comes so near, and only if the residual's width leaves out
/// so many parameters that, with these two, a value is priced at most 32 times.
fn reaches(
    residual: &ResidualView<'_>,
    sums: &[u64],
    widths: &[u8],
    bound: u64,
    below: u64,
) -> Verdict
    requires sums { 2 ^ residual.now.partition_order ≤ length sums.now }
    requires costs { ArePriced residual.now 0 sums.now }
    requires widths { HasWidthsOf residual.now 0 widths.now }
    requires places { 2 * 2 ^ residual.now.partition_order ≤ length widths.now }
    ensures dear { IsTrue result.dear → TakesAtLeast residual.now below }
    ensures few { result.priced ≤ 2 * length residual.now.values.now }
    ensures none { 28 < slice_index widths.now 1 → result.priced ≡ 0 }
{
    let near = below.saturating_sub(residual.values.len() as u64 / 2);
    if widths[1] > 28 || bound < near {
        return Verdict {
            dear: false,
            priced: 0,
        };
    }
    let close = bound_parts(residual, sums, widths, below);
    Verdict {
        dear: close.bits >= below,
        priced: 2 * close.seen as u64,
    }
}

/// Whether lower bounds show that the residual takes `below` bits or more in any form. `rough` is one on the bits of the
/// values, without the header and the parameters; `sums` and `widths` have what is known of the finest partitions. If
/// the bounds do not show it, `widths` then has the width of each partition at each partition order.
pub(crate) fn is_too_dear(
    residual: &ResidualView<'_>,
    sums: &[u64],
    widths: &mut [u8],
    rough: u64,
    below: u64,
) -> Verdict
    requires sums { 2 ^ residual.now.partition_order ≤ length sums.now }
    requires places { 2 * 2 ^ residual.now.partition_order ≤ length widths.old }
    requires costs { ArePriced residual.now 0 sums.now }
    requires finest { HasWidthsOf residual.now residual.now.partition_order widths.old }
    requires beside { TakesAtLeastBeside residual.now rough }
    ensures dear { IsTrue result.dear → TakesAtLeast residual.now below }
    ensures widths { result.dear ≡ false → HasWidthsOf residual.now 0 widths.new }
    // proof only
    ensures long { length widths.new ≡ length widths.old }
    ensures few { result.priced ≤ 2 * length residual.now.values.now }
    ensures none { 28 < slice_index widths.new 1 → result.priced ≡ 0 }
{
    if rough >= below {
        return Verdict {
            dear: true,
            priced: 0,
        };
    }
    widen(residual, widths);
    reaches(residual, sums, widths, rough, below)
}

/// The greatest partition order, up to one, whose header and parameters, beside a lower bound on the bits of the values,
/// take fewer than `below` bits, or 0 if there is none.
pub(crate) fn finest_beside(partition_order: u8, bound: u64, below: u64) -> u8
    requires { partition_order ≤ 15 }
    ensures within { result ≤ partition_order }
    ensures dear { (p : ℕ) → result < p → p ≤ partition_order → below ≤ bound + (6 + 4 * 2 ^ p) }
{
    let rest = below.saturating_sub(bound);
    let mut finest = partition_order;
    while finest > 0 && 6 + 4 * power(finest) as u64 >= rest {
        finest -= 1;
    }
    finest
}

/// The sum of how many digits numbers have.
fn digits(folds: &[u32]) -> u64
    requires few { length folds.now ≤ 65535 }
    requires small { All (λ n. n < 2 ^ 32) folds.now }
    ensures sum { result ≡ sum_by (λ n. 63 - count_leading_zeros 64 (2 * n + 1)) folds.now }
    // proof only
    ensures small { result ≤ 64 * length folds.now }
{
    let mut sum = 0;
    for number in folds {
        let odd = 2 * u64::from(*number) + 1;
        sum += u64::from(63 - odd.leading_zeros());
    }
    sum
}

/// A lower bound on the bits of the residual at one partition order, from the digits of its values: each partition has
/// a parameter of four bits, and then one bit more for each value, or five for an escape.
fn bound_by_digits(residual: &ResidualView<'_>, partition_order: u8, digits: u64) -> u64
    requires within { partition_order ≤ residual.now.partition_order }
    requires sum { digits ≡ sum_by (λ n. 63 - count_leading_zeros 64 (2 * n + 1)) residual.now.folds.now }
    requires small { digits ≤ 64 * length residual.now.folds.now }
    ensures { TakesAtLeastAt residual.now partition_order result }
{
    let size = (residual.values.len() + residual.order) >> partition_order;
    let fields = power(partition_order) * (4 + size.min(5));
    (digits + 6 + fields as u64).saturating_sub(residual.order as u64)
}

/// Whether lower bounds show that the residual takes `below` bits or more at one partition order: by the digits of its
/// values, or else by the bits of each partition, for which each value is priced four times. The arrays are then those
/// of that partition order.
fn is_order_too_dear(
    residual: &ResidualView<'_>,
    partition_order: u8,
    digits: u64,
    sums: &mut [u64],
    widths: &mut [u8],
    below: u64,
) -> Verdict
    requires within { partition_order ≤ residual.now.partition_order }
    requires sum { digits ≡ sum_by (λ n. 63 - count_leading_zeros 64 (2 * n + 1)) residual.now.folds.now }
    requires small { digits ≤ 64 * length residual.now.folds.now }
    requires sums { 2 ^ residual.now.partition_order ≤ length sums.old }
    requires widths { 2 * 2 ^ residual.now.partition_order ≤ length widths.old }
    ensures dear { IsTrue result.dear → TakesAtLeastAt residual.now partition_order below }
    ensures few { result.priced ≤ 4 * length residual.now.values.now }
{
    let bound = bound_by_digits(residual, partition_order, digits);
    if bound >= below {
        return Verdict {
            dear: true,
            priced: 0,
        };
    }
    let coarser = residual.at(partition_order);
    lowest(&coarser, widths, sums);
    let fields = 6 + 4 * power(partition_order) as u64;
    let rest = below.saturating_sub(fields);
    let close = bound_parts(&coarser, sums, widths, rest);
    Verdict {
        dear: close.bits >= rest,
        priced: 2 * (residual.values.len() + close.seen) as u64,
    }
}

/// The greatest partition order at which no lower bound shows that the residual takes `below` bits or more, or the one
/// whose tables are made at once; and how often a value was priced for that.
pub(crate) fn finest_in_doubt(
    residual: &ResidualView<'_>,
    sums: &mut [u64],
    widths: &mut [u8],
    below: u64,
) -> (u8, u64)
    requires fine { 8 ≤ residual.now.partition_order }
    requires sums { 2 ^ residual.now.partition_order ≤ length sums.old }
    requires widths { 2 * 2 ^ residual.now.partition_order ≤ length widths.old }
    ensures within { (8 ≤ result.0) × (result.0 ≤ residual.now.partition_order) }
    ensures few { result.1 ≤ 29 * length residual.now.values.now }
    ensures dear { TakesAtLeastAbove residual.now result.0 below }
{
    let digits = digits(residual.folds);
    let mut priced = residual.folds.len() as u64;
    let mut partition_order = residual.partition_order;
    while partition_order > COARSE {
        let verdict = is_order_too_dear(residual, partition_order, digits, sums, widths, below);
        priced += verdict.priced;
        if !verdict.dear {
            return (partition_order, priced);
        }
        partition_order -= 1;
    }
    (partition_order, priced)
}
