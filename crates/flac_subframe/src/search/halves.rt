//! The cost of each partition at each partition order. The cost of each value is computed once for each parameter: a
//! partition costs as much as its two halves.

ghost use Rattle.std.specs.Prelude.{◌≡◌, ◌<◌, ◌≤◌, ◌^◌, ◌+◌, ◌-◌, ◌*◌, ◌/◌, ℕ, true, false, length, map, min, All, IsTrue, slice_index, ◌⊎◌};
ghost use Rattle.std.specs.List.{sum_by};
ghost use Rattle.flac_subframe.specs.search.inner.Entry.{no_entry};
ghost use Rattle.flac_subframe.specs.search.inner.Halves.{entry};
ghost use Rattle.flac_subframe.specs.search.inner.Views.{AreCompared, ArePriced, ArePricedAt, HasEntriesOf, NoneGains, AreNoted, LevelIsNoted, OthersAreKept, NoneIsLess, ArePairSums};

use crate::format::numbers::power;
use crate::search::cost::rice_bits_of;
use crate::search::entry::Entry;
use crate::search::view::ResidualView;

/// [`price`] for partitions of sixteen values or of another number, which its callers fix.
#[inline(always)]
fn price_of(residual: &ResidualView<'_>, width: u8, parameter: u8, sixteen: bool, sums: &mut [u64])
    requires bounded { All (λ n. n < 2 ^ width) residual.now.folds.now }
    requires parameter { parameter < 31 }
    requires places { length sums.old ≡ 2 ^ residual.now.partition_order }
    ensures costs { ArePriced residual.now parameter sums.new }
{
    let size = (residual.values.len() + residual.order) >> residual.partition_order;
    let mut rest = residual.folds;
    let mut long = size - residual.order;
    for sum in sums.iter_mut() {
        let (front, after) = rest.split_at(long);
        *sum = rice_bits_of(front, parameter, width, sixteen);
        rest = after;
        long = size;
    }
}

/// What each partition costs under a parameter, at the finest partition order.
pub(crate) fn price(residual: &ResidualView<'_>, width: u8, parameter: u8, sums: &mut [u64])
    requires bounded { All (λ n. n < 2 ^ width) residual.now.folds.now }
    requires parameter { parameter < 31 }
    requires places { length sums.old ≡ 2 ^ residual.now.partition_order }
    ensures costs { ArePriced residual.now parameter sums.new }
{
    if (residual.values.len() + residual.order) >> residual.partition_order == 16 {
        return price_of(residual, width, parameter, true, sums);
    }
    price_of(residual, width, parameter, false, sums)
}

/// From the costs of partitions to those of the next coarser ones, in place.
fn pair(sums: &mut [u64], count: usize)
    requires room { 2 * count ≤ length sums.old }
    requires small { (j : ℕ) → j < 2 * count → slice_index sums.old j < 2 ^ 50 }
    ensures { ArePairSums count sums.old sums.new }
{
    for j in 0..count {
        sums[j] = sums[2 * j] + sums[2 * j + 1];
    }
}

/// The costs under parameter 0 of the partitions of a coarser order, in place of those of the finest.
pub(crate) fn coarsen(residual: &ResidualView<'_>, partition_order: u8, sums: &mut [u64])
    requires within { partition_order ≤ residual.now.partition_order }
    requires places { 2 ^ residual.now.partition_order ≤ length sums.old }
    requires costs { ArePriced residual.now 0 sums.old }
    ensures costs { ArePricedAt residual.now partition_order 0 sums.new }
    // proof only
    ensures long { length sums.new ≡ length sums.old }
{
    let mut level = residual.partition_order;
    while level > partition_order {
        level -= 1;
        pair(sums, power(level));
    }
}

/// Compares the cost of each partition with the best so far.
fn note(sums: &[u64], best: &mut [Entry], parameter: u8)
    requires few { parameter < 32 }
    requires places { length best.old ≤ length sums.now }
    requires small { (j : ℕ) → j < length best.old → slice_index sums.now j < 2 ^ 50 }
    ensures { AreNoted parameter sums.now best.old best.new }
{
    for (j, entry) in best.iter_mut().enumerate() {
        *entry = (*entry).best(Entry::new(parameter, sums[j]));
    }
}

/// The same at one partition order, whose entries stand one after another in the table.
fn note_level(sums: &[u64], table: &mut [Entry], partition_order: u8, parameter: u8)
    requires few { parameter < 32 }
    requires most { partition_order ≤ 15 }
    requires sums { 2 ^ partition_order ≤ length sums.now }
    requires small { (j : ℕ) → j < 2 ^ partition_order → slice_index sums.now j < 2 ^ 50 }
    requires table { 2 * 2 ^ partition_order ≤ length table.old }
    ensures level { LevelIsNoted partition_order parameter sums.now table.old table.new }
    ensures others { OthersAreKept partition_order table.old table.new }
{
    let first = power(partition_order);
    note(sums, &mut table[first..2 * first], parameter);
}

/// Whether a parameter lowers the best cost of a partition.
fn gains(sums: &[u64], best: &[Entry], parameter: u8) -> bool
    requires few { parameter < 32 }
    requires places { length best.now ≤ length sums.now }
    requires small { (j : ℕ) → j < length best.now → slice_index sums.now j < 2 ^ 50 }
    ensures none { result ≡ false → NoneIsLess parameter sums.now best.now }
{
    for j in 0..best.len() {
        if Entry::new(parameter, sums[j]).is_better_than(best[j]) {
            return true;
        }
    }
    false
}

/// Compares, at each partition order, each partition's cost under a parameter with the best so far, if it lowers that
/// of one of the finest. `sums` has the costs of these.
fn pass(residual: &ResidualView<'_>, parameter: u8, sums: &mut [u64], table: &mut [Entry]) -> bool
    requires parameter { parameter < 31 }
    requires sums { length sums.old ≡ 2 ^ residual.now.partition_order }
    requires costs { ArePriced residual.now parameter sums.old }
    requires table { 2 * 2 ^ residual.now.partition_order ≤ length table.old }
    ensures kept { length table.new ≡ length table.old }
    ensures entries { IsTrue result → AreCompared residual.now parameter table.old table.new }
    ensures same { result ≡ false → table.new ≡ table.old }
    ensures none { result ≡ false → NoneGains residual.now parameter table.old }
{
    let first = power(residual.partition_order);
    if !gains(sums, &table[first..2 * first], parameter) {
        return false;
    }
    note_level(sums, table, residual.partition_order, parameter);
    let mut level = residual.partition_order;
    while level > 0 {
        level -= 1;
        pair(sums, power(level));
        note_level(sums, table, level, parameter);
    }
    true
}

/// The same, but that it copies the costs under parameter 0, which are known.
fn take_row(residual: &ResidualView<'_>, width: u8, parameter: u8, leaves: &[u64], sums: &mut [u64])
    requires bounded { All (λ n. n < 2 ^ width) residual.now.folds.now }
    requires parameter { parameter < 31 }
    requires places { length sums.old ≡ 2 ^ residual.now.partition_order }
    requires leaves { length leaves.now ≡ 2 ^ residual.now.partition_order }
    requires known { ArePriced residual.now 0 leaves.now }
    ensures costs { ArePriced residual.now parameter sums.new }
{
    if parameter == 0 {
        sums.copy_from_slice(leaves);
    } else {
        price(residual, width, parameter, sums);
    }
}

/// Fills an empty table with the least of the parameters below one: tries them downwards, as long as one of the finest
/// partitions gains by it. It returns how many were priced; the costs under parameter 0 are in `leaves`.
pub(crate) fn compare_down(
    residual: &ResidualView<'_>,
    width: u8,
    from: u8,
    leaves: &[u64],
    sums: &mut [u64],
    table: &mut [Entry],
) -> u8
    requires bounded { All (λ n. n < 2 ^ width) residual.now.folds.now }
    requires some { 1 ≤ from }
    requires from { from ≤ 31 }
    requires leaves { length leaves.now ≡ 2 ^ residual.now.partition_order }
    requires known { ArePriced residual.now 0 leaves.now }
    requires sums { length sums.old ≡ 2 ^ residual.now.partition_order }
    requires table { 2 * 2 ^ residual.now.partition_order ≤ length table.old }
    requires start { (p j : ℕ) → p ≤ residual.now.partition_order → j < 2 ^ p → entry table.old p j ≡ no_entry }
    ensures entries { HasEntriesOf residual.now from table.new }
    // proof only
    ensures long { length table.new ≡ length table.old }
    ensures few { result ≤ from - 1 }
{
    let mut low = from;
    while low > 0 {
        low -= 1;
        take_row(residual, width, low, leaves, sums);
        if !pass(residual, low, sums, table) {
            return from - low.max(1);
        }
    }
    from - 1
}

/// How many parameters were priced, and whether no partition gains by one that was not.
#[derive(Clone, Copy)]
pub(crate) struct Tried {
    pub(crate) count: u8,
    pub(crate) settled: bool,
}

/// Goes on with a table of the parameters below one, upwards, as long as one of the finest partitions gains by it. It
/// returns how many were priced, and whether no partition gains by any above. None gains by one above the width of the
/// residual, so these are not tried.
pub(crate) fn compare(
    residual: &ResidualView<'_>,
    width: u8,
    from: u8,
    parameters: u8,
    sums: &mut [u64],
    table: &mut [Entry],
) -> Tried
    requires bounded { All (λ n. n < 2 ^ width) residual.now.folds.now }
    requires small_width { width ≤ 32 }
    requires from { from ≤ parameters }
    requires parameters { parameters ≤ 31 }
    requires within { from ≤ width + 1 }
    requires sums { length sums.old ≡ 2 ^ residual.now.partition_order }
    requires table { 2 * 2 ^ residual.now.partition_order ≤ length table.old }
    requires start { HasEntriesOf residual.now from table.old }
    ensures entries { HasEntriesOf residual.now parameters table.new }
    ensures settled { IsTrue result.settled → HasEntriesOf residual.now 31 table.new }
    // proof only
    ensures long { length table.new ≡ length table.old }
    ensures within_width { (IsTrue result.settled → ⊥) → parameters ≤ width + 1 }
    ensures few { result.count ≤ parameters - from }
    ensures narrow { result.count ≤ width + 1 - from }
{
    let end = parameters.min(width + 1);
    for parameter in from..end {
        price(residual, width, parameter, sums);
        if !pass(residual, parameter, sums, table) {
            let count = parameter - from + 1;
            return Tried {
                count,
                settled: true,
            };
        }
    }
    let count = end - from;
    let settled = end < parameters;
    Tried { count, settled }
}
