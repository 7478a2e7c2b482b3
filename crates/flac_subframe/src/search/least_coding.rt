//! The search for the form of a residual with the fewest bits: tables have the cost of each partition, and only the
//! codings of the best form are listed.

ghost use Rattle.std.specs.Prelude.{◌≡◌, ◌<◌, ◌≤◌, ◌^◌, ◌+◌, ◌-◌, ◌*◌, ◌/◌, ℕ, length, map, take, slice_index, All, IsTrue, IfSome, IfNone};
ghost use Rattle.std.specs.List.{sum_by};
ghost use Rattle.flac_bits.specs.Rice.{IsResidual};
ghost use Rattle.flac_subframe.specs.declared.format.coding_method.CodingMethod.{CodingMethod};
ghost use Rattle.flac_subframe.specs.format.Least.{IsLeast};
ghost use Rattle.flac_subframe.specs.search.inner.Least.{IsLeastCoding, IsLeastCost};
ghost use Rattle.flac_subframe.specs.format.Cost.{MayCode, codings_in, parameter_bits_of};
ghost use Rattle.flac_subframe.specs.format.inner.Cost.{coding_cost};
ghost use Rattle.flac_subframe.specs.search.inner.Halves.{Halves, HasPlaces, LeastBelow, IsWidth};
ghost use Rattle.flac_subframe.specs.search.inner.Views.{AreLeastParts, ArePriced, HasEntriesOf, HasWidthsOf, IsShortestAt, IsShortestIn, IsShortestTo, MayHave, MayHaveBy, TakesAtLeast, TakesAtLeastAbove, bits_under, TakesAtLeastBeside, TakesAtLeastTo, IsLeastPartsCost, IsLeastCostAt, parts_bits, priced_after};

use crate::format::coding::Coding;
use crate::format::coding_method::CodingMethod;
use crate::format::numbers::power;
use crate::format::residual_form::ResidualForm;
use crate::search::cost::CodingCost;
use crate::search::entry::Entry;
use crate::search::halves::{Tried, coarsen, compare, compare_down};
use crate::search::pruning::{COARSE, finest_beside, finest_in_doubt, is_too_dear};
use crate::search::tables::Tables;
use crate::search::view::ResidualView;
use crate::search::widths::lowest;

/// The largest partition order that fits the block, at most `most`.
pub(crate) fn greatest_partition_order(values: &[i32], order: usize, most: u8) -> u8
    requires few { length values.now + order ≤ 65535 }
    requires room { 0 < length values.now }
    requires most { most ≤ 15 }
    ensures within { result ≤ most }
    ensures halves { Halves order values.now result }
    ensures greatest { (p : ℕ) → p ≤ most → Halves order values.now p → p ≤ result }
{
    let block = values.len() + order;
    for next in 1..most + 1 {
        if block % power(next) != 0 || (block >> next) <= order {
            return next - 1;
        }
    }
    most
}

/// The coding of a partition with the fewest bits, from its entry in the table and its width.
fn finish(values: &[i32], method: CodingMethod, best: Entry, width: u8) -> CodingCost
    requires few { length values.now ≤ 65535 }
    requires range { All IsResidual values.now }
    requires best { LeastBelow (2 ^ parameter_bits_of method - 1) values.now best }
    requires small_width { width ≤ 32 }
    requires width { IsWidth values.now width }
    ensures least { IsLeastCoding method values.now result.coding }
    ensures bits { result.bits ≡ coding_cost result.coding values.now }
    // proof only
    ensures small { result.bits ≤ 2 ^ 33 * length values.now + 5 }
{
    let bits = 5 + u64::from(width) * values.len() as u64;
    let least = best.bits();
    if width < 32 && bits < least {
        CodingCost {
            coding: Coding::Escape(width),
            bits,
        }
    } else {
        CodingCost {
            coding: Coding::Rice(best.parameter()),
            bits: least,
        }
    }
}

/// How many bits the best codings at one partition order take.
fn total(
    residual: &ResidualView<'_>,
    partition_order: u8,
    method: CodingMethod,
    table: &[Entry],
    widths: &[u8],
) -> u64
    requires within { partition_order ≤ residual.now.partition_order }
    requires table { 2 * 2 ^ residual.now.partition_order ≤ length table.now }
    requires entries { HasEntriesOf residual.now (2 ^ parameter_bits_of method - 1) table.now }
    requires widths { HasWidthsOf residual.now 0 widths.now }
    requires places { 2 * 2 ^ residual.now.partition_order ≤ length widths.now }
    ensures least { IsLeastPartsCost residual.now method partition_order result }
    // proof only
    ensures small { result ≤ 2 ^ 33 * 65535 + 10 * 2 ^ 15 }
{
    let size = (residual.values.len() + residual.order) >> partition_order;
    let count = power(partition_order);
    let parameter_bits = u64::from(method.parameter_bits());
    let mut bits = 0;
    let mut rest = residual.values;
    let mut long = size - residual.order;
    for j in 0..count {
        let (front, after) = rest.split_at(long);
        let best = finish(front, method, table[count + j], widths[count + j]);
        bits += parameter_bits + best.bits;
        rest = after;
        long = size;
    }
    bits
}

/// Puts the best codings at one partition order into the first places, from the table.
fn gather(
    residual: &ResidualView<'_>,
    partition_order: u8,
    method: CodingMethod,
    table: &[Entry],
    widths: &[u8],
    codings: &mut [u8],
) -> u64
    requires within { partition_order ≤ residual.now.partition_order }
    requires table { 2 * 2 ^ residual.now.partition_order ≤ length table.now }
    requires entries { HasEntriesOf residual.now (2 ^ parameter_bits_of method - 1) table.now }
    requires widths { HasWidthsOf residual.now 0 widths.now }
    requires places { 2 * 2 ^ residual.now.partition_order ≤ length widths.now }
    requires codings { 2 ^ partition_order ≤ length codings.old }
    ensures least { AreLeastParts residual.now method partition_order codings.new }
    ensures bits { result ≡ parts_bits residual.now method partition_order codings.new }
    // proof only
    ensures small { result ≤ 2 ^ 33 * 65535 + 10 * 2 ^ 15 }
{
    let size = (residual.values.len() + residual.order) >> partition_order;
    let count = power(partition_order);
    let parameter_bits = u64::from(method.parameter_bits());
    let mut bits = 0;
    let mut rest = residual.values;
    let mut long = size - residual.order;
    for j in 0..count {
        let (front, after) = rest.split_at(long);
        let best = finish(front, method, table[count + j], widths[count + j]);
        bits += parameter_bits + best.bits;
        codings[j] = best.coding.byte();
        rest = after;
        long = size;
    }
    bits
}

/// The best partition order of a coding method.
fn best_order(
    residual: &ResidualView<'_>,
    method: CodingMethod,
    table: &[Entry],
    widths: &[u8],
) -> ResidualForm
    requires table { 2 * 2 ^ residual.now.partition_order ≤ length table.now }
    requires entries { HasEntriesOf residual.now (2 ^ parameter_bits_of method - 1) table.now }
    requires widths { HasWidthsOf residual.now 0 widths.now }
    requires places { 2 * 2 ^ residual.now.partition_order ≤ length widths.now }
    ensures method { result.method ≡ method }
    ensures within { result.partition_order ≤ residual.now.partition_order }
    ensures least { IsLeastCost (MayHaveBy residual.now method) (bits_under residual.now) result.bits }
    ensures here { IsLeastCostAt residual.now method result.partition_order result.bits }
    // proof only
    ensures small { result.bits ≤ 2 ^ 33 * 2 ^ 16 }
{
    let mut best = ResidualForm {
        method,
        partition_order: 0,
        bits: 6 + total(residual, 0, method, table, widths),
    };
    for partition_order in 1..residual.partition_order + 1 {
        let bits = 6 + total(residual, partition_order, method, table, widths);
        if bits < best.bits {
            best = ResidualForm {
                method,
                partition_order,
                bits,
            };
        }
    }
    best
}

/// A parameter near the best one of most partitions, from the bits of the finest under parameter 0; it is not above the
/// width of the residual, but at least 1.
fn middle(sums: &[u64], count: usize, width: u8) -> u8
    ensures some { 1 ≤ result }
    ensures few { result ≤ 15 }
    ensures within { 1 < result → result ≤ width }
{
    let mut bits: u64 = 0;
    for sum in sums {
        bits = bits.wrapping_add(*sum);
    }
    let mean = bits / (count as u64).max(1);
    let middle = (64 - mean.leading_zeros()).saturating_sub(1).min(15) as u8;
    middle.min(width).max(1)
}

/// Fills the table of the first method, and that of the second where it is another: whether it is the same, and how
/// many parameters were priced.
fn tabulate(
    residual: &ResidualView<'_>,
    width: u8,
    leaves: &[u64],
    sums: &mut [u64],
    four: &mut [Entry],
    five: &mut [Entry],
) -> Tried
    requires bounded { All (λ n. n < 2 ^ width) residual.now.folds.now }
    requires small_width { width ≤ 32 }
    requires leaves { 2 ^ residual.now.partition_order ≤ length leaves.now }
    requires known { ArePriced residual.now 0 leaves.now }
    requires sums { 2 ^ residual.now.partition_order ≤ length sums.old }
    requires four { 2 * 2 ^ residual.now.partition_order ≤ length four.old }
    requires five { 2 * 2 ^ residual.now.partition_order ≤ length five.old }
    ensures entries { HasEntriesOf residual.now 15 four.new }
    ensures same { IsTrue result.settled → HasEntriesOf residual.now 31 four.new }
    ensures more { (IsTrue result.settled → ⊥) → HasEntriesOf residual.now 31 five.new }
    ensures few { result.count ≤ 30 }
    ensures narrow { result.count ≤ width }
{
    let count = power(residual.partition_order);
    let leaves = &leaves[..count];
    let row = &mut sums[..count];
    let middle = middle(leaves, residual.values.len(), width);
    four[..2 * count].fill(Entry::none());
    let down = compare_down(residual, width, middle, leaves, row, four);
    let up = compare(residual, width, middle, 15, row, four);
    let first = down + up.count;
    if up.settled {
        return Tried {
            count: first,
            settled: true,
        };
    }
    five[..2 * count].copy_from_slice(&four[..2 * count]);
    let more = compare(residual, width, 15, 31, row, five);
    Tried {
        count: first + more.count,
        settled: false,
    }
}

/// The best method and partition order, with the table of that method filled, and how many parameters were priced for
/// it.
fn least_coding(
    residual: &ResidualView<'_>,
    leaves: &[u64],
    sums: &mut [u64],
    four: &mut [Entry],
    five: &mut [Entry],
    widths: &[u8],
) -> (ResidualForm, u8)
    requires leaves { 2 ^ residual.now.partition_order ≤ length leaves.now }
    requires known { ArePriced residual.now 0 leaves.now }
    requires sums { 2 ^ residual.now.partition_order ≤ length sums.old }
    requires four { 2 * 2 ^ residual.now.partition_order ≤ length four.old }
    requires five { 2 * 2 ^ residual.now.partition_order ≤ length five.old }
    requires widths { HasWidthsOf residual.now 0 widths.now }
    requires places { 2 * 2 ^ residual.now.partition_order ≤ length widths.now }
    ensures within { result.0.partition_order ≤ residual.now.partition_order }
    ensures least { IsLeastCost (MayHave residual.now) (bits_under residual.now) result.0.bits }
    ensures here { IsLeastCostAt residual.now result.0.method result.0.partition_order result.0.bits }
    // proof only
    ensures small { result.0.bits ≤ 2 ^ 33 * 2 ^ 16 }
    ensures entries { HasEntriesOf residual.now 15 four.new }
    ensures more { result.0.method ≡ CodingMethod.FiveBits → HasEntriesOf residual.now 31 five.new }
    ensures few { result.1 ≤ 30 }
    ensures narrow { result.1 ≤ slice_index widths.now 1 }
{
    let tried = tabulate(residual, widths[1], leaves, sums, four, five);
    let first = best_order(residual, CodingMethod::FourBits, four, widths);
    if tried.settled {
        return (first, tried.count);
    }
    let second = best_order(residual, CodingMethod::FiveBits, five, widths);
    if second.bits < first.bits {
        (second, tried.count)
    } else {
        (first, tried.count)
    }
}

/// Puts the codings at a method and a partition order into the first places, and says how many bits the residual takes.
fn take_up(
    residual: &ResidualView<'_>,
    form: ResidualForm,
    table: &[Entry],
    widths: &[u8],
    codings: &mut [u8],
) -> u64
    requires within { form.partition_order ≤ residual.now.partition_order }
    requires table { 2 * 2 ^ residual.now.partition_order ≤ length table.now }
    requires entries { HasEntriesOf residual.now (2 ^ parameter_bits_of form.method - 1) table.now }
    requires widths { HasWidthsOf residual.now 0 widths.now }
    requires places { 2 * 2 ^ residual.now.partition_order ≤ length widths.now }
    requires codings { 2 ^ residual.now.partition_order ≤ length codings.old }
    ensures least { IsShortestAt residual.now form codings.new }
    ensures bits { result ≡ bits_under residual.now (codings_in form codings.new) }
{
    let bits = gather(
        residual,
        form.partition_order,
        form.method,
        table,
        widths,
        codings,
    );
    6 + bits
}

/// The same at the method that was found, from the table of that method.
fn take_found(
    residual: &ResidualView<'_>,
    form: ResidualForm,
    four: &[Entry],
    five: &[Entry],
    widths: &[u8],
    codings: &mut [u8],
) -> u64
    requires within { form.partition_order ≤ residual.now.partition_order }
    requires four { 2 * 2 ^ residual.now.partition_order ≤ length four.now }
    requires five { 2 * 2 ^ residual.now.partition_order ≤ length five.now }
    requires entries { HasEntriesOf residual.now 15 four.now }
    requires more { form.method ≡ CodingMethod.FiveBits → HasEntriesOf residual.now 31 five.now }
    requires widths { HasWidthsOf residual.now 0 widths.now }
    requires places { 2 * 2 ^ residual.now.partition_order ≤ length widths.now }
    requires codings { 2 ^ residual.now.partition_order ≤ length codings.old }
    ensures least { IsShortestAt residual.now form codings.new }
    ensures bits { result ≡ bits_under residual.now (codings_in form codings.new) }
{
    match form.method {
        CodingMethod::FourBits => take_up(residual, form, four, widths, codings),
        CodingMethod::FiveBits => take_up(residual, form, five, widths, codings),
    }
}

/// The residual form of the fewest bits, if it takes fewer bits than `below`, with its codings in their array, where the
/// bits of the finest partitions under parameter 0 and all widths are known.
fn least_measured(
    residual: &ResidualView<'_>,
    tables: &mut Tables<'_>,
    below: u64,
) -> Option<ResidualForm>
    requires places { HasPlaces residual.now.partition_order tables.old }
    requires known { ArePriced residual.now 0 tables.old.leaves.now }
    requires widths { HasWidthsOf residual.now 0 tables.old.widths.now }
    ensures least { IfSome result (λ f. IsShortestIn residual.now f tables.new) }
    ensures bits { IfSome result (λ f. f.bits ≡ bits_under residual.now (codings_in f tables.new.codings.now)) }
    ensures within { IfSome result (λ f. f.partition_order ≤ residual.now.partition_order) }
    ensures less { IfSome result (λ f. f.bits < below) }
    // proof only
    ensures small { IfSome result (λ f. f.bits ≤ 2 ^ 49) }
    ensures kept { IfNone result (tables.new.codings.now ≡ tables.old.codings.now) }
    ensures none { IfNone result (TakesAtLeast residual.now below) }
    // proof only
    ensures places { (most : ℕ) → HasPlaces most tables.old → HasPlaces most tables.new }
    ensures same { tables.new.codings.ghost_name ≡ tables.old.codings.ghost_name }
    ensures priced { tables.new.priced ≤ priced_after 30 residual.now tables.old }
    ensures narrow { tables.new.priced ≤ priced_after (slice_index tables.old.widths.now 1) residual.now tables.old }
{
    let leaves = &mut *tables.leaves;
    let sums = &mut *tables.sums;
    let four = &mut *tables.four;
    let five = &mut *tables.five;
    let widths = &mut *tables.widths;
    let codings = &mut *tables.codings;
    let count = residual.values.len() as u64;
    let (form, tried) = least_coding(residual, leaves, sums, four, five, widths);
    tables.priced = tables.priced.saturating_add(u64::from(tried) * count);
    if form.bits >= below {
        return None;
    }
    let bits = take_found(residual, form, four, five, widths, codings);
    Some(ResidualForm { bits, ..form })
}

/// The residual form of the fewest bits, if it takes fewer bits than `below`, with its codings in their array. Cheap
/// lower bounds come first, so that most predictors are refused before their parameters are tried, and of others the
/// finest partition orders. `rough` is one on the bits of the values; the tables have what is known of the finest
/// partitions.
pub(crate) fn least_weighed(
    residual: &ResidualView<'_>,
    tables: &mut Tables<'_>,
    rough: u64,
    below: u64,
) -> Option<ResidualForm>
    requires places { HasPlaces residual.now.partition_order tables.old }
    requires known { ArePriced residual.now 0 tables.old.leaves.now }
    requires widths { HasWidthsOf residual.now residual.now.partition_order tables.old.widths.now }
    requires beside { TakesAtLeastBeside residual.now rough }
    ensures least { IfSome result (λ f. IsShortestIn residual.now f tables.new) }
    ensures bits { IfSome result (λ f. f.bits ≡ bits_under residual.now (codings_in f tables.new.codings.now)) }
    ensures within { IfSome result (λ f. f.partition_order ≤ residual.now.partition_order) }
    ensures less { IfSome result (λ f. f.bits < below) }
    // proof only
    ensures small { IfSome result (λ f. f.bits ≤ 2 ^ 49) }
    ensures kept { IfNone result (tables.new.codings.now ≡ tables.old.codings.now) }
    ensures none { IfNone result (TakesAtLeast residual.now below) }
    // proof only
    ensures places { (most : ℕ) → HasPlaces most tables.old → HasPlaces most tables.new }
    ensures same { tables.new.codings.ghost_name ≡ tables.old.codings.ghost_name }
    ensures priced { tables.new.priced ≤ tables.old.priced + 32 * length residual.now.values.now }
{
    let leaves = &mut *tables.leaves;
    let widths = &mut *tables.widths;
    let count = residual.values.len() as u64;
    let verdict = is_too_dear(residual, leaves, widths, rough, below);
    tables.priced = tables.priced.saturating_add(2 * count + verdict.priced);
    if verdict.dear {
        return None;
    }
    let finest = finest_beside(residual.partition_order, rough, below);
    coarsen(residual, finest, leaves);
    least_measured(&residual.at(finest), tables, below)
}

/// The same of a residual of which nothing is known yet.
fn least_at_once(
    residual: &ResidualView<'_>,
    tables: &mut Tables<'_>,
    below: u64,
) -> Option<ResidualForm>
    requires places { HasPlaces residual.now.partition_order tables.old }
    ensures least { IfSome result (λ f. IsShortestIn residual.now f tables.new) }
    ensures bits { IfSome result (λ f. f.bits ≡ bits_under residual.now (codings_in f tables.new.codings.now)) }
    ensures within { IfSome result (λ f. f.partition_order ≤ residual.now.partition_order) }
    ensures less { IfSome result (λ f. f.bits < below) }
    // proof only
    ensures small { IfSome result (λ f. f.bits ≤ 2 ^ 49) }
    ensures kept { IfNone result (tables.new.codings.now ≡ tables.old.codings.now) }
    ensures none { IfNone result (TakesAtLeast residual.now below) }
    // proof only
    ensures places { (most : ℕ) → HasPlaces most tables.old → HasPlaces most tables.new }
    ensures same { tables.new.codings.ghost_name ≡ tables.old.codings.ghost_name }
    ensures priced { tables.new.priced ≤ tables.old.priced + 32 * length residual.now.values.now }
{
    let leaves = &mut *tables.leaves;
    let widths = &mut *tables.widths;
    let rough = lowest(residual, widths, leaves);
    least_weighed(residual, tables, rough, below)
}

/// The same with partition orders up to `partition_order` alone.
fn least_up_to(
    residual: &ResidualView<'_>,
    partition_order: u8,
    tables: &mut Tables<'_>,
    below: u64,
) -> Option<ResidualForm>
    requires within { partition_order ≤ residual.now.partition_order }
    requires places { HasPlaces residual.now.partition_order tables.old }
    ensures least { IfSome result (λ f. IsShortestTo residual.now partition_order f tables.new) }
    ensures bits { IfSome result (λ f. f.bits ≡ bits_under residual.now (codings_in f tables.new.codings.now)) }
    ensures within { IfSome result (λ f. f.partition_order ≤ partition_order) }
    ensures less { IfSome result (λ f. f.bits < below) }
    // proof only
    ensures small { IfSome result (λ f. f.bits ≤ 2 ^ 49) }
    ensures kept { IfNone result (tables.new.codings.now ≡ tables.old.codings.now) }
    ensures none { IfNone result (TakesAtLeastTo residual.now partition_order below) }
    // proof only
    ensures places { (most : ℕ) → HasPlaces most tables.old → HasPlaces most tables.new }
    ensures same { tables.new.codings.ghost_name ≡ tables.old.codings.ghost_name }
    ensures priced { tables.new.priced ≤ tables.old.priced + 32 * length residual.now.values.now }
{
    least_at_once(&residual.at(partition_order), tables, below)
}

/// The same for the finer partition orders: none if each form of these takes `below` bits or more, which bounds mostly
/// show before their tables are made.
fn least_of_finer(
    residual: &ResidualView<'_>,
    tables: &mut Tables<'_>,
    below: u64,
) -> Option<ResidualForm>
    requires fine { 8 ≤ residual.now.partition_order }
    requires places { HasPlaces residual.now.partition_order tables.old }
    ensures least { IfSome result (λ f. IsShortestIn residual.now f tables.new) }
    ensures bits { IfSome result (λ f. f.bits ≡ bits_under residual.now (codings_in f tables.new.codings.now)) }
    ensures within { IfSome result (λ f. f.partition_order ≤ residual.now.partition_order) }
    ensures less { IfSome result (λ f. f.bits < below) }
    // proof only
    ensures small { IfSome result (λ f. f.bits ≤ 2 ^ 49) }
    ensures kept { IfNone result (tables.new.codings.now ≡ tables.old.codings.now) }
    ensures none { IfNone result (TakesAtLeastAbove residual.now 8 below) }
    // proof only
    ensures places { (most : ℕ) → HasPlaces most tables.old → HasPlaces most tables.new }
    ensures same { tables.new.codings.ghost_name ≡ tables.old.codings.ghost_name }
    ensures priced { tables.new.priced ≤ tables.old.priced + 61 * length residual.now.values.now }
{
    let leaves = &mut *tables.leaves;
    let widths = &mut *tables.widths;
    let (finest, priced) = finest_in_doubt(residual, leaves, widths, below);
    tables.priced = tables.priced.saturating_add(priced);
    if finest <= COARSE {
        return None;
    }
    least_up_to(residual, finest, tables, below)
}

/// The number of bits that a finer form must stay below. Of two forms that take as many, that of the first method comes
/// first, and then that of the lower partition order.
fn bits_to_beat(found: Option<ResidualForm>, below: u64) -> u64
    requires less { IfSome found (λ f. f.bits < below) }
    ensures none { IfNone found (result ≡ below) }
    ensures some { IfSome found (λ f. f.bits ≤ result) }
    ensures within { result ≤ below }
{
    let Some(first) = found else {
        return below;
    };
    match first.method {
        CodingMethod::FourBits => first.bits,
        CodingMethod::FiveBits => first.bits + 1,
    }
}

/// The residual form of the fewest bits, if it takes fewer bits than `below`, with its codings in their array. The
/// finer partition orders come after the others, whose best form is a bound for them.
pub(crate) fn least_residual(
    residual: &ResidualView<'_>,
    tables: &mut Tables<'_>,
    below: u64,
) -> Option<ResidualForm>
    requires places { HasPlaces residual.now.partition_order tables.old }
    ensures least { IfSome result (λ f. IsShortestIn residual.now f tables.new) }
    ensures bits { IfSome result (λ f. f.bits ≡ bits_under residual.now (codings_in f tables.new.codings.now)) }
    ensures within { IfSome result (λ f. f.partition_order ≤ residual.now.partition_order) }
    ensures less { IfSome result (λ f. f.bits < below) }
    // proof only
    ensures small { IfSome result (λ f. f.bits ≤ 2 ^ 49) }
    ensures kept { IfNone result (tables.new.codings.now ≡ tables.old.codings.now) }
    ensures none { IfNone result (TakesAtLeast residual.now below) }
    // proof only
    ensures places { (most : ℕ) → HasPlaces most tables.old → HasPlaces most tables.new }
    ensures same { tables.new.codings.ghost_name ≡ tables.old.codings.ghost_name }
    ensures coarse { residual.now.partition_order ≤ 8 → tables.new.priced ≤ priced_after 32 residual.now tables.old }
    ensures priced { tables.new.priced ≤ priced_after 93 residual.now tables.old }
{
    if residual.partition_order <= COARSE {
        return least_at_once(residual, tables, below);
    }
    let first = least_up_to(residual, COARSE, tables, below);
    let limit = bits_to_beat(first, below);
    match least_of_finer(residual, tables, limit) {
        Some(found) => Some(found),
        None => first,
    }
}
