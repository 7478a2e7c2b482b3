//! The content of the fewest bits for the samples of a subframe.
ghost use Rattle.flac_subframe.specs.format.Handed.{coefficients_in};
ghost use Rattle.std.specs.Prelude.{◌≡◌, ◌<◌, ◌≤◌, ◌^◌, ◌+◌, ◌-◌, ◌++◌, ◌∷◌, [], ◌*◌, List, ℕ, length, take, All, IfSome, IfNone, IsTrue, ◌↔◌, replicate, map};
ghost use Rattle.flac_bits.specs.Signed.{FitsBits};
ghost use Rattle.flac_subframe.specs.format.Numbers.{sample_at};
ghost use Rattle.flac_subframe.specs.format.Prediction.{fixed_coefficients};
ghost use Rattle.flac_bits.specs.Rice.{IsResidual, folded};
ghost use Rattle.flac_subframe.specs.format.Bodies.{coefficients_of, differences};
ghost use Rattle.flac_subframe.specs.format.Chosen.{IsNamed, fixed_below, offered};
ghost use Rattle.flac_subframe.specs.format.Spelling.{subframe_spelling};
ghost use Rattle.flac_subframe.specs.search.inner.Chosen.{IsBestOfNone};
ghost use Rattle.flac_subframe.specs.format.Cost.{codings_in};
ghost use Rattle.flac_subframe.specs.format.inner.Cost.{residual_cost};
ghost use Rattle.flac_subframe.specs.search.inner.Halves.{HasPlaces, HasResidual, HasRoom, Halves};
ghost use Rattle.flac_subframe.specs.search.inner.Leaves.{CostsAtLeast, HasLeastCodings, left_by_fixed};
ghost use Rattle.flac_subframe.specs.declared.format.linear.LinearPredictor.{LinearPredictor};
ghost use Rattle.flac_subframe.specs.search.inner.Views.{GoesOnWith, IsBestOf, IsLeastForm, IsMadeFor, IsShortestFor, NoneIsBelow, StaysWithin, bits_in_form, for_samples, form_found, left_by, left_of, named, for_each_of};
ghost use Rattle.flac_subframe.specs.search.Choices.{for_each};

use crate::format::content::{ContentKind, PredictorKind, SubframeForm};
use crate::format::folding::fold_each;
use crate::format::leaving::{take_differences, take_weighed};
use crate::format::linear::LinearPredictor;
use crate::format::narrowed::{narrow, peak, take_narrow};
use crate::format::numbers::{APART, power};
use crate::format::products::take_products;
use crate::format::residual_form::ResidualForm;
use crate::format::wasted::without_wasted;
use crate::search::entry::Entry;
use crate::search::fixed_leaves::{FixedView, lowest_by_fixed};
use crate::search::least_coding::{greatest_partition_order, least_residual, least_weighed};
use crate::search::pruning::COARSE;
use crate::search::tables::{SearchArrays, Tables};
use crate::search::view::{ResidualView, SampleView, Task};
use crate::search::wide_products::take_wide_products;

/// The best content so far, and how many bits it takes. The codings of its residual stay in their array and are
/// overwritten only by better ones.
#[derive(Clone, Copy)]
pub(crate) struct Best {
    pub(crate) content: ContentKind,
    pub(crate) residual: ResidualForm,
    pub(crate) bits: u64,
}

/// Whether all samples are the first one.
pub(crate) fn all_equal(samples: &[i64]) -> bool
    ensures { IsTrue result ↔ (samples.now ≡ replicate (length samples.now) (sample_at samples.now 0)) }
{
    for sample in samples {
        if *sample != samples[0] {
            return false;
        }
    }
    true
}

/// The number of bits that a predictor must stay below to replace the best so far: of two fixed ones that take as many,
/// the one of the lower order is kept, and a fixed one replaces a linear one.
fn limit(best: &Best, kind: PredictorKind) -> u64
    requires { best.now.bits ≤ 2 ^ 60 }
    ensures { (best.now.bits ≤ result) × (result ≤ best.now.bits + 1) }
{
    match (best.content, kind) {
        (ContentKind::Predicted(PredictorKind::Fixed(higher)), PredictorKind::Fixed(order))
            if order < higher => best.bits + 1,
        (ContentKind::Predicted(PredictorKind::Linear(_)), PredictorKind::Fixed(_)) => {
            best.bits + 1
        }
        _ => best.bits,
    }
}

/// For each fixed predictor the sum of the absolute values of its residual in a run, from the run's fifth sample on.
fn sums_left(run: &[i32]) -> [u64; 5] {
    let mut sum0: u64 = 0;
    let mut sum1: u64 = 0;
    let mut sum2: u64 = 0;
    let mut sum3: u64 = 0;
    let mut sum4: u64 = 0;
    for at in 4..run.len() {
        // the differences of five samples, the last first, then the differences of these, and so on
        let one = run[at].wrapping_sub(run[at - 1]);
        let one_before = run[at - 1].wrapping_sub(run[at - 2]);
        let one_earlier = run[at - 2].wrapping_sub(run[at - 3]);
        let one_first = run[at - 3].wrapping_sub(run[at - 4]);
        let two = one.wrapping_sub(one_before);
        let two_before = one_before.wrapping_sub(one_earlier);
        let two_first = one_earlier.wrapping_sub(one_first);
        let three = two.wrapping_sub(two_before);
        let four = three.wrapping_sub(two_before.wrapping_sub(two_first));
        sum0 = sum0.wrapping_add(u64::from(run[at].unsigned_abs()));
        sum1 = sum1.wrapping_add(u64::from(one.unsigned_abs()));
        sum2 = sum2.wrapping_add(u64::from(two.unsigned_abs()));
        sum3 = sum3.wrapping_add(u64::from(three.unsigned_abs()));
        sum4 = sum4.wrapping_add(u64::from(four.unsigned_abs()));
    }
    [sum0, sum1, sum2, sum3, sum4]
}

/// The order of the fixed predictor whose residual has the smallest sum of absolute values over eight short runs of the
/// samples, by their lowest 32 bits. It is a guess of the best order, which is priced first, so that bounds can rule out
/// the others.
fn likely_order(samples: &[i32]) -> usize
    ensures { result ≤ 4 }
{
    let mut sums = [0u64; 5];
    for part in samples.chunks((samples.len() / 8).max(1)) {
        let lefts = sums_left(&part[..part.len().min(36)]);
        for (sum, left) in sums.iter_mut().zip(lefts.iter()) {
            *sum = sum.wrapping_add(*left);
        }
    }
    let mut likely = 0;
    for order in 1..5 {
        if sums[order] < sums[likely] {
            likely = order;
        }
    }
    likely
}

/// The order of the fixed predictor that is tried first. After linear ones, which mostly take fewer bits, it is the one
/// that mostly comes next.
fn first_order(subject: &SampleView<'_>) -> usize
    ensures { result ≤ 4 }
{
    if subject.predictors.is_empty() {
        return likely_order(subject.narrowed);
    }
    2
}

/// What the fixed predictor of an order leaves of the samples, and the same as unsigned numbers, if a residual may have
/// it all.
fn take_fixed_residual(
    subject: &SampleView<'_>,
    order: usize,
    wide: &mut [i64],
    values: &mut [i32],
    folds: &mut [u32],
) -> bool
    requires order { order ≤ 4 }
    requires places { length values.old + order ≡ length subject.now.samples.now }
    requires wide { length subject.now.samples.now ≤ length wide.old }
    requires folds { length folds.old ≡ length values.old }
    ensures values { IsTrue result → values.new ≡ differences (fixed_coefficients order) 0 subject.now.samples.now }
    ensures range { IsTrue result → All IsResidual values.new }
    ensures unsigned { IsTrue result → folds.new ≡ map folded values.new }
    // proof only
    ensures small { IsTrue result → All (λ n. n < 2 ^ 32) folds.new }
    ensures all { All IsResidual (differences (fixed_coefficients order) 0 subject.now.samples.now) → IsTrue result }
{
    if subject.narrow {
        take_narrow(order, subject.narrowed, values, folds);
        return true;
    }
    let wide = &mut wide[..values.len()];
    if !take_differences(order, subject.samples, wide) {
        return false;
    }
    fold_each(wide, values, folds);
    true
}

/// What a linear predictor leaves of the samples, worked out in 64 bits, and whether a residual may have it all.
fn take_wide(subject: &SampleView<'_>, predictor: &LinearPredictor, wide: &mut [i64]) -> bool
    requires places { length wide.old + length (coefficients_in predictor.now) ≡ length subject.now.samples.now }
    ensures all { wide.new ≡ left_of subject.now predictor.now }
    ensures range { IsTrue result ↔ All IsResidual (left_of subject.now predictor.now) }
{
    let coefficients = predictor.coefficients();
    let shift = predictor.shift();
    if subject.narrow {
        let narrowed = subject.narrowed;
        return take_wide_products(coefficients, shift, narrowed, wide);
    }
    take_weighed(coefficients, shift, subject.samples, wide)
}

/// What a linear predictor leaves of the samples, and the same as unsigned numbers, if a residual may have it all.
fn take_linear_residual(
    subject: &SampleView<'_>,
    predictor: &LinearPredictor,
    wide: &mut [i64],
    values: &mut [i32],
    folds: &mut [u32],
) -> bool
    requires places { length values.old + length (coefficients_in predictor.now) ≡ length subject.now.samples.now }
    requires wide { length subject.now.samples.now ≤ length wide.old }
    requires folds { length folds.old ≡ length values.old }
    ensures values { IsTrue result → values.new ≡ left_of subject.now predictor.now }
    ensures range { IsTrue result → All IsResidual values.new }
    ensures unsigned { IsTrue result → folds.new ≡ map folded values.new }
    // proof only
    ensures small { IsTrue result → All (λ n. n < 2 ^ 32) folds.new }
    ensures all { All IsResidual (left_of subject.now predictor.now) → IsTrue result }
{
    let coefficients = predictor.coefficients();
    let shift = predictor.shift();
    let narrowed = subject.narrowed;
    if subject.narrow && take_products(coefficients, shift, narrowed, subject.peak, values, folds) {
        return true;
    }
    let wide = &mut wide[..values.len()];
    if !take_wide(subject, predictor, wide) {
        return false;
    }
    fold_each(wide, values, folds);
    true
}

/// Puts what a predictor leaves of the samples into the first places, and the same as unsigned numbers, if a residual
/// may have it all.
fn take_residual(
    subject: &SampleView<'_>,
    kind: PredictorKind,
    wide: &mut [i64],
    values: &mut [i32],
    folds: &mut [u32],
) -> bool
    requires named { IsNamed subject.now.predictors.now kind }
    requires room { length (coefficients_of (named subject.now kind)) < length subject.now.samples.now }
    requires wide { length subject.now.samples.now ≤ length wide.old }
    requires values { length subject.now.samples.now ≤ length values.old }
    requires folds { length subject.now.samples.now ≤ length folds.old }
    ensures residual { IsTrue result → HasResidual (left_by subject.now kind) values.new folds.new }
    ensures all { All IsResidual (left_by subject.now kind) → IsTrue result }
{
    let count = subject.samples.len() - subject.order(kind);
    let values = &mut values[..count];
    let folds = &mut folds[..count];
    match kind {
        PredictorKind::Fixed(order) => take_fixed_residual(subject, order, wide, values, folds),
        PredictorKind::Linear(index) => {
            let predictor = &subject.predictors[index];
            take_linear_residual(subject, predictor, wide, values, folds)
        }
    }
}

/// The form of the fewest bits for the residual of a predictor of an order, if it takes fewer than `below`.
fn least_form(
    subject: &SampleView<'_>,
    order: usize,
    values: &[i32],
    folds: &[u32],
    tables: &mut Tables<'_>,
    below: u64,
) -> Option<ResidualForm>
    requires order { order < length subject.now.samples.now }
    requires values { length subject.now.samples.now ≤ length values.now }
    requires residual { HasResidual (take (length subject.now.samples.now - order) values.now) values.now folds.now }
    requires folds { length subject.now.samples.now ≤ length folds.now }
    requires tables { HasPlaces subject.now.most tables.old }
    ensures least { IfSome result (λ f. IsLeastForm subject.now order values.now f tables.new) }
    ensures bits { IfSome result (λ f. f.bits ≡ bits_in_form subject.now order values.now f tables.new) }
    ensures within { IfSome result (λ f. f.partition_order ≤ subject.now.most) }
    ensures less { IfSome result (λ f. f.bits < below) }
    // proof only
    ensures small { IfSome result (λ f. f.bits ≤ 2 ^ 49) }
    ensures kept { IfNone result (tables.new.codings.now ≡ tables.old.codings.now) }
    ensures none { IfNone result (NoneIsBelow subject.now order values.now below) }
    // proof only
    ensures places { HasPlaces subject.now.most tables.new }
    ensures same { tables.new.codings.ghost_name ≡ tables.old.codings.ghost_name }
    ensures coarse { subject.now.most ≤ 8 → tables.new.priced ≤ tables.old.priced + for_samples 32 subject.now }
    ensures priced { tables.new.priced ≤ tables.old.priced + for_samples 93 subject.now }
{
    let count = subject.samples.len() - order;
    let values = &values[..count];
    let folds = &folds[..count];
    let partition_order = greatest_partition_order(values, order, subject.most);
    let residual = ResidualView {
        values,
        folds,
        order,
        partition_order,
    };
    least_residual(&residual, tables, below)
}

/// Replaces the best so far by a predictor, if that takes fewer bits.
fn improve(
    subject: &SampleView<'_>,
    kind: PredictorKind,
    arrays: &mut SearchArrays<'_>,
    tables: &mut Tables<'_>,
    best: &mut Best,
)
    requires named { IsNamed subject.now.predictors.now kind }
    requires arrays { HasRoom (length subject.now.samples.now) arrays.old }
    requires tables { HasPlaces subject.now.most tables.old }
    requires small { best.old.bits ≤ 2 ^ 60 }
    ensures best { GoesOnWith subject.now kind best.old tables.old best.new tables.new }
    ensures less { best.new.bits ≤ best.old.bits }
    ensures within { StaysWithin subject.now.most best.old best.new }
    ensures arrays { HasRoom (length subject.now.samples.now) arrays.new }
    ensures tables { HasPlaces subject.now.most tables.new }
    ensures same { tables.new.codings.ghost_name ≡ tables.old.codings.ghost_name }
    ensures coarse { subject.now.most ≤ 8 → tables.new.priced ≤ tables.old.priced + for_samples 32 subject.now }
    ensures priced { tables.new.priced ≤ tables.old.priced + for_samples 93 subject.now }
{
    let order = subject.order(kind);
    if order >= subject.samples.len() {
        return;
    }
    let before = u64::from(subject.bits) * order as u64 + subject.field_bits(kind);
    let limit = limit(best, kind);
    if limit <= before {
        return;
    }
    let wide = &mut *arrays.wide;
    let values = &mut *arrays.values;
    let folds = &mut *arrays.folds;
    if !take_residual(subject, kind, wide, values, folds) {
        return;
    }
    if let Some(residual) = least_form(subject, order, values, folds, tables, limit - before) {
        *best = Best {
            content: ContentKind::Predicted(kind),
            residual,
            bits: before + residual.bits,
        };
    }
}

/// The form of the fewest bits for what a fixed predictor leaves, if it takes fewer than `below`. It is measured before
/// any of it is kept.
fn least_of_fixed(
    fixed: &FixedView<'_>,
    values: &mut [i32],
    folds: &mut [u32],
    tables: &mut Tables<'_>,
    below: u64,
) -> Option<ResidualForm>
    requires values { length fixed.now.samples.now ≤ length values.old }
    requires folds { length fixed.now.samples.now ≤ length folds.old }
    requires tables { HasPlaces fixed.now.partition_order tables.old }
    ensures least { let left = left_by_fixed fixed.now.order fixed.now.samples.now in IfSome result
        (λ f. HasLeastCodings fixed.now.partition_order fixed.now.order left f tables.new.codings.now) }
    ensures bits { let left = left_by_fixed fixed.now.order fixed.now.samples.now in IfSome result
        (λ f. f.bits ≡ residual_cost fixed.now.order left (codings_in f tables.new.codings.now)) }
    ensures within { IfSome result (λ f. f.partition_order ≤ fixed.now.partition_order) }
    ensures less { IfSome result (λ f. f.bits < below) }
    // proof only
    ensures small { IfSome result (λ f. f.bits ≤ 2 ^ 49) }
    ensures kept { IfNone result (tables.new.codings.now ≡ tables.old.codings.now) }
    ensures none { let left = left_by_fixed fixed.now.order fixed.now.samples.now in IfNone result
        (CostsAtLeast fixed.now.partition_order fixed.now.order left below) }
    // proof only
    ensures places { (most : ℕ) → HasPlaces most tables.old → HasPlaces most tables.new }
    ensures same { tables.new.codings.ghost_name ≡ tables.old.codings.ghost_name }
    ensures priced { tables.new.priced ≤ tables.old.priced + 32 * length fixed.now.samples.now }
{
    let samples = fixed.samples;
    let order = fixed.order;
    let partition_order = fixed.partition_order;
    let leaves = &mut *tables.leaves;
    let widths = &mut *tables.widths;
    let rough = lowest_by_fixed(order, samples, partition_order, below, widths, leaves);
    let count = samples.len() - order;
    if rough >= below {
        tables.priced = tables.priced.saturating_add(2 * count as u64);
        return None;
    }
    let values = &mut values[..count];
    let folds = &mut folds[..count];
    take_narrow(order, samples, values, folds);
    let residual = ResidualView {
        values,
        folds,
        order,
        partition_order,
    };
    least_weighed(&residual, tables, rough, below)
}

/// [`improve`] by a fixed predictor, for narrow samples of which there are sixteen for each of the finest partitions.
fn improve_by_sixteens(
    subject: &SampleView<'_>,
    fixed: &FixedView<'_>,
    arrays: &mut SearchArrays<'_>,
    tables: &mut Tables<'_>,
    best: &mut Best,
)
    requires samples { fixed.now.samples.now ≡ subject.now.samples.now }
    requires within { fixed.now.partition_order ≤ subject.now.most }
    requires greatest { (p : ℕ) → p ≤ subject.now.most → Halves
        fixed.now.order (left_by_fixed fixed.now.order subject.now.samples.now) p → p ≤ fixed.now.partition_order }
    requires arrays { HasRoom (length subject.now.samples.now) arrays.old }
    requires tables { HasPlaces subject.now.most tables.old }
    requires small { best.old.bits ≤ 2 ^ 60 }
    ensures best { GoesOnWith subject.now (PredictorKind.Fixed fixed.now.order) best.old tables.old best.new tables.new }
    ensures less { best.new.bits ≤ best.old.bits }
    ensures within { StaysWithin subject.now.most best.old best.new }
    ensures arrays { HasRoom (length subject.now.samples.now) arrays.new }
    ensures tables { HasPlaces subject.now.most tables.new }
    ensures same { tables.new.codings.ghost_name ≡ tables.old.codings.ghost_name }
    ensures priced { tables.new.priced ≤ tables.old.priced + for_samples 32 subject.now }
{
    let kind = PredictorKind::Fixed(fixed.order);
    let before = u64::from(subject.bits) * fixed.order as u64;
    let limit = limit(best, kind);
    if limit <= before {
        return;
    }
    let values = &mut *arrays.values;
    let folds = &mut *arrays.folds;
    if let Some(residual) = least_of_fixed(fixed, values, folds, tables, limit - before) {
        *best = Best {
            content: ContentKind::Predicted(kind),
            residual,
            bits: before + residual.bits,
        };
    }
}

/// Replaces the best so far by a fixed predictor, if that takes fewer bits.
fn improve_by_fixed(
    subject: &SampleView<'_>,
    order: usize,
    arrays: &mut SearchArrays<'_>,
    tables: &mut Tables<'_>,
    best: &mut Best,
)
    requires order { order ≤ 4 }
    requires arrays { HasRoom (length subject.now.samples.now) arrays.old }
    requires tables { HasPlaces subject.now.most tables.old }
    requires small { best.old.bits ≤ 2 ^ 60 }
    ensures best { GoesOnWith subject.now (PredictorKind.Fixed order) best.old tables.old best.new tables.new }
    ensures less { best.new.bits ≤ best.old.bits }
    ensures within { StaysWithin subject.now.most best.old best.new }
    ensures arrays { HasRoom (length subject.now.samples.now) arrays.new }
    ensures tables { HasPlaces subject.now.most tables.new }
    ensures same { tables.new.codings.ghost_name ≡ tables.old.codings.ghost_name }
    ensures coarse { subject.now.most ≤ 8 → tables.new.priced ≤ tables.old.priced + for_samples 32 subject.now }
    ensures priced { tables.new.priced ≤ tables.old.priced + for_samples 93 subject.now }
{
    let kind = PredictorKind::Fixed(order);
    let size = subject.samples.len();
    if !subject.narrow || size < 16 {
        improve(subject, kind, arrays, tables, best);
        return;
    }
    let left = &subject.narrowed[order..];
    let partition_order = greatest_partition_order(left, order, subject.most);
    if partition_order > COARSE || size != 16 * power(partition_order) {
        improve(subject, kind, arrays, tables, best);
        return;
    }
    let fixed = FixedView {
        samples: subject.narrowed,
        order,
        partition_order,
    };
    improve_by_sixteens(subject, &fixed, arrays, tables, best);
}

/// The first choice to compare with.
fn begin(samples: &[i64], bits: u32) -> Best
    requires some { 0 < length samples.now }
    requires few { length samples.now ≤ 65535 }
    requires bits { bits ≤ 33 }
    ensures best { IsBestOfNone bits samples.now result }
    ensures none { result.residual.partition_order ≡ 0 }
{
    let residual = ResidualForm::none();
    let width = u64::from(bits);
    if all_equal(samples) {
        Best {
            content: ContentKind::Constant,
            residual,
            bits: width,
        }
    } else {
        Best {
            content: ContentKind::Verbatim,
            residual,
            bits: width * samples.len() as u64,
        }
    }
}

/// The content of the fewest bits: constant, verbatim, a fixed predictor or one of the linear ones, with a partition
/// order up to the greatest. The codings of its residual are in their array.
fn search(subject: &SampleView<'_>, arrays: &mut SearchArrays<'_>, tables: &mut Tables<'_>) -> Best
    requires some { 0 < length subject.now.samples.now }
    requires arrays { HasRoom (length subject.now.samples.now) arrays.old }
    requires tables { HasPlaces subject.now.most tables.old }
    ensures best { IsBestOf subject.now (offered subject.now.predictors.now) result tables.new.codings.now }
    ensures within { result.residual.partition_order ≤ subject.now.most }
    ensures same { tables.new.codings.ghost_name ≡ tables.old.codings.ghost_name }
    ensures coarse { subject.now.most ≤ 8 → tables.new.priced ≤ tables.old.priced + for_each_of 32 subject.now }
    ensures priced { tables.new.priced ≤ tables.old.priced + for_each_of 93 subject.now }
{
    let mut best = begin(subject.samples, subject.bits);
    // linear ones first: they mostly take fewer bits, so that bounds rule out the fixed ones
    for index in 0..subject.predictors.len() {
        improve(
            subject,
            PredictorKind::Linear(index),
            arrays,
            tables,
            &mut best,
        );
    }
    let first = first_order(subject);
    improve_by_fixed(subject, first, arrays, tables, &mut best);
    for order in 0..5 {
        if order != first {
            improve_by_fixed(subject, order, arrays, tables, &mut best);
        }
    }
    best
}

/// The same by tables that are one after another in two arrays, and how often a value was priced.
fn search_within(
    subject: &SampleView<'_>,
    arrays: &mut SearchArrays<'_>,
    costs: &mut [u64],
    entries: &mut [Entry],
    widths: &mut [u8],
    codings: &mut [u8],
) -> (Best, u64)
    requires some { 0 < length subject.now.samples.now }
    requires arrays { HasRoom (length subject.now.samples.now) arrays.old }
    requires costs { 2 * 2 ^ subject.now.most ≤ length costs.old }
    requires entries { 4 * 2 ^ subject.now.most ≤ length entries.old }
    requires widths { 2 * 2 ^ subject.now.most ≤ length widths.old }
    requires codings { 2 ^ subject.now.most ≤ length codings.old }
    ensures best { IsBestOf subject.now (offered subject.now.predictors.now) result.0 codings.new }
    ensures within { result.0.residual.partition_order ≤ subject.now.most }
    ensures coarse { subject.now.most ≤ 8 → result.1 ≤ for_each_of 32 subject.now }
    ensures priced { result.1 ≤ for_each_of 93 subject.now }
{
    let count = power(subject.most);
    let (leaves, sums) = costs.split_at_mut(count);
    let (four, five) = entries.split_at_mut(2 * count);
    let mut tables = Tables {
        leaves,
        sums,
        four,
        five,
        widths,
        codings,
        priced: 0,
    };
    let best = search(subject, arrays, &mut tables);
    (best, tables.priced)
}

/// What a search finds: the subframe of the fewest bits, how many it takes, and how often a value was priced to find
/// it.
#[derive(Clone, Copy)]
pub(crate) struct Found {
    pub(crate) form: SubframeForm,
    pub(crate) bits: u64,
    pub(crate) priced: u64,
}

impl Task<'_> {
    /// The subframe of the fewest bits and how many it takes. The codings of its residual are the first of the bytes;
    /// the places after those for the codings are for the widths of partitions.
    pub(crate) fn choose_in_places(
        &self,
        longs: &mut [i64],
        shorts: &mut [i32],
        folds: &mut [u32],
        costs: &mut [u64],
        entries: &mut [Entry],
        bytes: &mut [u8],
    ) -> Found
        requires longs { 2 * length self.now.samples.now + 256 ≤ length longs.old }
        requires shorts { 2 * length self.now.samples.now + 256 ≤ length shorts.old }
        requires folds { length self.now.samples.now ≤ length folds.old }
        requires costs { 2 * 2 ^ self.now.most ≤ length costs.old }
        requires entries { 4 * 2 ^ self.now.most ≤ length entries.old }
        requires bytes { 3 * 2 ^ self.now.most ≤ length bytes.old }
        ensures least { IsShortestFor self.now (form_found self.now result bytes.new) }
        ensures bits { result.bits ≡ length (subframe_spelling self.now.depth (form_found self.now result bytes.new)) }
        ensures made { IsMadeFor self.now result bytes.new }
        ensures some { result.form.wasted < self.now.depth }
        ensures within { result.form.residual.partition_order ≤ self.now.most }
        // proof only
        ensures small { result.bits ≤ 2 ^ 61 }
        ensures coarse { self.now.most ≤ 8 → result.priced ≤ for_each 32 self.now.predictors.now self.now.samples.now }
        ensures priced { result.priced ≤ for_each 93 self.now.predictors.now self.now.samples.now }
    {
        let samples = self.samples;
        let count = samples.len();
        let (shortened, wide) = longs.split_at_mut(count + APART);
        let shortened = &mut shortened[..count];
        let (wasted, shortened) = without_wasted(samples, self.depth, shortened);
        let (narrowed, values) = shorts.split_at_mut(count + APART);
        let narrowed = &mut narrowed[..count];
        let narrow = narrow(shortened, narrowed);
        let peak = peak(narrowed, narrow, !self.predictors.is_empty());
        let subject = SampleView {
            samples: shortened,
            narrowed,
            bits: self.depth - wasted,
            most: self.most,
            predictors: self.predictors,
            narrow,
            peak,
        };
        let mut arrays = SearchArrays {
            wide,
            values,
            folds,
        };
        let (codings, widths) = bytes.split_at_mut(power(self.most));
        let (best, priced) = search_within(&subject, &mut arrays, costs, entries, widths, codings);
        let form = SubframeForm {
            wasted,
            content: best.content,
            residual: best.residual,
        };
        Found {
            form,
            bits: 8 + u64::from(wasted) + best.bits,
            priced,
        }
    }
}
