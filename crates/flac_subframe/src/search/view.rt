//! What the search reads: the samples of a subframe, and the residual of one predictor.

ghost use Rattle.std.specs.Prelude.{◌≡◌, ◌<◌, ◌≤◌, ◌^◌, ◌+◌, ℕ, length, map, All, IsTrue};
ghost use Rattle.std.specs.Int.RustNames.{unsigned_abs};
ghost use Rattle.flac_bits.specs.Signed.{FitsBits};
ghost use Rattle.flac_bits.specs.Rice.{IsResidual, folded};
ghost use Rattle.flac_subframe.specs.format.Numbers.{sample_at};
ghost use Rattle.flac_subframe.specs.search.inner.Halves.{Halves};

use crate::format::content::PredictorKind;
use crate::format::linear::LinearPredictor;

/// What is searched for: the subframe of the fewest bits for samples of a depth, with partition orders up to the
/// greatest and with linear predictors beside the fixed ones.
#[derive(Drop)]
pub(crate) struct Task<'a> {
    pub(crate) samples: &'a [i64],
    pub(crate) depth: u32,
    pub(crate) most: u8,
    pub(crate) predictors: &'a [LinearPredictor],
    ghost some: { 0 < length samples.now },
    ghost few: { length samples.now ≤ 65535 },
    ghost positive: { 1 ≤ depth },
    ghost deep: { depth ≤ 33 },
    ghost fits: { All (FitsBits depth) samples.now },
    ghost halved: { most ≤ 15 },
}

/// A residual whose codings are searched: its values, the same as unsigned numbers, the order of its predictor, and the
/// greatest partition order that is searched, which the block can have.
#[derive(Drop)]
pub(crate) struct ResidualView<'a> {
    pub(crate) values: &'a [i32],
    pub(crate) folds: &'a [u32],
    pub(crate) order: usize,
    pub(crate) partition_order: u8,
    ghost few: { length values.now + order ≤ 65535 },
    ghost range: { All IsResidual values.now },
    ghost unsigned: { folds.now ≡ map folded values.now },
    ghost small: { All (λ n. n < 2 ^ 32) folds.now },
    ghost long: { length folds.now ≡ length values.now },
    ghost most: { partition_order ≤ 15 },
    ghost halves: { Halves order values.now partition_order },
}

impl ResidualView<'_> {
    /// The same at a coarser partition order.
    pub(crate) fn at(&self, partition_order: u8) -> ResidualView<'_>
        requires { partition_order ≤ self.now.partition_order }
        ensures values { result.values.now ≡ self.now.values.now }
        ensures folds { result.folds.now ≡ self.now.folds.now }
        ensures order { result.order ≡ self.now.order }
        ensures partition_order { result.partition_order ≡ partition_order }
    {
        ResidualView {
            values: self.values,
            folds: self.folds,
            order: self.order,
            partition_order,
        }
    }
}

/// The samples of a subframe without its wasted bits: how many bits each has, the greatest partition order and the
/// linear predictors that are tried, and whether each sample has so few bits that what a fixed predictor leaves is in
/// the range of a residual; if so, also the samples in 32 bits each, and how far from 0 they are at most.
#[derive(Drop)]
pub(crate) struct SampleView<'a> {
    pub(crate) samples: &'a [i64],
    pub(crate) narrowed: &'a [i32],
    pub(crate) bits: u32,
    pub(crate) most: u8,
    pub(crate) predictors: &'a [LinearPredictor],
    pub(crate) narrow: bool,
    pub(crate) peak: u32,
    ghost few: { length samples.now ≤ 65535 },
    ghost depth: { bits ≤ 33 },
    ghost halved: { most ≤ 15 },
    ghost fits: { All (FitsBits 33) samples.now },
    ghost leaves: { IsTrue narrow → All (FitsBits 27) samples.now },
    ghost same: { IsTrue narrow → narrowed.now ≡ samples.now },
    ghost peaked: { IsTrue narrow → (i : ℕ) → unsigned_abs (sample_at narrowed.now i) ≤ peak },
}

impl SampleView<'_> {
    ghost use Rattle.std.specs.Prelude.{◌≡◌, ◌≤◌, length};
    ghost use Rattle.flac_subframe.specs.format.Bodies.{coefficients_of, fields_cost};
    ghost use Rattle.flac_subframe.specs.format.Chosen.{IsNamed, predictor_named};

    /// The order of a predictor.
    pub(crate) fn order(&self, kind: PredictorKind) -> usize
        requires { IsNamed self.now.predictors.now kind }
        ensures value { result ≡ length (coefficients_of (predictor_named self.now.predictors.now kind)) }
        ensures few { result ≤ 32 }
    {
        match kind {
            PredictorKind::Fixed(order) => order,
            PredictorKind::Linear(index) => self.predictors[index].order(),
        }
    }

    /// The bits of a predictor's own fields in a subframe: those of its precision, shift and coefficients; a fixed one
    /// has none.
    pub(crate) fn field_bits(&self, kind: PredictorKind) -> u64
        requires { IsNamed self.now.predictors.now kind }
        ensures value { result ≡ fields_cost (predictor_named self.now.predictors.now kind) }
        // proof only
        ensures small { result ≤ 1024 }
    {
        match kind {
            PredictorKind::Fixed(_) => 0,
            PredictorKind::Linear(index) => self.predictors[index].field_bits(),
        }
    }
}
