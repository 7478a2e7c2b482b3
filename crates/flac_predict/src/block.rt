//! What is known of a block, and the predictors of its autocorrelations.

ghost use Rattle.std.specs.Prelude.{◌≡◌, ◌≤◌, length, map, IfOk, IfSome, IfErr};
ghost use Rattle.flac_predict.specs.Found.{Extends, IsFoundAfter};
ghost use Rattle.flac_subframe.specs.format.Handed.{coefficients_in, predictor_of};

use crate::levinson::levinson_durbin;
use crate::quantised::quantise;
use flac_bits::Why;
use flac_subframe::LinearPredictor;
use std::alloc::Global;
use std::num::nearest_usize_to_f64;

/// What rounding a prediction to a whole number adds to the energy of a sample, about.
const NOISE: f64 = 0.02;

/// A block of samples: its bits per sample, and its samples of each channel. Coefficients have `precision` bits, which
/// saves most on average: fewer of long samples, whose residual is large.
#[derive(Clone, Copy)]
pub(crate) struct Block {
    depth: u32,
    precision: u32,
    size: usize,
}

/// A list of the same predictors.
fn copied(alloc: Global, given: &[LinearPredictor]) -> Result<Vec<LinearPredictor>, Why>
    ensures same { IfOk result (λ list. map predictor_of list.items ≡ map predictor_of given.now) }
    ensures memory { IfErr result (λ e. e ≡ Why.Memory) }
{
    let mut list = Vec::new(alloc);
    for predictor in given {
        list.push(predictor.clone()?)?;
    }
    Ok(list)
}

impl Block {
    /// A block of `size` samples of each channel, of `depth` bits.
    pub(crate) fn new(depth: u32, size: usize) -> Block
        ensures { result.size ≡ size }
    {
        Block {
            depth,
            precision: if depth > 16 { 12 } else { 14 },
            size,
        }
    }

    /// The predictor of the order that is likely to take the fewest bits, `None` if there is none.
    fn predictor(&self, sums: &[f64; 13]) -> Option<LinearPredictor>
        ensures { IfSome result (λ p. length (coefficients_in p) ≤ 12) }
    {
        let count = nearest_usize_to_f64(self.size);
        let mut noisy = *sums;
        noisy[0] += NOISE * count;
        let solutions = levinson_durbin(&noisy);
        let each = f64::from(self.depth) + f64::from(self.precision);
        let order = solutions.likely(count, each);
        if order == 0 {
            return None;
        }
        let row = solutions.rows[order - 1];
        let found = quantise(&row, order, self.precision)?;
        let coefficients = &found.coefficients[..order];
        LinearPredictor::new(self.precision, found.shift, coefficients)
    }

    /// Adds that predictor, if there is one.
    fn push_likely(&self, sums: &[f64; 13], list: &mut Vec<LinearPredictor>) -> Result<(), Why>
        ensures more { Extends list.old.items list.new.items }
        ensures memory { IfErr result (λ e. e ≡ Why.Memory) }
    {
        if let Some(predictor) = self.predictor(sums) {
            list.push(predictor)?;
        }
        Ok(())
    }

    /// The list of a plane: the given predictors, and after them those of its autocorrelations.
    pub(crate) fn list(
        &self,
        alloc: Global,
        given: &[LinearPredictor],
        windows: &[[f64; 13]],
    ) -> Result<Vec<LinearPredictor>, Why>
        ensures after { IfOk result (λ v. IsFoundAfter given.now v.items) }
        ensures memory { IfErr result (λ e. e ≡ Why.Memory) }
    {
        let mut list = copied(alloc, given)?;
        for sums in windows {
            self.push_likely(sums, &mut list)?;
        }
        Ok(list)
    }
}
