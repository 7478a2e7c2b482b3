//! Linear predictors that a caller hands in.

ghost use Rattle.std.specs.Prelude.{◌≡◌, ◌<◌, ◌≤◌, ◌↔◌, length, take, nat_eq, All, IsTrue, IsSome, IfSome};
ghost use Rattle.std.specs.Cmp.{partial_equiv_from_equiv};
ghost use Rattle.std.specs.Cmp.Lexicographic.{pointwise};
ghost use Rattle.std.specs.Ordering.{on, eq_of_both, int_eq};
ghost use Rattle.std.proofs.lemmas.Cmp.{and_equiv, nat_eq_equiv, int_eq_equiv, lists_equiv, on_equiv};
ghost use Rattle.flac_bits.specs.Signed.{FitsBits};

use crate::format::numbers::fits_bits;
use std::alloc::AllocError;

/// The most coefficients that a linear predictor has.
const MOST_COEFFICIENTS: usize = 32;

/// A linear predictor: the precision of its coefficients in bits, the shift, and the coefficients, the one for the
/// nearest sample first (RFC 9639, section 9.2.6).
#[derive(Drop, Debug)]
pub struct LinearPredictor {
    precision: u8,
    shift: u8,
    /// How many coefficients it has.
    order: u8,
    /// The coefficients, and zeros after them.
    places: [i32; MOST_COEFFICIENTS],
    ghost some_bits: { 1 ≤ precision },
    ghost few_bits: { precision ≤ 15 },
    ghost small_shift: { shift ≤ 15 },
    ghost placed: { order ≤ 32 },
    ghost some: { 0 < length (take order places) },
    ghost few: { length (take order places) ≤ 32 },
    ghost fit: { All (FitsBits precision) (take order places) },
}

/// Whether each coefficient has a two's complement form of as many bits as the precision.
fn all_fit(coefficients: &[i32], precision: u8) -> bool
    requires positive { 1 ≤ precision }
    requires small { precision ≤ 15 }
    ensures { IsTrue result ↔ All (FitsBits precision) coefficients.now }
{
    for coefficient in coefficients {
        if !fits_bits(i64::from(*coefficient), u32::from(precision)) {
            return false;
        }
    }
    true
}

/// The coefficients in an array of their own, before zeros.
fn placed(coefficients: &[i32]) -> [i32; MOST_COEFFICIENTS]
    requires { length coefficients.now ≤ 32 }
    ensures { take (length coefficients.now) result ≡ coefficients.now }
{
    let mut places = [0; MOST_COEFFICIENTS];
    places[..coefficients.len()].copy_from_slice(coefficients);
    places
}

impl LinearPredictor {
    ghost use Rattle.flac_subframe.specs.format.Bodies.{linear, fields_cost};
    ghost use Rattle.flac_subframe.specs.format.Handed.{coefficients_in, predictor_of, AreWithin, IsPredictor};

    /// Makes a predictor of a precision of 1 to 15 bits, a shift of 0 to 15, and 1 to 32 coefficients that fit into as
    /// many bits as the precision, that of the nearest sample first (RFC 9639, section 9.2.6). `None` if one of these
    /// does not hold. It allocates nothing.
    ///
    /// ```
    /// let doubled = LinearPredictor::new(3, 0, &[2, -1]);
    /// assert!(doubled.is_some());
    /// // One bit has -1 and 0 alone.
    /// assert!(LinearPredictor::new(1, 0, &[1]).is_none());
    /// ```
    pub fn new(precision: u32, shift: u32, coefficients: &[i32]) -> Option<LinearPredictor>
        ensures some { IfSome result (λ p. predictor_of p ≡ linear precision shift coefficients.now) }
        ensures only { IsSome result ↔ IsPredictor precision shift coefficients.now }
    {
        if precision < 1 || precision > 15 || shift > 15 {
            return None;
        }
        if coefficients.is_empty() || coefficients.len() > MOST_COEFFICIENTS {
            return None;
        }
        if !all_fit(coefficients, precision as u8) {
            return None;
        }
        Some(LinearPredictor {
            precision: precision as u8,
            shift: shift as u8,
            order: coefficients.len() as u8,
            places: placed(coefficients),
        })
    }

    /// Whether the order of each predictor is within a limit.
    pub fn are_within(predictors: &[LinearPredictor], limit: u32) -> bool
        ensures { IsTrue result ↔ AreWithin limit predictors.now }
    {
        for predictor in predictors {
            if predictor.order() > limit as usize {
                return false;
            }
        }
        true
    }

    /// How many coefficients it has, 1 to 32, and how many warm-up samples.
    pub fn order(&self) -> usize
        ensures value { result ≡ length (coefficients_in self.now) }
        ensures some { 0 < result }
        ensures few { result ≤ 32 }
    {
        usize::from(self.order)
    }

    /// The bits of each coefficient, 1 to 15.
    pub fn precision(&self) -> u32
        ensures value { result ≡ self.now.precision }
        ensures some { 1 ≤ result }
        ensures few { result ≤ 15 }
    {
        u32::from(self.precision)
    }

    /// By how many bits the sum of products is shifted to the right, 0 to 15.
    pub fn shift(&self) -> u32
        ensures value { result ≡ self.now.shift }
        ensures few { result ≤ 15 }
    {
        u32::from(self.shift)
    }

    /// The coefficients, that of the nearest sample first.
    pub fn coefficients(&self) -> &[i32]
        ensures value { result.now ≡ coefficients_in self.now }
        ensures few { length result.now ≤ 32 }
        ensures fit { All (FitsBits 15) result.now }
    {
        &self.places[..usize::from(self.order)]
    }

    /// How many bits its precision, its shift and its coefficients take in a subframe.
    pub(crate) fn field_bits(&self) -> u64
        ensures value { result ≡ fields_cost (predictor_of self.now) }
        // proof only
        ensures small { result ≤ 1024 }
    {
        9 + u64::from(self.precision) * self.order() as u64
    }

    /// The same predictor once more.
    pub(crate) fn copy(&self) -> LinearPredictor
        ensures { predictor_of result ≡ predictor_of self.now }
    {
        LinearPredictor {
            precision: self.precision,
            shift: self.shift,
            order: self.order,
            places: self.places,
        }
    }
}

impl PartialEq for LinearPredictor {
    ghost use Rattle.flac_subframe.specs.format.Handed.{coefficients_in};

    ghost eq = { eq_of_both (on (λ p. p.precision) nat_eq) (eq_of_both (on (λ p. p.shift) nat_eq) (on coefficients_in (pointwise int_eq))) };

    ghost laws = { partial_equiv_from_equiv (and_equiv (on_equiv (λ p. p.precision) nat_eq_equiv) (and_equiv (on_equiv (λ p. p.shift) nat_eq_equiv) (on_equiv coefficients_in (lists_equiv int_eq_equiv)))) };

    fn eq(&self, other: &LinearPredictor) -> bool {
        self.precision == other.precision
            && self.shift == other.shift
            && self.coefficients() == other.coefficients()
    }
}

impl Eq for LinearPredictor {
    ghost use Rattle.flac_subframe.specs.format.Handed.{coefficients_in};

    ghost laws = { and_equiv (on_equiv (λ p. p.precision) nat_eq_equiv) (and_equiv (on_equiv (λ p. p.shift) nat_eq_equiv) (on_equiv coefficients_in (lists_equiv int_eq_equiv))) };
}

impl Clone for LinearPredictor {
    ghost use Rattle.flac_subframe.specs.format.Handed.{predictor_of};
    ghost use Rattle.std.specs.Prelude.{⊤};

    ghost is_clone = { λ p q. predictor_of q ≡ predictor_of p };

    ghost is_infallible = { λ p. ⊤ };

    fn clone(&self) -> Result<LinearPredictor, AllocError> {
        Ok(self.copy())
    }
}
