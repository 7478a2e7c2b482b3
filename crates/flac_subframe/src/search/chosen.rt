//! The shortest subframe of some samples.

ghost use Rattle.std.specs.Prelude.{◌≡◌, ◌<◌, ◌≤◌, ◌^◌, ◌+◌, ◌*◌, length, take, nat_eq, All};
ghost use Rattle.std.specs.Cmp.{partial_equiv_from_equiv};
ghost use Rattle.std.specs.Cmp.Lexicographic.{pointwise};
ghost use Rattle.std.proofs.lemmas.Cmp.{and_equiv, nat_eq_equiv, nat_list_eq_equiv, on_equiv};
ghost use Rattle.std.specs.Ordering.{on, eq_of_both};
ghost use Rattle.flac_bits.specs.Signed.{FitsBits};
ghost use Rattle.flac_subframe.specs.format.Chosen.{fixed_below, offered};
ghost use Rattle.flac_subframe.specs.search.Choices.{ChoosesAllowedWith, ChoosesShortestWith, IsAllowedFrom, IsMadeOf, IsMadeWith, IsShortest, RestoresWith, bytes_used, form_of, form_with};
ghost use Rattle.flac_subframe.specs.format.Handed.{AreWithin};
ghost use Rattle.flac_subframe.specs.format.Spelling.{subframe_spelling};
ghost use Rattle.flac_subframe.specs.format.Subframe.{samples_of};
ghost use Rattle.flac_subframe.specs.declared.format.limits.Limits.{Limits};
ghost use Rattle.flac_subframe.specs.search.inner.Views.{first_codings};

use crate::format::content::{ChoiceView, SubframeForm};
use crate::format::limits::Limits;
use crate::format::linear::LinearPredictor;
use crate::format::numbers::{APART, power};
use crate::search::choice::Found;
use crate::search::entry::Entry;
use crate::search::tables::filled;
use crate::search::view::Task;

/// The most codings of a residual, one for each partition.
const MOST_CODINGS: usize = 1 << MOST_PARTITION_ORDER;

/// How a subframe is written, with the codings that are in use, each as a byte, and how many bits it takes.
///
/// A linear predictor is named by its place in the list that was handed in, so a choice takes no more memory where
/// there are such lists. Two choices are equal if they are written in the same way with the same list, however much
/// work it took to find them.
#[derive(Drop, Clone, Debug)]
pub struct Choice {
    pub(crate) form: SubframeForm,
    /// The codings, and zeros after them.
    pub(crate) codings: [u8; MOST_CODINGS],
    bits: u64,
    priced: u64,
}

impl Choice {
    /// What a search found, with its codings, which are the first of an array.
    fn gathered(found: &Found, codings: &[u8]) -> Choice
        requires few { found.now.form.residual.partition_order ≤ 8 }
        requires places { 2 ^ found.now.form.residual.partition_order ≤ length codings.now }
        ensures form { result.form ≡ found.now.form }
        ensures codings { first_codings found.now.form result.codings ≡ first_codings found.now.form codings.now }
        ensures bits { result.bits ≡ found.now.bits }
        ensures priced { result.priced ≡ found.now.priced }
    {
        let used = power(found.form.residual.partition_order);
        let mut kept = [0; MOST_CODINGS];
        kept[..used].copy_from_slice(&codings[..used]);
        Choice {
            form: found.form,
            codings: kept,
            bits: found.bits,
            priced: found.priced,
        }
    }

    /// How many bits the subframe takes.
    pub fn bits(&self) -> u64
        ensures { result ≡ self.now.bits }
    {
        self.bits
    }

    /// How often the search computed one value's cost under one parameter, or its width. [`choose`] does so at most 32
    /// times for each sample and each of its five predictors.
    pub fn priced(&self) -> u64
        ensures { result ≡ self.now.priced }
    {
        self.priced
    }

    /// The same with its codings lent.
    pub(crate) fn lent(&self) -> ChoiceView<'_>
        ensures form { result.form ≡ self.now.form }
        ensures codings { result.codings.now ≡ bytes_used self.now }
    {
        let order = self
            .form
            .residual
            .partition_order
            .min(MOST_PARTITION_ORDER as u8);
        ChoiceView {
            form: self.form,
            codings: &self.codings[..power(order)],
        }
    }
}

impl PartialEq for Choice {
    ghost use Rattle.flac_subframe.specs.contracts.format.content.SubframeFormPartialEq.TheImpl as form;
    ghost use Rattle.flac_subframe.specs.contracts.format.content.SubframeFormEq.TheImpl.Laws.{laws-law};

    ghost eq = { eq_of_both (on (λ c. c.form) (form.ghosts).eq) (eq_of_both (on bytes_used (pointwise nat_eq)) (on (λ c. c.bits) nat_eq)) };

    ghost laws = { partial_equiv_from_equiv (and_equiv (on_equiv (λ c. c.form) laws-law) (and_equiv (on_equiv bytes_used nat_list_eq_equiv) (on_equiv (λ c. c.bits) nat_eq_equiv))) };

    fn eq(&self, other: &Choice) -> bool {
        self.form == other.form
            && self.lent().codings == other.lent().codings
            && self.bits == other.bits
    }
}

impl Eq for Choice {
    ghost use Rattle.flac_subframe.specs.contracts.format.content.SubframeFormEq.TheImpl.Laws.{laws-law};

    ghost laws = { and_equiv (on_equiv (λ c. c.form) laws-law) (and_equiv (on_equiv bytes_used nat_list_eq_equiv) (on_equiv (λ c. c.bits) nat_eq_equiv)) };
}

/// The greatest partition order that is tried, as the subset allows.
pub const MOST_PARTITION_ORDER: u32 = 8;

/// The most samples that a block has.
pub(crate) const MOST_SAMPLES: usize = 65535;

/// The subframe of the fewest bits for 1 to 65535 samples of a depth of 1 to 33 bits (RFC 9639, section 9.2).
///
/// The family is constant, verbatim, and the fixed predictors of order 0 to 4 with either coding method, partition
/// orders up to 8 and every parameter and escape; the wasted bits are as many as all samples lack. Among equals the
/// first of this order is chosen.
///
/// The work is done in arrays of 1.9 MB on the stack. For many blocks [`crate::choose_in`] takes arrays that are used
/// again.
pub fn choose(samples: &[i64], depth: u32) -> Choice
    requires some { 0 < length samples.now }
    requires few { length samples.now ≤ 65535 }
    requires depth { (1 ≤ depth) × (depth ≤ 33) }
    requires fits { All (FitsBits depth) samples.now }
    ensures least { IsShortest 8 (fixed_below 5) depth samples.now (form_of result samples.now) }
    ensures bits { result.bits ≡ length (subframe_spelling depth (form_of result samples.now)) }
    ensures made { IsMadeOf result samples.now }
    ensures valid { IsAllowedFrom 8 depth samples.now (form_of result samples.now) }
    ensures restored { samples_of depth (length samples.now) (form_of result samples.now) ≡ Some samples.now }
    ensures small { result.bits ≤ 2 ^ 61 }
    ensures priced { result.priced ≤ 5 * (32 * length samples.now) }
{
    let limits = Limits {
        partition: MOST_PARTITION_ORDER,
        linear: 0,
    };
    choose_with(samples, depth, &limits, &[])
}

/// The subframe of the fewest bits for 1 to 65535 samples of a depth of 1 to 33 bits, with linear predictors beside the
/// fixed ones (RFC 9639, section 9.2).
///
/// The family of [`choose`], with partition orders up to the limit, at most 8, gains the linear form of each predictor,
/// with either coding method, every partition order up to the limit, and every parameter and escape, if the predictor's
/// order is below the number of samples and each residual value is above -2^31 and below 2^31. The orders are within
/// the limit. Among equals a linear form comes after the others, and the first of the list before the next. With no
/// predictor and a limit of 8 it chooses what [`choose`] does.
///
/// The work is done in arrays of 1.9 MB on the stack. For many blocks [`crate::choose_in`] takes arrays that are used
/// again.
pub fn choose_with(
    samples: &[i64],
    depth: u32,
    limits: &Limits,
    predictors: &[LinearPredictor],
) -> Choice
    requires some { 0 < length samples.now }
    requires few { length samples.now ≤ 65535 }
    requires depth { (1 ≤ depth) × (depth ≤ 33) }
    requires fits { All (FitsBits depth) samples.now }
    requires partition { limits.now.partition ≤ 8 }
    requires orders { AreWithin limits.now.linear predictors.now }
    ensures least { ChoosesShortestWith limits.now.partition predictors.now result depth samples.now }
    ensures bits { result.bits ≡ length (subframe_spelling depth (form_with predictors.now result samples.now)) }
    ensures made { IsMadeWith predictors.now result samples.now }
    ensures valid { ChoosesAllowedWith limits.now.partition predictors.now result depth samples.now }
    ensures restored { RestoresWith predictors.now result depth samples.now }
    ensures small { result.bits ≤ 2 ^ 61 }
    ensures priced { result.priced ≤ (5 + length predictors.now) * (32 * length samples.now) }
{
    let mut longs: [i64; 2 * MOST_SAMPLES + APART] = filled(0);
    let mut shorts: [i32; 2 * MOST_SAMPLES + APART] = filled(0);
    let mut folds: [u32; MOST_SAMPLES] = filled(0);
    let mut costs = [0; 512];
    let mut entries: [Entry; 1024] = filled(Entry::none());
    let mut bytes = [0; 768];
    let task = Task {
        samples,
        depth,
        most: limits.partition as u8,
        predictors,
    };
    let found = task.choose_in_places(
        &mut longs,
        &mut shorts,
        &mut folds,
        &mut costs,
        &mut entries,
        &mut bytes,
    );
    Choice::gathered(&found, &bytes)
}
