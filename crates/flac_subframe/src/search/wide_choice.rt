//! The shortest subframe of some samples, with partition orders up to 15, worked out in arrays that are made once.

ghost use Rattle.std.specs.Prelude.{◌≡◌, ◌<◌, ◌≤◌, ◌+◌, ◌*◌, ◌^◌, ℤ, List, length, take, All, IfOk, IfErr, vec_len};
ghost use Rattle.flac_bits.specs.Signed.{FitsBits};
ghost use Rattle.flac_bits.specs.Written.{Writes};
ghost use Rattle.flac_bits.specs.declared.why.Why.{Why};
ghost use Rattle.flac_subframe.specs.format.Chosen.{offered};
ghost use Rattle.flac_subframe.specs.search.Choices.{ChoosesAllowedIn, ChoosesShortestIn, IsMadeIn, RestoresIn, bytes_kept, for_each, form_in, spelling_in};
ghost use Rattle.flac_subframe.specs.format.Handed.{AreWithin};
ghost use Rattle.flac_subframe.specs.format.Spelling.{subframe_spelling};
ghost use Rattle.flac_subframe.specs.format.Subframe.{samples_of};
ghost use Rattle.flac_subframe.specs.search.inner.Views.{first_codings, FitsExactly, HasFormsOf, IsMadeLike};

use crate::format::content::{ChoiceView, ContentKind, SubframeForm};
use crate::format::limits::Limits;
use crate::format::linear::LinearPredictor;
use crate::format::numbers::power;
use crate::format::residual_form::ResidualForm;
use crate::format::writing::write_chosen;
use crate::search::view::Task;
use crate::search::workspace::Workspace;
use flac_bits::{BitWriter, Target, Why};
use std::alloc::Global;

/// How a subframe is written, in a place that is made once for partition orders up to some greatest, and then takes one
/// choice after another. It keeps one byte for each partition.
///
/// A linear predictor is named by its place in the list that was handed in.
pub struct WideChoice {
    pub(crate) form: SubframeForm,
    pub(crate) codings: Vec<u8>,
    bits: u64,
    priced: u64,
}

impl Drop for WideChoice {
    fn drop(self) {
        let WideChoice {
            form: _,
            codings: _,
            bits: _,
            priced: _,
        } = self;
    }
}

impl WideChoice {
    /// A place for choices with partition orders up to that of the limits, at most 15. Until one is made in it, it has
    /// the constant subframe of samples that are all 0 and have one bit.
    ///
    /// # Errors
    /// [`Why::Memory`] if an allocation fails.
    pub fn new(alloc: Global, limits: &Limits) -> Result<WideChoice, Why>
        requires { limits.now.partition ≤ 15 }
        ensures ok { IfOk result (λ c. vec_len c.codings ≡ 2 ^ limits.now.partition) }
        ensures bits { IfOk result (λ c. c.bits ≡ 9) }
        ensures priced { IfOk result (λ c. c.priced ≡ 0) }
        ensures err { IfErr result (λ e. e ≡ Why.Memory) }
    {
        let codings = vec![in alloc; 0u8; power(limits.partition as u8)]?;
        Ok(WideChoice {
            form: SubframeForm {
                wasted: 0,
                content: ContentKind::Constant,
                residual: ResidualForm::none(),
            },
            codings,
            bits: 9,
            priced: 0,
        })
    }

    /// How many bits the subframe takes.
    pub fn bits(&self) -> u64
        ensures { result ≡ self.now.bits }
    {
        self.bits
    }

    /// How often the search computed one value's cost under one parameter, or its width; 0 until a choice is made.
    pub fn priced(&self) -> u64
        ensures { result ≡ self.now.priced }
    {
        self.priced
    }

    /// The codings that the choice has, the first of its places.
    fn codings_used(&self) -> &[u8]
        ensures same { first_codings self.now.form result.now ≡ first_codings self.now.form self.now.codings.items }
        ensures exact { FitsExactly self.now (length result.now) }
    {
        let places = self.codings.len();
        if self.form.residual.partition_order > 15 {
            return &self.codings;
        }
        &self.codings[..power(self.form.residual.partition_order).min(places)]
    }

    /// A copy of the choice with places for just its own codings, one byte for each partition. A copy of which the rest
    /// is not needed takes so much less memory than a place for any choice; it can be written as this one is.
    ///
    /// # Errors
    /// [`Why::Memory`] if an allocation fails.
    pub fn kept(&self, alloc: Global) -> Result<WideChoice, Why>
        ensures same { IfOk result (λ c. HasFormsOf c self.now) }
        ensures made { IfOk result (λ c. IsMadeLike c self.now) }
        ensures bits { IfOk result (λ c. c.bits ≡ self.now.bits) }
        ensures priced { IfOk result (λ c. c.priced ≡ self.now.priced) }
        ensures exact { IfOk result (λ c. FitsExactly self.now (vec_len c.codings)) }
        ensures memory { IfErr result (λ e. e ≡ Why.Memory) }
    {
        let used = self.codings_used();
        let mut codings = vec![in alloc; 0u8; used.len()]?;
        codings.copy_from_slice(used);
        Ok(WideChoice {
            form: self.form,
            codings,
            bits: self.bits,
            priced: self.priced,
        })
    }

    /// The same with its codings lent.
    fn lent(&self) -> ChoiceView<'_>
        requires few { self.now.form.residual.partition_order ≤ 15 }
        requires places { 2 ^ self.now.form.residual.partition_order ≤ vec_len self.now.codings }
        ensures form { result.form ≡ self.now.form }
        ensures codings { result.codings.now ≡ bytes_kept self.now }
    {
        ChoiceView {
            form: self.form,
            codings: &self.codings[..power(self.form.residual.partition_order)],
        }
    }
}

/// Copies the first bytes of an array to the first places.
fn copy_first(bytes: &[u8], count: usize, places: &mut [u8])
    requires some { count ≤ length bytes.now }
    requires room { count ≤ length places.old }
    ensures { take count places.new ≡ take count bytes.now }
{
    places[..count].copy_from_slice(&bytes[..count]);
}

/// Chooses the subframe of the fewest bits for samples of a depth of 1 to 33 bits, with partition orders up to that of
/// the limits, at most 15, and puts it into the place of a choice (RFC 9639, section 9.2.7).
///
/// The family is that of [`crate::choose_with`], with the partition orders that the limits allow: constant, verbatim,
/// the fixed predictors of order 0 to 4 and the linear ones that are handed in, with either coding method and every
/// parameter and escape; the wasted bits are as many as all samples lack. Among equals the first of this order is
/// chosen. The samples are 1 or more and at most as many as the workspace was made for; the workspace and the place
/// were made for partition orders up to that of the limits or above. It takes no memory.
pub fn choose_in(
    samples: &[i64],
    depth: u32,
    limits: &Limits,
    predictors: &[LinearPredictor],
    workspace: &mut Workspace,
    choice: &mut WideChoice,
)
    requires some { 0 < length samples.now }
    requires block { length samples.now ≤ workspace.old.block }
    requires depth { (1 ≤ depth) × (depth ≤ 33) }
    requires fits { All (FitsBits depth) samples.now }
    requires partition { limits.now.partition ≤ workspace.old.most }
    requires places { 2 ^ limits.now.partition ≤ vec_len choice.old.codings }
    requires orders { AreWithin limits.now.linear predictors.now }
    ensures least { ChoosesShortestIn limits.now.partition predictors.now choice.new depth samples.now }
    ensures bits { choice.new.bits ≡ length (subframe_spelling depth (form_in predictors.now choice.new samples.now)) }
    ensures made { IsMadeIn predictors.now choice.new samples.now }
    ensures valid { ChoosesAllowedIn limits.now.partition predictors.now choice.new depth samples.now }
    ensures restored { RestoresIn predictors.now choice.new depth samples.now }
    ensures small { choice.new.bits ≤ 2 ^ 61 }
    ensures priced { limits.now.partition ≤ 8 → choice.new.priced ≤ for_each 32 predictors.now samples.now }
    ensures priced_bound { choice.new.priced ≤ for_each 93 predictors.now samples.now }
    ensures places { vec_len choice.new.codings ≡ vec_len choice.old.codings }
    ensures room { workspace.new ≡ workspace.old }
{
    let _most = workspace.most; // for the proof alone: what holds of every workspace
    let task = Task {
        samples,
        depth,
        most: limits.partition as u8,
        predictors,
    };
    let found = task.choose_in_places(
        &mut workspace.longs,
        &mut workspace.shorts,
        &mut workspace.folds,
        &mut workspace.costs,
        &mut workspace.entries,
        &mut workspace.bytes,
    );
    let count = power(found.form.residual.partition_order);
    copy_first(&workspace.bytes, count, &mut choice.codings);
    choice.form = found.form;
    choice.bits = found.bits;
    choice.priced = found.priced;
}

/// Writes the subframe that [`choose_in`] chose for samples of a depth (RFC 9639, section 9.2).
///
/// The choice is one that was made of these samples at this depth with just these predictors, and the workspace was
/// made for blocks of as many samples or more. It takes no memory.
///
/// # Errors
/// [`Why::Write`] if the target fails.
pub fn write_subframe_in<W: Target>(
    choice: &WideChoice,
    predictors: &[LinearPredictor],
    samples: &[i64],
    depth: u32,
    workspace: &mut Workspace,
    writer: &mut BitWriter<W>,
) -> Result<(), Why>
    requires some { 0 < length samples.now }
    requires block { length samples.now ≤ workspace.old.block }
    requires depth { (1 ≤ depth) × (depth ≤ 33) }
    requires fits { All (FitsBits depth) samples.now }
    requires made { IsMadeIn predictors.now choice.now samples.now }
    ensures text { Writes (spelling_in predictors.now choice.now depth samples.now) writer.old writer.new result }
    ensures room { workspace.new ≡ workspace.old }
{
    write_chosen(
        &choice.lent(),
        predictors,
        samples,
        depth,
        &mut workspace.longs,
        &mut workspace.shorts,
        writer,
    )
}
