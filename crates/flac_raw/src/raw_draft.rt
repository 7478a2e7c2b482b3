//! The draft of a second pass over raw samples, native or in Ogg.

ghost use Rattle.std.specs.Prelude.{◌≡◌, ◌≢◌, true, None, IfOk, IfErr, OnOk};
ghost use Rattle.flac_encoder.specs.Pushing.{shape_fault, block_channels, push_fault, IsAfterBlock, IsFirst, StaysKnown, Fails, trying, trying_fault};
ghost use Rattle.flac_draft.specs.Draft.{BeginsDraft, StaysDraft, finish_fault};
ghost use Rattle.flac_draft.specs.OggDraft.{trying_draft, BeginsOggDraft, StaysOggDraft};
ghost use Rattle.flac_draft.specs.Table.{StaysStated};
ghost use Rattle.flac_raw.specs.Planned.{table_fault};
ghost use Rattle.flac_raw.specs.Encoded.{IsOutside, FailsLeft, container_fault};
ghost use Rattle.flac_raw.specs.inner.Pushed.{finished_as, IsBegun, draft_in, container_in, BeginsDraftIn, GoesOnIn, FinishesIn};
ghost use Rattle.flac_raw.specs.declared.raw_fault.RawEncodeFault.TheVariants.{Encode};
ghost use Rattle.flac_jobs.specs.declared.formats.ContainerKind.TheVariants as kind;

use crate::raw_fault::RawEncodeFault;
use crate::raw_plan::RawPlan;
use flac_draft::{DraftEncoder, DraftFault, OggDraftEncoder, Rewritable, Unfinished};
use flac_encoder::StreamFormat;
use flac_jobs::ContainerKind;
use flac_meta::BlockList;
use flac_native::EncodeFault;
use flac_subframe::LinearPredictor;
use std::alloc::Global;

/// Why it stops if the draft is not finished.
fn finished_as(fault: DraftFault) -> RawEncodeFault
    ensures { result ≡ finished_as fault }
{
    match fault {
        DraftFault::Encode(fault) => RawEncodeFault::Encode(fault),
        DraftFault::OtherTotal => RawEncodeFault::Changed,
    }
}

/// Sets predictors that can be tried.
fn try_predictors<W: Rewritable + Drop>(
    encoder: &mut DraftEncoder<W>,
    predictors: Vec<LinearPredictor>,
)
    requires { trying_fault encoder.old.pushed predictors.items ≡ None }
    ensures set { encoder.new ≡ record encoder.old { pushed = trying encoder.old.pushed predictors.items } }
    ensures stays { StaysDraft W.Target encoder.old encoder.new }
{
    match encoder.set_predictors(predictors) {
        Ok(()) => {}
        Err(_) => unreachable!(),
    }
}

/// Begins the draft of a plan for a native stream.
fn begun<W: Rewritable + Drop>(
    alloc: Global,
    plan: RawPlan,
    list: BlockList,
    target: W,
) -> Result<DraftEncoder<W>, EncodeFault>
    ensures begun { IfOk result (λ e. IsBegun plan list e) }
    ensures draft { IfOk result (λ e. BeginsDraft W.Target target e) }
    ensures shape { IfOk result (λ e. shape_fault e.pushed.shape ≡ None) }
    ensures known { IfOk result (λ e. W.known target ≡ true → W.known e.pushed.target ≡ true) }
    ensures counted { IfOk result (λ e. W.errors e.pushed.target ≡ W.errors target) }
    ensures names { IfOk result (λ e. W.names e.pushed.target ≡ W.names target) }
    ensures accepted { OnOk result (table_fault plan list ≡ None) }
    ensures refused { IfErr result (λ e. IsFirst (table_fault plan list) e) }
    ensures failed { IfErr result (λ e. FailsLeft W.Target target (Encode e)) }
{
    let RawPlan {
        profile,
        format,
        total,
        predictors,
        search,
    } = plan;
    let shape = StreamFormat {
        profile,
        rate: format.rate,
        bits: format.bits,
        channels: format.channels,
        block_size: format.block,
    };
    let every = format.seek_every;
    let mut encoder = DraftEncoder::new_with_table(alloc, &shape, list, total, every, target)?;
    try_predictors(&mut encoder, predictors);
    encoder.set_search(search)?;
    Ok(encoder)
}

/// Sets predictors that can be tried, in Ogg.
fn try_in_ogg<W: Rewritable + Drop>(
    encoder: &mut OggDraftEncoder<W>,
    predictors: Vec<LinearPredictor>,
)
    requires { trying_fault encoder.old.draft.pushed predictors.items ≡ None }
    ensures set { encoder.new ≡ trying_draft encoder.old predictors.items }
    ensures stays { StaysOggDraft W.Target encoder.old encoder.new }
{
    match encoder.set_predictors(predictors) {
        Ok(()) => {}
        Err(_) => unreachable!(),
    }
}

/// Begins the draft of a plan in Ogg.
fn begun_in_ogg<W: Rewritable + Drop>(
    alloc: Global,
    serial: u32,
    plan: RawPlan,
    list: BlockList,
    target: W,
) -> Result<OggDraftEncoder<W>, EncodeFault>
    ensures begun { IfOk result (λ e. IsBegun plan list e.draft) }
    ensures serial { IfOk result (λ e. e.serial ≡ serial) }
    ensures draft { IfOk result (λ e. BeginsOggDraft W.Target target e) }
    ensures shape { IfOk result (λ e. shape_fault e.draft.pushed.shape ≡ None) }
    ensures known { IfOk result (λ e. W.known target ≡ true → W.known e.draft.pushed.target ≡ true) }
    ensures counted { IfOk result (λ e. W.errors e.draft.pushed.target ≡ W.errors target) }
    ensures names { IfOk result (λ e. W.names e.draft.pushed.target ≡ W.names target) }
    ensures accepted { OnOk result (container_fault (kind.Ogg serial) plan list ≡ None) }
    ensures refused { IfErr result (λ e. IsFirst (container_fault (kind.Ogg serial) plan list) e) }
    ensures failed { IfErr result (λ e. FailsLeft W.Target target (Encode e)) }
{
    let RawPlan {
        profile,
        format,
        predictors,
        search,
        ..
    } = plan;
    if format.seek_every > 0 {
        return Err(EncodeFault::BadMapping);
    }
    let shape = StreamFormat {
        profile,
        rate: format.rate,
        bits: format.bits,
        channels: format.channels,
        block_size: format.block,
    };
    let mut encoder = OggDraftEncoder::new_in(alloc, serial, &shape, list, target)?;
    try_in_ogg(&mut encoder, predictors);
    encoder.set_search(search)?;
    Ok(encoder)
}

/// The draft of a second pass.
#[derive(Drop)]
pub(crate) enum RawDraft<W: Rewritable> {
    Native(DraftEncoder<W>),
    Ogg(OggDraftEncoder<W>),
}

impl<W: Rewritable + Drop> RawDraft<W> {
    /// Begins the draft of a plan.
    pub(crate) fn begin(
        alloc: Global,
        container: ContainerKind,
        plan: RawPlan,
        list: BlockList,
        target: W,
    ) -> Result<RawDraft<W>, EncodeFault>
        ensures begun { IfOk result (λ d. IsBegun plan list (draft_in d)) }
        ensures container { IfOk result (λ d. container_in d ≡ container) }
        ensures draft { IfOk result (λ d. BeginsDraftIn W.Target target d) }
        ensures shape { IfOk result (λ d. shape_fault (draft_in d).pushed.shape ≡ None) }
        ensures known { IfOk result (λ d. W.known target ≡ true → W.known (draft_in d).pushed.target ≡ true) }
        ensures counted { IfOk result (λ d. W.errors (draft_in d).pushed.target ≡ W.errors target) }
        ensures names { IfOk result (λ d. W.names (draft_in d).pushed.target ≡ W.names target) }
        ensures accepted { OnOk result (container_fault container plan list ≡ None) }
        ensures refused { IfErr result (λ e. IsFirst (container_fault container plan list) e) }
        ensures failed { IfErr result (λ e. FailsLeft W.Target target (Encode e)) }
    {
        match container {
            ContainerKind::Native => {
                let encoder = begun(alloc, plan, list, target)?;
                Ok(RawDraft::Native(encoder))
            }
            ContainerKind::Ogg { serial } => {
                let encoder = begun_in_ogg(alloc, serial, plan, list, target)?;
                Ok(RawDraft::Ogg(encoder))
            }
        }
    }

    /// Pushes a block.
    pub(crate) fn push(&mut self, block: &[&[i32]]) -> Result<(), EncodeFault>
        ensures next { OnOk result
            (IsAfterBlock (draft_in self.old).pushed (block_channels block.now) (draft_in self.new).pushed) }
        ensures container { container_in self.new ≡ container_in self.old }
        ensures list { (draft_in self.new).list ≡ (draft_in self.old).list }
        ensures stated { StaysStated (draft_in self.old).table (draft_in self.new).table }
        ensures draft { OnOk result (GoesOnIn W.Target (block_channels block.now) self.old self.new) }
        ensures known { OnOk result (StaysKnown W.Target (draft_in self.old).pushed (draft_in self.new).pushed) }
        ensures counted { OnOk result
            (W.errors (draft_in self.new).pushed.target ≡ W.errors (draft_in self.old).pushed.target) }
        ensures accepted { OnOk result (push_fault (draft_in self.old).pushed (block_channels block.now) ≡ None) }
        ensures refused { IfErr result
            (λ e. IsFirst (push_fault (draft_in self.old).pushed (block_channels block.now)) e) }
        ensures failed { IfErr result (λ e. e ≡ EncodeFault.Write
            → Fails W.Target (draft_in self.old).pushed.target (draft_in self.new).pushed.target) }
        ensures names { W.names (draft_in self.new).pushed.target ≡ W.names (draft_in self.old).pushed.target }
    {
        match self {
            RawDraft::Native(encoder) => encoder.push(block),
            RawDraft::Ogg(encoder) => encoder.push(block),
        }
    }

    /// Finishes the draft.
    pub(crate) fn finish(self) -> Result<W, RawEncodeFault>
        ensures finished { IfOk result (λ target. FinishesIn W.Target self target) }
        ensures known { IfOk result (λ target. W.known (draft_in self).pushed.target ≡ true → W.known target ≡ true) }
        ensures counted { IfOk result (λ target. W.errors target ≡ W.errors (draft_in self).pushed.target) }
        ensures names { IfOk result (λ target. W.names target ≡ W.names (draft_in self).pushed.target) }
        ensures refused { IfErr result (λ e. finish_fault (draft_in self) ≡ None → IsOutside e) }
        ensures failed { IfErr result (λ e. FailsLeft W.Target (draft_in self).pushed.target e) }
    {
        let finished = match self {
            RawDraft::Native(encoder) => encoder.finish(),
            RawDraft::Ogg(encoder) => encoder.finish(),
        };
        match finished {
            Ok(target) => Ok(target),
            Err(unfinished) => {
                let Unfinished { fault, left } = unfinished;
                drop(left);
                Err(finished_as(fault))
            }
        }
    }
}
