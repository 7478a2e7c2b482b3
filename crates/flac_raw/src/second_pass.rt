//! The second pass over raw samples, which encodes them block by block.

ghost use Rattle.std.specs.Prelude.{◌≡◌, ◌≤◌, ◌<◌, ◌+◌, ◌^◌, ◌≢◌, [], length, true, None, IfOk, IfErr, OnOk};
ghost use Rattle.flac_encoder.specs.Pushing.{shape_fault, push_fault, IsAfterBlock, StaysKnown};
ghost use Rattle.flac_native.specs.Given.{blocks_in};
ghost use Rattle.flac_native.specs.Message.{sample_width};
ghost use Rattle.flac_draft.specs.Table.{StaysStated};
ghost use Rattle.flac_raw.specs.Reading.{IfKnown, IfRead};
ghost use Rattle.flac_raw.specs.Blocks.{row_of, block_of, TakesBlock};
ghost use Rattle.flac_raw.specs.Planned.{table_fault};
ghost use Rattle.flac_raw.specs.Encoded.{SendsBy, SendsByIn, ArePlanned, container_fault, StopsBy, StopsByIn, FailsLeft};
ghost use Rattle.flac_raw.specs.inner.Pushed.{read_as, pushed_as, draft_in, container_in, GoesOnIn, KeepsAsked, IsFresh, IsFor};
ghost use Rattle.flac_raw.specs.inner.Pushed.{AreAllFitAs, PushesRaw, StopsReading, StopsPushing, StopsRaw, FailsInto};
ghost use Rattle.flac_raw.specs.declared.raw_fault.RawFault.TheVariants.{Input};
ghost use Rattle.flac_raw.specs.declared.raw_fault.RawEncodeFault.TheVariants.{Raw, Encode, Changed};

use crate::blocks::RawBlocks;
use crate::raw_draft::RawDraft;
use crate::raw_fault::{RawEncodeFault, RawFault};
use crate::raw_plan::RawPlan;
use flac_bits::Source;
use flac_draft::Rewritable;
use flac_jobs::ContainerKind;
use flac_meta::BlockList;
use flac_native::{EncodeFault, sample_width};
use std::alloc::Global;

/// Why the second pass stops if it cannot read.
fn read_as(fault: RawFault) -> RawEncodeFault
    ensures { result ≡ read_as fault }
{
    match fault {
        RawFault::RawLength => RawEncodeFault::Changed,
        RawFault::Input(why) => RawEncodeFault::Raw(RawFault::Input(why)),
        RawFault::Setup(fault) => RawEncodeFault::Raw(RawFault::Setup(fault)),
    }
}

/// Why it stops if a block is not pushed.
fn pushed_as(fault: EncodeFault) -> RawEncodeFault
    ensures { result ≡ pushed_as fault }
{
    match fault {
        EncodeFault::Memory => RawEncodeFault::Encode(EncodeFault::Memory),
        EncodeFault::Write => RawEncodeFault::Encode(EncodeFault::Write),
        _ => RawEncodeFault::Changed,
    }
}

/// Reads the next block.
fn next_block<R: Source>(blocks: &mut RawBlocks, source: &mut R) -> Result<usize, RawEncodeFault>
    ensures channels { length blocks.new.lists.items ≡ length blocks.old.lists.items }
    ensures width { blocks.new.width ≡ blocks.old.width }
    ensures size { blocks.new.size ≡ blocks.old.size }
    ensures few { IfOk result (λ n. n ≤ blocks.old.size) }
    ensures rows { IfOk result (λ n. TakesBlock R.Source n source.old source.new blocks.old blocks.new) }
    ensures end { IfOk result (λ n. n < blocks.old.size → R.known source.old ≡ true → R.coming source.new ≡ []) }
    ensures known { OnOk result (R.known source.old ≡ true → R.known source.new ≡ true) }
    ensures raised { OnOk result (R.raised source.new ≡ R.raised source.old) }
    ensures most { IfOk result (λ n. R.most source.new + n ≤ R.most source.old) }
    ensures refused { IfErr result (λ e. IfRead R.Source source.old source.new (StopsReading (row_of blocks.old) e)) }
    ensures unwritten { IfErr result (λ e. e ≢ Encode EncodeFault.Write) }
    ensures names { R.names source.new ≡ R.names source.old }
{
    match blocks.next(source) {
        Ok(count) => Ok(count),
        Err(fault) => Err(read_as(fault)),
    }
}

/// Pushes a block that was read.
fn push_block<W: Rewritable + Drop>(
    alloc: Global,
    blocks: &RawBlocks,
    draft: &mut RawDraft<W>,
) -> Result<(), RawEncodeFault>
    ensures next { OnOk result
        (IsAfterBlock (draft_in draft.old).pushed (block_of blocks.now) (draft_in draft.new).pushed) }
    ensures container { container_in draft.new ≡ container_in draft.old }
    ensures list { (draft_in draft.new).list ≡ (draft_in draft.old).list }
    ensures stated { StaysStated (draft_in draft.old).table (draft_in draft.new).table }
    ensures draft { OnOk result (GoesOnIn W.Target (block_of blocks.now) draft.old draft.new) }
    ensures known { OnOk result (StaysKnown W.Target (draft_in draft.old).pushed (draft_in draft.new).pushed) }
    ensures counted { OnOk result
        (W.errors (draft_in draft.new).pushed.target ≡ W.errors (draft_in draft.old).pushed.target) }
    ensures refused { IfErr result (λ e. StopsPushing (draft_in draft.old).pushed (block_of blocks.now) e) }
    ensures accepted { OnOk result (push_fault (draft_in draft.old).pushed (block_of blocks.now) ≡ None) }
    ensures failed { IfErr result (λ e. FailsInto W.Target (draft_in draft.old).pushed (draft_in draft.new).pushed e) }
    ensures names { W.names (draft_in draft.new).pushed.target ≡ W.names (draft_in draft.old).pushed.target }
{
    let slices = blocks.slices(alloc)?;
    match draft.push(slices.as_slice()) {
        Ok(()) => Ok(()),
        Err(fault) => Err(pushed_as(fault)),
    }
}

/// Pushes all blocks of a source, which are to be `total` samples of each channel.
fn push_all<R: Source, W: Rewritable + Drop>(
    alloc: Global,
    total: u64,
    blocks: &mut RawBlocks,
    source: &mut R,
    draft: &mut RawDraft<W>,
) -> Result<(), RawEncodeFault>
    requires fresh { IsFresh (draft_in draft.old) }
    requires shape { shape_fault (draft_in draft.old).pushed.shape ≡ None }
    requires same { IsFor (draft_in draft.old).pushed.shape
        (length blocks.old.lists.items) blocks.old.width blocks.old.size }
    requires total { total < 2 ^ 36 }
    requires few { blocks_in blocks.old.size total ≤ 2 ^ 31 }
    ensures all { OnOk result (IfKnown R.Source source.old (AreAllFitAs (draft_in draft.old) blocks.old total)) }
    ensures draft { OnOk result
        (IfKnown R.Source source.old (PushesRaw W.Target blocks.old draft.old draft.new)) }
    ensures has { OnOk result ((draft_in draft.new).pushed.number ≡ blocks_in blocks.old.size total) }
    ensures container { container_in draft.new ≡ container_in draft.old }
    ensures asked { OnOk result (KeepsAsked (draft_in draft.old) (draft_in draft.new)) }
    ensures samples { OnOk result ((draft_in draft.new).pushed.samples ≡ total) }
    ensures known { OnOk result (StaysKnown W.Target (draft_in draft.old).pushed (draft_in draft.new).pushed) }
    ensures counted { OnOk result
        (W.errors (draft_in draft.new).pushed.target ≡ W.errors (draft_in draft.old).pushed.target) }
    ensures refused { IfErr result (λ e. IfRead R.Source source.old source.new
        (StopsRaw (draft_in draft.old) blocks.old total e)) }
    ensures failed { IfErr result (λ e. FailsLeft W.Target (draft_in draft.old).pushed.target e) }
    ensures names { W.names (draft_in draft.new).pushed.target ≡ W.names (draft_in draft.old).pushed.target }
    ensures through { R.names source.new ≡ R.names source.old }
{
    let mut pushed = 0;
    'pieces: loop {
        let taken = next_block(blocks, source)?;
        let count = taken as u64;
        if count > total - pushed {
            return Err(RawEncodeFault::Changed);
        }
        if count == 0 {
            if pushed < total {
                return Err(RawEncodeFault::Changed);
            }
            return Ok(());
        }
        push_block(alloc, blocks, draft)?;
        pushed += count;
    }
}

/// Encodes the raw samples of a source by a plan, block by block, and returns the target, which has the whole stream:
/// that which [`flac_native::encode`] writes of the same samples. One block is held, the choices for it, and what
/// comes before the frames. The source has the bytes that [`crate::judge`] counted, once more from the first on.
///
/// ```
/// let total = judge(alloc, &mut file, Profile::Subset, format)?;
/// let plan = RawPlan::new(Profile::Subset, format, total, Vec::new(alloc), None)?;
/// let out = encode_judged(alloc, plan, list, &mut file_again, DraftFile::new(out)?)?;
/// ```
///
/// # Errors
/// What was sent to the target is no whole stream then.
///
/// - [`RawEncodeFault::Encode`] with `RepeatedBlock`, before anything is sent, if the list has a seek table and the
///   plan asks for one;
/// - [`RawEncodeFault::Changed`] if the bytes are not as many samples as the plan is for, or one does not fit its bits;
/// - [`RawEncodeFault::Raw`] with `Read` if the source returns an error, or with `Memory` if an allocation fails;
/// - [`RawEncodeFault::Encode`] with `Memory` if an allocation fails, or `Write` if the target returns an error.
pub fn encode_judged<R: Source, W: Rewritable + Drop>(
    alloc: Global,
    plan: RawPlan,
    list: BlockList,
    source: &mut R,
    target: W,
) -> Result<W, RawEncodeFault>
    ensures written { IfOk result (λ out. SendsBy R.Source W.Target plan list source.old target out) }
    ensures samples { OnOk result (IfKnown R.Source source.old (ArePlanned plan)) }
    ensures table { OnOk result (table_fault plan list ≡ None) }
    ensures known { IfOk result (λ out. W.known target ≡ true → W.known out ≡ true) }
    ensures counted { IfOk result (λ out. W.errors out ≡ W.errors target) }
    ensures names { IfOk result (λ out. W.names out ≡ W.names target) }
    ensures refused { IfErr result (λ e. IfRead R.Source source.old source.new (StopsBy plan list e)) }
    // An error of the target is counted.
    ensures failed { IfErr result (λ e. FailsLeft W.Target target e) }
    ensures through { R.names source.new ≡ R.names source.old }
{
    encode_judged_in(alloc, ContainerKind::Native, plan, list, source, target)
}

/// Does what [`encode_judged`] does, in a native stream or in Ogg, in which the stream is that which
/// [`flac_ogg::encode_ogg`] writes of the same samples (RFC 9639, section 10.1).
///
/// ```
/// let container = ContainerKind::Ogg { serial: 1 };
/// let out = encode_judged_in(alloc, container, plan, list, &mut file_again, DraftFile::new(out)?)?;
/// ```
///
/// # Errors
/// Those of [`encode_judged`]. In Ogg, in place of `RepeatedBlock`, [`RawEncodeFault::Encode`] with `BadMapping`,
/// before anything is sent, if the list does not begin with a Vorbis comment, or the plan asks for a seek table.
pub fn encode_judged_in<R: Source, W: Rewritable + Drop>(
    alloc: Global,
    container: ContainerKind,
    plan: RawPlan,
    list: BlockList,
    source: &mut R,
    target: W,
) -> Result<W, RawEncodeFault>
    ensures written { IfOk result (λ out. SendsByIn R.Source W.Target container plan list source.old target out) }
    ensures samples { OnOk result (IfKnown R.Source source.old (ArePlanned plan)) }
    ensures fits { OnOk result (container_fault container plan list ≡ None) }
    ensures known { IfOk result (λ out. W.known target ≡ true → W.known out ≡ true) }
    ensures counted { IfOk result (λ out. W.errors out ≡ W.errors target) }
    ensures names { IfOk result (λ out. W.names out ≡ W.names target) }
    ensures refused { IfErr result (λ e. IfRead R.Source source.old source.new (StopsByIn container plan list e)) }
    // An error of the target is counted.
    ensures failed { IfErr result (λ e. FailsLeft W.Target target e) }
    ensures through { R.names source.new ≡ R.names source.old }
{
    let format = plan.format;
    let total = plan.total;
    let channels = format.channels as usize;
    let width = sample_width(format.bits);
    let mut blocks = RawBlocks::new(alloc, channels, width, format.block as usize)?;
    let mut draft = RawDraft::begin(alloc, container, plan, list, target)?;
    push_all(alloc, total, &mut blocks, source, &mut draft)?;
    let out = draft.finish()?;
    Ok(out)
}
