//! Encodes samples as a native stream.

ghost use Rattle.std.specs.Prelude.{◌≡◌, ◌≢◌, ◌++◌, length, OnOk, IfErr, ◌≤◌, ◌<◌, ◌^◌, ◌↔◌, true, None, Err};
ghost use Rattle.flac_bits.specs.Written.{Writes};
ghost use Rattle.flac_native.specs.inner.InOrder.{WritesSome, FailsInSome};
ghost use Rattle.flac_native.specs.Writing.{blocks_spelling, head_spelling, AreChoices, AreCounted, IsDigest, SendsEncoded, SendsEncodedPrefix, IfUnwritten};
ghost use Rattle.flac_native.specs.inner.Writing.{WritesAll, WritesAfterHead, SendsAfterHead, blocks_with_table};
ghost use Rattle.flac_bits.specs.State.{Rises};
ghost use Rattle.flac_meta.specs.Listed.{block_fault};
ghost use Rattle.flac_meta.specs.declared.block.Block.TheVariants as block_of;
ghost use Rattle.flac_native.specs.Given.{fits_plan, room_of};
ghost use Rattle.flac_native.specs.Numbers.{is_of_whole};
ghost use Rattle.flac_native.specs.Seeking.{table_of, is_table, has_table, repeats_table};
ghost use Rattle.flac_native.specs.Sent.{SendsBits, TargetFailed};

use crate::chosen_frames::{ChosenFrames, write_frames};
use crate::fault::EncodeFault;
use crate::native::MARKER;
use crate::plan::Plan;
use crate::targets::Borrowed;
use flac_bits::{BitWriter, Target, Why};
use flac_frame::{Audio, EncodeBuffers};
use flac_meta::{Block, BlockList, SeekPoint, SeekTable, StreamInfo, write_block};
use std::alloc::Global;

/// Writes blocks of which `count` come in all; the one of this number is marked last (RFC 9639, section 8.1). It fails
/// at a block that cannot be written.
pub(crate) fn write_each<W: Target>(
    blocks: &[Block],
    count: usize,
    writer: &mut BitWriter<W>,
) -> Result<(), Why>
    // proof only
    ensures written { OnOk result (WritesSome count blocks.now writer.old writer.new) }
    ensures unread { IfErr result (λ e. e ≢ Why.Read) }
    ensures sink { IfErr result (λ e. e ≢ Why.Sink) }
    ensures failed { IfErr result (λ e. FailsInSome count blocks.now writer.old writer.new e) }
{
    for i in 0..blocks.len() {
        write_block(&blocks[i], i + 1 == count, writer)?;
    }
    Ok(())
}

/// Writes the seek table of these points as the last block, if there are points (RFC 9639, section 8.5).
fn write_table<W: Target>(points: Vec<SeekPoint>, writer: &mut BitWriter<W>) -> Result<(), Why>
    requires { block_fault (block_of.SeekTable points.items) ≡ None }
    ensures { Writes (blocks_spelling (table_of points.items)) writer.old writer.new result }
{
    if points.is_empty() {
        return Ok(());
    }
    let table = Block::SeekTable(SeekTable::from_vec(points));
    let outcome = write_block(&table, true, writer);
    drop(table);
    outcome
}

/// How many blocks there are with the seek table of these points.
fn count_with_table(blocks: &[Block], points: &[SeekPoint]) -> usize
    ensures { result ≡ length (blocks.now ++ table_of points.now) }
{
    if points.is_empty() {
        return blocks.len();
    }
    blocks.len() + 1
}

/// Writes STREAMINFO, the blocks of the list, and the seek table of these points, if there are points. The last block
/// is marked (RFC 9639, section 8.1).
pub(crate) fn write_blocks<W: Target>(
    info: StreamInfo,
    list: &BlockList,
    points: Vec<SeekPoint>,
    writer: &mut BitWriter<W>,
) -> Result<(), Why>
    requires { block_fault (block_of.SeekTable points.items) ≡ None }
    ensures { Writes (blocks_spelling (blocks_with_table info list.now points.items)) writer.old writer.new result }
{
    let blocks = list.blocks();
    let count = count_with_table(blocks, points.as_slice());
    let first = Block::StreamInfo(info);
    let outcome = write_block(&first, count == 0, writer);
    drop(first);
    outcome?;
    write_each(blocks, count, writer)?;
    write_table(points, writer)
}

/// Writes what comes before the frames: the marker fLaC, STREAMINFO, the blocks and the seek table (RFC 9639, section
/// 6).
fn write_head<W: Target>(
    info: StreamInfo,
    list: &BlockList,
    points: Vec<SeekPoint>,
    writer: &mut BitWriter<W>,
) -> Result<(), Why>
    requires { block_fault (block_of.SeekTable points.items) ≡ None }
    ensures { Writes (head_spelling info (list.now ++ table_of points.items)) writer.old writer.new result }
{
    writer.put(32, MARKER)?;
    write_blocks(info, list, points, writer)
}

/// Writes what comes before the frames, and sends it.
fn finish_head<W: Target>(
    info: StreamInfo,
    list: &BlockList,
    points: Vec<SeekPoint>,
    writer: &mut BitWriter<W>,
) -> Result<(), Why>
    requires table { block_fault (block_of.SeekTable points.items) ≡ None }
    requires whole { writer.old.mark.unread ≡ 0 }
    ensures { WritesAll (head_spelling info (list.now ++ table_of points.items)) writer.old writer.new result }
{
    write_head(info, list, points, writer)?;
    writer.finish()
}

/// Sends what comes before the frames of a stream: the marker fLaC, STREAMINFO, the blocks of the list, and the seek
/// table of these points, if there are points (RFC 9639, section 6). For encoders of other crates, such as
/// `StreamEncoder` of `flac_encoder`.
///
/// # Errors
/// [`Why::Write`] if the target returns an error. A prefix was sent then.
pub fn send_head<W: Target>(
    info: StreamInfo,
    list: &BlockList,
    points: Vec<SeekPoint>,
    target: &mut W,
) -> Result<(), Why>
    requires { block_fault (block_of.SeekTable points.items) ≡ None }
    ensures sends { SendsBits W.Target (head_spelling info (list.now ++ table_of points.items))
        target.old target.new result }
    ensures write { IfErr result (λ e. e ≡ Why.Write) }
{
    let mut writer = BitWriter::new(Borrowed::over(target));
    let outcome = finish_head(info, list, points, &mut writer);
    let _target = writer.into_target().into_target(); // for its clauses alone
    outcome
}

/// Whether a block is a seek table.
fn is_table(block: &Block) -> bool
    ensures { result ≡ is_table block.now }
{
    matches!(block, Block::SeekTable(_))
}

/// Whether a seek table is among the blocks.
fn has_table(blocks: &[Block]) -> bool
    ensures { result ≡ has_table blocks.now }
{
    for block in blocks {
        if is_table(block) {
            return true;
        }
    }
    false
}

/// Whether the list has a seek table, and the plan asks for one.
fn repeats_table(plan: &Plan, list: &BlockList) -> bool
    ensures { result ≡ repeats_table plan.now list.now }
{
    plan.seek_every() > 0 && has_table(list.blocks())
}

/// Writes what comes before the frames, and then the frames, and sends all of it.
fn write_stream<W: Target>(
    plan: &Plan,
    list: &BlockList,
    audio: &Audio,
    frames: ChosenFrames,
    buffers: &mut EncodeBuffers,
    writer: &mut BitWriter<W>,
) -> Result<(), Why>
    requires fits { fits_plan plan.now audio.now ≡ true }
    requires room { buffers.old ≡ room_of plan.now }
    requires counted { AreCounted plan.now audio.now frames.least frames.greatest frames.points.items }
    requires choices { AreChoices plan.now audio.now frames.choices.items }
    requires table { block_fault (block_of.SeekTable frames.points.items) ≡ None }
    requires sizes { (frames.least ≤ frames.greatest) × (frames.greatest < 2 ^ 24) }
    requires digest { IsDigest audio.now frames.digest }
    requires whole { writer.old.mark.unread ≡ 0 }
    ensures { WritesAfterHead plan.now list.now audio.now frames writer.old writer.new result }
{
    let info = frames.info(plan, audio);
    write_head(info, list, frames.points, writer)?;
    write_frames(plan, audio, frames.choices.as_slice(), buffers, writer)?;
    writer.finish()
}

/// Sends what comes before the frames, and then the frames. After an error a prefix of them was sent.
fn send_stream<W: Target>(
    plan: &Plan,
    list: &BlockList,
    audio: &Audio,
    frames: ChosenFrames,
    buffers: &mut EncodeBuffers,
    target: &mut W,
) -> Result<(), Why>
    requires fits { fits_plan plan.now audio.now ≡ true }
    requires room { buffers.old ≡ room_of plan.now }
    requires counted { AreCounted plan.now audio.now frames.least frames.greatest frames.points.items }
    requires choices { AreChoices plan.now audio.now frames.choices.items }
    requires table { block_fault (block_of.SeekTable frames.points.items) ≡ None }
    requires sizes { (frames.least ≤ frames.greatest) × (frames.greatest < 2 ^ 24) }
    requires digest { IsDigest audio.now frames.digest }
    ensures { SendsAfterHead W.Target plan.now list.now audio.now frames target.old target.new result }
{
    let mut writer = BitWriter::new(Borrowed::over(target));
    let outcome = write_stream(plan, list, audio, frames, buffers, &mut writer);
    let _target = writer.into_target().into_target(); // for its clauses alone
    outcome
}

/// Encodes samples as a native stream: STREAMINFO with the number of samples, the sizes of the frames and the MD5
/// digest, the blocks of the list, the seek table if the plan asks for one and there are samples, and a frame for each
/// block of the plan (RFC 9639, section 6). Each frame is a shortest one over constant, verbatim and fixed predictors,
/// and the plan's linear ones ([`Plan::with_predictors`]). The stream is one of the plan's profile, which is that of
/// the samples ([`Audio::new_in`]).
///
/// The plan must fit the samples ([`Plan::fits`]).
///
/// It goes over the samples twice: first it chooses how each frame is written, then it writes one after another. Beside
/// the samples it holds the working arrays of one frame ([`EncodeBuffers`]), the seek points, up to 16384 bytes of
/// what is written, and for each channel of each frame some 80 bytes and one for each partition of its residual, of
/// which the subset allows 256; no frame is held. If blocks have fewer than 192 samples, it keeps the choices of the
/// first frames only, and makes the others again.
///
/// ```
/// let plan = Plan::new(4096, &audio, 0)?;
/// let list = BlockList::new(Vec::new(rt.alloc()))?;
/// let mut target = Collected::new(rt.alloc());
/// encode(rt.alloc(), &plan, &list, &audio, &mut target)?;
/// let bytes = target.into_bytes();
/// ```
///
/// # Errors
/// - [`EncodeFault::RepeatedBlock`] if the list has a seek table and the plan asks for one. Nothing was sent.
/// - [`EncodeFault::Memory`] if an allocation fails. Nothing was sent.
/// - [`EncodeFault::Write`] if the target returns an error. It was sent a prefix of the stream, after what it had.
pub fn encode<W: Target>(
    alloc: Global,
    plan: &Plan,
    list: &BlockList,
    audio: &Audio,
    target: &mut W,
) -> Result<(), EncodeFault>
    requires { fits_plan plan.now audio.now ≡ true }
    ensures written { OnOk result (SendsEncoded W.Target plan.now list.now audio.now target.old target.new) }
    // Ok only if no error of the target was met, whatever is known of it.
    ensures known { OnOk result (W.known target.old ≡ true → W.known target.new ≡ true) }
    ensures counted { OnOk result (W.errors target.new ≡ W.errors target.old) }
    ensures begun { IfUnwritten result (SendsEncodedPrefix W.Target plan.now list.now audio.now target.old target.new) }
    ensures failed { IfErr result (λ e. e ≡ EncodeFault.Write → TargetFailed W.Target target.old target.new) }
    // An error of the target is counted, if the count can rise, whatever is known of it.
    ensures risen { IfErr result (λ e. e ≡ EncodeFault.Write → Rises (W.errors target.old) (W.errors target.new)) }
    ensures repeated { (result ≡ Err EncodeFault.RepeatedBlock) ↔ (repeats_table plan.now list.now ≡ true) }
    ensures mapping { result ≢ Err EncodeFault.BadMapping }
    ensures whole { IfErr result (λ e. is_of_whole e ≡ true) }
    ensures kept { IfErr result (λ e. e ≢ EncodeFault.Write → target.new ≡ target.old) }
    ensures names { W.names target.new ≡ W.names target.old }
{
    if repeats_table(plan, list) {
        return Err(EncodeFault::RepeatedBlock);
    }
    let _blocks = list.blocks(); // for its clauses alone
    let size = plan.block_size();
    let Ok(mut buffers) = EncodeBuffers::new_in(alloc, plan.profile(), size) else {
        return Err(EncodeFault::Memory);
    };
    let Ok(frames) = ChosenFrames::new(alloc, plan, audio, &mut buffers) else {
        return Err(EncodeFault::Memory);
    };
    match send_stream(plan, list, audio, frames, &mut buffers, target) {
        Ok(()) => Ok(()),
        Err(_) => Err(EncodeFault::Write),
    }
}
