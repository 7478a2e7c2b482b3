//! `flac export` of a stream in either container.

ghost use Rattle.std.specs.Prelude.{◌≡◌, ◌≤◌, ◌++◌, ◌∷◌, [], nat_lt, IfOk, OnOk};
ghost use Rattle.flac_cli.specs.Calls.{IfServed};
ghost use Rattle.flac_cli.specs.OggEdits.{SendsItsPart, ExportsItsPart, NamesExport};
ghost use Rattle.flac_cli.specs.inner.OggEdits.{blocks_after, HasBlocks};

use crate::export::{part_of, refuse_part};
use crate::head::pass_head;
use crate::recode::fault_of;
use flac_bits::{Source, Target, Why};
use flac_edit::{EditFault, Part, part_of_blocks};
use flac_frame::FrameView;
use flac_jobs::{ExportPart, Exporting};
use flac_meta::Block;
use flac_native::{Failures, Fault, RetagFault, Sink, SinkFault};
use std::alloc::{AllocError, Global};

/// A sink that holds the metadata blocks of a stream. Its only failure is that an allocation fails.
#[derive(Drop)]
pub(crate) struct BlockHolder {
    pub(crate) blocks: Vec<Block>,
    pub(crate) failures: Failures,
}

/// Adds a copy of a block.
fn hold_block(blocks: &mut Vec<Block>, block: &Block) -> Result<(), AllocError>
    ensures { OnOk result (blocks.new.items ≡ blocks.old.items ++ block.now ∷ []) }
{
    let copy = block.clone()?;
    blocks.push(copy)?;
    Ok(())
}

impl BlockHolder {
    /// A sink that holds no block.
    fn new(alloc: Global) -> BlockHolder
        ensures blocks { result.blocks.items ≡ [] }
        ensures failures { result.failures.count ≡ 0 }
    {
        BlockHolder {
            blocks: Vec::new(alloc),
            failures: Failures::new(),
        }
    }

    /// The blocks that it holds.
    fn into_blocks(self) -> Vec<Block>
        ensures { result ≡ self.blocks }
    {
        let BlockHolder {
            blocks,
            failures: _,
        } = self;
        blocks
    }
}

impl Sink for BlockHolder {
    ghost takes = { λ old item new. new.blocks.items ≡ blocks_after old.blocks.items item };

    ghost known = { λ s. nat_lt s.failures.count 18446744073709551615 };

    ghost errors = { λ s. s.failures.count };

    ghost names = { λ _. [] };

    fn block(&mut self, block: &Block) -> Result<(), SinkFault> {
        match hold_block(&mut self.blocks, block) {
            Ok(()) => Ok(()),
            Err(_) => self.failures.fail(),
        }
    }

    fn frame(&mut self, _frame: &FrameView<'_>) -> Result<(), SinkFault> {
        Ok(())
    }
}

/// A fault without a place: an allocation failed.
pub(crate) fn no_memory() -> RetagFault {
    RetagFault {
        at: None,
        why: Why::Memory,
    }
}

/// A fault at its place.
pub(crate) fn placed(fault: Fault) -> RetagFault {
    RetagFault {
        at: Some(fault.at),
        why: fault.why,
    }
}

/// Reads the metadata blocks of a stream, native or Ogg, also outside the streamable subset. No frame is read.
///
/// # Errors
/// The place and the reason: the stream is refused before its last block; an error of the source, or out of memory.
pub(crate) fn head_blocks<R: Source>(
    alloc: Global,
    source: &mut R,
) -> Result<Vec<Block>, RetagFault>
    ensures { IfOk result (λ blocks. HasBlocks R.Source source.old blocks.items) }
{
    let mut holder = BlockHolder::new(alloc);
    let outcome = pass_head(alloc, source, &mut holder);
    let blocks = holder.into_blocks();
    match outcome {
        Ok(()) => Ok(blocks),
        Err(fault) => Err(placed(fault_of(fault))),
    }
}

/// Writes a part of the metadata blocks of a stream, native or Ogg.
///
/// # Errors
/// Those of [`head_blocks`] and of [`part_of_blocks`].
fn export_stream<R: Source, W: Target>(
    alloc: Global,
    part: Part<'_>,
    source: &mut R,
    target: &mut W,
) -> Result<(), EditFault>
    ensures { OnOk result (SendsItsPart R.Source W.Target part.entry source.old target.old target.new) }
{
    match head_blocks(alloc, source) {
        Ok(blocks) => part_of_blocks(alloc, &blocks, part, target),
        Err(fault) => Err(EditFault::Stream(fault)),
    }
}

/// Writes a part of the metadata of a stream, native or Ogg, as [`part_of_blocks`] does; no frame is read. Returns the
/// status: 1 if it failed, and the line of the error was written to `err`, if that could be written.
pub fn export_ogg<R: Source + Drop, W: Target, E: Target>(
    alloc: Global,
    exporting: &Exporting<'_>,
    part: ExportPart,
    source: R,
    target: &mut W,
    err: &mut E,
) -> u8
    ensures status { result ≤ 1 }
    // After status 0 that part of the blocks with which the input begins was written.
    ensures exported { result ≡ 0 → ExportsItsPart R.Source W.Target exporting.now part source target.old target.new }
    // After status 0 nothing was written to standard error.
    ensures silent { result ≡ 0 → err.new ≡ err.old }
    // After status 1 the line of a fault of the input or of the output was added to standard error, if that did not
    // fail.
    ensures named { result ≡ 1 → IfServed E.Target err.old err.new (NamesExport exporting.now) }
{
    let mut source = source;
    match export_stream(alloc, part_of(exporting, part), &mut source, target) {
        Ok(()) => 0,
        Err(fault) => refuse_part(err, exporting, fault),
    }
}
