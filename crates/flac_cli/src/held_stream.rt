//! What is held of a stream that is encoded anew.

ghost use Rattle.std.specs.Prelude.{◌≡◌, ◌∷◌, [], ◌++◌, nat_lt, OnOk};
ghost use Rattle.flac_cli.specs.Recoded.{is_of_frames, carried};
ghost use Rattle.flac_cli.specs.inner.Holding.{nothing, view_of, with_block, with_info, held_after};

use flac_frame::FrameView;
use flac_meta::{Block, StreamInfo};
use flac_native::{Failures, Sink, SinkFault};
use flac_rescue::{empty_channels, extend_channels};
use std::alloc::{AllocError, Global};

/// The metadata blocks and all samples of a stream, as far as it was read.
#[derive(Drop)]
pub(crate) struct HeldStream {
    /// STREAMINFO; `None` before it came.
    pub(crate) info: Option<StreamInfo>,
    /// The other blocks but for a seek table, in their order.
    pub(crate) blocks: Vec<Block>,
    /// The samples of each channel.
    pub(crate) channels: Vec<Vec<i32>>,
}

/// Whether a block is about the frames of the stream: STREAMINFO, or a seek table.
fn is_of_frames(block: &Block) -> bool
    ensures { result ≡ is_of_frames block.now }
{
    matches!(block, Block::StreamInfo(_) | Block::SeekTable(_))
}

/// Keeps a copy of a block, unless it is STREAMINFO or a seek table.
pub(crate) fn keep_block(blocks: &mut Vec<Block>, block: &Block) -> Result<(), AllocError>
    ensures { OnOk result (blocks.new.items ≡ blocks.old.items ++ carried (block.now ∷ [])) }
{
    if !is_of_frames(block) {
        let copy = block.clone()?;
        blocks.push(copy)?;
    }
    Ok(())
}

impl HeldStream {
    /// Nothing of a stream.
    pub(crate) fn new(alloc: Global) -> HeldStream
        ensures { view_of result ≡ nothing }
    {
        HeldStream {
            info: None,
            blocks: Vec::new(alloc),
            channels: Vec::new(alloc),
        }
    }

    /// Takes STREAMINFO, unless one came before.
    fn take_info(&mut self, alloc: Global, info: &StreamInfo) -> Result<(), AllocError>
        ensures { OnOk result (view_of self.new ≡ with_info (view_of self.old) self.old.info info.now) }
    {
        match self.info {
            Some(_) => Ok(()),
            None => {
                self.channels = empty_channels(alloc, usize::from(info.channels()))?;
                self.info = Some(*info);
                Ok(())
            }
        }
    }

    /// Takes a block.
    fn take_block(&mut self, alloc: Global, block: &Block) -> Result<(), AllocError>
        ensures { OnOk result (view_of self.new ≡ with_block (view_of self.old) block.now) }
    {
        match block {
            Block::StreamInfo(info) => self.take_info(alloc, info),
            _ => keep_block(&mut self.blocks, block),
        }
    }
}

/// A sink that holds the blocks and all samples of a stream. Its only failure is that an allocation fails.
#[derive(Drop)]
pub(crate) struct StreamHolder {
    pub(crate) held: HeldStream,
    pub(crate) alloc: Global,
    pub(crate) failures: Failures,
}

impl StreamHolder {
    /// A sink that holds nothing.
    pub(crate) fn new(alloc: Global) -> StreamHolder
        ensures held { view_of result.held ≡ nothing }
        ensures failures { result.failures.count ≡ 0 }
    {
        StreamHolder {
            held: HeldStream::new(alloc),
            alloc,
            failures: Failures::new(),
        }
    }
}

impl Sink for StreamHolder {
    ghost takes = { λ old item new. view_of new.held ≡ held_after (view_of old.held) item };

    ghost known = { λ s. nat_lt s.failures.count 18446744073709551615 };

    ghost errors = { λ s. s.failures.count };

    ghost names = { λ _. [] };

    fn block(&mut self, block: &Block) -> Result<(), SinkFault> {
        match self.held.take_block(self.alloc, block) {
            Ok(()) => Ok(()),
            Err(_) => self.failures.fail(),
        }
    }

    fn frame(&mut self, frame: &FrameView<'_>) -> Result<(), SinkFault> {
        match extend_channels(&mut self.held.channels, frame) {
            Ok(()) => Ok(()),
            Err(_) => self.failures.fail(),
        }
    }
}
