//! The metadata blocks before the frames.

ghost use Rattle.std.specs.Prelude.{◌≡◌, ◌⊎◌, ◌+◌, ◌*◌, ◌≤◌, ◌<◌, ◌^◌, IfOk, IfErr, length};
ghost use Rattle.flac_rescue.specs.Head.{IsHead, head_bytes, IsHeadRefusal};

use flac_bits::{BitReader, Memory, Why};
use flac_meta::Block;
use flac_native::{Fault, read_blocks};
use std::alloc::Global;

/// How many bytes the marker and these blocks have, at most 2^64 - 1 (RFC 9639, section 8.1).
fn bytes_of(blocks: &[Block]) -> u64
    ensures { result ≡ head_bytes blocks.now }
{
    let mut sum: u64 = 4;
    for block in blocks {
        sum = sum.saturating_add(4 + block.length());
    }
    sum
}

/// The metadata blocks with which a stream begins, and the offset of its first frame.
#[derive(Drop)]
pub(crate) struct Head {
    pub(crate) blocks: Vec<Block>,
    pub(crate) front: u64,
}

/// Reads the marker and the metadata blocks.
///
/// # Errors
/// Those of [`read_blocks`].
pub(crate) fn read_head(alloc: Global, bytes: &[u8]) -> Result<Head, Fault>
    ensures head { IfOk result (λ h. IsHead bytes.now h.blocks.items h.front) }
    ensures fault { IfErr result (IsHeadRefusal bytes.now) }
{
    let mut reader = BitReader::new(Memory::new(bytes));
    let outcome = read_blocks(alloc, &mut reader);
    // Given back only for the proof, which then knows that a source in memory returns no error.
    let _source = reader.into_source();
    match outcome {
        Ok(blocks) => {
            let front = bytes_of(&blocks);
            Ok(Head { blocks, front })
        }
        Err(fault) => Err(fault),
    }
}
