//! The metadata blocks that a copy is to have.

ghost use Rattle.std.specs.Prelude.{◌≡◌, ◌∷◌, true, IfOk};
ghost use Rattle.flac_bits.specs.Bits.{bits_of};
ghost use Rattle.flac_native.specs.Rewriting.{head_of};
ghost use Rattle.flac_native.specs.Writing.{head_spelling};
ghost use Rattle.flac_copy.specs.Given.{IsHeadOf};

use flac_bits::{BitReader, Collected, Memory, Why, bytes_fit};
use flac_meta::{Block, BlockList, StreamInfo};
use flac_native::send_with_blocks;
use std::alloc::Global;

/// Whether a block is this STREAMINFO.
pub(crate) fn is_given(block: &Block, info: StreamInfo) -> bool
    ensures { result ≡ true → block.now ≡ Block.StreamInfo info }
{
    match block {
        Block::StreamInfo(found) => *found == info,
        _ => false,
    }
}

/// Copies of blocks.
fn copies(alloc: Global, blocks: &[Block]) -> Result<Vec<Block>, Why>
    ensures { IfOk result (λ list. list.items ≡ blocks.now) }
{
    let mut list = Vec::new(alloc);
    for block in blocks {
        let copy = block.clone()?;
        list.push(copy)?;
    }
    Ok(list)
}

/// The blocks after STREAMINFO, which is the first of these and must be this one.
///
/// # Errors
/// [`Why::NotStreamInfoFirst`] if another block is the first; why the others may not follow it; [`Why::Memory`].
pub(crate) fn given_list(
    alloc: Global,
    info: StreamInfo,
    blocks: &[Block],
) -> Result<BlockList, Why>
    ensures { IfOk result (λ list. blocks.now ≡ Block.StreamInfo info ∷ list) }
{
    match blocks.split_first() {
        Some((first, others)) if is_given(first, info) => BlockList::new(copies(alloc, others)?),
        _ => Err(Why::NotStreamInfoFirst),
    }
}

/// The bytes with which a native stream of these blocks begins.
///
/// # Errors
/// [`Why::Memory`] if an allocation fails, or why a block cannot be written.
fn native_head(alloc: Global, blocks: &[Block]) -> Result<Vec<u8>, Why>
    ensures { IfOk result (λ head. bits_of head.items ≡ head_of blocks.now) }
{
    let mut none = BitReader::new(Memory::new(&[]));
    let mut head = Collected::new(alloc);
    match send_with_blocks(alloc, &mut none, blocks, &mut head) {
        Ok(()) => Ok(head.into_bytes()),
        Err(fault) => Err(fault.why.in_memory()),
    }
}

/// The bytes with which a native stream of STREAMINFO and these blocks begins.
pub(crate) fn head_bytes(alloc: Global, info: StreamInfo, list: &BlockList) -> Result<Vec<u8>, Why>
    ensures { IfOk result (λ head. bits_of head.items ≡ head_spelling info list.now) }
{
    let mut all = Vec::new(alloc);
    all.push(Block::StreamInfo(info))?;
    let copies = list.clone()?;
    let mut copies = copies.into_blocks();
    all.append(&mut copies)?;
    native_head(alloc, all.as_slice())
}

/// The bytes with which a native stream of these blocks begins, of which the first must be this STREAMINFO.
///
/// # Errors
/// Those of [`given_list`].
pub(crate) fn given_head(alloc: Global, info: StreamInfo, blocks: &[Block]) -> Result<Vec<u8>, Why>
    ensures { IfOk result (λ head. IsHeadOf info blocks.now head.items) }
{
    let digest = info.digest();
    bytes_fit(&digest); // for its clause alone
    let list = given_list(alloc, info, blocks)?;
    let _blocks = list.blocks(); // for its clauses alone
    head_bytes(alloc, info, &list)
}
