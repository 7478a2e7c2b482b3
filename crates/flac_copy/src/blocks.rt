//! The metadata blocks of a copy.

ghost use Rattle.std.specs.Prelude.{◌≡◌, ◌++◌, ◌∷◌, [], IfOk, IfErr, OnOk};
ghost use Rattle.std.specs.List.{filter};
ghost use Rattle.flac_bits.specs.declared.why.Why.{Why};
ghost use Rattle.flac_copy.specs.Blocks.{is_comment, is_other, no_comments, ogg_blocks};

use flac_bits::Why;
use flac_meta::{Block, Bytes, Comments, Texts};
use std::alloc::Global;

/// Whether a block has comments.
fn is_comment(block: &Block) -> bool
    ensures { result ≡ is_comment block.now }
{
    matches!(block, Block::VorbisComment(_))
}

/// Whether a block is none of STREAMINFO, seek table and comments.
fn is_other(block: &Block) -> bool
    ensures { result ≡ is_other block.now }
{
    !matches!(
        block,
        Block::StreamInfo(_) | Block::SeekTable(_) | Block::VorbisComment(_)
    )
}

/// Comments without a vendor and without a comment.
fn no_comments(alloc: Global) -> Block
    ensures { result ≡ no_comments }
{
    Block::VorbisComment(Comments {
        vendor: Bytes::from_vec(Vec::new(alloc)),
        list: Texts::from_vec(Vec::new(alloc)),
    })
}

/// Adds a copy of a block to those that have comments, or to the others.
fn sort_block(first: &mut Vec<Block>, rest: &mut Vec<Block>, block: &Block) -> Result<(), Why>
    ensures first { OnOk result (first.new.items ≡ first.old.items ++ filter is_comment (block.now ∷ [])) }
    ensures rest { OnOk result (rest.new.items ≡ rest.old.items ++ filter is_other (block.now ∷ [])) }
    ensures memory { IfErr result (λ e. e ≡ Why.Memory) }
{
    if is_comment(block) {
        let copy = block.clone()?;
        first.push(copy)?;
    }
    if is_other(block) {
        let copy = block.clone()?;
        rest.push(copy)?;
    }
    Ok(())
}

/// The blocks after STREAMINFO that an Ogg stream has of those of a native one: comments first, none if there are none,
/// and then the others in their order, without a seek table (RFC 9639, section 10.1).
///
/// # Errors
/// [`Why::Memory`] if an allocation fails.
pub(crate) fn ogg_blocks(alloc: Global, blocks: &[Block]) -> Result<Vec<Block>, Why>
    ensures blocks { IfOk result (λ list. list.items ≡ ogg_blocks blocks.now) }
    ensures memory { IfErr result (λ e. e ≡ Why.Memory) }
{
    let mut first = Vec::new(alloc);
    let mut rest = Vec::new(alloc);
    for block in blocks {
        sort_block(&mut first, &mut rest, block)?;
    }
    if first.is_empty() {
        first.push(no_comments(alloc))?;
    }
    first.append(&mut rest)?;
    Ok(first)
}
