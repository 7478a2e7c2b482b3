//! Edits of the comments among the metadata blocks of a stream in any container.

ghost use Rattle.std.specs.Prelude.{◌≡◌, ◌≤◌, ◌+◌, ◌↔◌, false, length, drop, IfOk};
ghost use Rattle.flac_native.specs.Retag.{without_comments};
ghost use Rattle.flac_edit.specs.Tagged.{comments_among, new_comments, KeepComments, comments_at, with_comments, retagged};

use crate::block_edits::add_blocks;
use crate::edits::{Edit, edited};
use crate::tagging::{are_same, comments_among};
use flac_meta::{Block, Comments};
use std::alloc::{AllocError, Global};

/// Whether edits change the comments among these metadata blocks of a stream (RFC 9639, section 8.6).
///
/// # Errors
/// `AllocError` if an allocation fails.
pub fn comments_change(
    alloc: Global,
    blocks: &[Block],
    edits: &[Edit<'_>],
) -> Result<bool, AllocError>
    // `false` if the edits change none of them, and only then.
    ensures { IfOk result (λ changes. (changes ≡ false) ↔ KeepComments edits.now blocks.now) }
{
    let old = comments_among(alloc, blocks)?;
    let new = edited(alloc, &old, edits)?;
    Ok(!are_same(&new, &old))
}

/// How many blocks come before the first comment block.
fn comments_at(blocks: &[Block]) -> usize
    ensures value { result ≡ comments_at blocks.now }
    ensures inside { result ≤ length blocks.now }
{
    for (i, block) in blocks.iter().enumerate() {
        if let Block::VorbisComment(_) = block {
            return i;
        }
    }
    blocks.len()
}

/// The blocks from an index on; none from the length on.
fn blocks_from(blocks: &[Block], index: usize) -> &[Block]
    ensures { result.now ≡ drop index blocks.now }
{
    blocks.get(index..).unwrap_or(&[])
}

/// The blocks with these comments in the place of the comment block, after all others if there is none.
fn with_comments(alloc: Global, new: Comments, blocks: &[Block]) -> Result<Vec<Block>, AllocError>
    ensures { IfOk result (λ list. list.items ≡ with_comments new blocks.now) }
{
    let at = comments_at(blocks);
    let mut list = Vec::new(alloc);
    add_blocks(&mut list, &blocks[..at])?;
    list.push(Block::VorbisComment(new))?;
    add_blocks(&mut list, blocks_from(blocks, at + 1))?;
    Ok(list)
}

/// The metadata blocks of a stream, of which STREAMINFO is the first, with edited comments in the place of the comment
/// block, after all others if there is none (RFC 9639, section 8.6). All other blocks stay, also padding, so a stream
/// in any container can be written anew with them. In Ogg the comments come first, wherever they are in this list.
///
/// ```
/// let news = retagged_blocks(rt.alloc(), &blocks, &[Edit::Set(b"TITLE", b"Air")])?;
/// ```
///
/// # Errors
/// `AllocError` if an allocation fails.
pub fn retagged_blocks(
    alloc: Global,
    blocks: &[Block],
    edits: &[Edit<'_>],
) -> Result<Vec<Block>, AllocError>
    ensures blocks { IfOk result (λ list. list.items ≡ retagged edits.now blocks.now) }
    // So their comments are the edited ones, and all others are the same, in their order.
    ensures comments { IfOk result (λ list. comments_among list.items ≡ new_comments edits.now blocks.now) }
    ensures others { IfOk result (λ list. without_comments list.items ≡ without_comments blocks.now) }
{
    let old = comments_among(alloc, blocks)?;
    let new = edited(alloc, &old, edits)?;
    with_comments(alloc, new, blocks)
}
