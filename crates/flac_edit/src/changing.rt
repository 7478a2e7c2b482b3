//! Whether edits of the metadata blocks of a stream change them.

ghost use Rattle.std.specs.Prelude.{◌≡◌, true, false, IfOk, IfErr};
ghost use Rattle.flac_meta.specs.Spelling.{block_spelling};
ghost use Rattle.flac_edit.specs.BlockEdits.{edited_blocks, block_fault};
ghost use Rattle.flac_edit.specs.Rewritten.{Judges, IfRefused, RefusesBlocksOf, RefusesBlocksFrom};
ghost use Rattle.flac_edit.specs.Changed.{AreAlike, KeepsBlocksOf, KeepsBlocksFrom};

use crate::block_edits::BlockEdits;
use crate::exporting::block_bytes;
use crate::rewriting_blocks::{EditFault, edited_blocks};
use flac_bits::{BitReader, Source, Why};
use flac_meta::Block;
use flac_native::{RetagFault, read_blocks};
use std::alloc::Global;

/// Whether two blocks are written with the same bits.
fn is_alike(alloc: Global, one: &Block, other: &Block) -> Result<bool, Why>
    ensures { IfOk result (λ alike. alike ≡ true → block_spelling false one.now ≡ block_spelling false other.now) }
{
    let one = block_bytes(alloc, one)?;
    let other = block_bytes(alloc, other)?;
    Ok(one.as_slice() == other.as_slice())
}

/// Whether blocks are written with the same bits, one by one.
fn are_alike(alloc: Global, ones: &[Block], others: &[Block]) -> Result<bool, Why>
    ensures { IfOk result (λ alike. alike ≡ true → AreAlike ones.now others.now) }
{
    if ones.len() != others.len() {
        return Ok(false);
    }
    for (i, one) in ones.iter().enumerate() {
        if !is_alike(alloc, one, &others[i])? {
            return Ok(false);
        }
    }
    Ok(true)
}

/// Whether edits change these metadata blocks of a stream, of which STREAMINFO is the first, in any container (RFC
/// 9639, section 8). False only if the edited blocks ([`edited_blocks`]) would be written with the bits of the old
/// ones, so that nothing need be written.
///
/// # Errors
/// - [`EditFault::Blocks`]: the edits do not fit the blocks, as [`crate::rewrite_blocks`] says.
/// - [`EditFault::Stream`] without a place: a block is too long to be written, or an allocation failed.
pub fn edits_change(
    alloc: Global,
    blocks: &[Block],
    edits: &BlockEdits<'_>,
) -> Result<bool, EditFault>
    // `false`: the edited blocks are written as the old ones are.
    ensures kept { IfOk result (λ changes. changes ≡ false → AreAlike (edited_blocks edits.now blocks.now) blocks.now) }
    // It succeeds only if the edits fit the blocks, and else names why they do not.
    ensures judged { Judges result (block_fault edits.now blocks.now) }
{
    let list = edited_blocks(alloc, edits, blocks)?;
    let outcome = are_alike(alloc, &list, blocks);
    drop(list);
    match outcome {
        Ok(alike) => Ok(!alike),
        Err(why) => Err(EditFault::Stream(RetagFault { at: None, why })),
    }
}

/// Whether edits change the metadata blocks of a native stream (RFC 9639, section 8). False only if the edited blocks
/// would be written with the bits of the old ones, so that nothing need be written. It reads the blocks, and no frame.
///
/// ```
/// if blocks_change(rt.alloc(), &mut source, &edits)? {
///     rewrite_blocks(rt.alloc(), &mut source_again, &edits, &mut target)?;
/// }
/// ```
///
/// # Errors
/// - [`EditFault::Blocks`]: the edits do not fit the blocks, as [`crate::rewrite_blocks`] says.
/// - [`EditFault::Stream`]: the marker or a block is refused, at its place, or could not be read; or without a place a
///   block is too long to be written, or an allocation failed.
pub fn blocks_change<R: Source>(
    alloc: Global,
    source: &mut R,
    edits: &BlockEdits<'_>,
) -> Result<bool, EditFault>
    // `false`: the edited blocks are written as the old ones are.
    ensures kept { IfOk result (λ changes. changes ≡ false → KeepsBlocksOf R.Source source.old edits.now) }
    // Edits are refused only if they do not fit the blocks, for that reason.
    ensures refused { IfErr result (IfRefused (RefusesBlocksOf R.Source source.old edits.now)) }
{
    let mut reader = BitReader::new(source);
    let outcome = change_from(alloc, &mut reader, edits);
    let _source = reader.into_source(); // for its clauses alone
    outcome
}

/// Whether edits change the blocks of what is still to come.
fn change_from<R: Source>(
    alloc: Global,
    reader: &mut BitReader<R>,
    edits: &BlockEdits<'_>,
) -> Result<bool, EditFault>
    requires { reader.old.cursor.mark.unread ≡ 0 }
    ensures kept { IfOk result (λ changes. changes ≡ false → KeepsBlocksFrom reader.old edits.now) }
    ensures refused { IfErr result (IfRefused (RefusesBlocksFrom reader.old edits.now)) }
{
    let blocks = match read_blocks(alloc, reader) {
        Ok(blocks) => blocks,
        Err(fault) => {
            return Err(EditFault::Stream(RetagFault {
                at: Some(fault.at),
                why: fault.why,
            }));
        }
    };
    let outcome = edits_change(alloc, &blocks, edits);
    drop(blocks);
    outcome
}
