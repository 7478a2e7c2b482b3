//! Writes a stream with edited comments to another file.

ghost use Rattle.std.specs.Prelude.{◌≡◌, ◌≢◌, ◌++◌, OnOk, IfOk, IfErr};
ghost use Rattle.flac_native.specs.Retag.{not_read, not_written};
ghost use Rattle.flac_edit.specs.Tagged.{is_other, other_of, others_of, arranged, SendsRewritten, SendsRewrittenFrom};

use crate::edits::{Edit, edited};
use crate::tagging::comments_among;
use flac_bits::{BitReader, Source, Target, Why};
use flac_meta::Block;
use flac_native::{RetagFault, read_blocks, send_with_blocks};
use std::alloc::{AllocError, Global};

/// Whether a block is neither padding nor comments.
fn is_other(block: &Block) -> bool
    ensures { result ≡ is_other block.now }
{
    !matches!(block, Block::Padding(_) | Block::VorbisComment(_))
}

/// Keeps a copy of a block that is neither padding nor comments.
fn keep_other(kept: &mut Vec<Block>, block: &Block) -> Result<(), AllocError>
    ensures { OnOk result (kept.new.items ≡ kept.old.items ++ other_of block.now) }
{
    if is_other(block) {
        let copy = block.clone()?;
        kept.push(copy)?;
    }
    Ok(())
}

/// The blocks that are neither padding nor comments, in their order.
fn others_of(alloc: Global, blocks: &[Block]) -> Result<Vec<Block>, AllocError>
    ensures { IfOk result (λ kept. kept.items ≡ others_of blocks.now) }
{
    let mut kept = Vec::new(alloc);
    for block in blocks {
        keep_other(&mut kept, block)?;
    }
    Ok(kept)
}

/// The metadata blocks of a stream, of which STREAMINFO is the first, with edited comments, as [`rewrite`] writes them:
/// the other blocks in their order, the edited comments, and `padding` bytes of padding, no such block if that is 0.
/// Old padding is left out (RFC 9639, section 8).
///
/// # Errors
/// `AllocError` if an allocation fails.
pub fn rewritten_blocks(
    alloc: Global,
    blocks: &[Block],
    edits: &[Edit<'_>],
    padding: u32,
) -> Result<Vec<Block>, AllocError>
    ensures { IfOk result (λ list. list.items ≡ arranged edits.now padding blocks.now) }
{
    let old = comments_among(alloc, blocks)?;
    let new = edited(alloc, &old, edits)?;
    let mut list = others_of(alloc, blocks)?;
    list.push(Block::VorbisComment(new))?;
    if padding != 0 {
        list.push(Block::Padding(padding))?;
    }
    Ok(list)
}

/// Writes a native stream with edited comments (RFC 9639, sections 6 and 8.6): the marker, STREAMINFO, the other
/// metadata blocks in their order, the edited comments, padding of `padding` bytes, and then all bytes that follow the
/// metadata. These are copied as they are, and not verified. Old padding is left out, and there is none if `padding` is
/// 0.
///
/// With padding after the comments the next edit can be made in place ([`crate::tag_in_place`]).
///
/// ```
/// let mut target = Counted::new(file);
/// rewrite(rt.alloc(), &mut source, &[Edit::Set(b"TITLE", b"Air")], 8192, &mut target)?;
/// ```
///
/// # Errors
/// - A reason of the marker or of a metadata block, at its place, as [`flac_native::decode`] refuses it; [`Why::Read`]
///   there if the source returned an error. Nothing was written.
/// - [`Why::BlockLength`] without a place: the comments or the padding are longer than 16777215 bytes. Nothing was
///   written.
/// - [`Why::Memory`] at a block or without a place: an allocation failed. Nothing was written.
/// - [`Why::Read`] at frame 0: the source returned an error after the metadata. A prefix of the output was written.
/// - [`Why::Write`] without a place: the target returned an error. A prefix of the output was written.
pub fn rewrite<R: Source, W: Target>(
    alloc: Global,
    source: &mut R,
    edits: &[Edit<'_>],
    padding: u32,
    target: &mut W,
) -> Result<(), RetagFault>
    // What was written is the input with its blocks arranged so; its frames and all after them are the same.
    ensures written { OnOk result
        (SendsRewritten R.Source W.Target source.old edits.now padding target.old target.new) }
    // Unless a device failed, nothing was written.
    ensures nothing { IfErr result (λ f. f ≢ not_read → f ≢ not_written → target.new ≡ target.old) }
{
    let mut reader = BitReader::new(source);
    let outcome = rewrite_from(alloc, &mut reader, edits, padding, target);
    let _source = reader.into_source(); // for its clauses alone
    outcome
}

/// Writes what is still to come with edited comments.
fn rewrite_from<R: Source, W: Target>(
    alloc: Global,
    reader: &mut BitReader<R>,
    edits: &[Edit<'_>],
    padding: u32,
    target: &mut W,
) -> Result<(), RetagFault>
    requires { reader.old.cursor.mark.unread ≡ 0 }
    ensures written { OnOk result (SendsRewrittenFrom W.Target reader.old edits.now padding target.old target.new) }
    ensures nothing { IfErr result (λ f. f ≢ not_read → f ≢ not_written → target.new ≡ target.old) }
{
    let blocks = match read_blocks(alloc, reader) {
        Ok(blocks) => blocks,
        Err(fault) => {
            return Err(RetagFault {
                at: Some(fault.at),
                why: fault.why,
            });
        }
    };
    let made = rewritten_blocks(alloc, &blocks, edits, padding);
    drop(blocks);
    let list = match made {
        Ok(list) => list,
        Err(_) => {
            return Err(RetagFault {
                at: None,
                why: Why::Memory,
            });
        }
    };
    let outcome = send_with_blocks(alloc, reader, &list, target);
    drop(list);
    outcome
}
