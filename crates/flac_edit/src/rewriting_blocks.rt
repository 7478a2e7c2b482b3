//! Writes a stream with edited metadata blocks to another file.

ghost use Rattle.std.specs.Prelude.{◌≡◌, ◌≢◌, true, OnOk, IfOk, IfErr};
ghost use Rattle.flac_native.specs.Retag.{not_read, not_written};
ghost use Rattle.flac_edit.specs.BlockEdits.{edited_blocks, block_fault};
ghost use Rattle.flac_edit.specs.Rewritten.{Judges, IfRefused, SendsBlocks, SendsBlocksFrom, RefusesBlocksOf, RefusesBlocksFrom, IsOfNoDevice};
ghost use Rattle.flac_edit.specs.declared.rewriting_blocks.EditFault.TheVariants as fault;

use crate::block_edits::{BlockEdits, BlockFault, arranged, missing, pictures_fault};
use crate::cue_sheets::new_sheet;
use flac_bits::{BitReader, Source, Target, Why};
use flac_meta::Block;
use flac_native::{RetagFault, read_blocks, send_with_blocks};
use std::alloc::Global;

/// Why a stream was not written with edited blocks.
#[derive(Clone, Copy, Debug, PartialEq, Eq)]
pub enum EditFault {
    /// The edits do not fit its blocks.
    Blocks(BlockFault),
    /// The stream is refused, or it could not be read or written.
    Stream(RetagFault),
}

/// The blocks after these edits, STREAMINFO the first: those that are not removed, with the new cue sheet and then the
/// new pictures before the comments and the padding, and the new padding last. A cue sheet is that of the audio that
/// STREAMINFO says, and of a CD if its format is that of one and it is a whole number of frames of 588 samples.
///
/// # Errors
/// The edits do not fit the blocks, as [`rewrite_blocks`] says, or an allocation failed ([`Why::Memory`], without a
/// place).
#[tactic(auto, unfolding(crate::specs::BlockEdits::edited_blocks))]
pub fn edited_blocks(
    alloc: Global,
    edits: &BlockEdits<'_>,
    blocks: &[Block],
) -> Result<Vec<Block>, EditFault>
    ensures made { IfOk result (λ list. list.items ≡ edited_blocks edits.now blocks.now) }
    ensures judged { Judges result (block_fault edits.now blocks.now) }
{
    if let Some(fault) = missing(blocks.len(), edits.removals) {
        return Err(EditFault::Blocks(fault));
    }
    let sheet = new_sheet(alloc, edits, blocks)?;
    let Ok(list) = arranged(alloc, edits, sheet, blocks) else {
        return Err(EditFault::Stream(RetagFault {
            at: None,
            why: Why::Memory,
        }));
    };
    match pictures_fault(edits, &list) {
        Some(fault) => Err(EditFault::Blocks(fault)),
        None => Ok(list),
    }
}

/// Writes a native stream with edited metadata blocks (RFC 9639, sections 6 and 8): the marker, the blocks that are not
/// removed, with a new seek table, cue sheet and new pictures before the comments and the padding, new padding last,
/// and then all bytes that follow the metadata. These are copied as they are, and not verified; so the offsets of a
/// seek table stay right.
///
/// ```
/// let removals = &[Removal::Kind(6)];
/// let edits = BlockEdits { removals, cue: None, points: None, pictures: &[], padding: Some(8192) };
/// rewrite_blocks(rt.alloc(), &mut source, &edits, &mut target)?; // without its pictures
/// ```
///
/// # Errors
/// - [`EditFault::Blocks`]: a removal names a block that is not there, or STREAMINFO; STREAMINFO does not say how many
///   samples a cue sheet is of, or a line of its text is wrong (section 8.7); or there would be two pictures of type 1,
///   or of type 2, one of them new (section 8.8). Nothing was written.
/// - [`EditFault::Stream`] with a reason of the marker or of a metadata block, at its place, as [`flac_native::decode`]
///   refuses it; [`Why::Read`] there if the source returned an error. Nothing was written.
/// - The same with [`Why::BlockLength`] without a place: a picture or the padding is longer than 16777215 bytes; with
///   [`Why::Memory`] at a block or without a place: an allocation failed. Nothing was written.
/// - The same with [`Why::Read`] at frame 0: the source returned an error after the metadata; with [`Why::Write`]
///   without a place: the target returned an error. A prefix of the output was written.
pub fn rewrite_blocks<R: Source, W: Target>(
    alloc: Global,
    source: &mut R,
    edits: &BlockEdits<'_>,
    target: &mut W,
) -> Result<(), EditFault>
    // What was written is the input with its blocks edited so; its frames and all after them are the same.
    ensures written { OnOk result (SendsBlocks R.Source W.Target source.old edits.now target.old target.new) }
    // Edits are refused only if they do not fit the blocks, for that reason.
    ensures refused { IfErr result (IfRefused (RefusesBlocksOf R.Source source.old edits.now)) }
    // Unless a device failed, nothing was written.
    ensures nothing { IfErr result (λ f. IsOfNoDevice f (target.new ≡ target.old)) }
{
    let mut reader = BitReader::new(source);
    let outcome = rewrite_blocks_from(alloc, &mut reader, edits, target);
    let _source = reader.into_source(); // for its clauses alone
    outcome
}

/// Writes what is still to come with edited blocks.
fn rewrite_blocks_from<R: Source, W: Target>(
    alloc: Global,
    reader: &mut BitReader<R>,
    edits: &BlockEdits<'_>,
    target: &mut W,
) -> Result<(), EditFault>
    requires { reader.old.cursor.mark.unread ≡ 0 }
    ensures written { OnOk result (SendsBlocksFrom W.Target reader.old edits.now target.old target.new) }
    ensures refused { IfErr result (IfRefused (RefusesBlocksFrom reader.old edits.now)) }
    ensures nothing { IfErr result (λ f. IsOfNoDevice f (target.new ≡ target.old)) }
{
    let blocks = match read_blocks(alloc, reader) {
        Ok(blocks) => blocks,
        Err(fault) => {
            return Err(EditFault::Stream(RetagFault {
                at: Some(fault.at),
                why: fault.why,
            }));
        }
    };
    let made = edited_blocks(alloc, edits, &blocks);
    drop(blocks);
    let list = match made {
        Ok(list) => list,
        Err(fault) => return Err(fault),
    };
    let outcome = send_with_blocks(alloc, reader, &list, target);
    drop(list);
    match outcome {
        Ok(()) => Ok(()),
        Err(fault) => Err(EditFault::Stream(fault)),
    }
}
