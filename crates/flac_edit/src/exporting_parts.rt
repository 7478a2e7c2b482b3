//! A part of the metadata of a stream, written to another file.

ghost use Rattle.std.specs.Prelude.{◌≡◌, ◌≢◌, ◌++◌, ℕ, List, true, None, Some, option_map, OnOk, IfOk, IfErr, IfSome};
ghost use Rattle.std.specs.List.{slice_get};
ghost use Rattle.flac_bits.specs.Bits.{bits_of};
ghost use Rattle.flac_meta.specs.Spelling.{content_spelling};
ghost use Rattle.flac_native.specs.Retag.{not_written};
ghost use Rattle.flac_edit.specs.Tagged.{comments_among};
ghost use Rattle.flac_edit.specs.Exported.{comment_lines, first_picture, first_sheet};
ghost use Rattle.flac_edit.specs.Rewritten.{IfRefused};
ghost use Rattle.flac_edit.specs.Parts.{IsPart, Lacks, SendsPartOf, SendsPart, LacksOf, IsPartFrom, LacksFrom};
ghost use Rattle.flac_edit.specs.declared.rewriting_blocks.EditFault.TheVariants as fault;

use crate::block_edits::BlockFault;
use crate::exporting::{comment_lines, content_of, first_picture, first_sheet};
use crate::rewriting_blocks::EditFault;
use crate::tagging::comments_among;
use flac_bits::{BitReader, Source, Target, Why, send_all};
use flac_cue::cue_text;
use flac_meta::Block;
use flac_native::{RetagFault, read_blocks};
use std::alloc::{AllocError, Global};

/// A part of the metadata of a stream.
#[derive(Clone, Copy, Debug, PartialEq, Eq)]
pub enum Part<'a> {
    /// The comments, a line each ([`comment_lines`]).
    Tags,
    /// The data of the first picture.
    Picture,
    /// The text of the first cue sheet, of the file of this name ([`cue_text`]).
    CueSheet(&'a str),
    /// The content of the block of this number ([`content_of`]); STREAMINFO is block 0.
    Block(u32),
}

/// A fault without a place.
fn whole(why: Why) -> EditFault
    ensures { result ≡ fault.Stream (record { at = None; why = why }) }
{
    EditFault::Stream(RetagFault { at: None, why })
}

/// The comments of the comment block, a line each.
fn tags_of(alloc: Global, blocks: &[Block]) -> Result<Vec<u8>, AllocError>
    ensures { IfOk result (λ v. v.items ≡ comment_lines (comments_among blocks.now).list) }
{
    let comments = comments_among(alloc, blocks)?;
    comment_lines(alloc, comments.list.as_slice())
}

/// The lines of the comments as a part.
fn tags_part(alloc: Global, blocks: &[Block]) -> Result<Vec<u8>, EditFault>
    ensures found { IfOk result (λ v. IsPart Part.Tags blocks.now v.items) }
    ensures lacks { IfErr result (IfRefused (Lacks Part.Tags blocks.now)) }
{
    match tags_of(alloc, blocks) {
        Ok(text) => Ok(text),
        Err(_) => Err(whole(Why::Memory)),
    }
}

/// The data of the first picture.
fn picture_part(alloc: Global, blocks: &[Block]) -> Result<Vec<u8>, EditFault>
    ensures found { IfOk result (λ v. IsPart Part.Picture blocks.now v.items) }
    ensures lacks { IfErr result (IfRefused (Lacks Part.Picture blocks.now)) }
{
    let Some(picture) = first_picture(blocks) else {
        return Err(EditFault::Blocks(BlockFault::NoPicture));
    };
    match Vec::from_slice(alloc, picture.bytes.as_slice()) {
        Ok(bytes) => Ok(bytes),
        Err(_) => Err(whole(Why::Memory)),
    }
}

/// The text of the first cue sheet.
fn sheet_part(alloc: Global, name: &str, blocks: &[Block]) -> Result<Vec<u8>, EditFault>
    ensures found { IfOk result (λ v. IsPart (Part.CueSheet name.entry) blocks.now v.items) }
    ensures lacks { IfErr result (IfRefused (Lacks (Part.CueSheet name.entry) blocks.now)) }
{
    let Some(sheet) = first_sheet(blocks) else {
        return Err(EditFault::Blocks(BlockFault::NoCueSheet));
    };
    match cue_text(alloc, name, sheet) {
        Ok(text) => Ok(text),
        Err(_) => Err(whole(Why::Memory)),
    }
}

/// The content of the block of this number.
fn block_part(alloc: Global, number: u32, blocks: &[Block]) -> Result<Vec<u8>, EditFault>
    ensures found { IfOk result (λ v. IsPart (Part.Block number) blocks.now v.items) }
    ensures lacks { IfErr result (IfRefused (Lacks (Part.Block number) blocks.now)) }
{
    let Some(block) = blocks.get(number as usize) else {
        return Err(EditFault::Blocks(BlockFault::NoBlock(number)));
    };
    match content_of(alloc, block) {
        Ok(bytes) => Ok(bytes),
        Err(why) => Err(whole(why)),
    }
}

/// The bytes of a part of blocks.
fn part_of(alloc: Global, part: Part<'_>, blocks: &[Block]) -> Result<Vec<u8>, EditFault>
    ensures found { IfOk result (λ v. IsPart part.entry blocks.now v.items) }
    ensures lacks { IfErr result (IfRefused (Lacks part.entry blocks.now)) }
{
    match part {
        Part::Tags => tags_part(alloc, blocks),
        Part::Picture => picture_part(alloc, blocks),
        Part::CueSheet(name) => sheet_part(alloc, name, blocks),
        Part::Block(number) => block_part(alloc, number, blocks),
    }
}

/// Sends the bytes of a part.
fn send_part<W: Target>(bytes: Vec<u8>, target: &mut W) -> Result<(), EditFault>
    ensures sent { OnOk result (W.known target.old ≡ true → W.sent target.new ≡ W.sent target.old ++ bytes.items) }
    ensures failed { IfErr result (λ f. f ≡ fault.Stream not_written) }
{
    let sent = send_all(target, &bytes);
    drop(bytes);
    match sent {
        Ok(()) => Ok(()),
        Err(_) => Err(whole(Why::Write)),
    }
}

/// Writes a part of the metadata blocks of a stream, of which STREAMINFO is the first, to a target, in whatever
/// container they were (RFC 9639, section 8).
///
/// ```
/// part_of_blocks(rt.alloc(), &blocks, Part::Tags, &mut target)?;
/// ```
///
/// # Errors
/// - [`EditFault::Blocks`]: there is no such block, no picture or no cue sheet. Nothing was written.
/// - [`EditFault::Stream`] without a place: an allocation failed, or the block cannot be written as bytes. Nothing was
///   written.
/// - The same with [`Why::Write`]: the target returned an error. A prefix of the part was written.
pub fn part_of_blocks<W: Target>(
    alloc: Global,
    blocks: &[Block],
    part: Part<'_>,
    target: &mut W,
) -> Result<(), EditFault>
    // What was written is that part of the blocks.
    ensures written { OnOk result (SendsPartOf W.Target blocks.now part.entry target.old target.new) }
    // A part is refused only if the blocks have none, for that reason.
    ensures refused { IfErr result (IfRefused (Lacks part.entry blocks.now)) }
    // Unless the target failed, nothing was written.
    ensures nothing { IfErr result (λ f. f ≢ fault.Stream not_written → target.new ≡ target.old) }
{
    match part_of(alloc, part, blocks) {
        Ok(bytes) => send_part(bytes, target),
        Err(fault) => Err(fault),
    }
}

/// Writes a part of the metadata of a native stream to a target (RFC 9639, section 8). It reads the blocks, and no
/// frame.
///
/// ```
/// export_part(rt.alloc(), &mut source, Part::Picture, &mut target)?;
/// ```
///
/// # Errors
/// - [`EditFault::Blocks`]: the stream has no such block, no picture or no cue sheet. Nothing was written.
/// - [`EditFault::Stream`] with a reason of the marker or of a metadata block, at its place, as [`flac_native::decode`]
///   refuses it; [`Why::Read`] there if the source returned an error; [`Why::Memory`] at a block or without a place if
///   an allocation failed. Nothing was written.
/// - The same with [`Why::Write`] without a place: the target returned an error. A prefix of the part was written.
pub fn export_part<R: Source, W: Target>(
    alloc: Global,
    source: &mut R,
    part: Part<'_>,
    target: &mut W,
) -> Result<(), EditFault>
    // What was written is that part of the input.
    ensures written { OnOk result (SendsPart R.Source W.Target source.old part.entry target.old target.new) }
    // A part is refused only if the input has none, for that reason.
    ensures refused { IfErr result (IfRefused (LacksOf R.Source source.old part.entry)) }
    // Unless the target failed, nothing was written.
    ensures nothing { IfErr result (λ f. f ≢ fault.Stream not_written → target.new ≡ target.old) }
{
    let mut reader = BitReader::new(source);
    let read = part_from(alloc, &mut reader, part);
    let _source = reader.into_source(); // for its clauses alone
    match read {
        Ok(bytes) => send_part(bytes, target),
        Err(fault) => Err(fault),
    }
}

/// The bytes of a part of what is still to come.
fn part_from<R: Source>(
    alloc: Global,
    reader: &mut BitReader<R>,
    part: Part<'_>,
) -> Result<Vec<u8>, EditFault>
    requires { reader.old.cursor.mark.unread ≡ 0 }
    ensures found { IfOk result (λ v. IsPartFrom reader.old part.entry v.items) }
    ensures lacks { IfErr result (IfRefused (LacksFrom reader.old part.entry)) }
{
    let blocks = match read_blocks(alloc, reader) {
        Ok(blocks) => blocks,
        Err(fault) => {
            return Err(EditFault::Stream(RetagFault {
                at: Some(fault.at),
                why: fault.why,
            }));
        }
    };
    let found = part_of(alloc, part, &blocks);
    drop(blocks);
    found
}
