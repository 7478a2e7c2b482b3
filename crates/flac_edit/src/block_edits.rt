//! Edits of the metadata blocks of a stream.

ghost use Rattle.std.specs.Prelude.{◌≡◌, ◌≤◌, ◌++◌, ◌∷◌, [], length, map, IfOk, OnOk, option_map};
ghost use Rattle.flac_edit.specs.BlockEdits.{is_info, is_padding, is_sheet, is_application, is_meant, is_named, is_removed, left_of, remaining, is_tail, front_len, picture_block, sheet_blocks, with_new, padding_of, arranged, removal_fault, missing, adds, is_picture, count_of, second, pictures_fault, new_blocks, is_table, point_blocks};

use flac_cue::CueWhy;
use flac_meta::{Block, CueSheet, Picture, SeekPoint, SeekTable};
use std::alloc::{AllocError, Global};

/// Which metadata blocks are removed. STREAMINFO is never one of them.
#[derive(Clone, Copy, Debug, PartialEq, Eq)]
pub enum Removal {
    /// The block of this number; STREAMINFO is block 0.
    Number(u32),
    /// All blocks of this type (RFC 9639, section 8.1).
    Kind(u8),
    /// All application blocks of this identifier (section 8.4).
    Application([u8; 4]),
}

/// Edits of the metadata blocks of a stream (RFC 9639, section 8).
#[derive(Clone, Copy, Debug)]
pub struct BlockEdits<'a> {
    /// Which blocks are removed, by their numbers and types before the edit.
    pub removals: &'a [Removal],
    /// The text of a cue sheet ([`flac_cue::cue_sheet`]), which takes the place of all cue sheets (section 8.7), before
    /// the comments and the padding; `None` to keep them.
    pub cue: Option<&'a [u8]>,
    /// The points of a seek table that takes the place of all seek tables (section 8.5), before the comments and the
    /// padding; none to remove them all, and `None` to keep them. They must be in order (section 8.5.1).
    pub points: Option<&'a [SeekPoint]>,
    /// Pictures that are added, before the comments and the padding.
    pub pictures: &'a [Picture],
    /// How many bytes of padding come last in place of all other padding, 0 for none; `None` to keep the padding.
    pub padding: Option<u32>,
}

/// Why the blocks of a stream are not edited so, or a part of them is not exported.
#[derive(Clone, Copy, Debug, PartialEq, Eq)]
pub enum BlockFault {
    /// The stream has no block of this number, or it is to be removed and is 0, STREAMINFO.
    NoBlock(u32),
    /// The stream has no picture.
    NoPicture,
    /// The stream has no cue sheet.
    NoCueSheet,
    /// STREAMINFO does not say how many samples there are, so that a cue sheet has no lead-out.
    NoTotal,
    /// The line of this number of the text, counted from 1, breaks a rule of cue sheets (RFC 9639, section 8.7).
    CueLine(u64, CueWhy),
    /// There would be two pictures of this type, 1 or 2 (RFC 9639, section 8.8).
    SecondPicture(u32),
}

/// Whether a block is STREAMINFO.
fn is_info(block: &Block) -> bool
    ensures { result ≡ is_info block.now }
{
    matches!(block, Block::StreamInfo(_))
}

/// Whether a block is padding.
fn is_padding(block: &Block) -> bool
    ensures { result ≡ is_padding block.now }
{
    matches!(block, Block::Padding(_))
}

/// Whether a block is a cue sheet.
fn is_sheet(block: &Block) -> bool
    ensures { result ≡ is_sheet block.now }
{
    matches!(block, Block::CueSheet(_))
}

/// Whether a block is a seek table.
fn is_table(block: &Block) -> bool
    ensures { result ≡ is_table block.now }
{
    matches!(block, Block::SeekTable(_))
}

/// Whether a block is that of an application of this identifier.
fn is_application(id: &[u8; 4], block: &Block) -> bool
    ensures { result ≡ is_application id.now block.now }
{
    match block {
        Block::Application {
            id: other,
            bytes: _,
        } => other[..] == id[..],
        _ => false,
    }
}

/// Whether a removal means the block of this number.
fn is_meant(removal: &Removal, number: usize, block: &Block) -> bool
    ensures { result ≡ is_meant removal.now number block.now }
{
    match removal {
        Removal::Number(n) => *n as usize == number,
        Removal::Kind(kind) => *kind == block.kind(),
        Removal::Application(id) => is_application(id, block),
    }
}

/// Whether some removal means the block of this number.
fn is_named(removals: &[Removal], number: usize, block: &Block) -> bool
    ensures { result ≡ is_named removals.now number block.now }
{
    for removal in removals {
        if is_meant(removal, number, block) {
            return true;
        }
    }
    false
}

/// Whether the block of this number is removed.
fn is_removed(edits: &BlockEdits<'_>, number: usize, block: &Block) -> bool
    ensures { result ≡ is_removed edits.now number block.now }
{
    !is_info(block)
        && ((edits.padding.is_some() && is_padding(block))
            || ((edits.cue.is_some() && is_sheet(block))
                || ((edits.points.is_some() && is_table(block))
                    || is_named(edits.removals, number, block))))
}

/// Keeps a copy of the block of this number, unless it is removed.
fn keep_left(
    kept: &mut Vec<Block>,
    edits: &BlockEdits<'_>,
    number: usize,
    block: &Block,
) -> Result<(), AllocError>
    ensures { OnOk result (kept.new.items ≡ kept.old.items ++ left_of edits.now number block.now) }
{
    if !is_removed(edits, number, block) {
        let copy = block.clone()?;
        kept.push(copy)?;
    }
    Ok(())
}

/// The blocks that are not removed, in their order.
fn remaining(
    alloc: Global,
    edits: &BlockEdits<'_>,
    blocks: &[Block],
) -> Result<Vec<Block>, AllocError>
    ensures { IfOk result (λ kept. kept.items ≡ remaining edits.now 0 blocks.now) }
{
    let mut kept = Vec::new(alloc);
    for (number, block) in blocks.iter().enumerate() {
        keep_left(&mut kept, edits, number, block)?;
    }
    Ok(kept)
}

/// Whether a block is comments or padding.
fn is_tail(block: &Block) -> bool
    ensures { result ≡ is_tail block.now }
{
    matches!(block, Block::Padding(_) | Block::VorbisComment(_))
}

/// How many blocks come before the first comments or padding.
fn front_len(blocks: &[Block]) -> usize
    ensures value { result ≡ front_len blocks.now }
    ensures inside { result ≤ length blocks.now }
{
    for (i, block) in blocks.iter().enumerate() {
        if is_tail(block) {
            return i;
        }
    }
    blocks.len()
}

/// Adds a copy of a block.
fn add_block(list: &mut Vec<Block>, block: &Block) -> Result<(), AllocError>
    ensures { OnOk result (list.new.items ≡ list.old.items ++ block.now ∷ []) }
{
    let copy = block.clone()?;
    list.push(copy)?;
    Ok(())
}

/// Adds a block of a picture.
fn add_picture(list: &mut Vec<Block>, picture: &Picture) -> Result<(), AllocError>
    ensures { OnOk result (list.new.items ≡ list.old.items ++ picture_block picture.now ∷ []) }
{
    let copy = picture.clone()?;
    list.push(Block::Picture(copy))?;
    Ok(())
}

/// Adds copies of blocks.
pub(crate) fn add_blocks(list: &mut Vec<Block>, blocks: &[Block]) -> Result<(), AllocError>
    ensures { OnOk result (list.new.items ≡ list.old.items ++ blocks.now) }
{
    for block in blocks {
        add_block(list, block)?;
    }
    Ok(())
}

/// Adds blocks of these pictures.
fn add_pictures(list: &mut Vec<Block>, pictures: &[Picture]) -> Result<(), AllocError>
    ensures { OnOk result (list.new.items ≡ list.old.items ++ map picture_block pictures.now) }
{
    for picture in pictures {
        add_picture(list, picture)?;
    }
    Ok(())
}

/// Adds the block of a cue sheet, if there is one.
fn add_sheet(list: &mut Vec<Block>, sheet: Option<CueSheet>) -> Result<(), AllocError>
    ensures { OnOk result (list.new.items ≡ list.old.items ++ sheet_blocks sheet) }
{
    if let Some(sheet) = sheet {
        list.push(Block::CueSheet(sheet))?;
    }
    Ok(())
}

/// Adds the block of a seek table of these points, if there are some.
fn add_points(
    alloc: Global,
    list: &mut Vec<Block>,
    points: Option<&[SeekPoint]>,
) -> Result<(), AllocError>
    ensures { OnOk result (list.new.items ≡ list.old.items ++ point_blocks (option_map (λ p. p.now) points.entry)) }
{
    if let Some(points) = points {
        if !points.is_empty() {
            let copy = Vec::from_slice(alloc, points)?;
            list.push(Block::SeekTable(SeekTable::from_vec(copy)))?;
        }
    }
    Ok(())
}

/// The blocks with the seek table, this cue sheet and the pictures of edits before the comments and the padding.
fn with_new(
    alloc: Global,
    edits: &BlockEdits<'_>,
    sheet: Option<CueSheet>,
    blocks: &[Block],
) -> Result<Vec<Block>, AllocError>
    ensures { IfOk result (λ list. list.items ≡ with_new (new_blocks edits.now sheet) blocks.now) }
{
    let (front, tail) = blocks.split_at(front_len(blocks));
    let mut list = Vec::new(alloc);
    add_blocks(&mut list, front)?;
    add_points(alloc, &mut list, edits.points)?;
    add_sheet(&mut list, sheet)?;
    add_pictures(&mut list, edits.pictures)?;
    add_blocks(&mut list, tail)?;
    Ok(list)
}

/// Adds a block of padding of this many bytes; none if it is 0.
fn add_padding(list: &mut Vec<Block>, size: u32) -> Result<(), AllocError>
    ensures { OnOk result (list.new.items ≡ list.old.items ++ padding_of size) }
{
    if size != 0 {
        list.push(Block::Padding(size))?;
    }
    Ok(())
}

/// The blocks after edits whose cue sheet is this one.
///
/// # Errors
/// `AllocError` if an allocation fails.
pub(crate) fn arranged(
    alloc: Global,
    edits: &BlockEdits<'_>,
    sheet: Option<CueSheet>,
    blocks: &[Block],
) -> Result<Vec<Block>, AllocError>
    ensures { IfOk result (λ list. list.items ≡ arranged edits.now sheet blocks.now) }
{
    let left = remaining(alloc, edits, blocks)?;
    let mut list = with_new(alloc, edits, sheet, &left)?;
    add_padding(&mut list, edits.padding.unwrap_or(0))?;
    Ok(list)
}

/// Why a removal is refused among this many blocks.
fn removal_fault(count: usize, removal: &Removal) -> Option<BlockFault>
    ensures { result ≡ removal_fault count removal.now }
{
    match removal {
        Removal::Number(n) if *n == 0 || *n as usize >= count => Some(BlockFault::NoBlock(*n)),
        _ => None,
    }
}

/// Why one of these removals is refused among this many blocks.
pub(crate) fn missing(count: usize, removals: &[Removal]) -> Option<BlockFault>
    ensures { result ≡ missing count removals.now }
{
    for removal in removals {
        if let Some(fault) = removal_fault(count, removal) {
            return Some(fault);
        }
    }
    None
}

/// Whether one of the pictures has this type.
fn adds(kind: u32, pictures: &[Picture]) -> bool
    ensures { result ≡ adds kind pictures.now }
{
    for picture in pictures {
        if picture.kind == kind {
            return true;
        }
    }
    false
}

/// Whether a block is a picture of this type.
fn is_picture(kind: u32, block: &Block) -> bool
    ensures { result ≡ is_picture kind block.now }
{
    match block {
        Block::Picture(picture) => picture.kind == kind,
        _ => false,
    }
}

/// How many pictures have this type.
fn count_of(kind: u32, blocks: &[Block]) -> usize
    ensures { result ≡ count_of kind blocks.now }
{
    let mut count = 0;
    for block in blocks {
        if is_picture(kind, block) {
            count += 1;
        }
    }
    count
}

/// Why a picture of this type may not be added, if the blocks are to be these.
fn second(edits: &BlockEdits<'_>, kind: u32, news: &[Block]) -> Option<BlockFault>
    ensures { result ≡ second edits.now kind news.now }
{
    if adds(kind, edits.pictures) && count_of(kind, news) > 1 {
        return Some(BlockFault::SecondPicture(kind));
    }
    None
}

/// Why the pictures may not be added, if the blocks are to be these.
pub(crate) fn pictures_fault(edits: &BlockEdits<'_>, news: &[Block]) -> Option<BlockFault>
    ensures { result ≡ pictures_fault edits.now news.now }
{
    match second(edits, 1, news) {
        Some(fault) => Some(fault),
        None => second(edits, 2, news),
    }
}
