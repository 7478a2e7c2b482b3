//! Metadata blocks: what they are, which can be written, and how they are read and written (RFC 9639, section 8).

ghost use Rattle.std.specs.Prelude.{◌≡◌, None, false, min, length, IfOk, ◌<◌, ◌≤◌, ◌^◌, OnErr, true, Ok, Err, Some, IfSome, ◌∷◌, []};
ghost use Rattle.flac_meta.specs.Spelling.{kind_of, length_of, header_spelling, content_spelling, block_spelling, comments_length};
ghost use Rattle.flac_meta.specs.Writing.{WritesComments};
ghost use Rattle.flac_meta.specs.Listed.{is_forbidden, block_fault, comments_fault, has_bad_sheet};
ghost use Rattle.flac_meta.specs.Header.{nothing_seen, is_repeated, block_header};
ghost use Rattle.flac_meta.specs.inner.Asked.{IsAllocated};
ghost use Rattle.flac_meta.specs.Block.{seen_after, application, content, block, MemoryAsked};
ghost use Rattle.flac_bits.specs.Reading.{Reads, ReadsGivenMemory, Call, MeansGivenMemory};
ghost use Rattle.flac_meta.specs.declared.block.BlockHeader.{BlockHeader};
ghost use Rattle.flac_bits.specs.Written.{Writes};
ghost use Rattle.flac_bits.specs.Bits.{bits_of};
ghost use Rattle.flac_bits.specs.Forms.{joined};
ghost use Rattle.flac_meta.specs.declared.block.Block.TheVariants as block_of;

use crate::comments::{Comments, put_comments, read_comments};
use crate::cue_sheet::{CueSheet, is_bad, put_sheet, read_cue_sheet, tracks_after};
use crate::fields::{Field, MOST_BYTES, TOO_LONG, capped, flag, read_raw, skip_bytes};
use crate::lists::Bytes;
use crate::picture::{Picture, put_picture, read_picture};
use crate::put::{put_fields, put_zeros};
use crate::seek_table::{SeekTable, are_in_order, put_points, read_seek_table};
use crate::stream_info::{put_info, read_stream_info};
use flac_bits::{BitReader, BitWriter, Source, Target, Why, read_bytes};
use flac_info::StreamInfo;
use std::alloc::Global;

/// A metadata block (RFC 9639, section 8.1). Sections are those of RFC 9639.
#[derive(Clone, Debug, PartialEq, Eq, Drop)]
pub enum Block {
    /// Type 0: properties of the whole stream (section 8.2).
    StreamInfo(StreamInfo),
    /// Type 1: n bytes without meaning (section 8.3). Their values are not kept: they are written as zeros.
    Padding(u32),
    /// Type 2: data of an application, which its identifier names (section 8.4).
    Application { id: [u8; 4], bytes: Bytes },
    /// Type 3: seek points (section 8.5).
    SeekTable(SeekTable),
    /// Type 4: comments, or tags (section 8.6).
    VorbisComment(Comments),
    /// Type 5: a cue sheet (section 8.7).
    CueSheet(CueSheet),
    /// Type 6: a picture (section 8.8).
    Picture(Picture),
    /// Types 7 to 126: reserved. The content is kept as it is.
    Other { kind: u8, bytes: Bytes },
}

/// Whether a block keeps raw bytes under a type that is not reserved: outside 7 to 126.
pub(crate) fn is_of_forbidden_kind(block: &Block) -> bool
    ensures { result ≡ is_forbidden block.now }
{
    match block {
        Block::Other { kind, bytes: _ } => *kind < 7 || *kind > 126,
        _ => false,
    }
}

/// Why a block cannot be written, or `None` if it can.
pub(crate) fn fault_of(block: &Block) -> Option<Why>
    ensures { result ≡ block_fault block.now }
{
    if is_of_forbidden_kind(block) {
        return Some(Why::ForbiddenType);
    }
    if block.length() > MOST_BYTES {
        return Some(Why::BlockLength);
    }
    match block {
        Block::SeekTable(table) => {
            if are_in_order(table.points()) {
                None
            } else {
                Some(Why::SeekOrder)
            }
        }
        Block::CueSheet(sheet) => is_bad(sheet).then_some(Why::CueSheet),
        _ => None,
    }
}

impl Block {
    /// The type of the block, as its header states it (RFC 9639, section 8.1).
    pub fn kind(&self) -> u8
        ensures { result ≡ kind_of self.now }
    {
        match self {
            Block::StreamInfo(_) => 0,
            Block::Padding(_) => 1,
            Block::Application { id: _, bytes: _ } => 2,
            Block::SeekTable(_) => 3,
            Block::VorbisComment(_) => 4,
            Block::CueSheet(_) => 5,
            Block::Picture(_) => 6,
            Block::Other { kind, bytes: _ } => *kind,
        }
    }

    /// The number of bytes in the content, without the block's header; or 16777216 if it is above 16777215, the most
    /// that a block can have.
    pub fn length(&self) -> u64
        ensures { result ≡ min (length_of self.now) 16777216 }
    {
        match self {
            Block::StreamInfo(_) => 34,
            Block::Padding(size) => (*size as u64).min(TOO_LONG),
            Block::Application { id: _, bytes } => capped(4, bytes.len()),
            Block::SeekTable(table) => capped(0, table.points().len().saturating_mul(18)),
            Block::VorbisComment(comments) => comments.length(),
            Block::CueSheet(sheet) => tracks_after(396, sheet.tracks.as_slice()),
            Block::Picture(picture) => {
                let media = capped(32, picture.media.len());
                let text = capped(media, picture.text.len());
                capped(text, picture.bytes.len())
            }
            Block::Other { kind: _, bytes } => capped(0, bytes.len()),
        }
    }
}

/// Which kinds of blocks were read already; what may come next depends on it (RFC 9639, section 8.1).
#[derive(Clone, Copy, Debug, PartialEq, Eq)]
pub struct Seen {
    pub(crate) stream_info: bool,
    pub(crate) seek_table: bool,
    pub(crate) comments: bool,
}

impl Seen {
    /// Begins with no block read: the next one must be STREAMINFO.
    pub fn new() -> Seen
        ensures { result ≡ nothing_seen }
    {
        Seen {
            stream_info: false,
            seek_table: false,
            comments: false,
        }
    }

    /// Whether a block of this type was read, if there may be one at most: STREAMINFO (0), a seek table (3) or a
    /// Vorbis comment (4).
    pub(crate) fn has(&self, kind: u8) -> bool
        ensures { result ≡ is_repeated self.now kind }
    {
        match kind {
            0 => self.stream_info,
            3 => self.seek_table,
            4 => self.comments,
            _ => false,
        }
    }

    /// Notes that this block was read.
    pub(crate) fn note(&mut self, block: &Block)
        ensures { self.new ≡ seen_after self.old block.now }
    {
        match block {
            Block::StreamInfo(_) => self.stream_info = true,
            Block::SeekTable(_) => self.seek_table = true,
            Block::VorbisComment(_) => self.comments = true,
            _ => {}
        }
    }
}

/// The header of a block: whether it is the last one, its type, and the length of its content in bytes (RFC 9639,
/// section 8.1).
#[derive(Clone, Copy)]
pub struct BlockHeader {
    pub last: bool,
    pub kind: u8,
    pub length: u32,
}

/// Reads the header of the next block, and checks type and length as far as they alone decide.
#[tactic(auto, unfolding(crate::specs::Header::block_header))]
pub(crate) fn read_block_header<R: Source>(
    bits: &mut BitReader<R>,
    seen: &Seen,
) -> Result<BlockHeader, Why>
    ensures small { IfOk result (λ h. h.length < 2 ^ 24) }
    ensures id { IfOk result (λ h. h.kind ≡ 2 → 4 ≤ h.length) }
    ensures reading { Call 32 (Reads (λ h. h) (block_header seen.now)) bits.old bits.new result }
{
    let last = bits.take(1)? == 1;
    let kind = bits.take(7)? as u8;
    let length = bits.take(24)? as u32;
    if !seen.stream_info && kind != 0 {
        return Err(Why::NotStreamInfoFirst);
    }
    if kind == 127 {
        return Err(Why::ForbiddenType);
    }
    if seen.has(kind) {
        return Err(Why::RepeatedBlock);
    }
    let wrong_length = match kind {
        0 => length != 34,
        2 => length < 4,
        3 => length % 18 != 0,
        _ => false,
    };
    if wrong_length {
        return Err(Why::BlockLength);
    }
    Ok(BlockHeader { last, kind, length })
}

/// Reads the content of an application block of `length` bytes (RFC 9639, section 8.4).
#[tactic(auto, unfolding(crate::specs::Block::application))]
fn read_application<R: Source>(
    alloc: Global,
    bits: &mut BitReader<R>,
    length: u32,
) -> Result<Block, Why>
    requires { 4 ≤ length }
    ensures reading { Call 0 (ReadsGivenMemory (λ b. b) (application length)) bits.old bits.new result }
{
    let mut id = [0u8; 4];
    read_bytes(bits, &mut id)?;
    let bytes = read_raw(alloc, bits, length - 4)?;
    Ok(Block::Application { id, bytes })
}

/// Reads the content of a block of this type and of `length` bytes.
#[tactic(auto, unfolding(crate::specs::Block::content, crate::specs::Block::padding, crate::specs::Block::other))]
fn read_content<R: Source>(
    alloc: Global,
    bits: &mut BitReader<R>,
    kind: u8,
    length: u32,
) -> Result<Block, Why>
    requires small { length < 2 ^ 24 }
    requires id { kind ≡ 2 → 4 ≤ length }
    ensures reading { Call 0 (ReadsGivenMemory (λ b. b) (content kind length)) bits.old bits.new result }
    ensures spare { IsAllocated kind bits.old bits.new result }
{
    match kind {
        0 => read_stream_info(bits).map(Block::StreamInfo),
        1 => {
            skip_bytes(bits, length)?;
            Ok(Block::Padding(length))
        }
        2 => read_application(alloc, bits, length),
        3 => read_seek_table(alloc, bits, length / 18).map(Block::SeekTable),
        4 => read_comments(alloc, bits, length).map(Block::VorbisComment),
        5 => read_cue_sheet(alloc, bits, length).map(Block::CueSheet),
        6 => read_picture(alloc, bits, length).map(Block::Picture),
        _ => {
            let bytes = read_raw(alloc, bits, length)?;
            Ok(Block::Other { kind, bytes })
        }
    }
}

/// What [`read_block`] does, but for the note in `seen`.
#[tactic(auto, unfolding(crate::specs::Block::block))]
fn next_block<R: Source>(
    alloc: Global,
    bits: &mut BitReader<R>,
    seen: &Seen,
) -> Result<(bool, Block), Why>
    ensures reading { Call 32 (ReadsGivenMemory (λ x. x) (block seen.now)) bits.old bits.new result }
    ensures spare { MemoryAsked seen.now bits.old bits.new result }
{
    let header = read_block_header(bits, seen)?;
    let body = read_content(alloc, bits, header.kind, header.length)?;
    Ok((header.last, body))
}

/// Reads the next metadata block, and returns whether it is marked last, and the block (RFC 9639, section 8). `seen`
/// has the kinds of blocks that were read before; the new one is noted there.
///
/// ```
/// let mut bits = BitReader::new(source); // after `fLaC`
/// let mut seen = Seen::new();
/// let (last, info) = read_block(rt.alloc(), &mut bits, &mut seen)?; // STREAMINFO
/// ```
///
/// # Errors
/// `seen` is then as before.
///
/// - [`Why::NotStreamInfoFirst`] if the first block is not STREAMINFO.
/// - [`Why::ForbiddenType`] if the type is 127.
/// - [`Why::RepeatedBlock`] if it is a second STREAMINFO, seek table or Vorbis comment.
/// - [`Why::BlockLength`] if the length does not fit the type or the fields of the content.
/// - [`Why::BadStreamInfo`], [`Why::SeekOrder`] or [`Why::CueSheet`] if the content breaks the rules of its fields.
/// - [`Why::Memory`] if an allocation fails; not for STREAMINFO and padding, which need none.
/// - Those of [`BitReader`].
pub fn read_block<R: Source>(
    alloc: Global,
    bits: &mut BitReader<R>,
    seen: &mut Seen,
) -> Result<(bool, Block), Why>
    ensures reading { Call 32 (MeansGivenMemory (λ x. x) (block seen.old)) bits.old bits.new result }
    ensures spare { MemoryAsked seen.old bits.old bits.new result }
    ensures seen { IfOk result (λ x. seen.new ≡ seen_after seen.old x.1) }
    ensures unseen { OnErr result (seen.new ≡ seen.old) }
{
    let outcome = next_block(alloc, bits, seen);
    if let Ok((_last, block)) = &outcome {
        seen.note(block);
    }
    outcome
}

/// Writes the header of a block (RFC 9639, section 8.1).
pub(crate) fn put_header<W: Target>(
    writer: &mut BitWriter<W>,
    last: bool,
    kind: u8,
    size: u32,
) -> Result<(), Why>
    requires kind { kind < 128 }
    requires size { size < 2 ^ 24 }
    ensures { Writes (header_spelling last kind size) writer.old writer.new result }
{
    let mark = flag(last);
    put_fields(
        writer,
        &[
            Field {
                bits: 1,
                value: mark,
            },
            Field {
                bits: 7,
                value: kind as u64,
            },
            Field {
                bits: 24,
                value: size as u64,
            },
        ],
    )
}

/// Writes the content of an application block (RFC 9639, section 8.4).
fn put_application<W: Target>(writer: &mut BitWriter<W>, id: &[u8], bytes: &[u8]) -> Result<(), Why>
    ensures { Writes (joined (bits_of id.now ∷ bits_of bytes.now ∷ [])) writer.old writer.new result }
{
    writer.put_bytes(id)?;
    writer.put_bytes(bytes)?;
    Ok(())
}

/// Writes the content of a block.
#[tactic(auto, unfolding(crate::specs::Spelling::content_spelling))]
fn put_content<W: Target>(writer: &mut BitWriter<W>, block: &Block) -> Result<(), Why>
    requires small { length_of block.now < 2 ^ 24 }
    requires sheet { has_bad_sheet block.now ≡ false }
    ensures { Writes (content_spelling block.now) writer.old writer.new result }
{
    match block {
        Block::StreamInfo(info) => put_info(writer, info),
        Block::Padding(size) => put_zeros(writer, 8 * *size),
        Block::Application { id, bytes } => put_application(writer, id, bytes.as_slice()),
        Block::SeekTable(table) => put_points(writer, table.points()),
        Block::VorbisComment(comments) => put_comments(writer, comments),
        Block::CueSheet(sheet) => put_sheet(writer, sheet),
        Block::Picture(picture) => put_picture(writer, picture),
        Block::Other { kind: _, bytes } => writer.put_bytes(bytes.as_slice()),
    }
}

/// Writes a block that can be written.
fn put_block<W: Target>(writer: &mut BitWriter<W>, block: &Block, last: bool) -> Result<(), Why>
    requires { block_fault block.now ≡ None }
    ensures { Writes (block_spelling last block.now) writer.old writer.new result }
{
    let kind = block.kind();
    let size = block.length();
    put_header(writer, last, kind, size as u32)?;
    put_content(writer, block)?;
    Ok(())
}

/// Writes the block of these comments, which are not too long.
fn put_comments_block<W: Target>(
    writer: &mut BitWriter<W>,
    comments: &Comments,
    last: bool,
) -> Result<(), Why>
    requires { comments_length comments.now < 2 ^ 24 }
    ensures { Writes (block_spelling last (block_of.VorbisComment comments.now)) writer.old writer.new result }
{
    let size = comments.length();
    put_header(writer, last, 4, size as u32)?;
    put_comments(writer, comments)?;
    Ok(())
}

/// Writes a metadata block: its header, marked last if `last` is true, and its content (RFC 9639, section 8).
///
/// ```
/// let mut writer = BitWriter::new(Collected::new(rt.alloc()));
/// write_block(&Block::Padding(2), true, &mut writer)?;
/// let bytes = writer.into_bytes()?; // 81 00 00 02 00 00
/// ```
///
/// # Errors
/// If the block cannot be written, nothing is written, and the error is the first of these that applies:
///
/// - [`Why::ForbiddenType`] if it is a [`Block::Other`] of a type outside 7 to 126;
/// - [`Why::BlockLength`] if the content has more than 16777215 bytes;
/// - [`Why::SeekOrder`] if the points of a seek table do not rise;
/// - [`Why::CueSheet`] if a cue sheet has no track, more than 255 tracks, or a track of more than 255 index points.
///
/// Else [`Why::Write`] if the target fails.
pub fn write_block<W: Target>(
    block: &Block,
    last: bool,
    writer: &mut BitWriter<W>,
) -> Result<(), Why>
    ensures refused { IfSome (block_fault block.now) (λ why. (result ≡ Err why) × (writer.new ≡ writer.old)) }
    ensures writes { block_fault block.now ≡ None
        → Writes (block_spelling last block.now) writer.old writer.new result }
{
    if let Some(why) = fault_of(block) {
        return Err(why);
    }
    put_block(writer, block, last)
}

/// Writes the Vorbis comment block of these comments, as [`write_block`] does.
///
/// # Errors
/// [`Why::BlockLength`] if the content has more than 16777215 bytes: then nothing is written. [`Why::Write`] if the
/// target fails.
pub fn write_comments<W: Target>(
    comments: &Comments,
    last: bool,
    writer: &mut BitWriter<W>,
) -> Result<(), Why>
    ensures refused { IfSome (comments_fault comments.now) (λ why. (result ≡ Err why) × (writer.new ≡ writer.old)) }
    ensures writes { comments_fault comments.now ≡ None →
        WritesComments last comments.now writer.old writer.new result }
{
    if comments.length() > MOST_BYTES {
        return Err(Why::BlockLength);
    }
    put_comments_block(writer, comments, last)
}
