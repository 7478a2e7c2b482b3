//! Lists the metadata blocks of a native stream.

ghost use Rattle.std.specs.Prelude.{◌≡◌, ◌≢◌, ◌⊎◌, ◌≤◌, ◌<◌, ◌+◌, ◌*◌, ◌^◌, [], length, true, None, Some, OnOk, IfOk, IfErr};
ghost use Rattle.flac_header.specs.declared.subset.Profile.{Profile};
ghost use Rattle.flac_meta.specs.Spelling.{length_of};
ghost use Rattle.flac_native.specs.Item.{fault_pair};
ghost use Rattle.flac_c.specs.Answers.{IsAnswered, in_c};
ghost use Rattle.flac_c.specs.Cursors.{OfStream};
ghost use Rattle.flac_c.specs.Described.{parts_in, no_picture, picture_at, picture_in, block_at, ListsBlocks, WritesBlocks};
ghost use Rattle.flac_c.specs.Starts.{RefusesHead};
ghost use Rattle.flac_c.specs.inner.Blocks.{NoBlock, HeadRead, IsRefusedIn};
ghost use Rattle.flac_c.specs.inner.Described.{BlockListed, ListOf};

use crate::fault::{FlacProvedFault, in_c};
use crate::texts::copy;
use flac_bits::{BitReader, Memory, Why};
use flac_meta::{Block, Picture, Seen, read_block};
use flac_native::{Fault, Place, read_marker};
use std::alloc::Global;

/// Some bytes of a stream.
#[repr(C)]
#[derive(Clone, Copy, Drop)]
pub struct FlacProvedSpan {
    /// Bytes from the first byte of the stream to the first of them.
    pub offset: u64,
    /// How many there are.
    pub len: u64,
}

/// A picture (RFC 9639, section 8.8).
#[repr(C)]
#[derive(Clone, Copy, Drop)]
pub struct FlacProvedPicture {
    /// What it shows, by the numbers of section 8.8: 3 is the front cover.
    pub kind: u32,
    /// Width in pixels, 0 if unknown.
    pub width: u32,
    /// Height in pixels, 0 if unknown.
    pub height: u32,
    /// Bits per pixel, 0 if unknown.
    pub depth: u32,
    /// How many colours an indexed picture uses, 0 for others.
    pub colours: u32,
    /// The media type.
    pub media: FlacProvedSpan,
    /// The description.
    pub text: FlacProvedSpan,
    /// The data of the picture.
    pub bytes: FlacProvedSpan,
}

/// A metadata block (RFC 9639, section 8.1).
#[repr(C)]
#[derive(Clone, Copy, Drop)]
pub struct FlacProvedBlock {
    /// Bytes from the first byte of the stream to the block's header, which has 4 bytes.
    pub offset: u64,
    /// Bytes of the content, which comes after the header.
    pub length: u64,
    /// How many comments, seek points, or tracks of a cue sheet it has; 0 for other types.
    pub parts: u64,
    /// The type of the block, 0 to 126.
    pub kind: u32,
    /// 1 if it is the last block, else 0.
    pub last: u32,
    /// The picture of a block of type 6; zeros for other types.
    pub picture: FlacProvedPicture,
}

/// How many comments, seek points or tracks a block has.
fn parts_in(block: &Block) -> u64
    ensures { result ≡ parts_in block.now }
{
    match block {
        Block::VorbisComment(comments) => comments.len() as u64,
        Block::SeekTable(table) => table.points().len() as u64,
        Block::CueSheet(sheet) => sheet.tracks.len() as u64,
        _ => 0,
    }
}

/// No picture: zeros.
fn no_picture() -> FlacProvedPicture
    ensures { result ≡ no_picture }
{
    let nothing = FlacProvedSpan { offset: 0, len: 0 };
    FlacProvedPicture {
        kind: 0,
        width: 0,
        height: 0,
        depth: 0,
        colours: 0,
        media: nothing,
        text: nothing,
        bytes: nothing,
    }
}

/// A picture whose block has its content at an offset.
fn picture_at(at: u64, picture: &Picture) -> FlacProvedPicture
    requires { at + 32 + length picture.now.media + length picture.now.text < 2 ^ 64 }
    ensures { result ≡ picture_at at picture.now }
{
    let media = picture.media.len() as u64;
    let text = picture.text.len() as u64;
    FlacProvedPicture {
        kind: picture.kind,
        width: picture.width,
        height: picture.height,
        depth: picture.depth,
        colours: picture.colours,
        media: FlacProvedSpan {
            offset: at + 8,
            len: media,
        },
        text: FlacProvedSpan {
            offset: at + 12 + media,
            len: text,
        },
        bytes: FlacProvedSpan {
            offset: at + 32 + media + text,
            len: picture.bytes.len() as u64,
        },
    }
}

/// The picture of a block whose content is at an offset; zeros if it has none.
fn picture_in(at: u64, block: &Block) -> FlacProvedPicture
    requires { at + length_of block.now < 2 ^ 64 }
    ensures { result ≡ picture_in at block.now }
{
    match block {
        Block::Picture(picture) => picture_at(at, picture),
        _ => no_picture(),
    }
}

/// A block whose header is at an offset.
fn block_at(at: u64, last: bool, block: &Block) -> FlacProvedBlock
    requires small { length_of block.now < 2 ^ 24 }
    requires within { at + 4 + length_of block.now < 2 ^ 64 }
    ensures { result ≡ block_at at last block.now }
{
    FlacProvedBlock {
        offset: at,
        length: block.length(),
        parts: parts_in(block),
        kind: u32::from(block.kind()),
        last: u32::from(last),
        picture: picture_in(at + 4, block),
    }
}

/// Reads the next block, adds it to the list, and returns whether it is marked last.
fn list_block(
    alloc: Global,
    bits: &mut BitReader<Memory<'_>>,
    seen: &mut Seen,
    list: &mut Vec<FlacProvedBlock>,
) -> Result<bool, Why>
    requires known { bits.old.known ≡ true }
    requires whole { bits.old.cursor.mark.unread ≡ 0 }
    requires short { 8 * bits.old.cursor.mark.bytes + length bits.old.cursor.left < 2 ^ 67 }
    ensures read { IfOk result (BlockListed seen.old seen.new bits.old bits.new list.old.items list.new.items) }
    ensures refused { IfErr result (NoBlock seen.old bits.old bits.new) }
{
    let at = bits.bytes_taken();
    bits.start_checks();
    match read_block(alloc, bits, seen) {
        Ok(read) => {
            let described = block_at(at, read.0, &read.1);
            match list.push(described) {
                Ok(()) => Ok(read.0),
                Err(_) => Err(Why::Memory),
            }
        }
        Err(why) => Err(why),
    }
}

/// Reads the marker and all blocks, and lists the blocks.
fn list_parts(
    alloc: Global,
    bits: &mut BitReader<Memory<'_>>,
    list: &mut Vec<FlacProvedBlock>,
) -> Result<(), Fault>
    requires known { bits.old.known ≡ true }
    requires whole { bits.old.cursor.mark.unread ≡ 0 }
    requires start { bits.old.cursor.mark.bytes ≡ 0 }
    requires short { length bits.old.cursor.left < 2 ^ 67 }
    requires none { list.old.items ≡ [] }
    ensures read { OnOk result ((profile : Profile) → HeadRead profile bits.old bits.new (ListOf list.new.items)) }
    ensures refused { IfErr result (λ f. (profile : Profile) → IsRefusedIn profile bits.old bits.new f) }
{
    bits.start_checks();
    match read_marker(bits) {
        Ok(()) => {}
        Err(why) => {
            return Err(Fault {
                at: Place::Marker,
                why,
            });
        }
    }
    let mut seen = Seen::new();
    for index in 0..u64::MAX {
        match list_block(alloc, bits, &mut seen, list) {
            Ok(true) => return Ok(()),
            Ok(false) => {}
            Err(why) => {
                return Err(Fault {
                    at: Place::Block(index),
                    why,
                });
            }
        }
    }
    Err(Fault {
        at: Place::Block(u64::MAX),
        why: Why::Memory,
    })
}

/// Lists the metadata blocks with which a native stream begins.
fn list_blocks(alloc: Global, bytes: &[u8], list: &mut Vec<FlacProvedBlock>) -> Result<(), Fault>
    requires { list.old.items ≡ [] }
    ensures read { OnOk result ((profile : Profile) → ListsBlocks profile bytes.now list.new.items) }
    ensures refused { IfErr result (λ f. (profile : Profile) → RefusesHead profile bytes.now (Some (fault_pair f))) }
{
    // Read only for the proof, which then knows that a slice is shorter than 2^64 bytes.
    let _len = bytes.len();
    let mut bits = BitReader::new(Memory::new(bytes));
    let outcome = list_parts(alloc, &mut bits, list);
    // Given back only for the proof, which then knows that a source in memory returns no error.
    let _source = bits.into_source();
    match outcome {
        Ok(()) => Ok(()),
        Err(fault) => Err(fault),
    }
}

/// Lists the metadata blocks of a native stream in their order, and writes them to the front of `out`, as far as there
/// is room (RFC 9639, section 8): where each is, its type, and of a picture where its media type, its description and
/// its data are. `len` becomes the number of blocks. `bytes` may be a prefix of the stream that has all of them. An Ogg
/// stream is refused at the marker.
///
/// Returns 0, or the number of the fault of the marker or of a block, or 2 if an allocation fails; `out` and `len` are
/// unchanged then.
#[unsafe(no_mangle)]
pub extern "C" fn flac_proved_blocks(
    alloc: Global,
    bytes: &[u8],
    out: &mut [FlacProvedBlock],
    len: &mut usize,
    fault: &mut FlacProvedFault,
) -> u32
    ensures listed { result ≡ 0 → (profile : Profile) → WritesBlocks profile bytes.now out.old out.new len.new }
    ensures streams { (profile : Profile) → OfStream profile bytes.now (λ _. (result ≡ 2) ⊎ (result ≡ 0)) }
    ensures refused { result ≢ 0 → (profile : Profile) → IsAnswered (RefusesHead profile bytes.now) fault.new }
    ensures kept { result ≢ 0 → (out.new ≡ out.old) × (len.new ≡ len.old) }
    ensures number { result ≡ fault.new.number }
    ensures clear { result ≡ 0 → fault.new ≡ in_c None }
{
    let mut list = Vec::new(alloc);
    match list_blocks(alloc, bytes, &mut list) {
        Ok(()) => {
            *fault = in_c(Ok(()));
            *len = copy(list.as_slice(), out);
            0
        }
        Err(refusal) => {
            *fault = in_c(Err(refusal));
            fault.number
        }
    }
}
