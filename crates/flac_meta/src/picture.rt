//! Pictures (RFC 9639, section 8.8).

ghost use Rattle.std.specs.Prelude.{OnOk, IfOk, ◌+◌, ◌<◌, ◌≤◌, ◌^◌, length};
ghost use Rattle.flac_bits.specs.Reading.{Reads, ReadsGivenMemory, Call};
ghost use Rattle.flac_meta.specs.Picture.{picture, picture_front, sizes};
ghost use Rattle.flac_bits.specs.Written.{Writes};
ghost use Rattle.flac_meta.specs.Spelling.{picture_spelling};

use crate::fields::{Field, read_number_32, read_sized};
use crate::lists::Bytes;
use crate::put::{put_fields, put_sized};
use flac_bits::{BitReader, BitWriter, Source, Target, Why};
use std::alloc::Global;

/// A picture (RFC 9639, section 8.8).
#[derive(Clone, Debug, PartialEq, Eq, Drop)]
pub struct Picture {
    /// What it shows, by the numbers of section 8.8: 3 is the front cover.
    pub kind: u32,
    /// The media type, or `-->` if the data is a URI.
    pub media: Bytes,
    /// The description.
    pub text: Bytes,
    /// Width in pixels, 0 if unknown.
    pub width: u32,
    /// Height in pixels, 0 if unknown.
    pub height: u32,
    /// Bits per pixel, 0 if unknown.
    pub depth: u32,
    /// How many colours an indexed picture uses, 0 for others.
    pub colours: u32,
    /// The data of the picture.
    pub bytes: Bytes,
}

/// Width, height, bits per pixel and number of colours of a picture.
#[derive(Clone, Copy)]
struct PictureSizes {
    width: u32,
    height: u32,
    depth: u32,
    colours: u32,
}

/// Reads the sizes of a picture, of a content of which `left` bytes are left.
#[tactic(auto, unfolding(crate::specs::Picture::sizes))]
fn read_sizes<R: Source>(bits: &mut BitReader<R>, left: u32) -> Result<PictureSizes, Why>
    requires { left < 2 ^ 24 }
    ensures fits { OnOk result (16 ≤ left) }
    ensures reading { Call 0 (Reads (λ s. (s.width, s.height, s.depth, s.colours)) (sizes left))
        bits.old bits.new result }
{
    let width = read_number_32(bits, left)?;
    let height = read_number_32(bits, left - 4)?;
    let depth = read_number_32(bits, left - 8)?;
    let colours = read_number_32(bits, left - 12)?;
    Ok(PictureSizes {
        width,
        height,
        depth,
        colours,
    })
}

/// Reads kind, media type and description of a picture, of a content of which `left` bytes are left.
#[tactic(auto, unfolding(crate::specs::Picture::picture_front))]
fn read_picture_front<R: Source>(
    alloc: Global,
    bits: &mut BitReader<R>,
    left: u32,
) -> Result<(u32, Bytes, Bytes), Why>
    requires { left < 2 ^ 24 }
    ensures fits { IfOk result (λ f. 12 + length f.1 + length f.2 ≤ left) }
    ensures reading { Call 0 (ReadsGivenMemory (λ f. f) (picture_front left)) bits.old bits.new result }
{
    let kind = read_number_32(bits, left)?;
    let media = read_sized(alloc, bits, left - 4)?;
    let text = read_sized(alloc, bits, left - (8 + media.len() as u32))?;
    Ok((kind, media, text))
}

/// Reads a picture of `left` bytes (RFC 9639, section 8.8).
#[tactic(auto, unfolding(crate::specs::Picture::picture))]
pub(crate) fn read_picture<R: Source>(
    alloc: Global,
    bits: &mut BitReader<R>,
    left: u32,
) -> Result<Picture, Why>
    requires { left < 2 ^ 24 }
    ensures reading { Call 0 (ReadsGivenMemory (λ p. p) (picture left)) bits.old bits.new result }
{
    let (kind, media, text) = read_picture_front(alloc, bits, left)?;
    let rest = left - (12 + media.len() as u32 + text.len() as u32);
    let sizes = read_sizes(bits, rest)?;
    let bytes = read_sized(alloc, bits, rest - 16)?;
    if rest - (20 + bytes.len() as u32) != 0 {
        return Err(Why::BlockLength);
    }
    Ok(Picture {
        kind,
        media,
        text,
        width: sizes.width,
        height: sizes.height,
        depth: sizes.depth,
        colours: sizes.colours,
        bytes,
    })
}

/// Writes a picture (RFC 9639, section 8.8).
pub(crate) fn put_picture<W: Target>(
    writer: &mut BitWriter<W>,
    picture: &Picture,
) -> Result<(), Why>
    requires { 32 + length picture.now.media + length picture.now.text + length picture.now.bytes < 2 ^ 24 }
    ensures { Writes (picture_spelling picture.now) writer.old writer.new result }
{
    let media = picture.media.as_slice();
    let text = picture.text.as_slice();
    let bytes = picture.bytes.as_slice();
    writer.put(32, picture.kind as u64)?;
    put_sized(writer, media)?;
    put_sized(writer, text)?;
    put_fields(
        writer,
        &[
            Field {
                bits: 32,
                value: picture.width as u64,
            },
            Field {
                bits: 32,
                value: picture.height as u64,
            },
            Field {
                bits: 32,
                value: picture.depth as u64,
            },
            Field {
                bits: 32,
                value: picture.colours as u64,
            },
        ],
    )?;
    put_sized(writer, bytes)
}
