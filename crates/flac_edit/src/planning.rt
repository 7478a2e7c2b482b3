//! Which bytes are written where.

ghost use Rattle.std.specs.Prelude.{◌≡◌, ◌≤◌, ◌<◌, ◌+◌, ◌*◌, ◌++◌, ◌^◌, false, [], ◌∷◌, length, IfOk, IfErr};
ghost use Rattle.flac_bits.specs.Bits.{bits_of, bit_value, unsigned};
ghost use Rattle.flac_bits.specs.Forms.{joined};
ghost use Rattle.flac_bits.specs.Written.{Writes};
ghost use Rattle.flac_meta.specs.Spelling.{header_spelling, comments_length};
ghost use Rattle.flac_edit.specs.inner.Planned.{comments_block_spelling, IsBefore, IsAfter};

use crate::flipping::Change;
use flac_bits::{BitWriter, Collected, Target, Why};
use flac_meta::{Comments, write_comments};
use std::alloc::Global;

/// The comment block of these comments, which is not the last block.
pub(crate) fn comments_block(alloc: Global, comments: &Comments) -> Result<Vec<u8>, Why>
    requires { comments_length comments.now ≤ 16777215 }
    ensures spelled { IfOk result (λ bytes. bits_of bytes.items ≡ comments_block_spelling comments.now) }
    ensures long { IfOk result (λ bytes. length bytes.items ≡ 4 + comments_length comments.now) }
    ensures memory { IfErr result (λ e. e ≡ Why.Memory) }
{
    let mut writer = BitWriter::new(Collected::new(alloc));
    match write_comments(comments, false, &mut writer) {
        Ok(()) => writer.into_bytes(),
        Err(why) => Err(why.in_memory()),
    }
}

fn flag(set: bool) -> u64
    ensures value { result ≡ bit_value set }
    ensures fits { result < 2 ^ 1 }
{
    if set { 1 } else { 0 }
}

/// Writes the header of padding of `size` bytes (RFC 9639, section 8.1).
fn put_padding_header<W: Target>(
    writer: &mut BitWriter<W>,
    last: bool,
    size: u32,
) -> Result<(), Why>
    requires { size < 2 ^ 24 }
    ensures { Writes (header_spelling last 1 size) writer.old writer.new result }
{
    let mark = flag(last);
    writer.put(1, mark)?;
    writer.put(7, 1)?;
    writer.put(24, size as u64)?;
    Ok(())
}

/// The header of padding of `size` bytes.
pub(crate) fn padding_header(alloc: Global, last: bool, size: u32) -> Result<Vec<u8>, Why>
    requires { size < 2 ^ 24 }
    ensures spelled { IfOk result (λ bytes. bits_of bytes.items ≡ header_spelling last 1 size) }
    ensures long { IfOk result (λ bytes. length bytes.items ≡ 4) }
    ensures memory { IfErr result (λ e. e ≡ Why.Memory) }
{
    let mut writer = BitWriter::new(Collected::new(alloc));
    match put_padding_header(&mut writer, last, size) {
        Ok(()) => writer.into_bytes(),
        Err(why) => Err(why.in_memory()),
    }
}

/// New comments in the place of padding at an offset, before the old ones. What is left of it, and `following` bytes of
/// blocks after it, become one padding, which is the last block if `last` says so.
pub(crate) fn change_before(
    alloc: Global,
    at: usize,
    padding: u32,
    following: u32,
    last: bool,
    comments: &Comments,
) -> Result<Change, Why>
    requires room { comments_length comments.now + 4 ≤ padding }
    requires short { padding + following ≤ comments_length comments.now + 4 + 16777215 }
    requires padding { padding ≤ 16777215 }
    requires inside { at + 4 + padding + following < 2 ^ 64 }
    ensures is { IfOk result (λ plan. IsBefore at padding following last comments.now plan) }
    ensures memory { IfErr result (λ e. e ≡ Why.Memory) }
{
    let block = comments_block(alloc, comments)?;
    let count = block.len() as u32;
    let left = (padding - count) + following;
    let header = Vec::from_slice(alloc, &block[..4])?;
    let mut bytes = Vec::from_slice(alloc, &block[4..])?;
    let tail = padding_header(alloc, last, left)?;
    bytes.extend_from_slice(&tail)?;
    let zeros = vec![in alloc; 0u8; left as usize]?;
    Ok(Change {
        at: at + 4,
        bytes,
        header_at: at,
        header,
        zeros_at: at + 4 + count as usize,
        zeros,
    })
}

/// New comments inside padding after `preceding` bytes of blocks at an offset, which become one padding. What is left
/// of the padding is the last block if `last` says so.
pub(crate) fn change_after(
    alloc: Global,
    at: usize,
    preceding: u32,
    padding: u32,
    last: bool,
    comments: &Comments,
) -> Result<Change, Why>
    requires room { comments_length comments.now + 8 ≤ padding }
    requires short { preceding ≤ 16777215 }
    requires some { 4 ≤ preceding }
    requires padding { padding ≤ 16777215 }
    requires inside { at + preceding + 4 + padding < 2 ^ 64 }
    ensures is { IfOk result (λ plan. IsAfter at preceding padding last comments.now plan) }
    ensures memory { IfErr result (λ e. e ≡ Why.Memory) }
{
    let mut bytes = comments_block(alloc, comments)?;
    let left = padding - (bytes.len() as u32 + 4);
    let tail = padding_header(alloc, last, left)?;
    bytes.extend_from_slice(&tail)?;
    let header = padding_header(alloc, false, preceding)?;
    let zeros = vec![in alloc; 0u8; preceding as usize]?;
    Ok(Change {
        at: at + preceding as usize + 4,
        bytes,
        header_at: at,
        header,
        zeros_at: at + 4,
        zeros,
    })
}
