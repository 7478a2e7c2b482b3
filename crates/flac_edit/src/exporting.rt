//! What is exported of the metadata blocks of a stream.

ghost use Rattle.std.specs.Prelude.{◌≡◌, ◌≤◌, ◌<◌, ◌++◌, false, length, option_map, IfOk, OnOk};
ghost use Rattle.flac_bits.specs.Bits.{bits_of};
ghost use Rattle.flac_meta.specs.Spelling.{block_spelling, content_spelling};
ghost use Rattle.flac_edit.specs.Exported.{hex_digit, escaped_byte, escaped, comment_line, comment_lines, first_picture, first_sheet};

use flac_bits::{BitWriter, Collected, Why};
use flac_meta::{Block, Bytes, CueSheet, Picture, write_block};
use std::alloc::{AllocError, Global};

/// A hexadecimal digit, a small letter from 10 on.
fn hex_digit(value: u8) -> u8
    requires { value < 16 }
    ensures { result ≡ hex_digit value }
{
    if value < 10 { 48 + value } else { 87 + value }
}

/// Adds a byte of a text.
fn push_escaped(text: &mut Vec<u8>, byte: u8) -> Result<(), AllocError>
    ensures { OnOk result (text.new.items ≡ text.old.items ++ escaped_byte byte) }
{
    if 32 <= byte && byte < 127 && byte != 92 {
        text.push(byte)?;
        return Ok(());
    }
    text.extend_from_slice(&[92, 120, hex_digit(byte / 16), hex_digit(byte % 16)])?;
    Ok(())
}

/// Adds the bytes of a text.
fn push_all_escaped(text: &mut Vec<u8>, bytes: &[u8]) -> Result<(), AllocError>
    ensures { OnOk result (text.new.items ≡ text.old.items ++ escaped bytes.now) }
{
    for byte in bytes {
        push_escaped(text, *byte)?;
    }
    Ok(())
}

/// Adds the line of a comment.
fn push_line(text: &mut Vec<u8>, comment: &Bytes) -> Result<(), AllocError>
    ensures { OnOk result (text.new.items ≡ text.old.items ++ comment_line comment.now) }
{
    push_all_escaped(text, comment.as_slice())?;
    text.push(10)?;
    Ok(())
}

/// A line for each comment, in their order: bytes from 20 to 7E (hexadecimal) except the backslash as themselves, all
/// others as `\x` and two digits. So each line is one comment, whatever its bytes are.
///
/// ```
/// let text = comment_lines(rt.alloc(), comments.list.as_slice())?; // b"TITLE=Air\nARTIST=J. S. Bach\n"
/// ```
///
/// # Errors
/// `AllocError` if an allocation fails.
pub fn comment_lines(alloc: Global, comments: &[Bytes]) -> Result<Vec<u8>, AllocError>
    ensures { IfOk result (λ text. text.items ≡ comment_lines comments.now) }
{
    let mut text = Vec::new(alloc);
    for comment in comments {
        push_line(&mut text, comment)?;
    }
    Ok(text)
}

/// The first picture among blocks (RFC 9639, section 8.8).
pub fn first_picture(blocks: &[Block]) -> Option<&Picture>
    ensures { option_map (λ p. p.now) result ≡ first_picture blocks.now }
{
    for block in blocks {
        if let Block::Picture(picture) = block {
            return Some(picture);
        }
    }
    None
}

/// The first cue sheet among blocks (RFC 9639, section 8.7).
pub fn first_sheet(blocks: &[Block]) -> Option<&CueSheet>
    ensures { option_map (λ s. s.now) result ≡ first_sheet blocks.now }
{
    for block in blocks {
        if let Block::CueSheet(sheet) = block {
            return Some(sheet);
        }
    }
    None
}

/// The bytes of a block, which is not marked last.
pub(crate) fn block_bytes(alloc: Global, block: &Block) -> Result<Vec<u8>, Why>
    ensures spelled { IfOk result (λ v. bits_of v.items ≡ block_spelling false block.now) }
    ensures long { IfOk result (λ v. 4 ≤ length v.items) }
{
    let mut writer = BitWriter::new(Collected::new(alloc));
    match write_block(block, false, &mut writer) {
        Ok(()) => writer.into_bytes(),
        Err(why) => Err(why.in_memory()),
    }
}

/// The content of a block (RFC 9639, section 8): what follows its header. That of padding is zeros.
///
/// # Errors
/// That of [`write_block`] if the block cannot be written; [`Why::Memory`] if an allocation fails.
pub fn content_of(alloc: Global, block: &Block) -> Result<Vec<u8>, Why>
    ensures { IfOk result (λ v. bits_of v.items ≡ content_spelling block.now) }
{
    let bytes = block_bytes(alloc, block)?;
    let (_, content) = bytes.split_at(4);
    Ok(Vec::from_slice(alloc, content)?)
}
