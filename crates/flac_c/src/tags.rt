//! The comments that a stream gets.

ghost use Rattle.std.specs.Prelude.{◌≡◌, ◌⊎◌, IfOk, IfErr, OnOk, Some, None};
ghost use Rattle.flac_meta.specs.Listed.{list_fault, info_seen};
ghost use Rattle.flac_c.specs.Encoded.{texts_of, comments_of, blocks_of};

use flac_bits::Why;
use flac_meta::{BlockList, Bytes, Comments, Texts};
use std::alloc::{AllocError, Global};

/// A text: bytes of UTF-8, without a byte 0 at its end. That they are UTF-8 is not checked.
#[repr(C)]
#[derive(Clone, Copy, Drop)]
pub struct FlacProvedText<'a> {
    /// The bytes.
    pub bytes: &'a [u8],
}

/// The comments of a stream (RFC 9639, section 8.6).
#[repr(C)]
#[derive(Clone, Copy, Drop)]
pub struct FlacProvedTags<'a> {
    /// The name of the program that writes the stream.
    pub vendor: FlacProvedText<'a>,
    /// The comments, each `NAME=VALUE`.
    pub list: &'a [FlacProvedText<'a>],
}

/// Copies of texts.
fn texts_of(alloc: Global, texts: &[FlacProvedText<'_>]) -> Result<Vec<Bytes>, AllocError>
    ensures { IfOk result (λ v. v.items ≡ texts_of texts.now) }
{
    let mut copies = Vec::with_capacity(alloc, texts.len())?;
    for text in texts {
        copies.push(Bytes::from_vec(Vec::from_slice(alloc, text.bytes)?))?;
    }
    Ok(copies)
}

/// A Vorbis comment of copies of these texts.
fn comments_of(alloc: Global, tags: &FlacProvedTags<'_>) -> Result<Comments, AllocError>
    ensures { IfOk result (λ c. c ≡ comments_of tags.now) }
{
    let vendor = Bytes::from_vec(Vec::from_slice(alloc, tags.vendor.bytes)?);
    let list = Texts::from_vec(texts_of(alloc, tags.list)?);
    Ok(Comments { vendor, list })
}

/// The one block after STREAMINFO: the comments.
///
/// # Errors
/// `Memory` if an allocation fails. `BlockLength` if the comments have more bytes than a block has room for.
pub(crate) fn blocks_of(alloc: Global, tags: &FlacProvedTags<'_>) -> Result<BlockList, Why>
    ensures blocks { IfOk result (λ list. list ≡ blocks_of tags.now) }
    ensures accepted { OnOk result (list_fault info_seen (blocks_of tags.now) ≡ None) }
    ensures refused { IfErr result (λ e. (e ≡ Why.Memory) ⊎ (list_fault info_seen (blocks_of tags.now) ≡ Some e)) }
{
    let comments = comments_of(alloc, tags)?;
    BlockList::of_comments(alloc, comments)
}
