//! Edits of comments.

ghost use Rattle.std.specs.Prelude.{◌≡◌, ◌<◌, ◌++◌, ◌∷◌, [], true, length, IfOk, OnOk};
ghost use Rattle.flac_edit.specs.Edited.{is_named, is_pair, without, without_pair, with_one, edited_by, all_edited, edited};

use flac_meta::{Bytes, Comments, Texts};
use std::alloc::{AllocError, Global};

/// What is to be done with the comments of a stream. Names are compared but for the case of ASCII letters (RFC 9639,
/// section 8.6); they are without `=`.
#[derive(Clone, Copy, Debug)]
pub enum Edit<'a> {
    /// Takes all comments away.
    Clear,
    /// Puts these comments in the place of all.
    Replace(&'a [Bytes]),
    /// Takes all comments of a name away.
    Remove(&'a [u8]),
    /// Takes all comments of this name and this value away; values are compared byte by byte.
    RemovePair(&'a [u8], &'a [u8]),
    /// Puts a comment of this name and this value in the place of the first of this name, and takes the others of that
    /// name away; adds it at the end if there is none.
    Set(&'a [u8], &'a [u8]),
    /// Adds a comment of this name and this value at the end.
    Add(&'a [u8], &'a [u8]),
}

/// Whether a comment has this name.
fn is_named(name: &[u8], text: &[u8]) -> bool
    ensures value { result ≡ is_named name.now text.now }
    ensures longer { result ≡ true → length name.now < length text.now }
{
    let end = name.len();
    end < text.len() && text[end] == b'=' && text[..end].eq_ignore_ascii_case(name)
}

/// Whether a comment has this name and this value.
fn is_pair(name: &[u8], value: &[u8], text: &[u8]) -> bool
    ensures { result ≡ is_pair name.now value.now text.now }
{
    is_named(name, text) && &text[name.len() + 1..] == value
}

/// The comment of this name and this value.
fn comment_of(alloc: Global, name: &[u8], value: &[u8]) -> Result<Bytes, AllocError>
    ensures { IfOk result (λ text. text ≡ name.now ++ 61 ∷ value.now) }
{
    let mut text = Vec::from_slice(alloc, name)?;
    text.push(b'=')?;
    text.extend_from_slice(value)?;
    Ok(Bytes::from_vec(text))
}

/// The comments of another name.
fn without(alloc: Global, name: &[u8], texts: &[Bytes]) -> Result<Vec<Bytes>, AllocError>
    ensures { IfOk result (λ kept. kept.items ≡ without name.now texts.now) }
{
    let mut kept = Vec::new(alloc);
    for text in texts {
        if !is_named(name, text.as_slice()) {
            kept.push(text.clone()?)?;
        }
    }
    Ok(kept)
}

/// The comments but those of this name and this value.
fn without_pair(
    alloc: Global,
    name: &[u8],
    value: &[u8],
    texts: &[Bytes],
) -> Result<Vec<Bytes>, AllocError>
    ensures { IfOk result (λ kept. kept.items ≡ without_pair name.now value.now texts.now) }
{
    let mut kept = Vec::new(alloc);
    for text in texts {
        if !is_pair(name, value, text.as_slice()) {
            kept.push(text.clone()?)?;
        }
    }
    Ok(kept)
}

/// A copy of the comments.
fn copied(alloc: Global, texts: &[Bytes]) -> Result<Vec<Bytes>, AllocError>
    ensures { IfOk result (λ kept. kept.items ≡ texts.now) }
{
    let mut kept = Vec::new(alloc);
    for text in texts {
        kept.push(text.clone()?)?;
    }
    Ok(kept)
}

/// The comments with this one in the place of those of its name.
fn with_one(
    alloc: Global,
    name: &[u8],
    value: &[u8],
    texts: &[Bytes],
) -> Result<Vec<Bytes>, AllocError>
    ensures { IfOk result (λ kept. kept.items ≡ with_one name.now (name.now ++ 61 ∷ value.now) texts.now) }
{
    let mut kept = Vec::new(alloc);
    let mut is_there = false;
    for text in texts {
        if !is_named(name, text.as_slice()) {
            kept.push(text.clone()?)?;
        } else if !is_there {
            kept.push(comment_of(alloc, name, value)?)?;
            is_there = true;
        }
    }
    if !is_there {
        kept.push(comment_of(alloc, name, value)?)?;
    }
    Ok(kept)
}

/// The comments after an edit.
fn edited_by(alloc: Global, edit: &Edit<'_>, texts: &[Bytes]) -> Result<Vec<Bytes>, AllocError>
    ensures { IfOk result (λ kept. kept.items ≡ edited_by edit.now texts.now) }
{
    match edit {
        Edit::Clear => Ok(Vec::new(alloc)),
        Edit::Replace(list) => copied(alloc, list),
        Edit::Remove(name) => without(alloc, name, texts),
        Edit::RemovePair(name, value) => without_pair(alloc, name, value, texts),
        Edit::Set(name, value) => with_one(alloc, name, value, texts),
        Edit::Add(name, value) => {
            let mut kept = copied(alloc, texts)?;
            kept.push(comment_of(alloc, name, value)?)?;
            Ok(kept)
        }
    }
}

/// The comments after these edits, one after another. The vendor stays, and so does each comment that no edit names,
/// byte by byte, also if it is not UTF-8.
///
/// ```
/// let edits = [Edit::Remove(b"COMMENT"), Edit::Set(b"ARTIST", b"A"), Edit::Add(b"ARTIST", b"B")];
/// let new = edited(alloc, &comments, &edits)?; // ARTIST=A, ARTIST=B among the others
/// ```
///
/// # Errors
/// `AllocError` if an allocation fails.
pub fn edited(
    alloc: Global,
    comments: &Comments,
    edits: &[Edit<'_>],
) -> Result<Comments, AllocError>
    ensures { IfOk result (λ c. c ≡ edited edits.now comments.now) }
{
    let mut list = copied(alloc, comments.list.as_slice())?;
    for edit in edits {
        list = edited_by(alloc, edit, &list)?;
    }
    Ok(Comments {
        vendor: comments.vendor.clone()?,
        list: Texts::from_vec(list),
    })
}
