//! Vorbis comments (RFC 9639, section 8.6).

ghost use Rattle.std.specs.Prelude.{◌≡◌, ◌<◌, ◌≤◌, ◌+◌, ◌++◌, [], ◌∷◌, length, take, drop, nat_eq, MatchOption, OnOk, OnErr, IfOk, slice_index, slice_index_or, min, ◌^◌};
ghost use Rattle.std.specs.Iterator.{YieldsFirstRef, item_count};
ghost use Rattle.flac_meta.specs.Parts.{HasNoEquals, IsAt, LacksParts, AreParts};
ghost use Rattle.flac_meta.specs.Named.{value_under, values_of, IsFirstUnder};
ghost use Rattle.flac_meta.specs.inner.Found.{IsFirstEquals, IsFirstAt};
ghost use Rattle.flac_meta.specs.Spelling.{texts_length, comments_length, each_spelled, little_sized, comments_spelling};
ghost use Rattle.flac_bits.specs.Reading.{ReadsGivenMemory, Call};
ghost use Rattle.flac_meta.specs.Comments.{texts, comments};
ghost use Rattle.flac_bits.specs.Written.{Writes};

use crate::fields::{capped, read_sized_little, too_short};
use crate::lists::{Bytes, Texts};
use crate::put::put_little_sized;
use flac_bits::{BitReader, BitWriter, Source, Target, Why, put_little_32, read_little_32};
use std::alloc::{AllocError, Global};

/// A Vorbis comment block: the tags of a stream (RFC 9639, section 8.6).
#[derive(Clone, Debug, PartialEq, Eq, Drop)]
pub struct Comments {
    /// The name of the program that wrote the stream.
    pub vendor: Bytes,
    /// The comments, each `NAME=VALUE`.
    pub list: Texts,
}

/// The index of the first `=`.
fn place_of_equals(text: &[u8]) -> Option<usize>
    ensures { MatchOption result (HasNoEquals text.now) (IsFirstEquals text.now) }
{
    for (k, byte) in text.iter().enumerate() {
        if *byte == b'=' {
            return Some(k);
        }
    }
    None
}

/// The name and the value of a text, before and after its first `=`.
fn parts_of(text: &[u8]) -> Option<(&[u8], &[u8])>
    ensures { MatchOption result (HasNoEquals text.now)
        (λ p. (text.now ≡ p.0.now ++ 61 ∷ p.1.now) × HasNoEquals p.0.now) }
{
    let k = place_of_equals(text)?;
    let after = k + 1;
    Some((&text[..k], &text[after..]))
}

/// The value of a text, if it has this name.
#[tactic(auto, using(crate::proofs::Named::under_none, crate::proofs::Named::under_same, crate::proofs::Named::under_other))]
fn value_under<'a>(name: &[u8], text: &'a [u8]) -> Option<&'a [u8]>
    ensures { MatchOption result (value_under name.now text.now ≡ [])
        (λ v. value_under name.now text.now ≡ v.now ∷ []) }
{
    match parts_of(text) {
        Some((own, value)) if own.eq_ignore_ascii_case(name) => Some(value),
        _ => None,
    }
}

/// The first value of this name among some texts, and the index of its text.
#[tactic(auto, unfolding(crate::specs::Named::values_of), using(crate::proofs::Named::values_more))]
fn first_named<'a>(name: &[u8], texts: &'a [Bytes]) -> Option<(usize, &'a [u8])>
    ensures { MatchOption result (values_of name.now texts.now ≡ [])
        (λ p. IsFirstAt name.now texts.now p.0 p.1.now) }
{
    for (i, text) in texts.iter().enumerate() {
        match value_under(name, text.as_slice()) {
            Some(value) => return Some((i, value)),
            None => {}
        }
    }
    None
}

/// An iterator over the values of one name, in the order of the comments: see [`Comments::values`].
#[derive(Clone, Copy, Debug, Drop)]
pub struct Values<'a> {
    name: &'a [u8],
    texts: &'a [Bytes],
}

impl<'a> Iterator for Values<'a> {
    type Item = &'a [u8];

    ghost next_gives = { YieldsFirstRef (λ v. values_of v.name.now v.texts.now) };

    ghost remaining = { item_count (λ v. values_of v.name.now v.texts.now) };

    fn next(&mut self) -> Option<&'a [u8]> {
        let (i, value) = first_named(self.name, self.texts)?;
        self.texts = &self.texts[i + 1..];
        Some(value)
    }
}

impl Comments {
    /// Makes an empty list of comments, of a program with this name.
    ///
    /// ```
    /// let mut comments = Comments::new(rt.alloc(), b"my program 1.0")?;
    /// comments.push(rt.alloc(), b"TITLE", b"A song")?;
    /// ```
    ///
    /// # Errors
    /// `AllocError` if an allocation fails.
    pub fn new(alloc: Global, vendor: &[u8]) -> Result<Comments, AllocError>
        ensures vendor { IfOk result (λ c. c.vendor ≡ vendor.now) }
        ensures list { IfOk result (λ c. c.list ≡ []) }
    {
        let vendor = Bytes::from_vec(Vec::from_slice(alloc, vendor)?);
        Ok(Comments {
            vendor,
            list: Texts::from_vec(Vec::new(alloc)),
        })
    }

    /// Adds the comment `NAME=VALUE` after the others. A name has bytes from 0x20 to 0x7E without `=`, and a value is
    /// UTF-8 (RFC 9639, section 8.6); neither is checked.
    ///
    /// # Errors
    /// `AllocError` if an allocation fails. The comments are then as before.
    pub fn push(&mut self, alloc: Global, name: &[u8], value: &[u8]) -> Result<(), AllocError>
        ensures pushed { OnOk result (self.new.list ≡ self.old.list ++ (name.now ++ 61 ∷ value.now) ∷ []) }
        ensures vendor { self.new.vendor ≡ self.old.vendor }
        ensures kept { OnErr result (self.new.list ≡ self.old.list) }
    {
        let mut text = Vec::from_slice(alloc, name)?;
        text.push(b'=')?;
        text.extend_from_slice(value)?;
        self.list.push(Bytes::from_vec(text))
    }

    /// The name of the program that wrote the stream, as bytes of UTF-8 (RFC 9639, section 8.6); this is not checked.
    pub fn vendor(&self) -> &[u8]
        ensures { result.now ≡ self.now.vendor }
    {
        self.vendor.as_slice()
    }

    /// The number of comments. [`Comments::length`] is the number of bytes.
    pub fn len(&self) -> usize
        ensures { result ≡ length self.now.list }
    {
        self.list.as_slice().len()
    }

    /// Whether there is no comment.
    pub fn is_empty(&self) -> bool
        ensures { result ≡ nat_eq (length self.now.list) 0 }
    {
        self.len() == 0
    }

    /// Comment `i`, counted from 0, as it is in the block: `NAME=VALUE`. `None` if there is no such comment.
    pub fn get(&self, i: usize) -> Option<&[u8]>
        ensures { MatchOption result (length self.now.list ≤ i)
            (λ t. IsAt self.now.list i t.now) }
    {
        let list = self.list.as_slice();
        if i < list.len() {
            Some(list[i].as_slice())
        } else {
            None
        }
    }

    /// An iterator over the values of all comments of a name, in their order. Names are equal but for the case of ASCII
    /// letters (RFC 9639, section 8.6).
    ///
    /// ```
    /// for artist in comments.values(b"ARTIST") {
    ///     println!(rt; "{artist:?}")?;
    /// }
    /// ```
    pub fn values<'a>(&'a self, name: &'a [u8]) -> Values<'a>
        ensures name { result.name.now ≡ name.now }
        ensures texts { result.texts.now ≡ self.now.list }
    {
        Values {
            name,
            texts: self.list.as_slice(),
        }
    }

    /// The first value of a name, or `None` if there is none. Names are compared as in [`Comments::values`].
    ///
    /// ```
    /// let title = comments.find(b"TITLE").unwrap_or(b"unknown");
    /// ```
    pub fn find(&self, name: &[u8]) -> Option<&[u8]>
        ensures { MatchOption result (values_of name.now self.now.list ≡ [])
            (λ v. IsFirstUnder name.now self.now.list v.now) }
    {
        let (_, value) = first_named(name, self.list.as_slice())?;
        Some(value)
    }

    /// The name and the value of comment `i`, counted from 0: the bytes before and after its first `=`. `None` if there
    /// is no such comment, or no `=` in it.
    pub fn parts(&self, i: usize) -> Option<(&[u8], &[u8])>
        ensures { MatchOption result (LacksParts self.now.list i) (λ p. AreParts self.now.list i p.0.now p.1.now) }
    {
        parts_of(self.get(i)?)
    }

    /// The number of bytes in the content of a Vorbis comment block with these comments, without the block's header; or
    /// 16777216 if it is above 16777215, the most that a block can have. [`Comments::len`] is the number of comments.
    pub fn length(&self) -> u64
        ensures { result ≡ min (comments_length self.now) 16777216 }
    {
        texts_after(capped(8, self.vendor.len()), self.list.as_slice())
    }
}

/// The length of these texts, each with 4 bytes for its length, after `before` bytes.
fn texts_after(before: u64, texts: &[Bytes]) -> u64
    requires { before ≤ 16777216 }
    ensures { result ≡ min (before + texts_length texts.now) 16777216 }
{
    let mut total = before;
    for text in texts {
        total = capped(capped(total, 4), text.len());
    }
    total
}

/// Reads `count` texts, which are all of the `left` bytes that are left of the content.
#[tactic(auto, using(crate::proofs::Turns::texts_more, crate::proofs::Turns::texts_end, crate::proofs::Turns::turn_start))]
fn read_texts<R: Source>(
    alloc: Global,
    bits: &mut BitReader<R>,
    count: u32,
    left: u32,
) -> Result<Texts, Why>
    requires { left < 2 ^ 24 }
    ensures reading { Call 0 (ReadsGivenMemory (λ t. t) (texts count left)) bits.old bits.new result }
{
    let mut list = Vec::new(alloc);
    let mut left = left;
    for i in 0..count {
        let _i = i;
        let text = read_sized_little(alloc, bits, left)?;
        left -= 4 + text.len() as u32;
        list.push(text)?;
    }
    if left != 0 {
        return Err(Why::BlockLength);
    }
    Ok(Texts::from_vec(list))
}

/// Reads a Vorbis comment of `left` bytes (RFC 9639, section 8.6).
#[tactic(auto, unfolding(crate::specs::Comments::comments))]
pub(crate) fn read_comments<R: Source>(
    alloc: Global,
    bits: &mut BitReader<R>,
    left: u32,
) -> Result<Comments, Why>
    requires { left < 2 ^ 24 }
    ensures reading { Call 0 (ReadsGivenMemory (λ c. c) (comments left)) bits.old bits.new result }
{
    let vendor = read_sized_little(alloc, bits, left)?;
    let rest = left - (4 + vendor.len() as u32);
    if rest < 4 {
        return Err(too_short(bits, rest));
    }
    let count = read_little_32(bits)?;
    if count > (rest - 4) / 4 {
        return Err(Why::BlockLength);
    }
    let list = read_texts(alloc, bits, count, rest - 4)?;
    Ok(Comments { vendor, list })
}

/// Writes texts, each after its length.
fn put_texts<W: Target>(writer: &mut BitWriter<W>, texts: &[Bytes]) -> Result<(), Why>
    requires { texts_length texts.now < 2 ^ 24 }
    ensures { Writes (each_spelled little_sized texts.now) writer.old writer.new result }
{
    for text in texts {
        put_little_sized(writer, text.as_slice())?;
    }
    Ok(())
}

/// Writes a Vorbis comment (RFC 9639, section 8.6).
#[tactic(auto, using(crate::proofs::Lengths::texts_many))]
pub(crate) fn put_comments<W: Target>(
    writer: &mut BitWriter<W>,
    comments: &Comments,
) -> Result<(), Why>
    requires { comments_length comments.now < 2 ^ 24 }
    ensures { Writes (comments_spelling comments.now) writer.old writer.new result }
{
    let vendor = comments.vendor.as_slice();
    let list = comments.list.as_slice();
    put_little_sized(writer, vendor)?;
    put_little_32(list.len() as u32, writer)?;
    put_texts(writer, list)
}
