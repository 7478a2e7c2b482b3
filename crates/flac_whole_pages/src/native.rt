//! Which parts of an input are the bytes of a native stream.

ghost use Rattle.std.specs.Prelude.{◌≡◌, ◌≤◌, ◌∷◌, ◌++◌, false, length, drop, IfOk, OnOk, None};
ghost use Rattle.flac_whole_pages.specs.Standing.{Stands};
ghost use Rattle.flac_whole_pages.specs.Left.{begins_flac, ends_header, body_of, gap_of, has_frames, first_part, parts_after, native_parts, AreLeft, IsNativeLeft};
ghost use Rattle.flac_whole_pages.specs.Parts.{AreInside, joined};
ghost use Rattle.flac_whole_pages.specs.inner.Adding.{AreStanding, ArePartsIn, IsFirstAt, IsPart};

use crate::find::whole_pages;
use crate::left::Left;
use crate::page_at::WholePage;
use crate::part::{Part, joined};
use flac_around::between_tags;
use std::alloc::{AllocError, Global};

/// What a native stream begins with: the marker `fLaC` (RFC 9639, section 6).
const MARKER: [u8; 4] = [0x66, 0x4C, 0x61, 0x43];

/// What FLAC's mapping header begins with: 7F and `FLAC` (RFC 9639, section 10.1).
const MAPPING: [u8; 5] = [0x7F, 0x46, 0x4C, 0x41, 0x43];

/// How many bytes the mapping header has before the marker of the native stream.
const BEFORE_MARKER: usize = 9;

/// How many bytes may be looked at in the search for pages.
fn budget_for(bytes: &[u8]) -> u64 {
    (bytes.len() as u64)
        .saturating_mul(64)
        .saturating_add(16_777_215)
}

/// Whether the segments of a page begin with FLAC's mapping header.
fn begins_flac(bytes: &[u8], page: &WholePage) -> bool
    requires { Stands bytes.now page.now }
    ensures { result ≡ begins_flac bytes.now page.now }
{
    bytes[page.body..page.end].starts_with(&MAPPING)
}

/// The segments of a page after the first bytes of the mapping header.
fn after_mapping(bytes: &[u8], page: &WholePage) -> Part
    requires { Stands bytes.now page.now }
    ensures { result ≡ first_part page.now }
{
    // Read only for the proof, which then knows that a slice is shorter than 2^64 bytes.
    let _len = bytes.len();
    Part {
        start: (page.body + BEFORE_MARKER).min(page.end),
        end: page.end,
    }
}

/// Whether a page begins with the last metadata block or a frame: with a packet whose first bit is 1.
fn ends_header(bytes: &[u8], page: &WholePage) -> bool
    requires { Stands bytes.now page.now }
    ensures { result ≡ ends_header bytes.now page.now }
{
    if bytes[page.at + 5] % 2 != 0 {
        return false;
    }
    page.body < bytes.len() && bytes[page.body] >= 128
}

/// Whether there are frames after a page.
fn has_frames(bytes: &[u8], serial: u32, frames: bool, page: &WholePage) -> bool
    requires { Stands bytes.now page.now }
    ensures { result ≡ has_frames bytes.now serial frames page.now }
{
    frames || (page.serial == serial && ends_header(bytes, page))
}

/// Adds the bytes between whole pages, if there are frames.
fn add_gap(parts: &mut Vec<Part>, frames: bool, from: usize, to: usize) -> Result<(), AllocError>
    ensures { OnOk result (parts.new.items ≡ parts.old.items ++ gap_of frames from to) }
{
    if frames {
        parts.push(Part {
            start: from,
            end: to,
        })?;
    }
    Ok(())
}

/// Adds the segments of a page, if it has this serial number.
fn add_body(parts: &mut Vec<Part>, serial: u32, page: &WholePage) -> Result<(), AllocError>
    ensures { OnOk result (parts.new.items ≡ parts.old.items ++ body_of serial page.now) }
{
    if page.serial == serial {
        parts.push(Part {
            start: page.body,
            end: page.end,
        })?;
    }
    Ok(())
}

/// The index of the first page that begins with FLAC's mapping header; how many pages there are, if none does.
fn first_of_flac(bytes: &[u8], pages: &[WholePage]) -> usize
    requires { AreStanding bytes.now pages.now }
    ensures within { result ≤ length pages.now }
    ensures first { IsFirstAt bytes.now pages.now result }
    ensures same { native_parts bytes.now (drop result pages.now) ≡ native_parts bytes.now pages.now }
{
    for i in 0..pages.len() {
        if begins_flac(bytes, &pages[i]) {
            return i;
        }
    }
    pages.len()
}

/// The parts of the input that a native stream would have, of which this is the first page.
///
/// # Errors
/// An allocation fails.
fn parts_from(
    alloc: Global,
    bytes: &[u8],
    first: &WholePage,
    rest: &[WholePage],
) -> Result<Vec<Part>, AllocError>
    requires first { Stands bytes.now first.now }
    requires rest { AreStanding bytes.now rest.now }
    ensures { IfOk result (λ parts. parts.items
        ≡ first_part first.now ∷ parts_after bytes.now first.now.serial false first.now.end rest.now) }
{
    let mut parts = Vec::new(alloc);
    parts.push(after_mapping(bytes, first))?;
    let mut frames = false;
    let mut from = first.end;
    for page in rest {
        add_gap(&mut parts, frames, from, page.at)?;
        add_body(&mut parts, first.serial, page)?;
        frames = has_frames(bytes, first.serial, frames, page);
        from = page.end;
    }
    add_gap(&mut parts, frames, from, bytes.len())?;
    Ok(parts)
}

/// The parts of the input that a native stream would have: of its first stream of FLAC. None, if there is none.
///
/// # Errors
/// An allocation fails.
fn parts_of(alloc: Global, bytes: &[u8], pages: &[WholePage]) -> Result<Vec<Part>, AllocError>
    requires { AreStanding bytes.now pages.now }
    ensures { IfOk result (λ parts. parts.items ≡ native_parts bytes.now pages.now) }
{
    let index = first_of_flac(bytes, pages);
    if index == pages.len() {
        return Ok(Vec::new(alloc));
    }
    parts_from(alloc, bytes, &pages[index], &pages[index + 1..])
}

/// A part of an input.
///
/// # Errors
/// An allocation fails.
fn copied(alloc: Global, bytes: &[u8], part: Part) -> Result<Left, AllocError>
    requires order { part.start ≤ part.end }
    requires inside { part.end ≤ length bytes.now }
    ensures { IfOk result (λ left. IsPart bytes.now part None left) }
{
    let mut parts = Vec::new(alloc);
    parts.push(part)?;
    let inner = joined(alloc, bytes, &parts)?;
    Ok(Left {
        bytes: inner,
        parts,
        end: part.end,
        cut: None,
    })
}

/// All of an input.
///
/// # Errors
/// An allocation fails.
fn all_of(alloc: Global, bytes: Vec<u8>, cut: Option<usize>) -> Result<Left, AllocError>
    ensures { IfOk result (λ left. IsPart bytes.items (record { start = 0; end = length bytes.items }) cut left) }
{
    let end = bytes.len();
    let mut parts = Vec::new(alloc);
    parts.push(Part { start: 0, end })?;
    Ok(Left {
        bytes,
        parts,
        end,
        cut,
    })
}

/// A part of an input, which is not copied if it is all of it.
///
/// # Errors
/// An allocation fails.
fn part_of(alloc: Global, bytes: Vec<u8>, part: Part) -> Result<Left, AllocError>
    requires order { part.start ≤ part.end }
    requires inside { part.end ≤ length bytes.items }
    ensures { IfOk result (λ left. IsPart bytes.items part None left) }
{
    if part.start == 0 && part.end == bytes.len() {
        return all_of(alloc, bytes, None);
    }
    copied(alloc, &bytes, part)
}

/// The parts of the pages of the first stream of FLAC in an input, and where the search for pages ended.
///
/// # Errors
/// An allocation fails.
fn parts_in(alloc: Global, bytes: &[u8]) -> Result<(Vec<Part>, Option<usize>), AllocError>
    ensures parts { IfOk result (λ p. ArePartsIn bytes.now p.1 p.0.items) }
    ensures inside { IfOk result (λ p. AreInside (length bytes.now) p.0.items) }
{
    let mut budget = budget_for(bytes);
    let found = whole_pages(alloc, bytes, 0, &mut budget)?;
    let parts = parts_of(alloc, bytes, &found.pages)?;
    Ok((parts, found.cut))
}

/// What is left of an Ogg stream in an input; all of it, if there is no page of one.
///
/// # Errors
/// An allocation fails.
fn left_in_pages(alloc: Global, bytes: Vec<u8>) -> Result<Left, AllocError>
    ensures parts { IfOk result (λ left. AreLeft bytes.items left.cut left.parts.items) }
    ensures bytes { IfOk result (λ left. left.bytes.items ≡ joined bytes.items left.parts.items) }
    ensures end { IfOk result (λ left. left.end ≡ length bytes.items) }
{
    let (parts, cut) = parts_in(alloc, &bytes)?;
    if parts.is_empty() {
        return all_of(alloc, bytes, cut);
    }
    let left = joined(alloc, &bytes, &parts)?;
    Ok(Left {
        bytes: left,
        end: bytes.len(),
        parts,
        cut,
    })
}

/// What is left of a native stream in an input: what is between the tags of other programs
/// ([`between_tags`](flac_around::between_tags)), if that begins with the marker `fLaC`. Else it is taken for a damaged
/// Ogg stream: all whole pages in it are found ([`whole_pages`]); of those of its first stream of FLAC, the
/// segments of all pages, one after another, are what a native stream has after the first 9 bytes. As soon as there
/// may be frames, the bytes that are in no whole page stand among these, since frames may be whole in a damaged page.
/// If there is no page of a stream of FLAC, it is all of the input.
///
/// The search looks at 64 bytes for each byte at most, and 16777215 more; undamaged streams take 1.
///
/// # Errors
/// An allocation fails.
pub fn left_of(alloc: Global, bytes: Vec<u8>) -> Result<Left, AllocError>
    ensures { IfOk result (λ left. IsNativeLeft bytes.items left) }
{
    let (start, end) = between_tags(&bytes);
    if bytes[start..end].starts_with(&MARKER) {
        return part_of(alloc, bytes, Part { start, end });
    }
    left_in_pages(alloc, bytes)
}
