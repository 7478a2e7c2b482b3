//! Tags by the ID3v2 and ID3v1 documents, around bytes of any kind.

use flac_around::Between;
use flac_bits::{Memory, Pieces, Source};
use std::alloc::Global;
use std::test::Fail;

/// Rows: what comes before, how many bytes are between, how many `TAG` and zeros come after, and what is left of what comes
/// before: `no` if it is a tag, and `all` if it is none. What comes before is in hex.
pub(crate) const ROWS: &str = "# None.
 | 0 | 0 | all
 | 300 | 0 | all
# Tags of 0 bytes, of 5, and of 128, whose size is 1 0.
49443303000000000000 | 200 | 0 | no
494433030000000000050102030405 | 200 | 128 | no
# Version 4 with a footer, and version 3 with the same flag, which means nothing there.
494433040010000000013333444904001000000001 | 3 | 0 | no
49443303001000000001aa | 3 | 128 | no
# A version and a revision of FF, and a size of eight bits, make no tag; nor does another first byte.
494433ff000000000000 | 3 | 128 | all
494433030000ff000000 | 3 | 0 | all
494433030000008000000000 | 3 | 128 | all
4944330300000000 | 0 | 0 | all
# The end of the input alone is a tag of 128 bytes.
 | 0 | 128 | all
 | 1 | 128 | all
 | 127 | 128 | all
 | 128 | 128 | all
 | 129 | 128 | all
 | 1000 | 128 | all
 | 1000 | 127 | all
 | 1000 | 129 | all
";

/// The value of a hex digit.
fn digit(byte: u8) -> u8 {
    match byte {
        b'0'..=b'9' => byte - b'0',
        b'a'..=b'f' => byte - b'a' + 10,
        _ => 0,
    }
}

/// Adds the bytes of hex digits.
pub(crate) fn add_hex(bytes: &mut Vec<u8>, text: &str) -> Result<(), Fail> {
    for pair in text.as_bytes().chunks_exact(2) {
        bytes.push(digit(pair[0]) << 4 | digit(pair[1]))?;
    }
    Ok(())
}

/// Adds this many bytes, all different from those of a tag.
fn add_middle(bytes: &mut Vec<u8>, length: usize) -> Result<(), Fail> {
    for at in 0..length {
        bytes.push((at % 50) as u8 + 100)?;
    }
    Ok(())
}

/// Adds `TAG` and zeros, this many bytes in all, if any.
fn add_back(bytes: &mut Vec<u8>, length: usize) -> Result<(), Fail> {
    if length >= 3 {
        bytes.extend_from_slice(b"TAG")?;
    }
    for _ in 3..length {
        bytes.push(0)?;
    }
    Ok(())
}

/// All bytes that a source gives for places of this number.
pub(crate) fn given<S: Source>(
    alloc: Global,
    source: &mut S,
    room: usize,
) -> Result<Vec<u8>, Fail> {
    let mut places = Vec::new(alloc);
    places.resize(room, 0)?;
    let mut all = Vec::new(alloc);
    for _ in 0..4096 {
        let count = source.pull(places.as_mut_slice()).unwrap_or(0);
        if count == 0 {
            return Ok(all);
        }
        all.extend_from_slice(&places[..count])?;
    }
    Ok(all)
}

/// Whether a source of these bytes, in pieces, gives those that are due, and knows the lengths of the tags.
fn are_given(
    alloc: Global,
    bytes: &[u8],
    due: &[u8],
    most: usize,
    room: usize,
) -> Result<bool, Fail> {
    let mut source = Between::new(Pieces::new(Memory::new(bytes), most.max(1)));
    let found = given(alloc, &mut source, room)?;
    let tags = source.before().saturating_add(source.after());
    let lengths = tags.saturating_add(due.len() as u64);
    Ok(found.as_slice() == due && lengths == bytes.len() as u64)
}

/// The bytes of a row, and those of them that are due.
pub(crate) fn row_of(alloc: Global, row: &str) -> Result<(Vec<u8>, Vec<u8>), Fail> {
    let mut bytes = Vec::new(alloc);
    let mut due = Vec::new(alloc);
    let mut words = row.split(" | ");
    let front = words.next().unwrap_or("");
    let middle = words.next().unwrap_or("").parse::<usize>().unwrap_or(0);
    let back = words.next().unwrap_or("").parse::<usize>().unwrap_or(0);
    add_hex(&mut bytes, front)?;
    if words.next() == Some("all") {
        add_hex(&mut due, front)?;
    }
    add_middle(&mut bytes, middle)?;
    add_middle(&mut due, middle)?;
    add_back(&mut bytes, back)?;
    if back != 128 {
        add_back(&mut due, back)?;
    }
    Ok((bytes, due))
}

#[test]
fn gives_what_is_between(rt: HostRuntime) -> Result<(), Fail> {
    for row in ROWS.lines() {
        if row.starts_with('#') {
            continue;
        }
        let (bytes, due) = row_of(rt.alloc(), row)?;
        for (most, room) in [
            (1, 1),
            (4096, 1),
            (4096, 128),
            (4096, 129),
            (7, 300),
            (4096, 4096),
        ] {
            assert!(rt; are_given(rt.alloc(), &bytes, &due, most, room)?, "{row}");
        }
    }
    Ok(())
}

/// A tag that goes past the end leaves nothing.
#[test]
fn a_tag_past_the_end(rt: HostRuntime) -> Result<(), Fail> {
    let mut bytes = Vec::new(rt.alloc());
    add_hex(&mut bytes, "49443303000000000401")?;
    add_middle(&mut bytes, 300)?;
    add_back(&mut bytes, 128)?;
    assert!(rt; are_given(rt.alloc(), &bytes, &[], 4096, 4096)?);
    Ok(())
}
