//! Ogg streams one after another, by pages made by hand (RFC 3533, section 6): a source of one takes no page for good or
//! bad, so that their checksums do not matter.

use crate::tags::{add_hex, given};
use flac_around::ChainLink;
use flac_bits::{FailAt, Memory, Pieces, Source};
use std::alloc::Global;
use std::test::Fail;

/// Rows: the bytes of the first stream, and those after it, in hex.
const ROWS: &str = "# A page that is marked last and begins a stream, and another one.
4f676753000600000000000000000900000000000000c859230102030001080f | 4f676753000600000000000000000800000000000000c859230102030001080f
# Two pages, of which the second is marked last; three of another stream, the first of them without segments.
4f6767530002000000000000000009000000000000000547bf06010301080f4f676753000400000000000000000900000001000000eb9e34c200 | 4f676753000200000000000000000700000000000000eb9e34c2004f6767530000000000000000000007000000010000000547bf06010301080f4f6767530004000000000000000007000000020000000547bf06010301080f
# One stream alone; one that is not marked last; one that is cut in its segments, its lacing values, its header.
4f6767530004000000000000000009000000000000000547bf06010301080f |
4f6767530003000000000000000009000000000000000547bf06010301080f4f6767530003000000000000000009000000000000000547bf06010301080f |
4f6767530004000000000000000009000000000000000547bf0602ff0301080f |
4f6767530004000000000000000009000000000000000547bf06ff0301080f |
4f6767530004000000000000000009000000000000000547bf |
# Bytes after the page marked last that are no page; and before it: then the stream goes on to the end.
4f6767530004000000000000000009000000000000000547bf06010301080f | 664c61430102
4f6767530000000000000000000009000000000000000547bf06010301080f664c61430102030405060708090a0b0c0d0e0f101112131415161718191a1b1c1d4f6767530004000000000000000009000000000000000547bf06010301080f |
4f6767530100000000000000000009000000000000000547bf06010301080f4f6767530004000000000000000009000000000000000547bf06010301080f |
# No page, and nothing.
664c6143000102030405060708090a0b0c0d0e0f101112131415161718191a1b1c1d1e1f2021222324252627 |
 |
";

/// The bytes of a row: of the first stream, and those after it.
fn row_of(alloc: Global, row: &str) -> Result<(Vec<u8>, Vec<u8>), Fail> {
    let mut first = Vec::new(alloc);
    let mut rest = Vec::new(alloc);
    let mut words = row.split('|');
    add_hex(&mut first, words.next().unwrap_or("").trim_end())?;
    add_hex(&mut rest, words.next().unwrap_or("").trim_start())?;
    Ok((first, rest))
}

/// The first bytes and those after them, one after another.
fn joined(alloc: Global, first: &[u8], rest: &[u8]) -> Result<Vec<u8>, Fail> {
    let mut bytes = Vec::new(alloc);
    bytes.extend_from_slice(first)?;
    bytes.extend_from_slice(rest)?;
    Ok(bytes)
}

/// Whether a source of all bytes, in pieces, gives the first stream, and then the bytes after it.
fn is_first(
    alloc: Global,
    bytes: &[u8],
    first: &[u8],
    rest: &[u8],
    rooms: (usize, usize),
) -> Result<bool, Fail> {
    let (most, room) = rooms;
    let mut link = ChainLink::new(Pieces::new(Memory::new(bytes), most.max(1)));
    let found = given(alloc, &mut link, room)?;
    let passed = link.pass().is_ok();
    let mut source = link.into_source();
    let left = given(alloc, &mut source, 64)?;
    Ok(passed && found.as_slice() == first && left.as_slice() == rest)
}

/// Whether the bytes after the first stream are left of a source of all bytes if some of the first are read, and the others
/// are passed over.
fn is_passed(alloc: Global, bytes: &[u8], rest: &[u8], read: usize) -> Result<bool, Fail> {
    let mut piece = [0u8; 64];
    let mut link = ChainLink::new(Memory::new(bytes));
    let read = match piece.get_mut(..read) {
        Some(places) => link.pull(places).is_ok(),
        None => false,
    };
    let passed = link.pass().is_ok();
    let mut source = link.into_source();
    let left = given(alloc, &mut source, 64)?;
    Ok(read && passed && left.as_slice() == rest)
}

#[test]
fn streams_come_one_after_another(rt: HostRuntime) -> Result<(), Fail> {
    for row in ROWS.lines() {
        if row.starts_with('#') {
            continue;
        }
        let (first, rest) = row_of(rt.alloc(), row)?;
        let bytes = joined(rt.alloc(), &first, &rest)?;
        for rooms in [(1, 1), (4096, 1), (7, 30), (4096, 4096)] {
            assert!(rt;
                is_first(rt.alloc(), &bytes, &first, &rest, rooms)?,
                "{row}"
            );
        }
        for read in [0, 1, 27, 28, 64] {
            assert!(rt; is_passed(rt.alloc(), &bytes, &rest, read)?, "{row}");
        }
    }
    Ok(())
}

/// How many calls of a source of a stream succeed of which the call of this number below fails, and whether it then fails.
fn calls_before(bytes: &[u8], at: u64) -> (u64, bool) {
    let mut piece = [0u8; 64];
    let mut link = ChainLink::new(FailAt::new(Memory::new(bytes), at));
    for calls in 0..100 {
        match link.pull(&mut piece) {
            Ok(0) => return (calls, false),
            Ok(_) => {}
            Err(_) => return (calls, true),
        }
    }
    (100, false)
}

#[test]
fn errors_come_at_their_call(rt: HostRuntime) -> Result<(), Fail> {
    let mut bytes = Vec::new(rt.alloc());
    add_hex(
        &mut bytes,
        "4f6767530004000000000000000009000000000000000547bf06010301080f00",
    )?;
    // The header, the lacing value and the segment are asked for by a call each, and nothing after them.
    for at in [0, 1, 2] {
        assert!(rt; calls_before(&bytes, at) == (at, true));
    }
    assert!(rt; calls_before(&bytes, 3) == (3, false));
    Ok(())
}
