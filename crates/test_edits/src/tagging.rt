//! Edits in place of a file that is read first.

use flac_bits::{Memory, Why};
use flac_edit::{Edit, MemoryFile, TagFault, Tagged, tag_in_place};
use flac_native::{Fault, Place};
use std::alloc::{AllocError, Global};
use std::test::Fail;

/// STREAMINFO, the comment `A=1`, a picture's first bytes in an application block, and frames.
const TIGHT: [u8; 82] = [
    102, 76, 97, 67, 0, 0, 0, 34, 16, 0, 16, 0, 0, 0, 0, 0, 0, 0, 10, 196, 64, 240, 0, 0, 0, 0, 0,
    0, 0, 0, 0, 0, 0, 0, 0, 0, 0, 0, 0, 0, 0, 0, 4, 0, 0, 16, 1, 0, 0, 0, 118, 1, 0, 0, 0, 3, 0, 0,
    0, 65, 61, 49, 130, 0, 0, 8, 116, 101, 115, 116, 1, 2, 3, 4, 255, 248, 102, 114, 97, 109, 101,
    115,
];

/// What became of the file, and its bytes.
type Outcome = (Result<Tagged, TagFault>, Vec<u8>);

/// Edits a file in memory.
fn outcome(alloc: Global, old: &[u8], edits: &[Edit<'_>]) -> Result<Outcome, AllocError> {
    let mut file = MemoryFile::new(alloc, old.to_vec(alloc)?);
    let mut source = Memory::new(old);
    let done = tag_in_place(alloc, &mut file, &mut source, edits);
    let bytes = file.bytes().to_vec(alloc)?;
    Ok((done, bytes))
}

/// Whether a file becomes this, and keeps its bytes.
fn keeps(
    alloc: Global,
    old: &[u8],
    edits: &[Edit<'_>],
    due: Result<Tagged, TagFault>,
) -> Result<bool, AllocError> {
    let (done, bytes) = outcome(alloc, old, edits)?;
    Ok(done == due && bytes.as_slice() == old)
}

#[test]
fn the_same_comments_are_not_written(rt: HostRuntime) -> Result<(), Fail> {
    let same = [Edit::Set(b"A", b"1"), Edit::Remove(b"B")];
    assert!(rt; keeps(rt.alloc(), &TIGHT, &same, Ok(Tagged::Same))?);
    Ok(())
}

#[test]
fn without_room_nothing_is_written(rt: HostRuntime) -> Result<(), Fail> {
    let other = [Edit::Set(b"A", b"2")];
    assert!(rt; keeps(rt.alloc(), &TIGHT, &other, Ok(Tagged::NoRoom))?);
    Ok(())
}

#[test]
fn a_stream_that_is_refused_keeps_its_bytes(rt: HostRuntime) -> Result<(), Fail> {
    let other = [Edit::Set(b"A", b"2")];
    let fault = Fault {
        at: Place::Block(1),
        why: Why::Truncated,
    };
    assert!(rt;
        keeps(
            rt.alloc(),
            &TIGHT[..60],
            &other,
            Err(TagFault::Stream(fault))
        )?
    );
    Ok(())
}
