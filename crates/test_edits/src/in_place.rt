//! Edits in place of a file in memory. The bytes are those of a model of it in Python.

use flac_edit::{Edit, MemoryFile, Slot, edit_in_place, edited};
use flac_meta::Comments;
use std::test::Fail;

/// STREAMINFO, the comment `A=1`, 40 bytes of padding, and frames.
const OLD: [u8; 114] = [
    102, 76, 97, 67, 0, 0, 0, 34, 0, 1, 2, 3, 4, 5, 6, 7, 8, 9, 10, 11, 12, 13, 14, 15, 16, 17, 18,
    19, 20, 21, 22, 23, 24, 25, 26, 27, 28, 29, 30, 31, 32, 33, 4, 0, 0, 16, 1, 0, 0, 0, 118, 1, 0,
    0, 0, 3, 0, 0, 0, 65, 61, 49, 129, 0, 0, 40, 0, 0, 0, 0, 0, 0, 0, 0, 0, 0, 0, 0, 0, 0, 0, 0, 0,
    0, 0, 0, 0, 0, 0, 0, 0, 0, 0, 0, 0, 0, 0, 0, 0, 0, 0, 0, 0, 0, 0, 0, 255, 248, 102, 114, 97,
    109, 101, 115,
];

/// The comments `a=22` and `B=3` after the old ones.
const AFTER: [u8; 114] = [
    102, 76, 97, 67, 0, 0, 0, 34, 0, 1, 2, 3, 4, 5, 6, 7, 8, 9, 10, 11, 12, 13, 14, 15, 16, 17, 18,
    19, 20, 21, 22, 23, 24, 25, 26, 27, 28, 29, 30, 31, 32, 33, 1, 0, 0, 20, 0, 0, 0, 0, 0, 0, 0,
    0, 0, 0, 0, 0, 0, 0, 0, 0, 0, 0, 0, 0, 4, 0, 0, 24, 1, 0, 0, 0, 118, 2, 0, 0, 0, 4, 0, 0, 0,
    97, 61, 50, 50, 3, 0, 0, 0, 66, 61, 51, 129, 0, 0, 8, 0, 0, 0, 0, 0, 0, 0, 0, 255, 248, 102,
    114, 97, 109, 101, 115,
];

/// The comment `B=3` in the place of the first.
const BEFORE: [u8; 114] = [
    102, 76, 97, 67, 0, 0, 0, 34, 0, 1, 2, 3, 4, 5, 6, 7, 8, 9, 10, 11, 12, 13, 14, 15, 16, 17, 18,
    19, 20, 21, 22, 23, 24, 25, 26, 27, 28, 29, 30, 31, 32, 33, 4, 0, 0, 16, 1, 0, 0, 0, 118, 1, 0,
    0, 0, 3, 0, 0, 0, 66, 61, 51, 129, 0, 0, 40, 0, 0, 0, 0, 0, 0, 0, 0, 0, 0, 0, 0, 0, 0, 0, 0, 0,
    0, 0, 0, 0, 0, 0, 0, 0, 0, 0, 0, 0, 0, 0, 0, 0, 0, 0, 0, 0, 0, 0, 0, 255, 248, 102, 114, 97,
    109, 101, 115,
];

#[test]
fn the_two_halves_take_turns(rt: HostRuntime) -> Result<(), Fail> {
    let alloc = rt.alloc();
    let mut comments = Comments::new(alloc, b"v")?;
    comments.push(alloc, b"A", b"1")?;
    let mut file = MemoryFile::new(alloc, OLD.to_vec(alloc)?);
    let more = edited(
        alloc,
        &comments,
        &[Edit::Set(b"a", b"22"), Edit::Add(b"B", b"3")],
    )?;
    let slots = [Slot::Other(34), Slot::Comments(16), Slot::Padding(40)];
    let done = edit_in_place(alloc, &mut file, &slots, &more);
    assert!(rt; done == Ok(true));
    assert!(rt; file.bytes() == AFTER.as_slice());
    let fewer = edited(alloc, &more, &[Edit::Remove(b"A")])?;
    let slots = [
        Slot::Other(34),
        Slot::Padding(20),
        Slot::Comments(24),
        Slot::Padding(8),
    ];
    let done = edit_in_place(alloc, &mut file, &slots, &fewer);
    assert!(rt; done == Ok(true));
    assert!(rt; file.bytes() == BEFORE.as_slice());
    Ok(())
}

#[test]
fn without_room_nothing_is_written(rt: HostRuntime) -> Result<(), Fail> {
    let alloc = rt.alloc();
    let comments = Comments::new(alloc, b"a vendor of more than forty bytes, at any rate")?;
    let mut file = MemoryFile::new(alloc, OLD.to_vec(alloc)?);
    let slots = [Slot::Other(34), Slot::Comments(16), Slot::Padding(40)];
    let done = edit_in_place(alloc, &mut file, &slots, &comments);
    assert!(rt; done == Ok(false));
    assert!(rt; file.bytes() == OLD.as_slice());
    Ok(())
}
