//! All files that a crash may leave of an edit in place: each reads as the old blocks or as the new ones.

use flac_bits::{BitReader, Memory};
use flac_edit::{Call, CrashFile, Edit, Tagged, tag_in_place};
use flac_meta::Block;
use flac_native::read_blocks;
use std::alloc::{AllocError, Global};
use std::test::Fail;

/// STREAMINFO of 44100 Hz and one channel of 16 bits, 20 bytes of padding, the comment `A=1`, 40 bytes of padding, and
/// frames.
const OLD: [u8; 138] = [
    102, 76, 97, 67, 0, 0, 0, 34, 16, 0, 16, 0, 0, 0, 0, 0, 0, 0, 10, 196, 64, 240, 0, 0, 0, 0, 0,
    0, 0, 0, 0, 0, 0, 0, 0, 0, 0, 0, 0, 0, 0, 0, 1, 0, 0, 20, 0, 0, 0, 0, 0, 0, 0, 0, 0, 0, 0, 0,
    0, 0, 0, 0, 0, 0, 0, 0, 4, 0, 0, 16, 1, 0, 0, 0, 118, 1, 0, 0, 0, 3, 0, 0, 0, 65, 61, 49, 129,
    0, 0, 40, 0, 0, 0, 0, 0, 0, 0, 0, 0, 0, 0, 0, 0, 0, 0, 0, 0, 0, 0, 0, 0, 0, 0, 0, 0, 0, 0, 0,
    0, 0, 0, 0, 0, 0, 0, 0, 0, 0, 0, 0, 255, 248, 102, 114, 97, 109, 101, 115,
];

/// The comment `A=2` in the place of the first padding.
const BEFORE: [u8; 138] = [
    102, 76, 97, 67, 0, 0, 0, 34, 16, 0, 16, 0, 0, 0, 0, 0, 0, 0, 10, 196, 64, 240, 0, 0, 0, 0, 0,
    0, 0, 0, 0, 0, 0, 0, 0, 0, 0, 0, 0, 0, 0, 0, 4, 0, 0, 16, 1, 0, 0, 0, 118, 1, 0, 0, 0, 3, 0, 0,
    0, 65, 61, 50, 129, 0, 0, 64, 0, 0, 0, 0, 0, 0, 0, 0, 0, 0, 0, 0, 0, 0, 0, 0, 0, 0, 0, 0, 0, 0,
    0, 0, 0, 0, 0, 0, 0, 0, 0, 0, 0, 0, 0, 0, 0, 0, 0, 0, 0, 0, 0, 0, 0, 0, 0, 0, 0, 0, 0, 0, 0, 0,
    0, 0, 0, 0, 0, 0, 0, 0, 0, 0, 255, 248, 102, 114, 97, 109, 101, 115,
];

/// The comments `A=2` and `B=34` after the old ones.
const AFTER: [u8; 138] = [
    102, 76, 97, 67, 0, 0, 0, 34, 16, 0, 16, 0, 0, 0, 0, 0, 0, 0, 10, 196, 64, 240, 0, 0, 0, 0, 0,
    0, 0, 0, 0, 0, 0, 0, 0, 0, 0, 0, 0, 0, 0, 0, 1, 0, 0, 20, 0, 0, 0, 0, 0, 0, 0, 0, 0, 0, 0, 0,
    0, 0, 0, 0, 0, 0, 0, 0, 4, 0, 0, 24, 1, 0, 0, 0, 118, 2, 0, 0, 0, 3, 0, 0, 0, 65, 61, 50, 4, 0,
    0, 0, 66, 61, 51, 52, 129, 0, 0, 32, 0, 0, 0, 0, 0, 0, 0, 0, 0, 0, 0, 0, 0, 0, 0, 0, 0, 0, 0,
    0, 0, 0, 0, 0, 0, 0, 0, 0, 0, 0, 0, 0, 255, 248, 102, 114, 97, 109, 101, 115,
];

/// The bytes with others at an offset.
fn with_bytes(alloc: Global, old: &[u8], at: usize, bytes: &[u8]) -> Result<Vec<u8>, AllocError> {
    let mut new = old.to_vec(alloc)?;
    for (i, byte) in bytes.iter().enumerate() {
        if let Some(place) = new.get_mut(at.saturating_add(i)) {
            *place = *byte;
        }
    }
    Ok(new)
}

/// The blocks of a stream; `None` if they cannot be read.
fn blocks_in(alloc: Global, bytes: &[u8]) -> Option<Vec<Block>> {
    let mut reader = BitReader::new(Memory::new(bytes));
    read_blocks(alloc, &mut reader).ok()
}

/// What a file may be read as.
#[derive(Clone, Copy)]
struct Due<'a> {
    olds: &'a [Block],
    news: &'a [Block],
}

/// Whether a file reads as the old blocks or as the new ones, before the same frames.
fn is_due(alloc: Global, bytes: &[u8], due: Due<'_>) -> bool {
    match blocks_in(alloc, bytes) {
        Some(blocks) => {
            (blocks.as_slice() == due.olds || blocks.as_slice() == due.news)
                && bytes.ends_with(b"frames")
        }
        None => false,
    }
}

/// How many files that a crash leaves of a write are not due. The write may be torn at any byte, and leave other bytes;
/// four bytes are stored as a whole or not at all.
fn torn(
    alloc: Global,
    stored: &[u8],
    at: usize,
    bytes: &[u8],
    due: Due<'_>,
) -> Result<u32, AllocError> {
    let mut wrong = u32::from(!is_due(alloc, stored, due));
    let whole = with_bytes(alloc, stored, at, bytes)?;
    wrong = wrong.saturating_add(u32::from(!is_due(alloc, &whole, due)));
    if bytes.len() == 4 {
        return Ok(wrong);
    }
    for cut in 0..bytes.len() {
        let front = with_bytes(alloc, stored, at, &bytes[..cut])?;
        let back = with_bytes(alloc, stored, at.saturating_add(cut), &bytes[cut..])?;
        let other = with_bytes(alloc, &front, at.saturating_add(cut), b"\xA5")?;
        for left in [&front, &back, &other] {
            wrong = wrong.saturating_add(u32::from(!is_due(alloc, left, due)));
        }
    }
    Ok(wrong)
}

/// How many files that a crash leaves of these calls are not due, and the file after them.
fn replayed(
    alloc: Global,
    first: &[u8],
    calls: &[Call],
    due: Due<'_>,
) -> Result<(u32, Vec<u8>), AllocError> {
    let mut wrong: u32 = 0;
    let mut stored = first.to_vec(alloc)?;
    let mut shown = first.to_vec(alloc)?;
    for call in calls {
        match call {
            Call::Write(at, bytes) => {
                wrong = wrong.saturating_add(torn(alloc, &stored, *at, bytes, due)?);
                shown = with_bytes(alloc, &shown, *at, bytes)?;
            }
            Call::Sync => stored = shown.to_vec(alloc)?,
        }
    }
    Ok((wrong, stored))
}

/// Makes edits in place, and returns how many files that a crash leaves are not due, and the file after them; `None` if
/// they are not made in place.
fn tried(
    alloc: Global,
    old: &[u8],
    edits: &[Edit<'_>],
    due: Due<'_>,
) -> Result<Option<(u32, Vec<u8>)>, AllocError> {
    let mut file = CrashFile::new(alloc, old.to_vec(alloc)?);
    let mut source = Memory::new(old);
    if tag_in_place(alloc, &mut file, &mut source, edits) != Ok(Tagged::Flipped) {
        return Ok(None);
    }
    Ok(Some(replayed(alloc, file.first(), file.calls(), due)?))
}

/// Makes edits in place, and looks at each file that a crash leaves.
fn survives(
    alloc: Global,
    old: &[u8],
    edits: &[Edit<'_>],
    news: &[Block],
) -> Result<Option<Vec<u8>>, AllocError> {
    let Some(olds) = blocks_in(alloc, old) else {
        return Ok(None);
    };
    let due = Due { olds: &olds, news };
    match tried(alloc, old, edits, due)? {
        Some((0, new)) => Ok(Some(new)),
        _ => Ok(None),
    }
}

/// Whether an edit in place of one file gives the other, and each file that a crash leaves of it reads as one of them.
fn gives(alloc: Global, old: &[u8], edits: &[Edit<'_>], new: &[u8]) -> Result<bool, AllocError> {
    let Some(news) = blocks_in(alloc, new) else {
        return Ok(false);
    };
    match survives(alloc, old, edits, &news)? {
        Some(found) => Ok(found.as_slice() == new),
        None => Ok(false),
    }
}

#[test]
fn a_crash_leaves_the_old_blocks_or_the_new_ones(rt: HostRuntime) -> Result<(), Fail> {
    let set = [Edit::Set(b"A", b"2")];
    let added = [Edit::Add(b"B", b"34")];
    assert!(rt; !gives(rt.alloc(), &OLD, &added, &AFTER)?);
    assert!(rt; gives(rt.alloc(), &OLD, &set, &BEFORE)?);
    assert!(rt; gives(rt.alloc(), &BEFORE, &added, &AFTER)?);
    Ok(())
}
