//! Edited comments in a new file.

use flac_bits::{Collected, Memory};
use flac_edit::{Edit, rewrite};
use flac_native::RetagFault;
use std::alloc::Global;
use std::test::Fail;

/// STREAMINFO, 4 bytes of padding, the comment `A=1`, an application block, and frames.
const OLD: [u8; 90] = [
    102, 76, 97, 67, 0, 0, 0, 34, 16, 0, 16, 0, 0, 0, 0, 0, 0, 0, 10, 196, 64, 240, 0, 0, 0, 0, 0,
    0, 0, 0, 0, 0, 0, 0, 0, 0, 0, 0, 0, 0, 0, 0, 1, 0, 0, 4, 0, 0, 0, 0, 4, 0, 0, 16, 1, 0, 0, 0,
    118, 1, 0, 0, 0, 3, 0, 0, 0, 65, 61, 49, 130, 0, 0, 8, 116, 101, 115, 116, 1, 2, 3, 4, 255,
    248, 102, 114, 97, 109, 101, 115,
];

/// STREAMINFO, the application block, the comment `A=22`, 2 bytes of padding, and the same frames.
const NEW: [u8; 89] = [
    102, 76, 97, 67, 0, 0, 0, 34, 16, 0, 16, 0, 0, 0, 0, 0, 0, 0, 10, 196, 64, 240, 0, 0, 0, 0, 0,
    0, 0, 0, 0, 0, 0, 0, 0, 0, 0, 0, 0, 0, 0, 0, 2, 0, 0, 8, 116, 101, 115, 116, 1, 2, 3, 4, 4, 0,
    0, 17, 1, 0, 0, 0, 118, 1, 0, 0, 0, 4, 0, 0, 0, 65, 61, 50, 50, 129, 0, 0, 2, 0, 0, 255, 248,
    102, 114, 97, 109, 101, 115,
];

/// The stream with edited comments and this padding.
fn rewritten(
    alloc: Global,
    old: &[u8],
    edits: &[Edit<'_>],
    padding: u32,
) -> Result<Vec<u8>, RetagFault> {
    let mut target = Collected::new(alloc);
    rewrite(alloc, &mut Memory::new(old), edits, padding, &mut target)?;
    Ok(target.into_bytes())
}

/// Whether a stream becomes these bytes.
fn gives(alloc: Global, edits: &[Edit<'_>], padding: u32, due: &[u8]) -> bool {
    match rewritten(alloc, &OLD, edits, padding) {
        Ok(bytes) => bytes.as_slice() == due,
        Err(_) => false,
    }
}

#[test]
fn comments_and_padding_come_last(rt: HostRuntime) -> Result<(), Fail> {
    assert!(rt;
        gives(
            rt.alloc(),
            &[Edit::Set(b"a", b"1"), Edit::Set(b"A", b"22")],
            2,
            &NEW
        )
    );
    Ok(())
}
