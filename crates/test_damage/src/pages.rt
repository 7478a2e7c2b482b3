//! Whole pages among other bytes.

use flac_whole_pages::{
    Left, WholePage, left_of, next_whole_page, none_reached, whole_page_at, whole_pages,
    whole_pages_are_found,
};
use std::alloc::{AllocError, Global};
use std::test::Fail;

/// Two bytes; a page of the stream 7 with FLAC's mapping header, as it is before four bytes of metadata are left (41
/// bytes); the same with a bit changed; a page of the stream 8 (30); one of the stream 7 with `abc` (31), and one with
/// `de` (31). Their checksums were computed apart, by the rule of RFC 3533.
const BYTES: [u8; 176] = [
    79, 103, //
    79, 103, 103, 83, 0, 2, 0, 0, 0, 0, 0, 0, 0, 0, 7, 0, 0, 0, 0, 0, 0, 0, 71, 21, 148, 221, 1,
    13, 127, 70, 76, 65, 67, 1, 0, 0, 1, 102, 76, 97, 67, //
    79, 103, 103, 83, 0, 2, 0, 0, 0, 0, 0, 0, 0, 0, 7, 0, 0, 0, 0, 0, 0, 0, 71, 21, 148, 221, 1,
    13, 127, 70, 76, 65, 67, 1, 0, 0, 1, 102, 76, 97, 66, //
    79, 103, 103, 83, 0, 0, 0, 0, 0, 0, 0, 0, 0, 0, 8, 0, 0, 0, 0, 0, 0, 0, 192, 94, 55, 227, 1, 2,
    120, 121, //
    79, 103, 103, 83, 0, 0, 0, 0, 0, 0, 0, 0, 0, 0, 7, 0, 0, 0, 1, 0, 0, 0, 122, 119, 94, 73, 1, 3,
    97, 98, 99, //
    79, 103, 103, 83, 0, 4, 9, 0, 0, 0, 0, 0, 0, 0, 7, 0, 0, 0, 2, 0, 0, 0, 230, 68, 117, 151, 2,
    1, 1, 100, 101,
];

/// The next whole page from an offset on: its offset, its serial number and its length.
fn look(from: usize, budget: u64) -> Result<Option<(usize, u32, usize)>, usize> {
    let mut left = budget;
    match next_whole_page(&BYTES, from, &mut left) {
        Ok(
            Some(
                WholePage {
                    at,
                    serial,
                    body: _,
                    end,
                },
            ),
        ) => Ok(Some((at, serial, end - at))),
        Ok(None) => Ok(None),
        Err(at) => Err(at),
    }
}

#[test]
fn found(rt: HostRuntime) -> Result<(), Fail> {
    whole_pages_are_found();
    assert!(rt; look(0, 1000) == Ok(Some((2, 7, 41))));
    assert!(rt; look(3, 1000) == Ok(Some((84, 8, 30))));
    assert!(rt; look(115, 1000) == Ok(Some((145, 7, 31))));
    assert!(rt; look(146, 1000) == Ok(None));
    assert!(rt; look(3, 0) == Err(3));
    assert!(rt; look(3, 1) == Err(44));
    assert!(rt; whole_page_at(&BYTES, 43).is_none());
    assert!(rt; whole_page_at(&BYTES, 114).is_some());
    Ok(())
}

/// How many pages are found, and where the search ended, 999 at the end.
fn all(alloc: Global, budget: u64) -> Result<(usize, usize), AllocError> {
    let mut left = budget;
    let found = whole_pages(alloc, &BYTES, 0, &mut left)?;
    Ok((found.pages.len(), found.cut.unwrap_or(999)))
}

#[test]
fn all_found(rt: HostRuntime) -> Result<(), Fail> {
    assert!(rt; all(rt.alloc(), 1000) == Ok((4, 999)));
    assert!(rt; all(rt.alloc(), 50) == Ok((1, 44)));
    Ok(())
}

/// What is left of a native stream: the places of some of its bytes.
fn places(left: &Left) -> [usize; 8] {
    let mut reached = none_reached();
    [
        left.place(&mut reached, 0),
        left.place(&mut reached, 3),
        left.place_after(&mut reached, 4),
        left.place(&mut reached, 4),
        left.place_after(&mut reached, 8),
        left.place(&mut reached, 8),
        left.place(&mut reached, 9),
        left.place(&mut reached, 0),
    ]
}

/// Whether these are the bytes that are left in an input, and these the places.
fn leaves(alloc: Global, input: &[u8], bytes: &[u8], at: [usize; 8]) -> Result<bool, AllocError> {
    let left = left_of(alloc, Vec::from_slice(alloc, input)?)?;
    let same = left.bytes.as_slice() == bytes;
    Ok(same && places(&left) == at && left.end == input.len() && left.cut.is_none())
}

#[test]
fn native_left(rt: HostRuntime) -> Result<(), Fail> {
    let at = [39, 42, 43, 142, 175, 175, 176, 39];
    assert!(rt; leaves(rt.alloc(), &BYTES, b"fLaCabcde", at) == Ok(true));
    let native = [0, 3, 4, 4, 8, 8, 9, 0];
    assert!(rt; leaves(rt.alloc(), b"fLaCOggS\0", b"fLaCOggS\0", native) == Ok(true));
    let after_tag = [12, 15, 16, 16, 20, 20, 21, 12];
    let tagged = b"ID3\x03\0\0\0\0\0\x02..fLaCOggS\0";
    assert!(rt; leaves(rt.alloc(), tagged, b"fLaCOggS\0", after_tag) == Ok(true));
    assert!(rt; leaves(rt.alloc(), b"nothing..", b"nothing..", native) == Ok(true));
    Ok(())
}
