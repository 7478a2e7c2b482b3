//! Seek points of a stream, as `flac edit --seek-every` finds them.

use flac_bits::Collected;
use flac_cli::points_of;
use std::alloc::Global;
use std::test::Fail;

/// 64 samples of 8 bits in four frames, as the reference reads them.
const STREAM: [u8; 86] = [
    0x66, 0x4C, 0x61, 0x43, 0x80, 0x00, 0x00, 0x22, 0x00, 0x10, 0x00, 0x10, 0x00, 0x00, 0x00, 0x00,
    0x00, 0x00, 0x0A, 0xC4, 0x40, 0x70, 0x00, 0x00, 0x00, 0x40, 0x00, 0x00, 0x00, 0x00, 0x00, 0x00,
    0x00, 0x00, 0x00, 0x00, 0x00, 0x00, 0x00, 0x00, 0x00, 0x00, 0xFF, 0xF8, 0x69, 0x02, 0x00, 0x0F,
    0xB7, 0x00, 0x01, 0x7A, 0x27, 0xFF, 0xF8, 0x69, 0x02, 0x01, 0x0F, 0xA2, 0x00, 0x02, 0x7B, 0x51,
    0xFF, 0xF8, 0x69, 0x02, 0x02, 0x0F, 0x9D, 0x00, 0x03, 0xF8, 0xD0, 0xFF, 0xF8, 0x69, 0x02, 0x03,
    0x0F, 0x88, 0x00, 0x04, 0x79, 0xBD,
];

/// What is printed of a stream that gets no points.
fn line_of(alloc: Global, bytes: &[u8]) -> Option<Vec<u8>> {
    let mut err = Collected::new(alloc);
    match points_of(alloc, "a.flac", bytes, 40, &mut err) {
        Some(_) => None,
        None => Some(err.into_bytes()),
    }
}

// The points are those of `metaflac --add-seekpoint=0 --add-seekpoint=40`.
#[test]
fn points_of_frames(rt: HostRuntime) -> Result<(), Fail> {
    let mut err = Collected::new(rt.alloc());
    let Some(points) = points_of(rt.alloc(), "a.flac", &STREAM, 40, &mut err) else {
        return Err(Fail::new("no points"));
    };
    assert!(rt; err.bytes().is_empty());
    match points.as_slice() {
        [first, second] => {
            assert!(rt; (first.sample, first.offset, first.length) == (0, 0, 16));
            assert!(rt; (second.sample, second.offset, second.length) == (32, 22, 16));
            Ok(())
        }
        _ => Err(Fail::new("other points")),
    }
}

#[test]
fn damaged_streams_have_no_points(rt: HostRuntime) -> Result<(), Fail> {
    let mut damaged = STREAM;
    damaged[85] ^= 1;
    let Some(line) = line_of(rt.alloc(), &damaged) else {
        return Err(Fail::new("points of a damaged frame"));
    };
    assert!(rt; line.as_slice() == b"flac: a.flac: frame 3: 26 FrameCheck\n".as_slice());
    let Some(line) = line_of(rt.alloc(), &STREAM[..75]) else {
        return Err(Fail::new("points of a stream that is cut off"));
    };
    assert!(rt; line.as_slice() == b"flac: a.flac: end: 28 TotalMismatch\n".as_slice());
    Ok(())
}
