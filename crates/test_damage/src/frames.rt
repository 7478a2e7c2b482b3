//! Whole frames among other bytes.

use flac_frame::FrameBuffers;
use flac_header::Profile;
use flac_info::StreamInfo;
use flac_salvage::{
    WholeFrame, best_chain, frames_are_local, next_whole, whole_at, whole_frames,
    whole_frames_are_found,
};
use std::alloc::Global;
use std::test::Fail;

/// Two bytes, a frame of 16 samples in 11 bytes, the frame with a bit changed, and the frame again.
const BYTES: [u8; 35] = [
    0xFF, 0xF8, 0xFF, 0xF8, 0x69, 0x02, 0x00, 0x0F, 0xB7, 0x00, 0x05, 0xFA, 0x3C, 0xFF, 0xF8, 0x69,
    0x02, 0x00, 0x0F, 0xB7, 0x00, 0x04, 0xFA, 0x3C, 0xFF, 0xF8, 0x69, 0x02, 0x00, 0x0F, 0xB7, 0x00,
    0x05, 0xFA, 0x3C,
];

/// The next whole frame from an offset on, with buffers of its own. No offset is 99.
fn look(alloc: Global, from: usize, budget: u64) -> Result<Option<(usize, u64)>, usize> {
    let info = StreamInfo::of_format(16, 44100, 1, 8);
    let mut left = budget;
    match FrameBuffers::new(alloc, 1, 16) {
        Ok(mut buffers) => next_whole(
            &BYTES,
            from,
            &info,
            Profile::Subset,
            &mut buffers,
            &mut left,
        ),
        Err(_) => Err(99),
    }
}

#[test]
fn found(rt: HostRuntime) -> Result<(), Fail> {
    whole_frames_are_found();
    frames_are_local();
    assert!(rt; look(rt.alloc(), 0, 100000) == Ok(Some((2, 11))));
    assert!(rt; look(rt.alloc(), 13, 100000) == Ok(Some((24, 11))));
    assert!(rt; look(rt.alloc(), 25, 100000) == Ok(None));
    assert!(rt; look(rt.alloc(), 3, 0) == Err(3));
    assert!(rt; look(rt.alloc(), 3, 1) == Err(14));
    Ok(())
}

/// How many bytes the frame at an offset has, and its first sample.
fn at_offset(alloc: Global, at: usize) -> Option<(u64, i32)> {
    let info = StreamInfo::of_format(16, 44100, 1, 8);
    let mut buffers = FrameBuffers::new(alloc, 1, 16).ok()?;
    let taken = whole_at(&BYTES, at, &info, Profile::Subset, &mut buffers)?;
    let view = buffers.view();
    if view.is_empty() || view.channels() == 0 {
        return None;
    }
    Some((taken, view.sample(0, 0)))
}

#[test]
fn found_at_offsets(rt: HostRuntime) -> Result<(), Fail> {
    assert!(rt; at_offset(rt.alloc(), 2) == Some((11, 5)));
    assert!(rt; at_offset(rt.alloc(), 3).is_none());
    assert!(rt; at_offset(rt.alloc(), 13).is_none());
    assert!(rt; at_offset(rt.alloc(), 24) == Some((11, 5)));
    assert!(rt; at_offset(rt.alloc(), 35).is_none());
    Ok(())
}

/// How many whole frames there are, with the last of them, and where the search ended early.
fn found_of(alloc: Global, budget: u64) -> Option<(usize, Option<WholeFrame>, Option<usize>)> {
    let info = StreamInfo::of_format(16, 44100, 1, 8);
    let mut left = budget;
    match whole_frames(alloc, &BYTES, 0, &info, Profile::Subset, &mut left) {
        Ok(found) => Some((found.frames.len(), found.frames.last().copied(), found.cut)),
        Err(_) => None,
    }
}

#[test]
fn all_found(rt: HostRuntime) -> Result<(), Fail> {
    let last = WholeFrame {
        at: 24,
        bytes: 11,
        first: 0,
        size: 16,
    };
    assert!(rt; found_of(rt.alloc(), 100000) == Some((2, Some(last), None)));
    assert!(rt; found_of(rt.alloc(), 0) == Some((0, None, Some(0))));
    Ok(())
}

/// A frame of a hundred samples, which begin at this one.
fn hundred(first: u64) -> WholeFrame {
    WholeFrame {
        at: 0,
        bytes: 1,
        first,
        size: 100,
    }
}

/// How many frames the best chain of three has, and the first sample of the first and of the last.
fn chain_of(alloc: Global, firsts: [u64; 3], limit: u64) -> Option<(usize, u64, u64)> {
    let [a, b, c] = firsts;
    let frames = [hundred(a), hundred(b), hundred(c)];
    match best_chain(alloc, &frames, limit) {
        Ok(chosen) => {
            let kept = chosen?;
            let first = kept.first().copied()?;
            let last = kept.last().copied()?;
            Some((kept.len(), first.first, last.first))
        }
        Err(_) => None,
    }
}

#[test]
fn best_chains(rt: HostRuntime) -> Result<(), Fail> {
    assert!(rt; chain_of(rt.alloc(), [0, 100, 200], 300) == Some((3, 0, 200)));
    assert!(rt; chain_of(rt.alloc(), [900, 100, 200], 1000) == Some((2, 100, 200)));
    assert!(rt; chain_of(rt.alloc(), [0, 900, 100], 1000) == Some((2, 0, 900)));
    assert!(rt; chain_of(rt.alloc(), [0, 900, 100], 300) == Some((2, 0, 100)));
    assert!(rt; chain_of(rt.alloc(), [250, 150, 50], 1000) == Some((1, 250, 250)));
    assert!(rt; chain_of(rt.alloc(), [250, 150, 50], 100).is_none());
    Ok(())
}
