//! The byte at which a stream is refused.

use flac_bits::Memory;
use flac_native::{Place, Profile, locate_fault};
use std::alloc::Global;
use std::test::Fail;
use test_vectors::PAIRS_24;

/// A byte of a stream of two frames that is changed; and the place that is refused then, and its offset: the marker is at
/// 0, STREAMINFO at 4, the frames are at 42 and 149, which Python found by their CRC-16, and the end is at 202. The
/// change at 41 is one of the digest.
const CHANGES: [(usize, Place, u64); 6] = [
    (0, Place::Marker, 0),
    (4, Place::Block(0), 4),
    (41, Place::End, 202),
    (43, Place::Frame(0), 42),
    (148, Place::Frame(0), 42),
    (201, Place::Frame(1), 149),
];

/// Whether a stream is refused at this place and this byte.
fn is_located(alloc: Global, stream: &[u8], place: Place, byte: u64) -> bool {
    match locate_fault(alloc, &mut Memory::new(stream), Profile::Subset) {
        Some(found) => found.fault.at == place && found.byte == byte,
        None => false,
    }
}

#[test]
fn each_part_of_a_stream(rt: HostRuntime) -> Result<(), Fail> {
    for (at, place, byte) in CHANGES {
        let mut stream = hex::decode(rt.alloc(), PAIRS_24)?;
        if let Some(changed) = stream.get_mut(at) {
            *changed ^= 1;
        }
        let is_there = is_located(rt.alloc(), &stream, place, byte);
        assert!(rt; is_there, "byte {at} changed");
    }
    Ok(())
}

/// A front of a stream is refused at the part that is cut; a whole stream is not.
#[test]
fn fronts_and_a_whole_stream(rt: HostRuntime) -> Result<(), Fail> {
    let stream = hex::decode(rt.alloc(), PAIRS_24)?;
    let cut = is_located(
        rt.alloc(),
        &stream[..stream.len().min(160)],
        Place::Frame(1),
        149,
    );
    assert!(rt; cut);
    let whole = locate_fault(rt.alloc(), &mut Memory::new(&stream), Profile::Subset);
    assert!(rt; whole.is_none());
    Ok(())
}
