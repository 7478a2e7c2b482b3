//! A stream item by item: the example of RFC 9639, appendix D.1, its digest unknown.

use flac_bits::{Counted, Memory, Pieces, Source};
use flac_native::{Decoder, Place, Profile};
use std::alloc::Global;
use std::fs;
use std::fs::File;
use std::mem::drop;
use std::test::Fail;
use test_calls::{PEAKS, are_of_a_cut, next_type, peaks_to_end, two_faults};
use test_vectors::{EXAMPLE, PAIRS_24};

/// The peaks of a stream that some source gives.
fn peaks_of<R: Source + Drop>(alloc: Global, source: R) -> Option<(u32, u32, u32)> {
    let mut decoder = Decoder::new(alloc, source, Profile::Subset);
    let found = peaks_to_end(&mut decoder);
    drop(decoder);
    found
}

#[test]
fn peaks_of_a_stream(rt: HostRuntime) -> Result<(), Fail> {
    let stream = hex::decode(rt.alloc(), EXAMPLE)?;
    let found = peaks_of(rt.alloc(), Pieces::new(Memory::new(&stream), 1));
    assert!(rt; found == PEAKS);
    Ok(())
}

/// The same, read from a file, its peaks printed.
#[test]
fn peaks_of_a_file(rt: HostRuntime) -> Result<(), Fail> {
    let stream = hex::decode(rt.alloc(), EXAMPLE)?;
    fs::write(&rt, "peaks.flac", &stream)?;
    let file = File::open(&rt, "peaks.flac")?;
    let found = peaks_of(rt.alloc(), Counted::new(file));
    println!(rt; "{found:?}")?;
    assert!(rt; found == PEAKS);
    Ok(())
}

/// The end comes only if the digest is the one that the reference encoder states: its bytes are taken at four indices
/// at a time, and from the rest of a block one by one.
#[test]
fn digest_of_pairs(rt: HostRuntime) -> Result<(), Fail> {
    let stream = hex::decode(rt.alloc(), PAIRS_24)?;
    let found = peaks_of(rt.alloc(), Memory::new(&stream));
    assert!(rt; found == Some((8388608, 8388608, 0)));
    Ok(())
}

#[test]
fn refused_once_and_spent_then(rt: HostRuntime) -> Result<(), Fail> {
    let mut stream = hex::decode(rt.alloc(), EXAMPLE)?;
    let _last = stream.pop();
    let mut decoder = Decoder::new(rt.alloc(), Memory::new(&stream), Profile::Subset);
    let block = next_type(&mut decoder);
    let faults = two_faults(&mut decoder);
    drop(decoder);
    assert!(rt; block == 0);
    assert!(rt; are_of_a_cut(faults, Place::Frame(0)));
    Ok(())
}
