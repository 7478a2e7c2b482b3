//! The samples of a stream as bytes: the example of RFC 9639, appendix D.1, its digest unknown.

use flac_bits::{Collected, Counted, Memory, Target};
use flac_native::{Fault, Place, Profile, SampleWriter, Why, decode};
use std::alloc::Global;
use std::mem::drop;
use std::test::Fail;
use test_calls::Narrow;
use test_vectors::EXAMPLE;

/// The outcome of writing the samples of a stream, and how often the target failed, which is given back.
fn write_to<W: Target + Drop>(
    alloc: Global,
    stream: &[u8],
    target: W,
    width: usize,
) -> (Result<(), Fault>, u64, W) {
    let mut sink = SampleWriter::new(target, width.min(4));
    let outcome = decode(alloc, &mut Memory::new(stream), Profile::Subset, &mut sink);
    let failures = sink.failures();
    (outcome, failures, sink.into_target())
}

/// Whether the samples of the example are these bytes, if each has this many.
fn are_written(alloc: Global, width: usize, wanted: &[u8]) -> Result<bool, Fail> {
    let stream = hex::decode(alloc, EXAMPLE)?;
    let (outcome, failures, target) = write_to(alloc, &stream, Collected::new(alloc), width);
    Ok(outcome == Ok(()) && failures == 0 && target.bytes() == wanted)
}

/// As many bytes as are asked for, or as hold 16 bits.
#[test]
fn widths(rt: HostRuntime) -> Result<(), Fail> {
    assert!(rt; are_written(rt.alloc(), 0, &[0xF4, 0x63, 0xB0, 0x28])?);
    assert!(rt; are_written(rt.alloc(), 1, &[0xF4, 0xB0])?);
    assert!(rt; are_written(rt.alloc(), 3, &[0xF4, 0x63, 0, 0xB0, 0x28, 0])?);
    Ok(())
}

/// A target that has room for three of the four bytes.
#[test]
fn failed_target(rt: HostRuntime) -> Result<(), Fail> {
    let stream = hex::decode(rt.alloc(), EXAMPLE)?;
    let target = Counted::new(Narrow::new(3));
    let (outcome, failures, target) = write_to(rt.alloc(), &stream, target, 0);
    drop(target);
    let (at, why) = (Place::Frame(0), Why::Sink);
    assert!(rt; outcome == Err(Fault { at, why }));
    assert!(rt; failures == 1);
    Ok(())
}
