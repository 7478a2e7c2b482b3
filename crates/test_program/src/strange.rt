//! Strange bytes: each prefix of some streams, and each stream with one byte changed, is answered by one line.

use crate::program::{TEST, bytes_of, changed, perform, range_of, split_row};
use crate::tables::STRANGE;
use std::alloc::Global;
use std::process::Abort;
use std::test::Fail;

/// Whether a stream is accepted. Its answer is the line of counts or that of a fault.
fn is_accepted(rt: &impl Abort, alloc: Global, stream: &[u8], at: usize) -> bool {
    let accepted = perform(alloc, &TEST, stream, 4096).is_accepted();
    assert!(rt; accepted.is_some(), "at {at}");
    accepted == Some(true)
}

/// How many prefixes of a stream are accepted, the stream itself left out.
fn accepted_prefixes(rt: &impl Abort, alloc: Global, stream: &[u8]) -> usize {
    let mut count = 0usize;
    for length in 0..stream.len() {
        count = count.saturating_add(is_accepted(rt, alloc, &stream[..length], length) as usize);
    }
    count
}

/// How many streams are accepted of those with these bits of one byte changed.
fn accepted_changes(
    rt: &impl Abort,
    alloc: Global,
    stream: &[u8],
    bits: u8,
) -> Result<usize, Fail> {
    let mut count = 0usize;
    for place in 0..stream.len() {
        let other = changed(alloc, stream, place, bits)?;
        count = count.saturating_add(is_accepted(rt, alloc, &other, place) as usize);
    }
    Ok(count)
}

/// Checks how many are accepted of the prefixes of a row's stream, and of the streams with a byte changed.
fn check_row(rt: &impl Abort, alloc: Global, row: &str) -> Result<(), Fail> {
    let (words, counts) = split_row(row);
    let (prefixes, changes) = range_of(counts)?;
    let stream = bytes_of(alloc, words)?;
    assert!(rt; is_accepted(rt, alloc, &stream, stream.len()), "{row}");
    assert!(rt; accepted_prefixes(rt, alloc, &stream) == prefixes, "{row}");
    let mut count = 0usize;
    for bits in [1, 128, 255] {
        count = count.saturating_add(accepted_changes(rt, alloc, &stream, bits)?);
    }
    assert!(rt; count == changes, "{count} in {row}");
    Ok(())
}

#[test]
fn prefixes_and_changes(rt: HostRuntime) -> Result<(), Fail> {
    for row in STRANGE.lines() {
        if !row.starts_with('#') {
            check_row(&rt, rt.alloc(), row)?;
        }
    }
    Ok(())
}
