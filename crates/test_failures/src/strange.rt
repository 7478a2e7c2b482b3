//! Strange bytes: each prefix of small streams, and each stream with one byte changed, comes to the same by a sink and
//! by a decoder, in pieces of 1 and of 4096 bytes. How many are accepted is what a model of the format answers that
//! shares no code with this project (`conformance/model/model.py`).

use crate::pieces::{Told, native_items, ogg_items, sunk};
use std::alloc::Global;
use std::process::Abort;
use std::test::Fail;
use test_vectors::{
    ALTERNATING, EVERY_BLOCK, EXAMPLE, EXAMPLE_TAGGED, LEFT_SIDE, NO_SAMPLES, ONE_SAMPLE, PAGES,
    RISING_ALONE, SILENT_ALONE,
};

/// A stream, how many of its prefixes are accepted, and how many of those with one byte changed to another value.
type Swept = (&'static str, (usize, usize));

/// Native streams.
const STREAMS: [Swept; 8] = [
    (EXAMPLE, (0, 2040)),
    (ONE_SAMPLE, (0, 2040)),
    (NO_SAMPLES, (0, 2816)),
    (RISING_ALONE, (1, 2294)),
    (SILENT_ALONE, (1, 2294)),
    (ALTERNATING, (1, 2294)),
    (LEFT_SIDE, (1, 2294)),
    (EXAMPLE_TAGGED, (0, 7517)),
];

/// What a stream comes to, where it is the same by a sink and by a decoder, in pieces of 1 and of 4096 bytes.
fn told(alloc: Global, stream: &[u8], ogg: bool) -> Option<Told> {
    let wanted = sunk(alloc, stream, ogg, 4096);
    let mut same = wanted == sunk(alloc, stream, ogg, 1);
    for most in [1, 4096] {
        let found = if ogg {
            ogg_items(alloc, stream, most)
        } else {
            native_items(alloc, stream, most)
        };
        same = same && found == wanted;
    }
    if same { Some(wanted) } else { None }
}

/// Whether a stream is accepted, which is not told in two ways.
fn is_accepted(rt: &impl Abort, alloc: Global, stream: &[u8], ogg: bool, at: usize) -> bool {
    let told = told(alloc, stream, ogg);
    assert!(rt; told.is_some(), "at {at}");
    matches!(told, Some((_, Ok(()))))
}

/// How many prefixes of a stream are accepted, the stream itself left out.
fn accepted_prefixes(rt: &impl Abort, alloc: Global, stream: &[u8], ogg: bool) -> usize {
    let mut count = 0usize;
    for length in 0..stream.len() {
        if is_accepted(rt, alloc, &stream[..length], ogg, length) {
            count = count.saturating_add(1);
        }
    }
    count
}

/// Changes these bits of the byte at a place, if there is one.
fn flip(stream: &mut [u8], place: usize, bits: u8) {
    if let Some(byte) = stream.get_mut(place) {
        *byte ^= bits;
    }
}

/// How many values of the byte at a place are accepted, of those that differ from its own in some of these bits.
fn accepted_values(
    rt: &impl Abort,
    alloc: Global,
    stream: &mut [u8],
    place: usize,
    ogg: bool,
    bits: &[u8],
) -> usize {
    let mut count = 0usize;
    for change in bits {
        flip(stream, place, *change);
        if is_accepted(rt, alloc, stream, ogg, place) {
            count = count.saturating_add(1);
        }
        flip(stream, place, *change);
    }
    count
}

/// How many streams with one byte changed are accepted.
fn accepted_changes(
    rt: &impl Abort,
    alloc: Global,
    stream: &mut [u8],
    ogg: bool,
    bits: &[u8],
) -> usize {
    let mut count = 0usize;
    for place in 0..stream.len() {
        count = count.saturating_add(accepted_values(rt, alloc, stream, place, ogg, bits));
    }
    count
}

/// Checks a stream, which is accepted, and how many of its prefixes and changes are.
fn check_bytes(
    rt: &impl Abort,
    alloc: Global,
    bytes: &mut [u8],
    ogg: bool,
    bits: &[u8],
    wanted: (usize, usize),
) {
    assert!(rt; is_accepted(rt, alloc, bytes, ogg, bytes.len()));
    let prefixes = accepted_prefixes(rt, alloc, bytes, ogg);
    assert!(rt; prefixes == wanted.0, "{prefixes} prefixes");
    let changes = accepted_changes(rt, alloc, bytes, ogg, bits);
    assert!(rt; changes == wanted.1, "{changes} changes");
}

/// Checks the stream of some hex digits.
fn check_stream(
    rt: &impl Abort,
    alloc: Global,
    stream: &str,
    ogg: bool,
    bits: &[u8],
    wanted: (usize, usize),
) -> Result<(), Fail> {
    let mut bytes = hex::decode(alloc, stream)?;
    check_bytes(rt, alloc, &mut bytes, ogg, bits, wanted);
    Ok(())
}

#[test]
fn native_streams_changed(rt: HostRuntime) -> Result<(), Fail> {
    let bits: Vec<u8> = (1..=255).collect(rt.alloc())?;
    for swept in STREAMS.iter() {
        check_stream(&rt, rt.alloc(), swept.0, false, &bits, swept.1)?;
    }
    Ok(())
}

/// The lowest bit, the highest bit and all bits of each byte.
#[test]
fn every_block_changed(rt: HostRuntime) -> Result<(), Fail> {
    check_stream(
        &rt,
        rt.alloc(),
        EVERY_BLOCK,
        false,
        &[1, 128, 255],
        (0, 1000),
    )
}

/// Each change is seen by the sum of its page, or by what is asked of a page before.
#[test]
fn pages_changed(rt: HostRuntime) -> Result<(), Fail> {
    let bits: Vec<u8> = (1..=255).collect(rt.alloc())?;
    check_stream(&rt, rt.alloc(), PAGES, true, &bits, (0, 0))
}
