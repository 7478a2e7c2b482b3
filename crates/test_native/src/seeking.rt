//! Seek tables that are written, and a stream that is read from a point on.

use flac_bits::{Collected, Memory};
use flac_frame::{Audio, FrameView};
use flac_meta::{Block, BlockList, SeekPoint, SeekTable, StreamInfo};
use flac_native::{Container, Decoder, EncodeFault, Item, Plan, Profile, encode};
use std::alloc::Global;
use std::mem::drop;
use std::process::Abort;
use std::test::Fail;
use test_calls::{encoded, ends};
use test_vectors::TEN_THOUSAND;

/// The samples 0, 1, .., 16 of one channel of 16 bits.
fn seventeen(alloc: Global) -> Result<Audio, Fail> {
    Ok(Audio::new(44100, 16, vec![in alloc; (0..17).collect(alloc)?]?)?)
}

/// A table of these points, and nothing else.
fn table(alloc: Global, points: Vec<SeekPoint>) -> Result<BlockList, Fail> {
    let mut blocks = Vec::new(alloc);
    blocks.push(Block::SeekTable(SeekTable::from_vec(points)))?;
    Ok(BlockList::new(blocks)?)
}

/// Encodes those samples with a seek table in the list, and a seek point each `every` samples: the outcome, and what is
/// written.
fn encoded_with_table(
    alloc: Global,
    every: u32,
) -> Result<(Result<(), EncodeFault>, Collected), Fail> {
    let audio = seventeen(alloc)?;
    let list = table(alloc, Vec::new(alloc))?;
    let plan = Plan::new_in(audio.profile(), 16, &audio, every)?;
    let mut target = Collected::new(alloc);
    let outcome = encode(alloc, &plan, &list, &audio, &mut target);
    Ok((outcome, target))
}

/// Those samples in blocks of 16 and a table without points, put together by hand: STREAMINFO, the table, a frame of a
/// fixed predictor of order 2 that leaves zeros, which an escape of 0 bits codes, and one of the sample 16 alone, constant
/// with 4 wasted bits.
const WITH_TABLE: [u8; 74] = [
    0x66, 0x4C, 0x61, 0x43, 0x00, 0x00, 0x00, 0x22, 0x00, 0x10, 0x00, 0x10, 0x00, 0x00, 0x0C, 0x00,
    0x00, 0x10, 0x0A, 0xC4, 0x40, 0xF0, 0x00, 0x00, 0x00, 0x11, 0xF9, 0x61, 0xF0, 0x10, 0xDA, 0x46,
    0x7F, 0x32, 0x1C, 0x63, 0xD9, 0x8D, 0x6E, 0xB5, 0xE8, 0x9C, 0x83, 0x00, 0x00, 0x00, 0xFF, 0xF8,
    0x69, 0x08, 0x00, 0x0F, 0x30, 0x14, 0x00, 0x00, 0x00, 0x01, 0x03, 0xC0, 0xEF, 0xC9, 0xFF, 0xF8,
    0x69, 0x08, 0x01, 0x00, 0x08, 0x01, 0x10, 0x01, 0xBC, 0x33,
];

/// A list that has a seek table is refused where the plan asks for one, and else written.
#[test]
fn repeated_table(rt: HostRuntime) -> Result<(), Fail> {
    let (outcome, target) = encoded_with_table(rt.alloc(), 16)?;
    assert!(rt; outcome == Err(EncodeFault::RepeatedBlock));
    assert!(rt; target.bytes().is_empty());
    let (outcome, target) = encoded_with_table(rt.alloc(), 0)?;
    assert!(rt; outcome == Ok(()));
    assert!(rt; target.bytes() == WITH_TABLE.as_slice());
    Ok(())
}

/// The MD5 of those samples.
const DIGEST: [u8; 16] = [
    0xFB, 0xAF, 0x22, 0xF9, 0x1D, 0x9B, 0xC5, 0x3A, 0x48, 0xE9, 0xBC, 0xD8, 0x8D, 0x4A, 0x22, 0xFF,
];

/// Those samples, encoded.
fn ten_thousand(alloc: Global) -> Result<Vec<u8>, Fail> {
    let audio = Audio::new(44100, 16, vec![in alloc; (0..10000).collect(alloc)?]?)?;
    encoded(alloc, &audio, 4096, 1000)
}

/// The next frame, if one comes next.
fn next_frame<C: Container>(decoder: &mut Decoder<C>) -> Option<Told> {
    match decoder.next() {
        Ok(Item::Frame(frame)) => Some(told(&frame)),
        _ => None,
    }
}

/// A frame's number, its channels, how many samples a channel has, and the first and the last sample of the first
/// channel.
type Told = (u64, usize, usize, Option<i32>, Option<i32>);

fn told(frame: &FrameView<'_>) -> Told {
    let (mut first, mut last) = (None, None);
    if frame.channels() > 0 {
        first = frame.channel(0).first().copied();
        last = frame.channel(0).last().copied();
    }
    (frame.number(), frame.channels(), frame.len(), first, last)
}

#[test]
fn written_with_points(rt: HostRuntime) -> Result<(), Fail> {
    let stream = ten_thousand(rt.alloc())?;
    let wanted = hex::decode(rt.alloc(), TEN_THOUSAND)?;
    assert!(rt; stream.as_slice() == wanted.as_slice());
    Ok(())
}

/// Reads these frames, and the end.
fn check_frames<C: Container>(rt: &impl Abort, decoder: &mut Decoder<C>, frames: &[Told]) {
    for frame in frames {
        assert!(rt; next_frame(decoder) == Some(*frame));
    }
    assert!(rt; ends(decoder));
}

/// Resumes a stream of this STREAMINFO at these bytes of it, which are these frames.
fn check_resumed(
    rt: &impl Abort,
    alloc: Global,
    bytes: Option<&[u8]>,
    info: &StreamInfo,
    frames: &[Told],
) -> Result<(), Fail> {
    let source = Memory::new(bytes.unwrap_or(&[]));
    let mut decoder = Decoder::resume(alloc, source, info, Profile::Subset)?;
    check_frames(rt, &mut decoder, frames);
    drop(decoder);
    Ok(())
}

/// The stream is read from its second point on: two frames, and the end.
#[test]
fn resumed_at_a_point(rt: HostRuntime) -> Result<(), Fail> {
    let stream = ten_thousand(rt.alloc())?;
    let info = StreamInfo::new(4096, 4096, 15, 17, 44100, 1, 16, 10000, DIGEST)?;
    let frames = [
        (1, 1, 4096, Some(4096), Some(8191)),
        (2, 1, 1808, Some(8192), Some(9999)),
    ];
    check_resumed(&rt, rt.alloc(), stream.get(100 + 15..), &info, &frames)
}

/// The seek table of the seventeen samples in blocks of 16, with a point each 16: the first frame has 16 bytes.
const POINTS: [u8; 40] = [
    0x83, 0, 0, 0x24, 0, 0, 0, 0, 0, 0, 0, 0, 0, 0, 0, 0, 0, 0, 0, 0, 0, 16, 0, 0, 0, 0, 0, 0, 0,
    16, 0, 0, 0, 0, 0, 0, 0, 16, 0, 1,
];

/// The frames that are read have neither the digest nor the number of samples that STREAMINFO says.
#[test]
fn resumed_with_another_digest(rt: HostRuntime) -> Result<(), Fail> {
    let info = StreamInfo::new(16, 16, 0, 0, 44100, 1, 16, 17, [1; 16])?;
    let stream = encoded(rt.alloc(), &seventeen(rt.alloc())?, 16, 16)?;
    assert!(rt; stream.get(42..82) == Some(POINTS.as_slice()) && stream.len() > 98);
    let frames = [(1, 1, 1, Some(16), Some(16))];
    check_resumed(&rt, rt.alloc(), stream.get(98..), &info, &frames)
}
