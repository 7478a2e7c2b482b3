//! Calls beside whole streams: a stream read part by part, what is given back, numbers and texts of faults.

use flac_native::{
    BitReader, Block, Decoder, EncodeFault, Failures, Fault, FrameView, Item, Memory, Place,
    Profile, RetagFault, SetupFault, SinkFault, StreamInfo, Track, Why, bytes_from, put_rows,
    read_marker, sample_width,
};
use std::alloc::Global;
use std::fmt::Display;
use std::mem::drop;
use std::process::Abort;
use std::test::Fail;
use test_calls::sample;
use test_vectors::EXAMPLE;

/// Writes the samples of a frame of at most 2 as the digest's bytes of 16 bits, and returns how many these are.
fn rows(frame: &FrameView<'_>, out: &mut [u8; 64]) -> usize {
    if frame.len() > 2 {
        return 0;
    }
    put_rows(frame, 2, 0, frame.len(), out)
}

/// Whether a STREAMINFO block comes next, and is the last.
fn is_last_info(bits: &mut BitReader<Memory<'_>>, track: &mut Track) -> bool {
    let read = track.block(bits);
    let found = matches!(read, Ok((true, Block::StreamInfo(_))));
    drop(read);
    found
}

/// Checks where a track is, and what its end would return there.
fn is_at(rt: &impl Abort, track: &mut Track, place: Place, end: Result<(), Why>) {
    assert!(rt; track.place() == place);
    assert!(rt; track.end() == end);
}

/// The channels, the length and the number of the next frame; how many bytes its samples are, and the first five of
/// them.
type Told = ((usize, usize, u64), (usize, [u8; 5]));

/// The next frame.
fn next_frame(bits: &mut BitReader<Memory<'_>>, track: &mut Track) -> Result<Told, Why> {
    let frame = track.frame(bits)?;
    let mut out = [0; 64];
    let count = rows(&frame, &mut out);
    let shape = (frame.channels(), frame.len(), frame.number());
    Ok((shape, (count, [out[0], out[1], out[2], out[3], out[4]])))
}

/// Reads the example: the marker, a block, after which a sample is missing at the end, a frame, and the end.
fn reads_all(rt: &impl Abort, bits: &mut BitReader<Memory<'_>>, track: &mut Track) {
    assert!(rt; read_marker(bits) == Ok(()));
    assert!(rt; track.place() == Place::Block(0));
    assert!(rt; is_last_info(bits, track));
    is_at(rt, track, Place::Frame(0), Err(Why::TotalMismatch));
    let frame = next_frame(bits, track);
    assert!(rt; frame == Ok(((2, 1, 0), (4, [0xF4, 0x63, 0xB0, 0x28, 0]))));
    is_at(rt, track, Place::Frame(1), Ok(()));
    assert!(rt; bits.at_end() == Ok(true));
}

/// A stream read part by part: the marker, a block, a frame, and what STREAMINFO states of all samples.
#[test]
fn reads_parts(rt: HostRuntime) -> Result<(), Fail> {
    let stream = hex::decode(rt.alloc(), EXAMPLE)?;
    let mut bits = BitReader::new(Memory::new(&stream));
    let mut track = Track::new(rt.alloc(), Profile::Subset);
    reads_all(&rt, &mut bits, &mut track);
    drop(track);
    Ok(())
}

/// Whether a frame comes next, and the source, which is given back, is at its end then.
fn is_last_frame(decoder: Decoder<BitReader<Memory<'_>>>) -> bool {
    let mut decoder = decoder;
    let read = matches!(decoder.next(), Ok(Item::Frame(_)));
    let mut bits = BitReader::new(decoder.into_source());
    read && bits.at_end() == Ok(true)
}

/// A decoder gives its source back, here one that was read to its end.
#[test]
fn gives_its_source_back(rt: HostRuntime) -> Result<(), Fail> {
    let info = StreamInfo::of_format(4096, 44100, 2, 16);
    let stream = hex::decode(rt.alloc(), EXAMPLE)?;
    let source = Memory::new(bytes_from(&stream, 42));
    let decoder = Decoder::resume(rt.alloc(), source, &info, Profile::Subset)?;
    assert!(rt; is_last_frame(decoder));
    Ok(())
}

#[test]
fn gives_its_channels_back(rt: HostRuntime) -> Result<(), Fail> {
    let channels = sample(rt.alloc())?.into_channels();
    assert!(rt; channels.len() == 2);
    assert!(rt; channels[0].as_slice() == [25588].as_slice());
    assert!(rt; channels[1].as_slice() == [10416].as_slice());
    Ok(())
}

#[test]
fn numbers_of_faults(rt: HostRuntime) {
    let encoding = [
        EncodeFault::Memory.number(),
        EncodeFault::RepeatedBlock.number(),
        EncodeFault::BadMapping.number(),
        EncodeFault::Write.number(),
    ];
    assert!(rt; encoding == [2, 9, 37, 39]);
    let setup = [
        SetupFault::BadRate.number(),
        SetupFault::BadDepth.number(),
        SetupFault::BadChannels.number(),
        SetupFault::LengthsDiffer.number(),
        SetupFault::SampleTooLarge.number(),
        SetupFault::TooLong.number(),
        SetupFault::BadBlockSize.number(),
        SetupFault::TooManyPoints.number(),
        SetupFault::PredictorOrder.number(),
        SetupFault::TooManyPredictors.number(),
    ];
    assert!(rt; setup == [40, 41, 42, 43, 44, 45, 46, 47, 51, 52]);
    assert!(rt; EncodeFault::Memory.as_str() == "2 Memory");
    assert!(rt; SetupFault::BadRate.as_str() == "40 BadRate");
    assert!(rt; SetupFault::PredictorOrder.as_str() == "51 PredictorOrder");
    assert!(rt; SetupFault::TooManyPredictors.as_str() == "52 TooManyPredictors");
}

/// Checks how something prints.
fn prints<D: Display>(rt: &impl Abort, alloc: Global, shown: &D, text: &str) -> Result<(), Fail> {
    let found = format!(in alloc; "{shown}")?;
    assert!(rt; found.as_str() == text);
    Ok(())
}

/// Checks how a fault at a place prints.
fn prints_at(rt: &impl Abort, alloc: Global, at: Place, why: Why, text: &str) -> Result<(), Fail> {
    prints(rt, alloc, &Fault { at, why }, text)?;
    prints(rt, alloc, &RetagFault { at: Some(at), why }, text)
}

#[test]
fn prints_faults(rt: HostRuntime) -> Result<(), Fail> {
    let alloc = rt.alloc();
    prints_at(
        &rt,
        alloc,
        Place::Marker,
        Why::BadMarker,
        "marker: 4 BadMarker",
    )?;
    prints_at(
        &rt,
        alloc,
        Place::Block(0),
        Why::BadStreamInfo,
        "block 0: 8 BadStreamInfo",
    )?;
    prints_at(
        &rt,
        alloc,
        Place::Frame(3),
        Why::FrameCheck,
        "frame 3: 26 FrameCheck",
    )?;
    prints_at(
        &rt,
        alloc,
        Place::Page(7),
        Why::PageCheck,
        "page 7: 32 PageCheck",
    )?;
    prints_at(
        &rt,
        alloc,
        Place::End,
        Why::Md5Mismatch,
        "end: 29 Md5Mismatch",
    )?;
    let (at, why) = (None, Why::BlockLength);
    prints(&rt, alloc, &RetagFault { at, why }, "7 BlockLength")?;
    prints(&rt, alloc, &SetupFault::SampleTooLarge, "44 SampleTooLarge")
}

#[test]
fn kinds_of_places(rt: HostRuntime) {
    assert!(rt; Place::Marker.kind_name() == "marker");
    assert!(rt; Place::Block(0).kind_name() == "block");
    assert!(rt; Place::Frame(3).kind_name() == "frame");
    assert!(rt; Place::Page(7).kind_name() == "page");
    assert!(rt; Place::End.kind_name() == "end");
}

/// A stream has no bytes from an offset after its end on.
#[test]
fn bytes_from_an_offset(rt: HostRuntime) {
    assert!(rt; bytes_from(b"fLaC", 0) == b"fLaC".as_slice());
    assert!(rt; bytes_from(b"fLaC", 3) == b"C".as_slice());
    assert!(rt; bytes_from(b"fLaC", 4).is_empty());
    assert!(rt; bytes_from(b"fLaC", u64::MAX).is_empty());
}

/// Each failure is counted.
#[test]
fn counts_failures(rt: HostRuntime) {
    let mut failures = Failures::new();
    assert!(rt; failures.count() == 0);
    assert!(rt; failures.fail() == Err(SinkFault));
    assert!(rt; failures.fail() == Err(SinkFault));
    assert!(rt; failures.count() == 2);
}

/// A sample takes whole bytes.
#[test]
fn widths_are_whole_bytes(rt: HostRuntime) {
    assert!(rt; sample_width(4) == 1);
    assert!(rt; sample_width(8) == 1);
    assert!(rt; sample_width(12) == 2);
    assert!(rt; sample_width(20) == 3);
    assert!(rt; sample_width(32) == 4);
}
