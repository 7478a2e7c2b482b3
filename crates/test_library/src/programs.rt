//! The programs of the README, which read files: the example of RFC 9639, appendix D.1, with the comment TITLE=x, its
//! digest unknown; and the samples 0, 1, .., 9999 of one channel in frames of 4096, 4096 and 1808 samples.

use flac_encoder::{StreamEncoder, StreamFormat};
use flac_meta::BlockList;
use flac_native::Target;
use flac_reader::{
    Container, Counted, Fault, FrameView, Keep, Profile, Reader, Samples, open_native,
};
use std::alloc::Global;
use std::fs;
use std::fs::File;
use std::mem::drop;
use std::test::Fail;
use test_vectors::{EXAMPLE_TAGGED, TEN_THOUSAND};

/// The peak of the samples that come.
fn peak_of<C: Container + Drop>(samples: &mut Samples<C>) -> Result<u32, Fault> {
    let mut peak = 0;
    for sample in samples {
        peak = sample?.unsigned_abs().max(peak);
    }
    Ok(peak)
}

/// The title of a native stream and its peak, as text.
fn title_and_peak(alloc: Global, file: File) -> Result<String, Fail> {
    let reader = open_native(alloc, Counted::new(file), Profile::Subset, Keep::Tags)?;
    let title = reader.comments().and_then(|list| list.find(b"TITLE"));
    let title = String::from_utf8_lossy(alloc, title.unwrap_or(b"none"));
    let mut samples = reader.into_samples();
    let peak = peak_of(&mut samples);
    drop(samples);
    Ok(format!(in alloc; "{}: {}", title?, peak?)?)
}

/// Encodes a frame of one or two channels.
fn push<W: Target + Drop>(to: &mut StreamEncoder<W>, frame: FrameView<'_>) -> Result<(), Fail> {
    if frame.channels() > 1 {
        to.push(&[frame.channel(0), frame.channel(1)])?;
    } else if frame.channels() > 0 {
        to.push(&[frame.channel(0)])?;
    }
    Ok(())
}

/// Encodes each frame that comes.
fn copy_frames<C: Container + Drop, W: Target + Drop>(
    reader: &mut Reader<C>,
    encoder: &mut StreamEncoder<W>,
) -> Result<(), Fail> {
    for _ in 0..u64::MAX {
        let Some(frame) = reader.next()? else { break };
        push(encoder, frame)?;
    }
    Ok(())
}

/// Copies a native stream of one or two channels, frame by frame, through decoder and encoder.
fn copy(alloc: Global, from: File, to: File) -> Result<(), Fail> {
    let mut reader = open_native(alloc, Counted::new(from), Profile::Subset, Keep::Tags)?;
    let format = StreamFormat::of(reader.info(), Profile::Subset);
    let (list, to) = (BlockList::new(Vec::new(alloc))?, Counted::new(to));
    let mut encoder = StreamEncoder::new_in(alloc, &format, &list, to)?;
    copy_frames(&mut reader, &mut encoder)?;
    let _file = encoder.finish()?;
    Ok(())
}

/// The copy of the example: STREAMINFO without sizes, total and digest, and the frame without wasted bits.
const TWO_AGAIN: &str =
    "664c614380000022100010000000000000000ac442f00000000000000000000000000000000000000000fff869180000bf0158fd01128b5ab2";

#[test]
fn two_channels(rt: HostRuntime) -> Result<(), Fail> {
    let stream = hex::decode(rt.alloc(), EXAMPLE_TAGGED)?;
    fs::write(&rt, "two.flac", &stream)?;
    let found = title_and_peak(rt.alloc(), File::open(&rt, "two.flac")?)?;
    assert!(rt; found.as_str() == "x: 25588");
    let to = File::create(&rt, "two_again.flac")?;
    copy(rt.alloc(), File::open(&rt, "two.flac")?, to)?;
    let found = fs::read(&rt, "two_again.flac")?;
    let wanted = hex::decode(rt.alloc(), TWO_AGAIN)?;
    assert!(rt; found.as_slice() == wanted.as_slice());
    Ok(())
}

#[test]
fn one_channel(rt: HostRuntime) -> Result<(), Fail> {
    let stream = hex::decode(rt.alloc(), TEN_THOUSAND)?;
    fs::write(&rt, "one.flac", &stream)?;
    let to = File::create(&rt, "one_again.flac")?;
    copy(rt.alloc(), File::open(&rt, "one.flac")?, to)?;
    let found = title_and_peak(rt.alloc(), File::open(&rt, "one_again.flac")?)?;
    assert!(rt; found.as_str() == "none: 9999");
    Ok(())
}
