//! Programs over a reader, as a user writes them: the tags and the peak of a stream, and a copy of one. The stream is
//! the example of RFC 9639, appendix D.1, its digest unknown, with the comment TITLE=x.

use flac_frame::{Audio, FrameView};
use flac_native::Decoder;
use flac_reader::{
    Block, Comments, Container, Fault, Keep, Memory, Opened, Place, Profile, Reader, Why, open,
    open_native, open_ogg, read_blocks,
};
use std::alloc::{AllocError, Global};
use std::mem::drop;
use std::process::Abort;
use std::test::Fail;
use test_calls::encoded;
use test_vectors::{EXAMPLE_TAGGED, PAGES};

/// The greatest absolute value of a frame's samples, or a greater one so far.
fn raised(peak: u32, frame: &FrameView<'_>) -> u32 {
    let mut peak = peak;
    for i in 0..8 {
        if i < frame.channels() {
            for sample in frame.channel(i) {
                peak = sample.unsigned_abs().max(peak);
            }
        }
    }
    peak
}

/// The peak of a stream.
fn peak<C: Container>(reader: &mut Reader<C>) -> Result<u32, Fault> {
    let mut peak = 0;
    for _ in 0..u64::MAX {
        match reader.next()? {
            Some(frame) => peak = raised(peak, &frame),
            None => return Ok(peak),
        }
    }
    Ok(peak)
}

/// Whether the comments have the title `x`.
fn has_title<C: Container>(reader: &Reader<C>) -> bool {
    match reader.comments() {
        Some(comments) => comments.find(b"title") == Some(b"x".as_slice()),
        None => false,
    }
}

/// What is printed of a stream: its rate, whether it has the title, its peak, and how many samples each channel has.
type Printed = (u32, bool, u32, u64);

/// What is printed of a stream that is open.
fn printed<C: Container>(reader: &mut Reader<C>) -> Result<Printed, Fault> {
    let rate = reader.info().rate();
    let title = has_title(reader);
    let peak = peak(reader)?;
    Ok((rate, title, peak, reader.first_sample()))
}

/// What is printed of a stream in memory.
fn tags_and_peak(alloc: Global, stream: &[u8], keep: Keep) -> Result<Printed, Fault> {
    match open(alloc, Memory::new(stream), Profile::Subset, keep) {
        Ok(Opened::Native(reader)) => printed_and_dropped(reader),
        Ok(Opened::Ogg(reader)) => printed_and_dropped(reader),
        Err(refused) => Err(refused.fault),
    }
}

fn printed_and_dropped<C: Container + Drop>(reader: Reader<C>) -> Result<Printed, Fault> {
    let mut reader = reader;
    let outcome = printed(&mut reader);
    drop(reader);
    outcome
}

#[test]
fn tags_and_peak_of_a_stream(rt: HostRuntime) -> Result<(), Fail> {
    let native = hex::decode(rt.alloc(), EXAMPLE_TAGGED)?;
    let wanted = Ok((44100, true, 25588, 1));
    assert!(rt; tags_and_peak(rt.alloc(), &native, Keep::Tags) == wanted);
    assert!(rt; tags_and_peak(rt.alloc(), &native, Keep::All) == wanted);
    let pages = hex::decode(rt.alloc(), PAGES)?;
    assert!(rt; tags_and_peak(rt.alloc(), &pages, Keep::Tags) == Ok((44100, false, 25588, 1)));
    Ok(())
}

#[test]
fn refused_before_the_first_frame(rt: HostRuntime) -> Result<(), Fail> {
    let mut stream = hex::decode(rt.alloc(), EXAMPLE_TAGGED)?;
    let _last = stream.pop();
    let found = tags_and_peak(rt.alloc(), &stream, Keep::All);
    let at = Place::Frame(0);
    let why = Why::Truncated;
    assert!(rt; found == Err(Fault { at, why }));
    Ok(())
}

/// How many blocks are kept of a stream that one of the two calls opens.
fn kept(alloc: Global, stream: &[u8], is_ogg: bool, keep: Keep) -> Result<usize, Fault> {
    let source = Memory::new(stream);
    if is_ogg {
        let reader = open_ogg(alloc, source, Profile::Subset, keep)?;
        Ok(reader.blocks().len())
    } else {
        let reader = open_native(alloc, source, Profile::Subset, keep)?;
        Ok(reader.blocks().len())
    }
}

/// How many blocks are read of a native stream.
fn blocks_read(alloc: Global, stream: &[u8]) -> Result<usize, Fault> {
    let mut decoder = Decoder::new(alloc, Memory::new(stream), Profile::Subset);
    let mut blocks = Vec::new(alloc);
    let outcome = read_blocks(&mut decoder, Keep::All, &mut blocks);
    drop(decoder);
    let count = blocks.len();
    drop(blocks);
    outcome?;
    Ok(count)
}

#[test]
fn blocks_of_streams(rt: HostRuntime) -> Result<(), Fail> {
    let native = hex::decode(rt.alloc(), EXAMPLE_TAGGED)?;
    assert!(rt; kept(rt.alloc(), &native, false, Keep::Tags) == Ok(2));
    assert!(rt; blocks_read(rt.alloc(), &native) == Ok(2));
    Ok(())
}

#[test]
fn blocks_of_pages(rt: HostRuntime) -> Result<(), Fail> {
    let pages = hex::decode(rt.alloc(), PAGES)?;
    assert!(rt; kept(rt.alloc(), &pages, true, Keep::All) == Ok(2));
    Ok(())
}

/// Comments of three texts.
fn three_comments(alloc: Global) -> Result<Comments, AllocError> {
    let mut comments = Comments::new(alloc, b"my program 1.0")?;
    comments.push(alloc, b"ARTIST", b"one")?;
    comments.push(alloc, b"TITLE", b"x=y")?;
    comments.push(alloc, b"Artist", b"two")?;
    Ok(comments)
}

/// Whether the comments are those of `three_comments`.
fn are_three(comments: &Comments) -> bool {
    let mut artists = comments.values(b"artist");
    comments.vendor() == b"my program 1.0".as_slice()
        && comments.len() == 3
        && !comments.is_empty()
        && comments.get(1) == Some(b"TITLE=x=y".as_slice())
        && comments.get(3).is_none()
        && comments.find(b"title") == Some(b"x=y".as_slice())
        && comments.find(b"ALBUM").is_none()
        && artists.next() == Some(b"one".as_slice())
        && artists.next() == Some(b"two".as_slice())
        && artists.next().is_none()
}

#[test]
fn comments_by_name(rt: HostRuntime) -> Result<(), Fail> {
    let comments = three_comments(rt.alloc())?;
    assert!(rt; are_three(&comments));
    Ok(())
}

/// Puts the samples of a frame after those of each channel.
fn gather(frame: &FrameView<'_>, channels: &mut Vec<Vec<i32>>) -> Result<(), AllocError> {
    for (i, samples) in channels.iter_mut().enumerate() {
        if i < frame.channels() {
            samples.extend_from_slice(frame.channel(i))?;
        }
    }
    Ok(())
}

/// Puts all samples of a stream into channels.
fn gather_all<C: Container>(
    reader: &mut Reader<C>,
    channels: &mut Vec<Vec<i32>>,
) -> Result<(), Fail> {
    for _ in 0..u64::MAX {
        match reader.next()? {
            Some(frame) => gather(&frame, channels)?,
            None => return Ok(()),
        }
    }
    Ok(())
}

/// The same for a stream in memory.
fn gather_of(alloc: Global, stream: &[u8], channels: &mut Vec<Vec<i32>>) -> Result<(), Fail> {
    let mut reader = open_native(alloc, Memory::new(stream), Profile::Subset, Keep::Tags)?;
    let outcome = gather_all(&mut reader, channels);
    drop(reader);
    outcome
}

/// A copy of a stream of two channels, through decoder and encoder.
fn copied(alloc: Global, stream: &[u8]) -> Result<Vec<u8>, Fail> {
    let mut channels = vec![in alloc; Vec::new(alloc), Vec::new(alloc)]?;
    gather_of(alloc, stream, &mut channels)?;
    encoded(alloc, &Audio::new(44100, 16, channels)?, 4096, 0)
}

#[test]
fn copy_of_a_stream(rt: HostRuntime) -> Result<(), Fail> {
    let alloc = rt.alloc();
    let stream = hex::decode(alloc, EXAMPLE_TAGGED)?;
    let copy = copied(alloc, &stream)?;
    let wanted = Ok((44100, false, 25588, 1));
    assert!(rt; tags_and_peak(alloc, &copy, Keep::All) == wanted);
    let mut channels = vec![in alloc; Vec::new(alloc), Vec::new(alloc)]?;
    gather_of(alloc, &copy, &mut channels)?;
    let text = format!(in alloc; "{channels:?}")?;
    assert!(rt; text.as_str() == "[[25588], [10416]]");
    Ok(())
}

/// What is printed of a stream in memory by a reader over a decoder of it.
fn over_a_decoder(alloc: Global, stream: &[u8]) -> Result<Printed, Fault> {
    let decoder = Decoder::new(alloc, Memory::new(stream), Profile::Subset);
    printed_and_dropped(Reader::over(alloc, decoder, Keep::Tags)?)
}

#[test]
fn reader_over_a_decoder(rt: HostRuntime) -> Result<(), Fail> {
    let stream = hex::decode(rt.alloc(), EXAMPLE_TAGGED)?;
    assert!(rt; over_a_decoder(rt.alloc(), &stream) == Ok((44100, true, 25588, 1)));
    let (at, why) = (Place::Marker, Why::Truncated);
    assert!(rt; over_a_decoder(rt.alloc(), &[]) == Err(Fault { at, why }));
    Ok(())
}

/// The first samples of a stream, interleaved, and how many are written into this much room.
fn interleaved(alloc: Global, stream: &[u8], room: usize) -> Result<(usize, i32, i32), Fail> {
    let mut reader = open_native(alloc, Memory::new(stream), Profile::Subset, Keep::Tags)?;
    let mut out = [0; 4];
    let count = match reader.next()? {
        Some(frame) => frame.interleave(&mut out[..room.min(4)]),
        None => 0,
    };
    drop(reader);
    Ok((count, out[0], out[1]))
}

#[test]
fn samples_interleaved(rt: HostRuntime) -> Result<(), Fail> {
    let stream = hex::decode(rt.alloc(), EXAMPLE_TAGGED)?;
    let all = interleaved(rt.alloc(), &stream, 4)?;
    assert!(rt; all == (2, 25588, 10416));
    let none = interleaved(rt.alloc(), &stream, 1)?;
    assert!(rt; none == (0, 0, 0));
    Ok(())
}
