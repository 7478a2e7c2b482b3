//! What a decoder says of itself before any frame is read, why an Ogg stream is not opened, and samples that are sought
//! in whole streams. The streams are the example of RFC 9639, appendix D.1, with the comment TITLE=x, its digest
//! unknown, and the same samples in pages; and the samples 0, 1, .., 9999 in three frames of 4096, 4096 and 1808
//! samples with seek points, of which the first frame begins at byte 100 and the second 15 bytes after it.

use flac_ogg::ogg_decoder;
use flac_reader::{
    BitReader, Container, Counted, Decoder, Fault, Item, Keep, Memory, OggPackets, Place, Profile,
    Reader, Source, StreamInfo, Why, open_native, open_ogg,
};
use std::alloc::Global;
use std::fs;
use std::fs::File;
use std::io::Cursor;
use std::mem::drop;
use std::process::Abort;
use std::test::Fail;
use test_vectors::{EXAMPLE_TAGGED, PAGES, TEN_THOUSAND};

/// Whether STREAMINFO is there and has this rate and this many channels.
fn is_known(info: Option<&StreamInfo>, rate: u32, channels: u32) -> bool {
    match info {
        Some(info) => info.rate() == rate && u32::from(info.channels()) == channels,
        None => false,
    }
}

/// Reads all metadata and no frame: how many blocks there are.
fn count_blocks<C: Container>(decoder: &mut Decoder<C>) -> Result<usize, Fault> {
    let mut count = 0_usize;
    for _ in 0..u64::MAX {
        if decoder.is_past_metadata() {
            break;
        }
        match decoder.next()? {
            Item::Block(_) => count = count.saturating_add(1),
            _ => break,
        }
    }
    Ok(count)
}

/// Whether the next item is a frame of one sample of each of two channels.
fn is_frame_next<C: Container>(decoder: &mut Decoder<C>) -> bool {
    match decoder.next() {
        Ok(Item::Frame(frame)) => frame.channels() == 2 && frame.len() == 1,
        _ => false,
    }
}

/// A decoder knows nothing of the stream, then STREAMINFO and where the metadata ends, and has read no frame.
fn metadata_first<C: Container>(rt: &impl Abort, decoder: &mut Decoder<C>) {
    assert!(rt; decoder.info().is_none());
    assert!(rt; !decoder.is_past_metadata());
    assert!(rt; count_blocks(decoder) == Ok(2));
    assert!(rt; decoder.is_past_metadata());
    assert!(rt; is_known(decoder.info(), 44100, 2));
    assert!(rt; is_frame_next(decoder));
}

#[test]
fn metadata_before_frames(rt: HostRuntime) -> Result<(), Fail> {
    let stream = hex::decode(rt.alloc(), EXAMPLE_TAGGED)?;
    let mut decoder = Decoder::new(rt.alloc(), Memory::new(&stream), Profile::Subset);
    metadata_first(&rt, &mut decoder);
    drop(decoder);
    Ok(())
}

/// The same of an Ogg stream, whose source is given back: its bytes are all read.
#[test]
fn metadata_before_packets(rt: HostRuntime) -> Result<(), Fail> {
    let pages = hex::decode(rt.alloc(), PAGES)?;
    let mut decoder = ogg_decoder(rt.alloc(), Memory::new(&pages), Profile::Subset)?;
    metadata_first(&rt, &mut decoder);
    let mut source = decoder.into_container().into_source();
    let mut left = [0; 16];
    assert!(rt; source.pull(&mut left).ok() == Some(0));
    Ok(())
}

/// At a frame nothing but frames comes, and STREAMINFO has neither a number of samples nor a digest.
#[test]
fn resumed_past_metadata(rt: HostRuntime) -> Result<(), Fail> {
    let info = StreamInfo::new(4096, 4096, 15, 17, 44100, 1, 16, 10000, [1; 16])?;
    let decoder = Decoder::resume(rt.alloc(), Memory::new(&[]), &info, Profile::Subset)?;
    let past = decoder.is_past_metadata();
    let known = is_known(decoder.info(), 44100, 1);
    let total = decoder.info().map(|info| info.total());
    drop(decoder);
    assert!(rt; past && known && total == Some(0));
    Ok(())
}

/// A reader of an Ogg stream in memory.
fn opened_ogg<'a>(alloc: Global, pages: &'a [u8]) -> Result<Reader<OggPackets<Memory<'a>>>, Fault> {
    Ok(open_ogg(alloc, Memory::new(pages), Profile::Subset, Keep::Tags)?)
}

/// The fault at which an Ogg stream in memory is refused, if it is not opened.
fn refusal(alloc: Global, pages: &[u8]) -> Option<Fault> {
    match opened_ogg(alloc, pages) {
        Ok(_) => None,
        Err(fault) => Some(fault),
    }
}

/// The last byte is missing, so that the page of the only frame is cut off.
#[test]
fn pages_refused_before_frames(rt: HostRuntime) -> Result<(), Fail> {
    let mut pages = hex::decode(rt.alloc(), PAGES)?;
    assert!(rt; refusal(rt.alloc(), &pages).is_none());
    let _last = pages.pop();
    let at = Place::Page(2);
    let why = Why::Truncated;
    assert!(rt; refusal(rt.alloc(), &pages) == Some(Fault { at, why }));
    Ok(())
}

/// How a native stream of this device is refused, as text, and whether the device that is returned met no error.
fn returned(alloc: Global, stream: &[u8]) -> Result<(String, bool), Fail> {
    let source = Counted::new(Cursor::new(stream));
    match open_native(alloc, source, Profile::Subset, Keep::Tags) {
        Ok(_) => Ok((String::from_str(alloc, "opened")?, true)),
        Err(refused) => {
            let text = format!(in alloc; "{refused}");
            let calm = refused.left.last_error().is_none();
            drop(refused);
            Ok((text?, calm))
        }
    }
}

/// The source is returned with the fault, which is what the refusal prints.
#[test]
fn source_returned(rt: HostRuntime) -> Result<(), Fail> {
    let (text, calm) = returned(rt.alloc(), b"fLa")?;
    assert!(rt; text.as_str() == "marker: 3 Truncated" && calm);
    let (text, calm) = returned(rt.alloc(), b"flac")?;
    assert!(rt; text.as_str() == "marker: 4 BadMarker" && calm);
    Ok(())
}

/// What is seen of a frame that is sought: the number of its first sample, and that sample.
type Sought = Option<(u64, i32)>;

/// A reader of bytes in memory.
fn opened<'a>(
    alloc: Global,
    stream: &'a [u8],
    keep: Keep,
) -> Result<Reader<BitReader<Memory<'a>>>, Fault> {
    Ok(open_native(alloc, Memory::new(stream), Profile::Subset, keep)?)
}

/// What is seen of the next frame.
fn next_sample<C: Container + Drop>(reader: Reader<C>) -> Result<Sought, Fault> {
    let mut reader = reader;
    let outcome = first_of(&mut reader);
    drop(reader);
    outcome
}

fn first_of<C: Container>(reader: &mut Reader<C>) -> Result<Sought, Fault> {
    let first = match reader.next()? {
        Some(frame) if frame.channels() > 0 && !frame.is_empty() => frame.sample(0, 0),
        _ => return Ok(None),
    };
    Ok(Some((reader.first_sample(), first)))
}

/// What is sought in a stream in memory.
fn sought_in(alloc: Global, stream: &[u8], keep: Keep, sample: u64) -> Result<Sought, Fault> {
    let reader = opened(alloc, stream, keep)?;
    let reader = reader.seek_in(alloc, stream, Profile::Subset, sample)?;
    next_sample(reader)
}

/// The same over a source of the bytes from the point on.
fn sought_from(alloc: Global, stream: &[u8], sample: u64) -> Result<Sought, Fault> {
    let reader = opened(alloc, stream, Keep::All)?;
    let offset = reader.seek_offset(sample) as usize;
    let source = Memory::new(stream.get(offset..).unwrap_or(&[]));
    let reader = reader.seek_from(alloc, source, Profile::Subset, sample)?;
    next_sample(reader)
}

/// The same over a device that is moved.
fn sought_file(alloc: Global, stream: &[u8], sample: u64) -> Result<Sought, Fault> {
    let reader = opened(alloc, stream, Keep::All)?;
    let reader = reader.seek_file(alloc, Cursor::new(stream), Profile::Subset, sample)?;
    next_sample(reader)
}

/// Whether a sample is found, in each way, in the frame that begins at this one.
fn is_found(alloc: Global, stream: &[u8], sample: u64, first: i32) -> bool {
    let wanted = Ok(Some((u64::from(first.unsigned_abs()), first)));
    sought_in(alloc, stream, Keep::All, sample) == wanted
        && sought_in(alloc, stream, Keep::Tags, sample) == wanted
        && sought_from(alloc, stream, sample) == wanted
        && sought_file(alloc, stream, sample) == wanted
}

#[test]
fn sought_in_whole_streams(rt: HostRuntime) -> Result<(), Fail> {
    let stream = hex::decode(rt.alloc(), TEN_THOUSAND)?;
    assert!(rt; is_found(rt.alloc(), &stream, 0, 0));
    assert!(rt; is_found(rt.alloc(), &stream, 4095, 0));
    assert!(rt; is_found(rt.alloc(), &stream, 4096, 4096));
    assert!(rt; is_found(rt.alloc(), &stream, 9999, 8192));
    assert!(rt; sought_in(rt.alloc(), &stream, Keep::All, 10000) == Ok(None));
    Ok(())
}

/// Where the frames start, and where a search for a sample begins.
fn offsets(alloc: Global, stream: &[u8], keep: Keep, sample: u64) -> Result<(u64, u64), Fault> {
    let reader = opened(alloc, stream, keep)?;
    let found = (reader.frames_start(), reader.seek_offset(sample));
    drop(reader);
    Ok(found)
}

#[test]
fn offsets_in_a_stream(rt: HostRuntime) -> Result<(), Fail> {
    let stream = hex::decode(rt.alloc(), TEN_THOUSAND)?;
    assert!(rt; offsets(rt.alloc(), &stream, Keep::All, 4095) == Ok((100, 100)));
    assert!(rt; offsets(rt.alloc(), &stream, Keep::All, 4096) == Ok((100, 115)));
    assert!(rt; offsets(rt.alloc(), &stream, Keep::Tags, 4096) == Ok((100, 100)));
    Ok(())
}

/// What is sought in a file, which is read through one reference and moved through another.
fn sought_by_reference(alloc: Global, file: &File, sample: u64) -> Result<Sought, Fault> {
    let reader = open_native(alloc, Counted::new(file), Profile::Subset, Keep::All)?;
    let reader = reader.seek_file(alloc, file, Profile::Subset, sample)?;
    next_sample(reader)
}

#[test]
fn sought_in_a_file(rt: HostRuntime) -> Result<(), Fail> {
    let stream = hex::decode(rt.alloc(), TEN_THOUSAND)?;
    fs::write(&rt, "sought.flac", &stream)?;
    let file = File::open(&rt, "sought.flac")?;
    let found = sought_by_reference(rt.alloc(), &file, 5000);
    drop(file);
    assert!(rt; found == Ok(Some((4096, 4096))));
    Ok(())
}

/// Whether nothing is left for the decoder of a reader that has read the only frame ahead.
fn is_read_ahead(alloc: Global, stream: &[u8]) -> Result<bool, Fault> {
    let mut decoder = opened(alloc, stream, Keep::Tags)?.into_decoder();
    let is_over = matches!(decoder.next(), Ok(Item::End));
    drop(decoder);
    Ok(is_over)
}

#[test]
fn decoder_of_a_reader(rt: HostRuntime) -> Result<(), Fail> {
    let stream = hex::decode(rt.alloc(), EXAMPLE_TAGGED)?;
    assert!(rt; is_read_ahead(rt.alloc(), &stream) == Ok(true));
    Ok(())
}
