//! Samples one by one, frames that are sought, and times. The streams are the example of RFC 9639, appendix D.1, with
//! the comment TITLE=x, and the samples 0, 1, .., 9999 in three frames of 4096, 4096 and 1808 samples with seek points,
//! of which the first frame begins at byte 100.

use flac_frame::Audio;
use flac_reader::{
    BitReader, Container, Fault, Keep, Memory, Opened, Place, Profile, Reader, Samples, Why, open,
    open_native, stereo_samples,
};
use std::alloc::Global;
use std::mem::drop;
use std::process::Abort;
use std::test::Fail;
use std::time::Duration;
use test_calls::encoded;
use test_vectors::{EXAMPLE_TAGGED, PAGES, TEN_THOUSAND};

/// The first title of a stream, as text.
fn title_of<C: Container>(alloc: Global, reader: &Reader<C>) -> Result<String, Fail> {
    let title = match reader.comments() {
        Some(comments) => comments.find(b"TITLE").unwrap_or(b"none"),
        None => b"",
    };
    Ok(String::from_utf8_lossy(alloc, title)?)
}

/// The peak of the samples that come.
fn peak_of<C: Container + Drop>(samples: &mut Samples<C>) -> Result<u32, Fault> {
    let mut peak = 0;
    for sample in samples {
        peak = sample?.unsigned_abs().max(peak);
    }
    Ok(peak)
}

/// The first title of a stream and its peak, as text.
fn title_and_peak<C: Container + Drop>(alloc: Global, reader: Reader<C>) -> Result<String, Fail> {
    let title = title_of(alloc, &reader);
    let mut samples = reader.into_samples();
    let peak = peak_of(&mut samples);
    drop(samples);
    let (title, peak) = (title?, peak?);
    Ok(format!(in alloc; "{title}: {peak}")?)
}

/// The same of a stream in either container.
fn described(alloc: Global, stream: &[u8]) -> Result<String, Fail> {
    match open(alloc, Memory::new(stream), Profile::Subset, Keep::Tags)? {
        Opened::Native(reader) => title_and_peak(alloc, reader),
        Opened::Ogg(reader) => title_and_peak(alloc, reader),
    }
}

/// Compares the title and the peak of a stream.
fn describes(rt: &impl Abort, alloc: Global, stream: &str, wanted: &str) -> Result<(), Fail> {
    let stream = hex::decode(alloc, stream)?;
    let found = described(alloc, &stream)?;
    assert!(rt; found.as_str() == wanted);
    Ok(())
}

#[test]
fn title_and_peak_of_a_stream(rt: HostRuntime) -> Result<(), Fail> {
    describes(&rt, rt.alloc(), EXAMPLE_TAGGED, "x: 25588")?;
    describes(&rt, rt.alloc(), PAGES, "none: 25588")
}

/// As many channels, without samples.
fn empty_channels(alloc: Global, count: u8) -> Result<Vec<Vec<i32>>, Fail> {
    let mut channels = Vec::new(alloc);
    for _ in 0..count {
        channels.push(Vec::new(alloc))?;
    }
    Ok(channels)
}

/// Puts the samples of a stream into its channels, one into each in turn.
fn gather<C: Container + Drop>(
    samples: &mut Samples<C>,
    channels: &mut [Vec<i32>],
) -> Result<(), Fail> {
    for _ in 0..u64::MAX {
        for channel in channels.iter_mut() {
            match samples.next() {
                Some(sample) => channel.push(sample?)?,
                None => return Ok(()),
            }
        }
    }
    Ok(())
}

/// All samples of a stream that is read, with its rate and its depth.
fn audio_of<C: Container + Drop>(alloc: Global, samples: &mut Samples<C>) -> Result<Audio, Fail> {
    let info = samples.reader().info();
    let (rate, depth, count) = (info.rate(), u32::from(info.depth()), info.channels());
    let mut channels = empty_channels(alloc, count)?;
    gather(samples, &mut channels)?;
    Ok(Audio::new(rate, depth, channels)?)
}

/// A copy of a stream, through decoder and encoder.
fn copied(alloc: Global, stream: &[u8]) -> Result<Vec<u8>, Fail> {
    let mut samples = opened(alloc, stream, Keep::Tags)?.into_samples();
    let audio = audio_of(alloc, &mut samples);
    drop(samples);
    encoded(alloc, &audio?, 4096, 0)
}

#[test]
fn copy_by_samples(rt: HostRuntime) -> Result<(), Fail> {
    let stream = hex::decode(rt.alloc(), TEN_THOUSAND)?;
    let copy = copied(rt.alloc(), &stream)?;
    assert!(rt; counted(rt.alloc(), &copy) == Ok((10000, None, None)));
    Ok(())
}

/// A reader of bytes in memory.
fn opened<'a>(
    alloc: Global,
    stream: &'a [u8],
    keep: Keep,
) -> Result<Reader<BitReader<Memory<'a>>>, Fault> {
    Ok(open_native(alloc, Memory::new(stream), Profile::Subset, keep)?)
}

/// Takes samples that rise by 1 from a first one on: how many there are, and what comes in place of the next.
fn count_rising<C: Container + Drop>(
    samples: &mut Samples<C>,
    first: i32,
) -> (i32, Option<Result<i32, Fault>>) {
    for i in first..10001 {
        match samples.next() {
            Some(Ok(sample)) if sample == i => {}
            other => return (i.saturating_sub(first), other),
        }
    }
    (10001, None)
}

/// What is counted of a stream: the samples that rise by 1 from 0 on, what comes in place of the next, and what comes
/// then.
type Counts = (i32, Option<Result<i32, Fault>>, Option<Result<i32, Fault>>);

/// Counts the samples of a stream.
fn counted(alloc: Global, stream: &[u8]) -> Result<Counts, Fault> {
    let mut samples = opened(alloc, stream, Keep::Tags)?.into_samples();
    let (count, next) = count_rising(&mut samples, 0);
    let after = samples.next();
    drop(samples);
    Ok((count, next, after))
}

/// What comes of the example: two samples, nothing, and nothing again; and the rate that its reader has then.
fn check_pair<C: Container + Drop>(rt: &impl Abort, samples: &mut Samples<C>) {
    assert!(rt; samples.next() == Some(Ok(25588)));
    assert!(rt; samples.next() == Some(Ok(10416)));
    assert!(rt; samples.next().is_none());
    assert!(rt; samples.next().is_none());
    assert!(rt; samples.reader().info().rate() == 44100);
}

#[test]
fn samples_one_by_one(rt: HostRuntime) -> Result<(), Fail> {
    let stereo = hex::decode(rt.alloc(), EXAMPLE_TAGGED)?;
    let mut samples = opened(rt.alloc(), &stereo, Keep::Tags)?.into_samples();
    check_pair(&rt, &mut samples);
    drop(samples);
    Ok(())
}

#[test]
fn samples_up_to_a_fault(rt: HostRuntime) -> Result<(), Fail> {
    let mut stream = hex::decode(rt.alloc(), TEN_THOUSAND)?;
    assert!(rt; counted(rt.alloc(), &stream) == Ok((10000, None, None)));
    if let Some(byte) = stream.last_mut() {
        *byte = 0;
    }
    let at = Place::Frame(2);
    let why = Why::FrameCheck;
    assert!(rt; counted(rt.alloc(), &stream) == Ok((8192, Some(Err(Fault { at, why })), None)));
    Ok(())
}

/// What is seen of a frame that is sought: the number of its first sample, the first sample, and the time.
type Sought = Option<(u64, i32, Duration)>;

/// The frame that holds a sample, if there is one.
fn sought(alloc: Global, stream: &[u8], keep: Keep, sample: u64) -> Result<Sought, Fault> {
    let reader = opened(alloc, stream, keep)?;
    let frames = stream.get(100..).unwrap_or(&[]);
    let mut found = reader.seek(alloc, frames, Profile::Subset, sample)?;
    let outcome = first_of(&mut found);
    drop(found);
    outcome
}

/// What is seen of the next frame.
fn first_of<C: Container>(reader: &mut Reader<C>) -> Result<Sought, Fault> {
    let first = match reader.next()? {
        Some(frame) if frame.channels() > 0 && !frame.is_empty() => frame.sample(0, 0),
        _ => return Ok(None),
    };
    Ok(Some((reader.first_sample(), first, reader.time())))
}

/// Seeks in a stream of which all blocks are kept, or not the table.
fn seeks(rt: &impl Abort, alloc: Global, stream: &[u8], keep: Keep) {
    let first = Some((0, 0, Duration::ZERO));
    let second = Some((4096, 4096, Duration::from_nanos(92_879_818)));
    let third = Some((8192, 8192, Duration::from_nanos(185_759_637)));
    assert!(rt; sought(alloc, stream, keep, 0) == Ok(first));
    assert!(rt; sought(alloc, stream, keep, 4095) == Ok(first));
    assert!(rt; sought(alloc, stream, keep, 4096) == Ok(second));
    assert!(rt; sought(alloc, stream, keep, 9999) == Ok(third));
    assert!(rt; sought(alloc, stream, keep, 10000) == Ok(None));
}

#[test]
fn frames_sought(rt: HostRuntime) -> Result<(), Fail> {
    let stream = hex::decode(rt.alloc(), TEN_THOUSAND)?;
    seeks(&rt, rt.alloc(), &stream, Keep::All);
    seeks(&rt, rt.alloc(), &stream, Keep::Tags);
    Ok(())
}

/// The samples from the frame that holds a sample on, and how many come.
fn samples_after_rows(alloc: Global, stream: &[u8]) -> Result<i32, Fault> {
    let reader = opened(alloc, stream, Keep::All)?;
    let frames = stream.get(100..).unwrap_or(&[]);
    let sought = reader.seek(alloc, frames, Profile::Subset, 5000)?;
    let mut samples = sought.into_samples();
    let (count, _) = count_rising(&mut samples, 4096);
    drop(samples);
    Ok(count)
}

#[test]
fn samples_of_frames_sought(rt: HostRuntime) -> Result<(), Fail> {
    let stream = hex::decode(rt.alloc(), TEN_THOUSAND)?;
    assert!(rt; samples_after_rows(rt.alloc(), &stream) == Ok(5904));
    Ok(())
}

/// What is seen of the frame that a reader lends after a sample was taken of its first one.
fn after_a_sample(alloc: Global, stream: &[u8]) -> Result<Sought, Fault> {
    let mut samples = opened(alloc, stream, Keep::Tags)?.into_samples();
    let _first = samples.next();
    let mut reader = samples.into_reader();
    let outcome = first_of(&mut reader);
    drop(reader);
    outcome
}

#[test]
fn reader_of_samples(rt: HostRuntime) -> Result<(), Fail> {
    let stream = hex::decode(rt.alloc(), TEN_THOUSAND)?;
    let second = Some((4096, 4096, Duration::from_nanos(92_879_818)));
    assert!(rt; after_a_sample(rt.alloc(), &stream) == Ok(second));
    Ok(())
}

#[test]
fn duration_of_a_stream(rt: HostRuntime) -> Result<(), Fail> {
    let stream = hex::decode(rt.alloc(), TEN_THOUSAND)?;
    let reader = opened(rt.alloc(), &stream, Keep::Tags)?;
    let duration = reader.duration();
    drop(reader);
    assert!(rt; duration == Some(Duration::from_nanos(226_757_369)));
    Ok(())
}

/// The first pair of the first frame, and whether it is the only one; `None` if the frame has not two channels.
fn first_pair(alloc: Global, stream: &[u8]) -> Result<Option<(i32, i32, bool)>, Fault> {
    let mut reader = opened(alloc, stream, Keep::Tags)?;
    let found = pair_of(&mut reader);
    drop(reader);
    found
}

fn pair_of<C: Container>(reader: &mut Reader<C>) -> Result<Option<(i32, i32, bool)>, Fault> {
    let Some(frame) = reader.next()? else {
        return Ok(None);
    };
    let Some(mut pairs) = stereo_samples(&frame) else {
        return Ok(None);
    };
    match pairs.next() {
        Some((left, right)) => Ok(Some((left, right, pairs.next().is_none()))),
        None => Ok(None),
    }
}

#[test]
fn pairs_of_samples(rt: HostRuntime) -> Result<(), Fail> {
    let stereo = hex::decode(rt.alloc(), EXAMPLE_TAGGED)?;
    assert!(rt; first_pair(rt.alloc(), &stereo) == Ok(Some((25588, 10416, true))));
    let mono = hex::decode(rt.alloc(), TEN_THOUSAND)?;
    assert!(rt; first_pair(rt.alloc(), &mono) == Ok(None));
    Ok(())
}
