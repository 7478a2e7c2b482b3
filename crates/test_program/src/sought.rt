//! Parts of a stream that is long enough for a search among its frames.

use flac_bits::{Collected, Memory};
use flac_cli::{ContainerKind, Job, RawFormat, SearchEffort, Task, run, seek_excerpt};
use flac_jobs::{Excerpt, Moment};
use std::alloc::Global;
use std::io;
use std::io::{Read, Seek, SeekFrom};
use std::process::Abort;
use std::test::Fail;

/// How many samples the stream has, of one channel and 16 bits.
const COUNT: usize = 300_000;

/// A device in memory that can be moved, and copied.
#[derive(Clone, Copy)]
struct Held<'a> {
    bytes: &'a [u8],
    at: usize,
}

impl Read for Held<'_> {
    fn read(&mut self, places: &mut [u8]) -> io::Result<usize> {
        let rest = self.bytes.get(self.at..).unwrap_or(&[]);
        let count = rest.len().min(places.len());
        places[..count].copy_from_slice(&rest[..count]);
        self.at = self.at.saturating_add(count);
        Ok(count)
    }
}

impl Seek for Held<'_> {
    fn seek(&mut self, to: SeekFrom) -> io::Result<u64> {
        self.at = match to {
            SeekFrom::Start(at) => at as usize,
            SeekFrom::End(_) => self.bytes.len(),
            SeekFrom::Current(_) => self.at,
        };
        Ok(self.at as u64)
    }
}

/// Bytes without any order, which no predictor makes shorter.
fn noise(alloc: Global) -> Result<Vec<u8>, Fail> {
    let mut bytes = Vec::new(alloc);
    let mut state = 1u32;
    for _ in 0..2 * COUNT {
        state = state.wrapping_mul(1_664_525).wrapping_add(1_013_904_223);
        bytes.push((state >> 24) as u8)?;
    }
    Ok(bytes)
}

/// What a job writes that reads these bytes.
fn written(alloc: Global, job: &Job<'_>, bytes: &[u8]) -> Vec<u8> {
    let task = Task { job, list: &[] };
    let mut source = Memory::new(bytes);
    let mut file = Collected::new(alloc);
    let mut out = Collected::new(alloc);
    let mut err = Collected::new(alloc);
    run(alloc, &task, &mut source, &mut file, &mut out, &mut err);
    file.into_bytes()
}

/// The stream of these samples.
fn stream_of(alloc: Global, samples: &[u8]) -> Vec<u8> {
    let job = Job::Encode {
        input: "a.raw",
        output: "a.flac",
        format: RawFormat {
            rate: 44100,
            channels: 1,
            bits: 16,
            block: 4096,
            seek_every: 0,
        },
        container: ContainerKind::Native,
        comments: Vec::new(alloc),
        lax: false,
        predictors: None,
        effort: SearchEffort::None,
        raw: true,
    };
    written(alloc, &job, samples)
}

/// The status of a part of a stream, and whether just these bytes were written.
fn part(
    alloc: Global,
    stream: &[u8],
    from: u64,
    to: Option<u64>,
    bytes: &[u8],
) -> (Option<u8>, bool) {
    let excerpt = Excerpt {
        input: "a.flac",
        output: "b.raw",
        from: Moment::Sample(from),
        to: to.map(Moment::Sample),
        wave: false,
        lax: false,
        any: false,
        force: false,
    };
    let device = Held {
        bytes: stream,
        at: 0,
    };
    let mut file = Collected::new(alloc);
    let mut err = Collected::new(alloc);
    let status = seek_excerpt(alloc, &excerpt, device, &mut file, &mut err);
    (status, file.bytes() == bytes)
}

#[test]
fn parts_are_sought(rt: HostRuntime) -> Result<(), Fail> {
    let samples = noise(rt.alloc())?;
    let mut stream = stream_of(rt.alloc(), &samples);
    for from in [290_000usize, 200_001, 299_999] {
        let to = COUNT.min(from + 5000);
        let due = samples.get(2 * from..2 * to).unwrap_or(&[]);
        assert!(rt;
            part(rt.alloc(), &stream, from as u64, Some(to as u64), due) == (Some(0), true)
        );
        let due = samples.get(2 * from..).unwrap_or(&[]);
        assert!(rt; part(rt.alloc(), &stream, from as u64, None, due) == (Some(0), true));
    }
    // Near the beginning; after the end.
    assert!(rt; part(rt.alloc(), &stream, 5, Some(9), &[]) == (None, true));
    assert!(rt; part(rt.alloc(), &stream, 300_000, None, &[]) == (None, true));
    // A part without samples; a frame of it that is damaged, and one before it.
    assert!(rt; part(rt.alloc(), &stream, 290_000, Some(290_000), &[]) == (Some(1), true));
    let middle = stream.len() / 2;
    if let Some(byte) = stream.get_mut(middle) {
        *byte ^= 1;
    }
    let due = samples.get(580_000..).unwrap_or(&[]);
    assert!(rt; part(rt.alloc(), &stream, 290_000, None, due) == (Some(0), true));
    assert!(rt; part(rt.alloc(), &stream, 150_000, None, &[]).0 != Some(0));
    Ok(())
}
