//! Two channels that are joined. Each length up to 33 has its own rest after whole lanes. What is written is compared
//! with planes by their plain definitions, and what is read with the channels. A frame has at least one sample; two
//! channels without any are encoded to no frame (`no_samples` of `test_native`).

use crate::enumeration::{Compared, random, seeded, subframe};
use crate::frames::{read_frame, write_all};
use flac_bits::{BitWriter, Collected};
use flac_frame::Audio;
use flac_header::Profile;
use std::alloc::Global;
use std::process::Abort;
use std::test::Fail;

/// The bits of the header of a frame whose number is 0 and whose block size has no code of its own.
const HEADER_BITS: u64 = 56;

/// Two channels made of two numbers for each place: these themselves; the first, and what it is without the second; the
/// sum of both, and the first; or two of which the first number is the middle and the second the difference.
fn sample_pair(kind: u32, first: i32, second: i32) -> (i32, i32) {
    let half = (second.wrapping_add(1)) >> 1;
    match kind {
        0 => (first, second),
        1 => (first, first.wrapping_sub(second)),
        2 => (first.wrapping_add(second), first),
        _ => {
            let left = first.wrapping_add(half);
            (left, left.wrapping_sub(second))
        }
    }
}

/// Channels of such samples.
fn channels(alloc: Global, kind: u32, length: usize) -> Result<(Vec<i32>, Vec<i32>), Fail> {
    let mut source = seeded(u64::from(kind));
    let mut left = Vec::new(alloc);
    let mut right = Vec::new(alloc);
    for _ in 0..length {
        let first = (random(&mut source) >> 20).max(-4096).min(4095) as i32;
        let second = (random(&mut source) >> 20).max(-4096).min(4095) as i32;
        let (one, other) = sample_pair(kind, first, second);
        left.push(one)?;
        right.push(other)?;
    }
    Ok((left, right))
}

/// A plane of two channels of 16 bits: one of them as it is, their difference, or their middle, rounded down (RFC 9639,
/// section 4.2).
#[derive(Clone, Copy)]
enum Plane {
    Left,
    Right,
    Side,
    Middle,
}

impl Plane {
    /// Its sample for a sample of each channel.
    fn sample(self, left: i32, right: i32) -> i64 {
        let (left, right) = (i64::from(left), i64::from(right));
        match self {
            Plane::Left => left,
            Plane::Right => right,
            Plane::Side => left - right,
            Plane::Middle => (left + right) >> 1,
        }
    }

    /// Its samples.
    fn samples(self, alloc: Global, left: &[i32], right: &[i32]) -> Result<Vec<i64>, Fail> {
        let mut samples = Vec::new(alloc);
        for (left, right) in left.iter().zip(right.iter()) {
            samples.push(self.sample(*left, *right))?;
        }
        Ok(samples)
    }

    /// Its bit depth.
    fn depth(self) -> u32 {
        match self {
            Plane::Left | Plane::Right | Plane::Middle => 16,
            Plane::Side => 17,
        }
    }
}

/// The planes of a channel assignment by its code (section 9.1.3).
fn planes(code: u8) -> (Plane, Plane) {
    match code {
        8 => (Plane::Left, Plane::Side),
        9 => (Plane::Side, Plane::Right),
        10 => (Plane::Middle, Plane::Side),
        _ => (Plane::Left, Plane::Right),
    }
}

/// The bytes of a frame of two channels.
fn written(alloc: Global, left: &[i32], right: &[i32]) -> Result<Vec<u8>, Fail> {
    let mut both = Vec::new(alloc);
    both.push(left.to_vec(alloc)?)?;
    both.push(right.to_vec(alloc)?)?;
    let audio = Audio::new_in(Profile::Subset, 44100, 16, both)?;
    let mut writer = BitWriter::new(Collected::new(alloc));
    write_all(alloc, &audio, &mut writer)?;
    Ok(writer.into_target().into_bytes())
}

/// Whether a frame has the shortest subframes of the planes of two channels, and no more after these than zeros up to a
/// whole byte and its check.
fn has_planes(alloc: Global, bytes: &[u8], left: &[i32], right: &[i32]) -> Result<bool, Fail> {
    let code = bytes.get(3).copied().unwrap_or(0) >> 4;
    let (first, second) = planes(code);
    let mut compared = Compared {
        bytes,
        at: HEADER_BITS,
        same: true,
    };
    let samples = first.samples(alloc, left, right)?;
    subframe(alloc, &mut compared, &samples, first.depth())?;
    let samples = second.samples(alloc, left, right)?;
    subframe(alloc, &mut compared, &samples, second.depth())?;
    let end = compared.at.wrapping_add(7) / 8;
    Ok(compared.same && end.wrapping_add(2) == bytes.len() as u64)
}

/// Whether reading a frame gives two channels.
fn gives(alloc: Global, bytes: &[u8], left: &[i32], right: &[i32]) -> Result<bool, Fail> {
    let text = read_frame(alloc, 64, 16, bytes)?;
    let length = left.len();
    let wanted = format!(in alloc; "0 false Fixed 0 {length} {left:?} {right:?}")?;
    Ok(text.as_str() == wanted.as_str())
}

/// The channel assignment of the frame of two channels of a kind, if it has their planes and gives them again, and else
/// 255.
fn assignment(alloc: Global, kind: u32, length: usize) -> Result<u8, Fail> {
    let (left, right) = channels(alloc, kind, length)?;
    let bytes = written(alloc, &left, &right)?;
    let good = has_planes(alloc, &bytes, &left, &right)? && gives(alloc, &bytes, &left, &right)?;
    let code = bytes.get(3).copied().unwrap_or(0) >> 4;
    Ok(if good { code } else { 255 })
}

#[test]
fn channels_of_each_length(rt: HostRuntime) -> Result<(), Fail> {
    for length in 1..34usize {
        for kind in 0..4u32 {
            let code = assignment(rt.alloc(), kind, length)?;
            assert!(rt; code != 255, "{length} {kind}");
        }
    }
    Ok(())
}

/// Of 33 samples the two channels of each kind are written in their own assignment.
#[test]
fn each_assignment(rt: HostRuntime) -> Result<(), Fail> {
    assert!(rt; assignment(rt.alloc(), 0, 33)? == 1);
    assert!(rt; assignment(rt.alloc(), 1, 33)? == 8);
    assert!(rt; assignment(rt.alloc(), 2, 33)? == 9);
    assert!(rt; assignment(rt.alloc(), 3, 33)? == 10);
    Ok(())
}
