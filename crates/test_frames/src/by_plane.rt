//! A list of linear predictors for each plane: which of them a frame may use. The bits of each plane are counted by hand
//! from RFC 9639.

ghost use Rattle.std.specs.Prelude.{◌≡◌};

use flac_bits::{BitWriter, Collected, Target, Why};
use flac_frame::{
    Audio, EncodeBuffers, FrameChoice, PlanePredictors, choose_frame_by_plane,
    encode_frame_by_plane, frame_planes_is_plain, greatest_order, write_frame_by_plane,
};
use flac_header::Profile;
use flac_subframe::LinearPredictor;
use std::alloc::Global;
use std::test::Fail;

/// Writes 1 to 16 samples as frame 0, and returns how many bytes it has.
fn write_at_once<W: Target>(
    alloc: Global,
    audio: &Audio,
    predictors: &PlanePredictors<'_>,
    writer: &mut BitWriter<W>,
) -> Result<u64, Why>
    requires { writer.old.mark.unread ≡ 0 }
{
    let len = audio.len();
    if len == 0 || len > 16 {
        return Err(Why::BlockSize);
    }
    if !predictors.are_within(greatest_order(audio.profile(), audio.rate())) {
        return Err(Why::NotSubset);
    }
    let mut buffers = EncodeBuffers::new_in(alloc, audio.profile(), 16)?;
    let bytes = encode_frame_by_plane(audio, 0..len, 0, predictors, &mut buffers, writer);
    drop(buffers);
    let bytes = bytes?;
    writer.finish()?;
    Ok(bytes)
}

/// The same in two steps, of which the first keeps its choice.
fn write_chosen<W: Target>(
    alloc: Global,
    audio: &Audio,
    predictors: &PlanePredictors<'_>,
    writer: &mut BitWriter<W>,
) -> Result<u64, Why>
    requires { writer.old.mark.unread ≡ 0 }
{
    let len = audio.len();
    if len == 0 || len > 16 {
        return Err(Why::BlockSize);
    }
    if !predictors.are_within(greatest_order(audio.profile(), audio.rate())) {
        return Err(Why::NotSubset);
    }
    let mut buffers = EncodeBuffers::new_in(alloc, Profile::Lax, 16)?;
    let mut choice = FrameChoice::new(alloc, Profile::Lax, audio.channels().len())?;
    choose_frame_by_plane(audio, 0..len, 0, predictors, &mut buffers, &mut choice);
    let kept = choice.kept(alloc)?;
    let bytes = kept.frame_bytes_by_plane(audio, len, 0);
    let outcome = write_frame_by_plane(audio, 0..len, 0, &kept, predictors, &mut buffers, writer);
    drop(buffers);
    drop(choice);
    drop(kept);
    outcome?;
    writer.finish()?;
    Ok(bytes)
}

/// 16 samples in turn, by a letter: `w` 1001 and -1001, `a` 501 and -500, `b` -500 and 501.
fn samples_of(alloc: Global, letter: u8) -> Result<Vec<i32>, Fail> {
    let (even, odd) = match letter {
        b'w' => (1001, -1001),
        b'a' => (501, -500),
        _ => (-500, 501),
    };
    let mut samples = Vec::new(alloc);
    for i in 0..16 {
        samples.push(if i % 2 == 0 { even } else { odd })?;
    }
    Ok(samples)
}

/// The channels of some letters.
fn audio_of(alloc: Global, letters: &str) -> Result<Audio, Fail> {
    let mut channels = Vec::new(alloc);
    for letter in letters.bytes() {
        channels.push(samples_of(alloc, letter)?)?;
    }
    Ok(Audio::new(44100, 16, channels)?)
}

/// A list by its letter: `p` has the predictor with the coefficient -1, any other letter has none.
fn list_of(alloc: Global, letter: u8) -> Result<Vec<LinearPredictor>, Fail> {
    let mut list = Vec::new(alloc);
    if letter == b'p' {
        let Some(predictor) = LinearPredictor::new(1, 0, &[-1]) else {
            return Err(Fail::new("no predictor"));
        };
        list.push(predictor)?;
    }
    Ok(list)
}

/// Lists by their letters.
fn lists_of(alloc: Global, letters: &str) -> Result<Vec<Vec<LinearPredictor>>, Fail> {
    let mut lists = Vec::new(alloc);
    for letter in letters.bytes() {
        lists.push(list_of(alloc, letter)?)?;
    }
    Ok(lists)
}

/// The frame of channels, and how many bytes were counted, at once or in two steps.
fn frame_of(
    alloc: Global,
    audio: &Audio,
    predictors: &PlanePredictors<'_>,
    at_once: bool,
) -> Result<(u64, Vec<u8>), Why> {
    let mut writer = BitWriter::new(Collected::new(alloc));
    let bytes = if at_once {
        write_at_once(alloc, audio, predictors, &mut writer)?
    } else {
        write_chosen(alloc, audio, predictors, &mut writer)?
    };
    Ok((bytes, writer.into_target().into_bytes()))
}

/// Whether a frame has this channel code, and this many bytes, as was counted.
fn is_shaped(found: (u64, Vec<u8>), code: u8, len: u64) -> bool {
    let (count, bytes) = found;
    count == len && bytes.len() as u64 == len && bytes.get(3) == Some(&(code << 4 | 8))
}

/// Whether the frames of channels are so, written at once and in two steps.
fn both_are(
    alloc: Global,
    audio: &Audio,
    predictors: &PlanePredictors<'_>,
    code: u8,
    len: u64,
) -> Result<bool, Why> {
    let first = frame_of(alloc, audio, predictors, true)?;
    let second = frame_of(alloc, audio, predictors, false)?;
    Ok(is_shaped(first, code, len) && is_shaped(second, code, len))
}

/// The same, of the letters of channels, of their lists and of the other list.
fn are(
    alloc: Global,
    letters: &str,
    own: &str,
    other: u8,
    code: u8,
    len: u64,
) -> Result<bool, Fail> {
    let audio = audio_of(alloc, letters)?;
    let lists = lists_of(alloc, own)?;
    let others = list_of(alloc, other)?;
    let predictors = PlanePredictors {
        lists: &lists,
        others: &others,
    };
    Ok(both_are(alloc, &audio, &predictors, code, len)?)
}

// Around the subframes are 9 bytes. A wave `w` takes 199 bits: 8, 15, and 16 numbers of 11 bits. By the predictor it
// takes 49: 8, a warm-up sample of 16, 10, and 15 for a residual of zeros. Zeros take 23: 8 and 15. `a` and `b` take
// 183 each, by numbers of 10 bits, and 79 by the predictor: 8, 16, 10, 15, and 15 numbers of 2 bits. Their side is a
// wave of 17 bits, 50 by the predictor, and their middle zeros.

/// Left alone, right alone, side alone, middle alone.
#[test]
fn takes_the_list_of_its_plane(rt: HostRuntime) -> Result<(), Fail> {
    frame_planes_is_plain();
    assert!(rt; are(rt.alloc(), "ww", "p", b'-', 8, 18)?);
    assert!(rt; are(rt.alloc(), "ww", "-p", b'-', 9, 18)?);
    assert!(rt; are(rt.alloc(), "ww", "--p", b'-', 8, 37)?);
    assert!(rt; are(rt.alloc(), "ww", "---p", b'-', 10, 18)?);
    Ok(())
}

/// One list for all planes, none, one for all but left, and one that no plane has.
#[test]
fn takes_the_other_list(rt: HostRuntime) -> Result<(), Fail> {
    assert!(rt; are(rt.alloc(), "ww", "", b'p', 8, 18)?);
    assert!(rt; are(rt.alloc(), "ww", "", b'-', 8, 37)?);
    assert!(rt; are(rt.alloc(), "ww", "-", b'p', 9, 18)?);
    assert!(rt; are(rt.alloc(), "ww", "----p", b'-', 8, 37)?);
    Ok(())
}

/// A side that the predictor foretells, and two channels of which it foretells less.
#[test]
fn foretells_the_side(rt: HostRuntime) -> Result<(), Fail> {
    assert!(rt; are(rt.alloc(), "ab", "", b'-', 10, 37)?);
    assert!(rt; are(rt.alloc(), "ab", "--p", b'-', 10, 19)?);
    assert!(rt; are(rt.alloc(), "ab", "---p", b'-', 10, 37)?);
    assert!(rt; are(rt.alloc(), "ab", "p", b'-', 10, 37)?);
    assert!(rt; are(rt.alloc(), "ab", "pp", b'-', 1, 29)?);
    Ok(())
}

/// One channel, and three.
#[test]
fn takes_the_list_of_its_channel(rt: HostRuntime) -> Result<(), Fail> {
    assert!(rt; are(rt.alloc(), "w", "p", b'-', 0, 16)?);
    assert!(rt; are(rt.alloc(), "w", "-p", b'-', 0, 34)?);
    assert!(rt; are(rt.alloc(), "www", "-p-", b'-', 2, 65)?);
    assert!(rt; are(rt.alloc(), "www", "-p", b'p', 2, 47)?);
    assert!(rt; are(rt.alloc(), "www", "", b'-', 2, 84)?);
    Ok(())
}

/// The orders of all lists are tested, and those of the others.
#[test]
fn tests_the_orders_of_all_lists(rt: HostRuntime) -> Result<(), Fail> {
    let lists = lists_of(rt.alloc(), "-p")?;
    let one = list_of(rt.alloc(), b'p')?;
    let by_plane = PlanePredictors {
        lists: &lists,
        others: &[],
    };
    assert!(rt; by_plane.are_within(1) && !by_plane.are_within(0));
    let same = PlanePredictors::same(&one);
    assert!(rt; same.are_within(1) && !same.are_within(0));
    assert!(rt; PlanePredictors::same(&[]).are_within(0));
    Ok(())
}
