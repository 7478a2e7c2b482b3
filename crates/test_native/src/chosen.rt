//! Frames that are chosen before they are written, and the place that they are written into: the sample of
//! `ONE_SAMPLE`, whose frame begins at byte 42.

ghost use Rattle.std.specs.Prelude.{◌≡◌, true};
ghost use Rattle.flac_native.specs.Given.{fits_plan, room_of};

use flac_bits::{Target, send_all};
use flac_frame::{Audio, EncodeBuffers};
use flac_native::{ChosenFrames, FixedBuffer, Plan, Profile, StreamInfo, Why, info_of};
use std::alloc::Global;
use std::mem::drop;
use std::ops::Range;
use std::test::Fail;
use test_calls::{list_of, sample, wave};
use test_vectors::{ONE_SAMPLE, WAVE, WAVE_PREDICTED};

/// What is known of frames before they are written, and the first of them.
#[derive(Drop)]
struct FirstFrame {
    least: u32,
    greatest: u32,
    info: StreamInfo,
    room: FixedBuffer,
}

/// Chooses the frames of samples, and writes the first one, if there is one.
fn chosen(
    alloc: Global,
    plan: &Plan,
    audio: &Audio,
    buffers: &mut EncodeBuffers,
) -> Result<FirstFrame, Why>
    requires fits { fits_plan plan.now audio.now ≡ true }
    requires room { buffers.old ≡ room_of plan.now }
{
    let _size = plan.block_size();
    let frames = ChosenFrames::new(alloc, plan, audio, buffers)?;
    let mut room = frames.room(alloc)?;
    if !audio.is_empty() {
        room = frames.write(plan, audio, 0, buffers, room);
    }
    Ok(FirstFrame {
        least: frames.least(),
        greatest: frames.greatest(),
        info: frames.info(plan, audio),
        room,
    })
}

/// Whether STREAMINFO is that of frames of n bytes, at 44100 Hz and 16 bits.
fn is_info_of(info: &StreamInfo, len: u32) -> bool {
    (info.least_frame(), info.greatest_frame()) == (len, len)
        && (info.rate(), info.depth()) == (44100, 16)
        && info.least_block() == info.greatest_block()
}

/// Whether samples by a plan, which are one frame, have the digest and the frame of a stream, of `len` bytes.
fn comes_of(alloc: Global, plan: &Plan, audio: &Audio, stream: &str, len: u32) -> Result<bool, Fail>
    requires { fits_plan plan.now audio.now ≡ true }
{
    let stream = hex::decode(alloc, stream)?;
    let size = plan.block_size();
    let mut buffers = EncodeBuffers::new_in(alloc, plan.profile(), size)?;
    let chosen = chosen(alloc, plan, audio, &mut buffers);
    drop(buffers);
    let chosen = chosen?;
    Ok(
        (chosen.least, chosen.greatest) == (len, len)
            && is_info_of(&chosen.info, len)
            && Some(chosen.info.digest().as_slice()) == stream.get(26..42)
            && Some(chosen.room.bytes()) == stream.get(42..),
    )
}

/// The frame of the sample is 15 bytes long, its digest is the MD5 of F4 63 B0 28, and its bytes are those of the
/// stream.
#[test]
fn chosen_frames(rt: HostRuntime) -> Result<(), Fail> {
    let audio = sample(rt.alloc())?;
    let plan = Plan::new_in(audio.profile(), 4096, &audio, 0)?;
    assert!(rt; comes_of(rt.alloc(), &plan, &audio, ONE_SAMPLE, 15)?);
    Ok(())
}

/// The same STREAMINFO, by the size of that frame.
#[test]
fn info_of_a_sample(rt: HostRuntime) -> Result<(), Fail> {
    let audio = sample(rt.alloc())?;
    let plan = Plan::new(4096, &audio, 0)?;
    if !plan.fits(&audio) {
        return Err(Fail::new("the sample is not of the subset"));
    }
    let stream = hex::decode(rt.alloc(), ONE_SAMPLE)?;
    let info = info_of(&plan, &audio, 15, 15);
    assert!(rt; is_info_of(&info, 15) && info.total() == 1);
    assert!(rt; Some(info.digest().as_slice()) == stream.get(26..42));
    Ok(())
}

/// A frame by a linear predictor, of 16 bytes, and of the same samples without it, of 34.
#[test]
fn chosen_by_a_predictor(rt: HostRuntime) -> Result<(), Fail> {
    let audio = wave(rt.alloc(), Profile::Subset, 44100)?;
    let plan = Plan::new_in(audio.profile(), 16, &audio, 0)?;
    assert!(rt; comes_of(rt.alloc(), &plan, &audio, WAVE, 34)?);
    let plan = plan.with_predictors(list_of(rt.alloc(), 1, 0)?)?;
    assert!(rt; comes_of(rt.alloc(), &plan, &audio, WAVE_PREDICTED, 16)?);
    Ok(())
}

/// Where the samples of the first frame are, if there is one.
fn first_range(plan: &Plan, audio: &Audio) -> Range<usize>
    requires { fits_plan plan.now audio.now ≡ true }
{
    let _size = plan.block_size();
    if audio.is_empty() {
        return 0..0;
    }
    plan.range(audio, 0)
}

/// A frame has as many samples as the block size, or those that are left.
#[test]
fn ranges_of_frames(rt: HostRuntime) -> Result<(), Fail> {
    let one = sample(rt.alloc())?;
    let plan = Plan::new_in(one.profile(), 4096, &one, 0)?;
    assert!(rt; first_range(&plan, &one) == (0..1));
    let many = wave(rt.alloc(), Profile::Subset, 44100)?;
    let plan = Plan::new_in(many.profile(), 16, &many, 0)?;
    assert!(rt; first_range(&plan, &many) == (0..16));
    Ok(())
}

/// A place keeps the bytes that it is sent until it is emptied, and is then filled again.
#[test]
fn room(rt: HostRuntime) -> Result<(), Fail> {
    let stream = hex::decode(rt.alloc(), ONE_SAMPLE)?;
    let mut room = FixedBuffer::new(rt.alloc(), 57)?;
    assert!(rt; send_all(&mut room, &stream).is_ok());
    assert!(rt; room.bytes() == stream.as_slice());
    let mut room = room.emptied();
    assert!(rt; room.bytes().is_empty());
    assert!(rt; send_all(&mut room, &stream).is_ok());
    assert!(rt; room.bytes() == stream.as_slice());
    Ok(())
}
