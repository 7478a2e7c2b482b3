//! Lists of linear predictors for the planes of frames: which of them a plan tries where. Around the subframes of a frame
//! are 9 bytes. A wave, 1001 and -1001 in turn, takes 199 bits of a subframe: 8, 15, and 16 numbers of 11 bits; by the
//! predictor with the coefficient -1 it takes 49: 8, a warm-up sample of 16, 10, and 15 for a residual of zeros. A side
//! of zeros takes 23: 8 and 15. So the frame of two equal waves has 18 bytes with the predictor for one that it stores
//! beside the side, and 37 without (RFC 9639, sections 4.2, 9.1.3 and 9.2).

use flac_frame::Audio;
use flac_native::{LinearPredictor, Plan, Profile};
use std::alloc::Global;
use std::test::Fail;
use test_calls::{encoded_by, list_of};

/// Two blocks of 16 samples of two channels that are the same wave.
fn waves(alloc: Global) -> Result<Audio, Fail> {
    let mut channels = Vec::new(alloc);
    for _ in 0..2 {
        let mut samples = Vec::new(alloc);
        for i in 0..32 {
            samples.push(if i % 2 == 0 { 1001 } else { -1001 })?;
        }
        channels.push(samples)?;
    }
    Ok(Audio::new(44100, 16, channels)?)
}

/// Lists by their letters: `p` has the predictor, any other letter has none.
fn lists_of(alloc: Global, letters: &str) -> Result<Vec<Vec<LinearPredictor>>, Fail> {
    let mut lists = Vec::new(alloc);
    for letter in letters.bytes() {
        lists.push(list_of(alloc, usize::from(letter == b'p'), 0)?)?;
    }
    Ok(lists)
}

/// The lists of frames by their letters.
fn found_of(alloc: Global, frames: &[&str]) -> Result<Vec<Vec<Vec<LinearPredictor>>>, Fail> {
    let mut found = Vec::new(alloc);
    for letters in frames {
        found.push(lists_of(alloc, letters)?)?;
    }
    Ok(found)
}

/// The stream of the waves, with these lists of their two frames, and with the predictor, or none, for other planes.
fn stream_of(alloc: Global, frames: &[&str], others: usize) -> Result<Vec<u8>, Fail> {
    let audio = waves(alloc)?;
    let found = found_of(alloc, frames)?;
    let plan = Plan::new(16, &audio, 0)?.with_predictors(list_of(alloc, others, 0)?)?;
    if !plan.takes(&found) {
        return Err(Fail::new("the orders are within the limit"));
    }
    let plan = plan.with_found(found);
    if !plan.fits(&audio) {
        return Err(Fail::new("the plan was made for the waves"));
    }
    encoded_by(alloc, &plan, &audio)
}

/// The channel code and the size of both frames, which begin at byte 42, if the first has this size.
fn shapes(stream: &[u8], first: usize) -> Option<(u8, usize, u8, usize)> {
    let rest = stream.len().checked_sub(first.checked_add(42)?)?;
    let code = *stream.get(45)? >> 4;
    let next = *stream.get(first.checked_add(45)?)? >> 4;
    Some((code, first, next, rest))
}

/// Whether the frames have these channel codes and sizes.
fn are(
    alloc: Global,
    frames: &[&str],
    others: usize,
    due: (u8, usize, u8, usize),
) -> Result<bool, Fail> {
    let stream = stream_of(alloc, frames, others)?;
    Ok(shapes(stream.as_slice(), due.1) == Some(due))
}

/// Left alone in the first frame and right alone in the second; and the other way round.
#[test]
fn each_frame_has_its_lists(rt: HostRuntime) -> Result<(), Fail> {
    assert!(rt; are(rt.alloc(), &["p", "-p"], 0, (8, 18, 9, 18))?);
    assert!(rt; are(rt.alloc(), &["-p", "p"], 0, (9, 18, 8, 18))?);
    assert!(rt; are(rt.alloc(), &["---p", "--p-"], 0, (10, 18, 8, 37))?);
    Ok(())
}

/// A plane without a list, and a frame without lists, have the list for all.
#[test]
fn others_have_the_list_for_all(rt: HostRuntime) -> Result<(), Fail> {
    assert!(rt; are(rt.alloc(), &[], 0, (8, 37, 8, 37))?);
    assert!(rt; are(rt.alloc(), &[], 1, (8, 18, 8, 18))?);
    assert!(rt; are(rt.alloc(), &["-"], 1, (9, 18, 8, 18))?);
    assert!(rt; are(rt.alloc(), &["----"], 1, (8, 37, 8, 18))?);
    Ok(())
}

/// A predictor of order 13 is refused at 44100 Hz in the subset, and taken outside it (RFC 9639, section 7).
#[test]
fn orders_are_tested(rt: HostRuntime) -> Result<(), Fail> {
    let audio = waves(rt.alloc())?;
    let plan = Plan::new(16, &audio, 0)?;
    let mut frame = lists_of(rt.alloc(), "-p")?;
    frame.push(list_of(rt.alloc(), 0, 13)?)?;
    let mut found = found_of(rt.alloc(), &["p", ""])?;
    assert!(rt; plan.takes(&found));
    found.push(frame)?;
    assert!(rt; !plan.takes(&found));
    assert!(rt; Plan::new_in(Profile::Lax, 16, &audio, 0)?.takes(&found));
    Ok(())
}
