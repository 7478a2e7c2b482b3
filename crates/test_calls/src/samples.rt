//! Samples, and predictors for them.

use flac_frame::Audio;
use flac_native::{LinearPredictor, Profile};
use std::alloc::Global;
use std::test::Fail;
use test_vectors::WAVE_SAMPLES;

/// One sample of two channels.
pub fn sample(alloc: Global) -> Result<Audio, Fail> {
    let channels = vec![in alloc; vec![in alloc; 25588]?, vec![in alloc; 10416]?]?;
    Ok(Audio::new(44100, 16, channels)?)
}

/// A predictor of an order whose first coefficient is -1 and whose others are 0: 1001 and -1001 in turn leave nothing.
fn predictor_of(order: usize) -> Result<LinearPredictor, Fail> {
    let mut coefficients = [0; 32];
    coefficients[0] = -1;
    match LinearPredictor::new(1, 0, coefficients.get(..order).unwrap_or(&[])) {
        Some(predictor) => Ok(predictor),
        None => Err(Fail::new("no predictor")),
    }
}

/// As many predictors of order 1, and after them one of another order, if this is not 0.
pub fn list_of(alloc: Global, count: usize, order: usize) -> Result<Vec<LinearPredictor>, Fail> {
    let mut list = Vec::new(alloc);
    for _ in 0..count {
        list.push(predictor_of(1)?)?;
    }
    if order != 0 {
        list.push(predictor_of(order)?)?;
    }
    Ok(list)
}

/// 1001 and -1001 in turn, in one channel of 16 bits.
pub fn wave(alloc: Global, profile: Profile, rate: u32) -> Result<Audio, Fail> {
    let channels = vec![in alloc; WAVE_SAMPLES.to_vec(alloc)?]?;
    Ok(Audio::new_in(profile, rate, 16, channels)?)
}
