//! Samples that look random.

use std::alloc::Global;
use std::test::Fail;

/// The next number of a sequence that looks random.
fn step(state: u64) -> u64 {
    let first = state ^ (state << 13);
    let second = first ^ (first >> 7);
    second ^ (second << 17)
}

/// Noise of 18 bits for a run of samples and of 2 bits for as many, by turns. One of the first samples is odd.
pub fn bursts(alloc: Global, len: usize, run: usize) -> Result<Vec<i64>, Fail> {
    let mut samples = vec![in alloc; 0i64; len]?;
    let mut state = 0x9E37_79B9_7F4A_7C15;
    for i in 0..samples.len() {
        state = step(state);
        let noise = state.cast_signed() >> 46;
        let loud = i / run.max(1) % 2 == 1;
        samples[i] = if loud { noise } else { noise >> 16 };
    }
    Ok(samples)
}
