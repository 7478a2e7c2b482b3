//! Samples of the stream's depth.

ghost use Rattle.std.specs.Prelude.{◌≡◌, ◌≤◌, map, length, true, nat_eq, FitsSigned};
ghost use Rattle.std.specs.Int.{w32};
ghost use Rattle.std.specs.List.{list_all};
ghost use Rattle.flac_subframe.specs.format.Numbers.{fits, all_fit};
ghost use Rattle.flac_frame.specs.Audio.{samples_each, samples_fault};

use crate::setup::SetupFault;
use flac_subframe::offset_binary;

/// The lowest 32 bits of a sample, which are the sample if it fits them.
#[inline(always)]
pub(crate) fn lowest(sample: i64) -> i32
    ensures { FitsSigned w32 sample → result ≡ sample }
{
    ((sample.cast_unsigned() & 0xFFFF_FFFF) as u32).cast_signed()
}

/// Whether each sample fits into `bits` bits, 1 to 32: it is at least -2^(bits - 1), and below 2^(bits - 1).
///
/// ```
/// let fit = samples_fit(&[-32768, 32767], 16); // true
/// ```
pub fn samples_fit(samples: &[i32], bits: u32) -> bool
    requires { (1 ≤ bits) × (bits ≤ 32) }
    ensures { result ≡ list_all (fits bits) samples.now }
{
    // no exit inside, so that the compiler takes several samples at once; a bit from `bits` on is set if one does not fit
    let mut wrong = 0;
    for i in 0..samples.len() {
        wrong |= offset_binary(samples[i] as i64, bits);
    }
    wrong >> bits == 0
}

/// How many samples the first channel has; 0 if there is none.
fn first_len(channels: &[&[i32]]) -> usize
    ensures { result ≡ samples_each (map (λ c. c.now) channels.now) }
{
    if channels.is_empty() {
        return 0;
    }
    channels[0].len()
}

/// Whether each channel has `len` samples.
fn are_long(channels: &[&[i32]], len: usize) -> bool
    ensures { result ≡ list_all (λ c. nat_eq (length c.now) len) channels.now }
{
    channels.iter().all(|c| c.len() == len)
}

/// Whether each sample of each channel fits into `bits` bits.
fn each_small(channels: &[&[i32]], bits: u32) -> bool
    requires { (1 ≤ bits) × (bits ≤ 32) }
    ensures { result ≡ list_all (λ c. list_all (fits bits) c.now) channels.now }
{
    channels.iter().all(|c| samples_fit(c, bits))
}

/// Why the samples of channels cannot be encoded in `bits` bits, 1 to 32: [`SetupFault::LengthsDiffer`] if the channels
/// differ in length, or [`SetupFault::SampleTooLarge`] if a sample does not fit its bits, the first that applies;
/// `None` if they can. How many channels there are, and how many samples these have, is not judged.
///
/// ```
/// let fault = samples_fault(&[left.as_slice(), right.as_slice()], 16);
/// ```
pub fn samples_fault(channels: &[&[i32]], bits: u32) -> Option<SetupFault>
    requires { (1 ≤ bits) × (bits ≤ 32) }
    ensures { result ≡ samples_fault bits (map (λ c. c.now) channels.now) }
{
    if !are_long(channels, first_len(channels)) {
        return Some(SetupFault::LengthsDiffer);
    }
    if !each_small(channels, bits) {
        return Some(SetupFault::SampleTooLarge);
    }
    None
}

/// Writes the samples to places of 32 bits, and returns whether each fits the depth.
pub(crate) fn narrow(samples: &[i64], depth: u32, out: &mut [i32]) -> bool
    requires depth { (1 ≤ depth) × (depth ≤ 32) }
    requires places { length out.old ≡ length samples.now }
    ensures fits { result ≡ all_fit depth samples.now }
    ensures same { result ≡ true → out.new ≡ samples.now }
{
    let mut wrong = 0;
    for i in 0..samples.len() {
        let sample = samples[i];
        wrong |= offset_binary(sample, depth);
        out[i] = lowest(sample);
    }
    wrong >> depth == 0
}
