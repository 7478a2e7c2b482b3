//! The samples of WAV files as numbers.

ghost use Rattle.std.specs.Prelude.{◌≡◌, ◌≢◌, ◌≤◌, ◌++◌, length, true, IfOk, OnOk, None, option_map, cond, nat_eq};
ghost use Rattle.flac_wave.specs.Reasons.{number_of};
ghost use Rattle.flac_c.specs.Answers.{IsCopied};
ghost use Rattle.flac_c.specs.Encoded.{IsMemoryOr};
ghost use Rattle.flac_c.specs.Waves.{is_form, form_fault, samples_fault, whole_number, wave_number, numbers_of, high_number, sample_of, samples_of};

use crate::texts::copy;
use byteorder::{ByteOrder, LittleEndian};
use flac_bits::Why;
use flac_wave::WaveWhy;
use std::alloc::{AllocError, Global};

/// Whether samples have 1 to 4 bytes, and 1 bit at least, but no more than their bytes have.
fn is_form(width: usize, bits: u32) -> bool
    ensures { result ≡ is_form width bits }
{
    width > 0 && width < 5 && bits > 0 && (bits as usize) < 8 * width + 1
}

/// Why numbers cannot be samples of this form, if they cannot.
#[tactic(auto, unfolding(crate::specs::Waves::form_fault))]
fn form_fault(width: usize, bits: u32) -> Option<WaveWhy>
    ensures value { result ≡ form_fault width bits }
    ensures fits { result ≡ None → is_form width bits ≡ true }
{
    if is_form(width, bits) {
        return None;
    }
    Some(WaveWhy::FormatFields)
}

/// Why bytes, `size` of them, are not samples of this form, if they are not.
#[tactic(auto, unfolding(crate::specs::Waves::samples_fault))]
fn samples_fault(width: usize, bits: u32, size: usize) -> Option<WaveWhy>
    ensures value { result ≡ samples_fault width bits size }
    ensures fits { result ≡ None → is_form width bits ≡ true }
{
    if !is_form(width, bits) {
        return Some(WaveWhy::FormatFields);
    }
    if size % width == 0 {
        return None;
    }
    Some(WaveWhy::PartSample)
}

/// The number that all bits of a sample are: a byte alone is unsigned.
fn whole_number(sample: &[u8]) -> i32
    requires { (1 ≤ length sample.now) × (length sample.now ≤ 4) }
    ensures { result ≡ whole_number sample.now }
{
    if sample.len() == 1 {
        return i32::from(sample[0]) - 128;
    }
    LittleEndian::read_int(sample, sample.len()) as i32
}

/// The number of a sample.
fn wave_number(sample: &[u8], bits: u32) -> i32
    requires { is_form (length sample.now) bits ≡ true }
    ensures { result ≡ wave_number bits sample.now }
{
    let low = 8 * sample.len() as u32 - bits;
    whole_number(sample) >> low
}

/// All samples as numbers.
#[tactic(auto, unfolding(crate::specs::Waves::wave_numbers))]
fn numbers_of(alloc: Global, bytes: &[u8], width: usize, bits: u32) -> Result<Vec<i32>, AllocError>
    requires { is_form width bits ≡ true }
    ensures { IfOk result (λ v. v.items ≡ numbers_of width bits bytes.now) }
{
    let count = bytes.len() / width;
    let mut numbers = Vec::with_capacity(alloc, count)?;
    for i in 0..count {
        let at = i * width;
        numbers.push(wave_number(&bytes[at..at + width], bits))?;
    }
    Ok(numbers)
}

/// What is added to a sample of one byte, since it is unsigned.
fn silence(width: usize) -> u64
    ensures value { result ≡ cond (nat_eq width 1) 128 0 }
    ensures small { result ≤ 128 }
{
    if width == 1 {
        return 128;
    }
    0
}

/// A number as a sample of `width` bytes, which are a number again.
fn high_number(number: i32, width: usize, bits: u32) -> u64
    requires { is_form width bits ≡ true }
    ensures { result ≡ high_number width bits number }
{
    let low = 8 * width as u32 - bits;
    ((u64::from(number.cast_unsigned()) << low) + silence(width)) % (1 << (8 * width))
}

/// Adds a number as a sample.
fn push_sample(bytes: &mut Vec<u8>, number: i32, width: usize, bits: u32) -> Result<(), AllocError>
    requires { is_form width bits ≡ true }
    ensures { OnOk result (bytes.new.items ≡ bytes.old.items ++ sample_of width bits number) }
{
    let high = high_number(number, width, bits);
    bytes.extend_from_slice(&high.to_le_bytes()[..width])?;
    Ok(())
}

/// All numbers as samples.
#[tactic(auto, unfolding(crate::specs::Waves::wave_samples))]
fn samples_of(
    alloc: Global,
    numbers: &[i32],
    width: usize,
    bits: u32,
) -> Result<Vec<u8>, AllocError>
    requires { is_form width bits ≡ true }
    ensures { IfOk result (λ v. v.items ≡ samples_of width bits numbers.now) }
{
    let mut bytes = Vec::with_capacity(alloc, numbers.len().saturating_mul(width))?;
    for i in 0..numbers.len() {
        push_sample(&mut bytes, numbers[i], width, bits)?;
    }
    Ok(bytes)
}

/// Copies the samples of a WAV file, or of a part of it, as numbers to the front of `out`, as far as there is room.
/// Each has `width` bytes, 1 to 4, the lowest first, of which the highest `bits` bits count; the bits below them are
/// dropped. They are in two's complement, but those of 1 byte are unsigned, with 128 as silence. `len` becomes the
/// number of all samples. The numbers are in the order of `flac_proved_samples`.
///
/// Returns 0, or 67 if `width` is not 1 to 4 or `bits` is not 1 to `8 * width`, 70 if the last sample is not whole, or
/// 2 if an allocation fails; `out` and `len` are unchanged then.
#[unsafe(no_mangle)]
#[tactic(auto, using(crate::proofs::WaveNumbers::some_why))]
pub extern "C" fn flac_proved_wave_samples(
    alloc: Global,
    bytes: &[u8],
    width: u32,
    bits: u32,
    out: &mut [i32],
    len: &mut usize,
) -> u32
    ensures numbers { result ≡ 0 → IsCopied (numbers_of width bits bytes.now) out.old out.new len.new }
    ensures accepted { result ≡ 0 → samples_fault width bits (length bytes.now) ≡ None }
    ensures refused { result ≢ 0 →
        IsMemoryOr (option_map number_of (samples_fault width bits (length bytes.now))) result }
    ensures kept { result ≢ 0 → (out.new ≡ out.old) × (len.new ≡ len.old) }
{
    let width = width as usize;
    if let Some(why) = samples_fault(width, bits, bytes.len()) {
        return why.number();
    }
    match numbers_of(alloc, bytes, width, bits) {
        Ok(numbers) => {
            *len = copy(numbers.as_slice(), out);
            0
        }
        Err(_) => u32::from(Why::Memory.number()),
    }
}

/// Copies numbers as samples of a WAV file to the front of `out`, as far as there is room. Each has `width` bytes, 1 to
/// 4, the lowest first, of which the highest `bits` bits are the lowest `bits` bits of the number, and the bits below
/// them are zeros. They are in two's complement, but those of 1 byte are unsigned, with 128 as silence. `len` becomes
/// the number of all bytes.
///
/// Returns 0, or 67 if `width` is not 1 to 4 or `bits` is not 1 to `8 * width`, or 2 if an allocation fails; `out` and
/// `len` are unchanged then.
#[unsafe(no_mangle)]
#[tactic(auto, using(crate::proofs::WaveNumbers::some_why))]
pub extern "C" fn flac_proved_wave_bytes(
    alloc: Global,
    samples: &[i32],
    width: u32,
    bits: u32,
    out: &mut [u8],
    len: &mut usize,
) -> u32
    ensures bytes { result ≡ 0 → IsCopied (samples_of width bits samples.now) out.old out.new len.new }
    ensures accepted { result ≡ 0 → form_fault width bits ≡ None }
    ensures refused { result ≢ 0 → IsMemoryOr (option_map number_of (form_fault width bits)) result }
    ensures kept { result ≢ 0 → (out.new ≡ out.old) × (len.new ≡ len.old) }
{
    let width = width as usize;
    if let Some(why) = form_fault(width, bits) {
        return why.number();
    }
    match samples_of(alloc, samples, width, bits) {
        Ok(bytes) => {
            *len = copy(bytes.as_slice(), out);
            0
        }
        Err(_) => u32::from(Why::Memory.number()),
    }
}
