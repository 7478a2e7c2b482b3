//! Samples whose lowest bits are zeros.

ghost use Rattle.std.specs.Prelude.{◌≡◌, ◌<◌, ◌≤◌, ◌+◌, ◌*◌, ◌/◌, ◌%◌, ◌||◌, length, take, nat_eq, IfOk};
ghost use Rattle.flac_wave.specs.Format.{IsInRange};
ghost use Rattle.flac_wave.specs.Shift.{raised, lowered_all, lowered_number, are_low_zero, is_stated_depth, known_depth, depth_in};

use crate::format::WaveFormat;
use byteorder::{ByteOrder, LittleEndian};
use std::alloc::{AllocError, Global};

/// Writes each sample of a stream (`width` bytes, 1 to 4) as one of a file (`wave_width` bytes, 1 to 4), shifted up by
/// `shift` bits, at most 31: `8 * wave_width - depth` for samples of `depth` bits. `samples` has whole samples, `out`
/// room for all of them. Returns the number of bytes written.
pub fn raise(width: usize, wave_width: usize, shift: u32, samples: &[u8], out: &mut [u8]) -> usize
    requires width { (0 < width) × (width ≤ 4) }
    requires wave_width { (0 < wave_width) × (wave_width ≤ 4) }
    requires shift { shift < 32 }
    requires whole { length samples.now % width ≡ 0 }
    requires room { length samples.now / width * wave_width ≤ length out.old }
    ensures count { result ≡ length samples.now / width * wave_width }
    ensures raised { take result out.new ≡ raised width wave_width shift (length samples.now / width) samples.now }
    ensures length { length out.new ≡ length out.old }
{
    let mut rest = samples;
    let mut done = 0;
    'samples: while !rest.is_empty() {
        let (sample, more) = rest.split_at(width);
        let number = LittleEndian::read_uint(sample, width);
        let high = (number << shift) % (1 << (8 * wave_width));
        LittleEndian::write_uint(&mut out[done..], high, wave_width);
        rest = more;
        done += wave_width;
    }
    done
}

/// A number of `wave_width` bytes, `shift` bits lower, in `width` bytes.
fn lowered_number(wave_width: usize, width: usize, shift: u32, number: u64) -> u64
    requires wave_width { (0 < wave_width) × (wave_width ≤ 4) }
    requires width { (0 < width) × (width ≤ 4) }
    requires shift { (shift < 8 * wave_width) × (8 * wave_width ≤ 8 * width + shift) }
    ensures { result ≡ lowered_number wave_width width shift number }
{
    let limit: u64 = 1 << (8 * width);
    let low = (number >> shift) % limit;
    if number < 1 << (8 * wave_width - 1) {
        return low % limit;
    }
    (low + (limit - (1 << (8 * wave_width - shift as usize)))) % limit
}

/// Makes samples of a stream (`width` bytes each, 1 to 4) of those of a file (`wave_width` bytes each, 1 to 4): each is
/// shifted down by `shift` bits, fewer than `8 * wave_width`, and at least `8 * wave_width - 8 * width`. The lowest
/// `shift` bits are dropped.
///
/// # Errors
/// An allocation fails.
pub fn lower(
    alloc: Global,
    wave_width: usize,
    width: usize,
    shift: u32,
    samples: &[u8],
) -> Result<Vec<u8>, AllocError>
    requires wave_width { (0 < wave_width) × (wave_width ≤ 4) }
    requires width { (0 < width) × (width ≤ 4) }
    requires shift { (shift < 8 * wave_width) × (8 * wave_width ≤ 8 * width + shift) }
    requires whole { length samples.now % wave_width ≡ 0 }
    ensures { IfOk result (λ low. low.items ≡ lowered_all wave_width width shift samples.now) }
{
    let mut low = Vec::with_capacity(alloc, samples.len())?;
    let mut rest = samples;
    'samples: while !rest.is_empty() {
        let (sample, more) = rest.split_at(wave_width);
        let number = lowered_number(
            wave_width,
            width,
            shift,
            LittleEndian::read_uint(sample, wave_width),
        );
        low.extend_from_slice(&number.to_le_bytes()[..width])?;
        rest = more;
    }
    Ok(low)
}

/// Whether the lowest `shift` bits of all samples of `wave_width` bytes are zeros.
fn are_low_zero(wave_width: usize, shift: u32, samples: &[u8]) -> bool
    requires wave_width { (0 < wave_width) × (wave_width ≤ 4) }
    requires shift { shift < 32 }
    ensures { result ≡ are_low_zero wave_width shift (length samples.now / wave_width) samples.now }
{
    let mut rest = samples;
    'samples: while rest.len() >= wave_width {
        let (sample, more) = rest.split_at(wave_width);
        if LittleEndian::read_uint(sample, wave_width) % (1 << shift) != 0 {
            return false;
        }
        rest = more;
    }
    true
}

/// Whether a frame header states this number of bits of a sample.
fn is_stated_depth(bits: u32) -> bool
    ensures { result ≡ is_stated_depth bits }
{
    bits == 8 || bits == 12 || bits == 16 || bits == 20 || bits == 24 || bits == 32
}

impl WaveFormat {
    /// How many bits of a sample a stream of such samples has, whatever they are: all bits of a sample's bytes. `None`
    /// if fewer of them count, and are 8, 12, 16, 20 or 24: then [`depth_of`] says it of the samples.
    ///
    /// [`depth_of`]: WaveFormat::depth_of
    pub fn known_depth(&self) -> Option<u32>
        requires { IsInRange self.now }
        ensures { result ≡ known_depth self.now }
    {
        let all = 8 * ((self.bits + 7) / 8);
        if is_stated_depth(self.valid) && self.valid < all {
            return None;
        }
        Some(all)
    }

    /// How many bits of a sample a stream of these samples has: those that count, if they are 8, 12, 16, 20, 24 or 32
    /// and all bits below them are zeros; else all bits of a sample's bytes.
    pub fn depth_of(&self, samples: &[u8]) -> u32
        requires { IsInRange self.now }
        ensures { result ≡ depth_in self.now samples.now }
    {
        let wave_width = (self.bits + 7) / 8;
        let all = 8 * wave_width;
        if is_stated_depth(self.valid)
            && self.valid < all
            && are_low_zero(wave_width as usize, all - self.valid, samples)
        {
            return self.valid;
        }
        all
    }
}
