//! Samples as bytes: interleaved, signed little-endian (RFC 9639, section 8.2).

ghost use Rattle.std.specs.Prelude.{◌≡◌, ◌≤◌, ◌<◌, ◌+◌, ◌*◌, ◌++◌, length, take, List, [], ℕ, ℤ, slice_index_or, pos, ◌∷◌, map};
ghost use Rattle.flac_native.specs.Message.{sample_bytes, row_bytes, rows_bytes, sample_width};
ghost use Rattle.flac_frame.specs.Viewed.{frame_of};
ghost use Rattle.flac_frame.specs.Audio.{samples_each};

use flac_frame::{Audio, FrameView};
use std::simd::prelude::*;

/// The lanes of four samples that are their lowest three bytes each, and then the others.
const LOWEST: [usize; 16] = [0, 1, 2, 4, 5, 6, 8, 9, 10, 12, 13, 14, 3, 7, 11, 15];

/// The samples of several channels.
pub(crate) trait Channels {
    /// The samples of each channel.
    ghost lists: { Self → List (List ℤ) };

    /// How many samples each channel has at least.
    ghost size: { Self → ℕ };

    /// The sample of a channel at an index.
    fn sample(&self, channel: usize, index: usize) -> i32
        requires channel { channel < length (lists self.now) }
        requires index { index < size self.now }
        ensures { result ≡ slice_index_or (slice_index_or (lists self.now) channel []) index (pos 0) };
}

/// Writes all four bytes of a sample at a place, the lowest first. The caller counts the first `width` of them.
#[inline(always)]
fn put_whole(sample: i32, width: usize, out: &mut [u8], at: usize)
    requires width { width ≤ 4 }
    requires room { at + 4 ≤ length out.old }
    ensures { take (at + width) out.new ≡ take at out.old ++ sample_bytes width sample }
{
    out[at..at + 4].copy_from_slice(&sample.to_le_bytes());
}

/// Writes the lowest `width` bytes of a sample at a place, the lowest first. If these are three, the fourth is written
/// after them, and the next sample overwrites it: one word is stored faster than three bytes.
#[inline(always)]
fn put_sample(sample: i32, width: usize, out: &mut [u8], at: usize)
    requires width { width ≤ 4 }
    requires room { at + 4 ≤ length out.old }
    ensures { take (at + width) out.new ≡ take at out.old ++ sample_bytes width sample }
{
    if width == 3 {
        put_whole(sample, width, out, at);
        return;
    }
    let bytes = sample.to_le_bytes();
    for i in 0..width {
        out[at + i] = bytes[i];
    }
}

/// Writes the samples of all channels at one index after the first `at` bytes, each in `width` bytes, and returns where
/// they end.
#[inline(always)]
#[tactic(auto, unfolding(crate::specs::Message::row_bytes), using(crate::proofs::Messages::row_more))]
fn put_row<C: Channels>(
    samples: &C,
    channels: usize,
    width: usize,
    index: usize,
    out: &mut [u8],
    at: usize,
) -> usize
    requires channels { channels ≡ length (C.lists samples.now) }
    requires few { channels ≤ 8 }
    requires width { width ≤ 4 }
    requires index { index < C.size samples.now }
    requires room { at + 32 ≤ length out.old }
    ensures bytes { take result out.new ≡ take at out.old ++ row_bytes width (C.lists samples.now) index }
    ensures end { result ≤ at + 32 }
{
    let mut place = at;
    for i in 0..channels {
        put_sample(samples.sample(i, index), width, out, place);
        place += width;
    }
    place
}

/// [`put_rows_in`] for a number of channels and a width that its callers fix. It is inlined, so that its loops have
/// fixed lengths.
#[inline(always)]
#[tactic(auto, unfolding(crate::specs::Message::rows_bytes), using(crate::proofs::Messages::rows_more))]
fn put_rows_of<C: Channels>(
    samples: &C,
    channels: usize,
    width: usize,
    start: usize,
    count: usize,
    out: &mut [u8],
) -> usize
    requires channels { channels ≡ length (C.lists samples.now) }
    requires few { channels ≤ 8 }
    requires width { width ≤ 4 }
    requires rows { start + count ≤ C.size samples.now }
    requires end { start + count ≤ usize.MAX }
    requires room { 32 * count ≤ length out.old }
    ensures bytes { take result out.new ≡ rows_bytes width (C.lists samples.now) count start }
    ensures end { result ≤ 32 * count }
{
    let mut at = 0;
    for i in 0..count {
        at = put_row(samples, channels, width, start + i, out, at);
    }
    at
}

/// Writes the first twelve lanes at a place. The four bytes after them may change.
#[inline(always)]
fn put_twelve(lanes: u8x16, out: &mut [u8], at: usize)
    requires { at + 16 ≤ length out.old }
    ensures { take (at + 12) out.new ≡ take at out.old ++ take 12 lanes }
{
    lanes.copy_to_slice(&mut out[at..at + 16]);
}

/// Writes the lowest three bytes of the samples of two channels at four indices from `index` on, after the first `at`
/// bytes. The four bytes after them may change. The samples are lanes of vectors: as words, each is a store of its own.
#[inline(always)]
fn put_four<C: Channels>(samples: &C, index: usize, out: &mut [u8], at: usize)
    requires channels { length (C.lists samples.now) ≡ 2 }
    requires indices { index + 4 ≤ C.size samples.now }
    requires end { index + 4 ≤ usize.MAX }
    requires room { at + 28 ≤ length out.old }
    ensures { take (at + 24) out.new ≡ take at out.old ++ rows_bytes 3 (C.lists samples.now) 4 index }
{
    let left = i32x4::from_array([
        samples.sample(0, index),
        samples.sample(0, index + 1),
        samples.sample(0, index + 2),
        samples.sample(0, index + 3),
    ]);
    let right = i32x4::from_array([
        samples.sample(1, index),
        samples.sample(1, index + 1),
        samples.sample(1, index + 2),
        samples.sample(1, index + 3),
    ]);
    let (first, last) = left.interleave(right);
    put_twelve(first.to_le_bytes().swizzle(LOWEST), out, at);
    put_twelve(last.to_le_bytes().swizzle(LOWEST), out, at + 12);
}

/// [`put_rows_in`] for two channels of three bytes: four indices at a time, then the rest one by one.
#[inline(always)]
#[tactic(auto, unfolding(crate::specs::Message::rows_bytes))]
fn put_pairs<C: Channels>(samples: &C, start: usize, count: usize, out: &mut [u8]) -> usize
    requires channels { length (C.lists samples.now) ≡ 2 }
    requires rows { start + count ≤ C.size samples.now }
    requires end { start + count ≤ usize.MAX }
    requires room { 32 * count ≤ length out.old }
    ensures bytes { take result out.new ≡ rows_bytes 3 (C.lists samples.now) count start }
    ensures end { result ≤ 32 * count }
{
    let fours = count / 4;
    for i in 0..fours {
        put_four(samples, start + 4 * i, out, 24 * i);
    }
    let mut at = 24 * fours;
    for i in 4 * fours..count {
        at = put_row(samples, 2, 3, start + i, out, at);
    }
    at
}

/// [`put_rows_in`] for a number of channels that its callers fix.
#[inline(always)]
fn put_channels<C: Channels>(
    samples: &C,
    channels: usize,
    width: usize,
    start: usize,
    count: usize,
    out: &mut [u8],
) -> usize
    requires channels { channels ≡ length (C.lists samples.now) }
    requires few { channels ≤ 8 }
    requires width { width ≤ 4 }
    requires rows { start + count ≤ C.size samples.now }
    requires end { start + count ≤ usize.MAX }
    requires room { 32 * count ≤ length out.old }
    ensures bytes { take result out.new ≡ rows_bytes width (C.lists samples.now) count start }
    ensures end { result ≤ 32 * count }
{
    match width {
        1 => put_rows_of(samples, channels, 1, start, count, out),
        2 => put_rows_of(samples, channels, 2, start, count, out),
        3 if channels == 2 => put_pairs(samples, start, count, out),
        3 => put_rows_of(samples, channels, 3, start, count, out),
        width => put_rows_of(samples, channels, width, start, count, out),
    }
}

/// Writes the samples of all channels at `count` indices from `start` on, interleaved, each in its lowest `width`
/// bytes, the lowest first, to the front of `out`, and returns how many bytes these are: at most 32 for each index.
/// Bytes of `out` after them may change.
#[inline(always)]
pub(crate) fn put_rows_in<C: Channels>(
    samples: &C,
    channels: usize,
    width: usize,
    start: usize,
    count: usize,
    out: &mut [u8],
) -> usize
    requires channels { channels ≡ length (C.lists samples.now) }
    requires few { channels ≤ 8 }
    requires width { width ≤ 4 }
    requires rows { start + count ≤ C.size samples.now }
    requires end { start + count ≤ usize.MAX }
    requires room { 32 * count ≤ length out.old }
    ensures bytes { take result out.new ≡ rows_bytes width (C.lists samples.now) count start }
    ensures end { result ≤ 32 * count }
{
    match channels {
        1 => put_channels(samples, 1, width, start, count, out),
        2 => put_channels(samples, 2, width, start, count, out),
        8 => put_channels(samples, 8, width, start, count, out),
        channels => put_channels(samples, channels, width, start, count, out),
    }
}

impl<'a> Channels for FrameView<'a> {
    ghost lists = { λ v. (frame_of v).channels };

    ghost size = { λ v. (frame_of v).size };

    #[inline(always)]
    fn sample(&self, channel: usize, index: usize) -> i32 {
        self.channel(channel)[index]
    }
}

/// Writes samples as bytes to the front of `out` and returns how many bytes they are: the samples of all channels at
/// index `start`, then those at the next, for `count` indices (RFC 9639, section 8.2). Each sample is in its lowest
/// `width` bytes, 0 to 4, the lowest first.
///
/// The frame has samples at all these indices, and `out` room for 32 bytes for each index. Bytes of `out` after the
/// samples may change.
///
/// ```
/// let end = put_rows(frame, 2, 0, frame.len(), out); // 16 bits per sample
/// ```
pub fn put_rows(
    view: &FrameView<'_>,
    width: usize,
    start: usize,
    count: usize,
    out: &mut [u8],
) -> usize
    requires width { width ≤ 4 }
    requires rows { start + count ≤ (frame_of view.now).size }
    requires room { 32 * count ≤ length out.old }
    ensures bytes { take result out.new ≡ rows_bytes width (frame_of view.now).channels count start }
    ensures end { result ≤ 32 * count }
{
    let view = *view;
    put_rows_in(&view, view.channels(), width, start, count, out)
}

/// The sample at an index; 0 if there is none.
#[inline(always)]
fn sample_or_zero(samples: &[i32], index: usize) -> i32
    ensures { result ≡ slice_index_or samples.now index (pos 0) }
{
    match samples.get(index) {
        Some(sample) => *sample,
        None => 0,
    }
}

/// The sample of a channel at an index; 0 if there is none.
#[inline(always)]
fn sample_of(channels: &[Vec<i32>], channel: usize, index: usize) -> i32
    requires { channel < length channels.now }
    ensures { result ≡ slice_index_or (slice_index_or (map (λ c. c.items) channels.now) channel []) index (pos 0) }
{
    sample_or_zero(&channels[channel], index)
}

/// The sample of a channel at an index, where each channel is a slice; 0 if there is none.
#[inline(always)]
fn slice_sample(channels: &[&[i32]], channel: usize, index: usize) -> i32
    requires { channel < length channels.now }
    ensures { result ≡ slice_index_or (slice_index_or (map (λ c. c.now) channels.now) channel []) index (pos 0) }
{
    sample_or_zero(channels[channel], index)
}

impl Channels for Audio {
    ghost lists = { λ a. a.channels };

    ghost size = { λ a. samples_each a.channels };

    #[inline(always)]
    fn sample(&self, channel: usize, index: usize) -> i32 {
        sample_of(self.channels(), channel, index)
    }
}

/// The samples of two channels of one length, lent by themselves, so that the loop over them keeps where they are.
#[derive(Drop)]
pub(crate) struct Pair<'a> {
    pub(crate) left: &'a [i32],
    pub(crate) right: &'a [i32],
    ghost long: { length right.now ≡ length left.now },
}

impl<'a> Channels for Pair<'a> {
    ghost lists = { λ p. p.left.now ∷ p.right.now ∷ [] };

    ghost size = { λ p. length p.left.now };

    #[inline(always)]
    fn sample(&self, channel: usize, index: usize) -> i32 {
        if channel == 0 {
            return self.left[index];
        }
        self.right[index]
    }
}

/// The first `len` samples of the channels of a block, each a slice; a sample that is not there is 0.
#[derive(Drop)]
pub(crate) struct Rows<'a> {
    pub(crate) block: &'a [&'a [i32]],
    pub(crate) len: usize,
}

impl<'a> Channels for Rows<'a> {
    ghost lists = { λ r. map (λ c. c.now) r.block.now };

    ghost size = { λ r. r.len };

    #[inline(always)]
    fn sample(&self, channel: usize, index: usize) -> i32 {
        slice_sample(self.block, channel, index)
    }
}

/// How many whole bytes a sample of `bits` bits takes, as raw samples and the MD5 digest have it (RFC 9639, section
/// 8.2).
///
/// ```
/// let width = sample_width(12); // 2
/// ```
pub fn sample_width(bits: u32) -> usize
    ensures { result ≡ sample_width bits }
{
    (bits as usize + 7) / 8
}
