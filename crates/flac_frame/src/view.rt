//! A frame that its buffers lend.

ghost use Rattle.std.specs.Prelude.{◌≡◌, ◌<◌, ◌≤◌, ◌+◌, ◌*◌, ◌/◌, ◌^◌, min, length, take, drop, slice_index_or, [], nat_eq, pos};

use flac_header::BlockingStrategy;

/// A frame, lent by the buffers that it was read into (RFC 9639, section 9).
///
/// ```
/// for i in 0..8 {
///     if i < frame.channels() {
///         peaks[i] = peak(frame.channel(i)).max(peaks[i]);
///     }
/// }
/// ```
#[derive(Clone, Copy, Debug, PartialEq, Eq)]
pub struct FrameView<'a> {
    pub(crate) samples: &'a [i32],
    pub(crate) channels: usize,
    pub(crate) block: usize,
    pub(crate) strategy: BlockingStrategy,
    pub(crate) number: u64,
    ghost whole: { length samples.now ≡ channels * block },
    ghost few: { channels ≤ 8 },
    ghost short: { block ≤ 65535 },
    ghost numbered: { number < 2 ^ 36 },
}

impl<'a> FrameView<'a> {
    ghost use Rattle.flac_header.specs.Strategy.{is_variable, strategy_of};
    ghost use Rattle.flac_frame.specs.Frame.{first_sample};
    ghost use Rattle.flac_frame.specs.Viewed.{frame_of};
    ghost use Rattle.flac_frame.specs.Interleaved.{whole_rows, first_rows, PutsRow, KeepsRest};

    /// How many samples each channel has: the block size, at most 65535.
    pub fn len(&self) -> usize
        ensures { result ≡ (frame_of self.now).size }
    {
        self.block
    }

    /// Whether the frame has no samples, as before a frame was read.
    pub fn is_empty(&self) -> bool
        ensures { result ≡ nat_eq (frame_of self.now).size 0 }
    {
        self.len() == 0
    }

    /// How many channels there are, at most 8.
    pub fn channels(&self) -> usize
        ensures { result ≡ length (frame_of self.now).channels }
    {
        self.channels
    }

    /// The blocking strategy (section 9.1): whether blocks may differ in size, and what [`FrameView::number`] is.
    pub fn blocking_strategy(&self) -> BlockingStrategy
        ensures strategy { result ≡ strategy_of (frame_of self.now).variable }
        ensures variable { is_variable result ≡ (frame_of self.now).variable }
    {
        self.strategy
    }

    /// Whether the blocking strategy is [`BlockingStrategy::Variable`].
    pub fn variable(&self) -> bool
        ensures { result ≡ (frame_of self.now).variable }
    {
        let strategy = self.blocking_strategy();
        strategy.is_variable()
    }

    /// The number of the frame or of its first sample, by [`FrameView::blocking_strategy`], counted from 0. It is below
    /// 2^36 (section 9.1.5).
    pub fn number(&self) -> u64
        ensures { result ≡ (frame_of self.now).number }
    {
        self.number
    }

    /// The number of the frame's first sample, counted from 0 in each channel (section 9.1.5). If the blocking strategy
    /// is fixed, that is [`FrameView::number`] times the block size of the stream, the largest one of STREAMINFO.
    pub fn first_sample(&self, block_size: u16) -> u64
        ensures first { result ≡ first_sample block_size (frame_of self.now) }
        ensures small { result < 2 ^ 52 }
    {
        let number = self.number();
        match self.strategy {
            BlockingStrategy::Fixed => number * u64::from(block_size),
            BlockingStrategy::Variable => number,
        }
    }

    /// The samples of channel `i`, counted from 0 and below [`FrameView::channels`]: [`FrameView::len`] of them.
    pub fn channel(&self, i: usize) -> &'a [i32]
        requires { i < length (frame_of self.now).channels }
        ensures value { result.now ≡ slice_index_or (frame_of self.now).channels i [] }
        ensures len { length result.now ≡ (frame_of self.now).size }
    {
        let start = i * self.block;
        &self.samples[start..start + self.block]
    }

    /// Sample `i` of a channel, both counted from 0: the channel is below [`FrameView::channels`], and `i` below
    /// [`FrameView::len`]. It has as many bits as STREAMINFO states, at most 32.
    pub fn sample(&self, channel: usize, i: usize) -> i32
        requires channel { channel < length (frame_of self.now).channels }
        requires index { i < (frame_of self.now).size }
        ensures { result ≡ slice_index_or (slice_index_or (frame_of self.now).channels channel []) i (pos 0) }
    {
        self.channel(channel)[i]
    }

    /// Writes the samples of all channels at index `i` after the first `at` places.
    #[tactic(auto, unfolding(crate::specs::Interleaved::row), using(crate::proofs::Interleaved::row_more))]
    fn put_row(&self, i: usize, out: &mut [i32], at: usize)
        requires index { i < (frame_of self.now).size }
        requires room { at + length (frame_of self.now).channels ≤ length out.old }
        ensures row { PutsRow (frame_of self.now) i at out.old out.new }
        ensures rest { KeepsRest (frame_of self.now) at out.old out.new }
    {
        for c in 0..self.channels() {
            out[at + c] = self.sample(c, i);
        }
    }

    /// Writes samples to the front of `out`, interleaved: those of all channels at the first index, channel by channel,
    /// then those at the next. Returns how many it wrote: all, or as many as fit for whole indices. `out` is unchanged
    /// after them.
    ///
    /// ```
    /// let mut samples = vec![in rt.alloc(); 0; frame.channels() * frame.len()]?;
    /// let written = frame.interleave(&mut samples);
    /// ```
    #[tactic(auto, unfolding(crate::specs::Interleaved::rows), using(crate::proofs::Interleaved::rows_more))]
    pub fn interleave(&self, out: &mut [i32]) -> usize
        ensures count { result ≡ length (frame_of self.now).channels * whole_rows (frame_of self.now) (length out.old) }
        ensures samples { take result out.new ≡ first_rows (frame_of self.now) (length out.old) }
        ensures rest { drop result out.new ≡ drop result out.old }
    {
        let channels = self.channels();
        if channels == 0 {
            return 0;
        }
        let count = self.len().min(out.len() / channels);
        let mut at = 0;
        for i in 0..count {
            self.put_row(i, out, at);
            at += channels;
        }
        at
    }
}
