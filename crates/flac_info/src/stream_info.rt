//! STREAMINFO (RFC 9639, section 8.2).

ghost use Rattle.std.specs.Prelude.{◌≡◌, IfOk, IfErr, ◌<◌, ◌≤◌, ◌^◌, ◌||◌, nat_eq, nat_lt};
ghost use Rattle.flac_info.specs.Info.{Info, KeepsRules, info_of_format, without_totals};

use flac_bits::Why;
use std::marker::Model;

/// STREAMINFO: properties of the whole stream (RFC 9639, section 8.2). Its fields are always in their ranges.
#[derive(Clone, Copy, Debug, PartialEq, Eq)]
pub struct StreamInfo {
    least_block: u16,
    greatest_block: u16,
    least_frame: u32,
    greatest_frame: u32,
    rate: u32,
    channels: u8,
    depth: u8,
    total: u64,
    digest: [u8; 16],
}

impl Model for StreamInfo {
    ghost use Rattle.flac_info.specs.Info.{Info, KeepsRules};

    ghost Value = { Info };

    ghost view = { λ s. record {
      least_block = s.least_block;
      greatest_block = s.greatest_block;
      least_frame = s.least_frame;
      greatest_frame = s.greatest_frame;
      rate = s.rate;
      channels = s.channels;
      depth = s.depth;
      total = s.total;
      digest = s.digest;
    } };

    ghost invariant = { λ s. KeepsRules (record {
      least_block = s.least_block;
      greatest_block = s.greatest_block;
      least_frame = s.least_frame;
      greatest_frame = s.greatest_frame;
      rate = s.rate;
      channels = s.channels;
      depth = s.depth;
      total = s.total;
      digest = s.digest;
    }) };

    ghost inverse = { λ i. record {
      least_block = i.least_block;
      greatest_block = i.greatest_block;
      least_frame = i.least_frame;
      greatest_frame = i.greatest_frame;
      rate = i.rate;
      channels = i.channels;
      depth = i.depth;
      total = i.total;
      digest = i.digest;
    } };
}

impl StreamInfo {
    /// Makes a STREAMINFO of these fields, in the order of section 8.2:
    ///
    /// - block sizes in samples, 16 to 65535, the smallest not above the largest;
    /// - frame sizes in bytes, below 2^24, 0 if unknown;
    /// - sample rate in Hz, 1 to 1048575;
    /// - 1 to 8 channels;
    /// - 4 to 32 bits per sample;
    /// - samples of each channel, below 2^36, 0 if unknown;
    /// - MD5 of the samples, zeros if unknown.
    ///
    /// # Errors
    /// [`Why::BadStreamInfo`] if a field is out of its range.
    pub fn new(
        least_block: u16,
        greatest_block: u16,
        least_frame: u32,
        greatest_frame: u32,
        rate: u32,
        channels: u8,
        depth: u8,
        total: u64,
        digest: [u8; 16],
    ) -> Result<StreamInfo, Why>
        ensures value { IfOk result (λ i. i ≡ record {
          least_block = least_block;
          greatest_block = greatest_block;
          least_frame = least_frame;
          greatest_frame = greatest_frame;
          rate = rate;
          channels = channels;
          depth = depth;
          total = total;
          digest = digest;
        }) }
        ensures rules { IfOk result (λ i. KeepsRules i) }
        ensures refused { IfErr result (λ e. (e ≡ Why.BadStreamInfo) × (KeepsRules (record {
          least_block = least_block;
          greatest_block = greatest_block;
          least_frame = least_frame;
          greatest_frame = greatest_frame;
          rate = rate;
          channels = channels;
          depth = depth;
          total = total;
          digest = digest;
        }) → ⊥)) }
    {
        let each_fits = least_frame < 1 << 24
            && greatest_frame < 1 << 24
            && rate < 1 << 20
            && channels >= 1
            && channels <= 8
            && depth <= 32
            && total < 1 << 36;
        if !each_fits || is_out_of_range(least_block, greatest_block, rate, depth) {
            return Err(Why::BadStreamInfo);
        }
        Ok(StreamInfo {
            least_block,
            greatest_block,
            least_frame,
            greatest_frame,
            rate,
            channels,
            depth,
            total,
            digest,
        })
    }

    /// The STREAMINFO of a format before the samples are known: all blocks have one size, and the sizes of the frames,
    /// the number of samples and their MD5 are unknown. The ranges are those of [`StreamInfo::new`].
    ///
    /// ```
    /// // blocks of 4096 samples, 44100 Hz, 2 channels, 16 bits
    /// let info = StreamInfo::of_format(4096, 44100, 2, 16);
    /// ```
    pub fn of_format(block_size: u16, rate: u32, channels: u8, depth: u8) -> StreamInfo
        requires block_size { 16 ≤ block_size }
        requires rate { (1 ≤ rate) × (rate < 2 ^ 20) }
        requires channels { (1 ≤ channels) × (channels ≤ 8) }
        requires depth { (4 ≤ depth) × (depth ≤ 32) }
        ensures { result ≡ info_of_format block_size rate channels depth }
    {
        StreamInfo {
            least_block: block_size,
            greatest_block: block_size,
            least_frame: 0,
            greatest_frame: 0,
            rate,
            channels,
            depth,
            total: 0,
            digest: [0; 16],
        }
    }

    /// The same STREAMINFO, but the number of samples and their MD5 are unknown, as for a part of the stream.
    pub fn without_totals(&self) -> StreamInfo
        ensures { result ≡ without_totals self.now }
    {
        StreamInfo {
            total: 0,
            digest: [0; 16],
            ..*self
        }
    }

    /// The smallest block size in samples, 16 to 65535. The last block may be smaller.
    pub fn least_block(&self) -> u16
        ensures value { result ≡ self.now.least_block }
        ensures rules { KeepsRules self.now }
    {
        self.least_block
    }

    /// The largest block size in samples, 16 to 65535.
    pub fn greatest_block(&self) -> u16
        ensures value { result ≡ self.now.greatest_block }
        ensures rules { KeepsRules self.now }
    {
        self.greatest_block
    }

    /// The smallest frame size in bytes, below 2^24; 0 if it is unknown.
    pub fn least_frame(&self) -> u32
        ensures value { result ≡ self.now.least_frame }
        ensures rules { KeepsRules self.now }
    {
        self.least_frame
    }

    /// The largest frame size in bytes, below 2^24; 0 if it is unknown.
    pub fn greatest_frame(&self) -> u32
        ensures value { result ≡ self.now.greatest_frame }
        ensures rules { KeepsRules self.now }
    {
        self.greatest_frame
    }

    /// The sample rate in Hz, 1 to 1048575.
    pub fn rate(&self) -> u32
        ensures value { result ≡ self.now.rate }
        ensures rules { KeepsRules self.now }
    {
        self.rate
    }

    /// How many channels there are, 1 to 8.
    pub fn channels(&self) -> u8
        ensures value { result ≡ self.now.channels }
        ensures rules { KeepsRules self.now }
    {
        self.channels
    }

    /// Bits per sample, 4 to 32.
    pub fn depth(&self) -> u8
        ensures value { result ≡ self.now.depth }
        ensures rules { KeepsRules self.now }
    {
        self.depth
    }

    /// How many samples each channel has, below 2^36; 0 if it is unknown.
    pub fn total(&self) -> u64
        ensures value { result ≡ self.now.total }
        ensures rules { KeepsRules self.now }
    {
        self.total
    }

    /// The MD5 digest of all samples; zeros if it is unknown.
    pub fn digest(&self) -> [u8; 16]
        ensures value { result ≡ self.now.digest }
        ensures rules { KeepsRules self.now }
    {
        self.digest
    }
}

/// Whether a value is out of its range, though it fits its field: the block sizes, the rate or the bits per sample.
fn is_out_of_range(least_block: u16, greatest_block: u16, rate: u32, depth: u8) -> bool
    ensures { result ≡ (nat_lt least_block 16 || nat_lt greatest_block least_block || nat_eq rate 0 || nat_lt depth 4) }
{
    least_block < 16 || greatest_block < least_block || rate == 0 || depth < 4
}
