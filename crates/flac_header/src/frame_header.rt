//! Frame headers.

ghost use Rattle.std.specs.Prelude.{◌≡◌, ◌≤◌, ◌<◌, ◌^◌, not, nat_eq};
ghost use Rattle.flac_header.specs.Assignment.{assignment_of, code_of, IsAssignment};
ghost use Rattle.flac_header.specs.Header.{channels_of, depth_of};
ghost use Rattle.flac_header.specs.Strategy.{is_variable, strategy_of};

use crate::blocking_strategy::BlockingStrategy;
use crate::channel_assignment::{ChannelAssignment, assignment_of};
use std::marker::Model;

/// The header of a frame, with the codes that state its values (RFC 9639, section 9.1). No code is reserved, and block
/// size, rate and number are always such as their codes can state. Sections are those of RFC 9639.
#[derive(Clone, Copy, Debug, PartialEq, Eq)]
pub struct FrameHeader {
    pub(crate) strategy: BlockingStrategy,
    pub(crate) size_code: u8,
    pub(crate) size: u32,
    pub(crate) rate_code: u8,
    pub(crate) rate: u32,
    pub(crate) channel_code: u8,
    pub(crate) depth_code: u8,
    pub(crate) number: u64,
}

impl Model for FrameHeader {
    ghost use Rattle.std.proofs.Common.{ap};
    ghost use Rattle.flac_header.specs.Header.{Header, IsHeader};
    ghost use Rattle.flac_header.specs.Strategy.{is_variable, strategy_of, same_strategy};

    ghost Value = { Header };

    ghost view = { λ h. record { variable = is_variable h.strategy; size_code = h.size_code; size = h.size; rate_code = h.rate_code; rate = h.rate; channel_code = h.channel_code; depth_code = h.depth_code; number = h.number } };

    ghost invariant = { λ h. IsHeader (record { variable = is_variable h.strategy; size_code = h.size_code; size = h.size; rate_code = h.rate_code; rate = h.rate; channel_code = h.channel_code; depth_code = h.depth_code; number = h.number }) };

    ghost inverse = { λ h. record { strategy = strategy_of h.variable; size_code = h.size_code; size = h.size; rate_code = h.rate_code; rate = h.rate; channel_code = h.channel_code; depth_code = h.depth_code; number = h.number } };

    ghost inverse_ok = { λ h _. ap (λ s. record h { strategy = s }) (same_strategy h.strategy) };
}

impl FrameHeader {
    /// The blocking strategy (section 9.1): whether blocks may differ in size, and what [`FrameHeader::number`] is.
    pub fn blocking_strategy(&self) -> BlockingStrategy
        ensures strategy { result ≡ strategy_of self.now.variable }
        ensures variable { is_variable result ≡ self.now.variable }
    {
        self.strategy
    }

    /// Whether the blocking strategy is [`BlockingStrategy::Variable`].
    pub fn variable(&self) -> bool
        ensures { result ≡ self.now.variable }
    {
        self.blocking_strategy().is_variable()
    }

    /// The block size: how many samples of each channel the frame has, 1 to 65535 (section 9.1.1).
    pub fn size(&self) -> u32
        ensures size { result ≡ self.now.size }
        ensures least { 1 ≤ result }
        ensures greatest { result ≤ 65535 }
    {
        self.size
    }

    /// The sample rate in Hz, as the header states it (section 9.1.2). 0 if the rate is that of STREAMINFO; a rate
    /// field of 0 gives 0 too.
    pub fn rate(&self) -> u32
        ensures { result ≡ self.now.rate }
    {
        self.rate
    }

    /// Whether the header states the sample rate. If not, its rate code is 0, and the rate is that of STREAMINFO
    /// (section 9.1.2).
    pub fn states_rate(&self) -> bool
        ensures { result ≡ not (nat_eq self.now.rate_code 0) }
    {
        let code = self.rate_code;
        code != 0
    }

    /// How many channels there are, 1 to 8 (section 9.1.3).
    pub fn channels(&self) -> u32
        ensures channels { result ≡ channels_of self.now.channel_code }
        ensures least { 1 ≤ result }
        ensures greatest { result ≤ 8 }
    {
        match self.channel_code {
            code @ 0..=7 => code as u32 + 1,
            _ => 2,
        }
    }

    /// How the channels are stored (section 9.1.3).
    pub fn channel_assignment(&self) -> ChannelAssignment
        ensures assignment { result ≡ assignment_of self.now.channel_code }
        ensures code { code_of result ≡ self.now.channel_code }
        ensures valid { IsAssignment result }
    {
        assignment_of(self.channel_code)
    }

    /// The channel code, 0 to 10 (section 9.1.3). 0 to 7 are one to eight independent channels; the others are
    /// decorrelated stereo: 8 is left and side, 9 side and right, 10 mid and side.
    pub fn channel_code(&self) -> u8
        ensures code { result ≡ self.now.channel_code }
        ensures greatest { result ≤ 10 }
    {
        self.channel_code
    }

    /// Bits per sample: 8, 12, 16, 20, 24 or 32; 0 if the depth is that of STREAMINFO (section 9.1.4).
    pub fn depth(&self) -> u32
        ensures depth { result ≡ depth_of self.now.depth_code }
        ensures greatest { result ≤ 32 }
    {
        match self.depth_code {
            1 => 8,
            2 => 12,
            4 => 16,
            5 => 20,
            6 => 24,
            7 => 32,
            _ => 0,
        }
    }

    /// Whether the header states the bits per sample. If not, its depth code is 0, and the depth is that of STREAMINFO
    /// (section 9.1.4).
    pub fn states_depth(&self) -> bool
        ensures { result ≡ not (nat_eq self.now.depth_code 0) }
    {
        let code = self.depth_code;
        code > 0
    }

    /// The number of the frame or of its first sample, by [`FrameHeader::blocking_strategy`]. It is below 2^36 (section
    /// 9.1.5).
    pub fn number(&self) -> u64
        ensures number { result ≡ self.now.number }
        ensures small { result < 2 ^ 36 }
    {
        self.number
    }
}
