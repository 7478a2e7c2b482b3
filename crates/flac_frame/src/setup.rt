//! Why samples cannot be encoded.

ghost use Rattle.std.specs.Prelude.{◌≡◌, ◌≤◌, Some, None};
ghost use Rattle.flac_frame.specs.Setup.{number_of, text_of, format_fault};

use flac_header::{Profile, depth_code_in, rate_code_in};
use std::fmt;
use thiserror::Error;

/// Why samples or a plan cannot be encoded. Each reason has a number, 40 to 47, 51 or 52, see
/// [`SetupFault::number`].
///
/// It prints as its number and its name: `44 SampleTooLarge`. Sections are those of RFC 9639.
#[derive(Clone, Copy, Debug, PartialEq, Eq, Error)]
pub enum SetupFault {
    /// The sample rate is 0, or no frame header of the streamable subset can state it (section 9.1.2). In
    /// `Profile::Lax` it is 0 or above 1048575 (section 8.2).
    BadRate,
    /// The bits per sample are not 8, 12, 16, 20, 24 or 32 (section 9.1.4). In `Profile::Lax` they are not 4 to 32
    /// (section 8.2).
    BadDepth,
    /// There is no channel, or there are more than 8; or a block has not one slice for each channel (section 9.1.3).
    BadChannels,
    /// The channels differ in length.
    LengthsDiffer,
    /// A sample does not fit its bits.
    SampleTooLarge,
    /// There are 2^36 samples of each channel or more (section 8.2), or more than 2^31 frames (section 9.1.5).
    TooLong,
    /// The block size is out of its range: 16 to 4608 at 48000 Hz or less, else 16 to 16384 (sections 7 and 8.2), in
    /// `Profile::Lax` 16 to 65535 (section 8.2); or a block has no sample, or more than the block size.
    BadBlockSize,
    /// A seek table would have more than 932067 points, the most that fit into a block (section 8.5).
    TooManyPoints,
    /// A linear predictor has a higher order than the profile allows at the sample rate: 12 at 48000 Hz or less in the
    /// streamable subset, else 32 (section 7).
    PredictorOrder,
    /// There are more than 64 linear predictors.
    TooManyPredictors,
}

impl SetupFault {
    /// The number of the reason: 40 to 47, 51 or 52.
    pub fn number(self) -> u8
        ensures { result ≡ number_of self }
    {
        match self {
            SetupFault::BadRate => 40,
            SetupFault::BadDepth => 41,
            SetupFault::BadChannels => 42,
            SetupFault::LengthsDiffer => 43,
            SetupFault::SampleTooLarge => 44,
            SetupFault::TooLong => 45,
            SetupFault::BadBlockSize => 46,
            SetupFault::TooManyPoints => 47,
            SetupFault::PredictorOrder => 51,
            SetupFault::TooManyPredictors => 52,
        }
    }

    /// The number and the name of the reason: `44 SampleTooLarge`.
    pub fn as_str(self) -> &'static str
        ensures { result.now ≡ text_of self }
    {
        match self {
            SetupFault::BadRate => "40 BadRate",
            SetupFault::BadDepth => "41 BadDepth",
            SetupFault::BadChannels => "42 BadChannels",
            SetupFault::LengthsDiffer => "43 LengthsDiffer",
            SetupFault::SampleTooLarge => "44 SampleTooLarge",
            SetupFault::TooLong => "45 TooLong",
            SetupFault::BadBlockSize => "46 BadBlockSize",
            SetupFault::TooManyPoints => "47 TooManyPoints",
            SetupFault::PredictorOrder => "51 PredictorOrder",
            SetupFault::TooManyPredictors => "52 TooManyPredictors",
        }
    }
}

impl fmt::Display for SetupFault {
    ghost output = { λ fault. Some (text_of fault) };

    fn fmt<W: fmt::Write>(&self, f: &mut fmt::Formatter<W>) -> fmt::Result {
        f.write_str(self.as_str())
    }
}

/// Why no samples can be encoded that have this rate in Hz, bits per sample and number of channels, or `None` if some
/// can: `BadRate`, `BadDepth` or `BadChannels`, the first that applies (RFC 9639, sections 7 and 9.1.2 to 9.1.4).
///
/// ```
/// let fault = format_fault(Profile::Subset, 44100, 16, 2); // None
/// ```
#[tactic(auto, unfolding(crate::specs::Setup::format_fault))]
pub fn format_fault(profile: Profile, rate: u32, bits: u32, channels: usize) -> Option<SetupFault>
    ensures fault { result ≡ format_fault profile rate bits channels }
    ensures bits { result ≡ None → (1 ≤ bits) × (bits ≤ 32) }
    ensures channels { result ≡ None → (1 ≤ channels) × (channels ≤ 8) }
{
    if rate_code_in(profile, rate).is_none() {
        return Some(SetupFault::BadRate);
    }
    if depth_code_in(profile, bits).is_none() {
        return Some(SetupFault::BadDepth);
    }
    if channels < 1 || channels > 8 {
        return Some(SetupFault::BadChannels);
    }
    None
}
