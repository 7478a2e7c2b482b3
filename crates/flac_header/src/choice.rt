//! The codes that a header of given values has.

ghost use Rattle.std.specs.Prelude.{◌≡◌, ◌≤◌, ◌<◌, IfSome, nat_eq, false};
ghost use Rattle.flac_header.specs.Header.{IsSize, IsRate, IsHeader};
ghost use Rattle.flac_header.specs.Choice.{size_choice, rate_choice, depth_choice, rate_choice_in, depth_choice_in, stated_rate, chosen_header};
ghost use Rattle.flac_header.specs.declared.subset.Profile.TheVariants.{Subset};

use crate::blocking_strategy::BlockingStrategy;
use crate::frame_header::FrameHeader;
use crate::subset::Profile;

/// The code of a block size (RFC 9639, section 9.1.1): one that names the size, or else 6 up to 256 and 7 up to 65535;
/// `None` if there is none.
#[tactic(auto, unfolding(crate::specs::Choice::size_choice))]
fn size_code(size: u32) -> Option<u8>
    ensures code { result ≡ size_choice size }
    // proof only
    ensures range { IfSome result (λ c. (1 ≤ c) × (c < 16)) }
    // proof only
    ensures fits { IfSome result (λ c. IsSize c size) }
{
    match size {
        192 => Some(1),
        576 => Some(2),
        1152 => Some(3),
        2304 => Some(4),
        4608 => Some(5),
        256 => Some(8),
        512 => Some(9),
        1024 => Some(10),
        2048 => Some(11),
        4096 => Some(12),
        8192 => Some(13),
        16384 => Some(14),
        32768 => Some(15),
        0 => None,
        1..=256 => Some(6),
        257..=65535 => Some(7),
        _ => None,
    }
}

/// The code of a sample rate in Hz (RFC 9639, section 9.1.2): one that names the rate, or else 12 for multiples of 1000
/// up to 255000, 13 up to 65535, and 14 for multiples of 10 up to 655350. `None` if there is none, and for 0 Hz.
#[tactic(auto, unfolding(crate::specs::Choice::rate_choice))]
fn rate_code(rate: u32) -> Option<u8>
    ensures code { result ≡ rate_choice rate }
    // proof only
    ensures range { IfSome result (λ c. c < 15) }
    // proof only
    ensures fits { IfSome result (λ c. IsRate c rate) }
{
    match rate {
        88200 => Some(1),
        176400 => Some(2),
        192000 => Some(3),
        8000 => Some(4),
        16000 => Some(5),
        22050 => Some(6),
        24000 => Some(7),
        32000 => Some(8),
        44100 => Some(9),
        48000 => Some(10),
        96000 => Some(11),
        0 => None,
        _ if rate % 1000 == 0 && rate <= 255000 => Some(12),
        1..=65535 => Some(13),
        _ if rate % 10 == 0 && rate <= 655350 => Some(14),
        _ => None,
    }
}

/// The code of 8, 12, 16, 20, 24 or 32 bits per sample (RFC 9639, section 9.1.4); `None` for others.
#[tactic(auto, unfolding(crate::specs::Choice::depth_choice))]
fn depth_code(depth: u32) -> Option<u8>
    ensures code { result ≡ depth_choice depth }
    // proof only
    ensures range { IfSome result (λ c. (c < 8) × (nat_eq c 3 ≡ false)) }
{
    match depth {
        8 => Some(1),
        12 => Some(2),
        16 => Some(4),
        20 => Some(5),
        24 => Some(6),
        32 => Some(7),
        _ => None,
    }
}

/// The rate that a header states under a code: 0 if the code is 0, which leaves it to STREAMINFO.
fn stated_rate(code: u8, rate: u32) -> u32
    ensures { result ≡ stated_rate code rate }
{
    if code == 0 { 0 } else { rate }
}

/// The code of a sample rate in Hz under a profile: one that names the rate, or else 12 for multiples of 1000 up to
/// 255000, 13 up to 65535, and 14 for multiples of 10 up to 655350; in [`Profile::Lax`] else 0, which leaves a rate of
/// 1 to 1048575 Hz to STREAMINFO (RFC 9639, sections 8.2 and 9.1.2). `None` if there is none, and for 0 Hz.
#[tactic(auto, unfolding(crate::specs::Choice::rate_choice_in))]
pub fn rate_code_in(profile: Profile, rate: u32) -> Option<u8>
    ensures code { result ≡ rate_choice_in profile rate }
    ensures range { IfSome result (λ c. c < 15) }
    ensures fits { IfSome result (λ c. IsRate c (stated_rate c rate)) }
{
    if profile == Profile::Subset {
        return rate_code(rate);
    }
    if rate == 0 || rate > 1048575 {
        return None;
    }
    match rate_code(rate) {
        Some(code) => Some(code),
        None => Some(0),
    }
}

/// The code of a number of bits per sample under a profile: that of 8, 12, 16, 20, 24 or 32, and in [`Profile::Lax`]
/// else 0, which leaves a depth of 4 to 32 bits to STREAMINFO (RFC 9639, sections 8.2 and 9.1.4). `None` if there is
/// none.
#[tactic(auto, unfolding(crate::specs::Choice::depth_choice_in))]
pub fn depth_code_in(profile: Profile, depth: u32) -> Option<u8>
    ensures code { result ≡ depth_choice_in profile depth }
    ensures range { IfSome result (λ c. (c < 8) × (nat_eq c 3 ≡ false)) }
{
    if profile == Profile::Subset {
        return depth_code(depth);
    }
    if depth < 4 || depth > 32 {
        return None;
    }
    match depth_code(depth) {
        Some(code) => Some(code),
        None => Some(0),
    }
}

impl FrameHeader {
    /// Makes the header of a frame with a frame number: block size in samples, rate in Hz, channel code 0 to 10
    /// ([`FrameHeader::channel_code`]), bits per sample, and number below 2^31. A code that names a value is preferred
    /// to one that asks for a field, see [`rate_code_in`]. `None` if a value has no code or is out of its range.
    ///
    /// ```
    /// // 4096 samples of two independent channels, 16 bits at 44100 Hz, in frame 0
    /// let header = FrameHeader::chosen(4096, 44100, 1, 16, 0);
    /// ```
    pub fn chosen(
        size: u32,
        rate: u32,
        channel_code: u8,
        depth: u32,
        number: u64,
    ) -> Option<FrameHeader>
        ensures chosen { result ≡ chosen_header Subset size rate channel_code depth number }
        ensures valid { IfSome result (λ h. IsHeader h) }
    {
        FrameHeader::chosen_in(Profile::Subset, size, rate, channel_code, depth, number)
    }

    /// Makes the header of a frame under a profile, as [`FrameHeader::chosen`] does for the streamable subset. In
    /// [`Profile::Lax`] a rate or a depth that has no code of its own is left to STREAMINFO ([`rate_code_in`],
    /// [`depth_code_in`]). [`FrameHeader::rate`] is 0 then.
    ///
    /// ```
    /// // 16 samples of one channel, 5 bits at 65537 Hz, in frame 0
    /// let header = FrameHeader::chosen_in(Profile::Lax, 16, 65537, 0, 5, 0);
    /// ```
    #[tactic(auto, unfolding(crate::specs::Choice::chosen_header))]
    pub fn chosen_in(
        profile: Profile,
        size: u32,
        rate: u32,
        channel_code: u8,
        depth: u32,
        number: u64,
    ) -> Option<FrameHeader>
        ensures chosen { result ≡ chosen_header profile size rate channel_code depth number }
        ensures valid { IfSome result (λ h. IsHeader h) }
    {
        if channel_code > 10 || number >= 1 << 31 {
            return None;
        }
        let size_code = size_code(size)?;
        let rate_code = rate_code_in(profile, rate)?;
        let depth_code = depth_code_in(profile, depth)?;
        Some(FrameHeader {
            strategy: BlockingStrategy::Fixed,
            size_code,
            size,
            rate_code,
            rate: stated_rate(rate_code, rate),
            channel_code,
            depth_code,
            number,
        })
    }
}
