//! The rules of the streamable subset (RFC 9639, section 7).

ghost use Rattle.std.specs.Prelude.{◌≡◌, ◌≤◌, ◌&&◌, nat_le};
ghost use Rattle.flac_header.specs.Header.{allowed, allows_block, greatest_in};

use crate::frame_header::FrameHeader;

/// Which streams a decoder accepts, and an encoder writes.
#[derive(Clone, Copy, Debug, PartialEq, Eq)]
pub enum Profile {
    /// Streams of the streamable subset (RFC 9639, section 7).
    Subset,
    /// All streams: a header may leave the sample rate and the depth to STREAMINFO (sections 9.1.2 and 9.1.4), blocks
    /// have up to 65535 samples (section 9.1.6), the partition order is up to 15 (section 9.2.7) and a linear
    /// predictor's order up to 32 (section 9.2.6), at each rate and depth.
    Lax,
}

impl Profile {
    /// The largest block size in samples that the profile allows at a sample rate in Hz: in [`Profile::Subset`] 4608 up
    /// to 48000 Hz and 16384 above, in [`Profile::Lax`] 65535, the largest that a frame header can state (RFC 9639,
    /// sections 7 and 9.1.6).
    pub fn greatest_block(self, rate: u32) -> u32
        ensures greatest { result ≡ greatest_in self rate }
        ensures small { result ≤ 65535 }
    {
        let subset = if rate <= 48000 { 4608 } else { 16384 };
        match self {
            Profile::Subset => subset,
            Profile::Lax => 65535,
        }
    }

    /// Whether a stream of the profile may have blocks of `size` samples at a sample rate in Hz: 16 or more, and at
    /// most [`Profile::greatest_block`] (RFC 9639, sections 7, 8.2 and 9.1.6). The last block of a stream may be
    /// smaller.
    pub fn allows_block(self, size: u32, rate: u32) -> bool
        ensures { result ≡ allows_block self size rate }
    {
        size >= 16 && size <= self.greatest_block(rate)
    }
}

/// Whether the streamable subset allows the header (RFC 9639, section 7): it states rate and depth itself, and the
/// block has at most 16384 samples, or 4608 if the rate is at most 48000 Hz.
#[tactic(auto, unfolding(crate::specs::Header::allowed))]
pub fn subset_allows(header: &FrameHeader) -> bool
    ensures { result ≡ allowed Profile.Subset header.now }
{
    let longest = Profile::Subset.greatest_block(header.rate);
    header.rate_code != 0 && header.depth_code != 0 && header.size <= longest
}
