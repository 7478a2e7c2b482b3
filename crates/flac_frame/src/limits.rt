//! What a profile allows in a frame: the rules of the streamable subset, and the limits outside it (RFC 9639, section 7).

ghost use Rattle.std.specs.Prelude.{◌≡◌, ◌≤◌};
ghost use Rattle.flac_header.specs.Header.{allowed};
ghost use Rattle.flac_frame.specs.Frame.{limits_at};

use flac_header::{FrameHeader, Profile, subset_allows};
use flac_subframe::Limits;

/// Whether the profile allows the header.
#[tactic(auto, unfolding(flac_header::specs::Header::allowed))]
pub(crate) fn allows(profile: Profile, header: &FrameHeader) -> bool
    ensures { result ≡ allowed profile header.now }
{
    match profile {
        Profile::Subset => subset_allows(header),
        Profile::Lax => true,
    }
}

/// What a profile allows in a subframe of samples of a rate in Hz (RFC 9639, section 7).
pub(crate) fn limits_at(profile: Profile, rate: u32) -> Limits
    ensures limits { result ≡ limits_at profile rate }
    // proof only
    ensures small { (result.partition ≤ 15) × (result.linear ≤ 32) }
{
    match profile {
        Profile::Subset => Limits {
            partition: 8,
            linear: if rate <= 48000 { 12 } else { 32 },
        },
        Profile::Lax => Limits {
            partition: 15,
            linear: 32,
        },
    }
}

/// The greatest order of a linear predictor that a profile allows at a sample rate in Hz: in [`Profile::Subset`] 12 up
/// to 48000 Hz and 32 above, in [`Profile::Lax`] 32 (RFC 9639, sections 7 and 9.2.6).
pub fn greatest_order(profile: Profile, rate: u32) -> u32
    ensures { result ≡ (limits_at profile rate).linear }
{
    limits_at(profile, rate).linear
}
