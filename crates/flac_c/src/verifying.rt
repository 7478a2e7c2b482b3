//! Verifies streams in memory.

ghost use Rattle.std.specs.Prelude.{◌≡◌};
ghost use Rattle.flac_ogg.specs.Verifying.{Verifies};
ghost use Rattle.flac_c.specs.Answers.{IsAnswered};
ghost use Rattle.flac_c.specs.Profiles.{profile_of};

use crate::fault::{FlacProvedFault, in_c};
use crate::profiles::profile_of;
use flac_native::Profile;
use flac_ogg::verify;
use std::alloc::Global;

/// Verifies that bytes are exactly one stream of the streamable subset, native or Ogg (RFC 9639, sections 6, 7 and
/// 10.1): its layout, the checksums
/// of frames and pages, and the number and the MD5 of its samples, if STREAMINFO states them.
///
/// Returns 0 if they are, the number of the reason for which the stream is refused, 1 to 39, or 2 if an allocation
/// fails. `fault` becomes the number and the place.
#[unsafe(no_mangle)]
pub extern "C" fn flac_proved_verify(
    alloc: Global,
    bytes: &[u8],
    fault: &mut FlacProvedFault,
) -> u32
    ensures verified { IsAnswered (Verifies Profile.Subset bytes.now) fault.new }
    ensures number { result ≡ fault.new.number }
{
    *fault = in_c(verify(alloc, bytes, Profile::Subset));
    fault.number
}

/// Verifies that bytes are exactly one stream of a profile, native or Ogg, as [`flac_proved_verify`] does: 0 stands for
/// the streamable subset, any other number for all streams (RFC 9639, section 7).
///
/// Returns 0 if they are, the number of the reason for which the stream is refused, 1 to 39, or 2 if an allocation
/// fails. `fault` becomes the number and the place.
#[unsafe(no_mangle)]
pub extern "C" fn flac_proved_verify_in(
    alloc: Global,
    bytes: &[u8],
    profile: u32,
    fault: &mut FlacProvedFault,
) -> u32
    ensures verified { IsAnswered (Verifies (profile_of profile) bytes.now) fault.new }
    ensures number { result ≡ fault.new.number }
{
    *fault = in_c(verify(alloc, bytes, profile_of(profile)));
    fault.number
}
