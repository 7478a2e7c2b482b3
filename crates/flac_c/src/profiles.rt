//! The profile of a call.

ghost use Rattle.std.specs.Prelude.{◌≡◌};
ghost use Rattle.flac_c.specs.Profiles.{profile_of};

use flac_native::Profile;

/// The profile of a number: 0 stands for the streamable subset, any other number for all streams (RFC 9639, section 7).
pub(crate) fn profile_of(number: u32) -> Profile
    ensures { result ≡ profile_of number }
{
    if number == 0 {
        return Profile::Subset;
    }
    Profile::Lax
}
