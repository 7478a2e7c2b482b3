//! The time that samples take.

ghost use Rattle.std.specs.Prelude.{◌≡◌};
ghost use Rattle.std.specs.Duration.{as_nanos};
ghost use Rattle.flac_reader.specs.Time.{nanos_of};

use flac_native::StreamInfo;
use std::time::Duration;

/// The time that this many samples of each channel take, rounded down to a nanosecond.
pub(crate) fn time_of(samples: u64, info: &StreamInfo) -> Duration
    ensures { as_nanos result ≡ nanos_of samples info.now.rate }
{
    let nanos = u128::from(samples) * 1_000_000_000 / u128::from(info.rate());
    Duration::from_nanos_u128(nanos)
}
