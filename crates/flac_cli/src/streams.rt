//! Streams, native or Ogg: by which profile they are read, and into what.

ghost use Rattle.std.specs.Prelude.{◌≡◌, ◌<◌, IfErr};
ghost use Rattle.flac_cli.specs.Streams.{profile_of};
ghost use Rattle.flac_bits.specs.State.{Rises};
ghost use Rattle.flac_native.specs.declared.fault.Place.{Place};
ghost use Rattle.flac_cli.specs.inner.Passing.{TakesStream, ReturnsTaken, ReturnsSinkFault};

use flac_bits::{Source, Why};
use flac_native::{Fault, Place, Profile, Sink};
use flac_ogg::decode_any;
use std::alloc::Global;

/// The profile by which a stream is read.
pub(crate) fn profile_of(lax: bool) -> Profile
    ensures { result ≡ profile_of lax }
{
    if lax { Profile::Lax } else { Profile::Subset }
}

/// Decodes a stream, and passes its blocks and frames to the sink.
pub(crate) fn decode_stream<R: Source, S: Sink>(
    alloc: Global,
    source: &mut R,
    profile: Profile,
    sink: &mut S,
) -> Result<(), Fault>
    ensures takes { TakesStream R.Source S.Sink profile source.old source.new sink.old sink.new result }
    // If the sink did not fail, the outcome is what the input is; if it did, it is that.
    ensures outcome { ReturnsTaken R.Source S.Sink profile source.old source.new sink.old sink.new result }
    ensures failed { ReturnsSinkFault R.Source S.Sink source.old source.new sink.old sink.new result }
    ensures sink { IfErr result (λ f. f.why ≡ Why.Sink → Rises (S.errors sink.old) (S.errors sink.new)) }
    ensures names { S.names sink.new ≡ S.names sink.old }
{
    decode_any(alloc, source, profile, sink)
}
