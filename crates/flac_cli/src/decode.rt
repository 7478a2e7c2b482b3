//! `flac decode` to raw samples.

ghost use Rattle.std.specs.Prelude.{◌≡◌, ◌≢◌, ◌≤◌, Some, IfErr, OnOk};
ghost use Rattle.flac_cli.specs.Calls.{IfServed};
ghost use Rattle.flac_cli.specs.Streams.{Tells, GivesStream};
ghost use Rattle.flac_cli.specs.Outcomes.{ReportsRead};
ghost use Rattle.flac_cli.specs.Reports.{Serves};
ghost use Rattle.flac_cli.specs.Named.{NamesDecoding};
ghost use Rattle.flac_cli.specs.Samples.{SendsSamples};
ghost use Rattle.flac_cli.specs.inner.Decoded.{HasSentSamples, SinkSends};
ghost use Rattle.flac_cli.specs.inner.Outcomes.{ReturnsStream, ForPaths};

use crate::report::{Paths, is_of_samples, refuse};
use crate::streams::decode_stream;
use flac_bits::{Source, Target, Why};
use flac_native::{Fault, Profile, SampleWriter};
use std::alloc::Global;

/// Decodes a stream into a writer of samples.
fn decode_wave_into<R: Source, W: Target>(
    alloc: Global,
    source: &mut R,
    profile: Profile,
    sink: &mut SampleWriter<W>,
) -> Result<(), Fault>
    requires none { sink.old.failures.count ≡ 0 }
    requires began { sink.old.began.value ≡ sink.old.target }
    ensures stream { Tells R.Source source.old source.new → OnOk result (GivesStream R.Source profile source.old) }
    ensures written { SinkSends R.Source profile source.old source.new sink.old sink.new result }
    ensures outcome { ReturnsStream R.Source W.Target profile
        source.old source.new sink.old.target sink.new.target result }
    ensures served { Serves W.Target sink.old.target sink.new.target → IfErr result (λ f. f.why ≢ Why.Sink) }
    ensures names { W.names sink.new.target ≡ W.names sink.old.target }
{
    let outcome = decode_stream(alloc, source, profile, sink);
    // Asked only for the proof, which then knows that each failure is an error of the target.
    let _failures = sink.failures();
    outcome
}

/// Decodes a stream, and writes its samples.
fn decode_samples<R: Source, W: Target>(
    alloc: Global,
    source: &mut R,
    profile: Profile,
    target: &mut W,
) -> Result<(), Fault>
    ensures stream { Tells R.Source source.old source.new → OnOk result (GivesStream R.Source profile source.old) }
    ensures written { HasSentSamples R.Source W.Target profile source.old source.new target.old target.new result }
    ensures outcome { ReturnsStream R.Source W.Target profile source.old source.new target.old target.new result }
    ensures served { Serves W.Target target.old target.new → IfErr result (λ f. f.why ≢ Why.Sink) }
{
    let mut sink = SampleWriter::new(target, 0);
    let outcome = decode_wave_into(alloc, source, profile, &mut sink);
    // Given back only for the proof: the clauses are about the target.
    let _target = sink.into_target();
    outcome
}

/// Decodes a stream to a file. Returns the status.
pub(crate) fn run_decode<R: Source, W: Target, E: Target>(
    alloc: Global,
    paths: &Paths<'_>,
    source: &mut R,
    profile: Profile,
    target: &mut W,
    err: &mut E,
) -> u8
    ensures status { result ≤ 1 }
    ensures stream { result ≡ 0 → Tells R.Source source.old source.new → GivesStream R.Source profile source.old }
    ensures decoded { result ≡ 0 → SendsSamples R.Source W.Target profile source.old source.new target.old target.new }
    ensures reported { ReportsRead R.Source W.Target E.Target profile paths.now.input.now result source target err }
    ensures named { result ≡ 1 → IfServed E.Target err.old err.new (ForPaths NamesDecoding paths.now) }
{
    match decode_samples(alloc, source, profile, target) {
        Ok(()) => 0,
        Err(fault) => {
            let path = paths.at_fault(is_of_samples(fault.why));
            refuse(err, path, Some(fault.at), fault.why)
        }
    }
}
