//! `flac decode` of Ogg streams one after another.

ghost use Rattle.std.specs.Prelude.{◌≡◌, ◌≤◌, ◌<◌, ◌+◌, ◌∷◌, ◌&&◌, nat_lt, true, None, OnOk, OnErr};
ghost use Rattle.flac_bits.specs.Bits.{bit_value};
ghost use Rattle.flac_cli.specs.inner.ChainSamples.{SendsChain, RefusesSamples};
ghost use Rattle.flac_cli.specs.inner.ChainTaking.{TakesInChain, IsFresh, failures_of};
ghost use Rattle.flac_cli.specs.Calls.{IfServed};
ghost use Rattle.flac_cli.specs.Reports.{AddsLine};
ghost use Rattle.flac_cli.specs.Chains.{stream_path};
ghost use Rattle.flac_cli.specs.ChainDecoded.{outcome_by, IsSamplesAnswer, WritesChainSamples, ReportsChainSamples};
ghost use Rattle.flac_cli.specs.inner.ChainDecoding.{SendsAll, RefusesAll};
ghost use Rattle.flac_cli.specs.Streams.{profile_of};
ghost use Rattle.std.specs.Prelude.{codes};

use crate::chain::{ChainDone, refuse_stream, write_stream_line};
use crate::lines::{At, write_line};
use crate::stream_format::{StreamFormat, format_after};
use crate::streams::profile_of;
use flac_bits::{Source, Target};
use flac_chain::{ChainFault, ChainRead, decode_chain};
use flac_frame::FrameView;
use flac_meta::Block;
use flac_native::{Profile, SampleWriter, Sink, SinkFault};
use std::alloc::Global;

/// Sends the samples of streams one after another, if they have one format. It fails at the STREAMINFO of another one.
#[derive(Drop)]
pub(crate) struct ChainWriter<W: Target> {
    writer: SampleWriter<W>,
    /// The format of the streams so far.
    format: Option<StreamFormat>,
    /// How often a stream had another format; it stops at 2^64 - 1.
    others: u64,
}

/// Which failure a writer of samples had.
#[derive(Clone, Copy)]
pub(crate) enum Failing {
    /// None.
    Nothing,
    /// A stream has another format.
    Format,
    /// The target failed.
    Target,
}

impl<W: Target> ChainWriter<W> {
    /// A writer that has seen no stream.
    fn new(target: W) -> ChainWriter<W>
        ensures target { result.writer.target ≡ target }
        ensures fresh { IsFresh result }
    {
        ChainWriter {
            writer: SampleWriter::new(target, 0),
            format: None,
            others: 0,
        }
    }

    /// Which failure it had.
    fn failing(&self) -> Failing
        ensures { result ≡ Failing.Nothing → failures_of self.now ≡ 0 }
    {
        if self.others > 0 {
            return Failing::Format;
        }
        if self.writer.failures() > 0 {
            return Failing::Target;
        }
        Failing::Nothing
    }

    /// Returns the target.
    fn into_target(self) -> W
        ensures { result ≡ self.writer.target }
    {
        let ChainWriter {
            writer,
            format: _,
            others: _,
        } = self;
        writer.into_target()
    }
}

impl<W: Target> Sink for ChainWriter<W> {
    ghost takes = { λ old item new. TakesInChain W.Target old item new };

    ghost known = { λ s. nat_lt s.others 18446744073709551615 && nat_lt s.writer.failures.count 18446744073709551615 };

    ghost errors = { λ s. failures_of s };

    // The numbers before those of the target are of the target as it was given. They stay, too.
    ghost names = { λ s. bit_value (W.known s.writer.began.value) ∷ W.errors s.writer.began.value ∷ W.names s.writer.target };

    fn block(&mut self, block: &Block) -> Result<(), SinkFault> {
        let Some(format) = format_after(self.format, block) else {
            self.others = self.others.saturating_add(1);
            return Err(SinkFault);
        };
        match self.writer.block(block) {
            Ok(()) => {
                self.format = format;
                Ok(())
            }
            Err(fault) => Err(fault),
        }
    }

    fn frame(&mut self, frame: &FrameView<'_>) -> Result<(), SinkFault> {
        self.writer.frame(frame)
    }
}

/// Decodes streams one after another into a writer of their samples.
fn decode_chain_into<R: Source, W: Target>(
    alloc: Global,
    source: R,
    profile: Profile,
    sink: &mut ChainWriter<W>,
) -> ChainRead<R>
    requires fresh { IsFresh sink.old }
    ensures written { SendsChain R.Source W.Target profile source
        sink.old.writer.target sink.new.writer.target result }
    ensures refused { RefusesSamples R.Source profile source (failures_of sink.new) result }
    ensures names { W.names sink.new.writer.target ≡ W.names sink.old.writer.target }
{
    decode_chain(alloc, source, profile, sink)
}

/// The paths of the files of a decoding.
#[derive(Clone, Copy)]
pub struct ChainPaths<'a> {
    /// The file that is read.
    pub input: &'a str,
    /// The file that is written.
    pub output: &'a str,
}

/// What became of a decoding, and its source.
#[derive(Drop)]
pub(crate) struct ChainSamples<R> {
    source: R,
    outcome: Result<(), ChainFault>,
    failing: Failing,
}

/// Decodes streams one after another, and sends their samples.
fn decode_samples_of<R: Source, W: Target>(
    alloc: Global,
    source: R,
    profile: Profile,
    target: &mut W,
) -> ChainSamples<R>
    ensures written { SendsAll R.Source W.Target profile source target.old target.new result }
    ensures refused { RefusesAll R.Source profile source result }
{
    let mut sink = ChainWriter::new(target);
    let ChainRead { source, outcome } = decode_chain_into(alloc, source, profile, &mut sink);
    let failing = sink.failing();
    // Given back only for the proof: the clauses are about the target.
    let _target = sink.into_target();
    ChainSamples {
        source,
        outcome,
        failing,
    }
}

/// Writes the line of a stream that has another format than those before it, and returns the status 1.
fn refuse_format<E: Target>(err: &mut E, path: &str, stream: u64) -> u8
    ensures status { result ≡ 1 }
    ensures line { IfServed E.Target err.old err.new (AddsLine (stream_path path.now stream) (codes "95 OtherFormat")) }
{
    // If it cannot be written, there is no one left to report it to.
    if stream == 0 {
        let _ = write_line(err, path, At::Whole, "95 OtherFormat");
        return 1;
    }
    let _ = write_stream_line(
        err,
        path,
        stream.saturating_add(1),
        At::Whole,
        "95 OtherFormat",
    );
    1
}

/// Writes the line of a decoding that failed, and returns the status 1.
fn refuse_samples<E: Target>(
    err: &mut E,
    paths: &ChainPaths<'_>,
    failing: Failing,
    fault: ChainFault,
) -> u8
    ensures status { result ≡ 1 }
    ensures line { IfServed E.Target err.old err.new (IsSamplesAnswer (outcome_by failing fault) paths.now result) }
{
    let ChainFault { stream, fault } = fault;
    match failing {
        Failing::Nothing => refuse_stream(err, paths.input, stream, fault.at, fault.why),
        Failing::Format => refuse_format(err, paths.input, stream),
        Failing::Target => refuse_stream(err, paths.output, stream, fault.at, fault.why),
    }
}

/// Decodes Ogg streams one after another, or one stream, native or Ogg, to the raw samples of all of them. They have to
/// have one format: sample rate, channels, bits per sample.
///
/// - `paths`: the files, as lines name them.
/// - `source`: the bytes of the file, which is given back.
/// - `lax`: whether all of FLAC is accepted, or the streamable subset alone (RFC 9639, section 7).
/// - `target`: the file that is written; `err`: standard error.
///
/// After status 1 the line of the error was written to `err`, if that could be written. It has the number of the
/// stream, if it is not the first: `flac: song.oga: stream 2: 95 OtherFormat`. The samples of the streams before were
/// written.
pub fn decode_chain_samples<R: Source, W: Target, E: Target>(
    alloc: Global,
    paths: &ChainPaths<'_>,
    source: R,
    lax: bool,
    target: &mut W,
    err: &mut E,
) -> ChainDone<R>
    // The status is 0 or 1.
    ensures status { result.status ≤ 1 }
    // After status 0 the input is streams of one format one after another, and exactly their samples were added.
    ensures decoded { WritesChainSamples R.Source W.Target (profile_of lax) source result target }
    // If neither the source nor standard error fails, the status and the line say what the input is; or that a stream
    // has another format, or that the output could not be written, or that memory ran out.
    ensures reported { ReportsChainSamples R.Source E.Target (profile_of lax) paths.now source result err }
{
    let ChainSamples {
        source,
        outcome,
        failing,
    } = decode_samples_of(alloc, source, profile_of(lax), target);
    match outcome {
        Ok(()) => ChainDone { source, status: 0 },
        Err(fault) => {
            let status = refuse_samples(err, paths, failing, fault);
            ChainDone { source, status }
        }
    }
}
