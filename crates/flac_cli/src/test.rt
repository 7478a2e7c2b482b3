//! `flac test`: counts the frames and samples of a stream.

ghost use Rattle.std.specs.Prelude.{◌≡◌, true, [], ◌≤◌, ◌<◌, Some, OnErr};
ghost use Rattle.flac_cli.specs.Calls.{HasSent};
ghost use Rattle.flac_cli.specs.inner.Taking.{frames_after, samples_after, CountsStream};
ghost use Rattle.flac_cli.specs.Streams.{Tells, GivesStream};
ghost use Rattle.flac_cli.specs.Counted.{line_of, SendsCounts};
ghost use Rattle.flac_cli.specs.Outcomes.{ReportsRead};
ghost use Rattle.flac_cli.specs.inner.Outcomes.{FitsStream};
ghost use Rattle.flac_cli.specs.inner.Lines.{SendsLine};

use crate::lines::Lines;
use crate::report::refuse;
use crate::streams::decode_stream;
use flac_bits::{Source, Target, Why};
use flac_frame::FrameView;
use flac_meta::Block;
use flac_native::{Fault, Profile, Sink, SinkFault};
use std::alloc::Global;

/// Counts frames, and the samples of each channel, up to 2^64 - 1.
#[derive(Drop)]
pub(crate) struct Counts {
    pub(crate) frames: u64,
    pub(crate) samples: u64,
}

impl Sink for Counts {
    ghost takes = { λ old item new. record {
      frames : new.frames ≡ frames_after old.frames item;
      samples : new.samples ≡ samples_after old.samples item;
    } };

    ghost known = { λ _. true };

    ghost errors = { λ _. 0 };

    ghost names = { λ _. [] };

    fn block(&mut self, _block: &Block) -> Result<(), SinkFault> {
        Ok(())
    }

    fn frame(&mut self, frame: &FrameView<'_>) -> Result<(), SinkFault> {
        self.frames = self.frames.saturating_add(1);
        self.samples = self.samples.saturating_add(frame.len() as u64);
        Ok(())
    }
}

/// Decodes a stream, and counts its frames and samples.
fn count<R: Source>(alloc: Global, source: &mut R, profile: Profile) -> Result<Counts, Fault>
    ensures counts { CountsStream R.Source profile source.old source.new result }
    ensures outcome { Tells R.Source source.old source.new → FitsStream R.Source profile source.old result }
{
    let mut counts = Counts {
        frames: 0,
        samples: 0,
    };
    match decode_stream(alloc, source, profile, &mut counts) {
        Ok(()) => Ok(counts),
        Err(fault) => Err(fault),
    }
}

/// Writes the line of counts through a buffer.
fn put_counts<O: Target>(lines: &mut Lines<O>, counts: &Counts) -> Result<(), Why>
    requires { lines.old.held ≡ 0 }
    ensures { SendsLine O.Target (line_of counts.now.frames counts.now.samples) lines.old lines.new result }
{
    lines.put_counted("frames ", counts.frames)?;
    lines.put_counted(" samples ", counts.samples)?;
    lines.put("\n")?;
    lines.send()
}

/// Writes the line of counts.
pub(crate) fn write_counts<O: Target>(out: &mut O, counts: &Counts) -> Result<(), Why>
    ensures sent { HasSent O.Target out.old out.new (line_of counts.now.frames counts.now.samples) result }
    ensures failed { OnErr result (O.known out.old ≡ true → O.errors out.old < O.errors out.new) }
{
    let mut lines = Lines::new(out);
    put_counts(&mut lines, counts)
}

/// Tests a stream. Returns the status.
pub(crate) fn run_test<R: Source, O: Target, E: Target>(
    alloc: Global,
    input: &str,
    source: &mut R,
    profile: Profile,
    out: &mut O,
    err: &mut E,
) -> u8
    ensures status { result ≤ 1 }
    ensures stream { result ≡ 0 → Tells R.Source source.old source.new → GivesStream R.Source profile source.old }
    ensures tested { result ≡ 0 → SendsCounts R.Source O.Target profile source.old source.new out.old out.new }
    ensures reported { ReportsRead R.Source O.Target E.Target profile input.now result source out err }
{
    match count(alloc, source, profile) {
        Ok(counts) => match write_counts(out, &counts) {
            Ok(()) => 0,
            Err(why) => refuse(err, input, None, why),
        },
        Err(fault) => refuse(err, input, Some(fault.at), fault.why),
    }
}
