//! For sinks: a count of failures, and a sink that writes samples.

ghost use Rattle.std.specs.Prelude.{◌≡◌, ◌≤◌, ◌<◌, ◌+◌, ◌++◌, ◌∷◌, min, nat_lt, true, OnOk, OnErr};
ghost use Rattle.flac_bits.specs.Bits.{bit_value};
ghost use Rattle.flac_frame.specs.Viewed.{frame_of};
ghost use Rattle.flac_native.specs.Message.{frame_rows};
ghost use Rattle.flac_native.specs.Samples.{width_of, depth_after_item, samples_in};
ghost use Rattle.flac_native.specs.Sent.{SendsBytes, FailedIfCounted};

use crate::decoding::{Sink, SinkFault};
use crate::sample_bytes::{put_rows, sample_width};
use flac_bits::{Target, Why, send_all};
use flac_frame::FrameView;
use flac_meta::Block;
use std::snapshot::Snapshot;

/// How many bytes are sent at once, at most.
const ROOM: usize = 32768;

/// How many inter-channel samples are sent at once, at most. Each has at most 8 samples of 4 bytes.
const ROWS: usize = 1024;

/// How often a [`Sink`](crate::Sink) failed. A sink that keeps such a count, and returns what [`Failures::fail`]
/// returns, has it as `errors`.
///
/// ```
/// match self.bytes.extend_from_slice(bytes) {
///     Ok(()) => Ok(()),
///     Err(_) => self.failures.fail(),
/// }
/// ```
#[derive(Drop)]
pub struct Failures {
    count: u64,
}

impl Failures {
    /// No failures.
    pub fn new() -> Failures
        ensures { result.count ≡ 0 }
    {
        Failures { count: 0 }
    }

    /// How many failures were counted; it stops at 2^64 - 1.
    pub fn count(&self) -> u64
        ensures { result ≡ self.now.count }
    {
        let Failures { count } = self;
        *count
    }

    /// Counts one more failure, and returns it as an error.
    pub fn fail(&mut self) -> Result<(), SinkFault>
        ensures refused { OnOk result ⊥ }
        ensures count { self.new.count ≡ min (self.old.count + 1) 18446744073709551615 }
        ensures counted { self.old.count < 18446744073709551615 → self.old.count < self.new.count }
        ensures some { 0 < self.new.count }
    {
        self.count = self.count.saturating_add(1);
        Err(SinkFault)
    }
}

/// Sends the samples of a frame, interleaved, `width` bytes each.
fn send_frame<W: Target>(frame: &FrameView<'_>, width: usize, target: &mut W) -> Result<(), Why>
    requires { width ≤ 4 }
    ensures known { OnOk result (W.known target.old ≡ true → W.known target.new ≡ true) }
    ensures sent { OnOk result (SendsBytes W.Target (frame_rows width (frame_of frame.now)) target.old target.new) }
    ensures names { W.names target.new ≡ W.names target.old }
    ensures counted { OnOk result (W.errors target.new ≡ W.errors target.old) }
    ensures kept { W.errors target.old ≤ W.errors target.new }
    ensures rises { OnErr result (W.known target.old ≡ true → W.errors target.old < W.errors target.new) }
{
    let mut bytes = [0u8; ROOM];
    let mut start = 0;
    while start < frame.len() {
        let count = (frame.len() - start).min(ROWS);
        let end = put_rows(frame, width, start, count, &mut bytes);
        send_all(target, &bytes[..end])?;
        start += count;
    }
    Ok(())
}

/// A [`Sink`] that sends the samples of each frame to a target: interleaved, signed little-endian, each sign-extended
/// to whole bytes, or without its higher bytes if the width asked for is too small. It holds no bytes from one frame to
/// the next.
///
/// ```
/// let mut sink = SampleWriter::new(Collected::new(rt.alloc()), 0);
/// decode(rt.alloc(), &mut source, Profile::Subset, &mut sink)?;
/// let samples = sink.into_target().into_bytes();
/// ```
#[derive(Drop)]
pub struct SampleWriter<W: Target> {
    target: W,
    /// Bytes per sample; 0 for the fewest that hold its bits.
    asked: usize,
    /// Bits per sample, as STREAMINFO states them; 0 before it.
    depth: u8,
    failures: Failures,
    /// The target as it was given, for clauses only.
    began: Snapshot<W>,
    ghost range: { depth ≤ 32 },
    ghost few: { asked ≤ 4 },
    ghost kept: { W.errors began.value ≤ W.errors target },
    ghost known: { W.known began.value ≡ true → failures.count ≡ 0 → W.known target ≡ true },
    ghost failed: { W.known began.value ≡ true → 0 < failures.count → W.errors began.value < W.errors target },
}

impl<W: Target> SampleWriter<W> {
    /// A writer that has seen no STREAMINFO. It writes `width` bytes for each sample, at most 4; 0 stands for the
    /// fewest that hold its bits.
    pub fn new(target: W, width: usize) -> SampleWriter<W>
        requires { width ≤ 4 }
        ensures target { result.target ≡ target }
        ensures asked { result.asked ≡ width }
        ensures depth { result.depth ≡ 0 }
        ensures failures { result.failures.count ≡ 0 }
        ensures began { result.began.value ≡ target }
    {
        let began = Snapshot::of(&target);
        SampleWriter {
            target,
            asked: width,
            depth: 0,
            failures: Failures::new(),
            began,
        }
    }

    /// How many times the target failed; it stops at 2^64 - 1.
    pub fn failures(&self) -> u64
        ensures count { result ≡ self.now.failures.count }
        // Each time is an error of the target, which has returned none if there were none.
        ensures kept { W.errors self.now.began.value ≤ W.errors self.now.target }
        ensures known { W.known self.now.began.value ≡ true → self.now.failures.count ≡ 0
            → W.known self.now.target ≡ true }
        ensures failed { FailedIfCounted W.Target self.now.failures.count self.now.began.value self.now.target }
    {
        self.failures.count()
    }

    /// Returns the target.
    pub fn into_target(self) -> W
        ensures { result ≡ self.target }
    {
        let SampleWriter {
            target,
            asked: _,
            depth: _,
            failures: _,
            began: _,
        } = self;
        target
    }

    /// How many bytes a sample has.
    fn width(&self) -> usize
        ensures value { result ≡ width_of self.now.asked self.now.depth }
        ensures few { result ≤ 4 }
    {
        if self.asked == 0 {
            sample_width(u32::from(self.depth))
        } else {
            self.asked
        }
    }
}

impl<W: Target> Sink for SampleWriter<W> {
    ghost takes = { λ old item new. record {
      known : W.known old.target ≡ true → W.known new.target ≡ true;
      asked : new.asked ≡ old.asked;
      depth : new.depth ≡ depth_after_item old.depth item;
      sent : W.known old.target ≡ true → W.sent new.target ≡ W.sent old.target ++ samples_in old.asked old.depth item;
    } };

    ghost known = { λ s. nat_lt s.failures.count 18446744073709551615 };

    ghost errors = { λ s. s.failures.count };

    // The numbers before those of the target are of the target as it was given. They stay, too.
    ghost names = { λ s. bit_value (W.known s.began.value) ∷ W.errors s.began.value ∷ W.names s.target };

    fn block(&mut self, block: &Block) -> Result<(), SinkFault> {
        if let Block::StreamInfo(info) = block {
            self.depth = info.depth();
        }
        Ok(())
    }

    fn frame(&mut self, frame: &FrameView<'_>) -> Result<(), SinkFault> {
        let width = self.width();
        match send_frame(frame, width, &mut self.target) {
            Ok(()) => Ok(()),
            Err(_) => self.failures.fail(),
        }
    }
}
