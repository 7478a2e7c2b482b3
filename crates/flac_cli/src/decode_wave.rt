//! `flac decode` to WAV files.

ghost use Rattle.std.specs.Prelude.{◌≡◌, ◌<◌, ◌≤◌, ◌+◌, ◌*◌, ◌⊎◌, ◌++◌, ◌∷◌, ◌%◌, true, false, nat_lt, length, map, IfOk, IfErr, OnOk, OnErr, Some};
ghost use Rattle.flac_bits.specs.Bits.{bit_value};
ghost use Rattle.flac_frame.specs.Viewed.{frame_of};
ghost use Rattle.flac_native.specs.Item.{frame as frame_item};
ghost use Rattle.flac_native.specs.Message.{sample_width};
ghost use Rattle.flac_wave.specs.Wave.{all_of, begins_empty};
ghost use Rattle.flac_cli.specs.Calls.{IfServed, HasSent};
ghost use Rattle.flac_cli.specs.Outcomes.{ReportsReadWave, text_of_kept, SendsWave};
ghost use Rattle.flac_cli.specs.Reports.{Serves, AddsLine};
ghost use Rattle.flac_cli.specs.Streams.{Tells};
ghost use Rattle.flac_cli.specs.Waves.{wave_samples, file_samples};
ghost use Rattle.flac_cli.specs.inner.Waving.{nothing_held, held_after, adds, front_left, end_pad, ending, Holds, frame_samples};
ghost use Rattle.flac_cli.specs.inner.WaveOutcomes.{fault_by, IsOfInput, ReturnsWave, FailsByInput, HasSentWave, FailedUnless};
ghost use Rattle.flac_cli.specs.Named.{NamesWaveDecoding};
ghost use Rattle.flac_cli.specs.inner.Outcomes.{ForPaths};

use crate::held_wave::{HeldWave, KeptFault};
use crate::lines::{At, write_line};
use crate::report::{Paths, is_of_samples, refuse};
use flac_bits::{Source, Target, Why, send_all};
use flac_frame::FrameView;
use flac_meta::Block;
use flac_native::{Failures, Fault, Profile, Sink, SinkFault, put_rows, sample_width};
use flac_ogg::decode_any;
use flac_wave::raise;
use std::alloc::Global;
use std::snapshot::Snapshot;

/// How many bytes are sent at once, at most.
const ROOM: usize = 131072;

/// How many inter-channel samples are sent at once, at most. Each has at most 8 samples of 4 bytes. The header before
/// them puts them across the pages of the file, so few large writes are quicker.
const ROWS: usize = 4096;

/// The same of samples that have other bytes in the file than in the stream, up to four times as many.
const RAISED_ROWS: usize = 256;

/// How many bytes these have in the file, at most.
const RAISED_ROOM: usize = 32768;

/// Sends pieces, one after another.
pub(crate) fn send_pieces<W: Target>(pieces: &[Vec<u8>], target: &mut W) -> Result<(), Why>
    ensures known { OnOk result (W.known target.old ≡ true → W.known target.new ≡ true) }
    ensures sent { HasSent W.Target target.old target.new (all_of (map (λ p. p.items) pieces.now)) result }
    ensures names { W.names target.new ≡ W.names target.old }
    ensures kept { W.errors target.old ≤ W.errors target.new }
    ensures rises { OnErr result (W.known target.old ≡ true → W.errors target.old < W.errors target.new) }
{
    for piece in pieces {
        send_all(target, piece.as_slice())?;
    }
    Ok(())
}

/// Turns bytes into their other form, if they are samples of a byte each.
pub(crate) fn turn(wide: usize, bytes: &mut [u8])
    requires { wide ≤ 4 }
    ensures { bytes.new ≡ wave_samples (8 * wide) bytes.old }
{
    if 8 * wide > 8 {
        return;
    }
    for i in 0..bytes.len() {
        bytes[i] ^= 128;
    }
}

/// How many inter-channel samples are sent at once, at most.
pub(crate) fn most_rows(depth: u8, wide: usize) -> usize
    requires { wide ≤ 4 }
    ensures some { 0 < result }
    ensures few { result ≤ 4096 }
    ensures raised { depth ≡ 8 * wide ⊎ (result ≤ 256) }
{
    if usize::from(depth) == 8 * wide {
        ROWS
    } else {
        RAISED_ROWS
    }
}

/// Sends samples that have the bytes of a file, which are changed for it. Returns how many bytes they are.
fn send_turned<W: Target>(wide: usize, bytes: &mut [u8], target: &mut W) -> Result<usize, Why>
    requires { wide ≤ 4 }
    ensures known { OnOk result (W.known target.old ≡ true → W.known target.new ≡ true) }
    ensures sent { HasSent W.Target target.old target.new (wave_samples (8 * wide) bytes.old) result }
    ensures count { IfOk result (λ n. n ≡ length (wave_samples (8 * wide) bytes.old)) }
    ensures names { W.names target.new ≡ W.names target.old }
    ensures kept { W.errors target.old ≤ W.errors target.new }
    ensures rises { OnErr result (W.known target.old ≡ true → W.errors target.old < W.errors target.new) }
{
    turn(wide, bytes);
    send_all(target, bytes)?;
    Ok(bytes.len())
}

/// Sends samples of a stream as those of a WAV file, of `wide` bytes each. Their bytes may be changed for it. Returns
/// how many bytes they are in the file.
pub(crate) fn send_as_file<W: Target>(
    depth: u8,
    wide: usize,
    bytes: &mut [u8],
    target: &mut W,
) -> Result<usize, Why>
    requires holds { Holds wide depth }
    requires whole { length bytes.old % sample_width depth ≡ 0 }
    requires room { depth ≡ 8 * wide ⊎ (length bytes.old ≤ 8192) }
    ensures known { OnOk result (W.known target.old ≡ true → W.known target.new ≡ true) }
    ensures sent { HasSent W.Target target.old target.new (file_samples wide depth bytes.old) result }
    ensures count { IfOk result (λ n. n ≡ length (file_samples wide depth bytes.old)) }
    ensures names { W.names target.new ≡ W.names target.old }
    ensures kept { W.errors target.old ≤ W.errors target.new }
    ensures rises { OnErr result (W.known target.old ≡ true → W.errors target.old < W.errors target.new) }
{
    let shift = 8 * wide as u32 - u32::from(depth);
    if shift == 0 {
        return send_turned(wide, bytes, target);
    }
    let width = sample_width(u32::from(depth));
    let mut high = [0u8; RAISED_ROOM];
    let end = raise(width, wide, shift, bytes, &mut high);
    send_turned(wide, &mut high[..end], target)
}

/// Sends the samples of a frame as those of a WAV file, of `wide` bytes each, by way of `bytes`. Returns 1 if the
/// number of these bytes and of those before them is odd, else 0.
fn send_samples<W: Target>(
    frame: &FrameView<'_>,
    depth: u8,
    wide: usize,
    odd: usize,
    bytes: &mut [u8],
    target: &mut W,
) -> Result<usize, Why>
    requires holds { Holds wide depth }
    requires odd { odd < 2 }
    requires room { length bytes.old ≡ 131072 }
    ensures known { OnOk result (W.known target.old ≡ true → W.known target.new ≡ true) }
    ensures sent { HasSent W.Target target.old target.new (frame_samples wide depth (frame_of frame.now)) result }
    ensures odd { IfOk result (λ o. o ≡ (odd + length (frame_samples wide depth (frame_of frame.now))) % 2) }
    ensures names { W.names target.new ≡ W.names target.old }
    ensures kept { W.errors target.old ≤ W.errors target.new }
    ensures rises { OnErr result (W.known target.old ≡ true → W.errors target.old < W.errors target.new) }
{
    let width = sample_width(u32::from(depth));
    let mut start = 0;
    let mut odd = odd;
    let most = most_rows(depth, wide);
    while start < frame.len() {
        let count = (frame.len() - start).min(most);
        let end = put_rows(frame, width, start, count, bytes);
        let sent = send_as_file(depth, wide, &mut bytes[..end], target)?;
        odd = (odd + sent % 2) % 2;
        start += count;
    }
    Ok(odd)
}

/// Sends what a frame adds to a WAV file: if it is the first, the pieces before the samples; the samples. Nothing is
/// sent if the pieces are no WAV file of them.
fn send_frame<W: Target>(
    held: &mut HeldWave,
    frame: &FrameView<'_>,
    bytes: &mut [u8],
    target: &mut W,
) -> Result<(), Why>
    requires room { length bytes.old ≡ 131072 }
    ensures held { OnOk result (held.new ≡ held_after held.old (frame_item (frame_of frame.now))) }
    ensures known { OnOk result (W.known target.old ≡ true → W.known target.new ≡ true) }
    ensures sent { HasSent W.Target target.old target.new (adds held.old (frame_item (frame_of frame.now))) result }
    ensures names { W.names target.new ≡ W.names target.old }
    ensures kept { W.errors target.old ≤ W.errors target.new }
    ensures rises { OnErr result (W.known target.old ≡ true → W.errors target.old < W.errors target.new) }
{
    if held.fault().is_some() {
        held.begin();
        return Ok(());
    }
    send_front(held, target)?;
    let odd = send_samples(frame, held.depth(), held.wide(), held.odd(), bytes, target)?;
    held.count(odd);
    Ok(())
}

/// Sends the pieces before the samples, if no samples came.
fn send_front<W: Target>(held: &HeldWave, target: &mut W) -> Result<(), Why>
    ensures known { OnOk result (W.known target.old ≡ true → W.known target.new ≡ true) }
    ensures sent { HasSent W.Target target.old target.new (front_left held.now) result }
    ensures names { W.names target.new ≡ W.names target.old }
    ensures kept { W.errors target.old ≤ W.errors target.new }
    ensures rises { OnErr result (W.known target.old ≡ true → W.errors target.old < W.errors target.new) }
{
    if held.begun() {
        return Ok(());
    }
    send_pieces(held.front(), target)
}

/// Whether the first piece has no byte.
fn begins_empty(pieces: &[Vec<u8>]) -> bool
    ensures { result ≡ begins_empty (map (λ p. p.items) pieces.now) }
{
    match pieces.first() {
        Some(piece) => piece.is_empty(),
        None => false,
    }
}

/// Sends the byte after samples of odd length, if there is one.
fn send_pad<W: Target>(odd: usize, pieces: &[Vec<u8>], target: &mut W) -> Result<(), Why>
    ensures known { OnOk result (W.known target.old ≡ true → W.known target.new ≡ true) }
    ensures sent { HasSent W.Target target.old target.new (end_pad odd (map (λ p. p.items) pieces.now)) result }
    ensures names { W.names target.new ≡ W.names target.old }
    ensures kept { W.errors target.old ≤ W.errors target.new }
    ensures rises { OnErr result (W.known target.old ≡ true → W.errors target.old < W.errors target.new) }
{
    if odd == 0 || begins_empty(pieces) {
        return Ok(());
    }
    send_all(target, &[0])
}

/// Sends what follows all samples of a WAV file.
fn send_ending<W: Target>(held: &HeldWave, target: &mut W) -> Result<(), Why>
    ensures known { OnOk result (W.known target.old ≡ true → W.known target.new ≡ true) }
    ensures sent { HasSent W.Target target.old target.new (ending held.now) result }
    ensures names { W.names target.new ≡ W.names target.old }
    ensures kept { W.errors target.old ≤ W.errors target.new }
    ensures rises { OnErr result (W.known target.old ≡ true → W.errors target.old < W.errors target.new) }
{
    send_front(held, target)?;
    send_pad(held.odd(), held.back(), target)?;
    send_pieces(held.back(), target)
}

/// A sink that writes the WAV file of a stream: what comes before the samples at the first frame, the samples as they
/// come, and what follows them when it is ended. It holds the pieces of the file, and no samples. If there is no WAV
/// file of the stream's samples, it writes nothing.
#[derive(Drop)]
pub(crate) struct WaveWriter<W: Target> {
    target: W,
    held: HeldWave,
    /// The samples of a frame on their way to the target.
    bytes: [u8; ROOM],
    alloc: Global,
    /// Whether an allocation failed.
    short: bool,
    failures: Failures,
    /// The target as it was given, for clauses only.
    began: Snapshot<W>,
    ghost kept: { W.errors began.value ≤ W.errors target },
    ghost known: { W.known began.value ≡ true → failures.count ≡ 0 → W.known target ≡ true },
    ghost failed: { W.known began.value ≡ true → 0 < failures.count → short ≡ false → W.errors began.value < W.errors target },
}

impl<W: Target> WaveWriter<W> {
    /// A writer that has seen no block.
    pub(crate) fn new(alloc: Global, target: W) -> WaveWriter<W>
        ensures target { result.target ≡ target }
        ensures held { result.held ≡ nothing_held }
        ensures failures { result.failures.count ≡ 0 }
        ensures began { result.began.value ≡ target }
    {
        let began = Snapshot::of(&target);
        WaveWriter {
            target,
            held: HeldWave::new(alloc),
            bytes: [0; ROOM],
            alloc,
            short: false,
            failures: Failures::new(),
            began,
        }
    }

    /// How many times an allocation or the target failed; it stops at 2^64 - 1.
    fn failures(&self) -> u64
        ensures count { result ≡ self.now.failures.count }
        // Each time is an error of the target, unless an allocation failed.
        ensures kept { W.errors self.now.began.value ≤ W.errors self.now.target }
        ensures failed { FailedUnless W.Target self.now.short self.now.failures.count
            self.now.began.value self.now.target }
    {
        self.failures.count()
    }

    /// The fault of a decoding into this sink. If the sink failed since an allocation did, this is the reason.
    fn fault_of(&self, fault: Fault) -> Fault
        ensures { result ≡ fault_by self.now.short fault }
    {
        match fault.why {
            Why::Sink if self.short => Fault {
                at: fault.at,
                why: Why::Memory,
            },
            _ => fault,
        }
    }

    /// Sends what follows the samples.
    ///
    /// # Errors
    /// The target failed.
    fn end(&mut self) -> Result<(), SinkFault>
        ensures sent { HasSent W.Target self.old.target self.new.target (ending self.old.held) result }
        ensures names { W.names self.new.target ≡ W.names self.old.target }
        ensures kept { W.errors self.old.target ≤ W.errors self.new.target }
        ensures rises { OnErr result (W.known self.old.target ≡ true →
            W.errors self.old.target < W.errors self.new.target) }
    {
        match send_ending(&self.held, &mut self.target) {
            Ok(()) => Ok(()),
            Err(_) => self.failures.fail(),
        }
    }

    /// Returns the target.
    fn into_target(self) -> W
        ensures { result ≡ self.target }
    {
        let WaveWriter {
            target,
            held: _,
            bytes: _,
            alloc: _,
            short: _,
            failures: _,
            began: _,
        } = self;
        target
    }
}

impl<W: Target> Sink for WaveWriter<W> {
    ghost takes = { λ old item new. record {
      held : new.held ≡ held_after old.held item;
      known : W.known old.target ≡ true → W.known new.target ≡ true;
      sent : W.known old.target ≡ true → W.sent new.target ≡ W.sent old.target ++ adds old.held item;
    } };

    ghost known = { λ s. nat_lt s.failures.count 18446744073709551615 };

    ghost errors = { λ s. s.failures.count };

    // The numbers before those of the target are of the target as it was given. They stay, too.
    ghost names = { λ s. bit_value (W.known s.began.value) ∷ W.errors s.began.value ∷ W.names s.target };

    fn block(&mut self, block: &Block) -> Result<(), SinkFault> {
        if self.held.begun() {
            return Ok(());
        }
        match self.held.take_block(self.alloc, block) {
            Ok(()) => Ok(()),
            Err(_) => {
                self.short = true;
                self.failures.fail()
            }
        }
    }

    fn frame(&mut self, frame: &FrameView<'_>) -> Result<(), SinkFault> {
        match send_frame(&mut self.held, frame, &mut self.bytes, &mut self.target) {
            Ok(()) => Ok(()),
            Err(_) => self.failures.fail(),
        }
    }
}

/// Why the WAV file of a stream is not written.
#[derive(Clone, Copy)]
pub(crate) enum WaveFailure {
    /// The stream is refused, or a device or an allocation failed.
    Stream(Fault),
    /// There is no WAV file of the stream's samples.
    Kept(KeptFault),
    /// The target failed after the last frame.
    Write,
}

/// Decodes a stream into a writer of its WAV file, and ends this.
fn decode_wave_into<R: Source, W: Target>(
    alloc: Global,
    source: &mut R,
    profile: Profile,
    sink: &mut WaveWriter<W>,
) -> Result<(), WaveFailure>
    requires none { sink.old.failures.count ≡ 0 }
    requires began { sink.old.began.value ≡ sink.old.target }
    requires held { sink.old.held ≡ nothing_held }
    ensures written { HasSentWave R.Source W.Target profile
        source.old source.new sink.old.target sink.new.target result }
    ensures outcome { ReturnsWave R.Source W.Target profile
        source.old source.new sink.old.target sink.new.target result }
    ensures served { FailsByInput R.Source W.Target source.old source.new sink.old.target sink.new.target result }
    ensures names { W.names sink.new.target ≡ W.names sink.old.target }
{
    let decoded = decode_any(alloc, source, profile, sink);
    // Asked only for the proof, which then knows that each failure is an error of the target, or one of memory.
    let _failures = sink.failures();
    if let Err(fault) = decoded {
        return Err(WaveFailure::Stream(sink.fault_of(fault)));
    }
    if let Some(fault) = sink.held.fault() {
        return Err(WaveFailure::Kept(fault));
    }
    match sink.end() {
        Ok(()) => Ok(()),
        Err(_) => Err(WaveFailure::Write),
    }
}

/// Decodes a stream, and writes its WAV file: the one that its blocks keep, or else a plain one. After an error nothing
/// or a part of the file was written.
///
/// # Errors
/// The first fault of the stream. If it has none: the file that it keeps has samples of other bytes. An error of the
/// source or of the target, or out of memory.
pub(crate) fn decode_wave<R: Source, W: Target>(
    alloc: Global,
    source: &mut R,
    profile: Profile,
    target: &mut W,
) -> Result<(), WaveFailure>
    ensures written { HasSentWave R.Source W.Target profile source.old source.new target.old target.new result }
    ensures outcome { ReturnsWave R.Source W.Target profile source.old source.new target.old target.new result }
    ensures served { Tells R.Source source.old source.new → Serves W.Target target.old target.new →
        IfErr result IsOfInput }
{
    let mut sink = WaveWriter::new(alloc, target);
    let outcome = decode_wave_into(alloc, source, profile, &mut sink);
    // Given back only for the proof: the clauses are about the target.
    let _target = sink.into_target();
    outcome
}

/// Writes the line of a stream that becomes no WAV file of its samples, and returns the status 1.
fn refuse_kept<E: Target>(err: &mut E, path: &str, fault: KeptFault) -> u8
    ensures status { result ≡ 1 }
    ensures line { IfServed E.Target err.old err.new (AddsLine path.now (text_of_kept fault)) }
{
    // If it cannot be written, there is no one left to report it to.
    let _ = write_line(err, path, At::Whole, fault.as_str());
    1
}

/// Decodes a stream to its WAV file. Returns the status.
pub(crate) fn run_decode_wave<R: Source, W: Target, E: Target>(
    alloc: Global,
    paths: &Paths<'_>,
    source: &mut R,
    profile: Profile,
    target: &mut W,
    err: &mut E,
) -> u8
    ensures status { result ≤ 1 }
    ensures decoded { result ≡ 0 → SendsWave R.Source W.Target profile source.old source.new target.old target.new }
    ensures reported { ReportsReadWave R.Source W.Target E.Target profile paths.now.input.now result source target err }
    ensures named { result ≡ 1 → IfServed E.Target err.old err.new (ForPaths NamesWaveDecoding paths.now) }
{
    match decode_wave(alloc, source, profile, target) {
        Ok(()) => 0,
        Err(failure) => match failure {
            WaveFailure::Stream(fault) => {
                let is_output = is_of_samples(fault.why);
                let path = paths.at_fault(is_output);
                refuse(err, path, Some(fault.at), fault.why)
            }
            WaveFailure::Kept(fault) => refuse_kept(err, paths.input, fault),
            WaveFailure::Write => refuse(err, paths.output, None, Why::Write),
        },
    }
}
