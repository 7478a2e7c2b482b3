//! `flac decode` of a part of a stream.

ghost use Rattle.std.specs.Prelude.{◌≡◌, ◌≤◌, ◌<◌, ◌-◌, ◌*◌, ◌%◌, ◌⊎◌, true, nat_eq, option_copied, length, IfOk, IfErr, OnOk, OnErr, MatchResult, Ok, Err, Some, None};
ghost use Rattle.flac_frame.specs.Viewed.{frame_of};
ghost use Rattle.flac_native.specs.Message.{sample_width};
ghost use Rattle.flac_native.specs.Sent.{TargetFailed};
ghost use Rattle.flac_wave.specs.Plain.{CanBeWritten, plain_head};
ghost use Rattle.flac_compare.specs.inner.Stepping.{Stays, MeetsNone};
ghost use Rattle.flac_cli.specs.Calls.{IfServed, HasSent};
ghost use Rattle.flac_cli.specs.Excerpts.{range_fault, range_text, format_for, zero_after, start_of, stop_of, excerpt_path, excerpt_text, ReportsPart, NamesExcerpt, DecodesPart};
ghost use Rattle.flac_cli.specs.Reports.{AddsLine};
ghost use Rattle.flac_cli.specs.inner.Excerpts.{IsSpanOf, is_done, needs, count_of, Cuts, stated_in, bytes_text, IsOutside, SendsSpan, SendsFile, part_fault, text_of, rows_in, SendsTurn, SendsAsked, SendsInput};

use crate::decode_wave::{most_rows, send_as_file, send_pieces};
use crate::lines::{At, write_line};
use crate::report::refuse;
use crate::speakers::mask_in;
use crate::streams::profile_of;
use flac_bits::{Source, Target, Why, send_all};
use flac_frame::FrameView;
use flac_jobs::{Excerpt, Moment};
use flac_meta::{Comments, StreamInfo};
use flac_native::{Fault, Place, put_rows, sample_width};
use flac_ogg::Fronted;
use flac_reader::{Container, Keep, Opened, Reader, open};
use flac_wave::{WaveFormat, plain_pieces};
use std::alloc::Global;

/// How many bytes are sent at once, at most.
const ROOM: usize = 131072;

/// Why a part is no part of a stream.
#[derive(Clone, Copy)]
pub(crate) enum RangeFault {
    /// It has no sample: it ends before its first.
    Empty,
    /// It begins or ends after the last sample of the stream.
    End,
}

impl RangeFault {
    /// The number and the name of the reason, as `73 EmptyRange`.
    fn as_str(self) -> &'static str
        ensures { result.now ≡ range_text self }
    {
        match self {
            RangeFault::Empty => "73 EmptyRange",
            RangeFault::End => "74 RangeEnd",
        }
    }
}

/// Why a part of a stream is not decoded.
#[derive(Clone, Copy)]
pub(crate) enum ExcerptFault {
    /// The stream is refused before the end of the part, or it cannot be read, or an allocation fails.
    Unread(Fault),
    /// The stream has no such part.
    Range(RangeFault),
    /// The file cannot be written.
    Write,
}

/// Which of the inter-channel samples that come are wanted.
#[derive(Clone, Copy)]
pub(crate) struct Span {
    /// How many come before them.
    skip: u64,
    /// How many they are at least.
    least: u64,
    /// Whether all that follow are wanted; else only these.
    unbounded: bool,
}

/// Which indices of a frame are wanted, and what is wanted after it.
#[derive(Clone, Copy)]
pub(crate) struct Cut {
    start: usize,
    /// The index after the last.
    end: usize,
    rest: Span,
}

impl Span {
    /// The span from the sample of a number up to another one, of a stream with this number of samples, 0 if it is not
    /// known.
    ///
    /// # Errors
    /// It has no sample, or it ends after the last one.
    fn between(from: u64, to: Option<u64>, total: u64) -> Result<Span, RangeFault>
        ensures made { IfOk result (IsSpanOf from to) }
        ensures right { OnOk result (range_fault from to total ≡ None) }
        ensures refused { IfErr result (λ e. range_fault from to total ≡ Some e) }
    {
        match to {
            Some(to) => {
                if to <= from {
                    return Err(RangeFault::Empty);
                }
                if total != 0 && total < to {
                    return Err(RangeFault::End);
                }
                Ok(Span {
                    skip: from,
                    least: to - from,
                    unbounded: false,
                })
            }
            None => {
                if total != 0 && total <= from {
                    return Err(RangeFault::End);
                }
                Ok(Span {
                    skip: from,
                    least: 1,
                    unbounded: true,
                })
            }
        }
    }

    /// Whether as many came as there have to be.
    fn is_reached(self) -> bool
        ensures { result ≡ nat_eq (needs self) 0 }
    {
        self.skip == 0 && self.least == 0
    }

    /// Whether nothing is wanted any more, whatever comes.
    fn is_done(self) -> bool
        ensures { result ≡ is_done self }
    {
        !self.unbounded && self.is_reached()
    }

    /// How many of the next samples of a frame are wanted, of `most`.
    fn count(self, most: usize) -> usize
        ensures { result ≡ count_of self.unbounded self.least most }
    {
        if self.unbounded || most as u64 <= self.least {
            most
        } else {
            self.least as usize
        }
    }

    /// What is wanted of a frame of this size.
    fn cut(self, size: usize) -> Cut
        ensures { Cuts self size result }
    {
        let start = if self.skip < size as u64 {
            self.skip as usize
        } else {
            size
        };
        let count = self.count(size - start);
        Cut {
            start,
            end: start + count,
            rest: Span {
                skip: self.skip - start as u64,
                least: self.least.saturating_sub(count as u64),
                unbounded: self.unbounded,
            },
        }
    }

    /// What is wanted of the samples from the one of a number on, which is not after the first that is wanted.
    pub(crate) fn after(self, number: u64) -> Span
        ensures { result ≡ record self { skip = self.skip - number } }
    {
        Span {
            skip: self.skip.saturating_sub(number),
            ..self
        }
    }

    /// The length that the head of a file states, of a stream with this number of samples; 0 if it is not known.
    pub(crate) fn stated(self, total: u64) -> u64
        ensures stated { result ≡ stated_in self total }
        ensures few { total < 68719476736 → result < 68719476736 }
    {
        if self.unbounded {
            total.saturating_sub(self.skip)
        } else if self.least < 68_719_476_736 {
            self.least
        } else {
            0
        }
    }
}

/// What the samples of a part become.
#[derive(Clone, Copy)]
pub(crate) struct Form {
    /// Bits per sample.
    depth: u8,
    /// Whether they are those of a WAV file.
    wave: bool,
}

/// At the end of the stream: whether all that is wanted came.
fn ended(span: Span) -> Result<(), ExcerptFault>
    ensures { MatchResult result (λ _. needs span ≡ 0)
        (λ e. (e ≡ ExcerptFault.Range RangeFault.End) × (0 < needs span)) }
{
    if span.is_reached() {
        Ok(())
    } else {
        Err(ExcerptFault::Range(RangeFault::End))
    }
}

/// Sends samples of a stream as those of the file. Their bytes may be changed for it.
fn send_piece<W: Target>(form: Form, bytes: &mut [u8], target: &mut W) -> Result<(), Why>
    requires depth { (4 ≤ form.depth) × (form.depth ≤ 32) }
    requires whole { length bytes.old % sample_width form.depth ≡ 0 }
    requires room { form.depth ≡ 8 * sample_width form.depth ⊎ (length bytes.old ≤ 8192) }
    ensures known { OnOk result (W.known target.old ≡ true → W.known target.new ≡ true) }
    ensures sent { HasSent W.Target target.old target.new (bytes_text form.wave form.depth bytes.old) result }
    ensures names { W.names target.new ≡ W.names target.old }
    ensures kept { W.errors target.old ≤ W.errors target.new }
    ensures rises { OnErr result (W.known target.old ≡ true → W.errors target.old < W.errors target.new) }
{
    if !form.wave {
        return send_all(target, bytes);
    }
    let wide = sample_width(u32::from(form.depth));
    match send_as_file(form.depth, wide, bytes, target) {
        Ok(_) => Ok(()),
        Err(why) => Err(why),
    }
}

/// Sends the inter-channel samples of a frame at the indices from `start` up to `end`, by way of `bytes`.
fn send_rows<W: Target>(
    frame: &FrameView<'_>,
    form: Form,
    start: usize,
    end: usize,
    bytes: &mut [u8],
    target: &mut W,
) -> Result<(), Why>
    requires depth { (4 ≤ form.depth) × (form.depth ≤ 32) }
    requires rows { (start ≤ end) × (end ≤ (frame_of frame.now).size) }
    requires room { length bytes.old ≡ 131072 }
    ensures known { OnOk result (W.known target.old ≡ true → W.known target.new ≡ true) }
    ensures sent { HasSent W.Target target.old target.new
        (text_of form (rows_in (frame_of frame.now) start end)) result }
    ensures names { W.names target.new ≡ W.names target.old }
    ensures kept { W.errors target.old ≤ W.errors target.new }
    ensures rises { OnErr result (W.known target.old ≡ true → W.errors target.old < W.errors target.new) }
{
    let width = sample_width(u32::from(form.depth));
    let most = most_rows(form.depth, width);
    let mut at = start;
    while at < end {
        let count = (end - at).min(most);
        let size = put_rows(frame, width, at, count, bytes);
        send_piece(form, &mut bytes[..size], target)?;
        at += count;
    }
    Ok(())
}

/// Reads the next frame, and sends what is wanted of it. False at the end of the stream.
fn send_next<C: Container, W: Target>(
    reader: &mut Reader<C>,
    span: &mut Span,
    form: Form,
    bytes: &mut [u8],
    target: &mut W,
) -> Result<bool, ExcerptFault>
    requires depth { (4 ≤ form.depth) × (form.depth ≤ 32) }
    requires room { length bytes.old ≡ 131072 }
    ensures stays { Stays reader.old reader.new }
    ensures met { OnOk result (MeetsNone reader.old reader.new) }
    ensures known { OnOk result (W.known target.old ≡ true → W.known target.new ≡ true) }
    ensures turns { SendsTurn W.Target (text_of form)
        reader.old reader.new span.old span.new target.old target.new result }
    ensures kept { W.errors target.old ≤ W.errors target.new }
    ensures failed { IfErr result (λ e. e ≡ ExcerptFault.Write → TargetFailed W.Target target.old target.new) }
{
    match reader.step() {
        Ok(()) => {}
        Err(fault) => return Err(ExcerptFault::Unread(fault)),
    }
    match reader.frame() {
        Some(frame) => {
            let cut = span.cut(frame.len());
            match send_rows(&frame, form, cut.start, cut.end, bytes, target) {
                Ok(()) => {}
                Err(_) => return Err(ExcerptFault::Write),
            }
            *span = cut.rest;
            Ok(true)
        }
        None => Ok(false),
    }
}

/// Sends what is wanted of the frames that a reader has not read yet. Reads no further than it has to.
fn send_span<C: Container, W: Target>(
    reader: &mut Reader<C>,
    span: Span,
    form: Form,
    target: &mut W,
) -> Result<(), ExcerptFault>
    requires { (4 ≤ form.depth) × (form.depth ≤ 32) }
    ensures stays { Stays reader.old reader.new }
    ensures met { OnOk result (MeetsNone reader.old reader.new) }
    ensures says { SendsSpan W.Target (text_of form) reader.old reader.new span target.old target.new result }
    ensures known { OnOk result (W.known target.old ≡ true → W.known target.new ≡ true) }
    ensures kept { W.errors target.old ≤ W.errors target.new }
    ensures failed { IfErr result (λ e. e ≡ ExcerptFault.Write → TargetFailed W.Target target.old target.new) }
{
    let mut bytes = [0u8; ROOM];
    let mut span = span;
    'frames: for _ in 0..u64::MAX {
        if span.is_done() {
            return Ok(());
        }
        match send_next(reader, &mut span, form, &mut bytes, target) {
            Ok(true) => {}
            Ok(false) => return ended(span),
            Err(fault) => return Err(fault),
        }
    }
    Err(ExcerptFault::Unread(Fault {
        at: Place::Frame(u64::MAX),
        why: Why::Memory,
    }))
}

/// The span of a part of a stream.
///
/// # Errors
/// The stream has no such part.
pub(crate) fn span_of(
    info: &StreamInfo,
    from: Moment,
    to: Option<Moment>,
) -> Result<Span, RangeFault>
    ensures made { IfOk result (IsSpanOf (start_of from info.now) (stop_of to info.now)) }
    ensures right { OnOk result (part_fault from to info.now ≡ None) }
    ensures refused { IfErr result (λ e. part_fault from to info.now ≡ Some e) }
{
    let start = from.sample_at(info.rate());
    match to {
        Some(to) => Span::between(start, Some(to.sample_at(info.rate())), info.total()),
        None => Span::between(start, None, info.total()),
    }
}

/// The format of the WAV file of a stream with this STREAMINFO and these comments.
#[tactic(auto, using(crate::proofs::Waved::speakers_written))]
fn format_for(info: &StreamInfo, comments: Option<&Comments>) -> WaveFormat
    ensures format { result ≡ format_for info.now (option_copied comments.entry) }
    ensures written { CanBeWritten result }
{
    let format = WaveFormat::plain(
        info.rate(),
        u32::from(info.channels()),
        u32::from(info.depth()),
    );
    match comments {
        Some(comments) => match mask_in(comments) {
            Some(mask) => WaveFormat {
                mask: Some(mask),
                ..format
            },
            None => format,
        },
        None => format,
    }
}

/// Sends the head of a plain WAV file that states this length.
///
/// # Errors
/// Out of memory, or the target failed.
fn send_head<W: Target>(
    alloc: Global,
    format: &WaveFormat,
    total: u64,
    target: &mut W,
) -> Result<(), ExcerptFault>
    requires format { CanBeWritten format.now }
    requires total { total < 68719476736 }
    ensures known { OnOk result (W.known target.old ≡ true → W.known target.new ≡ true) }
    ensures sent { HasSent W.Target target.old target.new (plain_head format.now total) result }
    ensures kept { W.errors target.old ≤ W.errors target.new }
    ensures outside { IfErr result IsOutside }
    ensures failed { IfErr result (λ e. e ≡ ExcerptFault.Write → TargetFailed W.Target target.old target.new) }
{
    let Ok(pieces) = plain_pieces(alloc, format, total) else {
        return Err(ExcerptFault::Unread(Fault {
            at: Place::Frame(0),
            why: Why::Memory,
        }));
    };
    match send_pieces(pieces.as_slice(), target) {
        Ok(()) => Ok(()),
        Err(_) => Err(ExcerptFault::Write),
    }
}

/// Sends the zero after `total` inter-channel samples of `row` bytes, if they are of odd length.
fn send_zero<W: Target>(total: u64, row: u64, target: &mut W) -> Result<(), ExcerptFault>
    ensures sent { HasSent W.Target target.old target.new (zero_after (total * row)) result }
    ensures kept { W.errors target.old ≤ W.errors target.new }
    ensures outside { IfErr result (λ e. e ≡ ExcerptFault.Write) }
    ensures failed { IfErr result (λ e. W.known target.old ≡ true → W.errors target.old < W.errors target.new) }
{
    if total % 2 * (row % 2) == 0 {
        return Ok(());
    }
    match send_all(target, &[0]) {
        Ok(()) => Ok(()),
        Err(_) => Err(ExcerptFault::Write),
    }
}

/// Sends a plain WAV file, whose head states this length, of what is wanted of the frames that a reader has not read
/// yet.
fn send_wave<C: Container, W: Target>(
    alloc: Global,
    reader: &mut Reader<C>,
    span: Span,
    total: u64,
    target: &mut W,
) -> Result<(), ExcerptFault>
    requires { total < 68719476736 }
    ensures stays { Stays reader.old reader.new }
    ensures met { OnOk result (MeetsNone reader.old reader.new) }
    ensures says { SendsFile W.Target true total reader.old reader.new span target.old target.new result }
    ensures failed { IfErr result (λ e. e ≡ ExcerptFault.Write → TargetFailed W.Target target.old target.new) }
{
    let depth = reader.info().depth();
    let format = format_for(reader.info(), reader.comments());
    match send_head(alloc, &format, total, target) {
        Ok(()) => {}
        Err(fault) => return Err(fault),
    }
    match send_span(reader, span, Form { depth, wave: true }, target) {
        Ok(()) => {}
        Err(fault) => return Err(fault),
    }
    send_zero(total, format.row(), target)
}

/// Sends the file of what is wanted of the frames that a reader has not read yet. If it is a WAV file, its head states
/// the length `total`.
pub(crate) fn send_file<C: Container, W: Target>(
    alloc: Global,
    reader: &mut Reader<C>,
    span: Span,
    total: u64,
    wave: bool,
    target: &mut W,
) -> Result<(), ExcerptFault>
    requires { total < 68719476736 }
    ensures stays { Stays reader.old reader.new }
    ensures met { OnOk result (MeetsNone reader.old reader.new) }
    ensures says { SendsFile W.Target wave total reader.old reader.new span target.old target.new result }
    ensures failed { IfErr result (λ e. e ≡ ExcerptFault.Write → TargetFailed W.Target target.old target.new) }
{
    if wave {
        return send_wave(alloc, reader, span, total, target);
    }
    let depth = reader.info().depth();
    send_span(reader, span, Form { depth, wave: false }, target)
}

/// Sends the file of a part of the stream of a reader that has given no frame yet.
fn send_part<C: Container, W: Target>(
    alloc: Global,
    reader: &mut Reader<C>,
    excerpt: &Excerpt<'_>,
    target: &mut W,
) -> Result<(), ExcerptFault>
    ensures stays { Stays reader.old reader.new }
    ensures says { SendsAsked W.Target excerpt.now reader.old reader.new target.old target.new result }
    ensures failed { IfErr result (λ e. e ≡ ExcerptFault.Write → TargetFailed W.Target target.old target.new) }
{
    let span = match span_of(reader.info(), excerpt.from, excerpt.to) {
        Ok(span) => span,
        Err(fault) => return Err(ExcerptFault::Range(fault)),
    };
    let total = span.stated(reader.info().total());
    send_file(alloc, reader, span, total, excerpt.wave, target)
}

/// Opens a stream, native or Ogg, and sends the part of it that is asked for.
///
/// # Errors
/// The stream is refused before the end of the part; it has no such part; the target failed; out of memory.
fn send_excerpt<R: Source, W: Target>(
    alloc: Global,
    excerpt: &Excerpt<'_>,
    source: &mut R,
    target: &mut W,
) -> Result<(), ExcerptFault>
    ensures says { SendsInput R.Source W.Target excerpt.now source.old source.new target.old target.new result }
    ensures failed { IfErr result (λ e. e ≡ ExcerptFault.Write → TargetFailed W.Target target.old target.new) }
{
    let opened = match open(alloc, source, profile_of(excerpt.lax), Keep::Tags) {
        Ok(opened) => opened,
        Err(refused) => return Err(ExcerptFault::Unread(refused.fault)),
    };
    match opened {
        Opened::Native(reader) => {
            let mut reader = reader;
            let outcome = send_part(alloc, &mut reader, excerpt, target);
            let decoder = reader.into_decoder();
            let fronted = decoder.into_source();
            let Fronted {
                front: _,
                source: _source, // for its clauses alone
            } = fronted;
            outcome
        }
        Opened::Ogg(reader) => {
            let mut reader = reader;
            let outcome = send_part(alloc, &mut reader, excerpt, target);
            let decoder = reader.into_decoder();
            let packets = decoder.into_container();
            let fronted = packets.into_source();
            let Fronted {
                front: _,
                source: _source, // for its clauses alone
            } = fronted;
            outcome
        }
    }
}

/// Writes the line of an excerpt that failed, and returns the status 1.
pub(crate) fn refuse_excerpt<E: Target>(
    err: &mut E,
    excerpt: &Excerpt<'_>,
    fault: ExcerptFault,
) -> u8
    ensures status { result ≡ 1 }
    ensures line { IfServed E.Target err.old err.new
        (AddsLine (excerpt_path excerpt.now fault) (excerpt_text fault)) }
{
    match fault {
        ExcerptFault::Unread(fault) => refuse(err, excerpt.input, Some(fault.at), fault.why),
        ExcerptFault::Range(fault) => {
            // If it cannot be written, there is no one left to report it to.
            let _ = write_line(err, excerpt.input, At::Whole, fault.as_str());
            1
        }
        ExcerptFault::Write => refuse(err, excerpt.output, None, Why::Write),
    }
}

/// Decodes a part of a stream, native or Ogg. Returns the exit status: 0 if exactly the part was written, else 1.
///
/// The part is the inter-channel samples from [`Excerpt::from`] on, up to [`Excerpt::to`], which is not among them. A
/// time becomes the number of a sample by the rate that STREAMINFO states (RFC 9639, section 8.2), rounded down.
///
/// `source` is the stream, `target` the file that is written, `err` is standard error. The stream is read from its
/// beginning up to the frame in which the part ends, and no further: what comes after it may be damaged.
///
/// After status 1 the line of the error was written to `err`:
///
/// - the first fault of the stream before the end of the part;
/// - 73 if the part has no sample, 74 if it begins or ends after the last sample;
/// - 39 if the file could not be written.
pub fn decode_excerpt<R: Source, W: Target, E: Target>(
    alloc: Global,
    excerpt: &Excerpt<'_>,
    source: &mut R,
    target: &mut W,
    err: &mut E,
) -> u8
    // The status is 0 or 1.
    ensures status { result ≤ 1 }
    // After status 0 the input is read as a stream, at least up to the end of the part, and exactly the part was added.
    ensures decoded { result ≡ 0 →
        DecodesPart R.Source W.Target excerpt.now source.old source.new target.old target.new }
    // If no device fails, the status and the line say what the input is: the part is there, or the first reason why it
    // is not. Or memory ran out: then the line says that.
    ensures reported { ReportsPart R.Source W.Target E.Target excerpt.now result source target err }
    // After status 1, whatever failed, its line was added to standard error, if that did not fail. It names the output
    // if that could not be written, and else the input.
    ensures named { result ≡ 1 → IfServed E.Target err.old err.new (NamesExcerpt excerpt.now) }
{
    match send_excerpt(alloc, excerpt, source, target) {
        Ok(()) => 0,
        Err(fault) => refuse_excerpt(err, excerpt, fault),
    }
}
