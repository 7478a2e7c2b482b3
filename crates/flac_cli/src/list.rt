//! `flac list`: the lines of each metadata block, and of its fields.

ghost use Rattle.flac_cli.specs.inner.Lined.{Prints};
ghost use Rattle.std.specs.Prelude.{◌≡◌, ◌≤◌, ◌<◌, ◌∷◌, ⊤, nat_lt, true, Some, OnOk};
ghost use Rattle.flac_bits.specs.Bits.{bit_value};
ghost use Rattle.flac_native.specs.Sent.{FailedIfCounted};
ghost use Rattle.flac_cli.specs.Streams.{Tells, GivesStream, profile_of};
ghost use Rattle.flac_cli.specs.Outcomes.{ReportsListed};
ghost use Rattle.flac_cli.specs.inner.Outcomes.{ReturnsListing, ReturnsLines};

use crate::chosen::{ListedFile, is_chosen};
use crate::lines::{Lines, Part};
use crate::report::refuse;
use crate::streams::{decode_stream, profile_of};
use flac_bits::{Source, Target, Why};
use flac_frame::FrameView;
use flac_jobs::BlockName;
use flac_meta::{Block, Comments, CueSheet, CueTrack, Picture, SeekPoint, SeekTable, StreamInfo};
use flac_native::{Failures, Fault, Profile, Sink, SinkFault};
use std::alloc::Global;
use std::snapshot::Snapshot;

/// The name of a block's type, after a space.
fn name_of(block: &Block) -> Part<'static> {
    match block {
        Block::StreamInfo(_) => Part::Text(" STREAMINFO"),
        Block::Padding(_) => Part::Text(" PADDING"),
        Block::Application { .. } => Part::Text(" APPLICATION"),
        Block::SeekTable(_) => Part::Text(" SEEKTABLE"),
        Block::VorbisComment(_) => Part::Text(" VORBIS_COMMENT"),
        Block::CueSheet(_) => Part::Text(" CUESHEET"),
        Block::Picture(_) => Part::Text(" PICTURE"),
        Block::Other { kind, .. } => Part::Number(" TYPE_", u64::from(*kind)),
    }
}

/// Writes the fields of a block.
fn write_fields<W: Target>(lines: &mut Lines<W>, block: &Block) -> Result<(), Why>
    ensures { Prints W.Target lines.old.target lines.new.target result }
{
    match block {
        Block::StreamInfo(info) => write_info(lines, info),
        Block::Application { id, .. } => lines.put_parts(&[Part::Hex("  id ", id)]),
        Block::SeekTable(table) => write_points(lines, table),
        Block::VorbisComment(comments) => write_comments(lines, comments),
        Block::CueSheet(sheet) => write_sheet(lines, sheet),
        Block::Picture(picture) => write_picture(lines, picture),
        Block::Padding(_) | Block::Other { .. } => Ok(()),
    }
}

/// Sends the lines of a block: `block I NAME LENGTH`, with its index and the length of its content in bytes, and then
/// its fields, each line with two leading spaces.
///
/// # Errors
/// [`Why::Write`] if the target fails.
fn send_block<W: Target>(lines: &mut Lines<W>, index: u64, block: &Block) -> Result<(), Why>
    ensures { Prints W.Target lines.old.target lines.new.target result }
{
    lines.put_parts(&[
        Part::Number("block ", index),
        name_of(block),
        Part::Number(" ", block.length()),
    ])?;
    write_fields(lines, block)?;
    lines.send()
}

/// Writes the fields of a STREAMINFO.
fn write_info<W: Target>(lines: &mut Lines<W>, info: &StreamInfo) -> Result<(), Why>
    ensures { Prints W.Target lines.old.target lines.new.target result }
{
    lines.put_parts(&[
        Part::Number("  blocks ", u64::from(info.least_block())),
        Part::Number(" ", u64::from(info.greatest_block())),
        Part::Number(" frames ", u64::from(info.least_frame())),
        Part::Number(" ", u64::from(info.greatest_frame())),
        Part::Number(" rate ", u64::from(info.rate())),
        Part::Number(" channels ", u64::from(info.channels())),
        Part::Number(" depth ", u64::from(info.depth())),
        Part::Number(" samples ", info.total()),
        Part::Hex("\n  md5 ", &info.digest()),
    ])
}

/// Writes the line of a seek point.
fn write_point<W: Target>(lines: &mut Lines<W>, point: &SeekPoint) -> Result<(), Why>
    ensures { Prints W.Target lines.old.target lines.new.target result }
{
    if point.is_placeholder() {
        return lines.put_parts(&[Part::Text("  placeholder")]);
    }
    lines.put_parts(&[
        Part::Number("  point ", point.sample),
        Part::Number(" ", point.offset),
        Part::Number(" ", u64::from(point.length)),
    ])
}

/// Writes a line for each seek point.
fn write_points<W: Target>(lines: &mut Lines<W>, table: &SeekTable) -> Result<(), Why>
    ensures { Prints W.Target lines.old.target lines.new.target result }
{
    for point in table.points() {
        write_point(lines, point)?;
    }
    Ok(())
}

/// Writes the vendor and a line for each comment.
fn write_comments<W: Target>(lines: &mut Lines<W>, comments: &Comments) -> Result<(), Why>
    ensures { Prints W.Target lines.old.target lines.new.target result }
{
    lines.put_parts(&[Part::Escaped("  vendor ", comments.vendor())])?;
    for comment in comments.list.as_slice() {
        lines.put_parts(&[Part::Escaped("  comment ", comment.as_slice())])?;
    }
    Ok(())
}

/// Bytes without the zeros at their end.
fn without_zeros(bytes: &[u8]) -> &[u8] {
    let end = bytes
        .iter()
        .rposition(|byte| *byte != 0)
        .map_or(0, |last| last + 1);
    &bytes[..end]
}

/// Writes the fields of a cue sheet and its tracks.
fn write_sheet<W: Target>(lines: &mut Lines<W>, sheet: &CueSheet) -> Result<(), Why>
    ensures { Prints W.Target lines.old.target lines.new.target result }
{
    lines.put_parts(&[
        Part::Escaped("  catalogue ", without_zeros(&sheet.catalogue)),
        Part::Number(" lead_in ", sheet.lead_in),
        Part::Number(" cd ", u64::from(sheet.cd)),
    ])?;
    for track in sheet.tracks.as_slice() {
        write_track(lines, track)?;
    }
    Ok(())
}

/// Writes the line of a track.
fn write_track_line<W: Target>(lines: &mut Lines<W>, track: &CueTrack) -> Result<(), Why>
    ensures { Prints W.Target lines.old.target lines.new.target result }
{
    lines.put_parts(&[
        Part::Number("  track ", u64::from(track.number)),
        Part::Number(" offset ", track.offset),
        Part::Escaped(" isrc ", without_zeros(&track.isrc)),
        Part::Text(if track.audio {
            " type audio"
        } else {
            " type data"
        }),
        Part::Number(" pre ", u64::from(track.pre_emphasis)),
    ])
}

/// Writes the line of a track, and one for each of its index points.
fn write_track<W: Target>(lines: &mut Lines<W>, track: &CueTrack) -> Result<(), Why>
    ensures { Prints W.Target lines.old.target lines.new.target result }
{
    write_track_line(lines, track)?;
    for index in track.indices.as_slice() {
        lines.put_parts(&[
            Part::Number("  index ", u64::from(index.number)),
            Part::Number(" offset ", index.offset),
        ])?;
    }
    Ok(())
}

/// Writes the fields of a picture, but not its data.
fn write_picture<W: Target>(lines: &mut Lines<W>, picture: &Picture) -> Result<(), Why>
    ensures { Prints W.Target lines.old.target lines.new.target result }
{
    lines.put_parts(&[
        Part::Number("  type ", u64::from(picture.kind)),
        Part::Escaped(" media ", picture.media.as_slice()),
        Part::Escaped(" text ", picture.text.as_slice()),
        Part::Number(" size ", u64::from(picture.width)),
        Part::Number("x", u64::from(picture.height)),
        Part::Number(" depth ", u64::from(picture.depth)),
        Part::Number(" colours ", u64::from(picture.colours)),
        Part::Number(" data ", picture.bytes.as_slice().len() as u64),
    ])
}

/// Writes the lines of each metadata block that is chosen, those of one block at once.
#[derive(Drop)]
pub(crate) struct Listing<'a, W: Target> {
    lines: Lines<W>,
    /// Which blocks are listed.
    names: &'a [BlockName],
    /// The index of the next block.
    index: u64,
    failures: Failures,
    /// The target as it was given, for clauses only.
    began: Snapshot<W>,
    ghost kept: { W.errors began.value ≤ W.errors lines.target },
    ghost known: { W.known began.value ≡ true → failures.count ≡ 0 → W.known lines.target ≡ true },
    ghost failed: { W.known began.value ≡ true → 0 < failures.count → W.errors began.value < W.errors lines.target },
}

impl<'a, W: Target> Listing<'a, W> {
    /// A listing of the blocks of these names, of all if there are none. It begins at block 0.
    pub(crate) fn new(target: W, names: &'a [BlockName]) -> Listing<'a, W>
        ensures target { result.lines.target ≡ target }
        ensures failures { result.failures.count ≡ 0 }
        ensures began { result.began.value ≡ target }
    {
        let began = Snapshot::of(&target);
        Listing {
            lines: Lines::new(target),
            names,
            index: 0,
            failures: Failures::new(),
            began,
        }
    }

    /// How many times the target failed; it stops at 2^64 - 1.
    pub(crate) fn failures(&self) -> u64
        ensures count { result ≡ self.now.failures.count }
        // Each time is an error of the target.
        ensures failed { FailedIfCounted W.Target self.now.failures.count self.now.began.value self.now.lines.target }
    {
        self.failures.count()
    }

    /// Returns the target.
    pub(crate) fn into_target(self) -> W
        ensures { result ≡ self.entry.lines.target }
    {
        let Listing {
            lines,
            names: _,
            index: _,
            failures: _,
            began: _,
        } = self;
        lines.into_target()
    }
}

impl<'a, W: Target> Sink for Listing<'a, W> {
    ghost takes = { λ _ _ _. ⊤ };

    ghost known = { λ s. nat_lt s.failures.count 18446744073709551615 };

    ghost errors = { λ s. s.failures.count };

    // The numbers before those of the target are of the target as it was given. They stay, too.
    ghost names = { λ s. bit_value (W.known s.began.value) ∷ W.errors s.began.value ∷ W.names s.lines.target };

    fn block(&mut self, block: &Block) -> Result<(), SinkFault> {
        let index = self.index;
        self.index = index.saturating_add(1);
        if !is_chosen(self.names, index, block) {
            return Ok(());
        }
        match send_block(&mut self.lines, index, block) {
            Ok(()) => Ok(()),
            Err(_) => self.failures.fail(),
        }
    }

    fn frame(&mut self, _frame: &FrameView<'_>) -> Result<(), SinkFault> {
        Ok(())
    }
}

/// Decodes a stream into a listing of its metadata.
fn list_into<R: Source, W: Target>(
    alloc: Global,
    source: &mut R,
    profile: Profile,
    sink: &mut Listing<'_, W>,
) -> Result<(), Fault>
    requires none { sink.old.failures.count ≡ 0 }
    requires began { sink.old.began.value ≡ sink.old.lines.target }
    ensures stream { Tells R.Source source.old source.new → OnOk result (GivesStream R.Source profile source.old) }
    ensures outcome { ReturnsLines R.Source profile source.old source.new sink.old.lines sink.new.lines result }
    ensures names { W.names sink.new.lines.target ≡ W.names sink.old.lines.target }
{
    let outcome = decode_stream(alloc, source, profile, sink);
    // Asked only for the proof, which then knows that each failure is an error of the target.
    let _failures = sink.failures();
    outcome
}

/// Decodes a stream, and lists its metadata: the blocks of these names, all if there are none.
fn list<R: Source, O: Target>(
    alloc: Global,
    names: &[BlockName],
    source: &mut R,
    profile: Profile,
    out: &mut O,
) -> Result<(), Fault>
    ensures stream { Tells R.Source source.old source.new → OnOk result (GivesStream R.Source profile source.old) }
    ensures outcome { ReturnsListing R.Source O.Target profile source.old source.new out.old out.new result }
{
    let mut sink = Listing::new(out, names);
    let outcome = list_into(alloc, source, profile, &mut sink);
    // Given back only for the proof: the clauses are about the target.
    let _out = sink.into_target();
    outcome
}

/// Lists the metadata of a stream. Returns the status.
pub(crate) fn run_list<R: Source, O: Target, E: Target>(
    alloc: Global,
    input: &str,
    source: &mut R,
    profile: Profile,
    out: &mut O,
    err: &mut E,
) -> u8
    ensures status { result ≤ 1 }
    ensures stream { result ≡ 0 → Tells R.Source source.old source.new → GivesStream R.Source profile source.old }
    ensures reported { ReportsListed R.Source O.Target E.Target profile input.now result source out err }
{
    match list(alloc, &[], source, profile, out) {
        Ok(()) => 0,
        Err(fault) => refuse(err, input, Some(fault.at), fault.why),
    }
}

/// Decodes a stream, native or Ogg, and lists its chosen metadata blocks, as `flac list` does. Returns the exit status:
/// 0 if all of the stream was read and its blocks were listed, else 1.
///
/// - `file`: the path of the file that `source` is, and which blocks are listed.
/// - `lax`: whether streams outside the streamable subset (RFC 9639, section 7) are accepted too.
/// - `out`, `err`: standard output and standard error.
///
/// After status 1 the lines of the chosen blocks before the fault were written to `out`, and the line of the fault to
/// `err`, if that could be written.
pub fn list_stream<R: Source, O: Target, E: Target>(
    alloc: Global,
    file: &ListedFile<'_>,
    lax: bool,
    source: &mut R,
    out: &mut O,
    err: &mut E,
) -> u8
    ensures status { result ≤ 1 }
    // After status 0 the input is a stream.
    ensures stream { result ≡ 0 →
        Tells R.Source source.old source.new → GivesStream R.Source (profile_of lax) source.old }
    // If the source and standard error did not fail, the status and the line say what the input is; or memory ran out,
    // or standard output failed: then the line says that.
    ensures reported { ReportsListed R.Source O.Target E.Target
        (profile_of lax) file.now.path.now result source out err }
{
    match list(alloc, file.names, source, profile_of(lax), out) {
        Ok(()) => 0,
        Err(fault) => refuse(err, file.path, Some(fault.at), fault.why),
    }
}
