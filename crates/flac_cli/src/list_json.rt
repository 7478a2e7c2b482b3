//! `flac list --json`: the metadata blocks of a file as a line of JSON.

ghost use Rattle.std.specs.Prelude.{◌≡◌, ◌≤◌, ◌<◌, ◌++◌, ◌⊎◌, [], true, nat_lt, IfOk, IfErr, OnOk, IsErrAnd, is_ok};
ghost use Rattle.flac_native.specs.Item.{metadata};
ghost use Rattle.flac_json.specs.Json.{no_members};
ghost use Rattle.flac_json.specs.Lines.{line_end};
ghost use Rattle.flac_cli.specs.Calls.{IfServed};
ghost use Rattle.flac_cli.specs.ListedJson.{IsReasonOf, RefusesHead, IsSame, PrintsHead, PrintsBlocks};
ghost use Rattle.flac_cli.specs.Outcomes.{ReportsRead};
ghost use Rattle.flac_cli.specs.Reports.{Serves};
ghost use Rattle.flac_cli.specs.Streams.{Tells, profile_of};
ghost use Rattle.flac_cli.specs.inner.Listing.{view_of, begun_of, begun_after, comma, one_more, IsHeadLine, RefusesHeadLine, IsStreamLine};
ghost use Rattle.flac_cli.specs.inner.Outcomes.{FitsStream};
ghost use Rattle.flac_cli.specs.inner.WaveOutcomes.{fault_by};

use crate::chosen::{ListedFile, is_chosen};
use crate::head::pass_head;
use crate::recode::fault_of;
use crate::report::refuse;
use crate::streams::{decode_stream, profile_of};
use flac_bits::{Source, Target, Why, send_all};
use flac_frame::FrameView;
use flac_jobs::BlockName;
use flac_json::{block_json, line_end, line_front};
use flac_meta::Block;
use flac_native::{Failures, Fault, Place, Profile, Sink, SinkFault};
use std::alloc::{AllocError, Global};

/// The line of a file up to the blocks that came so far.
#[derive(Drop)]
pub(crate) struct BlockObjects<'a> {
    /// Which blocks are listed.
    pub(crate) names: &'a [BlockName],
    /// The line so far.
    pub(crate) line: Vec<u8>,
    /// Whether it has a block.
    pub(crate) any: bool,
    /// The number of the next block; it stops at 2^64 - 1.
    pub(crate) number: u64,
}

/// Adds a comma, unless the object that comes is the first.
fn push_comma(line: &mut Vec<u8>, any: bool) -> Result<(), AllocError>
    ensures { OnOk result (line.new.items ≡ line.old.items ++ comma any) }
{
    if any {
        line.push(b',')?;
    }
    Ok(())
}

/// Adds the object of a block, after a comma if it is not the first.
fn push_object(
    alloc: Global,
    line: &mut Vec<u8>,
    any: bool,
    number: u64,
    block: &Block,
) -> Result<(), AllocError>
    ensures { OnOk result (line.new.items ≡ line.old.items ++ one_more any number block.now) }
{
    let object = block_json(alloc, number, block)?;
    push_comma(line, any)?;
    line.extend_from_slice(&object)?;
    Ok(())
}

impl<'a> BlockObjects<'a> {
    /// The beginning of the line of a file.
    fn new(alloc: Global, file: &ListedFile<'a>) -> Result<BlockObjects<'a>, AllocError>
        ensures { IfOk result (λ objects. view_of objects ≡ begun_of file.now) }
    {
        let line = line_front(alloc, file.path, None)?;
        Ok(BlockObjects {
            names: file.names,
            line,
            any: false,
            number: 0,
        })
    }

    /// Takes a block.
    fn take(&mut self, alloc: Global, block: &Block) -> Result<(), AllocError>
        ensures { OnOk result (view_of self.new ≡ begun_after (view_of self.old) (metadata block.now)) }
    {
        let number = self.number;
        self.number = number.saturating_add(1);
        if !is_chosen(self.names, number, block) {
            return Ok(());
        }
        push_object(alloc, &mut self.line, self.any, number, block)?;
        self.any = true;
        Ok(())
    }
}

/// A sink that makes the line of a file. Its only failure is that an allocation fails.
#[derive(Drop)]
struct LineMaker<'a> {
    objects: BlockObjects<'a>,
    alloc: Global,
    failures: Failures,
}

impl<'a> LineMaker<'a> {
    /// A sink that has seen no block.
    fn new(alloc: Global, file: &ListedFile<'a>) -> Result<LineMaker<'a>, AllocError>
        ensures begun { IfOk result (λ maker. view_of maker.objects ≡ begun_of file.now) }
        ensures failures { IfOk result (λ maker. maker.failures.count ≡ 0) }
    {
        let objects = BlockObjects::new(alloc, file)?;
        Ok(LineMaker {
            objects,
            alloc,
            failures: Failures::new(),
        })
    }

    /// The line so far.
    fn into_line(self) -> Vec<u8>
        ensures { result ≡ self.entry.objects.line }
    {
        let LineMaker {
            objects,
            alloc: _,
            failures: _,
        } = self;
        let BlockObjects {
            names: _,
            line,
            any: _,
            number: _,
        } = objects;
        line
    }
}

impl<'a> Sink for LineMaker<'a> {
    ghost takes = { λ old item new. view_of new.objects ≡ begun_after (view_of old.objects) item };

    ghost known = { λ s. nat_lt s.failures.count 18446744073709551615 };

    ghost errors = { λ s. s.failures.count };

    ghost names = { λ _. [] };

    fn block(&mut self, block: &Block) -> Result<(), SinkFault> {
        match self.objects.take(self.alloc, block) {
            Ok(()) => Ok(()),
            Err(_) => self.failures.fail(),
        }
    }

    fn frame(&mut self, _frame: &FrameView<'_>) -> Result<(), SinkFault> {
        Ok(())
    }
}

/// The line with its end.
fn ended(alloc: Global, line: Vec<u8>) -> Result<Vec<u8>, AllocError>
    ensures { IfOk result (λ whole. whole.items ≡ line.items ++ line_end no_members) }
{
    let end = line_end(alloc, &[])?;
    let mut whole = line;
    whole.extend_from_slice(&end)?;
    Ok(whole)
}

/// Memory ran out at this place.
fn no_memory(at: Place) -> Fault
    ensures { result.why ≡ Why.Memory }
{
    Fault {
        at,
        why: Why::Memory,
    }
}

/// The line that was begun, with its end, after this outcome of reading.
///
/// # Errors
/// The fault of reading, whose sink fails only if an allocation does. Out of memory.
fn finished(alloc: Global, line: Vec<u8>, outcome: Result<(), Fault>) -> Result<Vec<u8>, Fault>
    ensures line { IfOk result (λ whole. (is_ok outcome ≡ true) × (whole.items ≡ line.items ++ line_end no_members)) }
    ensures fault { IfErr result (λ f. (f.why ≡ Why.Memory) ⊎ IsErrAnd outcome (λ e. f ≡ fault_by true e)) }
{
    match outcome {
        Ok(()) => match ended(alloc, line) {
            Ok(whole) => Ok(whole),
            Err(_) => Err(no_memory(Place::End)),
        },
        Err(fault) => Err(fault_of(fault)),
    }
}

/// Reads the blocks of a stream, and makes the line of its file.
///
/// # Errors
/// The place and the reason: the stream is refused before its last block; an error of the source, or out of memory.
fn line_of_head<R: Source>(
    alloc: Global,
    file: &ListedFile<'_>,
    source: &mut R,
) -> Result<Vec<u8>, Fault>
    ensures line { IfOk result (λ line. IsHeadLine R.Source file.now source.old line.items) }
    ensures refused { IfErr result (λ f. RefusesHeadLine R.Source source.old source.new f) }
{
    let mut maker = match LineMaker::new(alloc, file) {
        Ok(maker) => maker,
        Err(_) => return Err(no_memory(Place::Marker)),
    };
    let outcome = pass_head(alloc, source, &mut maker);
    finished(alloc, maker.into_line(), outcome)
}

/// Decodes a stream, and makes the line of its file.
///
/// # Errors
/// The place and the reason: the stream is refused; an error of the source, or out of memory.
fn line_of_stream<R: Source>(
    alloc: Global,
    file: &ListedFile<'_>,
    profile: Profile,
    source: &mut R,
) -> Result<Vec<u8>, Fault>
    ensures line { IfOk result (λ line. IsStreamLine R.Source profile file.now source.old source.new line.items) }
    ensures outcome { Tells R.Source source.old source.new → FitsStream R.Source profile source.old result }
{
    let mut maker = match LineMaker::new(alloc, file) {
        Ok(maker) => maker,
        Err(_) => return Err(no_memory(Place::Marker)),
    };
    let outcome = decode_stream(alloc, source, profile, &mut maker);
    finished(alloc, maker.into_line(), outcome)
}

/// Prints the line of a file. Returns the status: 0, or 1 if standard output does not take it. Then the line that says
/// so was written to `err`, if that could be written.
fn print_line<O: Target, E: Target>(path: &str, line: &[u8], out: &mut O, err: &mut E) -> u8
    ensures status { result ≤ 1 }
    ensures printed { result ≡ 0 → O.known out.old ≡ true → O.sent out.new ≡ O.sent out.old ++ line.now }
    ensures silent { result ≡ 0 → err.new ≡ err.old }
    ensures failed { result ≡ 1 → Serves O.Target out.old out.new → ⊥ }
    ensures named { result ≡ 1 → IfServed E.Target err.old err.new (IsReasonOf path.now) }
{
    match send_all(out, line) {
        Ok(()) => 0,
        Err(why) => refuse(err, path, None, why),
    }
}

/// Lists the metadata blocks of a stream, native or Ogg, as a line of JSON, and stops after the last block. No frame is
/// read, so none is verified. Returns the exit status: 0 if the marker and all blocks were read and the line was
/// printed, else 1.
///
/// The line has the path of the file that `source` is, and an object for each chosen block. `out` and `err` are
/// standard output and standard error. After status 1 the line of the fault was written to `err`, if that could be
/// written, and nothing to `out`, unless that failed.
pub fn json_head<R: Source, O: Target, E: Target>(
    alloc: Global,
    file: &ListedFile<'_>,
    source: &mut R,
    out: &mut O,
    err: &mut E,
) -> u8
    ensures status { result ≤ 1 }
    // After status 0 the input begins with the marker and blocks up to a last one, and exactly the line of these was
    // added to standard output.
    ensures listed { result ≡ 0 → PrintsHead R.Source O.Target file.now source.old out.old out.new }
    // After status 1 it is refused before that, and the line of this refusal was added to standard error, if no device
    // failed; or the line says that memory ran out.
    ensures refused { result ≡ 1 → RefusesHead R.Source O.Target E.Target file.now.path.now source out err }
    // After status 1 the line of a reason of this file was added, whatever failed.
    ensures named { result ≡ 1 → IfServed E.Target err.old err.new (IsReasonOf file.now.path.now) }
    // After status 1 nothing was added to standard output, if it did not fail.
    ensures unlisted { result ≡ 1 → IfServed O.Target out.old out.new IsSame }
    // After status 0 nothing was added to standard error.
    ensures silent { result ≡ 0 → err.new ≡ err.old }
{
    match line_of_head(alloc, file, source) {
        Ok(line) => print_line(file.path, &line, out, err),
        Err(fault) => refuse(err, file.path, Some(fault.at), fault.why),
    }
}

/// Decodes a stream, native or Ogg, and lists its metadata blocks as a line of JSON. Returns the exit status: 0 if all
/// of the stream was read and the line was printed, else 1.
///
/// The line has the path of the file that `source` is, and an object for each chosen block. With `lax` streams outside
/// the streamable subset (RFC 9639, section 7) are accepted too. `out` and `err` are standard output and standard
/// error. After status 1 the line of the fault was written to `err`, if that could be written, and nothing to `out`,
/// unless that failed.
pub fn json_stream<R: Source, O: Target, E: Target>(
    alloc: Global,
    file: &ListedFile<'_>,
    lax: bool,
    source: &mut R,
    out: &mut O,
    err: &mut E,
) -> u8
    ensures status { result ≤ 1 }
    // After status 0 the input is a stream, and exactly the line of its blocks was added to standard output.
    ensures listed { result ≡ 0 → PrintsBlocks R.Source O.Target lax file.now source.old source.new out.old out.new }
    // If no device fails, the status and the line on standard error say what the input is; or memory ran out: then the
    // line says that.
    ensures reported { ReportsRead R.Source O.Target E.Target (profile_of lax) file.now.path.now result source out err }
    // After status 1 the line of a reason of this file was added, whatever failed.
    ensures named { result ≡ 1 → IfServed E.Target err.old err.new (IsReasonOf file.now.path.now) }
    // After status 1 nothing was added to standard output, if it did not fail.
    ensures unlisted { result ≡ 1 → IfServed O.Target out.old out.new IsSame }
    // After status 0 nothing was added to standard error.
    ensures silent { result ≡ 0 → err.new ≡ err.old }
{
    match line_of_stream(alloc, file, profile_of(lax), source) {
        Ok(line) => print_line(file.path, &line, out, err),
        Err(fault) => refuse(err, file.path, Some(fault.at), fault.why),
    }
}
