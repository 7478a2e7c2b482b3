//! Streams whose writing fails: each call of a target in turn, and of the source that is retagged. What was written
//! before begins what a run without a fault gives.

use crate::reads::{NEVER, ONE_FRAME};
use flac_bits::{Collected, Counted, FailAt, Memory, Pieces, Target};
use flac_encoder::{OggEncoder, StreamEncoder};
use flac_frame::Audio;
use flac_meta::{Block, BlockList, Comments};
use flac_native::{EncodeFault, Place, Plan, RetagFault, Why, encode, retag};
use flac_ogg::encode_ogg;
use std::alloc::Global;
use std::io;
use std::io::Write;
use std::mem::drop;
use std::process::Abort;
use std::test::Fail;
use test_calls::{no_comments, number_of, sample};
use test_vectors::{EXAMPLE, EXAMPLE_TAGGED, ONE_SAMPLE, PAGES, PAGES_OF_PUSHES, TEN_THOUSAND};

/// A writer that takes one byte at a time.
#[derive(Drop)]
pub(crate) struct Trickle {
    bytes: Vec<u8>,
}

impl Trickle {
    /// A writer that has no bytes yet.
    pub(crate) fn new(alloc: Global) -> Trickle {
        Trickle {
            bytes: Vec::new(alloc),
        }
    }

    /// The bytes that it took.
    pub(crate) fn into_bytes(self) -> Vec<u8> {
        self.bytes
    }
}

impl Write for Trickle {
    fn write(&mut self, bytes: &[u8]) -> io::Result<usize> {
        self.bytes.write(bytes.get(..1).unwrap_or(&[]))
    }

    fn flush(&mut self) -> io::Result<()> {
        Ok(())
    }
}

/// What is written: samples by a plan, with further blocks, as a native stream or in pages.
#[derive(Clone, Copy)]
pub(crate) struct Written<'a> {
    pub(crate) audio: &'a Audio,
    pub(crate) plan: &'a Plan,
    pub(crate) list: &'a BlockList,
    pub(crate) ogg: bool,
}

/// Writes a stream, if the plan fits the samples.
pub(crate) fn write<W: Target>(
    alloc: Global,
    written: &Written<'_>,
    target: &mut W,
) -> Result<(), EncodeFault> {
    let (plan, list, audio) = (written.plan, written.list, written.audio);
    if !plan.fits(audio) {
        Err(EncodeFault::Spent)
    } else if written.ogg {
        encode_ogg(alloc, 1, plan, list, audio, target)
    } else {
        encode(alloc, plan, list, audio, target)
    }
}

/// Writes a stream to a target that takes a byte at a time, of which a call fails: the outcome, the bytes that were
/// written, and how often the target was called.
fn trickled(
    alloc: Global,
    written: &Written<'_>,
    at: u64,
) -> (Result<(), EncodeFault>, Vec<u8>, u64) {
    let mut target = FailAt::new(Counted::new(Trickle::new(alloc)), at);
    let outcome = write(alloc, written, &mut target);
    let calls = target.calls();
    (
        outcome,
        target.into_inner().into_inner().into_bytes(),
        calls,
    )
}

/// The whole stream is written, by as many calls as it has bytes.
fn write_succeeds(rt: &impl Abort, alloc: Global, written: &Written<'_>, wanted: &[u8]) {
    let (outcome, bytes, calls) = trickled(alloc, written, NEVER);
    assert!(rt; outcome == Ok(()) && calls == wanted.len() as u64);
    assert!(rt; bytes.as_slice() == wanted);
}

/// The byte of this number is not written: just those before were.
fn write_fails(rt: &impl Abort, alloc: Global, written: &Written<'_>, wanted: &[u8], n: usize) {
    let (outcome, bytes, _) = trickled(alloc, written, n as u64);
    assert!(rt; outcome == Err(EncodeFault::Write), "byte {n}");
    assert!(rt; is_front(&bytes, wanted, n), "byte {n}");
}

/// Whether some bytes are the first `n` of others.
pub(crate) fn is_front(bytes: &[u8], all: &[u8], n: usize) -> bool {
    bytes == all.get(..n).unwrap_or(&[])
}

/// Each byte that is written fails in turn.
pub(crate) fn each_write_fails(
    rt: &impl Abort,
    alloc: Global,
    written: &Written<'_>,
    wanted: &[u8],
) {
    write_succeeds(rt, alloc, written, wanted);
    for n in 0..wanted.len() {
        write_fails(rt, alloc, written, wanted, n);
    }
}

/// Writes samples in blocks of 4096 as a native stream, with a seek point every n samples.
fn each_native_write_fails(
    rt: &impl Abort,
    alloc: Global,
    audio: &Audio,
    every: u32,
    wanted: &str,
) -> Result<(), Fail> {
    let wanted = hex::decode(alloc, wanted)?;
    let plan = Plan::new_in(audio.profile(), 4096, audio, every)?;
    let list = BlockList::new(Vec::new(alloc))?;
    let written = Written {
        audio,
        plan: &plan,
        list: &list,
        ogg: false,
    };
    each_write_fails(rt, alloc, &written, &wanted);
    Ok(())
}

/// Writes samples in pages, with a comment block.
fn each_page_write_fails(
    rt: &impl Abort,
    alloc: Global,
    audio: &Audio,
    wanted: &str,
) -> Result<(), Fail> {
    let wanted = hex::decode(alloc, wanted)?;
    let plan = Plan::new_in(audio.profile(), 4096, audio, 0)?;
    let list = no_comments(alloc)?;
    let written = Written {
        audio,
        plan: &plan,
        list: &list,
        ogg: true,
    };
    each_write_fails(rt, alloc, &written, &wanted);
    Ok(())
}

/// One sample of two channels: as a native stream, and in pages.
#[test]
fn writes_fail(rt: HostRuntime) -> Result<(), Fail> {
    let audio = sample(rt.alloc())?;
    each_native_write_fails(&rt, rt.alloc(), &audio, 0, ONE_SAMPLE)?;
    each_page_write_fails(&rt, rt.alloc(), &audio, PAGES)
}

#[test]
fn writes_of_three_frames_fail(rt: HostRuntime) -> Result<(), Fail> {
    let samples = vec![in rt.alloc(); (0..10000).collect(rt.alloc())?]?;
    let audio = Audio::new(44100, 16, samples)?;
    each_native_write_fails(&rt, rt.alloc(), &audio, 1000, TEN_THOUSAND)
}

/// What is answered by the making of an encoder, by each of three pushes, and by its end; 0 is no fault, and 255 that
/// it was not asked.
type Answers = [u8; 5];

/// Pushes the samples from a place on, 4096 at most.
fn push_from<W: Target + Drop>(encoder: &mut StreamEncoder<W>, samples: &[i32], from: usize) -> u8 {
    let rest = samples.get(from..).unwrap_or(&[]);
    let block = rest.get(..4096).unwrap_or(rest);
    number_of(encoder.push(&[block]))
}

/// Pushes samples in blocks of 4096, and ends.
fn push_and_end<W: Target + Drop>(encoder: StreamEncoder<W>, samples: &[i32]) -> Answers {
    let mut encoder = encoder;
    let first = push_from(&mut encoder, samples, 0);
    let second = push_from(&mut encoder, samples, 4096);
    let third = push_from(&mut encoder, samples, 8192);
    let end = match encoder.finish() {
        Ok(target) => {
            drop(target);
            0
        }
        Err(fault) => fault.number(),
    };
    [0, first, second, third, end]
}

/// Makes an encoder of one channel without further blocks, pushes samples, and ends it.
fn pushed<W: Target + Drop>(
    alloc: Global,
    list: &BlockList,
    samples: &[i32],
    target: W,
) -> Answers {
    match StreamEncoder::new(alloc, 44100, 16, 1, 4096, list, target) {
        Ok(encoder) => push_and_end(encoder, samples),
        Err(fault) => [fault.number(), 255, 255, 255, 255],
    }
}

/// Pushes samples to a target that takes a byte at a time, of which a call fails: the answers, and the bytes that were
/// written.
fn push_trickled(alloc: Global, list: &BlockList, samples: &[i32], at: u64) -> (Answers, Vec<u8>) {
    let mut target = FailAt::new(Counted::new(Trickle::new(alloc)), at);
    let answers = pushed(alloc, list, samples, &mut target);
    (answers, target.into_inner().into_inner().into_bytes())
}

/// What an encoder answers where the byte of this number is not written, which the stream has in its first 42 bytes, or
/// in frames of 15, 15 and 17 bytes.
fn wanted_answers(byte: usize) -> Answers {
    if byte < 42 {
        [39, 255, 255, 255, 255]
    } else if byte < 57 {
        [0, 39, 38, 38, 38]
    } else if byte < 72 {
        [0, 0, 39, 38, 38]
    } else if byte < 89 {
        [0, 0, 0, 39, 38]
    } else {
        [0; 5]
    }
}

/// The marker and STREAMINFO of one channel in blocks of 4096, total and digest unknown; and the frames of 10000
/// samples after it.
fn ten_thousand_pushed(alloc: Global) -> Result<Vec<u8>, Fail> {
    let head = "664c61438000002210001000000000000000\
        0ac440f00000000000000000000000000000000000000000";
    let mut stream = hex::decode(alloc, head)?;
    let other = hex::decode(alloc, TEN_THOUSAND)?;
    stream.extend_from_slice(other.get(100..).unwrap_or(&[]))?;
    Ok(stream)
}

/// The byte of this number is not written, if the stream has as many.
fn push_fails(
    rt: &impl Abort,
    alloc: Global,
    list: &BlockList,
    samples: &[i32],
    wanted: &[u8],
    n: usize,
) {
    let (answers, bytes) = push_trickled(alloc, list, samples, n as u64);
    assert!(rt; answers == wanted_answers(n), "byte {n}");
    assert!(rt; is_front(&bytes, wanted, n.min(89)), "byte {n}");
}

/// Each byte that is written of these samples fails in turn.
fn each_push_fails(
    rt: &impl Abort,
    alloc: Global,
    list: &BlockList,
    samples: &[i32],
    wanted: &[u8],
) {
    assert!(rt; wanted.len() == 89);
    for n in 0..90 {
        push_fails(rt, alloc, list, samples, wanted, n);
    }
}

/// Each byte that an encoder writes of what is pushed fails in turn. Then it is spent.
#[test]
fn pushes_fail(rt: HostRuntime) -> Result<(), Fail> {
    let samples: Vec<i32> = (0..10000).collect(rt.alloc())?;
    let wanted = ten_thousand_pushed(rt.alloc())?;
    let list = BlockList::new(Vec::new(rt.alloc()))?;
    each_push_fails(&rt, rt.alloc(), &list, &samples, &wanted);
    Ok(())
}

/// Writes a stream into memory, where a call of the target fails: the number of the fault, 0 if there is none, the
/// bytes that were written, and how often the target was called.
fn written_whole(alloc: Global, written: &Written<'_>, at: u64) -> (u8, Vec<u8>, u64) {
    let mut target = FailAt::new(Collected::new(alloc), at);
    let outcome = write(alloc, written, &mut target);
    let calls = target.calls();
    (number_of(outcome), target.into_inner().into_bytes(), calls)
}

/// The same of samples of one channel that are pushed, with further blocks: the number of the first fault.
fn pushed_whole(alloc: Global, list: &BlockList, samples: &[i32], at: u64) -> (u8, Vec<u8>, u64) {
    let mut target = FailAt::new(Collected::new(alloc), at);
    let [made, first, ..] = pushed(alloc, list, samples, &mut target);
    let calls = target.calls();
    let number = if made == 0 { first } else { made };
    (number, target.into_inner().into_bytes(), calls)
}

/// A call of this number failed, and no other was made: just what the calls before took was written, which of the
/// blocks are 16384 bytes each.
fn stops_there(rt: &impl Abort, outcome: &(u8, Vec<u8>, u64), whole: &[u8], n: u64) {
    let (number, bytes, calls) = outcome;
    let front = (n as usize).saturating_mul(16384).min(36046);
    assert!(rt; *number == 39 && *calls == n.saturating_add(1), "call {n}");
    assert!(rt; is_front(bytes, whole, front), "call {n}");
}

/// The stream of one sample, with 36000 bytes of padding after STREAMINFO, which is then not the last block.
fn padded(alloc: Global) -> Result<Vec<u8>, Fail> {
    let stream = hex::decode(alloc, ONE_SAMPLE)?;
    let (head, frame) = stream.split_at(stream.len().min(42));
    let mut bytes = Vec::from_slice(alloc, head)?;
    if bytes.len() > 4 {
        bytes[4] = 0;
    }
    bytes.extend_from_slice(&[0x81, 0x00, 0x8C, 0xA0])?;
    bytes.extend_from_slice(&vec![in alloc; 0u8; 36000]?)?;
    bytes.extend_from_slice(frame)?;
    Ok(bytes)
}

/// The samples and a block of 36000 bytes, which are written by three calls, the last with the frame.
fn each_call_fails(rt: &impl Abort, alloc: Global, written: &Written<'_>, wanted: &[u8]) {
    let (number, whole, calls) = written_whole(alloc, written, NEVER);
    assert!(rt; number == 0 && calls == 3 && whole.as_slice() == wanted);
    for n in 0..3 {
        stops_there(rt, &written_whole(alloc, written, n), wanted, n);
    }
}

/// The same of one sample that is pushed: three calls for what comes before the frame, and one for the frame.
fn each_call_of_pushing_fails(rt: &impl Abort, alloc: Global, list: &BlockList) {
    let samples = [25588];
    let (number, whole, calls) = pushed_whole(alloc, list, &samples, NEVER);
    assert!(rt; number == 0 && calls == 4);
    for n in 0..4 {
        stops_there(rt, &pushed_whole(alloc, list, &samples, n), &whole, n);
    }
}

/// A block that is longer than what is held before it is sent: each call of the target fails in turn.
#[test]
fn writes_of_a_long_block_fail(rt: HostRuntime) -> Result<(), Fail> {
    let audio = sample(rt.alloc())?;
    let plan = Plan::new_in(audio.profile(), 4096, &audio, 0)?;
    let list = BlockList::new(vec![in rt.alloc(); Block::Padding(36000)]?)?;
    let written = Written {
        audio: &audio,
        plan: &plan,
        list: &list,
        ogg: false,
    };
    let wanted = padded(rt.alloc())?;
    each_call_fails(&rt, rt.alloc(), &written, &wanted);
    each_call_of_pushing_fails(&rt, rt.alloc(), &list);
    Ok(())
}

/// What is answered by the making of an Ogg encoder, by one push, and by its end; 0 is no fault, and 255 that it was
/// not asked.
type PageAnswers = [u8; 3];

/// Pushes one sample of two channels, and ends.
fn push_page_and_end<W: Target + Drop>(encoder: OggEncoder<W>) -> PageAnswers {
    let mut encoder = encoder;
    let (left, right) = ([25588], [10416]);
    let pushed = number_of(encoder.push(&[left.as_slice(), right.as_slice()]));
    let end = match encoder.finish() {
        Ok(target) => {
            drop(target);
            0
        }
        Err(fault) => fault.number(),
    };
    [0, pushed, end]
}

/// Makes an Ogg encoder of two channels with some blocks, pushes one sample, and ends it.
fn pushed_pages<W: Target + Drop>(alloc: Global, list: &BlockList, target: W) -> PageAnswers {
    match OggEncoder::new(alloc, 1, 44100, 16, 2, 4096, list, target) {
        Ok(encoder) => push_page_and_end(encoder),
        Err(fault) => [fault.number(), 255, 255],
    }
}

/// Pushes to a target that takes a byte at a time, of which a call fails: the answers, and the bytes that were written.
fn pages_trickled(alloc: Global, list: &BlockList, at: u64) -> (PageAnswers, Vec<u8>) {
    let mut target = FailAt::new(Counted::new(Trickle::new(alloc)), at);
    let answers = pushed_pages(alloc, list, &mut target);
    (answers, target.into_inner().into_inner().into_bytes())
}

/// What an Ogg encoder answers where the byte of this number is not written. Of the pages of 79, 40 and 43 bytes the
/// one that was made last is held back, so that a push writes the page before it, and the end the last one.
fn wanted_page_answers(byte: usize) -> PageAnswers {
    if byte < 79 {
        [39, 255, 255]
    } else if byte < 119 {
        [0, 39, 38]
    } else if byte < 162 {
        [0, 0, 39]
    } else {
        [0; 3]
    }
}

/// The byte of this number is not written, if the pages have as many.
fn page_fails(rt: &impl Abort, alloc: Global, list: &BlockList, wanted: &[u8], n: usize) {
    let (answers, bytes) = pages_trickled(alloc, list, n as u64);
    assert!(rt; answers == wanted_page_answers(n), "byte {n}");
    assert!(rt; is_front(&bytes, wanted, n.min(162)), "byte {n}");
}

/// Each byte that an Ogg encoder writes of what is pushed fails in turn. Then it is spent.
#[test]
fn pushed_pages_fail(rt: HostRuntime) -> Result<(), Fail> {
    let wanted = hex::decode(rt.alloc(), PAGES_OF_PUSHES)?;
    let list = no_comments(rt.alloc())?;
    assert!(rt; wanted.len() == 162);
    for n in 0..163 {
        page_fails(&rt, rt.alloc(), &list, &wanted, n);
    }
    Ok(())
}

/// The comment TITLE=x.
fn title(alloc: Global) -> Result<Comments, Fail> {
    let mut comments = Comments::new(alloc, b"flac profile 1")?;
    comments.push(alloc, b"TITLE", b"x")?;
    Ok(comments)
}

/// What came of setting a comment: the outcome, the bytes that were written, and how often the source and the target
/// were called.
type Retagged = (Result<(), RetagFault>, Vec<u8>, u64, u64);

/// A stream, comments, and the stream with these comments.
#[derive(Clone, Copy)]
struct Tagging<'a> {
    stream: &'a [u8],
    comments: &'a Comments,
    wanted: &'a [u8],
}

/// Sets the comments in pieces of n bytes, where a call of the source fails, or one of the target, which takes a
/// byte at a time.
fn retagged(
    alloc: Global,
    tagging: &Tagging<'_>,
    most: usize,
    source_at: u64,
    target_at: u64,
) -> Retagged {
    let pieces = Pieces::new(Memory::new(tagging.stream), most.max(1));
    let mut source = FailAt::new(pieces, source_at);
    let mut target = FailAt::new(Counted::new(Trickle::new(alloc)), target_at);
    let outcome = retag(alloc, &mut source, tagging.comments, &mut target);
    let (asked, sent) = (source.calls(), target.calls());
    let bytes = target.into_inner().into_inner().into_bytes();
    (outcome, bytes, asked, sent)
}

/// The place where the source fails that is asked for the byte of this number. What is after the blocks is not judged.
fn retag_place(byte: usize) -> Place {
    ONE_FRAME.part_place(ONE_FRAME.whole_before(byte).min(2))
}

/// How often the source is called: for each piece of the 57 bytes, and once at the end.
fn calls_of_copying(rt: &impl Abort, alloc: Global, tagging: &Tagging<'_>, most: usize) -> u64 {
    let (outcome, bytes, calls, _) = retagged(alloc, tagging, most, NEVER, NEVER);
    assert!(rt; outcome == Ok(()) && bytes.as_slice() == tagging.wanted);
    assert!(rt; calls == (57usize.div_ceil(most.max(1)) as u64).saturating_add(1));
    calls
}

/// Whether these bytes are written if the source fails that is asked for the byte of this number: within the blocks
/// nothing, and after them a beginning, the blocks at least.
fn may_be_written(bytes: &[u8], wanted: &[u8], byte: usize) -> bool {
    wanted.starts_with(bytes)
        && if byte < 42 {
            bytes.is_empty()
        } else {
            bytes.len() >= 79
        }
}

/// This call of the source fails.
fn copied_read_fails(rt: &impl Abort, alloc: Global, tagging: &Tagging<'_>, most: usize, n: u64) {
    let (outcome, bytes, _, _) = retagged(alloc, tagging, most, n, NEVER);
    let byte = (n as usize).saturating_mul(most);
    let (at, why) = (Some(retag_place(byte)), Why::Read);
    assert!(rt; outcome == Err(RetagFault { at, why }), "call {n}");
    assert!(rt; may_be_written(&bytes, tagging.wanted, byte), "call {n}");
}

/// Each call of the source fails in turn.
fn each_copied_read_fails(rt: &impl Abort, alloc: Global, tagging: &Tagging<'_>, most: usize) {
    let calls = calls_of_copying(rt, alloc, tagging, most);
    for n in 0..calls {
        copied_read_fails(rt, alloc, tagging, most, n);
    }
}

/// The byte of this number is not written: just those before were.
fn copied_write_fails(rt: &impl Abort, alloc: Global, tagging: &Tagging<'_>, n: usize) {
    let (outcome, bytes, _, _) = retagged(alloc, tagging, 4096, NEVER, n as u64);
    let (at, why) = (None, Why::Write);
    assert!(rt; outcome == Err(RetagFault { at, why }), "byte {n}");
    assert!(rt; is_front(&bytes, tagging.wanted, n), "byte {n}");
}

/// Each byte that is written fails in turn.
fn each_copied_write_fails(rt: &impl Abort, alloc: Global, tagging: &Tagging<'_>) {
    let (_, _, _, calls) = retagged(alloc, tagging, 4096, NEVER, NEVER);
    assert!(rt; calls == 94 && tagging.wanted.len() == 94);
    for n in 0..94 {
        copied_write_fails(rt, alloc, tagging, n);
    }
}

/// Each call of the source fails in turn, in pieces of several sizes, and each byte that is written.
fn each_call_of_copying_fails(rt: &impl Abort, alloc: Global, tagging: &Tagging<'_>) {
    for most in [1, 2, 3, 4096] {
        each_copied_read_fails(rt, alloc, tagging, most);
    }
    each_copied_write_fails(rt, alloc, tagging);
}

#[test]
fn retagging_fails(rt: HostRuntime) -> Result<(), Fail> {
    let stream = hex::decode(rt.alloc(), EXAMPLE)?;
    let wanted = hex::decode(rt.alloc(), EXAMPLE_TAGGED)?;
    let comments = title(rt.alloc())?;
    let tagging = Tagging {
        stream: &stream,
        comments: &comments,
        wanted: &wanted,
    };
    each_call_of_copying_fails(&rt, rt.alloc(), &tagging);
    Ok(())
}
