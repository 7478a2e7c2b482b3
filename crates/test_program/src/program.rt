//! The program over memory, by tables of text.

use crate::tables::{
    CHANGES, COME_BACK, ENCODINGS, JOBS, LAST_BYTE, LAX, LISTS, NATIVE, OGG, PIECES, PREDICTED,
    PREFIXES, RECODED, REPLACED, RETAGGINGS, SWEPT, WAVES,
};
use flac_bits::{Collected, Counted, Memory, Pieces, Source, Target};
use flac_cli::{ContainerKind, Job, LineFault, RawFormat, SearchEffort, Task, run};
use flac_files::{may_replace, may_replace_recoded};
use flac_jobs::Request;
use flac_words::{command_line, given_words, job, request};
use std::alloc::Global;
use std::borrow::CowStr;
use std::io;
use std::io::{ErrorKind, Write};
use std::process::Abort;
use std::test::Fail;
use test_vectors::{
    ALTERNATING, EXAMPLE, EXAMPLE_INFO, EXAMPLE_TAGGED, LEFT_SIDE, NO_SAMPLES, ONE_SAMPLE, PAGES,
    RISING_ALONE, SILENT_ALONE, TWO_INFOS, append_word,
};

pub(crate) const TEST: Job<'static> = Job::Test {
    input: "a.flac",
    lax: false,
};

const DECODE: Job<'static> = Job::Decode {
    input: "a.flac",
    output: "a.raw",
    lax: false,
};

const LIST: Job<'static> = Job::List {
    input: "a.flac",
    lax: false,
};

/// The status of a command, and what it wrote to its file, to standard output and to standard error.
#[derive(Drop)]
pub(crate) struct Outcome {
    pub(crate) status: u8,
    pub(crate) file: Vec<u8>,
    pub(crate) out: Vec<u8>,
    pub(crate) err: Vec<u8>,
}

impl Outcome {
    /// Whether this status and just these bytes came of it.
    pub(crate) fn is(&self, status: u8, file: &[u8], out: &str, err: &str) -> bool {
        self.status == status
            && self.file.as_slice() == file
            && self.out.as_slice() == out.as_bytes()
            && self.err.as_slice() == err.as_bytes()
    }

    /// Whether the same came of another command.
    pub(crate) fn equals(&self, other: &Outcome) -> bool {
        self.status == other.status
            && self.file.as_slice() == other.file.as_slice()
            && self.out.as_slice() == other.out.as_slice()
            && self.err.as_slice() == other.err.as_slice()
    }

    /// Whether a stream was accepted, and none of the two where just the line of counts or of a fault is not what came
    /// of it.
    pub(crate) fn is_accepted(&self) -> Option<bool> {
        if self.status == 0 && self.err.is_empty() && is_counts(line_in(&self.out, "")) {
            Some(true)
        } else if self.status == 1
            && self.out.is_empty()
            && is_fault(line_in(&self.err, "flac: a.flac: "))
        {
            Some(false)
        } else {
            None
        }
    }

    /// Whether the line of counts, or that of a fault of `a.flac`, is all that came of it.
    fn is_line(&self, line: &str) -> bool {
        let (status, front, text, other) = if line.starts_with("frames ") {
            (0, "", &self.out, &self.err)
        } else {
            (1, "flac: a.flac: ", &self.err, &self.out)
        };
        self.status == status
            && self.file.is_empty()
            && other.is_empty()
            && has_line(text.as_slice(), front, line)
    }
}

/// Whether these bytes are this text, a line and its end.
fn has_line(bytes: &[u8], front: &str, line: &str) -> bool {
    let rest = bytes.strip_prefix(front.as_bytes());
    let rest = rest.unwrap_or(&[]).strip_suffix(b"\n");
    rest == Some(line.as_bytes())
}

/// The one line that these bytes are, after this front; nothing where they are no such line.
fn line_in<'a>(bytes: &'a [u8], front: &str) -> &'a str {
    let rest = bytes.strip_prefix(front.as_bytes()).unwrap_or(&[]);
    let line = rest.strip_suffix(b"\n").unwrap_or(&[]);
    str::from_utf8(line).unwrap_or("")
}

/// Whether a text is a number.
fn is_number(text: &str) -> bool {
    text.parse::<u64>().is_ok()
}

/// Whether a line tells counts: `frames 1 samples 16`.
fn is_counts(line: &str) -> bool {
    let (frames, samples) = line.split_once(" samples ").unwrap_or(("", ""));
    is_number(frames.strip_prefix("frames ").unwrap_or("")) && is_number(samples)
}

/// Whether a text is the place of a fault.
fn is_place(place: &str) -> bool {
    let (name, index) = place.split_once(' ').unwrap_or((place, "0"));
    is_number(index)
        && if index == "0" && !place.ends_with(" 0") {
            name == "marker" || name == "end"
        } else {
            name == "block" || name == "frame" || name == "page"
        }
}

/// Whether a line tells a fault: `frame 3: 26 FrameCheck`.
fn is_fault(line: &str) -> bool {
    let (place, reason) = line.split_once(": ").unwrap_or(("", ""));
    let (number, name) = reason.split_once(' ').unwrap_or(("", ""));
    is_place(place) && is_number(number) && !name.is_empty() && !name.contains(' ')
}

/// The hex digits of the stream or the piece of this name, or else the word itself.
fn digits_of<'a>(word: &'a str) -> &'a str {
    match word {
        "EXAMPLE" => EXAMPLE,
        "EXAMPLE_INFO" => EXAMPLE_INFO,
        "EXAMPLE_TAGGED" => EXAMPLE_TAGGED,
        "TWO_INFOS" => TWO_INFOS,
        "ONE_SAMPLE" => ONE_SAMPLE,
        "NO_SAMPLES" => NO_SAMPLES,
        "RISING_ALONE" => RISING_ALONE,
        "SILENT_ALONE" => SILENT_ALONE,
        "ALTERNATING" => ALTERNATING,
        "LEFT_SIDE" => LEFT_SIDE,
        "PAGES" => PAGES,
        _ => piece_of(word),
    }
}

/// The hex digits of the piece of this name, or else the word itself.
fn piece_of<'a>(word: &'a str) -> &'a str {
    for line in PIECES.lines() {
        if let Some((name, digits)) = line.split_once(' ') {
            if name == word {
                return digits;
            }
        }
    }
    word
}

/// The bytes of some words: each is the name of a stream or of a piece, or hex digits, `DIGITS*COUNT` that often.
pub(crate) fn bytes_of(alloc: Global, words: &str) -> Result<Vec<u8>, Fail> {
    let mut bytes = Vec::new(alloc);
    for word in words.split_whitespace() {
        append_word(alloc, &mut bytes, digits_of(word))?;
    }
    Ok(bytes)
}

/// The lines of a text, each of which ends at a `;`.
fn lines_of(alloc: Global, text: &str) -> Result<String, Fail> {
    Ok(text.replace(alloc, ';', "\n")?)
}

/// The words of a command line, the program's name first.
pub(crate) fn words_of(alloc: Global, line: &str) -> Result<Vec<String>, Fail> {
    let mut words = Vec::new(alloc);
    for word in line.split_whitespace() {
        words.push(String::from_str(alloc, word)?)?;
    }
    Ok(words)
}

/// Does a job over devices, with the fault's line in memory.
fn run_on<R: Source, W: Target, O: Target>(
    alloc: Global,
    task: &Task<'_>,
    source: &mut R,
    file: &mut W,
    out: &mut O,
    err: &mut Collected,
) -> u8 {
    run(alloc, task, source, file, out, err)
}

/// Does a job without a list over memory, which gives at most `most` bytes at once.
pub(crate) fn perform(alloc: Global, job: &Job<'_>, input: &[u8], most: usize) -> Outcome {
    perform_with(alloc, job, &[], input, most)
}

/// Does a job whose list has this text over memory, which gives at most `most` bytes at once.
pub(crate) fn perform_with(
    alloc: Global,
    job: &Job<'_>,
    list: &[u8],
    input: &[u8],
    most: usize,
) -> Outcome {
    let mut source = Pieces::new(Memory::new(input), most.max(1));
    perform_task(alloc, &Task { job, list }, &mut source)
}

/// Does a job without a list on a source, and keeps in memory all that it writes.
pub(crate) fn perform_on<R: Source>(alloc: Global, job: &Job<'_>, source: &mut R) -> Outcome {
    perform_task(alloc, &Task { job, list: &[] }, source)
}

/// Does a job on a source, and keeps in memory all that it writes.
fn perform_task<R: Source>(alloc: Global, task: &Task<'_>, source: &mut R) -> Outcome {
    let mut file = Collected::new(alloc);
    let mut out = Collected::new(alloc);
    let mut err = Collected::new(alloc);
    let status = run_on(alloc, task, source, &mut file, &mut out, &mut err);
    Outcome {
        status,
        file: file.into_bytes(),
        out: out.into_bytes(),
        err: err.into_bytes(),
    }
}

/// Does the job of a command line, whose list has this text, over memory; the status is 2 if its words are refused.
fn commanded(
    alloc: Global,
    line: &str,
    list: &[u8],
    input: &[u8],
    most: usize,
) -> Result<Outcome, Fail> {
    let words = words_of(alloc, line)?;
    match job(alloc, words.as_slice()) {
        Ok(job) => Ok(perform_with(alloc, &job, list, input, most)),
        Err(_) => Ok(Outcome {
            status: 2,
            file: Vec::new(alloc),
            out: Vec::new(alloc),
            err: Vec::new(alloc),
        }),
    }
}

/// What a row wants: a status, and the contents of the file, of standard output and of standard error.
pub(crate) fn wanted_of(alloc: Global, answer: &str) -> Result<Outcome, Fail> {
    let mut fields = answer.split(" | ");
    let status = fields.next().unwrap_or("").parse::<u8>()?;
    let file = bytes_of(alloc, fields.next().unwrap_or(""))?;
    let out = lines_of(alloc, fields.next().unwrap_or(""))?.into_bytes();
    let err = lines_of(alloc, fields.next().unwrap_or(""))?.into_bytes();
    Ok(Outcome {
        status,
        file,
        out,
        err,
    })
}

/// Whether a command comes to what is wanted, on an input that comes in pieces of 1, 2, 3 and 4096 bytes.
fn comes_to(
    alloc: Global,
    command: &str,
    list: &[u8],
    input: &[u8],
    wanted: &Outcome,
) -> Result<bool, Fail> {
    let line = format!(in alloc; "flac {command}")?;
    let mut same = true;
    for most in [1, 2, 3, 4096] {
        let found = commanded(alloc, &line, list, input, most)?;
        same = same && found.equals(wanted);
    }
    Ok(same)
}

/// The part of a row before the next bar, and the rest.
pub(crate) fn split_row<'a>(row: &'a str) -> (&'a str, &'a str) {
    row.split_once(" | ").unwrap_or((row, ""))
}

/// Whether the command of a row comes to what the row wants.
fn row_holds(alloc: Global, row: &str) -> Result<bool, Fail> {
    let (command, rest) = split_row(row);
    let (words, answer) = split_row(rest);
    let input = bytes_of(alloc, words)?;
    let wanted = wanted_of(alloc, answer)?;
    comes_to(alloc, command, &[], &input, &wanted)
}

/// Whether an encoding with the options and the list of a row comes to what the row wants.
fn predicted_holds(alloc: Global, input: &[u8], row: &str) -> Result<bool, Fail> {
    let (options, rest) = split_row(row);
    let (list, answer) = split_row(rest);
    let command = format!(in alloc;
        "encode a.raw a.flac --rate 44100 --channels 1 --bits 16 {options}"
    )?;
    let list = lines_of(alloc, list)?;
    let wanted = wanted_of(alloc, answer)?;
    comes_to(alloc, &command, list.as_bytes(), input, &wanted)
}

/// Checks each row of a table but those that begin with `#`.
fn check_table(rt: &impl Abort, alloc: Global, table: &str) -> Result<(), Fail> {
    for row in table.lines() {
        if !row.starts_with('#') {
            assert!(rt; row_holds(alloc, row)?, "{row}");
        }
    }
    Ok(())
}

#[test]
fn native(rt: HostRuntime) -> Result<(), Fail> {
    check_table(&rt, rt.alloc(), NATIVE)
}

#[test]
fn lists(rt: HostRuntime) -> Result<(), Fail> {
    check_table(&rt, rt.alloc(), LISTS)
}

#[test]
fn encodings(rt: HostRuntime) -> Result<(), Fail> {
    check_table(&rt, rt.alloc(), ENCODINGS)
}

#[test]
fn outside_the_subset(rt: HostRuntime) -> Result<(), Fail> {
    check_table(&rt, rt.alloc(), LAX)
}

#[test]
fn with_lists(rt: HostRuntime) -> Result<(), Fail> {
    let input = bytes_of(rt.alloc(), "e90317fc*8")?;
    for row in PREDICTED.lines() {
        if !row.starts_with('#') {
            assert!(rt; predicted_holds(rt.alloc(), &input, row)?, "{row}");
        }
    }
    Ok(())
}

/// What comes of an encoding with a list of as many equal lines, and one more.
fn many_lines(alloc: Global, count: usize, last: &str) -> Result<Outcome, Fail> {
    let mut list = String::new(alloc);
    for _ in 0..count {
        list.push_str("1 0 -1\n")?;
    }
    list.push_str(last)?;
    let input = bytes_of(alloc, "e90317fc*8")?;
    let line =
        "flac encode a.raw a.flac --rate 44100 --channels 1 --bits 16 --block 16 --predictors a.txt";
    commanded(alloc, line, list.as_bytes(), &input, 4096)
}

/// 64 predictors are taken. One more is refused, also if its order is too large, and after the samples.
#[test]
fn too_many_predictors(rt: HostRuntime) -> Result<(), Fail> {
    let alloc = rt.alloc();
    let wanted = bytes_of(alloc, "PREDICTED COMMENTS PREDICTED_FRAME")?;
    let line = "flac: a.txt: 52 TooManyPredictors\n";
    assert!(rt; many_lines(alloc, 63, "1 0 -1")?.is(0, &wanted, "", ""));
    assert!(rt; many_lines(alloc, 64, "# none")?.is(0, &wanted, "", ""));
    assert!(rt; many_lines(alloc, 64, "1 0 -1")?.is(1, &[], "", line));
    assert!(rt; many_lines(alloc, 64, "1 0 0 0 0 0 0 0 0 0 0 0 0 0 0")?.is(1, &[], "", line));
    Ok(())
}

#[test]
fn retaggings(rt: HostRuntime) -> Result<(), Fail> {
    check_table(&rt, rt.alloc(), RETAGGINGS)
}

/// Decoding to a WAV file: a plain one, or the one that is kept.
#[test]
fn waves(rt: HostRuntime) -> Result<(), Fail> {
    check_table(&rt, rt.alloc(), WAVES)
}

#[test]
fn ogg(rt: HostRuntime) -> Result<(), Fail> {
    check_table(&rt, rt.alloc(), OGG)
}

/// `test` answers a stream by the line of its counts, or refuses it by the line of a fault.
pub(crate) fn answers(rt: &impl Abort, alloc: Global, input: &[u8], line: &str) {
    let found = perform(alloc, &TEST, input, 4096);
    assert!(rt; found.is_line(line), "at {line}");
}

/// A stream is refused by this line, and without its last byte in the same item, since the input ends.
fn check_last_byte(rt: &impl Abort, alloc: Global, words: &str, line: &str) -> Result<(), Fail> {
    let input = bytes_of(alloc, words)?;
    answers(rt, alloc, &input, line);
    let (place, _) = line.split_once(": ").unwrap_or((line, ""));
    let short = format!(in alloc; "{place}: 3 Truncated")?;
    let count = input.len().saturating_sub(1);
    answers(rt, alloc, input.get(..count).unwrap_or(&[]), &short);
    Ok(())
}

/// Each refusal needs the last byte that was given: without it the input ends too early, in the same item.
#[test]
fn refused_at_the_last_byte(rt: HostRuntime) -> Result<(), Fail> {
    for row in LAST_BYTE.lines() {
        if let Some((words, line)) = row.split_once(" | ") {
            check_last_byte(&rt, rt.alloc(), words, line)?;
        }
    }
    Ok(())
}

/// The two numbers of a range.
pub(crate) fn range_of(words: &str) -> Result<(usize, usize), Fail> {
    let (from, to) = words.split_once(' ').unwrap_or(("", ""));
    Ok((from.parse::<usize>()?, to.parse::<usize>()?))
}

/// Each prefix of the row's stream within its range.
fn check_prefixes(rt: &impl Abort, alloc: Global, row: &str) -> Result<(), Fail> {
    let (words, rest) = split_row(row);
    let (range, line) = split_row(rest);
    let stream = bytes_of(alloc, words)?;
    let (from, to) = range_of(range)?;
    for count in from..to {
        answers(rt, alloc, stream.get(..count).unwrap_or(&[]), line);
    }
    Ok(())
}

/// Each prefix of two streams, one that states its number of samples and one that does not.
#[test]
fn prefixes(rt: HostRuntime) -> Result<(), Fail> {
    for row in PREFIXES.lines() {
        check_prefixes(&rt, rt.alloc(), row)?;
    }
    Ok(())
}

/// Some bytes, of which one is changed by these bits.
pub(crate) fn changed(
    alloc: Global,
    bytes: &[u8],
    place: usize,
    bits: u8,
) -> Result<Vec<u8>, Fail> {
    let mut all = Vec::from_slice(alloc, bytes)?;
    if let Some(byte) = all.get_mut(place) {
        *byte ^= bits;
    }
    Ok(all)
}

/// Each byte of a range of the stream with these bits changed.
fn check_changes(
    rt: &impl Abort,
    alloc: Global,
    stream: &[u8],
    range: (usize, usize),
    bits: u8,
    line: &str,
) -> Result<(), Fail> {
    for place in range.0..range.1 {
        let other = changed(alloc, stream, place, bits)?;
        answers(rt, alloc, &other, line);
    }
    Ok(())
}

/// The changes of a row: its stream, a range of bytes, and a line for each of three changes.
fn check_row_of_changes(rt: &impl Abort, alloc: Global, row: &str) -> Result<(), Fail> {
    let (words, rest) = split_row(row);
    let (range, lines) = split_row(rest);
    let stream = bytes_of(alloc, words)?;
    let range = range_of(range)?;
    let mut lines = lines.split(" | ");
    for bits in [0x01, 0x80, 0xFF] {
        let line = lines.next().unwrap_or("");
        check_changes(rt, alloc, &stream, range, bits, line)?;
    }
    Ok(())
}

/// Each byte of two streams with its lowest bit, its highest bit and all its bits changed.
#[test]
fn changes(rt: HostRuntime) -> Result<(), Fail> {
    for row in CHANGES.lines() {
        check_row_of_changes(&rt, rt.alloc(), row)?;
    }
    Ok(())
}

/// A stream of one frame with a byte of it changed is refused there, and none of its samples is written.
fn refused_in_frame(rt: &impl Abort, alloc: Global, input: &[u8], place: usize) {
    let found = perform(alloc, &DECODE, input, 4096);
    assert!(rt;
        found.status == 1 && found.file.is_empty() && found.out.is_empty(),
        "at {place}"
    );
    assert!(rt;
        found.err.as_slice().starts_with(b"flac: a.flac: frame 0: "),
        "at {place}"
    );
}

/// Each other value of the byte at a place.
fn check_values(rt: &impl Abort, alloc: Global, stream: &[u8], place: usize) -> Result<(), Fail> {
    for bits in 1..=255u8 {
        let other = changed(alloc, stream, place, bits)?;
        refused_in_frame(rt, alloc, &other, place);
    }
    Ok(())
}

/// Each byte of a frame, changed to each other value.
#[test]
fn each_value(rt: HostRuntime) -> Result<(), Fail> {
    for row in SWEPT.lines() {
        let stream = bytes_of(rt.alloc(), row)?;
        for place in 42..stream.len() {
            check_values(&rt, rt.alloc(), &stream, place)?;
        }
    }
    Ok(())
}

/// The status and the text of a refusal, its lines ended by `;`.
fn refusal_of(alloc: Global, status: u8, text: &str) -> Result<String, Fail> {
    let text = text.replace(alloc, '\n', ";")?;
    Ok(format!(in alloc; "{status} {text}")?)
}

/// What a command line is read as: the job, after `force` if it may replace any file, or `any`; another request; or the status and
/// the text of the refusal, its lines ended by `;`.
fn read_as(alloc: Global, line: &str) -> Result<String, Fail> {
    let words = words_of(alloc, line)?;
    match request(alloc, words.as_slice()) {
        Ok(Request::Job(line)) if line.force => Ok(format!(in alloc; "force {:?}", line.job)?),
        Ok(Request::Job(line)) if line.any => Ok(format!(in alloc; "any {:?}", line.job)?),
        Ok(Request::Job(line)) => Ok(format!(in alloc; "{:?}", line.job)?),
        Ok(other) => Ok(format!(in alloc; "{other:?}")?),
        Err(fault) => refusal_of(alloc, fault.status, &fault.text),
    }
}

/// Whether a text is the answer, or begins with it where that ends with `*`.
fn is_answer(text: &str, answer: &str) -> bool {
    match answer.strip_suffix('*') {
        Some(start) => text.starts_with(start),
        None => text == answer,
    }
}

/// The words of command lines. Of a help, whose row ends with `*`, the text is compared up to there.
#[test]
fn words(rt: HostRuntime) -> Result<(), Fail> {
    for row in JOBS.lines() {
        let (line, answer) = split_row(row);
        let found = read_as(rt.alloc(), line)?;
        assert!(rt; is_answer(&found, answer), "{line}: {found}");
    }
    Ok(())
}

/// Whether the job of a command line may replace a file that begins with the bytes `old`, if its input begins with
/// `input`; `None` if the words are refused.
fn replaces(alloc: Global, line: &str, input: &[u8], old: &[u8]) -> Result<Option<bool>, Fail> {
    let words = words_of(alloc, line)?;
    match job(alloc, words.as_slice()) {
        Ok(job) => Ok(Some(may_replace(&job, input, old))),
        Err(_) => Ok(None),
    }
}

/// Whether the row says what its command may replace.
fn replaced_holds(alloc: Global, row: &str) -> Result<bool, Fail> {
    let (command, rest) = split_row(row);
    let (input, rest) = split_row(rest);
    let (old, answer) = split_row(rest);
    let line = format!(in alloc; "flac {command}")?;
    let input = bytes_of(alloc, input)?;
    let old = bytes_of(alloc, old)?;
    Ok(replaces(alloc, &line, &input, &old)? == Some(answer == "yes"))
}

/// Whether the row says what a stream that is encoded anew may replace.
fn recoded_holds(alloc: Global, row: &str) -> Result<bool, Fail> {
    let (input, rest) = split_row(row);
    let (old, answer) = split_row(rest);
    let input = bytes_of(alloc, input)?;
    let old = bytes_of(alloc, old)?;
    Ok(may_replace_recoded(&input, &old) == (answer == "yes"))
}

#[test]
fn replaced_by_recodings(rt: HostRuntime) -> Result<(), Fail> {
    for row in RECODED.lines() {
        if !row.starts_with('#') {
            assert!(rt; recoded_holds(rt.alloc(), row)?, "{row}");
        }
    }
    Ok(())
}

#[test]
fn replaced(rt: HostRuntime) -> Result<(), Fail> {
    for row in REPLACED.lines() {
        if !row.starts_with('#') {
            assert!(rt; replaced_holds(rt.alloc(), row)?, "{row}");
        }
    }
    Ok(())
}

/// A command line that cannot be read: memory ran out, or a word is not UTF-8.
#[test]
fn words_not_read(rt: HostRuntime) -> Result<(), Fail> {
    let rows = [
        (ErrorKind::OutOfMemory, "1 flac: command: 2 Memory;"),
        (
            ErrorKind::InvalidData,
            "2 flac: command: a word is not text;",
        ),
    ];
    for (kind, wanted) in rows {
        let fault = LineFault::reading(kind);
        let text = refusal_of(rt.alloc(), fault.status, &fault.text)?;
        assert!(rt; text.as_str() == wanted, "{wanted}");
    }
    let fault = LineFault::not_text(rt.alloc(), 2);
    let text = refusal_of(rt.alloc(), fault.status, &fault.text)?;
    assert!(rt; text.as_str() == "2 flac: command: word 2 is not text;");
    Ok(())
}

/// A command line that asks for no job.
#[test]
fn words_of_no_job(rt: HostRuntime) -> Result<(), Fail> {
    let words = words_of(rt.alloc(), "flac list a.flac b.flac")?;
    match command_line(rt.alloc(), words.as_slice()) {
        Ok(_) => assert!(rt; false, "a job"),
        Err(fault) => {
            let text = refusal_of(rt.alloc(), fault.status, &fault.text)?;
            assert!(rt; text.as_str() == "2 flac: command: no job;");
        }
    }
    Ok(())
}

/// Bytes that rise, and begin anew after 250.
fn rising(alloc: Global, len: usize) -> Result<Vec<u8>, Fail> {
    let mut bytes = Vec::new(alloc);
    for i in 0..len {
        bytes.push((i % 251) as u8)?;
    }
    Ok(bytes)
}

/// Whether these samples are encoded with these options, and decoded to what was put in.
fn is_given_back(alloc: Global, options: &str, raw: &[u8]) -> Result<bool, Fail> {
    let line = format!(in alloc; "flac encode a.raw a.flac --rate 44100 --block 16 {options}")?;
    let encoded = commanded(alloc, &line, &[], raw, 4096)?;
    let decoded = perform(alloc, &DECODE, &encoded.file, 4096);
    Ok(encoded.is(0, &encoded.file, "", "") && decoded.is(0, raw, "", ""))
}

/// Seventeen samples of each channel, in blocks of sixteen: what is encoded is decoded to what was put in.
#[test]
fn comes_back(rt: HostRuntime) -> Result<(), Fail> {
    for row in COME_BACK.lines() {
        let (options, len) = split_row(row);
        let raw = rising(rt.alloc(), len.parse::<usize>()?)?;
        assert!(rt; is_given_back(rt.alloc(), options, &raw)?, "{options}");
    }
    Ok(())
}

/// Samples of one channel of 16 bits that swing as a tone does, which linear predictors follow closer than fixed ones.
fn swinging(alloc: Global, len: usize) -> Result<Vec<u8>, Fail> {
    let mut bytes = Vec::new(alloc);
    let mut before = 0i32;
    let mut now = 3000i32;
    for _ in 0..len {
        let [low, high, _, _] = now.to_le_bytes();
        bytes.push(low)?;
        bytes.push(high)?;
        let next = (now.wrapping_mul(15) / 8).wrapping_sub(before);
        before = now;
        now = next;
    }
    Ok(bytes)
}

/// How many bytes the stream of these samples has, which is encoded with these options and decoded to what was put in; 0
/// if it is not.
fn size_of_stream(alloc: Global, options: &str, raw: &[u8]) -> Result<usize, Fail> {
    let line = format!(in alloc;
        "flac encode a.raw a.flac --rate 44100 --channels 1 --bits 16 --block 256 {options}"
    )?;
    let encoded = commanded(alloc, &line, &[], raw, 4096)?;
    let decoded = perform(alloc, &DECODE, &encoded.file, 4096);
    if encoded.is(0, &encoded.file, "", "") && decoded.is(0, raw, "", "") {
        Ok(encoded.file.len())
    } else {
        Ok(0)
    }
}

/// Predictors that are sought for blocks of 256 samples, of which the last has 44, make a stream smaller.
#[test]
fn sought(rt: HostRuntime) -> Result<(), Fail> {
    let alloc = rt.alloc();
    let raw = swinging(alloc, 300)?;
    let plain = size_of_stream(alloc, "", &raw)?;
    let none = size_of_stream(alloc, "--search none", &raw)?;
    let quick = size_of_stream(alloc, "--search quick", &raw)?;
    let full = size_of_stream(alloc, "--search full", &raw)?;
    assert!(rt; none == plain);
    assert!(rt; 0 < quick && quick < plain, "{quick} {plain}");
    assert!(rt; 0 < full && full <= quick, "{full} {quick}");
    Ok(())
}

/// A writer without room.
#[derive(Drop)]
struct Full;

impl Write for Full {
    fn write(&mut self, _bytes: &[u8]) -> io::Result<usize> {
        Ok(0)
    }

    fn flush(&mut self) -> io::Result<()> {
        Ok(())
    }
}

/// Whether a job whose file and output have no room comes to the status 1 and this line.
fn fails(alloc: Global, job: &Job<'_>, stream: &[u8], wanted: &str) -> bool {
    let mut source = Memory::new(stream);
    let mut file = Counted::new(Full);
    let mut out = Counted::new(Full);
    let mut err = Collected::new(alloc);
    let task = Task { job, list: &[] };
    let status = run_on(alloc, &task, &mut source, &mut file, &mut out, &mut err);
    status == 1 && err.bytes() == wanted.as_bytes()
}

/// A file or an output that fails. The path is that of the file at fault.
#[test]
fn failing(rt: HostRuntime) -> Result<(), Fail> {
    let alloc = rt.alloc();
    let stream = bytes_of(alloc, "EXAMPLE")?;
    assert!(rt; fails(alloc, &TEST, &stream, "flac: a.flac: 39 Write\n"));
    assert!(rt; fails(alloc, &DECODE, &stream, "flac: a.raw: frame 0: 30 Sink\n"));
    assert!(rt; fails(alloc, &LIST, &stream, "flac: a.flac: block 0: 30 Sink\n"));
    Ok(())
}

/// An encoding in Ogg that asks for a seek table, which no command line does, is refused, and nothing is written.
#[test]
fn no_table_in_ogg(rt: HostRuntime) {
    let alloc = rt.alloc();
    let format = RawFormat {
        rate: 44100,
        channels: 2,
        bits: 16,
        block: 4096,
        seek_every: 1,
    };
    let job = Job::Encode {
        input: "a.raw",
        output: "a.oga",
        format,
        container: ContainerKind::Ogg { serial: 1 },
        comments: Vec::new(alloc),
        lax: false,
        predictors: None,
        effort: SearchEffort::None,
        raw: false,
    };
    let found = perform(alloc, &job, &[0xF4, 0x63, 0xB0, 0x28], 4096);
    assert!(rt; found.is(1, &[], "", "flac: a.raw: 37 BadMapping\n"));
}

/// What is printed in place of a job has the status of its fault.
#[test]
fn faults_are_told(rt: HostRuntime) {
    let help = LineFault {
        text: CowStr::Borrowed("Usage\n"),
        status: 0,
    };
    assert!(rt; help.tell(&rt) == 0);
    assert!(rt; LineFault::no_memory().tell(&rt) == 1);
    assert!(rt; LineFault::refused("flac: command: comment without =\n").tell(&rt) == 2);
}

/// The command line of a test begins with the name of its program.
#[test]
fn words_are_given(rt: HostRuntime) {
    let count = match given_words(&rt) {
        Ok(words) => words.len(),
        Err(_) => 0,
    };
    assert!(rt; count > 0);
}
