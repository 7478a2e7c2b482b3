//! Reading of the command line.

ghost use Rattle.std.specs.Prelude.{◌≤◌, IfErr};

use crate::commands::matches_of;
use crate::no_request::{NO_FORMAT, NoRequest, fault_of};
use crate::requests::{path_like_comment, refusal_of, request_of};
use clap::ArgMatches;
use flac_jobs::{CommandLine, Job, LineFault, Request};
use std::alloc::Global;
use std::env::Env;
use std::io;

/// The most bytes of a word that Linux passes to a program.
const MOST_OF_WORD: usize = 131072;

/// Reads the command line. `words` are its words, the program's name first.
///
/// # Errors
/// What to print in place of what is asked for: the help that was asked for (status 0), that memory ran out (1), or why
/// the command line is refused (2).
pub fn request<'a>(alloc: Global, words: &'a [String]) -> Result<Request<'a>, LineFault>
    ensures { IfErr result (λ fault. fault.status ≤ 2) }
{
    match asked(alloc, words) {
        Ok(request) => Ok(request),
        Err(reason) => Err(fault_of(alloc, reason)),
    }
}

/// What the words ask for.
///
/// # Errors
/// Why they ask for nothing.
fn asked<'a>(alloc: Global, words: &'a [String]) -> Result<Request<'a>, NoRequest<'a>> {
    match tip_of(words) {
        Some(tip) => Err(NoRequest::Line(tip)),
        None => judged(parsed(alloc, words)?),
    }
}

/// A request whose words fit each other.
///
/// # Errors
/// Why it is refused.
fn judged(request: Request<'_>) -> Result<Request<'_>, NoRequest<'_>> {
    match reason_against(&request) {
        Some(reason) => Err(reason),
        None => Ok(request),
    }
}

/// What names the command that is meant where a word is an option that other programs have for it: the first word, or
/// one of `encode` or `recode`.
fn tip_of(words: &[String]) -> Option<&'static str> {
    let [_, first, rest @ ..] = words else {
        return None;
    };
    let first = first.as_str();
    if first == "encode" || first == "recode" {
        tip_of_encoding(rest)
    } else {
        tip_of_option(first)
    }
}

/// What names the command that is meant by an option of other programs as the first word.
fn tip_of_option(word: &str) -> Option<&'static str> {
    match word {
        "-t" | "--test" => Some("flac: command: to test a stream: flac test IN\n"),
        "-d" | "--decode" => Some("flac: command: to decode a stream: flac decode IN OUT\n"),
        "-V" | "--verify" => Some(
            "flac: command: to encode a stream and test it: flac encode IN OUT && flac test OUT\n",
        ),
        _ if is_level(word) => Some(
            "flac: command: to encode a stream, smaller: flac encode IN OUT --search full\n",
        ),
        _ => None,
    }
}

/// What names what is meant by an option that other encoders have, among the words of `encode` or `recode` before `--`.
fn tip_of_encoding(words: &[String]) -> Option<&'static str> {
    for word in words {
        let word = word.as_str();
        if word == "--" {
            return None;
        }
        if word == "-V" || word == "--verify" {
            return Some("flac: command: to test what was encoded: flac test OUT\n");
        }
        if is_level(word) {
            return Some(
                "flac: command: in place of levels --search none, quick or full: the last is the smallest\n",
            );
        }
    }
    None
}

/// The options of other encoders for how small the stream gets.
const LEVELS: [&str; 11] = [
    "-0", "-1", "-2", "-3", "-4", "-5", "-6", "-7", "-8", "--best", "--fast",
];

/// Whether a word is an option of other encoders for how small the stream gets.
fn is_level(word: &str) -> bool {
    LEVELS.contains(&word)
}

/// Reads the command line as [`request`] does, where it asks for a job.
///
/// # Errors
/// Those of [`request`]; and that the command line asks for no job (status 2).
pub fn command_line<'a>(alloc: Global, words: &'a [String]) -> Result<CommandLine<'a>, LineFault>
    ensures { IfErr result (λ fault. fault.status ≤ 2) }
{
    match request(alloc, words) {
        Ok(Request::Job(line)) => Ok(line),
        Ok(_) => Err(LineFault::refused("flac: command: no job\n")),
        Err(fault) => Err(fault),
    }
}

/// Reads the command line as [`command_line`] does, and returns the job alone.
///
/// # Errors
/// Those of [`command_line`].
pub fn job<'a>(alloc: Global, words: &'a [String]) -> Result<Job<'a>, LineFault>
    ensures { IfErr result (λ fault. fault.status ≤ 2) }
{
    match command_line(alloc, words) {
        Ok(
            CommandLine {
                job,
                force: _,
                any: _,
            },
        ) => Ok(job),
        Err(refusal) => Err(refusal),
    }
}

/// The words of the command line, the program's name first.
///
/// # Errors
/// What to print in place of a job: that memory ran out (status 1), or that a word is not UTF-8 (2).
pub fn given_words(rt: &HostRuntime) -> Result<Vec<String>, LineFault>
    ensures { IfErr result (λ fault. fault.status ≤ 2) }
{
    let given = match std::env::args(rt) {
        Ok(given) => given,
        Err(error) => return Err(unread(rt, error.kind())),
    };
    match given.collect(rt.alloc()) {
        Ok(words) => Ok(words),
        Err(_) => Err(LineFault::no_memory()),
    }
}

/// What to print if the words cannot be read, for this reason of the system.
fn unread(rt: &HostRuntime, kind: io::ErrorKind) -> LineFault
    ensures { result.status ≤ 2 }
{
    match number_of_no_text(rt) {
        Some(number) if kind == io::ErrorKind::InvalidData => {
            LineFault::not_text(rt.alloc(), number)
        }
        _ => LineFault::reading(kind),
    }
}

/// The number of the first word that is not UTF-8, the program's name being word 0; `None` if it cannot be found.
fn number_of_no_text(rt: &HostRuntime) -> Option<usize> {
    let mut room = Vec::new(rt.alloc());
    room.resize(MOST_OF_WORD, 0).ok()?;
    for number in 0..usize::MAX {
        let length = rt.arg(number, &mut room).ok()?;
        if str::from_utf8(&room[..length]).is_err() {
            return Some(number);
        }
    }
    None
}

/// What the command line asks for, before its words are judged together.
///
/// # Errors
/// `clap` refuses it.
fn parsed<'a>(alloc: Global, words: &'a [String]) -> Result<Request<'a>, NoRequest<'a>> {
    let matches = matches_of(alloc, words)?;
    asked_by(alloc, &matches)
}

/// What the command that was found asks for.
///
/// # Errors
/// Why it asks for nothing.
fn asked_by<'a>(alloc: Global, matches: &ArgMatches<'a>) -> Result<Request<'a>, NoRequest<'a>> {
    match matches.subcommand() {
        Some((name, given)) => request_of(alloc, name, given),
        None => Err(NoRequest::Line(NO_FORMAT)),
    }
}

/// Why a request is refused whose words were all read; `None` if it is not.
fn reason_against<'a>(request: &Request<'a>) -> Option<NoRequest<'a>> {
    match refusal_of(request) {
        Some(line) => Some(NoRequest::Line(line)),
        None => Some(NoRequest::CommentAsPath(path_like_comment(request)?)),
    }
}
