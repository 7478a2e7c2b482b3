//! The program `flac`: tests, decodes, lists, encodes, retags, verifies and compares FLAC streams (RFC 9639).
#![tactic(auto)]

mod between;
mod chain;
mod copy;
mod edit;
mod edited;
mod encode_twice;
mod excerpt;
mod export;
mod list;
mod ogg_edit;
mod ogg_tag;
mod recode;
mod salvage;
mod same;
mod tag;
mod tag_out;
mod verify;

use crate::between::do_between;
use crate::copy::copy;
use crate::edit::edit_files;
use crate::encode_twice::encode_twice;
use crate::excerpt::excerpt;
use crate::export::export;
use crate::list::list_files;
use crate::recode::recode;
use crate::salvage::salvage;
use crate::same::same;
use crate::tag::tag_files;
use crate::verify::verify;
use flac_bits::Counted;
use flac_cli::{Task, encodes_twice, encodes_wave_twice, run};
use flac_files::{JobFiles, reads_twice};
use flac_jobs::{CommandLine, Job, Request};
use flac_words::{given_words, request};
use std::process::ExitCode;

/// Reads the command line, does what it asks for, and ends with its status.
fn main(rt: HostRuntime) -> ExitCode {
    let given = match given_words(&rt) {
        Ok(given) => given,
        Err(fault) => return ExitCode::from(fault.tell(&rt)),
    };
    ExitCode::from(match request(rt.alloc(), given.as_slice()) {
        Ok(Request::Job(line)) => perform(&rt, &line),
        Ok(Request::ListFiles(listing)) => list_files(&rt, &listing),
        Ok(Request::Tag(tagging)) => tag_files(&rt, &tagging),
        Ok(Request::Edit(editing)) => edit_files(&rt, &editing),
        Ok(Request::Export(exporting)) => export(&rt, &exporting),
        Ok(Request::Verify(verification)) => verify(&rt, &verification),
        Ok(Request::Same(comparison)) => same(&rt, &comparison),
        Ok(Request::Recode(recoding)) => recode(&rt, &recoding),
        Ok(Request::Copy(asked)) => copy(&rt, &asked),
        Ok(Request::Excerpt(part)) => excerpt(&rt, &part),
        Ok(Request::Salvage(asked)) => salvage(&rt, &asked),
        Err(fault) => fault.tell(&rt),
    })
}

/// Opens the files of the job, and does it. Returns the status.
fn perform(rt: &HostRuntime, line: &CommandLine<'_>) -> u8 {
    if is_for_two_passes(&line.job) && reads_twice(rt, &line.job) {
        return encode_twice(rt, line);
    }
    match JobFiles::open(rt, &line.job, line.force) {
        Ok(files) if line.any => do_between(rt, &line.job, files),
        Ok(files) => do_over(rt, &line.job, files),
        Err(refused) => refused.tell(rt),
    }
}

/// Whether the job is an encoding that holds one block if it reads its file twice.
fn is_for_two_passes(job: &Job<'_>) -> bool {
    encodes_twice(job) || encodes_wave_twice(job)
}

/// Does the job over its files. Returns the status.
fn do_over(rt: &HostRuntime, job: &Job<'_>, files: JobFiles<'_>) -> u8 {
    let JobFiles {
        input,
        list,
        output,
        ending,
    } = files;
    let mut source = Counted::new(input);
    let mut target = Counted::new(output);
    let mut out = Counted::new(rt.stdout());
    let mut err = Counted::new(rt.stderr());
    let task = Task {
        job,
        list: list.text.as_slice(),
    };
    let status = run(
        rt.alloc(),
        &task,
        &mut source,
        &mut target,
        &mut out,
        &mut err,
    );
    match ending.end(rt, target.into_inner(), status) {
        Ok(()) => status,
        Err(refused) => refused.tell(rt),
    }
}
