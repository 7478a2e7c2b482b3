//! `flac encode` of raw samples or a WAV file in a regular file, which is read twice, so that one block is held.

use flac_bits::Counted;
use flac_cli::{
    Task, encode_file_twice, encode_wave_file_twice, encodes_twice, encodes_wave_twice,
};
use flac_draft::DraftFile;
use flac_files::{Input, JobFiles, List, Output, SecondRead};
use flac_jobs::{CommandLine, Job};
use std::fs::File;

/// Opens the files of an encoding, and does it. Returns the status.
pub(crate) fn encode_twice(rt: &HostRuntime, line: &CommandLine<'_>) -> u8 {
    match JobFiles::open(rt, &line.job, line.force) {
        Ok(files) => encode_over(rt, &line.job, files),
        Err(refused) => refused.tell(rt),
    }
}

/// Does the encoding over these files, in two passes if they are regular files. Returns the status.
fn encode_over(rt: &HostRuntime, job: &Job<'_>, files: JobFiles<'_>) -> u8 {
    let JobFiles {
        input,
        list,
        output,
        ending,
    } = files;
    let second = input.second();
    let (Some(second), Output::File(file)) = (second, output) else {
        let _ = eprintln!(rt; "flac: {}: 94 Changed", job.input());
        let _ = ending.end(rt, Output::None, 1);
        return 1;
    };
    let (output, status) = in_passes(rt, job, &list, input, second, file);
    match ending.end(rt, output, status) {
        Ok(()) => status,
        Err(refused) => refused.tell(rt),
    }
}

/// Encodes in two passes to a file, which is empty again if that fails. Returns the file and the status.
fn in_passes(
    rt: &HostRuntime,
    job: &Job<'_>,
    list: &List<'_>,
    input: Input,
    second: SecondRead,
    file: File,
) -> (Output, u8) {
    let (Ok(spare), Ok(target)) = (file.try_clone(), DraftFile::new(file)) else {
        let _ = eprintln!(rt; "flac: {}: 39 Write", job.output().unwrap_or(""));
        return (Output::None, 1);
    };
    let task = Task {
        job,
        list: list.text.as_slice(),
    };
    let mut first = Counted::new(input);
    let mut again = Counted::new(second);
    let made = is_encoded(rt, &task, &mut first, &mut again, target);
    let is_whole = made && !is_changed(rt, job, again.into_inner());
    if is_whole {
        return (Output::File(spare), 0);
    }
    // What cannot be taken away stays in a file that is no stream.
    let _ = spare.set_len(0);
    (Output::File(spare), 1)
}

/// Does the encoding over these sources. Whether the target has the whole stream: else the line was written.
fn is_encoded(
    rt: &HostRuntime,
    task: &Task<'_>,
    first: &mut Counted<Input>,
    again: &mut Counted<SecondRead>,
    target: DraftFile<File>,
) -> bool {
    let mut err = Counted::new(rt.stderr());
    if encodes_wave_twice(task.job) {
        return encode_wave_file_twice(rt.alloc(), task, first, again, target, &mut err).is_ok();
    }
    if encodes_twice(task.job) {
        return encode_file_twice(rt.alloc(), task, first, again, target, &mut err).is_ok();
    }
    false
}

/// Whether the file that was read was changed meanwhile, which is told then.
fn is_changed(rt: &HostRuntime, job: &Job<'_>, second: SecondRead) -> bool {
    if !second.is_changed() {
        return false;
    }
    let _ = eprintln!(rt; "flac: {}: 94 Changed", job.input());
    true
}
