//! Jobs with `--any`: streams are read between the tags of other programs, and without empty packets at their ends.

use crate::chain::{decode_streams, test_streams};
use crate::list::{Form, list_between};
use flac_around::{Between, Trimmed};
use flac_bits::Counted;
use flac_cli::{ChainPaths, Job, ListedFile, Task, run};
use flac_files::JobFiles;

/// Does the job over its files. Returns the status.
pub(crate) fn do_between(rt: &HostRuntime, job: &Job<'_>, files: JobFiles<'_>) -> u8 {
    match job {
        Job::Test { input, lax } => test_streams(rt, input, *lax, files),
        Job::Decode { input, output, lax } => {
            let paths = ChainPaths { input, output };
            decode_streams(rt, &paths, *lax, files)
        }
        Job::List { input, lax } => {
            let file = ListedFile {
                path: input,
                names: &[],
            };
            let form = Form {
                lax: *lax,
                head: false,
                json: false,
            };
            list_between(rt, &file, form, files.input)
        }
        _ => do_one(rt, job, files),
    }
}

/// Does a job over one stream. Returns the status.
fn do_one(rt: &HostRuntime, job: &Job<'_>, files: JobFiles<'_>) -> u8 {
    let JobFiles {
        input,
        list,
        output,
        ending,
    } = files;
    let mut source = Trimmed::new(Between::new(Counted::new(input)));
    let mut target = Counted::new(output);
    let mut out = Counted::new(rt.stdout());
    let mut err = Counted::new(rt.stderr());
    let task = Task {
        job,
        list: list.text.as_slice(),
    };
    let status = run(
        rt.alloc(),
        &task,
        &mut source,
        &mut target,
        &mut out,
        &mut err,
    );
    match ending.end(rt, target.into_inner(), status) {
        Ok(()) => status,
        Err(refused) => refused.tell(rt),
    }
}

/// Prints how long the tags are that were read, a line for each. Returns the status.
pub(crate) fn list_tags(rt: &HostRuntime, input: &str, before: u64, after: u64) -> u8 {
    let is_printed = print_length(rt, "before ID3v2", before)
        && print_length(rt, "after ID3v1", after);
    told(rt, input, is_printed)
}

/// The status after lines that standard output took or not. If not, this is told on standard error.
fn told(rt: &HostRuntime, input: &str, is_printed: bool) -> u8 {
    if is_printed {
        return 0;
    }
    let _ = eprintln!(rt; "flac: {input}: 39 Write");
    1
}

/// Prints the line of a tag, if there is one. Returns false if standard output fails.
fn print_length(rt: &HostRuntime, name: &str, length: u64) -> bool {
    length == 0 || println!(rt; "{name} {length}").is_ok()
}
