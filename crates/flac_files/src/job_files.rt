//! All files of a job.

ghost use Rattle.std.specs.Prelude.{◌≡◌, ◌≤◌, [], Some, None, length, IfOk, IfErr, OnErr};
ghost use Rattle.flac_jobs.specs.Asks.{list_of, output_of};
ghost use Rattle.flac_files.specs.JobFiles.{IsFileOf};

use crate::files::{Input, Known, Output, Rule, create};
use crate::list::List;
use crate::names::is_misnamed;
use crate::replacement::{Place, is_new};
use flac_jobs::Job;
use std::fs::File;
use std::io::ErrorKind;

/// What cannot be done with a new file whose name is that of a WAV file, by a job that writes a stream.
const MISNAMED: &str =
    "created: flac decode writes WAV files; --force writes a stream all the same";

/// The files of a job, opened.
#[derive(Drop)]
pub struct JobFiles<'a> {
    /// What the job reads.
    pub input: Input,
    /// Its list of predictors.
    pub list: List<'a>,
    /// What it writes to.
    pub output: Output,
    /// What is left to do when it has ended.
    pub ending: Ending<'a>,
}

impl<'a> JobFiles<'a> {
    /// Opens the files of a job: what it reads, its list of predictors if it has one, and what it writes. The path `-`
    /// is standard input, or standard output. With `force`
    /// it may replace any file that it does not read, else those that [`crate::may_replace`] lets it.
    ///
    /// # Errors
    /// A file cannot be opened, read or created, or what the job writes is a file that it reads, or may not replace,
    /// or, without `force`, a new file with the name of something else.
    pub fn open(
        rt: &HostRuntime,
        job: &Job<'a>,
        force: bool,
    ) -> Result<JobFiles<'a>, FileRefused<'a>>
        ensures few { IfOk result (λ files. length files.list.text.items ≤ 1048576) }
        ensures none { list_of job.now ≡ None → IfOk result (λ files. files.list.text.items ≡ []) }
        ensures refused { IfErr result (λ refused. IsFileOf job.now refused.path.now) }
    {
        JobFiles::opened(rt, job, force, false)
    }

    /// Opens the files of a job as [`JobFiles::open`] does, whose output is of use only as a whole: if the job fails, a
    /// new file is removed. A path that has no file gets one when the job is done, and none if the job fails.
    ///
    /// # Errors
    /// Those of [`JobFiles::open`].
    pub fn open_whole(
        rt: &HostRuntime,
        job: &Job<'a>,
        force: bool,
    ) -> Result<JobFiles<'a>, FileRefused<'a>>
        ensures few { IfOk result (λ files. length files.list.text.items ≤ 1048576) }
        ensures none { list_of job.now ≡ None → IfOk result (λ files. files.list.text.items ≡ []) }
        ensures refused { IfErr result (λ refused. IsFileOf job.now refused.path.now) }
    {
        JobFiles::opened(rt, job, force, true)
    }

    /// Opens the files of a job. `is_whole`: what it writes is of use only as a whole.
    ///
    /// # Errors
    /// Those of [`JobFiles::open`].
    fn opened(
        rt: &HostRuntime,
        job: &Job<'a>,
        force: bool,
        is_whole: bool,
    ) -> Result<JobFiles<'a>, FileRefused<'a>>
        ensures few { IfOk result (λ files. length files.list.text.items ≤ 1048576) }
        ensures none { list_of job.now ≡ None → IfOk result (λ files. files.list.text.items ≡ []) }
        ensures refused { IfErr result (λ refused. IsFileOf job.now refused.path.now) }
    {
        let standard = StandIns::new(rt);
        let (input, list) = read_files(rt, job)?;
        let rule = Rule {
            job: &*job,
            input: &input,
            force,
            is_whole,
        };
        match created(rt, job, &list, rule) {
            Ok((output, place)) => Ok(JobFiles {
                input,
                list,
                output,
                ending: Ending {
                    path: job.output(),
                    place,
                    standard,
                },
            }),
            Err(refused) => Err(refused),
        }
    }
}

/// Opens what a job reads, and reads its list of predictors if it has one.
///
/// # Errors
/// A file cannot be opened or read.
fn read_files<'a>(rt: &HostRuntime, job: &Job<'a>) -> Result<(Input, List<'a>), FileRefused<'a>>
    ensures few { IfOk result (λ files. length files.1.text.items ≤ 1048576) }
    ensures none { list_of job.now ≡ None → IfOk result (λ files. files.1.text.items ≡ []) }
    ensures refused { IfErr result (λ refused. IsFileOf job.now refused.path.now) }
{
    let path = job.input();
    let Ok(input) = Input::open(rt, path) else {
        return Err(FileRefused {
            path,
            what: "opened",
        });
    };
    let list = List::of(rt, job)?;
    Ok((input, list))
}

/// Opens what a job writes to.
///
/// # Errors
/// The file cannot be created, it is one that the job reads, or one that it may not replace, or has another name.
fn created<'a>(
    rt: &HostRuntime,
    job: &Job<'a>,
    list: &List<'a>,
    rule: Rule<'_>,
) -> Result<(Output, Place), FileRefused<'a>>
    ensures { IfErr result (λ refused. output_of job.now ≡ Some refused.path.now) }
{
    let Some(path) = job.output() else {
        return Ok((Output::None, Place::Old));
    };
    if !rule.force && is_misnamed(job, rule.is_whole, path) && is_new(rt, path) {
        return Err(FileRefused {
            path,
            what: MISNAMED,
        });
    }
    let Ok(input) = Known::of_input(rt, job.input(), rule.input) else {
        return Err(FileRefused {
            path,
            what: "created",
        });
    };
    match create(rt, path, &input, list.file.as_ref(), rule) {
        Ok(made) => Ok(made),
        Err(error) => Err(FileRefused {
            path,
            what: what_of(error.kind()),
        }),
    }
}

/// What cannot be done with a file that is not created because of this error of [`create`].
fn what_of(error: ErrorKind) -> &'static str {
    match error {
        ErrorKind::InvalidData => "created: it may be another song, which --force replaces",
        _ => "created",
    }
}

/// What is left to do with the files of a job when it has ended.
#[derive(Drop)]
pub struct Ending<'a> {
    path: Option<&'a str>,
    place: Place,
    standard: StandIns,
}

impl<'a> Ending<'a> {
    /// Ends a job of this status, which wrote to `output`. If that is a regular file and the status is 0, it is stored.
    /// A new file beside one that has bytes then takes the place of the old one. If the job failed, the new file keeps
    /// what was written, and the old one stays as it was; a new file that is of use only as a whole is removed, and so
    /// is one to which nothing was written.
    ///
    /// # Errors
    /// The job is done, but the file cannot be stored, or cannot take the place of the old one, or get its path.
    pub fn end(self, rt: &HostRuntime, output: Output, status: u8) -> Result<(), FileRefused<'a>>
        ensures { OnErr result (status ≡ 0) }
    {
        let Ending {
            path,
            place,
            standard: _standard,
        } = self;
        end_at(rt, path, place, output, status)
    }
}

/// Ends a job of this status, which wrote to `output`, with the path that it writes to.
///
/// # Errors
/// Those of [`Ending::end`].
fn end_at<'a>(
    rt: &HostRuntime,
    path: Option<&'a str>,
    place: Place,
    output: Output,
    status: u8,
) -> Result<(), FileRefused<'a>>
    ensures { OnErr result (status ≡ 0) }
{
    let Some(path) = path else {
        return Ok(());
    };
    match place.end(rt, path, output, status) {
        Err(what) if status == 0 => Err(FileRefused { path, what }),
        _ => Ok(()),
    }
}

/// Files that take the file descriptors of standard files that were closed when the program began. Else files of the
/// job would get them.
#[derive(Drop)]
pub(crate) struct StandIns {
    files: (Option<File>, Option<File>, Option<File>),
}

impl StandIns {
    pub(crate) fn new(rt: &HostRuntime) -> StandIns {
        StandIns {
            files: (stand_in(rt), stand_in(rt), stand_in(rt)),
        }
    }
}

/// A file that takes the lowest free file descriptor.
fn stand_in(rt: &HostRuntime) -> Option<File> {
    File::open(rt, "/dev/null").ok()
}

/// A file of a job that cannot be used: its path, and what cannot be done with it.
#[derive(Clone, Copy)]
pub struct FileRefused<'a> {
    /// The path of the file.
    pub path: &'a str,
    /// What cannot be done with it, as `opened`, `read`, `created`, `stored` or `replaced`.
    pub what: &'static str,
}

impl FileRefused<'_> {
    /// Prints the refusal on standard error, and returns the status of the program, 1.
    pub fn tell(&self, rt: &HostRuntime) -> u8
        ensures { result ≡ 1 }
    {
        let _ = eprintln!(rt; "flac: {}: cannot be {}", self.path, self.what);
        1
    }
}
