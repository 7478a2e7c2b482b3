//! The list of predictors of a job.

ghost use Rattle.std.specs.Prelude.{◌≡◌, ◌≤◌, [], Some, None, length, IfOk, IfErr};
ghost use Rattle.flac_jobs.specs.Asks.{list_of};

use crate::files::Known;
use crate::job_files::FileRefused;
use crate::pictures::read_all;
use flac_jobs::Job;
use std::fs::File;
use std::io;

/// The most bytes of a list: 1 MiB.
const MOST: u64 = 1 << 20;

/// The text of a job's list of predictors, and its file.
#[derive(Drop)]
pub struct List<'a> {
    /// Its bytes, at most 1 MiB; empty if the job has no list.
    pub text: Vec<u8>,
    /// The file that it was read from, which the job must not write.
    pub file: Option<Known<'a>>,
}

impl<'a> List<'a> {
    /// Reads the list of a job, if it has one.
    ///
    /// # Errors
    /// The file cannot be opened, or it cannot be read: the system returns an error, it has more than 1 MiB, or memory
    /// ran out.
    pub fn of(rt: &HostRuntime, job: &Job<'a>) -> Result<List<'a>, FileRefused<'a>>
        ensures few { IfOk result (λ list. length list.text.items ≤ 1048576) }
        ensures none { list_of job.now ≡ None → IfOk result (λ list. list.text.items ≡ []) }
        ensures refused { IfErr result (λ refused. list_of job.now ≡ Some refused.path.now) }
    {
        let Some(path) = job.predictors() else {
            return Ok(List {
                text: Vec::new(rt.alloc()),
                file: None,
            });
        };
        let Ok(file) = File::open(rt, path) else {
            return Err(FileRefused {
                path,
                what: "opened",
            });
        };
        List::read(rt, path, file).map_err(|_| FileRefused { path, what: "read" })
    }

    /// Reads a list.
    fn read(rt: &HostRuntime, path: &'a str, file: File) -> io::Result<List<'a>>
        ensures few { IfOk result (λ list. length list.text.items ≤ 1048576) }
    {
        let known = Known::of(path, file.metadata()?);
        Ok(List {
            text: read_all(rt, file, MOST)?,
            file: Some(known),
        })
    }
}
