//! The files of a job.

ghost use Rattle.std.specs.Prelude.{◌≤◌, length, IfOk};

use crate::replacement::{Before, Place, create_beside, create_for, is_vacant};
use crate::replacing::{FRONT, begins_native, may_replace, may_replace_recoded};
use flac_jobs::Job;
use std::fs::{File, Metadata, OpenOptions, TryLockError};
use std::io;
use std::io::{ErrorKind, Read, Stdin, Stdout, Write};
use std::os::unix::fs::{FileExt, MetadataExt};

/// The path that stands for standard input and standard output.
pub(crate) const STANDARD: &str = "-";

/// The path that the system has for standard input.
const STANDARD_INPUT: &str = "/dev/stdin";

/// The path that the system has for standard output.
pub(crate) const STANDARD_OUTPUT: &str = "/dev/stdout";

/// What a job reads.
#[derive(Drop)]
pub enum Input {
    /// A file, opened for the job.
    File(File),
    /// Standard input, from its current position on.
    Standard(Stdin),
}

impl Input {
    /// Opens what a job reads: `-` is standard input.
    ///
    /// # Errors
    /// That of the system.
    pub(crate) fn open(rt: &HostRuntime, path: &str) -> io::Result<Input> {
        if path == STANDARD {
            return Ok(Input::Standard(rt.stdin()));
        }
        Ok(Input::File(File::open(rt, path)?))
    }

    /// What the system knows of the file.
    ///
    /// # Errors
    /// That of the system.
    fn metadata(&self, rt: &HostRuntime) -> io::Result<Metadata> {
        match self {
            Input::File(file) => file.metadata(),
            Input::Standard(_) => std::fs::metadata(rt, STANDARD_INPUT),
        }
    }
}

impl Read for Input {
    fn read(&mut self, places: &mut [u8]) -> io::Result<usize> {
        match self {
            Input::File(file) => file.read(places),
            Input::Standard(input) => input.read(places),
        }
    }
}

/// What a job writes to.
#[derive(Drop)]
pub enum Output {
    /// A regular file, opened for the job.
    File(File),
    /// A device or a pipe, opened for the job.
    Device(File),
    /// Standard output, from its current position on.
    Standard(Stdout),
    /// The job writes nothing.
    None,
}

impl Output {
    /// Makes the system store what was written to a regular file.
    ///
    /// # Errors
    /// That of the system; some file systems report only now that a write failed.
    pub(crate) fn store(&self) -> io::Result<()> {
        match self {
            Output::File(file) => file.sync_all(),
            _ => Ok(()),
        }
    }

    /// Ends a job of this status that replaces no file: what it wrote is stored if the status is 0.
    ///
    /// # Errors
    /// Those of [`Output::store`].
    pub(crate) fn end(self, status: u8) -> io::Result<()> {
        if status != 0 {
            return Ok(());
        }
        self.store()
    }
}

impl Write for Output {
    fn write(&mut self, bytes: &[u8]) -> io::Result<usize> {
        match self {
            Output::File(file) | Output::Device(file) => file.write(bytes),
            Output::Standard(out) => out.write(bytes),
            Output::None => Ok(bytes.len()),
        }
    }

    fn flush(&mut self) -> io::Result<()> {
        match self {
            Output::File(file) | Output::Device(file) => file.flush(),
            Output::Standard(out) => out.flush(),
            Output::None => Ok(()),
        }
    }
}

/// A file that the job reads, which it must not write.
#[derive(Drop)]
pub struct Known<'a> {
    path: &'a str,
    found: Metadata,
}

impl<'a> Known<'a> {
    /// The opened file of this path, of which the system knows this.
    pub(crate) fn of(path: &'a str, found: Metadata) -> Known<'a> {
        Known { path, found }
    }

    /// What is read of this path, opened.
    ///
    /// # Errors
    /// That of the system.
    pub(crate) fn of_input(
        rt: &HostRuntime,
        path: &'a str,
        input: &Input,
    ) -> io::Result<Known<'a>> {
        let path = if path == STANDARD {
            STANDARD_INPUT
        } else {
            path
        };
        Ok(Known::of(path, input.metadata(rt)?))
    }

    /// Refuses a path that leads to this file.
    ///
    /// # Errors
    /// `AlreadyExists` if it does.
    fn refuse_path(&self, rt: &HostRuntime, path: &str) -> io::Result<()> {
        if is_one_path(rt, path, self.path) {
            return Err(io::Error::from(ErrorKind::AlreadyExists));
        }
        Ok(())
    }
}

/// What a job may replace.
#[derive(Clone, Copy)]
pub(crate) struct Rule<'a> {
    /// The job.
    pub(crate) job: &'a Job<'a>,
    /// The file that it reads, opened.
    pub(crate) input: &'a Input,
    /// Whether it may replace any file.
    pub(crate) force: bool,
    /// Whether what it writes is of use only as a whole.
    pub(crate) is_whole: bool,
}

impl Rule<'_> {
    /// What the file of this path is, which has bytes.
    ///
    /// # Errors
    /// Those of [`Rule::allows`].
    fn before_at(&self, rt: &HostRuntime, path: &str) -> io::Result<Before> {
        Ok(if self.allows(rt, path)? {
            Before::Replaceable
        } else {
            Before::Kept
        })
    }

    /// Whether a new file to which nothing was written is removed if the job fails: that of a job of WAV files. One of
    /// raw samples, or of a stream that is tagged anew, stays, empty.
    fn removes_empty(&self) -> bool {
        matches!(self.job, Job::DecodeWave { .. } | Job::EncodeWave { .. })
    }

    /// Whether a stream is encoded anew.
    fn is_recoding(&self) -> bool {
        self.is_whole && matches!(self.job, Job::EncodeWave { .. })
    }

    /// Whether the job may replace the file of this path, which has bytes ([`may_replace`], [`may_replace_recoded`]).
    /// False if a retagging reads no native stream, which the job reports: nothing is replaced then.
    ///
    /// # Errors
    /// `AlreadyExists` if it may not, `InvalidData` if a stream that is encoded anew may not. The file cannot be read;
    /// or a retagging reads a pipe, which has no first bytes to compare.
    fn allows(&self, rt: &HostRuntime, path: &str) -> io::Result<bool> {
        if self.force {
            return Ok(true);
        }
        let mut old = [0; FRONT];
        let count = read_front(&File::open(rt, path)?, &mut old)?;
        if self.is_recoding() {
            self.allows_recoded(&old[..count])
        } else {
            self.allows_over(&old[..count])
        }
    }

    /// Whether a stream that is encoded anew may replace a file that begins so.
    ///
    /// # Errors
    /// `InvalidData` if it may not.
    fn allows_recoded(&self, old: &[u8]) -> io::Result<bool> {
        let mut input = [0; FRONT];
        // (a pipe has no first bytes to compare)
        let known = front_of_input(self.input, &mut input).unwrap_or(0);
        refused_unless(may_replace_recoded(&input[..known], old))
    }

    /// Whether a job that encodes no stream anew may replace a file that begins so.
    ///
    /// # Errors
    /// Those of [`Rule::allows`].
    fn allows_over(&self, old: &[u8]) -> io::Result<bool> {
        let is_retag = matches!(self.job, Job::Retag { .. });
        let mut input = [0; FRONT];
        let known = if is_retag {
            front_of_input(self.input, &mut input)?
        } else {
            0
        };
        let input = &input[..known];
        if may_replace(self.job, input, old) {
            Ok(true)
        } else if is_retag && !begins_native(input) {
            Ok(false)
        } else {
            Err(io::Error::from(ErrorKind::AlreadyExists))
        }
    }
}

/// Refuses to replace another song.
///
/// # Errors
/// `InvalidData`, which no call that opens a file returns.
fn refused_unless(may: bool) -> io::Result<bool> {
    if may {
        return Ok(true);
    }
    Err(io::Error::from(ErrorKind::InvalidData))
}

/// Reads the first bytes of what a job reads, and returns how many: none if it cannot be read, which the job reports.
///
/// # Errors
/// It is a pipe or standard input: its bytes could not be read again.
fn front_of_input(input: &Input, places: &mut [u8]) -> io::Result<usize>
    ensures { IfOk result (λ n. n ≤ length places.new) }
{
    let Input::File(file) = input else {
        return Err(io::Error::from(ErrorKind::NotSeekable));
    };
    match read_front(file, places) {
        Ok(count) => Ok(count),
        Err(error) if error.kind() == ErrorKind::NotSeekable => Err(error),
        Err(_) => Ok(0),
    }
}

/// Reads the first bytes of a file, as many as there are places or as it has, and returns how many. The position of
/// later reads stays.
///
/// # Errors
/// That of the system; `Interrupted` if signals interrupt it again and again.
fn read_front(file: &File, places: &mut [u8]) -> io::Result<usize>
    ensures { IfOk result (λ n. n ≤ length places.new) }
{
    let mut count = 0;
    'places: for _ in 0..places.len() {
        match file.read_at(&mut places[count..], count as u64) {
            Ok(0) => return Ok(count),
            Ok(more) => count += more,
            Err(error) if error.kind() == ErrorKind::Interrupted => {}
            Err(error) => return Err(error),
        }
    }
    if count < places.len() {
        return Err(io::Error::from(ErrorKind::Interrupted));
    }
    Ok(count)
}

/// Opens what a job writes to. A file that has bytes is not touched: a new one is opened beside it, if the rule lets
/// the job replace it. If there is no file and the output is of use only as a whole, a new one is opened beside that
/// path too, which it gets when the job is done.
///
/// The files that the job reads are refused. First the paths are compared, with `.`, `..` and symbolic links resolved.
/// Then the file is opened, and its device and inode are compared with those of each, so that a hard link is seen too.
/// `-` and `/dev/stdout` are standard output itself and not its file opened anew, so that bytes are added to a file
/// that the caller appends to.
///
/// # Errors
/// The file cannot be created, it is one that the job reads, or one that it may not replace.
pub(crate) fn create(
    rt: &HostRuntime,
    path: &str,
    input: &Known<'_>,
    list: Option<&Known<'_>>,
    rule: Rule<'_>,
) -> io::Result<(Output, Place)> {
    let path = if path == STANDARD {
        STANDARD_OUTPUT
    } else {
        path
    };
    refuse_paths(rt, path, input, list)?;
    if path == STANDARD_OUTPUT {
        return standard_output(rt, input, list);
    }
    match is_vacant(rt, path) {
        Ok(true) => create_new(rt, path, &rule),
        Ok(false) => create_over(rt, path, input, list, rule),
        Err(error) => Err(error),
    }
}

/// Refuses a path that leads to a file that the job reads, and the empty one.
///
/// # Errors
/// `AlreadyExists` if it does, `NotFound` if it is empty.
fn refuse_paths(
    rt: &HostRuntime,
    path: &str,
    input: &Known<'_>,
    list: Option<&Known<'_>>,
) -> io::Result<()> {
    if path.is_empty() {
        return Err(io::Error::from(ErrorKind::NotFound));
    }
    input.refuse_path(rt, path)?;
    match list {
        Some(list) => list.refuse_path(rt, path),
        None => Ok(()),
    }
}

/// Standard output as what a job writes to.
///
/// # Errors
/// It is a file that the job reads.
fn standard_output(
    rt: &HostRuntime,
    input: &Known<'_>,
    list: Option<&Known<'_>>,
) -> io::Result<(Output, Place)> {
    differ_from_all(&std::fs::metadata(rt, STANDARD_OUTPUT)?, input, list)?;
    Ok((Output::Standard(rt.stdout()), Place::Old))
}

/// Creates what a job writes to, a path that has no file. If what it writes is of use only as a whole, the new file is
/// beside that path.
///
/// # Errors
/// The file cannot be created.
fn create_new(rt: &HostRuntime, path: &str, rule: &Rule<'_>) -> io::Result<(Output, Place)> {
    if rule.is_whole {
        let (file, replacement) = create_for(rt, path)?;
        return Ok((Output::File(file), Place::Beside(replacement)));
    }
    let file = opened_new(rt, path)?;
    let place = if rule.removes_empty() {
        Place::Made
    } else {
        Place::Old
    };
    Ok((Output::File(file), place))
}

/// Creates a file at a path that has none, and locks it.
///
/// # Errors
/// The file cannot be created, or another program has locked it.
fn opened_new(rt: &HostRuntime, path: &str) -> io::Result<File> {
    let file = OpenOptions::new()
        .write(true)
        .create_new(true)
        .open(rt, path)?;
    hold_now(rt, path, &file)?;
    Ok(file)
}

/// Locks an opened file as [`hold`] does.
///
/// # Errors
/// Those of [`hold`], and that of the system.
fn hold_now(rt: &HostRuntime, path: &str, file: &File) -> io::Result<()> {
    hold(rt, path, file, &file.metadata()?)
}

/// What is at a path that a job writes to, opened.
enum Old {
    /// A device or a pipe.
    Device,
    /// An empty file, locked.
    Empty,
    /// A file that has bytes, locked.
    Full(Metadata),
}

/// Opens what a job writes to, a path that has a file already. A file that another job writes to is refused.
///
/// # Errors
/// Those of [`create`].
fn create_over(
    rt: &HostRuntime,
    path: &str,
    input: &Known<'_>,
    list: Option<&Known<'_>>,
    rule: Rule<'_>,
) -> io::Result<(Output, Place)> {
    let file = OpenOptions::new().write(true).create(true).open(rt, path)?;
    match old_of(rt, path, &file, input, list) {
        Ok(Old::Device) => Ok((Output::Device(file), Place::Old)),
        Ok(Old::Empty) => Ok((Output::File(file), Place::Old)),
        Ok(Old::Full(found)) => create_to_replace(rt, path, &found, rule),
        Err(error) => Err(error),
    }
}

/// What an opened file is, which the job does not read.
///
/// # Errors
/// Those of [`create`].
fn old_of(
    rt: &HostRuntime,
    path: &str,
    file: &File,
    input: &Known<'_>,
    list: Option<&Known<'_>>,
) -> io::Result<Old> {
    let found = file.metadata()?;
    differ_from_all(&found, input, list)?;
    if !found.is_file() {
        return Ok(Old::Device);
    }
    hold(rt, path, file, &found)?;
    Ok(if file.metadata()?.len() == 0 {
        Old::Empty
    } else {
        Old::Full(found)
    })
}

/// Creates a new file beside one that has bytes, if the rule lets the job replace it.
///
/// # Errors
/// Those of [`create`].
fn create_to_replace(
    rt: &HostRuntime,
    path: &str,
    found: &Metadata,
    rule: Rule<'_>,
) -> io::Result<(Output, Place)> {
    let before = rule.before_at(rt, path)?;
    let (file, mut replacement) = create_beside(rt, path, found)?;
    replacement.before = before;
    replacement.is_whole = rule.is_whole;
    Ok((Output::File(file), Place::Beside(replacement)))
}

/// Locks an opened file as [`holds_alone`] does.
///
/// # Errors
/// `ResourceBusy` if another program has locked it, or it is no longer the one at its path.
pub(crate) fn hold(rt: &HostRuntime, path: &str, file: &File, found: &Metadata) -> io::Result<()> {
    if holds_alone(rt, path, file, found) {
        return Ok(());
    }
    Err(io::Error::from(ErrorKind::ResourceBusy))
}

/// Locks a file for as long as it is open, and returns whether no other program has locked it. File systems without
/// locks let every program in.
fn is_locked(file: &File) -> bool {
    !matches!(file.try_lock(), Err(TryLockError::WouldBlock))
}

/// Locks an opened file, of which the system knows this, and returns whether no other program has locked it, and it is
/// still the one at its path: another program may have put a new file there, or removed it, after it was opened.
pub(crate) fn holds_alone(rt: &HostRuntime, path: &str, file: &File, found: &Metadata) -> bool {
    is_locked(file) && is_at(rt, path, found)
}

/// Whether this file is the one at its path.
pub(crate) fn is_at(rt: &HostRuntime, path: &str, found: &Metadata) -> bool {
    match std::fs::metadata(rt, path) {
        Ok(now) => is_one_file(&now, found),
        Err(_) => false,
    }
}

/// Refuses a file that the job reads.
///
/// # Errors
/// `AlreadyExists` if it is one.
fn differ_from_all(
    found: &Metadata,
    input: &Known<'_>,
    list: Option<&Known<'_>>,
) -> io::Result<()> {
    if let Some(list) = list {
        differ(found, &list.found)?;
    }
    differ(found, &input.found)
}

/// Refuses two files that are the same.
///
/// # Errors
/// `AlreadyExists` if they are.
fn differ(one: &Metadata, other: &Metadata) -> io::Result<()> {
    if is_one_file(one, other) {
        return Err(io::Error::from(ErrorKind::AlreadyExists));
    }
    Ok(())
}

/// Whether both are of the same file.
fn is_one_file(one: &Metadata, other: &Metadata) -> bool {
    one.dev() == other.dev() && one.ino() == other.ino()
}

/// Whether both paths lead to the same file, which exists.
fn is_one_path(rt: &HostRuntime, path: &str, other: &str) -> bool {
    match (
        std::fs::canonicalize(rt, path),
        std::fs::canonicalize(rt, other),
    ) {
        (Ok(path), Ok(other)) => path.as_str() == other.as_str(),
        _ => false,
    }
}
