//! New files that take the place of others, and what becomes of what a job wrote.

use crate::files::{Output, is_at};
use std::fs::{File, Metadata, OpenOptions};
use std::io;
use std::io::ErrorKind;
use std::os::unix::fs::{MetadataExt, OpenOptionsExt};
use std::path::PathBuf;

/// The most bytes of a file's name.
const MOST_OF_NAME: usize = 255;

/// Where the bytes go that a job writes to a path.
#[derive(Drop)]
pub(crate) enum Place {
    /// To what stays there whatever becomes of the job: an empty file, a device, standard output, or a new file.
    Old,
    /// To a new file there, which is removed if the job writes nothing and fails.
    Made,
    /// To a new file beside it.
    Beside(Replacement),
}

impl Place {
    /// Ends a job of this status, which wrote to `output`, with this path. If the status is 0, a regular file is
    /// stored, and a new file beside the path gets it. Otherwise a file that is of no use while it is empty is removed
    /// if it is.
    ///
    /// # Errors
    /// What cannot be done with the file.
    pub(crate) fn end(
        self,
        rt: &HostRuntime,
        path: &str,
        output: Output,
        status: u8,
    ) -> Result<(), &'static str> {
        let (ended, before) = match self {
            Place::Beside(replacement) => {
                let before = replacement.before;
                (replacement.end(rt, output, status), before)
            }
            Place::Made if status != 0 => (remove_empty(rt, path, &output), Before::Nothing),
            _ => (output.end(status), Before::Nothing),
        };
        match ended {
            Ok(()) => Ok(()),
            Err(error) => Err(before.refusal(error.kind())),
        }
    }
}

/// Removes a file that was made at this path, if it is still there, and nothing was written to it.
///
/// # Errors
/// That of the system.
fn remove_empty(rt: &HostRuntime, path: &str, output: &Output) -> io::Result<()> {
    let Output::File(file) = output else {
        return Ok(());
    };
    let found = file.metadata()?;
    if found.len() == 0 && is_at(rt, path, &found) {
        return std::fs::remove_file(rt, path);
    }
    Ok(())
}

/// What is at a path that a job writes to.
#[derive(Clone, Copy)]
pub(crate) enum Before {
    /// A file that may be replaced.
    Replaceable,
    /// A file that may not be replaced.
    Kept,
    /// No file.
    Nothing,
}

impl Before {
    /// What cannot be done if the job is done, and its new file does not get the path for this reason: `replaced`, or
    /// `stored` if there was no file.
    fn refusal(self, error: ErrorKind) -> &'static str {
        match (self, error) {
            (Before::Nothing, ErrorKind::AlreadyExists) => {
                "stored: another program made a file of that name meanwhile"
            }
            (Before::Nothing, _) => "stored",
            _ => "replaced",
        }
    }
}

/// A new file beside the path that a job writes to, which it gets when the job is done. Until then, and if the job
/// fails, what is at that path stays as it was.
#[derive(Drop)]
pub(crate) struct Replacement {
    part: String,
    path: PathBuf,
    pub(crate) before: Before,
    /// Whether the new file is of no use if the job fails.
    pub(crate) is_whole: bool,
}

impl Replacement {
    /// Ends the job. If its status is 0, the new file is stored and gets the path. Otherwise it keeps what was written;
    /// it is removed if that is nothing, or is of use only as a whole.
    ///
    /// # Errors
    /// The new file cannot be stored, or cannot get the path: it stays beside it. `AlreadyExists` if it may not get the
    /// path: it is removed. After a job that failed: it cannot be removed.
    pub(crate) fn end(self, rt: &HostRuntime, output: Output, status: u8) -> io::Result<()> {
        if status == 0 {
            self.take_path(rt, &output)
        } else {
            self.end_failed(rt)
        }
    }

    /// Stores the new file, and gives it the path.
    ///
    /// # Errors
    /// Those of [`Replacement::end`] after a job that is done.
    fn take_path(&self, rt: &HostRuntime, output: &Output) -> io::Result<()> {
        output.store()?;
        if is_free(rt, self.path.as_str(), self.before) {
            return std::fs::rename(rt, self.part.as_str(), self.path.as_str());
        }
        // If it cannot be removed, it stays beside the other.
        let _ = std::fs::remove_file(rt, self.part.as_str());
        Err(io::Error::from(ErrorKind::AlreadyExists))
    }

    /// Removes the new file if it is of no use.
    ///
    /// # Errors
    /// That of the system.
    fn end_failed(&self, rt: &HostRuntime) -> io::Result<()> {
        let part = self.part.as_str();
        if self.is_whole || std::fs::metadata(rt, part)?.len() == 0 {
            return std::fs::remove_file(rt, part);
        }
        Ok(())
    }

    /// Removes the new file. The old one stays as it was.
    pub(crate) fn remove(self, rt: &HostRuntime) {
        // If it cannot be removed, it stays beside the old one.
        let _ = std::fs::remove_file(rt, self.part.as_str());
    }
}

/// Whether a new file may get this path now, at which this was. A file that was made there meanwhile is not replaced.
fn is_free(rt: &HostRuntime, path: &str, before: Before) -> bool {
    match before {
        Before::Replaceable => true,
        Before::Kept => false,
        Before::Nothing => is_vacant(rt, path).unwrap_or(false),
    }
}

/// Whether there is nothing at this path, not even a link that leads nowhere.
///
/// # Errors
/// That of the system.
pub(crate) fn is_vacant(rt: &HostRuntime, path: &str) -> io::Result<bool> {
    match std::fs::symlink_metadata(rt, path) {
        Ok(_) => Ok(false),
        Err(error) if error.kind() == ErrorKind::NotFound => Ok(true),
        Err(error) => Err(error),
    }
}

/// Whether there is nothing at this path, but its folder.
pub(crate) fn is_new(rt: &HostRuntime, path: &str) -> bool {
    is_vacant(rt, path).unwrap_or(false) && has_folder(rt, path)
}

/// Whether the folder of a path is there.
fn has_folder(rt: &HostRuntime, path: &str) -> bool {
    let folder = match path.rfind('/') {
        Some(at) => path.get(..at).unwrap_or(""),
        None => "",
    };
    folder.is_empty() || std::fs::metadata(rt, folder).is_ok()
}

/// Creates a new file for a path at which there is none, beside that path.
///
/// # Errors
/// The file cannot be created.
pub(crate) fn create_for(rt: &HostRuntime, path: &str) -> io::Result<(File, Replacement)> {
    let (file, part) = create_part(rt, path, 0o666)?;
    let replacement = Replacement {
        part,
        path: PathBuf::from_str(rt.alloc(), path)?,
        before: Before::Nothing,
        is_whole: true,
    };
    Ok((file, replacement))
}

/// Creates a new file beside another, whose place it may take, with the same permissions; at no time has it more.
///
/// # Errors
/// The file cannot be created.
pub(crate) fn create_beside(
    rt: &HostRuntime,
    path: &str,
    found: &Metadata,
) -> io::Result<(File, Replacement)> {
    let path = std::fs::canonicalize(rt, path)?;
    let (file, part) = create_part(rt, path.as_str(), found.mode() & 0o777)?;
    // The system took some of them away. Not every file system has permissions.
    let _ = file.set_permissions(found.permissions());
    let replacement = Replacement {
        part,
        path,
        before: Before::Replaceable,
        is_whole: false,
    };
    Ok((file, replacement))
}

/// Creates a new file beside a path, with these permissions, or fewer if the system takes some away, and returns its
/// path: the other followed by `.part`, or by `.part2` to `.part99` if that is taken. If its name would be too long,
/// the end of the other's is left out.
///
/// # Errors
/// The file cannot be created.
fn create_part(rt: &HostRuntime, path: &str, mode: u32) -> io::Result<(File, String)> {
    for n in 1..100u32 {
        let part = part_name(rt, path, n)?;
        let created = OpenOptions::new()
            .write(true)
            .create_new(true)
            .mode(mode)
            .open(rt, part.as_str());
        match created {
            Ok(file) => return Ok((file, part)),
            Err(error) if error.kind() == ErrorKind::AlreadyExists => {}
            Err(error) => return Err(error),
        }
    }
    Err(io::Error::from(ErrorKind::AlreadyExists))
}

/// The nth path for a new file beside this one.
///
/// # Errors
/// Out of memory.
fn part_name(rt: &HostRuntime, path: &str, n: u32) -> io::Result<String> {
    if n == 1 {
        let path = shortened(path, ".part".len());
        return Ok(format!(in rt.alloc(); "{path}.part")?);
    }
    let path = shortened(path, ".part99".len());
    Ok(format!(in rt.alloc(); "{path}.part{n}")?)
}

/// A path without as much of the end of its name that `more` bytes can be added to the name.
fn shortened(path: &str, more: usize) -> &str {
    let folder = match path.rfind('/') {
        Some(at) => at.saturating_add(1),
        None => 0,
    };
    let most = folder.saturating_add(MOST_OF_NAME.saturating_sub(more));
    path.get(..path.floor_char_boundary(most)).unwrap_or(path)
}
