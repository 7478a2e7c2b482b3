//! The files of `flac tag`.

ghost use Rattle.std.specs.Prelude.{[], false, ◌≡◌, IfErr};
ghost use Rattle.flac_files.specs.Unknown.{nothing_known, not_known};

use crate::files::{Output, holds_alone};
use crate::job_files::FileRefused;
use crate::replacement::{Replacement, create_beside};
use flac_edit::{Device, DeviceError};
use std::fs::{File, Metadata, OpenOptions};
use std::io;
use std::io::{ErrorKind, Read, Seek, SeekFrom};
use std::os::unix::fs::{FileExt, MetadataExt, fchown};

/// A file of the system that is written in place. No contract knows its bytes.
#[derive(Drop)]
pub struct FileDevice {
    file: File,
}

impl Device for FileDevice {
    ghost known = { λ _. false };

    ghost seen = { λ _. [] };

    ghost time = { λ _. nothing_known };

    ghost faults = { λ _. 0 };

    ghost counts_now = { λ f t c known le now. not_known known };

    ghost only_now = { λ f c known left. not_known known };

    ghost leaves_seen = { λ f known. not_known known };

    fn write_at(&mut self, at: usize, bytes: &[u8]) -> Result<(), DeviceError> {
        match self.file.write_all_at(bytes, at as u64) {
            Ok(()) => Ok(()),
            Err(_) => Err(DeviceError::Failed),
        }
    }

    fn sync(&mut self) -> Result<(), DeviceError> {
        match self.file.sync_all() {
            Ok(()) => Ok(()),
            Err(_) => Err(DeviceError::Failed),
        }
    }
}

/// In which words a file is refused.
#[derive(Clone, Copy)]
struct Refusals {
    not_regular: &'static str,
    held: &'static str,
}

const TAGGED: Refusals = Refusals {
    not_regular: "tagged: it is no regular file",
    held: "tagged: another program edits it",
};

const EDITED: Refusals = Refusals {
    not_regular: "edited: it is no regular file",
    held: "edited: another program edits it",
};

/// A file whose comments or blocks are edited, opened for reading and writing.
#[derive(Drop)]
pub struct TagFile<'a> {
    path: &'a str,
    file: File,
    found: Metadata,
}

impl<'a> TagFile<'a> {
    /// Opens a regular file, to which symbolic links may lead, locks it for as long as it is open, so that no other
    /// edit of it begins, and stores what was written to it before.
    ///
    /// # Errors
    /// The file cannot be opened for reading and writing, is no regular file, is locked by another program, or cannot
    /// be stored.
    pub fn open(rt: &HostRuntime, path: &'a str) -> Result<TagFile<'a>, FileRefused<'a>> {
        TagFile::open_as(rt, path, TAGGED)
    }

    /// Opens a file as [`TagFile::open`] does, to edit its metadata blocks.
    ///
    /// # Errors
    /// Those of [`TagFile::open`].
    pub fn open_to_edit(rt: &HostRuntime, path: &'a str) -> Result<TagFile<'a>, FileRefused<'a>> {
        TagFile::open_as(rt, path, EDITED)
    }

    /// Opens a file, which is refused in these words.
    ///
    /// # Errors
    /// Those of [`TagFile::open`].
    fn open_as(
        rt: &HostRuntime,
        path: &'a str,
        words: Refusals,
    ) -> Result<TagFile<'a>, FileRefused<'a>> {
        let Ok(file) = OpenOptions::new().read(true).write(true).open(rt, path) else {
            return Err(FileRefused {
                path,
                what: "opened",
            });
        };
        match held(rt, path, &file, words) {
            Ok(found) => Ok(TagFile { path, file, found }),
            Err(what) => Err(FileRefused { path, what }),
        }
    }

    /// Whether the file begins as an Ogg stream does: with `OggS` (RFC 3533, section 6). A file that cannot be read
    /// does not.
    pub fn is_ogg(&self) -> bool {
        is_ogg(&self.file)
    }

    /// That the file is refused in these words.
    pub fn refused(&self, what: &'static str) -> FileRefused<'a>
        ensures path { result.path.now ≡ self.now.path.now }
        ensures what { result.what.now ≡ what.now }
    {
        FileRefused {
            path: self.path,
            what,
        }
    }

    /// The file as a source of bytes, from its first byte on.
    ///
    /// # Errors
    /// That of the system.
    pub fn reader(&self) -> Result<File, FileRefused<'a>> {
        match from_start(&self.file) {
            Ok(file) => Ok(file),
            Err(_) => Err(FileRefused {
                path: self.path,
                what: "read",
            }),
        }
    }

    /// All bytes of the file.
    ///
    /// # Errors
    /// That of the system, or memory ran out.
    pub fn contents(&self, rt: &HostRuntime) -> Result<Vec<u8>, FileRefused<'a>> {
        let mut file = self.reader()?;
        let mut bytes = Vec::new(rt.alloc());
        match file.read_to_end(&mut bytes) {
            Ok(_) => Ok(bytes),
            Err(_) => Err(FileRefused {
                path: self.path,
                what: "read",
            }),
        }
    }

    /// The file as a device that is written in place.
    ///
    /// # Errors
    /// That of the system.
    pub fn device(&self) -> Result<FileDevice, FileRefused<'a>> {
        match self.file.try_clone() {
            Ok(file) => Ok(FileDevice { file }),
            Err(_) => Err(FileRefused {
                path: self.path,
                what: "opened",
            }),
        }
    }

    /// Gives the file the time back at which it was changed before it was opened.
    ///
    /// # Errors
    /// That of the system.
    pub fn keep_time(&self) -> Result<(), FileRefused<'a>> {
        self.give_time(&self.file)
    }

    /// Gives a new file that is to take its place the time at which it was changed. What is no regular file stays as it
    /// is.
    ///
    /// # Errors
    /// That of the system.
    pub fn keep_time_of(&self, output: &Output) -> Result<(), FileRefused<'a>> {
        match output {
            Output::File(file) => self.give_time(file),
            _ => Ok(()),
        }
    }

    /// Gives a file the time at which this one was changed.
    ///
    /// # Errors
    /// That of the system.
    fn give_time(&self, file: &File) -> Result<(), FileRefused<'a>> {
        match given_time(file, &self.found) {
            Ok(()) => Ok(()),
            Err(_) => Err(FileRefused {
                path: self.path,
                what: "given its time back",
            }),
        }
    }

    /// A new file beside it that is to take its place, with its permissions, and with its owner if the system lets it;
    /// and what is left to do when it is written.
    ///
    /// # Errors
    /// The new file cannot be created.
    pub fn beside(&self, rt: &HostRuntime) -> Result<(Output, NewFile<'a>), FileRefused<'a>> {
        let path = self.path;
        let Ok((file, replacement)) = create_beside(rt, path, &self.found) else {
            return Err(FileRefused {
                path,
                what: "replaced",
            });
        };
        // Only a privileged user may give a file away.
        let _ = fchown(&file, Some(self.found.uid()), Some(self.found.gid()));
        Ok((Output::File(file), NewFile { path, replacement }))
    }
}

/// A new file that is to take the place of another.
#[derive(Drop)]
pub struct NewFile<'a> {
    path: &'a str,
    replacement: Replacement,
}

impl<'a> NewFile<'a> {
    /// Ends a job of this status, which wrote to `output`: if the status is 0, the new file is stored and takes the
    /// place of the other, and else it is removed.
    ///
    /// # Errors
    /// The new file cannot be stored, or cannot take the place of the other: it stays beside it.
    pub fn end(self, rt: &HostRuntime, output: Output, status: u8) -> Result<(), FileRefused<'a>> {
        let NewFile { path, replacement } = self;
        if status != 0 {
            replacement.remove(rt);
            return Ok(());
        }
        match replacement.end(rt, output, status) {
            Ok(()) => Ok(()),
            Err(_) => Err(FileRefused {
                path,
                what: "replaced",
            }),
        }
    }
}

/// Locks an opened file, and stores what was written to it before. Returns what is known of it.
///
/// # Errors
/// In which words it is refused.
fn held(
    rt: &HostRuntime,
    path: &str,
    file: &File,
    words: Refusals,
) -> Result<Metadata, &'static str> {
    let Ok(found) = regular(file) else {
        return Err(words.not_regular);
    };
    if !holds_alone(rt, path, file, &found) {
        return Err(words.held);
    }
    if file.sync_all().is_err() {
        return Err("stored");
    }
    Ok(found)
}

/// What is known of a regular file.
///
/// # Errors
/// That of the system; `InvalidInput` if it is no regular file.
fn regular(file: &File) -> io::Result<Metadata> {
    let found = file.metadata()?;
    if !found.is_file() {
        return Err(io::Error::from(ErrorKind::InvalidInput));
    }
    Ok(found)
}

/// Gives a file the time at which another was changed.
///
/// # Errors
/// That of the system.
fn given_time(file: &File, found: &Metadata) -> io::Result<()> {
    file.set_modified(found.modified()?)
}

/// Whether a file begins as an Ogg stream (RFC 3533, section 6). False if it cannot be read.
fn is_ogg(file: &File) -> bool {
    let mut front = [0; 4];
    match file.read_exact_at(&mut front, 0) {
        Ok(()) => front == *b"OggS",
        Err(_) => false,
    }
}

/// Whether a regular file at this path begins as an Ogg stream. A file that cannot be opened does not.
pub fn is_ogg_at(rt: &HostRuntime, path: &str) -> bool {
    matches!(begins_as_ogg(rt, path), Ok(true))
}

/// Whether a regular file is at this path that begins as an Ogg stream.
///
/// # Errors
/// That of the system.
fn begins_as_ogg(rt: &HostRuntime, path: &str) -> io::Result<bool> {
    if !std::fs::metadata(rt, path)?.is_file() {
        return Ok(false);
    }
    Ok(is_ogg(&File::open(rt, path)?))
}

/// The same opened file, to be read from its first byte on.
///
/// # Errors
/// That of the system.
fn from_start(file: &File) -> io::Result<File> {
    let mut file = file.try_clone()?;
    file.seek(SeekFrom::Start(0))?;
    Ok(file)
}
