//! Files that are streams, by their names, and the names of folders.

use crate::names::{names_native, names_ogg};
use flac_shelf::Stamp;
use std::fs::{DirEntry, File, Metadata};
use std::io;
use std::io::{ErrorKind, Read};
use std::os::unix::fs::MetadataExt;

/// The path that stands for standard input.
pub(crate) const STANDARD: &str = "-";

/// What is to be done with a path.
#[derive(Clone, Copy)]
pub(crate) enum Look {
    /// It is a file that is read; `again`: more than once, if need be.
    Read { again: bool, stamp: Stamp },
    /// It is a folder, whose files are read.
    Folder,
    /// It is to be read, and cannot be.
    Refused,
    /// It is passed over.
    Pass,
}

/// How many bytes of an Ogg file show what its first packet is: a page header of 27 bytes and the lengths of up to 255
/// parts (RFC 3533, section 6), and the first 8 bytes of the packet.
const FRONT: usize = 290;

/// Whether a packet is the first of another stream than FLAC's: of Vorbis, Opus, Speex, Theora, a skeleton, or PCM.
fn is_of_another(packet: &[u8]) -> bool {
    packet.starts_with(b"\x01vorbis")
        || packet.starts_with(b"OpusHead")
        || packet.starts_with(b"Speex   ")
        || packet.starts_with(b"\x80theora")
        || packet.starts_with(b"fishead\0")
        || packet.starts_with(b"PCM     ")
}

/// Whether these first bytes of a file are an Ogg page whose first packet is not FLAC's, but that of another stream
/// which is known.
fn begins_otherwise(front: &[u8]) -> bool {
    let Some(parts) = front.get(26) else {
        return false;
    };
    let start = 27 + usize::from(*parts);
    front.starts_with(b"OggS") && is_of_another(&front[start.min(front.len())..])
}

/// Reads the first bytes of a file.
///
/// # Errors
/// That of the system, or that memory ran out.
fn front_of(rt: &HostRuntime, path: &str) -> io::Result<Vec<u8>> {
    let mut front = Vec::new(rt.alloc());
    File::open(rt, path)?
        .take(FRONT as u64)
        .read_to_end(&mut front)?;
    Ok(front)
}

/// The size and the time of a file; those of a pipe or a device say nothing.
fn stamp_of(found: &Metadata) -> Stamp {
    if !found.is_file() {
        return Stamp::unknown();
    }
    Stamp {
        bytes: Some(found.len()),
        modified: u64::try_from(found.mtime()).ok(),
        nanoseconds: u64::try_from(found.mtime_nsec()).ok(),
    }
}

/// What is to be done with a path that the caller named: a file is read whatever its name, and links are followed. `-`
/// is standard input.
pub(crate) fn look_at_named(rt: &HostRuntime, path: &str) -> Look {
    if path == STANDARD {
        return Look::Read {
            again: false,
            stamp: Stamp::unknown(),
        };
    }
    match std::fs::metadata(rt, path) {
        Ok(found) if found.is_dir() => Look::Folder,
        Ok(found) => Look::Read {
            again: found.is_file(),
            stamp: stamp_of(&found),
        },
        Err(_) => Look::Refused,
    }
}

/// What is to be done with a path of a folder. A file is read if its name says that it is a stream. A link to a folder
/// is passed over, so that a walk ends. What is not known to be no folder is refused.
pub(crate) fn look_at_found(rt: &HostRuntime, path: &str) -> Look {
    match std::fs::symlink_metadata(rt, path) {
        Ok(found) if found.is_dir() => Look::Folder,
        _ if names_native(path) => look_at_stream(rt, path),
        _ if names_ogg(path) => look_at_ogg(rt, path),
        Ok(_) => Look::Pass,
        // (it was removed meanwhile)
        Err(error) if error.kind() == ErrorKind::NotFound => Look::Pass,
        Err(_) => Look::Refused,
    }
}

/// What is to be done with a file, or with a link, whose name is that of a stream: pipes and devices are refused.
fn look_at_stream(rt: &HostRuntime, path: &str) -> Look {
    match std::fs::metadata(rt, path) {
        Ok(found) if found.is_dir() => Look::Pass,
        Ok(found) if found.is_file() => Look::Read {
            again: true,
            stamp: stamp_of(&found),
        },
        _ => Look::Refused,
    }
}

/// The same of one whose name is that of an Ogg stream: it is passed over if it is one of something else.
fn look_at_ogg(rt: &HostRuntime, path: &str) -> Look {
    match look_at_stream(rt, path) {
        Look::Read { again, stamp } => match front_of(rt, path) {
            Ok(front) if begins_otherwise(front.as_slice()) => Look::Pass,
            Ok(_) => Look::Read { again, stamp },
            Err(_) => Look::Refused,
        },
        other => other,
    }
}

/// The paths of what is in a folder, in the order of the bytes of their names.
#[derive(Drop)]
pub(crate) struct Names {
    pub(crate) paths: Vec<String>,
    /// Whether a name could not be read, as one that is no UTF-8.
    pub(crate) lacks_one: bool,
}

impl Names {
    /// Reads a folder.
    ///
    /// # Errors
    /// That of the system, or that memory ran out.
    pub(crate) fn of(rt: &HostRuntime, folder: &str) -> io::Result<Names> {
        let mut paths = Vec::new(rt.alloc());
        let lacks_one = add_paths(rt, folder, &mut paths)?;
        paths.sort_unstable();
        Ok(Names { paths, lacks_one })
    }
}

/// Adds the paths of what is in a folder. Returns whether a name could not be read.
///
/// # Errors
/// That of the system, or that memory ran out.
fn add_paths(rt: &HostRuntime, folder: &str, paths: &mut Vec<String>) -> io::Result<bool> {
    let mut lacks_one = false;
    for entry in std::fs::read_dir(rt, folder)? {
        match entry {
            Ok(entry) => add_path(rt, &entry, paths)?,
            Err(_) => lacks_one = true,
        }
    }
    Ok(lacks_one)
}

/// Adds the path of what is in a folder.
///
/// # Errors
/// Memory ran out.
fn add_path(rt: &HostRuntime, entry: &DirEntry, paths: &mut Vec<String>) -> io::Result<()> {
    paths.push(String::from_str(rt.alloc(), entry.path().to_string_lossy())?)?;
    Ok(())
}
