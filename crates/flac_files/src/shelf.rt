//! The files of paths that are named, and of the folders among them.

ghost use Rattle.std.specs.Prelude.{◌≡◌, ◌≤◌, false, [], None};

use crate::files::Input;
use crate::job_files::StandIns;
use crate::progress::Progress;
use crate::walk::{Look, Names, look_at_found, look_at_named};
use flac_bits::Counted;
use flac_shelf::{Earlier, Edges, Shelf, Stamp};
use std::fs::File;
use std::io;
use std::os::unix::fs::FileExt;

/// A path that is still to be looked at.
#[derive(Drop)]
struct Pending {
    path: String,
    /// Whether the caller named it. Otherwise it was found in a folder.
    is_named: bool,
}

/// Files of the system, one after another: those that are named, whatever their names, and those of the named folders
/// and of the folders in them whose names end in `.flac`, `.fla`, `.oga` or `.ogg`, in any case, but Ogg files whose
/// first packet is that of another codec. The names of a folder come in the order of their bytes. Links to folders are
/// not followed, unless they are named. `-` is standard input.
///
/// A folder that cannot be read, and one with a name that is no UTF-8, come as files that cannot be opened; so does a
/// pipe or a device that is found in a folder, and whatever the system tells nothing of. The names of the folders that
/// are under way are held in memory.
#[derive(Drop)]
pub struct FileShelf {
    rt: HostRuntime,
    /// The next path is the last.
    pending: Vec<Pending>,
    /// The path of the file that it is at.
    path: String,
    look: Look,
    /// How many paths may still be looked at.
    room: u64,
    progress: Progress,
    /// Whether the progress was shown at this file.
    is_shown: bool,
    standard: StandIns,
}

impl FileShelf {
    /// The files of these paths, in this order.
    ///
    /// # Errors
    /// Memory ran out.
    pub fn new(rt: &HostRuntime, paths: &[&str]) -> io::Result<FileShelf> {
        let own = rt.clone()?;
        let mut pending = Vec::new(rt.alloc());
        add_named(rt, paths, &mut pending)?;
        Ok(FileShelf {
            rt: own,
            pending,
            path: String::new(rt.alloc()),
            look: Look::Pass,
            room: u64::MAX,
            progress: Progress::new(rt),
            is_shown: false,
            standard: StandIns::new(rt),
        })
    }

    /// Shows that the file that it is at begins, once.
    fn show(&mut self)
        ensures { self.new.room ≡ self.old.room }
    {
        if !self.is_shown {
            self.is_shown = true;
            let stamp = self.stamp();
            self.progress.show(&self.rt, stamp.bytes);
        }
    }

    /// Looks at a path. Returns whether it is a file, or cannot be read.
    fn look_at(&mut self, pending: Pending) -> bool
        ensures { self.new.room ≡ self.old.room }
    {
        let Pending { path, is_named } = pending;
        let look = if is_named {
            look_at_named(&self.rt, path.as_str())
        } else {
            look_at_found(&self.rt, path.as_str())
        };
        self.look = match look {
            Look::Folder => self.walk(path.as_str()),
            look => look,
        };
        self.path = path;
        !matches!(self.look, Look::Pass)
    }

    /// Adds the paths of a folder. Returns [`Look::Refused`] if it cannot be read, or has a name that cannot.
    fn walk(&mut self, folder: &str) -> Look
        ensures { self.new.room ≡ self.old.room }
    {
        match Names::of(&self.rt, folder) {
            Ok(names) => match self.add(names) {
                Ok(true) => Look::Pass,
                _ => Look::Refused,
            },
            Err(_) => Look::Refused,
        }
    }

    /// Adds the paths of a folder, the first of them last. Returns whether all its names could be read.
    ///
    /// # Errors
    /// Memory ran out.
    fn add(&mut self, names: Names) -> io::Result<bool>
        ensures { self.new.room ≡ self.old.room }
    {
        let Names {
            mut paths,
            lacks_one,
        } = names;
        add_reversed(&mut self.pending, &mut paths)?;
        Ok(!lacks_one)
    }
}

/// Adds paths that the caller named, the last of them first.
///
/// # Errors
/// Memory ran out.
fn add_named(rt: &HostRuntime, paths: &[&str], pending: &mut Vec<Pending>) -> io::Result<()> {
    for path in paths.iter().rev() {
        pending.push(Pending {
            path: String::from_str(rt.alloc(), path)?,
            is_named: true,
        })?;
    }
    Ok(())
}

/// Moves paths, the last of them first.
///
/// # Errors
/// Memory ran out.
fn add_reversed(pending: &mut Vec<Pending>, paths: &mut Vec<String>) -> io::Result<()> {
    for _ in 0..paths.len() {
        if let Some(path) = paths.pop() {
            pending.push(Pending {
                path,
                is_named: false,
            })?;
        }
    }
    Ok(())
}

/// How a file begins and ends.
///
/// # Errors
/// That of the system.
fn read_edges(rt: &HostRuntime, path: &str) -> io::Result<Edges> {
    let file = File::open(rt, path)?;
    let size = file.metadata()?.len();
    edges_of(&file, size)
}

/// How a file of this size begins and ends.
///
/// # Errors
/// That of the system.
fn edges_of(file: &File, size: u64) -> io::Result<Edges> {
    let mut first = [0; 10];
    if size >= 10 {
        file.read_exact_at(&mut first, 0)?;
    }
    let mut last = [0; 128];
    if size >= 128 {
        file.read_exact_at(&mut last, size - 128)?;
    }
    Ok(Edges { size, first, last })
}

impl Shelf for FileShelf {
    type File = Counted<Input>;

    ghost use Rattle.std.specs.Prelude.{false, [], None};
    ghost use Rattle.flac_shelf.specs.Listed.{no_stamp};
    ghost use Rattle.flac_shelf.specs.declared.past.Earlier.TheVariants.{Unasked};

    ghost known = { λ _. false };

    ghost current = { λ _. record { path = []; stamp = no_stamp; earlier = Unasked; stored = None; tagged = None; contents = None } };

    ghost files = { λ _. [] };

    ghost gone = { λ _. [] };

    ghost faults = { λ _. 0 };

    ghost most = { λ s. s.room };

    fn next(&mut self) -> bool {
        'paths: while self.room > 0 {
            self.room -= 1;
            let Some(pending) = self.pending.pop() else {
                return false;
            };
            if self.look_at(pending) {
                self.is_shown = false;
                return true;
            }
        }
        false
    }

    fn path(&self) -> &str {
        self.path.as_str()
    }

    fn stamp(&self) -> Stamp {
        match self.look {
            Look::Read { stamp, .. } => stamp,
            _ => Stamp::unknown(),
        }
    }

    fn earlier(&self) -> Earlier {
        Earlier::Unasked
    }

    fn reads_again(&self) -> bool {
        matches!(self.look, Look::Read { again: true, .. })
    }

    fn edges(&self) -> Option<Edges> {
        if !self.reads_again() {
            return None;
        }
        read_edges(&self.rt, self.path.as_str()).ok()
    }

    fn tagged(&self) -> Option<bool> {
        None
    }

    fn open(&mut self) -> Option<Counted<Input>> {
        self.show();
        match self.look {
            Look::Read { .. } => match Input::open(&self.rt, self.path.as_str()) {
                Ok(file) => Some(Counted::new(file)),
                Err(_) => None,
            },
            _ => None,
        }
    }

    fn close(&mut self, _file: Counted<Input>) {}
}
