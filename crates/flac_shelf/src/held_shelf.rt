//! Files in memory.

ghost use Rattle.std.specs.Prelude.{◌≡◌, ◌<◌, true, false, [], length, map};
ghost use Rattle.flac_shelf.specs.Listed.{Listed};

use crate::edges::{Edges, edges_of};
use crate::past::Earlier;
use crate::shelf::Shelf;
use crate::stamp::Stamp;
use flac_bits::Memory;

/// A file in memory.
#[derive(Clone, Copy)]
pub struct HeldFile<'a> {
    /// Its path, as it is reported.
    pub path: &'a str,
    /// Its size and its time, as they are reported.
    pub stamp: Stamp,
    /// Its bytes; `None` if it cannot be opened.
    pub bytes: Option<&'a [u8]>,
    /// Whether it can be read more than once.
    pub again: bool,
}

/// A list of files in memory. None of them fails.
#[derive(Drop)]
pub struct HeldShelf<'a> {
    at: HeldFile<'a>,
    rest: &'a [HeldFile<'a>],
}

impl<'a> HeldShelf<'a> {
    /// A list of these files, the first of them first.
    pub fn new(files: &'a [HeldFile<'a>]) -> HeldShelf<'a>
        ensures { result.rest.now ≡ files.now }
    {
        let at = HeldFile {
            path: "",
            stamp: Stamp::unknown(),
            bytes: None,
            again: false,
        };
        HeldShelf { at, rest: files }
    }
}

impl<'a> Shelf for HeldShelf<'a> {
    type File = Memory<'a>;

    ghost use Rattle.flac_shelf.specs.Held.{listed_of};

    ghost known = { λ _. true };

    ghost current = { λ s. listed_of s.at };

    ghost files = { λ s. map listed_of s.rest.now };

    ghost gone = { λ _. [] };

    ghost faults = { λ _. 0 };

    ghost most = { λ s. length s.rest.now };

    fn next(&mut self) -> bool {
        let rest = self.rest;
        if rest.is_empty() {
            return false;
        }
        self.at = rest[0];
        self.rest = &rest[1..];
        true
    }

    fn path(&self) -> &str {
        self.at.path
    }

    fn stamp(&self) -> Stamp {
        self.at.stamp
    }

    fn earlier(&self) -> Earlier {
        Earlier::Unasked
    }

    fn reads_again(&self) -> bool {
        self.at.again
    }

    fn edges(&self) -> Option<Edges> {
        match self.at.bytes {
            Some(bytes) => {
                if self.at.again {
                    Some(edges_of(bytes))
                } else {
                    None
                }
            }
            None => None,
        }
    }

    fn tagged(&self) -> Option<bool> {
        None
    }

    fn open(&mut self) -> Option<Memory<'a>> {
        match self.at.bytes {
            Some(bytes) => Some(Memory::new(bytes)),
            None => None,
        }
    }

    fn close(&mut self, _file: Memory<'a>) {}
}
