//! A list of files with what an older report has of each.

ghost use Rattle.std.specs.Prelude.{◌≡◌, ◌<◌, true, false, [], map};
ghost use Rattle.flac_shelf.specs.Listed.{Listed};
ghost use Rattle.flac_shelf.specs.Records.{compared_by, left_of, without};

use crate::edges::Edges;
use crate::older::Older;
use crate::past::Earlier;
use crate::shelf::Shelf;
use crate::stamp::Stamp;

/// The files of another list, each with what an older report has of it, if there is one.
#[derive(Drop)]
pub struct ComparedShelf<S> {
    shelf: S,
    older: Option<Older>,
}

impl<S: Shelf> ComparedShelf<S> {
    /// The files of this list.
    pub fn new(shelf: S, older: Option<Older>) -> ComparedShelf<S>
        ensures shelf { result.shelf ≡ shelf }
        ensures older { result.older ≡ older }
    {
        ComparedShelf { shelf, older }
    }

    /// Returns the older report, whose files that came are met.
    pub fn into_older(self) -> Option<Older>
    where
        S: Drop,
        ensures { result ≡ self.older }
    {
        let ComparedShelf { shelf: _, older } = self;
        older
    }
}

/// Meets the file of a path, if there is an older report.
fn meet(older: &mut Option<Older>, path: &str)
    ensures compared { (file : Listed) → compared_by older.new file ≡ compared_by older.old file }
    ensures left { left_of older.new ≡ without path.now (left_of older.old) }
{
    if let Some(older) = older {
        older.meet(path);
    }
}

impl<S: Shelf> Shelf for ComparedShelf<S> {
    type File = S::File;

    ghost use Rattle.std.specs.Prelude.{map};
    ghost use Rattle.flac_shelf.specs.Records.{compared_by, left_of, without_all};

    ghost known = { λ s. S.known s.shelf };

    ghost current = { λ s. compared_by s.older (S.current s.shelf) };

    ghost files = { λ s. map (compared_by s.older) (S.files s.shelf) };

    ghost gone = { λ s. without_all (S.files s.shelf) (left_of s.older) };

    ghost faults = { λ s. S.faults s.shelf };

    ghost most = { λ s. S.most s.shelf };

    #[tactic(auto, using(crate::proofs::Compared::compared_next, crate::proofs::Compared::compared_over, crate::proofs::Compared::gone_next, crate::proofs::Compared::gone_over))]
    fn next(&mut self) -> bool {
        if !self.shelf.next() {
            return false;
        }
        meet(&mut self.older, self.shelf.path());
        true
    }

    fn path(&self) -> &str {
        self.shelf.path()
    }

    fn stamp(&self) -> Stamp {
        self.shelf.stamp()
    }

    fn earlier(&self) -> Earlier {
        match &self.older {
            Some(older) => older.earlier(self.shelf.path()),
            None => self.shelf.earlier(),
        }
    }

    fn reads_again(&self) -> bool {
        self.shelf.reads_again()
    }

    fn edges(&self) -> Option<Edges> {
        self.shelf.edges()
    }

    fn tagged(&self) -> Option<bool> {
        self.shelf.tagged()
    }

    fn open(&mut self) -> Option<S::File> {
        self.shelf.open()
    }

    fn close(&mut self, file: S::File) {
        self.shelf.close(file);
    }
}
