//! A list of files without those that a report has as good.

ghost use Rattle.std.specs.Prelude.{◌≡◌, ◌<◌, true, false, []};
ghost use Rattle.flac_shelf.specs.Past.{has_good};
ghost use Rattle.flac_shelf.specs.Records.{report_of};

use crate::edges::Edges;
use crate::past::Earlier;
use crate::record::Record;
use crate::shelf::Shelf;
use crate::stamp::Stamp;

/// The files of another list without those that a report has as good, at the same size and time, which are known.
#[derive(Drop)]
pub struct ResumedShelf<S> {
    shelf: S,
    good: Record,
}

impl<S: Shelf> ResumedShelf<S> {
    /// The files of this list without those that this report has as good.
    pub fn new(shelf: S, good: Record) -> ResumedShelf<S>
        ensures shelf { result.shelf ≡ shelf }
        ensures good { result.good ≡ good }
    {
        ResumedShelf { shelf, good }
    }

    /// Whether the report has the file as good that the list is at.
    fn has_good(&self) -> bool
        ensures { S.known self.now.shelf ≡ true →
            result ≡ has_good (report_of self.now.good) (S.current self.now.shelf) }
    {
        match self.good.get(self.shelf.path()) {
            Some(past) => past.is_good_at(&self.shelf.stamp()),
            None => false,
        }
    }
}

impl<S: Shelf> Shelf for ResumedShelf<S> {
    type File = S::File;

    ghost use Rattle.flac_shelf.specs.Past.{without_good};
    ghost use Rattle.flac_shelf.specs.Records.{report_of};

    ghost known = { λ s. S.known s.shelf };

    ghost current = { λ s. S.current s.shelf };

    ghost files = { λ s. without_good (report_of s.good) (S.files s.shelf) };

    ghost gone = { λ s. S.gone s.shelf };

    ghost faults = { λ s. S.faults s.shelf };

    ghost most = { λ s. S.most s.shelf };

    fn next(&mut self) -> bool {
        'files: while self.shelf.next() {
            if !self.has_good() {
                return true;
            }
        }
        false
    }

    fn path(&self) -> &str {
        self.shelf.path()
    }

    fn stamp(&self) -> Stamp {
        self.shelf.stamp()
    }

    fn earlier(&self) -> Earlier {
        self.shelf.earlier()
    }

    fn reads_again(&self) -> bool {
        self.shelf.reads_again()
    }

    fn edges(&self) -> Option<Edges> {
        self.shelf.edges()
    }

    fn tagged(&self) -> Option<bool> {
        self.shelf.tagged()
    }

    fn open(&mut self) -> Option<S::File> {
        self.shelf.open()
    }

    fn close(&mut self, file: S::File) {
        self.shelf.close(file);
    }
}
