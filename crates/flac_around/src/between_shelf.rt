//! A list of files that are read between tags.

ghost use Rattle.std.specs.Prelude.{◌≡◌, ◌<◌, map};

use crate::between::Between;
use crate::tags::has_tags;
use flac_shelf::{Earlier, Edges, Shelf, Stamp};

/// The files of another list, each of which is read between the tags that other programs put around a stream.
#[derive(Drop)]
pub struct BetweenShelf<S> {
    shelf: S,
}

impl<S: Shelf> BetweenShelf<S> {
    /// The files of this list.
    pub fn new(shelf: S) -> BetweenShelf<S>
        ensures { result.shelf ≡ shelf }
    {
        BetweenShelf { shelf }
    }

    /// Returns the list.
    pub fn into_shelf(self) -> S
        ensures { result ≡ self.shelf }
    {
        let BetweenShelf { shelf } = self;
        shelf
    }
}

impl<S: Shelf> Shelf for BetweenShelf<S> {
    type File = Between<S::File>;

    ghost use Rattle.flac_around.specs.Shelves.{between_listed};

    ghost known = { λ s. S.known s.shelf };

    ghost current = { λ s. between_listed (S.current s.shelf) };

    ghost files = { λ s. map between_listed (S.files s.shelf) };

    ghost gone = { λ s. S.gone s.shelf };

    ghost faults = { λ s. S.faults s.shelf };

    ghost most = { λ s. S.most s.shelf };

    #[tactic(auto, using(crate::proofs::Shelves::next_listed, crate::proofs::Shelves::over_listed))]
    fn next(&mut self) -> bool {
        self.shelf.next()
    }

    fn path(&self) -> &str {
        self.shelf.path()
    }

    fn stamp(&self) -> Stamp {
        self.shelf.stamp()
    }

    fn earlier(&self) -> Earlier {
        self.shelf.earlier()
    }

    #[tactic(auto, using(crate::proofs::Shelves::again_listed))]
    fn reads_again(&self) -> bool {
        self.shelf.reads_again()
    }

    fn edges(&self) -> Option<Edges> {
        self.shelf.edges()
    }

    #[tactic(auto, using(crate::proofs::Shelves::untagged_listed))]
    fn tagged(&self) -> Option<bool> {
        match self.shelf.edges() {
            Some(edges) => Some(has_tags(&edges)),
            None => None,
        }
    }

    fn open(&mut self) -> Option<Between<S::File>> {
        match self.shelf.open() {
            Some(file) => Some(Between::new(file)),
            None => None,
        }
    }

    fn close(&mut self, file: Between<S::File>) {
        self.shelf.close(file.into_source());
    }
}
