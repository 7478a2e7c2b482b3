//! An older report, with which files are compared.

ghost use Rattle.std.specs.Prelude.{◌≡◌, ◌∷◌, ℕ, List, [], Some, None, OnOk, OnErr, MatchOption};
ghost use Rattle.std.specs.String.{string_bytes};
ghost use Rattle.flac_shelf.specs.Past.{earlier_at};
ghost use Rattle.flac_shelf.specs.Records.{report_of, left_in, with_path, without, HasNoted, SaysTheSame};

use crate::past::{Earlier, Past};
use crate::record::Record;
use std::alloc::{AllocError, Global};
use std::collections::BTreeSet;

/// An older report, and the paths of its files that were not met so far. It is in memory: some 250 bytes for each file,
/// and its path twice.
#[derive(Drop)]
pub struct Older {
    pub(crate) record: Record,
    left: BTreeSet<String>,
}

impl Older {
    /// It has no file.
    pub fn none(alloc: Global) -> Older
        ensures record { (path : List ℕ) → report_of result.record path ≡ None }
        ensures left { left_in result ≡ [] }
    {
        Older {
            record: Record::none(alloc),
            left: BTreeSet::new(alloc),
        }
    }

    /// Adds a file, in place of one of the same path. It is not met so far.
    ///
    /// # Errors
    /// Memory ran out. The report is as it was, but its path may be among those that were not met.
    #[tactic(auto, using(crate::proofs::Compared::added))]
    pub fn add(&mut self, path: String, past: Past) -> Result<(), AllocError>
        ensures added { OnOk result (HasNoted self.old.record (string_bytes path) past self.new.record) }
        ensures left { OnOk result (left_in self.new ≡ with_path (string_bytes path) (left_in self.old)) }
        ensures unchanged { OnErr result (SaysTheSame self.old.record self.new.record) }
    {
        let copy = path.clone()?;
        match self.left.insert(copy) {
            Ok(_) => self.record.add(path, past),
            Err(_) => Err(AllocError),
        }
    }

    /// What it has at a path.
    pub fn earlier(&self, path: &str) -> Earlier
        ensures { result ≡ earlier_at (report_of self.now.record path.now) }
    {
        match self.record.get(path) {
            Some(past) => Earlier::Was(past),
            None => Earlier::New,
        }
    }

    /// Meets the file of a path.
    pub fn meet(&mut self, path: &str)
        ensures record { self.new.record ≡ self.old.record }
        ensures left { left_in self.new ≡ without path.now (left_in self.old) }
    {
        self.left.remove(path);
    }

    /// Takes out the first of the paths that were not met, in the order of their bytes.
    pub fn take_gone(&mut self) -> Option<String>
        ensures { MatchOption result (left_in self.old ≡ [])
            (λ path. left_in self.old ≡ string_bytes path ∷ left_in self.new) }
    {
        self.left.pop_first()
    }
}
