//! What a report has of files.

ghost use Rattle.std.specs.Prelude.{◌≡◌, ℕ, List, Some, None, OnOk, OnErr};
ghost use Rattle.std.specs.String.{string_bytes};
ghost use Rattle.flac_shelf.specs.Records.{report_of, HasNoted};

use crate::past::Past;
use std::alloc::{AllocError, Global};
use std::collections::BTreeMap;

/// What a report has of files, by their paths. It is in memory: some 200 bytes for each file, and its path.
#[derive(Drop)]
pub struct Record {
    files: BTreeMap<String, Past>,
}

impl Record {
    /// It has no file.
    pub fn none(alloc: Global) -> Record
        ensures { (path : List ℕ) → report_of result path ≡ None }
    {
        Record {
            files: BTreeMap::new(alloc),
        }
    }

    /// Adds a file, in place of one of the same path.
    ///
    /// # Errors
    /// Memory ran out.
    #[tactic(auto, using(std::proofs::lemmas::Map::Text::text_keys))]
    pub fn add(&mut self, path: String, past: Past) -> Result<(), AllocError>
        ensures added { OnOk result (HasNoted self.old (string_bytes path) past self.new) }
        ensures unchanged { OnErr result ((other : List ℕ) → report_of self.new other ≡ report_of self.old other) }
    {
        match self.files.insert(path, past) {
            Ok(_) => Ok(()),
            Err(_) => Err(AllocError),
        }
    }

    /// What it has at a path.
    pub fn get(&self, path: &str) -> Option<Past>
        ensures { result ≡ report_of self.now path.now }
    {
        match self.files.get(path) {
            Some(past) => Some(*past),
            None => None,
        }
    }
}
