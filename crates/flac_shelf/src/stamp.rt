//! What a system knows of a file without reading it.

ghost use Rattle.std.specs.Prelude.{◌≡◌};
ghost use Rattle.flac_shelf.specs.Listed.{no_stamp};
ghost use Rattle.flac_shelf.specs.Past.{is_known, same_stamp};

/// What a system knows of a file without reading it; `None` what it does not know.
#[derive(Clone, Copy)]
pub struct Stamp {
    /// How many bytes the file has.
    pub bytes: Option<u64>,
    /// When it was last modified, in whole seconds since the beginning of 1970, UTC.
    pub modified: Option<u64>,
    /// The nanoseconds after that second.
    pub nanoseconds: Option<u64>,
}

impl Stamp {
    /// Nothing is known.
    pub fn unknown() -> Stamp
        ensures { result ≡ no_stamp }
    {
        Stamp {
            bytes: None,
            modified: None,
            nanoseconds: None,
        }
    }

    /// Whether a size and a time are known.
    pub fn is_known(&self) -> bool
        ensures { result ≡ is_known self.now }
    {
        self.bytes.is_some() && self.modified.is_some()
    }

    /// Whether another has the same size and time; what neither knows is the same.
    pub fn is_same(&self, other: &Stamp) -> bool
        ensures { result ≡ same_stamp self.now other.now }
    {
        self.bytes == other.bytes
            && self.modified == other.modified
            && self.nanoseconds == other.nanoseconds
    }
}
