//! An entry of the search's tables: the best Rice parameter of a partition so far, and the bits of the partition.

ghost use Rattle.std.specs.Prelude.{◌≡◌, ◌<◌, ◌^◌, ◌↔◌, min, IsTrue};
ghost use Rattle.flac_subframe.specs.search.inner.Entry.{entry_number, no_entry, parameter_in, bits_in};

use std::marker::Model;

/// The best of the Rice parameters that were compared for a partition, and how many bits the partition takes under it.
///
/// Both are in one number, which the clauses see: 32 times the bits, plus the parameter. Of two entries the smaller one
/// has fewer bits, or as many and the smaller parameter, so that one comparison shows which is better.
#[derive(Clone, Copy)]
pub(crate) struct Entry(u64);

impl Model for Entry {
    ghost use Rattle.std.specs.Prelude.{ℕ};

    ghost Value = { ℕ };

    ghost view = { λ e. e.0 };

    ghost inverse = { λ n. record { 0 = n } };
}

impl Entry {
    /// The entry before any parameter is compared, which each other is better than.
    #[inline(always)]
    pub(crate) fn none() -> Entry
        ensures { result ≡ no_entry }
    {
        Entry(u64::MAX)
    }

    /// The entry of a parameter under which a partition takes some bits.
    #[inline(always)]
    pub(crate) fn new(parameter: u8, bits: u64) -> Entry
        requires parameter { parameter < 32 }
        requires bits { bits < 2 ^ 50 }
        ensures { result ≡ entry_number parameter bits }
    {
        Entry(32 * bits + u64::from(parameter))
    }

    /// The better one of two.
    #[inline(always)]
    pub(crate) fn best(self, other: Entry) -> Entry
        ensures { result ≡ min self other }
    {
        Entry(self.0.min(other.0))
    }

    /// Whether this one is better than another.
    #[inline(always)]
    pub(crate) fn is_better_than(self, other: Entry) -> bool
        ensures { IsTrue result ↔ (self < other) }
    {
        self.0 < other.0
    }

    /// The parameter.
    #[inline(always)]
    pub(crate) fn parameter(self) -> u8
        ensures { result ≡ parameter_in self }
    {
        (self.0 % 32) as u8
    }

    /// The bits under it.
    #[inline(always)]
    pub(crate) fn bits(self) -> u64
        ensures { result ≡ bits_in self }
    {
        self.0 / 32
    }
}
