//! Why a text is no cue sheet.

ghost use Rattle.std.specs.Prelude.{◌≡◌};
ghost use Rattle.flac_cue.specs.inner.Takes.{fault_at};
ghost use Rattle.flac_cue.specs.declared.fault.Wrong.TheVariants.{Memory};

use std::alloc::{AllocError, AllocFailed};

/// What is wrong with a line of a cue sheet (RFC 9639, section 8.7).
#[derive(Clone, Copy, Debug, PartialEq, Eq)]
pub enum CueWhy {
    /// A catalogue number that is not of 13 digits on a CD, nor of 1 to 128 printable characters otherwise; or a second one.
    Catalogue,
    /// A track without a number or a kind, or whose number is not from 1 to 99 on a CD, to 254 otherwise, or not one more
    /// than that of the track before.
    Track,
    /// A track without an index point.
    NoIndex,
    /// Flags that do not come after the line of a track and before its index points.
    Flags,
    /// A recording code that is not of 12 digits and capital letters; a second one; or one that does not come after the
    /// line of a track and before its index points.
    Isrc,
    /// An index point without a track or a number, whose number is too high, or not one more than that of the one before.
    /// The first one of a track has the number 0 or 1.
    Index,
    /// An index point without a place, whose place is not after that of the index point before, or not in the audio.
    Offset,
    /// A lead-in that is no number.
    LeadIn,
    /// A lead-out that is not at the end of the audio.
    LeadOut,
    /// No track at all.
    NoTrack,
}

/// Why a text is no cue sheet.
#[derive(Clone, Copy, Debug, PartialEq, Eq)]
pub enum CueFault {
    /// An allocation fails.
    Memory,
    /// The line of this number, counted from 1, is wrong.
    Line(u64, CueWhy),
}

/// Why a line is not taken.
#[derive(Clone, Copy, Debug, PartialEq, Eq)]
pub(crate) enum Wrong {
    /// An allocation fails.
    Memory,
    /// A rule is broken.
    Rule(CueWhy),
}

impl Wrong {
    /// The fault of the line of this number.
    pub(crate) fn at(self, line: u64) -> CueFault
        ensures { result ≡ fault_at line self }
    {
        match self {
            Wrong::Memory => CueFault::Memory,
            Wrong::Rule(why) => CueFault::Line(line, why),
        }
    }
}

impl From<AllocError> for Wrong {
    ghost from_gives = { λ error e. e ≡ Memory };

    fn from(_error: AllocError) -> Wrong {
        Wrong::Memory
    }
}

impl<T: Drop> From<AllocFailed<T>> for Wrong {
    ghost from_gives = { λ error e. e ≡ Memory };

    fn from(_error: AllocFailed<T>) -> Wrong {
        Wrong::Memory
    }
}
