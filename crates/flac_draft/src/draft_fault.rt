//! Why a draft is not finished.

ghost use Rattle.std.specs.Prelude.{Some, ◌≡◌};
ghost use Rattle.flac_draft.specs.Faults.{draft_text};

use flac_native::EncodeFault;
use std::fmt;

/// Why a draft is not finished.
///
/// It prints as its number and its name: `93 OtherTotal`.
#[derive(Clone, Copy, Debug, PartialEq, Eq)]
pub enum DraftFault {
    /// That of an encoder: `Spent`, `Memory` or `Write`.
    Encode(EncodeFault),
    /// For the seek table another number of samples was stated than came.
    OtherTotal,
}

impl DraftFault {
    /// The number and the name of the reason: `93 OtherTotal`.
    pub fn as_str(self) -> &'static str
        ensures { result.now ≡ draft_text self }
    {
        match self {
            DraftFault::Encode(fault) => fault.as_str(),
            DraftFault::OtherTotal => "93 OtherTotal",
        }
    }
}

impl fmt::Display for DraftFault {
    ghost output = { λ fault. Some (draft_text fault) };

    fn fmt<W: fmt::Write>(&self, f: &mut fmt::Formatter<W>) -> fmt::Result {
        f.write_str(self.as_str())
    }
}

impl std::error::Error for DraftFault {}

/// Why a draft was not finished, and its target. It prints as the reason.
#[derive(Drop)]
pub struct Unfinished<W> {
    /// Why.
    pub fault: DraftFault,
    /// The target, which has what was sent: a stream whose STREAMINFO states only the format, and of which the last
    /// frame may be cut off. In Ogg the last packet is missing. After [`EncodeFault::Write`] a part of what comes
    /// before the frames may be that of the finished stream.
    pub left: W,
}

/// Why a draft was not finished, by the fault of an encoder, and its target.
pub(crate) fn unfinished_by<W>(fault: EncodeFault, left: W) -> Unfinished<W>
    ensures fault { result.fault ≡ DraftFault.Encode fault }
    ensures left { result.left ≡ left }
{
    Unfinished {
        fault: DraftFault::Encode(fault),
        left,
    }
}

impl<W> fmt::Display for Unfinished<W> {
    ghost output = { λ unfinished. Some (draft_text unfinished.fault) };

    fn fmt<T: fmt::Write>(&self, f: &mut fmt::Formatter<T>) -> fmt::Result {
        let fault = self.fault;
        write!(f, "{fault}")
    }
}

impl<W> fmt::Debug for Unfinished<W> {
    fn fmt<T: fmt::Write>(&self, f: &mut fmt::Formatter<T>) -> fmt::Result {
        let fault = self.fault;
        write!(f, "{fault:?}")
    }
}

impl<W: Drop> std::error::Error for Unfinished<W> {}
