//! Targets whose bytes can be written over.

ghost use Rattle.std.specs.Prelude.{◌≡◌, ◌<◌, ◌≤◌, length, true, OnOk, OnErr};
ghost use Rattle.flac_bits.specs.State.{Rises};
ghost use Rattle.flac_draft.specs.Rewriting.{WritesAt, Spares};

use flac_bits::Target;
use std::io;

/// A target that keeps what it was sent, and in which bytes can be replaced by as many others, as in a new file.
/// [`crate::DraftMemory`] is one in memory, [`crate::DraftFile`] one over a file, and `&mut` of one is one. What the clauses
/// say of the bytes holds if they are known to a proof ([`Target`]).
pub trait Rewritable: Target {
    /// How many bytes were sent.
    fn sent_len(&self) -> u64
        ensures { Self.known self.now ≡ true → result ≡ length (Self.sent self.now) };

    /// Writes bytes over those that are there, from the offset `at` on, in bytes from the first one that was sent. No
    /// other byte changes, and as many bytes count as sent as before.
    ///
    /// # Errors
    /// The target's own, and if there are no bytes at all these offsets. Some of the bytes may be replaced then.
    fn write_over(&mut self, at: u64, bytes: &[u8]) -> io::Result<()>
        ensures names { Self.names self.new ≡ Self.names self.old }
        ensures known { OnOk result (Self.known self.old ≡ true → Self.known self.new ≡ true) }
        ensures written { OnOk result
            (WritesAt (Self.known self.old) at bytes.now (Self.sent self.old) (Self.sent self.new)) }
        ensures outside { OnErr result
            (Spares (Self.known self.old) at bytes.now (Self.sent self.old) (Self.sent self.new)) }
        ensures counted { OnOk result (Self.errors self.new ≡ Self.errors self.old) }
        ensures kept { Self.errors self.old ≤ Self.errors self.new }
        ensures rises { OnErr result (Self.known self.old ≡ true → Self.errors self.old < Self.errors self.new) }
        ensures risen { OnErr result (Rises (Self.errors self.old) (Self.errors self.new)) };
}

impl<W: Rewritable> Rewritable for &mut W {
    fn sent_len(&self) -> u64 {
        (**self).sent_len()
    }

    fn write_over(&mut self, at: u64, bytes: &[u8]) -> io::Result<()> {
        (**self).write_over(at, bytes)
    }
}
