//! A target in memory that can be written over.

ghost use Rattle.std.specs.Prelude.{◌≡◌, ◌-◌, ◌^◌, [], nat_lt, true, false};
ghost use Rattle.flac_draft.specs.Rewriting.{IsWrittenOver};

use crate::rewritable::Rewritable;
use flac_bits::Target;
use std::alloc::Global;
use std::io;
use std::io::Write;

/// A target that keeps the bytes in memory, and in which they can be written over. It fails only if an allocation
/// fails, or if there are no bytes to write over.
///
/// ```
/// let mut target = DraftMemory::new(rt.alloc());
/// send_all(&mut target, b"fLaC")?;
/// target.write_over(1, b"LA")?;
/// let bytes = target.into_bytes(); // b"fLAC"
/// ```
#[derive(Drop)]
pub struct DraftMemory {
    bytes: Vec<u8>,
    errors: u64,
}

impl DraftMemory {
    /// Makes a target without bytes, which allocates by `alloc`.
    pub fn new(alloc: Global) -> DraftMemory
        ensures sent { result.bytes.items ≡ [] }
        ensures errors { result.errors ≡ 0 }
    {
        DraftMemory {
            bytes: Vec::new(alloc),
            errors: 0,
        }
    }

    /// The bytes that were sent so far, as they are now.
    pub fn bytes(&self) -> &[u8]
        ensures { result.now ≡ self.now.bytes.items }
    {
        self.bytes.as_slice()
    }

    /// Returns the bytes that were sent, as they are now.
    pub fn into_bytes(self) -> Vec<u8>
        ensures { result ≡ self.bytes }
    {
        let DraftMemory { bytes, .. } = self;
        bytes
    }
}

impl Target for DraftMemory {
    ghost known = { λ m. nat_lt m.errors (2 ^ 64 - 1) };

    ghost sent = { λ m. m.bytes.items };

    ghost errors = { λ m. m.errors };

    ghost names = { λ _. [] };

    fn send(&mut self, bytes: &[u8]) -> io::Result<usize> {
        match self.bytes.write(bytes) {
            Ok(n) => Ok(n),
            Err(e) => {
                self.errors = self.errors.saturating_add(1);
                Err(e)
            }
        }
    }
}

/// Puts bytes in the place of as many at an offset, if all of these are there, and returns whether they are.
fn put_over(all: &mut [u8], at: usize, bytes: &[u8]) -> bool
    ensures over { result ≡ true → IsWrittenOver at bytes.now all.old all.new }
    ensures kept { result ≡ false → all.new ≡ all.old }
{
    if at > all.len() || bytes.len() > all.len() - at {
        return false;
    }
    all[at..at + bytes.len()].copy_from_slice(bytes);
    true
}

impl Rewritable for DraftMemory {
    fn sent_len(&self) -> u64 {
        self.bytes.len() as u64
    }

    fn write_over(&mut self, at: u64, bytes: &[u8]) -> io::Result<()> {
        if put_over(self.bytes.as_mut_slice(), at as usize, bytes) {
            return Ok(());
        }
        self.errors = self.errors.saturating_add(1);
        Err(io::Error::from(io::ErrorKind::UnexpectedEof))
    }
}
