//! A file in memory, which shows that what a device promises can be kept.

ghost use Rattle.std.specs.Prelude.{◌≡◌, ◌≤◌, ◌+◌, [], ◌∷◌, ◌++◌, true, length, take, drop, refl, OnOk, OnErr, IfOk};
ghost use Rattle.std.proofs.Common.{inl};
ghost use Rattle.flac_edit.specs.Past.{past_time, only_bytes};
ghost use Rattle.flac_edit.specs.Device.{Holds};

use crate::device::{Device, DeviceError};
use std::alloc::{AllocError, AllocFailed, Global};

impl From<AllocError> for DeviceError {
    ghost use Rattle.flac_edit.specs.declared.device.DeviceError.TheVariants.{Memory};

    ghost from_gives = { λ _ e. e ≡ Memory };

    fn from(_: AllocError) -> Self {
        DeviceError::Memory
    }
}

/// A file in memory. Each call is done at once, so a crash leaves what is there. It keeps each past content.
#[derive(Drop)]
pub struct MemoryFile {
    alloc: Global,
    bytes: Vec<u8>,
    past: Vec<Vec<u8>>,
}

impl MemoryFile {
    ghost use Rattle.flac_edit.specs.MemoryFile.{memory_bytes};

    /// A file with these bytes, all of them stored.
    pub fn new(alloc: Global, bytes: Vec<u8>) -> Self
        ensures { memory_bytes result ≡ bytes.items }
    {
        MemoryFile {
            alloc,
            bytes,
            past: Vec::new(alloc),
        }
    }

    /// The bytes that are there.
    pub fn bytes(&self) -> &[u8]
        ensures { result.now ≡ memory_bytes self.now }
    {
        &self.bytes
    }
}

/// Puts other bytes in the place of those that are there, which it keeps.
fn replace(
    alloc: Global,
    bytes: &mut Vec<u8>,
    past: &mut Vec<Vec<u8>>,
    next: Vec<u8>,
) -> Result<(), AllocError>
    ensures ok { OnOk result (bytes.new.items ≡ next.items) }
    ensures err { OnErr result (bytes.new.items ≡ bytes.old.items) }
    ensures past { OnOk result ((v : _) × (v.items ≡ bytes.old.items)
        × (past.new.items ≡ past.old.items ++ v ∷ [])) }
    ensures past_err { OnErr result (past.new.items ≡ past.old.items) }
{
    past.push(bytes.to_vec(alloc)?)?;
    *bytes = next;
    Ok(())
}

/// The bytes with others at an offset.
fn written(alloc: Global, old: &[u8], at: usize, bytes: &[u8]) -> Result<Vec<u8>, AllocError>
    requires { at + length bytes.now ≤ length old.now }
    ensures { IfOk result (λ next. Holds old.now at bytes.now next.items) }
{
    let mut next = Vec::from_slice(alloc, &old[..at])?;
    next.extend_from_slice(bytes)?;
    next.extend_from_slice(&old[at + bytes.len()..])?;
    Ok(next)
}

impl Device for MemoryFile {
    ghost known = { λ m. true };

    ghost seen = { λ m. m.bytes.items };

    ghost time = { λ m. past_time m.past.items m.bytes.items };

    ghost faults = { λ m. 0 };

    ghost counts_now = { λ m t c known le now. inl now };

    ghost only_now = { λ m c known left. only_bytes m.past.items m.bytes.items c left };

    ghost leaves_seen = { λ m known. refl };

    fn write_at(&mut self, at: usize, bytes: &[u8]) -> Result<(), DeviceError> {
        let next = written(self.alloc, &self.bytes, at, bytes)?;
        Ok(replace(self.alloc, &mut self.bytes, &mut self.past, next)?)
    }

    fn sync(&mut self) -> Result<(), DeviceError> {
        Ok(())
    }
}
