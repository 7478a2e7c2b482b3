//! A file in memory that keeps its first content and each call, so that all that a crash might have left is known.

ghost use Rattle.std.specs.Prelude.{◌≡◌, ◌++◌, ◌∷◌, [], true, OnOk, OnErr};
ghost use Rattle.flac_edit.specs.declared.crash_file.Call.TheVariants as call;
ghost use Rattle.flac_edit.specs.Device.{Only};
ghost use Rattle.flac_edit.specs.Crashes.{shown_after, crash_time, counts, only, leaves_shown, NotesWrite};

use crate::device::{Device, DeviceError};
use std::alloc::{AllocError, AllocFailed, Global};

/// A call of a [`CrashFile`].
#[derive(Drop)]
pub enum Call {
    /// These bytes were written from this offset on.
    Write(usize, Vec<u8>),
    /// What was written was stored.
    Sync,
}

/// A file in memory that keeps its first content and each call. Each write may be torn by a crash until the next sync,
/// as [`Device`] says: what a crash might have left follows from the first content and the calls.
#[derive(Drop)]
pub struct CrashFile {
    alloc: Global,
    first: Vec<u8>,
    calls: Vec<Call>,
}

impl CrashFile {
    /// A file with these bytes, all of them stored.
    pub fn new(alloc: Global, first: Vec<u8>) -> Self
        ensures first { result.first ≡ first }
        ensures calls { result.calls.items ≡ [] }
        ensures shown { shown_after result.first.items result.calls.items ≡ first.items }
        ensures stored { Only first.items (crash_time result.first.items result.calls.items) }
    {
        CrashFile {
            alloc,
            first,
            calls: Vec::new(alloc),
        }
    }

    /// The bytes that the file had at first.
    pub fn first(&self) -> &[u8]
        ensures { result.now ≡ self.now.first.items }
    {
        &self.first
    }

    /// The calls that were done, in their order.
    pub fn calls(&self) -> &[Call]
        ensures { result.now ≡ self.now.calls.items }
    {
        &self.calls
    }
}

/// Notes a write.
fn note_write(
    alloc: Global,
    calls: &mut Vec<Call>,
    at: usize,
    bytes: &[u8],
) -> Result<(), AllocError>
    ensures ok { OnOk result (NotesWrite at bytes.now calls.old.items calls.new.items) }
    ensures err { OnErr result (calls.new.items ≡ calls.old.items) }
{
    let copy = Vec::from_slice(alloc, bytes)?;
    calls.push(Call::Write(at, copy))?;
    Ok(())
}

/// Notes a sync.
fn note_sync(calls: &mut Vec<Call>) -> Result<(), AllocError>
    ensures ok { OnOk result (calls.new.items ≡ calls.old.items ++ call.Sync ∷ []) }
    ensures err { OnErr result (calls.new.items ≡ calls.old.items) }
{
    calls.push(Call::Sync)?;
    Ok(())
}

impl Device for CrashFile {
    ghost known = { λ f. true };

    ghost seen = { λ f. shown_after f.first.items f.calls.items };

    ghost time = { λ f. crash_time f.first.items f.calls.items };

    ghost faults = { λ f. 0 };

    ghost counts_now = { λ f t c known le now. counts f.first.items f.calls.items t c le now };

    ghost only_now = { λ f c known left. only f.first.items f.calls.items c left };

    ghost leaves_seen = { λ f known. leaves_shown f.first.items f.calls.items };

    fn write_at(&mut self, at: usize, bytes: &[u8]) -> Result<(), DeviceError> {
        Ok(note_write(self.alloc, &mut self.calls, at, bytes)?)
    }

    fn sync(&mut self) -> Result<(), DeviceError> {
        Ok(note_sync(&mut self.calls)?)
    }
}
