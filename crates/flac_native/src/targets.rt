//! Targets: a place that is allocated once, and another target that is borrowed.

ghost use Rattle.std.specs.Prelude.{◌≡◌, ◌≤◌, ◌<◌, ◌+◌, ◌-◌, ◌^◌, [], length, nat_lt, vec_capacity, IfOk, IfErr, ◌∷◌, ◌&&◌};
ghost use Rattle.flac_native.specs.FixedBuffer.{placed};
ghost use Rattle.flac_native.specs.inner.Borrowed.{has_still, sent_since, named};

use flac_bits::{Target, Why};
use std::alloc::Global;
use std::io;
use std::snapshot::Snapshot;

/// The most bytes that are taken at once, and how many places there are beside those that were asked for.
const PIECE: usize = 4096;

/// A place in memory for a number of bytes, which is allocated once, and then filled and emptied as often as needed. It
/// is a [`Target`] that keeps what it is sent: up to that number of bytes it needs no allocation and returns no error.
#[derive(Drop)]
pub struct FixedBuffer {
    bytes: Vec<u8>,
    places: usize,
    errors: u64,
    ghost within: { places + 4096 ≤ vec_capacity bytes },
    ghost full: { 1 ≤ errors → places < length bytes.items },
}

impl FixedBuffer {
    /// Allocates an empty place for `places` bytes, at most 2^32.
    ///
    /// # Errors
    /// [`Why::Memory`] if the allocation fails.
    pub fn new(alloc: Global, places: usize) -> Result<FixedBuffer, Why>
        requires { places ≤ 2 ^ 32 }
        ensures places { IfOk result (λ room. room.places ≡ places) }
        ensures none { IfOk result (λ room. room.bytes.items ≡ []) }
        ensures memory { IfErr result (λ e. e ≡ Why.Memory) }
    {
        let bytes = Vec::with_capacity(alloc, places + PIECE)?;
        Ok(FixedBuffer {
            bytes,
            places,
            errors: 0,
        })
    }

    /// The bytes that it was sent since it was made or emptied.
    pub fn bytes(&self) -> &[u8]
        ensures { result.now ≡ self.now.bytes.items }
    {
        self.bytes.as_slice()
    }

    /// Returns the same place without bytes, and with no error counted.
    pub fn emptied(self) -> FixedBuffer
        ensures places { result.places ≡ self.places }
        ensures none { result.bytes.items ≡ [] }
        ensures errors { result.errors ≡ 0 }
    {
        let FixedBuffer {
            mut bytes,
            places,
            ..
        } = self;
        bytes.clear();
        FixedBuffer {
            bytes,
            places,
            errors: 0,
        }
    }
}

impl Target for FixedBuffer {
    ghost known = { λ r. nat_lt r.errors (2 ^ 64 - 1) };

    ghost sent = { λ r. placed r.places r.bytes.items };

    ghost errors = { λ r. r.errors };

    ghost names = { λ _. [] };

    fn send(&mut self, bytes: &[u8]) -> io::Result<usize> {
        let more = bytes.len().min(PIECE);
        match self.bytes.extend_from_slice(&bytes[..more]) {
            Ok(()) => Ok(more),
            Err(_) => {
                self.errors = self.errors.saturating_add(1);
                Err(io::Error::from(io::ErrorKind::WriteZero))
            }
        }
    }
}

/// A target that borrows another, and passes on what it is sent. To a proof it has been sent what came since it was
/// made, so a prefix of that says of the other that it still has what it had been sent before.
#[derive(Drop)]
pub(crate) struct Borrowed<'a, W: Target> {
    target: &'a mut W,
    /// The target as it was borrowed, for clauses only.
    began: Snapshot<W>,
}

impl<'a, W: Target> Borrowed<'a, W> {
    /// Borrows a target.
    pub(crate) fn over(target: &'a mut W) -> Borrowed<'a, W>
        ensures same { result.target.ghost_name ≡ target.entry.ghost_name }
        ensures target { result.target.now ≡ target.old }
        ensures began { result.began.value ≡ target.old }
    {
        let began = Snapshot::of(&*target);
        Borrowed { target, began }
    }

    /// Returns the target.
    pub(crate) fn into_target(self) -> &'a mut W
        ensures same { result.ghost_name ≡ self.entry.target.ghost_name }
        ensures target { result.now ≡ self.entry.target.now }
    {
        let Borrowed { target, began: _ } = self;
        target
    }
}

impl<W: Target> Target for Borrowed<'_, W> {
    ghost known = { λ l. W.known l.target.now && has_still (W.sent l.began.value) (W.sent l.target.now) };

    ghost sent = { λ l. sent_since (W.sent l.began.value) (W.sent l.target.now) };

    ghost errors = { λ l. W.errors l.target.now };

    // What it had been sent before is among the names: these stay.
    ghost names = { λ l. l.target.ghost_name ∷ named (W.sent l.began.value) (W.names l.target.now) };

    fn send(&mut self, bytes: &[u8]) -> io::Result<usize> {
        self.target.send(bytes)
    }
}
