//! Sources of bytes.

ghost use Rattle.std.specs.Prelude.{◌≡◌, ◌<◌, ◌≤◌, ◌+◌, ℕ, Bool, true, List, [], ◌∷◌, ◌++◌, length, take, IfOk, OnOk, OnErr};
ghost use Rattle.flac_bits.specs.State.{After, Rises, the_end};
ghost use Rattle.flac_bits.specs.Sources.{Ended, IsForeseen, SameEnd};
ghost use Rattle.std.specs.Io.{ReadsAtMost};
ghost use Rattle.std.specs.Borrow.{GName};

use std::io;
use std::io::Read;

/// Bytes that come in pieces: what a [`crate::BitReader`] reads from.
///
/// [`Memory`] is a source of bytes in memory, [`crate::Counted`] one of any `std::io::Read`, and `&mut` of a source is
/// a source. The ghost fields exist for proofs only. What a contract says of the bytes that are read holds if they are
/// known to a proof (`known`) and the source returned no unexpected error in the call.
pub trait Source {
    /// Whether the bytes still to come are known.
    ghost known: { Self → Bool };

    /// The bytes still to come, if they are known.
    ghost coming: { Self → List ℕ };

    /// What comes after these bytes: the end, or an error in its place, and further parts.
    ghost after: { Self → After };

    /// How many errors were returned that `after` did not announce. If the count can rise no more, the bytes count as
    /// unknown.
    ghost errors: { Self → ℕ };

    /// How many errors were returned, announced or not. Each counts, whether the bytes are known or not, as long as the
    /// count can rise.
    ghost raised: { Self → ℕ };

    /// How many bytes can still come at most.
    ghost most: { Self → ℕ };

    /// The references that the source goes through.
    ghost names: { Self → List GName };

    /// Fills the front of `buf` with some of the bytes to come and returns how many. If `buf` has room, 0 is the end.
    ///
    /// # Errors
    /// The source's own. No byte counts as read then.
    fn pull(&mut self, buf: &mut [u8]) -> io::Result<usize>
        ensures names { names self.new ≡ names self.old }
        ensures bound { ReadsAtMost result buf.new }
        ensures known { OnOk result (known self.old ≡ true → known self.new ≡ true) }
        ensures bytes { IfOk result (λ n. known self.old ≡ true → coming self.old ≡ take n buf.new ++ coming self.new) }
        ensures end { IfOk result (λ n. n ≡ 0 → 0 < length buf.new → Ended known coming after self.old) }
        ensures most { IfOk result (λ n. most self.new + n ≤ most self.old) }
        ensures counted { OnOk result ((errors self.new ≡ errors self.old) × (raised self.new ≡ raised self.old)) }
        ensures kept { errors self.old ≤ errors self.new }
        ensures failed { OnErr result (IsForeseen known errors coming after self.old self.new) }
        ensures foretold { SameEnd known errors after self.old self.new }
        ensures rises { OnErr result (known self.old ≡ true → raised self.old < raised self.new) }
        ensures risen { OnErr result (Rises (raised self.old) (raised self.new)) };
}

impl<S: Source> Source for &mut S {
    ghost known = { λ s. S.known s.now };

    ghost coming = { λ s. S.coming s.now };

    ghost after = { λ s. S.after s.now };

    ghost errors = { λ s. S.errors s.now };

    ghost raised = { λ s. S.raised s.now };

    ghost most = { λ s. S.most s.now };

    ghost names = { λ s. s.ghost_name ∷ S.names s.now };

    fn pull(&mut self, buf: &mut [u8]) -> io::Result<usize> {
        (**self).pull(buf)
    }
}

/// A source of bytes in memory. It never fails.
///
/// ```
/// let mut bits = BitReader::new(Memory::new(b"fLaC"));
/// let marker = bits.take(32)?; // 0x664C6143
/// ```
#[derive(Drop)]
pub struct Memory<'a> {
    bytes: &'a [u8],
}

impl<'a> Memory<'a> {
    /// Makes a source of these bytes, the first of them first.
    pub fn new(bytes: &'a [u8]) -> Memory<'a>
        ensures { result.bytes.now ≡ bytes.now }
    {
        Memory { bytes }
    }
}

impl Source for Memory<'_> {
    ghost known = { λ s. true };

    ghost coming = { λ s. s.bytes.now };

    ghost after = { λ _. the_end };

    ghost errors = { λ _. 0 };

    ghost raised = { λ _. 0 };

    ghost most = { λ s. length s.bytes.now };

    ghost names = { λ _. [] };

    fn pull(&mut self, buf: &mut [u8]) -> io::Result<usize> {
        let bytes = self.bytes;
        let n = bytes.len().min(buf.len());
        buf[..n].copy_from_slice(&bytes[..n]);
        self.bytes = &bytes[n..];
        Ok(n)
    }
}

/// A source that is asked for a few bytes at a time, for tests. The bytes are the same, however many are asked for at
/// once.
#[derive(Drop)]
pub struct Pieces<S: Source> {
    source: S,
    most: usize,
    ghost some: { 1 ≤ most },
}

impl<S: Source> Pieces<S> {
    /// Makes a source that asks this one for at most `most` bytes at once. `most` is at least 1.
    pub fn new(source: S, most: usize) -> Pieces<S>
        requires { 1 ≤ most }
        ensures { result.source ≡ source }
    {
        Pieces { source, most }
    }

    /// Returns the source, with the bytes that were not asked for yet.
    pub fn into_inner(self) -> S
        ensures { result ≡ self.source }
    {
        let Pieces { source, most: _ } = self;
        source
    }
}

impl<S: Source> Source for Pieces<S> {
    ghost known = { λ s. S.known s.source };

    ghost coming = { λ s. S.coming s.source };

    ghost after = { λ s. S.after s.source };

    ghost errors = { λ s. S.errors s.source };

    ghost raised = { λ s. S.raised s.source };

    ghost most = { λ s. S.most s.source };

    ghost names = { λ s. S.names s.source };

    fn pull(&mut self, buf: &mut [u8]) -> io::Result<usize> {
        let most = self.most.min(buf.len());
        self.source.pull(&mut buf[..most])
    }
}
