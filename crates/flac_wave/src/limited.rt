//! A source that ends where a part of another does.

ghost use Rattle.std.specs.Prelude.{◌≡◌, ◌≤◌, ◌<◌, ◌+◌, ◌&&◌, true, false, not, [], length, take, IfOk, OnOk, OnErr};
ghost use Rattle.std.specs.Io.{ReadsAtMost};
ghost use Rattle.flac_bits.specs.Sources.{Ended, IsForeseen, SameEnd};
ghost use Rattle.flac_bits.specs.State.{Rises};
ghost use Rattle.flac_wave.specs.Calls.{Gave, NoneRaised};
ghost use Rattle.flac_wave.specs.Parts.{given, beyond, is_cut, room_in, size_after, end_of, one_if};

use flac_bits::Source;
use std::io;

/// The first bytes of another source: a number of them, or all. The others stay with that source.
///
/// After an error of the other source nothing is known of the bytes.
#[derive(Drop)]
pub struct Limited<S: Source> {
    source: S,
    /// How many bytes are still to come at most; `None` if all are.
    left: Option<u64>,
    /// Whether the source returned an error. It is there for proofs alone.
    failed: bool,
}

/// How many of `room` bytes belong to a part.
fn room_in(left: Option<u64>, room: usize) -> usize
    ensures value { result ≡ room_in left room }
    ensures few { result ≤ room }
{
    match left {
        Some(bytes) => bytes.min(room as u64) as usize,
        None => room,
    }
}

/// The size of a part after some of its bytes.
fn size_after(left: Option<u64>, count: usize) -> Option<u64>
    ensures { result ≡ size_after left count }
{
    match left {
        Some(bytes) => Some(bytes.saturating_sub(count as u64)),
        None => None,
    }
}

impl<S: Source> Limited<S> {
    /// The first `size` bytes of a source, or all.
    pub fn new(source: S, size: Option<u64>) -> Limited<S>
        ensures source { result.source ≡ source }
        ensures size { result.left ≡ size }
        ensures whole { result.failed ≡ false }
    {
        Limited {
            source,
            left: size,
            failed: false,
        }
    }

    /// Whether bytes of the part are missing, if none came when they were asked for: the other source ended inside it.
    pub fn is_cut(&self) -> bool
        ensures { result ≡ is_cut self.now.left [] }
    {
        match self.left {
            Some(bytes) => bytes > 0,
            None => false,
        }
    }

    /// Returns the other source, with the bytes that did not come yet.
    pub fn into_source(self) -> S
        ensures { result ≡ self.source }
    {
        let Limited {
            source,
            left: _,
            failed: _,
        } = self;
        source
    }
}

/// Pulls at most `most` bytes.
fn pull_most<S: Source>(source: &mut S, buf: &mut [u8], most: usize) -> io::Result<usize>
    requires within { most ≤ length buf.old }
    requires some { 0 < most }
    ensures names { S.names source.new ≡ S.names source.old }
    ensures bound { ReadsAtMost result buf.new }
    ensures few { IfOk result (λ n. n ≤ most) }
    ensures known { OnOk result (S.known source.old ≡ true → S.known source.new ≡ true) }
    ensures bytes { IfOk result (λ n. Gave S.Source source.old source.new (take n buf.new)) }
    ensures end { IfOk result (λ n. n ≡ 0 → S.known source.old ≡ true → S.coming source.old ≡ []) }
    ensures most { IfOk result (λ n. S.most source.new + n ≤ S.most source.old) }
    ensures counted { OnOk result (NoneRaised S.Source source.old source.new) }
    ensures kept { S.errors source.old ≤ S.errors source.new }
    ensures rises { OnErr result (S.known source.old ≡ true → S.raised source.old < S.raised source.new) }
    ensures risen { OnErr result (Rises (S.raised source.old) (S.raised source.new)) }
{
    source.pull(&mut buf[..most])
}

impl<S: Source> Source for Limited<S> {
    ghost known = { λ s. S.known s.source && not s.failed };

    ghost coming = { λ s. given s.left (S.coming s.source) };

    ghost after = { λ s. end_of s.left (S.coming s.source) };

    ghost errors = { λ s. S.errors s.source + one_if s.failed };

    ghost raised = { λ s. S.raised s.source };

    ghost most = { λ s. S.most s.source };

    ghost names = { λ s. S.names s.source };

    fn pull(&mut self, buf: &mut [u8]) -> io::Result<usize> {
        let most = room_in(self.left, buf.len());
        if most == 0 {
            return Ok(0);
        }
        match pull_most(&mut self.source, buf, most) {
            Ok(count) => {
                self.left = size_after(self.left, count);
                Ok(count)
            }
            Err(error) => {
                self.failed = true;
                Err(error)
            }
        }
    }
}
