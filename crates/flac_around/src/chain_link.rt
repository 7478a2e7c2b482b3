//! A source of one stream of a chain.

ghost use Rattle.std.specs.Prelude.{◌≡◌, ◌≤◌, ◌<◌, ◌+◌, ◌-◌, true, false, [], length, take, IfOk, OnOk, OnErr};
ghost use Rattle.flac_bits.specs.State.{Rises};
ghost use Rattle.flac_around.specs.inner.Walking.{IsCalm, HasRisen, IsStill};

use crate::walk::Walk;
use flac_bits::Source;
use std::io;
use std::snapshot::Snapshot;

/// How many bytes are skipped at once, at most.
const PIECE: usize = 4096;

/// The bytes of the first of the Ogg streams that come one after another from another source (RFC 3533, section 4): its
/// pages up to the first that is marked last. If bytes come that are no page, it goes on to the end of the other
/// source.
///
/// It holds no byte, so that the other source then has the bytes of the next stream. After an error of the other source
/// nothing is known of the bytes.
#[derive(Drop)]
pub struct ChainLink<S: Source> {
    source: S,
    walk: Walk,
    /// Whether the source returned an error. It is there for proofs alone.
    failed: bool,
    /// The source at the start of the stream, for clauses only.
    began: Snapshot<S>,
    ghost kept: { S.errors began.value ≤ S.errors source },
    ghost calm: { failed ≡ false → IsCalm S.Source began.value source },
    ghost risen: { failed ≡ true → HasRisen S.Source began.value source },
    ghost still: { failed ≡ false → IsStill S.Source began.value source walk },
}

impl<S: Source> ChainLink<S> {
    ghost use Rattle.flac_around.specs.Linking.{ghosts_of};
    ghost use Rattle.flac_around.specs.inner.Linked.{IsPassed, RisesOnce};
    ghost use Rattle.flac_around.specs.Chains.{first_link};

    /// The first stream that comes from this source.
    pub fn new(source: S) -> ChainLink<S>
        ensures source { result.source ≡ source }
        ensures began { result.began.value ≡ source }
        ensures whole { result.failed ≡ false }
        ensures bytes { ghosts_of.coming result ≡ first_link (S.coming source) }
    {
        let began = Snapshot::of(&source);
        ChainLink {
            source,
            walk: Walk::new(),
            failed: false,
            began,
        }
    }

    /// Whether the source returned an error. For its clauses, which are the facts that are kept.
    fn has_failed(&self) -> bool
        ensures value { result ≡ self.now.failed }
        ensures kept { S.errors self.now.began.value ≤ S.errors self.now.source }
        ensures calm { self.now.failed ≡ false → IsCalm S.Source self.now.began.value self.now.source }
        ensures risen { self.now.failed ≡ true → HasRisen S.Source self.now.began.value self.now.source }
        ensures still { self.now.failed ≡ false → IsStill S.Source self.now.began.value self.now.source self.now.walk }
    {
        self.failed
    }

    /// Skips what is left of the stream.
    ///
    /// # Errors
    /// That of the other source.
    pub fn pass(&mut self) -> io::Result<()>
        ensures names { ghosts_of.names self.new ≡ ghosts_of.names self.old }
        ensures over { OnOk result (IsPassed self.old self.new) }
        ensures counted { OnOk result (IsCalm S.Source self.old.source self.new.source) }
        ensures kept { S.errors self.old.source ≤ S.errors self.new.source }
        ensures rises { OnErr result (RisesOnce self.old self.new) }
        ensures risen { OnErr result (Rises (S.raised self.old.source) (S.raised self.new.source)) }
    {
        let _failed = self.has_failed(); // for its clauses alone
        let mut piece = [0u8; PIECE];
        'rest: loop {
            match self.pull(&mut piece) {
                Ok(0) => {
                    let _failed = self.has_failed();
                    return Ok(());
                }
                Ok(_) => {}
                Err(error) => return Err(error),
            }
        }
    }

    /// Returns the other source, with the bytes that were not given yet.
    pub fn into_source(self) -> S
        ensures source { result ≡ self.source }
        ensures kept { S.errors self.began.value ≤ S.errors result }
        ensures risen { self.failed ≡ true → HasRisen S.Source self.began.value result }
    {
        let ChainLink {
            source,
            walk: _,
            failed: _,
            began: _,
        } = self;
        source
    }
}

impl<S: Source> Source for ChainLink<S> {
    ghost use Rattle.flac_around.specs.Linking.{ghosts_of};

    ghost known = { λ l. ghosts_of.known l };

    ghost coming = { λ l. ghosts_of.coming l };

    ghost after = { λ l. ghosts_of.after l };

    ghost errors = { λ l. ghosts_of.errors l };

    ghost raised = { λ l. ghosts_of.raised l };

    ghost most = { λ l. ghosts_of.most l };

    ghost names = { λ l. ghosts_of.names l };

    fn pull(&mut self, buf: &mut [u8]) -> io::Result<usize> {
        if self.failed || buf.is_empty() {
            return Ok(0);
        }
        let room = self.walk.room(buf.len());
        if room == 0 {
            return Ok(0);
        }
        match self.source.pull(&mut buf[..room]) {
            Ok(count) => {
                self.walk.pass(&buf[..count]);
                Ok(count)
            }
            Err(error) => {
                self.failed = true;
                Err(error)
            }
        }
    }
}
