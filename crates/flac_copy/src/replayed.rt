//! A source whose first bytes were pulled already.

ghost use Rattle.std.specs.Prelude.{◌≡◌};

use crate::again::{Again, count};
use flac_bits::Source;
use std::io;

/// A source whose first bytes were pulled already, and are held ([`Again`]). They come again, and are held as long as
/// this source; those after them are not.
#[derive(Drop)]
pub(crate) struct Replayed<S> {
    again: Again<S>,
}

impl<S: Source> Replayed<S> {
    /// Makes a source that gives the bytes that are held, and after them those of the source below.
    pub(crate) fn new(again: Again<S>) -> Replayed<S>
        ensures { result.again ≡ record again { given = 0 } }
    {
        let mut again = again;
        again.rewind();
        Replayed { again }
    }
}

impl<S: Source> Source for Replayed<S> {
    ghost use Rattle.std.specs.Prelude.{◌+◌, ◌-◌, ◌++◌, vec_len};
    ghost use Rattle.flac_copy.specs.Again.{to_give};

    ghost known = { λ s. S.known s.again.source };

    ghost coming = { λ s. to_give s.again ++ S.coming s.again.source };

    ghost after = { λ s. S.after s.again.source };

    ghost errors = { λ s. S.errors s.again.source };

    ghost raised = { λ s. S.raised s.again.source };

    ghost most = { λ s. (vec_len s.again.held - s.again.given) + S.most s.again.source };

    ghost names = { λ s. S.names s.again.source };

    fn pull(&mut self, buf: &mut [u8]) -> io::Result<usize> {
        if self.again.given < count(&self.again.held) {
            return Ok(self.again.give(buf));
        }
        self.again.source.pull(buf)
    }
}
