//! A source whose bytes come again.

ghost use Rattle.std.specs.Prelude.{◌≡◌, ◌≤◌, ◌<◌, ◌+◌, ◌-◌, true, [], None, ◌++◌, length, take, drop, vec_len, OnOk, IfOk, IfErr};

use flac_bits::{Source, Why};
use std::alloc::Global;
use std::io;

/// How many bytes are pulled at once to be held.
const PIECE: usize = 4096;

/// A source that keeps the bytes that were pulled from it, until some are dropped by [`Again::skip`]. The
/// others come again then, and after them what the source below still has.
#[derive(Drop)]
pub(crate) struct Again<S> {
    pub(crate) source: S,
    pub(crate) held: Vec<u8>,
    /// How many of the bytes that are held were given.
    pub(crate) given: usize,
    /// The error after which nothing more comes: of the source below, or of an allocation.
    fault: Option<Why>,
}

/// How many bytes these are.
pub(crate) fn count(bytes: &Vec<u8>) -> usize
    ensures items { result ≡ length bytes.now.items }
    ensures len { result ≡ vec_len bytes.now }
{
    bytes.as_slice().len()
}

/// Drops the first n of these bytes.
fn remove_front(bytes: &mut Vec<u8>, n: usize)
    requires { n ≤ length bytes.old.items }
    ensures items { bytes.new.items ≡ drop n bytes.old.items }
{
    let len = count(bytes);
    bytes.as_mut_slice().copy_within(n..len, 0);
    bytes.truncate(len - n);
}

/// The bytes from an offset on.
fn bytes_from(bytes: &[u8], at: usize) -> &[u8]
    requires { at ≤ length bytes.now }
    ensures { result.now ≡ drop at bytes.now }
{
    &bytes[at..]
}

/// Copies as many of these bytes as there is room for, and returns how many.
fn copy_front(bytes: &[u8], buf: &mut [u8]) -> usize
    ensures bound { (result ≤ length buf.new) × (length buf.new ≡ length buf.old) }
    ensures within { result ≤ length bytes.now }
    ensures some { 0 < length bytes.now → 0 < length buf.new → 0 < result }
    ensures bytes { bytes.now ≡ take result buf.new ++ drop result bytes.now }
{
    let n = bytes.len().min(buf.len());
    buf[..n].copy_from_slice(&bytes[..n]);
    n
}

impl<S: Source> Again<S> {
    ghost use Rattle.flac_bits.specs.declared.why.Why.{Why};
    ghost use Rattle.flac_copy.specs.Again.{HoldsMore, HoldsFirst, FailsToHold, SaysOver, to_give};

    /// Makes a source that holds nothing yet.
    pub(crate) fn new(alloc: Global, source: S) -> Again<S>
        ensures { (result.source ≡ source) × (result.held.items ≡ []) × (result.given ≡ 0) × (result.fault ≡ None) }
    {
        Again {
            source,
            held: Vec::new(alloc),
            given: 0,
            fault: None,
        }
    }

    /// The error after which nothing more comes: [`Why::Read`] of the source below, [`Why::Memory`] of an allocation.
    pub(crate) fn fault(&self) -> Option<Why>
        ensures { result ≡ self.now.fault }
    {
        self.fault
    }

    /// Pulls further bytes through a place for some of them, and holds them. Returns whether there were any.
    ///
    /// # Errors
    /// [`Why::Read`] if the source below returns an error, [`Why::Memory`] if an allocation fails: they are lost then.
    fn hold_more(&mut self, piece: &mut [u8]) -> Result<bool, Why>
        requires calm { self.old.fault ≡ None }
        requires some { 0 < length piece.old }
        ensures held { IfOk result (λ more. HoldsMore S.Source self.old self.new more) }
        ensures failed { IfErr result (λ e. FailsToHold S.Source 0 self.old self.new e) }
        ensures piece { length piece.new ≡ length piece.old }
        ensures given { self.new.given ≡ self.old.given }
    {
        let Ok(n) = self.source.pull(piece) else {
            return Err(Why::Read);
        };
        self.held.extend_from_slice(&piece[..n])?;
        Ok(n > 0)
    }

    /// Gives some of the bytes that are held, and returns how many.
    pub(crate) fn give(&mut self, buf: &mut [u8]) -> usize
        requires { self.old.given < vec_len self.old.held }
        ensures given { self.new ≡ record self.old { given = self.old.given + result } }
        ensures bound { (result ≤ length buf.new) × (length buf.new ≡ length buf.old) }
        ensures room { self.old.given + result ≤ vec_len self.old.held }
        ensures some { 0 < length buf.new → 0 < result }
        ensures bytes { to_give self.old ≡ take result buf.new ++ to_give self.new }
    {
        let left = bytes_from(self.held.as_slice(), self.given);
        let n = copy_front(left, buf);
        self.given += n;
        n
    }

    /// Holds the first n of the bytes that come again and of those after them.
    ///
    /// # Errors
    /// [`Why::Truncated`] if there are fewer. [`Why::Read`] if the source below returns an error, [`Why::Memory`] if an
    /// allocation fails, or the error of an earlier call ([`Again::fault`]).
    pub(crate) fn hold(&mut self, n: usize) -> Result<(), Why>
        ensures held { OnOk result (HoldsFirst S.Source n self.old self.new) }
        ensures failed { IfErr result (λ e. FailsToHold S.Source n self.old self.new e) }
    {
        if let Some(why) = self.fault {
            return Err(why);
        }
        let mut piece = [0; PIECE];
        'holding: while count(&self.held) < n {
            if !self.hold_more(&mut piece)? {
                return Err(Why::Truncated);
            }
        }
        Ok(())
    }

    /// Whether no byte is left: none is held, and the source below is at its end.
    ///
    /// # Errors
    /// Those of [`Again::hold`], but for [`Why::Truncated`].
    pub(crate) fn is_over(&mut self) -> Result<bool, Why>
        ensures over { IfOk result (λ over. SaysOver S.Source self.old self.new over) }
        ensures failed { IfErr result (λ e. FailsToHold S.Source 0 self.old self.new e) }
    {
        if let Some(why) = self.fault {
            return Err(why);
        }
        if count(&self.held) > 0 {
            return Ok(false);
        }
        let mut piece = [0; PIECE];
        let more = self.hold_more(&mut piece)?;
        Ok(!more)
    }

    /// The first n of the bytes that are held.
    pub(crate) fn front(&self, n: usize) -> &[u8]
        requires { n ≤ length self.now.held.items }
        ensures { result.now ≡ take n self.now.held.items }
    {
        &self.held.as_slice()[..n]
    }

    /// Drops the first n of the bytes that are held: they come no more, and the others come again.
    pub(crate) fn skip(&mut self, n: usize)
        requires { n ≤ length self.old.held.items }
        ensures held { self.new.held.items ≡ drop n self.old.held.items }
        ensures given { self.new.given ≡ 0 }
        ensures source { self.new.source ≡ self.old.source }
        ensures fault { self.new.fault ≡ self.old.fault }
    {
        self.given = 0;
        remove_front(&mut self.held, n);
    }

    /// Lets the bytes that are held come again.
    pub(crate) fn rewind(&mut self)
        ensures { self.new ≡ record self.old { given = 0 } }
    {
        self.given = 0;
    }

    /// Returns the source below. The bytes that are held are lost.
    pub(crate) fn into_source(self) -> S
        ensures { result ≡ self.source }
    {
        let Again { source, .. } = self;
        source
    }
}

impl<S: Source> Source for Again<S> {
    ghost use Rattle.flac_copy.specs.Again.{errors_of, raised_of, known_of, after_of};

    ghost known = { λ a. known_of S.known a };

    ghost coming = { λ a. drop a.given a.held.items ++ S.coming a.source };

    // The bytes that are held, and those after them, may come again: they stay.
    ghost after = { λ a. after_of S.coming S.after a };

    ghost errors = { λ a. errors_of S.errors a };

    ghost raised = { λ a. raised_of S.raised a };

    ghost most = { λ a. (vec_len a.held - a.given) + S.most a.source };

    ghost names = { λ a. S.names a.source };

    fn pull(&mut self, buf: &mut [u8]) -> io::Result<usize> {
        if self.fault.is_some() {
            return Ok(0);
        }
        if self.given < self.held.len() {
            return Ok(self.give(buf));
        }
        let n = match self.source.pull(buf) {
            Ok(n) => n,
            Err(error) => {
                self.fault = Some(Why::Read);
                return Err(error);
            }
        };
        match self.held.extend_from_slice(&buf[..n]) {
            Ok(()) => {
                self.given = self.held.len();
                Ok(n)
            }
            Err(_) => {
                self.fault = Some(Why::Memory);
                Err(io::Error::from(io::ErrorKind::OutOfMemory))
            }
        }
    }
}
