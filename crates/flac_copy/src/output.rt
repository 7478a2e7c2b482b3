//! Where the frames of a copy are written to.

ghost use Rattle.std.specs.Prelude.{OnOk};
ghost use Rattle.flac_copy.specs.Outputs.{Puts, Finishes};

use crate::outgoing::Outgoing;
use flac_bits::{Target, Why, send_all};

/// A stream whose metadata was written: frames are written after it.
#[derive(Drop)]
pub(crate) enum Output {
    /// A native stream: frames one after another (RFC 9639, section 6).
    Native,
    /// An Ogg stream: each frame is a packet (section 10.1).
    Ogg(Outgoing),
}

impl Output {
    /// Writes a frame with `count` samples of each channel; in Ogg the one before it, since the last page of a stream
    /// is marked.
    ///
    /// # Errors
    /// [`Why::Memory`] if an allocation fails, [`Why::Write`] if the target returns an error.
    pub(crate) fn put<W: Target>(
        &mut self,
        bytes: &[u8],
        count: usize,
        target: &mut W,
    ) -> Result<(), Why>
        ensures { OnOk result (Puts W.Target self.old self.new bytes.now count target.old target.new) }
    {
        match self {
            Output::Native => send_all(target, bytes),
            Output::Ogg(out) => out.push(bytes, count, target),
        }
    }

    /// Writes what is held back.
    ///
    /// # Errors
    /// [`Why::Write`] if the target returns an error.
    pub(crate) fn finish<W: Target>(&self, target: &mut W) -> Result<(), Why>
        ensures { OnOk result (Finishes W.Target self.now target.old target.new) }
    {
        match self {
            Output::Native => Ok(()),
            Output::Ogg(out) => out.finish(target),
        }
    }
}
