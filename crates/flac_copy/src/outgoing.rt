//! An Ogg stream that is written packet by packet.

ghost use Rattle.std.specs.Prelude.{◌≡◌, ◌⊎◌, OnOk, IfErr};
ghost use Rattle.flac_bits.specs.Forms.{AreBytes};
ghost use Rattle.flac_bits.specs.Sending.{Sends};
ghost use Rattle.flac_copy.specs.Outgoing.{pending_in, after_frame};

use flac_bits::{Target, Why, bytes_fit, send_all};
use flac_ogg::HeldPacket;
use flac_pages::{PacketKind, PacketMarks};
use std::alloc::Global;

/// What an Ogg stream has to know of the packets so far: the last, which is held back, since the last page of a stream
/// is marked; and the number of samples so far.
#[derive(Drop)]
pub(crate) struct Outgoing {
    pub(crate) alloc: Global,
    pub(crate) serial: u32,
    pub(crate) held: HeldPacket,
    pub(crate) samples: u64,
}

impl Outgoing {
    /// Holds back the packet of a frame with `count` samples of each channel, and writes the packet that was held. Its
    /// last page has the number of samples so far as its granule position (RFC 9639, section 10.1).
    ///
    /// # Errors
    /// [`Why::Memory`] if an allocation fails, [`Why::Write`] if the target returns an error.
    pub(crate) fn push<W: Target>(
        &mut self,
        packet: &[u8],
        count: usize,
        target: &mut W,
    ) -> Result<(), Why>
        ensures next { OnOk result (pending_in self.new ≡ after_frame (pending_in self.old) packet.now count) }
        ensures bytes { OnOk result (AreBytes packet.now) }
        ensures sends { OnOk result (Sends W.Target self.old.held.middle.items target.old target.new result) }
        ensures only { IfErr result (λ e. (e ≡ Why.Memory) ⊎ (e ≡ Why.Write)) }
    {
        bytes_fit(packet);
        let end = self.samples.saturating_add(count as u64);
        let marks = PacketMarks {
            serial: self.serial,
            sequence: self.held.next,
            kind: PacketKind::Frame { end },
            first: false,
            last: false,
        };
        let held = HeldPacket::new(self.alloc, marks, packet)?;
        match send_all(target, self.held.middle.as_slice()) {
            Ok(()) => {
                self.held = held;
                self.samples = end;
                Ok(())
            }
            Err(why) => Err(why),
        }
    }

    /// Writes the packet that is held, as the last of the stream.
    ///
    /// # Errors
    /// [`Why::Write`] if the target returns an error.
    pub(crate) fn finish<W: Target>(&self, target: &mut W) -> Result<(), Why>
        ensures sends { Sends W.Target self.now.held.last.items target.old target.new result }
        ensures write { IfErr result (λ e. e ≡ Why.Write) }
    {
        send_all(target, self.held.last.as_slice())
    }
}
