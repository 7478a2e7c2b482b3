//! The frames of a stream whose metadata was read, and their bytes.

ghost use Rattle.std.specs.Prelude.{◌≡◌, true, false, is_some, OnOk, IfOk};
ghost use Rattle.flac_native.specs.Stream.{framed};
ghost use Rattle.flac_native.specs.Track.{stand_of, shown, ReadsPart};
ghost use Rattle.flac_copy.specs.Packets.{HoldsNext};
ghost use Rattle.flac_copy.specs.Inputs.{GivesNative, NextNative, NextInOgg, NextFrame};

use crate::again::Again;
use crate::frames::next_frame;
use crate::ogg_head::fault_in_packet;
use crate::packets::next_packet;
use crate::parts::read_frame;
use crate::replayed::Replayed;
use flac_bits::{Source, Why};
use flac_native::{Fault, Track};
use flac_pages::Pages;

/// A stream whose metadata blocks were read: its frames come next.
#[derive(Drop)]
pub(crate) enum Input<R: Source> {
    /// A native stream (RFC 9639, section 6).
    Native(Again<R>),
    /// An Ogg stream, each frame in a packet of its own (section 10.1).
    Ogg(Pages<Replayed<R>>),
}

/// Reads the next frame of a native stream, and puts its bytes in place of those that there are.
fn take_native<R: Source>(
    again: &mut Again<R>,
    track: &mut Track,
    bytes: &mut Vec<u8>,
) -> Result<(), Why>
    requires { again.old.given ≡ 0 }
    ensures gives { OnOk result (GivesNative R.Source track.old track.new again.old again.new bytes.new.items) }
    ensures next { OnOk result (ReadsPart track.old (framed (shown track.new)) track.new) }
    ensures made { OnOk result (is_some (stand_of track.new).info ≡ true) }
{
    let n = next_frame(again, track)?;
    bytes.clear();
    bytes.extend_from_slice(again.front(n))?;
    again.skip(n);
    Ok(())
}

/// What [`Input::next`] does in a native stream.
fn next_native<R: Source>(
    again: &mut Again<R>,
    track: &mut Track,
    bytes: &mut Vec<u8>,
) -> Result<bool, Why>
    ensures next { IfOk result (NextNative R.Source track.old track.new again.old again.new bytes.new.items) }
{
    again.rewind();
    if again.is_over()? {
        return Ok(false);
    }
    take_native(again, track, bytes)?;
    Ok(true)
}

/// What [`Input::next`] does in an Ogg stream.
fn next_in_ogg<R: Source>(
    pages: &mut Pages<R>,
    track: &mut Track,
    bytes: &mut Vec<u8>,
) -> Result<bool, Fault>
    ensures next { IfOk result (NextInOgg track.old track.new pages.old pages.new bytes.new.items) }
{
    let at = track.place();
    match next_packet(pages, bytes, false) {
        Ok(true) => match read_frame(track, bytes.as_slice()) {
            Ok(()) => Ok(true),
            Err(why) => Err(Fault { at, why }),
        },
        Ok(false) => Ok(false),
        Err(fault) => Err(fault_in_packet(at, fault)),
    }
}

impl<R: Source> Input<R> {
    /// Reads the next frame, and puts its bytes in place of those that there are. False at the end of the stream, whose
    /// samples were not compared yet.
    ///
    /// # Errors
    /// The fault of the frame at its place, or of a page, as decoding reports it; but a packet that is cut off, or
    /// longer than any part, is refused as such, whatever its bytes are. [`Why::Memory`] if an allocation fails.
    pub(crate) fn next(&mut self, track: &mut Track, bytes: &mut Vec<u8>) -> Result<bool, Fault>
        ensures { IfOk result (NextFrame R.Source track.old track.new self.old self.new bytes.new.items) }
    {
        match self {
            Input::Native(again) => {
                let at = track.place();
                match next_native(again, track, bytes) {
                    Ok(more) => Ok(more),
                    Err(why) => Err(Fault { at, why }),
                }
            }
            Input::Ogg(pages) => next_in_ogg(pages, track, bytes),
        }
    }
}
