//! The items that a decoder lends, and how the next one is read.

ghost use Rattle.std.specs.Prelude.{◌≡◌, ◌≢◌, IfOk, IfErr, IfSome, true, false, Some, Ok};
ghost use Rattle.flac_native.specs.Track.{is_made, stand_of};
ghost use Rattle.flac_native.specs.Giving.{CountsIn, ComesInOrder, found};
ghost use Rattle.flac_native.specs.inner.Steps.{GivesFirstItem, PassesFirstItem, BreaksInItem};

use crate::container::{Container, Part};
use crate::decoder::Course;
use crate::fault::Fault;
use crate::track::{Phase, Track};
use flac_bits::Why;
use flac_frame::FrameView;
use flac_meta::Block;

/// An item of a stream. The decoder lends blocks and frames until it reads the next item.
#[derive(Clone, Copy, Debug, PartialEq, Eq)]
pub enum Item<'a> {
    /// A metadata block (RFC 9639, section 8).
    Block(&'a Block),
    /// A frame (RFC 9639, section 9).
    Frame(FrameView<'a>),
    /// The end of the stream.
    End,
}

/// Whether the part that was read is the marker.
fn is_marker(outcome: &Result<Option<Part>, Fault>) -> bool
    ensures is { result ≡ true → outcome.now ≡ Ok (Some Part.Marker) }
    ensures other { result ≡ false → outcome.now ≡ Ok (Some Part.Marker) → ⊥ }
{
    matches!(outcome, Ok(Some(Part::Marker)))
}

/// Reads the next block or frame; `None` at the end of the stream. The marker is read with the block after it.
pub(crate) fn next_item<C: Container>(
    container: &mut C,
    track: &mut Track,
) -> Result<Option<Part>, Fault>
    requires { C.stands container.old (stand_of track.old) ≡ true }
    // proof only
    ensures stands { IfOk result (λ o. IfSome o (λ _. C.stands container.new (stand_of track.new) ≡ true)) }
    ensures counts { CountsIn C.Container track.old container.old container.new result }
    ensures memory { (stand_of track.old).phase ≡ Phase.Frames → IfErr result (λ f. f.why ≢ Why.Memory) }
    ensures made { IfOk result (λ o. IfSome o (λ part. is_made (Course.Read part) track.new ≡ true)) }
    ensures ordered { IfOk result (λ o. ComesInOrder track.old track.new (found track.new o)) }
    ensures gives { GivesFirstItem C.Container track.old track.new container.old container.new result }
    ensures passes { PassesFirstItem C.Container track.old track.new container.old container.new result }
    ensures broken { BreaksInItem C.Container track.old container.old container.new result }
{
    let outcome = container.next(track);
    if is_marker(&outcome) {
        return container.next(track);
    }
    outcome
}
