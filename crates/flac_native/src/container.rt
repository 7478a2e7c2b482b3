//! Containers: where a decoder reads the parts of a stream from.

ghost use Rattle.std.specs.Prelude.{◌≡◌, ◌≢◌, ◌<◌, ◌≤◌, ℕ, Bool, true, false, List, IfOk, IfErr, IfSome};
ghost use Rattle.std.specs.Borrow.{GName};
ghost use Rattle.flac_bits.specs.State.{After, Rises};
ghost use Rattle.flac_bits.specs.Handing.{IsOutside};
ghost use Rattle.flac_bits.specs.Reasons.{of_output};
ghost use Rattle.flac_native.specs.Stream.{Progress, Stand};
ghost use Rattle.flac_native.specs.Track.{IsMadeAs, IsInOrder, ReadsPart, piece_of, stand_of};
ghost use Rattle.flac_native.specs.Coming.{Coming, MeetsNone, StaysClear, ReadIsCounted, KeepsAfter, GivesNext, BreaksOutside};
ghost use Rattle.flac_native.specs.declared.track.Phase.TheVariants.{Frames};

use crate::fault::{Fault, Place};
use crate::track::Track;
use flac_bits::Why;

/// A kind of part of a stream (RFC 9639, section 6). Sections are those of RFC 9639.
#[derive(Clone, Copy, Debug, PartialEq, Eq)]
pub enum Part {
    /// The four bytes `fLaC`.
    Marker,
    /// A metadata block (section 8).
    Block,
    /// A frame (section 9).
    Frame,
}

/// Gives the parts of a stream, one after another: what a [`crate::Decoder`] reads from.
///
/// A [`flac_bits::BitReader`] is the container of a native stream: its bits from `fLaC` on (RFC 9639, section 6).
/// `OggPackets` of `flac_ogg` is that of an Ogg stream: its packets (section 10.1).
pub trait Container {
    ghost use Rattle.flac_bits.specs.declared.why.Why.{Why};
    ghost use Rattle.flac_native.specs.declared.fault.Place.{Place};
    ghost use Rattle.flac_native.specs.declared.track.Track.{Track};

    /// Whether the parts still to come are known.
    ghost known: { Self → Bool };

    /// How many errors of the device were returned that `after` did not announce.
    ghost errors: { Self → ℕ };

    /// How many errors of the device were returned, announced or not, as far as the parts still to come depend on it.
    ghost raised: { Self → ℕ };

    /// How many errors the device itself returned. Each counts, whether the parts are known or not, as long as the
    /// count can rise.
    ghost met: { Self → ℕ };

    /// What comes after the bytes still to come.
    ghost after: { Self → After };

    /// No error of the device is announced that `raised` would not count.
    ghost clear: { Self → Track → Type 0 };

    /// How many parts can still come at most.
    ghost most: { Self → ℕ };

    /// The references that the container goes through.
    ghost names: { Self → List GName };

    /// Whether the next part may be read into a track in this state.
    ghost stands: { Self → Stand → Bool };

    /// Which parts are still to come after this progress, and whether the end or a refusal comes after them.
    ghost gives: { Self → Coming };

    /// At which place a call that reads the part after this progress reports `Read`, and at which `Memory`.
    ghost breaks: { Self → Progress → Place → Why → Type 0 };

    /// How a call that returns a part changes the container.
    ghost gave: { Self → Self → Type 0 };

    /// How a call that returns `Read` or `Memory` changes it.
    ghost broke: { Self → Self → Why → Type 0 };

    /// Reads the next part and keeps it in the track, or returns `None` at the end of the stream.
    ///
    /// # Errors
    /// The place and the reason. After an error neither the container nor the track may be used to read on.
    ///
    /// - [`Why::Read`]: the device returned an error.
    /// - [`Why::Memory`]: an allocation failed; never once the last metadata block was read.
    /// - Any other reason, but not [`Why::Sink`] or [`Why::Write`]: the stream is refused there.
    fn next(&mut self, track: &mut Track) -> Result<Option<Part>, Fault>
        requires { stands self.old (stand_of track.old) ≡ true }
        ensures stands { IfOk result (λ o. IfSome o (λ _. stands self.new (stand_of track.new) ≡ true)) }
        ensures spends { IfOk result (λ o. IfSome o (λ _. most self.new < most self.old)) }
        ensures counts { IfOk result (λ _. MeetsNone known errors raised met self.old self.new) }
        ensures clear { IfOk result
            (λ o. IfSome o (λ _. StaysClear known clear self.old track.old self.new track.new)) }
        ensures kept { errors self.old ≤ errors self.new }
        ensures read { IfErr result (λ f. ReadIsCounted known raised clear track.old self.old self.new f.why) }
        ensures risen { IfErr result (λ f. f.why ≡ Why.Read → Rises (met self.old) (met self.new)) }
        // No error of a sink or a target is met.
        ensures output { IfErr result (λ f. of_output f.why ≡ false) }
        ensures after { KeepsAfter known errors after self.old self.new }
        ensures names { names self.new ≡ names self.old }
        // After the last metadata block no memory is allocated.
        ensures memory { (stand_of track.old).phase ≡ Frames → IfErr result (λ f. f.why ≢ Why.Memory) }
        ensures gives { GivesNext known errors raised gives track.old track.new self.old self.new result }
        ensures broken { BreaksOutside breaks track.old self.new result }
        ensures gave { IfOk result (λ o. IfSome o (λ _. gave self.old self.new)) }
        ensures broke { IfErr result (λ f. IsOutside f.why → broke self.old self.new f.why) }
        ensures made { IfOk result (λ o. IfSome o (λ part. IsMadeAs part track.old track.new)) }
        // A frame, and the end, come only after the last metadata block, and no block comes after it.
        ensures ordered { IfOk result (λ o. IsInOrder o track.old track.new) }
        ensures next { IfOk result (λ o. IfSome o (λ part. ReadsPart track.old (piece_of track.new part) track.new)) };
}
