//! A native stream as a container: the bits from the marker `fLaC` on (RFC 9639, section 6).

ghost use Rattle.std.specs.Prelude.{◌≡◌, ◌≢◌, ◌≤◌, ◌+◌, true, OnOk, IfOk, IfErr, IfSome, Some, ⊤};
ghost use Rattle.flac_bits.specs.Fencing.{lifted};
ghost use Rattle.flac_bits.specs.Reading.{Counts, Reads, CallInPlace};
ghost use Rattle.flac_bits.specs.Handing.{reason_of, IsOutside};
ghost use Rattle.flac_native.specs.Stream.{marker, layout, Progress};
ghost use Rattle.flac_native.specs.inner.Steps.{ReadsNextPart, SaysEnded, SpendsPart, StepsOn};
ghost use Rattle.flac_native.specs.Track.{IsAt, IsMadeAs, IsInOrder, ReadsPart, piece_of, stand_of, is_after_blocks};
ghost use Rattle.flac_native.specs.Item.{fault_pair};
ghost use Rattle.flac_native.specs.Coming.{PartsCome, EndsEarly};

use crate::container::{Container, Part};
use crate::fault::{Fault, Place};
use crate::track::{Phase, Track};
use flac_bits::{BitReader, Source, Why};

/// The marker with which a native stream begins: the four bytes `fLaC` as a number (RFC 9639, section 6).
pub const MARKER: u64 = 0x664C6143;

/// Reads the marker `fLaC`, with which a native stream begins (RFC 9639, section 6).
///
/// # Errors
/// [`Why::BadMarker`] if the next four bytes are others; those of [`BitReader`]. Never [`Why::Memory`].
#[tactic(auto, unfolding(crate::specs::Stream::marker))]
pub fn read_marker<R: Source>(reader: &mut BitReader<R>) -> Result<(), Why>
    ensures reading { CallInPlace 32 (Reads (λ u. u) marker) reader.old reader.new result }
{
    if reader.take(32)? != MARKER {
        return Err(Why::BadMarker);
    }
    Ok(())
}

/// Reads the next part and keeps it in the track.
#[tactic(auto, unfolding(crate::specs::Stream::layout))]
fn read_part<R: Source>(reader: &mut BitReader<R>, track: &mut Track) -> Result<Part, Why>
    // proof only
    ensures spends { OnOk result (reader.new.most + 32 ≤ reader.old.most) }
    ensures counts { Counts (lifted reader.old) reader.new result }
    ensures memory { (stand_of track.old).phase ≡ Phase.Frames → IfErr result (λ e. e ≢ Why.Memory) }
    ensures marker { (stand_of track.old).phase ≡ Phase.Opening → IfErr result (λ e. e ≢ Why.Memory) }
    ensures reads { ReadsNextPart track.old track.new reader.old reader.new result }
    ensures made { IfOk result (λ part. IsMadeAs part track.old track.new) }
    ensures ordered { IfOk result (λ part. IsInOrder (Some part) track.old track.new) }
    ensures next { IfOk result (λ part. ReadsPart track.old (piece_of track.new part) track.new) }
{
    match track.position.phase {
        Phase::Opening => {
            reader.lift();
            reader.start_checks();
            read_marker(reader)?;
            track.position.phase = Phase::Blocks;
            Ok(Part::Marker)
        }
        Phase::Blocks => {
            reader.lift();
            reader.start_checks();
            track.next_block_by_layout(reader)?;
            Ok(Part::Block)
        }
        Phase::Frames => {
            track.next_frame_by_layout(reader)?;
            Ok(Part::Frame)
        }
    }
}

/// Whether the stream ends here: all metadata blocks were read, and no bit is left.
fn is_at_end<R: Source>(reader: &mut BitReader<R>, track: &Track) -> Result<bool, Why>
    // proof only
    ensures spends { OnOk result (reader.new.most ≤ reader.old.most) }
    ensures counts { Counts reader.old reader.new result }
    ensures over { IfOk result (λ over. SaysEnded track.now reader.old reader.new over) }
    ensures later { IfOk result (λ over. over ≡ true → is_after_blocks (stand_of track.now).phase ≡ true) }
    ensures failed { IfErr result (λ e. e ≡ Why.Read) }
{
    match track.position.phase {
        Phase::Frames => match &track.format {
            Some(_) => reader.at_end(),
            None => Ok(false),
        },
        Phase::Opening => Ok(false),
        Phase::Blocks => Ok(false),
    }
}

/// Reads the next part and keeps it in the track, or returns `None` at the end of the stream. After an error the track
/// must not be used further.
pub(crate) fn advance<R: Source>(
    reader: &mut BitReader<R>,
    track: &mut Track,
) -> Result<Option<Part>, Fault>
    // proof only
    ensures spends { IfOk result (λ o. SpendsPart reader.old reader.new o) }
    ensures counts { Counts (lifted reader.old) reader.new (reason_of fault_pair result) }
    // After the last metadata block no allocation fails.
    ensures memory { (stand_of track.old).phase ≡ Phase.Frames → IfErr result (λ f. f.why ≢ Why.Memory) }
    ensures broken { (p : Progress) → IsAt track.old p → IfErr result (λ f. IsOutside f.why → EndsEarly p f.at f.why) }
    ensures steps { StepsOn track.old track.new reader.old reader.new result }
    ensures made { IfOk result (λ o. IfSome o (λ part. IsMadeAs part track.old track.new)) }
    // No frame and no end comes before the last metadata block, and no block after it.
    ensures ordered { IfOk result (λ o. IsInOrder o track.old track.new) }
    ensures next { IfOk result (λ o. IfSome o (λ part. ReadsPart track.old (piece_of track.new part) track.new)) }
{
    reader.lift();
    let at = track.place();
    match is_at_end(reader, track) {
        Ok(false) => match read_part(reader, track) {
            Ok(part) => Ok(Some(part)),
            Err(why) => Err(Fault { at, why }),
        },
        Ok(true) => match track.end() {
            Ok(()) => Ok(None),
            Err(why) => Err(Fault {
                at: Place::End,
                why,
            }),
        },
        Err(why) => Err(Fault { at, why }),
    }
}

impl<R: Source> Container for BitReader<R> {
    ghost known = { λ r. r.known };

    ghost errors = { λ r. r.errors };

    ghost raised = { λ r. r.raised };

    ghost met = { λ r. r.raised };

    ghost after = { λ r. r.after };

    ghost clear = { λ _ _. ⊤ };

    ghost most = { λ r. r.most };

    ghost names = { λ r. r.names };

    ghost stands = { λ _ _. true };

    ghost gives = { λ r p parts end. PartsCome p (lifted r).cursor parts end };

    ghost breaks = { λ _ p at why. EndsEarly p at why };

    ghost gave = { λ _ _. ⊤ };

    ghost broke = { λ _ _ _. ⊤ };

    fn next(&mut self, track: &mut Track) -> Result<Option<Part>, Fault> {
        advance(self, track)
    }
}
