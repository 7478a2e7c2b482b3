//! Decodes into a sink.

ghost use Rattle.std.specs.Prelude.{◌≡◌, ◌≢◌, ◌<◌, ℕ, Bool, true, List, OnOk, OnErr, ◌≤◌, Some, IfOk, IfErr, is_some, codes};
ghost use Rattle.std.specs.Borrow.{GName};
ghost use Rattle.flac_bits.specs.State.{Rises};
ghost use Rattle.flac_frame.specs.Viewed.{frame_of};
ghost use Rattle.flac_native.specs.Item.{Item, metadata, frame as frame_item};
ghost use Rattle.flac_native.specs.Track.{piece_of, stand_of};
ghost use Rattle.flac_native.specs.Decoding.{taken, NoError, HandsStream, DecidesStream, IsOfSink, SourceFailedIfRead};
ghost use Rattle.flac_native.specs.Coming.{ReadIsCounted, KeepsAfter};
ghost use Rattle.flac_native.specs.Giving.{EndsEarlyInPlace, EndsEarlyInStream, HandsParts, MetNone};

use crate::container::{Container, Part};
use crate::fault::{Fault, Place};
use crate::track::Track;
use flac_bits::{BitReader, Source, Why};
use flac_frame::FrameView;
use flac_header::Profile;
use flac_meta::Block;
use std::alloc::Global;
use std::error::Error;
use std::fmt;

/// The error of a [`Sink`]: it did not take the item. It ends decoding with `Why::Sink`.
#[derive(Clone, Copy, Debug, PartialEq, Eq)]
pub struct SinkFault;

impl fmt::Display for SinkFault {
    ghost output = { λ _. Some (codes "the sink did not take the item") };

    fn fmt<W: fmt::Write>(&self, f: &mut fmt::Formatter<W>) -> fmt::Result {
        f.write_str("the sink did not take the item")
    }
}

impl Error for SinkFault {}

/// Receives the metadata blocks and frames of a stream, in the order of the stream. [`crate::decode`] calls it.
///
/// What `decode` promises of the sink's last state is stated by `takes`. A sink of which nothing is to be proved has
/// `takes = { λ _ _ _. ⊤ }`.
///
/// ```
/// fn block(&mut self, _block: &Block) -> Result<(), SinkFault> {
///     Ok(())
/// }
///
/// fn frame(&mut self, frame: &FrameView<'_>) -> Result<(), SinkFault> {
///     self.frames = self.frames.saturating_add(1);
///     self.samples = self.samples.saturating_add(frame.len() as u64);
///     Ok(())
/// }
/// ```
pub trait Sink {
    /// Whether the sink may get from the first state to the second by taking this item.
    ghost takes: { Self → Item → Self → Type 0 };

    /// Whether its errors are counted. If the count can rise no more they are not, and nothing is promised of what it
    /// takes.
    ghost known: { Self → Bool };

    /// How many errors it returned. Each counts, as long as the count can rise.
    ghost errors: { Self → ℕ };

    /// The references that the sink writes through.
    ghost names: { Self → List GName };

    /// Takes a metadata block (RFC 9639, section 8), which is lent for the call.
    ///
    /// # Errors
    /// [`SinkFault`] ends decoding. The block counts as not taken then.
    fn block(&mut self, block: &Block) -> Result<(), SinkFault>
        ensures known { OnOk result (known self.old ≡ true → known self.new ≡ true) }
        ensures takes { OnOk result (known self.old ≡ true → takes self.old (metadata block.now) self.new) }
        ensures counted { OnOk result (errors self.new ≡ errors self.old) }
        ensures failed { OnErr result (known self.old ≡ true → errors self.old < errors self.new) }
        ensures risen { OnErr result (Rises (errors self.old) (errors self.new)) }
        ensures names { names self.new ≡ names self.old };

    /// Takes a frame (RFC 9639, section 9), which is lent for the call.
    ///
    /// # Errors
    /// [`SinkFault`] ends decoding. The frame counts as not taken then.
    fn frame(&mut self, frame: &FrameView<'_>) -> Result<(), SinkFault>
        ensures known { OnOk result (known self.old ≡ true → known self.new ≡ true) }
        ensures takes { OnOk result (known self.old ≡ true
            → takes self.old (frame_item (frame_of frame.now)) self.new) }
        ensures counted { OnOk result (errors self.new ≡ errors self.old) }
        ensures failed { OnErr result (known self.old ≡ true → errors self.old < errors self.new) }
        ensures risen { OnErr result (Rises (errors self.old) (errors self.new)) }
        ensures names { names self.new ≡ names self.old };
}

/// Passes the part that was read last to the sink, unless it is the marker.
fn hand<S: Sink>(part: Part, track: &Track, sink: &mut S) -> Result<(), SinkFault>
    requires block { part ≡ Part.Block → is_some track.now.block ≡ true }
    requires frame { part ≡ Part.Frame → is_some track.now.format ≡ true }
    // proof only
    ensures known { OnOk result (S.known sink.old ≡ true → S.known sink.new ≡ true) }
    ensures takes { OnOk result (S.known sink.old ≡ true → taken S.takes sink.old (piece_of track.now part) sink.new) }
    ensures counted { OnOk result (S.errors sink.new ≡ S.errors sink.old) }
    ensures failed { OnErr result (S.known sink.old ≡ true → S.errors sink.old < S.errors sink.new) }
    ensures risen { OnErr result (Rises (S.errors sink.old) (S.errors sink.new)) }
    ensures names { S.names sink.new ≡ S.names sink.old }
{
    match part {
        Part::Marker => Ok(()),
        Part::Block => match &track.block {
            Some(block) => sink.block(block),
            None => unreachable!(),
        },
        Part::Frame => match &track.format {
            Some(format) => sink.frame(&format.view()),
            None => unreachable!(),
        },
    }
}

/// Passes the part that was read last to the sink, and reports the position of a failure.
fn hand_at<S: Sink>(at: Place, part: Part, track: &Track, sink: &mut S) -> Result<(), Fault>
    requires block { part ≡ Part.Block → is_some track.now.block ≡ true }
    requires frame { part ≡ Part.Frame → is_some track.now.format ≡ true }
    // proof only
    ensures known { OnOk result (S.known sink.old ≡ true → S.known sink.new ≡ true) }
    ensures takes { OnOk result (S.known sink.old ≡ true → taken S.takes sink.old (piece_of track.now part) sink.new) }
    ensures counted { OnOk result (S.errors sink.new ≡ S.errors sink.old) }
    ensures failed { IfErr result (IsOfSink S.known S.errors sink.old sink.new at) }
    ensures risen { OnErr result (Rises (S.errors sink.old) (S.errors sink.new)) }
    ensures names { S.names sink.new ≡ S.names sink.old }
{
    match hand(part, track, sink) {
        Ok(()) => Ok(()),
        Err(_) => Err(Fault { at, why: Why::Sink }),
    }
}

/// Passes each metadata block and each frame that is still to come to the sink, in the order of the stream (RFC 9639,
/// section 6). It goes on from the state of the track. The marker is read and not passed on. It is for the author of a
/// [`Container`]; [`crate::decode`] is the call for a native stream as a whole.
///
/// # Errors
/// The place, with blocks and frames counted from 0, and the reason. The sink took all items before that place, and no
/// others. Neither the container nor the track may then be used to read on.
///
/// - [`Why::Read`]: the device returned an error.
/// - [`Why::Memory`]: an allocation failed.
/// - [`Why::Sink`]: the sink did not take the item at this place.
/// - Any other reason: the stream is refused there.
pub fn decode_into<C: Container, S: Sink>(
    container: &mut C,
    track: &mut Track,
    sink: &mut S,
) -> Result<(), Fault>
    requires { C.stands container.old (stand_of track.old) ≡ true }
    ensures hands { HandsParts C.Container S.known S.takes S.errors track.old container.old container.new
        sink.old sink.new result }
    ensures met { IfOk result (λ _. MetNone C.Container container.old container.new) }
    ensures kept { C.errors container.old ≤ C.errors container.new }
    ensures read { IfErr result (λ f.
        ReadIsCounted C.known C.raised C.clear track.old container.old container.new f.why) }
    // An error of the device and of the sink is counted, if the count can rise, whatever is known of them: no other
    // call returns it.
    ensures risen { IfErr result (λ f. f.why ≡ Why.Read → Rises (C.met container.old) (C.met container.new)) }
    ensures sink { IfErr result (λ f. f.why ≡ Why.Sink → Rises (S.errors sink.old) (S.errors sink.new)) }
    ensures write { IfErr result (λ f. f.why ≢ Why.Write) }
    // An error of the device or of an allocation is reported where the container reports it after the parts that the
    // sink took, whatever is known of its bytes.
    ensures broken { EndsEarlyInPlace C.Container S.known S.takes track.old container.new sink.old sink.new result }
    ensures after { KeepsAfter C.known C.errors C.after container.old container.new }
    ensures names { S.names sink.new ≡ S.names sink.old }
    ensures container_names { C.names container.new ≡ C.names container.old }
{
    loop {
        let at = track.place();
        let part = match container.next(track) {
            Ok(Some(part)) => part,
            Ok(None) => return Ok(()),
            Err(fault) => return Err(fault),
        };
        hand_at(at, part, track, sink)?;
    }
}

/// Decodes a native stream: passes its metadata blocks and frames to the sink, in their order (RFC 9639, section 6). It
/// returns `Ok` only if all bytes of the source are one stream, and the sink took all its items. It holds one block and
/// one frame.
///
/// ```
/// let mut source = Counted::new(file);
/// decode(rt.alloc(), &mut source, Profile::Subset, &mut sink)?;
/// ```
///
/// # Errors
/// The place, with blocks and frames counted from 0, and the reason. The sink took all items before that place, and no
/// others.
///
/// - [`Why::Read`]: the source returned an error.
/// - [`Why::Memory`]: an allocation failed; never at the marker.
/// - [`Why::Sink`]: the sink did not take the item at this place.
/// - Any other reason: the stream is refused there.
pub fn decode<R: Source, S: Sink>(
    alloc: Global,
    source: &mut R,
    profile: Profile,
    sink: &mut S,
) -> Result<(), Fault>
    // Ok only if the bytes are a stream, and the sink took exactly its items; refused only as the bytes are, after
    // exactly the items before; and in each case the sink took items that are spelled whole, from the start.
    ensures hands { HandsStream R.Source S.known S.takes S.errors profile source.old source.new
        sink.old sink.new result }
    // Ok only if no error of the source was met, whatever is known of its bytes.
    ensures counted { OnOk result (NoError R.Source source.old source.new) }
    // A stream is not refused, unless memory runs out, and the place and the reason are those that the bytes show.
    ensures decides { DecidesStream R.Source S.known S.errors profile source.old source.new sink.old sink.new result }
    ensures kept { R.errors source.old ≤ R.errors source.new }
    ensures read { IfErr result (λ f. SourceFailedIfRead R.Source source.old source.new f.why) }
    // An error of the source and of the sink is counted, if the count can rise, whatever is known of them: no other
    // call returns it.
    ensures risen { IfErr result (λ f. f.why ≡ Why.Read → Rises (R.raised source.old) (R.raised source.new)) }
    ensures sink { IfErr result (λ f. f.why ≡ Why.Sink → Rises (S.errors sink.old) (S.errors sink.new)) }
    ensures write { IfErr result (λ f. f.why ≢ Why.Write) }
    // Whatever is known of the source: its error, or that of an allocation, is reported at the place of the item after
    // exactly those that the sink took.
    ensures placed { S.known sink.old ≡ true
        → IfErr result (EndsEarlyInStream (taken S.takes) profile sink.old sink.new) }
    // No allocation fails at the marker: none is needed there.
    ensures memory { IfErr result (λ f. f.why ≡ Why.Memory → f.at ≢ Place.Marker) }
    ensures names { S.names sink.new ≡ S.names sink.old }
    ensures source_names { R.names source.new ≡ R.names source.old }
{
    let mut reader = BitReader::new(source);
    let mut track = Track::opening(alloc, profile);
    let outcome = decode_into(&mut reader, &mut track, sink);
    let _source = reader.into_source(); // for its clauses alone
    outcome
}
