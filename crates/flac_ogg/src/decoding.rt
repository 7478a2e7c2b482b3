//! Decodes a stream in either container.

ghost use Rattle.std.specs.Prelude.{◌≡◌, ◌≢◌, true, IfOk, IfErr, None, ◌<◌, ◌≤◌, ◌+◌, ◌*◌, ◌++◌, [], OnOk, Ok};
ghost use Rattle.flac_bits.specs.State.{Rises};
ghost use Rattle.flac_native.specs.Track.{IsAt};
ghost use Rattle.flac_native.specs.Giving.{stage_of};
ghost use Rattle.flac_native.specs.declared.decoder.Course.TheVariants.{Begun};
ghost use Rattle.flac_ogg.specs.Stream.{start};
ghost use Rattle.flac_pages.specs.Packets.{at_front_of};
ghost use Rattle.flac_ogg.specs.Calls.{HadNoError, KeepsEnd, TakesFront, HasReadError, HasAnyError, HandsOgg, HandsAs, HandsAny, DecidesOgg, DecidesAs, DecidesAny};
ghost use Rattle.flac_ogg.specs.Coming.{IsClear};
ghost use Rattle.flac_ogg.specs.Opened.{its_pages, IsFrontOf, StreamComes, RefusalComes};
ghost use Rattle.flac_ogg.specs.Fronts.{front_bytes, front_count};
ghost use Rattle.flac_ogg.specs.Either.{begins_page};

use crate::packets::OggPackets;
use flac_bits::{Source, Why};
use flac_native::{Decoder, Fault, Place, Profile, Refused, Sink, Track, decode, decode_into};
use flac_pages::{CAPTURE_PATTERN, PageBuffer, Pages};
use std::alloc::Global;
use std::io;

/// The pages of a source, with room for one. If the allocation of that fails, the source is returned.
fn pages_of<R: Source>(alloc: Global, source: R) -> Result<Pages<R>, Refused<R>>
    ensures ok { IfOk result (λ p. p ≡ at_front_of R.Source source) }
    ensures memory { IfErr result (λ x. x.fault ≡ record { at = Place.Marker; why = Why.Memory }) }
    ensures left { IfErr result (λ x. x.left ≡ source) }
{
    match PageBuffer::new(alloc) {
        Ok(room) => Ok(Pages::over(room, source)),
        Err(why) => Err(Refused {
            fault: Fault {
                at: Place::Marker,
                why,
            },
            left: source,
        }),
    }
}

/// Does what [`ogg_decoder`] does, and returns the source with an error.
///
/// # Errors
/// Those of [`ogg_decoder`]. Nothing was read from the source.
pub fn ogg_decoder_returning<R: Source>(
    alloc: Global,
    source: R,
    profile: Profile,
) -> Result<Decoder<OggPackets<R>>, Refused<R>>
    ensures track { IfOk result (λ d. IsAt (stage_of d).track (start profile)) }
    ensures course { IfOk result (λ d. (stage_of d).course ≡ Begun) }
    ensures known { IfOk result (λ d. (its_pages d).known ≡ R.known source) }
    ensures errors { IfOk result (λ d. (its_pages d).errors ≡ R.errors source) }
    ensures met { IfOk result (λ d. (its_pages d).raised ≡ R.raised source) }
    ensures most { IfOk result (λ d. ((its_pages d).most ≡ 8 * R.most source) × ((its_pages d).body ≡ [])) }
    ensures names { IfOk result (λ d. (its_pages d).names ≡ R.names source) }
    // What is still to come is what the input is.
    ensures stream { IfOk result (λ d. StreamComes R.Source profile source (its_pages d)) }
    ensures refused { IfOk result (λ d. RefusalComes R.Source profile source (its_pages d)) }
    // No page was read.
    ensures front { IfOk result (λ d. IsFrontOf R.Source source (its_pages d)) }
    // Read is returned only if the source returns an error in the call, unless one is announced.
    ensures clear { IfOk result (λ d. (R.after source).fails ≡ None → IsClear (its_pages d) (stage_of d).track) }
    ensures memory { IfErr result (λ x. x.fault ≡ record { at = Place.Marker; why = Why.Memory }) }
    ensures left { IfErr result (λ x. x.left ≡ source) }
{
    match pages_of(alloc, source) {
        Ok(pages) => Ok(Decoder::over(OggPackets::over(pages), Track::new(alloc, profile))),
        Err(refused) => Err(refused),
    }
}

/// Makes a decoder of an Ogg stream, whose first page begins at the source's next byte (RFC 9639, section 10.1). It has
/// the calls of [`Decoder`], and lends a block or a frame once its packet has ended. They report [`Why::Read`] at the
/// page that was being read ([`crate::calls_break_at_pages`]).
///
/// It allocates 65025 bytes for a page here. When it reads metadata, it allocates for each block, and at STREAMINFO for
/// one frame.
///
/// ```
/// let mut decoder = ogg_decoder(rt.alloc(), Memory::new(&stream), Profile::Subset)?;
/// let found = peaks(&mut decoder)?; // see `Decoder`
/// ```
///
/// # Errors
/// [`Why::Memory`] at [`Place::Marker`] if the allocation for a page fails.
pub fn ogg_decoder<R: Source + Drop>(
    alloc: Global,
    source: R,
    profile: Profile,
) -> Result<Decoder<OggPackets<R>>, Fault>
    ensures track { IfOk result (λ d. IsAt (stage_of d).track (start profile)) }
    ensures course { IfOk result (λ d. (stage_of d).course ≡ Begun) }
    ensures known { IfOk result (λ d. (its_pages d).known ≡ R.known source) }
    ensures errors { IfOk result (λ d. (its_pages d).errors ≡ R.errors source) }
    ensures met { IfOk result (λ d. (its_pages d).raised ≡ R.raised source) }
    ensures most { IfOk result (λ d. ((its_pages d).most ≡ 8 * R.most source) × ((its_pages d).body ≡ [])) }
    ensures names { IfOk result (λ d. (its_pages d).names ≡ R.names source) }
    // What is still to come is what the input is.
    ensures stream { IfOk result (λ d. StreamComes R.Source profile source (its_pages d)) }
    ensures refused { IfOk result (λ d. RefusalComes R.Source profile source (its_pages d)) }
    // No page was read.
    ensures front { IfOk result (λ d. IsFrontOf R.Source source (its_pages d)) }
    // Read is returned only if the source returns an error in the call, unless one is announced.
    ensures clear { IfOk result (λ d. (R.after source).fails ≡ None → IsClear (its_pages d) (stage_of d).track) }
    ensures memory { IfErr result (λ f. f.why ≡ Why.Memory) }
    ensures place { IfErr result (λ f. f.at ≡ Place.Marker) }
{
    match ogg_decoder_returning(alloc, source, profile) {
        Ok(decoder) => Ok(decoder),
        Err(refused) => Err(refused.fault),
    }
}

/// Decodes an Ogg stream: passes its metadata blocks and frames to the sink, each once its packet has ended (RFC 9639,
/// section 10.1). It returns `Ok` only if all bytes of the source are one stream, and the sink took all its items. It
/// holds one page, one block and one frame.
///
/// ```
/// decode_ogg(rt.alloc(), &mut source, Profile::Subset, &mut sink)?;
/// ```
///
/// # Errors
/// The place and the reason. The sink took all items before, and no others.
///
/// - [`Why::Read`]: the source returned an error. The place is the page that was being read.
/// - [`Why::Memory`]: an allocation failed. The place is the next block, or before the first item the marker.
/// - [`Why::Sink`]: the sink did not take the block or frame at this place.
/// - [`Why::BadMapping`] at the marker; [`Why::NoEndPage`], [`Why::TotalMismatch`] and [`Why::Md5Mismatch`] at the end.
/// - Any other reason: the stream is refused at this page, block or frame. Each is counted from 0.
pub fn decode_ogg<R: Source, S: Sink>(
    alloc: Global,
    source: &mut R,
    profile: Profile,
    sink: &mut S,
) -> Result<(), Fault>
    // Ok only if the bytes are an Ogg stream, and the sink took exactly its items; refused only as the bytes are, after
    // exactly the items before; and in each case the sink took the items of whole packets, from the start.
    ensures hands { HandsOgg R.Source S.Sink profile source.old source.new sink.old sink.new result }
    // An Ogg stream is not refused, unless memory runs out, and the place and the reason are those that the bytes show.
    ensures decides { DecidesOgg R.Source S.Sink profile source.old source.new sink.old sink.new result }
    // Read is returned only if the source returned an error in the call, unless one was announced.
    ensures read { IfErr result (λ f. HasReadError R.Source source.old source.new f.why) }
    // An error of the source and of the sink is counted, if the count can rise, whatever is known of them: no other
    // call returns it.
    ensures risen { IfErr result (λ f. f.why ≡ Why.Read → Rises (R.raised source.old) (R.raised source.new)) }
    ensures sink { IfErr result (λ f. f.why ≡ Why.Sink → Rises (S.errors sink.old) (S.errors sink.new)) }
    ensures write { IfErr result (λ f. f.why ≢ Why.Write) }
    // Ok only if the source returned no error in the call, whatever is known of its bytes: none that was not announced
    // (`errors`), and none that was announced (`raised` counts both).
    ensures counted { OnOk result (R.errors source.new ≡ R.errors source.old) }
    ensures raised { OnOk result (R.raised source.new ≡ R.raised source.old) }
    ensures kept { R.errors source.old ≤ R.errors source.new }
    ensures names { S.names sink.new ≡ S.names sink.old }
    ensures source_names { R.names source.new ≡ R.names source.old }
{
    let room = match PageBuffer::new(alloc) {
        Ok(room) => room,
        Err(why) => {
            return Err(Fault {
                at: Place::Marker,
                why,
            });
        }
    };
    let mut track = Track::new(alloc, profile);
    let mut packets = OggPackets::over(Pages::over(room, source));
    let outcome = decode_into(&mut packets, &mut track, sink);
    let pages = packets.into_pages();
    let _source = pages.into_source(); // for its clauses alone
    outcome
}

/// A source whose first byte was pulled already ([`pull_front`]), and comes again. For readers of either container.
#[derive(Drop)]
pub struct Fronted<S: Source> {
    /// The byte that was pulled, if there was one.
    pub front: Option<u8>,
    /// What comes after it.
    pub source: S,
}

impl<S: Source> Fronted<S> {
    /// The source, without a byte in front of it.
    pub(crate) fn into_source(self) -> S
        ensures { result ≡ self.source }
    {
        let Fronted { front: _, source } = self;
        source
    }
}

impl<S: Source> Source for Fronted<S> {
    ghost known = { λ s. S.known s.source };

    ghost coming = { λ s. front_bytes s.front ++ S.coming s.source };

    ghost after = { λ s. S.after s.source };

    ghost errors = { λ s. S.errors s.source };

    ghost raised = { λ s. S.raised s.source };

    ghost most = { λ s. front_count s.front + S.most s.source };

    ghost names = { λ s. S.names s.source };

    fn pull(&mut self, buf: &mut [u8]) -> io::Result<usize> {
        let Some(byte) = self.front else {
            return self.source.pull(buf);
        };
        if buf.is_empty() {
            return Ok(0);
        }
        buf[0] = byte;
        self.front = None;
        Ok(1)
    }
}

/// Whether this byte begins a page, so that the stream is in Ogg (RFC 3533, section 6); false if there is none. For
/// readers of either container.
pub fn begins_page(front: Option<u8>) -> bool
    ensures { result ≡ begins_page (front_bytes front) }
{
    match front {
        Some(byte) => byte == CAPTURE_PATTERN[0],
        None => false,
    }
}

/// Pulls the first byte of a source, if there is one: `None` at its end. For readers of either container, which ask
/// [`begins_page`] about it, and put it in front of the source again by [`Fronted`].
///
/// # Errors
/// [`Why::Read`] at the marker if the source returns an error.
pub fn pull_front<R: Source>(source: &mut R) -> Result<Option<u8>, Fault>
    ensures known { OnOk result (R.known source.old ≡ true → R.known source.new ≡ true) }
    ensures bytes { IfOk result (λ front. TakesFront R.Source source.old source.new front) }
    ensures end { result ≡ Ok None → R.known source.old ≡ true → R.coming source.old ≡ [] }
    ensures counted { OnOk result (HadNoError R.Source source.old source.new) }
    ensures kept { R.errors source.old ≤ R.errors source.new }
    ensures after { KeepsEnd R.Source source.old source.new }
    ensures place { IfErr result (λ f. f.at ≡ Place.Marker) }
    ensures why { IfErr result (λ f. f.why ≡ Why.Read) }
    ensures rises { IfErr result (λ f. R.known source.old ≡ true → R.raised source.old < R.raised source.new) }
    ensures risen { IfErr result (λ f. Rises (R.raised source.old) (R.raised source.new)) }
    ensures names { R.names source.new ≡ R.names source.old }
{
    let mut first = [0];
    match source.pull(&mut first) {
        Ok(0) => Ok(None),
        Ok(_) => Ok(Some(first[0])),
        Err(_) => Err(Fault {
            at: Place::Marker,
            why: Why::Read,
        }),
    }
}

/// Decodes an Ogg stream or a native one.
fn decode_as<R: Source, S: Sink>(
    alloc: Global,
    is_ogg: bool,
    source: &mut R,
    profile: Profile,
    sink: &mut S,
) -> Result<(), Fault>
    ensures hands { HandsAs R.Source S.Sink profile is_ogg source.old source.new sink.old sink.new result }
    ensures decides { DecidesAs R.Source S.Sink profile is_ogg source.old source.new sink.old sink.new result }
    // Ok only if the source returned no error in the call, whatever is known of its bytes: none that was not announced
    // (`errors`), and none that was announced (`raised` counts both).
    ensures counted { OnOk result (R.errors source.new ≡ R.errors source.old) }
    ensures raised { OnOk result (R.raised source.new ≡ R.raised source.old) }
    ensures kept { R.errors source.old ≤ R.errors source.new }
    ensures read { IfErr result (λ f. HasAnyError R.Source source.old source.new f.why) }
    // An error of the source and of the sink is counted, if the count can rise, whatever is known of them: no other
    // call returns it.
    ensures risen { IfErr result (λ f. f.why ≡ Why.Read → Rises (R.raised source.old) (R.raised source.new)) }
    ensures sink { IfErr result (λ f. f.why ≡ Why.Sink → Rises (S.errors sink.old) (S.errors sink.new)) }
    ensures write { IfErr result (λ f. f.why ≢ Why.Write) }
    ensures names { S.names sink.new ≡ S.names sink.old }
    ensures source_names { R.names source.new ≡ R.names source.old }
{
    if is_ogg {
        decode_ogg(alloc, source, profile, sink)
    } else {
        decode(alloc, source, profile, sink)
    }
}

/// Decodes a stream in either container, and passes its metadata blocks and frames to the sink: an Ogg stream if the
/// first byte is `O`, that of a page (RFC 9639, section 10.1), a native one otherwise (section 6).
///
/// ```
/// decode_any(rt.alloc(), &mut source, Profile::Subset, &mut sink)?;
/// ```
///
/// # Errors
/// [`Why::Read`] at the marker if the source returns an error for the first byte. Else those of [`decode_ogg`] or of
/// [`decode`].
pub fn decode_any<R: Source, S: Sink>(
    alloc: Global,
    source: &mut R,
    profile: Profile,
    sink: &mut S,
) -> Result<(), Fault>
    // Ok only if the bytes are such a stream, and the sink took exactly its items; refused only as the bytes are, after
    // exactly the items before; and in each case the sink took whole items, from the start.
    ensures hands { HandsAny R.Source S.Sink profile source.old source.new sink.old sink.new result }
    // Such a stream is not refused, unless memory runs out, and the place and the reason are those that the bytes show.
    ensures decides { DecidesAny R.Source S.Sink profile source.old source.new sink.old sink.new result }
    // Ok only if the source returned no error in the call, whatever is known of its bytes: none that was not announced
    // (`errors`), and none that was announced (`raised` counts both).
    ensures counted { OnOk result (R.errors source.new ≡ R.errors source.old) }
    ensures raised { OnOk result (R.raised source.new ≡ R.raised source.old) }
    ensures kept { R.errors source.old ≤ R.errors source.new }
    // Read is returned only if the source returned an error in the call, unless one was announced.
    ensures read { IfErr result (λ f. HasAnyError R.Source source.old source.new f.why) }
    // An error of the source and of the sink is counted, if the count can rise, whatever is known of them: no other
    // call returns it.
    ensures risen { IfErr result (λ f. f.why ≡ Why.Read → Rises (R.raised source.old) (R.raised source.new)) }
    ensures sink { IfErr result (λ f. f.why ≡ Why.Sink → Rises (S.errors sink.old) (S.errors sink.new)) }
    ensures write { IfErr result (λ f. f.why ≢ Why.Write) }
    ensures names { S.names sink.new ≡ S.names sink.old }
    ensures source_names { R.names source.new ≡ R.names source.old }
{
    let front = pull_front(source)?;
    let mut fronted = Fronted { front, source };
    let outcome = decode_as(alloc, begins_page(front), &mut fronted, profile, sink);
    let _source = fronted.into_source(); // for its clauses alone
    outcome
}
