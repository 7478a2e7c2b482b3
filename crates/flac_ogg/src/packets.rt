//! The packets of an Ogg stream as a container.

ghost use Rattle.std.specs.Prelude.{◌≡◌, ◌≢◌, ◌≤◌, ◌+◌, OnOk, IfErr, ◌<◌, IfOk, Some, true, false, length, None, ℕ, cond, IfSome, ◌&&◌, not, nat_eq, is_some};
ghost use Rattle.flac_bits.specs.Reading.{Counts};
ghost use Rattle.flac_ogg.specs.Mapping.{page_place, item_place, packet_place};
ghost use Rattle.flac_native.specs.Stream.{Stand, place_in, Progress, framed};
ghost use Rattle.flac_native.specs.Track.{stand_of, IsAt, IsMadeAs, AreAtFrames, IsInOrder, piece_of, shown};
ghost use Rattle.flac_bits.specs.Fencing.{lifted};
ghost use Rattle.flac_native.specs.declared.track.Phase.TheVariants.{Frames};
ghost use Rattle.flac_ogg.specs.Telling.{IsUnderWay};
ghost use Rattle.flac_ogg.specs.inner.Telling.{EndIs, FrameInOrder, GivesFramePart, GivesPacket, TrackGoesOn, IsAfterPacket, IsBrokenBy, IsLastFault, MeetsIn, ReadsFrame, StaysGood, StepsOn, TellsPart, most_left};
ghost use Rattle.flac_pages.specs.Items.{Meets, TellsPages, HasItsPage};
ghost use Rattle.flac_bits.specs.Handing.{IsOutside};
ghost use Rattle.flac_bits.specs.Reasons.{of_output};
ghost use Rattle.flac_pages.specs.Packets.{Met, ahead, on_page};
ghost use Rattle.flac_ogg.specs.Steps.{without_packet};
ghost use Rattle.flac_ogg.specs.Decoding.{IsBrokenAt, PassesNext, BreaksInNext};
ghost use Rattle.flac_bits.specs.State.{the_end};
ghost use Rattle.flac_ogg.specs.Coming.{ItemsCome, IsClear};

use crate::mapping::{is_first_block, read_block, read_first_block};
use flac_bits::{BitReader, Source, Why};
use flac_native::{Container, Fault, Part, Place, Track};
use flac_pages::{PacketBytes, PacketFault, Pages, end_item, packet_bits};

/// The place at which an error of the page of this number is told, counted from 0: that of the mapping at the marker,
/// that of a missing last page at the end, each other one at the page (RFC 3533, section 6).
pub fn page_place(page: u64, why: Why) -> Place
    ensures { result ≡ page_place page why }
{
    match why {
        Why::BadMapping => Place::Marker,
        Why::NoEndPage => Place::End,
        _ => Place::Page(page),
    }
}

/// The place of an item's error, if the item has this place.
fn item_place(at: Place, why: Why) -> Place
    ensures { (s : Stand) → at ≡ place_in s.phase s.index → result ≡ item_place s why }
{
    match why {
        Why::BadMapping => Place::Marker,
        _ => at,
    }
}

/// The fault of a page that was refused.
fn refused_page(page: u64, why: Why) -> Fault
    ensures at { result.at ≡ page_place page why }
    ensures why { result.why ≡ why }
{
    Fault {
        at: page_place(page, why),
        why,
    }
}

/// The fault of a packet that is not the item of this place: that of a page, if a page's error breaks the packet off.
pub(crate) fn packet_fault(at: Place, told: PacketFault) -> Fault
    ensures place { (s : Stand) → at ≡ place_in s.phase s.index → result.at ≡ packet_place s told }
    ensures why { result.why ≡ told.1 }
{
    match told {
        (Some(page), why) => refused_page(page, why),
        (None, why) => Fault {
            at: item_place(at, why),
            why,
        },
    }
}

/// What [`Track::next_frame`] does, proved by the reading of the layout.
fn frame_by_layout<R: Source>(bits: &mut BitReader<R>, track: &mut Track) -> Result<(), Why>
    ensures reading { ReadsFrame track.new (stand_of track.old) bits.old bits.new result }
    // proof only
    ensures next { OnOk result (TrackGoesOn track.old track.new (framed (shown track.new))) }
    ensures phase { OnOk result ((stand_of track.new).phase ≡ (stand_of track.old).phase) }
    ensures made { OnOk result (is_some (stand_of track.new).info ≡ true) }
    ensures last { track.new.last ≡ track.old.last }
    ensures kept { track.new.block ≡ track.old.block }
{
    track.next_frame(bits)
}

/// Reads a frame.
fn read_frame<R: Source>(bits: &mut BitReader<R>, track: &mut Track) -> Result<Part, Why>
    ensures spends { OnOk result (bits.new.most < bits.old.most) }
    ensures memory { IfErr result (λ e. e ≢ Why.Memory) }
    ensures counts { Counts (lifted bits.old) bits.new result }
    ensures reads { GivesFramePart track.new (stand_of track.old) bits.old bits.new result }
    // proof only
    ensures made { IfOk result (λ part. IsMadeAs part track.old track.new) }
    ensures ordered { IfOk result (λ part. FrameInOrder part track.old track.new) }
    ensures next { IfOk result (λ part. TrackGoesOn track.old track.new (piece_of track.new part)) }
{
    frame_by_layout(bits, track)?;
    Ok(Part::Frame)
}

/// Reads the next block or frame.
pub(crate) fn read_part<R: Source>(bits: &mut BitReader<R>, track: &mut Track) -> Result<Part, Why>
    ensures spends { OnOk result (bits.new.most < bits.old.most) }
    ensures names { bits.new.names ≡ bits.old.names }
    ensures counts { Counts (lifted bits.old) bits.new result }
    ensures memory { (stand_of track.old).phase ≡ Frames → IfErr result (λ e. e ≢ Why.Memory) }
    ensures reads { GivesPacket track.new (stand_of track.old) bits.old bits.new result }
    // proof only
    ensures made { IfOk result (λ part. IsMadeAs part track.old track.new) }
    ensures ordered { IfOk result (λ part. IsInOrder (Some part) track.old track.new) }
    ensures next { IfOk result (λ part. TrackGoesOn track.old track.new (piece_of track.new part)) }
{
    if track.is_past_metadata() {
        return read_frame(bits, track);
    }
    bits.lift();
    bits.start_checks();
    if is_first_block(track) {
        return read_first_block(bits, track);
    }
    read_block(bits, track)
}

/// Reads the packet that was begun: it must be exactly the next block or frame.
///
/// # Errors
/// The item's own error. `PacketLength` if the packet ends inside the item, goes on after it, or is still open at the
/// end of the last page. If a refused page breaks the packet off, the number of pages before that page, and its error.
pub(crate) fn read_packet<R: Source>(
    pages: &mut Pages<R>,
    track: &mut Track,
) -> Result<Part, PacketFault>
    ensures memory { (stand_of track.old).phase ≡ Frames → IfErr result (λ e. e.1 ≢ Why.Memory) }
    ensures kept { pages.old.errors ≤ pages.new.errors }
    ensures names { pages.new.names ≡ pages.old.names }
    ensures spends { OnOk result (most_left pages.new < most_left pages.old) }
    ensures tells { TellsPart track.new (stand_of track.old) pages.old pages.new result }
    // Read is returned only if the device returned an error in the call.
    ensures meets { Meets pages.old.raised pages.new.raised result }
    ensures page { IfErr result (λ e. HasItsPage pages.new.count e) }
    ensures pages { TellsPages (on_page pages.old) pages.new result }
    ensures stands { OnOk result ((pages.new.rest ≡ 0) × (pages.new.more ≡ false)) }
    ensures goes { OnOk result (StaysGood pages.old pages.new) }
    ensures ahead { OnOk result (IsAfterPacket (stand_of track.old) pages.old pages.new) }
    // proof only
    ensures made { IfOk result (λ part. IsMadeAs part track.old track.new) }
    ensures ordered { IfOk result (λ part. IsInOrder (Some part) track.old track.new) }
    ensures next { IfOk result (λ part. TrackGoesOn track.old track.new (piece_of track.new part)) }
{
    let mut bits = packet_bits(PacketBytes::over(pages));
    let read = read_part(&mut bits, track);
    let (told, _pages) = end_item(bits, read);
    told
}

/// The error if no packet is left and a metadata block is missing.
fn block_due(track: &Track) -> Fault
    ensures at { result.at ≡ place_in (stand_of track.now).phase (stand_of track.now).index }
    ensures why { result.why ≡ Why.PacketLength }
{
    Fault {
        at: track.place(),
        why: Why::PacketLength,
    }
}

/// Judges the end of the stream, after its last packet.
///
/// # Errors
/// `PacketLength` if a metadata block is missing, else those of [`Track::end`].
fn judge_end(track: &mut Track) -> Result<(), Fault>
    ensures memory { IfErr result (λ f. f.why ≢ Why.Memory) }
    ensures quiet { IfErr result (λ f. f.why ≢ Why.Read) }
    ensures output { IfErr result (λ f. of_output f.why ≡ false) }
    ensures ordered { OnOk result (AreAtFrames track.old track.new) }
    ensures ends { (p : Progress) → IsAt track.old p → IsUnderWay p.stand → EndIs (without_packet p None) result }
{
    if !track.is_past_metadata() {
        return Err(block_due(track));
    }
    match track.end() {
        Ok(()) => Ok(()),
        Err(why) => Err(Fault {
            at: Place::End,
            why,
        }),
    }
}

/// The error if a byte follows the page marked last: a missing metadata block comes first.
fn after_last(track: &Track, page: u64, why: Why) -> Fault
    ensures memory { why ≢ Why.Memory → result.why ≢ Why.Memory }
    ensures met { (old new : ℕ) → Met why old new → Met result.why old new }
    ensures page { IsOutside result.why → result.at ≡ Place.Page page }
    ensures fault { IsLastFault track.now None (Some (page, why)) result }
{
    if !track.is_past_metadata() {
        return block_due(track);
    }
    refused_page(page, why)
}

/// The error if no packet is left: that of the page that was refused, or of a byte after the page marked last.
fn page_fault(track: &Track, is_last: bool, page: u64, why: Why) -> Fault
    ensures memory { why ≢ Why.Memory → result.why ≢ Why.Memory }
    ensures met { (old new : ℕ) → Met why old new → Met result.why old new }
    ensures page { IsOutside result.why → result.at ≡ Place.Page page }
    ensures fault { IsLastFault track.now (cond is_last None (Some (page, why))) (Some (page, why)) result }
{
    if is_last {
        return after_last(track, page, why);
    }
    refused_page(page, why)
}

/// Reads the next packet's block or frame; `None` at the end of the stream. After an error neither the pages nor the
/// track may be used to read on.
///
/// # Errors
/// The error of a page, of the packet, or of the stream's end, with its place.
pub(crate) fn advance<R: Source>(
    pages: &mut Pages<R>,
    track: &mut Track,
) -> Result<Option<Part>, Fault>
    requires between { (pages.old.rest ≡ 0) × (pages.old.more ≡ false) }
    ensures memory { (stand_of track.old).phase ≡ Frames → IfErr result (λ f. f.why ≢ Why.Memory) }
    ensures kept { pages.old.errors ≤ pages.new.errors }
    ensures names { pages.new.names ≡ pages.old.names }
    // Read is returned only if the device returned an error in the call.
    ensures meets { MeetsIn pages.old.raised pages.new.raised result }
    ensures steps { StepsOn track.old track.new pages.old pages.new result }
    ensures broken { (p : Progress) → IsAt track.old p → IfErr result (λ f. IsBrokenBy pages.new p f) }
    ensures gave { IfOk result (λ o. IfSome o (λ _. PassesNext pages.old pages.new)) }
    ensures broke { IfErr result (λ f. BreaksInNext pages.old pages.new f.why) }
    ensures stands { IfOk result (λ o. IfSome o (λ _. (pages.new.rest ≡ 0) × (pages.new.more ≡ false))) }
    ensures spends { IfOk result (λ o. IfSome o (λ _. most_left pages.new < most_left pages.old)) }
    ensures goes { IfOk result (λ _. StaysGood pages.old pages.new) }
    // proof only
    ensures made { IfOk result (λ o. IfSome o (λ part. IsMadeAs part track.old track.new)) }
    ensures ordered { IfOk result (λ o. IsInOrder o track.old track.new) }
    ensures next { IfOk result (λ o. IfSome o (λ part. TrackGoesOn track.old track.new (piece_of track.new part))) }
{
    match pages.next_packet() {
        Ok(true) => {
            let at = track.place();
            match read_packet(pages, track) {
                Ok(part) => Ok(Some(part)),
                Err(told) => Err(packet_fault(at, told)),
            }
        }
        Ok(false) => match judge_end(track) {
            Ok(()) => Ok(None),
            Err(fault) => Err(fault),
        },
        Err((page, why)) => Err(page_fault(track, pages.is_last(), page, why)),
    }
}

/// The packets of an Ogg stream, each a metadata block or a frame (RFC 9639, section 10.1): the container of the
/// decoder that [`crate::ogg_decoder`] makes.
#[derive(Drop)]
pub struct OggPackets<R: Source> {
    pages: Pages<R>,
}

impl<R: Source> OggPackets<R> {
    /// The packets of these pages, from the next one on.
    pub(crate) fn over(pages: Pages<R>) -> OggPackets<R>
        ensures { result.pages ≡ pages }
    {
        OggPackets { pages }
    }

    /// The pages.
    pub(crate) fn into_pages(self) -> Pages<R>
        ensures { result ≡ self.pages }
    {
        let OggPackets { pages } = self;
        pages
    }

    /// Returns the source. Bytes that were pulled from it and not decoded yet are lost.
    ///
    /// ```
    /// let source = decoder.into_container().into_source();
    /// ```
    pub fn into_source(self) -> R
        ensures known { self.pages.known ≡ true → R.known result ≡ true }
        ensures errors { R.errors result ≡ self.pages.errors }
        ensures raised { R.raised result ≡ self.pages.raised }
        ensures names { R.names result ≡ self.pages.names }
    {
        self.into_pages().into_source()
    }
}

impl<R: Source> Container for OggPackets<R> {
    ghost known = { λ c. c.pages.known };

    ghost errors = { λ c. c.pages.errors };

    ghost raised = { λ c. c.pages.errors };

    ghost met = { λ c. c.pages.raised };

    ghost after = { λ _. the_end };

    ghost clear = { λ c t. IsClear c.pages t };

    ghost most = { λ c. c.pages.most + length c.pages.body };

    ghost names = { λ c. c.pages.names };

    ghost stands = { λ c _. nat_eq c.pages.rest 0 && not c.pages.more };

    ghost gives = { λ c p items end. ItemsCome p (ahead c.pages) items end };

    ghost breaks = { λ c p at why. IsBrokenAt c.pages.count p at why };

    ghost gave = { λ c d. PassesNext c.pages d.pages };

    ghost broke = { λ c d why. BreaksInNext c.pages d.pages why };

    fn next(&mut self, track: &mut Track) -> Result<Option<Part>, Fault> {
        advance(&mut self.pages, track)
    }
}
