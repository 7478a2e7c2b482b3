//! Encodes samples as an Ogg stream.

ghost use Rattle.std.specs.Prelude.{◌≡◌, ◌≢◌, ◌≤◌, ◌<◌, ◌↔◌, length, true, false, IfOk, IfErr, OnOk, Err, ◌+◌, ◌*◌, ◌/◌};
ghost use Rattle.flac_bits.specs.Bits.{bits_of};
ghost use Rattle.flac_native.specs.Given.{fits_plan, room_of};
ghost use Rattle.flac_native.specs.Numbers.{is_of_whole};
ghost use Rattle.flac_native.specs.Writing.{AreChoices, HasRoom};
ghost use Rattle.flac_native.specs.inner.Writing.{WritesAll};
ghost use Rattle.flac_ogg.specs.Headers.{AreHeadersOf};
ghost use Rattle.flac_ogg.specs.Writing.{begins_with_comment, may_be_ogg, HasSentOgg, BeganOgg, HasWriteError, CountsWriteError};
ghost use Rattle.flac_ogg.specs.inner.Writing.{CountsFrames, info_with, SendsFrames, SendsWhole};
ghost use Rattle.flac_frame.specs.Audio.{samples_each};
ghost use Rattle.flac_pages.specs.Placed.{sequence_after};
ghost use Rattle.flac_pages.specs.Written.{packet_spelling};

use crate::headers::{Headers, header_packets};
use flac_bits::{BitWriter, Target, Why, bytes_fit, send_all};
use flac_frame::{Audio, EncodeBuffers};
use flac_meta::{Block, BlockList};
use flac_native::{ChosenFrames, EncodeFault, FixedBuffer, Plan};
use flac_pages::{MOST_BODY, MOST_PAGE, PacketKind, PacketMarks, write_packet};
use std::alloc::Global;

/// Whether the first block is a Vorbis comment.
pub fn begins_with_comment(blocks: &[Block]) -> bool
    ensures { result ≡ begins_with_comment blocks.now }
{
    match blocks.first() {
        Some(Block::VorbisComment(_)) => true,
        _ => false,
    }
}

/// Whether these blocks can be in an Ogg stream, and the plan asks for no seek table.
fn may_be_ogg(plan: &Plan, list: &BlockList) -> bool
    ensures { result ≡ may_be_ogg plan.now list.now }
{
    plan.seek_every() == 0 && begins_with_comment(list.blocks())
}

/// Encodes samples as an Ogg stream with this serial number: the mapping with STREAMINFO, the blocks of the list, and a
/// frame for each block of the plan, each in a packet of its own that begins a page (RFC 9639, section 10.1; RFC 3533).
/// The frames are those of [`flac_native::encode`], and the stream is one of the plan's profile.
///
/// Pages of header packets have granule position 0. A page on which a frame ends has the number of samples so far; the
/// pages before it have all ones.
///
/// The plan must fit the samples ([`Plan::fits`]). It goes over the samples twice, as [`flac_native::encode`] does.
/// Beside the samples and the choices of the frames it holds the pages of the header packets, and one frame with its
/// pages.
///
/// ```
/// encode_ogg(rt.alloc(), 1, &plan, &list, &audio, &mut target)?;
/// ```
///
/// # Errors
/// - [`EncodeFault::BadMapping`] if the list does not begin with a Vorbis comment, or the plan asks for a seek table.
///   Nothing was sent.
/// - [`EncodeFault::Memory`] if an allocation fails. Nothing was sent.
/// - [`EncodeFault::Write`] if the target returns an error. It was sent a prefix of the stream, after what it had.
pub fn encode_ogg<W: Target>(
    alloc: Global,
    serial: u32,
    plan: &Plan,
    list: &BlockList,
    audio: &Audio,
    target: &mut W,
) -> Result<(), EncodeFault>
    requires { fits_plan plan.now audio.now ≡ true }
    ensures written { OnOk result (HasSentOgg W.Target serial plan.now list.now audio.now target.old target.new) }
    // Ok only if the target returned no error.
    ensures known { OnOk result (W.known target.old ≡ true → W.known target.new ≡ true) }
    ensures counted { OnOk result (W.errors target.new ≡ W.errors target.old) }
    ensures begun { IfErr result (λ e. BeganOgg W.Target serial plan.now list.now audio.now target.old target.new e) }
    ensures failed { IfErr result (λ e. HasWriteError W.Target target.old target.new e) }
    // An error of the target is counted, if the count can rise, whatever is known of it.
    ensures risen { IfErr result (λ e. CountsWriteError W.Target target.old target.new e) }
    ensures mapping { (result ≡ Err EncodeFault.BadMapping) ↔ (may_be_ogg plan.now list.now ≡ false) }
    ensures repeated { result ≢ Err EncodeFault.RepeatedBlock }
    ensures whole { IfErr result (λ e. is_of_whole e ≡ true) }
    ensures kept { IfErr result (λ e. e ≢ EncodeFault.Write → target.new ≡ target.old) }
    ensures names { W.names target.new ≡ W.names target.old }
{
    if !may_be_ogg(plan, list) {
        return Err(EncodeFault::BadMapping);
    }
    let _blocks = list.blocks(); // for the proof alone: what holds of every list
    let size = plan.block_size();
    let profile = plan.profile();
    let Ok(mut buffers) = EncodeBuffers::new_in(alloc, profile, size) else {
        return Err(EncodeFault::Memory);
    };
    let Ok(prepared) = prepare(alloc, serial, plan, list, audio, &mut buffers) else {
        return Err(EncodeFault::Memory);
    };
    match send_prepared(prepared, plan, audio, &mut buffers, target) {
        Ok(()) => Ok(()),
        Err(_) => Err(EncodeFault::Write),
    }
}

/// What is made before anything is sent: the frames that were chosen, the header packets, and places for a frame and
/// for its pages.
#[derive(Drop)]
struct Prepared {
    frames: ChosenFrames,
    headers: Headers,
    room: FixedBuffer,
    pages: FixedBuffer,
}

/// Chooses the frames, and makes what is needed to send them. Its only error is `Memory`: an allocation failed.
fn prepare(
    alloc: Global,
    serial: u32,
    plan: &Plan,
    list: &BlockList,
    audio: &Audio,
    buffers: &mut EncodeBuffers,
) -> Result<Prepared, Why>
    requires fits { fits_plan plan.now audio.now ≡ true }
    requires room { buffers.old ≡ room_of plan.now }
    ensures counted { IfOk result (λ p. CountsFrames plan.now audio.now p.frames) }
    ensures choices { IfOk result (λ p. AreChoices plan.now audio.now p.frames.choices.items) }
    ensures headers { IfOk result (λ p. AreHeadersOf (info_with plan.now audio.now p.frames) list.now p.headers) }
    ensures serial { IfOk result (λ p. p.headers.serial ≡ serial) }
    ensures room { IfOk result (λ p. HasRoom plan.now audio.now p.room.places) }
    ensures pages { IfOk result (λ p. 65307 * (p.frames.greatest / 65025 + 1) ≤ p.pages.places) }
    ensures buffers { buffers.new ≡ buffers.old }
    ensures memory { IfErr result (λ e. e ≡ Why.Memory) }
{
    let frames = ChosenFrames::new(alloc, plan, audio, buffers)?;
    let headers = header_packets(alloc, serial, frames.info(plan, audio), list)?;
    let room = frames.room(alloc)?;
    let pages = page_room(alloc, frames.greatest())?;
    Ok(Prepared {
        frames,
        headers,
        room,
        pages,
    })
}

/// Sends what is prepared. After an error a prefix of it was sent.
fn send_prepared<W: Target>(
    prepared: Prepared,
    plan: &Plan,
    audio: &Audio,
    buffers: &mut EncodeBuffers,
    target: &mut W,
) -> Result<(), Why>
    requires fits { fits_plan plan.now audio.now ≡ true }
    requires counted { CountsFrames plan.now audio.now prepared.frames }
    requires choices { AreChoices plan.now audio.now prepared.frames.choices.items }
    requires buffers { buffers.old ≡ room_of plan.now }
    requires room { HasRoom plan.now audio.now prepared.room.places }
    requires pages { 65307 * (prepared.frames.greatest / 65025 + 1) ≤ prepared.pages.places }
    ensures { SendsWhole W.Target prepared.headers plan.now audio.now target.old target.new result }
{
    let Prepared {
        frames,
        headers,
        room,
        pages,
    } = prepared;
    let planned = Planned {
        plan,
        audio,
        frames: &frames,
    };
    send_stream(&headers, &planned, buffers, room, pages, target)
}

/// A place for the pages of a packet of `packet` bytes, of which each but the last is as long as a page can be (RFC
/// 3533, sections 5 and 6). Its only error is `Memory`: an allocation failed.
pub(crate) fn page_room(alloc: Global, packet: u32) -> Result<FixedBuffer, Why>
    requires { packet ≤ 16777215 }
    ensures places { IfOk result (λ room. 65307 * (packet / 65025 + 1) ≤ room.places) }
    ensures memory { IfErr result (λ e. e ≡ Why.Memory) }
{
    FixedBuffer::new(alloc, MOST_PAGE * (packet as usize / MOST_BODY + 1))
}

/// Writes the pages of a packet, and sends what the writer holds. Returns the number of the page after them.
fn write_pages<W: Target>(
    marks: PacketMarks,
    packet: &[u8],
    writer: &mut BitWriter<W>,
) -> Result<u32, Why>
    requires { writer.old.mark.unread ≡ 0 }
    ensures wrote { WritesAll (packet_spelling marks packet.now) writer.old writer.new result }
    ensures next { IfOk result (λ n. n ≡ sequence_after marks.sequence packet.now) }
{
    let next = write_packet(marks, packet, writer)?;
    writer.finish()?;
    Ok(next)
}

/// The pages of a packet, in a place that has room for them, and the number of the page after them.
fn paged(marks: PacketMarks, packet: &[u8], place: FixedBuffer) -> (FixedBuffer, u32)
    requires { 65307 * (length packet.now / 65025 + 1) ≤ place.places }
    ensures places { result.0.places ≡ place.places }
    ensures pages { bits_of result.0.bytes.items ≡ packet_spelling marks packet.now }
    ensures next { result.1 ≡ sequence_after marks.sequence packet.now }
{
    let mut writer = BitWriter::new(place.emptied());
    let outcome = write_pages(marks, packet, &mut writer);
    let place = writer.into_target();
    match outcome {
        Ok(next) => (place, next),
        Err(_) => unreachable!(),
    }
}

/// Samples, their plan, and the frames that were chosen for them.
#[derive(Clone, Copy)]
struct Planned<'a> {
    plan: &'a Plan,
    audio: &'a Audio,
    frames: &'a ChosenFrames,
}

/// Sends all frames, each in a packet, from the page after the header packets on. After an error a prefix of them was
/// sent.
fn send_frames<W: Target>(
    headers: &Headers,
    planned: &Planned<'_>,
    buffers: &mut EncodeBuffers,
    room: FixedBuffer,
    pages: FixedBuffer,
    target: &mut W,
) -> Result<(), Why>
    requires fits { fits_plan planned.now.plan.now planned.now.audio.now ≡ true }
    requires some { 0 < samples_each planned.now.audio.now.channels }
    requires counted { CountsFrames planned.now.plan.now planned.now.audio.now planned.now.frames.now }
    requires choices { AreChoices planned.now.plan.now planned.now.audio.now planned.now.frames.now.choices.items }
    requires buffers { buffers.old ≡ room_of planned.now.plan.now }
    requires room { HasRoom planned.now.plan.now planned.now.audio.now room.places }
    requires pages { 65307 * (planned.now.frames.now.greatest / 65025 + 1) ≤ pages.places }
    ensures { SendsFrames W.Target headers.now planned.now.plan.now planned.now.audio.now target.old target.new result }
{
    let Planned {
        plan,
        audio,
        frames,
    } = *planned;
    let _size = plan.block_size(); // for the proof alone: what holds of every plan
    let total = audio.len();
    let mut room = room;
    let mut pages = pages;
    let mut sequence = headers.held.next;
    let mut number = 0;
    let mut start = 0;
    while start < total {
        let end = plan.range(audio, number).end;
        room = frames.write(plan, audio, number, buffers, room);
        let marks = PacketMarks {
            serial: headers.serial,
            sequence,
            kind: PacketKind::Frame { end: end as u64 },
            first: false,
            last: end == total,
        };
        let packet = room.bytes();
        bytes_fit(packet);
        let (filled, next) = paged(marks, packet, pages);
        pages = filled;
        send_all(target, pages.bytes())?;
        sequence = next;
        number += 1;
        start = end;
    }
    Ok(())
}

/// Sends the header packets, and then the frames. After an error a prefix of them was sent.
fn send_stream<W: Target>(
    headers: &Headers,
    planned: &Planned<'_>,
    buffers: &mut EncodeBuffers,
    room: FixedBuffer,
    pages: FixedBuffer,
    target: &mut W,
) -> Result<(), Why>
    requires fits { fits_plan planned.now.plan.now planned.now.audio.now ≡ true }
    requires counted { CountsFrames planned.now.plan.now planned.now.audio.now planned.now.frames.now }
    requires choices { AreChoices planned.now.plan.now planned.now.audio.now planned.now.frames.now.choices.items }
    requires buffers { buffers.old ≡ room_of planned.now.plan.now }
    requires room { HasRoom planned.now.plan.now planned.now.audio.now room.places }
    requires pages { 65307 * (planned.now.frames.now.greatest / 65025 + 1) ≤ pages.places }
    ensures { SendsWhole W.Target headers.now planned.now.plan.now planned.now.audio.now target.old target.new result }
{
    let Planned { plan, audio, .. } = *planned;
    let _size = plan.block_size(); // for the proof alone: what holds of every plan
    send_all(target, headers.sent.as_slice())?;
    if audio.is_empty() {
        return send_all(target, headers.held.last.as_slice());
    }
    send_all(target, headers.held.middle.as_slice())?;
    send_frames(headers, planned, buffers, room, pages, target)
}
