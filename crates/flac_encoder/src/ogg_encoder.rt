//! Encodes an Ogg stream a block at a time.

ghost use Rattle.std.specs.Prelude.{◌≡◌, ◌≢◌, ◌⊎◌, ◌↔◌, ◌++◌, true, false, IfOk, OnOk, IfErr, None, Some, Ok, Err};
ghost use Rattle.flac_bits.specs.Bits.{bits_of};
ghost use Rattle.flac_bits.specs.Forms.{AreBytes};
ghost use Rattle.flac_encoder.specs.Pushing.{shape_of, shape_fault, setup_fault, subset_shape, open_info, IsUnpushed, trying_fault, block_channels, push_fault, IsAfterBlock, IsFirst, IsNativeHead, IsSpent, FailsIn, StaysKnown};
ghost use Rattle.flac_native.specs.declared.fault.EncodeFault.TheVariants.{Spent};
ghost use Rattle.flac_pages.specs.Placed.{sequence_after};
ghost use Rattle.flac_ogg.specs.Headers.{AreHeadersOf};
ghost use Rattle.flac_ogg.specs.Writing.{HasWriteError, CountsWriteError};
ghost use Rattle.flac_encoder.specs.PushingOgg.{open_fault, listed_fault, trying_ogg, searching_ogg, frame_pages, IsOpenFault, Opens, FailsOpen, KeepsOggStream, SentPacket, BegunPacket, SentEnd, FailsEnd};

use crate::block_encoder::BlockEncoder;
use crate::stream_encoder::StreamEncoder;
use crate::stream_format::{StreamFormat, block_len};
use flac_bits::{Collected, Target, Why, bytes_fit, send_all};
use flac_frame::SetupFault;
use flac_meta::BlockList;
use flac_native::{EncodeFault, LinearPredictor, Profile};
use flac_ogg::{Headers, HeldPacket, begins_with_comment, headers_of};
use flac_pages::{PacketKind, PacketMarks};
use flac_predict::Search;
use std::alloc::Global;
use std::marker::Model;

/// Encodes an Ogg stream a block at a time, as a recorder does whose samples are not all there yet (RFC 9639, section
/// 10.1). [`OggEncoder::new`] writes the header packets, of STREAMINFO and the metadata blocks, [`OggEncoder::push`]
/// makes a packet of one frame, and [`OggEncoder::finish`] ends the stream and returns the target.
/// [`OggEncoder::new_in`] does so for a profile.
///
/// The last packet is held back until the next one comes or the stream ends, since the last page of a stream is marked.
/// STREAMINFO states neither the number of samples nor the sizes of the frames nor the digest, since they are not known
/// when it is written (section 8.2).
///
/// ```
/// let mut encoder = OggEncoder::new(alloc, serial, 44100, 16, 2, 4096, &blocks, file)?;
/// encoder.push(&[left.as_slice(), right.as_slice()])?;
/// let file = encoder.finish()?;
/// ```
#[derive(Drop)]
pub struct OggEncoder<W: Target> {
    alloc: Global,
    serial: u32,
    blocks: BlockEncoder,
    held: HeldPacket,
    target: W,
}

impl<W: Target> Model for OggEncoder<W> {
    ghost use Rattle.flac_encoder.specs.Pushing.{with_target};
    ghost use Rattle.flac_encoder.specs.PushingOgg.{PushedOgg};

    ghost Value = { PushedOgg W };

    ghost view = { λ e. record {
      pushed = with_target e.blocks e.target;
      serial = e.serial;
      sequence = e.held.next;
      middle = e.held.middle.items;
      last = e.held.last.items;
    } };
}

/// The marker and the metadata blocks of a native stream of a format, in memory. Its error `Setup` says why nothing of
/// the format can be encoded.
fn native_head(
    alloc: Global,
    format: &StreamFormat,
    list: &BlockList,
) -> Result<Vec<u8>, EncodeFault>
    ensures head { IfOk result (λ head. IsNativeHead (shape_of format.now) list.now head.items) }
    ensures accepted { OnOk result (shape_fault (shape_of format.now) ≡ None) }
    ensures refused { IfErr result (λ e. IsFirst (setup_fault (shape_of format.now)) e) }
    ensures unsent { IfErr result (λ e. e ≢ EncodeFault.Write) }
{
    let target = Collected::new(alloc);
    match StreamEncoder::new_in(alloc, format, list, target) {
        Ok(encoder) => match encoder.finish() {
            Ok(target) => Ok(target.into_bytes()),
            Err(fault) => Err(fault.in_memory()),
        },
        Err(fault) => Err(fault.in_memory()),
    }
}

/// A fault of the format goes before a list that does not begin with a Vorbis comment, and other faults after it.
fn listed_fault(fault: EncodeFault, listed: bool) -> EncodeFault
    ensures value { result ≡ listed_fault fault listed }
    ensures unsent { fault ≢ EncodeFault.Write → result ≢ EncodeFault.Write }
{
    match fault {
        EncodeFault::Setup(fault) => EncodeFault::Setup(fault),
        other => {
            if listed {
                other
            } else {
                EncodeFault::BadMapping
            }
        }
    }
}

/// The same, if the list begins with a Vorbis comment.
fn open_head(alloc: Global, format: &StreamFormat, list: &BlockList) -> Result<Vec<u8>, EncodeFault>
    ensures head { IfOk result (λ head. IsNativeHead (shape_of format.now) list.now head.items) }
    ensures accepted { OnOk result (shape_fault (shape_of format.now) ≡ None) }
    ensures listed { OnOk result (open_fault (shape_of format.now) list.now ≡ None) }
    ensures refused { IfErr result (λ e. IsOpenFault (shape_of format.now) list.now e) }
    ensures unsent { IfErr result (λ e. e ≢ EncodeFault.Write) }
{
    let listed = begins_with_comment(list.blocks());
    match native_head(alloc, format, list) {
        Ok(head) => {
            if listed {
                Ok(head)
            } else {
                Err(EncodeFault::BadMapping)
            }
        }
        Err(fault) => Err(listed_fault(fault, listed)),
    }
}

/// The header packets of a stream of a format. Its errors are those of [`open_head`].
fn open_headers(
    alloc: Global,
    serial: u32,
    format: &StreamFormat,
    list: &BlockList,
) -> Result<Headers, EncodeFault>
    ensures made { IfOk result (λ h. AreHeadersOf (open_info (shape_of format.now)) list.now h) }
    ensures serial { IfOk result (λ h. h.serial ≡ serial) }
    ensures accepted { OnOk result (shape_fault (shape_of format.now) ≡ None) }
    ensures listed { OnOk result (open_fault (shape_of format.now) list.now ≡ None) }
    ensures refused { IfErr result (λ e. IsOpenFault (shape_of format.now) list.now e) }
    ensures unsent { IfErr result (λ e. e ≢ EncodeFault.Write) }
{
    let head = open_head(alloc, format, list)?;
    match headers_of(alloc, serial, head.as_slice(), list) {
        Ok(headers) => Ok(headers),
        Err(_) => Err(EncodeFault::Memory),
    }
}

/// Sends bytes to a target, and returns it. Its only error is `Write`: the target returned an error.
fn send_owned<W: Target + Drop>(target: W, bytes: &[u8]) -> Result<W, EncodeFault>
    ensures sent { IfOk result (λ t. W.known target ≡ true → W.sent t ≡ W.sent target ++ bytes.now) }
    ensures known { IfOk result (λ t. W.known target ≡ true → W.known t ≡ true) }
    ensures counted { IfOk result (λ t. W.errors t ≡ W.errors target) }
    ensures names { IfOk result (λ t. W.names t ≡ W.names target) }
    ensures write { IfErr result (λ e. e ≡ EncodeFault.Write) }
    ensures failed { IfErr result (λ _. (left : W) × FailsIn W.Target (bits_of bytes.now) target left) }
{
    let mut target = target;
    match send_all(&mut target, bytes) {
        Ok(()) => Ok(target),
        Err(_) => Err(EncodeFault::Write),
    }
}

/// Holds back a frame, up to whose end the stream has `end` samples of each channel.
fn hold_frame(
    alloc: Global,
    serial: u32,
    sequence: u32,
    end: u64,
    packet: &[u8],
) -> Result<HeldPacket, Why>
    ensures middle { IfOk result (λ h. bits_of h.middle.items ≡ frame_pages serial sequence end false packet.now) }
    ensures last { IfOk result (λ h. bits_of h.last.items ≡ frame_pages serial sequence end true packet.now) }
    ensures next { IfOk result (λ h. h.next ≡ sequence_after sequence packet.now) }
    ensures bytes { AreBytes packet.now }
    ensures memory { IfErr result (λ e. e ≡ Why.Memory) }
{
    bytes_fit(packet);
    let marks = PacketMarks {
        serial,
        sequence,
        kind: PacketKind::Frame { end },
        first: false,
        last: false,
    };
    HeldPacket::new(alloc, marks, packet)
}

impl<W: Target> OggEncoder<W> {
    /// The packet that is held, and the target.
    fn into_parts(self) -> (HeldPacket, W)
        ensures middle { result.0.middle.items ≡ self.middle }
        ensures last { result.0.last.items ≡ self.last }
        ensures next { result.0.next ≡ self.sequence }
        ensures target { result.1 ≡ self.pushed.target }
    {
        let OggEncoder { held, target, .. } = self;
        (held, target)
    }
}

impl<W: Target + Drop> OggEncoder<W> {
    /// Makes an encoder for the streamable subset, and writes the header packets, as [`OggEncoder::new_in`] does for
    /// [`Profile::Subset`]: with a sample rate in Hz, bits per sample, a number of channels, and a block size in
    /// samples of each channel ([`StreamFormat`] has their ranges).
    ///
    /// # Errors
    /// Those of [`OggEncoder::new_in`].
    pub fn new(
        alloc: Global,
        serial: u32,
        rate: u32,
        bits: u32,
        channels: u32,
        block_size: u32,
        list: &BlockList,
        target: W,
    ) -> Result<OggEncoder<W>, EncodeFault>
        ensures made { IfOk result (λ e. IsUnpushed (subset_shape rate bits channels block_size) e.pushed) }
        ensures serial { IfOk result (λ e. e.serial ≡ serial) }
        ensures opens { IfOk result (λ e. Opens W.Target list.now target e) }
        ensures known { IfOk result (λ e. W.known target ≡ true → W.known e.pushed.target ≡ true) }
        ensures counted { IfOk result (λ e. W.errors e.pushed.target ≡ W.errors target) }
        ensures names { IfOk result (λ e. W.names e.pushed.target ≡ W.names target) }
        ensures accepted { OnOk result (open_fault (subset_shape rate bits channels block_size) list.now ≡ None) }
        ensures refused { IfErr result (λ e. IsOpenFault (subset_shape rate bits channels block_size) list.now e) }
        // An error of the target is counted, and a prefix of the header packets was sent before it.
        ensures failed { FailsOpen W.Target (subset_shape rate bits channels block_size) serial list.now target result }
    {
        let format = StreamFormat {
            profile: Profile::Subset,
            rate,
            bits,
            channels,
            block_size,
        };
        OggEncoder::new_in(alloc, serial, &format, list, target)
    }

    /// Makes an encoder for this format, and writes the header packets: the mapping with STREAMINFO, and one for each
    /// block of the list (RFC 9639, section 10.1; RFC 3533). It holds the last of them back. Their pages have granule
    /// position 0. No linear predictors are tried yet: see [`OggEncoder::set_predictors`] and
    /// [`OggEncoder::set_search`].
    ///
    /// `serial` is the serial number of the stream. The first block of the list must be a Vorbis comment.
    ///
    /// ```
    /// let format = StreamFormat { profile: Profile::Lax, rate: 1000000, bits: 14, channels: 1, block_size: 32768 };
    /// let mut encoder = OggEncoder::new_in(alloc, serial, &format, &blocks, file)?;
    /// ```
    ///
    /// # Errors
    /// [`EncodeFault::Setup`] with the fault of the format ([`StreamFormat::fault`]), or [`EncodeFault::BadMapping`] if
    /// the list does not begin with a Vorbis comment, the first that applies. Else [`EncodeFault::Memory`] if an
    /// allocation fails, or [`EncodeFault::Write`] if the target returns an error. The target is not returned then.
    pub fn new_in(
        alloc: Global,
        serial: u32,
        format: &StreamFormat,
        list: &BlockList,
        target: W,
    ) -> Result<OggEncoder<W>, EncodeFault>
        ensures made { IfOk result (λ e. IsUnpushed (shape_of format.now) e.pushed) }
        ensures serial { IfOk result (λ e. e.serial ≡ serial) }
        ensures opens { IfOk result (λ e. Opens W.Target list.now target e) }
        ensures known { IfOk result (λ e. W.known target ≡ true → W.known e.pushed.target ≡ true) }
        ensures counted { IfOk result (λ e. W.errors e.pushed.target ≡ W.errors target) }
        ensures names { IfOk result (λ e. W.names e.pushed.target ≡ W.names target) }
        ensures accepted { OnOk result (open_fault (shape_of format.now) list.now ≡ None) }
        ensures refused { IfErr result (λ e. IsOpenFault (shape_of format.now) list.now e) }
        // An error of the target is counted, and a prefix of the header packets was sent before it.
        ensures failed { FailsOpen W.Target (shape_of format.now) serial list.now target result }
    {
        let headers = open_headers(alloc, serial, format, list)?;
        let _blocks = list.blocks(); // for the proof alone: what holds of every list
        let blocks = BlockEncoder::new(alloc, format)?;
        let target = send_owned(target, headers.sent.as_slice())?;
        Ok(OggEncoder {
            alloc,
            serial,
            blocks,
            held: headers.held,
            target,
        })
    }

    /// Sets the linear predictors that are tried for the frames pushed from now on, as
    /// [`StreamEncoder::set_predictors`] does. The packet that is held is not changed.
    ///
    /// ```
    /// let mut predictors = Vec::new(rt.alloc());
    /// if let Some(line) = LinearPredictor::new(3, 0, &[2, -1]) {
    ///     predictors.push(line)?;
    /// }
    /// encoder.set_predictors(predictors)?;
    /// ```
    ///
    /// # Errors
    /// Those of [`StreamEncoder::set_predictors`]. The encoder is as it was then.
    pub fn set_predictors(&mut self, predictors: Vec<LinearPredictor>) -> Result<(), SetupFault>
        ensures set { OnOk result (self.new ≡ trying_ogg self.old predictors.items) }
        ensures stands { OnOk result (KeepsOggStream self.old self.new) }
        ensures accepted { OnOk result (trying_fault self.old.pushed predictors.items ≡ None) }
        ensures refused { IfErr result (λ e. trying_fault self.old.pushed predictors.items ≡ Some e) }
        ensures kept { IfErr result (λ e. self.new ≡ self.old) }
    {
        self.blocks.set_predictors(predictors)
    }

    /// From now on linear predictors are sought for each block that is pushed, as [`StreamEncoder::set_search`] has it,
    /// or with `None` no longer. The packet that is held is not changed.
    ///
    /// ```
    /// encoder.set_search(Some(Search::Full))?;
    /// ```
    ///
    /// # Errors
    /// [`EncodeFault::Memory`] if an allocation fails. The encoder is as it was then.
    pub fn set_search(&mut self, search: Option<Search>) -> Result<(), EncodeFault>
        ensures set { OnOk result (self.new ≡ searching_ogg self.old search) }
        ensures stands { OnOk result (KeepsOggStream self.old self.new) }
        ensures memory { IfErr result (λ e. e ≡ EncodeFault.Memory) }
        ensures kept { IfErr result (λ e. self.new ≡ self.old) }
        ensures ended { search ≡ None → result ≡ Ok tt }
    {
        self.blocks.set_search(search)
    }

    /// Makes a block the next frame, as [`StreamEncoder::push`] does, but holds its packet back, and writes the packet
    /// that was held.
    ///
    /// Each packet begins a page. The page on which the frame ends has the number of samples so far as its granule
    /// position; the pages before it have all ones.
    ///
    /// # Errors
    /// Those of [`StreamEncoder::push`], but after [`EncodeFault::Write`] the target was sent a prefix of the packet
    /// that was held. After each other error the encoder is as it was, and nothing was sent.
    pub fn push(&mut self, block: &[&[i32]]) -> Result<(), EncodeFault>
        ensures next { OnOk result (IsAfterBlock self.old.pushed (block_channels block.now) self.new.pushed) }
        ensures serial { self.new.serial ≡ self.old.serial }
        ensures written { OnOk result (SentPacket W.Target (block_channels block.now) self.old self.new) }
        ensures known { OnOk result (StaysKnown W.Target self.old.pushed self.new.pushed) }
        ensures counted { OnOk result (W.errors self.new.pushed.target ≡ W.errors self.old.pushed.target) }
        ensures accepted { OnOk result (push_fault self.old.pushed (block_channels block.now) ≡ None) }
        ensures refused { IfErr result (λ e. IsFirst (push_fault self.old.pushed (block_channels block.now)) e) }
        ensures kept { IfErr result (λ e. e ≢ EncodeFault.Write → self.new ≡ self.old) }
        ensures begun { IfErr result (λ e. BegunPacket W.Target (block_channels block.now) self.old self.new e) }
        ensures spent { IfErr result (λ e. e ≡ EncodeFault.Write → IsSpent self.old.pushed self.new.pushed) }
        ensures failed { IfErr result (λ e. HasWriteError W.Target self.old.pushed.target self.new.pushed.target e) }
        // An error of the target is counted, if the count can rise, whatever is known of it.
        ensures risen { IfErr result (λ e. CountsWriteError W.Target self.old.pushed.target self.new.pushed.target e) }
        ensures names { W.names self.new.pushed.target ≡ W.names self.old.pushed.target }
    {
        let packet = self.blocks.encode(block)?;
        let end = self.blocks.samples() + block_len(block) as u64;
        let Ok(held) = hold_frame(
            self.alloc,
            self.serial,
            self.held.next,
            end,
            packet.as_slice(),
        ) else {
            return Err(EncodeFault::Memory);
        };
        match send_all(&mut self.target, self.held.middle.as_slice()) {
            Ok(()) => {
                self.blocks.sent(block);
                self.held = held;
                Ok(())
            }
            Err(_) => {
                self.blocks.failed();
                Err(EncodeFault::Write)
            }
        }
    }

    /// Ends the stream and returns the target: writes the packet that is held, with its last page marked as the
    /// stream's last.
    ///
    /// # Errors
    /// [`EncodeFault::Spent`] after a call that returned [`EncodeFault::Write`]. [`EncodeFault::Write`] if the target
    /// returns an error. The target is not returned then.
    pub fn finish(self) -> Result<W, EncodeFault>
        ensures written { IfOk result (λ target. SentEnd W.Target self target) }
        ensures known { IfOk result (λ target. W.known self.pushed.target ≡ true → W.known target ≡ true) }
        ensures counted { IfOk result (λ target. W.errors target ≡ W.errors self.pushed.target) }
        ensures names { IfOk result (λ target. W.names target ≡ W.names self.pushed.target) }
        ensures spent { (result ≡ Err EncodeFault.Spent) ↔ (self.pushed.spent ≡ true) }
        ensures only { IfErr result (λ e. (e ≡ EncodeFault.Spent) ⊎ (e ≡ EncodeFault.Write)) }
        // An error of the target is counted, and a prefix of the packet was sent before it.
        ensures failed { FailsEnd W.Target self result }
    {
        let spent = self.blocks.is_spent();
        let (held, target) = self.into_parts();
        if spent {
            return Err(EncodeFault::Spent);
        }
        send_owned(target, held.last.as_slice())
    }
}
