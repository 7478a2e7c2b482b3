//! Encodes an Ogg stream a block at a time, and writes its first page last.

ghost use Rattle.std.specs.Prelude.{◌≡◌, ◌≢◌, ◌<◌, ◌^◌, true, None, IfOk, IfErr, OnOk};
ghost use Rattle.flac_encoder.specs.Pushing.{shape_of, IsUnpushed, IsAfterBlock, trying_fault, block_channels, push_fault, IsFirst, IsSpent};
ghost use Rattle.flac_encoder.specs.PushingOgg.{open_fault, IsOpenFault, Opens, FailsOpen, SentPacket, BegunPacket};
ghost use Rattle.flac_ogg.specs.Writing.{HasWriteError, CountsWriteError};
ghost use Rattle.flac_draft.specs.Draft.{FailsLast};
ghost use Rattle.flac_draft.specs.Faults.{IsFirstFault};
ghost use Rattle.flac_draft.specs.OggDraft.{pushed_ogg, trying_draft, searching_draft, ogg_finish_fault, BeginsOggDraft, GoesOnOgg, StaysOggDraft, FinishesOgg};
ghost use Rattle.flac_draft.specs.Table.{no_table};

use crate::draft_fault::{DraftFault, Unfinished, unfinished_by};
use crate::draft_head::{info_with, least_after};
use crate::ogg_pages::{end_stream, first_page, held_frame, open_headers};
use crate::rewritable::Rewritable;
use flac_bits::{Target, bytes_fit, send_all};
use flac_encoder::{BlockEncoder, StreamFormat, block_len};
use flac_frame::SetupFault;
use flac_meta::BlockList;
use flac_native::{EncodeFault, feed_slices, sample_width};
use flac_ogg::HeldPacket;
use flac_predict::Search;
use flac_subframe::LinearPredictor;
use md5::{Digest, Md5};
use std::alloc::Global;
use std::marker::Model;

/// Encodes an Ogg stream a block at a time, as [`flac_encoder::OggEncoder`] does, and at the end writes the number of
/// samples, the sizes of the frames and the MD5 digest into STREAMINFO, which is on the first page (RFC 9639, sections
/// 8.2 and 10.1; RFC 3533). So the stream is one that [`flac_ogg::encode_ogg`] writes of all samples, of which only one
/// block is held at a time.
///
/// [`OggDraftEncoder::new_in`] writes the header packets, each [`OggDraftEncoder::push`] makes a packet of one frame, and
/// [`OggDraftEncoder::finish`] writes the last packet and the first page anew, and returns the target.
///
/// The last packet is held back until the next one comes or the stream ends, since the last page of a stream is marked.
///
/// ```
/// let mut encoder = OggDraftEncoder::new_in(alloc, serial, &format, list, DraftMemory::new(alloc))?;
/// encoder.push(&[left.as_slice(), right.as_slice()])?;
/// let bytes = encoder.finish()?.into_bytes();
/// ```
#[derive(Drop)]
pub struct OggDraftEncoder<W: Rewritable> {
    alloc: Global,
    format: StreamFormat,
    /// The blocks after STREAMINFO.
    list: BlockList,
    blocks: BlockEncoder,
    /// All samples so far.
    hasher: Md5,
    /// The size of the smallest frame in bytes, and that of the largest.
    least: u64,
    greatest: u64,
    /// How many bytes the target had been sent before.
    start: u64,
    /// The serial number of the stream.
    serial: u32,
    /// The packet that is held back.
    held: HeldPacket,
    target: W,
}

impl<W: Rewritable> Model for OggDraftEncoder<W> {
    ghost use Rattle.std.specs.Prelude.{◌≡◌, ◌<◌, ◌^◌, None};
    ghost use Rattle.flac_encoder.specs.Pushing.{with_target, shape_of, shape_fault};
    ghost use Rattle.flac_draft.specs.OggDraft.{OggDraft};
    ghost use Rattle.flac_draft.specs.Table.{no_table};

    ghost Value = { OggDraft W };

    ghost view = { λ e. record {
      draft = record {
        pushed = with_target e.blocks e.target;
        list = e.list;
        hasher = e.hasher;
        least = e.least;
        greatest = e.greatest;
        start = e.start;
        table = no_table;
      };
      serial = e.serial;
      sequence = e.held.next;
      middle = e.held.middle.items;
      last = e.held.last.items;
    } };

    ghost invariant = { λ e. record {
      format : shape_fault (shape_of e.format) ≡ None;
      same : e.blocks.shape ≡ shape_of e.format;
      least : e.least < 2 ^ 24;
      greatest : e.greatest < 2 ^ 24;
    } };
}

impl<W: Rewritable + Drop> OggDraftEncoder<W> {
    /// Makes an encoder for this format, and writes the header packets: the mapping with STREAMINFO, and one for each
    /// block of the list (RFC 9639, section 10.1; RFC 3533). It holds the last of them back. Their pages have granule
    /// position 0. No linear predictors are tried yet: see [`OggDraftEncoder::set_predictors`] and
    /// [`OggDraftEncoder::set_search`].
    ///
    /// `serial` is the serial number of the stream. The first block of the list must be a Vorbis comment.
    ///
    /// # Errors
    /// [`EncodeFault::Setup`] with the fault of the format ([`StreamFormat::fault`]), or [`EncodeFault::BadMapping`] if
    /// the list does not begin with a Vorbis comment, the first that applies. Else [`EncodeFault::Memory`] if an
    /// allocation fails, or [`EncodeFault::Write`] if the target returns an error. The target is not returned then.
    pub fn new_in(
        alloc: Global,
        serial: u32,
        format: &StreamFormat,
        list: BlockList,
        target: W,
    ) -> Result<OggDraftEncoder<W>, EncodeFault>
        ensures made { IfOk result (λ e. IsUnpushed (shape_of format.now) e.draft.pushed) }
        ensures serial { IfOk result (λ e. e.serial ≡ serial) }
        ensures list { IfOk result (λ e. e.draft.list ≡ list) }
        ensures table { IfOk result (λ e. e.draft.table ≡ no_table) }
        ensures begun { IfOk result (λ e. BeginsOggDraft W.Target target e) }
        ensures opens { IfOk result (λ e. Opens W.Target list target (pushed_ogg e)) }
        ensures known { IfOk result (λ e. W.known target ≡ true → W.known e.draft.pushed.target ≡ true) }
        ensures counted { IfOk result (λ e. W.errors e.draft.pushed.target ≡ W.errors target) }
        ensures names { IfOk result (λ e. W.names e.draft.pushed.target ≡ W.names target) }
        ensures accepted { OnOk result (open_fault (shape_of format.now) list ≡ None) }
        ensures refused { IfErr result (λ e. IsOpenFault (shape_of format.now) list e) }
        // An error of the target is counted, and a prefix of the header packets was sent before it.
        ensures failed { FailsOpen W.Target (shape_of format.now) serial list target result }
    {
        let headers = open_headers(alloc, serial, format, &list)?;
        let _blocks = list.blocks(); // for its clauses alone
        let blocks = BlockEncoder::new(alloc, format)?;
        let start = target.sent_len();
        let hasher = Md5::new();
        let mut target = target;
        match send_all(&mut target, headers.sent.as_slice()) {
            Ok(()) => Ok(OggDraftEncoder {
                alloc,
                format: *format,
                list,
                blocks,
                hasher,
                least: 0,
                greatest: 0,
                start,
                serial,
                held: headers.held,
                target,
            }),
            Err(_) => {
                drop(blocks);
                Err(EncodeFault::Write)
            }
        }
    }

    /// Sets the linear predictors that are tried for each subframe of the frames pushed from now on, as
    /// [`flac_encoder::StreamEncoder::set_predictors`] does. It is called before the first block.
    ///
    /// # Errors
    /// [`SetupFault::TooManyPredictors`] if there are more than 64, else [`SetupFault::PredictorOrder`] if an order is
    /// too large. The encoder is as it was then.
    pub fn set_predictors(&mut self, predictors: Vec<LinearPredictor>) -> Result<(), SetupFault>
        ensures set { OnOk result (self.new ≡ trying_draft self.old predictors.items) }
        ensures stays { OnOk result (StaysOggDraft W.Target self.old self.new) }
        ensures accepted { OnOk result (trying_fault self.old.draft.pushed predictors.items ≡ None) }
        ensures refused { IfErr result (λ e. trying_fault self.old.draft.pushed predictors.items ≡ Some e) }
        ensures kept { IfErr result (λ e. self.new ≡ self.old) }
    {
        self.blocks.set_predictors(predictors)
    }

    /// From now on linear predictors are sought for each block before it is written, or with `None` no longer, as
    /// [`flac_encoder::StreamEncoder::set_search`] does. It is called before the first block.
    ///
    /// # Errors
    /// [`EncodeFault::Memory`] if an allocation fails. The encoder is as it was then.
    pub fn set_search(&mut self, search: Option<Search>) -> Result<(), EncodeFault>
        ensures set { OnOk result (self.new ≡ searching_draft self.old search) }
        ensures stays { OnOk result (StaysOggDraft W.Target self.old self.new) }
        ensures memory { IfErr result (λ e. e ≡ EncodeFault.Memory) }
        ensures kept { IfErr result (λ e. self.new ≡ self.old) }
    {
        self.blocks.set_search(search)
    }

    /// Makes a block the next frame, as [`flac_encoder::StreamEncoder::push`] does, but holds its packet back, and
    /// sends the packet that was held. `block` has one slice for each channel, of 1 to as many samples as the block
    /// size. Only the last block may be shorter than the block size (RFC 9639, section 9.1).
    ///
    /// Each packet begins a page. The page on which the frame ends has the number of samples so far as its granule
    /// position; the pages before it have all ones (section 10.1).
    ///
    /// # Errors
    /// The first of these that applies:
    ///
    /// - [`EncodeFault::Spent`] after a call that returned [`EncodeFault::Write`];
    /// - [`EncodeFault::Setup`] with `BadChannels` if there is not one slice for each channel, `LengthsDiffer` if they
    ///   differ in length, `SampleTooLarge` if a sample does not fit its bits;
    /// - [`EncodeFault::Setup`] with `TooLong` if the stream would have 2^36 samples of each channel or more, or more
    ///   than 2^31 frames;
    /// - [`EncodeFault::Setup`] with `BadBlockSize` if the block has no sample, or more than the block size;
    /// - [`EncodeFault::BlockSize`] if the block before was shorter than the block size;
    /// - [`EncodeFault::Memory`] if an allocation fails, or [`EncodeFault::Write`] if the target returns an error.
    ///
    /// After [`EncodeFault::Write`] the target was sent a prefix of the packet that was held. After each other error
    /// the encoder is as it was, and nothing was sent.
    pub fn push(&mut self, block: &[&[i32]]) -> Result<(), EncodeFault>
        ensures next { OnOk result
            (IsAfterBlock self.old.draft.pushed (block_channels block.now) self.new.draft.pushed) }
        ensures serial { self.new.serial ≡ self.old.serial }
        ensures list { self.new.draft.list ≡ self.old.draft.list }
        ensures table { self.new.draft.table ≡ self.old.draft.table }
        ensures draft { OnOk result (GoesOnOgg W.Target (block_channels block.now) self.old self.new) }
        ensures written { OnOk result
            (SentPacket W.Target (block_channels block.now) (pushed_ogg self.old) (pushed_ogg self.new)) }
        ensures known { OnOk result
            (W.known self.old.draft.pushed.target ≡ true → W.known self.new.draft.pushed.target ≡ true) }
        ensures counted { OnOk result
            (W.errors self.new.draft.pushed.target ≡ W.errors self.old.draft.pushed.target) }
        ensures accepted { OnOk result (push_fault self.old.draft.pushed (block_channels block.now) ≡ None) }
        ensures refused { IfErr result (λ e. IsFirst (push_fault self.old.draft.pushed (block_channels block.now)) e) }
        ensures kept { IfErr result (λ e. e ≢ EncodeFault.Write → self.new ≡ self.old) }
        ensures begun { IfErr result (λ e.
            BegunPacket W.Target (block_channels block.now) (pushed_ogg self.old) (pushed_ogg self.new) e) }
        ensures spent { IfErr result
            (λ e. e ≡ EncodeFault.Write → IsSpent self.old.draft.pushed self.new.draft.pushed) }
        ensures failed { IfErr result (λ e.
            HasWriteError W.Target self.old.draft.pushed.target self.new.draft.pushed.target e) }
        // An error of the target is counted, if the count can rise, whatever is known of it.
        ensures risen { IfErr result (λ e.
            CountsWriteError W.Target self.old.draft.pushed.target self.new.draft.pushed.target e) }
        ensures names { W.names self.new.draft.pushed.target ≡ W.names self.old.draft.pushed.target }
    {
        let packet = self.blocks.encode(block)?;
        let samples = self.blocks.samples();
        let end = samples + block_len(block) as u64;
        let frame = packet.as_slice();
        let Ok(held) = held_frame(self.alloc, self.serial, self.held.next, end, frame) else {
            return Err(EncodeFault::Memory);
        };
        match send_all(&mut self.target, self.held.middle.as_slice()) {
            Ok(()) => {
                let bytes = packet.len() as u64;
                let width = sample_width(self.format.bits);
                feed_slices(&mut self.hasher, block, block_len(block), width);
                self.least = least_after(samples, self.least, bytes);
                self.greatest = self.greatest.max(bytes);
                self.held = held;
                self.blocks.sent(block);
                Ok(())
            }
            Err(_) => {
                drop(held);
                self.blocks.failed();
                Err(EncodeFault::Write)
            }
        }
    }

    /// Ends the stream: writes the packet that is held, with the mark of the last page, and the first page anew, whose
    /// STREAMINFO has the number of samples, the sizes of the frames and the MD5 digest (RFC 9639, section 8.2). It
    /// returns the target, which has the whole stream.
    ///
    /// # Errors
    /// The target is returned too, which is as it was but after `Write`.
    ///
    /// - [`DraftFault::Encode`] with [`EncodeFault::Spent`] after a call that returned [`EncodeFault::Write`];
    /// - else [`DraftFault::Encode`] with [`EncodeFault::Memory`] if an allocation fails, or [`EncodeFault::Write`] if
    ///   the target returns an error.
    pub fn finish(self) -> Result<W, Unfinished<W>>
        ensures finished { IfOk result (λ target. FinishesOgg W.Target self target) }
        ensures known { IfOk result (λ target. W.known self.draft.pushed.target ≡ true → W.known target ≡ true) }
        ensures counted { IfOk result (λ target. W.errors target ≡ W.errors self.draft.pushed.target) }
        ensures names { IfOk result (λ target. W.names target ≡ W.names self.draft.pushed.target) }
        ensures accepted { OnOk result (ogg_finish_fault self ≡ None) }
        ensures refused { IfErr result (λ e. IsFirstFault (ogg_finish_fault self) e.fault) }
        ensures kept { IfErr result (λ e. e.fault ≢ DraftFault.Encode EncodeFault.Write
            → e.left ≡ self.draft.pushed.target) }
        // An error of the target is counted.
        ensures failed { IfErr result (λ e. FailsLast W.Target self.draft.pushed.target e.fault e.left) }
    {
        let OggDraftEncoder {
            alloc,
            format,
            list,
            blocks,
            hasher,
            least,
            greatest,
            start,
            serial,
            held,
            mut target,
        } = self;
        let spent = blocks.is_spent();
        let total = blocks.samples();
        drop(blocks);
        if spent {
            return Err(unfinished_by(EncodeFault::Spent, target));
        }
        let digest = hasher.finalize();
        bytes_fit(digest.as_slice()); // for its clause alone
        let info = info_with(&format, least, greatest, total, digest);
        let page = first_page(alloc, serial, info, &list);
        drop(list);
        let Some(page) = page else {
            return Err(unfinished_by(EncodeFault::Memory, target));
        };
        match end_stream(&mut target, held.last.as_slice(), start, page.as_slice()) {
            Ok(()) => Ok(target),
            Err(_) => Err(unfinished_by(EncodeFault::Write, target)),
        }
    }
}
