//! Encodes a native stream a block at a time, and writes its head last.

ghost use Rattle.std.specs.Prelude.{◌≡◌, ◌≢◌, ◌<◌, ◌≤◌, ◌^◌, ◌++◌, [], max, true, None, Some, IfOk, IfErr, OnOk, Ok, Err, ⊤, MatchOption};
ghost use Rattle.flac_bits.specs.Bits.{bits_of};
ghost use Rattle.flac_encoder.specs.Pushing.{shape_of, shape_fault, setup_fault, IsUnpushed, IsAfterBlock, trying, trying_fault, searching, block_channels, push_fault, IsFirst, IsSpent, SentHead, FailsHead, SentFrame, BegunFrame};
ghost use Rattle.flac_ogg.specs.Writing.{HasWriteError, CountsWriteError};
ghost use Rattle.flac_draft.specs.Draft.{BeginsDraft, GoesOn, StaysDraft, Finishes, finish_fault, FailsLast};
ghost use Rattle.flac_draft.specs.Faults.{IsFirstFault};
ghost use Rattle.flac_draft.specs.Table.{no_table, table_for, table_fault, begin_fault, with_place, StaysStated, list_for};

use crate::draft_fault::{DraftFault, Unfinished, unfinished_by};
use crate::draft_head::{head_bytes, info_with, least_after};
use crate::point_table::PointTable;
use crate::rewritable::Rewritable;
use crate::table_faults::begin_fault;
use flac_bits::{Target, send_all};
use flac_encoder::{BlockEncoder, StreamFormat, block_len};
use flac_frame::SetupFault;
use flac_meta::BlockList;
use flac_native::{EncodeFault, feed_slices, sample_width, send_head};
use flac_predict::Search;
use flac_subframe::LinearPredictor;
use md5::{Digest, Md5};
use std::alloc::Global;
use std::marker::Model;

/// Encodes a native stream a block at a time, as [`flac_encoder::StreamEncoder`] does, and at the end writes the number
/// of samples, the sizes of the frames and the MD5 digest into STREAMINFO (RFC 9639, sections 6 and 8.2). So the stream
/// is one that [`flac_native::encode`] writes of all samples, of which only one block is held at a time.
///
/// [`DraftEncoder::new_in`] writes the marker, STREAMINFO and the metadata blocks, each [`DraftEncoder::push`] one frame,
/// and [`DraftEncoder::finish`] writes STREAMINFO anew and returns the target. Before that, what was written is a whole
/// stream after each call that returns `Ok`, whose STREAMINFO states neither the number of samples nor the sizes of the
/// frames nor the digest.
///
/// [`DraftEncoder::new_with_table`] makes one with a seek table, for which the number of samples is stated before.
///
/// ```
/// let mut encoder = DraftEncoder::new_in(alloc, &format, list, DraftMemory::new(alloc))?;
/// encoder.push(&[left.as_slice(), right.as_slice()])?;
/// let bytes = encoder.finish()?.into_bytes();
/// ```
#[derive(Drop)]
pub struct DraftEncoder<W: Rewritable> {
    alloc: Global,
    format: StreamFormat,
    /// The blocks after STREAMINFO.
    list: BlockList,
    blocks: BlockEncoder,
    /// All samples so far.
    hasher: Md5,
    /// The size of the smallest frame in bytes, and that of the largest.
    least: u64,
    greatest: u64,
    /// How many bytes the target had been sent before.
    start: u64,
    /// The seek table.
    table: PointTable,
    target: W,
}

impl<W: Rewritable> Model for DraftEncoder<W> {
    ghost use Rattle.std.specs.Prelude.{◌≡◌, ◌<◌, ◌≤◌, ◌*◌, ◌^◌, None, false};
    ghost use Rattle.flac_encoder.specs.Pushing.{with_target, shape_of, shape_fault};
    ghost use Rattle.flac_draft.specs.Draft.{Draft};
    ghost use Rattle.flac_draft.specs.inner.Gathering.{AreBefore};

    ghost Value = { Draft W };

    ghost view = { λ e. record {
      pushed = with_target e.blocks e.target;
      list = e.list;
      hasher = e.hasher;
      least = e.least;
      greatest = e.greatest;
      start = e.start;
      table = e.table;
    } };

    ghost invariant = { λ e. record {
      format : shape_fault (shape_of e.format) ≡ None;
      same : e.blocks.shape ≡ shape_of e.format;
      least : e.least < 2 ^ 24;
      greatest : e.greatest < 2 ^ 24;
      bytes : e.table.bytes ≤ 2 ^ 24 * e.blocks.number;
      points : e.blocks.spent ≡ false → AreBefore e.blocks.samples e.table.points;
    } };
}

impl<W: Rewritable + Drop> DraftEncoder<W> {
    /// Makes an encoder for this format, and writes the marker, STREAMINFO and the blocks of the list (RFC 9639,
    /// sections 6 to 8). No linear predictors are tried yet: see [`DraftEncoder::set_predictors`] and
    /// [`DraftEncoder::set_search`].
    ///
    /// # Errors
    /// [`EncodeFault::Setup`] with `BadRate`, `BadDepth`, `BadChannels` or `BadBlockSize`, the first that applies
    /// ([`StreamFormat::fault`]). Else [`EncodeFault::Memory`] if an allocation fails, or [`EncodeFault::Write`] if the
    /// target returns an error. The target is not returned then.
    pub fn new_in(
        alloc: Global,
        format: &StreamFormat,
        list: BlockList,
        target: W,
    ) -> Result<DraftEncoder<W>, EncodeFault>
        ensures made { IfOk result (λ e. IsUnpushed (shape_of format.now) e.pushed) }
        ensures list { IfOk result (λ e. e.list ≡ list) }
        ensures table { IfOk result (λ e. e.table ≡ no_table) }
        ensures begun { IfOk result (λ e. BeginsDraft W.Target target e) }
        ensures written { IfOk result (λ e. SentHead W.Target list target e.pushed) }
        ensures known { IfOk result (λ e. W.known target ≡ true → W.known e.pushed.target ≡ true) }
        ensures counted { IfOk result (λ e. W.errors e.pushed.target ≡ W.errors target) }
        ensures names { IfOk result (λ e. W.names e.pushed.target ≡ W.names target) }
        ensures accepted { OnOk result (shape_fault (shape_of format.now) ≡ None) }
        ensures refused { IfErr result (λ e. IsFirst (setup_fault (shape_of format.now)) e) }
        // An error of the target is counted, and a prefix was sent before it.
        ensures failed { FailsHead W.Target (shape_of format.now) list target result }
    {
        DraftEncoder::begin(alloc, format, list, PointTable::none(alloc), target)
    }

    /// Makes an encoder as [`DraftEncoder::new_in`] does, and after the blocks of the list it reserves a seek table for
    /// `total` samples of each channel, which are to come. If `seek_every` is not 0, each frame that holds a sample
    /// whose index is a multiple of it has a seek point (RFC 9639, section 8.5), which [`DraftEncoder::finish`] writes.
    /// Before that the points of the table are placeholders.
    ///
    /// If `seek_every` is 0, there is no table, and any number of samples may come.
    ///
    /// ```
    /// let mut encoder = DraftEncoder::new_with_table(alloc, &format, list, 80, 32, DraftMemory::new(alloc))?;
    /// ```
    ///
    /// # Errors
    /// Those of [`DraftEncoder::new_in`]. If `seek_every` is not 0, before that it allocates or writes,
    /// [`EncodeFault::Setup`] with `TooLong` for 2^36 samples or more, or more than 2^31 frames, or with `TooManyPoints`
    /// for more than 932067 points; or [`EncodeFault::RepeatedBlock`] if the list has a seek table.
    pub fn new_with_table(
        alloc: Global,
        format: &StreamFormat,
        list: BlockList,
        total: u64,
        seek_every: u32,
        target: W,
    ) -> Result<DraftEncoder<W>, EncodeFault>
        ensures made { IfOk result (λ e. IsUnpushed (shape_of format.now) e.pushed) }
        ensures list { IfOk result (λ e. e.list ≡ list) }
        ensures table { IfOk result (λ e. e.table ≡ table_for total seek_every) }
        ensures begun { IfOk result (λ e. BeginsDraft W.Target target e) }
        ensures written { IfOk result
            (λ e. SentHead W.Target (list_for format.now total seek_every list) target e.pushed) }
        ensures known { IfOk result (λ e. W.known target ≡ true → W.known e.pushed.target ≡ true) }
        ensures counted { IfOk result (λ e. W.errors e.pushed.target ≡ W.errors target) }
        ensures names { IfOk result (λ e. W.names e.pushed.target ≡ W.names target) }
        ensures accepted { OnOk result
            (begin_fault (shape_of format.now) list (table_for total seek_every) ≡ None) }
        ensures refused { IfErr result (λ e. IsFirst
            (begin_fault (shape_of format.now) list (table_for total seek_every)) e) }
        // An error of the target is counted, and a prefix was sent before it.
        ensures failed { FailsHead W.Target (shape_of format.now)
            (list_for format.now total seek_every list) target result }
    {
        if let Some(fault) = begin_fault(format, &list, total, seek_every) {
            return Err(fault);
        }
        let table = PointTable::new(alloc, total, seek_every);
        DraftEncoder::begin(alloc, format, list, table, target)
    }

    /// Makes an encoder for this format with a seek table, of which there is no point yet.
    fn begin(
        alloc: Global,
        format: &StreamFormat,
        list: BlockList,
        table: PointTable,
        target: W,
    ) -> Result<DraftEncoder<W>, EncodeFault>
        requires fits { shape_fault (shape_of format.now) ≡ None
            → table_fault (shape_of format.now) list table ≡ None }
        requires points { table.points ≡ [] }
        requires bytes { table.bytes ≡ 0 }
        ensures made { IfOk result (λ e. IsUnpushed (shape_of format.now) e.pushed) }
        ensures list { IfOk result (λ e. e.list ≡ list) }
        ensures table { IfOk result (λ e. e.table ≡ table) }
        ensures begun { IfOk result (λ e. BeginsDraft W.Target target e) }
        ensures written { IfOk result (λ e. SentHead W.Target
            (with_place format.now.block_size table list) target e.pushed) }
        ensures known { IfOk result (λ e. W.known target ≡ true → W.known e.pushed.target ≡ true) }
        ensures counted { IfOk result (λ e. W.errors e.pushed.target ≡ W.errors target) }
        ensures names { IfOk result (λ e. W.names e.pushed.target ≡ W.names target) }
        ensures accepted { OnOk result (shape_fault (shape_of format.now) ≡ None) }
        ensures refused { IfErr result (λ e. IsFirst (setup_fault (shape_of format.now)) e) }
        ensures failed { FailsHead W.Target (shape_of format.now)
            (with_place format.now.block_size table list) target result }
    {
        let blocks = BlockEncoder::new(alloc, format)?;
        let _blocks = list.blocks(); // for its clauses alone
        let Ok(points) = table.reserved(alloc, format.block_size) else {
            return Err(EncodeFault::Memory);
        };
        let start = target.sent_len();
        let info = info_with(format, 0, 0, 0, [0; 16]);
        let hasher = Md5::new();
        let mut target = target;
        match send_head(info, &list, points, &mut target) {
            Ok(()) => Ok(DraftEncoder {
                alloc,
                format: *format,
                list,
                blocks,
                hasher,
                least: 0,
                greatest: 0,
                start,
                table,
                target,
            }),
            Err(_) => {
                drop(blocks);
                Err(EncodeFault::Write)
            }
        }
    }

    /// Sets the linear predictors that are tried for each subframe of the frames pushed from now on, as
    /// [`flac_encoder::StreamEncoder::set_predictors`] does. It is called before the first block.
    ///
    /// # Errors
    /// [`SetupFault::TooManyPredictors`] if there are more than 64, else [`SetupFault::PredictorOrder`] if an order is
    /// too large. The encoder is as it was then.
    pub fn set_predictors(&mut self, predictors: Vec<LinearPredictor>) -> Result<(), SetupFault>
        ensures set { OnOk result (self.new ≡ record self.old { pushed = trying self.old.pushed predictors.items }) }
        ensures stays { OnOk result (StaysDraft W.Target self.old self.new) }
        ensures accepted { OnOk result (trying_fault self.old.pushed predictors.items ≡ None) }
        ensures refused { IfErr result (λ e. trying_fault self.old.pushed predictors.items ≡ Some e) }
        ensures kept { IfErr result (λ e. self.new ≡ self.old) }
    {
        self.blocks.set_predictors(predictors)
    }

    /// From now on linear predictors are sought for each block before it is written, or with `None` no longer, as
    /// [`flac_encoder::StreamEncoder::set_search`] does. It is called before the first block.
    ///
    /// # Errors
    /// [`EncodeFault::Memory`] if an allocation fails. The encoder is as it was then.
    pub fn set_search(&mut self, search: Option<Search>) -> Result<(), EncodeFault>
        ensures set { OnOk result (self.new ≡ record self.old { pushed = searching self.old.pushed search }) }
        ensures stays { OnOk result (StaysDraft W.Target self.old self.new) }
        ensures memory { IfErr result (λ e. e ≡ EncodeFault.Memory) }
        ensures kept { IfErr result (λ e. self.new ≡ self.old) }
    {
        self.blocks.set_search(search)
    }

    /// Writes a block as the next frame, and sends all of it, as [`flac_encoder::StreamEncoder::push`] does. `block`
    /// has one slice for each channel, of 1 to as many samples as the block size. Only the last block may be shorter
    /// than the block size (RFC 9639, section 9.1).
    ///
    /// # Errors
    /// The first of these that applies:
    ///
    /// - [`EncodeFault::Spent`] after a call that returned [`EncodeFault::Write`];
    /// - [`EncodeFault::Setup`] with `BadChannels` if there is not one slice for each channel, `LengthsDiffer` if they
    ///   differ in length, `SampleTooLarge` if a sample does not fit its bits;
    /// - [`EncodeFault::Setup`] with `TooLong` if the stream would have 2^36 samples of each channel or more, or more
    ///   than 2^31 frames;
    /// - [`EncodeFault::Setup`] with `BadBlockSize` if the block has no sample, or more than the block size;
    /// - [`EncodeFault::BlockSize`] if the block before was shorter than the block size;
    /// - [`EncodeFault::Memory`] if an allocation fails, or [`EncodeFault::Write`] if the target returns an error.
    ///
    /// After [`EncodeFault::Write`] the target was sent a prefix of the frame. After each other error the encoder is as
    /// it was, and nothing was sent.
    pub fn push(&mut self, block: &[&[i32]]) -> Result<(), EncodeFault>
        ensures next { OnOk result (IsAfterBlock self.old.pushed (block_channels block.now) self.new.pushed) }
        ensures list { self.new.list ≡ self.old.list }
        ensures stated { StaysStated self.old.table self.new.table }
        ensures draft { OnOk result (GoesOn W.Target (block_channels block.now) self.old self.new) }
        ensures written { OnOk result (SentFrame W.Target (block_channels block.now) self.old.pushed self.new.pushed) }
        ensures known { OnOk result (W.known self.old.pushed.target ≡ true → W.known self.new.pushed.target ≡ true) }
        ensures counted { OnOk result (W.errors self.new.pushed.target ≡ W.errors self.old.pushed.target) }
        ensures accepted { OnOk result (push_fault self.old.pushed (block_channels block.now) ≡ None) }
        ensures refused { IfErr result (λ e. IsFirst (push_fault self.old.pushed (block_channels block.now)) e) }
        ensures kept { IfErr result (λ e. e ≢ EncodeFault.Write → self.new ≡ self.old) }
        ensures begun { IfErr result (λ e.
            BegunFrame W.Target (block_channels block.now) self.old.pushed self.new.pushed e) }
        ensures spent { IfErr result (λ e. e ≡ EncodeFault.Write → IsSpent self.old.pushed self.new.pushed) }
        ensures failed { IfErr result (λ e. HasWriteError W.Target self.old.pushed.target self.new.pushed.target e) }
        // An error of the target is counted, if the count can rise, whatever is known of it.
        ensures risen { IfErr result (λ e. CountsWriteError W.Target self.old.pushed.target self.new.pushed.target e) }
        ensures names { W.names self.new.pushed.target ≡ W.names self.old.pushed.target }
    {
        let frame = self.blocks.encode(block)?;
        let samples = self.blocks.samples();
        let Ok(()) = self.table.note(self.format.block_size, samples) else {
            return Err(EncodeFault::Memory);
        };
        match send_all(&mut self.target, frame.as_slice()) {
            Ok(()) => {
                let bytes = frame.len() as u64;
                let width = sample_width(self.format.bits);
                feed_slices(&mut self.hasher, block, block_len(block), width);
                self.least = least_after(samples, self.least, bytes);
                self.greatest = self.greatest.max(bytes);
                self.table.count(bytes);
                self.blocks.sent(block);
                Ok(())
            }
            Err(_) => {
                self.blocks.failed();
                Err(EncodeFault::Write)
            }
        }
    }

    /// Writes the number of samples, the sizes of the frames and the MD5 digest into STREAMINFO (RFC 9639, section
    /// 8.2), and the points of the seek table, if one was reserved, and returns the target, which has the whole stream.
    ///
    /// It holds what comes before the frames in memory.
    ///
    /// # Errors
    /// The target is returned too, which is as it was but after `Write`.
    ///
    /// - [`DraftFault::Encode`] with [`EncodeFault::Spent`] after a call that returned [`EncodeFault::Write`];
    /// - else [`DraftFault::OtherTotal`] if for the seek table another number of samples was stated than came;
    /// - else [`DraftFault::Encode`] with [`EncodeFault::Memory`] if an allocation fails, or [`EncodeFault::Write`] if
    ///   the target returns an error.
    pub fn finish(self) -> Result<W, Unfinished<W>>
        ensures finished { IfOk result (λ target. Finishes W.Target self target) }
        ensures known { IfOk result (λ target. W.known self.pushed.target ≡ true → W.known target ≡ true) }
        ensures counted { IfOk result (λ target. W.errors target ≡ W.errors self.pushed.target) }
        ensures names { IfOk result (λ target. W.names target ≡ W.names self.pushed.target) }
        ensures accepted { OnOk result (finish_fault self ≡ None) }
        ensures refused { IfErr result (λ e. IsFirstFault (finish_fault self) e.fault) }
        ensures kept { IfErr result (λ e. e.fault ≢ DraftFault.Encode EncodeFault.Write
            → e.left ≡ self.pushed.target) }
        // An error of the target is counted.
        ensures failed { IfErr result (λ e. FailsLast W.Target self.pushed.target e.fault e.left) }
    {
        let DraftEncoder {
            alloc,
            format,
            list,
            blocks,
            hasher,
            least,
            greatest,
            start,
            table,
            mut target,
        } = self;
        let spent = blocks.is_spent();
        let total = blocks.samples();
        drop(blocks);
        if spent {
            return Err(unfinished_by(EncodeFault::Spent, target));
        }
        if !table.takes(total) {
            return Err(Unfinished {
                fault: DraftFault::OtherTotal,
                left: target,
            });
        }
        let digest = hasher.finalize();
        let info = info_with(&format, least, greatest, total, digest);
        let head = head_bytes(alloc, info, &list, table.into_points());
        drop(list);
        let Some(head) = head else {
            return Err(unfinished_by(EncodeFault::Memory, target));
        };
        match target.write_over(start, head.as_slice()) {
            Ok(()) => Ok(target),
            Err(_) => Err(unfinished_by(EncodeFault::Write, target)),
        }
    }
}
