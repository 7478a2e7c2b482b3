//! Encodes a native stream a block at a time.

ghost use Rattle.std.specs.Prelude.{◌≡◌, None, IfOk, IfErr, Some, ◌≢◌, ◌↔◌, true, OnOk, Ok, Err};
ghost use Rattle.flac_encoder.specs.Pushing.{shape_of, shape_fault, setup_fault, subset_shape, IsUnpushed, IsAfterBlock, trying, trying_fault, searching, block_channels, push_fault, IsFirst, IsSpent, StandsForHead, SentHead, FailsHead, KeepsStream, SentFrame, BegunFrame};
ghost use Rattle.flac_ogg.specs.Writing.{HasWriteError, CountsWriteError};

use crate::block_encoder::BlockEncoder;
use crate::stream_format::StreamFormat;
use flac_bits::{Target, send_all};
use flac_frame::SetupFault;
use flac_header::Profile;
use flac_meta::BlockList;
use flac_native::{EncodeFault, send_head};
use flac_predict::Search;
use flac_subframe::LinearPredictor;
use std::alloc::Global;
use std::marker::Model;

/// Encodes a native stream a block at a time, as a recorder does whose samples are not all there yet (RFC 9639, section
/// 6). [`StreamEncoder::new`] writes the marker, STREAMINFO and the metadata blocks, each [`StreamEncoder::push`] one
/// frame, and [`StreamEncoder::finish`] returns the target. [`StreamEncoder::new_in`] does so for a profile.
///
/// After each call that returns `Ok`, what was written is a whole stream. Its STREAMINFO states neither the number of
/// samples nor the sizes of the frames nor the digest, since they are not known when it is written (section 8.2).
///
/// ```
/// let mut encoder = StreamEncoder::new(alloc, 44100, 16, 2, 4096, &blocks, file)?;
/// encoder.push(&[left.as_slice(), right.as_slice()])?;
/// let file = encoder.finish()?;
/// ```
#[derive(Drop)]
pub struct StreamEncoder<W: Target> {
    blocks: BlockEncoder,
    target: W,
}

impl<W: Target> Model for StreamEncoder<W> {
    ghost use Rattle.flac_encoder.specs.Pushing.{Pushed, with_target};

    ghost Value = { Pushed W };

    ghost view = { λ e. with_target e.blocks e.target };
}

impl<W: Target + Drop> StreamEncoder<W> {
    /// Makes an encoder for the streamable subset, and writes the marker, STREAMINFO and the blocks of the list, as
    /// [`StreamEncoder::new_in`] does for [`Profile::Subset`]: with a sample rate in Hz, bits per sample, a number of
    /// channels, and a block size in samples of each channel ([`StreamFormat`] has their ranges).
    ///
    /// # Errors
    /// Those of [`StreamEncoder::new_in`].
    pub fn new(
        alloc: Global,
        rate: u32,
        bits: u32,
        channels: u32,
        block_size: u32,
        list: &BlockList,
        target: W,
    ) -> Result<StreamEncoder<W>, EncodeFault>
        ensures made { IfOk result (λ e. IsUnpushed (subset_shape rate bits channels block_size) e) }
        ensures stands { IfOk result (λ e. StandsForHead e list.now) }
        ensures written { IfOk result (λ e. SentHead W.Target list.now target e) }
        ensures known { IfOk result (λ e. W.known target ≡ true → W.known e.target ≡ true) }
        ensures counted { IfOk result (λ e. W.errors e.target ≡ W.errors target) }
        ensures names { IfOk result (λ e. W.names e.target ≡ W.names target) }
        ensures accepted { OnOk result (shape_fault (subset_shape rate bits channels block_size) ≡ None) }
        ensures refused { IfErr result (λ e. IsFirst (setup_fault (subset_shape rate bits channels block_size)) e) }
        // An error of the target is counted, and a prefix was sent before it.
        ensures failed { FailsHead W.Target (subset_shape rate bits channels block_size) list.now target result }
    {
        let format = StreamFormat {
            profile: Profile::Subset,
            rate,
            bits,
            channels,
            block_size,
        };
        StreamEncoder::new_in(alloc, &format, list, target)
    }

    /// Makes an encoder for this format, and writes the marker, STREAMINFO and the blocks of the list (RFC 9639,
    /// sections 6 to 8). No linear predictors are tried yet: see [`StreamEncoder::set_predictors`] and
    /// [`StreamEncoder::set_search`].
    ///
    /// ```
    /// let format = StreamFormat { profile: Profile::Lax, rate: 1000000, bits: 14, channels: 1, block_size: 32768 };
    /// let mut encoder = StreamEncoder::new_in(alloc, &format, &blocks, file)?;
    /// ```
    ///
    /// # Errors
    /// [`EncodeFault::Setup`] with `BadRate`, `BadDepth`, `BadChannels` or `BadBlockSize`, the first that applies
    /// ([`StreamFormat::fault`]). Else [`EncodeFault::Memory`] if an allocation fails, or [`EncodeFault::Write`] if the
    /// target returns an error. The target is not returned then.
    pub fn new_in(
        alloc: Global,
        format: &StreamFormat,
        list: &BlockList,
        target: W,
    ) -> Result<StreamEncoder<W>, EncodeFault>
        ensures made { IfOk result (λ e. IsUnpushed (shape_of format.now) e) }
        ensures stands { IfOk result (λ e. StandsForHead e list.now) }
        ensures written { IfOk result (λ e. SentHead W.Target list.now target e) }
        ensures known { IfOk result (λ e. W.known target ≡ true → W.known e.target ≡ true) }
        ensures counted { IfOk result (λ e. W.errors e.target ≡ W.errors target) }
        ensures names { IfOk result (λ e. W.names e.target ≡ W.names target) }
        ensures accepted { OnOk result (shape_fault (shape_of format.now) ≡ None) }
        ensures refused { IfErr result (λ e. IsFirst (setup_fault (shape_of format.now)) e) }
        // An error of the target is counted, and a prefix was sent before it.
        ensures failed { FailsHead W.Target (shape_of format.now) list.now target result }
    {
        let blocks = BlockEncoder::new(alloc, format)?;
        let _blocks = list.blocks(); // for its clauses alone
        let info = format.open_info();
        let points = Vec::new(alloc);
        let mut target = target;
        match send_head(info, list, points, &mut target) {
            Ok(()) => Ok(StreamEncoder { blocks, target }),
            Err(_) => {
                drop(blocks);
                Err(EncodeFault::Write)
            }
        }
    }

    /// Sets the linear predictors that are tried for each subframe of the frames pushed from now on, beside the
    /// constant, verbatim and fixed ones: at most 64, of orders that the profile allows at the rate, 32 in
    /// [`Profile::Lax`] and above 48000 Hz, else 12 (RFC 9639, sections 7 and 9.2.6). They take the place of those
    /// before; an empty list is as none.
    ///
    /// # Errors
    /// [`SetupFault::TooManyPredictors`] if there are more than 64, else [`SetupFault::PredictorOrder`] if an order is
    /// too large. The encoder is as it was then.
    pub fn set_predictors(&mut self, predictors: Vec<LinearPredictor>) -> Result<(), SetupFault>
        ensures set { OnOk result (self.new ≡ trying self.old predictors.items) }
        ensures stands { OnOk result (KeepsStream self.old self.new) }
        ensures accepted { OnOk result (trying_fault self.old predictors.items ≡ None) }
        ensures refused { IfErr result (λ e. trying_fault self.old predictors.items ≡ Some e) }
        ensures kept { IfErr result (λ e. self.new ≡ self.old) }
    {
        self.blocks.set_predictors(predictors)
    }

    /// From now on linear predictors are sought for each block before it is written, or with `None` no longer. Beside
    /// the constant, verbatim and fixed ones and those of [`StreamEncoder::set_predictors`], those that are found are
    /// tried: for each plane (the channels, and of two channels their side and middle) one by [`Search::Quick`], three
    /// by
    /// [`Search::Full`], of orders 1 to 12 (RFC 9639, sections 4.2 and 9.2.6). A block of fewer than 64 samples is not
    /// searched. So no frame is longer than without a search, and the samples are the same.
    ///
    /// A search takes 32 bytes for each sample of a block of one channel.
    ///
    /// ```
    /// let mut encoder = StreamEncoder::new(alloc, 44100, 16, 2, 4096, &blocks, file)?;
    /// encoder.set_search(Some(Search::Quick))?;
    /// encoder.push(&[left.as_slice(), right.as_slice()])?;
    /// ```
    ///
    /// # Errors
    /// [`EncodeFault::Memory`] if an allocation fails. The encoder is as it was then.
    pub fn set_search(&mut self, search: Option<Search>) -> Result<(), EncodeFault>
        ensures set { OnOk result (self.new ≡ searching self.old search) }
        ensures stands { OnOk result (KeepsStream self.old self.new) }
        ensures memory { IfErr result (λ e. e ≡ EncodeFault.Memory) }
        ensures kept { IfErr result (λ e. self.new ≡ self.old) }
        ensures ended { search ≡ None → result ≡ Ok tt }
    {
        self.blocks.set_search(search)
    }

    /// Writes a block as the next frame, and sends all of it. `block` has one slice for each channel, of 1 to as many
    /// samples as the block size. Only the last block may be shorter than the block size (RFC 9639, section 9.1). The
    /// frame is as short as one of [`flac_native::encode`] with the same predictors, those that a search finds among
    /// them.
    ///
    /// # Errors
    /// The first of these that applies:
    ///
    /// - [`EncodeFault::Spent`] after a call that returned [`EncodeFault::Write`];
    /// - [`EncodeFault::Setup`] with `BadChannels` if there is not one slice for each channel, `LengthsDiffer` if they
    ///   differ in length, `SampleTooLarge` if a sample does not fit its bits;
    /// - [`EncodeFault::Setup`] with `TooLong` if the stream would have 2^36 samples of each channel or more, or more
    ///   than 2^31 frames;
    /// - [`EncodeFault::Setup`] with `BadBlockSize` if the block has no sample, or more than the block size;
    /// - [`EncodeFault::BlockSize`] if the block before was shorter than the block size;
    /// - [`EncodeFault::Memory`] if an allocation fails, or [`EncodeFault::Write`] if the target returns an error.
    ///
    /// After [`EncodeFault::Write`] the target was sent a prefix of the frame. After each other error the encoder is as
    /// it was, and nothing was sent.
    pub fn push(&mut self, block: &[&[i32]]) -> Result<(), EncodeFault>
        ensures next { OnOk result (IsAfterBlock self.old (block_channels block.now) self.new) }
        ensures written { OnOk result (SentFrame W.Target (block_channels block.now) self.old self.new) }
        ensures known { OnOk result (W.known self.old.target ≡ true → W.known self.new.target ≡ true) }
        ensures counted { OnOk result (W.errors self.new.target ≡ W.errors self.old.target) }
        ensures accepted { OnOk result (push_fault self.old (block_channels block.now) ≡ None) }
        ensures refused { IfErr result (λ e. IsFirst (push_fault self.old (block_channels block.now)) e) }
        ensures kept { IfErr result (λ e. e ≢ EncodeFault.Write → self.new ≡ self.old) }
        ensures begun { IfErr result (λ e. BegunFrame W.Target (block_channels block.now) self.old self.new e) }
        ensures spent { IfErr result (λ e. e ≡ EncodeFault.Write → IsSpent self.old self.new) }
        ensures failed { IfErr result (λ e. HasWriteError W.Target self.old.target self.new.target e) }
        // An error of the target is counted, if the count can rise, whatever is known of it.
        ensures risen { IfErr result (λ e. CountsWriteError W.Target self.old.target self.new.target e) }
        ensures names { W.names self.new.target ≡ W.names self.old.target }
    {
        let frame = self.blocks.encode(block)?;
        match send_all(&mut self.target, frame.as_slice()) {
            Ok(()) => {
                self.blocks.sent(block);
                Ok(())
            }
            Err(_) => {
                self.blocks.failed();
                Err(EncodeFault::Write)
            }
        }
    }

    /// Returns the target. Nothing more is sent: the stream is complete.
    ///
    /// # Errors
    /// [`EncodeFault::Spent`] after a call that returned [`EncodeFault::Write`].
    pub fn finish(self) -> Result<W, EncodeFault>
        ensures given { IfOk result (λ target. target ≡ self.target) }
        ensures spent { (result ≡ Err EncodeFault.Spent) ↔ (self.spent ≡ true) }
        ensures only { IfErr result (λ e. e ≡ EncodeFault.Spent) }
    {
        let StreamEncoder { blocks, target } = self;
        let spent = blocks.is_spent();
        drop(blocks);
        if spent {
            return Err(EncodeFault::Spent);
        }
        Ok(target)
    }
}
