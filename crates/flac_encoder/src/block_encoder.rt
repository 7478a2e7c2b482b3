//! Encodes the blocks of a stream as its frames, for each container.

ghost use Rattle.std.specs.Prelude.{◌≡◌, ◌≢◌, ◌<◌, ◌^◌, None, Some, IfOk, IfErr, OnOk, Ok};
ghost use Rattle.flac_bits.specs.Bits.{bits_of};
ghost use Rattle.flac_frame.specs.Audio.{samples_each};
ghost use Rattle.flac_native.specs.Given.{predictors_fault};
ghost use Rattle.flac_encoder.specs.Pushing.{shape_of, shape_fault, setup_fault, unpushed, after_block, spent_with, trying, trying_fault, searching, block_channels, size_fault, push_fault, IsFirst, IsNextFrame};

use crate::block_search::{BlockSearch, searched_frame};
use crate::stream_format::{StreamFormat, block_len};
use flac_frame::{EncodeBuffers, SetupFault};
use flac_native::{EncodeFault, predictors_fault};
use flac_predict::Search;
use flac_subframe::LinearPredictor;
use std::alloc::Global;
use std::marker::Model;

/// Encodes the blocks of a stream as its frames, one after another, each in memory (RFC 9639, section 9.1). It has no
/// target: the caller puts the frames into a container. [`crate::StreamEncoder`] is that of native streams, and
/// [`crate::OggEncoder`] that of Ogg streams.
///
/// A frame that [`BlockEncoder::encode`] returns counts once it is in the container: the caller says so by
/// [`BlockEncoder::sent`]. If it could not be put there, [`BlockEncoder::failed`] ends the stream.
///
/// ```
/// let mut encoder = BlockEncoder::new(alloc, &format)?;
/// let block = [left.as_slice(), right.as_slice()];
/// let frame = encoder.encode(&block)?;
/// encoder.sent(&block);
/// ```
#[derive(Drop)]
pub struct BlockEncoder {
    alloc: Global,
    format: StreamFormat,
    /// The linear predictors that are tried.
    predictors: Vec<LinearPredictor>,
    /// The search for others, if there is one.
    search: Option<BlockSearch>,
    /// How many frames are in the container.
    number: u64,
    /// How many samples of each channel these have.
    samples: u64,
    /// Whether a block shorter than the block size was pushed, after which none may follow.
    ended: bool,
    /// Whether a frame could not be put into the container.
    spent: bool,
    buffers: EncodeBuffers,
}

impl Model for BlockEncoder {
    ghost use Rattle.std.specs.Prelude.{◌≡◌, ◌<◌, ◌≤◌, ◌^◌, None, ⊤, MatchOption};
    ghost use Rattle.flac_frame.specs.Encoding.{most_in};
    ghost use Rattle.flac_native.specs.Given.{predictors_fault};
    ghost use Rattle.flac_encoder.specs.Pushing.{Pushed, shape_of, shape_fault};
    ghost use Rattle.flac_encoder.specs.inner.Searching.{effort_of};

    ghost Value = { Pushed ⊤ };

    ghost view = { λ e. record {
      shape = shape_of e.format;
      predictors = e.predictors.items;
      search = effort_of e.search;
      number = e.number;
      samples = e.samples;
      ended = e.ended;
      spent = e.spent;
      target = tt;
    } };

    ghost invariant = { λ e. record {
      shape : shape_fault (shape_of e.format) ≡ None;
      predictors : predictors_fault e.format.profile e.format.rate e.predictors.items ≡ None;
      search : MatchOption e.search ⊤ (λ s. s.finder ≡ e.format.block_size);
      buffers : e.buffers ≡ record { block = e.format.block_size; most = most_in e.format.profile };
      number : e.number ≤ 2 ^ 31;
      samples : e.samples < 2 ^ 36;
    } };
}

impl BlockEncoder {
    /// Makes an encoder of the blocks of a stream of this format. No linear predictors are tried yet: see
    /// [`BlockEncoder::set_predictors`] and [`BlockEncoder::set_search`].
    ///
    /// # Errors
    /// [`EncodeFault::Setup`] with the fault of the format ([`StreamFormat::fault`]), if it has one. Else
    /// [`EncodeFault::Memory`] if an allocation fails.
    pub fn new(alloc: Global, format: &StreamFormat) -> Result<BlockEncoder, EncodeFault>
        ensures made { IfOk result (λ e. e ≡ unpushed (shape_of format.now) tt) }
        ensures accepted { OnOk result (shape_fault (shape_of format.now) ≡ None) }
        ensures refused { IfErr result (λ e. IsFirst (setup_fault (shape_of format.now)) e) }
        ensures unsent { IfErr result (λ e. e ≢ EncodeFault.Write) }
    {
        if let Some(fault) = format.fault() {
            return Err(EncodeFault::Setup(fault));
        }
        let Ok(buffers) = EncodeBuffers::new_in(alloc, format.profile, format.block_size) else {
            return Err(EncodeFault::Memory);
        };
        Ok(BlockEncoder {
            alloc,
            format: *format,
            predictors: Vec::new(alloc),
            search: None,
            number: 0,
            samples: 0,
            ended: false,
            spent: false,
            buffers,
        })
    }

    /// Sets the linear predictors that are tried for each subframe of the frames from now on, beside the constant,
    /// verbatim and fixed ones: at most 64, of orders that the profile allows at the rate, 32 in
    /// [`crate::Profile::Lax`] and above 48000 Hz, else 12 (RFC 9639, sections 7 and 9.2.6). They take the place of
    /// those before; an empty list is as none.
    ///
    /// # Errors
    /// [`SetupFault::TooManyPredictors`] if there are more than 64, else [`SetupFault::PredictorOrder`] if an order is
    /// too large. The encoder is as it was then.
    pub fn set_predictors(&mut self, predictors: Vec<LinearPredictor>) -> Result<(), SetupFault>
        ensures set { OnOk result (self.new ≡ trying self.old predictors.items) }
        ensures accepted { OnOk result (trying_fault self.old predictors.items ≡ None) }
        ensures refused { IfErr result (λ e. trying_fault self.old predictors.items ≡ Some e) }
        ensures kept { IfErr result (λ e. self.new ≡ self.old) }
    {
        let StreamFormat { profile, rate, .. } = self.format;
        if let Some(fault) = predictors_fault(profile, rate, predictors.as_slice()) {
            return Err(fault);
        }
        self.predictors = predictors;
        Ok(())
    }

    /// From now on linear predictors are sought for each block before it is encoded, or with `None` no longer. Beside
    /// the constant, verbatim and fixed ones and those of [`BlockEncoder::set_predictors`], those that are found are
    /// tried: for each plane (the channels, and of two channels their side and middle) one by [`Search::Quick`], three
    /// by
    /// [`Search::Full`], of orders 1 to 12 (RFC 9639, sections 4.2 and 9.2.6). A block of fewer than 64 samples is not
    /// searched. So no frame is longer than without a search.
    ///
    /// A search takes 32 bytes for each sample of a block of one channel.
    ///
    /// # Errors
    /// [`EncodeFault::Memory`] if an allocation fails. The encoder is as it was then.
    pub fn set_search(&mut self, search: Option<Search>) -> Result<(), EncodeFault>
        ensures set { OnOk result (self.new ≡ searching self.old search) }
        ensures memory { IfErr result (λ e. e ≡ EncodeFault.Memory) }
        ensures kept { IfErr result (λ e. self.new ≡ self.old) }
        ensures ended { search ≡ None → result ≡ Ok tt }
    {
        let Some(effort) = search else {
            self.search = None;
            return Ok(());
        };
        let block_size = self.format.block_size as usize;
        let Ok(found) = BlockSearch::new(self.alloc, effort, block_size) else {
            return Err(EncodeFault::Memory);
        };
        self.search = Some(found);
        Ok(())
    }

    /// Why a block of `len` samples cannot be the next frame, or `None` if it can.
    #[tactic(auto, unfolding(crate::specs::Pushing::size_fault))]
    fn size_fault(&self, len: u64) -> Option<EncodeFault>
        ensures { result ≡ size_fault self.now len }
    {
        if len >= (1 << 36) - self.samples || self.number >= 1 << 31 {
            return Some(EncodeFault::Setup(SetupFault::TooLong));
        }
        if len == 0 || len > self.format.block_size as u64 {
            return Some(EncodeFault::Setup(SetupFault::BadBlockSize));
        }
        if self.ended {
            return Some(EncodeFault::BlockSize);
        }
        None
    }

    /// The first reason for which a block is refused, or `None`.
    #[tactic(auto, unfolding(crate::specs::Pushing::push_fault))]
    fn push_fault(&self, block: &[&[i32]]) -> Option<EncodeFault>
        ensures { result ≡ push_fault self.now (block_channels block.now) }
    {
        if self.spent {
            return Some(EncodeFault::Spent);
        }
        if let Some(fault) = self.format.block_fault(block) {
            return Some(EncodeFault::Setup(fault));
        }
        self.size_fault(block_len(block) as u64)
    }

    /// Encodes a block as the next frame. `block` has one slice for each channel, of 1 to as many samples as the block
    /// size. Only the last block may be shorter than the block size (RFC 9639, section 9.1). The frame is as short as
    /// one of [`flac_native::encode`] with the same predictors, those that a search finds among them. It is not counted
    /// yet: see [`BlockEncoder::sent`].
    ///
    /// # Errors
    /// The first of these that applies:
    ///
    /// - [`EncodeFault::Spent`] after [`BlockEncoder::failed`];
    /// - [`EncodeFault::Setup`] with `BadChannels` if there is not one slice for each channel, `LengthsDiffer` if they
    ///   differ in length, `SampleTooLarge` if a sample does not fit its bits;
    /// - [`EncodeFault::Setup`] with `TooLong` if the stream would have 2^36 samples of each channel or more, or more
    ///   than 2^31 frames;
    /// - [`EncodeFault::Setup`] with `BadBlockSize` if the block has no sample, or more than the block size;
    /// - [`EncodeFault::BlockSize`] if the block before was shorter than the block size;
    /// - [`EncodeFault::Memory`] if an allocation fails.
    ///
    /// The encoder is as it was, also after an error.
    pub fn encode(&mut self, block: &[&[i32]]) -> Result<Vec<u8>, EncodeFault>
        ensures kept { self.new ≡ self.old }
        ensures next { IfOk result (λ bytes. IsNextFrame self.old (block_channels block.now) (bits_of bytes.items)) }
        ensures accepted { OnOk result (push_fault self.old (block_channels block.now) ≡ None) }
        ensures format { OnOk result (shape_fault self.old.shape ≡ None) }
        ensures refused { IfErr result (λ e. IsFirst (push_fault self.old (block_channels block.now)) e) }
        ensures unsent { IfErr result (λ e. e ≢ EncodeFault.Write) }
    {
        if let Some(fault) = self.push_fault(block) {
            return Err(fault);
        }
        let Ok(audio) = self.format.audio(self.alloc, block) else {
            return Err(EncodeFault::Memory);
        };
        let Ok(frame) = searched_frame(
            self.alloc,
            &audio,
            self.predictors.as_slice(),
            &mut self.search,
            self.number,
            &mut self.buffers,
        ) else {
            return Err(EncodeFault::Memory);
        };
        Ok(frame)
    }

    /// Counts the frame of a block, which was put into the container: from now on a block is encoded as the frame
    /// after it. The block must be one that [`BlockEncoder::encode`] does not refuse.
    pub fn sent(&mut self, block: &[&[i32]])
        requires { push_fault self.old (block_channels block.now) ≡ None }
        ensures { self.new ≡ after_block self.old (samples_each (block_channels block.now)) tt }
    {
        let len = block_len(block) as u64;
        self.number += 1;
        self.samples += len;
        self.ended = len < self.format.block_size as u64;
    }

    /// Ends the stream where it is, since a frame could not be put into the container. Nothing more is encoded.
    pub fn failed(&mut self)
        ensures { self.new ≡ spent_with self.old tt }
    {
        self.spent = true;
    }

    /// Whether [`BlockEncoder::failed`] was called.
    pub fn is_spent(&self) -> bool
        ensures { result ≡ self.now.spent }
    {
        self.spent
    }

    /// How many samples of each channel the frames have that were put into the container.
    pub fn samples(&self) -> u64
        ensures value { result ≡ self.now.samples }
        ensures few { result < 2 ^ 36 }
    {
        self.samples
    }
}
