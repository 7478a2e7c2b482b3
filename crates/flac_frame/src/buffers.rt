//! Buffers for the samples of a frame.

ghost use Rattle.std.specs.Prelude.{◌≡◌, ◌≤◌, ◌<◌, ◌*◌, Some, OnOk, OnErr, IfOk, IfErr, ⊤};
ghost use Rattle.flac_frame.specs.Frame.{longest_block, after_frame};
ghost use Rattle.flac_frame.specs.Kept.{nothing, empty, ReadsFrame, Leaves};
ghost use Rattle.flac_frame.specs.inner.Reading.{ReadsAnyFrame};
ghost use Rattle.flac_frame.specs.Viewed.{frame_of};
ghost use Rattle.std.specs.Borrow.{sem, follows_so};
ghost use mathlib.Core.Option.{none};
ghost use Rattle.flac_frame.specs.contracts.buffers.FrameBuffers.{the_row};

use crate::before::Before;
use crate::frame_reading::read_into;
use crate::view::FrameView;
use flac_bits::{BitReader, Source, Why};
use flac_header::{BlockingStrategy, Profile};
use flac_info::StreamInfo;
use std::alloc::Global;
use std::marker::Model;

/// The most bytes that a frame can have: STREAMINFO states the sizes of frames in 24 bits (RFC 9639, section 8.2).
pub const LONGEST_FRAME: u64 = 16777215;

/// Buffers that the frames of a stream are read into, one after another. They are allocated once. They also keep what
/// the next frame depends on: its number, the blocking strategy and the block size must follow from the frames before.
///
/// ```
/// let mut buffers = FrameBuffers::new(alloc, 2, 4096)?;
/// let frame = buffers.read_frame(&mut bits, &info, Profile::Subset)?;
/// ```
pub struct FrameBuffers {
    wide: Vec<i64>,
    narrow: Vec<i32>,
    channels: usize,
    max_block: usize,
    before: Option<Before>,
    strategy: BlockingStrategy,
    number: u64,
    block: usize,
    used: usize,
}

impl Drop for FrameBuffers {
    fn drop(self) {
        let FrameBuffers {
            wide: _,
            narrow: _,
            channels: _,
            max_block: _,
            before: _,
            strategy: _,
            number: _,
            block: _,
            used: _,
        } = self;
    }
}

impl Model for FrameBuffers {
    ghost use Rattle.std.specs.Prelude.{◌≡◌, ◌*◌, ◌≤◌, ◌<◌, ◌^◌, vec_len, take};
    ghost use Rattle.flac_header.specs.Strategy.{is_variable};
    ghost use Rattle.flac_frame.specs.Kept.{Kept};
    ghost use Rattle.flac_frame.specs.View.{chunks};

    ghost Value = { Kept };

    ghost view = { λ b. record {
      channels = b.channels;
      max_block = b.max_block;
      before = b.before;
      held = record { variable = is_variable b.strategy; number = b.number; size = b.block; channels = chunks b.used b.block (take (b.used * b.block) b.narrow.items) };
    } };

    ghost invariant = { λ b. record {
      wide : vec_len b.wide ≡ b.channels * b.max_block;
      narrow : vec_len b.narrow ≡ b.channels * b.max_block;
      channels : b.channels ≤ 8;
      max_block : b.max_block ≤ 65535;
      used : b.used ≤ b.channels;
      block : b.block ≤ b.max_block;
      number : b.number < 2 ^ 36;
    } };
}

impl FrameBuffers {
    /// Allocates buffers for frames of at most `channels` channels, at most 8, and at most `max_block` samples of each
    /// channel, at most 65535.
    ///
    /// # Errors
    /// [`Why::Memory`] if an allocation fails.
    pub fn new(alloc: Global, channels: u32, max_block: u32) -> Result<FrameBuffers, Why>
        requires channels { channels ≤ 8 }
        requires max_block { max_block ≤ 65535 }
        ensures ok { IfOk result (λ b. b ≡ empty channels max_block) }
        ensures err { IfErr result (λ e. e ≡ Why.Memory) }
    {
        let channels = channels as usize;
        let max_block = max_block as usize;
        let places = channels * max_block;
        let wide = vec![in alloc; 0i64; places]?;
        let narrow = vec![in alloc; 0i32; places]?;
        Ok(FrameBuffers {
            wide,
            narrow,
            channels,
            max_block,
            before: None,
            strategy: BlockingStrategy::Fixed,
            number: 0,
            block: 0,
            used: 0,
        })
    }

    /// Empties the buffers, which then are as [`FrameBuffers::new`] returns them, and keeps their room: the next frame may
    /// have any number, and either blocking strategy. A reader calls it before a frame that need not follow the one that
    /// was read last, as after a damaged part of a stream. It allocates nothing.
    ///
    /// ```
    /// buffers.anew();
    /// let frame = buffers.read_frame(&mut bits, &info, Profile::Subset)?;
    /// ```
    pub fn anew(&mut self)
        ensures { self.new ≡ empty self.old.channels self.old.max_block }
    {
        self.before = None;
        self.strategy = BlockingStrategy::Fixed;
        self.number = 0;
        self.block = 0;
        self.used = 0;
    }

    /// Reads the next frame into the buffers, where [`FrameBuffers::view`] lends it (RFC 9639, section 9). The reader
    /// should be at a whole byte: there the checks begin anew. The frame must agree with STREAMINFO, follow the frames
    /// before, and have at most 16777215 bytes. A fence of the caller ([`BitReader::fence`]) is lifted, also by an error.
    ///
    /// The buffers must have room for the channels of STREAMINFO, and for its largest block size or the profile's,
    /// whichever is smaller.
    ///
    /// # Errors
    /// The error of the field that ends first. Then the buffers have no frame, and what the next frame depends on is as
    /// before.
    ///
    /// - Those of [`flac_header::read_header`].
    /// - [`Why::NotSubset`] if the profile is [`Profile::Subset`] and a field is outside the streamable subset
    ///   (section 7).
    /// - [`Why::HeaderMismatch`] if the rate, the number of channels or the depth is not that of STREAMINFO.
    /// - [`Why::Sequence`] if the number does not follow the frame before, or the blocking strategy changes.
    /// - [`Why::BlockSize`] if the block size does not fit STREAMINFO or the blocks before it.
    /// - [`Why::BadSubframe`], [`Why::BadPredictor`], [`Why::BadPartition`] or [`Why::ResidualRange`] in a subframe
    ///   (section 9.2).
    /// - [`Why::NonzeroPadding`] or [`Why::FrameCheck`] at the end of the frame (section 9.3).
    /// - [`Why::SampleRange`] if the CRC-16 is right, and a sample does not fit its depth.
    /// - [`Why::FrameTooLong`] if it goes on after 16777215 bytes, all of which the source has.
    /// - Those of [`BitReader`]. Never [`Why::Memory`].
    pub fn fill<R: Source>(
        &mut self,
        bits: &mut BitReader<R>,
        info: &StreamInfo,
        profile: Profile,
    ) -> Result<(), Why>
        requires channels { info.now.channels ≤ self.old.channels }
        requires block { longest_block profile info.now ≤ self.old.max_block }
        ensures room { (self.new.channels ≡ self.old.channels) × (self.new.max_block ≡ self.old.max_block) }
        ensures before { OnOk result (self.new.before ≡ Some (after_frame self.old.before self.new.held)) }
        ensures refused { OnErr result ((self.new.before ≡ self.old.before) × (self.new.held ≡ nothing)) }
        ensures reading { ReadsFrame (λ _. self.new.held) profile info.now self.old.before bits.old bits.new result }
    {
        bits.fence(LONGEST_FRAME);
        let outcome = self.read_in(bits, info, profile);
        bits.lift();
        outcome
    }

    /// Reads the next frame into the buffers, of any length up to a fence.
    fn read_in<R: Source>(
        &mut self,
        bits: &mut BitReader<R>,
        info: &StreamInfo,
        profile: Profile,
    ) -> Result<(), Why>
        requires channels { info.now.channels ≤ self.old.channels }
        requires block { longest_block profile info.now ≤ self.old.max_block }
        ensures room { (self.new.channels ≡ self.old.channels) × (self.new.max_block ≡ self.old.max_block) }
        ensures before { OnOk result (self.new.before ≡ Some (after_frame self.old.before self.new.held)) }
        ensures refused { OnErr result ((self.new.before ≡ self.old.before) × (self.new.held ≡ nothing)) }
        ensures reading { ReadsAnyFrame (λ _. self.new.held) profile info.now self.old.before bits.old bits.new result }
    {
        self.strategy = BlockingStrategy::Fixed;
        self.number = 0;
        self.block = 0;
        self.used = 0;
        let header = read_into(
            bits,
            info,
            profile,
            &self.before,
            &mut self.wide,
            &mut self.narrow,
        )?;
        self.before = Some(Before::after(&self.before, &header));
        self.strategy = header.blocking_strategy();
        self.number = header.number();
        self.block = header.size() as usize;
        self.used = info.channels() as usize;
        Ok(())
    }

    /// Lends the frame that was read last. It has no channels if none was read, or if the last one was refused.
    pub fn view(&self) -> FrameView<'_>
        ensures { frame_of result ≡ self.now.held }
    {
        let places = self.used * self.block;
        FrameView {
            samples: &self.narrow[..places],
            channels: self.used,
            block: self.block,
            strategy: self.strategy,
            number: self.number,
        }
    }

    /// Reads the next frame as [`FrameBuffers::fill`] does, and lends it.
    ///
    /// # Errors
    /// Those of [`FrameBuffers::fill`].
    pub fn read_frame<R: Source>(
        &mut self,
        bits: &mut BitReader<R>,
        info: &StreamInfo,
        profile: Profile,
    ) -> Result<FrameView<'_>, Why>
        requires channels { info.now.channels ≤ self.old.channels }
        requires block { longest_block profile info.now ≤ self.old.max_block }
        ensures reading { ReadsFrame frame_of profile info.now self.old.before bits.old bits.new result }
        ensures* after { sem 𝓛 (follows_so the_row the_row self.entry.ghost_name none (λ _ _. ⊤)
            (λ last. Leaves self.old last frame_of result)) }
    {
        self.fill(bits, info, profile)?;
        Ok(self.view())
    }
}
