//! The format of a stream that is encoded a block at a time.

ghost use Rattle.std.specs.Prelude.{◌≡◌, None, ◌≤◌, ◌<◌, ◌^◌, map, IfOk, IfErr};
ghost use Rattle.flac_frame.specs.Audio.{samples_each};
ghost use Rattle.flac_frame.specs.Encoding.{most_in};
ghost use Rattle.flac_frame.specs.Frame.{limits_at};
ghost use Rattle.flac_frame.specs.PlaneLists.{lists_of, AreAllWithin};
ghost use Rattle.flac_native.specs.Given.{predictors_fault};
ghost use Rattle.flac_encoder.specs.Pushing.{shape_of, shape_in, shape_fault, open_info, block_fault, block_channels, sound_in, IsFrameAt, IsLeastFrameAt, IsLeastOfPlanesAt};

use flac_bits::{BitWriter, Collected, Why};
use flac_frame::{
    Audio, EncodeBuffers, PlanePredictors, SetupFault, encode_frame_by_plane, format_fault,
    samples_fault,
};
use flac_header::Profile;
use flac_meta::StreamInfo;
use flac_subframe::LinearPredictor;
use std::alloc::Global;

/// The format of a stream that is encoded a block at a time (RFC 9639, sections 7, 8.2 and 9.1).
#[derive(Clone, Copy, Debug, PartialEq, Eq)]
pub struct StreamFormat {
    /// The profile of the stream.
    pub profile: Profile,
    /// The sample rate in Hz: in [`Profile::Subset`] 1 to 65535, or a multiple of 10 up to 655350, in [`Profile::Lax`]
    /// 1 to 1048575.
    pub rate: u32,
    /// The bits per sample: in [`Profile::Subset`] 8, 12, 16, 20, 24 or 32, in [`Profile::Lax`] 4 to 32.
    pub bits: u32,
    /// The number of channels: 1 to 8.
    pub channels: u32,
    /// The samples of each channel in a block: in [`Profile::Subset`] 16 to 16384, at most 4608 if the rate is at most
    /// 48000 Hz, in [`Profile::Lax`] 16 to 65535.
    pub block_size: u32,
}

impl StreamFormat {
    /// The format of the stream that has this STREAMINFO, in a profile. Its block size is the largest that STREAMINFO
    /// states.
    ///
    /// ```
    /// let format = StreamFormat::of(info, Profile::Subset);
    /// let mut encoder = StreamEncoder::new_in(alloc, &format, &blocks, file)?;
    /// ```
    pub fn of(info: &StreamInfo, profile: Profile) -> StreamFormat
        ensures { shape_of result ≡ shape_in profile info.now }
    {
        StreamFormat {
            profile,
            rate: info.rate(),
            bits: u32::from(info.depth()),
            channels: u32::from(info.channels()),
            block_size: u32::from(info.greatest_block()),
        }
    }

    /// Why nothing of the format can be encoded, or `None` if it can: `BadRate`, `BadDepth`, `BadChannels` or
    /// `BadBlockSize`, the first that applies.
    #[tactic(auto, unfolding(crate::specs::Pushing::shape_fault, flac_frame::specs::Setup::format_fault))]
    pub fn fault(&self) -> Option<SetupFault>
        ensures { result ≡ shape_fault (shape_of self.now) }
    {
        let format = format_fault(self.profile, self.rate, self.bits, self.channels as usize);
        if let Some(fault) = format {
            return Some(fault);
        }
        if !self.profile.allows_block(self.block_size, self.rate) {
            return Some(SetupFault::BadBlockSize);
        }
        None
    }

    /// STREAMINFO of the format, in which everything that depends on the samples is unknown (RFC 9639, section 8.2).
    pub(crate) fn open_info(&self) -> StreamInfo
        requires { shape_fault (shape_of self.now) ≡ None }
        ensures { result ≡ open_info (shape_of self.now) }
    {
        StreamInfo::of_format(
            self.block_size as u16,
            self.rate,
            self.channels as u8,
            self.bits as u8,
        )
    }

    /// Why a block of samples does not fit the format, or `None` if it does: `BadChannels` if there is not one slice
    /// for each channel, `LengthsDiffer` if they differ in length, or `SampleTooLarge` if a sample does not fit its
    /// bits, the first that applies. How many samples it has is not judged here.
    ///
    /// The format has 1 to 32 bits per sample, as each has that [`StreamFormat::fault`] does not refuse.
    ///
    /// ```
    /// let fault = format.block_fault(&[left.as_slice(), right.as_slice()]);
    /// ```
    pub fn block_fault(&self, block: &[&[i32]]) -> Option<SetupFault>
        requires { (1 ≤ self.now.bits) × (self.now.bits ≤ 32) }
        ensures { result ≡ block_fault self.now.channels self.now.bits (block_channels block.now) }
    {
        if block.len() as u64 != self.channels as u64 {
            return Some(SetupFault::BadChannels);
        }
        samples_fault(block, self.bits)
    }

    /// Encodes a block of the format as the frame of this number, in memory (RFC 9639, section 9): a shortest frame,
    /// also over these linear predictors. The frame has `number` in its header, counted from 0 and below 2^31 (section
    /// 9.1.5).
    ///
    /// The caller sees to it that nothing is refused: the format and the block have no fault ([`StreamFormat::fault`],
    /// [`StreamFormat::block_fault`]), nor have the predictors ([`flac_native::predictors_fault`]); the block has at
    /// least one sample, and at most as many as the format's blocks; and the buffers were made for the profile and the
    /// block size of the format.
    ///
    /// ```
    /// let mut buffers = EncodeBuffers::new_in(alloc, format.profile, format.block_size)?;
    /// let frame = format.encode_block(alloc, &[], &[left.as_slice(), right.as_slice()], 0, &mut buffers)?;
    /// ```
    ///
    /// # Errors
    /// [`Why::Memory`] if an allocation fails.
    pub fn encode_block(
        &self,
        alloc: Global,
        predictors: &[LinearPredictor],
        block: &[&[i32]],
        number: u64,
        buffers: &mut EncodeBuffers,
    ) -> Result<Vec<u8>, Why>
        requires format { shape_fault (shape_of self.now) ≡ None }
        requires block { block_fault self.now.channels self.now.bits (block_channels block.now) ≡ None }
        requires predictors { predictors_fault self.now.profile self.now.rate predictors.now ≡ None }
        requires some { 0 < samples_each (block_channels block.now) }
        requires size { samples_each (block_channels block.now) ≤ self.now.block_size }
        requires room { self.now.block_size ≤ buffers.old.block }
        requires most { most_in self.now.profile ≤ buffers.old.most }
        requires number { number < 2 ^ 31 }
        ensures kept { buffers.new ≡ buffers.old }
        ensures frame { IfOk result (λ b. IsFrameAt (sound_in self.now block.now) number b.items) }
        ensures least { IfOk result (λ b. IsLeastFrameAt predictors.now (sound_in self.now block.now) number b.items) }
        ensures memory { IfErr result (λ e. e ≡ Why.Memory) }
    {
        let audio = self.audio(alloc, block)?;
        let planes = PlanePredictors::same(predictors);
        frame_bytes(alloc, &audio, &planes, number, buffers)
    }

    /// The samples of a block that fits the format, copied. Its only error is `Memory`: an allocation failed.
    pub(crate) fn audio(&self, alloc: Global, block: &[&[i32]]) -> Result<Audio, Why>
        requires format { shape_fault (shape_of self.now) ≡ None }
        requires block { block_fault self.now.channels self.now.bits (block_channels block.now) ≡ None }
        requires size { samples_each (block_channels block.now) ≤ self.now.block_size }
        ensures samples { IfOk result (λ a. a ≡ sound_in self.now block.now) }
        ensures memory { IfErr result (λ e. e ≡ Why.Memory) }
    {
        let channels = copied(alloc, block)?;
        match Audio::new_in(self.profile, self.rate, self.bits, channels) {
            Ok(audio) => Ok(audio),
            Err(_) => unreachable!(),
        }
    }
}

/// How many samples each channel of a block has, by its first channel; 0 if there is none. It is for encoders that
/// stand on [`StreamFormat::encode_block`], as [`crate::OggEncoder`].
pub fn block_len(block: &[&[i32]]) -> usize
    ensures { result ≡ samples_each (block_channels block.now) }
{
    if block.is_empty() {
        return 0;
    }
    block[0].len()
}

/// The samples of each channel, copied. Its only error is `Memory`: an allocation failed.
fn copied(alloc: Global, block: &[&[i32]]) -> Result<Vec<Vec<i32>>, Why>
    ensures items { IfOk result (λ channels. map (λ c. c.items) channels.items ≡ block_channels block.now) }
    ensures memory { IfErr result (λ e. e ≡ Why.Memory) }
{
    let mut channels = Vec::with_capacity(alloc, block.len())?;
    for channel in block {
        let samples = Vec::from_slice(alloc, channel)?;
        channels.push(samples)?;
    }
    Ok(channels)
}

/// All samples as frame `number`, in memory: a shortest frame over the predictors of each plane. Its only error is
/// `Memory`: an allocation failed.
pub(crate) fn frame_bytes(
    alloc: Global,
    audio: &Audio,
    predictors: &PlanePredictors<'_>,
    number: u64,
    buffers: &mut EncodeBuffers,
) -> Result<Vec<u8>, Why>
    requires some { 0 < samples_each audio.now.channels }
    requires room { samples_each audio.now.channels ≤ buffers.old.block }
    requires most { most_in audio.now.profile ≤ buffers.old.most }
    requires orders { AreAllWithin (limits_at audio.now.profile audio.now.rate).linear (lists_of predictors.now) }
    requires number { number < 2 ^ 31 }
    ensures kept { buffers.new ≡ buffers.old }
    ensures frame { IfOk result (λ b. IsFrameAt audio.now number b.items) }
    ensures least { IfOk result (λ b. IsLeastOfPlanesAt (lists_of predictors.now) audio.now number b.items) }
    ensures memory { IfErr result (λ e. e ≡ Why.Memory) }
{
    let _channels = audio.channels(); // for its clauses alone
    let end = audio.len();
    let mut writer = BitWriter::new(Collected::new(alloc));
    match encode_frame_by_plane(audio, 0..end, number, predictors, buffers, &mut writer) {
        Ok(_) => writer.into_bytes(),
        Err(why) => Err(why.in_memory()),
    }
}
