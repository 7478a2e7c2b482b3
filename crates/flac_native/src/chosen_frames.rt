//! The frames of a stream: chosen before any of them is written, and then written one after another.

ghost use Rattle.std.specs.Prelude.{◌≡◌, ◌≤◌, ◌<◌, ◌^◌, min, max, cond, nat_eq, true, IfOk, IfErr, OnOk, None, ◌+◌, ◌-◌};
ghost use Rattle.flac_meta.specs.Listed.{block_fault};
ghost use Rattle.flac_meta.specs.declared.block.Block.TheVariants as blocks;
ghost use Rattle.flac_bits.specs.Bits.{bits_of};
ghost use Rattle.flac_frame.specs.Audio.{samples_each};
ghost use Rattle.flac_frame.specs.declared.frame_choice.FrameChoice.{FrameChoice};
ghost use Rattle.flac_native.specs.Given.{fits_plan, blocks_in, info_of, room_of};
ghost use Rattle.flac_native.specs.Writing.{AreCounted, AreChoices, HasRoom, IsDigest, IsSpelled};
ghost use Rattle.flac_native.specs.inner.Writing.{KeepsUpTo, IsReady, HaveFrames, WritesChosen, WritesNext, WritesFrames};

use crate::digest::{digest_of, feed_block};
use crate::plan::Plan;
use crate::targets::FixedBuffer;
use flac_bits::{BitWriter, Target, Why};
use flac_frame::{
    Audio, EncodeBuffers, FrameChoice, choose_frame_by_plane, encode_frame_by_plane,
    write_frame_by_plane,
};
use flac_meta::{SeekPoint, StreamInfo};
use md5::{Digest, Md5};
use std::alloc::Global;

/// One choice is kept for each 192 samples of each channel, the smallest block size that a code names (RFC 9639,
/// section 9.1.1). It takes some 80 bytes for each channel, and one for each partition of its residual; a sample takes
/// 4.
const KEPT: usize = 192;

/// How the frames of a plan are written, chosen before any of them is written: the sizes of the frames, and the choices
/// of the first ones (RFC 9639, section 9).
///
/// For n samples of each channel the choices of the first n / 192 + 1 frames are kept: all, if blocks have 192 samples
/// or more. They take a thirtieth of the memory of the samples in blocks of 1024, a seventh in blocks of 256, and never
/// more than half. Frames without a choice are chosen again when they are written; each choice is a shortest frame of
/// its block, so the sizes are the same.
///
/// ```
/// let mut buffers = EncodeBuffers::new_in(alloc, plan.profile(), plan.block_size())?;
/// let frames = ChosenFrames::new(alloc, &plan, &audio, &mut buffers)?;
/// let mut room = frames.room(alloc)?;
/// room = frames.write(&plan, &audio, 0, &mut buffers, room);
/// file.write_all(room.bytes())?;
/// ```
#[derive(Drop)]
pub struct ChosenFrames {
    pub(crate) least: u32,
    pub(crate) greatest: u32,
    pub(crate) points: Vec<SeekPoint>,
    pub(crate) choices: Vec<FrameChoice>,
    pub(crate) digest: [u8; 16],
}

/// The smallest size after one more, which is that one if there was none.
fn least_with(count: u64, least: u64, bytes: u64) -> u64
    ensures { result ≡ cond (nat_eq count 0) bytes (min least bytes) }
{
    if count == 0 { bytes } else { least.min(bytes) }
}

/// The largest size after one more.
fn greatest_with(greatest: u64, bytes: u64) -> u64
    ensures { result ≡ max greatest bytes }
{
    if greatest < bytes { bytes } else { greatest }
}

/// Keeps a choice, in as little memory as it needs, if fewer than `most` are kept.
fn keep(
    alloc: Global,
    choices: &mut Vec<FrameChoice>,
    choice: &FrameChoice,
    most: usize,
) -> Result<(), Why>
    // proof only
    ensures kept { OnOk result (KeepsUpTo most choice.now choices.old.items choices.new.items) }
    ensures memory { IfErr result (λ e. e ≡ Why.Memory) }
{
    if choices.len() >= most {
        return Ok(());
    }
    let kept = choice.kept(alloc)?;
    choices.push(kept)?;
    Ok(())
}

impl ChosenFrames {
    /// Chooses how each frame is written, counts its bytes, and computes the digest of the samples. The plan must fit
    /// the samples, and the buffers must have the plan's profile and block size.
    ///
    /// # Errors
    /// [`Why::Memory`] if an allocation fails.
    pub fn new(
        alloc: Global,
        plan: &Plan,
        audio: &Audio,
        buffers: &mut EncodeBuffers,
    ) -> Result<ChosenFrames, Why>
        requires fits { fits_plan plan.now audio.now ≡ true }
        requires room { buffers.old ≡ room_of plan.now }
        ensures kept { buffers.new ≡ buffers.old }
        ensures counted { IfOk result (λ f. AreCounted plan.now audio.now f.least f.greatest f.points.items) }
        ensures choices { IfOk result (λ f. AreChoices plan.now audio.now f.choices.items) }
        ensures table { IfOk result (λ f. block_fault (blocks.SeekTable f.points.items) ≡ None) }
        ensures sizes { IfOk result (λ f. (f.least ≤ f.greatest) × (f.greatest < 2 ^ 24)) }
        ensures digest { IfOk result (λ f. IsDigest audio.now f.digest) }
        ensures memory { IfErr result (λ e. e ≡ Why.Memory) }
    {
        let _size = plan.block_size(); // for its clause alone
        let total = audio.len();
        let channels = audio.channels().len();
        let most = total / KEPT + 1;
        let mut choices = Vec::new(alloc);
        let mut choice = FrameChoice::new(alloc, plan.profile(), channels)?;
        let mut points = Vec::new(alloc);
        let mut least = 0;
        let mut greatest = 0;
        let mut hasher = Md5::new();
        let mut offset = 0;
        let mut number = 0;
        let mut start = 0;
        while start < total {
            let range = plan.range(audio, number);
            let end = range.end;
            let len = end - range.start;
            plan.note_point(number, offset, &mut points)?;
            feed_block(&mut hasher, audio, range.start, len);
            let predictors = plan.predictors_at(number);
            choose_frame_by_plane(audio, range, number, &predictors, buffers, &mut choice);
            let bytes = choice.frame_bytes_by_plane(audio, len, number);
            keep(alloc, &mut choices, &choice, most)?;
            least = least_with(number, least, bytes);
            greatest = greatest_with(greatest, bytes);
            offset += bytes;
            number += 1;
            start = end;
        }
        Ok(ChosenFrames {
            least: least as u32,
            greatest: greatest as u32,
            points,
            choices,
            digest: hasher.finalize(),
        })
    }

    /// STREAMINFO of the samples, with the sizes of the frames and the MD5 digest (RFC 9639, section 8.2). The plan and
    /// the samples must be those of the choice.
    pub fn info(&self, plan: &Plan, audio: &Audio) -> StreamInfo
        requires fits { fits_plan plan.now audio.now ≡ true }
        requires sizes { (self.now.least ≤ self.now.greatest) × (self.now.greatest < 2 ^ 24) }
        requires digest { IsDigest audio.now self.now.digest }
        ensures { result ≡ info_of plan.now audio.now self.now.least self.now.greatest }
    {
        info_with(plan, audio, self.least, self.greatest, self.digest)
    }

    /// The number of bytes of the shortest frame, below 2^24; 0 if there is no frame.
    pub fn least(&self) -> u32
        ensures { result ≡ self.now.least }
    {
        self.least
    }

    /// The number of bytes of the longest frame, below 2^24; 0 if there is no frame.
    pub fn greatest(&self) -> u32
        ensures { result ≡ self.now.greatest }
    {
        self.greatest
    }

    /// Allocates a place for the longest frame.
    ///
    /// # Errors
    /// [`Why::Memory`] if the allocation fails.
    pub fn room(&self, alloc: Global) -> Result<FixedBuffer, Why>
        ensures places { IfOk result (λ room. room.places ≡ self.now.greatest) }
        ensures memory { IfErr result (λ e. e ≡ Why.Memory) }
    {
        FixedBuffer::new(alloc, self.greatest as usize)
    }

    /// Writes frame `number`, counted from 0, into a place for the longest frame, in place of what is there. The plan,
    /// the samples, and the profile and block size of the buffers must be those of the choice.
    pub fn write(
        &self,
        plan: &Plan,
        audio: &Audio,
        number: u64,
        buffers: &mut EncodeBuffers,
        room: FixedBuffer,
    ) -> FixedBuffer
        requires fits { fits_plan plan.now audio.now ≡ true }
        requires choices { AreChoices plan.now audio.now self.now.choices.items }
        requires buffers { buffers.old ≡ room_of plan.now }
        requires few { number < blocks_in plan.now.block_size (samples_each audio.now.channels) }
        requires room { HasRoom plan.now audio.now room.places }
        ensures kept { buffers.new ≡ buffers.old }
        ensures places { result.places ≡ room.places }
        ensures frame { IsSpelled plan.now audio.now number (bits_of result.bytes.items) }
    {
        let choices = self.choices.as_slice();
        let mut writer = BitWriter::new(room.emptied());
        let outcome = write_next(plan, audio, number, choices, buffers, &mut writer);
        let room = writer.into_target();
        match outcome {
            Ok(()) => room,
            Err(_) => unreachable!(),
        }
    }
}

/// [`info_of`] for samples whose MD5 digest is `digest`.
fn info_with(plan: &Plan, audio: &Audio, least: u32, greatest: u32, digest: [u8; 16]) -> StreamInfo
    requires fits { fits_plan plan.now audio.now ≡ true }
    requires least { least ≤ greatest }
    requires greatest { greatest < 2 ^ 24 }
    requires digest { IsDigest audio.now digest }
    ensures { result ≡ info_of plan.now audio.now least greatest }
{
    let size = plan.block_size() as u16;
    let channels = audio.channels().len() as u8;
    let bits = audio.bits() as u8;
    let total = audio.len() as u64;
    let info = StreamInfo::new(
        size,
        size,
        least,
        greatest,
        audio.rate(),
        channels,
        bits,
        total,
        digest,
    );
    match info {
        Ok(info) => info,
        Err(_) => unreachable!(),
    }
}

/// STREAMINFO of samples in a plan that fits them ([`Plan::fits`]): `least` and `greatest` are the sizes of the
/// shortest and the longest frame in bytes, below 2^24, or 0 if there is no frame (RFC 9639, section 8.2). It states
/// the number of samples and their MD5 digest. [`ChosenFrames::info`] has the sizes of frames that were chosen.
///
/// ```
/// let info = info_of(&plan, &audio, 14, 15);
/// ```
pub fn info_of(plan: &Plan, audio: &Audio, least: u32, greatest: u32) -> StreamInfo
    requires fits { fits_plan plan.now audio.now ≡ true }
    requires least { least ≤ greatest }
    requires greatest { greatest < 2 ^ 24 }
    ensures { result ≡ info_of plan.now audio.now least greatest }
{
    info_with(plan, audio, least, greatest, digest_of(audio))
}

/// Writes frame `number` as it was chosen; if the choice was not kept, it is made again.
fn write_chosen<W: Target>(
    plan: &Plan,
    audio: &Audio,
    number: u64,
    choices: &[FrameChoice],
    buffers: &mut EncodeBuffers,
    writer: &mut BitWriter<W>,
) -> Result<(), Why>
    requires ready { IsReady plan.now audio.now number choices.now buffers.old }
    requires whole { writer.old.mark.unread ≡ 0 }
    ensures kept { buffers.new ≡ buffers.old }
    ensures wrote { WritesChosen plan.now audio.now number writer.old writer.new result }
{
    let range = plan.range(audio, number);
    let predictors = plan.predictors_at(number);
    let at = number as usize;
    if at < choices.len() {
        let choice = &choices[at];
        return write_frame_by_plane(audio, range, number, choice, &predictors, buffers, writer);
    }
    match encode_frame_by_plane(audio, range, number, &predictors, buffers, writer) {
        Ok(_) => Ok(()),
        Err(why) => Err(why),
    }
}

/// Writes frame `number`, and sends what the writer holds.
fn write_next<W: Target>(
    plan: &Plan,
    audio: &Audio,
    number: u64,
    choices: &[FrameChoice],
    buffers: &mut EncodeBuffers,
    writer: &mut BitWriter<W>,
) -> Result<(), Why>
    requires ready { IsReady plan.now audio.now number choices.now buffers.old }
    requires whole { writer.old.mark.unread ≡ 0 }
    ensures kept { buffers.new ≡ buffers.old }
    ensures wrote { WritesNext plan.now audio.now number writer.old writer.new result }
{
    write_chosen(plan, audio, number, choices, buffers, writer)?;
    writer.finish()
}

/// Writes all frames, one after another, at a whole byte.
pub(crate) fn write_frames<W: Target>(
    plan: &Plan,
    audio: &Audio,
    choices: &[FrameChoice],
    buffers: &mut EncodeBuffers,
    writer: &mut BitWriter<W>,
) -> Result<(), Why>
    requires fits { fits_plan plan.now audio.now ≡ true }
    requires frames { HaveFrames plan.now audio.now }
    requires buffers { buffers.old ≡ room_of plan.now }
    requires choices { AreChoices plan.now audio.now choices.now }
    requires whole { writer.old.mark.unread ≡ 0 }
    ensures { WritesFrames plan.now audio.now writer.old writer.new result }
{
    let size = plan.block_size() as usize;
    let total = audio.len();
    let mut number = 0;
    let mut start = 0;
    while start < total {
        write_chosen(plan, audio, number, choices, buffers, writer)?;
        number += 1;
        start += size;
    }
    Ok(())
}
