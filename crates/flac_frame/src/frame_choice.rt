//! How a block of samples is written as a frame.

ghost use Rattle.std.specs.Prelude.{◌≡◌, ◌≤◌, length, IfOk, IfErr, Some};
ghost use Rattle.flac_header.specs.Assignment.{code_of, IsAssignment};
ghost use Rattle.flac_header.specs.Header.{Header};
ghost use Rattle.flac_frame.specs.Chosen.{HasPlaces, SameWith, SameByPlane, IsMadeWith, IsMadeByPlane, HasBytesWith, HasBytesByPlane};
ghost use Rattle.flac_frame.specs.Encoding.{most_in, header_choice};
ghost use Rattle.flac_frame.specs.inner.Pair.{IsPairCode};

use crate::audio::Audio;
use crate::limits::limits_at;
use flac_bits::Why;
use flac_header::{ChannelAssignment, FrameHeader, Profile};
use flac_subframe::WideChoice;
use std::alloc::Global;

/// How a block of samples is written as a frame, as [`crate::choose_frame`] chooses it: the channel code, and the
/// subframe of each channel (RFC 9639, section 9). It has no samples. For each channel it takes some 340 bytes in
/// [`Profile::Subset`], and some 33 kB in [`Profile::Lax`]; a copy that [`FrameChoice::kept`] makes takes one byte for
/// each partition of its residuals.
pub struct FrameChoice {
    pub(crate) code: u8,
    pub(crate) bits: u64,
    pub(crate) subframes: Vec<WideChoice>,
}

impl Drop for FrameChoice {
    fn drop(self) {
        let FrameChoice {
            code: _,
            bits: _,
            subframes: _,
        } = self;
    }
}

impl FrameChoice {
    /// Allocates places for the subframes of `channels` channels in a profile. Nothing is chosen yet.
    ///
    /// # Errors
    /// [`Why::Memory`] if an allocation fails.
    pub fn new(alloc: Global, profile: Profile, channels: usize) -> Result<FrameChoice, Why>
        ensures places { IfOk result (HasPlaces channels (most_in profile)) }
        ensures many { IfOk result (λ c. length c.subframes.items ≡ channels) }
        ensures memory { IfErr result (λ e. e ≡ Why.Memory) }
    {
        let limits = limits_at(profile, 0);
        let mut subframes = Vec::with_capacity(alloc, channels)?;
        for channel in 0..channels {
            let _channel = channel;
            subframes.push(WideChoice::new(alloc, &limits)?)?;
        }
        Ok(FrameChoice {
            code: 0,
            bits: 0,
            subframes,
        })
    }

    /// Copies the choice into as little memory as it needs: one byte for each partition of its residuals. The copy can
    /// be written, and is no place for another choice.
    ///
    /// # Errors
    /// [`Why::Memory`] if an allocation fails.
    pub fn kept(&self, alloc: Global) -> Result<FrameChoice, Why>
        ensures same { IfOk result (SameWith self.now) }
        ensures same_by_plane { IfOk result (SameByPlane self.now) }
        ensures many { IfOk result (λ c. length c.subframes.items ≡ length self.now.subframes.items) }
        ensures memory { IfErr result (λ e. e ≡ Why.Memory) }
    {
        let own = self.subframes.as_slice();
        let mut subframes = Vec::with_capacity(alloc, own.len())?;
        for channel in 0..own.len() {
            subframes.push(own[channel].kept(alloc)?)?;
        }
        Ok(FrameChoice {
            code: self.code,
            bits: self.bits,
            subframes,
        })
    }

    /// How the two channels are stored.
    pub(crate) fn assignment(&self) -> ChannelAssignment
        requires { IsPairCode self.now.code }
        ensures code { code_of result ≡ self.now.code }
        ensures valid { IsAssignment result }
    {
        let Some(assignment) = ChannelAssignment::from_code(self.code) else {
            unreachable!();
        };
        assignment
    }

    /// The header of the frame that was chosen for a block of `size` samples of each channel and this number.
    pub(crate) fn header(&self, audio: &Audio, size: usize, number: u64) -> FrameHeader
        requires few { size ≤ 65535 }
        requires chosen { (header : Header) × header_choice audio.now size self.now.code number ≡ Some header }
        ensures { header_choice audio.now size self.now.code number ≡ Some result }
    {
        let header = FrameHeader::chosen_in(
            audio.profile(),
            size as u32,
            audio.rate(),
            self.code,
            audio.bits(),
            number,
        );
        let Some(header) = header else {
            unreachable!();
        };
        header
    }

    /// How many bytes the frame has that was chosen for a block of `size` samples of each channel and this number, 1 to
    /// 16777215. Nothing is written.
    pub fn frame_bytes(&self, audio: &Audio, size: usize, number: u64) -> u64
        requires few { size ≤ 65535 }
        requires chosen { IsMadeWith audio.now size number self.now }
        ensures bytes { HasBytesWith audio.now size number self.now result }
        ensures few { (1 ≤ result) × (result ≤ 16777215) }
    {
        self.frame_bytes_by_plane(audio, size, number)
    }

    /// What [`FrameChoice::frame_bytes`] returns, for a choice with a list of linear predictors for each plane.
    pub fn frame_bytes_by_plane(&self, audio: &Audio, size: usize, number: u64) -> u64
        requires few { size ≤ 65535 }
        requires chosen { IsMadeByPlane audio.now size number self.now }
        ensures bytes { HasBytesByPlane audio.now size number self.now result }
        ensures few { (1 ≤ result) × (result ≤ 16777215) }
    {
        let header = self.header(audio, size, number);
        header.bytes() + (self.bits + 7) / 8 + 2
    }
}
