//! How samples are divided into frames.

ghost use Rattle.std.specs.Prelude.{◌≡◌, ◌<◌, ◌≤◌, ◌*◌, ◌^◌, ◌++◌, [], ◌↔◌, IsTrue, slice_index_or, IfOk, OnOk, IfErr, true, Some, None};
ghost use Rattle.flac_native.specs.Given.{IsRange, blocks_in, has_point, points_before, cut_in, cut_asked, with_predictors, with_found, plane_lists, frame_lists, AreFoundWithin, tried, fits_plan, predictors_fault, cutting_fault, plan_fault, MakesPlan, GetsPredictors};
ghost use Rattle.flac_native.specs.Seeking.{point_at};
ghost use Rattle.flac_frame.specs.Audio.{samples_each};
ghost use Rattle.flac_frame.specs.Frame.{limits_at};
ghost use Rattle.flac_frame.specs.PlaneLists.{lists_of, AreAllWithin};
ghost use Rattle.flac_subframe.specs.format.Handed.{AreWithin};

use crate::found::found_are_within;
use flac_bits::Why;
use flac_frame::{Audio, PlanePredictors, SetupFault, format_fault, greatest_order};
use flac_header::Profile;
use flac_meta::SeekPoint;
use flac_subframe::LinearPredictor;
use std::marker::Model;
use std::ops::Range;

/// The most points that a seek table of one block has: each has 18 bytes, and a block at most 16777215 (RFC 9639,
/// sections 8.1 and 8.5).
const MOST_POINTS: u64 = 932067;

/// The most linear predictors that are given for all frames.
const MOST_PREDICTORS: usize = 64;

/// How samples of one format and length are divided into frames, which frames have a seek point, and which linear
/// predictors are tried for each frame. All frames have the same block size, but the last may be shorter (RFC 9639,
/// section 9.1).
#[derive(Debug)]
pub struct Plan {
    asked: Asked,
    /// `None` stands for an empty list.
    predictors: Option<Vec<LinearPredictor>>,
    /// The lists of the planes of each of the first frames; `None` stands for no frame.
    found: Option<Vec<Vec<Vec<LinearPredictor>>>>,
}

impl Drop for Plan {
    fn drop(self) {
        let Plan {
            asked: _,
            predictors: _,
            found: _,
        } = self;
    }
}

/// What a plan is made of, but for its predictors.
#[derive(Clone, Copy, Debug)]
struct Asked {
    profile: Profile,
    block_size: u32,
    rate: u32,
    bits: u32,
    channels: u64,
    total: u64,
    seek_every: u32,
}

impl Model for Plan {
    ghost use Rattle.std.specs.Prelude.{◌≡◌, None};
    ghost use Rattle.flac_frame.specs.Frame.{limits_at};
    ghost use Rattle.flac_native.specs.Given.{Cut, listed, listed_frames, AreFoundWithin, plan_fault};

    ghost Value = { Cut };

    ghost view = { λ p. record {
      profile = p.asked.profile;
      block_size = p.asked.block_size;
      rate = p.asked.rate;
      bits = p.asked.bits;
      channels = p.asked.channels;
      total = p.asked.total;
      seek_every = p.asked.seek_every;
      predictors = listed p.predictors;
      found = listed_frames p.found;
    } };

    ghost invariant = { λ p. record {
      good : plan_fault (record {
        profile = p.asked.profile;
        block_size = p.asked.block_size;
        rate = p.asked.rate;
        bits = p.asked.bits;
        channels = p.asked.channels;
        total = p.asked.total;
        seek_every = p.asked.seek_every;
        predictors = listed p.predictors;
        found = listed_frames p.found;
      }) ≡ None;
      orders : AreFoundWithin (limits_at p.asked.profile p.asked.rate).linear (listed_frames p.found);
    } };
}

/// Why linear predictors cannot be tried in a profile at a rate in Hz, or `None` if they can: `TooManyPredictors` if
/// there are more than 64, else `PredictorOrder` if an order is above [`greatest_order`] (RFC 9639, sections 7 and
/// 9.2.6).
pub fn predictors_fault(
    profile: Profile,
    rate: u32,
    predictors: &[LinearPredictor],
) -> Option<SetupFault>
    ensures { result ≡ predictors_fault profile rate predictors.now }
{
    if predictors.len() > MOST_PREDICTORS {
        return Some(SetupFault::TooManyPredictors);
    }
    if !LinearPredictor::are_within(predictors, greatest_order(profile, rate)) {
        return Some(SetupFault::PredictorOrder);
    }
    None
}

/// The lists of the planes of the frame of this number; none if it has none.
fn lists_at(frames: &[Vec<Vec<LinearPredictor>>], number: u64) -> &[Vec<LinearPredictor>]
    ensures { plane_lists result.now ≡ slice_index_or (frame_lists frames.now) number [] }
{
    let at = number as usize;
    if at < frames.len() {
        return frames[at].as_slice();
    }
    &[]
}

/// Whether the frame of this number, in blocks of `size` of `total` samples of each channel, has a seek point (RFC
/// 9639, section 8.5): it holds a sample whose index is a multiple of `every`. False if `every` is 0.
#[tactic(auto, unfolding(crate::specs::Given::has_point))]
pub fn has_point(size: u64, total: u64, every: u64, number: u64) -> bool
    requires first { size * number < total }
    requires total { total < 2 ^ 36 }
    requires every { every < 2 ^ 32 }
    ensures { result ≡ has_point size total every number }
{
    if every == 0 {
        return false;
    }
    let start = size * number;
    let end = start + size.min(total - start);
    every * ((start + (every - 1)) / every) < end
}

/// How many frames have a seek point ([`has_point`]), in blocks of `size` of `total` samples of each channel.
pub fn count_points(size: u64, total: u64, every: u64) -> u64
    requires size { 16 ≤ size }
    requires most { size ≤ 65535 }
    requires total { total < 2 ^ 36 }
    requires every { every < 2 ^ 32 }
    ensures { result ≡ points_before size total every (blocks_in size total) }
{
    let blocks = (total + (size - 1)) / size;
    let mut count = 0;
    for number in 0..blocks {
        if has_point(size, total, every, number) {
            count += 1;
        }
    }
    count
}

/// Why samples whose format can be encoded cannot be divided into blocks, or `None` if they can.
#[tactic(auto, unfolding(crate::specs::Given::cutting_fault, crate::specs::Given::predictors_fault))]
fn cutting_fault(asked: &Asked) -> Option<SetupFault>
    ensures { result ≡ cutting_fault (cut_asked asked.now) }
{
    if !asked.profile.allows_block(asked.block_size, asked.rate) {
        return Some(SetupFault::BadBlockSize);
    }
    let size = asked.block_size as u64;
    let total = asked.total;
    if total >= 1 << 36 || (total + (size - 1)) / size > 1 << 31 {
        return Some(SetupFault::TooLong);
    }
    if count_points(size, total, asked.seek_every as u64) > MOST_POINTS {
        return Some(SetupFault::TooManyPoints);
    }
    None
}

/// Why samples of this format and length cannot be divided into blocks, or `None` if they can.
#[tactic(auto, unfolding(crate::specs::Given::plan_fault))]
fn fault_of(asked: &Asked) -> Option<SetupFault>
    ensures { result ≡ plan_fault (cut_asked asked.now) }
{
    let channels = asked.channels as usize;
    if let Some(fault) = format_fault(asked.profile, asked.rate, asked.bits, channels) {
        return Some(fault);
    }
    cutting_fault(asked)
}

impl Plan {
    /// Makes a plan for these samples in the streamable subset (RFC 9639, section 7), with `block_size` samples of each
    /// channel in a frame. If `seek_every` is not 0, each frame that holds a sample whose index is a multiple of it
    /// gets a seek point (section 8.5). It has no linear predictors: see [`Plan::with_predictors`].
    ///
    /// It fits the samples if they are in the subset too, as those of [`Audio::new`] are ([`Plan::fits`]). For others
    /// see [`Plan::new_in`].
    ///
    /// ```
    /// let plan = Plan::new(4096, &audio, 44100)?; // a seek point for each second at 44100 Hz
    /// ```
    ///
    /// # Errors
    /// Those of [`Plan::new_in`] in [`Profile::Subset`].
    pub fn new(block_size: u32, audio: &Audio, seek_every: u32) -> Result<Plan, SetupFault>
        ensures made { MakesPlan (cut_in Profile.Subset block_size audio.now seek_every) result }
        ensures fits { IfOk result (λ p. audio.now.profile ≡ Profile.Subset → fits_plan p audio.now ≡ true) }
    {
        Plan::new_in(Profile::Subset, block_size, audio, seek_every)
    }

    /// Makes a plan as [`Plan::new`] does, in a profile that is named. It fits the samples if they have the same one.
    ///
    /// ```
    /// let plan = Plan::new_in(audio.profile(), 32768, &audio, 0)?; // a plan that fits
    /// ```
    ///
    /// # Errors
    /// The first of these that applies:
    ///
    /// - [`SetupFault::BadRate`] or [`SetupFault::BadDepth`] if the profile does not allow the rate or the bits of the
    ///   samples, which have another profile then;
    /// - [`SetupFault::BadBlockSize`] if the block size is below 16; or if it is above 16384, or above 4608 at a rate
    ///   of 48000 Hz or less, in [`Profile::Subset`] (RFC 9639, section 7); or above 65535 in [`Profile::Lax`];
    /// - [`SetupFault::TooLong`] if there are 2^36 samples of each channel or more, or more than 2^31 frames;
    /// - [`SetupFault::TooManyPoints`] if there would be more than 932067 seek points.
    pub fn new_in(
        profile: Profile,
        block_size: u32,
        audio: &Audio,
        seek_every: u32,
    ) -> Result<Plan, SetupFault>
        ensures made { MakesPlan (cut_in profile block_size audio.now seek_every) result }
        ensures fits { IfOk result (λ p. audio.now.profile ≡ profile → fits_plan p audio.now ≡ true) }
    {
        let asked = Asked {
            profile,
            block_size,
            rate: audio.rate(),
            bits: audio.bits(),
            channels: audio.channels().len() as u64,
            total: audio.len() as u64,
            seek_every,
        };
        if let Some(fault) = fault_of(&asked) {
            return Err(fault);
        }
        Ok(Plan {
            asked,
            predictors: None,
            found: None,
        })
    }

    /// The same plan, with linear predictors that are tried for each subframe beside the constant, verbatim and fixed
    /// ones: at most 64, of orders that the profile allows at the rate, 32 in [`Profile::Lax`] and above 48000 Hz, else
    /// 12 (RFC 9639, sections 7 and 9.2.6). Each frame is then a shortest one over these too. They take the place of
    /// those that the plan had, and the lists of [`Plan::with_found`] are dropped; an empty list is as none.
    ///
    /// ```
    /// let mut predictors = Vec::new(rt.alloc());
    /// if let Some(doubled) = LinearPredictor::new(3, 0, &[2, -1]) {
    ///     predictors.push(doubled)?;
    /// }
    /// let plan = Plan::new(4096, &audio, 0)?.with_predictors(predictors)?;
    /// ```
    ///
    /// # Errors
    /// [`SetupFault::TooManyPredictors`] if there are more than 64, else [`SetupFault::PredictorOrder`] if an order is
    /// too large. The plan is not returned then.
    pub fn with_predictors(self, predictors: Vec<LinearPredictor>) -> Result<Plan, SetupFault>
        ensures { GetsPredictors self predictors.items result }
    {
        let asked = self.asked;
        if let Some(fault) = predictors_fault(asked.profile, asked.rate, predictors.as_slice()) {
            return Err(fault);
        }
        Ok(Plan {
            asked,
            predictors: Some(predictors),
            found: None,
        })
    }

    /// The same plan, with lists of linear predictors for each plane of each frame, from the first frame on. Each frame
    /// is then a shortest one whose subframes are constant, verbatim, by a fixed predictor, or by a linear one of the
    /// list of their own plane. Two channels have four planes, in this order: left, right, side and middle; otherwise
    /// each channel is a plane (RFC 9639, section 4.2). For a plane after the last list of its frame, and in a frame
    /// after the last one that has lists, those of [`Plan::with_predictors`] are tried.
    ///
    /// The lists take the place of those that an earlier call of this function gave. Each order must be at most 32 in
    /// [`Profile::Lax`] and above 48000 Hz, else at most 12 (sections 7 and 9.2.6): [`Plan::takes`] tests it. There
    /// may be any number of lists, and of predictors in each.
    ///
    /// ```
    /// let mut left = Vec::new(rt.alloc());
    /// if let Some(doubled) = LinearPredictor::new(3, 0, &[2, -1]) {
    ///     left.push(doubled)?;
    /// }
    /// let mut first = Vec::new(rt.alloc());
    /// first.push(left)?;
    /// let mut found = Vec::new(rt.alloc());
    /// found.push(first)?;
    /// let mut plan = Plan::new(4096, &audio, 0)?;
    /// if plan.takes(&found) {
    ///     plan = plan.with_found(found);
    /// }
    /// ```
    pub fn with_found(self, found: Vec<Vec<Vec<LinearPredictor>>>) -> Plan
        requires orders { AreFoundWithin (limits_at self.profile self.rate).linear (frame_lists found.items) }
        ensures { result ≡ with_found self (frame_lists found.items) }
    {
        let Plan {
            asked,
            predictors,
            found: _,
        } = self;
        Plan {
            asked,
            predictors,
            found: Some(found),
        }
    }

    /// Whether [`Plan::with_found`] takes these lists: no order in them is above that of the plan's profile and rate.
    pub fn takes(&self, found: &[Vec<Vec<LinearPredictor>>]) -> bool
        ensures { IsTrue result ↔ AreFoundWithin (limits_at self.now.profile self.now.rate).linear
            (frame_lists found.now) }
    {
        found_are_within(found, greatest_order(self.asked.profile, self.asked.rate))
    }

    /// Whether these samples have the profile, rate, depth, channels and length of those that the plan was made for.
    pub fn fits(&self, audio: &Audio) -> bool
        ensures { result ≡ fits_plan self.now audio.now }
    {
        audio.profile() == self.asked.profile
            && self.asked.rate == audio.rate()
            && self.asked.bits == audio.bits()
            && self.asked.channels == audio.channels().len() as u64
            && self.asked.total == audio.len() as u64
    }

    /// The profile of the stream: that of the samples that the plan fits.
    pub fn profile(&self) -> Profile
        ensures { result ≡ self.now.profile }
    {
        self.asked.profile
    }

    /// The linear predictors of the one list, at most 64: those that are tried for a plane that has no list of its own.
    pub fn predictors(&self) -> &[LinearPredictor]
        ensures list { result.now ≡ self.now.predictors }
        ensures orders { AreWithin (limits_at self.now.profile self.now.rate).linear self.now.predictors }
    {
        match &self.predictors {
            Some(predictors) => predictors.as_slice(),
            None => &[],
        }
    }

    /// The linear predictors that are tried for each plane of the frame of a number, counted from 0: those of the
    /// plane's own list ([`Plan::with_found`]), or, if it has none, those of [`Plan::predictors`].
    pub fn predictors_at(&self, number: u64) -> PlanePredictors<'_>
        ensures tried { lists_of result ≡ tried self.now number }
        ensures orders { AreAllWithin (limits_at self.now.profile self.now.rate).linear (lists_of result) }
    {
        PlanePredictors {
            lists: lists_at(self.found(), number),
            others: self.predictors(),
        }
    }

    /// The lists of linear predictors of the first frames.
    fn found(&self) -> &[Vec<Vec<LinearPredictor>>]
        ensures lists { frame_lists result.now ≡ self.now.found }
        ensures orders { AreFoundWithin (limits_at self.now.profile self.now.rate).linear self.now.found }
    {
        match &self.found {
            Some(found) => found.as_slice(),
            None => &[],
        }
    }

    /// How many samples of each channel a frame has: 16 to 16384 in [`Profile::Subset`], 16 to 65535 in
    /// [`Profile::Lax`]. The last frame may have fewer.
    pub fn block_size(&self) -> u32
        ensures value { result ≡ self.now.block_size }
        ensures good { plan_fault self.now ≡ None }
    {
        self.asked.block_size
    }

    /// The distance of seek points in samples, as it was asked for; 0 if there is no seek table.
    pub fn seek_every(&self) -> u32
        ensures { result ≡ self.now.seek_every }
    {
        self.asked.seek_every
    }

    /// The places of the samples of frame `number`, counted from 0, in each channel. The plan must fit the samples, and
    /// have such a frame.
    ///
    /// ```
    /// let range = plan.range(&audio, 1); // 4096..8192, in blocks of 4096
    /// ```
    pub fn range(&self, audio: &Audio, number: u64) -> Range<usize>
        requires fits { fits_plan self.now audio.now ≡ true }
        requires few { number < blocks_in self.now.block_size (samples_each audio.now.channels) }
        ensures range { IsRange self.now audio.now number result.start result.end }
        ensures good { plan_fault self.now ≡ None }
    {
        let size = self.asked.block_size as usize;
        let total = audio.len();
        let start = number as usize * size;
        let end = start + size.min(total - start);
        start..end
    }

    /// Adds the seek point of the frame of this number, if it has one. The frame begins `offset` bytes after the first
    /// one. Its only error is `Memory`: an allocation failed.
    pub(crate) fn note_point(
        &self,
        number: u64,
        offset: u64,
        points: &mut Vec<SeekPoint>,
    ) -> Result<(), Why>
        requires { self.now.block_size * number < self.now.total }
        ensures noted { OnOk result (points.new.items ≡ points.old.items ++ point_at self.now number offset) }
        ensures memory { IfErr result (λ e. e ≡ Why.Memory) }
    {
        let asked = self.asked;
        let size = asked.block_size as u64;
        if has_point(size, asked.total, asked.seek_every as u64, number) {
            let sample = size * number;
            let length = size.min(asked.total - sample) as u16;
            points.push(SeekPoint {
                sample,
                offset,
                length,
            })?;
        }
        Ok(())
    }
}
