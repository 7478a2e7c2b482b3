//! How raw samples are encoded, once it is known how many there are.

ghost use Rattle.std.specs.Prelude.{◌≡◌, None, OnOk};
ghost use Rattle.flac_native.specs.Given.{plan_fault};
ghost use Rattle.flac_raw.specs.Planned.{raw_cut, planned, MakesPlanned};

use flac_frame::{SetupFault, format_fault};
use flac_header::Profile;
use flac_jobs::RawFormat;
use flac_native::{count_points, predictors_fault};
use flac_predict::Search;
use flac_subframe::LinearPredictor;
use std::marker::Model;

/// The most points that a seek table of one block has: each has 18 bytes, and a block at most 16777215 (RFC 9639,
/// sections 8.1 and 8.5).
const MOST_POINTS: u64 = 932067;

/// Why `total` samples of each channel of a format cannot be encoded with these predictors, or `None` if they can.
#[tactic(auto, unfolding(flac_native::specs::Given::plan_fault, flac_native::specs::Given::cutting_fault))]
fn fault_of(
    profile: Profile,
    format: RawFormat,
    total: u64,
    predictors: &[LinearPredictor],
) -> Option<SetupFault>
    ensures { result ≡ plan_fault (raw_cut profile format total predictors.now) }
{
    let channels = format.channels as usize;
    if let Some(fault) = format_fault(profile, format.rate, format.bits, channels) {
        return Some(fault);
    }
    if !profile.allows_block(format.block, format.rate) {
        return Some(SetupFault::BadBlockSize);
    }
    let size = format.block as u64;
    if total >= 1 << 36 || (total + (size - 1)) / size > 1 << 31 {
        return Some(SetupFault::TooLong);
    }
    if count_points(size, total, format.seek_every as u64) > MOST_POINTS {
        return Some(SetupFault::TooManyPoints);
    }
    predictors_fault(profile, format.rate, predictors)
}

/// How raw samples are encoded: their format and number, their division into blocks, and the linear predictors that are
/// tried for each block.
#[derive(Drop)]
pub struct RawPlan {
    pub(crate) profile: Profile,
    pub(crate) format: RawFormat,
    pub(crate) total: u64,
    pub(crate) predictors: Vec<LinearPredictor>,
    pub(crate) search: Option<Search>,
}

impl Model for RawPlan {
    ghost use Rattle.std.specs.Prelude.{◌≡◌, None};
    ghost use Rattle.flac_native.specs.Given.{plan_fault};
    ghost use Rattle.flac_raw.specs.Planned.{Planned, raw_cut};

    ghost Value = { Planned };

    ghost view = { λ p. record {
      profile = p.profile;
      format = p.format;
      total = p.total;
      predictors = p.predictors.items;
      search = p.search;
    } };

    ghost invariant = { λ p. plan_fault (raw_cut p.profile p.format p.total p.predictors.items) ≡ None };
}

impl RawPlan {
    /// Makes a plan for `total` samples of each channel, as [`crate::judge`] counts them. `predictors` are tried for
    /// each block beside the fixed ones, and if there is a search, linear predictors that it finds for the block.
    ///
    /// ```
    /// let plan = RawPlan::new(Profile::Subset, format, total, Vec::new(alloc), Some(Search::Quick))?;
    /// ```
    ///
    /// # Errors
    /// The first of these that applies:
    ///
    /// - [`SetupFault::BadRate`], [`SetupFault::BadDepth`] or [`SetupFault::BadChannels`] if samples of the format
    ///   cannot be encoded (RFC 9639, sections 7 and 9.1);
    /// - [`SetupFault::BadBlockSize`] if the block size is below 16, or above what the profile allows at the rate
    ///   (sections 7 and 8.2);
    /// - [`SetupFault::TooLong`] for 2^36 samples of each channel or more, or more than 2^31 frames;
    /// - [`SetupFault::TooManyPoints`] for more than 932067 seek points (section 8.5);
    /// - [`SetupFault::TooManyPredictors`] for more than 64 predictors, [`SetupFault::PredictorOrder`] if an order is
    ///   too large (section 7).
    pub fn new(
        profile: Profile,
        format: RawFormat,
        total: u64,
        predictors: Vec<LinearPredictor>,
        search: Option<Search>,
    ) -> Result<RawPlan, SetupFault>
        ensures made { MakesPlanned (planned profile format total predictors.items search) result }
        ensures good { OnOk result (plan_fault (raw_cut profile format total predictors.items) ≡ None) }
    {
        if let Some(fault) = fault_of(profile, format, total, predictors.as_slice()) {
            return Err(fault);
        }
        Ok(RawPlan {
            profile,
            format,
            total,
            predictors,
            search,
        })
    }
}
