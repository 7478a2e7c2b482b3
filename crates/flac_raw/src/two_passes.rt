//! Raw samples that are read twice: judged first, and then encoded.

ghost use Rattle.std.specs.Prelude.{◌≡◌, true, IfOk, IfErr, OnOk};
ghost use Rattle.flac_raw.specs.Reading.{IfKnown};
ghost use Rattle.flac_raw.specs.Encoded.{FailsLeft};
ghost use Rattle.flac_raw.specs.Twice.{SendsAsked, AreAccepted, StopsBoth};

use crate::judging::judge;
use crate::raw_fault::RawEncodeFault;
use crate::raw_plan::RawPlan;
use crate::second_pass::encode_judged;
use flac_bits::Source;
use flac_draft::Rewritable;
use flac_header::Profile;
use flac_jobs::RawFormat;
use flac_meta::BlockList;
use flac_predict::Search;
use flac_subframe::LinearPredictor;
use std::alloc::Global;

/// What an encoding of raw samples is asked for.
#[derive(Drop)]
pub struct RawEncoding {
    /// The profile of the stream.
    pub profile: Profile,
    /// The format of the samples, and how they are divided into blocks.
    pub format: RawFormat,
    /// Linear predictors that are tried for each block beside the fixed ones.
    pub predictors: Vec<LinearPredictor>,
    /// How far others are sought for each block, if they are.
    pub search: Option<Search>,
    /// The blocks after STREAMINFO.
    pub list: BlockList,
}

/// Encodes raw samples that can be read twice, as those of a file, and returns the target, which has the whole
/// stream: that which [`flac_native::encode`] writes of the same samples. The first source is judged ([`judge`]),
/// then the second is encoded block by block ([`encode_judged`]). It has the same bytes, once more from the first on.
/// One block is held.
///
/// ```
/// let out = encode_twice(alloc, encoding, &mut file, &mut same_file, DraftFile::new(out)?)?;
/// ```
///
/// # Errors
/// The first reason for which the samples cannot be encoded, before anything is sent: [`RawEncodeFault::Raw`] with
/// the errors of [`judge`], then with those of [`RawPlan::new`]; `RepeatedBlock` if the list has a seek table and the
/// format asks for one. Else those of [`encode_judged`], after which what was sent is no whole stream.
pub fn encode_twice<A: Source, R: Source, W: Rewritable + Drop>(
    alloc: Global,
    encoding: RawEncoding,
    first: &mut A,
    second: &mut R,
    target: W,
) -> Result<W, RawEncodeFault>
    ensures written { IfOk result (λ out. SendsAsked R.Source W.Target encoding second.old target out) }
    ensures accepted { OnOk result (IfKnown A.Source first.old (AreAccepted encoding)) }
    ensures refused { IfErr result
        (λ e. StopsBoth A.Source R.Source encoding first.old first.new second.old second.new e) }
    ensures known { IfOk result (λ out. W.known target ≡ true → W.known out ≡ true) }
    ensures counted { IfOk result (λ out. W.errors out ≡ W.errors target) }
    ensures names { IfOk result (λ out. W.names out ≡ W.names target) }
    // An error of the target is counted.
    ensures failed { IfErr result (λ e. FailsLeft W.Target target e) }
{
    let RawEncoding {
        profile,
        format,
        predictors,
        search,
        list,
    } = encoding;
    let total = judge(alloc, first, profile, format)?;
    let plan = RawPlan::new(profile, format, total, predictors, search)?;
    let out = encode_judged(alloc, plan, list, second, target)?;
    Ok(out)
}
