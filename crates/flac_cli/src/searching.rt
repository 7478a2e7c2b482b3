//! The search for linear predictors.

ghost use Rattle.std.specs.Prelude.{◌≡◌, [], true, IfOk, IfErr};
ghost use Rattle.flac_native.specs.Given.{fits_plan};
ghost use Rattle.flac_cli.specs.inner.Searching.{search_of, IsSearched};

use flac_bits::Why;
use flac_frame::Audio;
use flac_jobs::SearchEffort;
use flac_native::Plan;
use flac_predict::{Search, found_in};
use std::alloc::Global;

/// How the search is called; `None` if it is not.
pub(crate) fn search_of(effort: SearchEffort) -> Option<Search>
    ensures { result ≡ search_of effort }
{
    match effort {
        SearchEffort::None => None,
        SearchEffort::Quick => Some(Search::Quick),
        SearchEffort::Full => Some(Search::Full),
    }
}

/// The plan with the linear predictors that are found for each plane of each block after those of the plan, if they are
/// sought.
///
/// # Errors
/// [`Why::Memory`] if an allocation fails.
pub(crate) fn searched(
    alloc: Global,
    effort: SearchEffort,
    plan: Plan,
    audio: &Audio,
) -> Result<Plan, Why>
    requires fits { fits_plan plan audio.now ≡ true }
    requires none { plan.found ≡ [] }
    ensures searched { IfOk result (λ tried. IsSearched effort plan tried) }
    ensures fits { IfOk result (λ tried. fits_plan tried audio.now ≡ true) }
    ensures memory { IfErr result (λ e. e ≡ Why.Memory) }
{
    let Some(search) = search_of(effort) else {
        return Ok(plan);
    };
    let block = plan.block_size() as usize;
    let found = found_in(alloc, audio, block, plan.predictors(), search)?;
    Ok(plan.with_found(found))
}
