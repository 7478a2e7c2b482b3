//! The search for linear predictors.

ghost use Rattle.std.specs.Prelude.{◌≡◌, [], true, IfOk, IfErr, None};
ghost use Rattle.flac_native.specs.Given.{fits_plan};
ghost use Rattle.flac_c.specs.Encoded.{IsSearched};

use flac_bits::Why;
use flac_frame::Audio;
use flac_native::Plan;
use flac_predict::{Search, found_in};
use std::alloc::Global;

/// How the search is called by its number; `None` if it is not.
fn search_of(effort: u32) -> Option<Search>
    ensures { effort ≡ 0 → result ≡ None }
{
    match effort {
        0 => None,
        1 => Some(Search::Quick),
        _ => Some(Search::Full),
    }
}

/// The plan with the linear predictors that are found for each plane of each block, if they are sought: 0 stands for no
/// search, 1 for the quick one, and any other number for the full one.
///
/// # Errors
/// [`Why::Memory`] if an allocation fails.
pub(crate) fn searched(alloc: Global, effort: u32, plan: Plan, audio: &Audio) -> Result<Plan, Why>
    requires fits { fits_plan plan audio.now ≡ true }
    requires none { plan.found ≡ [] }
    ensures searched { IfOk result (λ tried. IsSearched effort plan tried) }
    ensures fits { IfOk result (λ tried. fits_plan tried audio.now ≡ true) }
    ensures memory { IfErr result (λ e. e ≡ Why.Memory) }
{
    let Some(search) = search_of(effort) else {
        return Ok(plan);
    };
    let block = plan.block_size() as usize;
    let found = found_in(alloc, audio, block, plan.predictors(), search)?;
    Ok(plan.with_found(found))
}
