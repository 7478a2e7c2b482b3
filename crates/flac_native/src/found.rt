//! Lists of linear predictors for the planes of frames.

ghost use Rattle.std.specs.Prelude.{◌↔◌, All, IsTrue};
ghost use Rattle.flac_native.specs.Given.{plane_lists, frame_lists, AreFoundWithin};
ghost use Rattle.flac_subframe.specs.format.Handed.{AreWithin};

use flac_subframe::LinearPredictor;

/// Whether no order in the lists of the planes of a frame is above a limit.
fn planes_are_within(lists: &[Vec<LinearPredictor>], limit: u32) -> bool
    ensures { IsTrue result ↔ All (AreWithin limit) (plane_lists lists.now) }
{
    for list in lists {
        if !LinearPredictor::are_within(list.as_slice(), limit) {
            return false;
        }
    }
    true
}

/// Whether no order in the lists of the planes of frames is above a limit.
pub(crate) fn found_are_within(found: &[Vec<Vec<LinearPredictor>>], limit: u32) -> bool
    ensures { IsTrue result ↔ AreFoundWithin limit (frame_lists found.now) }
{
    for lists in found {
        if !planes_are_within(lists.as_slice(), limit) {
            return false;
        }
    }
    true
}
