//! Linear predictors by plane.

ghost use Rattle.std.specs.Prelude.{◌≡◌, ◌↔◌, IsTrue};
ghost use Rattle.flac_frame.specs.PlaneLists.{lists_of, same_list, AreAllWithin};

use flac_subframe::LinearPredictor;

/// The linear predictors that are tried beside the fixed ones, by the plane of a subframe.
///
/// A block of two channels has four planes, in this order: left, right, side and middle, of which a frame stores two
/// (RFC 9639, section 4.2). In a block of any other number of channels each channel is a plane.
///
/// ```
/// let predictors = PlanePredictors { lists: &[left, right, side, middle], others: &[] };
/// ```
#[derive(Clone, Copy)]
pub struct PlanePredictors<'a> {
    /// A list for each plane, from the first on. There may be fewer than planes, or more.
    pub lists: &'a [Vec<LinearPredictor>],
    /// The list of each plane after these.
    pub others: &'a [LinearPredictor],
}

impl<'a> PlanePredictors<'a> {
    /// One list for all planes.
    pub fn same(predictors: &'a [LinearPredictor]) -> PlanePredictors<'a>
        ensures { lists_of result ≡ same_list predictors.now }
    {
        PlanePredictors {
            lists: &[],
            others: predictors,
        }
    }

    /// Whether the order of each predictor of each list is at most a limit, such as [`crate::greatest_order`].
    pub fn are_within(&self, limit: u32) -> bool
        ensures { IsTrue result ↔ AreAllWithin limit (lists_of self.now) }
    {
        for list in self.lists {
            if !LinearPredictor::are_within(list.as_slice(), limit) {
                return false;
            }
        }
        LinearPredictor::are_within(self.others, limit)
    }

    /// The list of a plane.
    pub(crate) fn list(&self, plane: usize) -> &[LinearPredictor]
        ensures { result.now ≡ lists_of self.now plane }
    {
        if plane < self.lists.len() {
            return self.lists[plane].as_slice();
        }
        self.others
    }
}
