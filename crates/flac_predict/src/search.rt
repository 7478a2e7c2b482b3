//! How far predictors are sought.

ghost use Rattle.std.specs.Prelude.{◌≤◌};

/// How far linear predictors are sought for a block.
#[derive(Clone, Copy, Debug, PartialEq, Eq)]
pub enum Search {
    /// By one window over the block: one predictor for each plane.
    Quick,
    /// By one more window over each half of the block: three predictors for each plane, the first those of
    /// [`Search::Quick`].
    Full,
}

impl Search {
    /// By how many windows a plane is searched.
    pub(crate) fn windows(self) -> usize
        ensures { result ≤ 3 }
    {
        match self {
            Search::Quick => 1,
            Search::Full => 3,
        }
    }
}
