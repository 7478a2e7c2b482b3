//! Places for the subframes that are chosen of two channels.

ghost use Rattle.std.specs.Prelude.{◌≡◌, ◌≤◌, length, IfOk, IfErr};
ghost use Rattle.flac_header.specs.Assignment.{code_of, IsAssignment};
ghost use Rattle.flac_frame.specs.Pair.{HaveCodings};
ghost use Rattle.flac_frame.specs.inner.Pair.{with_kept, KeepsCodings};

use flac_bits::Why;
use flac_header::ChannelAssignment;
use flac_subframe::{Limits, WideChoice};
use std::alloc::Global;
use std::mem::swap;

/// Places for the subframes that are chosen of two channels, left and right, of their side, and of their middle.
pub(crate) struct PairChoices {
    pub(crate) left: WideChoice,
    pub(crate) right: WideChoice,
    pub(crate) side: WideChoice,
    pub(crate) middle: WideChoice,
}

impl Drop for PairChoices {
    fn drop(self) {
        let PairChoices {
            left: _,
            right: _,
            side: _,
            middle: _,
        } = self;
    }
}

impl PairChoices {
    /// Places for partition orders up to that of the limits, at most 15.
    ///
    /// # Errors
    /// [`Why::Memory`] if an allocation fails.
    pub(crate) fn new(alloc: Global, limits: &Limits) -> Result<PairChoices, Why>
        requires { limits.now.partition ≤ 15 }
        ensures codings { IfOk result (HaveCodings limits.now.partition) }
        ensures memory { IfErr result (λ e. e ≡ Why.Memory) }
    {
        let left = WideChoice::new(alloc, limits)?;
        let right = WideChoice::new(alloc, limits)?;
        let side = WideChoice::new(alloc, limits)?;
        let middle = WideChoice::new(alloc, limits)?;
        Ok(PairChoices {
            left,
            right,
            side,
            middle,
        })
    }

    /// Swaps the two choices that a channel assignment keeps with the first places.
    pub(crate) fn keep(&mut self, assignment: ChannelAssignment, places: &mut [WideChoice])
        requires valid { IsAssignment assignment }
        requires two { 2 ≤ length places.old }
        ensures kept { places.new ≡ with_kept (code_of assignment) self.old places.old }
        ensures codings { KeepsCodings self.old places.old self.new places.new }
    {
        match assignment {
            ChannelAssignment::Independent(_) => {
                swap(&mut self.left, &mut places[0]);
                swap(&mut self.right, &mut places[1]);
            }
            ChannelAssignment::LeftSide => {
                swap(&mut self.left, &mut places[0]);
                swap(&mut self.side, &mut places[1]);
            }
            ChannelAssignment::SideRight => {
                swap(&mut self.side, &mut places[0]);
                swap(&mut self.right, &mut places[1]);
            }
            ChannelAssignment::MidSide => {
                swap(&mut self.middle, &mut places[0]);
                swap(&mut self.side, &mut places[1]);
            }
        }
    }
}
