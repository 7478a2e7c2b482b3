//! What a frame is chosen and written of.

ghost use Rattle.std.specs.Prelude.{◌≡◌, ◌≤◌, ◌<◌, ◌+◌, ◌-◌};
ghost use Rattle.flac_frame.specs.Audio.{samples_each};

use crate::audio::Audio;
use crate::plane_predictors::PlanePredictors;
use std::ops::Range;

/// What a frame is chosen and written of: `size` samples of each channel from `start` on, the frame's number, and the
/// linear predictors of each plane beside the fixed ones.
#[derive(Drop)]
pub(crate) struct Subject<'a> {
    pub(crate) audio: &'a Audio,
    pub(crate) start: usize,
    pub(crate) size: usize,
    pub(crate) number: u64,
    pub(crate) predictors: &'a PlanePredictors<'a>,
    ghost some: { 0 < size },
    ghost few: { size ≤ 65535 },
    ghost within: { start + size ≤ samples_each audio.now.channels },
}

impl<'a> Subject<'a> {
    /// Samples `range` of each channel as frame `number`, with these linear predictors beside the fixed ones.
    pub(crate) fn of(
        audio: &'a Audio,
        range: Range<usize>,
        number: u64,
        predictors: &'a PlanePredictors<'a>,
    ) -> Subject<'a>
        requires some { range.start < range.end }
        requires few { range.end - range.start ≤ 65535 }
        requires within { range.end ≤ samples_each audio.now.channels }
        ensures audio { result.audio.now ≡ audio.now }
        ensures start { result.start ≡ range.start }
        ensures size { result.size ≡ range.end - range.start }
        ensures number { result.number ≡ number }
        ensures predictors { result.predictors.now ≡ predictors.now }
    {
        Subject {
            audio,
            start: range.start,
            size: range.end - range.start,
            number,
            predictors,
        }
    }
}
