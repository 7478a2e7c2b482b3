//! The place of the next sample.

ghost use Rattle.std.specs.Prelude.{◌≡◌};
ghost use Rattle.flac_frame.specs.Viewed.{frame_of};
ghost use Rattle.flac_reader.specs.Places.{IsSampleAt};

use flac_native::FrameView;

/// The place of the next sample of a stream.
#[derive(Clone, Copy)]
pub(crate) enum Spot {
    /// In the next frame.
    Next,
    /// In the frame that was read last: in this channel, at this index.
    Inside(usize, usize),
    /// Nowhere: the stream has ended, or was refused.
    Over,
}

impl Spot {
    ghost use Rattle.flac_reader.specs.Places.{is_over};

    /// Whether no sample comes any more.
    pub(crate) fn is_over(&self) -> bool
        ensures { result ≡ is_over self.now }
    {
        match self {
            Spot::Next => false,
            Spot::Inside(_, _) => false,
            Spot::Over => true,
        }
    }
}

/// The sample of a frame in a channel at an index, and the channel and the index of the one after it.
#[tactic(auto, using(crate::proofs::Places::from_no_channel, crate::proofs::Places::from_no_index, crate::proofs::Places::from_channel, crate::proofs::Places::from_last_channel))]
pub(crate) fn sample_at(
    frame: &FrameView<'_>,
    channel: usize,
    index: usize,
) -> Option<(i32, usize, usize)>
    ensures { IsSampleAt (frame_of frame.now) channel index result }
{
    if channel >= frame.channels() || index >= frame.len() {
        return None;
    }
    let sample = frame.sample(channel, index);
    if channel + 1 < frame.channels() {
        Some((sample, channel + 1, index))
    } else {
        Some((sample, 0, index + 1))
    }
}
