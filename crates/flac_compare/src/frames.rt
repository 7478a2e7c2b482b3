//! Where two frames differ.

ghost use Rattle.std.specs.Prelude.{◌≡◌, ◌<◌, ◌≤◌, ◌+◌};
ghost use Rattle.flac_frame.specs.Viewed.{frame_of};
ghost use Rattle.flac_frame.specs.Interleaved.{row};
ghost use Rattle.flac_compare.specs.inner.Frames.{FindsChannel, FindsAfter};

use flac_native::FrameView;

/// The first channel in which two frames differ, the first at index `i`, the second at index `j`. It may be one that
/// only one of them has.
fn channel_of_difference(
    first: &FrameView<'_>,
    i: usize,
    second: &FrameView<'_>,
    j: usize,
) -> Option<usize>
    requires first { i < (frame_of first.now).size }
    requires second { j < (frame_of second.now).size }
    ensures { FindsChannel result (row (frame_of first.now).channels i) (row (frame_of second.now).channels j) }
{
    let channels = first.channels().min(second.channels());
    for c in 0..channels {
        if first.sample(c, i) != second.sample(c, j) {
            return Some(c);
        }
    }
    if first.channels() != second.channels() {
        return Some(channels);
    }
    None
}

/// The first difference among `n` inter-channel samples of two frames, of the first from index `i` on, of the second
/// from index `j` on: how many are equal before it, and its channel.
pub(crate) fn first_difference(
    first: &FrameView<'_>,
    i: usize,
    second: &FrameView<'_>,
    j: usize,
    n: usize,
) -> Option<(usize, usize)>
    requires first { i + n ≤ (frame_of first.now).size }
    requires second { j + n ≤ (frame_of second.now).size }
    ensures { FindsAfter result n (frame_of first.now).channels i (frame_of second.now).channels j }
{
    for k in 0..n {
        match channel_of_difference(first, i + k, second, j + k) {
            Some(c) => return Some((k, c)),
            None => {}
        }
    }
    None
}
