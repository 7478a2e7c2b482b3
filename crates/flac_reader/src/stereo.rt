//! The samples of a frame of two channels, in pairs.

ghost use Rattle.std.specs.List.{zip};
ghost use Rattle.std.specs.Iterator.{YieldsFirst, item_count};
ghost use Rattle.flac_frame.specs.Viewed.{frame_of};
ghost use Rattle.flac_reader.specs.Stereo.{AreStereo};

use flac_native::FrameView;

/// An iterator over the samples of a frame of two channels, in pairs: see [`stereo_samples`].
#[derive(Clone, Copy, Debug, Drop)]
pub struct StereoSamples<'a> {
    left: &'a [i32],
    right: &'a [i32],
}

impl<'a> Iterator for StereoSamples<'a> {
    type Item = (i32, i32);

    ghost next_gives = { YieldsFirst (λ s. zip s.left.now s.right.now) };

    ghost remaining = { item_count (λ s. zip s.left.now s.right.now) };

    fn next(&mut self) -> Option<(i32, i32)> {
        let (left, lefts) = self.left.split_first()?;
        let (right, rights) = self.right.split_first()?;
        self.left = lefts;
        self.right = rights;
        Some((*left, *right))
    }
}

/// An iterator over the samples of a frame of two channels, in pairs of left and right, index by index (RFC 9639,
/// section 9.1.3). `None` if the frame has not two channels.
///
/// ```
/// if let Some(pairs) = stereo_samples(&frame) {
///     for (left, right) in pairs {
///         play(left, right);
///     }
/// }
/// ```
pub fn stereo_samples<'a>(frame: &FrameView<'a>) -> Option<StereoSamples<'a>>
    ensures { AreStereo (frame_of frame.now) result }
{
    if frame.channels() != 2 {
        return None;
    }
    Some(StereoSamples {
        left: frame.channel(0),
        right: frame.channel(1),
    })
}
