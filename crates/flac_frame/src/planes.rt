//! Two channels, their side and their middle.

ghost use Rattle.std.specs.Prelude.{◌≡◌, ◌<◌, ◌≤◌, length, All};
ghost use Rattle.flac_bits.specs.Signed.{FitsBits};
ghost use Rattle.flac_frame.specs.Stereo.{side_of, middle_of};

/// The number of the first of two channels as a plane.
pub(crate) const LEFT: usize = 0;
/// That of the second.
pub(crate) const RIGHT: usize = 1;
/// That of their side.
pub(crate) const SIDE: usize = 2;
/// That of their middle.
pub(crate) const MIDDLE: usize = 3;

/// The samples of two channels, left and right, of a depth, and those of their side and of their middle (RFC 9639,
/// section 4.2).
#[derive(Drop)]
pub(crate) struct Planes<'a> {
    pub(crate) left: &'a [i64],
    pub(crate) right: &'a [i64],
    pub(crate) side: &'a [i64],
    pub(crate) middle: &'a [i64],
    pub(crate) depth: u32,
    ghost some: { 0 < length left.now },
    ghost long: { length right.now ≡ length left.now },
    ghost sides: { side.now ≡ side_of left.now right.now },
    ghost middles: { middle.now ≡ middle_of left.now right.now },
    ghost deep: { (1 ≤ depth) × (depth ≤ 32) },
    ghost left_fits: { All (FitsBits depth) left.now },
    ghost right_fits: { All (FitsBits depth) right.now },
}
