//! Seek tables (RFC 9639, section 8.5).

ghost use Rattle.std.specs.Prelude.{◌≡◌, ◌<◌, length, None, false, nat_eq};
ghost use Rattle.flac_bits.specs.Reading.{Reads, ReadsGivenMemory, Call};
ghost use Rattle.flac_meta.specs.SeekTable.{placeholder, follows, seek_point, seek_points, in_order, last_before};
ghost use Rattle.flac_bits.specs.Written.{Writes};
ghost use Rattle.flac_meta.specs.Spelling.{each_spelled, point_spelling};

use crate::lists::Entries;
use flac_bits::{BitReader, BitWriter, Source, Target, Why};
use std::alloc::{AllocError, Global};

/// A frame to which a player can jump (RFC 9639, section 8.5.1).
#[derive(Clone, Copy, Debug, PartialEq, Eq)]
pub struct SeekPoint {
    /// Number of the first sample of the frame; 2^64 - 1 is a placeholder.
    pub sample: u64,
    /// Bytes from the first byte of the first frame to the first byte of this one.
    pub offset: u64,
    /// The number of samples that the frame has of each channel; no number of bytes.
    pub length: u16,
}

impl SeekPoint {
    /// Whether the point is a placeholder, which names no frame: its sample number is 2^64 - 1, and its other fields
    /// mean nothing (RFC 9639, section 8.5.1).
    pub fn is_placeholder(&self) -> bool
        ensures { result ≡ nat_eq self.now.sample placeholder }
    {
        self.sample == u64::MAX
    }
}

/// A seek table (RFC 9639, section 8.5). That its sample numbers rise strictly, with placeholders last, is checked when
/// it is read and when it is written.
pub type SeekTable = Entries<SeekPoint>;

impl Clone for SeekTable {
    ghost is_clone = { λ a b. b ≡ a };

    fn clone(&self) -> Result<SeekTable, AllocError> {
        self.copied()
    }
}

impl SeekTable {
    /// The points.
    pub fn points(&self) -> &[SeekPoint]
        ensures { result.now ≡ self.now }
    {
        self.as_slice()
    }

    /// The last point whose frame begins at or before a sample: where to begin a search for it. `None` if there is no
    /// such point. Placeholders name no frame (RFC 9639, section 8.5.1).
    ///
    /// ```
    /// let offset = match table.before(sample) {
    ///     Some(point) => point.offset,
    ///     None => 0,
    /// };
    /// ```
    pub fn before(&self, sample: u64) -> Option<SeekPoint>
        ensures { result ≡ last_before sample self.now }
    {
        let points = self.points();
        let mut found = None;
        for point in points {
            if point.sample <= sample && !point.is_placeholder() {
                found = Some(*point);
            }
        }
        found
    }
}

/// Whether a seek point may come after one of the sample number `before`: if its own is larger, or if it is a
/// placeholder.
pub(crate) fn may_follow(before: Option<u64>, point: &SeekPoint) -> bool
    ensures { result ≡ follows before point.now.sample }
{
    match before {
        None => true,
        Some(number) => number < point.sample || point.is_placeholder(),
    }
}

/// Reads a seek point that comes after one of the sample number `before`.
#[tactic(auto, unfolding(crate::specs::SeekTable::seek_point))]
fn read_point<R: Source>(bits: &mut BitReader<R>, before: Option<u64>) -> Result<SeekPoint, Why>
    ensures reading { Call 0 (Reads (λ p. p) (seek_point before)) bits.old bits.new result }
{
    let sample = bits.take(64)?;
    let offset = bits.take(64)?;
    let length = bits.take(16)? as u16;
    let point = SeekPoint {
        sample,
        offset,
        length,
    };
    if !may_follow(before, &point) {
        return Err(Why::SeekOrder);
    }
    Ok(point)
}

/// Reads a seek table of `count` points.
#[tactic(auto, using(crate::proofs::Turns::points_more, crate::proofs::Turns::points_end, crate::proofs::Turns::turn_start))]
pub(crate) fn read_seek_table<R: Source>(
    alloc: Global,
    bits: &mut BitReader<R>,
    count: u32,
) -> Result<SeekTable, Why>
    ensures reading { Call 0 (ReadsGivenMemory (λ t. t) (seek_points count None)) bits.old bits.new result }
{
    let mut points = Vec::new(alloc);
    let mut before = None;
    for i in 0..count {
        let _i = i;
        let point = read_point(bits, before)?;
        before = Some(point.sample);
        points.push(point)?;
    }
    Ok(SeekTable::from_vec(points))
}

/// Writes a seek point (RFC 9639, section 8.5.1).
fn put_point<W: Target>(writer: &mut BitWriter<W>, point: &SeekPoint) -> Result<(), Why>
    ensures { Writes (point_spelling point.now) writer.old writer.new result }
{
    writer.put(64, point.sample)?;
    writer.put(64, point.offset)?;
    writer.put(16, point.length as u64)
}

/// Writes seek points (RFC 9639, section 8.5).
pub(crate) fn put_points<W: Target>(
    writer: &mut BitWriter<W>,
    points: &[SeekPoint],
) -> Result<(), Why>
    ensures { Writes (each_spelled point_spelling points.now) writer.old writer.new result }
{
    for point in points {
        put_point(writer, point)?;
    }
    Ok(())
}

/// Whether the sample numbers of the points rise, with placeholders last.
pub(crate) fn are_in_order(points: &[SeekPoint]) -> bool
    ensures { result ≡ in_order None points.now }
{
    let mut before = None;
    for point in points {
        if !may_follow(before, point) {
            return false;
        }
        before = Some(point.sample);
    }
    true
}
