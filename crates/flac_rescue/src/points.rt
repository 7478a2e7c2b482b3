//! Seek points of a native stream, which a seek table may have (RFC 9639, section 8.5).

ghost use Rattle.std.specs.Prelude.{◌≡◌, ◌≤◌, ◌<◌, ◌^◌, ◌++◌, ⊤, length, IfOk, IfErr, IfSome, OnOk};
ghost use Rattle.flac_rescue.specs.Head.{IsHeadRefusal};
ghost use Rattle.flac_rescue.specs.Points.{has_multiple, point_of, ArePointsFrom, ArePoints};

use crate::head::read_head;
use crate::salvage::buffers_for;
use crate::survey::info_of;
use flac_meta::SeekPoint;
use flac_native::{Fault, Profile, StreamInfo};
use flac_salvage::whole_at;
use std::alloc::{AllocError, Global};

/// Why a stream gets no seek points.
#[derive(Clone, Copy, Debug, PartialEq, Eq)]
pub enum PointsFault {
    /// The marker or a metadata block is refused.
    Head(Fault),
    /// An allocation failed.
    Memory,
    /// The bytes after the metadata are no frames that follow each other by their numbers.
    NotWhole,
}

impl From<AllocError> for PointsFault {
    ghost use Rattle.flac_rescue.specs.declared.points.PointsFault.TheVariants.{Memory};

    ghost from_gives = { λ _ fault. fault ≡ Memory };

    fn from(_error: AllocError) -> PointsFault {
        PointsFault::Memory
    }
}

/// Whether a frame of `size` samples, the first of which has the number `first`, has a sample whose number is a
/// multiple of `every`; false if `every` is 0.
fn has_multiple(every: u64, first: u64, size: u16) -> bool
    requires every { every < 2 ^ 32 }
    requires first { first < 2 ^ 52 }
    ensures { result ≡ has_multiple every first size }
{
    if every == 0 {
        return false;
    }
    every * ((first + (every - 1)) / every) < first + u64::from(size)
}

/// Adds the point of a frame, if it has one.
fn add_point(points: &mut Vec<SeekPoint>, every: u64, point: SeekPoint) -> Result<(), AllocError>
    requires every { every < 2 ^ 32 }
    requires first { point.sample < 2 ^ 52 }
    ensures { OnOk result (points.new.items ≡
        points.old.items ++ point_of every point.sample point.offset point.length) }
{
    if has_multiple(every, point.sample, point.length) {
        points.push(point)?;
    }
    Ok(())
}

/// The points of the frames from an offset on; `None` if these bytes are no frames that follow each other.
fn points_from(
    alloc: Global,
    bytes: &[u8],
    front: usize,
    info: &StreamInfo,
    every: u64,
) -> Result<Option<Vec<SeekPoint>>, AllocError>
    requires front { front ≤ length bytes.now }
    requires every { every < 2 ^ 32 }
    ensures { IfOk result (λ o. IfSome o (λ points. ArePointsFrom info.now bytes.now front every points.items)) }
{
    let mut buffers = buffers_for(alloc, info)?;
    let mut points = Vec::new(alloc);
    let mut at = front;
    let mut sample = 0u64;
    'frames: while at < bytes.len() {
        let Some(count) = whole_at(bytes, at, info, Profile::Lax, &mut buffers) else {
            return Ok(None);
        };
        let first = buffers.view().first_sample(info.greatest_block());
        let Ok(length) = u16::try_from(buffers.view().len()) else {
            return Ok(None);
        };
        if first != sample {
            return Ok(None);
        }
        let offset = (at - front) as u64;
        add_point(
            &mut points,
            every,
            SeekPoint {
                sample,
                offset,
                length,
            },
        )?;
        at += count as usize;
        sample += u64::from(length);
        buffers.anew();
    }
    Ok(Some(points))
}

/// The seek points of a native stream that is whole: one for each frame that has a sample whose number is a multiple of
/// `every`, as a seek table that [`flac_native::encode`] writes has them. Each is a frame of the stream, with its
/// offset from the first one. None if `every` is 0.
///
/// Each frame is read, and its check sum is compared; the digest of all samples is not.
///
/// ```
/// let points = seek_points(rt.alloc(), &bytes, 10 * 44_100)?;
/// ```
///
/// # Errors
/// [`PointsFault::Head`] with the fault that decoding has there; [`PointsFault::NotWhole`] if the bytes after the metadata
/// are no frames that follow each other, each in the format of STREAMINFO and with the next number;
/// [`PointsFault::Memory`] if an allocation fails.
pub fn seek_points(alloc: Global, bytes: &[u8], every: u32) -> Result<Vec<SeekPoint>, PointsFault>
    ensures points { IfOk result (λ points. ArePoints bytes.now every points.items) }
{
    let head = match read_head(alloc, bytes) {
        Ok(head) => head,
        Err(fault) => return Err(PointsFault::Head(fault)),
    };
    let Some(info) = info_of(&head.blocks) else {
        return Err(PointsFault::NotWhole);
    };
    if head.front > bytes.len() as u64 {
        return Err(PointsFault::NotWhole);
    }
    match points_from(alloc, bytes, head.front as usize, &info, u64::from(every))? {
        Some(points) => Ok(points),
        None => Err(PointsFault::NotWhole),
    }
}
