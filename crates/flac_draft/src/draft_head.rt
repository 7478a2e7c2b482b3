//! What comes before the frames of a draft, and what STREAMINFO states of them.

ghost use Rattle.std.specs.Prelude.{◌≡◌, ◌<◌, ◌^◌, ◌++◌, None, ⊤, MatchOption};
ghost use Rattle.flac_bits.specs.Bits.{bits_of};
ghost use Rattle.flac_meta.specs.Listed.{block_fault};
ghost use Rattle.flac_meta.specs.declared.block.Block.TheVariants as kinds;
ghost use Rattle.flac_encoder.specs.Pushing.{shape_of, shape_fault};
ghost use Rattle.flac_native.specs.Seeking.{table_of};
ghost use Rattle.flac_native.specs.Writing.{head_spelling};
ghost use Rattle.flac_draft.specs.inner.Gathering.{info_with, least_after};

use flac_bits::Collected;
use flac_encoder::StreamFormat;
use flac_meta::{BlockList, SeekPoint, StreamInfo};
use flac_native::send_head;
use std::alloc::Global;

/// STREAMINFO of a format with the sizes of the smallest and the largest frame in bytes, the samples of each channel,
/// and their MD5 digest (RFC 9639, section 8.2).
pub(crate) fn info_with(
    format: &StreamFormat,
    least: u64,
    greatest: u64,
    total: u64,
    digest: [u8; 16],
) -> StreamInfo
    requires format { shape_fault (shape_of format.now) ≡ None }
    requires least { least < 2 ^ 24 }
    requires greatest { greatest < 2 ^ 24 }
    requires total { total < 2 ^ 36 }
    ensures { result ≡ info_with (shape_of format.now) least greatest total digest }
{
    let size = format.block_size as u16;
    let info = StreamInfo::new(
        size,
        size,
        least as u32,
        greatest as u32,
        format.rate,
        format.channels as u8,
        format.bits as u8,
        total,
        digest,
    );
    match info {
        Ok(info) => info,
        Err(_) => unreachable!(),
    }
}

/// What comes before the frames, in memory: the marker, STREAMINFO, the blocks of the list and the seek table of these
/// points, if there are points (RFC 9639, section 6). `None` if an allocation fails.
pub(crate) fn head_bytes(
    alloc: Global,
    info: StreamInfo,
    list: &BlockList,
    points: Vec<SeekPoint>,
) -> Option<Vec<u8>>
    requires { block_fault (kinds.SeekTable points.items) ≡ None }
    ensures { MatchOption result ⊤ (λ b. bits_of b.items ≡ head_spelling info (list.now ++ table_of points.items)) }
{
    let mut target = Collected::new(alloc);
    match send_head(info, list, points, &mut target) {
        Ok(()) => Some(target.into_bytes()),
        Err(_) => None,
    }
}

/// The smallest size with one more frame; that of this frame if no sample was encoded before.
pub(crate) fn least_after(samples: u64, least: u64, bytes: u64) -> u64
    ensures { result ≡ least_after samples least bytes }
{
    if samples == 0 {
        bytes
    } else {
        least.min(bytes)
    }
}
