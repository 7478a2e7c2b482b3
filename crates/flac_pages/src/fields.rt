//! Reading of the fixed fields of a page.

ghost use Rattle.flac_bits.specs.Reading.{Reads, CallInPlace};
ghost use Rattle.flac_pages.specs.Page.{head_after};

use crate::page::{CAPTURE_END, CAPTURE_PATTERN, Head};
use flac_bits::{BitReader, Source, Why, read_little_32, read_little_64};

/// Reads the fields between the first byte of a page and the number of its lacing values.
#[tactic(auto, unfolding(crate::specs::Page::head_after))]
pub(crate) fn read_head<R: Source>(reader: &mut BitReader<R>, first: u8) -> Result<Head, Why>
    ensures reading { CallInPlace 0 (Reads (λ h. h) (head_after first)) reader.old reader.new result }
{
    let pattern = reader.take(24)?;
    if first != CAPTURE_PATTERN[0] || pattern != CAPTURE_END {
        return Err(Why::BadPage);
    }
    let version = reader.take(8)?;
    if version != 0 {
        return Err(Why::BadPage);
    }
    let flags = reader.take(8)? as u8;
    let granule = read_little_64(reader)?;
    let serial = read_little_32(reader)?;
    let sequence = read_little_32(reader)?;
    let sum = read_little_32(reader)?;
    Ok(Head {
        flags,
        granule,
        serial,
        sequence,
        sum,
    })
}
