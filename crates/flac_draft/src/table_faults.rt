//! Why no seek table is reserved for samples that are to come (RFC 9639, section 8.5).

ghost use Rattle.std.specs.Prelude.{◌≡◌, ◌≤◌, None};
ghost use Rattle.flac_encoder.specs.Pushing.{shape_of, shape_fault};
ghost use Rattle.flac_native.specs.Given.{plan_fault};
ghost use Rattle.flac_native.specs.Seeking.{is_table, has_table};
ghost use Rattle.flac_draft.specs.Table.{table_for, cut_stated, begin_fault};
ghost use Rattle.flac_draft.specs.inner.Gathering.{length_fault};

use crate::point_table::MOST_POINTS;
use flac_encoder::StreamFormat;
use flac_frame::SetupFault;
use flac_meta::{Block, BlockList};
use flac_native::{EncodeFault, count_points};

/// Why `total` samples of each channel cannot be divided into blocks of `size` with a seek point for each `every`
/// samples, or `None` if they can.
#[tactic(auto, unfolding(crate::specs::inner::Gathering::length_fault))]
fn length_fault(size: u64, total: u64, every: u32) -> Option<SetupFault>
    requires { (16 ≤ size) × (size ≤ 65535) }
    ensures { result ≡ length_fault size total every }
{
    if total >= 1 << 36 || (total + (size - 1)) / size > 1 << 31 {
        return Some(SetupFault::TooLong);
    }
    if count_points(size, total, every as u64) > MOST_POINTS as u64 {
        return Some(SetupFault::TooManyPoints);
    }
    None
}

/// Why as many samples of a format as were stated cannot be divided into blocks with a seek point for each `every`
/// samples, or `None` if they can.
fn total_fault(format: &StreamFormat, total: u64, every: u32) -> Option<SetupFault>
    requires { shape_fault (shape_of format.now) ≡ None }
    ensures { result ≡ plan_fault (cut_stated (shape_of format.now) total every) }
{
    length_fault(format.block_size as u64, total, every)
}

/// Whether a block is a seek table.
fn is_table(block: &Block) -> bool
    ensures { result ≡ is_table block.now }
{
    matches!(block, Block::SeekTable(_))
}

/// Whether a seek table is among the blocks.
fn has_table(blocks: &[Block]) -> bool
    ensures { result ≡ has_table blocks.now }
{
    for block in blocks {
        if is_table(block) {
            return true;
        }
    }
    false
}

/// The first reason why no draft of the format is begun with a seek table of `total` samples, or `None`.
#[tactic(auto, unfolding(crate::specs::Table::table_fault))]
pub(crate) fn begin_fault(
    format: &StreamFormat,
    list: &BlockList,
    total: u64,
    every: u32,
) -> Option<EncodeFault>
    ensures { result ≡ begin_fault (shape_of format.now) list.now (table_for total every) }
{
    if let Some(fault) = format.fault() {
        return Some(EncodeFault::Setup(fault));
    }
    if every == 0 {
        return None;
    }
    if let Some(fault) = total_fault(format, total, every) {
        return Some(EncodeFault::Setup(fault));
    }
    if has_table(list.blocks()) {
        return Some(EncodeFault::RepeatedBlock);
    }
    None
}
