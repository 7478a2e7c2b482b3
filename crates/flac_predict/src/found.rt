//! The linear predictors that are tried for each plane of each block of some samples.

ghost use Rattle.std.specs.Prelude.{◌≡◌, ◌≤◌, ◌<◌, ◌+◌, length, IfOk, IfErr};
ghost use Rattle.flac_frame.specs.Audio.{samples_each};
ghost use Rattle.flac_frame.specs.Encoding.{order_limit};
ghost use Rattle.flac_predict.specs.Found.{AllBegin, blocks_of};
ghost use Rattle.flac_native.specs.Given.{AreFoundWithin, frame_lists};
ghost use Rattle.flac_subframe.specs.format.Handed.{AreWithin};

use crate::finder::Finder;
use crate::search::Search;
use flac_bits::Why;
use flac_frame::Audio;
use flac_subframe::LinearPredictor;
use std::alloc::Global;

/// The linear predictors to try for each plane of each block. A block has `block_size` samples of each channel, 1 to
/// 65535, the last one perhaps fewer. Each list has the given ones, whose orders are at most
/// [`flac_frame::greatest_order`], and then at most three, of orders 1 to 12 ([`Finder::find`]).
///
/// Each list has a copy of the given ones: 64 of them take as many bytes as a block of 4096 samples of two channels.
///
/// ```
/// let found = found_in(rt.alloc(), &audio, 4096, plan.predictors(), Search::Quick)?;
/// let plan = plan.with_found(found);
/// ```
///
/// # Errors
/// [`Why::Memory`] if an allocation fails.
pub fn found_in(
    alloc: Global,
    audio: &Audio,
    block_size: usize,
    given: &[LinearPredictor],
    search: Search,
) -> Result<Vec<Vec<Vec<LinearPredictor>>>, Why>
    requires some { 0 < block_size }
    requires few { block_size ≤ 65535 }
    requires within { AreWithin (order_limit audio.now) given.now }
    ensures begins { IfOk result (λ v. AllBegin given.now (frame_lists v.items)) }
    ensures orders { IfOk result (λ v. AreFoundWithin (order_limit audio.now) (frame_lists v.items)) }
    ensures blocks { IfOk result (λ v. length v.items ≡ blocks_of block_size (samples_each audio.now.channels)) }
    ensures memory { IfErr result (λ e. e ≡ Why.Memory) }
{
    let _channels = audio.channels(); // for its clauses alone
    let total = audio.len();
    let mut finder = Finder::new(alloc, block_size)?;
    let mut frames = Vec::new(alloc);
    let blocks = (total + (block_size - 1)) / block_size;
    for number in 0..blocks {
        let start = number * block_size;
        let end = start + block_size.min(total - start);
        let lists = finder.find(alloc, audio, start..end, given, search)?;
        frames.push(lists)?;
    }
    Ok(frames)
}
