//! The search for the linear predictors of one block after another.

ghost use Rattle.std.specs.Prelude.{◌≡◌, ◌≤◌, ◌<◌, ◌^◌, Some, ⊤, IfOk, IfErr, MatchOption};
ghost use Rattle.flac_subframe.specs.format.Handed.{AreWithin};
ghost use Rattle.flac_frame.specs.Audio.{samples_each};
ghost use Rattle.flac_frame.specs.Encoding.{most_in};
ghost use Rattle.flac_frame.specs.Frame.{limits_at};
ghost use Rattle.flac_encoder.specs.Pushing.{IsFrameAt, IsLeastFoundAt};
ghost use Rattle.flac_encoder.specs.inner.Searching.{effort_of};

use crate::stream_format::frame_bytes;
use flac_bits::Why;
use flac_frame::{Audio, EncodeBuffers, PlanePredictors};
use flac_predict::{Finder, Search};
use flac_subframe::LinearPredictor;
use std::alloc::Global;

/// A search for linear predictors, and its working arrays.
#[derive(Drop)]
pub(crate) struct BlockSearch {
    /// How far they are sought.
    pub(crate) effort: Search,
    pub(crate) finder: Finder,
}

impl BlockSearch {
    /// A search for blocks of at most `block_size` samples of each channel, at most 65535. Its only error is `Memory`:
    /// an allocation failed.
    pub(crate) fn new(alloc: Global, effort: Search, block_size: usize) -> Result<BlockSearch, Why>
        requires { block_size ≤ 65535 }
        ensures effort { IfOk result (λ s. s.effort ≡ effort) }
        ensures room { IfOk result (λ s. s.finder ≡ block_size) }
        ensures memory { IfErr result (λ e. e ≡ Why.Memory) }
    {
        let finder = Finder::new(alloc, block_size)?;
        Ok(BlockSearch { effort, finder })
    }

    /// All samples as frame `number`, in memory: a shortest frame over the given predictors, and those that are found
    /// for each plane. Its only error is `Memory`: an allocation failed.
    fn frame(
        &mut self,
        alloc: Global,
        audio: &Audio,
        given: &[LinearPredictor],
        number: u64,
        buffers: &mut EncodeBuffers,
    ) -> Result<Vec<u8>, Why>
        requires some { 0 < samples_each audio.now.channels }
        requires searched { samples_each audio.now.channels ≤ self.old.finder }
        requires room { samples_each audio.now.channels ≤ buffers.old.block }
        requires most { most_in audio.now.profile ≤ buffers.old.most }
        requires orders { AreWithin (limits_at audio.now.profile audio.now.rate).linear given.now }
        requires number { number < 2 ^ 31 }
        ensures same { self.new ≡ self.old }
        ensures kept { buffers.new ≡ buffers.old }
        ensures frame { IfOk result (λ b. IsFrameAt audio.now number b.items) }
        ensures least { IfOk result (λ b. IsLeastFoundAt (Some self.old.effort) given.now audio.now number b.items) }
        ensures memory { IfErr result (λ e. e ≡ Why.Memory) }
    {
        let end = audio.len();
        let lists = self.finder.find(alloc, audio, 0..end, given, self.effort)?;
        let planes = PlanePredictors {
            lists: lists.as_slice(),
            others: given,
        };
        frame_bytes(alloc, audio, &planes, number, buffers)
    }
}

/// All samples as frame `number`, in memory: a shortest frame over the given predictors, and if there is a search,
/// those that it finds for each plane. Its only error is `Memory`: an allocation failed.
pub(crate) fn searched_frame(
    alloc: Global,
    audio: &Audio,
    given: &[LinearPredictor],
    search: &mut Option<BlockSearch>,
    number: u64,
    buffers: &mut EncodeBuffers,
) -> Result<Vec<u8>, Why>
    requires some { 0 < samples_each audio.now.channels }
    requires searched { MatchOption search.old ⊤ (λ s. samples_each audio.now.channels ≤ s.finder) }
    requires room { samples_each audio.now.channels ≤ buffers.old.block }
    requires most { most_in audio.now.profile ≤ buffers.old.most }
    requires orders { AreWithin (limits_at audio.now.profile audio.now.rate).linear given.now }
    requires number { number < 2 ^ 31 }
    ensures same { search.new ≡ search.old }
    ensures kept { buffers.new ≡ buffers.old }
    ensures frame { IfOk result (λ b. IsFrameAt audio.now number b.items) }
    ensures least { IfOk result (λ b. IsLeastFoundAt (effort_of search.old) given.now audio.now number b.items) }
    ensures memory { IfErr result (λ e. e ≡ Why.Memory) }
{
    match search {
        Some(search) => search.frame(alloc, audio, given, number, buffers),
        None => {
            let planes = PlanePredictors::same(given);
            frame_bytes(alloc, audio, &planes, number, buffers)
        }
    }
}
