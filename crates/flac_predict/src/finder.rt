//! The finder of linear predictors.

ghost use Rattle.std.specs.Prelude.{◌≡◌, ◌≤◌, ◌<◌, ◌+◌, ◌-◌, length, All, IfOk, IfErr};
ghost use Rattle.flac_frame.specs.Audio.{samples_each};
ghost use Rattle.flac_native.specs.Given.{plane_lists};
ghost use Rattle.flac_predict.specs.Found.{IsFoundAfter, lists_due};

use crate::block::Block;
use crate::correlate::weighed_sums;
use crate::pairs::pair_sums;
use crate::search::Search;
use crate::windows::put_window;
use flac_bits::Why;
use flac_frame::Audio;
use flac_subframe::LinearPredictor;
use std::alloc::Global;
use std::marker::Model;
use std::ops::Range;

/// A block of fewer samples is not searched.
const LEAST_BLOCK: usize = 64;

/// The slopes of the windows: a fourth of a block at each end, and a twelfth of a half.
const BROAD: usize = 4;

const NARROW: usize = 12;

/// Finds linear predictors for one block of samples after another. Its working arrays are allocated once.
///
/// ```
/// let mut finder = Finder::new(rt.alloc(), 4096)?;
/// let lists = finder.find(rt.alloc(), &audio, 0..4096, &given, Search::Quick)?;
/// let planes = PlanePredictors { lists: &lists, others: &given };
/// encode_frame_by_plane(&audio, 0..4096, 0, &planes, &mut buffers, &mut writer)?;
/// ```
pub struct Finder {
    block_size: usize,
    /// The size of the blocks for which there are weights.
    weighed: usize,
    /// The weights of a block.
    broad: Vec<f64>,
    /// Those of half of it.
    narrow: Vec<f64>,
    first: Vec<f64>,
    second: Vec<f64>,
}

impl Drop for Finder {
    fn drop(self) {
        let Finder {
            block_size: _,
            weighed: _,
            broad: _,
            narrow: _,
            first: _,
            second: _,
        } = self;
    }
}

impl Model for Finder {
    ghost use Rattle.std.specs.Prelude.{ℕ, ◌≡◌, ◌≤◌, ◌+◌, vec_len};

    ghost Value = { ℕ };

    ghost view = { λ f. f.block_size };

    ghost invariant = { λ f. record {
      broad : vec_len f.broad ≡ f.block_size;
      narrow : vec_len f.narrow ≡ f.block_size;
      first : vec_len f.first ≡ f.block_size + 16;
      second : vec_len f.second ≡ f.block_size + 16;
    } };
}

impl Finder {
    /// Allocates what finding takes for blocks of at most `block_size` samples of each channel, at most 65535: 32 bytes a
    /// sample, and 256.
    ///
    /// # Errors
    /// [`Why::Memory`] if an allocation fails.
    pub fn new(alloc: Global, block_size: usize) -> Result<Finder, Why>
        requires few { block_size ≤ 65535 }
        ensures room { IfOk result (λ f. f ≡ block_size) }
        ensures memory { IfErr result (λ e. e ≡ Why.Memory) }
    {
        Ok(Finder {
            block_size,
            weighed: 0,
            broad: vec![in alloc; 0.0f64; block_size]?,
            narrow: vec![in alloc; 0.0f64; block_size]?,
            first: vec![in alloc; 0.0f64; block_size + 16]?,
            second: vec![in alloc; 0.0f64; block_size + 16]?,
        })
    }

    /// Makes the weights for blocks of a size.
    fn weigh(&mut self, size: usize)
        requires { size ≤ self.old }
        ensures { self.new ≡ self.old }
    {
        if self.weighed != size {
            put_window(&mut self.broad[..size], size / BROAD);
            let half = size / 2;
            put_window(&mut self.narrow[..half], half / NARROW);
            self.weighed = size;
        }
    }

    /// The autocorrelations of left, right, side and middle, by each window of a search.
    fn sums_of_pair(&mut self, left: &[i32], right: &[i32], search: Search) -> [[[f64; 13]; 4]; 3]
        requires right { length right.now ≡ length left.now }
        requires room { length left.now ≤ self.old }
        ensures { self.new ≡ self.old }
    {
        let size = left.len();
        let half = size / 2;
        let broad = &self.broad[..size];
        let whole = pair_sums(left, right, broad, &mut self.first, &mut self.second);
        if search == Search::Quick {
            return [whole, whole, whole];
        }
        let narrow = &self.narrow[..half];
        let early_left = &left[..half];
        let early_right = &right[..half];
        let first = pair_sums(
            early_left,
            early_right,
            narrow,
            &mut self.first,
            &mut self.second,
        );
        let late_left = &left[half..2 * half];
        let late_right = &right[half..2 * half];
        let second = pair_sums(
            late_left,
            late_right,
            narrow,
            &mut self.first,
            &mut self.second,
        );
        [whole, first, second]
    }

    /// The autocorrelations of a channel by itself, by each window of a search.
    fn sums_of_one(&mut self, samples: &[i32], search: Search) -> [[f64; 13]; 3]
        requires room { length samples.now ≤ self.old }
        ensures { self.new ≡ self.old }
    {
        let size = samples.len();
        let half = size / 2;
        let whole = weighed_sums(samples, &self.broad[..size], &mut self.first);
        if search == Search::Quick {
            return [whole, whole, whole];
        }
        let narrow = &self.narrow[..half];
        let first = weighed_sums(&samples[..half], narrow, &mut self.first);
        let second = weighed_sums(&samples[half..2 * half], narrow, &mut self.first);
        [whole, first, second]
    }

    /// The lists of the planes of a block, which has 64 samples or more.
    fn lists(
        &mut self,
        alloc: Global,
        audio: &Audio,
        range: Range<usize>,
        given: &[LinearPredictor],
        search: Search,
    ) -> Result<Vec<Vec<LinearPredictor>>, Why>
        requires some { range.start ≤ range.end }
        requires within { range.end ≤ samples_each audio.now.channels }
        requires room { range.end - range.start ≤ self.old }
        ensures after { IfOk result (λ v. All (IsFoundAfter given.now) (plane_lists v.items)) }
        ensures pair { IfOk result (λ v. length audio.now.channels ≡ 2 → length v.items ≡ 4) }
        ensures apart { IfOk result
            (λ v. (length audio.now.channels ≡ 2 → ⊥) → length v.items ≡ length audio.now.channels) }
        ensures memory { IfErr result (λ e. e ≡ Why.Memory) }
        ensures room { self.new ≡ self.old }
    {
        let start = range.start;
        let size = range.end - start;
        let block = Block::new(audio.bits(), size);
        let channels = audio.channels().len();
        if channels == 2 {
            let left = audio.part(0, start, size);
            let right = audio.part(1, start, size);
            let windows = self.sums_of_pair(left, right, search);
            return pair_lists(alloc, &block, &windows, given, search);
        }
        let mut lists = Vec::new(alloc);
        for channel in 0..channels {
            let windows = self.sums_of_one(audio.part(channel, start, size), search);
            let list = block.list(alloc, given, &windows[..search.windows()])?;
            lists.push(list)?;
        }
        Ok(lists)
    }

    /// Finds linear predictors for the block that samples `range` of each channel are: at most as many samples as the
    /// finder was made for. Returns a list for each plane, which begins with the given ones; after these it has at most
    /// one by [`Search::Quick`], three by [`Search::Full`], of orders 1 to 12, whose coefficients have 14 bits, or 12 if
    /// a sample has more than 16 (RFC 9639, section 9.2.6). Two channels have the planes left, right, side and middle;
    /// otherwise each channel is one (section 4.2). Silence has no predictors. A block of fewer than 64 samples has no
    /// lists.
    ///
    /// # Errors
    /// [`Why::Memory`] if an allocation fails.
    pub fn find(
        &mut self,
        alloc: Global,
        audio: &Audio,
        range: Range<usize>,
        given: &[LinearPredictor],
        search: Search,
    ) -> Result<Vec<Vec<LinearPredictor>>, Why>
        requires some { range.start ≤ range.end }
        requires within { range.end ≤ samples_each audio.now.channels }
        requires room { range.end - range.start ≤ self.old }
        ensures after { IfOk result (λ v. All (IsFoundAfter given.now) (plane_lists v.items)) }
        ensures planes { IfOk result (λ v. length v.items ≡ lists_due audio.now (range.end - range.start)) }
        ensures memory { IfErr result (λ e. e ≡ Why.Memory) }
        ensures room { self.new ≡ self.old }
    {
        let size = range.end - range.start;
        if size < LEAST_BLOCK {
            return Ok(Vec::new(alloc));
        }
        self.weigh(size);
        let lists = self.lists(alloc, audio, range, given, search)?;
        Ok(lists)
    }
}

/// The lists of left, right, side and middle, by their autocorrelations.
fn pair_lists(
    alloc: Global,
    block: &Block,
    windows: &[[[f64; 13]; 4]; 3],
    given: &[LinearPredictor],
    search: Search,
) -> Result<Vec<Vec<LinearPredictor>>, Why>
    ensures after { IfOk result (λ v. All (IsFoundAfter given.now) (plane_lists v.items)) }
    ensures planes { IfOk result (λ v. length v.items ≡ 4) }
    ensures memory { IfErr result (λ e. e ≡ Why.Memory) }
{
    let mut lists = Vec::new(alloc);
    for plane in 0..4 {
        let sums = [windows[0][plane], windows[1][plane], windows[2][plane]];
        let list = block.list(alloc, given, &sums[..search.windows()])?;
        lists.push(list)?;
    }
    Ok(lists)
}
