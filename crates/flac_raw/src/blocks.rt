//! Raw samples, a block at a time.

ghost use Rattle.std.specs.Prelude.{◌≡◌, ◌≤◌, ◌<◌, ◌+◌, ◌*◌, [], ℕ, true, length, map, slice_index_or, IfOk, IfErr};
ghost use Rattle.std.specs.Prelude.{OnOk};
ghost use Rattle.flac_bits.specs.declared.why.Why.TheVariants as why;
ghost use Rattle.std.specs.List.{list_all};
ghost use Rattle.flac_subframe.specs.format.Numbers.{fits};
ghost use Rattle.flac_frame.specs.Audio.{each_small};
ghost use Rattle.flac_encoder.specs.Pushing.{block_channels};
ghost use Rattle.flac_raw.specs.Reading.{TakesLists, IfRead};
ghost use Rattle.flac_raw.specs.Faults.{StopsInside};

use crate::raw::{no_samples, push_piece};
use crate::raw_fault::RawFault;
use flac_bits::{Source, Why};
use flac_frame::samples_fit;
use flac_wave::fill;
use std::alloc::Global;

/// Raw samples that are read a block at a time, of which it holds one.
///
/// ```
/// let mut blocks = RawBlocks::new(alloc, 2, 2, 4096)?;
/// let count = blocks.next(&mut source)?; // 4096, or fewer at the end
/// encoder.push(blocks.slices(alloc)?.as_slice())?;
/// ```
#[derive(Drop)]
pub struct RawBlocks {
    /// How many bytes a sample has.
    width: usize,
    /// How many inter-channel samples a block has at most.
    size: usize,
    /// Places for the bytes of a block.
    bytes: Vec<u8>,
    /// The samples of each channel.
    lists: Vec<Vec<i32>>,
    ghost channels: { (1 ≤ length lists.items) × (length lists.items ≤ 8) },
    ghost widths: { (1 ≤ width) × (width ≤ 4) },
    ghost some: { (1 ≤ size) × (size ≤ 65535) },
    ghost room: { length bytes.items ≡ size * (length lists.items * width) },
}

/// Makes each list empty.
fn clear_lists(lists: &mut [Vec<i32>])
    ensures many { length lists.new ≡ length lists.old }
    ensures none { (c : ℕ) → slice_index_or (map (λ v. v.items) lists.new) c [] ≡ [] }
{
    for i in 0..lists.len() {
        lists[i].clear();
    }
}

/// Whether each sample of each list has at most `bits` bits.
fn all_small(lists: &[Vec<i32>], bits: u32) -> bool
    requires { (1 ≤ bits) × (bits ≤ 32) }
    ensures { result ≡ list_all (λ c. list_all (fits bits) c.items) lists.now }
{
    lists.iter().all(|c| samples_fit(c.as_slice(), bits))
}

/// Whether each sample of each channel has at most `bits` bits.
fn are_small(lists: &[Vec<i32>], bits: u32) -> bool
    requires { (1 ≤ bits) × (bits ≤ 32) }
    ensures { result ≡ each_small bits (map (λ c. c.items) lists.now) }
{
    all_small(lists, bits)
}

/// The samples of each channel, as slices.
fn slices_of(alloc: Global, lists: &[Vec<i32>]) -> Result<Vec<&[i32]>, Why>
    ensures block { IfOk result (λ s. block_channels s.items ≡ map (λ c. c.items) lists.now) }
    ensures memory { IfErr result (λ e. e ≡ why.Memory) }
{
    let mut slices: Vec<&[i32]> = Vec::with_capacity(alloc, lists.len())?;
    for list in lists {
        slices.push(list.as_slice())?;
    }
    Ok(slices)
}

/// Does what [`RawBlocks::next`] does, into these places and lists.
fn read_rows<R: Source>(
    source: &mut R,
    width: usize,
    size: usize,
    bytes: &mut [u8],
    lists: &mut [Vec<i32>],
) -> Result<usize, RawFault>
    requires channels { (1 ≤ length lists.old) × (length lists.old ≤ 8) }
    requires width { (1 ≤ width) × (width ≤ 4) }
    requires room { length bytes.old ≡ size * (length lists.old * width) }
    ensures many { length lists.new ≡ length lists.old }
    ensures few { IfOk result (λ n. n ≤ size) }
    ensures rows { IfOk result (λ n. TakesLists R.Source width n source.old source.new lists.old lists.new) }
    ensures end { IfOk result (λ n. n < size → R.known source.old ≡ true → R.coming source.new ≡ []) }
    ensures known { OnOk result (R.known source.old ≡ true → R.known source.new ≡ true) }
    ensures after { OnOk result (R.known source.old ≡ true → R.after source.new ≡ R.after source.old) }
    ensures raised { OnOk result (R.raised source.new ≡ R.raised source.old) }
    ensures most { IfOk result (λ n. R.most source.new + n ≤ R.most source.old) }
    ensures refused { IfErr result
        (λ e. IfRead R.Source source.old source.new (StopsInside (length lists.old * width) e)) }
    ensures names { R.names source.new ≡ R.names source.old }
{
    let row = lists.len() * width;
    let most = bytes.len();
    let count = fill(source, bytes, most)?;
    if count % row != 0 {
        return Err(RawFault::RawLength);
    }
    clear_lists(lists);
    push_piece(&bytes[..count], count / row, width, lists)?;
    Ok(count / row)
}

impl RawBlocks {
    ghost use Rattle.flac_raw.specs.Blocks.{row_of, TakesBlock};

    /// Makes a reader of the samples of 1 to 8 channels, of 1 to 4 bytes each, in blocks of 1 to 65535 samples of each
    /// channel. It holds no sample yet.
    ///
    /// # Errors
    /// [`Why::Memory`] if an allocation fails.
    pub fn new(alloc: Global, channels: usize, width: usize, size: usize) -> Result<RawBlocks, Why>
        requires channels { (1 ≤ channels) × (channels ≤ 8) }
        requires width { (1 ≤ width) × (width ≤ 4) }
        requires size { (1 ≤ size) × (size ≤ 65535) }
        ensures channels { IfOk result (λ b. length b.lists.items ≡ channels) }
        ensures width { IfOk result (λ b. b.width ≡ width) }
        ensures size { IfOk result (λ b. b.size ≡ size) }
        ensures memory { IfErr result (λ e. e ≡ why.Memory) }
    {
        let lists = no_samples(alloc, channels)?;
        let mut bytes = Vec::new(alloc);
        bytes.resize(size * (channels * width), 0)?;
        Ok(RawBlocks {
            width,
            size,
            bytes,
            lists,
        })
    }

    /// How many samples of each channel a block has, but the last.
    pub fn size(&self) -> usize
        ensures { result ≡ self.now.size }
    {
        self.size
    }

    /// Reads the next block, which takes the place of the one before, and returns how many samples of each channel it
    /// has: fewer than the others only if the source ends.
    ///
    /// # Errors
    /// [`RawFault::RawLength`] if the last inter-channel sample is not whole; [`RawFault::Input`] with [`Why::Read`]
    /// if the source returns an error, or with [`Why::Memory`] if an allocation fails. Nothing is known of the block
    /// then.
    pub fn next<R: Source>(&mut self, source: &mut R) -> Result<usize, RawFault>
        ensures channels { length self.new.lists.items ≡ length self.old.lists.items }
        ensures width { self.new.width ≡ self.old.width }
        ensures size { self.new.size ≡ self.old.size }
        ensures few { IfOk result (λ n. n ≤ self.old.size) }
        ensures rows { IfOk result (λ n. TakesBlock R.Source n source.old source.new self.old self.new) }
        ensures end { IfOk result (λ n. n < self.old.size → R.known source.old ≡ true →
            R.coming source.new ≡ []) }
        ensures known { OnOk result (R.known source.old ≡ true → R.known source.new ≡ true) }
        ensures after { OnOk result (R.known source.old ≡ true → R.after source.new ≡ R.after source.old) }
        ensures raised { OnOk result (R.raised source.new ≡ R.raised source.old) }
        ensures most { IfOk result (λ n. R.most source.new + n ≤ R.most source.old) }
        ensures refused { IfErr result
            (λ e. IfRead R.Source source.old source.new (StopsInside (row_of self.old) e)) }
        ensures names { R.names source.new ≡ R.names source.old }
    {
        let bytes = self.bytes.as_mut_slice();
        let lists = self.lists.as_mut_slice();
        read_rows(source, self.width, self.size, bytes, lists)
    }

    /// Whether each sample of the block has at most `bits` bits, 1 to 32.
    pub fn fit(&self, bits: u32) -> bool
        requires { (1 ≤ bits) × (bits ≤ 32) }
        ensures { result ≡ each_small bits (map (λ c. c.items) self.now.lists.items) }
    {
        are_small(self.lists.as_slice(), bits)
    }

    /// The samples of the block, a slice for each channel.
    ///
    /// # Errors
    /// [`Why::Memory`] if an allocation fails.
    pub fn slices(&self, alloc: Global) -> Result<Vec<&[i32]>, Why>
        ensures block { IfOk result (λ s. block_channels s.items ≡ map (λ c. c.items) self.now.lists.items) }
        ensures memory { IfErr result (λ e. e ≡ why.Memory) }
    {
        slices_of(alloc, self.lists.as_slice())
    }
}
