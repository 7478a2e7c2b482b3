//! The chunks of a WAV file.

ghost use Rattle.std.specs.Prelude.{◌≡◌, ◌≤◌, ◌<◌, ◌+◌, ◌-◌, ◌%◌, length, None, Some, is_none, IfOk, IfErr, OnOk};
ghost use Rattle.flac_wave.specs.Chunks.{id_of, is_data, is_format, is_long_sizes, size_of, chunk_len, header_fault, seen_first, after_chunk, format_after, stated, data_size, data_len, samples_fault, data_fault, content_fault, chunk_fault, most_kept};

use crate::format::{WaveFormat, format_at, long_at};
use crate::seen::Seen;
use crate::unstated::{is_unstated, size_in};
use crate::why::WaveWhy;
use byteorder::{ByteOrder, LittleEndian};

/// `data`, `fmt ` and `ds64` as numbers, the lowest byte first.
pub(crate) const DATA: u32 = 0x6174_6164;

pub(crate) const FORMAT: u32 = 0x2074_6D66;

pub(crate) const LONG_SIZES: u32 = 0x3436_7364;

/// `RIFF`, `RF64`, `BW64` and `WAVE`.
pub(crate) const RIFF: u32 = 0x4646_4952;

pub(crate) const RF64: u32 = 0x3436_4652;

const BW64: u32 = 0x3436_5742;

pub(crate) const WAVE: u32 = 0x4556_4157;

/// The most bytes of a chunk that a metadata block keeps.
pub(crate) const MOST_KEPT: usize = 16_777_211;

/// The identifier of a chunk.
fn id_of(bytes: &[u8]) -> u32
    requires { 4 ≤ length bytes.now }
    ensures { result ≡ id_of bytes.now }
{
    LittleEndian::read_u32(bytes)
}

/// Whether a chunk has the samples.
pub(crate) fn is_data(bytes: &[u8]) -> bool
    requires { 4 ≤ length bytes.now }
    ensures { result ≡ is_data bytes.now }
{
    id_of(bytes) == DATA
}

/// Whether a chunk states the format.
fn is_format(bytes: &[u8]) -> bool
    requires { 4 ≤ length bytes.now }
    ensures { result ≡ is_format bytes.now }
{
    id_of(bytes) == FORMAT
}

/// How many bytes a chunk has.
pub(crate) fn chunk_len(bytes: &[u8]) -> u64
    requires { 8 ≤ length bytes.now }
    ensures value { result ≡ chunk_len bytes.now }
    ensures some { 8 ≤ result }
{
    let size = u64::from(long_at(bytes, 4));
    8 + size + size % 2
}

/// Why a file does not begin with the header of a WAV file.
#[tactic(auto, unfolding(crate::specs::Chunks::header_fault))]
pub(crate) fn header_fault(bytes: &[u8]) -> Option<WaveWhy>
    ensures value { result ≡ header_fault bytes.now }
    ensures long { result ≡ None → 12 ≤ length bytes.now }
{
    if bytes.len() < 12 {
        return Some(WaveWhy::NotWave);
    }
    let id = id_of(bytes);
    if (id == RIFF || id == RF64 || id == BW64) && long_at(bytes, 8) == WAVE {
        return None;
    }
    Some(WaveWhy::NotWave)
}

/// Whether bytes begin as a WAV file does: with `RIFF`, `RF64` or `BW64`, a length and `WAVE`.
pub fn begins_wave(bytes: &[u8]) -> bool
    ensures { result ≡ is_none (header_fault bytes.now) }
{
    header_fault(bytes).is_none()
}

/// How many bytes the samples have, or `None` if they go to the end of the file.
#[tactic(auto, unfolding(crate::specs::Chunks::stated))]
pub(crate) fn stated(seen: &Seen, size: u32) -> Option<u64>
    ensures { result ≡ stated seen.now size }
{
    if size == u32::MAX {
        return seen.long;
    }
    if size == 0x7FFF_F000 || (size == 0 && (seen.riff == 0 || seen.riff == u32::MAX)) {
        return None;
    }
    Some(u64::from(size))
}

/// How many bytes the samples have that follow this header, or `None` if they go to the end of the file.
fn data_size(seen: &Seen, bytes: &[u8]) -> Option<u64>
    requires { 8 ≤ length bytes.now }
    ensures { result ≡ data_size seen.now bytes.now }
{
    size_in(seen.to_end, stated(seen, long_at(bytes, 4)), &bytes[8..])
}

/// How many bytes the samples have.
pub(crate) fn data_len(seen: &Seen, bytes: &[u8]) -> u64
    requires { 8 ≤ length bytes.now }
    ensures { result ≡ data_len seen.now bytes.now }
{
    let room = (bytes.len() - 8) as u64;
    let size = data_size(seen, bytes).unwrap_or(room);
    if seen.to_end {
        return size.min(room);
    }
    size
}

/// Why `size` bytes are no samples of a format, if there are `room` bytes.
#[tactic(auto, unfolding(crate::specs::Chunks::samples_fault))]
fn samples_fault(format: WaveFormat, size: u64, room: u64) -> Option<WaveWhy>
    ensures value { result ≡ samples_fault format size room }
    ensures fits { result ≡ None → size ≤ room }
{
    if room < size {
        return Some(WaveWhy::DataCut);
    }
    let row = format.row();
    if row > 0 && size % row == 0 {
        return None;
    }
    Some(WaveWhy::PartSample)
}

/// Whether a chunk has lengths of eight bytes.
fn is_long_sizes(bytes: &[u8]) -> bool
    requires { 4 ≤ length bytes.now }
    ensures { result ≡ is_long_sizes bytes.now }
{
    id_of(bytes) == LONG_SIZES
}

impl Seen {
    /// What is known before the first chunk.
    #[tactic(auto, unfolding(crate::specs::Chunks::seen_first))]
    pub(crate) fn first(bytes: &[u8], to_end: bool) -> Seen
        requires { 8 ≤ length bytes.now }
        ensures { result ≡ seen_first to_end bytes.now }
    {
        Seen {
            riff: long_at(bytes, 4),
            long: None,
            format: None,
            to_end,
        }
    }

    /// The format of the samples, whose chunk this is.
    ///
    /// # Errors
    /// Why these are no samples.
    #[tactic(auto, unfolding(crate::specs::Chunks::data_fault))]
    pub(crate) fn samples_at(&self, bytes: &[u8]) -> Result<WaveFormat, WaveWhy>
        requires { 8 ≤ length bytes.now }
        ensures found { IfOk result (λ f. (data_fault self.now bytes.now ≡ None) × (self.now.format ≡ Some f)) }
        ensures fits { OnOk result (data_len self.now bytes.now ≤ length bytes.now - 8) }
        ensures fault { IfErr result (λ e. data_fault self.now bytes.now ≡ Some e) }
    {
        let Some(format) = self.format else {
            return Err(WaveWhy::NoFormat);
        };
        if is_unstated(data_size(self, bytes), &bytes[8..]) {
            return Err(WaveWhy::DataUnstated);
        }
        match samples_fault(format, data_len(self, bytes), (bytes.len() - 8) as u64) {
            None => Ok(format),
            Some(why) => Err(why),
        }
    }

    /// The format after a chunk that is there.
    ///
    /// # Errors
    /// Why the chunk is refused.
    #[tactic(auto, unfolding(crate::specs::Chunks::content_fault, crate::specs::Chunks::after_chunk))]
    fn format_after(&self, bytes: &[u8]) -> Result<Option<WaveFormat>, WaveWhy>
        requires { 8 + size_of bytes.now ≤ length bytes.now }
        ensures found { IfOk result
            (λ f. (content_fault self.now bytes.now ≡ None) × (f ≡ format_after self.now bytes.now)) }
        ensures fault { IfErr result (λ e. content_fault self.now bytes.now ≡ Some e) }
    {
        if !is_format(bytes) {
            return Ok(self.format);
        }
        if self.format.is_some() {
            return Err(WaveWhy::RepeatedFormat);
        }
        let format = format_at(bytes)?;
        Ok(Some(format))
    }

    /// What is known after a chunk before the samples.
    ///
    /// # Errors
    /// Why the chunk is refused.
    #[tactic(auto, unfolding(crate::specs::Chunks::chunk_fault, crate::specs::Chunks::after_chunk))]
    pub(crate) fn next(&self, bytes: &[u8]) -> Result<Seen, WaveWhy>
        requires { 8 ≤ length bytes.now }
        ensures found { IfOk result
            (λ s. (chunk_fault self.now bytes.now ≡ None) × (s ≡ after_chunk self.now bytes.now)) }
        ensures within { OnOk result ((chunk_len bytes.now ≤ length bytes.now) × (chunk_len bytes.now ≤ most_kept)) }
        ensures fault { IfErr result (λ e. chunk_fault self.now bytes.now ≡ Some e) }
    {
        let len = chunk_len(bytes);
        if (bytes.len() as u64) < len {
            return Err(WaveWhy::ChunkCut);
        }
        if len > MOST_KEPT as u64 {
            return Err(WaveWhy::ChunkLength);
        }
        let format = self.format_after(bytes)?;
        let long = if is_long_sizes(bytes) && long_at(bytes, 4) >= 28 {
            Some(LittleEndian::read_u64(&bytes[16..]))
        } else {
            self.long
        };
        Ok(Seen {
            riff: self.riff,
            long,
            format,
            to_end: self.to_end,
        })
    }
}
