//! WAV files.

ghost use Rattle.std.specs.Prelude.{◌≡◌, ◌+◌, None, Some, IfOk, IfErr};
ghost use Rattle.flac_wave.specs.Chunks.{fault_at, header_fault, is_data, chunk_len, data_len};
ghost use Rattle.flac_wave.specs.Format.{IsInRange};
ghost use Rattle.flac_wave.specs.Wave.{IsWave, parts_of, IsErrorOf};
ghost use Rattle.flac_wave.specs.inner.Next.{IsNext};
ghost use Rattle.flac_wave.specs.inner.Pieces.{error_of};
ghost use Rattle.flac_wave.specs.declared.waves.WaveError.TheVariants.{Memory};

use crate::chunks::{chunk_len, data_len, header_fault, is_data};
use crate::format::WaveFormat;
use crate::seen::Seen;
use crate::why::WaveWhy;
use flac_bits::Why;
use std::alloc::{AllocError, AllocFailed, Global};

/// A WAV file: the bytes of its parts, and the format of its samples.
#[derive(Drop)]
pub struct Wave<'a> {
    /// The format of the samples.
    pub format: WaveFormat,
    /// What comes before them: the header of the file, its chunks, and the header of the chunk of samples.
    pub pieces: Vec<Vec<u8>>,
    /// The samples.
    pub samples: &'a [u8],
    /// What follows them.
    pub back: &'a [u8],
}

/// Why a file is no WAV file, and where.
#[derive(Clone, Copy, Debug, PartialEq, Eq)]
pub struct WaveFault {
    /// How many chunks come before the place; `None` for the header of the file.
    pub chunk: Option<u64>,
    /// The reason.
    pub why: WaveWhy,
}

/// Why no WAV file was read.
#[derive(Clone, Copy, Debug, PartialEq, Eq)]
pub enum WaveError {
    /// An allocation failed.
    Memory,
    /// The source returned an error.
    Read,
    /// The file is none.
    Fault(WaveFault),
}

impl From<Why> for WaveError {
    ghost from_gives = { λ why e. e ≡ error_of why };

    fn from(why: Why) -> WaveError {
        match why {
            Why::Memory => WaveError::Memory,
            _ => WaveError::Read,
        }
    }
}

impl From<AllocError> for WaveError {
    ghost from_gives = { λ error e. e ≡ Memory };

    fn from(_error: AllocError) -> WaveError {
        WaveError::Memory
    }
}

impl<T: Drop> From<AllocFailed<T>> for WaveError {
    ghost from_gives = { λ error e. e ≡ Memory };

    fn from(_error: AllocFailed<T>) -> WaveError {
        WaveError::Memory
    }
}

/// What comes next in a file.
#[derive(Clone, Copy)]
pub(crate) enum Next {
    /// A chunk before the samples, and what is known after it.
    Chunk(Seen),
    /// The header of the chunk of samples, and the format of these.
    Samples(WaveFormat),
}

/// What comes next.
///
/// # Errors
/// Why neither a chunk nor the samples come.
#[tactic(auto, unfolding(crate::specs::Chunks::fault_at))]
fn step_at(seen: &Seen, rest: &[u8]) -> Result<Next, WaveWhy>
    ensures found { IfOk result (IsNext seen.now rest.now) }
    ensures fault { IfErr result (λ e. fault_at seen.now rest.now ≡ Some e) }
{
    if rest.len() < 8 {
        return Err(if rest.is_empty() {
            WaveWhy::NoData
        } else {
            WaveWhy::ChunkCut
        });
    }
    if !is_data(rest) {
        let seen = seen.next(rest)?;
        return Ok(Next::Chunk(seen));
    }
    let format = seen.samples_at(rest)?;
    Ok(Next::Samples(format))
}

/// Takes a WAV file apart. The samples and what follows them are those of `bytes`, the pieces before them are copied.
/// With `to_end`, samples that are longer than the file go to its end.
///
/// ```
/// let wave = wave_of(rt.alloc(), &bytes, false)?;
/// let after = cut(rt.alloc(), wave.samples, wave.back)?;
/// ```
///
/// # Errors
/// [`WaveError::Fault`] with the first reason for which the file is no WAV file, and where. [`WaveError::Memory`] if an
/// allocation fails.
pub fn wave_of(alloc: Global, bytes: &[u8], to_end: bool) -> Result<Wave<'_>, WaveError>
    ensures found { IfOk result (λ w. IsWave to_end bytes.now (parts_of w)) }
    ensures range { IfOk result (λ w. IsInRange w.format) }
    ensures fault { IfErr result (IsErrorOf to_end bytes.now) }
{
    if let Some(why) = header_fault(bytes) {
        return Err(WaveError::Fault(WaveFault { chunk: None, why }));
    }
    let mut seen = Seen::first(bytes, to_end);
    let (header, mut rest) = bytes.split_at(12);
    let mut pieces = Vec::new(alloc);
    pieces.push(Vec::from_slice(alloc, header)?)?;
    let mut count = 0;
    'chunks: loop {
        match step_at(&seen, rest) {
            Ok(Next::Chunk(known)) => {
                let (chunk, more) = rest.split_at(chunk_len(rest) as usize);
                pieces.push(Vec::from_slice(alloc, chunk)?)?;
                seen = known;
                rest = more;
                count += 1;
            }
            Ok(Next::Samples(format)) => {
                let (head, body) = rest.split_at(8);
                pieces.push(Vec::from_slice(alloc, head)?)?;
                let (samples, back) = body.split_at(data_len(&seen, rest) as usize);
                return Ok(Wave {
                    format,
                    pieces,
                    samples,
                    back,
                });
            }
            Err(why) => {
                return Err(WaveError::Fault(WaveFault {
                    chunk: Some(count),
                    why,
                }));
            }
        }
    }
}
