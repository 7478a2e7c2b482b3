//! A WAV file, as it is read from a source.

ghost use Rattle.std.specs.Prelude.{◌≡◌, true, IfOk, IfErr, OnOk, Some, None};
ghost use Rattle.flac_wave.specs.Calls.{IfRead};
ghost use Rattle.flac_wave.specs.Format.{IsInRange};
ghost use Rattle.flac_wave.specs.Parts.{beyond};
ghost use Rattle.flac_wave.specs.Wave.{IsErrorOf};
ghost use Rattle.flac_cli.specs.inner.WaveSamples.{IsTaken, IsPart, states_none, IsJudged, TakesGiven, AreGood, IsReadError, IsRestTaken, IsRestError};
ghost use Rattle.flac_cli.specs.Calls.{IfKnown};

use crate::wave_samples::{WaveSamples, read_samples};
use flac_bits::{Memory, Source};
use flac_wave::{
    Limited, WaveError, WaveFault, WaveFormat, WaveFront, WaveWhy, cut_after, is_unstated,
    read_all, read_front, size_in,
};
use std::alloc::Global;

/// A WAV file, whose samples are those of a stream.
#[derive(Drop)]
pub(crate) struct WaveFile {
    /// The format of the samples in the file.
    pub(crate) format: WaveFormat,
    /// The pieces before them, up to the header of the chunk of samples.
    pub(crate) pieces: Vec<Vec<u8>>,
    /// The samples.
    pub(crate) samples: WaveSamples,
    /// The pieces after them.
    pub(crate) after: Vec<Vec<u8>>,
}

/// The samples that were read, whose chunk comes after `count` others, or why they are none: the file ended inside them
/// (`cut`), and they may not go on to its end; or the last inter-channel sample is not whole.
fn judged(
    read: Option<WaveSamples>,
    count: u64,
    to_end: bool,
    cut: bool,
) -> Result<WaveSamples, WaveError>
    ensures { IsJudged read count to_end cut result }
{
    let chunk = Some(count);
    if cut && !to_end {
        let why = WaveWhy::DataCut;
        return Err(WaveError::Fault(WaveFault { chunk, why }));
    }
    let Some(samples) = read else {
        let why = WaveWhy::PartSample;
        return Err(WaveError::Fault(WaveFault { chunk, why }));
    };
    Ok(samples)
}

/// Reads the samples of a WAV file, `size` bytes of them or all that come, after what comes before them. What follows
/// them is still to come.
///
/// # Errors
/// Why what came is no samples. The source returned an error, or an allocation failed.
fn read_data<R: Source>(
    alloc: Global,
    front: &WaveFront,
    size: Option<u64>,
    to_end: bool,
    source: &mut R,
) -> Result<WaveSamples, WaveError>
    requires range { IsInRange front.now.format }
    ensures taken { IfOk result (λ s. IfKnown R.Source source.old (TakesGiven front.now.format size s)) }
    ensures good { OnOk result (IfKnown R.Source source.old (AreGood to_end front.now size)) }
    ensures left { OnOk result (R.known source.old ≡ true →
        R.coming source.new ≡ beyond size (R.coming source.old)) }
    ensures known { OnOk result (R.known source.old ≡ true → R.known source.new ≡ true) }
    ensures counted { OnOk result (R.raised source.new ≡ R.raised source.old) }
    ensures fault { IfErr result (λ e. IsReadError R.Source to_end front.now size source.old source.new e) }
    ensures names { R.names source.new ≡ R.names source.old }
{
    let mut part = Limited::new(source, size);
    let read = read_samples(alloc, &front.format, &mut part);
    let cut = part.is_cut();
    let _source = part.into_source(); // for its clauses alone
    match read {
        Ok(samples) => judged(samples, front.count, to_end, cut),
        Err(why) => Err(WaveError::from(why)),
    }
}

/// Reads the samples of a WAV file, `size` bytes of them or all that come, and what follows them.
///
/// # Errors
/// Why what came is no samples. The source returned an error, or an allocation failed.
fn read_parts<R: Source>(
    alloc: Global,
    front: WaveFront,
    size: Option<u64>,
    to_end: bool,
    source: &mut R,
) -> Result<WaveFile, WaveError>
    requires range { IsInRange front.format }
    ensures taken { IfOk result (λ f. R.known source.old ≡ true → IsPart to_end front size (R.coming source.old) f) }
    ensures fault { IfErr result (λ e. IsReadError R.Source to_end front size source.old source.new e) }
{
    let samples = read_data(alloc, &front, size, to_end, source)?;
    let back = read_all(alloc, source)?;
    let after = cut_after(alloc, samples.odd, back.as_slice())?;
    let WaveFront {
        format,
        pieces,
        size: _,
        count: _,
    } = front;
    Ok(WaveFile {
        format,
        pieces,
        samples,
        after,
    })
}

/// Reads the rest of a WAV file that states 0 bytes of samples. Whether its writer did not state their length is known
/// when all of the rest came, which is held for that.
///
/// # Errors
/// Why what came is no samples. The source returned an error, or an allocation failed.
fn read_unsized<R: Source>(
    alloc: Global,
    front: WaveFront,
    to_end: bool,
    source: &mut R,
) -> Result<WaveFile, WaveError>
    requires range { IsInRange front.format }
    ensures taken { IfOk result (λ f. IsRestTaken R.Source to_end front source.old f) }
    ensures fault { IfErr result (λ e. IsRestError R.Source to_end front source.old source.new e) }
{
    let rest = read_all(alloc, source)?;
    let size = size_in(to_end, front.size, rest.as_slice());
    if is_unstated(size, rest.as_slice()) {
        return Err(WaveError::Fault(WaveFault {
            chunk: Some(front.count),
            why: WaveWhy::DataUnstated,
        }));
    }
    read_parts(
        alloc,
        front,
        size,
        to_end,
        &mut Memory::new(rest.as_slice()),
    )
}

/// Whether the header of the samples states 0 bytes.
pub(crate) fn states_none(size: Option<u64>) -> bool
    ensures { result ≡ states_none size }
{
    match size {
        Some(bytes) => bytes == 0,
        None => false,
    }
}

/// Reads a WAV file. Its samples are held as those of a stream, its other bytes in pieces.
///
/// # Errors
/// The first reason for which the file is none, and where. The source returned an error, or an allocation failed.
pub(crate) fn read_file<R: Source>(
    alloc: Global,
    to_end: bool,
    source: &mut R,
) -> Result<WaveFile, WaveError>
    ensures taken { IfOk result (λ f. R.known source.old ≡ true → IsTaken to_end (R.coming source.old) f) }
    ensures fault { IfErr result (λ e. IfRead R.Source source.old source.new
        (IsErrorOf to_end (R.coming source.old) e)) }
{
    let front = read_front(alloc, source, to_end)?;
    let size = front.size;
    if states_none(size) {
        return read_unsized(alloc, front, to_end, source);
    }
    read_parts(alloc, front, size, to_end, source)
}
