//! A pass over a WAV file that finds what is to be encoded, and holds none of its samples.

ghost use Rattle.std.specs.Prelude.{◌≡◌, ◌%◌, true, false, nat_eq, length, IfOk, IfErr, OnOk};
ghost use Rattle.flac_wave.specs.Calls.{IfRead};
ghost use Rattle.flac_wave.specs.Format.{IsInRange, row_of};
ghost use Rattle.flac_wave.specs.Parts.{beyond};
ghost use Rattle.flac_wave.specs.Wave.{IsErrorOf};
ghost use Rattle.flac_cli.specs.Calls.{IfKnown};
ghost use Rattle.flac_raw.specs.Reading.{HasRead};
ghost use Rattle.flac_cli.specs.inner.WaveSamples.{AreGood, IsReadError, IsRestError};
ghost use Rattle.flac_cli.specs.inner.WaveSurvey.{HasDepth, IsSampledOf, IsGivenOf, SurveysMore, FindsPart, FindsRest, IsSurveyed, none_found};

use crate::wave_file::states_none;
use flac_bits::{Memory, Source, Why, bytes_fit};
use flac_raw::PIECE;
use flac_wave::{
    Limited, WaveError, WaveFault, WaveFormat, WaveFront, WaveWhy, cut_after, fill, front_fault,
    is_unstated, read_all, read_front, size_in,
};
use std::alloc::Global;

/// What a pass over samples finds.
#[derive(Clone, Copy)]
pub(crate) struct SampleSurvey {
    /// How many bits of each a stream has, the highest ones: the bits below are zeros in all of them.
    pub(crate) depth: u32,
    /// How many samples each channel has, at most 2^64 - 1.
    pub(crate) total: u64,
    /// Whether they are of an odd number of bytes.
    pub(crate) odd: bool,
    /// Whether the last inter-channel sample is whole.
    pub(crate) whole: bool,
}

/// What a pass over a WAV file finds.
#[derive(Drop)]
pub(crate) struct WaveSurvey {
    /// The format of the samples in the file.
    pub(crate) format: WaveFormat,
    /// The pieces before them, up to the header of the chunk of samples.
    pub(crate) pieces: Vec<Vec<u8>>,
    /// How many bytes of what comes after them are the samples, at most; `None` if all are.
    pub(crate) size: Option<u64>,
    /// The samples.
    pub(crate) samples: SampleSurvey,
    /// The pieces after them.
    pub(crate) after: Vec<Vec<u8>>,
}

/// What is found of no samples.
fn none_found(format: &WaveFormat) -> SampleSurvey
    requires { IsInRange format.now }
    ensures found { result ≡ none_found format.now }
    ensures room { HasDepth format.now result.depth }
{
    SampleSurvey {
        depth: format.depth_of(&[]),
        total: 0,
        odd: false,
        whole: true,
    }
}

/// What is found of samples and of those of a piece after them, of whole inter-channel samples.
fn with_piece(format: &WaveFormat, found: SampleSurvey, piece: &[u8]) -> SampleSurvey
    requires range { IsInRange format.now }
    requires whole { length piece.now % row_of format.now ≡ 0 }
    requires room { HasDepth format.now found.depth }
    ensures more { SurveysMore format.now piece.now found result }
    ensures room { HasDepth format.now result.depth }
{
    bytes_fit(piece);
    let count = piece.len() as u64 / format.row();
    let is_odd = piece.len() % 2 == 1;
    SampleSurvey {
        depth: found.depth.max(format.depth_of(piece)),
        total: found.total.saturating_add(count),
        odd: found.odd != is_odd,
        whole: found.whole,
    }
}

/// Reads all bytes of a source as the samples of a WAV file of this format, in pieces of at most 16384. None are held.
///
/// # Errors
/// The source returned an error.
fn survey_samples<R: Source>(format: &WaveFormat, source: &mut R) -> Result<SampleSurvey, Why>
    requires range { IsInRange format.now }
    ensures found { IfOk result (λ s. IfKnown R.Source source.old (IsSampledOf format.now s)) }
    ensures room { IfOk result (λ s. HasDepth format.now s.depth) }
    ensures read { OnOk result (HasRead R.Source source.old source.new) }
    ensures memory { IfErr result (λ e. IfRead R.Source source.old source.new (e ≡ Why.Memory)) }
    ensures names { R.names source.new ≡ R.names source.old }
{
    let row = format.row() as usize;
    let size = PIECE / row * row;
    let mut found = none_found(format);
    let mut piece = [0u8; PIECE];
    'pieces: loop {
        let count = fill(source, &mut piece, size)?;
        if count % row != 0 {
            found.whole = false;
            return Ok(found);
        }
        found = with_piece(format, found, &piece[..count]);
        if count < size {
            return Ok(found);
        }
    }
}

/// Reads the samples of a WAV file, `size` bytes of them or all that come, after what comes before them. What follows
/// them is still to come.
///
/// # Errors
/// Why what came is no samples. The source returned an error.
fn survey_data<R: Source>(
    front: &WaveFront,
    size: Option<u64>,
    to_end: bool,
    source: &mut R,
) -> Result<SampleSurvey, WaveError>
    requires range { IsInRange front.now.format }
    ensures found { IfOk result (λ s. IfKnown R.Source source.old (IsGivenOf front.now.format size s)) }
    ensures whole { IfOk result (λ s. s.whole ≡ true) }
    ensures room { IfOk result (λ s. HasDepth front.now.format s.depth) }
    ensures good { OnOk result (IfKnown R.Source source.old (AreGood to_end front.now size)) }
    ensures left { OnOk result (R.known source.old ≡ true →
        R.coming source.new ≡ beyond size (R.coming source.old)) }
    ensures known { OnOk result (R.known source.old ≡ true → R.known source.new ≡ true) }
    ensures counted { OnOk result (R.raised source.new ≡ R.raised source.old) }
    ensures fault { IfErr result (λ e. IsReadError R.Source to_end front.now size source.old source.new e) }
    ensures names { R.names source.new ≡ R.names source.old }
{
    let mut part = Limited::new(source, size);
    let read = survey_samples(&front.format, &mut part);
    let cut = part.is_cut();
    let _source = part.into_source(); // for its clauses alone
    match read {
        Ok(found) => match front_fault(to_end, cut, found.whole) {
            None => Ok(found),
            Some(why) => Err(WaveError::Fault(WaveFault {
                chunk: Some(front.count),
                why,
            })),
        },
        Err(why) => Err(WaveError::from(why)),
    }
}

/// Reads the samples of a WAV file, `size` bytes of them or all that come, and what follows them.
///
/// # Errors
/// Why what came is no samples. The source returned an error, or an allocation failed.
fn survey_parts<R: Source>(
    alloc: Global,
    front: WaveFront,
    size: Option<u64>,
    to_end: bool,
    source: &mut R,
) -> Result<WaveSurvey, WaveError>
    requires range { IsInRange front.format }
    ensures found { IfOk result (λ f. R.known source.old ≡ true → FindsPart to_end front size (R.coming source.old) f) }
    ensures range { IfOk result (λ f. IsInRange f.format) }
    ensures room { IfOk result (λ f. HasDepth f.format f.samples.depth) }
    ensures fault { IfErr result (λ e. IsReadError R.Source to_end front size source.old source.new e) }
{
    let samples = survey_data(&front, size, to_end, source)?;
    let back = read_all(alloc, source)?;
    let after = cut_after(alloc, samples.odd, back.as_slice())?;
    let WaveFront {
        format,
        pieces,
        size: _,
        count: _,
    } = front;
    Ok(WaveSurvey {
        format,
        pieces,
        size,
        samples,
        after,
    })
}

/// Reads the rest of a WAV file that states 0 bytes of samples. Whether its writer did not state their length is known
/// when all of the rest came, which is held for that.
///
/// # Errors
/// Why what came is no samples. The source returned an error, or an allocation failed.
fn survey_unsized<R: Source>(
    alloc: Global,
    front: WaveFront,
    to_end: bool,
    source: &mut R,
) -> Result<WaveSurvey, WaveError>
    requires range { IsInRange front.format }
    ensures found { IfOk result (λ f. FindsRest R.Source to_end front source.old f) }
    ensures range { IfOk result (λ f. IsInRange f.format) }
    ensures room { IfOk result (λ f. HasDepth f.format f.samples.depth) }
    ensures fault { IfErr result (λ e. IsRestError R.Source to_end front source.old source.new e) }
{
    let rest = read_all(alloc, source)?;
    let size = size_in(to_end, front.size, rest.as_slice());
    if is_unstated(size, rest.as_slice()) {
        return Err(WaveError::Fault(WaveFault {
            chunk: Some(front.count),
            why: WaveWhy::DataUnstated,
        }));
    }
    survey_parts(
        alloc,
        front,
        size,
        to_end,
        &mut Memory::new(rest.as_slice()),
    )
}

/// Reads a WAV file, and holds none of its samples.
///
/// # Errors
/// The first reason for which the file is none, and where. The source returned an error, or an allocation failed.
pub(crate) fn survey_file<R: Source>(
    alloc: Global,
    to_end: bool,
    source: &mut R,
) -> Result<WaveSurvey, WaveError>
    ensures found { IfOk result (λ f. R.known source.old ≡ true → IsSurveyed to_end (R.coming source.old) f) }
    ensures range { IfOk result (λ f. IsInRange f.format) }
    ensures room { IfOk result (λ f. HasDepth f.format f.samples.depth) }
    ensures fault { IfErr result (λ e. IfRead R.Source source.old source.new
        (IsErrorOf to_end (R.coming source.old) e)) }
{
    let front = read_front(alloc, source, to_end)?;
    let size = front.size;
    if states_none(size) {
        return survey_unsized(alloc, front, to_end, source);
    }
    survey_parts(alloc, front, size, to_end, source)
}
