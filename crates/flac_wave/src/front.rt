//! What comes before the samples of a WAV file that is read from a source.

ghost use Rattle.std.specs.Prelude.{◌≡◌, ◌≤◌, ◌<◌, ◌+◌, ◌++◌, [], true, false, cond, nat_lt, nat_eq, length, Some, None, IfOk, IfErr, OnOk};
ghost use Rattle.flac_wave.specs.Calls.{IfRead};
ghost use Rattle.flac_wave.specs.Chunks.{is_data, size_of, stated};
ghost use Rattle.flac_wave.specs.Format.{IsInRange};
ghost use Rattle.flac_wave.specs.Front.{front_fault, Begins};
ghost use Rattle.flac_wave.specs.Wave.{IsErrorOf};
ghost use Rattle.flac_wave.specs.inner.Pieces.{ReadsPiece, IsPieceError, error_at, IsPieceErrorOf};

use crate::chunks::{MOST_KEPT, chunk_len, header_fault, is_data, stated};
use crate::format::{WaveFormat, long_at};
use crate::reading::{read_at_most, skip};
use crate::seen::Seen;
use crate::waves::{WaveError, WaveFault};
use crate::why::WaveWhy;
use flac_bits::Source;
use std::alloc::Global;

/// What comes before the samples of a WAV file.
#[derive(Drop)]
pub struct WaveFront {
    /// The format of the samples.
    pub format: WaveFormat,
    /// The header of the file, its chunks, and the header of the chunk of samples.
    pub pieces: Vec<Vec<u8>>,
    /// How many bytes the samples have; `None` if they go to the end of the file.
    pub size: Option<u64>,
    /// How many chunks come before that of the samples.
    pub count: u64,
}

/// The error for a chunk of this number.
fn chunk_error(count: u64, why: WaveWhy) -> WaveError
    ensures { result ≡ error_at count why }
{
    WaveError::Fault(WaveFault {
        chunk: Some(count),
        why,
    })
}

/// The rest of a chunk, of whose header these are the bytes, after them. It is cut if the source ends inside it.
///
/// # Errors
/// The chunk is longer than those that are kept, or cut before such a length. An error of the source, or out of memory.
fn read_chunk<R: Source>(
    alloc: Global,
    source: &mut R,
    head: Vec<u8>,
    count: u64,
) -> Result<Vec<u8>, WaveError>
    requires head { length head.items ≡ 8 }
    requires other { is_data head.items ≡ false }
    ensures long { IfOk result (λ p. 8 ≤ length p.items) }
    ensures found { IfOk result (λ p. ReadsPiece R.Source head.items source.old source.new p.items) }
    ensures known { OnOk result (R.known source.old ≡ true → R.known source.new ≡ true) }
    ensures counted { OnOk result (R.raised source.new ≡ R.raised source.old) }
    ensures most { OnOk result (R.most source.new ≤ R.most source.old) }
    ensures fault { IfErr result (IsPieceErrorOf R.Source source.old source.new count head.items) }
    ensures names { R.names source.new ≡ R.names source.old }
{
    let left = chunk_len(head.as_slice()) - 8;
    if left + 8 > MOST_KEPT as u64 {
        let there = skip(source, left)?;
        return Err(chunk_error(count, too_long(there, left)));
    }
    let more = read_at_most(alloc, source, left)?;
    let mut piece = head;
    piece.extend_from_slice(more.as_slice())?;
    Ok(piece)
}

/// Why a chunk of too many bytes is refused, of which `there` of `left` bytes came after its header.
fn too_long(there: u64, left: u64) -> WaveWhy
    ensures { result ≡ cond (nat_lt there left) WaveWhy.ChunkCut WaveWhy.ChunkLength }
{
    if there < left {
        return WaveWhy::ChunkCut;
    }
    WaveWhy::ChunkLength
}

/// Why there is no header of a chunk: this is all that came of it, fewer bytes than it has.
fn no_chunk(bytes: &[u8]) -> WaveWhy
    ensures { result ≡ cond (nat_eq (length bytes.now) 0) WaveWhy.NoData WaveWhy.ChunkCut }
{
    if bytes.is_empty() {
        return WaveWhy::NoData;
    }
    WaveWhy::ChunkCut
}

/// The next piece of a file: the header of the chunk of samples, or a chunk before it, which is cut if the source ends
/// inside it.
///
/// # Errors
/// There is no header of a chunk; the chunk is too long. An error of the source, or out of memory.
fn next_piece<R: Source>(alloc: Global, source: &mut R, count: u64) -> Result<Vec<u8>, WaveError>
    ensures long { IfOk result (λ p. 8 ≤ length p.items) }
    ensures found { IfOk result (λ p. ReadsPiece R.Source [] source.old source.new p.items) }
    ensures known { OnOk result (R.known source.old ≡ true → R.known source.new ≡ true) }
    ensures counted { OnOk result (R.raised source.new ≡ R.raised source.old) }
    ensures most { OnOk result (R.most source.new < R.most source.old) }
    ensures fault { IfErr result (λ e. IfRead R.Source source.old source.new
        (IsPieceError count (R.coming source.old) e)) }
    ensures names { R.names source.new ≡ R.names source.old }
{
    let head = read_at_most(alloc, source, 8)?;
    if head.len() < 8 {
        return Err(chunk_error(count, no_chunk(head.as_slice())));
    }
    if is_data(head.as_slice()) {
        return Ok(head);
    }
    read_chunk(alloc, source, head, count)
}

/// The format of the samples, whose chunk has this header, and how many bytes they have; `None` if they go to the end.
///
/// # Errors
/// No format was stated before.
fn samples_after(seen: &Seen, head: &[u8]) -> Result<(WaveFormat, Option<u64>), WaveWhy>
    requires { 8 ≤ length head.now }
    ensures found { IfOk result (λ r. (seen.now.format ≡ Some r.0) × (r.1 ≡ stated seen.now (size_of head.now))) }
    ensures fault { IfErr result (λ e. (seen.now.format ≡ None) × (e ≡ WaveWhy.NoFormat)) }
{
    let Some(format) = seen.format else {
        return Err(WaveWhy::NoFormat);
    };
    Ok((format, stated(seen, long_at(head, 4))))
}

/// Reads what comes before the samples of a WAV file. The samples and what follows them are still to come. No more is
/// held than what is read, and chunks that are too long to be kept are not held.
///
/// # Errors
/// [`WaveError::Fault`] with the first reason for which the file is no WAV file, as far as it was read, and where.
/// [`WaveError::Read`] if the source returns an error, [`WaveError::Memory`] if an allocation fails.
pub fn read_front<R: Source>(
    alloc: Global,
    source: &mut R,
    to_end: bool,
) -> Result<WaveFront, WaveError>
    ensures found { IfOk result (Begins R.Source to_end source.old source.new) }
    ensures range { IfOk result (λ f. IsInRange f.format) }
    ensures known { OnOk result (R.known source.old ≡ true → R.known source.new ≡ true) }
    ensures counted { OnOk result (R.raised source.new ≡ R.raised source.old) }
    ensures fault { IfErr result (λ e. IfRead R.Source source.old source.new
        (IsErrorOf to_end (R.coming source.old) e)) }
    ensures names { R.names source.new ≡ R.names source.old }
{
    let header = read_at_most(alloc, source, 12)?;
    if let Some(why) = header_fault(header.as_slice()) {
        return Err(WaveError::Fault(WaveFault { chunk: None, why }));
    }
    let mut seen = Seen::first(header.as_slice(), to_end);
    let mut pieces = Vec::new(alloc);
    pieces.push(header)?;
    let mut count = 0;
    'chunks: loop {
        let piece = next_piece(alloc, source, count)?;
        if is_data(piece.as_slice()) {
            let (format, size) = match samples_after(&seen, piece.as_slice()) {
                Ok(samples) => samples,
                Err(why) => return Err(chunk_error(count, why)),
            };
            pieces.push(piece)?;
            return Ok(WaveFront {
                format,
                pieces,
                size,
                count,
            });
        }
        match seen.next(piece.as_slice()) {
            Ok(known) => seen = known,
            Err(why) => return Err(chunk_error(count, why)),
        }
        pieces.push(piece)?;
        count += 1;
    }
}

/// Why samples are refused that came of a file: it ended inside them (`cut`), and they may not go on to its end; or
/// they are no whole number of inter-channel samples.
pub fn front_fault(to_end: bool, cut: bool, whole: bool) -> Option<WaveWhy>
    ensures { result ≡ front_fault to_end cut whole }
{
    if cut && !to_end {
        return Some(WaveWhy::DataCut);
    }
    if whole {
        return None;
    }
    Some(WaveWhy::PartSample)
}
