//! What follows the samples of a WAV file, in pieces.

ghost use Rattle.std.specs.Prelude.{◌≡◌, ◌≤◌, ◌<◌, length, map, not, true, IfOk, OnOk};
ghost use Rattle.flac_wave.specs.Cuts.{piece_len, AddsCuts};
ghost use Rattle.flac_wave.specs.Wave.{ArePiecesAfter, begins_zero, AreCutBy};

use crate::chunks::{MOST_KEPT, chunk_len};
use std::alloc::{AllocError, Global};

/// How many bytes the next piece has.
#[tactic(auto, unfolding(crate::specs::Cuts::piece_len))]
fn piece_len(bytes: &[u8]) -> usize
    requires { 0 < length bytes.now }
    ensures value { result ≡ piece_len bytes.now }
    ensures some { (0 < result) × (result ≤ length bytes.now) }
{
    if bytes.len() >= 8 {
        let len = chunk_len(bytes);
        if len <= bytes.len() as u64 && len <= MOST_KEPT as u64 {
            return len as usize;
        }
    }
    bytes.len().min(MOST_KEPT)
}

/// Adds bytes to pieces, cut into pieces that a metadata block can keep.
fn cut_onto(pieces: &mut Vec<Vec<u8>>, alloc: Global, bytes: &[u8]) -> Result<(), AllocError>
    ensures { OnOk result
        (AddsCuts (map (λ p. p.items) pieces.old.items) (map (λ p. p.items) pieces.new.items) bytes.now) }
{
    let mut rest = bytes;
    while !rest.is_empty() {
        let (piece, more) = rest.split_at(piece_len(rest));
        let copy = Vec::from_slice(alloc, piece)?;
        pieces.push(copy)?;
        rest = more;
    }
    Ok(())
}

/// Whether bytes begin with a zero.
fn begins_zero(bytes: &[u8]) -> bool
    ensures value { result ≡ begins_zero bytes.now }
    ensures some { result ≡ true → 0 < length bytes.now }
{
    match bytes {
        [first, ..] => *first == 0,
        [] => false,
    }
}

/// The pieces that are kept of what follows the samples of a WAV file: its chunks, and what is none.
///
/// A zero after samples of odd length is not kept, since it is to be there. If it is not, the first piece has no byte.
/// A piece has at most 16777211 bytes, as many as a metadata block keeps.
///
/// # Errors
/// An allocation fails.
pub fn cut(alloc: Global, samples: &[u8], back: &[u8]) -> Result<Vec<Vec<u8>>, AllocError>
    ensures { IfOk result (λ pieces. ArePiecesAfter samples.now back.now (map (λ p. p.items) pieces.items)) }
{
    cut_after(alloc, samples.len() % 2 == 1, back)
}

/// What [`cut`] makes of what follows samples that are no longer held: only whether they are of an odd number of bytes
/// counts.
///
/// # Errors
/// An allocation fails.
pub fn cut_after(alloc: Global, odd: bool, back: &[u8]) -> Result<Vec<Vec<u8>>, AllocError>
    ensures { IfOk result (λ pieces. AreCutBy (not odd) back.now pieces.items) }
{
    let mut pieces = Vec::new(alloc);
    if !odd {
        cut_onto(&mut pieces, alloc, back)?;
        return Ok(pieces);
    }
    if begins_zero(back) {
        cut_onto(&mut pieces, alloc, &back[1..])?;
        return Ok(pieces);
    }
    pieces.push(Vec::new(alloc))?;
    cut_onto(&mut pieces, alloc, back)?;
    Ok(pieces)
}
