//! Reading of a source part by part.

ghost use Rattle.std.specs.Prelude.{◌≡◌, ◌≤◌, ◌<◌, ◌+◌, [], true, length, take, min, IfOk, IfErr, OnOk, OnErr};
ghost use Rattle.flac_wave.specs.Calls.{Gave, IfRead};

use flac_bits::{Source, Why};
use std::alloc::Global;

/// How many bytes are read at once, at most.
const PIECE: usize = 16384;

/// Fills the front of `places` with the next bytes of a source, at most `most`, and returns how many: fewer if the
/// source ends.
///
/// # Errors
/// [`Why::Read`] if the source returns an error.
pub fn fill<R: Source>(source: &mut R, places: &mut [u8], most: usize) -> Result<usize, Why>
    requires { most ≤ length places.old }
    ensures few { IfOk result (λ n. n ≤ most) }
    ensures bytes { IfOk result (λ n. Gave R.Source source.old source.new (take n places.new)) }
    ensures end { IfOk result (λ n. n < most → R.known source.old ≡ true → R.coming source.new ≡ []) }
    ensures known { OnOk result (R.known source.old ≡ true → R.known source.new ≡ true) }
    ensures counted { OnOk result (R.raised source.new ≡ R.raised source.old) }
    ensures errors { OnOk result (R.errors source.new ≡ R.errors source.old) }
    ensures after { OnOk result (R.known source.old ≡ true → R.after source.new ≡ R.after source.old) }
    ensures most { IfOk result (λ n. R.most source.new + n ≤ R.most source.old) }
    ensures failed { OnErr result (R.known source.old ≡ true → R.raised source.old < R.raised source.new) }
    ensures names { R.names source.new ≡ R.names source.old }
{
    let mut count = 0;
    while count < most {
        let Ok(more) = source.pull(&mut places[count..most]) else {
            return Err(Why::Read);
        };
        if more == 0 {
            return Ok(count);
        }
        count += more;
    }
    Ok(count)
}

/// The next bytes of a source, at most `most`: fewer if the source ends. They are read in pieces of at most 16384
/// bytes, so no more is allocated than there is.
///
/// # Errors
/// [`Why::Read`] if the source returns an error, [`Why::Memory`] if an allocation fails.
pub fn read_at_most<R: Source>(alloc: Global, source: &mut R, most: u64) -> Result<Vec<u8>, Why>
    ensures few { IfOk result (λ bytes. length bytes.items ≤ most) }
    ensures bytes { IfOk result (λ bytes. Gave R.Source source.old source.new bytes.items) }
    ensures end { IfOk result
        (λ bytes. length bytes.items < most → R.known source.old ≡ true → R.coming source.new ≡ []) }
    ensures known { OnOk result (R.known source.old ≡ true → R.known source.new ≡ true) }
    ensures counted { OnOk result (R.raised source.new ≡ R.raised source.old) }
    ensures after { OnOk result (R.known source.old ≡ true → R.after source.new ≡ R.after source.old) }
    ensures most { IfOk result (λ bytes. R.most source.new + length bytes.items ≤ R.most source.old) }
    ensures memory { IfErr result (λ e. IfRead R.Source source.old source.new (e ≡ Why.Memory)) }
    ensures names { R.names source.new ≡ R.names source.old }
{
    let mut bytes = Vec::new(alloc);
    let mut piece = [0u8; PIECE];
    'pieces: loop {
        let room = (most - bytes.len() as u64).min(PIECE as u64) as usize;
        let count = fill(source, &mut piece, room)?;
        bytes.extend_from_slice(&piece[..count])?;
        if count < PIECE {
            return Ok(bytes);
        }
    }
}

/// All bytes of a source that are still to come.
///
/// # Errors
/// [`Why::Read`] if the source returns an error, [`Why::Memory`] if an allocation fails.
pub fn read_all<R: Source>(alloc: Global, source: &mut R) -> Result<Vec<u8>, Why>
    ensures bytes { IfOk result (λ bytes. R.known source.old ≡ true → bytes.items ≡ R.coming source.old) }
    ensures end { OnOk result (R.known source.old ≡ true → R.coming source.new ≡ []) }
    ensures known { OnOk result (R.known source.old ≡ true → R.known source.new ≡ true) }
    ensures counted { OnOk result (R.raised source.new ≡ R.raised source.old) }
    ensures after { OnOk result (R.known source.old ≡ true → R.after source.new ≡ R.after source.old) }
    ensures memory { IfErr result (λ e. IfRead R.Source source.old source.new (e ≡ Why.Memory)) }
    ensures names { R.names source.new ≡ R.names source.old }
{
    let bytes = read_at_most(alloc, source, u64::MAX)?;
    // Read only for the proof, which then knows that there are fewer than 2^64 - 1.
    let _count = bytes.len();
    Ok(bytes)
}

/// Skips the next bytes of a source, at most `most`, and returns how many: fewer if the source ends.
///
/// # Errors
/// [`Why::Read`] if the source returns an error.
pub(crate) fn skip<R: Source>(source: &mut R, most: u64) -> Result<u64, Why>
    ensures count { IfOk result (λ n. R.known source.old ≡ true → n ≡ min most (length (R.coming source.old))) }
    ensures counted { OnOk result (R.raised source.new ≡ R.raised source.old) }
    ensures failed { OnErr result (R.known source.old ≡ true → R.raised source.old < R.raised source.new) }
    ensures names { R.names source.new ≡ R.names source.old }
{
    let mut done = 0;
    let mut piece = [0u8; PIECE];
    'pieces: loop {
        let room = (most - done).min(PIECE as u64) as usize;
        let count = fill(source, &mut piece, room)?;
        done += count as u64;
        if count < PIECE {
            return Ok(done);
        }
    }
}
