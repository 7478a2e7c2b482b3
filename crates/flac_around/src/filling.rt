//! Bytes of a source that are read to be held, or are skipped.

ghost use Rattle.std.specs.Prelude.{◌≡◌, ◌≤◌, ◌<◌, ◌+◌, ◌++◌, true, [], length, drop, min, IfOk, OnOk, OnErr};
ghost use Rattle.flac_around.specs.inner.Pulling.{Goes, Fails, IsOver, FillsPlaces, Skips};

use flac_bits::Source;
use std::io;

/// How many bytes are skipped at once, at most.
const PIECE: usize = 4096;

/// Puts the next bytes of a source into the places from `from` up to `most`, and returns where they end: before `most`
/// if the source ends.
///
/// # Errors
/// That of the source.
pub(crate) fn fill<S: Source>(
    source: &mut S,
    places: &mut [u8],
    from: usize,
    most: usize,
) -> io::Result<usize>
    requires order { from ≤ most }
    requires within { most ≤ length places.old }
    ensures least { IfOk result (λ n. from ≤ n) }
    ensures few { IfOk result (λ n. n ≤ most) }
    ensures bytes { IfOk result (FillsPlaces S.Source source.old source.new from places.old places.new) }
    ensures end { IfOk result (λ n. n < most → IsOver S.Source source.old source.new) }
    ensures most { IfOk result (λ n. S.most source.new + n ≤ S.most source.old + from) }
    ensures goes { OnOk result (Goes S.Source source.old source.new) }
    ensures fails { OnErr result (Fails S.Source (λ coming. from + length coming < most) source.old source.new) }
{
    let mut count = from;
    while count < most {
        let more = match source.pull(&mut places[count..most]) {
            Ok(more) => more,
            Err(error) => return Err(error),
        };
        if more == 0 {
            return Ok(count);
        }
        count += more;
    }
    Ok(count)
}

/// Pulls at most `most` bytes, and lets them go.
fn skip_some<S: Source>(source: &mut S, most: u64) -> io::Result<usize>
    requires { 0 < most }
    ensures few { IfOk result (λ n. n ≤ most) }
    ensures bytes { IfOk result (λ n. Skips S.Source source.old source.new n) }
    ensures end { IfOk result (λ n. n ≡ 0 → IsOver S.Source source.old source.new) }
    ensures goes { OnOk result (Goes S.Source source.old source.new) }
    ensures fails { OnErr result (Fails S.Source (λ coming. coming ≡ []) source.old source.new) }
{
    let mut piece = [0u8; PIECE];
    let room = most.min(PIECE as u64) as usize;
    source.pull(&mut piece[..room])
}

/// Skips the next bytes of a source, at most `most`, and returns how many: fewer if the source ends.
///
/// # Errors
/// That of the source.
pub(crate) fn skip<S: Source>(source: &mut S, most: u64) -> io::Result<u64>
    ensures few { IfOk result (λ n. n ≤ most) }
    ensures bytes { IfOk result
        (λ n. S.known source.old ≡ true → S.coming source.new ≡ drop most (S.coming source.old)) }
    ensures count { IfOk result (λ n. S.known source.old ≡ true → n ≡ min most (length (S.coming source.old))) }
    ensures goes { OnOk result (Goes S.Source source.old source.new) }
    ensures fails { OnErr result (Fails S.Source (λ coming. drop most coming ≡ []) source.old source.new) }
{
    let mut left = most;
    while left > 0 {
        let count = match skip_some(source, left) {
            Ok(count) => count,
            Err(error) => return Err(error),
        };
        if count == 0 {
            return Ok(most - left);
        }
        left -= count as u64;
    }
    Ok(most)
}
