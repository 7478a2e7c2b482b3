//! Where a stream is in bytes that are held, between the tags of other programs.

ghost use Rattle.std.specs.Prelude.{◌≡◌, ◌≤◌, ◌-◌, length, min};
ghost use Rattle.flac_around.specs.Around.{front_length, past_front, back_length};

use crate::tags::{front_length, is_back};

/// How many bytes an ID3v1 tag has.
const BACK: usize = 128;

/// How many bytes an ID3v1 tag has at the end of these bytes; 0 if there is none.
fn back_length(rest: &[u8]) -> usize
    ensures length { result ≡ back_length rest.now }
    ensures few { result ≤ length rest.now }
{
    let before = rest.len().saturating_sub(BACK);
    if is_back(&rest[before..]) { BACK } else { 0 }
}

/// How many bytes an ID3v2 tag has at the start of these bytes, at most all of them.
fn front_within(bytes: &[u8]) -> usize
    ensures { result ≡ min (front_length bytes.now) (length bytes.now) }
{
    let front = front_length(bytes);
    let len = bytes.len();
    if front < len as u64 {
        front as usize
    } else {
        len
    }
}

/// Where the bytes are that are between the tags of other programs: the offset of the first of them, and that of the
/// first byte after them. One ID3v2 tag at the start and one ID3v1 tag at the end are left out, as
/// [`Between`](crate::Between) leaves them out.
pub fn between_tags(bytes: &[u8]) -> (usize, usize)
    ensures start { result.0 ≡ min (front_length bytes.now) (length bytes.now) }
    ensures end { result.1 ≡ length bytes.now - back_length (past_front bytes.now) }
    ensures order { result.0 ≤ result.1 }
    ensures inside { result.1 ≤ length bytes.now }
{
    let start = front_within(bytes);
    let rest = &bytes[start..];
    (start, bytes.len() - back_length(rest))
}
