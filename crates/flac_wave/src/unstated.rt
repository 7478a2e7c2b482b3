//! Samples whose header states no length, though they are there: what a recorder leaves that ended before its time.

ghost use Rattle.std.specs.Prelude.{◌≡◌};
ghost use Rattle.flac_wave.specs.Chunks.{is_printing, is_named, begins_chunk, is_unstated, size_in};

use crate::format::long_at;

/// Whether a byte is a printing character of ASCII.
fn is_printing(byte: u8) -> bool
    ensures { result ≡ is_printing byte }
{
    byte > 31 && byte < 127
}

/// Whether bytes begin as a chunk does, with an identifier of four printing characters.
fn is_named(bytes: &[u8]) -> bool
    ensures { result ≡ is_named bytes.now }
{
    match bytes {
        [a, b, c, d, ..] => is_printing(*a)
            && is_printing(*b)
            && is_printing(*c)
            && is_printing(*d),
        _ => false,
    }
}

/// Whether bytes begin with a whole chunk.
fn begins_chunk(bytes: &[u8]) -> bool
    ensures { result ≡ begins_chunk bytes.now }
{
    if bytes.len() < 8 || !is_named(bytes) {
        return false;
    }
    u64::from(long_at(bytes, 4)) + 7 < bytes.len() as u64
}

/// Whether the header of the samples states 0 bytes, and `rest`, which follows it, is no chunk.
pub fn is_unstated(size: Option<u64>, rest: &[u8]) -> bool
    ensures { result ≡ is_unstated size rest.now }
{
    match size {
        Some(bytes) => bytes == 0 && !rest.is_empty() && !begins_chunk(rest),
        None => false,
    }
}

/// How many bytes the samples have whose header states `size` of them, if `rest` follows it; `None` if they go to the
/// end of the file. They go there if the header states no length though they are there, and `to_end` allows it.
pub fn size_in(to_end: bool, size: Option<u64>, rest: &[u8]) -> Option<u64>
    ensures { result ≡ size_in to_end size rest.now }
{
    if to_end && is_unstated(size, rest) {
        return None;
    }
    size
}
