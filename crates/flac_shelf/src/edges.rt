//! How a file begins and ends.

ghost use Rattle.std.specs.Prelude.{◌≡◌, ◌≤◌, ◌-◌, length, take, drop};
ghost use Rattle.flac_shelf.specs.Listed.{IsEdges};

/// How a file begins and ends: what shows the tags that other programs put around a stream.
#[derive(Clone, Copy)]
pub struct Edges {
    /// How many bytes it has.
    pub size: u64,
    /// Its first ten bytes; any, if it has fewer.
    pub first: [u8; 10],
    /// Its last 128 bytes; any, if it has fewer.
    pub last: [u8; 128],
}

/// The first ten bytes; zeros, if there are fewer.
fn first_of(bytes: &[u8]) -> [u8; 10]
    ensures { 10 ≤ length bytes.now → result ≡ take 10 bytes.now }
{
    let mut first = [0; 10];
    if bytes.len() >= 10 {
        first.copy_from_slice(&bytes[..10]);
    }
    first
}

/// The last 128 bytes; zeros, if there are fewer.
fn last_of(bytes: &[u8]) -> [u8; 128]
    ensures { 128 ≤ length bytes.now → result ≡ drop (length bytes.now - 128) bytes.now }
{
    let mut last = [0; 128];
    if bytes.len() >= 128 {
        last.copy_from_slice(&bytes[bytes.len() - 128..]);
    }
    last
}

/// How bytes begin and end.
pub(crate) fn edges_of(bytes: &[u8]) -> Edges
    ensures { IsEdges bytes.now result }
{
    Edges {
        size: bytes.len() as u64,
        first: first_of(bytes),
        last: last_of(bytes),
    }
}
