//! Tags: how long an ID3v2 tag is, and what an ID3v1 tag is.

ghost use Rattle.std.specs.Prelude.{◌≡◌, ◌≤◌, ◌<◌, ℕ, nat_lt, List, length};
ghost use Rattle.flac_around.specs.Around.{front_length, is_id3, is_version, are_seven_bits, has_footer, seven_bits, is_back, last_128, has_tags};
ghost use Rattle.flac_shelf.specs.Listed.{IsEdges};

use flac_shelf::Edges;

/// Whether these are the bytes `ID3`.
fn is_id3(i: u8, d: u8, three: u8) -> bool
    ensures { result ≡ is_id3 i d three }
{
    i == b'I' && d == b'D' && three == b'3'
}

/// Whether a tag has such a version and revision.
fn is_version(version: u8, revision: u8) -> bool
    ensures { result ≡ is_version version revision }
{
    version < 255 && revision < 255
}

/// Whether each of these bytes has seven bits.
fn are_seven_bits(a: u8, b: u8, c: u8, d: u8) -> bool
    ensures { result ≡ are_seven_bits a b c d }
{
    a < 128 && b < 128 && c < 128 && d < 128
}

/// Whether a tag of this version with these flags has a footer.
fn has_footer(version: u8, flags: u8) -> bool
    ensures { result ≡ has_footer version flags }
{
    version == 4 && flags / 16 % 2 == 1
}

/// A number of 28 bits, if each byte has seven.
fn seven_bits(a: u8, b: u8, c: u8, d: u8) -> u64
    ensures value { result ≡ seven_bits a b c d }
    ensures most { result < 540000000 }
{
    ((u64::from(a) * 128 + u64::from(b)) * 128 + u64::from(c)) * 128 + u64::from(d)
}

/// How many bytes an ID3v2 tag has that begins with these; 0 if none begins with them.
pub(crate) fn front_length(head: &[u8]) -> u64
    ensures value { result ≡ front_length head.now }
    ensures most { result < 600000000 }
{
    let [i, d, three, version, revision, flags, a, b, c, e, ..] = head else {
        return 0;
    };
    if !is_id3(*i, *d, *three) {
        return 0;
    }
    if !is_version(*version, *revision) {
        return 0;
    }
    if !are_seven_bits(*a, *b, *c, *e) {
        return 0;
    }
    let size = seven_bits(*a, *b, *c, *e);
    if has_footer(*version, *flags) {
        return size + 20;
    }
    size + 10
}

/// Whether these bytes are an ID3v1 tag.
pub(crate) fn is_back(bytes: &[u8]) -> bool
    ensures { result ≡ is_back bytes.now }
{
    bytes.len() == 128 && bytes.starts_with(b"TAG")
}

/// Whether an ID3v2 tag begins an input that begins so.
fn has_front(edges: &Edges) -> bool
    ensures { (bytes : List ℕ) → IsEdges bytes edges.now → result ≡ nat_lt 0 (front_length bytes) }
{
    if edges.size < 10 {
        return false;
    }
    front_length(&edges.first) > 0
}

/// Whether an ID3v1 tag ends an input that ends so.
fn has_back(edges: &Edges) -> bool
    ensures { (bytes : List ℕ) → IsEdges bytes edges.now → result ≡ is_back (last_128 bytes) }
{
    if edges.size < 128 {
        return false;
    }
    is_back(&edges.last)
}

/// Whether a tag begins an input that begins and ends so, or ends what comes after such a tag.
pub(crate) fn has_tags(edges: &Edges) -> bool
    ensures { (bytes : List ℕ) → IsEdges bytes edges.now → result ≡ has_tags bytes }
{
    if has_front(edges) {
        return true;
    }
    has_back(edges)
}
