//! A page that stands whole at an offset.

ghost use Rattle.std.specs.Prelude.{◌≡◌, ◌≤◌, ◌<◌, ◌+◌, true, false, length, get_or, IfSome, Some};
ghost use Rattle.std.specs.Int.{from_le_bytes, w32};
ghost use Rattle.std.specs.List.{sum};
ghost use Rattle.flac_bits.specs.Bits.{bits_of};
ghost use Rattle.flac_bits.specs.Check.{remainder};
ghost use Rattle.flac_whole_pages.specs.Standing.{between, unsummed, is_captured, IsStated, Stands, EachAt};

use flac_bits::crc32_after;

/// A page of an Ogg stream that stands whole among other bytes (RFC 3533, section 6).
#[derive(Clone, Copy, Debug, PartialEq, Eq)]
pub struct WholePage {
    /// The offset of its first byte.
    pub at: usize,
    /// The serial number of its stream (field 5).
    pub serial: u32,
    /// The offset of the first byte of its segments.
    pub body: usize,
    /// The offset of the first byte after it.
    pub end: usize,
}

/// How many bytes a page has before its lacing values.
const HEAD: usize = 27;

/// The capture pattern `OggS`, and version 0 (RFC 3533, section 6, fields 1 and 2).
const PATTERN: [u8; 5] = [0x4F, 0x67, 0x67, 0x53, 0];

/// Whether the capture pattern and version 0 are at an offset.
fn has_pattern(bytes: &[u8], at: usize) -> bool
    requires { at ≤ length bytes.now }
    ensures { result ≡ is_captured bytes.now at }
{
    bytes[at..].starts_with(&PATTERN)
}

/// The number of 32 bits at an offset, its lowest byte first.
fn number_at(bytes: &[u8], at: usize) -> u32
    requires { at + 4 ≤ length bytes.now }
    ensures { result ≡ from_le_bytes w32 (between at (at + 4) bytes.now) }
{
    let mut number = [0; 4];
    number.copy_from_slice(&bytes[at..at + 4]);
    u32::from_le_bytes(number)
}

/// The sum of lacing values, of which there are at most 255.
fn total(lacing: &[u8]) -> usize
    requires { length lacing.now ≤ 255 }
    ensures sum { result ≡ sum lacing.now }
    ensures small { result ≤ 65025 }
{
    let mut total = 0;
    for i in 0..lacing.len() {
        total += usize::from(lacing[i]);
    }
    total
}

/// The checksum that a page has to state: the remainder over all of it, whose own checksum counts as 0.
fn checksum(bytes: &[u8], at: usize, end: usize) -> u32
    requires long { at + 27 ≤ end }
    requires inside { end ≤ length bytes.now }
    ensures { result ≡ remainder 32 79764919 (bits_of (unsummed at end bytes.now)) }
{
    let check = crc32_after(0, &bytes[at..at + 22]);
    let check = crc32_after(check, &[0; 4]);
    crc32_after(check, &bytes[at + 26..end])
}

/// The page that an offset would have by its header, whatever its checksum is.
fn stated_at(bytes: &[u8], at: usize) -> Option<WholePage>
    requires { at < length bytes.now }
    ensures found { IfSome result (λ p. IsStated bytes.now at p) }
    ensures only { EachAt bytes.now at (λ p. result ≡ Some p) }
{
    let len = bytes.len();
    if len - at < HEAD || !has_pattern(bytes, at) {
        return None;
    }
    let body = at + HEAD + usize::from(bytes[at + 26]);
    if body > len {
        return None;
    }
    let end = body + total(&bytes[at + HEAD..body]);
    if end > len {
        return None;
    }
    Some(WholePage {
        at,
        serial: number_at(bytes, at + 14),
        body,
        end,
    })
}

/// Does what [`whole_page_at`] does, and takes the bytes that were looked at off a budget.
pub(crate) fn page_at(bytes: &[u8], at: usize, budget: &mut u64) -> Option<WholePage>
    requires { at < length bytes.now }
    ensures found { IfSome result (λ p. (p.at ≡ at) × Stands bytes.now p) }
    ensures only { EachAt bytes.now at (λ p. result ≡ Some p) }
{
    let Some(page) = stated_at(bytes, at) else {
        return None;
    };
    *budget = budget.saturating_sub((page.end - at) as u64);
    if number_at(bytes, at + 22) != checksum(bytes, at, page.end) {
        return None;
    }
    Some(page)
}

/// The page that stands whole at an offset: its capture pattern `OggS` with version 0, its segment table and all of its
/// segments are there, and its checksum is right (RFC 3533, section 6). `None` if none stands there.
pub fn whole_page_at(bytes: &[u8], at: usize) -> Option<WholePage>
    ensures found { IfSome result (λ p. (p.at ≡ at) × Stands bytes.now p) }
    ensures only { EachAt bytes.now at (λ p. result ≡ Some p) }
{
    if at >= bytes.len() {
        return None;
    }
    // One page is read, whatever it costs.
    let mut budget = u64::MAX;
    page_at(bytes, at, &mut budget)
}
