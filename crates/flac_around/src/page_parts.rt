//! The parts of an Ogg page (RFC 3533, section 6).

ghost use Rattle.std.specs.Prelude.{◌≡◌, ◌≤◌, ◌+◌, ◌++◌, ◌∷◌, [], length, take, drop};
ghost use Rattle.std.specs.Int.{to_le_bytes, w32};
ghost use Rattle.std.specs.List.{sum};
ghost use Rattle.flac_around.specs.EmptyPackets.{begins_page, kept, check_of, page_bytes, checked};
ghost use Rattle.flac_around.specs.inner.Pages.{page_of};

use flac_bits::crc32_after;

/// How many bytes of a page come before its lacing values.
pub(crate) const HEAD: usize = 27;

/// How many of these come before its checksum.
pub(crate) const FIELDS: usize = 22;

/// How many bytes of a page come before its segments, at most: those and 255 lacing values.
pub(crate) const LEAD: usize = 282;

/// How many bytes its segments have, at most: 255 of 255 bytes.
pub(crate) const BODY: usize = 65025;

/// Whether these bytes begin with `OggS` and version 0, as a page does.
pub(crate) fn begins_page(bytes: &[u8]) -> bool
    ensures { result ≡ begins_page bytes.now }
{
    bytes.starts_with(b"OggS\0")
}

/// How many bytes the segments of these lacing values have.
pub(crate) fn total(lacing: &[u8]) -> usize
    requires { length lacing.now ≤ 255 }
    ensures sum { result ≡ sum lacing.now }
    ensures most { result ≤ 65025 }
{
    let mut total = 0;
    for i in 0..lacing.len() {
        total += usize::from(lacing[i]);
    }
    total
}

/// How many lacing values there are up to the last that is no empty packet. `continues` says that a packet goes on
/// before the first of them.
pub(crate) fn kept(continues: bool, lacing: &[u8]) -> usize
    ensures value { result ≡ kept continues lacing.now }
    ensures most { result ≤ length lacing.now }
{
    let mut kept = 0;
    let mut goes_on = continues;
    for i in 0..lacing.len() {
        let value = lacing[i];
        if value != 0 || goes_on {
            kept = i + 1;
        }
        goes_on = value == 255;
    }
    kept
}

/// The bytes of a page before its lacing values.
fn head_bytes(fields: &[u8], sum: u32, count: u8) -> [u8; HEAD]
    requires { length fields.now ≡ 22 }
    ensures { result ≡ fields.now ++ (to_le_bytes w32 sum ++ count ∷ []) }
{
    let mut head = [0; HEAD];
    let [a, b, c, d] = sum.to_le_bytes();
    head[..FIELDS].copy_from_slice(fields);
    head[FIELDS..].copy_from_slice(&[a, b, c, d, count]);
    head
}

/// The checksum that a page has to have, of which `lead` has all bytes before the segments.
pub(crate) fn checksum(lead: &[u8], body: &[u8]) -> u32
    requires least { 27 ≤ length lead.now }
    requires most { length lead.now ≤ 282 }
    ensures { to_le_bytes w32 result ≡ check_of (page_of lead.now body.now) }
{
    let lacing = &lead[HEAD..];
    let head = head_bytes(&lead[..FIELDS], 0, lacing.len() as u8);
    let check = crc32_after(0, &head);
    let check = crc32_after(check, lacing);
    crc32_after(check, body)
}

/// Gives a page the number of its lacing values and its checksum. `lead` has the page's bytes before the segments.
pub(crate) fn complete(lead: &mut [u8], body: &[u8])
    requires least { 27 ≤ length lead.old }
    requires most { length lead.old ≤ 282 }
    ensures { lead.new ++ body.now ≡ page_bytes (checked (page_of lead.old body.now)) }
{
    let sum = checksum(lead, body);
    let count = (lead.len() - HEAD) as u8;
    let head = head_bytes(&lead[..FIELDS], sum, count);
    lead[..HEAD].copy_from_slice(&head);
}
