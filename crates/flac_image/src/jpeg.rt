//! The frame header of JPEG pictures.

ghost use Rattle.std.specs.Prelude.{◌≡◌, ◌≤◌, ◌<◌, ◌+◌, length, IfSome, IfOk};
ghost use Rattle.flac_image.specs.Jpeg.{short_at, is_frame, is_end, segment_len, next_len, frame_of, at_marker, frame_in, jpeg_of};

use crate::image::{Image, ImageKind};
use byteorder::{BigEndian, ByteOrder};

/// The number of two bytes at a place, the highest first.
fn short_at(bytes: &[u8], place: usize) -> u32
    requires { place + 2 ≤ length bytes.now }
    ensures value { result ≡ short_at place bytes.now }
    ensures small { result < 65536 }
{
    u32::from(BigEndian::read_u16(&bytes[place..]))
}

/// Whether a marker begins a frame header.
fn is_frame(code: u8) -> bool
    ensures { result ≡ is_frame code }
{
    192 <= code && code < 208 && !(code == 196 || (code == 200 || code == 204))
}

/// Whether a marker begins a scan, or ends the picture.
fn is_end(code: u8) -> bool
    ensures { result ≡ is_end code }
{
    code == 217 || code == 218
}

/// How many bytes a marker and its segment have; `None` if the segment is not whole.
#[tactic(auto, unfolding(crate::specs::Jpeg::segment_len))]
fn segment_len(bytes: &[u8]) -> Option<usize>
    requires { 4 ≤ length bytes.now }
    ensures value { result ≡ segment_len bytes.now }
    ensures inside { IfSome result (λ n. n ≤ length bytes.now) }
{
    let len = 2 + short_at(bytes, 2) as usize;
    if bytes.len() < len {
        return None;
    }
    Some(len)
}

/// How far it is to the next marker: over a fill byte, or a marker and its segment; `None` if the segment is not whole.
#[tactic(auto, unfolding(crate::specs::Jpeg::next_len))]
fn next_len(bytes: &[u8]) -> Option<usize>
    requires { 4 ≤ length bytes.now }
    ensures value { result ≡ next_len bytes.now }
    ensures inside { IfSome result (λ n. n ≤ length bytes.now) }
{
    if bytes[1] == 255 {
        return Some(1);
    }
    segment_len(bytes)
}

/// The sizes that a frame header states; `None` if it is not whole.
#[tactic(auto, unfolding(crate::specs::Jpeg::frame_of))]
fn frame_of(bytes: &[u8]) -> Option<Image>
    ensures { result ≡ frame_of bytes.now }
{
    if bytes.len() < 10 {
        return None;
    }
    Some(Image {
        kind: ImageKind::Jpeg,
        width: short_at(bytes, 7),
        height: short_at(bytes, 5),
        depth: u32::from(bytes[4]) * u32::from(bytes[9]),
        colours: 0,
    })
}

/// How far it is from a marker to the next one.
///
/// # Errors
/// It goes no further. What is found: the sizes that a frame header states; else `None`.
#[tactic(auto, unfolding(crate::specs::Jpeg::at_marker))]
fn at_marker(bytes: &[u8]) -> Result<usize, Option<Image>>
    ensures value { result ≡ at_marker bytes.now }
    ensures inside { IfOk result (λ n. n ≤ length bytes.now) }
{
    if bytes.len() < 4 || bytes[0] != 255 {
        return Err(None);
    }
    if is_frame(bytes[1]) {
        return Err(frame_of(bytes));
    }
    if is_end(bytes[1]) {
        return Err(None);
    }
    match next_len(bytes) {
        Some(len) => Ok(len),
        None => Err(None),
    }
}

/// The sizes that the first frame header of these segments states; `None` if there is none before a scan.
fn frame_in(bytes: &[u8]) -> Option<Image>
    ensures { result ≡ frame_in (length bytes.now) bytes.now }
{
    let mut rest = bytes;
    let mut left = bytes.len();
    while left > 0 {
        match at_marker(rest) {
            Ok(len) => rest = &rest[len..],
            Err(found) => return found,
        }
        left -= 1;
    }
    None
}

/// The sizes of a JPEG picture; `None` if it is none, or has no frame header.
#[tactic(auto, unfolding(crate::specs::Jpeg::jpeg_of))]
pub(crate) fn jpeg_of(bytes: &[u8]) -> Option<Image>
    ensures { result ≡ jpeg_of bytes.now }
{
    if bytes.len() < 2 || bytes[0] != 255 || bytes[1] != 216 {
        return None;
    }
    let (_, segments) = bytes.split_at(2);
    frame_in(segments)
}
