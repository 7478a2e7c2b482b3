//! Texts in a line.

ghost use Rattle.std.specs.Prelude.{◌≡◌, ◌<◌, ◌≤◌, [], length, Some, IfOk, IfSome, option_map};
ghost use Rattle.std.specs.String.{string_bytes};
ghost use Rattle.flac_report.specs.inner.Reading.{digit_of, joined, escaped_in, letter_in, unescaped, text_in, if_utf8};

use crate::numbers::after;
use std::alloc::{AllocError, Global};

/// The value of a hexadecimal digit, in either case.
#[tactic(auto, unfolding(crate::specs::inner::Reading::digit_of))]
fn digit_of(byte: u8) -> Option<u8>
    ensures value { result ≡ digit_of byte }
    ensures small { IfSome result (λ digit. digit < 16) }
{
    if 48 <= byte && byte <= 57 {
        return Some(byte - 48);
    }
    if 97 <= byte && byte <= 102 {
        return Some(byte - 87);
    }
    if 65 <= byte && byte <= 70 {
        return Some(byte - 55);
    }
    None
}

/// The byte of two hexadecimal digits.
fn byte_of(high: u8, low: u8) -> Option<u8>
    ensures { result ≡ joined (digit_of high) (digit_of low) }
{
    match digit_of(high) {
        Some(high) => match digit_of(low) {
            Some(low) => Some(high * 16 + low),
            None => None,
        },
        None => None,
    }
}

/// The byte whose escape goes on so after its backslash, `u00` and two hexadecimal digits.
#[tactic(auto, unfolding(crate::specs::inner::Reading::escaped_in))]
fn escaped_in(text: &[u8]) -> Option<u8>
    ensures value { result ≡ escaped_in text.now }
    ensures long { IfSome result (λ byte. 5 ≤ length text.now) }
{
    if text.len() < 5 || !text.starts_with(b"u00") {
        return None;
    }
    byte_of(text[3], text[4])
}

/// The byte that a text begins with, and how many bytes it is written in: six if it is escaped, else one.
#[tactic(auto, unfolding(crate::specs::inner::Reading::letter_in))]
fn letter_in(text: &[u8]) -> Option<(u8, usize)>
    ensures value { result ≡ letter_in text.now }
    ensures some { IfSome result (λ letter. 0 < letter.1) }
    ensures inside { IfSome result (λ letter. letter.1 ≤ length text.now) }
{
    match text {
        [92, after @ ..] => match escaped_in(after) {
            Some(byte) => Some((byte, 6)),
            None => None,
        },
        [byte, ..] => Some((*byte, 1)),
        [] => None,
    }
}

/// The bytes of a text; `None` if a backslash begins no escape.
fn unescaped(alloc: Global, text: &[u8]) -> Result<Option<Vec<u8>>, AllocError>
    ensures { IfOk result (λ bytes. option_map (λ v. v.items) bytes ≡ unescaped 0 [] text.now) }
{
    let mut bytes = Vec::with_capacity(alloc, text.len())?;
    let mut place = 0usize;
    while place < text.len() {
        match letter_in(after(text, place)) {
            Some((byte, count)) => {
                bytes.push(byte)?;
                place += count;
            }
            None => return Ok(None),
        }
    }
    Ok(Some(bytes))
}

/// The text of bytes that are UTF-8.
fn string_of(bytes: Vec<u8>) -> Option<String>
    ensures { option_map string_bytes result ≡ if_utf8 (Some bytes.items) }
{
    match String::from_utf8(bytes) {
        Ok(text) => Some(text),
        Err(_) => None,
    }
}

/// The text that is written so, in which bytes may be written as `\u00` and two hexadecimal digits; `None` if it is no
/// such text.
///
/// # Errors
/// An allocation fails.
#[tactic(auto, unfolding(crate::specs::inner::Reading::text_in))]
pub(crate) fn text_in(alloc: Global, text: &[u8]) -> Result<Option<String>, AllocError>
    ensures { IfOk result (λ found. option_map string_bytes found ≡ text_in text.now) }
{
    match unescaped(alloc, text)? {
        Some(bytes) => Ok(string_of(bytes)),
        None => Ok(None),
    }
}
