//! Paths as they are printed in lines.

ghost use Rattle.std.specs.Prelude.{◌≡◌, ◌<◌, ◌++◌, ◌∷◌, [], IfOk, OnOk, unwrap_or};
ghost use Rattle.std.specs.String.{string_bytes};
ghost use Rattle.flac_shelf.specs.Shown.{hex_digit, is_itself, shown_byte, shown};

use std::alloc::{AllocError, Global};

/// A hexadecimal digit, in lower case.
fn hex_digit(value: u8) -> u8
    requires { value < 16 }
    ensures { result ≡ hex_digit value }
{
    if value < 10 { 48 + value } else { 87 + value }
}

/// Whether a byte of a path is printed as itself.
fn is_itself(byte: u8) -> bool
    ensures { result ≡ is_itself byte }
{
    byte >= 32 && byte != 127 && byte != 92
}

/// What a byte of a path is printed as: `\x` and two hexadecimal digits for a control character of ASCII or a
/// backslash; `None` if it is printed as itself.
pub fn escape_of(byte: u8) -> Option<[u8; 4]>
    ensures { unwrap_or result (byte ∷ []) ≡ shown_byte byte }
{
    if is_itself(byte) {
        return None;
    }
    Some([92, 120, hex_digit(byte / 16), hex_digit(byte % 16)])
}

/// Adds a byte of a path.
fn push_shown(text: &mut Vec<u8>, byte: u8) -> Result<(), AllocError>
    ensures { OnOk result (text.new.items ≡ text.old.items ++ shown_byte byte) }
{
    match escape_of(byte) {
        Some(escape) => text.extend_from_slice(&escape)?,
        None => text.push(byte)?,
    }
    Ok(())
}

/// The bytes of a path as they are printed.
fn shown_bytes(alloc: Global, path: &[u8]) -> Result<Vec<u8>, AllocError>
    ensures { IfOk result (λ text. text.items ≡ shown path.now) }
{
    let mut text = Vec::new(alloc);
    for byte in path {
        push_shown(&mut text, *byte)?;
    }
    Ok(text)
}

/// A path as it is printed in a line: each control character of ASCII and each backslash as `\x` and two hexadecimal
/// digits, and all else as it is. So a line has one path, and no path is a line.
///
/// ```
/// let text = shown(rt.alloc(), "a\nb.flac")?; // "a\\x0ab.flac"
/// ```
///
/// # Errors
/// An allocation fails.
pub fn shown(alloc: Global, path: &str) -> Result<String, AllocError>
    ensures { IfOk result (λ text. string_bytes text ≡ shown path.now) }
{
    match String::from_utf8(shown_bytes(alloc, path.as_bytes())?) {
        Ok(text) => Ok(text),
        Err(_) => unreachable!(),
    }
}
