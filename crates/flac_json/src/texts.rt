//! Texts and numbers of JSON (RFC 8259).

ghost use Rattle.std.specs.Prelude.{◌≡◌, ◌<◌, ◌++◌, ◌∷◌, codes, decimal, OnOk};
ghost use Rattle.std.specs.Str.{is_utf8};
ghost use Rattle.flac_json.specs.Texts.{is_special, hex_digit, hex_digits, escape, escapes, quoted, all_digits};
ghost use Rattle.flac_json.specs.Json.{json_text};
ghost use Rattle.flac_json.specs.Fields.{bytes_json};

use itoa::Buffer;
use std::alloc::AllocError;
use std::str;

/// A hexadecimal digit, in lower case.
fn hex_digit(number: u8) -> u8
    requires { number < 16 }
    ensures { result ≡ hex_digit number }
{
    if number < 10 {
        48 + number
    } else {
        87 + number
    }
}

/// Whether a byte of a text is not written as itself.
fn is_special(byte: u8) -> bool
    ensures { result ≡ is_special byte }
{
    byte < 32 || byte == b'"' || byte == b'\\'
}

/// Adds the hexadecimal digits of a byte.
fn push_digits(text: &mut Vec<u8>, byte: u8) -> Result<(), AllocError>
    ensures { OnOk result (text.new.items ≡ text.old.items ++ hex_digits byte) }
{
    text.extend_from_slice(&[hex_digit(byte / 16), hex_digit(byte % 16)])?;
    Ok(())
}

/// Adds a byte of a text.
fn push_escape(text: &mut Vec<u8>, byte: u8) -> Result<(), AllocError>
    ensures { OnOk result (text.new.items ≡ text.old.items ++ escape byte) }
{
    if is_special(byte) {
        text.extend_from_slice(b"\\u00")?;
        return push_digits(text, byte);
    }
    text.push(byte)?;
    Ok(())
}

/// Adds the bytes of a text.
fn push_escapes(text: &mut Vec<u8>, bytes: &[u8]) -> Result<(), AllocError>
    ensures { OnOk result (text.new.items ≡ text.old.items ++ escapes bytes.now) }
{
    for byte in bytes {
        push_escape(text, *byte)?;
    }
    Ok(())
}

/// Adds a text between quotation marks.
pub(crate) fn push_quoted(text: &mut Vec<u8>, bytes: &[u8]) -> Result<(), AllocError>
    ensures { OnOk result (text.new.items ≡ text.old.items ++ quoted bytes.now) }
{
    text.push(b'"')?;
    push_escapes(text, bytes)?;
    text.push(b'"')?;
    Ok(())
}

/// Adds the hexadecimal digits of bytes.
fn push_all_digits(text: &mut Vec<u8>, bytes: &[u8]) -> Result<(), AllocError>
    ensures { OnOk result (text.new.items ≡ text.old.items ++ all_digits bytes.now) }
{
    for byte in bytes {
        push_digits(text, *byte)?;
    }
    Ok(())
}

/// Adds the hexadecimal digits of bytes between quotation marks.
pub(crate) fn push_quoted_digits(text: &mut Vec<u8>, bytes: &[u8]) -> Result<(), AllocError>
    ensures { OnOk result (text.new.items ≡ text.old.items ++ quoted (all_digits bytes.now)) }
{
    text.push(b'"')?;
    push_all_digits(text, bytes)?;
    text.push(b'"')?;
    Ok(())
}

/// Adds a number in decimal digits.
pub(crate) fn push_number(text: &mut Vec<u8>, number: u64) -> Result<(), AllocError>
    ensures { OnOk result (text.new.items ≡ text.old.items ++ decimal number) }
{
    let mut buffer = Buffer::new();
    text.extend_from_slice(buffer.format(number).as_bytes())?;
    Ok(())
}

/// Whether bytes are a text in UTF-8.
fn is_utf8(bytes: &[u8]) -> bool
    ensures { result ≡ is_utf8 bytes.now }
{
    str::from_utf8(bytes).is_ok()
}

/// Adds bytes: a text between quotation marks if they are one in UTF-8, else `{"hex":"DIGITS"}`.
pub(crate) fn push_bytes(text: &mut Vec<u8>, bytes: &[u8]) -> Result<(), AllocError>
    ensures { OnOk result (text.new.items ≡ text.old.items ++ json_text (bytes_json bytes.now)) }
{
    if is_utf8(bytes) {
        return push_quoted(text, bytes);
    }
    text.extend_from_slice(b"{\"hex\":")?;
    push_quoted_digits(text, bytes)?;
    text.push(b'}')?;
    Ok(())
}
