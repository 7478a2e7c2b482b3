//! Comments that are read from lines.

ghost use Rattle.std.specs.Prelude.{◌≡◌, ◌≤◌, ◌+◌, [], length, drop, Ok, Err, option_map, IfOk, IfErr, IfSome};
ghost use Rattle.flac_edit.specs.Lines.{digit_value, escape_at, is_itself, unescaped, is_of_name, ends_name, has_name, comment_in, without_end, split_lines, lines_after, comments_in, IfLine};
ghost use Rattle.flac_edit.specs.declared.lines.LinesFault.TheVariants.{Memory};

use flac_meta::Bytes;
use std::alloc::{AllocError, AllocFailed, Global};

/// Why a text is no list of comments.
#[derive(Clone, Copy, Debug, PartialEq, Eq)]
pub enum LinesFault {
    /// An allocation fails.
    Memory,
    /// The line of this number, counted from 1, is no comment with a name.
    Line(u64),
}

impl From<AllocError> for LinesFault {
    ghost from_gives = { λ error e. e ≡ Memory };

    fn from(_error: AllocError) -> LinesFault {
        LinesFault::Memory
    }
}

impl<T: Drop> From<AllocFailed<T>> for LinesFault {
    ghost from_gives = { λ error e. e ≡ Memory };

    fn from(_error: AllocFailed<T>) -> LinesFault {
        LinesFault::Memory
    }
}

/// The value of a hexadecimal digit, whose letters may be small or large; 16 of any other byte.
fn digit_value(byte: u8) -> u8
    ensures { result ≡ digit_value byte }
{
    match byte {
        b'0'..=b'9' => byte - b'0',
        b'a'..=b'f' => byte - b'a' + 10,
        b'A'..=b'F' => byte - b'A' + 10,
        _ => 16,
    }
}

/// The byte that an escape at the beginning of a text is; `None` if it begins otherwise.
fn escape_at(text: &[u8]) -> Option<u8>
    ensures value { result ≡ escape_at text.now }
    ensures long { IfSome result (λ _. 4 ≤ length text.now) }
{
    if text.len() < 4 || text[0] != b'\\' || text[1] != b'x' {
        return None;
    }
    let high = digit_value(text[2]);
    let low = digit_value(text[3]);
    if high > 15 || low > 15 {
        return None;
    }
    Some(16 * high + low)
}

/// The byte that an escape at a place of a line is; `None` if there is none.
fn escape_of(line: &[u8], i: usize) -> Option<u8>
    requires { i ≤ length line.now }
    ensures value { result ≡ escape_at (drop i line.now) }
    ensures long { IfSome result (λ _. i + 4 ≤ length line.now) }
{
    escape_at(&line[i..])
}

/// Whether a byte may be itself: not below 20 (hexadecimal), not 7F, no backslash.
fn is_itself(byte: u8) -> bool
    ensures { result ≡ is_itself byte }
{
    byte >= b' ' && byte != b'\\' && byte != 127
}

/// The bytes of a line, which may be escaped; `None` if one is neither itself nor of an escape.
#[tactic(auto, using(crate::proofs::LinesRead::bytes_end))]
fn unescaped(alloc: Global, line: &[u8]) -> Result<Option<Vec<u8>>, AllocError>
    ensures { IfOk result (λ found. option_map (λ bytes. bytes.items) found ≡ unescaped line.now) }
{
    let mut bytes = Vec::new(alloc);
    let mut i = 0;
    while i < line.len() {
        match escape_of(line, i) {
            Some(byte) => {
                bytes.push(byte)?;
                i += 4;
            }
            None => {
                if !is_itself(line[i]) {
                    return Ok(None);
                }
                bytes.push(line[i])?;
                i += 1;
            }
        }
    }
    Ok(Some(bytes))
}

/// Whether a byte may be in a name.
fn is_of_name(byte: u8) -> bool
    ensures { result ≡ is_of_name byte }
{
    (b' '..=b'~').contains(&byte) && byte != b'='
}

/// Whether this is what is left of a comment after a part of its name.
fn ends_name(text: &[u8]) -> bool
    ensures { result ≡ ends_name text.now }
{
    for byte in text {
        if *byte == b'=' {
            return true;
        }
        if !is_of_name(*byte) {
            return false;
        }
    }
    false
}

/// Whether a comment is a name, `=` and a value.
fn has_name(comment: &[u8]) -> bool
    ensures { result ≡ has_name comment.now }
{
    match comment {
        [first, rest @ ..] => is_of_name(*first) && ends_name(rest),
        [] => false,
    }
}

/// The comment of a line; `None` if it is no such line.
#[tactic(auto, unfolding(crate::specs::Lines::comment_in))]
fn comment_in(alloc: Global, line: &[u8]) -> Result<Option<Bytes>, AllocError>
    ensures { IfOk result (λ found. found ≡ comment_in line.now) }
{
    match unescaped(alloc, line)? {
        Some(bytes) if has_name(&bytes) => Ok(Some(Bytes::from_vec(bytes))),
        _ => Ok(None),
    }
}

/// A text without the end of its last line.
fn without_end(text: &[u8]) -> &[u8]
    ensures { result.now ≡ without_end text.now }
{
    let end = text.len();
    if end != 0 && text[end - 1] == b'\n' {
        return &text[..end - 1];
    }
    text
}

/// The comments of the lines between the ends of lines of a text.
fn comments_between(alloc: Global, text: &[u8]) -> Result<Vec<Bytes>, LinesFault>
    ensures read { IfOk result (λ list. lines_after 1 [] (split_lines text.now) ≡ Ok list.items) }
    ensures refused { IfErr result (IfLine (λ number. lines_after 1 [] (split_lines text.now) ≡ Err number)) }
{
    let mut comments = Vec::new(alloc);
    for (index, line) in text.split(|byte| *byte == b'\n').enumerate() {
        match comment_in(alloc, line)? {
            Some(comment) => comments.push(comment)?,
            None => return Err(LinesFault::Line(index as u64 + 1)),
        }
    }
    Ok(comments)
}

/// The comments of lines, one of each: a name, `=` and a value (RFC 9639, section 8.6). A byte from 20 on (hexadecimal)
/// but 7F and the backslash is itself; any byte may be a backslash, `x` and two hexadecimal digits. The last line need
/// not be ended; a text without bytes has no line. So it reads what [`crate::comment_lines`] writes of comments that
/// have names.
///
/// ```
/// let comments = comments_of_lines(rt.alloc(), b"TITLE=Air\nARTIST=J. S. Bach\n")?;
/// ```
///
/// # Errors
/// - [`LinesFault::Line`]: the first line that is no such comment.
/// - [`LinesFault::Memory`]: an allocation fails.
pub fn comments_of_lines(alloc: Global, text: &[u8]) -> Result<Vec<Bytes>, LinesFault>
    ensures read { IfOk result (λ list. comments_in text.now ≡ Ok list.items) }
    ensures refused { IfErr result (IfLine (λ number. comments_in text.now ≡ Err number)) }
{
    if text.is_empty() {
        return Ok(Vec::new(alloc));
    }
    comments_between(alloc, without_end(text))
}
