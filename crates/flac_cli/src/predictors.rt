//! The text of a list of linear predictors.

ghost use Rattle.std.specs.Prelude.{◌≡◌, ◌==◌, ◌≤◌, ◌<◌, ◌⊎◌, [], map, option_map, IfOk, IfErr, IfSome, MatchOption, Some, None, Ok, Err};
ghost use Rattle.flac_subframe.specs.format.Handed.{predictor_of};
ghost use Rattle.flac_cli.specs.Predictors.{is_blank, words_of, natural_in, number_in, numbers_after, line_of, line_in, predictors_in, natural};
ghost use Rattle.flac_cli.specs.inner.Predictors.{found_in, IsWrongLine};
ghost use Rattle.std.specs.List.{before_first};
ghost use Rattle.flac_cli.specs.declared.predictors.ListFault.TheVariants.{Memory};

use flac_subframe::LinearPredictor;
use std::alloc::{AllocError, AllocFailed, Global};

/// Why a text is no list of predictors.
#[derive(Clone, Copy)]
pub(crate) enum ListFault {
    /// An allocation fails.
    Memory,
    /// The line of this number, counted from 1, is no predictor.
    Line(u64),
}

impl From<AllocError> for ListFault {
    ghost from_gives = { λ error e. e ≡ Memory };

    fn from(_error: AllocError) -> ListFault {
        ListFault::Memory
    }
}

impl<T: Drop> From<AllocFailed<T>> for ListFault {
    ghost from_gives = { λ error e. e ≡ Memory };

    fn from(_error: AllocFailed<T>) -> ListFault {
        ListFault::Memory
    }
}

/// Whether a byte separates words: a space, a tab or a carriage return.
fn is_blank(byte: u8) -> bool
    ensures { result ≡ is_blank byte }
{
    byte == b' ' || byte == b'\t' || byte == b'\r'
}

/// The number below 100000 that decimal digits write.
fn natural_in(word: &[u8]) -> Option<u32>
    ensures value { result ≡ natural_in word.now }
    ensures small { IfSome result (λ n. n < 100000) }
{
    if word.is_empty() {
        return None;
    }
    let mut number = 0;
    for byte in word {
        if *byte < b'0' || *byte > b'9' || number >= 10000 {
            return None;
        }
        number = number * 10 + u32::from(*byte - b'0');
    }
    Some(number)
}

/// The number that a word is: decimal digits, after a minus if it is negative.
fn number_in(word: &[u8]) -> Option<i32>
    ensures { result ≡ number_in word.now }
{
    if let [b'-', digits @ ..] = word {
        let number = natural_in(digits)?;
        return Some(-(number as i32));
    }
    let number = natural_in(word)?;
    Some(number as i32)
}

/// The bytes of a line before its comment, which a `#` begins.
fn without_comment(line: &[u8]) -> &[u8]
    ensures { result.now ≡ before_first (λ byte. byte == 35) line.now }
{
    match line.iter().position(|byte| *byte == b'#') {
        Some(end) => &line[..end],
        None => line,
    }
}

/// The numbers that the words of a line are; `None` if a word is none.
fn numbers_in(alloc: Global, line: &[u8]) -> Result<Option<Vec<i32>>, AllocError>
    ensures { IfOk result (λ numbers. option_map (λ list. list.items) numbers ≡ numbers_after [] (words_of line.now)) }
{
    let mut numbers = Vec::new(alloc);
    for word in without_comment(line).split(|byte| is_blank(*byte)) {
        if word.is_empty() {
            continue;
        }
        let Some(number) = number_in(word) else {
            return Ok(None);
        };
        numbers.push(number)?;
    }
    Ok(Some(numbers))
}

/// A number as a natural one; `None` if it is negative.
fn natural(number: i32) -> Option<u32>
    ensures { result ≡ natural number }
{
    if number < 0 {
        return None;
    }
    Some(number as u32)
}

/// What a line has.
#[derive(Drop)]
enum Line {
    /// No word.
    Blank,
    /// A predictor.
    Predictor(LinearPredictor),
    /// Words that are no predictor.
    Wrong,
}

/// What a line of these numbers has.
fn line_of(numbers: &[i32]) -> Line
    ensures { found_in result ≡ line_of numbers.now }
{
    let [precision, shift, coefficients @ ..] = numbers else {
        return if numbers.is_empty() {
            Line::Blank
        } else {
            Line::Wrong
        };
    };
    let Some(precision) = natural(*precision) else {
        return Line::Wrong;
    };
    let Some(shift) = natural(*shift) else {
        return Line::Wrong;
    };
    match LinearPredictor::new(precision, shift, coefficients) {
        Some(predictor) => Line::Predictor(predictor),
        None => Line::Wrong,
    }
}

/// What a line has.
#[tactic(auto, unfolding(crate::specs::Predictors::line_in))]
fn line_in(alloc: Global, line: &[u8]) -> Result<Line, AllocError>
    ensures { IfOk result (λ found. found_in found ≡ line_in line.now) }
{
    match numbers_in(alloc, line)? {
        Some(numbers) => Ok(line_of(numbers.as_slice())),
        None => Ok(Line::Wrong),
    }
}

/// The predictors of a list: in each line one, `PRECISION SHIFT C1 C2 ..`, or none.
///
/// The numbers are decimal, and words are separated by spaces, tabs or carriage returns. PRECISION is 1 to 15 bits,
/// SHIFT 0 to 15. There are 1 to 32 coefficients, the one for the nearest sample first, and each fits PRECISION bits in
/// two's complement (RFC 9639, section 9.2.6). `#` starts a comment up to the end of the line.
///
/// # Errors
/// The number of the first line that has words and is no predictor, counted from 1. Out of memory.
pub(crate) fn predictors_in(alloc: Global, text: &[u8]) -> Result<Vec<LinearPredictor>, ListFault>
    ensures list { IfOk result (λ list. predictors_in text.now ≡ Ok (map predictor_of list.items)) }
    ensures refused { IfErr result (λ e. (e ≡ ListFault.Memory) ⊎ IsWrongLine text.now e) }
{
    let mut predictors = Vec::new(alloc);
    for (index, line) in text.split(|byte| *byte == b'\n').enumerate() {
        match line_in(alloc, line)? {
            Line::Blank => {}
            Line::Predictor(predictor) => predictors.push(predictor)?,
            Line::Wrong => return Err(ListFault::Line(index as u64 + 1)),
        }
    }
    Ok(predictors)
}
