//! Rows of the tables.

use std::alloc::Global;
use std::test::Fail;

/// The three fields of a row, each after a ` | `.
pub fn fields_of(row: &str) -> (&str, &str, &str) {
    let (first, rest) = row.split_once(" | ").unwrap_or(("", ""));
    let (second, third) = rest.split_once(" | ").unwrap_or(("", ""));
    (first, second, third)
}

/// The samples of some words.
pub fn samples_of(alloc: Global, words: &str) -> Result<Vec<i32>, Fail> {
    let mut samples = Vec::new(alloc);
    for word in words.split_whitespace() {
        samples.push(word.parse::<i32>()?)?;
    }
    Ok(samples)
}

/// Channels, each after a `;`.
pub fn channels_of(alloc: Global, words: &str) -> Result<Vec<Vec<i32>>, Fail> {
    let mut channels = Vec::new(alloc);
    for channel in words.split(';').skip(1) {
        channels.push(samples_of(alloc, channel)?)?;
    }
    Ok(channels)
}

/// The two numbers of some words.
pub fn pair_of(words: &str) -> Result<(u32, u32), Fail> {
    let (first, second) = words.split_once(' ').unwrap_or(("", ""));
    Ok((first.parse::<u32>()?, second.parse::<u32>()?))
}

/// Appends the hex digits of a word, as often as it says: `DIGITS` or `DIGITS*COUNT`.
pub fn append_word(alloc: Global, bytes: &mut Vec<u8>, word: &str) -> Result<(), Fail> {
    let (digits, count) = word.split_once('*').unwrap_or((word, "1"));
    let part = hex::decode(alloc, digits)?;
    for _ in 0..count.parse::<usize>()? {
        bytes.extend_from_slice(&part)?;
    }
    Ok(())
}

/// The bytes of some words: each is hex digits, and `WORD*COUNT` is that often.
pub fn bytes_of(alloc: Global, words: &str) -> Result<Vec<u8>, Fail> {
    let mut bytes = Vec::new(alloc);
    for word in words.split_whitespace() {
        append_word(alloc, &mut bytes, word)?;
    }
    Ok(bytes)
}
