//! Points of a stream as words of the command line.

use flac_jobs::Moment;

/// Nanoseconds that the last of so many digits of a fraction of a second counts.
const UNITS: [u64; 10] = [
    1_000_000_000,
    100_000_000,
    10_000_000,
    1_000_000,
    100_000,
    10_000,
    1_000,
    100,
    10,
    1,
];

/// The point that a word names: a number of samples, or a time `m:ss` or `h:mm:ss` below 2^64 nanoseconds, also with a
/// fraction of a second of 1 to 9 digits after a point.
pub(crate) fn moment_of(word: &str) -> Option<Moment> {
    let Some((front, seconds)) = word.rsplit_once(':') else {
        return Some(Moment::Sample(number_of(word)?));
    };
    let minutes = minutes_of(front)?.checked_mul(60_000_000_000)?;
    let time = minutes.checked_add(nanoseconds_of(seconds)?)?;
    Some(Moment::Time(time))
}

/// The minutes of a text `m` or `h:mm`.
fn minutes_of(text: &str) -> Option<u64> {
    let Some((hours, minutes)) = text.split_once(':') else {
        return number_of(text);
    };
    number_of(hours)?
        .checked_mul(60)?
        .checked_add(sixtieth_of(minutes)?)
}

/// The nanoseconds of a text `ss` or `ss.fraction`.
fn nanoseconds_of(text: &str) -> Option<u64> {
    let Some((seconds, fraction)) = text.split_once('.') else {
        return sixtieth_of(text)?.checked_mul(1_000_000_000);
    };
    let unit = UNITS.get(fraction.len())?;
    sixtieth_of(seconds)?
        .checked_mul(1_000_000_000)?
        .checked_add(number_of(fraction)?.checked_mul(*unit)?)
}

/// The number of two digits, below 60.
fn sixtieth_of(text: &str) -> Option<u64> {
    let number = number_of(text)?;
    if text.len() == 2 && number < 60 {
        Some(number)
    } else {
        None
    }
}

/// The number, below 2^64, whose digits these are.
fn number_of(text: &str) -> Option<u64> {
    if text.starts_with('+') {
        return None;
    }
    text.parse::<u64>().ok()
}
