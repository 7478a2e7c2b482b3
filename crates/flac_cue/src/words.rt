//! The words, numbers and times of a line.

ghost use Rattle.std.specs.Prelude.{◌≡◌, ◌≤◌, ◌==◌, length, not};
ghost use Rattle.std.specs.List.{position_or_len};
ghost use Rattle.flac_cue.specs.Words.{is_blank, trimmed, place_of, word_at, after_at, word_of, after_word, with_digit, number_of, frames_of, before_colon, after_colon, time_of};

/// Whether a byte is a blank, a tab or a carriage return.
pub(crate) fn is_blank(byte: u8) -> bool
    ensures { result ≡ is_blank byte }
{
    byte == b' ' || (byte == b'\t' || byte == b'\r')
}

/// Where a byte is first; the length of the text if it is not there.
pub(crate) fn place_of(byte: u8, text: &[u8]) -> usize
    ensures value { result ≡ place_of byte text.now }
    ensures inside { result ≤ length text.now }
{
    for (index, other) in text.iter().enumerate() {
        if *other == byte {
            return index;
        }
    }
    text.len()
}

/// Where the first blank is; the length of the text if there is none.
fn blank_place(text: &[u8]) -> usize
    ensures value { result ≡ position_or_len is_blank text.now }
    ensures inside { result ≤ length text.now }
{
    for (index, byte) in text.iter().enumerate() {
        if is_blank(*byte) {
            return index;
        }
    }
    text.len()
}

/// A text without the blanks that it begins with.
fn trimmed(text: &[u8]) -> &[u8]
    ensures { result.now ≡ trimmed text.now }
{
    for (index, byte) in text.iter().enumerate() {
        if !is_blank(*byte) {
            return &text[index..];
        }
    }
    &text[text.len()..]
}

/// The first word of a text that begins with no blank.
#[tactic(auto, unfolding(crate::specs::Words::word_at))]
fn word_at(text: &[u8]) -> &[u8]
    ensures { result.now ≡ word_at text.now }
{
    match text {
        [b'"', quoted @ ..] => &quoted[..place_of(b'"', quoted)],
        _ => &text[..blank_place(text)],
    }
}

/// What is after the first word of a text that begins with no blank.
#[tactic(auto, unfolding(crate::specs::Words::after_at))]
fn after_at(text: &[u8]) -> &[u8]
    ensures { result.now ≡ after_at text.now }
{
    match text {
        [b'"', quoted @ ..] => &quoted[place_of(b'"', quoted)..],
        _ => &text[blank_place(text)..],
    }
}

/// The first word of a text: what is between quotation marks, or before the next blank. It is empty if there is none.
pub(crate) fn word_of(text: &[u8]) -> &[u8]
    ensures { result.now ≡ word_of text.now }
{
    word_at(trimmed(text))
}

/// What is after the first word of a text.
pub(crate) fn after_word(text: &[u8]) -> &[u8]
    ensures { result.now ≡ after_word text.now }
{
    after_at(trimmed(text))
}

/// A number with one more decimal digit; `None` if the byte is none, or the number has more than 64 bits.
#[tactic(auto, unfolding(crate::specs::Words::with_digit))]
fn with_digit(number: u64, byte: u8) -> Option<u64>
    ensures { result ≡ with_digit number byte }
{
    if !(48 <= byte && byte <= 57) {
        return None;
    }
    number.checked_mul(10)?.checked_add(u64::from(byte - 48))
}

/// The number that a word writes in decimal digits; `None` if it is none, or has more than 64 bits.
#[tactic(auto, using(crate::proofs::Numbers::digit_more, crate::proofs::Numbers::digit_wrong, crate::proofs::Numbers::digits_end), unfolding(crate::specs::Words::number_of))]
pub(crate) fn number_of(word: &[u8]) -> Option<u64>
    ensures { result ≡ number_of word.now }
{
    if word.is_empty() {
        return None;
    }
    let mut number: u64 = 0;
    for byte in word {
        match with_digit(number, *byte) {
            Some(next) => number = next,
            None => return None,
        }
    }
    Some(number)
}

/// The frames of minutes, seconds and frames.
#[tactic(auto, unfolding(crate::specs::Words::frames_of))]
fn frames_of(minutes: Option<u64>, seconds: Option<u64>, frames: Option<u64>) -> Option<u64>
    ensures value { result ≡ frames_of minutes seconds frames }
{
    let minutes = minutes?;
    let seconds = seconds?;
    let frames = frames?;
    if minutes < 4_294_967_296 && (seconds < 60 && frames < 75) {
        return Some((minutes * 60 + seconds) * 75 + frames);
    }
    None
}

/// The text before the first colon.
fn before_colon(text: &[u8]) -> &[u8]
    ensures { result.now ≡ before_colon text.now }
{
    &text[..place_of(b':', text)]
}

/// The text after the first colon.
fn after_colon(text: &[u8]) -> &[u8]
    ensures { result.now ≡ after_colon text.now }
{
    let place = place_of(b':', text);
    if place < text.len() {
        return &text[place + 1..];
    }
    &text[place..]
}

/// The frames of a time as `mm:ss:ff`; `None` if a word is none.
#[tactic(auto, unfolding(crate::specs::Words::time_of))]
pub(crate) fn time_of(word: &[u8]) -> Option<u64>
    ensures { result ≡ time_of word.now }
{
    let rest = after_colon(word);
    let minutes = number_of(before_colon(word));
    let seconds = number_of(before_colon(rest));
    let frames = number_of(after_colon(rest));
    frames_of(minutes, seconds, frames)
}
