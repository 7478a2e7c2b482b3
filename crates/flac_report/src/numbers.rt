//! Decimal numbers in a line, and what comes after them.

ghost use Rattle.std.specs.Prelude.{◌≡◌, ◌≤◌, length, drop};
ghost use Rattle.flac_report.specs.inner.Reading.{is_digit, digits_in, with_digit, number_of, value_in, after_in};

/// What comes after the first bytes of a text.
pub(crate) fn after(text: &[u8], count: usize) -> &[u8]
    requires { count ≤ length text.now }
    ensures { result.now ≡ drop count text.now }
{
    &text[count..]
}

/// Whether a byte is a decimal digit.
fn is_digit(byte: u8) -> bool
    ensures { result ≡ is_digit byte }
{
    48 <= byte && byte <= 57
}

/// How many decimal digits a text begins with.
fn digits_in(text: &[u8]) -> usize
    ensures value { result ≡ digits_in text.now }
    ensures inside { result ≤ length text.now }
{
    for (index, byte) in text.iter().enumerate() {
        if !is_digit(*byte) {
            return index;
        }
    }
    text.len()
}

/// A number with one more decimal digit; `None` if the byte is none, or the number has more than 64 bits.
#[tactic(auto, unfolding(crate::specs::inner::Reading::with_digit))]
fn with_digit(number: u64, byte: u8) -> Option<u64>
    ensures { result ≡ with_digit number byte }
{
    if !(48 <= byte && byte <= 57) {
        return None;
    }
    number.checked_mul(10)?.checked_add(u64::from(byte - 48))
}

/// The number that decimal digits write; `None` if there is none, or it has more than 64 bits.
#[tactic(auto, using(crate::proofs::Digits::digit_more, crate::proofs::Digits::digit_wrong, crate::proofs::Digits::digits_end), unfolding(crate::specs::inner::Reading::number_of))]
fn number_of(digits: &[u8]) -> Option<u64>
    ensures { result ≡ number_of digits.now }
{
    if digits.is_empty() {
        return None;
    }
    let mut number: u64 = 0;
    for byte in digits {
        match with_digit(number, *byte) {
            Some(next) => number = next,
            None => return None,
        }
    }
    Some(number)
}

/// The number of the member of this name, `,"NAME":`, if a text begins with it, and what comes after it.
#[tactic(auto, unfolding(crate::specs::inner::Reading::value_in, crate::specs::inner::Reading::after_in))]
pub(crate) fn member_in<'a>(text: &'a [u8], name: &[u8]) -> (Option<u64>, &'a [u8])
    ensures value { result.0 ≡ value_in name.now text.now }
    ensures after { result.1.now ≡ after_in name.now text.now }
{
    if text.starts_with(name) {
        let digits = &text[name.len()..];
        let count = digits_in(digits);
        if let Some(number) = number_of(&digits[..count]) {
            return (Some(number), &digits[count..]);
        }
    }
    (None, text)
}
