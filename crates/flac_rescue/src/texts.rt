//! Texts of numbers and lines, added to bytes.

ghost use Rattle.std.specs.Prelude.{◌≡◌, ◌<◌, ◌++◌, OnOk, codes, decimal};
ghost use Rattle.flac_rescue.specs.Report.{two_digits, three_digits, time_text, range_text, place_text, samples_text, line};

use itoa::Buffer;
use std::alloc::AllocError;

/// Adds a text.
pub(crate) fn put(out: &mut Vec<u8>, text: &str) -> Result<(), AllocError>
    ensures { OnOk result (out.new.items ≡ out.old.items ++ text.now) }
{
    out.extend_from_slice(text.as_bytes())
}

/// Adds a number in decimal digits.
pub(crate) fn put_number(out: &mut Vec<u8>, number: u64) -> Result<(), AllocError>
    ensures { OnOk result (out.new.items ≡ out.old.items ++ decimal number) }
{
    let mut buffer = Buffer::new();
    put(out, buffer.format(number))
}

/// Adds two digits.
fn put_two(out: &mut Vec<u8>, number: u8) -> Result<(), AllocError>
    requires { number < 100 }
    ensures { OnOk result (out.new.items ≡ out.old.items ++ two_digits number) }
{
    out.extend_from_slice(&[48 + number / 10, 48 + number % 10])
}

/// Adds three digits.
fn put_three(out: &mut Vec<u8>, number: u16) -> Result<(), AllocError>
    requires { number < 1000 }
    ensures { OnOk result (out.new.items ≡ out.old.items ++ three_digits number) }
{
    out.extend_from_slice(&[
        48 + (number / 100) as u8,
        48 + (number / 10 % 10) as u8,
        48 + (number % 10) as u8,
    ])
}

/// Adds the time of a sample.
pub(crate) fn put_time(out: &mut Vec<u8>, rate: u32, sample: u64) -> Result<(), AllocError>
    requires { 0 < rate }
    ensures { OnOk result (out.new.items ≡ out.old.items ++ time_text rate sample) }
{
    let rate = u64::from(rate);
    let seconds = sample / rate;
    put_number(out, seconds / 60)?;
    put(out, ":")?;
    put_two(out, (seconds % 60) as u8)?;
    put(out, ".")?;
    put_three(out, (sample % rate * 1000 / rate) as u16)
}

/// Adds a range that is not empty.
pub(crate) fn put_range(out: &mut Vec<u8>, first: u64, next: u64) -> Result<(), AllocError>
    requires { 0 < next }
    ensures { OnOk result (out.new.items ≡ out.old.items ++ range_text first next) }
{
    put_number(out, first)?;
    put(out, " to ")?;
    put_number(out, next - 1)
}

/// Adds where bytes are.
pub(crate) fn put_place(out: &mut Vec<u8>, start: usize, end: usize) -> Result<(), AllocError>
    ensures { OnOk result (out.new.items ≡ out.old.items ++ place_text start end) }
{
    if start < end {
        put(out, "bytes ")?;
        return put_range(out, start as u64, end as u64);
    }
    put(out, "byte ")?;
    put_number(out, start as u64)
}

/// Adds samples that are missing, and their times.
pub(crate) fn put_samples(
    out: &mut Vec<u8>,
    rate: u32,
    first: u64,
    next: u64,
) -> Result<(), AllocError>
    requires rate { 0 < rate }
    requires some { first < next }
    ensures { OnOk result (out.new.items ≡ out.old.items ++ samples_text rate first next) }
{
    put(out, ": samples ")?;
    put_range(out, first, next)?;
    put(out, " missing, ")?;
    put_time(out, rate, first)?;
    put(out, " to ")?;
    put_time(out, rate, next - 1)
}

/// Begins a line about the file of this path.
pub(crate) fn begin(out: &mut Vec<u8>, path: &str) -> Result<(), AllocError>
    ensures { OnOk result (out.new.items ≡ out.old.items ++ ((codes "flac: " ++ path.now) ++ codes ": ")) }
{
    put(out, "flac: ")?;
    put(out, path)?;
    put(out, ": ")
}
