//! Reading of coded numbers.

ghost use Rattle.std.specs.Prelude.{◌≡◌, ◌≤◌, ◌<◌, ◌^◌, ◌+◌, ◌*◌, cond, nat_lt, IfOk, IfSome};
ghost use Rattle.flac_bits.specs.Coded.{IsNumber};
ghost use Rattle.flac_bits.specs.Number.{lead_form, continued, number};
ghost use Rattle.flac_bits.specs.Reading.{Reads, Means, CallInPlace, PullsInside};

use crate::reader::BitReader;
use crate::source::Source;
use crate::why::Why;

/// The bytes that follow a lead byte, the number's bits in the lead byte, and the smallest number of this form; `None`
/// if the lead byte is not allowed.
#[tactic(auto, unfolding(crate::specs::Number::lead_form))]
fn lead_form(max_bits: u32, lead: u64) -> Option<(u32, u64, u64)>
    ensures form { result ≡ lead_form max_bits lead }
    ensures small { IfSome result (λ form. (form.0 ≤ 6) × (form.1 < 2 ^ 5)) }
    ensures room { IfSome result (λ form. (form.1 + 1) * 64 ^ form.0 ≤ cond (nat_lt 31 max_bits) (2 ^ 36) (2 ^ 31)) }
{
    match lead {
        0xC0..=0xDF => Some((1, lead - 0xC0, 1 << 7)),
        0xE0..=0xEF => Some((2, lead - 0xE0, 1 << 11)),
        0xF0..=0xF7 => Some((3, lead - 0xF0, 1 << 16)),
        0xF8..=0xFB => Some((4, lead - 0xF8, 1 << 21)),
        0xFC..=0xFD => Some((5, lead - 0xFC, 1 << 26)),
        0xFE if max_bits > 31 => Some((6, 0, 1 << 31)),
        _ => None,
    }
}

/// Reads `count` more bytes of six bits each; `high` is the number's bits in the lead byte.
#[tactic(auto, unfolding(crate::specs::Number::continued), using(crate::proofs::Numbers::continued_more, crate::proofs::Numbers::group_more))]
fn continued<R: Source>(bits: &mut BitReader<R>, count: u32, high: u64) -> Result<u64, Why>
    requires few { count ≤ 6 }
    requires small { high < 2 ^ 5 }
    ensures reading { CallInPlace 0 (Reads (λ v. v) (continued count high)) bits.old bits.new result }
    ensures needed { PullsInside (continued count high) bits.old bits.new result }
    ensures room { IfOk result (λ v. v < (high + 1) * 64 ^ count) }
{
    let mut value = high;
    for i in 0..count {
        let byte = bits.take(8)?;
        if byte / 64 != 2 {
            return Err(Why::BadNumber);
        }
        value = 64 * value + byte % 64;
    }
    Ok(value)
}

/// Reads a coded number of 1 to 7 bytes, as the frame and sample numbers of frame headers are (RFC 9639, section
/// 9.1.5). `max_bits` is 31 for a frame number, which is below 2^31, and 36 for a sample number, which is below 2^36.
/// Above 31 it allows any number that has a form, and up to 31 those below 2^31.
///
/// ```
/// let mut bits = BitReader::new(Memory::new(&[0xC2, 0x80]));
/// let number = read_number(&mut bits, 36)?; // 128
/// ```
///
/// # Errors
/// [`Why::BadNumber`] if the bytes are no coded number, the number is too large, or its form is not the shortest; and
/// the errors of [`BitReader`].
pub fn read_number<R: Source>(bits: &mut BitReader<R>, max_bits: u32) -> Result<u64, Why>
    ensures fits { IfOk result (λ v. IsNumber max_bits v) }
    ensures reading { CallInPlace 8 (Means (λ v. v) (number max_bits)) bits.old bits.new result }
    ensures needed { PullsInside (number max_bits) bits.old bits.new result }
{
    number_by_layout(bits, max_bits)
}

/// What [`read_number`] does, proved by the reading of the layout alone.
#[tactic(auto, unfolding(crate::specs::Number::number))]
fn number_by_layout<R: Source>(bits: &mut BitReader<R>, max_bits: u32) -> Result<u64, Why>
    ensures fits { IfOk result (λ v. IsNumber max_bits v) }
    ensures reading { CallInPlace 8 (Reads (λ v. v) (number max_bits)) bits.old bits.new result }
    ensures needed { PullsInside (number max_bits) bits.old bits.new result }
{
    let lead = bits.take(8)?;
    if lead < 128 {
        return Ok(lead);
    }
    let Some((count, high, least)) = lead_form(max_bits, lead) else {
        return Err(Why::BadNumber);
    };
    let value = continued(bits, count, high)?;
    if value < least {
        return Err(Why::BadNumber);
    }
    Ok(value)
}
