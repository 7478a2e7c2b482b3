//! The speakers of a WAV file's channels in a comment (RFC 9639, section 8.6.2).

ghost use Rattle.std.specs.Prelude.{◌≡◌, ◌<◌, IfOk, IfSome};
ghost use Rattle.flac_cli.specs.Speakers.{hex_value, hex_after, mask_value, mask_in, mask_comment, words_with};

use flac_meta::{Bytes, Comments, Texts};
use hex::encode_to_slice;
use std::alloc::{AllocError, Global};

/// The name of the comment.
const MASK_NAME: &[u8] = b"WAVEFORMATEXTENSIBLE_CHANNEL_MASK";

/// The comment of speakers that are others than those of n channels (RFC 9639, section 8.6.2).
fn mask_comment(alloc: Global, mask: u32) -> Result<Vec<u8>, AllocError>
    ensures { IfOk result (λ text. text.items ≡ mask_comment mask) }
{
    let mut digits = [0; 8];
    let Ok(()) = encode_to_slice(mask.to_be_bytes(), &mut digits) else {
        unreachable!()
    };
    let mut text = Vec::from_slice(alloc, MASK_NAME)?;
    text.extend_from_slice(b"=0x")?;
    text.extend_from_slice(&digits)?;
    Ok(text)
}

/// Comments, and after them that of these speakers, if there are some.
pub(crate) fn with_mask(
    alloc: Global,
    comments: Comments,
    mask: Option<u32>,
) -> Result<Comments, AllocError>
    ensures vendor { IfOk result (λ all. all.vendor ≡ comments.vendor) }
    ensures list { IfOk result (λ all. all.list ≡ words_with comments.list mask) }
{
    let Some(mask) = mask else {
        return Ok(comments);
    };
    let text = mask_comment(alloc, mask)?;
    let Comments { vendor, list } = comments;
    let mut texts = list.into_vec();
    texts.push(Bytes::from_vec(text))?;
    Ok(Comments {
        vendor,
        list: Texts::from_vec(texts),
    })
}

/// The value of a hexadecimal digit.
fn hex_value(digit: u8) -> Option<u32>
    ensures value { result ≡ hex_value digit }
    ensures small { IfSome result (λ v. v < 16) }
{
    if digit > 47 && digit < 58 {
        return Some(u32::from(digit) - 48);
    }
    if digit > 64 && digit < 71 {
        return Some(u32::from(digit) - 55);
    }
    if digit > 96 && digit < 103 {
        return Some(u32::from(digit) - 87);
    }
    None
}

/// The number that hexadecimal digits write, of which the last eight count.
#[tactic(auto, using(crate::proofs::Waved::hex_next, crate::proofs::Waved::hex_none, crate::proofs::Waved::hex_end))]
fn hex_number(digits: &[u8]) -> Option<u32>
    ensures { result ≡ hex_after 0 digits.now }
{
    let mut number: u32 = 0;
    for digit in digits {
        let Some(value) = hex_value(*digit) else {
            return None;
        };
        number = number.wrapping_mul(16).wrapping_add(value);
    }
    Some(number)
}

/// The number of a value: `0x`, and hexadecimal digits.
fn mask_value(value: &[u8]) -> Option<u32>
    ensures { result ≡ mask_value value.now }
{
    if value.len() > 2 && value[0] == 48 && value[1] == 120 {
        return hex_number(&value[2..]);
    }
    None
}

/// The number of the first comment of speakers, if there is one.
pub(crate) fn mask_in(comments: &Comments) -> Option<u32>
    ensures { result ≡ mask_in comments.now.list }
{
    match comments.find(MASK_NAME) {
        Some(value) => mask_value(value),
        None => None,
    }
}
