//! How much room an encoded stream needs.

ghost use Rattle.std.specs.Prelude.{◌≡◌, ◌≤◌, ◌*◌, length};
ghost use Rattle.flac_c.specs.Bound.{text_bytes, texts_bytes, raw_bytes, most_parts, table_bytes, native_bound, bytes_among, bound_of, IsEnough};

use crate::encoding::FlacProvedSettings;
use crate::tags::{FlacProvedTags, FlacProvedText};
use flac_native::sample_width;

/// Bytes of a text and its length. A text that is longer than a block counts as 2^24 bytes.
fn text_bytes(text: &FlacProvedText<'_>) -> u64
    ensures value { result ≡ text_bytes text.now }
    ensures few { result ≤ 16777220 }
{
    4 + (text.bytes.len() as u64).min(1 << 24)
}

/// Bytes of all texts.
fn texts_bytes(texts: &[FlacProvedText<'_>]) -> u128
    ensures value { result ≡ texts_bytes texts.now }
    ensures few { result ≤ 16777220 * length texts.now }
{
    let mut sum = 0u128;
    for text in texts {
        sum += u128::from(text_bytes(text));
    }
    sum
}

/// Bytes of `count` samples of `bits` bits, in whole bytes: 1 to 4 for each.
fn raw_bytes(bits: u32, count: u64) -> u128
    ensures value { result ≡ raw_bytes bits count }
    ensures few { result ≤ 4 * count }
{
    sample_width(bits.clamp(1, 32)) as u128 * u128::from(count)
}

/// An upper bound of how many parts of this size there are.
fn most_parts(each: u64, size: u32) -> u128
    ensures value { result ≡ most_parts each size }
    ensures few { result ≤ 18446744073709551616 }
{
    u128::from(each / u64::from(size.max(1))) + 1
}

/// Bytes of a seek table.
fn table_bytes(each: u64, every: u32) -> u128
    ensures value { result ≡ table_bytes each every }
    ensures few { result ≤ 4 * 18446744073709551616 * 18 }
{
    if every == 0 {
        0
    } else {
        4 + 18 * most_parts(each, every)
    }
}

/// An upper bound of the bytes of a native stream.
fn native_bound(
    settings: &FlacProvedSettings,
    count: u64,
    each: u64,
    tags: &FlacProvedTags<'_>,
) -> u128
    ensures value { result ≡ native_bound settings.now count each tags.now }
    ensures few { result ≤ 618970019642690137449562112 }
{
    let texts = u128::from(text_bytes(&tags.vendor)) + texts_bytes(tags.list);
    let table = table_bytes(each, settings.seek_every);
    58 + texts
        + table
        + raw_bytes(settings.bits, count)
        + 28 * most_parts(each, settings.block_size)
}

/// Bytes of a stream at most.
fn bytes_among(
    settings: &FlacProvedSettings,
    count: u64,
    each: u64,
    tags: &FlacProvedTags<'_>,
) -> u128
    ensures { result ≡ bytes_among settings.now count each tags.now }
{
    let whole = native_bound(settings, count, each, tags);
    if settings.ogg == 0 {
        whole
    } else {
        whole + (whole / 200 + 64 * (most_parts(each, settings.block_size) + 2))
    }
}

/// A number of bytes that is enough for the buffer of `flac_proved_encode`: no stream of `count` samples by these
/// settings and with these comments is longer. It is at most 2^64 - 1, and says nothing of settings that are refused.
#[unsafe(no_mangle)]
pub extern "C" fn flac_proved_bound(
    settings: &FlacProvedSettings,
    count: usize,
    tags: &FlacProvedTags<'_>,
) -> u64
    ensures value { result ≡ bound_of settings.now count tags.now }
    ensures enough { IsEnough settings.now count tags.now result }
{
    let count = count as u64;
    let each = count / u64::from(settings.channels.max(1));
    bytes_among(settings, count, each, tags).min(u128::from(u64::MAX)) as u64
}
