//! Comments of the streams that are written.

ghost use Rattle.std.specs.Prelude.{◌≡◌, map, IfOk, IfErr};
ghost use Rattle.flac_cli.specs.Encoded.{comments_of};

use flac_bits::Why;
use flac_meta::{Bytes, Comments, Texts};
use std::alloc::Global;

/// The vendor in the comments of the streams that are written.
const VENDOR: &[u8] = b"flac profile 1";

/// The comments that these words are, with the program's vendor.
pub(crate) fn comments_of(alloc: Global, words: &[&str]) -> Result<Comments, Why>
    ensures comments { IfOk result (λ comments. comments ≡ comments_of (map (λ word. word.now) words.now)) }
    ensures memory { IfErr result (λ e. e ≡ Why.Memory) }
{
    let mut texts = Vec::with_capacity(alloc, words.len())?;
    for word in words {
        let text = Vec::from_slice(alloc, word.as_bytes())?;
        texts.push(Bytes::from_vec(text))?;
    }
    let vendor = Vec::from_slice(alloc, VENDOR)?;
    Ok(Comments {
        vendor: Bytes::from_vec(vendor),
        list: Texts::from_vec(texts),
    })
}
