//! Names of metadata blocks as words of the command line.

use super::named::{Named, all_named};
use flac_jobs::BlockName;
use std::alloc::{AllocError, Global};

/// Which blocks the words name; `None` if one names none.
///
/// # Errors
/// Memory ran out.
pub(crate) fn block_names(
    alloc: Global,
    words: &[&str],
) -> Result<Option<Vec<BlockName>>, AllocError> {
    all_named(alloc, words)
}

/// Whether one of the names is that of STREAMINFO.
pub(crate) fn names_stream_info(names: &[BlockName]) -> bool {
    for name in names {
        if matches!(name, BlockName::Number(0) | BlockName::Kind(0)) {
            return true;
        }
    }
    false
}

impl<'a> Named<'a> for BlockName {
    /// Which blocks a word names.
    fn of(word: &'a str) -> Option<BlockName> {
        if let Some((kind, id)) = word.split_once(':') {
            return application(kind, id);
        }
        if let Ok(number) = word.parse::<u32>() {
            return Some(BlockName::Number(number));
        }
        Some(BlockName::Kind(kind_of(word)?))
    }
}

/// The application blocks that a word `application:ID` names.
fn application(kind: &str, id: &str) -> Option<BlockName> {
    if kind.eq_ignore_ascii_case("application") {
        Some(BlockName::Application(application_id(id)?))
    } else {
        None
    }
}

/// The names of the types of blocks from 0 on, as `list` has them.
const KINDS: [&str; 7] = [
    "STREAMINFO",
    "PADDING",
    "APPLICATION",
    "SEEKTABLE",
    "VORBIS_COMMENT",
    "CUESHEET",
    "PICTURE",
];

/// The type of a name, 0 to 126, whatever the case of its letters.
fn kind_of(name: &str) -> Option<u8> {
    for (i, known) in KINDS.iter().enumerate() {
        if name.eq_ignore_ascii_case(known) {
            return Some(i as u8);
        }
    }
    let (front, number) = name.split_once('_')?;
    let kind = number.parse::<u8>().ok()?;
    if front.eq_ignore_ascii_case("TYPE") && kind > 6 && kind < 127 {
        return Some(kind);
    }
    None
}

/// The identifier of an application: four ASCII characters, or `0x` and eight hexadecimal digits.
fn application_id(text: &str) -> Option<[u8; 4]> {
    if let Some(digits) = text.strip_prefix("0x") {
        if digits.len() == 8 {
            return Some(u32::from_str_radix(digits, 16).ok()?.to_be_bytes());
        }
        return None;
    }
    match text.as_bytes() {
        [a, b, c, d] if text.is_ascii() => Some([*a, *b, *c, *d]),
        _ => None,
    }
}
