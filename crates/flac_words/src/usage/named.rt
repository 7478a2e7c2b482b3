//! Words of the command line that name something.

use std::alloc::{AllocError, Global};

/// What a word names.
pub(crate) trait Named<'a>: Sized {
    /// What the word names; `None` if it names nothing.
    fn of(word: &'a str) -> Option<Self>;
}

/// What the words name; `None` if one names nothing.
///
/// # Errors
/// Memory ran out.
pub(crate) fn all_named<'a, T: Named<'a> + Drop>(
    alloc: Global,
    words: &[&'a str],
) -> Result<Option<Vec<T>>, AllocError> {
    let mut named = Vec::new(alloc);
    for word in words {
        match T::of(word) {
            Some(it) => named.push(it)?,
            None => return Ok(None),
        }
    }
    Ok(Some(named))
}
