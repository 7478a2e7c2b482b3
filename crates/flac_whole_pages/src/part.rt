//! Parts of an input, and where their bytes are in it.

ghost use Rattle.std.specs.Prelude.{◌≡◌, ◌≤◌, ◌<◌, ◌+◌, ◌^◌, List, length, IfOk};
ghost use Rattle.flac_whole_pages.specs.Parts.{joined, AreInside, AreReached, NoneReached, place_of};

use std::alloc::{AllocError, Global};

/// A part of an input.
#[derive(Clone, Copy, Debug, PartialEq, Eq)]
pub struct Part {
    /// The offset of its first byte.
    pub start: usize,
    /// The offset of the first byte after it.
    pub end: usize,
}

/// The place that was looked for last: the next one is looked for from there on.
#[derive(Clone, Copy, Debug, PartialEq, Eq)]
pub struct Reached {
    /// The index of a part.
    pub index: usize,
    /// How many bytes the parts before it have.
    pub before: usize,
}

/// No place was looked for yet.
pub fn none_reached() -> Reached
    ensures { NoneReached result }
{
    Reached {
        index: 0,
        before: 0,
    }
}

/// The bytes of parts of the input, one after another.
///
/// # Errors
/// An allocation fails.
pub(crate) fn joined(alloc: Global, bytes: &[u8], parts: &[Part]) -> Result<Vec<u8>, AllocError>
    requires { AreInside (length bytes.now) parts.now }
    ensures { IfOk result (λ left. left.items ≡ joined bytes.now parts.now) }
{
    let mut left = Vec::new(alloc);
    for part in parts {
        left.extend_from_slice(&bytes[part.start..part.end])?;
    }
    Ok(left)
}

/// Where the byte at an offset of the parts' bytes is in the input; where the input ends, if there is no such byte.
pub(crate) fn place(parts: &[Part], end: usize, reached: &mut Reached, at: usize) -> usize
    requires reached { AreReached parts.now reached.old }
    requires inside { AreInside end parts.now }
    ensures place { result ≡ place_of end parts.now at }
    ensures reached { AreReached parts.now reached.new }
    ensures inside { result ≤ end }
{
    if at < reached.before {
        *reached = Reached {
            index: 0,
            before: 0,
        };
    }
    while reached.index < parts.len() {
        let part = parts[reached.index];
        let size = part.end - part.start;
        if at - reached.before < size {
            return part.start + (at - reached.before);
        }
        reached.index += 1;
        reached.before += size;
    }
    end
}
