//! The bytes of a native stream that are left in an input.

ghost use Rattle.std.specs.Prelude.{◌≡◌, ◌<◌, ◌+◌, ◌^◌};
ghost use Rattle.flac_whole_pages.specs.Parts.{AreInside, AreReached, place_of, place_after};
ghost use Rattle.flac_whole_pages.specs.inner.Insides.{inside_prop};

use crate::part::{Part, Reached, place};

/// The bytes of a native stream that are left in an input.
#[derive(Drop)]
pub struct Left {
    /// These bytes.
    pub bytes: Vec<u8>,
    /// The parts of the input that they are, one after another.
    pub parts: Vec<Part>,
    /// How many bytes the input has.
    pub end: usize,
    /// Where the search for pages ended because its budget was used up: up to that offset no other page stands.
    pub cut: Option<usize>,
    ghost inside: { AreInside end parts.items } by { inside_prop end parts.items },
    ghost short: { end + 1 < 2 ^ 64 },
}

impl Left {
    /// Where the byte at an offset of the bytes is in the input; where the input ends, if there is no such byte. It
    /// takes a step for each part between this place and the one that was reached last.
    pub fn place(&self, reached: &mut Reached, at: usize) -> usize
        requires { AreReached self.now.parts.items reached.old }
        ensures place { result ≡ place_of self.now.end self.now.parts.items at }
        ensures reached { AreReached self.now.parts.items reached.new }
        ensures most { result + 1 < 2 ^ 64 }
    {
        place(&self.parts, self.end, reached, at)
    }

    /// Where the byte before an offset of the bytes ends in the input.
    pub fn place_after(&self, reached: &mut Reached, at: usize) -> usize
        requires { AreReached self.now.parts.items reached.old }
        ensures place { result ≡ place_after self.now.end self.now.parts.items at }
        ensures reached { AreReached self.now.parts.items reached.new }
    {
        if at == 0 {
            return self.place(reached, 0);
        }
        self.place(reached, at - 1) + 1
    }
}
