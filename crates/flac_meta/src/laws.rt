//! Laws of the definitions.

ghost use Rattle.flac_meta.specs.Valid.{BlocksAreSpelled, BlocksAreReadAgain};

/// Law: bits encode exactly the blocks that may come after the kinds that were seen, each in one way but for the values
/// of padding; and what is written is read again as the same block, whatever follows (RFC 9639, section 8).
pub fn blocks_are_spelled()
    ensures spelled { BlocksAreSpelled }
    ensures again { BlocksAreReadAgain }
{}
