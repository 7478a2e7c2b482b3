//! Laws of chains.

ghost use Rattle.flac_chain.specs.Chained.{ChainsAreReadOnce};

/// No input has two readings as a chain: it is streams one after another, in one way, or it is refused in one stream,
/// after one list of items, at one place and for one reason. So a chain is never refused by [`crate::decode_chain`], unless memory runs out or
/// the source or the sink fails.
pub fn chains_are_read_once()
    ensures { ChainsAreReadOnce }
{}
