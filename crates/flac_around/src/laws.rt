//! Laws of tags around a stream, and of streams one after another.

ghost use Rattle.flac_around.specs.Around.{PartsAreAll, UntaggedIsAll, BothComeOff, FrontComesOff, BackComesOff};
ghost use Rattle.flac_around.specs.Chains.{LinksAreAll, OneStreamIsOneLink, WholeStreamsAreLinks};

/// The parts of an input, one after another, are the input. Without a tag at the start and at the end the part between
/// is all of it.
pub fn parts_are_the_input()
    ensures joined { PartsAreAll }
    ensures alone { UntaggedIsAll }
{}

/// Tags that are put around any bytes come off again: both of them; or one, if the bytes themselves have no tag at the
/// other end.
pub fn tags_come_off()
    ensures both { BothComeOff }
    ensures front { FrontComesOff }
    ensures back { BackComesOff }
{}

/// The Ogg streams of an input, one after another, are the input. An input without a byte after its first stream is
/// this stream alone. Bytes that end with the first page that is marked last are the first stream of an input, whatever
/// follows them.
pub fn links_are_the_input()
    ensures joined { LinksAreAll }
    ensures alone { OneStreamIsOneLink }
    ensures first { WholeStreamsAreLinks }
{}
