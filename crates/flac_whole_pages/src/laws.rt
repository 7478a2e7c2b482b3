//! Laws: what holds of the definitions. Calling them does nothing; a proof may name them.

ghost use Rattle.flac_whole_pages.specs.Found.{NoneIsMissed, FoundAreInOrder, FoundOnce};

/// Of all whole pages, found one after another: each page that stands whole is one of them, or begins inside one. They
/// stand in the input, in the order of the bytes, and do not overlap. There is only one such list.
pub fn whole_pages_are_found()
    ensures missed { NoneIsMissed }
    ensures order { FoundAreInOrder }
    ensures once { FoundOnce }
{}
