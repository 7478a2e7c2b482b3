//! Laws: what holds of the definitions. Calling them does nothing; a proof may name them.

ghost use Rattle.flac_subframe.specs.format.Laws.{SamplesAreRestored, SubframesAreSpelled, SubframesAreReadAgain};

/// The samples of a form are the only list that its equations allow: each later sample is its prediction plus its
/// residual value.
pub fn samples_are_restored()
    ensures { SamplesAreRestored }
{}

/// The layout of a subframe spells exactly the forms that are allowed, each in one way.
pub fn subframes_are_spelled()
    ensures { SubframesAreSpelled }
{}

/// A form that is spelled is read again, whatever follows.
pub fn subframes_are_read_again()
    ensures { SubframesAreReadAgain }
{}
