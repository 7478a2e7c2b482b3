//! Laws of the forms among which a choice is the shortest. Calling them does nothing; a proof may name them.

ghost use Rattle.flac_subframe.specs.search.FamilyLaws.{FamilyIsWhole, FamilyIsPlain, FamilyWithIsWhole, FamilyWithIsPlain};

/// The forms that a choice compares are exactly those that can be spelled with a partition order of at most 8, have
/// these samples, are constant, verbatim or by a fixed predictor, and leave out all the lowest bits that the samples
/// lack.
pub fn family_is_plain()
    ensures whole { FamilyIsWhole }
    ensures plain { FamilyIsPlain }
{}

/// The same if linear predictors are handed in: the forms among which a choice with them is the least are just those
/// that may be spelled, have these samples, are constant, verbatim, by a fixed predictor or by one of these linear
/// ones, and leave out all the lowest bits that the samples lack.
pub fn family_with_is_plain()
    ensures whole { FamilyWithIsWhole }
    ensures plain { FamilyWithIsPlain }
{}
