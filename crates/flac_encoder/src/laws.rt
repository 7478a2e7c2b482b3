//! Laws: what holds of the definitions. Calling them does nothing; a proof may name them.

ghost use Rattle.flac_encoder.specs.Pushing.{FoundShorten};

/// A shortest frame over some predictors, and after them those that a search found for each plane, is no longer than a
/// shortest one over the first predictors alone. So a search makes no frame longer.
pub fn found_shorten()
    ensures { FoundShorten }
{}
