//! Laws: what holds of the definitions. Calling them does nothing; a proof may name them.

ghost use Rattle.flac_predict.specs.Found.{MoreShorten};
ghost use Rattle.flac_predict.specs.Searched.{SearchesShorten};

/// A shortest frame over constant, verbatim and fixed predictors and those of a list for each plane is no longer than
/// one over the first ones of each list.
pub fn more_predictors_shorten()
    ensures { MoreShorten }
{}

/// A native stream that is encoded with predictors that are found for each plane of each block, beside those of the plan,
/// is no longer than one that is encoded with those of the plan alone. So a search makes no native file longer; nothing
/// is said of Ogg.
pub fn searches_shorten()
    ensures { SearchesShorten }
{}
