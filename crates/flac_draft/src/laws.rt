//! Laws: what holds of the definitions. Calling them does nothing; a proof may name them.

ghost use Rattle.flac_draft.specs.Draft.{DraftsAreEncoded, FoundAreEncoded};

/// Without a search, what a [`crate::DraftEncoder`] has written at the end is what [`flac_native::encode`] writes of
/// the same samples by the same plan.
pub fn drafts_are_encoded()
    ensures { DraftsAreEncoded }
{}

/// What a [`crate::DraftEncoder`] has written at the end is what [`flac_native::encode`] writes of the same samples by
/// a plan with the same predictors, and with lists for the planes of each frame ([`flac_native::Plan::with_found`]),
/// each of which begins with these predictors.
pub fn found_are_encoded()
    ensures { FoundAreEncoded }
{}
