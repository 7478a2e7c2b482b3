//! What a profile allows in a subframe.

/// What a profile allows in a subframe (RFC 9639, section 7).
#[derive(Clone, Copy, Debug)]
pub struct Limits {
    /// The largest partition order of a residual, at most 15.
    pub partition: u32,
    /// The largest order of a linear predictor, at most 32.
    pub linear: u32,
}
