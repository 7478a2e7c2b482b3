//! How far an encoding seeks linear predictors.

/// How far an encoding seeks linear predictors for each block, which the encoder tries too. The more it finds, the more
/// time it takes.
#[derive(Clone, Copy, Debug, PartialEq, Eq)]
pub enum SearchEffort {
    /// It seeks none.
    None,
    /// It seeks a few: at most one for each channel.
    Quick,
    /// It seeks more than `Quick`: at most two for each channel.
    Full,
}
