//! Comparisons: what `flac same` is asked for.

/// Two streams whose samples are compared.
#[derive(Debug, Drop)]
pub struct Comparison<'a> {
    /// The path of the first stream.
    pub first: &'a str,
    /// The path of the second stream.
    pub second: &'a str,
}
