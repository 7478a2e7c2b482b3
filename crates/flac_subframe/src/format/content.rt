//! How a subframe and its samples are written.

use crate::format::residual_form::ResidualForm;

/// How the samples of a subframe are written, but for the codings of a residual.
#[derive(Clone, Copy, Debug, PartialEq, Eq)]
pub enum ContentKind {
    /// The first sample, which stands for all (RFC 9639, section 9.2.3).
    Constant,
    /// Each sample (section 9.2.4).
    Verbatim,
    /// What a predictor leaves (sections 9.2.5 and 9.2.6).
    Predicted(PredictorKind),
}

/// A predictor: a fixed one by its order, or a linear one by its place in the list that was handed in.
#[derive(Clone, Copy, Debug, PartialEq, Eq)]
pub enum PredictorKind {
    /// The fixed predictor of this order, 0 to 4 (RFC 9639, section 9.2.5).
    Fixed(usize),
    /// The linear predictor at this index of the list (section 9.2.6).
    Linear(usize),
}

/// How a subframe is written, but for the codings of its residual: how many of the lowest bits are left out of each
/// sample, how the rest is written, and the form of its residual, which a content without one does not use.
#[derive(Clone, Copy, Debug, PartialEq, Eq)]
pub struct SubframeForm {
    pub wasted: u32,
    pub content: ContentKind,
    pub residual: ResidualForm,
}

/// A choice as it is written: its form, and the coding of each partition of its residual as a byte.
#[derive(Clone, Copy)]
pub(crate) struct ChoiceView<'a> {
    pub(crate) form: SubframeForm,
    pub(crate) codings: &'a [u8],
}
