//! The format: subframes are read and written (RFC 9639, section 9.2). Nothing here names the search.

// what a subframe has: its type, its form, the codings of its residual
pub(crate) mod coding;
pub(crate) mod coding_method;
pub(crate) mod content;
pub(crate) mod limits;
pub(crate) mod residual_form;
pub(crate) mod subframe_type;

// samples and predictors: numbers of some bits, wasted bits, linear predictors, what they predict and leave
pub(crate) mod leaving;
pub(crate) mod linear;
pub(crate) mod numbers;
pub(crate) mod predictors;
pub(crate) mod wasted;

// what predictors leave, in 32 bits and by lanes
pub(crate) mod folding;
pub(crate) mod leaving_narrow;
pub(crate) mod narrowed;
pub(crate) mod products;

// reading: the subframe, its residual, and the samples restored in its places
pub(crate) mod fixed;
pub(crate) mod packed;
pub(crate) mod residual;
pub(crate) mod restoration;
pub(crate) mod subframe;

// writing a subframe as it was chosen
pub(crate) mod writing;

// laws
pub(crate) mod laws;
