//! The search for the shortest subframe of some samples.

// choosing: the subframe, its content, the form of a residual
pub(crate) mod choice;
pub(crate) mod chosen;
pub(crate) mod least_coding;
pub(crate) mod wide_choice;

// the bits of codings, and lower bounds on them
pub(crate) mod cost;
pub(crate) mod entry;
pub(crate) mod fixed_leaves;
pub(crate) mod halves;
pub(crate) mod pruning;
pub(crate) mod widths;

// what a linear predictor leaves, in 64 bits by lanes
pub(crate) mod wide_products;

// what is searched, and the working arrays
pub(crate) mod tables;
pub(crate) mod view;
pub(crate) mod workspace;

// the subframe of a choice is written
pub(crate) mod written;

// laws
pub(crate) mod family_laws;
