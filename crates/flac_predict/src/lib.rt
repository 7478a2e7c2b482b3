//! Linear predictors that are found for blocks of samples (RFC 9639, section 9.2.6).
//!
//! | To | Begin with |
//! |---|---|
//! | find predictors for each plane of each block of some samples | [`found_in`] |
//! | find them block by block | [`Finder::new`] and [`Finder::find`] |
//!
//! The samples are weighed with a window; their autocorrelation gives the predictor of each order by the Levinson-Durbin
//! recursion; an estimate chooses the order; and the coefficients are rounded to whole numbers.
//!
//! An encoder tries what is found beside the constant, verbatim and fixed predictors, and keeps the shortest frame. So
//! whatever is found, the samples are given back, and no frame is longer than without. That predictors save bytes is
//! measured, not proved. They are computed with `f64` by sums, products, quotients and comparisons alone, so they do not
//! depend on a library of the system.
#![tactic(auto)]

mod block;
mod correlate;
mod finder;
mod found;
mod laws;
mod levinson;
mod pairs;
mod quantised;
mod search;
mod windows;

pub use finder::Finder;
pub use found::found_in;
pub use laws::{more_predictors_shorten, searches_shorten};
pub use search::Search;
