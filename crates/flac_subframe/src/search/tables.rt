//! The working arrays of a search.

use crate::search::entry::Entry;

/// The working arrays of a search for the codings of a residual, for partition orders up to some greatest: the cost of
/// each of the finest partitions under parameter 0 and under another, the best parameter of each partition by the first
/// and by the second coding method, and the width of each; and the codings of the best residual so far, each as a byte.
/// Beside them, how often the search computed one value's cost under one parameter, or its width.
#[derive(Drop)]
pub(crate) struct Tables<'a> {
    pub(crate) leaves: &'a mut [u64],
    pub(crate) sums: &'a mut [u64],
    pub(crate) four: &'a mut [Entry],
    pub(crate) five: &'a mut [Entry],
    pub(crate) widths: &'a mut [u8],
    pub(crate) codings: &'a mut [u8],
    pub(crate) priced: u64,
}

/// The arrays of a search for what a predictor leaves of the samples: in 64 bits, in 32 bits, and as unsigned numbers.
#[derive(Drop)]
pub(crate) struct SearchArrays<'a> {
    pub(crate) wide: &'a mut [i64],
    pub(crate) values: &'a mut [i32],
    pub(crate) folds: &'a mut [u32],
}

/// An array with one value in all places. For the prover its result is any array of that length; the places of a
/// literal are counted one by one wherever its length is asked for.
#[inline(always)]
pub(crate) fn filled<T: Copy, const N: usize>(value: T) -> [T; N] {
    [value; N]
}
