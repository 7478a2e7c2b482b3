//! Tests of native streams, through the public calls of the libraries and by vectors from outside. They are a crate of
//! their own, so that a library is proved once and not again with its tests. What fails, or comes in pieces, is tested
//! in `test_failures`.
#![tactic(auto)]

#[cfg(test)]
mod by_plane;
#[cfg(test)]
mod chosen;
#[cfg(test)]
mod decoding;
#[cfg(test)]
mod digest;
#[cfg(test)]
mod encoding;
#[cfg(test)]
mod located;
#[cfg(test)]
mod parts;
#[cfg(test)]
mod retagging;
mod samples;
#[cfg(test)]
mod seeking;
