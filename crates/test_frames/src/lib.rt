//! Tests of metadata blocks, frame headers, subframes and frames, through the public calls of the libraries and by
//! vectors from outside. They need no crate above frames, so that they are proved beside the libraries of streams.
#![tactic(auto)]

#[cfg(test)]
mod blocks;
#[cfg(test)]
mod by_plane;
#[cfg(test)]
mod enumeration;
#[cfg(test)]
mod equals;
#[cfg(test)]
mod frames;
#[cfg(test)]
mod headers;
#[cfg(test)]
mod joining;
#[cfg(test)]
mod lax_subframes;
#[cfg(test)]
mod predictors;
#[cfg(test)]
mod subframes;
