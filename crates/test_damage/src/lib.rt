//! Tests of what is found in damaged streams: whole frames, whole pages, what is missing. They are in a crate of their
//! own, so that each library is proved once.
#![tactic(auto)]

#[cfg(test)]
mod frames;
#[cfg(test)]
mod pages;
#[cfg(test)]
mod rescue;
