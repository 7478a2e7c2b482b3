//! Tests of encoders that write the head of a stream last, and of raw samples. They are in a crate of their own, so that
//! each library is proved once.
#![tactic(auto)]

#[cfg(test)]
mod drafts;
#[cfg(test)]
mod ogg_drafts;
#[cfg(test)]
mod raw;
