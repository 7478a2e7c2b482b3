//! Tests of bytes between tags, of empty packets, and of streams one after another. They are in a crate of their own, so
//! that the library is proved once.
#![tactic(auto)]

#[cfg(test)]
mod chains;
#[cfg(test)]
mod empty_packets;
#[cfg(test)]
mod spans;
#[cfg(test)]
mod tags;
