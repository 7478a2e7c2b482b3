//! Tests of fields, coded numbers and checks, and of the pages and packets of Ogg, through the public calls of the
//! libraries and by vectors from outside. They are in a crate of their own, so that a library is proved once and not
//! again with its tests.
#![tactic(auto)]

#[cfg(test)]
mod bits_reader;
#[cfg(test)]
mod bits_writer;
#[cfg(test)]
mod packet_items;
#[cfg(test)]
mod packets;
