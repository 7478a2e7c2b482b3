//! Tests of copies between native streams and Ogg, through the public calls of `flac_copy`.
#![tactic(auto)]

#[cfg(test)]
mod opened;
#[cfg(test)]
mod to_ogg;
