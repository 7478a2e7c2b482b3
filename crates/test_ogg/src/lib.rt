//! Tests of Ogg streams, and of streams in both containers: outside the streamable subset, and by predictors that are
//! handed in. What fails, or comes in pieces, is tested in `test_failures`.
#![tactic(auto)]

#[cfg(test)]
mod headers;
#[cfg(test)]
mod lax;
#[cfg(test)]
mod lax_written;
#[cfg(test)]
mod ogg;
#[cfg(test)]
mod ogg_decoding;
#[cfg(test)]
mod predicted;
#[cfg(test)]
mod pushing_ogg;
