//! FLAC for programs in C: streams in memory are verified, described, decoded frame by frame or as a whole, and
//! encoded; WAV files in memory are taken apart, and the heads of plain ones are made.
//!
//! The header is `examples/c/flac_proved.h`, and `docs/c.md` has worked examples. A pointer and a length in C are a
//! slice here. Each call that reads or encodes a stream returns 0 or the number of a reason (`docs/errors.md`);
//! `flac_proved_bound` returns a number of bytes, `flac_proved_strerror` and `flac_proved_place` the length of a text.
//! Each call frees what it allocates, and keeps no pointer.
//!
//! Calls whose names end in `_in` take a profile, 0 the streamable subset and any other number all streams, or options
//! with a profile. The others are of the subset, but those that read metadata, which are the same for both.
#![tactic(auto)]

mod blocks;
mod bound;
mod channels;
mod cursor;
mod decoding;
mod encoding;
mod fault;
mod finding;
#[cfg(test)]
mod finding_tests;
mod head;
mod info;
mod metadata;
mod profiles;
mod samples;
mod searching;
mod starting;
mod stepping;
mod tags;
#[cfg(test)]
mod tests;
mod texts;
mod unpacking;
mod verifying;
mod wave_head;
mod wave_samples;
#[cfg(test)]
mod wave_tests;
mod waves;
