//! Tests of what is read and written beside streams: cue sheets, pictures, JSON, reports, WAV files. They are in a crate
//! of their own, so that each library is proved once.
#![tactic(auto)]

#[cfg(test)]
mod cue_sheets;
#[cfg(test)]
mod images;
#[cfg(test)]
mod objects;
#[cfg(test)]
mod reports;
#[cfg(test)]
mod waves;
