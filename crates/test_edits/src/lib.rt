//! Tests of edits in place, through the public calls of `flac_edit`.
#![tactic(auto)]

#[cfg(test)]
mod blocks;
#[cfg(test)]
mod crashes;
#[cfg(test)]
mod in_place;
#[cfg(test)]
mod lines;
#[cfg(test)]
mod rewriting;
#[cfg(test)]
mod tagging;
