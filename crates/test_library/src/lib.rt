//! Tests of readers of whole streams, of encoders of native streams that are pushed to, and the programs of the README.
#![tactic(auto)]

#[cfg(test)]
mod comparing;
#[cfg(test)]
mod programs;
#[cfg(test)]
mod pushing;
#[cfg(test)]
mod reading_files;
#[cfg(test)]
mod reading_more;
#[cfg(test)]
mod reading_on;
#[cfg(test)]
mod reading_samples;
