//! Tests of the program over memory: its command lines, and what it answers to streams and samples, by tables of text.
//! They stand apart from those of the libraries, so that these need not wait for the program.
#![tactic(auto)]

#[cfg(test)]
mod chains;
#[cfg(test)]
mod copying;
#[cfg(test)]
mod excerpts;
#[cfg(test)]
mod heads;
#[cfg(test)]
mod hostile;
#[cfg(test)]
mod listing;
#[cfg(test)]
mod parts;
#[cfg(test)]
mod points;
#[cfg(test)]
mod program;
#[cfg(test)]
mod recoding;
#[cfg(test)]
mod salvaging;
#[cfg(test)]
mod same;
#[cfg(test)]
mod sought;
#[cfg(test)]
mod strange;
#[cfg(test)]
mod tables;
#[cfg(test)]
mod verifying;
#[cfg(test)]
mod waves_twice;
