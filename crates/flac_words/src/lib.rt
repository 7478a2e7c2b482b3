//! The command line of the program.
#![tactic(auto)]

mod commands;
mod no_request;
mod requests;
mod usage;
mod words;

pub use words::{command_line, given_words, job, request};
