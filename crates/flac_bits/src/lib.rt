//! Reading and writing of bits, over sources and targets of bytes; checks, coded numbers, and [`Why`], the reason of an
//! error.
#![tactic(auto)]

mod bytes;
mod coded;
mod counted;
mod crc_32_division;
mod crc_32_tables;
mod crc_8_16_division;
mod crc_8_16_tables;
mod crc_of_bytes;
mod failing;
mod held;
mod laws;
mod little;
mod number;
mod reader;
mod rest;
mod run;
mod send;
mod signed;
mod source;
mod stretch;
mod target;
mod unsent;
mod why;
mod word;
mod writer;

pub use bytes::{bytes_fit, read_bytes, read_unchecked};
pub use coded::{number_len, write_number};
pub use counted::Counted;
pub use crc_of_bytes::{checks_are_remainders, crc8, crc16, crc32, crc32_after, page_sum};
pub use failing::FailAt;
pub use laws::{fields_are_meant, numbers_are_spelled};
pub use little::{put_little_32, read_little_32, read_little_64};
pub use number::read_number;
pub use reader::BitReader;
pub use send::send_all;
pub use source::{Memory, Pieces, Source};
pub use target::{Collected, Target};
pub use why::Why;
pub use writer::BitWriter;

/// How many bytes a reader holds at most, and pulls at once.
pub(crate) const PULL: usize = 8192;

/// How many bytes a writer holds at most, and sends at once.
pub(crate) const HOLD: usize = 16384;
