//! In what two streams differ.

ghost use Rattle.std.specs.Prelude.{◌≡◌, true, IfSome};
ghost use Rattle.flac_compare.specs.Format.{SaysFormat, is_of_format};

use flac_native::{Fault, StreamInfo};

/// In what two streams differ: the first of these in this order. The value of the first stream comes first.
#[derive(Clone, Copy, Debug, PartialEq, Eq)]
pub enum Difference {
    /// Sample rates in Hz (RFC 9639, section 8.2).
    Rate(u32, u32),
    /// Numbers of channels.
    Channels(u8, u8),
    /// Bits per sample.
    Depth(u8, u8),
    /// The first sample that differs: its number, counted from 0 in each channel, up to 2^64 - 1, and the first channel
    /// in which it differs, counted from 0.
    Sample(u64, usize),
    /// Numbers of samples of each channel, up to 2^64 - 1. The samples of the shorter stream are the first of the longer.
    Length(u64, u64),
}

/// Why two streams are not compared: the first or the second one is refused.
#[derive(Clone, Copy, Debug, PartialEq, Eq)]
pub enum Unread {
    /// The first stream is refused at this place, for this reason.
    First(Fault),
    /// The second stream is refused at this place, for this reason.
    Second(Fault),
}

/// The first difference of two formats; `None` if there is none.
pub(crate) fn format_difference(first: &StreamInfo, second: &StreamInfo) -> Option<Difference>
    ensures says { SaysFormat first.now second.now result }
    ensures kind { IfSome result (λ d. is_of_format d ≡ true) }
{
    if first.rate() != second.rate() {
        return Some(Difference::Rate(first.rate(), second.rate()));
    }
    if first.channels() != second.channels() {
        return Some(Difference::Channels(first.channels(), second.channels()));
    }
    if first.depth() != second.depth() {
        return Some(Difference::Depth(first.depth(), second.depth()));
    }
    None
}
