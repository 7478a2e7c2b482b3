//! The reason of an error.

ghost use Rattle.std.specs.Prelude.{◌≡◌, ◌≢◌, Some};
ghost use Rattle.flac_bits.specs.declared.why.Why.TheVariants.{Memory, Read, Write};
ghost use Rattle.flac_bits.specs.Reasons.{number_of, text_of};

use std::alloc::{AllocError, AllocFailed};
use std::error::Error;
use std::fmt;

/// The reason of an error of reading, decoding or writing. Each has a number from 1 to 39, see [`Why::number`].
///
/// It prints as its number and its name: `26 FrameCheck`. `docs/errors.md` says of each what it means and what can be
/// done. Sections are those of RFC 9639, if nothing else is said.
#[derive(Clone, Copy, Debug, PartialEq, Eq)]
pub enum Why {
    /// The source returned an error in this call.
    Read,
    /// Out of memory: an allocation failed in this call.
    Memory,
    /// The input ends inside a marker, block, frame or page.
    Truncated,
    /// The first four bytes are not `fLaC` (section 6).
    BadMarker,
    /// The first metadata block is not STREAMINFO (section 8.2).
    NotStreamInfoFirst,
    /// A metadata block has type 127; on writing, a block that keeps raw bytes has a type outside 7 to 126 (section
    /// 8.1).
    ForbiddenType,
    /// The length of a block does not fit its type or its fields; on writing, a block is too long (section 8.1).
    BlockLength,
    /// A value of STREAMINFO is out of its range (section 8.2).
    BadStreamInfo,
    /// STREAMINFO, the seek table or the Vorbis comment occurs twice (section 8).
    RepeatedBlock,
    /// The points of a seek table do not rise, or a point follows a placeholder (section 8.5).
    SeekOrder,
    /// A reserved bit of a cue sheet is set, or it has no track; on writing, also too many tracks or indices (section
    /// 8.7).
    CueSheet,
    /// A frame does not begin with the sync code (section 9.1).
    BadSync,
    /// A frame header has a reserved or forbidden code (section 9.1).
    ReservedCode,
    /// Allowed by the format, but not in the streamable subset (section 7).
    NotSubset,
    /// A coded number is malformed, too long, or not in its shortest form (section 9.1.5).
    BadNumber,
    /// The CRC-8 of a frame header differs (section 9.1.8).
    HeaderCheck,
    /// Sample rate, channel count or depth of a frame is not that of STREAMINFO (section 8.2).
    HeaderMismatch,
    /// The number of a frame does not follow the one before, or the blocking strategy changes (section 9.1.5).
    Sequence,
    /// A block size does not fit STREAMINFO or the blocks before it (section 8.2).
    BlockSize,
    /// A subframe has a reserved type, its first bit is set, or it has too many wasted bits (sections 9.2.1 and 9.2.2).
    BadSubframe,
    /// A linear predictor has a forbidden precision or shift (section 9.2.6).
    BadPredictor,
    /// A predictor's order or a residual partition does not fit the block, or the coding method is reserved (section
    /// 9.2.7).
    BadPartition,
    /// A residual value is not strictly between -2^31 and 2^31 (section 9.2.7.3).
    ResidualRange,
    /// The bits up to a whole byte at the end of a frame are not zeros (section 9.3).
    NonzeroPadding,
    /// A frame has more than 16777215 bytes, or a field needs a bit past a fence ([`crate::BitReader::fence`]).
    FrameTooLong,
    /// The CRC-16 of a frame differs (section 9.3).
    FrameCheck,
    /// A restored sample does not fit its depth.
    SampleRange,
    /// The number of samples is not the one that STREAMINFO states (section 8.2).
    TotalMismatch,
    /// The MD5 digest of the samples is not the one that STREAMINFO states (section 8.2).
    Md5Mismatch,
    /// The sink returned an error in this call.
    Sink,
    /// A page does not begin with `OggS` and version 0 (RFC 3533, section 6).
    BadPage,
    /// The checksum of a page differs (RFC 3533, section 6).
    PageCheck,
    /// A page does not follow the one before it, or there are bytes after the page marked last (RFC 3533, section 6).
    PageOrder,
    /// A page has another serial number (RFC 3533, section 6).
    OtherStream,
    /// A packet does not hold exactly one item, or a packet is missing (section 10.1).
    PacketLength,
    /// The input ends, and no page was marked last (RFC 3533, section 6).
    NoEndPage,
    /// The first page or packet is not that of FLAC in Ogg; on writing, comments do not come first, or a seek
    /// table is asked for (section 10.1).
    BadMapping,
    /// An earlier call of this value failed, and it goes no further.
    Spent,
    /// The target returned an error in this call.
    Write,
}

impl Why {
    /// The number of the reason, 1 to 39, in the order of the variants.
    pub fn number(self) -> u8
        ensures { result ≡ number_of self }
    {
        self as u8 + 1
    }

    /// The same reason for a target in memory, such as [`crate::Collected`]: its only error is a failed allocation, so
    /// `Write` becomes `Memory`.
    pub fn in_memory(self) -> Why
        ensures target { self ≡ Write → result ≡ Memory }
        ensures others { self ≢ Write → result ≡ self }
        ensures unread { self ≢ Read → result ≢ Read }
    {
        match self {
            Why::Write => Why::Memory,
            other => other,
        }
    }

    /// The number and the name of the reason, as `26 FrameCheck`.
    pub fn as_str(self) -> &'static str
        ensures { result.now ≡ text_of self }
    {
        match self {
            Why::Read => "1 Read",
            Why::Memory => "2 Memory",
            Why::Truncated => "3 Truncated",
            Why::BadMarker => "4 BadMarker",
            Why::NotStreamInfoFirst => "5 NotStreamInfoFirst",
            Why::ForbiddenType => "6 ForbiddenType",
            Why::BlockLength => "7 BlockLength",
            Why::BadStreamInfo => "8 BadStreamInfo",
            Why::RepeatedBlock => "9 RepeatedBlock",
            Why::SeekOrder => "10 SeekOrder",
            Why::CueSheet => "11 CueSheet",
            Why::BadSync => "12 BadSync",
            Why::ReservedCode => "13 ReservedCode",
            Why::NotSubset => "14 NotSubset",
            Why::BadNumber => "15 BadNumber",
            Why::HeaderCheck => "16 HeaderCheck",
            Why::HeaderMismatch => "17 HeaderMismatch",
            Why::Sequence => "18 Sequence",
            Why::BlockSize => "19 BlockSize",
            Why::BadSubframe => "20 BadSubframe",
            Why::BadPredictor => "21 BadPredictor",
            Why::BadPartition => "22 BadPartition",
            Why::ResidualRange => "23 ResidualRange",
            Why::NonzeroPadding => "24 NonzeroPadding",
            Why::FrameTooLong => "25 FrameTooLong",
            Why::FrameCheck => "26 FrameCheck",
            Why::SampleRange => "27 SampleRange",
            Why::TotalMismatch => "28 TotalMismatch",
            Why::Md5Mismatch => "29 Md5Mismatch",
            Why::Sink => "30 Sink",
            Why::BadPage => "31 BadPage",
            Why::PageCheck => "32 PageCheck",
            Why::PageOrder => "33 PageOrder",
            Why::OtherStream => "34 OtherStream",
            Why::PacketLength => "35 PacketLength",
            Why::NoEndPage => "36 NoEndPage",
            Why::BadMapping => "37 BadMapping",
            Why::Spent => "38 Spent",
            Why::Write => "39 Write",
        }
    }
}

impl fmt::Display for Why {
    ghost output = { λ why. Some (text_of why) };

    fn fmt<W: fmt::Write>(&self, f: &mut fmt::Formatter<W>) -> fmt::Result {
        f.write_str(self.as_str())
    }
}

impl Error for Why {}

impl From<AllocError> for Why {
    ghost from_gives = { λ _ e. e ≡ Memory };

    fn from(_e: AllocError) -> Why {
        Why::Memory
    }
}

impl<T: Drop> From<AllocFailed<T>> for Why {
    ghost from_gives = { λ _ e. e ≡ Memory };

    fn from(_e: AllocFailed<T>) -> Why {
        Why::Memory
    }
}
