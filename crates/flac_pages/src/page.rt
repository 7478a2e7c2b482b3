//! The fixed fields of a page (RFC 3533, section 6).

ghost use Rattle.std.specs.Prelude.{◌≡◌};
ghost use Rattle.flac_pages.specs.Page.{is_continued, is_first, is_last};

use flac_bits::Why;

/// The most bytes that the segments of a page have: 255 of 255 bytes (RFC 3533, section 6).
pub const MOST_BODY: usize = 65025;

/// The most bytes that a page has: 27 in its fixed fields, 255 lacing values, and those of its segments.
pub const MOST_PAGE: usize = 65307;

/// What each page begins with: `OggS` (RFC 3533, section 6, field 1).
pub const CAPTURE_PATTERN: [u8; 4] = [0x4F, 0x67, 0x67, 0x53];

/// The last three bytes of [`CAPTURE_PATTERN`], as a number of 24 bits.
pub(crate) const CAPTURE_END: u64 = (CAPTURE_PATTERN[1] as u64) * 65536
    + (CAPTURE_PATTERN[2] as u64) * 256
    + CAPTURE_PATTERN[3] as u64;

/// The flag of a page that begins inside a packet.
pub(crate) const CONTINUED: u8 = 1;

/// The flag of the first page of a stream.
pub(crate) const FIRST: u8 = 2;

/// The flag of the last page of a stream.
pub(crate) const LAST: u8 = 4;

/// A page that is refused: how many pages came before it, and why.
pub type PageFault = (u64, Why);

/// Why a packet is not what it has to be, and if a refused page breaks it off, how many pages came before that page.
pub type PacketFault = (Option<u64>, Why);

/// The fixed fields of a page (RFC 3533, section 6).
#[derive(Clone, Copy, Debug, PartialEq, Eq)]
pub struct Head {
    /// Bit 0: the page begins inside a packet; bit 1: it is the first page; bit 2: it is the last page.
    pub flags: u8,
    /// The granule position: in FLAC the number of inter-channel samples up to the end of the last packet that ends on
    /// the page (RFC 9639, section 10.1).
    pub granule: u64,
    /// The serial number of the stream.
    pub serial: u32,
    /// The number of the page, counted from 0.
    pub sequence: u32,
    /// The checksum of the whole page, in which it counts as 0 itself.
    pub sum: u32,
}

impl Head {
    /// Whether the page begins inside a packet.
    pub(crate) fn is_continued(self) -> bool
        ensures { result ≡ is_continued self.flags }
    {
        self.flags / CONTINUED % 2 == 1
    }

    /// Whether it is marked as the first page of its stream.
    pub(crate) fn is_first(self) -> bool
        ensures { result ≡ is_first self.flags }
    {
        self.flags / FIRST % 2 == 1
    }

    /// Whether it is marked as the last page of its stream.
    pub(crate) fn is_last(self) -> bool
        ensures { result ≡ is_last self.flags }
    {
        self.flags / LAST % 2 == 1
    }
}

/// What the next page must agree with, of the pages before it.
#[derive(Clone, Copy, Debug, PartialEq, Eq)]
pub struct Before {
    /// The serial number of the stream.
    pub serial: u32,
    /// The number of the last page.
    pub sequence: u32,
    /// Whether a packet goes on on the next page.
    pub goes_on: bool,
}
