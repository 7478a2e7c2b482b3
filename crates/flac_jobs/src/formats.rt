//! The format of raw samples, and the container of a stream.

/// The format of raw samples, and how an encoding divides them into blocks.
///
/// A `RawFormat` has the numbers of the command line as they were given; an encoding refuses those out of range.
#[derive(Clone, Copy, Debug, PartialEq, Eq)]
pub struct RawFormat {
    /// Sample rate in Hz.
    pub rate: u32,
    /// The number of channels.
    pub channels: u32,
    /// Bits per sample.
    pub bits: u32,
    /// Block size in inter-channel samples.
    pub block: u32,
    /// Inter-channel samples from one seek point to the next; 0 for no seek table.
    pub seek_every: u32,
}

/// The container of a stream.
#[derive(Clone, Copy, Debug, PartialEq, Eq)]
pub enum ContainerKind {
    /// None: a native stream (RFC 9639, section 6).
    Native,
    /// An Ogg stream of this serial number (RFC 9639, section 10.1).
    Ogg { serial: u32 },
}
