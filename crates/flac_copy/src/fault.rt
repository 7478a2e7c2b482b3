//! Why a stream was not copied.

use flac_bits::Why;
use flac_native::Fault;

/// Why a stream was not copied.
#[derive(Clone, Copy, Debug, PartialEq, Eq)]
pub enum CopyFault {
    /// The input is refused at this place, or the source returned an error there, or an allocation failed.
    Input(Fault),
    /// The metadata blocks that were given cannot be written for this reason, or an allocation for them failed.
    Blocks(Why),
    /// The target returned an error.
    Write,
}
