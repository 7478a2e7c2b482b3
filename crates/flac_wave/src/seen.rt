//! What is known of the samples of a WAV file before they come.

use crate::format::WaveFormat;

/// What is known of the samples from the chunks before them.
#[derive(Clone, Copy)]
pub(crate) struct Seen {
    /// The length that the file's header states.
    pub(crate) riff: u32,
    /// The length of the samples in bytes, as the chunk `ds64` states it.
    pub(crate) long: Option<u64>,
    /// Their format.
    pub(crate) format: Option<WaveFormat>,
    /// Whether they may go on to the end of a file that ends inside them.
    pub(crate) to_end: bool,
}
