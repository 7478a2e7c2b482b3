//! The audio that a cue sheet is of.

/// The audio that a cue sheet is of (RFC 9639, section 8.7).
#[derive(Clone, Copy, Debug, PartialEq, Eq)]
pub struct CueAudio {
    /// How many inter-channel samples it has.
    pub total: u64,
    /// The sample rate in Hz.
    pub rate: u32,
    /// Whether the cue sheet is to be that of a CD, whose rate is 44100 Hz.
    pub cd: bool,
}
