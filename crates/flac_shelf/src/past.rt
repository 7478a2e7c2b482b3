//! What an older report has of a file.

ghost use Rattle.std.specs.Prelude.{◌≡◌};
ghost use Rattle.flac_shelf.specs.Past.{is_good_at, same_audio};

use crate::stamp::Stamp;

/// The audio of a stream, as a report has it.
#[derive(Clone, Copy)]
pub struct Audio {
    /// The MD5 digest of the samples; `None` if the stream does not state it (RFC 9639, section 8.2).
    pub digest: Option<[u8; 16]>,
    /// How many inter-channel samples it has.
    pub samples: u64,
    /// The sample rate in hertz.
    pub rate: Option<u64>,
    /// The number of channels.
    pub channels: Option<u64>,
    /// The bits per sample.
    pub depth: Option<u64>,
}

impl Audio {
    /// Whether another is the same: its digest, if both state one or neither does, its number of samples and its
    /// format.
    pub fn is_same(&self, other: &Audio) -> bool
        ensures { result ≡ same_audio self.now other.now }
    {
        self.digest == other.digest
            && self.samples == other.samples
            && self.rate == other.rate
            && self.channels == other.channels
            && self.depth == other.depth
    }
}

/// What a report has of a file.
#[derive(Clone, Copy)]
pub struct Past {
    /// Its size and its time, as far as they are stated.
    pub stamp: Stamp,
    /// Its audio; `None` if it was bad, or could not be opened.
    pub audio: Option<Audio>,
}

impl Past {
    /// Whether the file was good at this size and time, which are known.
    pub fn is_good_at(&self, stamp: &Stamp) -> bool
        ensures { result ≡ is_good_at self.now stamp.now }
    {
        self.audio.is_some() && self.stamp.is_known() && self.stamp.is_same(stamp)
    }
}

/// What is known of a file from an older report.
#[derive(Clone, Copy)]
pub enum Earlier {
    /// There is no older report.
    Unasked,
    /// It does not have the file.
    New,
    /// It has the file so.
    Was(Past),
}
