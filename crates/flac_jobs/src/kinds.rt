//! Kinds of files that may hold a song, each by its first bytes.

ghost use Rattle.std.specs.Prelude.{◌≡◌};
ghost use Rattle.flac_jobs.specs.Kinds.{file_kind};

/// What a file is that may hold a song, by its first bytes.
#[derive(Clone, Copy, Debug, PartialEq, Eq)]
pub enum FileKind {
    /// A stream: `fLaC` (RFC 9639, section 6), or a page of Ogg, `OggS` (RFC 3533, section 6).
    Stream,
    /// A WAV file: `RIFF`, `RF64` or `BW64`.
    Wave,
    /// An AIFF file, `FORM`, or a file that begins with an ID3v2 tag, `ID3`.
    Other,
}

/// The kind of a file that begins with these bytes; `None` if it is none of these kinds.
#[tactic(auto, unfolding(crate::specs::Kinds::file_kind))]
pub fn file_kind(front: &[u8]) -> Option<FileKind>
    ensures { result ≡ file_kind front.now }
{
    if front.starts_with(b"fLaC") || front.starts_with(b"OggS") {
        return Some(FileKind::Stream);
    }
    if front.starts_with(b"RIFF") || front.starts_with(b"RF64") || front.starts_with(b"BW64") {
        return Some(FileKind::Wave);
    }
    if front.starts_with(b"FORM") || front.starts_with(b"ID3") {
        return Some(FileKind::Other);
    }
    None
}
