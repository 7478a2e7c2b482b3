//! Which files a job may replace.

ghost use Rattle.std.specs.Prelude.{◌≡◌};
ghost use Rattle.flac_files.specs.Replacing.{begins_native, may_replace, may_replace_recoded};

use flac_jobs::{FileKind, Job, file_kind};

/// How many bytes a native stream has up to the end of STREAMINFO: the marker, a header and its content (RFC 9639,
/// sections 6, 8.1 and 8.2).
pub(crate) const FRONT: usize = 42;

/// Whether a file begins as a native stream with STREAMINFO.
pub(crate) fn begins_native(front: &[u8]) -> bool
    ensures { result ≡ begins_native front.now }
{
    front.len() >= FRONT
        && front.starts_with(b"fLaC")
        && front[4] % 128 == 0
        && front[5] == 0
        && front[6] == 0
        && front[7] == 34
}

/// Whether a job may replace a file that begins with the bytes `old`: one that is no file of sound, or one of the kind
/// that the job writes. A retagging, whose input begins with the bytes `input`, may replace a native stream of the same
/// STREAMINFO alone.
#[tactic(auto, unfolding(crate::specs::Replacing::may_replace))]
pub fn may_replace(job: &Job<'_>, input: &[u8], old: &[u8]) -> bool
    ensures { result ≡ may_replace job.now input.now old.now }
{
    match job {
        Job::Test { .. } | Job::List { .. } => true,
        Job::Decode { .. } => file_kind(old).is_none(),
        Job::DecodeWave { .. } => matches!(file_kind(old), None | Some(FileKind::Wave)),
        Job::Encode { .. } | Job::EncodeWave { .. } => {
            matches!(file_kind(old), None | Some(FileKind::Stream))
        }
        Job::Retag { .. } => {
            begins_native(input) && begins_native(old) && input[8..FRONT] == old[8..FRONT]
        }
    }
}

/// Whether a stream that is encoded anew, from a file that begins with the bytes `input`, may replace a file that
/// begins with the bytes `old`: one that is no file of sound, or a native stream of the same samples, by the rate, the
/// channels, the bits per sample, the total and the digest that its STREAMINFO states (RFC 9639, section 8.2).
#[tactic(auto, unfolding(crate::specs::Replacing::may_replace_recoded))]
pub fn may_replace_recoded(input: &[u8], old: &[u8]) -> bool
    ensures { result ≡ may_replace_recoded input.now old.now }
{
    file_kind(old).is_none()
        || (begins_native(input)
            && begins_native(old)
            && input[18..FRONT] == old[18..FRONT]
            && input[26..FRONT] != [0; 16])
}
