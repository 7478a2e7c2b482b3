//! What the names of files say of them.

ghost use Rattle.std.specs.Prelude.{◌≡◌};
ghost use Rattle.std.specs.Str.{str_eq_ignore_ascii_case};
ghost use Rattle.flac_files.specs.Names.{ends_so, is_misnamed, names_native, names_ogg, names_wave};

use flac_jobs::Job;

/// Whether two texts are the same, in any case.
fn is_same(one: &[u8], other: &[u8]) -> bool
    ensures { result ≡ str_eq_ignore_ascii_case one.now other.now }
{
    one.eq_ignore_ascii_case(other)
}

/// Whether a path ends so, in any case.
fn ends_with(path: &str, ending: &str) -> bool
    ensures { result ≡ ends_so path.now ending.now }
{
    let path = path.as_bytes();
    let ending = ending.as_bytes();
    path.len() >= ending.len() && is_same(&path[path.len() - ending.len()..], ending)
}

/// Whether a path ends as that of a native stream.
pub(crate) fn names_native(path: &str) -> bool
    ensures { result ≡ names_native path.now }
{
    ends_with(path, ".flac") || ends_with(path, ".fla")
}

/// Whether a path ends as that of an Ogg stream, of FLAC or of something else.
pub(crate) fn names_ogg(path: &str) -> bool
    ensures { result ≡ names_ogg path.now }
{
    ends_with(path, ".oga") || ends_with(path, ".ogg")
}

/// Whether a path ends as that of a WAV file.
fn names_wave(path: &str) -> bool
    ensures { result ≡ names_wave path.now }
{
    ends_with(path, ".wav")
}

/// Whether the path that a job writes to ends as that of something else than what it writes: that of a stream that is
/// encoded anew, or salvaged, as one of a WAV file. `is_whole`: what it writes is of use only as a whole.
#[tactic(auto, unfolding(crate::specs::Names::is_misnamed))]
pub(crate) fn is_misnamed(job: &Job<'_>, is_whole: bool, path: &str) -> bool
    ensures { result ≡ is_misnamed job.now is_whole path.now }
{
    match job {
        Job::EncodeWave { .. } => is_whole && names_wave(path),
        _ => false,
    }
}
