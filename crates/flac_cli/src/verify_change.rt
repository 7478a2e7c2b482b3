//! How a file compares with what an older report has of it.

ghost use Rattle.std.specs.Prelude.{◌≡◌, Some};
ghost use Rattle.flac_cli.specs.Changes.{audio_of, change_from, change_of, is_kept, word_of};
ghost use Rattle.flac_cli.specs.declared.verify.Finding.TheVariants.{Good};

use crate::verify::Finding;
use crate::verify_facts::Facts;
use flac_shelf::{Audio, Earlier, Past, Stamp};

/// How a file compares with what an older report has of it.
#[derive(Clone, Copy)]
pub(crate) enum Change {
    /// There is no older report.
    Unasked,
    /// The same audio, size and time; or it was bad and still is.
    Same,
    /// The same audio at another size or time: so its tags or its container differ.
    Tags,
    /// Other audio: another digest, number of samples or format.
    Audio,
    /// The older report does not have it.
    New,
    /// It was bad, and is good.
    Better,
    /// It was good, and is bad.
    Worse,
}

impl Change {
    /// Whether the file is as good as it was, with the same audio.
    pub(crate) fn is_kept(self) -> bool
        ensures { result ≡ is_kept self }
    {
        !matches!(self, Change::Audio | Change::Worse)
    }

    /// The word that ends the line of a file.
    pub(crate) fn word(self) -> &'static str
        ensures { result.now ≡ word_of self }
    {
        match self {
            Change::Unasked => "",
            Change::Same => " same",
            Change::Tags => " tags",
            Change::Audio => " audio",
            Change::New => " new",
            Change::Better => " better",
            Change::Worse => " worse",
        }
    }
}

/// The audio of a file, as a report has it.
fn audio_of(facts: &Facts) -> Audio
    ensures { result ≡ audio_of facts.now }
{
    let samples = facts.counts.samples;
    let digest = facts.digest();
    match facts.info {
        Some(info) => Audio {
            digest,
            samples,
            rate: Some(u64::from(info.rate())),
            channels: Some(u64::from(info.channels())),
            depth: Some(u64::from(info.depth())),
        },
        None => Audio {
            digest,
            samples,
            rate: None,
            channels: None,
            depth: None,
        },
    }
}

/// How a stream compares with the audio that it had.
fn compare_audio(audio: &Audio, before: &Stamp, now: &Stamp, facts: &Facts) -> Change
    ensures { result ≡ change_from (Some audio.now) before.now now.now (Good facts.now) }
{
    if !audio.is_same(&audio_of(facts)) {
        return Change::Audio;
    }
    if before.is_same(now) {
        return Change::Same;
    }
    Change::Tags
}

/// How a file of this size and time compares with what it was.
fn compare_past(past: &Past, now: &Stamp, finding: &Finding) -> Change
    ensures { result ≡ change_from past.now.audio past.now.stamp now.now finding.now }
{
    match finding {
        Finding::Good(facts) => match past.audio {
            Some(audio) => compare_audio(&audio, &past.stamp, now, facts),
            None => Change::Better,
        },
        _ => match past.audio {
            Some(_) => Change::Worse,
            None => Change::Same,
        },
    }
}

/// How a file of this size and time compares with what an older report has of it.
pub(crate) fn compare(earlier: &Earlier, now: &Stamp, finding: &Finding) -> Change
    ensures { result ≡ change_of earlier.now now.now finding.now }
{
    match earlier {
        Earlier::Unasked => Change::Unasked,
        Earlier::New => Change::New,
        Earlier::Was(past) => compare_past(past, now, finding),
    }
}
