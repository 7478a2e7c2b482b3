//! What a line says after the path.

ghost use Rattle.std.specs.Prelude.{◌≡◌};
ghost use Rattle.flac_report.specs.inner.Reading.{stamp_in, after_stamp, after_container, digest_in, with_digest, audio_in, other_past, past_in};

use crate::numbers::{after, member_in};
use flac_shelf::{Audio, Past, Stamp};
use hex::FromHex;

/// The size and the time that a text begins with, and what comes after them.
#[tactic(auto, unfolding(crate::specs::inner::Reading::stamp_in, crate::specs::inner::Reading::after_stamp))]
fn stamp_in(text: &[u8]) -> (Stamp, &[u8])
    ensures value { result.0 ≡ stamp_in text.now }
    ensures after { result.1.now ≡ after_stamp text.now }
{
    let (bytes, text) = member_in(text, b",\"bytes\":");
    let (modified, text) = member_in(text, b",\"modified\":");
    let (nanoseconds, text) = member_in(text, b",\"nanoseconds\":");
    let stamp = Stamp {
        bytes,
        modified,
        nanoseconds,
    };
    (stamp, text)
}

/// The digest whose 32 hexadecimal digits a text begins with.
#[tactic(auto, unfolding(crate::specs::inner::Reading::digest_in))]
fn digest_in(text: &[u8]) -> Option<[u8; 16]>
    ensures { result ≡ digest_in text.now }
{
    if text.len() < 32 {
        return None;
    }
    <[u8; 16]>::from_hex(&text[..32]).ok()
}

/// The audio with the digest that a text begins with, if it begins with one; `None` if that has other digits.
#[tactic(auto, unfolding(crate::specs::inner::Reading::with_digest))]
fn with_digest(audio: Audio, text: &[u8]) -> Option<Audio>
    ensures { result ≡ with_digest audio text.now }
{
    if !text.starts_with(b",\"md5\":\"") {
        return Some(audio);
    }
    let digest = digest_in(&text[8..])?;
    Some(Audio {
        digest: Some(digest),
        samples: audio.samples,
        rate: audio.rate,
        channels: audio.channels,
        depth: audio.depth,
    })
}

/// The audio of a good file; `None` if it is not said.
#[tactic(auto, unfolding(crate::specs::inner::Reading::audio_in))]
fn audio_in(text: &[u8]) -> Option<Audio>
    ensures { result ≡ audio_in text.now }
{
    let (rate, text) = member_in(text, b",\"rate\":");
    let (channels, text) = member_in(text, b",\"channels\":");
    let (depth, text) = member_in(text, b",\"depth\":");
    let (_, text) = member_in(text, b",\"frames\":");
    let (samples, text) = member_in(text, b",\"samples\":");
    let audio = Audio {
        digest: None,
        samples: samples?,
        rate,
        channels,
        depth,
    };
    with_digest(audio, text)
}

/// What comes after the container of a good file, which a text may begin with.
#[tactic(auto, unfolding(crate::specs::inner::Reading::after_container))]
fn after_container(text: &[u8]) -> &[u8]
    ensures { result.now ≡ after_container text.now }
{
    if text.starts_with(b",\"container\":\"native\"") {
        return after(text, 21);
    }
    if text.starts_with(b",\"container\":\"ogg\"") {
        return after(text, 18);
    }
    text
}

/// What is said of a file that is not good.
fn other_past(text: &[u8]) -> Option<Past>
    ensures { result ≡ other_past text.now }
{
    let (stamp, _) = stamp_in(text);
    Some(Past { stamp, audio: None })
}

/// What is said of a file after its path, from the quotation mark on; `None` if nothing is.
#[tactic(auto, unfolding(crate::specs::inner::Reading::past_in))]
pub(crate) fn past_in(text: &[u8]) -> Option<Past>
    ensures { result ≡ past_in text.now }
{
    if text.starts_with(b"\",\"status\":\"ok\"") {
        let (stamp, text) = stamp_in(after_container(after(text, 15)));
        let audio = audio_in(text)?;
        return Some(Past {
            stamp,
            audio: Some(audio),
        });
    }
    if text.starts_with(b"\",\"status\":\"bad\"") {
        return other_past(after(text, 16));
    }
    if text.starts_with(b"\",\"status\":\"unopened\"") {
        return other_past(after(text, 21));
    }
    None
}
