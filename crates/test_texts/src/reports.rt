//! Lines as Python's `json` writes them, and what it reads of them; parts of lines, and lines that are none.

use flac_report::{BEGINNING, Recorded, is_line, path_of, recorded_of};
use flac_shelf::{Audio, Past, Stamp};
use std::alloc::{AllocError, Global};
use std::test::Fail;

const GOOD: &[u8] =
    b"{\"path\":\"a/b.flac\",\"status\":\"ok\",\"bytes\":123456,\"modified\":1700000000,\"nanoseconds\":7,\"rate\":44100,\"channels\":2,\"depth\":16,\"frames\":10,\"samples\":40960,\"md5\":\"000102030405060708090a0b0c0d0eff\",\"md5_checked\":true,\"subset\":true}\n";

/// The same in a container, and between tags or not.
const NATIVE: &[u8] =
    b"{\"path\":\"a/b.flac\",\"status\":\"ok\",\"container\":\"native\",\"bytes\":123456,\"modified\":1700000000,\"nanoseconds\":7,\"rate\":44100,\"channels\":2,\"depth\":16,\"frames\":10,\"samples\":40960,\"md5\":\"000102030405060708090a0b0c0d0eff\",\"md5_checked\":true,\"subset\":true,\"id3\":false}\n";

const OGG: &[u8] =
    b"{\"path\":\"\xc3\xa4.flac\",\"status\":\"ok\",\"container\":\"ogg\",\"frames\":0,\"samples\":18446744073709551615,\"md5_checked\":false,\"id3\":true}\n";

/// Of several streams.
const STREAMS: &[u8] =
    b"{\"path\":\"\xc3\xa4.flac\",\"status\":\"ok\",\"container\":\"ogg\",\"frames\":0,\"samples\":18446744073709551615,\"md5_checked\":true,\"streams\":2}\n";

const SHORT: &[u8] =
    b"{\"path\":\"\xc3\xa4.flac\",\"status\":\"ok\",\"frames\":0,\"samples\":18446744073709551615,\"md5_checked\":false}\n";

const BAD: &[u8] =
    b"{\"path\":\"x\",\"status\":\"bad\",\"bytes\":5,\"modified\":6,\"place\":\"frame\",\"index\":3,\"error\":26,\"name\":\"FrameCheck\"}\n";

const SAMPLED: &[u8] =
    b"{\"path\":\"x\",\"status\":\"bad\",\"bytes\":5,\"modified\":6,\"place\":\"frame\",\"index\":3,\"error\":26,\"name\":\"FrameCheck\",\"sample\":12288}\n";

const NUMBERED: &[u8] =
    b"{\"path\":\"x\",\"status\":\"bad\",\"bytes\":5,\"modified\":6,\"place\":\"page\",\"index\":3,\"error\":32,\"name\":\"PageCheck\",\"sample\":12288,\"stream\":2}\n";

const UNOPENED: &[u8] = b"{\"path\":\"\",\"status\":\"unopened\"}\n";

const ESCAPED: &[u8] =
    b"{\"path\":\"a\\u0022b\\u005cc\\u000a\\u001f\x7f.flac\",\"status\":\"unopened\"}\n";

/// Whether the audio is this.
fn is_audio(found: Option<Audio>, wanted: Option<Audio>) -> bool {
    match (found, wanted) {
        (Some(found), Some(wanted)) => found.is_same(&wanted),
        (None, None) => true,
        _ => false,
    }
}

/// Whether this is read of a line.
fn is_read(alloc: Global, line: &[u8], path: &str, past: &Past) -> Result<bool, AllocError> {
    match recorded_of(alloc, line)? {
        Some(
            Recorded {
                path: read,
                past: said,
            },
        ) => Ok(
            read.as_str() == path
                && said.stamp.is_same(&past.stamp)
                && is_audio(said.audio, past.audio),
        ),
        None => Ok(false),
    }
}

/// Whether nothing is read of a line.
fn is_none(alloc: Global, line: &[u8]) -> Result<bool, AllocError> {
    Ok(recorded_of(alloc, line)?.is_none())
}

/// Whether this path is read of a line.
fn is_path(alloc: Global, line: &[u8], path: &str) -> Result<bool, AllocError> {
    match path_of(alloc, line)? {
        Some(read) => Ok(read.as_str() == path),
        None => Ok(false),
    }
}

#[test]
fn good(rt: HostRuntime) -> Result<(), Fail> {
    let past = Past {
        stamp: Stamp {
            bytes: Some(123_456),
            modified: Some(1_700_000_000),
            nanoseconds: Some(7),
        },
        audio: Some(Audio {
            digest: Some([0, 1, 2, 3, 4, 5, 6, 7, 8, 9, 10, 11, 12, 13, 14, 255]),
            samples: 40_960,
            rate: Some(44_100),
            channels: Some(2),
            depth: Some(16),
        }),
    };
    assert!(rt; is_read(rt.alloc(), GOOD, "a/b.flac", &past)?);
    assert!(rt; is_read(rt.alloc(), NATIVE, "a/b.flac", &past)?);
    assert!(rt; is_path(rt.alloc(), GOOD, "a/b.flac")?);
    Ok(())
}

#[test]
fn little_known(rt: HostRuntime) -> Result<(), Fail> {
    let past = Past {
        stamp: Stamp::unknown(),
        audio: Some(Audio {
            digest: None,
            samples: u64::MAX,
            rate: None,
            channels: None,
            depth: None,
        }),
    };
    assert!(rt; is_read(rt.alloc(), SHORT, "\u{e4}.flac", &past)?);
    assert!(rt; is_read(rt.alloc(), OGG, "\u{e4}.flac", &past)?);
    assert!(rt; is_read(rt.alloc(), STREAMS, "\u{e4}.flac", &past)?);
    Ok(())
}

#[test]
fn not_good(rt: HostRuntime) -> Result<(), Fail> {
    let known = Stamp {
        bytes: Some(5),
        modified: Some(6),
        nanoseconds: None,
    };
    let bad = Past {
        stamp: known,
        audio: None,
    };
    let unopened = Past {
        stamp: Stamp::unknown(),
        audio: None,
    };
    assert!(rt; is_read(rt.alloc(), BAD, "x", &bad)?);
    assert!(rt; is_read(rt.alloc(), SAMPLED, "x", &bad)?);
    assert!(rt; is_read(rt.alloc(), NUMBERED, "x", &bad)?);
    assert!(rt; is_read(rt.alloc(), UNOPENED, "", &unopened)?);
    assert!(rt; is_read(rt.alloc(), ESCAPED, "a\"b\\c\n\u{1f}\u{7f}.flac", &unopened)?);
    assert!(rt; is_path(rt.alloc(), ESCAPED, "a\"b\\c\n\u{1f}\u{7f}.flac")?);
    Ok(())
}

#[test]
fn none(rt: HostRuntime) -> Result<(), Fail> {
    // 2 ^ 64 samples, and one character of a digest that is none
    let many: &[u8] =
        b"{\"path\":\"a\",\"status\":\"ok\",\"frames\":0,\"samples\":18446744073709551616}\n";
    let digest: &[u8] =
        b"{\"path\":\"a\",\"status\":\"ok\",\"frames\":0,\"samples\":1,\"md5\":\"000102030405060708090a0b0c0d0efg\"}\n";
    assert!(rt; is_none(rt.alloc(), many)? && is_none(rt.alloc(), digest)?);
    // another container
    assert!(rt;
        is_none(
            rt.alloc(),
            b"{\"path\":\"a\",\"status\":\"ok\",\"container\":\"mp4\",\"samples\":1}\n"
        )?
    );
    // another status, another escape, no text in UTF-8, no end of the path
    assert!(rt; is_none(rt.alloc(), b"{\"path\":\"a\",\"status\":\"new\"}\n")?);
    assert!(rt; is_none(rt.alloc(), b"{\"path\":\"\\n\",\"status\":\"bad\"}\n")?);
    assert!(rt; is_none(rt.alloc(), b"{\"path\":\"\\u00\",\"status\":\"bad\"}\n")?);
    assert!(rt; is_none(rt.alloc(), b"{\"path\":\"\xc3\",\"status\":\"bad\"}\n")?);
    assert!(rt; is_none(rt.alloc(), b"{\"path\":\"a")? && is_none(rt.alloc(), b"path")?);
    assert!(rt; path_of(rt.alloc(), b"{\"path\":\"a")?.is_none());
    Ok(())
}

/// Whether each part of a line that begins it may be one.
fn each_part(line: &[u8]) -> bool {
    for end in 0..line.len() {
        if !is_line(&line[..end]) {
            return false;
        }
    }
    is_line(line)
}

#[test]
fn parts(rt: HostRuntime) -> Result<(), Fail> {
    assert!(rt; each_part(GOOD) && each_part(NATIVE) && each_part(OGG) && each_part(ESCAPED));
    assert!(rt; is_line(BEGINNING) && !is_line(b"{\"file\":\"a\"}\n"));
    assert!(rt; !is_line(b"{\"path\":\"a\",\"container\":\"ogg\"}\n"));
    assert!(rt; is_line(b"{\"path\":\"a\",\"container\":\"ogg\"}"));
    Ok(())
}
