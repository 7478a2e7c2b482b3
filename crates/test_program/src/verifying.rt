//! `flac verify` over files in memory.

use crate::program::bytes_of as pages_of;
use flac_around::BetweenShelf;
use flac_bits::{Collected, Counted, Target};
use flac_cli::{Checks, report_gone, verify_files};
use flac_shelf::{
    Audio, ComparedShelf, HeldFile, HeldShelf, Older, Past, Record, ResumedShelf, Stamp,
};
use std::alloc::{AllocError, Global};
use std::io;
use std::io::{ErrorKind, Write};
use std::process::Abort;
use std::test::Fail;
use test_vectors::{EXAMPLE, OUTSIDE, OUTSIDE_PAGES, OUTSIDE_PUSHED, bytes_of};

/// All of FLAC is read, and nothing more is listed.
const PLAIN: Checks = Checks {
    subset: false,
    all: false,
};

/// A stream must be in the streamable subset.
const SUBSET: Checks = Checks {
    subset: true,
    all: false,
};

/// What is missing is listed too.
const ALL: Checks = Checks {
    subset: false,
    all: true,
};

/// A file that can be read again.
fn file<'a>(path: &'a str, bytes: &'a [u8]) -> HeldFile<'a> {
    HeldFile {
        path,
        stamp: Stamp::unknown(),
        bytes: Some(bytes),
        again: true,
    }
}

/// A file that can be read once.
fn pipe<'a>(path: &'a str, bytes: &'a [u8]) -> HeldFile<'a> {
    HeldFile {
        path,
        stamp: Stamp::unknown(),
        bytes: Some(bytes),
        again: false,
    }
}

/// A file that cannot be opened.
fn unopened<'a>(path: &'a str) -> HeldFile<'a> {
    HeldFile {
        path,
        stamp: Stamp::unknown(),
        bytes: None,
        again: false,
    }
}

/// Verifies files, with what is written to standard error in memory.
fn verify_on<O: Target>(
    alloc: Global,
    files: &[HeldFile<'_>],
    checks: Checks,
    out: &mut O,
    err: &mut Collected,
) -> u8 {
    let mut shelf = HeldShelf::new(files);
    let mut report = Collected::new(alloc);
    verify_files(alloc, &mut shelf, checks, out, err, &mut report)
}

/// A file of this size and time that can be read again.
fn stamped<'a>(path: &'a str, bytes: &'a [u8], modified: u64) -> HeldFile<'a> {
    HeldFile {
        path,
        stamp: Stamp {
            bytes: Some(bytes.len() as u64),
            modified: Some(modified),
            nanoseconds: Some(5),
        },
        bytes: Some(bytes),
        again: true,
    }
}

/// Whether verifying these files writes this report.
fn is_reported(alloc: Global, files: &[HeldFile<'_>], due: &str) -> bool {
    let mut shelf = HeldShelf::new(files);
    let mut out = Collected::new(alloc);
    let mut err = Collected::new(alloc);
    let mut report = Collected::new(alloc);
    let _status = verify_files(alloc, &mut shelf, PLAIN, &mut out, &mut err, &mut report);
    report.bytes() == due.as_bytes()
}

/// Whether verifying these files returns this status and prints these texts.
fn is_verified(
    alloc: Global,
    files: &[HeldFile<'_>],
    checks: Checks,
    due: (u8, &str, &str),
) -> bool {
    let mut out = Collected::new(alloc);
    let mut err = Collected::new(alloc);
    let status = verify_on(alloc, files, checks, &mut out, &mut err);
    (status, out.bytes(), err.bytes()) == (due.0, due.1.as_bytes(), due.2.as_bytes())
}

#[test]
fn each_file_has_its_line(rt: HostRuntime) -> Result<(), Fail> {
    let alloc = rt.alloc();
    let example = bytes_of(alloc, EXAMPLE)?;
    let outside = bytes_of(alloc, OUTSIDE)?;
    let pages = bytes_of(alloc, OUTSIDE_PAGES)?;
    let files = [
        file("a b/1.flac", &example),
        file("2.flac", &outside),
        file("3.flac", b"fLa"),
        unopened("4"),
        pipe("5.flac", &outside),
        file("6.oga", &pages),
        file("7.flac", &example),
    ];
    let out = "ok a b/1.flac: frames 1 samples 1 no-md5\n\
        ok 2.flac: frames 1 samples 16 outside-subset\n\
        ok 5.flac: frames 1 samples 16\n\
        ok 6.oga: frames 1 samples 16 outside-subset\n\
        ok 7.flac: frames 1 samples 1 no-md5\n\
        verified 7 ok 5 bad 2\n";
    let err = "flac: 3.flac: marker: 3 Truncated\nflac: 4: cannot be opened\n";
    assert!(rt; is_verified(alloc, &files, PLAIN, (1, out, err)));
    Ok(())
}

// The digits are those of the bytes in hexadecimal; é is two bytes of UTF-8.
#[test]
fn a_path_is_in_one_line(rt: HostRuntime) -> Result<(), Fail> {
    let alloc = rt.alloc();
    let example = bytes_of(alloc, EXAMPLE)?;
    let files = [
        file("a\nok b.flac: frames 1 samples 1", &example),
        file("\u{1b}[2J\u{7f}\\\u{e9}", b"fLa"),
        unopened("\u{1f} \0"),
    ];
    let out = "ok a\\x0aok b.flac: frames 1 samples 1: frames 1 samples 1 no-md5\n\
        verified 3 ok 1 bad 2\n";
    let err = "flac: \\x1b[2J\\x7f\\x5c\u{e9}: marker: 3 Truncated\n\
        flac: \\x1f \\x00: cannot be opened\n";
    assert!(rt; is_verified(alloc, &files, PLAIN, (1, out, err)));
    Ok(())
}

// The values are those of the streams by RFC 9639, section 8.2, and the layout is that of RFC 8259. The last file has two
// frames, of 16 and of 3 samples, the second of which lacks its last byte.
#[test]
fn each_file_is_in_the_report(rt: HostRuntime) -> Result<(), Fail> {
    let alloc = rt.alloc();
    let example = bytes_of(alloc, EXAMPLE)?;
    let outside = bytes_of(alloc, OUTSIDE)?;
    let pages = bytes_of(alloc, OUTSIDE_PAGES)?;
    let pushed = bytes_of(alloc, OUTSIDE_PUSHED)?;
    let files = [
        stamped("a \"b\"/\\1\u{1f}\u{7f}\u{e9}.flac", &example, 1700000000),
        stamped("2.flac", &outside, 0),
        pipe("3.flac", &outside),
        pipe("4.flac", b"fLa"),
        file("5.flac", &example[..56usize.min(example.len())]),
        unopened("6"),
        pipe("7.flac", b""),
        pipe("8.oga", &pages),
        pipe("9.flac", &pushed[..64usize.min(pushed.len())]),
    ];
    let due = "{\"path\":\"a \\u0022b\\u0022/\\u005c1\\u001f\u{7f}\u{e9}.flac\",\"status\":\"ok\",\
        \"container\":\"native\",\"bytes\":57,\"modified\":1700000000,\"nanoseconds\":5,\"rate\":44100,\
        \"channels\":2,\"depth\":16,\"frames\":1,\"samples\":1,\"md5_checked\":false,\"subset\":true}\n\
        {\"path\":\"2.flac\",\"status\":\"ok\",\"container\":\"native\",\"bytes\":53,\"modified\":0,\"nanoseconds\":5,\
        \"rate\":65537,\"channels\":1,\"depth\":5,\"frames\":1,\"samples\":16,\
        \"md5\":\"4ae71336e44bf9bf79d2752e234818a5\",\"md5_checked\":true,\"subset\":false}\n\
        {\"path\":\"3.flac\",\"status\":\"ok\",\"container\":\"native\",\"rate\":65537,\"channels\":1,\"depth\":5,\
        \"frames\":1,\"samples\":16,\"md5\":\"4ae71336e44bf9bf79d2752e234818a5\",\"md5_checked\":true}\n\
        {\"path\":\"4.flac\",\"status\":\"bad\",\"place\":\"marker\",\"error\":3,\
        \"name\":\"Truncated\",\"sample\":0}\n\
        {\"path\":\"5.flac\",\"status\":\"bad\",\"place\":\"frame\",\"index\":0,\"error\":3,\
        \"name\":\"Truncated\",\"sample\":0}\n\
        {\"path\":\"6\",\"status\":\"unopened\"}\n\
        {\"path\":\"7.flac\",\"status\":\"bad\",\"place\":\"marker\",\"error\":3,\
        \"name\":\"Truncated\",\"sample\":0}\n\
        {\"path\":\"8.oga\",\"status\":\"ok\",\"container\":\"ogg\",\"rate\":65537,\"channels\":1,\"depth\":5,\
        \"frames\":1,\"samples\":16,\"md5\":\"4ae71336e44bf9bf79d2752e234818a5\",\"md5_checked\":true}\n\
        {\"path\":\"9.flac\",\"status\":\"bad\",\"place\":\"frame\",\"index\":1,\"error\":3,\
        \"name\":\"Truncated\",\"sample\":16}\n";
    assert!(rt; is_reported(alloc, &files, due));
    Ok(())
}

#[test]
fn a_report_that_is_not_written(rt: HostRuntime) -> Result<(), Fail> {
    let alloc = rt.alloc();
    let example = bytes_of(alloc, EXAMPLE)?;
    let files = [file("1.flac", &example)];
    let mut shelf = HeldShelf::new(&files);
    let mut out = Collected::new(alloc);
    let mut err = Collected::new(alloc);
    let mut full = Counted::new(Full);
    let status = verify_files(alloc, &mut shelf, PLAIN, &mut out, &mut err, &mut full);
    assert!(rt; status == 1);
    let due = b"ok 1.flac: frames 1 samples 1 no-md5\nverified 1 ok 1 bad 0\n".as_slice();
    assert!(rt; out.bytes() == due);
    Ok(())
}

#[test]
fn the_subset_alone(rt: HostRuntime) -> Result<(), Fail> {
    let alloc = rt.alloc();
    let example = bytes_of(alloc, EXAMPLE)?;
    let outside = bytes_of(alloc, OUTSIDE)?;
    let files = [file("1.flac", &example), file("2.flac", &outside)];
    let out = "ok 1.flac: frames 1 samples 1 no-md5\nverified 2 ok 1 bad 1\n";
    let err = "flac: 2.flac: frame 0: 14 NotSubset\n";
    assert!(rt; is_verified(alloc, &files, SUBSET, (1, out, err)));
    Ok(())
}

#[test]
fn good_files_and_none(rt: HostRuntime) -> Result<(), Fail> {
    let alloc = rt.alloc();
    let example = bytes_of(alloc, EXAMPLE)?;
    let out = "ok 1.flac: frames 1 samples 1 no-md5\nverified 1 ok 1 bad 0\n";
    assert!(rt; is_verified(alloc, &[file("1.flac", &example)], PLAIN, (0, out, "")));
    assert!(rt; is_verified(alloc, &[], PLAIN, (0, "verified 0 ok 0 bad 0\n", "")));
    Ok(())
}

/// A device that takes no byte.
#[derive(Drop)]
struct Full;

impl Write for Full {
    fn write(&mut self, _bytes: &[u8]) -> io::Result<usize> {
        Err(io::Error::from(ErrorKind::StorageFull))
    }

    fn flush(&mut self) -> io::Result<()> {
        Ok(())
    }
}

#[test]
fn a_line_that_is_not_written(rt: HostRuntime) -> Result<(), Fail> {
    let alloc = rt.alloc();
    let example = bytes_of(alloc, EXAMPLE)?;
    let mut err = Collected::new(alloc);
    let files = [file("1.flac", &example)];
    let status = verify_on(alloc, &files, PLAIN, &mut Counted::new(Full), &mut err);
    assert!(rt; status == 1);
    assert!(rt; err.bytes() == b"flac: standard output: 39 Write\n".as_slice());
    Ok(())
}

/// A size, and a time.
fn stamp_of(bytes: u64, modified: u64) -> Stamp {
    Stamp {
        bytes: Some(bytes),
        modified: Some(modified),
        nanoseconds: Some(5),
    }
}

/// The audio of the example, by its STREAMINFO, with this digest and this number of samples.
fn audio_of(digest: Option<[u8; 16]>, samples: u64) -> Audio {
    Audio {
        digest,
        samples,
        rate: Some(44100),
        channels: Some(2),
        depth: Some(16),
    }
}

/// Adds a file of this size and time to an older report; a bad one without audio.
fn add(
    alloc: Global,
    older: &mut Older,
    path: &str,
    stamp: Stamp,
    audio: Option<Audio>,
) -> Result<(), AllocError> {
    older.add(String::from_str(alloc, path)?, Past { stamp, audio })
}

/// An older report of the files of the test.
fn older_of(alloc: Global) -> Result<Older, AllocError> {
    let mut older = Older::none(alloc);
    let audio = audio_of(None, 1);
    add(alloc, &mut older, "same", stamp_of(57, 9), Some(audio))?;
    add(alloc, &mut older, "later", stamp_of(57, 8), Some(audio))?;
    add(alloc, &mut older, "longer", stamp_of(58, 9), Some(audio))?;
    add(
        alloc,
        &mut older,
        "cut",
        stamp_of(57, 9),
        Some(audio_of(None, 2)),
    )?;
    add(
        alloc,
        &mut older,
        "digest",
        stamp_of(57, 9),
        Some(audio_of(Some([1; 16]), 1)),
    )?;
    add(alloc, &mut older, "mended", stamp_of(9, 9), None)?;
    add(alloc, &mut older, "still bad", stamp_of(9, 9), None)?;
    add(alloc, &mut older, "now bad", stamp_of(57, 9), Some(audio))?;
    add(alloc, &mut older, "not there", stamp_of(57, 9), Some(audio))?;
    add(alloc, &mut older, "gone 2", stamp_of(57, 9), Some(audio))?;
    add(alloc, &mut older, "gone 1", stamp_of(9, 9), None)?;
    add(alloc, &mut older, "gone\n3", stamp_of(9, 9), None)?;
    Ok(older)
}

/// Verifies files against the older report. Returns the status, and whether files are gone.
fn verify_against(
    alloc: Global,
    files: &[HeldFile<'_>],
    out: &mut Collected,
    err: &mut Collected,
) -> Result<(u8, bool), AllocError> {
    let older = older_of(alloc)?;
    let mut shelf = ComparedShelf::new(HeldShelf::new(files), Some(older));
    let mut report = Collected::new(alloc);
    let status = verify_files(alloc, &mut shelf, PLAIN, out, err, &mut report);
    let is_gone = match shelf.into_older() {
        Some(mut older) => report_gone(&mut older, err),
        None => false,
    };
    Ok((status, is_gone))
}

#[test]
fn each_change_has_its_word(rt: HostRuntime) -> Result<(), Fail> {
    let alloc = rt.alloc();
    let example = bytes_of(alloc, EXAMPLE)?;
    let files = [
        stamped("same", &example, 9),
        stamped("later", &example, 9),
        stamped("longer", &example, 9),
        stamped("cut", &example, 9),
        stamped("digest", &example, 9),
        stamped("mended", &example, 9),
        stamped("still bad", b"fLa", 9),
        stamped("now bad", b"fLa", 9),
        unopened("not there"),
        stamped("another", &example, 9),
        stamped("and bad", b"fLa", 9),
    ];
    let mut out = Collected::new(alloc);
    let mut err = Collected::new(alloc);
    let (status, is_gone) = verify_against(alloc, &files, &mut out, &mut err)?;
    let due_out = "ok same: frames 1 samples 1 no-md5 same\n\
        ok later: frames 1 samples 1 no-md5 tags\n\
        ok longer: frames 1 samples 1 no-md5 tags\n\
        ok cut: frames 1 samples 1 no-md5 audio\n\
        ok digest: frames 1 samples 1 no-md5 audio\n\
        ok mended: frames 1 samples 1 no-md5 better\n\
        ok another: frames 1 samples 1 no-md5 new\n\
        verified 11 ok 7 bad 4\n";
    let due_err = "flac: still bad: marker: 3 Truncated same\n\
        flac: now bad: marker: 3 Truncated worse\n\
        flac: not there: cannot be opened worse\n\
        flac: and bad: marker: 3 Truncated new\n\
        gone gone\\x0a3\ngone gone 1\ngone gone 2\n";
    assert!(rt; status == 1 && is_gone);
    assert!(rt; out.bytes() == due_out.as_bytes());
    assert!(rt; err.bytes() == due_err.as_bytes());
    Ok(())
}

/// The status of the verification of one file of 57 bytes that was modified at 9 s, against the older report.
fn status_against(alloc: Global, path: &str, bytes: &[u8]) -> Result<u8, AllocError> {
    let mut out = Collected::new(alloc);
    let mut err = Collected::new(alloc);
    let files = [stamped(path, bytes, 9)];
    let (status, is_gone) = verify_against(alloc, &files, &mut out, &mut err)?;
    Ok(if is_gone { status } else { 9 })
}

#[test]
fn other_audio_has_status_1(rt: HostRuntime) -> Result<(), Fail> {
    let alloc = rt.alloc();
    let example = bytes_of(alloc, EXAMPLE)?;
    assert!(rt; status_against(alloc, "same", &example)? == 0);
    assert!(rt; status_against(alloc, "later", &example)? == 0);
    assert!(rt; status_against(alloc, "mended", &example)? == 0);
    assert!(rt; status_against(alloc, "another", &example)? == 0);
    assert!(rt; status_against(alloc, "cut", &example)? == 1);
    assert!(rt; status_against(alloc, "digest", &example)? == 1);
    Ok(())
}

#[test]
fn good_files_are_left_out(rt: HostRuntime) -> Result<(), Fail> {
    let alloc = rt.alloc();
    let example = bytes_of(alloc, EXAMPLE)?;
    let audio = Some(audio_of(None, 1));
    let mut good = Record::none(alloc);
    let stamp = stamp_of(57, 9);
    good.add(String::from_str(alloc, "1")?, Past { stamp, audio })?;
    good.add(String::from_str(alloc, "2")?, Past { stamp, audio: None })?;
    let earlier = stamp_of(57, 8);
    good.add(
        String::from_str(alloc, "3")?,
        Past {
            stamp: earlier,
            audio,
        },
    )?;
    let unknown = Stamp::unknown();
    good.add(
        String::from_str(alloc, "4")?,
        Past {
            stamp: unknown,
            audio,
        },
    )?;
    let files = [
        stamped("1", &example, 9),
        stamped("2", &example, 9),
        stamped("3", &example, 9),
        file("4", &example),
        stamped("5", &example, 9),
    ];
    let mut shelf = ResumedShelf::new(HeldShelf::new(&files), good);
    let mut out = Collected::new(alloc);
    let mut err = Collected::new(alloc);
    let mut report = Collected::new(alloc);
    let status = verify_files(alloc, &mut shelf, PLAIN, &mut out, &mut err, &mut report);
    let due = "ok 2: frames 1 samples 1 no-md5\n\
        ok 3: frames 1 samples 1 no-md5\n\
        ok 4: frames 1 samples 1 no-md5\n\
        ok 5: frames 1 samples 1 no-md5\n\
        verified 4 ok 4 bad 0\n";
    assert!(rt; status == 0);
    assert!(rt; out.bytes() == due.as_bytes());
    Ok(())
}

/// The pages of the example in Ogg, the checksum of the last one changed: its frame is whole.
const BAD_PAGES: &str =
    "MAPPING COMMENT 4f67675300040100000000000000010000000200000048872f1f010ffff869180000bf0158fd01128b5ab2";

// The example has its only frame, of one sample, at byte 42.
#[test]
fn what_is_missing_is_listed(rt: HostRuntime) -> Result<(), Fail> {
    let alloc = rt.alloc();
    let example = bytes_of(alloc, EXAMPLE)?;
    let pages = pages_of(alloc, BAD_PAGES)?;
    let cut = &example[..56usize.min(example.len())];
    let files = [
        file("1\n.flac", cut),
        file("2.flac", &example),
        pipe("3\t", cut),
        file("4.flac", b"fLa"),
        file("5.oga", b"OggS"),
        unopened("6"),
        file("7.oga", &pages),
    ];
    let out = "ok 2.flac: frames 1 samples 1 no-md5\nverified 7 ok 1 bad 6\n";
    let err = "flac: 1\\x0a.flac: frame 0: 3 Truncated\n\
        flac: 1\\x0a.flac: bytes 42 to 55: samples 0 to 0 missing, 0:00.000 to 0:00.000\n\
        flac: 1\\x0a.flac: found 0 of 1 samples in 0 frames\n\
        flac: 3\\x09: frame 0: 3 Truncated\n\
        flac: 3\\x09: what is missing cannot be listed\n\
        flac: 4.flac: marker: 3 Truncated\n\
        flac: 4.flac: what is missing cannot be listed\n\
        flac: 5.oga: page 0: 3 Truncated\n\
        flac: 5.oga: what is missing cannot be listed\n\
        flac: 6: cannot be opened\n\
        flac: 7.oga: page 2: 32 PageCheck\n\
        flac: 7.oga: bytes 119 to 146: no frame, no sample is missing\n\
        flac: 7.oga: found 1 of 1 samples in 1 frames\n";
    assert!(rt; is_verified(alloc, &files, ALL, (1, out, err)));
    Ok(())
}

/// Pages of several Ogg streams. The first has one sample of two channels; the second here states neither its digest nor
/// its number of samples, and the third the same stream again.
const THREE: &str =
    "MAPPING COMMENT FRAME ZEROS_MAPPING ZEROS_0 ZEROS_1 ZEROS_2 ZEROS_3 MAPPING COMMENT FRAME";

// The second stream of two files is outside the subset, one lacks its last page, one begins no page.
#[test]
fn streams_are_counted_together(rt: HostRuntime) -> Result<(), Fail> {
    let alloc = rt.alloc();
    let two = pages_of(alloc, "MAPPING COMMENT FRAME MAPPING COMMENT FRAME")?;
    let three = pages_of(alloc, THREE)?;
    let outside = pages_of(alloc, "MAPPING COMMENT FRAME LAX_MAPPING COMMENT LAX_PAGE")?;
    let open = pages_of(alloc, "MAPPING COMMENT FRAME MAPPING COMMENT")?;
    let other = pages_of(alloc, "MAPPING COMMENT FRAME 00")?;
    let mut damaged = pages_of(alloc, BAD_PAGES)?;
    damaged.extend_from_slice(&two)?;
    let files = [
        file("1.oga", &two),
        file("2.oga", &three),
        file("3.oga", &outside),
        pipe("4.oga", &outside),
        file("5\n.oga", &open),
        file("6.oga", &other),
        file("7.oga", &damaged),
    ];
    let out = "ok 1.oga: frames 2 samples 2 streams 2\n\
        ok 2.oga: frames 6 samples 66 streams 3 no-md5 no-total\n\
        ok 3.oga: frames 2 samples 17 streams 2 outside-subset\n\
        ok 4.oga: frames 2 samples 17 streams 2\n\
        verified 7 ok 4 bad 3\n";
    let err = "flac: 5\\x0a.oga: stream 2: end: 36 NoEndPage\n\
        flac: 6.oga: stream 2: page 0: 31 BadPage\n\
        flac: 7.oga: page 2: 32 PageCheck\n";
    assert!(rt; is_verified(alloc, &files, PLAIN, (1, out, err)));
    Ok(())
}

// The second stream of the second file is outside the subset.
#[test]
fn each_stream_is_in_the_subset(rt: HostRuntime) -> Result<(), Fail> {
    let alloc = rt.alloc();
    let two = pages_of(alloc, "MAPPING COMMENT FRAME MAPPING COMMENT FRAME")?;
    let outside = pages_of(alloc, "MAPPING COMMENT FRAME LAX_MAPPING COMMENT LAX_PAGE")?;
    let files = [file("1.oga", &two), file("3.oga", &outside)];
    let out = "ok 1.oga: frames 2 samples 2 streams 2\nverified 2 ok 1 bad 1\n";
    let err = "flac: 3.oga: stream 2: frame 0: 14 NotSubset\n";
    assert!(rt; is_verified(alloc, &files, SUBSET, (1, out, err)));
    Ok(())
}

// The format is that of the first stream, and no digest is that of all; a number after the first fault's place.
#[test]
fn streams_are_in_the_report(rt: HostRuntime) -> Result<(), Fail> {
    let alloc = rt.alloc();
    let two = pages_of(alloc, "MAPPING COMMENT FRAME MAPPING COMMENT FRAME")?;
    let three = pages_of(alloc, THREE)?;
    let open = pages_of(alloc, "MAPPING COMMENT FRAME MAPPING COMMENT")?;
    let files = [
        pipe("1.oga", &two),
        file("2.oga", &three),
        file("3.oga", &open),
    ];
    let due =
        "{\"path\":\"1.oga\",\"status\":\"ok\",\"container\":\"ogg\",\"rate\":44100,\"channels\":2,\"depth\":16,\
        \"frames\":2,\"samples\":2,\"md5_checked\":true,\"streams\":2}\n\
        {\"path\":\"2.oga\",\"status\":\"ok\",\"container\":\"ogg\",\"rate\":44100,\"channels\":2,\"depth\":16,\
        \"frames\":6,\"samples\":66,\"md5_checked\":false,\"subset\":true,\"streams\":3}\n\
        {\"path\":\"3.oga\",\"status\":\"bad\",\"place\":\"end\",\"error\":36,\"name\":\"NoEndPage\",\
        \"sample\":1,\"stream\":2}\n";
    assert!(rt; is_reported(alloc, &files, due));
    Ok(())
}

/// These bytes between an ID3v2 tag of 10 bytes and an ID3v1 tag of 128.
fn tagged(alloc: Global, bytes: &[u8]) -> Result<Vec<u8>, AllocError> {
    let mut all = Vec::new(alloc);
    all.extend_from_slice(b"ID3\x03\0\0\0\0\0\0")?;
    all.extend_from_slice(bytes)?;
    all.extend_from_slice(b"TAG")?;
    all.extend_from_slice(&[0; 125])?;
    Ok(all)
}

/// What is printed on standard error of files between tags, with what is missing of them.
fn told_between(alloc: Global, files: &[HeldFile<'_>]) -> Collected {
    let mut shelf = BetweenShelf::new(HeldShelf::new(files));
    let mut out = Collected::new(alloc);
    let mut err = Collected::new(alloc);
    let mut report = Collected::new(alloc);
    let _status = verify_files(alloc, &mut shelf, ALL, &mut out, &mut err, &mut report);
    err
}

// A good file has no line, and the bytes of a bad one are counted from its marker on.
#[test]
fn tags_are_not_missing(rt: HostRuntime) -> Result<(), Fail> {
    let alloc = rt.alloc();
    let example = bytes_of(alloc, EXAMPLE)?;
    let good = tagged(alloc, &example)?;
    let bad = tagged(alloc, &example[..56usize.min(example.len())])?;
    let err = told_between(alloc, &[file("1.flac", &good), file("2.flac", &bad)]);
    let due = "flac: 2.flac: frame 0: 3 Truncated\n\
        flac: 2.flac: bytes 42 to 55: samples 0 to 0 missing, 0:00.000 to 0:00.000\n\
        flac: 2.flac: found 0 of 1 samples in 0 frames\n";
    assert!(rt; err.bytes() == due.as_bytes());
    Ok(())
}

/// Whether verifying these files between tags prints these lines of good files, and writes this report.
fn is_verified_between(alloc: Global, files: &[HeldFile<'_>], out_due: &str, due: &str) -> bool {
    let mut shelf = BetweenShelf::new(HeldShelf::new(files));
    let mut out = Collected::new(alloc);
    let mut err = Collected::new(alloc);
    let mut report = Collected::new(alloc);
    let _status = verify_files(alloc, &mut shelf, PLAIN, &mut out, &mut err, &mut report);
    out.bytes() == out_due.as_bytes() && report.bytes() == due.as_bytes()
}

// One file has both tags, one that before the stream, one that after it, and one none. A pipe is read once.
#[test]
fn tags_have_their_word(rt: HostRuntime) -> Result<(), Fail> {
    let alloc = rt.alloc();
    let example = bytes_of(alloc, EXAMPLE)?;
    let both = tagged(alloc, &example)?;
    let before = &both[..67usize.min(both.len())];
    let after = &both[10usize.min(both.len())..];
    let files = [
        file("1.flac", &both),
        file("2.flac", before),
        file("3.flac", after),
        file("4.flac", &example),
        pipe("5.flac", &both),
    ];
    let out = "ok 1.flac: frames 1 samples 1 no-md5 id3\n\
        ok 2.flac: frames 1 samples 1 no-md5 id3\n\
        ok 3.flac: frames 1 samples 1 no-md5 id3\n\
        ok 4.flac: frames 1 samples 1 no-md5\n\
        ok 5.flac: frames 1 samples 1 no-md5\n\
        verified 5 ok 5 bad 0\n";
    let report = "{\"path\":\"1.flac\",\"status\":\"ok\",\"container\":\"native\",\"rate\":44100,\
        \"channels\":2,\"depth\":16,\"frames\":1,\"samples\":1,\"md5_checked\":false,\
        \"subset\":true,\"id3\":true}\n\
        {\"path\":\"2.flac\",\"status\":\"ok\",\"container\":\"native\",\"rate\":44100,\
        \"channels\":2,\"depth\":16,\"frames\":1,\"samples\":1,\"md5_checked\":false,\
        \"subset\":true,\"id3\":true}\n\
        {\"path\":\"3.flac\",\"status\":\"ok\",\"container\":\"native\",\"rate\":44100,\
        \"channels\":2,\"depth\":16,\"frames\":1,\"samples\":1,\"md5_checked\":false,\
        \"subset\":true,\"id3\":true}\n\
        {\"path\":\"4.flac\",\"status\":\"ok\",\"container\":\"native\",\"rate\":44100,\
        \"channels\":2,\"depth\":16,\"frames\":1,\"samples\":1,\"md5_checked\":false,\
        \"subset\":true,\"id3\":false}\n\
        {\"path\":\"5.flac\",\"status\":\"ok\",\"container\":\"native\",\"rate\":44100,\
        \"channels\":2,\"depth\":16,\"frames\":1,\"samples\":1,\"md5_checked\":false}\n";
    assert!(rt; is_verified_between(alloc, &files, out, report));
    Ok(())
}
