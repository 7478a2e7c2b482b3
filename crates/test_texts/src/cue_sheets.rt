//! Cue sheets as text. The expected texts and numbers are those of metaflac 1.4.2.

use flac_cue::{CueAudio, CueFault, CueWhy, cue_sheet, cue_text};
use flac_meta::{CueSheet, CueTrack};
use std::alloc::{AllocError, Global};
use std::test::Fail;

/// A file of 44100 Hz, two channels and 16 bits, with 400 frames of a CD.
const CD: CueAudio = CueAudio {
    total: 235_200,
    rate: 44_100,
    cd: true,
};

/// A file of 48000 Hz.
const OTHER: CueAudio = CueAudio {
    total: 100_000,
    rate: 48_000,
    cd: false,
};

/// Adds the numbers of a track: offset, number, audio, pre-emphasis, and offset and number of each index point.
fn push_numbers(numbers: &mut Vec<u64>, track: &CueTrack) -> Result<(), AllocError> {
    numbers.push(track.offset)?;
    numbers.push(u64::from(track.number))?;
    numbers.push(u64::from(track.audio))?;
    numbers.push(u64::from(track.pre_emphasis))?;
    for index in track.indices.as_slice() {
        numbers.push(index.offset)?;
        numbers.push(u64::from(index.number))?;
    }
    Ok(())
}

/// The numbers of a sheet: its lead-in, whether it is of a CD, and those of its tracks.
fn numbers_of(alloc: Global, sheet: &CueSheet) -> Result<Vec<u64>, AllocError> {
    let mut numbers = Vec::new(alloc);
    numbers.push(sheet.lead_in)?;
    numbers.push(u64::from(sheet.cd))?;
    for track in sheet.tracks.as_slice() {
        push_numbers(&mut numbers, track)?;
    }
    Ok(numbers)
}

/// Whether a text says a sheet of these numbers, which is written as this text, and the catalogue number.
fn says(
    alloc: Global,
    audio: &CueAudio,
    text: &[u8],
    expected: (&[u64], &[u8], &[u8]),
) -> Result<bool, AllocError> {
    let Ok(sheet) = cue_sheet(alloc, audio, text) else {
        return Ok(false);
    };
    let numbers = numbers_of(alloc, &sheet)?;
    let written = cue_text(alloc, "t.flac", &sheet)?;
    let (listed, exported, catalogue) = expected;
    Ok(
        numbers.as_slice() == listed
            && written.as_slice() == exported
            && sheet.catalogue.as_slice().starts_with(catalogue),
    )
}

/// The line and the reason of a fault; none if the text is taken.
fn fault_of(alloc: Global, audio: &CueAudio, text: &[u8]) -> Option<(u64, CueWhy)> {
    match cue_sheet(alloc, audio, text) {
        Err(CueFault::Line(line, why)) => Some((line, why)),
        _ => None,
    }
}

/// `metaflac --import-cuesheet-from=t.cue t.flac`, then `metaflac --list --block-type=CUESHEET t.flac` and `metaflac
/// --export-cuesheet-to=- t.flac`.
#[test]
fn sheet_of_a_cd(rt: HostRuntime) -> Result<(), Fail> {
    let text =
        b"CATALOG 1234567890123\nFILE \"x y.flac\" FLAC\n  TRACK 01 AUDIO\n    TITLE \"One\"\n    FLAGS PRE\n    ISRC ABCDE1234567\n    INDEX 00 00:00:00\n    INDEX 01 00:00:10\n  TRACK 02 MODE1/2352\n    INDEX 01 00:02:00\n    INDEX 02 00:03:01\n";
    let listed = [
        88_200, 1, 0, 1, 1, 1, 0, 0, 5_880, 1, 88_200, 2, 0, 0, 0, 1, 44_688, 2, 235_200, 170, 1, 0,
    ];
    let exported =
        b"CATALOG 1234567890123\nFILE \"t.flac\" FLAC\n  TRACK 01 AUDIO\n    FLAGS PRE\n    ISRC ABCDE1234567\n    INDEX 00 00:00:00\n    INDEX 01 00:00:10\n  TRACK 02 DATA\n    INDEX 01 00:02:00\n    INDEX 02 00:03:01\nREM FLAC__lead-in 88200\nREM FLAC__lead-out 170 235200\n";
    let same = says(
        rt.alloc(),
        &CD,
        text,
        (&listed, exported, b"1234567890123\0"),
    )?;
    assert!(rt; same);
    let again = says(
        rt.alloc(),
        &CD,
        exported,
        (&listed, exported, b"1234567890123\0"),
    )?;
    assert!(rt; again);
    Ok(())
}

/// The same of a file that is of no CD; a second index point at 00:01:37, in other letters, with carriage returns.
#[test]
fn sheets_of_other_files(rt: HostRuntime) -> Result<(), Fail> {
    let text =
        b"FILE \"x.flac\" FLAC\n  TRACK 01 AUDIO\n    INDEX 01 0\n  TRACK 02 AUDIO\n    INDEX 00 480\n    INDEX 01 1000\n";
    let listed = [
        0, 0, 0, 1, 1, 0, 0, 1, 480, 2, 1, 0, 0, 0, 520, 1, 100_000, 255, 1, 0,
    ];
    let exported =
        b"FILE \"t.flac\" FLAC\n  TRACK 01 AUDIO\n    INDEX 01 0\n  TRACK 02 AUDIO\n    INDEX 00 480\n    INDEX 01 1000\nREM FLAC__lead-in 0\nREM FLAC__lead-out 255 100000\n";
    let same = says(rt.alloc(), &OTHER, text, (&listed, exported, b"\0"))?;
    assert!(rt; same);
    let times = b"catalog hello\r\n\ttrack\t1 \"audio\" \r\n index 1 00:00:00\r\nindex 2 00:01:37";
    let listed = [0, 0, 0, 1, 1, 0, 0, 1, 71_680, 2, 100_000, 255, 1, 0];
    let exported =
        b"CATALOG hello\nFILE \"t.flac\" FLAC\n  TRACK 01 AUDIO\n    INDEX 01 0\n    INDEX 02 71680\nREM FLAC__lead-in 0\nREM FLAC__lead-out 255 100000\n";
    let other = says(rt.alloc(), &OTHER, times, (&listed, exported, b"hello\0"))?;
    assert!(rt; other);
    Ok(())
}

/// Texts that metaflac refuses too, at the same lines.
#[test]
fn commands_that_are_refused(rt: HostRuntime) -> Result<(), Fail> {
    let alloc = rt.alloc();
    let at = |text: &[u8]| fault_of(alloc, &CD, text);
    assert!(rt; at(b"FILE \"x\" FLAC\nTRACK 01\n") == Some((2, CueWhy::Track)));
    assert!(rt; at(b"TRACK 00 AUDIO\n") == Some((1, CueWhy::Track)));
    assert!(rt; at(b"TRACK 01 AUDIO\nTRACK 02 AUDIO\n") == Some((2, CueWhy::NoIndex)));
    assert!(rt; at(b"CATALOG 123456789012\n") == Some((1, CueWhy::Catalogue)));
    assert!(rt; at(b"TRACK 01 AUDIO\nISRC ABCDE123456\n") == Some((2, CueWhy::Isrc)));
    assert!(rt; at(b"FLAGS PRE\n") == Some((1, CueWhy::Flags)));
    assert!(rt; at(b"TRACK 01 AUDIO\nINDEX 02 00:00:00\n") == Some((2, CueWhy::Index)));
    Ok(())
}

/// The same of places; of an empty text metaflac says line 0.
#[test]
fn places_that_are_refused(rt: HostRuntime) -> Result<(), Fail> {
    let alloc = rt.alloc();
    let at = |text: &[u8]| fault_of(alloc, &CD, text);
    assert!(rt; at(b"TRACK 01 AUDIO\nINDEX 01 00:00:75\n") == Some((2, CueWhy::Offset)));
    assert!(rt; at(b"TRACK 01 AUDIO\nINDEX 01 588\n") == Some((2, CueWhy::Offset)));
    assert!(rt;
        at(b"TRACK 01 AUDIO\nINDEX 00 00:00:00\nINDEX 01 00:00:00\n") == Some((3, CueWhy::Offset))
    );
    assert!(rt; at(b"REM FLAC__lead-in x\n") == Some((1, CueWhy::LeadIn)));
    assert!(rt; at(b"REM FLAC__lead-out 170 58800\n") == Some((1, CueWhy::LeadOut)));
    assert!(rt; at(b"FILE \"x\" FLAC") == Some((1, CueWhy::NoTrack)));
    assert!(rt; at(b"") == Some((1, CueWhy::NoTrack)));
    Ok(())
}

/// Texts that metaflac takes too.
#[test]
fn commands_that_are_taken(rt: HostRuntime) -> Result<(), Fail> {
    let alloc = rt.alloc();
    let takes = |text: &[u8]| cue_sheet(alloc, &CD, text).is_ok();
    assert!(rt;
        takes(
            b"TRACK 05 AUDIO\nFILE \"x\" FLAC\nFLAGS DCP pre\nISRC \"ABCDE1234567\"\nINDEX 1 0:0:0"
        )
    );
    assert!(rt;
        takes(
            b"HELLO\n\nTRACK 01 DATA\nPREGAP 00:02:00\nINDEX 01 00:00:00 x\nCATALOG \"1234567890123\"\n"
        )
    );
    assert!(rt;
        takes(
            b"TRACK 001 AUDIO x\nINDEX 001 000:00:00\nTRACK 02 AUDIO\nINDEX 00 00:02:00\nINDEX 01 00:03:00\n"
        )
    );
    assert!(rt; !takes(b"TRACK 01 AUDIO\nINDEX 01 00:00:00\nTRACK 03 AUDIO\nINDEX 01 00:02:00\n"));
    Ok(())
}

/// A mark before the text, and a name that cannot be in quotation marks.
#[test]
fn marks(rt: HostRuntime) -> Result<(), Fail> {
    let text = b"\xEF\xBB\xBFTRACK 01 AUDIO\nINDEX 01 00:00:00\n";
    let sheet = cue_sheet(rt.alloc(), &CD, text).ok().ok_or("no sheet")?;
    let written = cue_text(rt.alloc(), "a\"b\nc.flac", &sheet)?;
    assert!(rt;
        written
            .as_slice()
            .starts_with(b"FILE \"a'b'c.flac\" FLAC\n  TRACK 01 AUDIO\n")
    );
    Ok(())
}
