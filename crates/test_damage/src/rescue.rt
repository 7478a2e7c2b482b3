//! Surveys of small streams.

use flac_bits::Collected;
use flac_rescue::{
    MOST_SILENCE, PointsFault, SalvageFault, SurveyFault, report, report_left, salvage_samples,
    seek_points, survey_bytes, tell_missing,
};
use flac_whole_pages::left_of;
use std::alloc::Global;
use std::test::Fail;

/// The marker and STREAMINFO: blocks of 16 samples, 44100 Hz, 1 channel, 8 bits, 64 samples.
const HEAD: [u8; 42] = [
    0x66, 0x4C, 0x61, 0x43, 0x80, 0x00, 0x00, 0x22, 0x00, 0x10, 0x00, 0x10, 0x00, 0x00, 0x00, 0x00,
    0x00, 0x00, 0x0A, 0xC4, 0x40, 0x70, 0x00, 0x00, 0x00, 0x40, 0x00, 0x00, 0x00, 0x00, 0x00, 0x00,
    0x00, 0x00, 0x00, 0x00, 0x00, 0x00, 0x00, 0x00, 0x00, 0x00,
];

/// Four frames of 16 samples, each of one value.
const FRAMES: [[u8; 11]; 4] = [
    [
        0xFF, 0xF8, 0x69, 0x02, 0x00, 0x0F, 0xB7, 0x00, 0x01, 0x7A, 0x27,
    ],
    [
        0xFF, 0xF8, 0x69, 0x02, 0x01, 0x0F, 0xA2, 0x00, 0x02, 0x7B, 0x51,
    ],
    [
        0xFF, 0xF8, 0x69, 0x02, 0x02, 0x0F, 0x9D, 0x00, 0x03, 0xF8, 0xD0,
    ],
    [
        0xFF, 0xF8, 0x69, 0x02, 0x03, 0x0F, 0x88, 0x00, 0x04, 0x79, 0xBD,
    ],
];

/// The frames in this order, after the head; the second of them with a changed bit, and three bytes before the last.
fn damaged(alloc: Global, order: &[usize]) -> Option<Vec<u8>> {
    let mut bytes = Vec::new(alloc);
    bytes.extend_from_slice(&HEAD).ok()?;
    for (place, index) in order.iter().enumerate() {
        let mut frame = FRAMES[*index % 4];
        if place == 1 && order.len() > 4 {
            frame[8] ^= 4;
        }
        if place == 4 {
            bytes.extend_from_slice(b"xyz").ok()?;
        }
        bytes.extend_from_slice(&frame).ok()?;
    }
    Some(bytes)
}

/// Whether the lines about frames in this order are these.
fn says(alloc: Global, order: &[usize], lines: &str) -> bool {
    match damaged(alloc, order) {
        Some(bytes) => match survey_bytes(alloc, &bytes) {
            Ok(found) => match report(alloc, "a", &found) {
                Ok(text) => text.as_slice() == lines.as_bytes(),
                Err(_) => false,
            },
            Err(_) => false,
        },
        None => false,
    }
}

#[test]
fn reports(rt: HostRuntime) -> Result<(), Fail> {
    assert!(rt; says(rt.alloc(), &[0, 1, 2, 3], ""));
    assert!(rt;
        says(
            rt.alloc(),
            &[0, 1, 3],
            "flac: a: byte 64: samples 32 to 47 missing, 0:00.000 to 0:00.001\nflac: a: found 48 of 64 samples in 3 frames\n"
        )
    );
    assert!(rt;
        says(
            rt.alloc(),
            &[0, 1, 2, 1, 3],
            "flac: a: bytes 53 to 63: samples 16 to 31 missing, 0:00.000 to 0:00.000\nflac: a: bytes 75 to 88: no frame, no sample is missing\nflac: a: frame at byte 75: out of order, 16 samples from 16\nflac: a: found 48 of 64 samples in 3 frames\n"
        )
    );
    Ok(())
}

/// What is printed of frames in this order.
fn is_told(alloc: Global, order: &[usize], lines: &str) -> bool {
    let mut err = Collected::new(alloc);
    match damaged(alloc, order) {
        Some(bytes) => {
            tell_missing(alloc, "b", &bytes, &mut err).is_ok() && err.bytes() == lines.as_bytes()
        }
        None => false,
    }
}

#[test]
fn lines_are_printed(rt: HostRuntime) -> Result<(), Fail> {
    assert!(rt; is_told(rt.alloc(), &[0, 1, 2, 3], ""));
    let due =
        "flac: b: byte 42: samples 0 to 15 missing, 0:00.000 to 0:00.000\nflac: b: found 48 of 64 samples in 3 frames\n";
    assert!(rt; is_told(rt.alloc(), &[1, 2, 3], due));
    let due =
        "flac: b: byte 42: samples 0 to 63 missing, 0:00.000 to 0:00.001\nflac: b: found 0 of 64 samples in 0 frames\n";
    assert!(rt; is_told(rt.alloc(), &[], due));
    Ok(())
}

/// Whether these bytes have no marker and blocks.
fn is_refused(alloc: Global, bytes: &[u8]) -> bool {
    match survey_bytes(alloc, bytes) {
        Ok(_) => false,
        Err(fault) => matches!(fault, SurveyFault::Head(_)),
    }
}

#[test]
fn heads_are_refused(rt: HostRuntime) -> Result<(), Fail> {
    assert!(rt; is_refused(rt.alloc(), b""));
    assert!(rt; is_refused(rt.alloc(), b"OggS"));
    assert!(rt; is_refused(rt.alloc(), &HEAD[..41]));
    assert!(rt; !is_refused(rt.alloc(), &HEAD));
    Ok(())
}

/// Whether samples are runs of 16 of these values.
fn are_runs(samples: &[i32], values: &[i32]) -> bool {
    for (place, sample) in samples.iter().enumerate() {
        match values.get(place / 16) {
            Some(value) if value == sample => {}
            _ => return false,
        }
    }
    samples.len() / 16 == values.len()
}

/// Whether the one channel that is made of frames in this order has runs of 16 of these values.
fn is_salvaged(alloc: Global, order: &[usize], silence: bool, values: &[i32]) -> bool {
    let Some(bytes) = damaged(alloc, order) else {
        return false;
    };
    match survey_bytes(alloc, &bytes) {
        Ok(survey) => match salvage_samples(alloc, &bytes, &survey, silence) {
            Ok(channels) => channels.len() == 1 && are_runs(&channels[0], values),
            Err(_) => false,
        },
        Err(_) => false,
    }
}

#[test]
fn samples_are_salvaged(rt: HostRuntime) -> Result<(), Fail> {
    assert!(rt; is_salvaged(rt.alloc(), &[0, 1, 2, 3], true, &[1, 2, 3, 4]));
    assert!(rt; is_salvaged(rt.alloc(), &[0, 1, 3], true, &[1, 2, 0, 4]));
    assert!(rt; is_salvaged(rt.alloc(), &[0, 1, 3], false, &[1, 2, 4]));
    assert!(rt; is_salvaged(rt.alloc(), &[0, 1, 2, 1, 3], true, &[1, 0, 3, 4]));
    assert!(rt; is_salvaged(rt.alloc(), &[1], true, &[0, 2, 0, 0]));
    assert!(rt; is_salvaged(rt.alloc(), &[], true, &[0, 0, 0, 0]));
    assert!(rt; is_salvaged(rt.alloc(), &[], false, &[]));
    Ok(())
}

/// Whether there is too much silence before the end of a stream that states this byte of its total.
fn is_too_long(alloc: Global, silence: bool, byte: u8) -> bool {
    let mut head = HEAD;
    head[22] = byte;
    match survey_bytes(alloc, &head) {
        Ok(survey) => match salvage_samples(alloc, &head, &survey, silence) {
            Ok(_) => false,
            Err(fault) => fault == SalvageFault::TooLong,
        },
        Err(_) => false,
    }
}

#[test]
fn silence_is_bounded(rt: HostRuntime) -> Result<(), Fail> {
    assert!(rt; MOST_SILENCE == 1_073_741_824);
    assert!(rt; is_too_long(rt.alloc(), true, 0x40));
    assert!(rt; !is_too_long(rt.alloc(), false, 0x40));
    assert!(rt; !is_too_long(rt.alloc(), true, 0));
    Ok(())
}

/// Whether the seek points of frames in this order are these: sample, offset, and always 16 samples.
fn has_points(alloc: Global, order: &[usize], every: u32, due: &[(u64, u64)]) -> bool {
    let Some(bytes) = damaged(alloc, order) else {
        return false;
    };
    let Ok(points) = seek_points(alloc, &bytes, every) else {
        return false;
    };
    for (place, point) in points.iter().enumerate() {
        match due.get(place) {
            Some((sample, offset)) if point.sample == *sample && point.offset == *offset => {}
            _ => return false,
        }
        if point.length != 16 {
            return false;
        }
    }
    points.len() == due.len()
}

/// Why frames in this order get no seek points.
fn points_fault(alloc: Global, order: &[usize]) -> Option<PointsFault> {
    let bytes = damaged(alloc, order)?;
    match seek_points(alloc, &bytes, 16) {
        Ok(_) => None,
        Err(fault) => Some(fault),
    }
}

// The points of the four frames are those of `metaflac --add-seekpoint` for the multiples.
#[test]
fn seek_points_are_frames(rt: HostRuntime) -> Result<(), Fail> {
    assert!(rt; has_points(rt.alloc(), &[0, 1, 2, 3], 40, &[(0, 0), (32, 22)]));
    assert!(rt;
        has_points(
            rt.alloc(),
            &[0, 1, 2, 3],
            20,
            &[(0, 0), (16, 11), (32, 22), (48, 33)]
        )
    );
    assert!(rt; has_points(rt.alloc(), &[0, 1, 2, 3], 64, &[(0, 0)]));
    assert!(rt; has_points(rt.alloc(), &[0, 1, 2, 3], 0, &[]));
    assert!(rt; has_points(rt.alloc(), &[], 1, &[]));
    Ok(())
}

#[test]
fn other_streams_have_no_seek_points(rt: HostRuntime) -> Result<(), Fail> {
    for order in [[1, 2, 3], [0, 2, 3], [0, 1, 1]] {
        assert!(rt; points_fault(rt.alloc(), &order) == Some(PointsFault::NotWhole));
    }
    assert!(rt; points_fault(rt.alloc(), &[0, 1, 2, 3, 0]) == Some(PointsFault::NotWhole));
    match seek_points(rt.alloc(), b"fLaC", 1) {
        Err(PointsFault::Head(_)) => Ok(()),
        _ => Err(Fail::new("a stream without blocks")),
    }
}

/// What the pages of an Ogg stream have before their bytes (RFC 3533, section 6): one with the mapping header and the
/// head, one with the first two frames, and one with each of the others. Their checksums were computed apart.
const PAGE_HEADS: [&[u8]; 4] = [
    &[
        0x4F, 0x67, 0x67, 0x53, 0x00, 0x02, 0x00, 0x00, 0x00, 0x00, 0x00, 0x00, 0x00, 0x00, 0x07,
        0x00, 0x00, 0x00, 0x00, 0x00, 0x00, 0x00, 0x28, 0x62, 0x9B, 0x29, 0x01, 0x33, 0x7F, 0x46,
        0x4C, 0x41, 0x43, 0x01, 0x00, 0x00, 0x00,
    ],
    &[
        0x4F, 0x67, 0x67, 0x53, 0x00, 0x00, 0x20, 0x00, 0x00, 0x00, 0x00, 0x00, 0x00, 0x00, 0x07,
        0x00, 0x00, 0x00, 0x01, 0x00, 0x00, 0x00, 0xCE, 0x0C, 0xAB, 0xC0, 0x02, 0x0B, 0x0B,
    ],
    &[
        0x4F, 0x67, 0x67, 0x53, 0x00, 0x00, 0x30, 0x00, 0x00, 0x00, 0x00, 0x00, 0x00, 0x00, 0x07,
        0x00, 0x00, 0x00, 0x02, 0x00, 0x00, 0x00, 0xF7, 0xBE, 0xB3, 0x6C, 0x01, 0x0B,
    ],
    &[
        0x4F, 0x67, 0x67, 0x53, 0x00, 0x04, 0x40, 0x00, 0x00, 0x00, 0x00, 0x00, 0x00, 0x00, 0x07,
        0x00, 0x00, 0x00, 0x03, 0x00, 0x00, 0x00, 0xB4, 0x8A, 0x8B, 0x69, 0x01, 0x0B,
    ],
];

/// The bytes of a page of these.
fn add_page(bytes: &mut Vec<u8>, index: usize) -> Option<()> {
    bytes.extend_from_slice(PAGE_HEADS[index % 4]).ok()?;
    match index {
        0 => bytes.extend_from_slice(&HEAD).ok(),
        1 => {
            bytes.extend_from_slice(&FRAMES[0]).ok()?;
            bytes.extend_from_slice(&FRAMES[1]).ok()
        }
        _ => bytes.extend_from_slice(&FRAMES[index % 4]).ok(),
    }
}

/// The lines about these pages, of which the byte at an offset is changed, if it is there.
fn page_lines(alloc: Global, pages: &[usize], bad: usize) -> Option<Vec<u8>> {
    let mut bytes = Vec::new(alloc);
    for index in pages {
        add_page(&mut bytes, *index)?;
    }
    if let Some(byte) = bytes.get_mut(bad) {
        *byte ^= 1;
    }
    let left = left_of(alloc, bytes).ok()?;
    let survey = survey_bytes(alloc, &left.bytes).ok()?;
    report_left(alloc, "c", &left, &survey).ok()
}

/// Whether these are those lines.
fn says_of_pages(alloc: Global, pages: &[usize], bad: usize, lines: &str) -> bool {
    match page_lines(alloc, pages, bad) {
        Some(text) => text.as_slice() == lines.as_bytes(),
        None => false,
    }
}

#[test]
fn pages_are_placed(rt: HostRuntime) -> Result<(), Fail> {
    assert!(rt; says_of_pages(rt.alloc(), &[0, 1, 2, 3], 999, ""));
    let due =
        "flac: c: bytes 130 to 157: samples 32 to 47 missing, 0:00.000 to 0:00.001\nflac: c: found 48 of 64 samples in 3 frames\n";
    assert!(rt; says_of_pages(rt.alloc(), &[0, 1, 3], 999, due));
    let due =
        "flac: c: bytes 130 to 196: samples 32 to 47 missing, 0:00.000 to 0:00.001\nflac: c: found 48 of 64 samples in 3 frames\n";
    assert!(rt; says_of_pages(rt.alloc(), &[0, 1, 2, 3], 168, due));
    // A page whose number is changed, and a frame that is whole in it.
    let due =
        "flac: c: bytes 130 to 157: no frame, no sample is missing\nflac: c: found 64 of 64 samples in 4 frames\n";
    assert!(rt; says_of_pages(rt.alloc(), &[0, 1, 2, 3], 148, due));
    let due =
        "flac: c: bytes 79 to 106: samples 0 to 47 missing, 0:00.000 to 0:00.001\nflac: c: bytes 118 to 156: no frame, no sample is missing\nflac: c: frame at byte 146: out of order, 16 samples from 32\nflac: c: found 16 of 64 samples in 1 frames\n";
    assert!(rt; says_of_pages(rt.alloc(), &[0, 3, 2], 999, due));
    Ok(())
}
