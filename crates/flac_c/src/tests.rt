//! Each call as a program in C makes it.

use crate::blocks::{FlacProvedBlock, FlacProvedPicture, FlacProvedSpan, flac_proved_blocks};
use crate::bound::flac_proved_bound;
use crate::cursor::FlacProvedCursor;
use crate::decoding::{flac_proved_decode, flac_proved_decode_in};
use crate::encoding::{
    FlacProvedOptions, FlacProvedSettings, flac_proved_encode, flac_proved_encode_in,
};
use crate::fault::FlacProvedFault;
use crate::info::{FlacProvedInfo, flac_proved_comment, flac_proved_info, flac_proved_vendor};
use crate::samples::{flac_proved_samples, flac_proved_samples_in};
use crate::starting::{flac_proved_seek, flac_proved_start};
use crate::stepping::{flac_proved_next, flac_proved_next_in};
use crate::tags::{FlacProvedTags, FlacProvedText};
use crate::texts::{flac_proved_place, flac_proved_strerror};
use crate::verifying::{flac_proved_verify, flac_proved_verify_in};
use std::alloc::Global;
use std::test::Fail;

/// A native stream of one frame, of one sample of each of two channels (RFC 9639, appendix D.1).
const STREAM: [u8; 57] = [
    0x66, 0x4c, 0x61, 0x43, 0x80, 0x00, 0x00, 0x22, 0x10, 0x00, 0x10, 0x00, 0x00, 0x00, 0x0f, 0x00,
    0x00, 0x0f, 0x0a, 0xc4, 0x42, 0xf0, 0x00, 0x00, 0x00, 0x01, 0x3e, 0x84, 0xb4, 0x18, 0x07, 0xdc,
    0x69, 0x03, 0x07, 0x58, 0x6a, 0x3d, 0xad, 0x1a, 0x2e, 0x0f, 0xff, 0xf8, 0x69, 0x18, 0x00, 0x00,
    0xbf, 0x01, 0x58, 0xfd, 0x01, 0x12, 0x8b, 0x5a, 0xb2,
];

/// The same with a block of comments after STREAMINFO (RFC 9639, section 8.6): of the program `abc`, `A=1` and
/// `BC=23`.
const TAGGED: [u8; 88] = [
    0x66, 0x4c, 0x61, 0x43, 0x00, 0x00, 0x00, 0x22, 0x10, 0x00, 0x10, 0x00, 0x00, 0x00, 0x0f, 0x00,
    0x00, 0x0f, 0x0a, 0xc4, 0x42, 0xf0, 0x00, 0x00, 0x00, 0x01, 0x3e, 0x84, 0xb4, 0x18, 0x07, 0xdc,
    0x69, 0x03, 0x07, 0x58, 0x6a, 0x3d, 0xad, 0x1a, 0x2e, 0x0f, 0x84, 0x00, 0x00, 0x1b, 0x03, 0x00,
    0x00, 0x00, 0x61, 0x62, 0x63, 0x02, 0x00, 0x00, 0x00, 0x03, 0x00, 0x00, 0x00, 0x41, 0x3d, 0x31,
    0x05, 0x00, 0x00, 0x00, 0x42, 0x43, 0x3d, 0x32, 0x33, 0xff, 0xf8, 0x69, 0x18, 0x00, 0x00, 0xbf,
    0x01, 0x58, 0xfd, 0x01, 0x12, 0x8b, 0x5a, 0xb2,
];

/// The digest of the one sample of each channel, 25588 and 10416.
const DIGEST: [u8; 16] = [
    0x3e, 0x84, 0xb4, 0x18, 0x07, 0xdc, 0x69, 0x03, 0x07, 0x58, 0x6a, 0x3d, 0xad, 0x1a, 0x2e, 0x0f,
];

/// A fault whose fields no call reports.
pub(crate) fn unset() -> FlacProvedFault {
    FlacProvedFault {
        number: 99,
        place: 99,
        index: 99,
    }
}

#[test]
fn verified(rt: HostRuntime) -> Result<(), Fail> {
    let mut fault = unset();
    let number = flac_proved_verify(rt.alloc(), &STREAM, &mut fault);
    assert!(rt; (number, fault.number, fault.place, fault.index) == (0, 0, 0, 0));
    let cut = &STREAM[..STREAM.len() - 1];
    let number = flac_proved_verify(rt.alloc(), cut, &mut fault);
    assert!(rt; (number, fault.number, fault.place, fault.index) == (3, 3, 3, 0));
    let number = flac_proved_verify(rt.alloc(), &[], &mut fault);
    assert!(rt; (number, fault.number, fault.place, fault.index) == (3, 3, 1, 0));
    Ok(())
}

#[test]
fn texts_are_copied(rt: HostRuntime) -> Result<(), Fail> {
    let mut text = *b"................";
    assert!(rt; flac_proved_strerror(26, &mut text) == 13);
    assert!(rt; text == *b"26 FrameCheck...");
    assert!(rt; flac_proved_strerror(44, &mut text[..4]) == 17);
    assert!(rt; text == *b"44 SrameCheck...");
    assert!(rt; flac_proved_strerror(0, &mut text) == 0);
    assert!(rt; flac_proved_strerror(48, &mut text) == 0);
    assert!(rt; flac_proved_place(3, &mut text) == 5);
    assert!(rt; text == *b"frameameCheck...");
    assert!(rt; flac_proved_place(6, &mut text) == 0);
    Ok(())
}

/// What no stream says.
fn unknown() -> FlacProvedInfo {
    FlacProvedInfo {
        total: 99,
        comments: 99,
        rate: 99,
        channels: 99,
        bits: 99,
        least_block: 99,
        greatest_block: 99,
        least_frame: 99,
        greatest_frame: 99,
        digest: [99; 16],
    }
}

#[test]
fn described(rt: HostRuntime) -> Result<(), Fail> {
    let (mut info, mut fault) = (unknown(), unset());
    assert!(rt; flac_proved_info(rt.alloc(), &TAGGED, &mut info, &mut fault) == 0);
    assert!(rt; (fault.number, fault.place, fault.index) == (0, 0, 0));
    assert!(rt;
        (
            info.total,
            info.comments,
            info.rate,
            info.channels,
            info.bits
        ) == (1, 2, 44100, 2, 16)
    );
    assert!(rt; (info.least_block, info.greatest_block) == (4096, 4096));
    assert!(rt; (info.least_frame, info.greatest_frame) == (15, 15));
    assert!(rt; info.digest == DIGEST);
    assert!(rt; flac_proved_info(rt.alloc(), &STREAM[..60 - 20], &mut info, &mut fault) == 3);
    assert!(rt; (fault.number, fault.place, fault.index, info.comments) == (3, 2, 0, 2));
    Ok(())
}

#[test]
fn comments_are_copied(rt: HostRuntime) -> Result<(), Fail> {
    let (mut text, mut len, mut fault) = (*b".......", 99, unset());
    let number = flac_proved_comment(rt.alloc(), &TAGGED, 1, &mut text, &mut len, &mut fault);
    assert!(rt; (number, len, fault.number) == (0, 5, 0));
    assert!(rt; text == *b"BC=23..");
    let number = flac_proved_comment(rt.alloc(), &TAGGED, 0, &mut text[..2], &mut len, &mut fault);
    assert!(rt; (number, len) == (0, 3));
    assert!(rt; text == *b"A==23..");
    let number = flac_proved_comment(rt.alloc(), &TAGGED, 2, &mut text, &mut len, &mut fault);
    assert!(rt; (number, len) == (0, 0));
    let number = flac_proved_vendor(rt.alloc(), &TAGGED, &mut text, &mut len, &mut fault);
    assert!(rt; (number, len) == (0, 3));
    assert!(rt; text == *b"abc23..");
    let number = flac_proved_vendor(rt.alloc(), &STREAM, &mut text, &mut len, &mut fault);
    assert!(rt; (number, len) == (0, 0));
    let number = flac_proved_vendor(rt.alloc(), b"fLa", &mut text, &mut len, &mut fault);
    assert!(rt; (number, fault.number, fault.place, len) == (3, 3, 1, 0));
    Ok(())
}

#[test]
fn decoded(rt: HostRuntime) -> Result<(), Fail> {
    let (mut bytes, mut len, mut fault) = ([9u8; 9], 99, unset());
    let number = flac_proved_decode(rt.alloc(), &STREAM, 0, &mut bytes, &mut len, &mut fault);
    assert!(rt; (number, len, fault.number) == (0, 4, 0));
    assert!(rt; bytes == [0xf4, 0x63, 0xb0, 0x28, 9, 9, 9, 9, 9]);
    let number = flac_proved_decode(rt.alloc(), &STREAM, 4, &mut bytes, &mut len, &mut fault);
    assert!(rt; (number, len) == (0, 8));
    assert!(rt; bytes == [0xf4, 0x63, 0, 0, 0xb0, 0x28, 0, 0, 9]);
    let cut = &STREAM[..STREAM.len() - 1];
    let number = flac_proved_decode(rt.alloc(), cut, 1, &mut bytes, &mut len, &mut fault);
    assert!(rt; (number, fault.number, fault.place, fault.index, len) == (3, 3, 3, 0, 8));
    assert!(rt; bytes == [0xf4, 0x63, 0, 0, 0xb0, 0x28, 0, 0, 9]);
    Ok(())
}

#[test]
fn numbers(rt: HostRuntime) -> Result<(), Fail> {
    let (mut samples, mut len, mut fault) = ([9i32; 3], 99, unset());
    let number = flac_proved_samples(rt.alloc(), &STREAM, &mut samples[..1], &mut len, &mut fault);
    assert!(rt; (number, len, fault.number) == (0, 2, 0));
    assert!(rt; samples == [25588, 9, 9]);
    let number = flac_proved_samples(rt.alloc(), &TAGGED, &mut samples, &mut len, &mut fault);
    assert!(rt; (number, len) == (0, 2));
    assert!(rt; samples == [25588, 10416, 9]);
    let number = flac_proved_samples(rt.alloc(), &[], &mut samples, &mut len, &mut fault);
    assert!(rt; (number, fault.number, fault.place, len) == (3, 3, 1, 2));
    Ok(())
}

/// Settings of a native stream.
const SETTINGS: FlacProvedSettings = FlacProvedSettings {
    rate: 44100,
    channels: 2,
    bits: 16,
    block_size: 4096,
    seek_every: 0,
    ogg: 0,
    serial: 0,
};

/// The comments of [`TAGGED`].
const TAGS: FlacProvedTags<'static> = FlacProvedTags {
    vendor: FlacProvedText { bytes: b"abc" },
    list: &[
        FlacProvedText { bytes: b"A=1" },
        FlacProvedText { bytes: b"BC=23" },
    ],
};

/// What encoding returns, the length that it reports, and the first bytes.
fn encode(
    alloc: Global,
    settings: &FlacProvedSettings,
    samples: &[i32],
) -> (u32, usize, [u8; 200]) {
    let (mut out, mut len) = ([9u8; 200], 99);
    let number = flac_proved_encode(alloc, settings, samples, &TAGS, &mut out, &mut len);
    (number, len, out)
}

#[test]
fn encoded(rt: HostRuntime) -> Result<(), Fail> {
    let (number, len, stream) = encode(rt.alloc(), &SETTINGS, &[25588, 10416]);
    assert!(rt; (number, len) == (0, 88));
    assert!(rt; stream.starts_with(&TAGGED));
    assert!(rt; stream[88] == 9 && stream[199] == 9);
    Ok(())
}

#[test]
fn encoded_in_ogg(rt: HostRuntime) -> Result<(), Fail> {
    let settings = FlacProvedSettings {
        ogg: 1,
        serial: 7,
        ..SETTINGS
    };
    let (number, len, stream) = encode(rt.alloc(), &settings, &[25588, 10416]);
    // Three pages with 28 bytes before the packet (RFC 3533, section 6): 13 bytes and STREAMINFO, 38; the comments, 31;
    // the frame, 15.
    assert!(rt; (number, len) == (0, 181));
    assert!(rt; stream[14] == 7 && stream[15] == 0);
    let (mut samples, mut count, mut fault) = ([9i32; 3], 99, unset());
    let number = flac_proved_samples(
        rt.alloc(),
        stream.get(..181).unwrap_or(&[]),
        &mut samples,
        &mut count,
        &mut fault,
    );
    assert!(rt; (number, count) == (0, 2));
    assert!(rt; samples == [25588, 10416, 9]);
    Ok(())
}

/// Whether two samples are refused by this number, and nothing is written.
fn is_refused(alloc: Global, settings: &FlacProvedSettings, due: u32) -> bool {
    let (number, len, stream) = encode(alloc, settings, &[25588, 10416]);
    (number, len) == (due, 99) && stream == [9; 200]
}

#[test]
fn formats_not_encoded(rt: HostRuntime) -> Result<(), Fail> {
    let no_rate = FlacProvedSettings {
        rate: 0,
        ..SETTINGS
    };
    assert!(rt; is_refused(rt.alloc(), &no_rate, 40));
    let odd_bits = FlacProvedSettings {
        bits: 17,
        ..SETTINGS
    };
    assert!(rt; is_refused(rt.alloc(), &odd_bits, 41));
    let few_bits = FlacProvedSettings {
        bits: 8,
        ..SETTINGS
    };
    assert!(rt; is_refused(rt.alloc(), &few_bits, 44));
    let short_blocks = FlacProvedSettings {
        block_size: 15,
        ..SETTINGS
    };
    assert!(rt; is_refused(rt.alloc(), &short_blocks, 46));
    let sought_ogg = FlacProvedSettings {
        seek_every: 1,
        ogg: 1,
        ..SETTINGS
    };
    assert!(rt; is_refused(rt.alloc(), &sought_ogg, 37));
    Ok(())
}

#[test]
fn channels_not_encoded(rt: HostRuntime) -> Result<(), Fail> {
    for (channels, due) in [(0, 42), (9, 42), (3, 43)] {
        let settings = FlacProvedSettings {
            channels,
            ..SETTINGS
        };
        assert!(rt; is_refused(rt.alloc(), &settings, due));
    }
    Ok(())
}

/// A cursor that no call made.
pub(crate) fn nowhere() -> FlacProvedCursor {
    FlacProvedCursor {
        offset: 99,
        frames: 99,
        sample: 99,
        info: unknown(),
    }
}

/// What the call for the frame at a cursor returns, and the length that it reports.
fn next(
    alloc: Global,
    stream: &[u8],
    cursor: &mut FlacProvedCursor,
    out: &mut [i32],
) -> (u32, usize) {
    let (mut len, mut fault) = (99, unset());
    let number = flac_proved_next(alloc, stream, cursor, out, &mut len, &mut fault);
    (number, len)
}

#[test]
fn frame_by_frame(rt: HostRuntime) -> Result<(), Fail> {
    let (mut cursor, mut fault) = (nowhere(), unset());
    let number = flac_proved_start(rt.alloc(), &TAGGED, &mut cursor, &mut fault);
    assert!(rt; (number, fault.number) == (0, 0));
    assert!(rt; (cursor.offset, cursor.frames, cursor.sample) == (73, 0, 0));
    let info = &cursor.info;
    assert!(rt; (info.total, info.comments, info.channels) == (1, 2, 2));
    let mut samples = [9i32; 3];
    let told = next(rt.alloc(), &TAGGED, &mut cursor, &mut samples[..1]);
    assert!(rt; told == (0, 2) && cursor.offset == 73);
    assert!(rt; samples == [9, 9, 9]);
    let told = next(rt.alloc(), &TAGGED, &mut cursor, &mut samples);
    assert!(rt; told == (0, 2));
    assert!(rt; samples == [25588, 10416, 9]);
    assert!(rt; (cursor.offset, cursor.frames, cursor.sample) == (88, 1, 1));
    let told = next(rt.alloc(), &TAGGED, &mut cursor, &mut samples);
    assert!(rt; told == (0, 0) && cursor.offset == 88);
    Ok(())
}

#[test]
fn no_frame(rt: HostRuntime) -> Result<(), Fail> {
    let (mut cursor, mut fault) = (nowhere(), unset());
    let number = flac_proved_start(rt.alloc(), b"OggS", &mut cursor, &mut fault);
    assert!(rt; (number, fault.number, fault.place, cursor.offset) == (4, 4, 1, 99));
    let number = flac_proved_start(rt.alloc(), &STREAM[..40], &mut cursor, &mut fault);
    assert!(rt; (number, fault.place, fault.index, cursor.offset) == (3, 2, 0, 99));
    assert!(rt; flac_proved_start(rt.alloc(), &STREAM, &mut cursor, &mut fault) == 0);
    cursor.frames = 7;
    let (mut samples, mut len) = ([9i32; 3], 99);
    let number = flac_proved_next(
        rt.alloc(),
        &STREAM[..56],
        &mut cursor,
        &mut samples,
        &mut len,
        &mut fault,
    );
    assert!(rt; (number, fault.number, fault.place, fault.index) == (3, 3, 3, 7));
    assert!(rt; (len, cursor.offset, cursor.frames) == (99, 42, 7));
    cursor.info.channels = 9;
    let number = flac_proved_next(
        rt.alloc(),
        &STREAM,
        &mut cursor,
        &mut samples,
        &mut len,
        &mut fault,
    );
    assert!(rt; (number, fault.place, fault.index, len) == (8, 3, 7, 99));
    assert!(rt; samples == [9, 9, 9]);
    Ok(())
}

/// The stream with a seek table after STREAMINFO (RFC 9639, section 8.5): of sample 5 in a frame 7 bytes after the
/// first frame, and of no frame.
const SOUGHT: [u8; 97] = [
    0x66, 0x4c, 0x61, 0x43, 0x00, 0x00, 0x00, 0x22, 0x10, 0x00, 0x10, 0x00, 0x00, 0x00, 0x0f, 0x00,
    0x00, 0x0f, 0x0a, 0xc4, 0x42, 0xf0, 0x00, 0x00, 0x00, 0x01, 0x3e, 0x84, 0xb4, 0x18, 0x07, 0xdc,
    0x69, 0x03, 0x07, 0x58, 0x6a, 0x3d, 0xad, 0x1a, 0x2e, 0x0f, 0x83, 0x00, 0x00, 0x24, 0x00, 0x00,
    0x00, 0x00, 0x00, 0x00, 0x00, 0x05, 0x00, 0x00, 0x00, 0x00, 0x00, 0x00, 0x00, 0x07, 0x00, 0x01,
    0xff, 0xff, 0xff, 0xff, 0xff, 0xff, 0xff, 0xff, 0x00, 0x00, 0x00, 0x00, 0x00, 0x00, 0x00, 0x00,
    0x00, 0x00, 0xff, 0xf8, 0x69, 0x18, 0x00, 0x00, 0xbf, 0x01, 0x58, 0xfd, 0x01, 0x12, 0x8b, 0x5a,
    0xb2,
];

#[test]
fn sought(rt: HostRuntime) -> Result<(), Fail> {
    let (mut cursor, mut fault) = (nowhere(), unset());
    let number = flac_proved_seek(rt.alloc(), &SOUGHT, 4, &mut cursor, &mut fault);
    assert!(rt; (number, cursor.offset, cursor.frames, cursor.sample) == (0, 82, 0, 0));
    let number = flac_proved_seek(rt.alloc(), &SOUGHT, 5, &mut cursor, &mut fault);
    assert!(rt; (number, cursor.offset, cursor.frames, cursor.sample) == (0, 89, 0, 5));
    let number = flac_proved_seek(rt.alloc(), &SOUGHT, u64::MAX, &mut cursor, &mut fault);
    assert!(rt; (number, cursor.offset, cursor.sample) == (0, 89, 5));
    // No frame begins there.
    let (mut samples, mut len) = ([9i32; 3], 99);
    let number = flac_proved_next(
        rt.alloc(),
        &SOUGHT,
        &mut cursor,
        &mut samples,
        &mut len,
        &mut fault,
    );
    assert!(rt; (number, fault.place, fault.index, len) == (12, 3, 0, 99));
    let number = flac_proved_seek(rt.alloc(), &SOUGHT[..81], 0, &mut cursor, &mut fault);
    assert!(rt; (number, fault.place, fault.index, cursor.offset) == (3, 2, 1, 89));
    Ok(())
}

/// The bound of samples with two comments.
fn bound(settings: &FlacProvedSettings, count: usize) -> u64 {
    flac_proved_bound(settings, count, &TAGS)
}

#[test]
fn bounds(rt: HostRuntime) -> Result<(), Fail> {
    // 58 bytes, the texts of 7, 7 and 9 bytes with their lengths, two samples of 2 bytes, and a frame of 28 bytes
    // beside them.
    assert!(rt; bound(&SETTINGS, 2) == 113);
    // Three packets.
    let ogg = FlacProvedSettings { ogg: 1, ..SETTINGS };
    assert!(rt; bound(&ogg, 2) == 305);
    // 3 frames of 16 samples at most, and 5 points of 18 bytes at most in a block with a header of 4 bytes.
    let sought = FlacProvedSettings {
        bits: 24,
        block_size: 16,
        seek_every: 10,
        ..SETTINGS
    };
    assert!(rt; bound(&sought, 80) == 58 + 23 + 240 + 3 * 28 + 4 + 5 * 18);
    let zeros = FlacProvedSettings {
        channels: 0,
        block_size: 0,
        ..SETTINGS
    };
    assert!(rt; bound(&zeros, usize::MAX) == u64::MAX);
    Ok(())
}

/// The stream with a picture after STREAMINFO (RFC 9639, section 8.8): a front cover of 2 by 1 pixels of 24 bits, whose
/// media type is `image/png`, description `x` and data 1, 2, 3, 4.
const PICTURED: [u8; 107] = [
    0x66, 0x4c, 0x61, 0x43, 0x00, 0x00, 0x00, 0x22, 0x10, 0x00, 0x10, 0x00, 0x00, 0x00, 0x0f, 0x00,
    0x00, 0x0f, 0x0a, 0xc4, 0x42, 0xf0, 0x00, 0x00, 0x00, 0x01, 0x3e, 0x84, 0xb4, 0x18, 0x07, 0xdc,
    0x69, 0x03, 0x07, 0x58, 0x6a, 0x3d, 0xad, 0x1a, 0x2e, 0x0f, 0x86, 0x00, 0x00, 0x2e, 0x00, 0x00,
    0x00, 0x03, 0x00, 0x00, 0x00, 0x09, 0x69, 0x6d, 0x61, 0x67, 0x65, 0x2f, 0x70, 0x6e, 0x67, 0x00,
    0x00, 0x00, 0x01, 0x78, 0x00, 0x00, 0x00, 0x02, 0x00, 0x00, 0x00, 0x01, 0x00, 0x00, 0x00, 0x18,
    0x00, 0x00, 0x00, 0x00, 0x00, 0x00, 0x00, 0x04, 0x01, 0x02, 0x03, 0x04, 0xff, 0xf8, 0x69, 0x18,
    0x00, 0x00, 0xbf, 0x01, 0x58, 0xfd, 0x01, 0x12, 0x8b, 0x5a, 0xb2,
];

/// A block that no stream has.
fn no_block() -> FlacProvedBlock {
    let nothing = FlacProvedSpan { offset: 9, len: 9 };
    FlacProvedBlock {
        offset: 9,
        length: 9,
        parts: 9,
        kind: 9,
        last: 9,
        picture: FlacProvedPicture {
            kind: 9,
            width: 9,
            height: 9,
            depth: 9,
            colours: 9,
            media: nothing,
            text: nothing,
            bytes: nothing,
        },
    }
}

/// Where a block is, how many parts it has, its type, and whether it is the last.
fn place_of(block: &FlacProvedBlock) -> (u64, u64, u64, u32, u32) {
    (
        block.offset,
        block.length,
        block.parts,
        block.kind,
        block.last,
    )
}

#[test]
fn blocks_listed(rt: HostRuntime) -> Result<(), Fail> {
    let (mut blocks, mut len, mut fault) = ([no_block(); 3], 99, unset());
    let number = flac_proved_blocks(rt.alloc(), &TAGGED, &mut blocks[..1], &mut len, &mut fault);
    assert!(rt; (number, len, fault.number) == (0, 2, 0));
    assert!(rt;
        place_of(&blocks[0]) == (4, 34, 0, 0, 0) && place_of(&blocks[1]) == (9, 9, 9, 9, 9)
    );
    let number = flac_proved_blocks(rt.alloc(), &TAGGED[..73], &mut blocks, &mut len, &mut fault);
    assert!(rt; (number, len) == (0, 2));
    assert!(rt;
        place_of(&blocks[1]) == (42, 27, 2, 4, 1) && place_of(&blocks[2]) == (9, 9, 9, 9, 9)
    );
    let number = flac_proved_blocks(rt.alloc(), &SOUGHT, &mut blocks, &mut len, &mut fault);
    assert!(rt; (number, len) == (0, 2));
    assert!(rt; place_of(&blocks[1]) == (42, 36, 2, 3, 1) && blocks[1].picture.width == 0);
    let number = flac_proved_blocks(rt.alloc(), &SOUGHT[..81], &mut blocks, &mut len, &mut fault);
    assert!(rt; (number, fault.place, fault.index, len) == (3, 2, 1, 2));
    let number = flac_proved_blocks(rt.alloc(), b"OggS", &mut blocks, &mut len, &mut fault);
    assert!(rt; (number, fault.place, len) == (4, 1, 2));
    Ok(())
}

#[test]
fn picture_found(rt: HostRuntime) -> Result<(), Fail> {
    let (mut blocks, mut len, mut fault) = ([no_block(); 2], 99, unset());
    let number = flac_proved_blocks(rt.alloc(), &PICTURED, &mut blocks, &mut len, &mut fault);
    assert!(rt; (number, len) == (0, 2));
    assert!(rt; place_of(&blocks[1]) == (42, 46, 0, 6, 1));
    let picture = &blocks[1].picture;
    assert!(rt; (picture.kind, picture.width, picture.height) == (3, 2, 1));
    assert!(rt; (picture.depth, picture.colours) == (24, 0));
    assert!(rt; (picture.media.offset, picture.media.len) == (54, 9));
    assert!(rt; PICTURED[54..63].starts_with(b"image/png"));
    assert!(rt; (picture.text.offset, picture.text.len) == (67, 1) && PICTURED[67] == b'x');
    assert!(rt; (picture.bytes.offset, picture.bytes.len) == (88, 4));
    assert!(rt; PICTURED[88..92].starts_with(&[1, 2, 3, 4]));
    Ok(())
}

/// A stream outside the streamable subset (RFC 9639, section 7): 16 zeros of 65537 Hz and 5 bits, neither of which the
/// frame header states.
const OUTSIDE: [u8; 53] = [
    0x66, 0x4c, 0x61, 0x43, 0x80, 0x00, 0x00, 0x22, 0x00, 0x10, 0x00, 0x10, 0x00, 0x00, 0x00, 0x00,
    0x00, 0x00, 0x10, 0x00, 0x10, 0x40, 0x00, 0x00, 0x00, 0x00, 0x00, 0x00, 0x00, 0x00, 0x00, 0x00,
    0x00, 0x00, 0x00, 0x00, 0x00, 0x00, 0x00, 0x00, 0x00, 0x00, 0xff, 0xf8, 0x60, 0x00, 0x00, 0x0f,
    0xc7, 0x00, 0x00, 0x05, 0x72,
];

#[test]
fn verified_in(rt: HostRuntime) -> Result<(), Fail> {
    let mut fault = unset();
    assert!(rt; flac_proved_verify(rt.alloc(), &OUTSIDE, &mut fault) == 14);
    let number = flac_proved_verify_in(rt.alloc(), &OUTSIDE, 0, &mut fault);
    assert!(rt; (number, fault.number, fault.place, fault.index) == (14, 14, 3, 0));
    let number = flac_proved_verify_in(rt.alloc(), &OUTSIDE, 1, &mut fault);
    assert!(rt; (number, fault.number, fault.place) == (0, 0, 0));
    let cut = &OUTSIDE[..OUTSIDE.len() - 1];
    let number = flac_proved_verify_in(rt.alloc(), cut, u32::MAX, &mut fault);
    assert!(rt; (number, fault.place, fault.index) == (3, 3, 0));
    Ok(())
}

#[test]
fn decoded_in(rt: HostRuntime) -> Result<(), Fail> {
    let (mut bytes, mut len, mut fault) = ([9u8; 17], 99, unset());
    let number = flac_proved_decode_in(
        rt.alloc(),
        &OUTSIDE,
        0,
        0,
        &mut bytes,
        &mut len,
        &mut fault,
    );
    assert!(rt; (number, fault.place, len, bytes[0]) == (14, 3, 99, 9));
    let number = flac_proved_decode_in(
        rt.alloc(),
        &OUTSIDE,
        0,
        1,
        &mut bytes,
        &mut len,
        &mut fault,
    );
    assert!(rt; (number, fault.number, len) == (0, 0, 16));
    assert!(rt; bytes.starts_with(&[0; 16]) && bytes[16] == 9);
    let (mut samples, mut len) = ([9i32; 17], 99);
    let number = flac_proved_samples_in(
        rt.alloc(),
        &OUTSIDE,
        0,
        &mut samples,
        &mut len,
        &mut fault,
    );
    assert!(rt; (number, fault.place, len, samples[0]) == (14, 3, 99, 9));
    let number = flac_proved_samples_in(
        rt.alloc(),
        &OUTSIDE,
        2,
        &mut samples,
        &mut len,
        &mut fault,
    );
    assert!(rt; (number, fault.number, len) == (0, 0, 16));
    assert!(rt; samples.starts_with(&[0; 16]) && samples[16] == 9);
    Ok(())
}

#[test]
fn frame_outside(rt: HostRuntime) -> Result<(), Fail> {
    let (mut cursor, mut fault) = (nowhere(), unset());
    assert!(rt; flac_proved_start(rt.alloc(), &OUTSIDE, &mut cursor, &mut fault) == 0);
    assert!(rt; (cursor.offset, cursor.info.rate, cursor.info.bits) == (42, 65537, 5));
    let (mut samples, mut len) = ([9i32; 16], 99);
    let told = next(rt.alloc(), &OUTSIDE, &mut cursor, &mut samples);
    assert!(rt; told == (14, 99) && cursor.offset == 42);
    let number = flac_proved_next_in(
        rt.alloc(),
        &OUTSIDE,
        1,
        &mut cursor,
        &mut samples,
        &mut len,
        &mut fault,
    );
    assert!(rt; (number, len, cursor.offset, cursor.sample) == (0, 16, OUTSIDE.len() as u64, 16));
    assert!(rt; samples == [0; 16]);
    Ok(())
}

/// What encoding by options returns, the length that it reports, and the first bytes.
fn encode_by(
    alloc: Global,
    settings: &FlacProvedSettings,
    options: (u32, u32),
    samples: &[i32],
) -> (u32, usize, [u8; 200]) {
    let (mut out, mut len) = ([9u8; 200], 99);
    let options = FlacProvedOptions {
        profile: options.0,
        effort: options.1,
    };
    let number = flac_proved_encode_in(
        alloc, settings, &options, samples, &TAGS, &mut out, &mut len,
    );
    (number, len, out)
}

#[test]
fn encoded_outside(rt: HostRuntime) -> Result<(), Fail> {
    let settings = FlacProvedSettings {
        rate: 65537,
        channels: 1,
        bits: 5,
        block_size: 16,
        ..SETTINGS
    };
    let (number, len, out) = encode_by(rt.alloc(), &settings, (0, 0), &[0; 16]);
    assert!(rt; (number, len, out[0]) == (40, 99, 9));
    let (number, len, out) = encode_by(rt.alloc(), &settings, (1, 0), &[0; 16]);
    // The comments of 31 bytes are after STREAMINFO, and the frame is the same.
    assert!(rt; (number, len) == (0, OUTSIDE.len() + 31));
    assert!(rt; out[73..].starts_with(&OUTSIDE[42..]));
    let mut fault = unset();
    let written = out.get(..len).unwrap_or(&[]);
    assert!(rt; flac_proved_verify_in(rt.alloc(), written, 1, &mut fault) == 0);
    assert!(rt; len as u64 <= bound(&settings, 16));
    Ok(())
}

#[test]
fn searched(rt: HostRuntime) -> Result<(), Fail> {
    // The same bytes as without options.
    let (number, len, stream) = encode_by(rt.alloc(), &SETTINGS, (0, 0), &[25588, 10416]);
    assert!(rt; (number, len) == (0, 88));
    assert!(rt; stream.starts_with(&TAGGED));
    let settings = FlacProvedSettings {
        channels: 1,
        block_size: 64,
        ..SETTINGS
    };
    // Each sample is 3/4 of the one before less 7/8 of that before it, which no fixed predictor follows.
    let (mut samples, mut one, mut two) = ([0i32; 64], 20000i32, 3000i32);
    for i in 0..64 {
        samples[i] = one;
        let next = (one.wrapping_mul(3) / 4).wrapping_sub(two.wrapping_mul(7) / 8);
        two = one;
        one = next;
    }
    let (number, plain, _stream) = encode_by(rt.alloc(), &settings, (0, 0), &samples);
    assert!(rt; number == 0);
    for effort in [1, 2] {
        let (number, len, stream) = encode_by(rt.alloc(), &settings, (0, effort), &samples);
        assert!(rt; number == 0 && len < plain);
        let (mut back, mut count, mut fault) = ([9i32; 64], 99, unset());
        let number = flac_proved_samples(
            rt.alloc(),
            stream.get(..len).unwrap_or(&[]),
            &mut back,
            &mut count,
            &mut fault,
        );
        assert!(rt; (number, count) == (0, 64) && back == samples);
    }
    Ok(())
}
