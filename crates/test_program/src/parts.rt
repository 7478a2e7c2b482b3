//! `flac decode` of a part of a stream in memory.

use crate::program::{bytes_of, split_row, wanted_of};
use flac_bits::{Collected, Memory, Pieces};
use flac_cli::decode_excerpt;
use flac_jobs::{Excerpt, Moment};
use std::alloc::Global;
use std::process::Abort;
use std::test::Fail;

/// Parts that are decoded: where they begin and end, a sample's number, `t` and nanoseconds, or `-` for the end of the
/// stream, `lax` or `wav` before them; the input; the status, and what is written to the file, nothing, and to standard error. The samples
/// are those that the reference encoder was given.
const ROWS: &str =
    "# A frame, the second one, over the end of a frame, a sample, all, and up to the end.
0 16 | PART_INFO PART_0 PART_1 PART_2 | 0 | 0000f3fff4ff03002000af00e80003005800bb006400e3004400df005c004b00
16 32 | PART_INFO PART_0 PART_1 PART_2 | 0 | 1001b7006c002f006400430030002b003400af00d400dbff1c006b0000006b00
10 20 | PART_INFO PART_0 PART_1 PART_2 | 0 | 6400e3004400df005c004b001001b7006c002f00
15 17 | PART_INFO PART_0 PART_1 PART_2 | 0 | 4b001001
47 48 | PART_INFO PART_0 PART_1 PART_2 | 0 | 7b00
0 48 | PART_INFO PART_0 PART_1 PART_2 | 0 | 0000f3fff4ff03002000af00e80003005800bb006400e3004400df005c004b001001b7006c002f006400430030002b003400af00d400dbff1c006b0000006b00e4003f00d400af003400f3009400430064002f000800efffe4ff4b005c007b00
5 - | PART_INFO PART_0 PART_1 PART_2 | 0 | af00e80003005800bb006400e3004400df005c004b001001b7006c002f006400430030002b003400af00d400dbff1c006b0000006b00e4003f00d400af003400f3009400430064002f000800efffe4ff4b005c007b00
# From a time on, in nanoseconds, rounded down to a sample.
t226758 t453515 | PART_INFO PART_0 PART_1 PART_2 | 0 | 6400e3004400df005c004b001001b7006c002f00
t226757 12 | PART_INFO PART_0 PART_1 PART_2 | 0 | bb006400e300
# No sample; after the last one, with and without their number in STREAMINFO.
10 10 | PART_INFO PART_0 PART_1 PART_2 | 1 |  |  | flac: a.flac: 73 EmptyRange;
11 10 | PART_INFO PART_0 PART_1 PART_2 | 1 |  |  | flac: a.flac: 73 EmptyRange;
50 49 | PART_INFO PART_0 PART_1 PART_2 | 1 |  |  | flac: a.flac: 73 EmptyRange;
0 49 | PART_INFO PART_0 PART_1 PART_2 | 1 |  |  | flac: a.flac: 74 RangeEnd;
49 - | PART_INFO PART_0 PART_1 PART_2 | 1 |  |  | flac: a.flac: 74 RangeEnd;
48 - | PART_INFO PART_0 PART_1 PART_2 | 1 |  |  | flac: a.flac: 74 RangeEnd;
60 70 | PART_INFO PART_0 PART_1 PART_2 | 1 |  |  | flac: a.flac: 74 RangeEnd;
40 48 | PART_OPEN PART_0 PART_1 PART_2 | 0 | 64002f000800efffe4ff4b005c007b00
33 - | PART_OPEN PART_0 PART_1 PART_2 | 0 | 3f00d400af003400f3009400430064002f000800efffe4ff4b005c007b00
40 49 | PART_OPEN PART_0 PART_1 PART_2 | 1 | 64002f000800efffe4ff4b005c007b00 |  | flac: a.flac: 74 RangeEnd;
49 - | PART_OPEN PART_0 PART_1 PART_2 | 1 |  |  | flac: a.flac: 74 RangeEnd;
48 - | PART_OPEN PART_0 PART_1 PART_2 | 1 |  |  | flac: a.flac: 74 RangeEnd;
49 50 | PART_OPEN PART_0 PART_1 PART_2 | 1 |  |  | flac: a.flac: 74 RangeEnd;
# A frame that is damaged, or not there, after the part and in it.
20 32 | PART_INFO PART_0 PART_1 PART_BAD | 0 | 6400430030002b003400af00d400dbff1c006b0000006b00
20 33 | PART_INFO PART_0 PART_1 PART_BAD | 1 | 6400430030002b003400af00d400dbff1c006b0000006b00 |  | flac: a.flac: frame 2: 26 FrameCheck;
20 - | PART_INFO PART_0 PART_1 PART_BAD | 1 | 6400430030002b003400af00d400dbff1c006b0000006b00 |  | flac: a.flac: frame 2: 26 FrameCheck;
20 32 | PART_INFO PART_0 PART_1 | 0 | 6400430030002b003400af00d400dbff1c006b0000006b00
20 33 | PART_INFO PART_0 PART_1 | 1 | 6400430030002b003400af00d400dbff1c006b0000006b00 |  | flac: a.flac: end: 28 TotalMismatch;
# A damaged frame before the part; streams that are none; one outside the streamable subset; Ogg.
40 48 | PART_INFO PART_0 PART_1_BAD PART_2 | 1 |  |  | flac: a.flac: frame 1: 26 FrameCheck;
0 0 | PART_INFO PART_0 PART_1_BAD | 1 |  |  | flac: a.flac: 73 EmptyRange;
0 1 | 00112233 | 1 |  |  | flac: a.flac: marker: 4 BadMarker;
0 1 | EXAMPLE | 0 | f463b028
0 1 | MAPPING COMMENT FRAME | 0 | f463b028
0 1 | LAX COMMENTS LAX_FRAME | 1 |  |  | flac: a.flac: frame 0: 14 NotSubset;
lax 3 7 | LAX COMMENTS LAX_FRAME | 0 | 00*4
# WAV files, of a known length and of none.
wav 15 18 | PART_INFO PART_0 PART_1 PART_2 | 0 | 524946462a00000057415645666d7420100000000100010044ac0000885801000200100064617461060000004b001001b700
wav 40 - | PART_INFO PART_0 PART_1 PART_2 | 0 | 524946463400000057415645666d7420100000000100010044ac00008858010002001000646174611000000064002f000800efffe4ff4b005c007b00
wav 15 17 | PART_OPEN PART_0 PART_1 PART_2 | 0 | 524946462800000057415645666d7420100000000100010044ac0000885801000200100064617461040000004b001001
wav 46 - | PART_OPEN PART_0 PART_1 PART_2 | 0 | 52494646ffffffff57415645666d7420100000000100010044ac0000885801000200100064617461ffffffff5c007b00
wav 9 9 | PART_INFO PART_0 PART_1 PART_2 | 1 |  |  | flac: a.flac: 73 EmptyRange;";

/// A point of a row; `None` at the end of the stream.
fn moment_of(word: &str) -> Option<Moment> {
    match word.strip_prefix('t') {
        Some(time) => time.parse().ok().map(Moment::Time),
        None => word.parse().ok().map(Moment::Sample),
    }
}

/// The part of a row.
fn excerpt_of(words: &str) -> Excerpt<'static> {
    let lax = words.starts_with("lax ");
    let words = words.strip_prefix("lax ").unwrap_or(words);
    let wave = words.starts_with("wav ");
    let words = words.strip_prefix("wav ").unwrap_or(words);
    let (from, to) = words.split_once(' ').unwrap_or((words, "-"));
    Excerpt {
        input: "a.flac",
        output: "b.raw",
        from: moment_of(from).unwrap_or(Moment::Sample(0)),
        to: moment_of(to),
        wave,
        lax,
        any: false,
        force: false,
    }
}

/// Whether a row holds, on an input that comes in pieces of at most `most` bytes.
fn row_holds(alloc: Global, row: &str, most: usize) -> Result<bool, Fail> {
    let (words, rest) = split_row(row);
    let (pieces, answer) = split_row(rest);
    let input = bytes_of(alloc, pieces)?;
    let wanted = wanted_of(alloc, answer)?;
    let excerpt = excerpt_of(words);
    let mut source = Pieces::new(Memory::new(&input), most.max(1));
    let mut file = Collected::new(alloc);
    let mut err = Collected::new(alloc);
    let status = decode_excerpt(alloc, &excerpt, &mut source, &mut file, &mut err);
    Ok(
        status == wanted.status
            && file.bytes() == wanted.file.as_slice()
            && err.bytes() == wanted.err.as_slice(),
    )
}

#[test]
fn parts_of_streams(rt: HostRuntime) -> Result<(), Fail> {
    for row in ROWS.lines() {
        if !row.starts_with('#') {
            for most in [1, 4096] {
                assert!(rt; row_holds(rt.alloc(), row, most)?, "{row}");
            }
        }
    }
    Ok(())
}
