//! `flac salvage` over streams in memory.

use crate::program::{bytes_of, split_row, wanted_of};
use flac_bits::{Collected, Memory, Pieces};
use flac_cli::salvage_file;
use flac_jobs::{Filling, Salvage};
use std::alloc::Global;
use std::process::Abort;
use std::test::Fail;

/// Streams of which is saved what is left: the options, `gap` or `lax`; the input; the status, and what is written to the
/// file, nothing, and to standard error.
const ROWS: &str =
    "# One sample of two channels, from the example of RFC 9639, appendix D.1: whole, after bytes that are no frame, and lost.
 | ONE_INFO TITLE_X ONE_FRAME | 0 | ONE_INFO TITLE_X ONE_FRAME
gap | ONE_INFO TITLE_X ONE_FRAME | 0 | ONE_INFO TITLE_X ONE_FRAME
 | ONE_INFO TITLE_X FF00 ONE_FRAME | 0 | ONE_INFO TITLE_X ONE_FRAME |  | flac: a.flac: bytes 79 to 80: no frame, no sample is missing;flac: a.flac: found 1 of 1 samples in 1 frames;
# A seek table is left out.
 | ONE_INFO 03000012 00*16 0001 82000005 6162636401 ONE_FRAME | 0 | ONE_INFO 82000005 6162636401 ONE_FRAME
# The total is too much silence.
 | 664c614380000022100010000000000000000ac442f04000000100000000000000000000000000000000 | 1 |  |  | flac: a.flac: 45 TooLong;
# Between tags, whose bytes count.
 | 49443303000000000000 ONE_INFO TITLE_X ONE_FRAME 544147 00*125 | 0 | ONE_INFO TITLE_X ONE_FRAME
 | 49443303000000000000 ONE_INFO TITLE_X FF00 ONE_FRAME | 0 | ONE_INFO TITLE_X ONE_FRAME |  | flac: a.flac: bytes 89 to 90: no frame, no sample is missing;flac: a.flac: found 1 of 1 samples in 1 frames;
# In Ogg: whole, between other bytes, with a damaged page in which a frame is whole, and without its first page.
 | MAPPING COMMENT FRAME | 0 | ONE_INFO 840000080000000000000000 ONE_FRAME
gap | 4f67 MAPPING COMMENT 00112233 FRAME | 0 | ONE_INFO 840000080000000000000000 ONE_FRAME |  | flac: a.flac: bytes 121 to 152: no frame, no sample is missing;flac: a.flac: found 1 of 1 samples in 1 frames;
 | MAPPING COMMENT 4f67675300040100000000000000010000000200000048872f1f010ffff869180000bf0158fd01128b5ab2 FRAME | 0 | ONE_INFO 840000080000000000000000 ONE_FRAME |  | flac: a.flac: bytes 119 to 146: no frame, no sample is missing;flac: a.flac: bytes 162 to 204: no frame, no sample is missing;flac: a.flac: frame at byte 190: out of order, 1 samples from 0;flac: a.flac: found 1 of 1 samples in 1 frames;
 | COMMENT FRAME | 1 |  |  | flac: a.flac: marker: 4 BadMarker;
# Streams that are refused: no marker, and a block that is cut off.
 | 00112233 | 1 |  |  | flac: a.flac: marker: 4 BadMarker;
 | 664c6143800000221000 | 1 |  |  | flac: a.flac: block 0: 3 Truncated;";

/// Whether a row holds, on an input that comes in pieces of at most `most` bytes.
fn row_holds(alloc: Global, row: &str, most: usize) -> Result<bool, Fail> {
    let (options, rest) = split_row(row);
    let (words, answer) = split_row(rest);
    let input = bytes_of(alloc, words)?;
    let wanted = wanted_of(alloc, answer)?;
    let salvage = Salvage {
        input: "a.flac",
        output: "b.flac",
        filling: if options.contains("gap") {
            Filling::Nothing
        } else {
            Filling::Silence
        },
        lax: options.contains("lax"),
        force: false,
    };
    let mut source = Pieces::new(Memory::new(&input), most.max(1));
    let mut file = Collected::new(alloc);
    let mut err = Collected::new(alloc);
    let status = salvage_file(alloc, &salvage, &mut source, &mut file, &mut err);
    Ok(
        status == wanted.status
            && file.bytes() == wanted.file.as_slice()
            && err.bytes() == wanted.err.as_slice(),
    )
}

#[test]
fn salvaged(rt: HostRuntime) -> Result<(), Fail> {
    for row in ROWS.lines() {
        if !row.starts_with('#') {
            for most in [1, 4096] {
                assert!(rt; row_holds(rt.alloc(), row, most)?, "{row}");
            }
        }
    }
    Ok(())
}
