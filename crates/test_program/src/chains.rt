//! Ogg streams one after another in memory: `flac test --any` and `flac decode --any`.

use crate::program::{bytes_of, split_row, wanted_of};
use flac_bits::{Collected, Memory, Pieces};
use flac_cli::{ChainDone, ChainPaths, decode_chain_samples, test_chain};
use std::alloc::Global;
use std::process::Abort;
use std::test::Fail;

/// A stream that the reference encoder made of one sample, 0102, at 48000 Hz in one channel of 16 bits.
const MONO: &str =
    "4f6767530002000000000000000007000000000000000f315a5701337f464c414301000001664c6143000000221000100000000c00000c0bb800f0000000010cb988d042a7f28dd5fe2b55b3f5ac7a4f6767530000000000000000000007000000010000007679f160012c84000028200000007265666572656e6365206c6962464c414320312e342e32203230323231303232000000004f6767530004010000000000000007000000020000006c396699010cfff86a08000027020201540a";

/// Rows: the job, and `mono` if a stream of another format comes after the input; the input; the status, and what is written
/// to the file, to standard output and to standard error. The stream of MAPPING, COMMENT and FRAME has one sample of two
/// channels.
const ROWS: &str = "# One, two and three streams; a native one alone.
test | MAPPING COMMENT FRAME | 0 |  | frames 1 samples 1;
test | MAPPING COMMENT FRAME MAPPING COMMENT FRAME | 0 |  | frames 2 samples 2;
test | MAPPING COMMENT FRAME MAPPING COMMENT FRAME MAPPING COMMENT FRAME | 0 |  | frames 3 samples 3;
test | EXAMPLE | 0 |  | frames 1 samples 1;
decode | MAPPING COMMENT FRAME | 0 | f463b028
decode | MAPPING COMMENT FRAME MAPPING COMMENT FRAME | 0 | f463b028f463b028
decode | EXAMPLE | 0 | f463b028
# Another format.
test mono | MAPPING COMMENT FRAME | 0 |  | frames 2 samples 2;
decode mono | MAPPING COMMENT FRAME | 1 | f463b028 |  | flac: a.oga: stream 2: 95 OtherFormat;
decode mono |  | 0 | 0102
# Bytes that begin no page, a native stream, a stream that is cut, and one that is damaged.
test | MAPPING COMMENT FRAME 00 | 1 |  |  | flac: a.oga: stream 2: page 0: 31 BadPage;
decode | MAPPING COMMENT FRAME MAPPING COMMENT FRAME 00 | 1 | f463b028f463b028 |  | flac: a.oga: stream 3: page 0: 31 BadPage;
decode | MAPPING COMMENT FRAME EXAMPLE | 1 | f463b028 |  | flac: a.oga: stream 2: page 0: 31 BadPage;
test | MAPPING COMMENT FRAME MAPPING COMMENT | 1 |  |  | flac: a.oga: stream 2: end: 36 NoEndPage;
decode | MAPPING COMMENT FRAME MAPPING COMMENT | 1 | f463b028 |  | flac: a.oga: stream 2: end: 36 NoEndPage;
test mono | MAPPING COMMENT | 1 |  |  | flac: a.oga: page 2: 34 OtherStream;
# No stream.
test |  | 1 |  |  | flac: a.oga: marker: 3 Truncated;
decode | 00112233 | 1 |  |  | flac: a.oga: marker: 4 BadMarker;";

/// Whether a row holds, on an input that comes in pieces of at most `most` bytes.
fn row_holds(alloc: Global, row: &str, most: usize) -> Result<bool, Fail> {
    let (job, rest) = split_row(row);
    let (pieces, answer) = split_row(rest);
    let mut input = bytes_of(alloc, pieces)?;
    if job.ends_with(" mono") {
        let mono = bytes_of(alloc, MONO)?;
        input.extend_from_slice(&mono)?;
    }
    let wanted = wanted_of(alloc, answer)?;
    let source = Pieces::new(Memory::new(&input), most.max(1));
    let mut file = Collected::new(alloc);
    let mut out = Collected::new(alloc);
    let mut err = Collected::new(alloc);
    let ChainDone { source: _, status } = if job.starts_with("test") {
        test_chain(alloc, "a.oga", source, false, &mut out, &mut err)
    } else {
        let paths = ChainPaths {
            input: "a.oga",
            output: "b.raw",
        };
        decode_chain_samples(alloc, &paths, source, false, &mut file, &mut err)
    };
    Ok(
        status == wanted.status
            && file.bytes() == wanted.file.as_slice()
            && out.bytes() == wanted.out.as_slice()
            && err.bytes() == wanted.err.as_slice(),
    )
}

#[test]
fn streams_one_after_another(rt: HostRuntime) -> Result<(), Fail> {
    for row in ROWS.lines() {
        if !row.starts_with('#') {
            for most in [1, 4096] {
                assert!(rt; row_holds(rt.alloc(), row, most)?, "{row}");
            }
        }
    }
    Ok(())
}
