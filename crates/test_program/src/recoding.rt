//! `flac recode` over streams in memory.

use crate::program::{bytes_of, split_row, wanted_of};
use flac_bits::{Collected, Memory, Pieces};
use flac_cli::recode_file;
use flac_jobs::{ContainerKind, Recoding, SearchEffort};
use std::alloc::Global;
use std::process::Abort;
use std::test::Fail;

/// Streams that are encoded anew: the options, `lax`, `ogg` or `16` for blocks of 16 samples; the input; the status, and
/// what is written to the file, nothing, and to standard error. The new streams are those that `encode` writes of the same
/// samples, with the blocks of the input.
const ROWS: &str =
    "# One sample of two channels, from the example of RFC 9639, appendix D.1: native, with other comments, in Ogg, and back.
 | EXAMPLE | 0 | 664c6143800000221000100000000f00000f0ac442f0000000013e84b41807dc690307586a3dad1a2e0f ONE_FRAME
 | ONE_INFO TITLE_X ONE_FRAME | 0 | ONE_INFO TITLE_X ONE_FRAME
ogg | EXAMPLE | 0 | MAPPING COMMENT FRAME
 | MAPPING COMMENT FRAME | 0 | ONE_INFO 840000080000000000000000 ONE_FRAME
ogg | MAPPING COMMENT FRAME | 0 | MAPPING COMMENT FRAME
# A seek table is left out, and padding and an application stay, in their order.
 | ONE_INFO 03000012 00*16 0001 01000002 0000 82000005 6162636401 ONE_FRAME | 0 | ONE_INFO 01000002 0000 82000005 6162636401 ONE_FRAME
# In Ogg the comments come before padding.
ogg | ONE_INFO 01000002 0000 840000080000000000000000 ONE_FRAME | 0 | 4f676753000200000000000000000100000000000000b10f79b901337f464c414301000002664c6143000000221000100000000f00000f0ac442f0000000013e84b41807dc690307586a3dad1a2e0f 4f676753000000000000000000000100000001000000b974c4f7010c040000080000000000000000 4f676753000000000000000000000100000002000000f9cbd5af0106810000020000 4f676753000401000000000000000100000003000000fcd3a3d2010ffff869180000bf0158fd01128b5ab2
# Outside the streamable subset.
lax 16 | LAX COMMENTS LAX_FRAME | 0 | LAX COMMENTS LAX_FRAME
16 | LAX COMMENTS LAX_FRAME | 1 |  |  | flac: a.flac: 40 BadRate;
# Blocks that the subset does not have, at either end.
lax | LAX COMMENTS 00*4 | 1 |  |  | flac: a.flac: frame 0: 12 BadSync;
# Streams that are refused.
 | 00112233 | 1 |  |  | flac: a.flac: marker: 4 BadMarker;
 | EXAMPLE 00 | 1 |  |  | flac: a.flac: frame 1: 3 Truncated;
ogg | EXAMPLE 0000 | 1 |  |  | flac: a.flac: frame 1: 12 BadSync;
 | MAPPING COMMENT OPEN_FRAME | 1 |  |  | flac: a.flac: end: 36 NoEndPage;";

/// Encodes a stream anew, as a row says.
fn recoding_of(options: &str) -> Recoding<'static> {
    Recoding {
        input: "a.flac",
        output: "b.flac",
        block: if options.contains("16") { 16 } else { 4096 },
        seek_every: 0,
        container: if options.contains("ogg") {
            ContainerKind::Ogg { serial: 1 }
        } else {
            ContainerKind::Native
        },
        lax: options.contains("lax"),
        predictors: None,
        effort: SearchEffort::None,
        force: false,
    }
}

/// Whether a row holds, on an input that comes in pieces of at most `most` bytes.
fn row_holds(alloc: Global, row: &str, most: usize) -> Result<bool, Fail> {
    let (options, rest) = split_row(row);
    let (words, answer) = split_row(rest);
    let input = bytes_of(alloc, words)?;
    let wanted = wanted_of(alloc, answer)?;
    let recoding = recoding_of(options);
    let mut source = Pieces::new(Memory::new(&input), most.max(1));
    let mut file = Collected::new(alloc);
    let mut err = Collected::new(alloc);
    let status = recode_file(alloc, &recoding, &[], &mut source, &mut file, &mut err);
    Ok(
        status == wanted.status
            && file.bytes() == wanted.file.as_slice()
            && err.bytes() == wanted.err.as_slice(),
    )
}

#[test]
fn recoded(rt: HostRuntime) -> Result<(), Fail> {
    for row in ROWS.lines() {
        if !row.starts_with('#') {
            for most in [1, 4096] {
                assert!(rt; row_holds(rt.alloc(), row, most)?, "{row}");
            }
        }
    }
    Ok(())
}
