//! The blocks of streams are listed, and no frame is read.

use crate::program::{Outcome, bytes_of, split_row, wanted_of};
use crate::tables::{HEADS, LISTS};
use flac_bits::{Collected, Memory, Pieces};
use flac_cli::{ListedFile, list_head};
use std::alloc::Global;
use std::test::Fail;

/// What comes of listing the blocks of these bytes, of which at most `most` come at once.
fn head_of(alloc: Global, input: &[u8], most: usize) -> Outcome {
    let mut source = Pieces::new(Memory::new(input), most.max(1));
    let mut out = Collected::new(alloc);
    let mut err = Collected::new(alloc);
    let path = "a.flac";
    let file = ListedFile { path, names: &[] };
    let status = list_head(alloc, &file, &mut source, &mut out, &mut err);
    Outcome {
        status,
        file: Vec::new(alloc),
        out: out.into_bytes(),
        err: err.into_bytes(),
    }
}

/// Whether these bytes, in pieces of 1, 3 and 4096, come to what is wanted.
fn heads_are(alloc: Global, input: &[u8], wanted: &Outcome) -> bool {
    let mut same = true;
    for most in [1, 3, 4096] {
        same = same && head_of(alloc, input, most).equals(wanted);
    }
    same
}

/// Whether the stream of a row, and the same with other bytes after its blocks, comes to what the row wants.
fn row_holds(alloc: Global, row: &str, others: &str) -> Result<bool, Fail> {
    let (words, answer) = split_row(row);
    let wanted = wanted_of(alloc, answer)?;
    let mut input = bytes_of(alloc, words)?;
    let whole = heads_are(alloc, &input, &wanted);
    input.extend_from_slice(&bytes_of(alloc, others)?)?;
    Ok(whole && heads_are(alloc, &input, &wanted))
}

/// Streams without frames are listed as `list` has them, also if their frames are none.
#[test]
fn heads_of_lists(rt: HostRuntime) -> Result<(), Fail> {
    for row in LISTS.lines() {
        if !row.starts_with('#') {
            let (_, rest) = split_row(row);
            assert!(rt; row_holds(rt.alloc(), rest, "fff8ff")?, "{row}");
        }
    }
    Ok(())
}

/// Frames that are damaged or missing, and blocks that are refused.
#[test]
fn heads(rt: HostRuntime) -> Result<(), Fail> {
    for row in HEADS.lines() {
        if !row.starts_with('#') {
            assert!(rt; row_holds(rt.alloc(), row, "")?, "{row}");
        }
    }
    Ok(())
}
