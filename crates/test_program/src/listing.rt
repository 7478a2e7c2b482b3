//! `flac list` of some blocks, and as lines of JSON, over streams in memory.

use crate::program::{Outcome, bytes_of, split_row, wanted_of, words_of};
use crate::same::Full;
use crate::tables::LISTINGS;
use flac_bits::{Collected, Counted, Memory, Pieces, Source, Target};
use flac_cli::{ListedFile, json_head, json_stream, list_head, list_stream};
use flac_jobs::{Listing, Request};
use flac_words::request;
use std::alloc::Global;
use std::test::Fail;
use test_vectors::EXAMPLE;

/// Lists a stream, with what is written to standard error in memory. Returns the status.
fn list_on<R: Source, O: Target>(
    alloc: Global,
    listing: &Listing<'_>,
    source: &mut R,
    out: &mut O,
    err: &mut Collected,
) -> u8 {
    let names = match &listing.blocks {
        Some(names) => names.as_slice(),
        None => &[],
    };
    let path = "a.flac";
    let file = ListedFile { path, names };
    match (listing.json, listing.head) {
        (true, true) => json_head(alloc, &file, source, out, err),
        (true, false) => json_stream(alloc, &file, listing.lax, source, out, err),
        (false, true) => list_head(alloc, &file, source, out, err),
        (false, false) => list_stream(alloc, &file, listing.lax, source, out, err),
    }
}

/// What comes of a listing of these bytes, of which at most `most` come at once.
fn listed(alloc: Global, listing: &Listing<'_>, input: &[u8], most: usize) -> Outcome {
    let mut source = Pieces::new(Memory::new(input), most.max(1));
    let mut out = Collected::new(alloc);
    let mut err = Collected::new(alloc);
    let status = list_on(alloc, listing, &mut source, &mut out, &mut err);
    Outcome {
        status,
        file: Vec::new(alloc),
        out: out.into_bytes(),
        err: err.into_bytes(),
    }
}

/// Whether the listing of a command line comes to what is wanted, on an input in pieces of 1, 3 and 4096 bytes.
fn comes_to(alloc: Global, line: &str, input: &[u8], wanted: &Outcome) -> Result<bool, Fail> {
    let words = words_of(alloc, line)?;
    let mut same = false;
    if let Ok(Request::ListFiles(listing)) = request(alloc, words.as_slice()) {
        same = true;
        for most in [1, 3, 4096] {
            same = same && listed(alloc, &listing, input, most).equals(wanted);
        }
    }
    Ok(same)
}

/// Whether the command of a row comes to what the row wants.
fn row_holds(alloc: Global, row: &str) -> Result<bool, Fail> {
    let (command, rest) = split_row(row);
    let (words, answer) = split_row(rest);
    let line = format!(in alloc; "flac {command}")?;
    let input = bytes_of(alloc, words)?;
    let wanted = wanted_of(alloc, answer)?;
    comes_to(alloc, &line, &input, &wanted)
}

#[test]
fn listings(rt: HostRuntime) -> Result<(), Fail> {
    for row in LISTINGS.lines() {
        if !row.starts_with('#') {
            assert!(rt; row_holds(rt.alloc(), row)?, "{row}");
        }
    }
    Ok(())
}

/// The status and the line of listing a stream as JSON if standard output takes nothing.
fn list_to_full(alloc: Global, head: bool, input: &[u8], err: &mut Collected) -> u8 {
    let mut source = Memory::new(input);
    let mut out = Counted::new(Full);
    let path = "a.flac";
    let file = ListedFile { path, names: &[] };
    if head {
        json_head(alloc, &file, &mut source, &mut out, err)
    } else {
        json_stream(alloc, &file, false, &mut source, &mut out, err)
    }
}

#[test]
fn lines_that_are_not_taken(rt: HostRuntime) -> Result<(), Fail> {
    let input = bytes_of(rt.alloc(), EXAMPLE)?;
    for head in [false, true] {
        let mut err = Collected::new(rt.alloc());
        let status = list_to_full(rt.alloc(), head, &input, &mut err);
        assert!(rt; status == 1 && err.bytes() == b"flac: a.flac: 39 Write\n".as_slice());
    }
    Ok(())
}
