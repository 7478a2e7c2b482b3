//! `flac recode --copy`, and `tag`, `edit` and `export` of Ogg streams, over streams in memory.

use crate::program::{bytes_of, split_row, wanted_of};
use flac_bits::{Collected, Memory, Pieces};
use flac_cli::{
    EditPaths, Paths, copy_file, edit_ogg, export_ogg, ogg_comments_change, ogg_edits_change,
    retag_ogg,
};
use flac_edit::{BlockEdits, Edit};
use flac_jobs::{ContainerKind, ExportPart, Exporting, StreamCopy};
use std::alloc::Global;
use std::test::Fail;

/// What is done: a copy to a `native` or an `ogg` stream; `tag` sets TITLE=x; `edit` puts in 2 bytes of padding; `tags` and
/// `picture` are exported. Then the input; the status, and what is written to the file, nothing, and to standard error. The
/// pages are those of the model of the format in Python.
const ROWS: &str =
    "# A stream of one sample, the frame of the example of RFC 9639, appendix D.1: its frame is kept.
native | 664c6143800000221000100000000f00000f0ac442f0000000013e84b41807dc690307586a3dad1a2e0f ONE_FRAME | 0 | 664c6143800000221000100000000f00000f0ac442f0000000013e84b41807dc690307586a3dad1a2e0f ONE_FRAME
native | MAPPING COMMENT FRAME | 0 | ONE_INFO 840000080000000000000000 ONE_FRAME
ogg | 664c6143800000221000100000000f00000f0ac442f0000000013e84b41807dc690307586a3dad1a2e0f ONE_FRAME | 0 | MAPPING COMMENT FRAME
ogg | MAPPING COMMENT FRAME | 0 | MAPPING COMMENT FRAME
# A seek table is left out in Ogg alone.
native | ONE_INFO 03000012 00*16 0001 82000005 6162636401 ONE_FRAME | 0 | ONE_INFO 03000012 00*16 0001 82000005 6162636401 ONE_FRAME
ogg | ONE_INFO 83000012 00*16 0001 ONE_FRAME | 0 | MAPPING COMMENT FRAME
# In Ogg the comments come before padding.
ogg | ONE_INFO 01000002 0000 840000080000000000000000 ONE_FRAME | 0 | PADDED
# Outside the streamable subset.
native | LAX COMMENTS LAX_FRAME | 0 | LAX COMMENTS LAX_FRAME
# Comments and padding of an Ogg stream.
tag | MAPPING COMMENT FRAME | 0 | MAPPING TITLED FRAME
tag | MAPPING TITLED FRAME | 0 | MAPPING TITLED FRAME
edit | MAPPING COMMENT FRAME | 0 | PADDED
edit | PADDED | 0 | PADDED
tags | MAPPING TITLED FRAME | 0 | 5449544c453d780a
tags | MAPPING COMMENT OPEN_FRAME | 0 | 
picture | MAPPING COMMENT FRAME | 1 |  |  | flac: a.oga: 59 NoPicture;
# Streams that are refused.
native | 00112233 | 1 |  |  | flac: a.oga: marker: 4 BadMarker;
native | 664c6143800000221000100000000f00000f0ac442f0000000013e84b41807dc690307586a3dad1a2e0f ONE_FRAME 00 | 1 | 664c6143800000221000100000000f00000f0ac442f0000000013e84b41807dc690307586a3dad1a2e0f ONE_FRAME |  | flac: a.oga: frame 1: 3 Truncated;
native | MAPPING COMMENT OPEN_FRAME | 1 | ONE_INFO 840000080000000000000000 ONE_FRAME |  | flac: a.oga: end: 36 NoEndPage;
tag | MAPPING COMMENT OPEN_FRAME | 1 | MAPPING TITLED |  | flac: a.oga: end: 36 NoEndPage;
tag | 4f676753 00*60 | 1 |  |  | flac: a.oga: page 0: 32 PageCheck;
edit | 4f676753 00*60 | 1 |  |  | flac: a.oga: page 0: 32 PageCheck;
tags | 4f676753 00*60 | 1 |  |  | flac: a.oga: page 0: 32 PageCheck;";

/// The second page with the comment TITLE=x.
const TITLED: &str =
    "4f676753000000000000000000000100000001000000de2e3f6a0117840000130000000001000000070000005449544c453d78";

/// The stream with 2 bytes of padding.
const PADDED: &str =
    "4f676753000200000000000000000100000000000000b10f79b901337f464c414301000002664c6143000000221000100000000f00000f0ac442\
    f0000000013e84b41807dc690307586a3dad1a2e0f4f676753000000000000000000000100000001000000b974c4f7010c040000080000000000\
    0000004f676753000000000000000000000100000002000000f9cbd5af01068100000200004f67675300040100000000000000010000000300\
    0000fcd3a3d2010ffff869180000bf0158fd01128b5ab2";

/// The edits of `tag`.
const EDITS: [Edit<'static>; 1] = [Edit::Set(b"TITLE", b"x")];

/// The edits of `edit`.
fn padding() -> BlockEdits<'static> {
    BlockEdits {
        removals: &[],
        cue: None,
        points: None,
        pictures: &[],
        padding: Some(2),
    }
}

/// The same stream, and the file that it is tagged to.
const TAGGED: Paths<'static> = Paths {
    input: "a.oga",
    output: "b.oga",
};

const PATHS: EditPaths<'static> = EditPaths {
    stream: "a.oga",
    sheet: None,
};

/// A row's words, with the pages of this module for their names.
fn with_pages(alloc: Global, row: &str) -> Result<String, Fail> {
    let row = row.replace(alloc, "TITLED", TITLED)?;
    Ok(row.replace(alloc, "PADDED", PADDED)?)
}

/// The copy of a stream to one of a container.
fn copied(
    alloc: Global,
    container: ContainerKind,
    source: Pieces<Memory<'_>>,
    file: &mut Collected,
    err: &mut Collected,
) -> u8 {
    let copy = StreamCopy {
        input: "a.oga",
        output: "b.oga",
        container,
        force: false,
    };
    copy_file(alloc, &copy, source, file, err)
}

/// The export of a part.
fn exported(
    alloc: Global,
    part: ExportPart,
    source: Pieces<Memory<'_>>,
    file: &mut Collected,
    err: &mut Collected,
) -> u8 {
    let exporting = Exporting {
        input: "a.oga",
        part: Some(part),
        output: "b",
        force: false,
    };
    export_ogg(alloc, &exporting, part, source, file, err)
}

/// What a command comes to.
fn done(
    alloc: Global,
    command: &str,
    source: Pieces<Memory<'_>>,
    file: &mut Collected,
    err: &mut Collected,
) -> u8 {
    match command {
        "native" => copied(alloc, ContainerKind::Native, source, file, err),
        "ogg" => copied(alloc, ContainerKind::Ogg { serial: 1 }, source, file, err),
        "tag" => retag_ogg(alloc, &TAGGED, &EDITS, source, file, err),
        "edit" => edit_ogg(alloc, &PATHS, &padding(), source, file, err),
        "tags" => exported(alloc, ExportPart::Tags, source, file, err),
        _ => exported(alloc, ExportPart::Picture, source, file, err),
    }
}

/// Whether a row holds, on an input that comes in pieces of at most `most` bytes.
fn row_holds(alloc: Global, row: &str, most: usize) -> Result<bool, Fail> {
    let (command, rest) = split_row(row);
    let (words, answer) = split_row(rest);
    let input = bytes_of(alloc, words)?;
    let wanted = wanted_of(alloc, answer)?;
    let source = Pieces::new(Memory::new(&input), most.max(1));
    let mut file = Collected::new(alloc);
    let mut err = Collected::new(alloc);
    let status = done(alloc, command, source, &mut file, &mut err);
    Ok(
        status == wanted.status
            && file.bytes() == wanted.file.as_slice()
            && err.bytes() == wanted.err.as_slice(),
    )
}

#[test]
fn copied_and_edited(rt: HostRuntime) -> Result<(), Fail> {
    let rows = with_pages(rt.alloc(), ROWS)?;
    for row in rows.lines() {
        if !row.starts_with('#') {
            for most in [1, 4096] {
                assert!(rt; row_holds(rt.alloc(), row, most)?, "{row}");
            }
        }
    }
    Ok(())
}

/// Whether edits change a stream: whether they do, and what is written to standard error.
fn changes(alloc: Global, command: &str, words: &str) -> Result<(Option<bool>, Vec<u8>), Fail> {
    let words = with_pages(alloc, words)?;
    let input = bytes_of(alloc, &words)?;
    let mut err = Collected::new(alloc);
    let source = Memory::new(&input);
    let found = if command == "tag" {
        ogg_comments_change(alloc, "a.oga", &EDITS, source, &mut err)
    } else {
        ogg_edits_change(alloc, &PATHS, &padding(), source, &mut err)
    };
    Ok((found, err.into_bytes()))
}

#[test]
fn what_changes(rt: HostRuntime) -> Result<(), Fail> {
    let rows = [
        ("tag", "MAPPING COMMENT FRAME", Some(true)),
        ("tag", "MAPPING TITLED FRAME", Some(false)),
        ("edit", "MAPPING COMMENT FRAME", Some(true)),
        ("edit", "PADDED", Some(false)),
        ("tag", "4f676753 00*60", None),
        ("edit", "4f676753 00*60", None),
    ];
    for (command, words, due) in rows {
        let (found, err) = changes(rt.alloc(), command, words)?;
        let line = b"flac: a.oga: page 0: 32 PageCheck\n";
        let is_told = err.as_slice() == (if due.is_none() { line.as_slice() } else { b"" });
        assert!(rt; found == due && is_told, "{command} {words}");
    }
    Ok(())
}
