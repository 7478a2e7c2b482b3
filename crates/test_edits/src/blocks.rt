//! Edited metadata blocks in a new file, and parts that are exported.

use flac_bits::{Collected, Memory, Why};
use flac_cue::CueWhy;
use flac_edit::{
    BlockEdits, BlockFault, EditFault, Part, Removal, blocks_change, comment_lines, content_of,
    edited_blocks, export_part, first_picture, first_sheet, rewrite_blocks,
};
use flac_meta::{Block, Bytes, Picture, SeekPoint};
use flac_native::RetagFault;
use std::alloc::{AllocError, Global};
use std::test::Fail;

/// STREAMINFO, 4 bytes of padding, the comment `A=1`, an application block, and frames.
const OLD: [u8; 90] = [
    102, 76, 97, 67, 0, 0, 0, 34, 16, 0, 16, 0, 0, 0, 0, 0, 0, 0, 10, 196, 64, 240, 0, 0, 0, 0, 0,
    0, 0, 0, 0, 0, 0, 0, 0, 0, 0, 0, 0, 0, 0, 0, 1, 0, 0, 4, 0, 0, 0, 0, 4, 0, 0, 16, 1, 0, 0, 0,
    118, 1, 0, 0, 0, 3, 0, 0, 0, 65, 61, 49, 130, 0, 0, 8, 116, 101, 115, 116, 1, 2, 3, 4, 255,
    248, 102, 114, 97, 109, 101, 115,
];

/// STREAMINFO, a picture, the comment `A=1`, 3 bytes of padding, and the same frames.
const NEW: [u8; 122] = [
    102, 76, 97, 67, 0, 0, 0, 34, 16, 0, 16, 0, 0, 0, 0, 0, 0, 0, 10, 196, 64, 240, 0, 0, 0, 0, 0,
    0, 0, 0, 0, 0, 0, 0, 0, 0, 0, 0, 0, 0, 0, 0, 6, 0, 0, 41, 0, 0, 0, 3, 0, 0, 0, 7, 105, 109, 97,
    103, 101, 47, 120, 0, 0, 0, 0, 0, 0, 0, 5, 0, 0, 0, 3, 0, 0, 0, 8, 0, 0, 0, 2, 0, 0, 0, 2, 7,
    8, 4, 0, 0, 16, 1, 0, 0, 0, 118, 1, 0, 0, 0, 3, 0, 0, 0, 65, 61, 49, 129, 0, 0, 3, 0, 0, 0,
    255, 248, 102, 114, 97, 109, 101, 115,
];

/// STREAMINFO alone.
const PLAIN: [u8; 42] = [
    102, 76, 97, 67, 128, 0, 0, 34, 0, 16, 0, 16, 0, 0, 0, 0, 0, 0, 10, 196, 64, 112, 0, 0, 0, 64,
    0, 0, 0, 0, 0, 0, 0, 0, 0, 0, 0, 0, 0, 0, 0, 0,
];

/// The same with two seek points.
const WITH_TABLE: [u8; 82] = [
    102, 76, 97, 67, 0, 0, 0, 34, 0, 16, 0, 16, 0, 0, 0, 0, 0, 0, 10, 196, 64, 112, 0, 0, 0, 64, 0,
    0, 0, 0, 0, 0, 0, 0, 0, 0, 0, 0, 0, 0, 0, 0, 131, 0, 0, 36, 0, 0, 0, 0, 0, 0, 0, 0, 0, 0, 0, 0,
    0, 0, 0, 0, 0, 16, 0, 0, 0, 0, 0, 0, 0, 32, 0, 0, 0, 0, 0, 0, 0, 22, 0, 16,
];

/// A picture of 5 by 3 pixels.
fn picture(alloc: Global) -> Result<Picture, AllocError> {
    Ok(Picture {
        kind: 3,
        media: Bytes::from_vec(Vec::from_slice(alloc, b"image/x")?),
        text: Bytes::from_vec(Vec::new(alloc)),
        width: 5,
        height: 3,
        depth: 8,
        colours: 2,
        bytes: Bytes::from_vec(Vec::from_slice(alloc, &[7, 8])?),
    })
}

/// The stream with other blocks.
fn rewritten(alloc: Global, old: &[u8], edits: &BlockEdits<'_>) -> Result<Vec<u8>, EditFault> {
    let mut target = Collected::new(alloc);
    rewrite_blocks(alloc, &mut Memory::new(old), edits, &mut target)?;
    Ok(target.into_bytes())
}

/// Whether a stream becomes these bytes.
fn gives(alloc: Global, old: &[u8], edits: &BlockEdits<'_>, due: &[u8]) -> bool {
    match rewritten(alloc, old, edits) {
        Ok(bytes) => bytes.as_slice() == due,
        Err(_) => false,
    }
}

/// Whether edits are refused so.
fn refuses(alloc: Global, edits: &BlockEdits<'_>, due: BlockFault) -> bool {
    match rewritten(alloc, &OLD, edits) {
        Ok(_) => false,
        Err(fault) => fault == EditFault::Blocks(due),
    }
}

fn edits_of<'a>(
    removals: &'a [Removal],
    cue: Option<&'a [u8]>,
    pictures: &'a [Picture],
    padding: Option<u32>,
) -> BlockEdits<'a> {
    BlockEdits {
        removals,
        cue,
        points: None,
        pictures,
        padding,
    }
}

#[test]
fn blocks_are_edited(rt: HostRuntime) -> Result<(), Fail> {
    let cover = [picture(rt.alloc())?];
    let removals = [Removal::Application(*b"test")];
    let edits = edits_of(&removals, None, &cover, Some(3));
    assert!(rt; gives(rt.alloc(), &OLD, &edits, &NEW));
    Ok(())
}

#[test]
fn blocks_stay(rt: HostRuntime) -> Result<(), Fail> {
    let edits = BlockEdits {
        removals: &[Removal::Kind(0), Removal::Kind(5)],
        cue: None,
        points: None,
        pictures: &[],
        padding: None,
    };
    assert!(rt; gives(rt.alloc(), &OLD, &edits, &OLD));
    Ok(())
}

#[test]
fn edits_are_refused(rt: HostRuntime) -> Result<(), Fail> {
    let mut edits = BlockEdits {
        removals: &[Removal::Number(3), Removal::Number(4)],
        cue: None,
        points: None,
        pictures: &[],
        padding: Some(1),
    };
    assert!(rt; refuses(rt.alloc(), &edits, BlockFault::NoBlock(4)));
    edits.removals = &[Removal::Number(0)];
    assert!(rt; refuses(rt.alloc(), &edits, BlockFault::NoBlock(0)));
    Ok(())
}

#[test]
fn a_second_icon_is_refused(rt: HostRuntime) -> Result<(), Fail> {
    let mut icons = [picture(rt.alloc())?, picture(rt.alloc())?];
    icons[0].kind = 2;
    icons[1].kind = 2;
    let edits = BlockEdits {
        removals: &[],
        cue: None,
        points: None,
        pictures: &icons,
        padding: None,
    };
    assert!(rt; refuses(rt.alloc(), &edits, BlockFault::SecondPicture(2)));
    Ok(())
}

#[test]
fn padding_that_is_too_long(rt: HostRuntime) -> Result<(), Fail> {
    let edits = BlockEdits {
        removals: &[],
        cue: None,
        points: None,
        pictures: &[],
        padding: Some(16_777_216),
    };
    let fault = EditFault::Stream(RetagFault {
        at: None,
        why: Why::BlockLength,
    });
    assert!(rt; rewritten(rt.alloc(), &OLD, &edits) == Err(fault));
    Ok(())
}

/// What is exported of a stream.
fn exported(alloc: Global, old: &[u8], part: Part<'_>) -> Result<Vec<u8>, EditFault> {
    let mut target = Collected::new(alloc);
    export_part(alloc, &mut Memory::new(old), part, &mut target)?;
    Ok(target.into_bytes())
}

/// Whether these bytes are exported of the new stream.
fn exports(alloc: Global, part: Part<'_>, due: &[u8]) -> bool {
    match exported(alloc, &NEW, part) {
        Ok(bytes) => bytes.as_slice() == due,
        Err(_) => false,
    }
}

#[test]
fn parts_are_exported(rt: HostRuntime) -> Result<(), Fail> {
    assert!(rt; exports(rt.alloc(), Part::Tags, b"A=1\n"));
    assert!(rt; exports(rt.alloc(), Part::Picture, &[7, 8]));
    assert!(rt; exports(rt.alloc(), Part::Block(0), &OLD[8..42]));
    assert!(rt; exports(rt.alloc(), Part::Block(3), &[0, 0, 0]));
    let fault = EditFault::Blocks(BlockFault::NoPicture);
    assert!(rt; exported(rt.alloc(), &OLD, Part::Picture) == Err(fault));
    Ok(())
}

/// A stream without comments and padding gets a seek table as by `metaflac --add-seekpoint=0 --add-seekpoint=40`, and then
/// none.
#[test]
fn seek_tables_are_replaced(rt: HostRuntime) -> Result<(), Fail> {
    let point = |sample, offset| SeekPoint {
        sample,
        offset,
        length: 16,
    };
    let points = [point(0, 0), point(32, 22)];
    let mut edits = BlockEdits {
        removals: &[],
        cue: None,
        points: Some(&points),
        pictures: &[],
        padding: None,
    };
    assert!(rt; gives(rt.alloc(), &PLAIN, &edits, &WITH_TABLE));
    assert!(rt; gives(rt.alloc(), &WITH_TABLE, &edits, &WITH_TABLE));
    edits.points = Some(&[]);
    assert!(rt; gives(rt.alloc(), &WITH_TABLE, &edits, &PLAIN));
    assert!(rt; gives(rt.alloc(), &PLAIN, &edits, &PLAIN));
    Ok(())
}

#[test]
fn lists_of_blocks(rt: HostRuntime) -> Result<(), Fail> {
    let blocks = [Block::Padding(4), Block::Picture(picture(rt.alloc())?)];
    let edits = BlockEdits {
        removals: &[Removal::Number(1)],
        cue: None,
        points: None,
        pictures: &[],
        padding: Some(0),
    };
    let Ok(news) = edited_blocks(rt.alloc(), &edits, &blocks) else {
        return Err(Fail::new("no blocks"));
    };
    assert!(rt; news.is_empty());
    let Some(found) = first_picture(&blocks) else {
        return Err(Fail::new("no picture"));
    };
    assert!(rt; found.width == 5);
    let content = content_of(rt.alloc(), &blocks[0])?;
    assert!(rt; content.as_slice() == [0, 0, 0, 0].as_slice());
    Ok(())
}

#[test]
fn comments_are_lines(rt: HostRuntime) -> Result<(), Fail> {
    let texts = [
        Bytes::from_vec(Vec::from_slice(rt.alloc(), b"A=1")?),
        Bytes::from_vec(Vec::from_slice(rt.alloc(), b"\\\n\xff~\x7f")?),
    ];
    let lines = comment_lines(rt.alloc(), &texts)?;
    assert!(rt; lines.as_slice() == b"A=1\n\\x5c\\x0a\\xff~\\x7f\n".as_slice());
    Ok(())
}

/// Whether edits change the blocks of a stream; none if they are refused.
fn changes(alloc: Global, old: &[u8], removals: &[Removal], padding: Option<u32>) -> Option<bool> {
    let edits = BlockEdits {
        removals,
        cue: None,
        points: None,
        pictures: &[],
        padding,
    };
    blocks_change(alloc, &mut Memory::new(old), &edits).ok()
}

#[test]
fn edits_that_change_nothing_are_told(rt: HostRuntime) -> Result<(), Fail> {
    assert!(rt; changes(rt.alloc(), &OLD, &[Removal::Kind(3)], None) == Some(false));
    assert!(rt; changes(rt.alloc(), &OLD, &[Removal::Kind(1)], None) == Some(true));
    assert!(rt; changes(rt.alloc(), &OLD, &[], Some(4)) == Some(true));
    assert!(rt; changes(rt.alloc(), &NEW, &[], Some(3)) == Some(false));
    assert!(rt; changes(rt.alloc(), &NEW, &[], Some(4)) == Some(true));
    assert!(rt; changes(rt.alloc(), &NEW, &[Removal::Number(9)], None).is_none());
    Ok(())
}

/// The old stream, with 1176 samples: two frames of a CD.
fn with_total() -> [u8; 90] {
    let mut stream = OLD;
    stream[24] = 4;
    stream[25] = 152;
    stream
}

/// Edits that put in a cue sheet alone.
fn cue_edits(text: &[u8]) -> BlockEdits<'_> {
    BlockEdits {
        removals: &[],
        cue: Some(text),
        points: None,
        pictures: &[],
        padding: None,
    }
}

/// The text that is exported of the stream after a cue sheet was put in twice.
fn sheet_again(alloc: Global, text: &[u8]) -> Result<Vec<u8>, EditFault> {
    let once = rewritten(alloc, &with_total(), &cue_edits(text))?;
    let twice = rewritten(alloc, &once, &cue_edits(text))?;
    if once.as_slice() != twice.as_slice() {
        return Err(EditFault::Blocks(BlockFault::NoCueSheet));
    }
    exported(alloc, &twice, Part::CueSheet("a.flac"))
}

/// The text is that of `metaflac --export-cuesheet-to=-` after `metaflac --import-cuesheet-from`.
#[test]
fn cue_sheets_go_in_and_out(rt: HostRuntime) -> Result<(), Fail> {
    let text =
        b"FILE x WAVE\r\n TRACK 01 AUDIO\r\n  INDEX 01 00:00:00\r\n TRACK 02 AUDIO\r\n  INDEX 01 00:00:01";
    let due =
        b"FILE \"a.flac\" FLAC\n  TRACK 01 AUDIO\n    INDEX 01 00:00:00\n  TRACK 02 AUDIO\n    INDEX 01 00:00:01\nREM FLAC__lead-in 88200\nREM FLAC__lead-out 170 1176\n";
    let Ok(written) = sheet_again(rt.alloc(), text) else {
        return Err(Fail::new("no sheet"));
    };
    assert!(rt; written.as_slice() == due.as_slice());
    Ok(())
}

/// Why a cue sheet is not put into a stream.
fn cue_fault(alloc: Global, stream: &[u8], text: &[u8]) -> Option<BlockFault> {
    match rewritten(alloc, stream, &cue_edits(text)) {
        Err(EditFault::Blocks(fault)) => Some(fault),
        _ => None,
    }
}

#[test]
fn cue_sheets_are_refused(rt: HostRuntime) -> Result<(), Fail> {
    let text = b"TRACK 01 AUDIO\nINDEX 01 00:00:02\n";
    let fault = BlockFault::CueLine(2, CueWhy::Offset);
    assert!(rt; cue_fault(rt.alloc(), &with_total(), text) == Some(fault));
    assert!(rt; cue_fault(rt.alloc(), &OLD, text) == Some(BlockFault::NoTotal));
    let fault = EditFault::Blocks(BlockFault::NoCueSheet);
    assert!(rt; exported(rt.alloc(), &OLD, Part::CueSheet("a.flac")) == Err(fault));
    assert!(rt; first_sheet(&[Block::Padding(4)]).is_none());
    Ok(())
}
