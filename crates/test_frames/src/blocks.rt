//! Blocks from outside, worked by hand from RFC 9639, section 8.

use flac_bits::{BitReader, BitWriter, Collected, Memory, Why};
use flac_meta::{
    Block, BlockList, Bytes, Comments, CueIndex, CueIndices, CueSheet, CueTrack, CueTracks,
    SeekPoint, SeekTable, Seen, StreamInfo, Texts, blocks_are_spelled, read_block, write_block,
    write_comments,
};
use std::alloc::Global;
use std::process::Abort;
use std::test::Fail;
use std::{fs, io};
use test_vectors::bytes_of;

/// STREAMINFO: blocks of 4096, frames of 14 to 15 bytes, 44100 Hz, 2 channels, 16 bits, 1 sample.
const INFO: &str =
    "00000022 1000 1000 00000e 00000f 0ac442f000000001 0102030405060708090a0b0c0d0e0f10";

/// The same, marked last.
const LAST_INFO: &str =
    "80000022 1000 1000 00000e 00000f 0ac442f000000001 0102030405060708090a0b0c0d0e0f10";

/// Blocks that come after STREAMINFO: the number of bytes of the content of each, which is written again as it was
/// read, or why it is refused.
const BLOCKS: &str = "# Refused at the header.
ff000000 | ForbiddenType
83000011 | BlockLength
82000003 | BlockLength
80000021 | RepeatedBlock
810000 | Truncated
# A second STREAMINFO.
80000022 1000 1000 00000e 00000f 0ac442f000000001 0102030405060708090a0b0c0d0e0f10 | RepeatedBlock
# Refused inside: a count of comments, a point after a placeholder, a cue sheet without tracks, and one that ends in a track.
84000008 00000000 ffffffff | BlockLength
03000024 ff*8 00*28 | SeekOrder
0500018c 00*396 | CueSheet
0500018c 00*395 01 | BlockLength
# Padding, an application, a type without a name, a comment, a picture.
81000002 0000 | 2
02000005 61626364 07 | 5
87000001 09 | 1
0400000e 01000000 66 01000000 01000000 3d | 14
06000022 00000003 00000001 61 00*23 01 05 | 34
# Two points, and a track of one place.
03000024 00*25 01 00*10 | 36
050001bc 00*395 01 00*8 01 00*26 01 00*8 01 00*3 | 444";

/// The longest content that a block may have.
const LONGEST: &str = "82ffffff 01020304 07*16777211 | 16777215";

/// Blocks that announce more than comes: a length, a count of comments or a length of a text, whether it fits the block
/// or not.
const CLAIMS: &str = "84000008 00000000 ffffffff | BlockLength
82ffffff 01020304 | Truncated
83fffff6 | Truncated
84ffffff f0ffff00 | Truncated
84ffffff 00000000 fdff3f00 | Truncated
86ffffff 00000003 00ffffd0 | Truncated
87ffffff | Truncated";

/// The comments `A=b=c`, `=x` and `none`.
const THREE_COMMENTS: &str =
    "0400001f 00000000 03000000 05000000 413d623d63 02000000 3d78 04000000 6e6f6e65";

/// One block of each kind after STREAMINFO, kinds 1 to 7 in their order: the cue sheet of a disc has one track with one
/// place, the picture is a front cover.
const KINDS: &str = "01000004 00000000
02000006 466c6163 7879
03000012 0000000000001000 000000000000000e 1000
0400001f 00000000 03000000 05000000 413d623d63 02000000 3d78 04000000 6e6f6e65
050001bc 00*128 0000000000015888 80 00*258 01 00*8 01 00*12 00*14 01 000000000000024c 01 00*3
06000030 00000003 00000009 696d6167652f706e67 00000005 66726f6e74 00000001 00000001 00000018 00000000 00000002 7071
07000001 7a";

/// Blocks that differ in one text or one byte from those of `KINDS` at these places.
const OTHERS: &str =
    "3 04000020 01000000 76 03000000 05000000 413d623d63 02000000 3d78 04000000 6e6f6e65
5 06000030 00000003 00000009 696d6167652f706e67 00000005 66726f6e74 00000001 00000001 00000018 00000000 00000002 7072";

/// The comments that the program writes if it is given none, in a block that is the last.
const PROGRAM: &str = "84000016 0e000000 666c61632070726f66696c652031 00000000";

/// The first block of a stream, and whether it is the last.
fn first_block(alloc: Global, bytes: &[u8]) -> Result<(bool, Block), Why> {
    let mut bits = BitReader::new(Memory::new(bytes));
    read_block(alloc, &mut bits, &mut Seen::new())
}

/// The block after a STREAMINFO, and whether it is the last.
fn read(alloc: Global, info: &[u8], bytes: &[u8]) -> Result<(bool, Block), Why> {
    let mut seen = Seen::new();
    read_block(alloc, &mut BitReader::new(Memory::new(info)), &mut seen)?;
    read_block(alloc, &mut BitReader::new(Memory::new(bytes)), &mut seen)
}

/// The block of these words, which comes after STREAMINFO.
fn block_of(alloc: Global, words: &str) -> Result<Block, Fail> {
    let info = bytes_of(alloc, INFO)?;
    let (_, block) = read(alloc, &info, &bytes_of(alloc, words)?)?;
    Ok(block)
}

/// The bytes of a block.
fn written(alloc: Global, block: &Block, last: bool) -> Result<Vec<u8>, Why> {
    let mut writer = BitWriter::new(Collected::new(alloc));
    write_block(block, last, &mut writer)?;
    writer.finish()?;
    Ok(writer.into_target().into_bytes())
}

/// How many bytes of content the block has, and its bytes as they are written again.
fn written_again(alloc: Global, info: &[u8], bytes: &[u8]) -> Result<(u64, Vec<u8>), Why> {
    let (last, block) = read(alloc, info, bytes)?;
    Ok((block.length(), written(alloc, &block, last)?))
}

/// The number of bytes of a block's content, or why the block is refused; and whether it is written as it was read.
fn answer(alloc: Global, info: &[u8], bytes: &[u8]) -> Result<(String, bool), Fail> {
    match written_again(alloc, info, bytes) {
        Ok((length, again)) => {
            let text = format!(in alloc; "{length}")?;
            Ok((text, again.as_slice() == bytes))
        }
        Err(why) => Ok((format!(in alloc; "{why:?}")?, true)),
    }
}

/// Checks the block of a row.
fn check_block(rt: &impl Abort, alloc: Global, info: &[u8], row: &str) -> Result<(), Fail> {
    let (words, wanted) = row.split_once(" | ").unwrap_or((row, ""));
    let bytes = bytes_of(alloc, words)?;
    let (found, same) = answer(alloc, info, &bytes)?;
    assert!(rt; same && found.as_str() == wanted, "{found} at {row}");
    Ok(())
}

/// Checks each row of a table of blocks but those that begin with `#`.
fn check_blocks(rt: &impl Abort, alloc: Global, table: &str) -> Result<(), Fail> {
    let info = bytes_of(alloc, INFO)?;
    for row in table.lines() {
        if !row.starts_with('#') {
            check_block(rt, alloc, &info, row)?;
        }
    }
    Ok(())
}

#[test]
fn blocks(rt: HostRuntime) -> Result<(), Fail> {
    check_blocks(&rt, rt.alloc(), BLOCKS)
}

#[test]
fn longest_content(rt: HostRuntime) -> Result<(), Fail> {
    check_blocks(&rt, rt.alloc(), LONGEST)
}

/// What STREAMINFO says.
fn info() -> Result<StreamInfo, Why> {
    let digest = [1, 2, 3, 4, 5, 6, 7, 8, 9, 10, 11, 12, 13, 14, 15, 16];
    StreamInfo::new(4096, 4096, 14, 15, 44100, 2, 16, 1, digest)
}

/// Whether the first block of these bytes is the last one and this one.
fn says(alloc: Global, bytes: &[u8], wanted: &Block) -> bool {
    match first_block(alloc, bytes) {
        Ok((last, block)) => last && block == *wanted,
        Err(_) => false,
    }
}

/// Whether this block, marked last, is written as these bytes.
fn is_written(alloc: Global, bytes: &[u8], block: &Block) -> bool {
    match written(alloc, block, true) {
        Ok(again) => again.as_slice() == bytes,
        Err(_) => false,
    }
}

#[test]
fn stream_info(rt: HostRuntime) -> Result<(), Fail> {
    blocks_are_spelled();
    let bytes = bytes_of(rt.alloc(), LAST_INFO)?;
    let block = Block::StreamInfo(info()?);
    assert!(rt; says(rt.alloc(), &bytes, &block));
    assert!(rt; is_written(rt.alloc(), &bytes, &block));
    Ok(())
}

#[test]
fn unknown_parts_of_stream_info(rt: HostRuntime) -> Result<(), Fail> {
    let part = info()?.without_totals();
    let digest = [0; 16];
    assert!(rt; StreamInfo::new(4096, 4096, 14, 15, 44100, 2, 16, 0, digest) == Ok(part));
    let of_format = StreamInfo::of_format(4096, 44100, 2, 16);
    assert!(rt; StreamInfo::new(4096, 4096, 0, 0, 44100, 2, 16, 0, digest) == Ok(of_format));
    Ok(())
}

/// The most memory in KiB that this process ever had, as the system counts it; 0 where it does not say.
fn peak(rt: &HostRuntime) -> io::Result<u64> {
    let status = fs::read_to_string(rt, "/proc/self/status")?;
    let mut words = status
        .split_whitespace()
        .skip_while(|word| *word != "VmPeak:");
    let _name = words.next();
    let number = words.next().and_then(|word| word.parse::<u64>().ok());
    Ok(number.unwrap_or(0))
}

/// What is announced asks for no memory before it came.
#[test]
fn claims_take_no_memory(rt: HostRuntime) -> Result<(), Fail> {
    let before = peak(&rt)?;
    check_blocks(&rt, rt.alloc(), CLAIMS)?;
    let after = peak(&rt)?;
    assert!(rt;
        before > 0 && after.saturating_sub(before) < 1024,
        "{before} {after}"
    );
    Ok(())
}

/// Appends the block of each line.
fn push_blocks(alloc: Global, blocks: &mut Vec<Block>, lines: &str) -> Result<(), Fail> {
    for line in lines.lines() {
        blocks.push(block_of(alloc, line)?)?;
    }
    Ok(())
}

/// One block of each kind, kinds 0 to 7 in their order.
fn of_each_kind(alloc: Global) -> Result<Vec<Block>, Fail> {
    let mut blocks = Vec::new(alloc);
    blocks.push(Block::StreamInfo(info()?))?;
    push_blocks(alloc, &mut blocks, KINDS)?;
    Ok(blocks)
}

#[test]
fn kinds_are_numbered(rt: HostRuntime) -> Result<(), Fail> {
    for (number, block) in of_each_kind(rt.alloc())?.iter().enumerate() {
        assert_eq!(rt; block.kind() as usize, number);
    }
    Ok(())
}

/// Whether a block equals the one at this place, and no other.
fn equals_only(block: &Block, others: &[Block], place: usize) -> bool {
    let mut same = true;
    for (i, other) in others.iter().enumerate() {
        same = same && (block == other) == (i == place);
    }
    same
}

/// A clone equals its block, and no block equals one of another kind.
#[test]
fn blocks_are_cloned_and_compared(rt: HostRuntime) -> Result<(), Fail> {
    let blocks = of_each_kind(rt.alloc())?;
    let clones = blocks.clone()?;
    for (i, block) in blocks.iter().enumerate() {
        assert!(rt; equals_only(block, &clones, i), "at {i}");
    }
    Ok(())
}

/// The words of the block of `KINDS` at a place.
fn kind_at(place: usize) -> &'static str {
    KINDS.lines().nth(place).unwrap_or("")
}

/// Takes the tracks out of a cue sheet.
fn remove_tracks(alloc: Global, block: &mut Block) {
    if let Block::CueSheet(sheet) = block {
        sheet.tracks = CueTracks::from_vec(Vec::new(alloc));
    }
}

/// The cue sheet of a disc of one track, without that track.
fn sheet_without_tracks(alloc: Global) -> Result<Block, Fail> {
    let mut block = block_of(alloc, kind_at(4))?;
    remove_tracks(alloc, &mut block);
    Ok(block)
}

/// Whether a block equals that of `KINDS` at a place.
fn equals(alloc: Global, block: &Block, place: usize) -> Result<bool, Fail> {
    let kind = block_of(alloc, kind_at(place))?;
    Ok(kind == *block)
}

/// Whether the block of a row equals that of `KINDS` at the row's place.
fn row_equals(alloc: Global, row: &str) -> Result<bool, Fail> {
    let (place, words) = row.split_once(' ').unwrap_or(("", row));
    let place = place.parse::<usize>()?;
    equals(alloc, &block_of(alloc, words)?, place)
}

/// Whether two seek tables without points are equal.
fn empty_tables_are_equal(alloc: Global) -> bool {
    SeekTable::from_vec(Vec::new(alloc)) == SeekTable::from_vec(Vec::new(alloc))
}

/// Whether a cue sheet equals itself without its tracks.
fn tracks_do_not_matter(alloc: Global) -> Result<bool, Fail> {
    let sheet = sheet_without_tracks(alloc)?;
    equals(alloc, &sheet, 4)
}

/// Blocks that differ in one text or one byte are not equal.
#[test]
fn differences_are_seen(rt: HostRuntime) -> Result<(), Fail> {
    for row in OTHERS.lines() {
        let same = row_equals(rt.alloc(), row)?;
        assert!(rt; !same, "{row}");
    }
    let same = tracks_do_not_matter(rt.alloc())?;
    assert!(rt; !same && empty_tables_are_equal(rt.alloc()));
    Ok(())
}

/// Whether the parts and the length of these comments are those of `THREE_COMMENTS`.
fn has_parts(comments: &Comments) -> bool {
    comments.parts(0) == Some((b"A".as_slice(), b"b=c".as_slice()))
        && comments.parts(1) == Some((b"".as_slice(), b"x".as_slice()))
        && comments.parts(2).is_none()
        && comments.parts(3).is_none()
        && comments.length() == 31
}

#[test]
fn parts(rt: HostRuntime) -> Result<(), Fail> {
    let block = block_of(rt.alloc(), THREE_COMMENTS)?;
    assert!(rt; matches!(&block, Block::VorbisComment(comments) if has_parts(comments)));
    Ok(())
}

/// The bytes of a comment block that is the last, of this vendor and no comments.
fn vendor_bytes(alloc: Global, vendor: &[u8]) -> Result<Vec<u8>, Why> {
    let comments = Comments {
        vendor: Bytes::from_vec(Vec::from_slice(alloc, vendor)?),
        list: Texts::from_vec(Vec::new(alloc)),
    };
    let mut writer = BitWriter::new(Collected::new(alloc));
    write_comments(&comments, true, &mut writer)?;
    writer.finish()?;
    Ok(writer.into_target().into_bytes())
}

#[test]
fn comments_are_written(rt: HostRuntime) -> Result<(), Fail> {
    let written = vendor_bytes(rt.alloc(), b"flac profile 1")?;
    let wanted = bytes_of(rt.alloc(), PROGRAM)?;
    assert_eq!(rt; written.as_slice(), wanted.as_slice());
    Ok(())
}

/// Why no list is made of this block.
fn fault(alloc: Global, block: Block) -> Result<Option<Why>, Why> {
    let mut blocks = Vec::new(alloc);
    blocks.push(block)?;
    Ok(BlockList::new(blocks).err())
}

/// Comments, and padding or the same comments again.
fn comments_and(alloc: Global, words: &str) -> Result<Vec<Block>, Fail> {
    let mut blocks = Vec::new(alloc);
    push_blocks(alloc, &mut blocks, THREE_COMMENTS)?;
    push_blocks(alloc, &mut blocks, words)?;
    Ok(blocks)
}

/// Whether a list of these two blocks equals its clone and has them.
fn is_listed(blocks: &Vec<Block>) -> Result<bool, Why> {
    let list = BlockList::new(blocks.clone()?)?;
    let same = list.clone()? == list && list.blocks().len() == 2;
    Ok(same && list.into_blocks() == *blocks)
}

#[test]
fn lists(rt: HostRuntime) -> Result<(), Fail> {
    let blocks = comments_and(rt.alloc(), "01000004 00000000")?;
    assert!(rt; is_listed(&blocks)?);
    let twice = comments_and(rt.alloc(), THREE_COMMENTS)?;
    assert!(rt; BlockList::new(twice).err() == Some(Why::RepeatedBlock));
    Ok(())
}

/// The list of these comments alone.
fn comments_alone(alloc: Global) -> Result<BlockList, Why> {
    let mut comments = Comments::new(alloc, b"vendor")?;
    comments.push(alloc, b"TITLE", b"A song")?;
    BlockList::of_comments(alloc, comments)
}

/// Whether a list has this one block.
fn has_just(list: &BlockList, block: &Block) -> bool {
    match list.blocks() {
        [only] => *only == *block,
        _ => false,
    }
}

#[test]
fn list_of_comments(rt: HostRuntime) -> Result<(), Fail> {
    let words = "0400001e 06000000 76656e646f72 01000000 0c000000 5449544c453d4120736f6e67";
    let block = block_of(rt.alloc(), words)?;
    assert!(rt; has_just(&comments_alone(rt.alloc())?, &block));
    Ok(())
}

/// Bytes under the type of pictures.
fn other_picture(alloc: Global) -> Block {
    Block::Other {
        kind: 6,
        bytes: Bytes::from_vec(Vec::new(alloc)),
    }
}

/// A cue sheet of zeros with these tracks.
fn sheet_of(tracks: Vec<CueTrack>) -> Block {
    Block::CueSheet(CueSheet {
        catalogue: [0; 128],
        lead_in: 0,
        cd: false,
        tracks: CueTracks::from_vec(tracks),
    })
}

const INDEX: CueIndex = CueIndex {
    offset: 0,
    number: 1,
};

/// A track of n index points.
fn track_of(alloc: Global, points: usize) -> Result<CueTrack, Fail> {
    let indices = vec![in alloc; INDEX; points]?;
    Ok(CueTrack {
        offset: 0,
        number: 1,
        isrc: [0; 12],
        audio: true,
        pre_emphasis: false,
        indices: CueIndices::from_vec(indices),
    })
}

/// Why no list is made of a cue sheet of so many tracks, each of so many index points; nothing if one is made.
fn fault_of_tracks(alloc: Global, count: usize, points: usize) -> Result<Option<Why>, Fail> {
    let mut tracks = Vec::new(alloc);
    for _ in 0..count {
        tracks.push(track_of(alloc, points)?)?;
    }
    Ok(fault(alloc, sheet_of(tracks))?)
}

/// One byte counts the tracks, and one the index points of each track (RFC 9639, section 8.7).
#[test]
fn most_tracks_and_index_points(rt: HostRuntime) -> Result<(), Fail> {
    let refused = Some(Why::CueSheet);
    let rows = [
        (255, 1, None),
        (256, 1, refused),
        (1, 255, None),
        (1, 256, refused),
    ];
    for (tracks, points, wanted) in rows {
        let found = fault_of_tracks(rt.alloc(), tracks, points)?;
        assert!(rt; found == wanted, "{tracks} {points}");
    }
    Ok(())
}

/// Why no list is made of a cue sheet without tracks.
fn sheet_fault(alloc: Global) -> Result<Option<Why>, Fail> {
    let sheet = sheet_without_tracks(alloc)?;
    Ok(fault(alloc, sheet)?)
}

#[test]
fn blocks_without_a_list(rt: HostRuntime) -> Result<(), Fail> {
    let other = fault(rt.alloc(), other_picture(rt.alloc()));
    assert!(rt; other == Ok(Some(Why::ForbiddenType)));
    let padding = fault(rt.alloc(), Block::Padding(16777216));
    assert!(rt; padding == Ok(Some(Why::BlockLength)));
    let sheet = sheet_fault(rt.alloc())?;
    assert!(rt; sheet == Some(Why::CueSheet));
    let zeros = fault(rt.alloc(), sheet_of(Vec::new(rt.alloc())));
    assert!(rt; zeros == Ok(Some(Why::CueSheet)));
    Ok(())
}

const POINT: SeekPoint = SeekPoint {
    sample: 4096,
    offset: 14,
    length: 4096,
};

const OTHER_POINT: SeekPoint = SeekPoint {
    sample: 1,
    offset: 0,
    length: 1,
};

/// Why no list is made of a seek table that has this point twice.
fn twice_fault(alloc: Global, point: SeekPoint) -> Result<Option<Why>, Fail> {
    let table = SeekTable::from_vec(vec![in alloc; point; 2]?);
    Ok(fault(alloc, Block::SeekTable(table))?)
}

#[test]
fn points_rise(rt: HostRuntime) -> Result<(), Fail> {
    for point in [POINT, OTHER_POINT] {
        let refused = twice_fault(rt.alloc(), point)?;
        assert!(rt; refused == Some(Why::SeekOrder));
    }
    Ok(())
}

/// A point that names no frame.
const PLACEHOLDER: SeekPoint = SeekPoint {
    sample: u64::MAX,
    offset: 0,
    length: 0,
};

#[test]
fn placeholders_may_repeat(rt: HostRuntime) -> Result<(), Fail> {
    assert!(rt; PLACEHOLDER.is_placeholder());
    assert!(rt; !POINT.is_placeholder());
    let refused = twice_fault(rt.alloc(), PLACEHOLDER)?;
    assert!(rt; refused == None);
    Ok(())
}

/// The sample number of the last point at or before a sample, in a table of points at 1 and 4096 and a placeholder.
fn point_before(alloc: Global, sample: u64) -> Result<Option<u64>, Fail> {
    let points = [OTHER_POINT, POINT, PLACEHOLDER];
    let table = SeekTable::from_vec(Vec::from_slice(alloc, &points)?);
    match table.before(sample) {
        Some(point) => Ok(Some(point.sample)),
        None => Ok(None),
    }
}

#[test]
fn points_before_samples(rt: HostRuntime) -> Result<(), Fail> {
    let samples = [0, 1, 4095, 4096, u64::MAX];
    let points = [None, Some(1), Some(1), Some(4096), Some(4096)];
    for i in 0..5 {
        let found = point_before(rt.alloc(), samples[i])?;
        assert!(rt; found == points[i]);
    }
    Ok(())
}

/// How many places a track has, taken out of their list and put back.
fn places(track: CueTrack) -> usize {
    let indices = CueIndices::from_vec(track.indices.into_vec());
    indices.as_slice().len()
}

/// The bytes of some texts, one after another.
fn joined(alloc: Global, texts: Vec<Bytes>) -> Result<Vec<u8>, Fail> {
    let mut bytes = Vec::new(alloc);
    for text in texts {
        bytes.extend_from_slice(&text.into_vec())?;
    }
    Ok(bytes)
}

/// How many tracks a cue sheet has, and how many places the last of them has.
fn tracks_and_places(block: Block) -> (usize, usize) {
    match block {
        Block::CueSheet(sheet) => {
            let mut tracks = sheet.tracks.into_vec();
            let count = tracks.len();
            (count, tracks.pop().map_or(0, places))
        }
        _ => (0, 0),
    }
}

/// The texts of a block of comments.
fn texts_of(alloc: Global, block: Block) -> Vec<Bytes> {
    match block {
        Block::VorbisComment(comments) => comments.list.into_vec(),
        _ => Vec::new(alloc),
    }
}

/// Whether a seek table gives its point back.
fn points_are_given_back(alloc: Global) -> Result<bool, Fail> {
    let table = SeekTable::from_vec(vec![in alloc; POINT]?);
    Ok(table.into_vec().as_slice() == [POINT].as_slice())
}

/// How many tracks and places the sheet of `KINDS` has, taken apart.
fn sheet_taken_apart(alloc: Global) -> Result<(usize, usize), Fail> {
    Ok(tracks_and_places(block_of(alloc, kind_at(4))?))
}

/// How many texts `THREE_COMMENTS` has, taken out, and their bytes.
fn comments_taken_apart(alloc: Global) -> Result<(usize, Vec<u8>), Fail> {
    let texts = texts_of(alloc, block_of(alloc, THREE_COMMENTS)?);
    let count = texts.len();
    Ok((count, joined(alloc, texts)?))
}

#[test]
fn lists_are_given_back(rt: HostRuntime) -> Result<(), Fail> {
    assert!(rt; points_are_given_back(rt.alloc())?);
    assert!(rt; sheet_taken_apart(rt.alloc())? == (1, 1));
    let (count, bytes) = comments_taken_apart(rt.alloc())?;
    assert!(rt; count == 3 && bytes.as_slice() == b"A=b=c=xnone".as_slice());
    Ok(())
}

/// The sum of the sample numbers of a table's points, by its iterator and by a loop over the table.
fn sums_of_samples(table: &SeekTable) -> (u64, u64) {
    let mut by_loop: u64 = 0;
    for point in table {
        by_loop = by_loop.wrapping_add(point.sample & 0xFFFF);
    }
    let mut by_iterator: u64 = 0;
    for point in table.iter() {
        by_iterator = by_iterator.wrapping_add(point.sample & 0xFFFF);
    }
    (by_iterator, by_loop)
}

#[test]
fn lists_are_gone_over(rt: HostRuntime) -> Result<(), Fail> {
    let table = SeekTable::from_vec(Vec::from_slice(rt.alloc(), &[OTHER_POINT, POINT])?);
    let empty = Texts::from_vec(Vec::new(rt.alloc()));
    assert!(rt; sums_of_samples(&table) == (4097, 4097));
    assert!(rt; table.len() == 2 && !table.is_empty());
    assert!(rt; empty.len() == 0 && empty.is_empty());
    Ok(())
}
