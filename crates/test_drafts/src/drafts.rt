//! Streams whose head is written last, beside those that are encoded at once.

use flac_bits::{Collected, send_all};
use flac_draft::{
    DraftEncoder, DraftFile, DraftMemory, Rewritable, Unfinished, drafts_are_encoded,
    found_are_encoded,
};
use flac_encoder::{StreamEncoder, StreamFormat};
use flac_meta::{Block, BlockList, SeekPoint, SeekTable};
use flac_native::{Audio, EncodeFault, LinearPredictor, Plan, Profile, encode};
use flac_predict::Search;
use std::alloc::Global;
use std::io::{Cursor, Write};
use std::test::Fail;

/// 44100 Hz, two channels and 16 bits, in blocks of 32 samples.
const FORMAT: StreamFormat = StreamFormat {
    profile: Profile::Subset,
    rate: 44100,
    bits: 16,
    channels: 2,
    block_size: 32,
};

/// One sample of two channels in blocks of 4096. The marker and STREAMINFO are those of RFC 9639, appendix D.1, and the
/// reference decodes it without a warning.
const ONE: [u8; 57] = [
    0x66, 0x4c, 0x61, 0x43, 0x80, 0x00, 0x00, 0x22, 0x10, 0x00, 0x10, 0x00, 0x00, 0x00, 0x0f, 0x00,
    0x00, 0x0f, 0x0a, 0xc4, 0x42, 0xf0, 0x00, 0x00, 0x00, 0x01, 0x3e, 0x84, 0xb4, 0x18, 0x07, 0xdc,
    0x69, 0x03, 0x07, 0x58, 0x6a, 0x3d, 0xad, 0x1a, 0x2e, 0x0f, 0xff, 0xf8, 0x69, 0x18, 0x00, 0x00,
    0xbf, 0x01, 0x58, 0xfd, 0x01, 0x12, 0x8b, 0x5a, 0xb2,
];

/// The same with a seek table of one point after STREAMINFO, which has the header 83 00 00 12: sample 0, offset 0, and
/// 1 sample (RFC 9639, sections 8.1 and 8.5).
const ONE_WITH_TABLE: [u8; 79] = [
    0x66, 0x4c, 0x61, 0x43, 0x00, 0x00, 0x00, 0x22, 0x10, 0x00, 0x10, 0x00, 0x00, 0x00, 0x0f, 0x00,
    0x00, 0x0f, 0x0a, 0xc4, 0x42, 0xf0, 0x00, 0x00, 0x00, 0x01, 0x3e, 0x84, 0xb4, 0x18, 0x07, 0xdc,
    0x69, 0x03, 0x07, 0x58, 0x6a, 0x3d, 0xad, 0x1a, 0x2e, 0x0f, 0x83, 0x00, 0x00, 0x12, 0x00, 0x00,
    0x00, 0x00, 0x00, 0x00, 0x00, 0x00, 0x00, 0x00, 0x00, 0x00, 0x00, 0x00, 0x00, 0x00, 0x00, 0x01,
    0xff, 0xf8, 0x69, 0x18, 0x00, 0x00, 0xbf, 0x01, 0x58, 0xfd, 0x01, 0x12, 0x8b, 0x5a, 0xb2,
];

/// What comes before the frame of that stream, of 2 samples that were stated, while it is a draft: STREAMINFO has
/// neither sizes of frames nor a number of samples nor a digest, and the point is a placeholder (RFC 9639, section
/// 8.5.1).
const DRAFT_HEAD: [u8; 64] = [
    0x66, 0x4c, 0x61, 0x43, 0x00, 0x00, 0x00, 0x22, 0x10, 0x00, 0x10, 0x00, 0x00, 0x00, 0x00, 0x00,
    0x00, 0x00, 0x0a, 0xc4, 0x42, 0xf0, 0x00, 0x00, 0x00, 0x00, 0x00, 0x00, 0x00, 0x00, 0x00, 0x00,
    0x00, 0x00, 0x00, 0x00, 0x00, 0x00, 0x00, 0x00, 0x00, 0x00, 0x83, 0x00, 0x00, 0x12, 0xff, 0xff,
    0xff, 0xff, 0xff, 0xff, 0xff, 0xff, 0x00, 0x00, 0x00, 0x00, 0x00, 0x00, 0x00, 0x00, 0x00, 0x00,
];

/// The samples of a channel, which rise and fall.
const LEFT: [i32; 80] = [
    -500, -493, -472, -437, -388, -325, -248, -157, -52, 67, 200, 347, -492, -317, -128, 75, 292,
    -477, -232, 27, 300, -413, -112, 203, -468, -125, 232, -397, -12, 387, -200, 227, -332, 123,
    -408, 75, -428, 83, -392, 147, -300, 267, -152, 443, 52, -325, 312, -37, -372, 307, 0, -293,
    428, 163, -88, -325, 452, 243, 48, -133, -300, -453, 408, 283, 172, 75, -8, -77, -132, -173,
    -200, -213, -212, -197, -168, -125, -68, 3, 88, 187,
];

/// Those of another one.
const RIGHT: [i32; 80] = [
    -500, -497, -488, -473, -452, -425, -392, -353, -308, -257, -200, -137, -68, 7, 88, 175, 268,
    367, 472, -417, -300, -177, -48, 87, 228, 375, -472, -313, -148, 23, 200, 383, -428, -233, -32,
    175, 388, -393, -168, 63, 300, -457, -208, 47, 308, -425, -152, 127, 412, -297, 0, 303, -388,
    -73, 248, -425, -92, 247, -408, -57, 300, -337, 32, 407, -212, 175, -432, -33, 372, -217, 200,
    -377, 52, 487, -72, 375, -172, 287, -248, 223,
];

/// A list with padding of 5 bytes.
fn padded(alloc: Global) -> Result<BlockList, Fail> {
    let mut blocks = Vec::new(alloc);
    blocks.push(Block::Padding(5))?;
    Ok(BlockList::new(blocks)?)
}

/// The stream that is encoded at once, with a seek point for each `every` samples.
fn at_once(alloc: Global, every: u32) -> Result<Vec<u8>, Fail> {
    let list = padded(alloc)?;
    let mut channels = Vec::new(alloc);
    channels.push(LEFT.to_vec(alloc)?)?;
    channels.push(RIGHT.to_vec(alloc)?)?;
    let audio = Audio::new(44100, 16, channels)?;
    let plan = Plan::new(32, &audio, every)?;
    let mut target = Collected::new(alloc);
    encode(alloc, &plan, &list, &audio, &mut target)?;
    Ok(target.into_bytes())
}

/// The same stream in blocks of 32 samples, the last of which is shorter, after three bytes.
fn by_blocks(alloc: Global, every: u32) -> Result<Vec<u8>, Fail> {
    let mut target = DraftMemory::new(alloc);
    send_all(&mut target, b"ID3")?;
    let list = padded(alloc)?;
    let mut encoder = DraftEncoder::new_with_table(alloc, &FORMAT, list, 80, every, target)?;
    encoder.push(&[&LEFT[..32], &RIGHT[..32]])?;
    encoder.push(&[&LEFT[32..64], &RIGHT[32..64]])?;
    encoder.push(&[&LEFT[64..], &RIGHT[64..]])?;
    Ok(encoder.finish()?.into_bytes())
}

/// Whether a draft is the stream that is encoded at once, after three bytes.
fn draft_is_at_once(alloc: Global, every: u32) -> Result<bool, Fail> {
    let once = at_once(alloc, every)?;
    let blocks = by_blocks(alloc, every)?;
    Ok(blocks.starts_with(b"ID3") && blocks.get(3..).unwrap_or(&[]) == once.as_slice())
}

/// Without a seek table, with a point for the first and the last frame, and with one for each.
#[test]
fn draft_is_the_stream_at_once(rt: HostRuntime) -> Result<(), Fail> {
    let alloc = rt.alloc();
    assert!(rt; draft_is_at_once(alloc, 0)?);
    assert!(rt; draft_is_at_once(alloc, 70)?);
    assert!(rt; draft_is_at_once(alloc, 1)?);
    Ok(())
}

/// An encoder of blocks of 4096 samples, without further blocks.
fn encoder_of(alloc: Global) -> Result<DraftEncoder<DraftMemory>, Fail> {
    let list = BlockList::new(Vec::new(alloc))?;
    let format = StreamFormat {
        block_size: 4096,
        ..FORMAT
    };
    Ok(DraftEncoder::new_in(alloc, &format, list, DraftMemory::new(alloc))?)
}

/// The number of a result: 0 for none.
fn number_of(outcome: Result<(), EncodeFault>) -> u8 {
    match outcome {
        Ok(()) => 0,
        Err(fault) => fault.number(),
    }
}

/// Pushes a short block, the same once more, no samples, and three channels.
fn short_first(encoder: &mut DraftEncoder<DraftMemory>) -> [u8; 4] {
    let (left, right) = ([25588], [10416]);
    let block = [left.as_slice(), right.as_slice()];
    let none: [i32; 0] = [];
    let three = [left.as_slice(), right.as_slice(), left.as_slice()];
    [
        number_of(encoder.push(&block)),
        number_of(encoder.push(&block)),
        number_of(encoder.push(&[none.as_slice(), none.as_slice()])),
        number_of(encoder.push(&three)),
    ]
}

/// A short block is the last, and what is refused adds nothing.
#[test]
fn one_sample(rt: HostRuntime) -> Result<(), Fail> {
    let alloc = rt.alloc();
    let mut encoder = encoder_of(alloc)?;
    let answers = short_first(&mut encoder);
    let bytes = encoder.finish()?.into_bytes();
    drafts_are_encoded();
    assert!(rt; answers == [0, 19, 46, 42]);
    assert!(rt; bytes.as_slice() == ONE.as_slice());
    Ok(())
}

/// A stream by a predictor and a search, with the head of a draft.
fn searched(alloc: Global, block: &[&[i32]]) -> Result<Vec<u8>, Fail> {
    let mut encoder = encoder_of(alloc)?;
    encoder.set_predictors(predictors(alloc)?)?;
    encoder.set_search(Some(Search::Full))?;
    encoder.push(block)?;
    Ok(encoder.finish()?.into_bytes())
}

/// The same with the head that is written first.
fn searched_at_once(alloc: Global, block: &[&[i32]]) -> Result<Vec<u8>, Fail> {
    let list = BlockList::new(Vec::new(alloc))?;
    let target = Collected::new(alloc);
    let mut encoder = StreamEncoder::new(alloc, 44100, 16, 2, 4096, &list, target)?;
    encoder.set_predictors(predictors(alloc)?)?;
    encoder.set_search(Some(Search::Full))?;
    encoder.push(block)?;
    Ok(encoder.finish()?.into_bytes())
}

/// One predictor.
fn predictors(alloc: Global) -> Result<Vec<LinearPredictor>, Fail> {
    let mut list = Vec::new(alloc);
    if let Some(predictor) = LinearPredictor::new(3, 0, &[2, -1]) {
        list.push(predictor)?;
    }
    Ok(list)
}

/// What is tried for a frame is that of the other encoder.
#[test]
fn frames_of_a_search(rt: HostRuntime) -> Result<(), Fail> {
    let alloc = rt.alloc();
    let block = [LEFT.as_slice(), RIGHT.as_slice()];
    let draft = searched(alloc, &block)?;
    found_are_encoded();
    let stream = searched_at_once(alloc, &block)?;
    assert!(rt; draft.len() == stream.len());
    assert!(rt; draft.get(42..).unwrap_or(&[]) == stream.get(42..).unwrap_or(&[]));
    assert!(rt; draft.get(..42).unwrap_or(&[]) != stream.get(..42).unwrap_or(&[]));
    Ok(())
}

/// The number of bytes after some are written over, or 255 if they cannot be.
fn written_over(target: &mut DraftMemory, at: u64, bytes: &[u8]) -> u64 {
    match target.write_over(at, bytes) {
        Ok(()) => target.sent_len(),
        Err(_) => 255,
    }
}

/// Bytes are written over only if as many are there.
#[test]
fn bytes_in_memory(rt: HostRuntime) -> Result<(), Fail> {
    let alloc = rt.alloc();
    let mut target = DraftMemory::new(alloc);
    send_all(&mut target, b"fLaC")?;
    assert!(rt; written_over(&mut target, 1, b"LA") == 4);
    assert!(rt; target.bytes() == b"fLAC".as_slice());
    assert!(rt; written_over(&mut target, 3, b"LA") == 255);
    assert!(rt; written_over(&mut target, u64::MAX, b"x") == 255);
    assert!(rt; target.into_bytes().as_slice() == b"fLAC".as_slice());
    Ok(())
}

/// An encoder of blocks of 4096 samples that reserves a table for `total` samples, with a point for each.
fn table_encoder(alloc: Global, total: u64) -> Result<DraftEncoder<DraftMemory>, Fail> {
    let list = BlockList::new(Vec::new(alloc))?;
    let format = StreamFormat {
        block_size: 4096,
        ..FORMAT
    };
    let target = DraftMemory::new(alloc);
    Ok(DraftEncoder::new_with_table(alloc, &format, list, total, 1, target)?)
}

/// Pushes one sample, and returns what `finish` does.
fn one_sample_of(alloc: Global, total: u64) -> Result<DraftEncoder<DraftMemory>, Fail> {
    let mut encoder = table_encoder(alloc, total)?;
    let (left, right) = ([25588], [10416]);
    encoder.push(&[left.as_slice(), right.as_slice()])?;
    Ok(encoder)
}

/// The point is written at the end.
#[test]
fn table_of_one_point(rt: HostRuntime) -> Result<(), Fail> {
    let bytes = one_sample_of(rt.alloc(), 1)?.finish()?.into_bytes();
    assert!(rt; bytes.as_slice() == ONE_WITH_TABLE.as_slice());
    Ok(())
}

/// The reason why a draft is not finished, and the bytes that are left.
fn left_of(
    finished: Result<DraftMemory, Unfinished<DraftMemory>>,
) -> Option<(&'static str, Vec<u8>)> {
    match finished {
        Ok(_) => None,
        Err(unfinished) => Some((unfinished.fault.as_str(), unfinished.left.into_bytes())),
    }
}

/// With another number of samples than was stated it stays a draft, whose frame is there.
#[test]
fn other_total(rt: HostRuntime) -> Result<(), Fail> {
    let left = left_of(one_sample_of(rt.alloc(), 2)?.finish());
    let Some((text, bytes)) = left else {
        return Err(Fail::new("it is finished"));
    };
    assert!(rt; text == "93 OtherTotal");
    assert!(rt; bytes.get(..64).unwrap_or(&[]) == DRAFT_HEAD.as_slice());
    assert!(rt; bytes.get(64..).unwrap_or(&[]) == &ONE_WITH_TABLE[64..]);
    Ok(())
}

/// The number of the reason why no draft is begun in blocks of 16 samples, with a point for each sample; 0 for none.
fn begun_with(alloc: Global, list: BlockList, total: u64) -> u8 {
    let format = StreamFormat {
        block_size: 16,
        ..FORMAT
    };
    let target = DraftMemory::new(alloc);
    match DraftEncoder::new_with_table(alloc, &format, list, total, 1, target) {
        Ok(_) => 0,
        Err(fault) => fault.number(),
    }
}

/// A list with a seek table without points.
fn tabled(alloc: Global) -> Result<BlockList, Fail> {
    let points: Vec<SeekPoint> = Vec::new(alloc);
    let mut blocks = Vec::new(alloc);
    blocks.push(Block::SeekTable(SeekTable::from_vec(points)))?;
    Ok(BlockList::new(blocks)?)
}

/// A number of samples that has more than 36 bits, more points than a block holds, and a second table.
#[test]
fn tables_that_are_refused(rt: HostRuntime) -> Result<(), Fail> {
    let alloc = rt.alloc();
    assert!(rt; begun_with(alloc, padded(alloc)?, 1 << 36) == 45);
    assert!(rt; begun_with(alloc, padded(alloc)?, 16 * 932067 + 1) == 47);
    assert!(rt; begun_with(alloc, tabled(alloc)?, 16) == 9);
    assert!(rt; begun_with(alloc, tabled(alloc)?, 1 << 36) == 45);
    Ok(())
}

/// A place with three bytes, and its position after them.
fn place_after_tag(alloc: Global) -> Result<Cursor<Vec<u8>>, Fail> {
    let mut place = Cursor::new(Vec::new(alloc));
    place.write_all(b"ID3")?;
    Ok(place)
}

/// The stream of one sample in a place that is like a file, after three bytes; the target is lent to the encoder.
fn in_file(alloc: Global) -> Result<Vec<u8>, Fail> {
    let mut file = DraftFile::new(place_after_tag(alloc)?)?;
    let list = BlockList::new(Vec::new(alloc))?;
    let format = StreamFormat {
        block_size: 4096,
        ..FORMAT
    };
    let mut encoder = DraftEncoder::new_in(alloc, &format, list, &mut file)?;
    let (left, right) = ([25588], [10416]);
    encoder.push(&[left.as_slice(), right.as_slice()])?;
    let _file = encoder.finish()?;
    Ok(file.into_inner().into_inner())
}

#[test]
fn file_after_a_tag(rt: HostRuntime) -> Result<(), Fail> {
    let bytes = in_file(rt.alloc())?;
    assert!(rt; bytes.starts_with(b"ID3"));
    assert!(rt; bytes.get(3..).unwrap_or(&[]) == ONE.as_slice());
    Ok(())
}

/// The number of bytes after an error, and whether the error is kept.
fn file_refuses(alloc: Global) -> Result<(u64, bool), Fail> {
    let mut file = DraftFile::new(place_after_tag(alloc)?)?;
    send_all(&mut file, b"fLaC")?;
    let good = file.last_error().is_none() && file.write_over(1, b"LA").is_ok();
    let refused = file.write_over(3, b"LA").is_err() && file.write_over(5, b"").is_err();
    Ok((
        file.sent_len(),
        good && refused && file.last_error().is_some(),
    ))
}

#[test]
fn bytes_of_a_file(rt: HostRuntime) -> Result<(), Fail> {
    assert!(rt; file_refuses(rt.alloc())? == (4, true));
    Ok(())
}
