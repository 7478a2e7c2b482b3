//! Ogg streams whose first page is written last.

use flac_bits::{Collected, send_all};
use flac_draft::{DraftFile, DraftMemory, OggDraftEncoder, Rewritable};
use flac_encoder::{OggEncoder, StreamFormat};
use flac_meta::{Block, BlockList, Bytes, Comments, Texts};
use flac_native::{EncodeFault, LinearPredictor, Profile};
use flac_predict::Search;
use std::alloc::Global;
use std::io::Cursor;
use std::test::Fail;

/// 44100 Hz, one channel and 16 bits, in blocks of 16 samples.
const FORMAT: StreamFormat = StreamFormat {
    profile: Profile::Subset,
    rate: 44100,
    bits: 16,
    channels: 1,
    block_size: 16,
};

/// 40 ones of one channel in blocks of 16. The first page and the frames are those of the reference's encoder, in Ogg
/// and in a native stream; the other pages were made by hand. The reference decodes it without a warning.
const ONES: [u8; 239] = [
    0x4f, 0x67, 0x67, 0x53, 0x00, 0x02, 0x00, 0x00, 0x00, 0x00, 0x00, 0x00, 0x00, 0x00, 0x01, 0x00,
    0x00, 0x00, 0x00, 0x00, 0x00, 0x00, 0x80, 0x9f, 0xc2, 0x31, 0x01, 0x33, 0x7f, 0x46, 0x4c, 0x41,
    0x43, 0x01, 0x00, 0x00, 0x01, 0x66, 0x4c, 0x61, 0x43, 0x00, 0x00, 0x00, 0x22, 0x00, 0x10, 0x00,
    0x10, 0x00, 0x00, 0x0c, 0x00, 0x00, 0x0c, 0x0a, 0xc4, 0x40, 0xf0, 0x00, 0x00, 0x00, 0x28, 0x64,
    0xc6, 0xf3, 0x46, 0x36, 0xee, 0x64, 0xb1, 0x14, 0x37, 0x93, 0x39, 0x31, 0x6c, 0x00, 0xc7, 0x4f,
    0x67, 0x67, 0x53, 0x00, 0x00, 0x00, 0x00, 0x00, 0x00, 0x00, 0x00, 0x00, 0x00, 0x01, 0x00, 0x00,
    0x00, 0x01, 0x00, 0x00, 0x00, 0x60, 0xd1, 0xf6, 0x01, 0x01, 0x0c, 0x84, 0x00, 0x00, 0x08, 0x00,
    0x00, 0x00, 0x00, 0x00, 0x00, 0x00, 0x00, 0x4f, 0x67, 0x67, 0x53, 0x00, 0x00, 0x10, 0x00, 0x00,
    0x00, 0x00, 0x00, 0x00, 0x00, 0x01, 0x00, 0x00, 0x00, 0x02, 0x00, 0x00, 0x00, 0xa4, 0xaf, 0x67,
    0x08, 0x01, 0x0c, 0xff, 0xf8, 0x69, 0x08, 0x00, 0x0f, 0x30, 0x00, 0x00, 0x01, 0xc6, 0x85, 0x4f,
    0x67, 0x67, 0x53, 0x00, 0x00, 0x20, 0x00, 0x00, 0x00, 0x00, 0x00, 0x00, 0x00, 0x01, 0x00, 0x00,
    0x00, 0x03, 0x00, 0x00, 0x00, 0xf4, 0x70, 0xcf, 0xde, 0x01, 0x0c, 0xff, 0xf8, 0x69, 0x08, 0x01,
    0x0f, 0x25, 0x00, 0x00, 0x01, 0x3a, 0x80, 0x4f, 0x67, 0x67, 0x53, 0x00, 0x04, 0x28, 0x00, 0x00,
    0x00, 0x00, 0x00, 0x00, 0x00, 0x01, 0x00, 0x00, 0x00, 0x04, 0x00, 0x00, 0x00, 0xd8, 0x5e, 0x66,
    0xf6, 0x01, 0x0c, 0xff, 0xf8, 0x69, 0x08, 0x02, 0x07, 0x22, 0x00, 0x00, 0x01, 0xdd, 0x40,
];

/// One sample of two channels in blocks of 4096, in pages that were made by hand.
const ONE: [u8; 162] = [
    0x4f, 0x67, 0x67, 0x53, 0x00, 0x02, 0x00, 0x00, 0x00, 0x00, 0x00, 0x00, 0x00, 0x00, 0x01, 0x00,
    0x00, 0x00, 0x00, 0x00, 0x00, 0x00, 0x18, 0x59, 0x7d, 0x8f, 0x01, 0x33, 0x7f, 0x46, 0x4c, 0x41,
    0x43, 0x01, 0x00, 0x00, 0x01, 0x66, 0x4c, 0x61, 0x43, 0x00, 0x00, 0x00, 0x22, 0x10, 0x00, 0x10,
    0x00, 0x00, 0x00, 0x0f, 0x00, 0x00, 0x0f, 0x0a, 0xc4, 0x42, 0xf0, 0x00, 0x00, 0x00, 0x01, 0x3e,
    0x84, 0xb4, 0x18, 0x07, 0xdc, 0x69, 0x03, 0x07, 0x58, 0x6a, 0x3d, 0xad, 0x1a, 0x2e, 0x0f, 0x4f,
    0x67, 0x67, 0x53, 0x00, 0x00, 0x00, 0x00, 0x00, 0x00, 0x00, 0x00, 0x00, 0x00, 0x01, 0x00, 0x00,
    0x00, 0x01, 0x00, 0x00, 0x00, 0x60, 0xd1, 0xf6, 0x01, 0x01, 0x0c, 0x84, 0x00, 0x00, 0x08, 0x00,
    0x00, 0x00, 0x00, 0x00, 0x00, 0x00, 0x00, 0x4f, 0x67, 0x67, 0x53, 0x00, 0x04, 0x01, 0x00, 0x00,
    0x00, 0x00, 0x00, 0x00, 0x00, 0x01, 0x00, 0x00, 0x00, 0x02, 0x00, 0x00, 0x00, 0x49, 0x87, 0x2f,
    0x1f, 0x01, 0x0f, 0xff, 0xf8, 0x69, 0x18, 0x00, 0x00, 0xbf, 0x01, 0x58, 0xfd, 0x01, 0x12, 0x8b,
    0x5a, 0xb2,
];

/// No samples of two channels: no page ends a frame, and the page of the comments is marked last.
const NONE: [u8; 119] = [
    0x4f, 0x67, 0x67, 0x53, 0x00, 0x02, 0x00, 0x00, 0x00, 0x00, 0x00, 0x00, 0x00, 0x00, 0x01, 0x00,
    0x00, 0x00, 0x00, 0x00, 0x00, 0x00, 0x4b, 0xd0, 0x7a, 0x11, 0x01, 0x33, 0x7f, 0x46, 0x4c, 0x41,
    0x43, 0x01, 0x00, 0x00, 0x01, 0x66, 0x4c, 0x61, 0x43, 0x00, 0x00, 0x00, 0x22, 0x10, 0x00, 0x10,
    0x00, 0x00, 0x00, 0x00, 0x00, 0x00, 0x00, 0x0a, 0xc4, 0x42, 0xf0, 0x00, 0x00, 0x00, 0x00, 0xd4,
    0x1d, 0x8c, 0xd9, 0x8f, 0x00, 0xb2, 0x04, 0xe9, 0x80, 0x09, 0x98, 0xec, 0xf8, 0x42, 0x7e, 0x4f,
    0x67, 0x67, 0x53, 0x00, 0x04, 0x00, 0x00, 0x00, 0x00, 0x00, 0x00, 0x00, 0x00, 0x01, 0x00, 0x00,
    0x00, 0x01, 0x00, 0x00, 0x00, 0x99, 0xfe, 0xe7, 0x68, 0x01, 0x0c, 0x84, 0x00, 0x00, 0x08, 0x00,
    0x00, 0x00, 0x00, 0x00, 0x00, 0x00, 0x00,
];

/// A list with no comments, or with padding alone.
fn list_of(alloc: Global, comments: bool) -> Result<BlockList, Fail> {
    let mut blocks = Vec::new(alloc);
    if comments {
        blocks.push(Block::VorbisComment(Comments {
            vendor: Bytes::from_vec(Vec::new(alloc)),
            list: Texts::from_vec(Vec::new(alloc)),
        }))?;
    } else {
        blocks.push(Block::Padding(0))?;
    }
    Ok(BlockList::new(blocks)?)
}

/// An encoder of a stream with serial number 1.
fn encoder_of<W: Rewritable + Drop>(
    alloc: Global,
    format: &StreamFormat,
    target: W,
) -> Result<OggDraftEncoder<W>, Fail> {
    let list = list_of(alloc, true)?;
    Ok(OggDraftEncoder::new_in(alloc, 1, format, list, target)?)
}

/// Pushes 40 ones.
fn push_ones<W: Rewritable + Drop>(encoder: &mut OggDraftEncoder<W>) -> Result<(), Fail> {
    let ones = [1; 16];
    encoder.push(&[ones.as_slice()])?;
    encoder.push(&[ones.as_slice()])?;
    encoder.push(&[&ones[..8]])?;
    Ok(())
}

/// These ones after three bytes.
fn ones_in_memory(alloc: Global) -> Result<Vec<u8>, Fail> {
    let mut target = DraftMemory::new(alloc);
    send_all(&mut target, b"ID3")?;
    let mut encoder = encoder_of(alloc, &FORMAT, target)?;
    push_ones(&mut encoder)?;
    Ok(encoder.finish()?.into_bytes())
}

#[test]
fn ones_in_pages(rt: HostRuntime) -> Result<(), Fail> {
    let bytes = ones_in_memory(rt.alloc())?;
    assert!(rt; bytes.starts_with(b"ID3"));
    assert!(rt; bytes.get(3..).unwrap_or(&[]) == ONES.as_slice());
    Ok(())
}

/// The same in a place that is like a file, which is lent to the encoder.
fn ones_in_place(alloc: Global) -> Result<Vec<u8>, Fail> {
    let mut file = DraftFile::new(Cursor::new(Vec::new(alloc)))?;
    let mut encoder = encoder_of(alloc, &FORMAT, &mut file)?;
    push_ones(&mut encoder)?;
    let _file = encoder.finish()?;
    Ok(file.into_inner().into_inner())
}

#[test]
fn ones_in_a_file(rt: HostRuntime) -> Result<(), Fail> {
    let bytes = ones_in_place(rt.alloc())?;
    assert!(rt; bytes.as_slice() == ONES.as_slice());
    Ok(())
}

/// 44100 Hz, two channels and 16 bits, in blocks of 4096 samples.
const STEREO: StreamFormat = StreamFormat {
    channels: 2,
    block_size: 4096,
    ..FORMAT
};

/// A stream that ends at once.
#[test]
fn no_samples(rt: HostRuntime) -> Result<(), Fail> {
    let alloc = rt.alloc();
    let encoder = encoder_of(alloc, &STEREO, DraftMemory::new(alloc))?;
    let bytes = encoder.finish()?.into_bytes();
    assert!(rt; bytes.as_slice() == NONE.as_slice());
    Ok(())
}

/// The number of a result: 0 for none.
fn number_of(outcome: Result<(), EncodeFault>) -> u8 {
    match outcome {
        Ok(()) => 0,
        Err(fault) => fault.number(),
    }
}

/// Pushes a short block, the same once more, no samples, and three channels.
fn short_first(encoder: &mut OggDraftEncoder<DraftMemory>) -> [u8; 4] {
    let (left, right) = ([25588], [10416]);
    let block = [left.as_slice(), right.as_slice()];
    let none: [i32; 0] = [];
    let three = [left.as_slice(), right.as_slice(), left.as_slice()];
    [
        number_of(encoder.push(&block)),
        number_of(encoder.push(&block)),
        number_of(encoder.push(&[none.as_slice(), none.as_slice()])),
        number_of(encoder.push(&three)),
    ]
}

/// A short block is the last, and what is refused adds nothing.
#[test]
fn one_sample(rt: HostRuntime) -> Result<(), Fail> {
    let alloc = rt.alloc();
    let mut encoder = encoder_of(alloc, &STEREO, DraftMemory::new(alloc))?;
    let answers = short_first(&mut encoder);
    let bytes = encoder.finish()?.into_bytes();
    assert!(rt; answers == [0, 19, 46, 42]);
    assert!(rt; bytes.as_slice() == ONE.as_slice());
    Ok(())
}

/// The number of the reason why no encoder is made; 0 for none.
fn refused(alloc: Global, format: &StreamFormat, comments: bool) -> Result<u8, Fail> {
    let list = list_of(alloc, comments)?;
    match OggDraftEncoder::new_in(alloc, 1, format, list, DraftMemory::new(alloc)) {
        Ok(_) => Ok(0),
        Err(fault) => Ok(fault.number()),
    }
}

/// A format without channels, and a list without comments.
#[test]
fn no_encoder(rt: HostRuntime) -> Result<(), Fail> {
    let alloc = rt.alloc();
    let mute = StreamFormat {
        channels: 0,
        ..FORMAT
    };
    assert!(rt; refused(alloc, &FORMAT, true)? == 0);
    assert!(rt; refused(alloc, &FORMAT, false)? == 37);
    assert!(rt; refused(alloc, &mute, false)? == 42);
    Ok(())
}

/// One predictor.
fn predictors(alloc: Global) -> Result<Vec<LinearPredictor>, Fail> {
    let mut list = Vec::new(alloc);
    if let Some(predictor) = LinearPredictor::new(3, 0, &[2, -1]) {
        list.push(predictor)?;
    }
    Ok(list)
}

/// A stream by a predictor and a search.
fn searched(alloc: Global, block: &[&[i32]]) -> Result<Vec<u8>, Fail> {
    let mut encoder = encoder_of(alloc, &WIDE, DraftMemory::new(alloc))?;
    encoder.set_predictors(predictors(alloc)?)?;
    encoder.set_search(Some(Search::Full))?;
    encoder.push(block)?;
    Ok(encoder.finish()?.into_bytes())
}

/// The same with the first page as it is written first.
fn searched_at_once(alloc: Global, block: &[&[i32]]) -> Result<Vec<u8>, Fail> {
    let list = list_of(alloc, true)?;
    let mut encoder = OggEncoder::new_in(alloc, 1, &WIDE, &list, Collected::new(alloc))?;
    encoder.set_predictors(predictors(alloc)?)?;
    encoder.set_search(Some(Search::Full))?;
    encoder.push(block)?;
    Ok(encoder.finish()?.into_bytes())
}

/// One channel in blocks of 80 samples.
const WIDE: StreamFormat = StreamFormat {
    block_size: 80,
    ..FORMAT
};

/// Samples that rise and fall.
const WAVE: [i32; 80] = [
    -500, -493, -472, -437, -388, -325, -248, -157, -52, 67, 200, 347, -492, -317, -128, 75, 292,
    -477, -232, 27, 300, -413, -112, 203, -468, -125, 232, -397, -12, 387, -200, 227, -332, 123,
    -408, 75, -428, 83, -392, 147, -300, 267, -152, 443, 52, -325, 312, -37, -372, 307, 0, -293,
    428, 163, -88, -325, 452, 243, 48, -133, -300, -453, 408, 283, 172, 75, -8, -77, -132, -173,
    -200, -213, -212, -197, -168, -125, -68, 3, 88, 187,
];

/// What is tried for a frame is that of the other encoder, and the first page is another one.
#[test]
fn frames_of_a_search(rt: HostRuntime) -> Result<(), Fail> {
    let alloc = rt.alloc();
    let block = [WAVE.as_slice()];
    let draft = searched(alloc, &block)?;
    let stream = searched_at_once(alloc, &block)?;
    assert!(rt; draft.len() == stream.len());
    assert!(rt; draft.get(79..).unwrap_or(&[]) == stream.get(79..).unwrap_or(&[]));
    assert!(rt; draft.get(..79).unwrap_or(&[]) != stream.get(..79).unwrap_or(&[]));
    Ok(())
}
