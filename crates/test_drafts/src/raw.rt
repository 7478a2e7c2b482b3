//! Raw samples that are encoded block by block, beside those that are encoded at once.

use flac_bits::{Collected, Memory};
use flac_draft::DraftMemory;
use flac_jobs::{ContainerKind, RawFormat};
use flac_meta::{Block, BlockList, Bytes, Comments, Texts};
use flac_native::{Plan, Profile, encode};
use flac_predict::Search;
use flac_raw::{RawEncoding, RawPlan, audio_of, encode_judged_in, encode_twice, judge};
use std::alloc::Global;
use std::test::Fail;

/// 44100 Hz, two channels and 16 bits, in blocks of 32 samples with a seek point for each 40.
const FORMAT: RawFormat = RawFormat {
    rate: 44100,
    channels: 2,
    bits: 16,
    block: 32,
    seek_every: 40,
};

/// One sample of two channels in blocks of 4096. The marker and STREAMINFO are those of RFC 9639, appendix D.1, and the
/// reference decodes it without a warning.
const ONE: [u8; 57] = [
    0x66, 0x4c, 0x61, 0x43, 0x80, 0x00, 0x00, 0x22, 0x10, 0x00, 0x10, 0x00, 0x00, 0x00, 0x0f, 0x00,
    0x00, 0x0f, 0x0a, 0xc4, 0x42, 0xf0, 0x00, 0x00, 0x00, 0x01, 0x3e, 0x84, 0xb4, 0x18, 0x07, 0xdc,
    0x69, 0x03, 0x07, 0x58, 0x6a, 0x3d, 0xad, 0x1a, 0x2e, 0x0f, 0xff, 0xf8, 0x69, 0x18, 0x00, 0x00,
    0xbf, 0x01, 0x58, 0xfd, 0x01, 0x12, 0x8b, 0x5a, 0xb2,
];

/// The same sample in pages that were made by hand, with a block of no comments.
const ONE_IN_OGG: [u8; 162] = [
    0x4f, 0x67, 0x67, 0x53, 0x00, 0x02, 0x00, 0x00, 0x00, 0x00, 0x00, 0x00, 0x00, 0x00, 0x01, 0x00,
    0x00, 0x00, 0x00, 0x00, 0x00, 0x00, 0x18, 0x59, 0x7d, 0x8f, 0x01, 0x33, 0x7f, 0x46, 0x4c, 0x41,
    0x43, 0x01, 0x00, 0x00, 0x01, 0x66, 0x4c, 0x61, 0x43, 0x00, 0x00, 0x00, 0x22, 0x10, 0x00, 0x10,
    0x00, 0x00, 0x00, 0x0f, 0x00, 0x00, 0x0f, 0x0a, 0xc4, 0x42, 0xf0, 0x00, 0x00, 0x00, 0x01, 0x3e,
    0x84, 0xb4, 0x18, 0x07, 0xdc, 0x69, 0x03, 0x07, 0x58, 0x6a, 0x3d, 0xad, 0x1a, 0x2e, 0x0f, 0x4f,
    0x67, 0x67, 0x53, 0x00, 0x00, 0x00, 0x00, 0x00, 0x00, 0x00, 0x00, 0x00, 0x00, 0x01, 0x00, 0x00,
    0x00, 0x01, 0x00, 0x00, 0x00, 0x60, 0xd1, 0xf6, 0x01, 0x01, 0x0c, 0x84, 0x00, 0x00, 0x08, 0x00,
    0x00, 0x00, 0x00, 0x00, 0x00, 0x00, 0x00, 0x4f, 0x67, 0x67, 0x53, 0x00, 0x04, 0x01, 0x00, 0x00,
    0x00, 0x00, 0x00, 0x00, 0x00, 0x01, 0x00, 0x00, 0x00, 0x02, 0x00, 0x00, 0x00, 0x49, 0x87, 0x2f,
    0x1f, 0x01, 0x0f, 0xff, 0xf8, 0x69, 0x18, 0x00, 0x00, 0xbf, 0x01, 0x58, 0xfd, 0x01, 0x12, 0x8b,
    0x5a, 0xb2,
];

/// Its samples, 25588 and 10416.
const ONE_RAW: [u8; 4] = [0xf4, 0x63, 0xb0, 0x28];

/// What is asked for, with padding of 5 bytes if it is not empty.
fn encoding(
    alloc: Global,
    format: RawFormat,
    search: Option<Search>,
    is_padded: bool,
) -> Result<RawEncoding, Fail> {
    let mut blocks = Vec::new(alloc);
    if is_padded {
        blocks.push(Block::Padding(5))?;
    }
    Ok(RawEncoding {
        profile: Profile::Subset,
        format,
        predictors: Vec::new(alloc),
        search,
        list: BlockList::new(blocks)?,
    })
}

/// 85 samples of two channels, of which the left rise and fall, and the right rise.
fn raw_bytes(alloc: Global) -> Result<Vec<u8>, Fail> {
    let mut bytes = Vec::new(alloc);
    for index in 0..85u8 {
        bytes.push(index.wrapping_mul(index))?;
        bytes.push(index % 3)?;
        bytes.push(index)?;
        bytes.push(0)?;
    }
    Ok(bytes)
}

/// The stream that is encoded at once.
fn at_once(alloc: Global, bytes: &[u8]) -> Result<Vec<u8>, Fail> {
    let asked = encoding(alloc, FORMAT, None, true)?;
    let audio = audio_of(alloc, &mut Memory::new(bytes), Profile::Subset, FORMAT)?;
    let plan = Plan::new(FORMAT.block, &audio, FORMAT.seek_every)?;
    let mut target = Collected::new(alloc);
    encode(alloc, &plan, &asked.list, &audio, &mut target)?;
    Ok(target.into_bytes())
}

/// The first bytes of some, or none if there are not as many.
fn front(bytes: &[u8], count: usize) -> &[u8] {
    bytes.get(..count).unwrap_or(&[])
}

/// The stream of two sources, or the text of the error.
fn twice(
    alloc: Global,
    asked: RawEncoding,
    first: &[u8],
    second: &[u8],
) -> Result<Vec<u8>, &'static str> {
    let mut one = Memory::new(first);
    let mut two = Memory::new(second);
    match encode_twice(alloc, asked, &mut one, &mut two, DraftMemory::new(alloc)) {
        Ok(target) => Ok(target.into_bytes()),
        Err(fault) => Err(fault.as_str()),
    }
}

/// The stream of one sample in Ogg, with a seek point for each `every` samples, or the text of the error. The list has
/// comments, or padding.
fn one_in_ogg(alloc: Global, every: u32, comments: bool) -> Result<Vec<u8>, Fail> {
    let format = RawFormat {
        block: 4096,
        seek_every: every,
        ..FORMAT
    };
    let mut blocks = Vec::new(alloc);
    if comments {
        blocks.push(Block::VorbisComment(Comments {
            vendor: Bytes::from_vec(Vec::new(alloc)),
            list: Texts::from_vec(Vec::new(alloc)),
        }))?;
    } else {
        blocks.push(Block::Padding(5))?;
    }
    let list = BlockList::new(blocks)?;
    let plan = RawPlan::new(
        Profile::Subset,
        format,
        1,
        Vec::new(alloc),
        Some(Search::Full),
    )?;
    let container = ContainerKind::Ogg { serial: 1 };
    let mut source = Memory::new(&ONE_RAW);
    match encode_judged_in(
        alloc,
        container,
        plan,
        list,
        &mut source,
        DraftMemory::new(alloc),
    ) {
        Ok(target) => Ok(target.into_bytes()),
        Err(fault) => Ok(Vec::from_slice(alloc, fault.as_str().as_bytes())?),
    }
}

/// Whether two sources are refused for this reason.
fn is_refused(
    alloc: Global,
    format: RawFormat,
    first: &[u8],
    second: &[u8],
    text: &str,
) -> Result<bool, Fail> {
    let asked = encoding(alloc, format, None, false)?;
    match twice(alloc, asked, first, second) {
        Ok(_) => Ok(false),
        Err(fault) => Ok(fault == text),
    }
}

#[test]
fn the_stream_is_that_at_once(rt: HostRuntime) -> Result<(), Fail> {
    let alloc = rt.alloc();
    let bytes = raw_bytes(alloc)?;
    let once = at_once(alloc, bytes.as_slice())?;
    let asked = encoding(alloc, FORMAT, None, true)?;
    let twice = twice(alloc, asked, bytes.as_slice(), bytes.as_slice())?;
    assert!(rt; twice.as_slice() == once.as_slice());
    Ok(())
}

#[test]
fn one_sample_is_the_stream_of_the_standard(rt: HostRuntime) -> Result<(), Fail> {
    let alloc = rt.alloc();
    let format = RawFormat {
        block: 4096,
        seek_every: 0,
        ..FORMAT
    };
    let asked = encoding(alloc, format, Some(Search::Full), false)?;
    let bytes = twice(alloc, asked, &ONE_RAW, &ONE_RAW)?;
    assert!(rt; bytes.as_slice() == ONE.as_slice());
    Ok(())
}

/// In Ogg, and not without comments or with a seek table.
#[test]
fn one_sample_in_pages(rt: HostRuntime) -> Result<(), Fail> {
    let alloc = rt.alloc();
    assert!(rt; one_in_ogg(alloc, 0, true)?.as_slice() == ONE_IN_OGG.as_slice());
    assert!(rt; one_in_ogg(alloc, 0, false)?.as_slice() == b"37 BadMapping".as_slice());
    assert!(rt; one_in_ogg(alloc, 1, true)?.as_slice() == b"37 BadMapping".as_slice());
    Ok(())
}

#[test]
fn other_bytes_are_told(rt: HostRuntime) -> Result<(), Fail> {
    let alloc = rt.alloc();
    let bytes = raw_bytes(alloc)?;
    let all = bytes.as_slice();
    assert!(rt; is_refused(alloc, FORMAT, all, front(all, 336), "94 Changed")?);
    assert!(rt; is_refused(alloc, FORMAT, all, front(all, 338), "94 Changed")?);
    assert!(rt; is_refused(alloc, FORMAT, front(all, 336), all, "94 Changed")?);
    Ok(())
}

#[test]
fn the_first_reason_is_told(rt: HostRuntime) -> Result<(), Fail> {
    let alloc = rt.alloc();
    let bytes = raw_bytes(alloc)?;
    let all = bytes.as_slice();
    let narrow = RawFormat { bits: 12, ..FORMAT };
    let long = RawFormat {
        block: 8192,
        bits: 12,
        ..FORMAT
    };
    let loud: [u8; 4] = [0, 8, 0, 0];
    assert!(rt; is_refused(alloc, FORMAT, front(all, 3), all, "48 RawLength")?);
    assert!(rt; is_refused(alloc, narrow, &loud, all, "44 SampleTooLarge")?);
    assert!(rt; is_refused(alloc, long, &loud, all, "44 SampleTooLarge")?);
    assert!(rt; is_refused(alloc, long, all, all, "46 BadBlockSize")?);
    Ok(())
}

#[test]
fn samples_are_counted(rt: HostRuntime) -> Result<(), Fail> {
    let alloc = rt.alloc();
    let bytes = raw_bytes(alloc)?;
    let total = judge(
        alloc,
        &mut Memory::new(bytes.as_slice()),
        Profile::Subset,
        FORMAT,
    )?;
    assert!(rt; total == 85);
    Ok(())
}
