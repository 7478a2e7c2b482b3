//! Ogg streams that are encoded a block at a time, as the samples come. The sums of the pages were worked out apart
//! from this project.

use flac_bits::{Collected, Counted, Memory, Target};
use flac_encoder::OggEncoder;
use flac_frame::Audio;
use flac_meta::{Block, BlockList, Bytes, Comments, Texts};
use flac_native::{EncodeFault, Plan, Profile};
use flac_ogg::{encode_ogg, ogg_decoder};
use std::alloc::Global;
use std::mem::drop;
use std::test::Fail;
use test_calls::{Narrow, Recorder, count_rising, number_of};
use test_vectors::PAGES_OF_PUSHES;

/// No samples: the block's page is marked last.
const NO_FRAME: &str =
    "4f676753000200000000000000000100000000000000bb6e652301337f464c414301000001664c614300000022100010000000000000000ac442f000000000000000000000000000000000000000004f67675300040000000000000000010000000100000099fee768010c840000080000000000000000";

/// A block of no vendor and no comments, and after it this many paddings; or, if it is not asked for, the paddings
/// alone.
fn list_of(alloc: Global, comments: bool, paddings: usize) -> Result<BlockList, Fail> {
    let mut blocks = Vec::new(alloc);
    if comments {
        blocks.push(Block::VorbisComment(Comments {
            vendor: Bytes::from_vec(Vec::new(alloc)),
            list: Texts::from_vec(Vec::new(alloc)),
        }))?;
    }
    for _ in 0..paddings {
        blocks.push(Block::Padding(0))?;
    }
    Ok(BlockList::new(blocks)?)
}

/// An encoder of a format of 44100 Hz and 16 bits, with that block and n paddings.
fn encoder_of<W: Target + Drop>(
    alloc: Global,
    channels: u32,
    block: u32,
    paddings: usize,
    target: W,
) -> Result<OggEncoder<W>, Fail> {
    let list = list_of(alloc, true, paddings)?;
    let made = OggEncoder::new(alloc, 1, 44100, 16, channels, block, &list, target);
    drop(list);
    Ok(made?)
}

/// Pushes a block.
fn push<W: Target + Drop>(encoder: &mut OggEncoder<W>, block: &[&[i32]]) -> u8 {
    number_of(encoder.push(block))
}

/// Pushes a short block, the same once more, no samples, and three channels.
fn short_first<W: Target + Drop>(encoder: &mut OggEncoder<W>) -> [u8; 4] {
    let (left, right) = ([25588], [10416]);
    let block = [left.as_slice(), right.as_slice()];
    let none: [i32; 0] = [];
    let three = [left.as_slice(), right.as_slice(), left.as_slice()];
    [
        push(encoder, &block),
        push(encoder, &block),
        push(encoder, &[none.as_slice(), none.as_slice()]),
        push(encoder, &three),
    ]
}

/// A short block is the last, and what is refused adds nothing.
#[test]
fn one_sample(rt: HostRuntime) -> Result<(), Fail> {
    let alloc = rt.alloc();
    let mut encoder = encoder_of(alloc, 2, 4096, 0, Collected::new(alloc))?;
    let answers = short_first(&mut encoder);
    let target = encoder.finish()?;
    let wanted = hex::decode(alloc, PAGES_OF_PUSHES)?;
    assert!(rt; answers == [0, 19, 46, 42]);
    assert!(rt; target.bytes() == wanted.as_slice());
    Ok(())
}

/// A stream that ends at once: the last header page is marked.
#[test]
fn no_samples(rt: HostRuntime) -> Result<(), Fail> {
    let alloc = rt.alloc();
    let encoder = encoder_of(alloc, 2, 4096, 0, Collected::new(alloc))?;
    let target = encoder.finish()?;
    let wanted = hex::decode(alloc, NO_FRAME)?;
    assert!(rt; target.bytes() == wanted.as_slice());
    Ok(())
}

/// Pushes channels of two lengths, a sample of 17 bits, and a block that is too long.
fn bad_blocks<W: Target + Drop>(encoder: &mut OggEncoder<W>) -> [u8; 4] {
    let (short, long, large) = ([1; 16], [1; 17], [32768; 17]);
    [
        push(encoder, &[short.as_slice(), long.as_slice()]),
        push(encoder, &[short.as_slice(), &large[..16]]),
        push(encoder, &[long.as_slice(), large.as_slice()]),
        push(encoder, &[long.as_slice(), long.as_slice()]),
    ]
}

#[test]
fn refused_blocks(rt: HostRuntime) -> Result<(), Fail> {
    let alloc = rt.alloc();
    let mut encoder = encoder_of(alloc, 2, 16, 0, Collected::new(alloc))?;
    let answers = bad_blocks(&mut encoder);
    let target = encoder.finish()?;
    assert!(rt; answers == [43, 44, 44, 46]);
    assert!(rt; target.bytes().len() == 119);
    Ok(())
}

/// The number of the fault for which a format or a list is refused, 0 where it is not.
fn refused(
    alloc: Global,
    rate: u32,
    bits: u32,
    channels: u32,
    block: u32,
    comments: bool,
) -> Result<u8, Fail> {
    let list = list_of(alloc, comments, 1)?;
    let made = OggEncoder::new(
        alloc,
        1,
        rate,
        bits,
        channels,
        block,
        &list,
        Collected::new(alloc),
    );
    drop(list);
    match made {
        Ok(encoder) => {
            drop(encoder);
            Ok(0)
        }
        Err(fault) => Ok(fault.number()),
    }
}

#[test]
fn refused_formats(rt: HostRuntime) -> Result<(), Fail> {
    let rows = [
        (0, 9, 0, 15, false, 40),
        (44100, 9, 0, 15, false, 41),
        (44100, 16, 0, 15, false, 42),
        (44100, 16, 9, 15, false, 42),
        (44100, 16, 8, 15, false, 46),
        (44100, 16, 8, 4608, false, 37),
        (96000, 16, 8, 16384, true, 0),
    ];
    for (rate, bits, channels, block, comments, wanted) in rows {
        let found = refused(rt.alloc(), rate, bits, channels, block, comments)?;
        assert!(rt; found == wanted, "{rate} {bits} {channels} {block}");
    }
    Ok(())
}

/// Pushes two blocks, and ends.
fn two_and_finish<W: Target + Drop>(encoder: OggEncoder<W>) -> [u8; 3] {
    let mut encoder = encoder;
    let samples = [1; 16];
    let first = push(&mut encoder, &[samples.as_slice()]);
    let second = push(&mut encoder, &[samples.as_slice()]);
    let end = match encoder.finish() {
        Ok(target) => {
            drop(target);
            0
        }
        Err(fault) => fault.number(),
    };
    [first, second, end]
}

/// Pushes two blocks to a target with this room, and ends.
fn two_with_room(alloc: Global, room: usize) -> Result<[u8; 3], Fail> {
    let encoder = encoder_of(alloc, 1, 16, 0, Counted::new(Narrow::new(room)))?;
    Ok(two_and_finish(encoder))
}

/// A target that fails in the second header packet, after which the first frame is held, and one that fails at the
/// end.
#[test]
fn spent(rt: HostRuntime) -> Result<(), Fail> {
    assert!(rt; two_with_room(rt.alloc(), 100)? == [39, 38, 38]);
    assert!(rt; two_with_room(rt.alloc(), 160)? == [0, 0, 39]);
    assert!(rt; two_with_room(rt.alloc(), 500)? == [0, 0, 0]);
    Ok(())
}

/// Records two blocks of 16 samples and one of 5, each encoded as it comes.
fn record<W: Target + Drop>(encoder: &mut OggEncoder<W>) -> Result<(), EncodeFault> {
    let mut recorder = Recorder::new();
    let mut block = [0; 16];
    recorder.fill(&mut block);
    encoder.push(&[block.as_slice()])?;
    recorder.fill(&mut block);
    encoder.push(&[block.as_slice()])?;
    recorder.fill(&mut block);
    encoder.push(&[&block[..5]])
}

/// What a recorder pushes, with two paddings after the comments.
fn recorded(alloc: Global) -> Result<(Result<(), EncodeFault>, Collected), Fail> {
    let mut encoder = encoder_of(alloc, 1, 16, 2, Collected::new(alloc))?;
    let outcome = record(&mut encoder);
    let target = encoder.finish()?;
    Ok((outcome, target))
}

/// What a recorder pushes is read again.
#[test]
fn read_again(rt: HostRuntime) -> Result<(), Fail> {
    let (outcome, target) = recorded(rt.alloc())?;
    let mut decoder = ogg_decoder(rt.alloc(), Memory::new(target.bytes()), Profile::Subset)?;
    let count = count_rising(&mut decoder);
    drop(decoder);
    assert!(rt; outcome == Ok(()));
    assert!(rt; count == Ok(37));
    Ok(())
}

/// How many header packets the first page of a stream states, in its bytes 35 and 36, if comments and n paddings
/// come after STREAMINFO.
fn headers_stated(alloc: Global, paddings: usize) -> Result<u32, Fail> {
    let encoder = encoder_of(alloc, 1, 16, paddings, Collected::new(alloc))?;
    let target = encoder.finish()?;
    let bytes = target.bytes();
    if bytes.len() < 37 {
        return Err(Fail::new("no first page"));
    }
    Ok(u32::from(bytes[35]) * 256 + u32::from(bytes[36]))
}

/// The mapping states how many header packets follow the first, or 0 if 16 bits cannot hold that (RFC 9639, section
/// 10.1).
#[test]
fn header_packets_are_counted(rt: HostRuntime) -> Result<(), Fail> {
    for (paddings, wanted) in [(0, 1), (65534, 65535), (65535, 0)] {
        let found = headers_stated(rt.alloc(), paddings)?;
        assert!(rt; found == wanted, "{paddings}");
    }
    Ok(())
}

/// The same samples, encoded at once.
fn at_once(alloc: Global) -> Result<Collected, Fail> {
    let channels = vec![in alloc; (0..37).collect(alloc)?]?;
    let audio = Audio::new(44100, 16, channels)?;
    let plan = Plan::new_in(audio.profile(), 16, &audio, 0)?;
    let list = list_of(alloc, true, 2)?;
    let mut target = Collected::new(alloc);
    let outcome = encode_ogg(alloc, 1, &plan, &list, &audio, &mut target);
    drop(list);
    outcome?;
    Ok(target)
}

/// Whether two streams differ at most in the first page, of 79 bytes, which has STREAMINFO: its sum is at 22, and the
/// frames' sizes, the number of samples and the digest are from 53 on.
fn differ_in_info(a: &[u8], b: &[u8]) -> bool {
    a.len() == b.len()
        && a.len() > 79
        && a[..22] == b[..22]
        && a[26..49] == b[26..49]
        && a[79..] == b[79..]
}

/// The pages are those of samples that are encoded at once, but for what STREAMINFO states of all samples.
#[test]
fn as_at_once(rt: HostRuntime) -> Result<(), Fail> {
    let (_, pushed) = recorded(rt.alloc())?;
    let whole = at_once(rt.alloc())?;
    assert!(rt; differ_in_info(pushed.bytes(), whole.bytes()));
    Ok(())
}
