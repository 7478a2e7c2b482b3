//! Streams that are encoded a block at a time, as the samples come.

use flac_bits::{Collected, Counted, Memory, Target};
use flac_encoder::{BlockEncoder, StreamEncoder, StreamFormat, block_len};
use flac_meta::BlockList;
use flac_native::{
    Decoder, EncodeBuffers, EncodeFault, LinearPredictor, Profile, SetupFault, StreamInfo,
    predictors_fault,
};
use std::alloc::Global;
use std::mem::drop;
use std::test::Fail;
use test_calls::{Narrow, Recorder, count_rising, number_of, setup_number};

/// One sample of two channels in blocks of 4096, its total and digest unknown.
const ONE: &str =
    "664c614380000022100010000000000000000ac442f00000000000000000000000000000000000000000fff869180000bf0158fd01128b5ab2";

/// An encoder of a format of 44100 Hz and 16 bits, without further blocks.
fn encoder_of<W: Target + Drop>(
    alloc: Global,
    channels: u32,
    block: u32,
    target: W,
) -> Result<StreamEncoder<W>, Fail> {
    let list = BlockList::new(Vec::new(alloc))?;
    let made = StreamEncoder::new(alloc, 44100, 16, channels, block, &list, target);
    drop(list);
    Ok(made?)
}

/// Pushes a block.
fn push<W: Target + Drop>(encoder: &mut StreamEncoder<W>, block: &[&[i32]]) -> u8 {
    number_of(encoder.push(block))
}

/// Pushes a short block, the same once more, no samples, and three channels.
fn short_first<W: Target + Drop>(encoder: &mut StreamEncoder<W>) -> [u8; 4] {
    let (left, right) = ([25588], [10416]);
    let block = [left.as_slice(), right.as_slice()];
    let none: [i32; 0] = [];
    let three = [left.as_slice(), right.as_slice(), left.as_slice()];
    [
        push(encoder, &block),
        push(encoder, &block),
        push(encoder, &[none.as_slice(), none.as_slice()]),
        push(encoder, &three),
    ]
}

/// A short block is the last, and what is refused adds nothing.
#[test]
fn one_sample(rt: HostRuntime) -> Result<(), Fail> {
    let alloc = rt.alloc();
    let mut encoder = encoder_of(alloc, 2, 4096, Collected::new(alloc))?;
    let answers = short_first(&mut encoder);
    let target = encoder.finish()?;
    let wanted = hex::decode(alloc, ONE)?;
    assert!(rt; answers == [0, 19, 46, 42]);
    assert!(rt; target.bytes() == wanted.as_slice());
    Ok(())
}

/// The format of the stream above.
fn format() -> StreamFormat {
    StreamFormat {
        profile: Profile::Subset,
        rate: 44100,
        bits: 16,
        channels: 2,
        block_size: 4096,
    }
}

/// The format of a stream is that of its STREAMINFO, with the largest block size.
#[test]
fn format_of_streaminfo(rt: HostRuntime) -> Result<(), Fail> {
    let info = StreamInfo::new(16, 4096, 0, 0, 44100, 2, 16, 0, [0; 16])?;
    assert!(rt; StreamFormat::of(&info, Profile::Subset) == format());
    Ok(())
}

/// The block of the stream above as a frame by itself, if the format, the block and the list have no fault.
fn one_frame(alloc: Global) -> Result<Option<Vec<u8>>, Fail> {
    let format = StreamFormat {
        profile: Profile::Subset,
        rate: 44100,
        bits: 16,
        channels: 2,
        block_size: 4096,
    };
    let (left, right) = ([25588], [10416]);
    let block = [left.as_slice(), right.as_slice()];
    let list: [LinearPredictor; 0] = [];
    let mut buffers = EncodeBuffers::new_in(alloc, format.profile, format.block_size)?;
    let faults = (
        format.fault(),
        format.block_fault(&block),
        predictors_fault(format.profile, format.rate, &list),
    );
    let frame = match faults {
        (None, None, None) => format
            .encode_block(alloc, &list, &block, 0, &mut buffers)
            .map(Some),
        _ => Ok(None),
    };
    drop(buffers);
    Ok(frame?)
}

/// Whether a stream is its 42 bytes of metadata and this frame.
fn is_frame_of(frame: &[u8], stream: &[u8]) -> bool {
    stream.len() > 42 && frame == &stream[42..]
}

/// A format encodes the block as the frame that the stream has after its metadata.
#[test]
fn one_block(rt: HostRuntime) -> Result<(), Fail> {
    let wanted = hex::decode(rt.alloc(), ONE)?;
    let Some(frame) = one_frame(rt.alloc())? else {
        assert!(rt; false);
        return Ok(());
    };
    assert!(rt; is_frame_of(&frame, &wanted));
    Ok(())
}

/// Encodes a block, and counts its frame: the number of the fault, or 0, and the bytes of the frame.
fn encode_sent(encoder: &mut BlockEncoder, block: &[&[i32]]) -> (u8, usize) {
    match encoder.encode(block) {
        Ok(frame) => {
            encoder.sent(block);
            (0, frame.len())
        }
        Err(fault) => (fault.number(), 0),
    }
}

/// Whether a block is encoded as this frame, twice as long as it is not counted.
fn is_encoded_twice(encoder: &mut BlockEncoder, block: &[&[i32]], stream: &[u8]) -> bool {
    let first = encoder.encode(block).is_ok_and(|f| is_frame_of(&f, stream));
    let second = encoder.encode(block).is_ok_and(|f| is_frame_of(&f, stream));
    first && second && encoder.samples() == 0
}

/// Whether a short block is the last once it is counted, and nothing is encoded after a failure.
fn is_last(encoder: &mut BlockEncoder, block: &[&[i32]]) -> bool {
    let counted = encode_sent(encoder, block) == (0, 15) && encoder.samples() == 1;
    let ended = encode_sent(encoder, block) == (19, 0) && !encoder.is_spent();
    encoder.failed();
    let spent = encode_sent(encoder, block) == (38, 0) && encoder.is_spent();
    counted && ended && spent
}

/// Blocks are encoded without a target: what was not counted is encoded again.
#[test]
fn blocks_alone(rt: HostRuntime) -> Result<(), Fail> {
    let wanted = hex::decode(rt.alloc(), ONE)?;
    let (left, right) = ([25588], [10416]);
    let block = [left.as_slice(), right.as_slice()];
    let mut encoder = BlockEncoder::new(rt.alloc(), &format())?;
    let again = is_encoded_twice(&mut encoder, &block, &wanted);
    let last = is_last(&mut encoder, &block);
    drop(encoder);
    assert!(rt; again && last);
    Ok(())
}

/// The number of the fault for which an encoder of blocks refuses a predictor of this many coefficients, or else 0.
fn order_refused(alloc: Global, coefficients: &[i32]) -> Result<u8, Fail> {
    let Some(predictor) = LinearPredictor::new(2, 0, coefficients) else {
        return Err(Fail::new("no predictor"));
    };
    let list = vec![in alloc; predictor]?;
    let mut encoder = BlockEncoder::new(alloc, &format())?;
    let outcome = encoder.set_predictors(list);
    drop(encoder);
    Ok(setup_number(outcome))
}

#[test]
fn orders_of_blocks(rt: HostRuntime) -> Result<(), Fail> {
    assert!(rt; order_refused(rt.alloc(), &[1; 12])? == 0);
    assert!(rt; order_refused(rt.alloc(), &[1; 13])? == 51);
    Ok(())
}

/// Pushes channels of two lengths, a sample of 17 bits, and a block that is too long.
fn bad_blocks<W: Target + Drop>(encoder: &mut StreamEncoder<W>) -> [u8; 3] {
    let (short, long, large) = ([1; 16], [1; 17], [32768; 16]);
    [
        push(encoder, &[short.as_slice(), long.as_slice()]),
        push(encoder, &[short.as_slice(), large.as_slice()]),
        push(encoder, &[long.as_slice(), long.as_slice()]),
    ]
}

#[test]
fn refused_blocks(rt: HostRuntime) -> Result<(), Fail> {
    let alloc = rt.alloc();
    let mut encoder = encoder_of(alloc, 2, 16, Collected::new(alloc))?;
    let answers = bad_blocks(&mut encoder);
    let target = encoder.finish()?;
    assert!(rt; answers == [43, 44, 46]);
    assert!(rt; target.bytes().len() == 42);
    Ok(())
}

/// Why a block does not fit two channels of 16 bits, and how many samples it has.
#[test]
fn faults_of_blocks(rt: HostRuntime) {
    let format = StreamFormat {
        profile: Profile::Subset,
        rate: 44100,
        bits: 16,
        channels: 2,
        block_size: 16,
    };
    let (short, long, large) = ([1; 16], [1; 17], [32768; 16]);
    let one = [short.as_slice()];
    let two = [short.as_slice(), long.as_slice()];
    let wide = [short.as_slice(), large.as_slice()];
    let good = [long.as_slice(), long.as_slice()];
    assert!(rt; format.block_fault(&one) == Some(SetupFault::BadChannels));
    assert!(rt; format.block_fault(&two) == Some(SetupFault::LengthsDiffer));
    assert!(rt; format.block_fault(&wide) == Some(SetupFault::SampleTooLarge));
    assert!(rt; format.block_fault(&good).is_none());
    assert!(rt; block_len(&good) == 17 && block_len(&[]) == 0);
}

/// A predictor of order 13 is outside the subset at 48000 Hz, and within it above.
#[test]
fn faults_of_predictors(rt: HostRuntime) {
    let Some(predictor) = LinearPredictor::new(2, 0, &[1; 13]) else {
        assert!(rt; false);
        return;
    };
    let list = [predictor];
    let order = predictors_fault(Profile::Subset, 48000, &list);
    assert!(rt; order == Some(SetupFault::PredictorOrder));
    assert!(rt; predictors_fault(Profile::Subset, 48001, &list).is_none());
    assert!(rt; predictors_fault(Profile::Lax, 48000, &list).is_none());
}

/// The number of the fault for which a format is refused, 0 where it is not.
fn refused(alloc: Global, rate: u32, bits: u32, channels: u32, block: u32) -> Result<u8, Fail> {
    let list = BlockList::new(Vec::new(alloc))?;
    let made = StreamEncoder::new(
        alloc,
        rate,
        bits,
        channels,
        block,
        &list,
        Collected::new(alloc),
    );
    drop(list);
    match made {
        Ok(encoder) => {
            drop(encoder);
            Ok(0)
        }
        Err(fault) => Ok(fault.number()),
    }
}

#[test]
fn refused_formats(rt: HostRuntime) -> Result<(), Fail> {
    let rows = [
        (0, 9, 0, 15, 40),
        (44100, 9, 0, 15, 41),
        (44100, 16, 0, 15, 42),
        (44100, 16, 9, 15, 42),
        (44100, 16, 8, 15, 46),
        (48000, 16, 8, 4609, 46),
        (96000, 16, 8, 16385, 46),
        (96000, 16, 8, 16384, 0),
    ];
    for (rate, bits, channels, block, wanted) in rows {
        let found = refused(rt.alloc(), rate, bits, channels, block)?;
        assert!(rt; found == wanted, "{rate} {bits} {channels} {block}");
    }
    Ok(())
}

#[test]
fn texts_of_faults(rt: HostRuntime) {
    let fault = EncodeFault::Setup(SetupFault::TooLong);
    assert!(rt; (fault.number(), fault.as_str()) == (45, "45 TooLong"));
    assert!(rt; EncodeFault::BlockSize.as_str() == "19 BlockSize");
    assert!(rt; EncodeFault::Spent.as_str() == "38 Spent");
}

/// Pushes two blocks, and ends.
fn two_and_finish<W: Target + Drop>(encoder: StreamEncoder<W>) -> [u8; 3] {
    let mut encoder = encoder;
    let samples = [1; 16];
    let first = push(&mut encoder, &[samples.as_slice()]);
    let second = push(&mut encoder, &[samples.as_slice()]);
    let end = match encoder.finish() {
        Ok(target) => {
            drop(target);
            0
        }
        Err(fault) => fault.number(),
    };
    [first, second, end]
}

/// Pushes two blocks to a target with this room, and ends.
fn two_with_room(alloc: Global, room: usize) -> Result<[u8; 3], Fail> {
    let encoder = encoder_of(alloc, 1, 16, Counted::new(Narrow::new(room)))?;
    Ok(two_and_finish(encoder))
}

/// A target that fails in the first frame, after which nothing is encoded.
#[test]
fn spent(rt: HostRuntime) -> Result<(), Fail> {
    assert!(rt; two_with_room(rt.alloc(), 50)? == [39, 38, 38]);
    assert!(rt; two_with_room(rt.alloc(), 500)? == [0, 0, 0]);
    Ok(())
}

/// Records two blocks of 16 samples and one of 5, each encoded as it comes.
fn record<W: Target + Drop>(encoder: &mut StreamEncoder<W>) -> Result<(), EncodeFault> {
    let mut recorder = Recorder::new();
    let mut block = [0; 16];
    recorder.fill(&mut block);
    encoder.push(&[block.as_slice()])?;
    recorder.fill(&mut block);
    encoder.push(&[block.as_slice()])?;
    recorder.fill(&mut block);
    encoder.push(&[&block[..5]])
}

/// What a recorder pushes.
fn pushed(alloc: Global) -> Result<(Result<(), EncodeFault>, Collected), Fail> {
    let mut encoder = encoder_of(alloc, 1, 16, Collected::new(alloc))?;
    let outcome = record(&mut encoder);
    let target = encoder.finish()?;
    Ok((outcome, target))
}

/// What a recorder pushes is read again.
#[test]
fn recorded(rt: HostRuntime) -> Result<(), Fail> {
    let (outcome, target) = pushed(rt.alloc())?;
    let mut decoder = Decoder::new(rt.alloc(), Memory::new(target.bytes()), Profile::Subset);
    let count = count_rising(&mut decoder);
    drop(decoder);
    assert!(rt; outcome == Ok(()));
    assert!(rt; count == Ok(37));
    Ok(())
}
