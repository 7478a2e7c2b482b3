//! Streams outside the streamable subset (RFC 9639, section 7) that are written: rates and depths without a code, long
//! blocks, partition orders above 8. Their bytes were put together apart from this project; the reference decodes them.

ghost use Rattle.std.specs.Prelude.{◌≡◌, true};
ghost use Rattle.flac_native.specs.Given.{fits_plan};

use crate::lax::refusal;
use flac_bits::Collected;
use flac_encoder::{OggEncoder, StreamEncoder, StreamFormat};
use flac_frame::Audio;
use flac_meta::BlockList;
use flac_native::{Plan, Profile};
use flac_ogg::{encode_and_decode, encode_ogg};
use std::alloc::Global;
use std::mem::drop;
use std::test::Fail;
use test_calls::{encoded, encoded_by, no_comments, number_of};
use test_vectors::{OUTSIDE, OUTSIDE_PAGES, OUTSIDE_PUSHED, bursts, fields_of, pair_of};

/// Rate and depth; the block size, which is also the number of samples; and the stream of zeros.
const SILENT: &str =
    "44100 16 | 8192 | 664c6143800000222000200000000b00000b0ac440f000002000ce338fe6899778aacfc28414f2d9498bfff8d90800371003c0914d
44100 16 | 65535 | 664c614380000022ffffffff00000d00000d0ac440f00000ffff265197b2885675ec535ec13c1bb7fea0fff8790800fffe421003c0e665";

/// That many zeros of one channel.
fn zeros(alloc: Global, format: &str, count: usize) -> Result<Audio, Fail> {
    let (rate, bits) = pair_of(format)?;
    let channels = vec![in alloc; vec![in alloc; 0; count]?]?;
    Ok(Audio::new_in(Profile::Lax, rate, bits, channels)?)
}

/// The stream of a row.
fn silence_of(alloc: Global, format: &str, count: &str) -> Result<Vec<u8>, Fail> {
    let block = count.parse::<u32>()?;
    let audio = zeros(alloc, format, block as usize)?;
    encoded(alloc, &audio, block, 0)
}

/// Whether bytes are a stream outside the streamable subset, refused there in frame 0.
fn is_outside(alloc: Global, bytes: &[u8]) -> Result<bool, Fail> {
    let subset = refusal(alloc, bytes, Profile::Subset)?;
    let lax = refusal(alloc, bytes, Profile::Lax)?;
    Ok(subset.as_str() == "frame 0: 14 NotSubset" && lax.as_str() == "none")
}

/// Whether the stream of a row is written, and is outside the streamable subset.
fn is_silent(alloc: Global, row: &str) -> Result<bool, Fail> {
    let (format, count, wanted) = fields_of(row);
    let bytes = silence_of(alloc, format, count)?;
    let wanted = hex::decode(alloc, wanted)?;
    Ok(bytes.as_slice() == wanted.as_slice() && is_outside(alloc, &bytes)?)
}

#[test]
fn silence(rt: HostRuntime) -> Result<(), Fail> {
    for row in SILENT.lines() {
        assert!(rt; is_silent(rt.alloc(), row)?, "{row}");
    }
    Ok(())
}

/// The pages of samples by a plan, with that block.
fn pages(alloc: Global, plan: &Plan, audio: &Audio) -> Result<Vec<u8>, Fail>
    requires { fits_plan plan.now audio.now ≡ true }
{
    let list = no_comments(alloc)?;
    let mut target = Collected::new(alloc);
    let outcome = encode_ogg(alloc, 1, plan, &list, audio, &mut target);
    drop(list);
    outcome?;
    Ok(target.into_bytes())
}

/// Samples by a plan, encoded and decoded again in one call: in pages with that block, or natively without blocks.
fn both_ways(
    alloc: Global,
    serial: Option<u32>,
    plan: &Plan,
    audio: &Audio,
) -> Result<Vec<u8>, Fail>
    requires { fits_plan plan.now audio.now ≡ true }
{
    let list = if serial.is_some() {
        no_comments(alloc)?
    } else {
        BlockList::new(Vec::new(alloc))?
    };
    let outcome = encode_and_decode(alloc, serial, plan, &list, audio);
    drop(list);
    Ok(outcome?)
}

/// Whether this stream comes of samples by a plan, and these pages: by each call that encodes into them.
pub(crate) fn come_out(
    alloc: Global,
    plan: &Plan,
    audio: &Audio,
    stream: &str,
    paged: &str,
) -> Result<bool, Fail>
    requires { fits_plan plan.now audio.now ≡ true }
{
    let (stream, paged) = (hex::decode(alloc, stream)?, hex::decode(alloc, paged)?);
    let native = encoded_by(alloc, plan, audio)? == stream;
    let ogg = pages(alloc, plan, audio)? == paged;
    let native_again = both_ways(alloc, None, plan, audio)? == stream;
    let ogg_again = both_ways(alloc, Some(1), plan, audio)? == paged;
    Ok(native && ogg && native_again && ogg_again)
}

/// The same of bytes in hex.
fn are_outside(alloc: Global, digits: &str) -> Result<bool, Fail> {
    let bytes = hex::decode(alloc, digits)?;
    is_outside(alloc, &bytes)
}

/// Sixteen zeros of 5 bits at 65537 Hz, in both containers.
#[test]
fn in_both_containers(rt: HostRuntime) -> Result<(), Fail> {
    assert!(rt; are_outside(rt.alloc(), OUTSIDE)?);
    assert!(rt; are_outside(rt.alloc(), OUTSIDE_PAGES)?);
    let audio = zeros(rt.alloc(), "65537 5", 16)?;
    let plan = Plan::new_in(audio.profile(), 16, &audio, 0)?;
    assert!(rt; plan.profile() == Profile::Lax);
    assert!(rt; come_out(rt.alloc(), &plan, &audio, OUTSIDE, OUTSIDE_PAGES)?);
    Ok(())
}

// ---- partition orders above 8

/// The profile's name; the number of samples of one channel, which is also the block size, and how many of them are
/// loud and quiet by turns; and the stream: its bytes counted, its marker and STREAMINFO, and the CRC-16 of its frame.
/// All forms of the subframe were tried apart from this project. Without the limits partitions have 9 and 127 samples.
const BURSTS: &str =
    "lax | 4608 9 | 6332 664c614380000022120012000018920018920ac44170000012009d0ec67f81a9a71d90aad480d037b581 0bf2
subset | 4608 9 | 10278 664c614380000022120012000027fc0027fc0ac44170000012009d0ec67f81a9a71d90aad480d037b581 0bb4
lax | 65024 127 | 81910 664c614380000022fe00fe00013fcc013fcc0ac441700000fe006b6d185b1b781cd577f088b6b73df15a a66a";

/// The stream of noise of 18 bits and of 2 bits by turns, of 24 bits at 44100 Hz.
fn bursts_of(alloc: Global, profile: Profile, len: u32, run: u32) -> Result<Vec<u8>, Fail> {
    let mut channel = Vec::new(alloc);
    for sample in bursts(alloc, len as usize, run as usize)? {
        channel.push(sample.clamp(-0x80_0000, 0x7F_FFFF) as i32)?;
    }
    let audio = Audio::new_in(profile, 44100, 24, vec![in alloc; channel]?)?;
    encoded(alloc, &audio, len, 0)
}

/// Whether bytes have this length, begin so, and end so.
fn is_stream(alloc: Global, bytes: &[u8], words: &str) -> Result<bool, Fail> {
    let mut words = words.split_whitespace();
    let len = words.next().unwrap_or("").parse::<usize>()?;
    let head = hex::decode(alloc, words.next().unwrap_or(""))?;
    let sum = hex::decode(alloc, words.next().unwrap_or(""))?;
    Ok(bytes.len() == len && bytes.starts_with(&head) && bytes.ends_with(&sum))
}

/// Whether the stream of a row is written, and is a stream of its profile: in the subset no partition order is above 8.
fn is_burst(alloc: Global, row: &str) -> Result<bool, Fail> {
    let (name, shape, wanted) = fields_of(row);
    let (len, run) = pair_of(shape)?;
    let profile = if name == "lax" {
        Profile::Lax
    } else {
        Profile::Subset
    };
    let bytes = bursts_of(alloc, profile, len, run)?;
    let read = refusal(alloc, &bytes, profile)?;
    Ok(is_stream(alloc, &bytes, wanted)? && read.as_str() == "none")
}

#[test]
fn partition_orders(rt: HostRuntime) -> Result<(), Fail> {
    for row in BURSTS.lines() {
        assert!(rt; is_burst(rt.alloc(), row)?, "{row}");
    }
    let wide = bursts_of(rt.alloc(), Profile::Lax, 4608, 9)?;
    assert!(rt; is_outside(rt.alloc(), &wide)?);
    Ok(())
}

// ---- block by block

/// Profile, rate, depth, channels and block size; and the number of the fault for which nothing of that format is
/// encoded, 0 if it is.
const FORMATS: &str = "lax 0 3 0 15 | 40
lax 1048576 3 0 15 | 40
lax 1048575 3 0 15 | 41
lax 1048575 33 0 15 | 41
lax 1048575 4 0 15 | 42
lax 1048575 4 9 15 | 42
lax 1048575 4 1 15 | 46
lax 1048575 4 1 65536 | 46
lax 1048575 4 1 65535 | 0
lax 44100 32 8 16 | 0
subset 65537 16 1 16 | 40
subset 44100 5 1 16 | 41
subset 44100 16 1 8192 | 46
subset 96000 16 1 16384 | 0";

/// The number of some words that has this place.
fn number_at(words: &str, place: usize) -> Result<u32, Fail> {
    let word = words.split_whitespace().nth(place).unwrap_or("");
    Ok(word.parse::<u32>()?)
}

/// The format of some words.
fn format_of(words: &str) -> Result<StreamFormat, Fail> {
    let lax = words.starts_with("lax");
    Ok(StreamFormat {
        profile: if lax { Profile::Lax } else { Profile::Subset },
        rate: number_at(words, 1)?,
        bits: number_at(words, 2)?,
        channels: number_at(words, 3)?,
        block_size: number_at(words, 4)?,
    })
}

/// The number of the fault for which an encoder of a format is refused, 0 if it is not.
fn refused(alloc: Global, format: &StreamFormat) -> Result<u8, Fail> {
    let list = BlockList::new(Vec::new(alloc))?;
    let made = StreamEncoder::new_in(alloc, format, &list, Collected::new(alloc));
    drop(list);
    match made {
        Ok(encoder) => {
            drop(encoder);
            Ok(0)
        }
        Err(fault) => Ok(fault.number()),
    }
}

/// Whether the format of a row is refused so, by the encoder and alone.
fn is_judged(alloc: Global, row: &str) -> Result<bool, Fail> {
    let (words, wanted) = row.split_once(" | ").unwrap_or((row, ""));
    let wanted = wanted.parse::<u8>()?;
    let format = format_of(words)?;
    let alone = format.fault().map_or(0, |fault| fault.number());
    Ok(alone == wanted && refused(alloc, &format)? == wanted)
}

#[test]
fn formats(rt: HostRuntime) -> Result<(), Fail> {
    for row in FORMATS.lines() {
        assert!(rt; is_judged(rt.alloc(), row)?, "{row}");
    }
    Ok(())
}

/// Pushes 16 zeros, a sample of 6 bits, and a short block.
fn push_all(encoder: &mut StreamEncoder<Collected>) -> [u8; 3] {
    let (zeros, large, short) = ([0; 16], [16; 16], [1, 2, 3]);
    [
        number_of(encoder.push(&[zeros.as_slice()])),
        number_of(encoder.push(&[large.as_slice()])),
        number_of(encoder.push(&[short.as_slice()])),
    ]
}

/// What an encoder writes of these, of 5 bits at 65537 Hz.
fn pushed(alloc: Global) -> Result<([u8; 3], Collected), Fail> {
    let format = format_of("lax 65537 5 1 16")?;
    let list = BlockList::new(Vec::new(alloc))?;
    let made = StreamEncoder::new_in(alloc, &format, &list, Collected::new(alloc));
    drop(list);
    let mut encoder = made?;
    let answers = push_all(&mut encoder);
    Ok((answers, encoder.finish()?))
}

#[test]
fn block_by_block(rt: HostRuntime) -> Result<(), Fail> {
    let (answers, target) = pushed(rt.alloc())?;
    let wanted = hex::decode(rt.alloc(), OUTSIDE_PUSHED)?;
    assert!(rt; answers == [0, 44, 0]);
    assert!(rt; target.bytes() == wanted.as_slice());
    assert!(rt; is_outside(rt.alloc(), target.bytes())?);
    Ok(())
}

/// Pushes 16 zeros and a sample of 6 bits.
fn push_pages(encoder: &mut OggEncoder<Collected>) -> [u8; 2] {
    let (zeros, large) = ([0; 16], [16; 16]);
    [
        number_of(encoder.push(&[zeros.as_slice()])),
        number_of(encoder.push(&[large.as_slice()])),
    ]
}

/// What an encoder of Ogg streams writes of these, of 5 bits at 65537 Hz.
fn pushed_pages(alloc: Global) -> Result<([u8; 2], Collected), Fail> {
    let format = format_of("lax 65537 5 1 16")?;
    let list = no_comments(alloc)?;
    let made = OggEncoder::new_in(alloc, 1, &format, &list, Collected::new(alloc));
    drop(list);
    let mut encoder = made?;
    let answers = push_pages(&mut encoder);
    Ok((answers, encoder.finish()?))
}

/// The pages after the first one, of 79 bytes, whose STREAMINFO states neither total nor digest.
#[test]
fn pages_block_by_block(rt: HostRuntime) -> Result<(), Fail> {
    let (answers, target) = pushed_pages(rt.alloc())?;
    let wanted = hex::decode(rt.alloc(), OUTSIDE_PAGES)?;
    assert!(rt; answers == [0, 44]);
    assert!(rt; target.bytes().get(79..) == wanted.get(79..));
    assert!(rt; is_outside(rt.alloc(), target.bytes())?);
    Ok(())
}
