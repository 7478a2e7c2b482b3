//! Frames from outside: of RFC 9639, appendix D.1, and worked by hand.

ghost use Rattle.std.specs.Prelude.{◌≡◌, IfOk};
ghost use Rattle.flac_frame.specs.Encoding.{most_in};

use flac_bits::{BitReader, BitWriter, Collected, Memory, Target, Why};
use flac_frame::{
    Audio, EncodeBuffers, FrameBuffers, FrameChoice, FrameView, SetupFault, channels_are_joined,
    choose_frame, encode_frame, encodings_are_frames, format_fault, forms_stand_for_samples,
    frames_are_spelled, frames_follow, samples_fault, samples_fit, write_frame,
};
use flac_header::Profile;
use flac_meta::StreamInfo;
use std::alloc::Global;
use std::mem::drop;
use std::process::Abort;
use std::test::Fail;
use test_vectors::{channels_of, fields_of, pair_of};

/// Frames: the bit depth and the largest block; their bytes; and the number, whether block sizes vary, the blocking
/// strategy, the number of the first sample in blocks of 4096, the samples a channel and these, or why they are
/// refused.
const FRAMES: &str = "# Of the standard.
16 4096 | fff869180000bf0358fd03128baa9a | 0 false Fixed 0 1 [25588] [10416]
# The same samples from 4608 on, and as frame 3.
16 4096 | fff96918e1888000cd0063f40028b057ab | 4608 true Variable 4608 1 [25588] [10416]
16 4096 | fff869180300800063f40028b037a4 | 3 false Fixed 12288 1 [25588] [10416]
# Left and side.
16 16 | fff86988000f3b140000000103c02007803d83 | 0 false Fixed 0 16 [0, 1, 2, 3, 4, 5, 6, 7, 8, 9, 10, 11, 12, 13, 14, 15] [0, 1, 2, 3, 4, 5, 6, 7, 8, 9, 10, 11, 12, 13, 14, 15]
# Out of range, and with another check.
16 16 | fff86988000f3b007fff00ffff806f48 | SampleRange
16 16 | fff86988000f3b007fff00ffff806f49 | FrameCheck
# Middle and side, left and side, side and right, of 32 bits.
32 16 | fff869ae00002802ffffffff02ffffffff80b563 | 0 false Fixed 0 1 [-1] [0]
32 16 | fff8698e00006b027fffffff027fffffff80fc62 | 0 false Fixed 0 1 [2147483647] [-2147483648]
32 16 | fff8699e0000c9027fffffff8140000000005f45 | 0 false Fixed 0 1 [2147483647] [-2147483648]";

/// STREAMINFO of two channels, of blocks of n samples and of a bit depth.
fn stereo_info(block: u16, depth: u8) -> Result<StreamInfo, Why>
    ensures { IfOk result (λ i. (i.channels ≡ 2) × (i.greatest_block ≡ block)) }
{
    StreamInfo::new(block, block, 0, 0, 44100, 2, depth, 0, [0; 16])
}

/// A frame of two channels, in text.
fn described(alloc: Global, view: &FrameView<'_>) -> Result<String, Fail> {
    if view.channels() != 2 || view.is_empty() {
        return Ok(String::new(alloc));
    }
    let (number, variable, len) = (view.number(), view.variable(), view.len());
    let (strategy, first) = (view.blocking_strategy(), view.first_sample(4096));
    let (left, right) = (view.channel(0), view.channel(1));
    Ok(format!(in alloc; "{number} {variable} {strategy:?} {first} {len} {left:?} {right:?}")?)
}

/// The frame that was read, in text, or why none was.
fn told(alloc: Global, read: Result<FrameView<'_>, Why>) -> Result<String, Fail> {
    match read {
        Ok(view) => described(alloc, &view),
        Err(why) => Ok(format!(in alloc; "{why:?}")?),
    }
}

/// What reading a frame of two channels returns, in text.
pub(crate) fn read_frame(
    alloc: Global,
    block: u16,
    depth: u8,
    bytes: &[u8],
) -> Result<String, Fail> {
    let info = stereo_info(block, depth)?;
    let mut buffers = FrameBuffers::new(alloc, 2, block as u32)?;
    let mut bits = BitReader::new(Memory::new(bytes));
    let text = told(alloc, buffers.read_frame(&mut bits, &info, Profile::Subset));
    drop(buffers);
    text
}

/// The same for a bit depth and a largest block in words, and bytes in hex.
fn read_of(alloc: Global, shape: &str, bytes: &str) -> Result<String, Fail> {
    let (depth, block) = pair_of(shape)?;
    let bytes = hex::decode(alloc, bytes)?;
    read_frame(alloc, block.min(4096) as u16, depth.min(32) as u8, &bytes)
}

/// Reads the frame of a row, and compares what is read.
fn check_frame(rt: &impl Abort, alloc: Global, row: &str) -> Result<(), Fail> {
    let (shape, bytes, wanted) = fields_of(row);
    let text = read_of(alloc, shape, bytes)?;
    assert!(rt; text.as_str() == wanted);
    Ok(())
}

#[test]
fn frames_are_read(rt: HostRuntime) -> Result<(), Fail> {
    channels_are_joined();
    frames_follow();
    frames_are_spelled();
    for row in FRAMES.lines() {
        if !row.starts_with('#') {
            check_frame(&rt, rt.alloc(), row)?;
        }
    }
    Ok(())
}

/// Reads a frame, and returns why it is refused, and how many channels are then kept.
fn refused(buffers: &mut FrameBuffers, info: &StreamInfo, bytes: &[u8]) -> (Option<Why>, usize)
    requires info { (info.now.channels ≡ 2) × (info.now.greatest_block ≡ 16) }
    requires buffers { (buffers.old.channels ≡ 2) × (buffers.old.max_block ≡ 16) }
    ensures { (buffers.new.channels ≡ 2) × (buffers.new.max_block ≡ 16) }
{
    let mut bits = BitReader::new(Memory::new(bytes));
    let outcome = buffers.fill(&mut bits, info, Profile::Subset);
    (outcome.err(), buffers.view().channels())
}

#[test]
fn out_of_range(rt: HostRuntime) -> Result<(), Fail> {
    let bytes = hex::decode(rt.alloc(), "fff86988000f3b007fff00ffff806f48")?;
    let other = hex::decode(rt.alloc(), "fff86988000f3b007fff00ffff806f49")?;
    let info = stereo_info(16, 16)?;
    let mut buffers = FrameBuffers::new(rt.alloc(), 2, 16)?;
    let first = refused(&mut buffers, &info, &bytes);
    let second = refused(&mut buffers, &info, &other);
    drop(buffers);
    assert!(rt; first == (Some(Why::SampleRange), 0));
    assert!(rt; second.0 == Some(Why::FrameCheck));
    Ok(())
}

/// Frames 0 and 3 of a stream, and one that is numbered by its first sample, each of one sample, are read in any order
/// by buffers that are emptied before each, and refused by those that are not.
#[test]
fn any_number_in_empty_buffers(rt: HostRuntime) -> Result<(), Fail> {
    let zero = hex::decode(rt.alloc(), "fff869180000bf0358fd03128baa9a")?;
    let three = hex::decode(rt.alloc(), "fff869180300800063f40028b037a4")?;
    let variable = hex::decode(rt.alloc(), "fff96918e1888000cd0063f40028b057ab")?;
    let info = stereo_info(16, 16)?;
    let mut buffers = FrameBuffers::new(rt.alloc(), 2, 16)?;
    let mut outcomes = [(None, 0); 6];
    outcomes[0] = refused(&mut buffers, &info, &three);
    outcomes[1] = refused(&mut buffers, &info, &zero);
    buffers.anew();
    outcomes[2] = refused(&mut buffers, &info, &zero);
    buffers.anew();
    outcomes[3] = (None, buffers.view().channels());
    outcomes[4] = refused(&mut buffers, &info, &variable);
    outcomes[5] = refused(&mut buffers, &info, &three);
    drop(buffers);
    let refusal = (Some(Why::Sequence), 0);
    assert!(rt; outcomes[0] == (None, 2) && outcomes[1] == refusal);
    assert!(rt; outcomes[2] == (None, 2) && outcomes[3] == (None, 0));
    assert!(rt; outcomes[4] == (None, 2) && outcomes[5] == refusal);
    Ok(())
}

/// Sample rate and bit depth, after `lax ` if they are not of the streamable subset; the channels, each after a `;`;
/// and why they are refused.
const REFUSED: &str = "65537 10 | ;1; | 40 BadRate
44100 10 | ;1; | 41 BadDepth
44100 16 | ;32768; | 43 LengthsDiffer
44100 16 | ;32768;0 | 44 SampleTooLarge
384000 32 |  | 42 BadChannels
lax 0 3 | ;1; | 40 BadRate
lax 1048576 3 | ;1; | 40 BadRate
lax 65537 3 | ;1; | 41 BadDepth
lax 65537 33 | ;1; | 41 BadDepth
lax 65537 5 |  | 42 BadChannels
lax 65537 5 | ;;;;;;;;; | 42 BadChannels
lax 65537 5 | ;16; | 43 LengthsDiffer
lax 65537 5 | ;16 | 44 SampleTooLarge
lax 1048575 4 | ;7;-9 | 44 SampleTooLarge";

/// The profile of a format, which begins with `lax ` if it is not of the streamable subset, and its other words.
fn profile_of(format: &str) -> (Profile, &str) {
    match format.strip_prefix("lax ") {
        Some(rest) => (Profile::Lax, rest),
        None => (Profile::Subset, format),
    }
}

/// Samples by their rate and bit depth, after `lax ` if they are not of the streamable subset, and by their channels,
/// each after a `;`.
fn audio_of(alloc: Global, format: &str, words: &str) -> Result<Result<Audio, SetupFault>, Fail> {
    let (profile, format) = profile_of(format);
    let (rate, bits) = pair_of(format)?;
    let channels = channels_of(alloc, words)?;
    Ok(Audio::new_in(profile, rate, bits, channels))
}

/// The fault of what was refused.
fn fault_in(outcome: Result<Audio, SetupFault>) -> Option<SetupFault> {
    match outcome {
        Ok(_) => None,
        Err(fault) => Some(fault),
    }
}

/// Compares why the samples of a row are refused.
fn check_refusal(rt: &impl Abort, alloc: Global, row: &str) -> Result<(), Fail> {
    let (format, words, wanted) = fields_of(row);
    let Some(fault) = fault_in(audio_of(alloc, format, words)?) else {
        return Err(Fail::new("not refused"));
    };
    let text = format!(in alloc; "{fault}")?;
    assert!(rt; text.as_str() == wanted);
    Ok(())
}

#[test]
fn refused_audio(rt: HostRuntime) -> Result<(), Fail> {
    for row in REFUSED.lines() {
        check_refusal(&rt, rt.alloc(), row)?;
    }
    Ok(())
}

/// The rate, the bit depth and the length of samples, how many channels they have, and whether these are empty.
type Shape = (u32, u32, usize, usize, bool);

fn shape_of(audio: &Audio) -> Shape {
    let (channels, empty) = (audio.channels().len(), audio.is_empty());
    (audio.rate(), audio.bits(), audio.len(), channels, empty)
}

#[test]
fn audio(rt: HostRuntime) -> Result<(), Fail> {
    let refused = fault_in(Audio::new(384000, 32, Vec::new(rt.alloc())));
    assert!(rt; refused == Some(SetupFault::BadChannels));
    let audio = Audio::new(7000, 12, channels_of(rt.alloc(), ";2047 0;-2048 1")?)?;
    assert!(rt; shape_of(&audio) == (7000, 12, 2, 2, false));
    assert!(rt; audio.profile() == Profile::Subset);
    Ok(())
}

/// Whether the samples of a channel from one on are these; false if the channel has fewer, or is none.
fn has_part(audio: &Audio, channel: usize, start: usize, wanted: &[i32]) -> bool {
    let size = wanted.len();
    let len = audio.len();
    if channel >= audio.channels().len() || start > len || size > len - start {
        return false;
    }
    audio.part(channel, start, size) == wanted
}

/// Parts inside channels, at their ends, whole, and empty.
#[test]
fn parts_of_channels(rt: HostRuntime) -> Result<(), Fail> {
    let audio = Audio::new(7000, 12, channels_of(rt.alloc(), ";1 2 3 4;-1 -2 -3 -4")?)?;
    assert!(rt; has_part(&audio, 1, 1, &[-2, -3]));
    assert!(rt; has_part(&audio, 0, 2, &[3, 4]));
    assert!(rt; has_part(&audio, 1, 0, &[-1, -2, -3, -4]));
    assert!(rt; has_part(&audio, 1, 0, &[]));
    assert!(rt; has_part(&audio, 0, 4, &[]));
    Ok(())
}

/// The first fault of a format: the rate, then the depth, then the channels.
#[test]
fn faults_of_formats(rt: HostRuntime) -> Result<(), Fail> {
    assert!(rt; format_fault(Profile::Subset, 44100, 16, 2).is_none());
    assert!(rt; format_fault(Profile::Subset, 0, 17, 9) == Some(SetupFault::BadRate));
    assert!(rt; format_fault(Profile::Subset, 44100, 17, 9) == Some(SetupFault::BadDepth));
    assert!(rt; format_fault(Profile::Lax, 44100, 17, 9) == Some(SetupFault::BadChannels));
    Ok(())
}

#[test]
fn samples_of_eight_bits(rt: HostRuntime) -> Result<(), Fail> {
    assert!(rt; samples_fit(&[127, -128], 8));
    assert!(rt; !samples_fit(&[0, 128], 8));
    assert!(rt; !samples_fit(&[-129, 0], 8));
    Ok(())
}

/// The first fault of samples: their lengths, then their sizes. How many channels there are is not judged.
#[test]
fn faults_of_samples(rt: HostRuntime) -> Result<(), Fail> {
    let left = [127, -128];
    let large = [0, 128];
    let short = [-129];
    assert!(rt; samples_fault(&[], 8).is_none());
    assert!(rt; samples_fault(&[left.as_slice(), left.as_slice()], 8).is_none());
    let lengths = samples_fault(&[large.as_slice(), short.as_slice()], 8);
    assert!(rt; lengths == Some(SetupFault::LengthsDiffer));
    let sizes = samples_fault(&[left.as_slice(), large.as_slice()], 8);
    assert!(rt; sizes == Some(SetupFault::SampleTooLarge));
    Ok(())
}

/// Whether samples have this shape, and are of the profile without the limits of the subset.
fn is_lax(alloc: Global, format: &str, words: &str, shape: Shape) -> Result<bool, Fail> {
    let audio = audio_of(alloc, format, words)??;
    Ok(shape_of(&audio) == shape && audio.profile() == Profile::Lax)
}

/// The least and the greatest rate and depth outside the streamable subset.
#[test]
fn audio_outside_the_subset(rt: HostRuntime) -> Result<(), Fail> {
    let alloc = rt.alloc();
    assert!(rt;
        is_lax(
            alloc,
            "lax 1048575 4",
            ";7 0;-8 1",
            (1048575, 4, 2, 2, false)
        )?
    );
    assert!(rt; is_lax(alloc, "lax 1 32", ";2147483647", (1, 32, 1, 1, false))?);
    assert!(rt; is_lax(alloc, "lax 44100 16", ";", (44100, 16, 0, 1, true))?);
    Ok(())
}

/// The working arrays for 33 samples. Those of the subset are made by the call that is for it alone.
fn buffers_for(alloc: Global, profile: Profile) -> Result<EncodeBuffers, Why>
    ensures { IfOk result (λ b. b ≡ record { block = 33; most = most_in profile }) }
{
    match profile {
        Profile::Subset => EncodeBuffers::new(alloc, 33),
        Profile::Lax => EncodeBuffers::new_in(alloc, Profile::Lax, 33),
    }
}

/// Writes all samples, 33 at most, as frame 0, and returns how many bytes it has.
pub(crate) fn write_all<W: Target>(
    alloc: Global,
    audio: &Audio,
    writer: &mut BitWriter<W>,
) -> Result<u64, Why>
    requires { writer.old.mark.unread ≡ 0 }
{
    let len = audio.len();
    if len == 0 || len > 33 {
        return Err(Why::BlockSize);
    }
    let mut buffers = buffers_for(alloc, audio.profile())?;
    let bytes = encode_frame(audio, 0..len, 0, &mut buffers, writer);
    drop(buffers);
    let bytes = bytes?;
    writer.finish()?;
    Ok(bytes)
}

/// The same in two steps, with buffers that are made for frames of either profile: chooses the frame, keeps that
/// choice, counts its bytes, and then writes it.
fn write_chosen<W: Target>(
    alloc: Global,
    audio: &Audio,
    writer: &mut BitWriter<W>,
) -> Result<u64, Why>
    requires { writer.old.mark.unread ≡ 0 }
{
    let len = audio.len();
    if len == 0 || len > 16 {
        return Err(Why::BlockSize);
    }
    let mut buffers = EncodeBuffers::new_in(alloc, Profile::Lax, 16)?;
    let mut choice = FrameChoice::new(alloc, Profile::Lax, audio.channels().len())?;
    choose_frame(audio, 0..len, 0, &[], &mut buffers, &mut choice);
    let kept = choice.kept(alloc)?;
    let bytes = kept.frame_bytes(audio, len, 0);
    let outcome = write_frame(audio, 0..len, 0, &kept, &[], &mut buffers, writer);
    drop(buffers);
    drop(choice);
    drop(kept);
    outcome?;
    writer.finish()?;
    Ok(bytes)
}

/// Sample rate and bit depth, after `lax ` if they are not of the streamable subset; the channels, each after a `;`;
/// and the frame that is written of them.
const WRITTEN: &str =
    "# Independent channels, the only one, left and side, side and right, middle and side.
44100 16 | ;25588;10416 | fff869180000bf0158fd01128b5ab2
44100 16 | ;0 1 2 3 4 5 6 7 8 9 10 11 12 13 14 15 | fff86908000f30140000000103c0efc9
44100 16 | ;0 1 2 3 4 5 6 7 8 9 10 11 12 13 14 15;0 1 2 3 4 5 6 7 8 9 10 11 12 13 14 15 | fff86988000f3b140000000103c02007803d83
44100 16 | ;-3;-2 | fff869980000b4100011180080a410
44100 16 | ;-6035;6041 | fff869a800005510009805e86a0f17
# Of as many bits: independent before left and side, left and side before side and right, side and right before middle and side.
44100 16 | ;-1;3 | fff869180000bf10001100098092e0
44100 8 | ;-8 -6;-10 -8 | fff8698200019603fcfa0301306d
44100 16 | ;4;2 | fff869980000b411800446001063ed
# Outside the streamable subset: a rate or a depth without a code, or neither; middle and side of 31 bits; and as in the subset.
lax 65537 5 | ;0 0 0 0 0 0 0 0 0 0 0 0 0 0 0 0 | fff86000000fc700000572
lax 65537 5 | ;15;-16 | fff86010000048007808c0bd0e
lax 1048575 4 | ;7 7 7;7 7 7;7 7 7 | fff860200002a700700700702cac
lax 44100 31 | ;1073741823;-1073741824 | fff869a000000410001007fffffff03eb4
lax 44100 16 | ;25588;10416 | fff869180000bf0158fd01128b5ab2";

/// The frame of some channels: its length as `encode_frame` returns it, and its bytes.
fn written(alloc: Global, format: &str, words: &str) -> Result<(u64, Vec<u8>), Fail> {
    let audio = audio_of(alloc, format, words)??;
    let mut writer = BitWriter::new(Collected::new(alloc));
    let count = write_all(alloc, &audio, &mut writer)?;
    Ok((count, writer.into_target().into_bytes()))
}

/// The same in two steps.
fn chosen(alloc: Global, format: &str, words: &str) -> Result<(u64, Vec<u8>), Fail> {
    let audio = audio_of(alloc, format, words)??;
    let mut writer = BitWriter::new(Collected::new(alloc));
    let count = write_chosen(alloc, &audio, &mut writer)?;
    Ok((count, writer.into_target().into_bytes()))
}

/// Whether these are the bytes of some hex digits, and their number.
fn are_bytes(alloc: Global, found: (u64, Vec<u8>), wanted: &str) -> Result<bool, Fail> {
    let (count, bytes) = found;
    let wanted = hex::decode(alloc, wanted)?;
    Ok(bytes.as_slice() == wanted.as_slice() && count == wanted.len() as u64)
}

/// Writes the frame of a row, at once and in two steps, and compares its bytes and their number.
fn check_written(rt: &impl Abort, alloc: Global, row: &str) -> Result<(), Fail> {
    let (format, words, wanted) = fields_of(row);
    let at_once = are_bytes(alloc, written(alloc, format, words)?, wanted)?;
    assert!(rt; at_once, "{row}");
    let in_two_steps = are_bytes(alloc, chosen(alloc, format, words)?, wanted)?;
    assert!(rt; in_two_steps, "chosen first: {row}");
    Ok(())
}

#[test]
fn frames_are_written(rt: HostRuntime) -> Result<(), Fail> {
    forms_stand_for_samples();
    encodings_are_frames();
    for row in WRITTEN.lines() {
        if !row.starts_with('#') {
            check_written(&rt, rt.alloc(), row)?;
        }
    }
    Ok(())
}

/// The largest and the smallest sample of 32 bits in turn, and the other way round.
const WIDEST: &str =
    ";2147483647 -2147483648 2147483647 -2147483648 2147483647 -2147483648 2147483647 -2147483648 \
    2147483647 -2147483648 2147483647 -2147483648 2147483647 -2147483648 2147483647 -2147483648\
    ;-2147483648 2147483647 -2147483648 2147483647 -2147483648 2147483647 -2147483648 2147483647 \
    -2147483648 2147483647 -2147483648 2147483647 -2147483648 2147483647 -2147483648 2147483647";

/// That frame as it is read.
const WIDEST_READ: &str = "0 false Fixed 0 16 \
    [2147483647, -2147483648, 2147483647, -2147483648, 2147483647, -2147483648, 2147483647, -2147483648, \
    2147483647, -2147483648, 2147483647, -2147483648, 2147483647, -2147483648, 2147483647, -2147483648] \
    [-2147483648, 2147483647, -2147483648, 2147483647, -2147483648, 2147483647, -2147483648, 2147483647, \
    -2147483648, 2147483647, -2147483648, 2147483647, -2147483648, 2147483647, -2147483648, 2147483647]";

#[test]
fn widest_side(rt: HostRuntime) -> Result<(), Fail> {
    let (_, bytes) = written(rt.alloc(), "44100 32", WIDEST)?;
    let text = read_frame(rt.alloc(), 16, 32, &bytes)?;
    assert!(rt; text.as_str() == WIDEST_READ);
    Ok(())
}
