//! Subframes from outside: worked by hand from RFC 9639, and of its appendix D.

ghost use Rattle.std.specs.Prelude.{◌≡◌, ◌≤◌, ◌^◌, length, All, IsTrue, vec_len};
ghost use Rattle.flac_bits.specs.Signed.{FitsBits};

use flac_bits::{BitReader, BitWriter, Collected, Memory, Target, Why};
use flac_subframe::{
    Limits, WideChoice, Workspace, choose, choose_in, offset_binary, predict_fixed, predict_linear,
    read_subframe, samples_are_restored, subframes_are_read_again, subframes_are_spelled,
    write_subframe, write_subframe_in,
};
use std::alloc::Global;
use std::process::Abort;
use std::test::Fail;
use test_vectors::{fields_of, pair_of, samples_of};

/// Subframes: their bytes; the bit depth, the largest order of a linear predictor and the number of samples; and what
/// reading returns, with some samples by their places.
const SUBFRAMES: &str = "# Plain samples.
0358fd | 16 12 1 | true 0:25588
010003 | 16 12 1 | true 0:-32768
010001 | 16 12 1 | BadSubframe
04 | 16 12 1 | BadSubframe
80 | 16 12 1 | BadSubframe
58 | 16 12 1 | NotSubset
# Residuals.
100010 | 16 12 1 | true 0:-1
10008c | 16 12 1 | true 0:5
1043c3fffffff8 | 16 12 1 | ResidualRange
# Predictors of as many samples as there are leave no residual, and are refused.
12 | 16 12 1 | BadPartition
14 | 16 12 2 | BadPartition
16 | 16 12 3 | BadPartition
18 | 16 12 4 | BadPartition
40 | 16 12 1 | BadPartition
46 | 16 12 4 | BadPartition
# Predicted samples.
140000000103c0 | 16 12 16 | true 2:2 15:15
4003e90040f000 | 16 12 16 | true 14:1001 15:-1001
14000000000c | 16 12 16 | BadPartition
140000000024 | 16 12 16 | NotSubset
400000f0 | 16 12 16 | BadPredictor
4000000800 | 16 12 16 | BadPredictor
127f0008 | 8 12 2 | false
# Equal samples, squares, cubes, twice the last less the one before, and the thirteenth before.
12000703c0 | 16 12 16 | true 1:7 15:7
1600000001000403c0 | 16 12 16 | true 3:9 15:225
18000000010008001b03c0 | 16 12 16 | true 4:64 15:3375
4200000001202e0780 | 16 12 16 | true 2:2 15:15
58000100020003000400050006000700080009000a000b000c000d10000000207800 | 16 13 16 | true 12:13 13:1 15:3";

/// Reads a subframe with linear predictors of at most the order `linear`.
fn read(bytes: &[u8], depth: u32, linear: u32, samples: &mut [i64]) -> Result<bool, Why>
    requires depth { (1 ≤ depth) × (depth ≤ 33) }
    requires linear { linear ≤ 32 }
    requires block { (1 ≤ length samples.old) × (length samples.old ≤ 65535) }
{
    let limits = Limits {
        partition: 8,
        linear,
    };
    let mut bits = BitReader::new(Memory::new(bytes));
    read_subframe(&mut bits, depth, samples.len() as u32, &limits, samples)
}

/// Reads a subframe of at most 16 samples, whose bit depth, largest order of a linear predictor and number of samples
/// are given in words.
fn read_shaped(
    shape: &str,
    bytes: &[u8],
    block: &mut [i64; 16],
) -> Result<Result<bool, Why>, Fail> {
    let (depth, rest) = shape.split_once(' ').unwrap_or(("", ""));
    let depth = depth.parse::<u32>()?.max(1).min(33);
    let (linear, count) = pair_of(rest)?;
    let count = count.max(1).min(16) as usize;
    Ok(read(bytes, depth, linear.min(32), &mut block[..count]))
}

/// What reading returns, in text.
fn outcome(alloc: Global, read: Result<bool, Why>) -> Result<String, Fail> {
    match read {
        Ok(ends) => Ok(format!(in alloc; "{ends}")?),
        Err(why) => Ok(format!(in alloc; "{why:?}")?),
    }
}

/// What reading the bytes of some hex digits returns, in text.
fn outcome_of(
    alloc: Global,
    shape: &str,
    bytes: &str,
    block: &mut [i64; 16],
) -> Result<String, Fail> {
    let bytes = hex::decode(alloc, bytes)?;
    outcome(alloc, read_shaped(shape, &bytes, block)?)
}

/// Whether a block has a sample that is written as `PLACE:SAMPLE`.
fn has(block: &[i64; 16], word: &str) -> Option<bool> {
    let (place, sample) = word.split_once(':')?;
    let place = place.parse::<usize>().ok()?;
    let sample = sample.parse::<i64>().ok()?;
    Some(block.get(place).copied()? == sample)
}

/// Checks the samples that words give.
fn check_samples(rt: &impl Abort, block: &[i64; 16], words: &str) {
    for word in words.split_whitespace() {
        assert!(rt; has(block, word) == Some(true), "{word}");
    }
}

/// Reads the subframe of a row, and compares what is read.
fn check_row(rt: &impl Abort, alloc: Global, row: &str) -> Result<(), Fail> {
    let (bytes, shape, wanted) = fields_of(row);
    let mut block = [0; 16];
    let text = outcome_of(alloc, shape, bytes, &mut block)?;
    let (first, words) = wanted.split_once(' ').unwrap_or((wanted, ""));
    assert!(rt; text.as_str() == first, "{row}");
    check_samples(rt, &block, words);
    Ok(())
}

#[test]
fn predicts(rt: HostRuntime) {
    samples_are_restored();
    assert!(rt; predict_linear(&[1], 1, &[-3]) == -2);
    assert!(rt; predict_fixed(2, &[0, 1]) == 2);
}

/// Offset binary by hand: the range of 8 bits begins at 0 and ends at 255, and what it does not hold is outside these.
#[test]
fn offsets(rt: HostRuntime) {
    assert!(rt; offset_binary(-128, 8) == 0);
    assert!(rt; offset_binary(127, 8) == 255);
    assert!(rt; offset_binary(128, 8) == 256);
    assert!(rt; offset_binary(-129, 8) == u64::MAX);
    assert!(rt; offset_binary(-1, 33) == 0xFFFF_FFFF);
}

#[test]
fn reads_subframes(rt: HostRuntime) -> Result<(), Fail> {
    for row in SUBFRAMES.lines() {
        if !row.starts_with('#') {
            check_row(&rt, rt.alloc(), row)?;
        }
    }
    Ok(())
}

/// Whether a number fits n bits.
fn fits_bits(number: i64, bits: u32) -> bool
    requires { (1 ≤ bits) × (bits ≤ 33) }
    ensures { IsTrue result → FitsBits bits number }
{
    let limit = 1i64 << (bits - 1);
    -limit <= number && number < limit
}

pub(crate) fn all_fit(samples: &[i64], depth: u32) -> bool
    requires { (1 ≤ depth) × (depth ≤ 33) }
    ensures { IsTrue result → All (FitsBits depth) samples.now }
{
    samples.iter().all(|sample| fits_bits(*sample, depth))
}

/// How many bits the least subframe of some samples takes, which is written with zeros up to a whole byte.
fn write_least<W: Target>(
    samples: &[i64],
    depth: u32,
    writer: &mut BitWriter<W>,
) -> Result<u64, Why>
    requires depth { (1 ≤ depth) × (depth ≤ 33) }
    requires block { (1 ≤ length samples.now) × (length samples.now ≤ 65535) }
{
    if !all_fit(samples, depth) {
        return Err(Why::SampleRange);
    }
    let choice = choose(samples, depth);
    write_subframe(&choice, samples, depth, writer)?;
    writer.align()?;
    writer.finish()?;
    Ok(choice.bits())
}

/// The shortest subframes: the bit depth and the number of bits; the samples; and the bytes, with zeros up to a whole
/// byte.
pub(crate) const WRITTEN: &str = "# Predicted, equal, and a single sample: constant before verbatim.
16 55 | 0 1 2 3 4 5 6 7 8 9 10 11 12 13 14 15 | 140000000103c0
16 23 | 0 0 0 0 0 0 0 0 0 0 0 0 0 0 0 0 | 1003c0
8 16 | 0 0 0 0 0 0 0 0 0 0 0 0 0 0 0 0 | 0000
16 24 | 25588 | 0158fd
# Of as many bits: constant before a fixed predictor, and verbatim before one.
16 24 | 1 1 | 000001
8 23 | 2 0 | 038100
# A fixed predictor of order 0 before 1, 1 before 2, 2 before 3, 3 before 4.
24 53 | -31823 -31342 | 1041ef89d7a6d8
8 39 | -4 -8 -13 -17 | 12fc009cae
12 66 | -14 -57 -149 -297 -481 | 14ff2fc701985bd1c0
5 41 | 1 3 5 6 5 1 -7 | 1608ca002a80
# Method 0 before 1.
24 53 | -3239 -43936 | 1003aca682b9f8
# Partition order 0 before 1, 1 before 2.
16 29 | 0 -13 | 1000e048
8 63 | 127 127 -128 127 127 127 127 127 | 127f06200febfc1e
# Parameter 3 before 4, and 0 before an escape.
20 23 | 7 | 1000dc
16 23 | 0 0 0 0 0 | 10003e";

/// The shortest subframe of 1 to 65535 samples, written to a new target: how many bits it takes, and its bytes.
pub(crate) fn written(alloc: Global, samples: &[i64], depth: u32) -> Result<(u64, Vec<u8>), Why> {
    let len = samples.len();
    if len == 0 || len > 65535 || depth == 0 || depth > 33 {
        return Err(Why::BlockSize);
    }
    let mut writer = BitWriter::new(Collected::new(alloc));
    let bits = write_least(samples, depth, &mut writer)?;
    Ok((bits, writer.into_target().into_bytes()))
}

/// The shortest subframe of the samples of some words.
fn written_of(alloc: Global, words: &str, depth: u32) -> Result<(u64, Vec<u8>), Fail> {
    let samples = wide_of(alloc, words)?;
    Ok(written(alloc, &samples, depth)?)
}

/// Whether the subframe of a row is written with its bits and bytes.
pub(crate) fn is_written(alloc: Global, row: &str) -> Result<bool, Fail> {
    let (shape, words, wanted) = fields_of(row);
    let (depth, bits) = pair_of(shape)?;
    let (count, bytes) = written_of(alloc, words, depth)?;
    let wanted = hex::decode(alloc, wanted)?;
    Ok(count == u64::from(bits) && bytes.as_slice() == wanted.as_slice())
}

/// The samples of some words, of 64 bits.
pub(crate) fn wide_of(alloc: Global, words: &str) -> Result<Vec<i64>, Fail> {
    let mut samples = Vec::new(alloc);
    for sample in samples_of(alloc, words)?.as_slice() {
        samples.push(*sample as i64)?;
    }
    Ok(samples)
}

#[test]
fn writes_the_least(rt: HostRuntime) -> Result<(), Fail> {
    subframes_are_spelled();
    subframes_are_read_again();
    for row in WRITTEN.lines() {
        if !row.starts_with('#') {
            assert!(rt; is_written(rt.alloc(), row)?, "{row}");
        }
    }
    Ok(())
}

#[test]
fn writes_at_its_own_arrays(rt: HostRuntime) {
    let ramp = [0, 1, 2, 3, 4, 5, 6, 7, 8, 9, 10, 11, 12, 13, 14, 15];
    let mut writer = BitWriter::new(Collected::new(rt.alloc()));
    let first = write_least(&ramp, 16, &mut writer);
    let second = write_least(&[25588; 4096], 16, &mut writer);
    assert!(rt; (first, second) == (Ok(55), Ok(24)));
    let wanted = [0x14, 0x00, 0x00, 0x00, 0x01, 0x03, 0xC0, 0x01, 0x58, 0xFD];
    assert!(rt; writer.into_target().bytes() == wanted.as_slice());
}

/// The same in a workspace and a place for a choice.
fn write_least_in<W: Target>(
    samples: &[i64],
    depth: u32,
    workspace: &mut Workspace,
    choice: &mut WideChoice,
    writer: &mut BitWriter<W>,
) -> Result<u64, Why>
    requires depth { (1 ≤ depth) × (depth ≤ 33) }
    requires block { (1 ≤ length samples.now) × (length samples.now ≤ workspace.old.block) }
    requires partition { 8 ≤ workspace.old.most }
    requires places { 2 ^ 8 ≤ vec_len choice.old.codings }
    ensures room { workspace.new ≡ workspace.old }
    ensures places { vec_len choice.new.codings ≡ vec_len choice.old.codings }
{
    if !all_fit(samples, depth) {
        return Err(Why::SampleRange);
    }
    let limits = Limits {
        partition: 8,
        linear: 0,
    };
    choose_in(samples, depth, &limits, &[], workspace, choice);
    write_subframe_in(choice, &[], samples, depth, workspace, writer)?;
    writer.align()?;
    writer.finish()?;
    Ok(choice.bits())
}

/// Writes two subframes in turn in one workspace and one place: how many bits each takes, 0 if one is refused.
fn write_two<W: Target>(alloc: Global, writer: &mut BitWriter<W>) -> Result<(u64, u64), Why> {
    let limits = Limits {
        partition: 8,
        linear: 0,
    };
    let mut workspace = Workspace::new(alloc, 16, &limits)?;
    let mut choice = WideChoice::new(alloc, &limits)?;
    let first = write_least_in(&[25588], 16, &mut workspace, &mut choice, writer).unwrap_or(0);
    let second = write_least_in(&[0; 16], 8, &mut workspace, &mut choice, writer).unwrap_or(0);
    Ok((first, second))
}

/// One subframe after another, at one target.
#[test]
fn writes_one_after_another(rt: HostRuntime) {
    let mut writer = BitWriter::new(Collected::new(rt.alloc()));
    assert!(rt; write_two(rt.alloc(), &mut writer) == Ok((24, 16)));
    assert!(rt; writer.into_target().bytes() == [0x01, 0x58, 0xFD, 0x00, 0x00].as_slice());
}

#[test]
fn compares_choices(rt: HostRuntime) {
    let choice = choose(&[0, 1, 2, 3, 4, 5, 6, 7], 16);
    assert!(rt; choice == choose(&[1, 2, 3, 4, 5, 6, 7, 8], 16));
    assert!(rt; !(choice == choose(&[0; 8], 16)));
}

/// Twenty equal samples are written as a single one is, though more of them are priced.
#[test]
fn equal_choices_of_more_work(rt: HostRuntime) {
    let one = choose(&[25587], 16);
    let twenty = choose(&[7; 20], 16);
    assert!(rt; one == twenty && one.priced() < twenty.priced());
}
