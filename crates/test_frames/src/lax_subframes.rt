//! Subframes with partition orders up to 15, which streams outside the streamable subset may have (RFC 9639, section
//! 9.2.7).

ghost use Rattle.std.specs.Prelude.{◌≡◌};

use crate::enumeration::{least, least_residual};
use crate::subframes::{all_fit, written};
use flac_bits::{BitReader, BitWriter, Collected, Memory, Target, Why};
use flac_subframe::{
    Limits, LinearPredictor, WideChoice, Workspace, choose_in, read_subframe, write_subframe_in,
};
use std::alloc::Global;
use std::process::Abort;
use std::test::Fail;
use test_vectors::bursts;

/// The depth of the samples here.
const DEPTH: u32 = 24;

/// Partition orders up to the greatest, and linear predictors of any order.
fn limits(partition: u32) -> Limits
    ensures partition { result.partition ≡ partition }
    ensures linear { result.linear ≡ 32 }
{
    Limits {
        partition,
        linear: 32,
    }
}

/// Chooses the shortest subframe of some samples in a place and arrays that were made for them, writes it with zeros up
/// to a whole byte, and returns how many bits it takes.
fn write_in<W: Target>(
    alloc: Global,
    samples: &[i64],
    depth: u32,
    partition: u32,
    predictors: &[LinearPredictor],
    writer: &mut BitWriter<W>,
) -> Result<u64, Why> {
    let len = samples.len();
    if len == 0 || len > 65535 || depth == 0 || depth > 33 || partition > 15 {
        return Err(Why::BlockSize);
    }
    if !all_fit(samples, depth) || !LinearPredictor::are_within(predictors, 32) {
        return Err(Why::SampleRange);
    }
    let limits = limits(partition);
    let mut workspace = Workspace::new(alloc, len as u32, &limits)?;
    let mut choice = WideChoice::new(alloc, &limits)?;
    choose_in(
        samples,
        depth,
        &limits,
        predictors,
        &mut workspace,
        &mut choice,
    );
    write_subframe_in(&choice, predictors, samples, depth, &mut workspace, writer)?;
    writer.align()?;
    writer.finish()?;
    Ok(choice.bits())
}

/// How many bits the shortest subframe takes, and its bytes.
pub(crate) fn written_in(
    alloc: Global,
    samples: &[i64],
    depth: u32,
    partition: u32,
    predictors: &[LinearPredictor],
) -> Result<(u64, Vec<u8>), Why> {
    let mut writer = BitWriter::new(Collected::new(alloc));
    let bits = write_in(alloc, samples, depth, partition, predictors, &mut writer)?;
    Ok((bits, writer.into_target().into_bytes()))
}

// ---- partitions of one sample

/// The samples 0 and 2^20 + 1 by turns.
fn alternating(alloc: Global, len: usize) -> Result<Vec<i64>, Fail> {
    let mut samples = vec![in alloc; 0i64; len]?;
    for i in 0..samples.len() {
        if i % 2 == 1 {
            samples[i] = 0x10_0001;
        }
    }
    Ok(samples)
}

/// Their subframe by the standard: type 8, method 1 and the partition order; then parameter 0 with a 1 for the sample
/// 0, and parameter 20 with two zeros, a 1 and the 20 lowest bits of 2^21 + 2 for the other.
fn put_alternating<W: Target>(order: u32, writer: &mut BitWriter<W>) -> Result<(), Why> {
    writer.put(8, 0x10)?;
    writer.put(2, 1)?;
    writer.put(4, u64::from(order % 16))?;
    for _ in 0..1u32 << (order % 16) >> 1 {
        writer.put(6, 1)?;
        writer.put(8, 0b1010_0001)?;
        writer.put(20, 2)?;
    }
    writer.align()?;
    writer.finish()
}

/// Its bytes.
fn alternating_bytes(alloc: Global, order: u32) -> Result<Vec<u8>, Why> {
    let mut writer = BitWriter::new(Collected::new(alloc));
    put_alternating(order, &mut writer)?;
    Ok(writer.into_target().into_bytes())
}

/// Checks the subframe of 2^order such samples, of which each has a partition of its own.
fn check_alternating(rt: &impl Abort, alloc: Global, order: u32) -> Result<(), Fail> {
    let samples = alternating(alloc, 1 << (order % 16))?;
    let (bits, bytes) = written_in(alloc, &samples, DEPTH, 15, &[])?;
    let wanted = alternating_bytes(alloc, order)?;
    let each = (samples.len() as u64).wrapping_mul(17);
    assert!(rt; bits == each.wrapping_add(14), "{order}");
    assert!(rt; bytes.as_slice() == wanted.as_slice(), "{order}");
    Ok(())
}

#[test]
fn a_partition_for_each_sample(rt: HostRuntime) -> Result<(), Fail> {
    for order in 9..16 {
        check_alternating(&rt, rt.alloc(), order)?;
    }
    Ok(())
}

/// What reading the subframe of such samples returns, with partition orders up to the greatest, and whether it has
/// these samples.
fn read_back(alloc: Global, order: u32, partition: u32) -> Result<Result<bool, Why>, Fail> {
    let samples = alternating(alloc, 1 << (order % 16))?;
    let bytes = alternating_bytes(alloc, order)?;
    let mut read = vec![in alloc; 0i64; samples.len()]?;
    let len = read.len();
    if len == 0 || len > 65535 {
        return Ok(Err(Why::BlockSize));
    }
    let mut bits = BitReader::new(Memory::new(&bytes));
    let limits = limits(partition.min(15));
    let answer = read_subframe(&mut bits, DEPTH, len as u32, &limits, &mut read);
    Ok(answer.map(|fits| fits && read.as_slice() == samples.as_slice()))
}

#[test]
fn they_are_read_again(rt: HostRuntime) -> Result<(), Fail> {
    assert!(rt; read_back(rt.alloc(), 9, 9)? == Ok(true));
    assert!(rt; read_back(rt.alloc(), 9, 8)? == Err(Why::NotSubset));
    assert!(rt; read_back(rt.alloc(), 15, 15)? == Ok(true));
    assert!(rt; read_back(rt.alloc(), 15, 14)? == Err(Why::NotSubset));
    Ok(())
}

// ---- the least of all forms, one after another

/// The fewest bits of a subframe of samples that are not all equal and of which one is odd.
fn least_bits(alloc: Global, samples: &[i64], partition: u32) -> Result<u64, Fail> {
    let (form, _) = least(alloc, samples, DEPTH, partition)?;
    Ok(form.bits.wrapping_add(8))
}

/// Whether a block takes as many bits as the least of all forms with partition orders up to 15, and more if they are up
/// to 8.
fn is_least(alloc: Global, len: usize, run: usize) -> Result<bool, Fail> {
    let samples = bursts(alloc, len, run)?;
    let (wide, _) = written_in(alloc, &samples, DEPTH, 15, &[])?;
    let (narrow, _) = written_in(alloc, &samples, DEPTH, 8, &[])?;
    let least = least_bits(alloc, &samples, 15)?;
    Ok(wide == least && wide < narrow && narrow == least_bits(alloc, &samples, 8)?)
}

#[test]
fn no_form_is_shorter(rt: HostRuntime) -> Result<(), Fail> {
    assert!(rt; is_least(rt.alloc(), 512, 1)?);
    assert!(rt; is_least(rt.alloc(), 1024, 1)?);
    assert!(rt; is_least(rt.alloc(), 1536, 3)?);
    assert!(rt; is_least(rt.alloc(), 2560, 5)?);
    Ok(())
}

// ---- with a linear predictor, and with the orders of the subset

/// Samples of which each is the one before with the other sign, and 4097 more at two places of four; and what that
/// predictor leaves.
fn turning(alloc: Global, len: usize) -> Result<(Vec<i64>, Vec<i64>), Fail> {
    let mut samples = vec![in alloc; 4_000_001i64; len]?;
    let mut left = vec![in alloc; 0i64; len]?;
    for i in 1..samples.len().min(left.len()) {
        if i / 2 % 2 == 1 {
            left[i] = 4097;
        }
        samples[i] = left[i].wrapping_sub(samples[i - 1]);
    }
    Ok((samples, left))
}

#[test]
fn by_a_predictor(rt: HostRuntime) -> Result<(), Fail> {
    let alloc = rt.alloc();
    let (samples, left) = turning(alloc, 1024)?;
    let Some(predictor) = LinearPredictor::new(1, 0, &[-1]) else {
        return Err(Fail::new("no predictor"));
    };
    let (bits, _) = written_in(alloc, &samples, DEPTH, 15, &[predictor])?;
    let (_, rest) = left.split_at(left.len().min(1));
    let residual = least_residual(rest, 1, 15, &mut 0);
    let wanted = residual.bits.wrapping_add(8 + 24 + 10);
    assert!(rt; bits == wanted && wanted < least_bits(alloc, &samples, 15)?);
    Ok(())
}

/// Whether the subframe of a block with partition orders up to 8 is the one of the subset, byte for byte.
fn is_of_the_subset(alloc: Global, len: usize, run: usize) -> Result<bool, Fail> {
    let samples = bursts(alloc, len, run)?;
    let wide = written_in(alloc, &samples, DEPTH, 8, &[])?;
    let alone = written(alloc, &samples, DEPTH)?;
    Ok(wide.0 == alone.0 && wide.1.as_slice() == alone.1.as_slice())
}

#[test]
fn as_in_the_subset(rt: HostRuntime) -> Result<(), Fail> {
    assert!(rt; is_of_the_subset(rt.alloc(), 512, 1)?);
    assert!(rt; is_of_the_subset(rt.alloc(), 4608, 18)?);
    assert!(rt; is_of_the_subset(rt.alloc(), 4864, 19)?);
    assert!(rt; is_of_the_subset(rt.alloc(), 1, 1)?);
    Ok(())
}

/// Chooses two subframes in turn in one place, and writes the second: how many bits the place has before, and after.
fn write_second<W: Target>(alloc: Global, writer: &mut BitWriter<W>) -> Result<(u64, u64), Why> {
    let limits = limits(15);
    let mut workspace = Workspace::new(alloc, 64, &limits)?;
    let mut choice = WideChoice::new(alloc, &limits)?;
    let before = choice.bits();
    let noise = [3, -70, 5, 90, -1, 8, 33, -6];
    choose_in(&noise, 8, &limits, &[], &mut workspace, &mut choice);
    choose_in(&[0; 16], 16, &limits, &[], &mut workspace, &mut choice);
    write_subframe_in(&choice, &[], &[0; 16], 16, &mut workspace, writer)?;
    Ok((before, choice.bits()))
}

/// A place that has no choice yet, and what it has after two in turn: the second does not depend on the first.
#[test]
fn one_place_for_all(rt: HostRuntime) -> Result<(), Fail> {
    let mut writer = BitWriter::new(Collected::new(rt.alloc()));
    let (before, after) = write_second(rt.alloc(), &mut writer)?;
    writer.align()?;
    writer.finish()?;
    assert!(rt; before == 9 && after == 23);
    assert!(rt; writer.into_target().bytes() == [0x10, 0x03, 0xC0].as_slice());
    Ok(())
}

/// How often a value is priced for a single sample: before there is a choice, for the choice, and what a copy of it
/// says.
fn priced_of_one(alloc: Global) -> Result<(u64, u64, u64), Why> {
    let limits = limits(8);
    let mut workspace = Workspace::new(alloc, 1, &limits)?;
    let mut choice = WideChoice::new(alloc, &limits)?;
    let before = choice.priced();
    choose_in(&[25587], 16, &limits, &[], &mut workspace, &mut choice);
    let copied = choice.kept(alloc)?.priced();
    Ok((before, choice.priced(), copied))
}

/// A single sample is priced under parameter 0 and by its width, as it is for a choice of its own.
#[test]
fn counts_in_its_place(rt: HostRuntime) {
    assert!(rt; priced_of_one(rt.alloc()) == Ok((0, 2, 2)));
}
