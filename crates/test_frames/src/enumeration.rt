//! The subframe of the fewest bits, found by trying every form: each predictor, method, partition order, parameter and
//! escape, with the cost of each value worked out anew. Of forms that take as many bits the first is kept: constant,
//! verbatim, fixed predictors by their order, then by method, by partition order and by parameter, and an escape last.

use crate::equals::EQUALS;
use crate::subframes::{WRITTEN, all_fit, wide_of, written};
use flac_subframe::choose;
use std::alloc::Global;
use std::process::Abort;
use std::test::Fail;
use test_vectors::{bursts, fields_of, pair_of};

/// The weights of the samples in what a fixed predictor leaves, the oldest first (RFC 9639, section 9.2.5).
const WEIGHTS: [&[i64]; 5] = [
    &[1],
    &[-1, 1],
    &[1, -2, 1],
    &[-1, 3, -3, 1],
    &[1, -4, 6, -4, 1],
];

/// A form of a subframe: the code of its type, the bits of each parameter, the partition order, and how many bits it
/// takes.
#[derive(Clone, Copy)]
pub(crate) struct Form {
    code: u32,
    parameter_bits: u32,
    partition_order: u32,
    pub(crate) bits: u64,
}

/// The coding of a partition: its parameter, or the width of its values for an escape, and how many bits it takes
/// beside the parameter.
#[derive(Clone, Copy)]
struct Coded {
    escape: bool,
    number: u32,
    bits: u64,
}

/// What the fixed predictor of some weights leaves of the last of some samples.
fn left(samples: &[i64], weights: &[i64]) -> i64 {
    let mut sum = 0i64;
    for (sample, weight) in samples.iter().zip(weights.iter()) {
        sum = sum.wrapping_add(sample.wrapping_mul(*weight));
    }
    sum
}

/// What the fixed predictor of an order leaves of samples.
fn residual(alloc: Global, samples: &[i64], order: usize) -> Result<Vec<i64>, Fail> {
    let weights = WEIGHTS[order.min(4)];
    let mut values = Vec::new(alloc);
    for place in 0..samples.len().saturating_sub(order) {
        values.push(left(&samples[place..], weights))?;
    }
    Ok(values)
}

/// Whether a residual may have the values (section 9.2.7.3).
fn is_in_range(values: &[i64]) -> bool {
    values.iter().all(|value| value.unsigned_abs() < 1 << 31)
}

/// Whether a number has a two's complement form of n bits; 0 alone has one of none.
fn fits(value: i64, width: u32) -> bool {
    let half = (1i64 << (width % 64)) / 2;
    if half == 0 {
        return value == 0;
    }
    half.wrapping_neg() <= value && value < half
}

/// The fewest bits that hold a value of at most 40 bits.
fn width(value: i64) -> u32 {
    for width in 0..40 {
        if fits(value, width) {
            return width;
        }
    }
    40
}

/// The fewest bits that hold each value.
fn width_of(values: &[i64]) -> u32 {
    let mut most = 0;
    for value in values {
        most = most.max(width(*value));
    }
    most
}

/// A residual value as an unsigned number: 0, -1, 1, -2 and so on as 0, 1, 2, 3.
fn folded(value: i64) -> u64 {
    let twice = value.wrapping_mul(2);
    if value < 0 {
        (-1i64).wrapping_sub(twice).cast_unsigned()
    } else {
        twice.cast_unsigned()
    }
}

/// What values take under a Rice parameter.
fn rice_bits(values: &[i64], parameter: u32) -> u64 {
    let mut bits = 0u64;
    for value in values {
        let length = (folded(*value) >> (parameter % 32)).wrapping_add(u64::from(parameter) + 1);
        bits = bits.wrapping_add(length);
    }
    bits
}

/// The coding of a partition with the fewest bits. Each value counts for each parameter, and once for its width.
fn cheapest(values: &[i64], parameter_bits: u32, priced: &mut u64) -> Coded {
    let count = values.len() as u64;
    let mut best = Coded {
        escape: false,
        number: 0,
        bits: u64::MAX,
    };
    for number in 0..(1u32 << (parameter_bits % 8)).saturating_sub(1) {
        let bits = rice_bits(values, number);
        *priced = priced.wrapping_add(count);
        if bits < best.bits {
            best = Coded {
                escape: false,
                number,
                bits,
            };
        }
    }
    let number = width_of(values);
    let bits = u64::from(number).wrapping_mul(count).wrapping_add(5);
    *priced = priced.wrapping_add(count);
    if number < 32 && bits < best.bits {
        return Coded {
            escape: true,
            number,
            bits,
        };
    }
    best
}

/// The first partition of a residual, and the others.
fn first_part(values: &[i64], order: usize, size: usize) -> (&[i64], &[i64]) {
    values.split_at(size.saturating_sub(order).min(values.len()))
}

/// How many bits the residual of an order takes at a method and in partitions of `size` samples.
fn cost(values: &[i64], order: usize, size: usize, parameter_bits: u32, priced: &mut u64) -> u64 {
    let (first, rest) = first_part(values, order, size);
    let own = u64::from(parameter_bits);
    let mut bits = cheapest(first, parameter_bits, priced)
        .bits
        .wrapping_add(6 + own);
    for part in rest.chunks(size.max(1)) {
        bits = bits
            .wrapping_add(cheapest(part, parameter_bits, priced).bits)
            .wrapping_add(own);
    }
    bits
}

/// The form of the fewest bits of the residual of an order, with either method and partition orders up to the greatest.
/// Its code is that of the fixed predictor, and warm-up samples are not among its bits.
pub(crate) fn least_residual(values: &[i64], order: usize, most: u32, priced: &mut u64) -> Form {
    let block = values.len().wrapping_add(order);
    let code = order.min(4) as u32 + 8;
    let mut best = Form {
        code,
        parameter_bits: 4,
        partition_order: 0,
        bits: u64::MAX,
    };
    for parameter_bits in 4..6 {
        for partition_order in 0..most.min(15) + 1 {
            let size = block >> partition_order;
            if size << partition_order == block && size > order {
                let bits = cost(values, order, size, parameter_bits, priced);
                if bits < best.bits {
                    best = Form {
                        code,
                        parameter_bits,
                        partition_order,
                        bits,
                    };
                }
            }
        }
    }
    best
}

/// The constant form if all samples are equal, or else the verbatim one.
fn plain_form(samples: &[i64], depth: u32) -> Form {
    let first = samples.first().copied().unwrap_or(0);
    let equal = samples.iter().all(|sample| *sample == first);
    let count = if equal { 1 } else { samples.len() as u64 };
    Form {
        code: u32::from(!equal),
        parameter_bits: 4,
        partition_order: 0,
        bits: u64::from(depth).wrapping_mul(count),
    }
}

/// The form of the fewest bits for samples of which one is odd or all are 0, with partition orders up to the greatest,
/// and how often a value is priced. The header of the subframe is not among its bits.
pub(crate) fn least(
    alloc: Global,
    samples: &[i64],
    depth: u32,
    most: u32,
) -> Result<(Form, u64), Fail> {
    let mut best = plain_form(samples, depth);
    let mut priced = 0;
    for order in 0..5usize {
        let values = residual(alloc, samples, order)?;
        if order < samples.len() && is_in_range(&values) {
            let warm_up = u64::from(depth).wrapping_mul(order as u64);
            let mut form = least_residual(&values, order, most, &mut priced);
            form.bits = form.bits.saturating_add(warm_up);
            if form.bits < best.bits {
                best = form;
            }
        }
    }
    Ok((best, priced))
}

// ---- the bytes of a form

/// Bytes whose bits are compared with what they should be, from a place on.
#[derive(Drop)]
pub(crate) struct Compared<'a> {
    pub(crate) bytes: &'a [u8],
    pub(crate) at: u64,
    pub(crate) same: bool,
}

/// The next bits should be those of a number.
fn number(compared: &mut Compared<'_>, number: i64, count: u32) {
    for i in (0..count).rev() {
        let byte = compared.bytes.get((compared.at / 8) as usize);
        let place = 7 - (compared.at % 8) as u32;
        let found = (byte.copied().unwrap_or(0) >> place) & 1;
        let wanted = (number >> (i % 64)) & 1;
        compared.same = compared.same && (found == 1) == (wanted == 1);
        compared.at = compared.at.wrapping_add(1);
    }
}

/// So many zeros, and a one.
fn unary(compared: &mut Compared<'_>, zeros: u64) {
    for _ in 0..zeros {
        number(compared, 0, 1);
    }
    number(compared, 1, 1);
}

/// A value under a Rice parameter: its quotient is in unary, and its remainder comes after it.
fn rice(compared: &mut Compared<'_>, value: i64, parameter: u32) {
    let folded = folded(value);
    unary(compared, folded >> (parameter % 64));
    number(compared, folded.cast_signed(), parameter);
}

/// A partition in its coding.
fn partition(compared: &mut Compared<'_>, values: &[i64], parameter_bits: u32) {
    let coded = cheapest(values, parameter_bits, &mut 0);
    if coded.escape {
        number(compared, -1, parameter_bits);
        number(compared, i64::from(coded.number), 5);
        for value in values {
            number(compared, *value, coded.number);
        }
    } else {
        number(compared, i64::from(coded.number), parameter_bits);
        for value in values {
            rice(compared, *value, coded.number);
        }
    }
}

/// The residual of a predictor of an order (RFC 9639, section 9.2.7).
fn partitions(compared: &mut Compared<'_>, values: &[i64], order: usize, form: Form) {
    number(compared, i64::from(form.parameter_bits) - 4, 2);
    number(compared, i64::from(form.partition_order), 4);
    let size = values.len().wrapping_add(order) >> (form.partition_order % 16);
    let (first, rest) = first_part(values, order, size);
    partition(compared, first, form.parameter_bits);
    for part in rest.chunks(size.max(1)) {
        partition(compared, part, form.parameter_bits);
    }
}

/// The header of a subframe (section 9.2.1).
fn header(compared: &mut Compared<'_>, code: u32, wasted: u32) {
    number(compared, i64::from(code), 7);
    if wasted == 0 {
        number(compared, 0, 1);
    } else {
        number(compared, 1, 1);
        unary(compared, u64::from(wasted) - 1);
    }
}

/// The samples of a subframe in a form, of which the first are a predictor's.
fn content(compared: &mut Compared<'_>, samples: &[i64], values: &[i64], depth: u32, form: Form) {
    let order = form.code.saturating_sub(8) as usize;
    let plain = match form.code {
        0 => 1,
        1 => samples.len(),
        _ => order,
    };
    for sample in samples.iter().take(plain) {
        number(compared, *sample, depth);
    }
    if form.code >= 8 {
        partitions(compared, values, order, form);
    }
}

// ---- the choice beside it

/// How many of the lowest bits are 0 in each sample; none if all samples are 0.
fn wasted_of(samples: &[i64]) -> u32 {
    let mut bits = 0;
    for sample in samples {
        bits |= *sample;
    }
    if bits == 0 { 0 } else { bits.trailing_zeros() }
}

/// Samples without some of their lowest bits.
fn shortened(alloc: Global, samples: &[i64], wasted: u32) -> Result<Vec<i64>, Fail> {
    let mut short = Vec::new(alloc);
    for sample in samples {
        short.push(*sample >> (wasted % 64))?;
    }
    Ok(short)
}

/// The next bits should be the subframe of the first of the shortest forms of samples. It returns that form, and how
/// often trying every form prices a value.
pub(crate) fn subframe(
    alloc: Global,
    compared: &mut Compared<'_>,
    samples: &[i64],
    depth: u32,
) -> Result<(Form, u64), Fail> {
    let wasted = wasted_of(samples);
    let short = shortened(alloc, samples, wasted)?;
    let left = depth.saturating_sub(wasted);
    let (form, priced) = least(alloc, &short, left, 8)?;
    let values = residual(alloc, &short, form.code.saturating_sub(8) as usize)?;
    header(compared, form.code, wasted);
    content(compared, &short, &values, left, form);
    Ok((form, priced))
}

/// What is known of a block: whether what is chosen is the first of the forms of the fewest bits, byte for byte; its
/// partition order; and how often a value was priced to find it, by the search and by trying every form.
#[derive(Drop)]
struct Outcome {
    same: bool,
    partition_order: u32,
    searched: u64,
    enumerated: u64,
}

/// How often the search prices a value for 1 to 65535 samples.
fn priced_of(samples: &[i64], depth: u32) -> u64 {
    let len = samples.len();
    if len == 0 || len > 65535 || depth == 0 || depth > 33 {
        return u64::MAX;
    }
    if !all_fit(samples, depth) {
        return u64::MAX;
    }
    choose(samples, depth).priced()
}

/// Tries every form of a block.
fn tried_all(alloc: Global, samples: &[i64], depth: u32) -> Result<Outcome, Fail> {
    let (bits, bytes) = written(alloc, samples, depth)?;
    let mut compared = Compared {
        bytes: &bytes,
        at: 0,
        same: true,
    };
    let (form, enumerated) = subframe(alloc, &mut compared, samples, depth)?;
    Ok(Outcome {
        same: compared.same && compared.at == bits,
        partition_order: form.partition_order,
        searched: priced_of(samples, depth),
        enumerated,
    })
}

// ---- blocks

/// The lengths of blocks, by turns.
const LENGTHS: [usize; 23] = [
    16, 1, 192, 2, 64, 3, 576, 4, 33, 5, 256, 15, 128, 17, 96, 255, 288, 32, 48, 257, 1152, 240,
    512,
];

/// Their depths.
const DEPTHS: [u32; 9] = [16, 24, 8, 32, 12, 20, 33, 4, 1];

/// The numbers from which samples are made: what looks random, and a wave with its slope.
#[derive(Drop)]
pub(crate) struct Source {
    state: u64,
    wave: i64,
    slope: i64,
}

/// The source of a seed.
pub(crate) fn seeded(seed: u64) -> Source {
    Source {
        state: seed,
        wave: 0,
        slope: 1 << 24,
    }
}

/// The next number that looks random, of 33 bits.
pub(crate) fn random(source: &mut Source) -> i64 {
    let state = source.state.wrapping_mul(6_364_136_223_846_793_005);
    source.state = state.wrapping_add(1_442_695_040_888_963_407);
    source.state.cast_signed() >> 31
}

/// The next sample of a wave of a depth.
fn wave(source: &mut Source, depth: u32) -> i64 {
    source.wave = source.wave.wrapping_add(source.slope);
    source.slope = source.slope.wrapping_sub(source.wave / 64);
    source.wave >> (33 - depth.min(33))
}

/// One sample of a kind of signal: noise of all bits, noise of half of them, a wave, a wave with noise, silence with
/// clicks, wasted bits, the smallest and the largest sample, steps, and noise that comes and goes.
fn sample(source: &mut Source, kind: usize, place: usize, depth: u32) -> i64 {
    let noise = random(source);
    let all = noise >> (33 - depth.min(33));
    let half = all >> (depth.min(33) / 2);
    match kind {
        0 => all,
        1 => half,
        2 => wave(source, depth),
        3 => wave(source, depth).wrapping_add(half >> 2),
        4 if noise % 29 == 0 => all,
        4 => 0,
        5 => (half >> 3) << 3,
        6 if noise < 0 => i64::MIN,
        6 => i64::MAX,
        7 => (place / 40) as i64,
        _ if place / 24 % 2 == 0 => half,
        _ => half >> 3,
    }
}

/// The block of a number, within its depth.
fn block(alloc: Global, seed: usize, length: usize, depth: u32) -> Result<Vec<i64>, Fail> {
    let mut source = seeded(seed as u64);
    let highest = (1i64 << (depth.min(33).max(1) - 1)) - 1;
    let mut samples = Vec::new(alloc);
    for place in 0..length {
        let sample = sample(&mut source, seed % 9, place, depth);
        samples.push(sample.min(highest).max(-1 - highest))?;
    }
    Ok(samples)
}

/// Whether the first of the shortest forms of a block is chosen.
fn is_first(alloc: Global, seed: usize, length: usize, depth: u32) -> Result<bool, Fail> {
    let samples = block(alloc, seed, length, depth)?;
    Ok(tried_all(alloc, &samples, depth)?.same)
}

#[test]
fn two_hundred_blocks(rt: HostRuntime) -> Result<(), Fail> {
    for seed in 0..200usize {
        let length = LENGTHS[seed % 23];
        let depth = DEPTHS[seed / 9 % 9];
        assert!(rt; is_first(rt.alloc(), seed, length, depth)?, "{seed}");
    }
    Ok(())
}

/// Each length up to 33 has its own rest after whole lanes, for samples of few bits and of many.
#[test]
fn each_length(rt: HostRuntime) -> Result<(), Fail> {
    for length in 1..34usize {
        for kind in 0..9usize {
            assert!(rt; is_first(rt.alloc(), kind, length, 16)?, "{length} {kind}");
            assert!(rt; is_first(rt.alloc(), kind, length, 32)?, "{length} {kind}");
        }
    }
    Ok(())
}

/// Whether the first of the shortest forms of a row's samples is chosen.
fn is_first_of(alloc: Global, row: &str) -> Result<bool, Fail> {
    let (shape, words, _) = fields_of(row);
    let (depth, _) = pair_of(shape)?;
    let samples = wide_of(alloc, words)?;
    Ok(tried_all(alloc, &samples, depth)?.same)
}

#[test]
fn rows_of_choices(rt: HostRuntime) -> Result<(), Fail> {
    for row in WRITTEN.lines().chain(EQUALS.lines()) {
        if !row.starts_with('#') {
            assert!(rt; is_first_of(rt.alloc(), row)?, "{row}");
        }
    }
    Ok(())
}

/// What is known of a block in which loud and quiet parts of 18 samples take turns.
fn outcome_of_bursts(alloc: Global, length: usize) -> Result<Outcome, Fail> {
    let samples = bursts(alloc, length, 18)?;
    tried_all(alloc, &samples, 18)
}

/// A block of 4608 samples can be in 256 parts, one of 4607 in no two equal ones. The plain enumeration prices a value
/// more often than the search may.
#[test]
fn many_partitions(rt: HostRuntime) -> Result<(), Fail> {
    let even = outcome_of_bursts(rt.alloc(), 4608)?;
    assert!(rt; even.same && even.partition_order == 8);
    assert!(rt; even.searched <= 5 * 32 * 4608 && 5 * 32 * 4608 < even.enumerated);
    let odd = outcome_of_bursts(rt.alloc(), 4607)?;
    assert!(rt; odd.same && odd.partition_order == 0);
    Ok(())
}

/// A single sample is priced under parameter 0 and by its width. These show that it takes no fewer bits than as a
/// constant, so no other parameter is tried.
#[test]
fn counts_what_it_prices(rt: HostRuntime) {
    assert!(rt; priced_of(&[25588], 16) == 2);
    assert!(rt; priced_of(&[0; 16], 16) > 0);
}
