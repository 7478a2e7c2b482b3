//! Reads a subframe.

ghost use Rattle.std.specs.Prelude.{◌≡◌, ◌≤◌, ◌<◌, ◌+◌, ◌-◌, OnOk, IfOk, IfSome, length, cond, Some, None, All, IsTrue, map, replicate, ℤ, pos, ◌*ℤ◌, ◌^◌};
ghost use Rattle.flac_bits.specs.Reading.{Reads, Means, CallInPlace};
ghost use Rattle.flac_bits.specs.Signed.{FitsBits};
ghost use Rattle.flac_subframe.specs.format.inner.Codes.{IsType, type_code, type_order};
ghost use Rattle.flac_subframe.specs.format.Subframe.{constant, verbatim, fixed, predictor, linear, content_samples, wasted_bits, header, subframe_samples, if_fit, samples_by_layout, ReadsSubframe};
ghost use Rattle.flac_bits.specs.Layout.{bind, done, zeros_at};
ghost use Rattle.flac_subframe.specs.format.inner.Reading.{ReadsAs, header_of, ReadsByLayout, ReadsContent, ReadsFixed, ReadsLinear, ReadsLinearInto, ReadsPredictor, ReadsType, ReadsVerbatim};

use crate::format::fixed::restore_fixed;
use crate::format::limits::Limits;
use crate::format::numbers::power_of_two;
use crate::format::residual::read_residual;
use crate::format::restoration::restore_linear;
use crate::format::subframe_type::SubframeType;
use arrayvec::ArrayVec;
use flac_bits::{BitReader, Source, Why};

/// The type of a subframe, and its number of wasted bits.
#[derive(Clone, Copy)]
struct Header {
    kind: SubframeType,
    wasted: u32,
}

/// How many bits are wasted (RFC 9639, section 9.2.2).
#[tactic(auto, unfolding(crate::specs::format::Subframe::wasted_bits))]
fn read_wasted<R: Source>(bits: &mut BitReader<R>, flag: u64, depth: u32) -> Result<u32, Why>
    requires depth { depth ≤ 33 }
    requires positive { 1 ≤ depth }
    requires room { flag ≡ 1 → 2 ≤ depth }
    requires flag { flag < 2 }
    ensures left { IfOk result (λ k. k < depth) }
    ensures reading { ReadsAs (λ k. k) (wasted_bits flag depth) bits.old bits.new result }
{
    if flag == 0 {
        return Ok(0);
    }
    let Some(zeros) = bits.unary(u64::from(depth - 2))? else {
        return Err(Why::BadSubframe);
    };
    Ok(zeros as u32 + 1)
}

/// Reads the header of a subframe.
#[tactic(auto, unfolding(crate::specs::format::Subframe::header))]
fn read_header<R: Source>(
    bits: &mut BitReader<R>,
    depth: u32,
    block: u32,
    limits: &Limits,
) -> Result<Header, Why>
    requires depth { (1 ≤ depth) × (depth ≤ 33) }
    ensures kind { IfOk result (λ h. IsType h.kind) }
    ensures order { IfOk result (λ h. type_order h.kind < block) }
    ensures left { IfOk result (λ h. h.wasted < depth) }
    ensures reading { CallInPlace 8 (Reads header_of (header depth block limits.now)) bits.old bits.new result }
{
    let zero = bits.take(1)?;
    let code = bits.take(6)?;
    let flag = bits.take(1)?;
    let Some(kind) = SubframeType::of_code(code) else {
        return Err(Why::BadSubframe);
    };
    if zero == 1 || (flag == 1 && depth < 2) {
        return Err(Why::BadSubframe);
    }
    if kind.linear_order() > limits.linear {
        return Err(Why::NotSubset);
    }
    if kind.order() >= block {
        return Err(Why::BadPartition);
    }
    let wasted = read_wasted(bits, flag, depth)?;
    Ok(Header { kind, wasted })
}

/// Reads one sample for all (RFC 9639, section 9.2.3).
#[tactic(auto, unfolding(crate::specs::format::Subframe::constant))]
fn read_constant<R: Source>(
    bits: &mut BitReader<R>,
    depth: u32,
    samples: &mut [i64],
) -> Result<bool, Why>
    requires depth { (1 ≤ depth) × (depth ≤ 33) }
    ensures fits { IfOk result (λ fits. IsTrue fits → All (FitsBits depth) samples.new) }
    ensures reading { ReadsContent depth samples.old samples.new (constant depth) bits.old bits.new result }
{
    let sample = bits.take_signed(depth)?;
    samples.fill(sample);
    Ok(true)
}

/// Reads each sample (RFC 9639, section 9.2.4).
#[tactic(auto, unfolding(crate::specs::format::Subframe::verbatim), using(crate::proofs::lemmas::format::Samples::fitting_is))]
fn read_verbatim<R: Source>(
    bits: &mut BitReader<R>,
    depth: u32,
    samples: &mut [i64],
) -> Result<bool, Why>
    requires depth { (1 ≤ depth) × (depth ≤ 33) }
    ensures fits { IfOk result (λ fits. IsTrue fits → All (FitsBits depth) samples.new) }
    ensures reading { ReadsVerbatim depth samples.old samples.new bits.old bits.new result }
{
    bits.signed_partition(depth, samples)?;
    Ok(true)
}

/// Reads the samples of a fixed predictor (RFC 9639, section 9.2.5).
#[tactic(auto, unfolding(crate::specs::format::Subframe::fixed))]
fn read_fixed<R: Source>(
    bits: &mut BitReader<R>,
    depth: u32,
    limit: u32,
    order: u32,
    samples: &mut [i64],
) -> Result<bool, Why>
    requires depth { (1 ≤ depth) × (depth ≤ 33) }
    requires limit { limit ≤ 15 }
    requires order { order ≤ 4 }
    requires places { (order < length samples.old) × (length samples.old ≤ 65535) }
    ensures fits { IfOk result (λ fits. IsTrue fits → All (FitsBits depth) samples.new) }
    ensures reading { ReadsFixed depth limit order samples.old samples.new bits.old bits.new result }
{
    let places = order as usize;
    bits.signed_partition(depth, &mut samples[..places])?;
    read_residual(bits, limit, places, &mut samples[places..])?;
    Ok(restore_fixed(places, depth, samples))
}

/// Reads the precision, the shift and the coefficients of a linear predictor (RFC 9639, section 9.2.6).
#[tactic(auto, unfolding(crate::specs::format::Subframe::predictor))]
fn read_predictor<R: Source>(
    bits: &mut BitReader<R>,
    coefficients: &mut [i64],
) -> Result<(u32, u32), Why>
    ensures shift { IfOk result (λ p. p.1 < 16) }
    ensures fits { OnOk result (All (FitsBits 15) coefficients.new) }
    ensures reading { ReadsPredictor coefficients.old coefficients.new bits.old bits.new result }
{
    let low = bits.take(4)? as u32;
    if low == 15 {
        return Err(Why::BadPredictor);
    }
    let shift = bits.take(5)? as u32;
    if shift > 15 {
        return Err(Why::BadPredictor);
    }
    bits.signed_partition(low + 1, coefficients)?;
    Ok((low + 1, shift))
}

/// Reads the samples of a linear predictor, with places for its coefficients (RFC 9639, section 9.2.6).
#[tactic(auto, unfolding(crate::specs::format::Subframe::linear))]
fn read_linear_into<R: Source>(
    bits: &mut BitReader<R>,
    depth: u32,
    limit: u32,
    coefficients: &mut [i64],
    samples: &mut [i64],
) -> Result<bool, Why>
    requires depth { (1 ≤ depth) × (depth ≤ 33) }
    requires limit { limit ≤ 15 }
    requires order { (1 ≤ length coefficients.old) × (length coefficients.old ≤ 32) }
    requires places { (length coefficients.old < length samples.old) × (length samples.old ≤ 65535) }
    ensures fits { IfOk result (λ fits. IsTrue fits → All (FitsBits depth) samples.new) }
    ensures reading { ReadsLinearInto depth limit coefficients.old samples.old samples.new bits.old bits.new result }
{
    let order = coefficients.len();
    bits.signed_partition(depth, &mut samples[..order])?;
    let (_precision, shift) = read_predictor(bits, coefficients)?;
    read_residual(bits, limit, order, &mut samples[order..])?;
    Ok(restore_linear(coefficients, shift, depth, samples))
}

/// Reads the samples of a linear predictor of this order.
fn read_linear<R: Source>(
    bits: &mut BitReader<R>,
    depth: u32,
    limit: u32,
    order: u32,
    samples: &mut [i64],
) -> Result<bool, Why>
    requires depth { (1 ≤ depth) × (depth ≤ 33) }
    requires limit { limit ≤ 15 }
    requires order { (1 ≤ order) × (order ≤ 32) }
    requires places { (order < length samples.old) × (length samples.old ≤ 65535) }
    ensures fits { IfOk result (λ fits. IsTrue fits → All (FitsBits depth) samples.new) }
    ensures reading { ReadsLinear depth limit order samples.old samples.new bits.old bits.new result }
{
    let mut coefficients: ArrayVec<i64, 32> = ArrayVec::from([0; 32]);
    coefficients.truncate(order as usize);
    read_linear_into(bits, depth, limit, coefficients.as_mut_slice(), samples)
}

/// Reads the samples before the wasted bits are put back, and returns whether each fits.
#[tactic(auto, unfolding(crate::specs::format::Subframe::content_samples, crate::specs::format::Subframe::content))]
fn read_content<R: Source>(
    bits: &mut BitReader<R>,
    kind: SubframeType,
    depth: u32,
    limit: u32,
    samples: &mut [i64],
) -> Result<bool, Why>
    requires depth { (1 ≤ depth) × (depth ≤ 33) }
    requires limit { limit ≤ 15 }
    requires kind { IsType kind }
    requires places { (type_order kind < length samples.old) × (length samples.old ≤ 65535) }
    ensures fits { IfOk result (λ fits. IsTrue fits → All (FitsBits depth) samples.new) }
    ensures reading { ReadsType kind depth limit samples.old samples.new bits.old bits.new result }
{
    match kind {
        SubframeType::Constant => read_constant(bits, depth, samples),
        SubframeType::Verbatim => read_verbatim(bits, depth, samples),
        SubframeType::Fixed(order) => read_fixed(bits, depth, limit, order, samples),
        SubframeType::Linear(order) => read_linear(bits, depth, limit, order, samples),
    }
}

/// Puts the wasted bits back.
fn scale(samples: &mut [i64], wasted: u32)
    requires wasted { wasted < 33 }
    requires small { All (FitsBits (33 - wasted)) samples.old }
    ensures { samples.new ≡ map (λ z. z *ℤ pos (2 ^ wasted)) samples.old }
{
    if wasted == 0 {
        return;
    }
    let power = power_of_two(wasted);
    for place in samples.iter_mut() {
        *place *= power;
    }
}

/// Reads a subframe, and writes its samples to `samples`, of which there are `block`, 1 to 65535 (RFC 9639, section
/// 9.2). `depth` is the depth of this subframe, 1 to 33 bits: a side channel has one bit more than the frame (section
/// 4.2).
///
/// Returns whether each sample fits the depth. If one does not, the values of `samples` are not specified.
///
/// ```
/// let limits = Limits {
///     partition: 8,
///     linear,
/// };
/// let mut bits = BitReader::new(Memory::new(bytes));
/// read_subframe(&mut bits, depth, samples.len() as u32, &limits, samples)
/// ```
///
/// # Errors
/// The error of the field that ends first:
///
/// - [`Why::BadSubframe`] if the first bit is set, the type is reserved, or there are too many wasted bits (sections
///   9.2.1 and 9.2.2);
/// - [`Why::NotSubset`] if the order of a linear predictor or the partition order is above its limit;
/// - [`Why::BadPredictor`] if a linear predictor has a forbidden precision or shift (section 9.2.6);
/// - [`Why::BadPartition`] if the order of a predictor or the partition order does not fit the block, or the coding
///   method is reserved (section 9.2.7);
/// - [`Why::ResidualRange`] if a residual value is not strictly between -2^31 and 2^31 (section 9.2.7.3);
/// - those of [`BitReader`].
pub fn read_subframe<R: Source>(
    bits: &mut BitReader<R>,
    depth: u32,
    block: u32,
    limits: &Limits,
    samples: &mut [i64],
) -> Result<bool, Why>
    requires depth { (1 ≤ depth) × (depth ≤ 33) }
    requires block { (1 ≤ block) × (block ≤ 65535) }
    requires places { length samples.old ≡ block }
    requires limits { (limits.now.partition ≤ 15) × (limits.now.linear ≤ 32) }
    ensures small { IfOk result (λ fits. IsTrue fits → All (FitsBits 34) samples.new) }
    ensures reading { ReadsSubframe depth block limits.now samples.new bits.old bits.new result }
{
    read_by_layout(bits, depth, block, limits, samples)
}

/// Does what [`read_subframe`] does.
fn read_by_layout<R: Source>(
    bits: &mut BitReader<R>,
    depth: u32,
    block: u32,
    limits: &Limits,
    samples: &mut [i64],
) -> Result<bool, Why>
    requires depth { (1 ≤ depth) × (depth ≤ 33) }
    requires block { (1 ≤ block) × (block ≤ 65535) }
    requires places { length samples.old ≡ block }
    requires limits { (limits.now.partition ≤ 15) × (limits.now.linear ≤ 32) }
    // proof only
    ensures small { IfOk result (λ fits. IsTrue fits → All (FitsBits 34) samples.new) }
    ensures reading { ReadsByLayout depth block limits.now samples.new bits.old bits.new result }
{
    let header = read_header(bits, depth, block, limits)?;
    let fits = read_content(
        bits,
        header.kind,
        depth - header.wasted,
        limits.partition,
        samples,
    )?;
    if fits {
        scale(samples, header.wasted);
    }
    Ok(fits)
}
