//! Reads a residual, to the places of the samples that it restores.

ghost use Rattle.std.specs.Prelude.{◌≡◌, ◌≤◌, ◌<◌, ◌+◌, ◌-◌, ◌*◌, ◌^◌, ◌/◌, OnOk, IfOk, IfSome, length, All};
ghost use Rattle.flac_bits.specs.Layout.{bind, done, zeros_at};
ghost use Rattle.flac_bits.specs.Lists.{list_of};
ghost use Rattle.flac_bits.specs.Rice.{rice_value, unfolded};
ghost use Rattle.flac_bits.specs.Reading.{Reads, CallInPlace};
ghost use Rattle.flac_bits.specs.Signed.{FitsBits};
ghost use Rattle.flac_subframe.specs.format.inner.Codes.{method_code};
ghost use Rattle.flac_subframe.specs.format.Residual.{residual_header};
ghost use Rattle.flac_subframe.specs.format.inner.Reading.{ReadsAs, ReadsPartitions, ReadsResidual, ReadsResidualHeader, partition_values, partitions_values, values_read};

use crate::format::coding_method::CodingMethod;
use crate::format::numbers::power;
use flac_bits::{BitReader, Source, Why};

/// Reads the values of one partition.
#[tactic(auto, unfolding(crate::specs::format::Residual::partition, crate::specs::format::Residual::escaped, crate::specs::format::Residual::coded), using(crate::proofs::lemmas::format::Samples::no_bits))]
fn read_partition<R: Source>(
    bits: &mut BitReader<R>,
    method: CodingMethod,
    out: &mut [i64],
) -> Result<(), Why>
    ensures fits { OnOk result (All (FitsBits 32) out.new) }
    ensures reading { ReadsAs (λ _. out.new) (partition_values method (length out.old)) bits.old bits.new result }
{
    let parameter = bits.take(method.parameter_bits())? as u32;
    if parameter == method.escape() {
        let width = bits.take(5)? as u32;
        if width == 0 {
            out.fill(0);
            return Ok(());
        }
        bits.signed_partition(width, out)?;
        return Ok(());
    }
    bits.rice_partition(parameter, out)?;
    Ok(())
}

/// Reads the values of the partitions of a block. Each has `size` values, but the first has fewer by those of the
/// warm-up samples.
#[tactic(auto, using(crate::proofs::lemmas::format::Parts::gathers_nothing))]
fn read_partitions<R: Source>(
    bits: &mut BitReader<R>,
    method: CodingMethod,
    order: usize,
    size: usize,
    count: usize,
    out: &mut [i64],
) -> Result<(), Why>
    requires room { order < size }
    requires some { 0 < count }
    requires few { length out.old ≤ 65535 }
    requires small { size ≤ 65535 }
    requires cut { length out.old + order ≡ count * size }
    ensures fits { OnOk result (All (FitsBits 32) out.new) }
    ensures reading { ReadsPartitions method order size count out.new bits.old bits.new result }
{
    let mut start = 0;
    let mut end = size - order;
    for i in 0..count {
        read_partition(bits, method, &mut out[start..end])?;
        start = end;
        end += size;
    }
    Ok(())
}

/// Reads the coding method and the partition order of a residual (RFC 9639, section 9.2.7).
#[tactic(auto, unfolding(crate::specs::format::Residual::residual_header))]
fn read_residual_header<R: Source>(
    bits: &mut BitReader<R>,
    limit: u32,
    order: usize,
    block: usize,
) -> Result<(CodingMethod, u32), Why>
    requires limit { limit ≤ 15 }
    ensures partition_order { IfOk result (λ h. h.1 ≤ 15) }
    ensures whole { IfOk result (λ h. block ≡ 2 ^ h.1 * (block / 2 ^ h.1)) }
    ensures room { IfOk result (λ h. order < block / 2 ^ h.1) }
    ensures reading { ReadsResidualHeader limit order block bits.old bits.new result }
{
    let code = bits.take(2)?;
    let Some(method) = CodingMethod::of_code(code) else {
        return Err(Why::BadPartition);
    };
    let partition_order = bits.take(4)? as u32;
    if partition_order > limit {
        return Err(Why::NotSubset);
    }
    let count = power(partition_order as u8);
    if block % count != 0 || block / count <= order {
        return Err(Why::BadPartition);
    }
    Ok((method, partition_order))
}

/// Reads the residual of a predictor of this order, to the places after the warm-up samples of a block (RFC 9639,
/// section 9.2.7).
#[tactic(auto, unfolding(crate::specs::format::Residual::residual))]
pub(crate) fn read_residual<R: Source>(
    bits: &mut BitReader<R>,
    limit: u32,
    order: usize,
    out: &mut [i64],
) -> Result<(), Why>
    requires limit { limit ≤ 15 }
    requires few { length out.old + order ≤ 65535 }
    ensures fits { OnOk result (All (FitsBits 32) out.new) }
    ensures reading { ReadsResidual limit order out.old out.new bits.old bits.new result }
{
    let block = out.len() + order;
    let (method, partition_order) = read_residual_header(bits, limit, order, block)?;
    let count = power(partition_order as u8);
    read_partitions(bits, method, order, block / count, count, out)?;
    Ok(())
}
