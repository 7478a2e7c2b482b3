//! The bits of a partition's values under a parameter, and their width.

ghost use Rattle.std.specs.Prelude.{◌≡◌, ◌<◌, ◌≤◌, ◌^◌, ◌*◌, ◌/◌, ◌+◌, ◌↔◌, ℕ, length, All};
ghost use Rattle.std.specs.List.{sum_by};
ghost use Rattle.flac_subframe.specs.format.inner.Cost.{folded_cost};

use crate::format::coding::Coding;
use std::simd::prelude::*;

/// A coding, and how many bits it takes beside its parameter.
#[derive(Clone, Copy)]
pub struct CodingCost {
    pub coding: Coding,
    pub bits: u64,
}

/// The sum of what is above the lowest bits of at most sixteen numbers of few bits, which are lanes of a vector. The
/// same as a loop is taken apart by the compiler, with each number read and shifted by itself.
#[inline(always)]
fn quotients_in_lanes<const N: usize>(folds: &[u32], parameter: u8, width: u8) -> u32
    requires long { length folds.now ≡ N }
    requires few_numbers { N ≤ 16 }
    requires bounded { All (λ n. n < 2 ^ width) folds.now }
    requires few { width ≤ 28 + parameter }
    requires parameter { parameter < 31 }
    ensures { result ≡ sum_by (λ n. n / 2 ^ parameter) folds.now }
{
    let numbers: Simd<u32, N> = Simd::from_slice(folds);
    (numbers >> u32::from(parameter)).strict_reduce_sum()
}

/// What [`quotients`] does, for any number of numbers.
#[inline(always)]
fn quotients_of_any(folds: &[u32], parameter: u8, width: u8) -> u64
    requires few { length folds.now ≤ 65535 }
    requires bounded { All (λ n. n < 2 ^ width) folds.now }
    requires small { All (λ n. n < 2 ^ 32) folds.now }
    requires parameter { parameter < 31 }
    ensures value { result ≡ sum_by (λ n. n / 2 ^ parameter) folds.now }
    // proof only
    ensures small { result ≤ 2 ^ 32 * length folds.now }
{
    if folds.len() == 8 && width <= 28 + parameter {
        return u64::from(quotients_in_lanes::<8>(folds, parameter, width));
    }
    let mut sum = 0;
    for number in folds {
        sum += u64::from(*number >> parameter);
    }
    sum
}

/// The sum of what is above the lowest bits of numbers.
#[inline(always)]
pub(crate) fn quotients(folds: &[u32], parameter: u8, width: u8) -> u64
    requires few { length folds.now ≤ 65535 }
    requires bounded { All (λ n. n < 2 ^ width) folds.now }
    requires small { All (λ n. n < 2 ^ 32) folds.now }
    requires parameter { parameter < 31 }
    ensures value { result ≡ sum_by (λ n. n / 2 ^ parameter) folds.now }
    // proof only
    ensures small { result ≤ 2 ^ 32 * length folds.now }
{
    if folds.len() == 16 && width <= 28 + parameter {
        return u64::from(quotients_in_lanes::<16>(folds, parameter, width));
    }
    quotients_of_any(folds, parameter, width)
}

/// How many bits values take under a Rice parameter, by their folded numbers, which are of a width.
#[inline(always)]
fn rice_bits(folds: &[u32], parameter: u8, width: u8) -> u64
    requires few { length folds.now ≤ 65535 }
    requires bounded { All (λ n. n < 2 ^ width) folds.now }
    requires small { All (λ n. n < 2 ^ 32) folds.now }
    requires parameter { parameter < 31 }
    ensures value { result ≡ sum_by (folded_cost parameter) folds.now }
    // proof only
    ensures small { result ≤ 2 ^ 33 * length folds.now }
{
    quotients(folds, parameter, width) + folds.len() as u64 * (1 + u64::from(parameter))
}

/// The same as a call of its own, so that a loop over partitions of sixteen values tests for no other length.
#[inline(never)]
fn rice_bits_apart(folds: &[u32], parameter: u8, width: u8) -> u64
    requires few { length folds.now ≤ 65535 }
    requires bounded { All (λ n. n < 2 ^ width) folds.now }
    requires small { All (λ n. n < 2 ^ 32) folds.now }
    requires parameter { parameter < 31 }
    ensures { result ≡ sum_by (folded_cost parameter) folds.now }
{
    rice_bits(folds, parameter, width)
}

/// What [`rice_bits`] does. The number of values is mostly sixteen, or it is not: it is compiled anew for each, since
/// its callers fix `sixteen`.
#[inline(always)]
pub(crate) fn rice_bits_of(folds: &[u32], parameter: u8, width: u8, sixteen: bool) -> u64
    requires few { length folds.now ≤ 65535 }
    requires bounded { All (λ n. n < 2 ^ width) folds.now }
    requires small { All (λ n. n < 2 ^ 32) folds.now }
    requires parameter { parameter < 31 }
    ensures { result ≡ sum_by (folded_cost parameter) folds.now }
{
    if !sixteen {
        return rice_bits(folds, parameter, width);
    }
    if folds.len() == 16 && width <= 28 + parameter {
        let sum = quotients_in_lanes::<16>(folds, parameter, width);
        return u64::from(sum) + 16 * (1 + u64::from(parameter));
    }
    rice_bits_apart(folds, parameter, width)
}

/// A number that has each bit that one of some numbers has, which are lanes of a vector.
#[inline(always)]
fn bits_in_lanes<const N: usize>(folds: &[u32]) -> u32
    requires { length folds.now ≡ N }
    ensures { (n : ℕ) → All (λ k. k < 2 ^ n) folds.now ↔ (result < 2 ^ n) }
{
    let numbers: Simd<u32, N> = Simd::from_slice(folds);
    numbers.reduce_or()
}

/// A number that has each bit that one of some numbers has: it takes as many digits as the greatest of them.
fn bits_of(folds: &[u32]) -> u32
    requires small { All (λ n. n < 2 ^ 32) folds.now }
    ensures { (n : ℕ) → All (λ k. k < 2 ^ n) folds.now ↔ (result < 2 ^ n) }
{
    if folds.len() == 8 {
        return bits_in_lanes::<8>(folds);
    }
    let mut bits: u32 = 0;
    for number in folds {
        bits |= *number;
    }
    bits
}

/// The width of values whose folded numbers have these bits.
#[inline(always)]
fn width_of_bits(bits: u32) -> u8
    // proof only
    ensures small { result ≤ 32 }
    ensures least { (n : ℕ) → (bits < 2 ^ n) ↔ (result ≤ n) }
{
    (32 - bits.leading_zeros()) as u8
}

/// The fewest bits that hold each value as a signed number, by their folded numbers; 0 where all are 0.
fn width(folds: &[u32]) -> u8
    requires small { All (λ n. n < 2 ^ 32) folds.now }
    // proof only
    ensures small { result ≤ 32 }
    ensures least { (n : ℕ) → All (λ k. k < 2 ^ n) folds.now ↔ (result ≤ n) }
{
    width_of_bits(bits_of(folds))
}

/// What [`weigh`] does, for any number of values.
#[inline(always)]
fn weigh_any(folds: &[u32]) -> (u8, u64)
    requires few { length folds.now ≤ 65535 }
    requires small { All (λ n. n < 2 ^ 32) folds.now }
    ensures narrow { result.0 ≤ 32 }
    ensures least { (n : ℕ) → All (λ k. k < 2 ^ n) folds.now ↔ (result.0 ≤ n) }
    ensures value { result.1 ≡ sum_by (folded_cost 0) folds.now }
    // proof only
    ensures small { result.1 ≤ 2 ^ 33 * length folds.now }
{
    let width = width(folds);
    (width, rice_bits(folds, 0, width))
}

/// The same as a call of its own, so that a loop over partitions of sixteen values tests for no other length.
#[inline(never)]
fn weigh_apart(folds: &[u32]) -> (u8, u64)
    requires few { length folds.now ≤ 65535 }
    requires small { All (λ n. n < 2 ^ 32) folds.now }
    ensures narrow { result.0 ≤ 32 }
    ensures least { (n : ℕ) → All (λ k. k < 2 ^ n) folds.now ↔ (result.0 ≤ n) }
    ensures value { result.1 ≡ sum_by (folded_cost 0) folds.now }
    // proof only
    ensures small { result.1 ≤ 2 ^ 33 * length folds.now }
{
    weigh_any(folds)
}

/// The width of values, and how many bits they take under parameter 0, by their folded numbers. Their number is mostly
/// sixteen, or it is not: it is compiled anew for each, since its callers fix `sixteen`.
#[inline(always)]
pub(crate) fn weigh(folds: &[u32], sixteen: bool) -> (u8, u64)
    requires few { length folds.now ≤ 65535 }
    requires small { All (λ n. n < 2 ^ 32) folds.now }
    ensures narrow { result.0 ≤ 32 }
    ensures least { (n : ℕ) → All (λ k. k < 2 ^ n) folds.now ↔ (result.0 ≤ n) }
    ensures value { result.1 ≡ sum_by (folded_cost 0) folds.now }
    // proof only
    ensures small { result.1 ≤ 2 ^ 33 * length folds.now }
{
    if folds.len() == 16 {
        let bits = bits_in_lanes::<16>(folds);
        if bits < 0x1000_0000 {
            let sum = quotients_in_lanes::<16>(folds, 0, 28);
            return (width_of_bits(bits), u64::from(sum) + 16);
        }
    }
    if sixteen {
        return weigh_apart(folds);
    }
    weigh_any(folds)
}
