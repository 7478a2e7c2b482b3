//! Signed numbers made of unsigned ones.

ghost use Rattle.flac_bits.specs.inner.Stretches.{value_of};
ghost use Rattle.std.specs.Prelude.{◌≡◌, ◌<◌, ◌≤◌, ◌^◌, ◌-◌, ◌+◌, ◌*◌};
ghost use Rattle.flac_bits.specs.Rice.{folded as folded_value, unfolded as unfolded_value, IsResidual};
ghost use Rattle.flac_bits.specs.Signed.{to_signed as signed_value, FitsBits};

/// The largest folded number of a residual value: 2^32 - 2, of -2^31 + 1 (RFC 9639, section 9.2.7.3).
pub const MOST_FOLDED: u64 = 0xFFFF_FFFE;

/// Unfolds a residual value: 2r is r, and 2r + 1 is -r - 1 (RFC 9639, section 9.2.7.2).
#[inline(always)]
pub(crate) fn unfolded(folded: u64) -> i64
    requires { folded ≤ 0xFFFF_FFFE }
    ensures value { result ≡ unfolded_value folded }
    ensures fits { IsResidual result }
{
    let half = (folded >> 1) as i64;
    if folded % 2 == 0 { half } else { -1 - half }
}

/// Folds a residual value: r is 2r if it is not negative, else -2r - 1 (RFC 9639, section 9.2.7.2). The compiler makes
/// three operations of it: the double, or its complement if the value is negative.
#[inline(always)]
pub(crate) fn folded(value: i64) -> u64
    requires { IsResidual value }
    ensures { result ≡ folded_value value }
{
    let bits = value.cast_unsigned();
    let twice = bits.wrapping_add(bits);
    if value < 0 { u64::MAX - twice } else { twice }
}

/// Unfolds a residual value of which the half is known, and whether it is odd (RFC 9639, section 9.2.7.2).
#[inline(always)]
fn unfolded_half(half: u64, odd: u64) -> i64
    requires odd { odd < 2 }
    ensures value { 2 * half + odd ≤ 0xFFFF_FFFE → result ≡ unfolded_value (2 * half + odd) }
    ensures fits { 2 * half + odd ≤ 0xFFFF_FFFE → IsResidual result }
{
    let half = half.cast_signed();
    if odd == 0 { half } else { -1 - half }
}

/// The residual value whose code is these zeros, a one and k bits, of which the one and the bits are one number (RFC
/// 9639, sections 9.2.7.2 and 9.2.7.3). Any number if they are none.
#[inline(always)]
pub(crate) fn value_of_code(zeros: u32, one_and_low: u64, k: u32) -> i64
    requires zeros { zeros ≤ 64 }
    requires k { k ≤ 26 }
    ensures value { zeros ≤ 62 → 2 ^ k ≤ one_and_low → one_and_low < 2 * 2 ^ k → result ≡ value_of k zeros one_and_low }
    ensures fits { zeros ≤ 62 → 2 ^ k ≤ one_and_low → one_and_low < 2 * 2 ^ k → IsResidual result }
{
    if k == 0 {
        return unfolded(u64::from(zeros));
    }
    // half of each part, which takes a step less than half of their sum
    let parts = (u64::from(zeros) << (k - 1)) + (one_and_low >> 1);
    unfolded_half(parts.wrapping_sub(1 << (k - 1)), one_and_low % 2)
}

/// The number that n bits are in two's complement.
#[inline(always)]
pub(crate) fn to_signed(value: u64, n: u32) -> i64
    requires some { 1 ≤ n }
    requires few { n ≤ 64 }
    requires small { value < 2 ^ n }
    ensures value { result ≡ signed_value n value }
    ensures fits { FitsBits n result }
{
    if value < 1u64 << (n - 1) {
        value as i64
    } else {
        -1 - ((u64::MAX >> (64 - n)) - value) as i64
    }
}
