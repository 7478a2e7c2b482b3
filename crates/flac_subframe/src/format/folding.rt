//! Signed residual values as unsigned numbers (RFC 9639, section 9.2.7.2).

ghost use Rattle.std.specs.Prelude.{◌≡◌, ◌<◌, ◌+◌, ◌^◌, neg_ℤ, pos, ◌<ℤ◌, length, map, All};
ghost use Rattle.flac_bits.specs.Rice.{IsResidual, folded};

/// The folded number of a residual value r: 2r if r is not negative, else -2r - 1 (RFC 9639, section 9.2.7.2), as the
/// double, or its complement if the value is negative. The compiler makes three operations of it.
#[inline(always)]
pub(crate) fn fold_narrow(value: i32) -> u32
    requires { IsResidual value }
    ensures value { result ≡ folded value }
    // proof only
    ensures small { result < 2 ^ 32 }
{
    let bits = value.cast_unsigned();
    let twice = bits.wrapping_add(bits);
    if value < 0 { u32::MAX - twice } else { twice }
}

/// Each value in 32 bits, and its folded number.
pub(crate) fn fold_each(wide: &[i64], values: &mut [i32], folds: &mut [u32])
    requires range { All IsResidual wide.now }
    requires places { length values.old ≡ length wide.now }
    requires folds { length folds.old ≡ length wide.now }
    ensures values { values.new ≡ wide.now }
    ensures folds { folds.new ≡ map folded wide.now }
{
    for i in 0..wide.len() {
        let value = wide[i] as i32;
        values[i] = value;
        folds[i] = fold_narrow(value);
    }
}
