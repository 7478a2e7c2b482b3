//! The coding method of a residual.

ghost use Rattle.std.specs.Prelude.{◌≡◌, ◌<◌, ◌+◌, ◌-◌, ◌^◌, ◌⊎◌, IfSome, IfNone};
ghost use Rattle.flac_subframe.specs.format.Cost.{parameter_bits_of};
ghost use Rattle.flac_subframe.specs.format.inner.Codes.{method_code};

/// The coding method of a residual, by the bits of its Rice parameters (RFC 9639, section 9.2.7).
#[derive(Clone, Copy, Debug, PartialEq, Eq)]
pub enum CodingMethod {
    /// Parameters of 4 bits.
    FourBits,
    /// Parameters of 5 bits.
    FiveBits,
}

impl CodingMethod {
    /// The method of a code of two bits; `None` if it is reserved.
    pub(crate) fn of_code(code: u64) -> Option<CodingMethod>
        ensures code { IfSome result (λ m. method_code m ≡ code) }
        ensures reserved { IfNone result (1 < code) }
    {
        if code == 0 {
            return Some(CodingMethod::FourBits);
        }
        if code == 1 {
            return Some(CodingMethod::FiveBits);
        }
        None
    }

    /// How many bits a parameter has, 4 or 5.
    pub(crate) fn parameter_bits(self) -> u32
        ensures value { result ≡ 4 + method_code self }
        ensures bits { result ≡ parameter_bits_of self }
        ensures either { (result ≡ 4) ⊎ (result ≡ 5) }
    {
        match self {
            CodingMethod::FourBits => 4,
            CodingMethod::FiveBits => 5,
        }
    }

    /// Its code of two bits.
    pub(crate) fn code(self) -> u64
        ensures { result ≡ method_code self }
    {
        match self {
            CodingMethod::FourBits => 0,
            CodingMethod::FiveBits => 1,
        }
    }

    /// The parameter that marks an escape: all ones.
    pub(crate) fn escape(self) -> u32
        ensures { result ≡ 2 ^ parameter_bits_of self - 1 }
    {
        match self {
            CodingMethod::FourBits => 15,
            CodingMethod::FiveBits => 31,
        }
    }
}
