//! The form of a residual.

ghost use Rattle.std.specs.Prelude.{◌≡◌};

use crate::format::coding_method::CodingMethod;

/// The form of a residual without its codings, and how many bits it takes.
#[derive(Clone, Copy, Debug, PartialEq, Eq)]
pub struct ResidualForm {
    /// The coding method (RFC 9639, section 9.2.7).
    pub method: CodingMethod,
    /// The partition order, at most 15.
    pub partition_order: u8,
    /// Bits of the residual.
    pub bits: u64,
}

impl ResidualForm {
    /// That of no residual.
    pub(crate) fn none() -> ResidualForm
        ensures partition_order { result.partition_order ≡ 0 }
        ensures bits { result.bits ≡ 0 }
    {
        ResidualForm {
            method: CodingMethod::FourBits,
            partition_order: 0,
            bits: 0,
        }
    }
}
