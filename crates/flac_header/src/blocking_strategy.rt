//! Whether the blocks of a stream may differ in size (RFC 9639, section 9.1).

ghost use Rattle.std.specs.Prelude.{◌≡◌, nat_eq};
ghost use Rattle.flac_bits.specs.Bits.{bit_value};
ghost use Rattle.flac_header.specs.Header.{number_bits};
ghost use Rattle.flac_header.specs.Strategy.{is_variable};

/// The blocking strategy of a stream: whether its blocks may differ in size, and so what a frame header numbers (RFC
/// 9639, sections 9.1 and 9.1.5).
#[derive(Clone, Copy, Debug, PartialEq, Eq)]
pub enum BlockingStrategy {
    /// All blocks but the last have one size. A header has the number of its frame.
    Fixed,
    /// Blocks may differ in size. A header has the number of its frame's first sample.
    Variable,
}

impl BlockingStrategy {
    /// Whether blocks may differ in size.
    pub fn is_variable(self) -> bool
        ensures { result ≡ is_variable self }
    {
        match self {
            BlockingStrategy::Fixed => false,
            BlockingStrategy::Variable => true,
        }
    }

    /// The blocking strategy of the bit that a header has for it.
    pub(crate) fn from_bit(bit: u64) -> BlockingStrategy
        ensures { is_variable result ≡ nat_eq bit 1 }
    {
        if bit == 1 {
            BlockingStrategy::Variable
        } else {
            BlockingStrategy::Fixed
        }
    }

    /// The bit that a header has for it.
    pub(crate) fn bit(self) -> u64
        ensures { result ≡ bit_value (is_variable self) }
    {
        match self {
            BlockingStrategy::Fixed => 0,
            BlockingStrategy::Variable => 1,
        }
    }

    /// The most bits of the number in a header: 31 for that of a frame, 36 for that of a sample.
    pub(crate) fn number_bits(self) -> u32
        ensures { result ≡ number_bits (is_variable self) }
    {
        match self {
            BlockingStrategy::Fixed => 31,
            BlockingStrategy::Variable => 36,
        }
    }
}
