//! How the values of a partition are coded.

/// How the values of a partition are coded (RFC 9639, section 9.2.7.1).
#[derive(Clone, Copy)]
pub enum Coding {
    /// A Rice code with this parameter, 0 to 30.
    Rice(u8),
    /// Signed numbers of this many bits each, 0 to 31.
    Escape(u8),
}

impl Coding {
    ghost use Rattle.std.specs.Prelude.{◌≡◌};
    ghost use Rattle.flac_subframe.specs.format.Cost.{coding_of};
    ghost use Rattle.flac_subframe.specs.format.inner.Cost.{HasByte};

    /// The byte that stands for it: the parameter, or 32 above the width of an escape.
    pub(crate) fn byte(self) -> u8
        requires { HasByte self }
        ensures { coding_of result ≡ self }
    {
        match self {
            Coding::Rice(parameter) => parameter,
            Coding::Escape(width) => 32 + width,
        }
    }

    /// What a byte stands for.
    pub(crate) fn of_byte(byte: u8) -> Coding
        ensures { result ≡ coding_of byte }
    {
        if byte < 32 {
            Coding::Rice(byte)
        } else {
            Coding::Escape(byte - 32)
        }
    }
}
