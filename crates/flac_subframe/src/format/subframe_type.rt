//! The type of a subframe.

ghost use Rattle.std.specs.Prelude.{◌≡◌, ◌<◌, ◌+◌, true, false, IfSome, IfNone};
ghost use Rattle.flac_subframe.specs.format.Subframe.{is_reserved, predictor_order, linear_order};
ghost use Rattle.flac_subframe.specs.format.inner.Codes.{IsType, type_code, type_order, type_linear_order};

/// The type of a subframe (RFC 9639, section 9.2.1).
#[derive(Clone, Copy)]
pub(crate) enum SubframeType {
    /// One sample for all.
    Constant,
    /// Each sample.
    Verbatim,
    /// A fixed predictor of this order, 0 to 4.
    Fixed(u32),
    /// A linear predictor of this order, 1 to 32.
    Linear(u32),
}

impl SubframeType {
    /// The type of a code of six bits; `None` if it is reserved.
    pub(crate) fn of_code(code: u64) -> Option<SubframeType>
        requires { code < 64 }
        ensures free { IfSome result (λ t. is_reserved code ≡ false) }
        ensures code { IfSome result (λ t. type_code t ≡ code) }
        ensures order { IfSome result (λ t. type_order t ≡ predictor_order code) }
        ensures linear { IfSome result (λ t. type_linear_order t ≡ linear_order code) }
        ensures within { IfSome result (λ t. IsType t) }
        ensures reserved { IfNone result (is_reserved code ≡ true) }
    {
        if code == 0 {
            return Some(SubframeType::Constant);
        }
        if code == 1 {
            return Some(SubframeType::Verbatim);
        }
        if 8 <= code && code <= 12 {
            return Some(SubframeType::Fixed(code as u32 - 8));
        }
        if 32 <= code {
            return Some(SubframeType::Linear(code as u32 - 31));
        }
        None
    }

    /// The order of its predictor, 0 if it has none.
    pub(crate) fn order(self) -> u32
        ensures { result ≡ type_order self }
    {
        match self {
            SubframeType::Constant => 0,
            SubframeType::Verbatim => 0,
            SubframeType::Fixed(order) => order,
            SubframeType::Linear(order) => order,
        }
    }

    /// The order of its linear predictor, 0 if it has none.
    pub(crate) fn linear_order(self) -> u32
        ensures { result ≡ type_linear_order self }
    {
        match self {
            SubframeType::Constant => 0,
            SubframeType::Verbatim => 0,
            SubframeType::Fixed(_) => 0,
            SubframeType::Linear(order) => order,
        }
    }

    /// Its code of six bits.
    pub(crate) fn code(self) -> u64
        ensures { result ≡ type_code self }
    {
        match self {
            SubframeType::Constant => 0,
            SubframeType::Verbatim => 1,
            SubframeType::Fixed(order) => 8 + u64::from(order),
            SubframeType::Linear(order) => 31 + u64::from(order),
        }
    }
}
