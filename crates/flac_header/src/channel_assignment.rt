//! How a frame stores its channels (RFC 9639, section 9.1.3).

ghost use Rattle.std.specs.Prelude.{◌≡◌, ◌≤◌, nat_lt, cond, IfSome, Some, None};
ghost use Rattle.flac_header.specs.Assignment.{assignment_of, code_of, IsAssignment};

/// How a frame stores its channels: each by itself, or two as decorrelated stereo (RFC 9639, sections 4.2 and 9.1.3).
#[derive(Clone, Copy, Debug, PartialEq, Eq)]
pub enum ChannelAssignment {
    /// Independent channels, and their number, 1 to 8.
    Independent(u8),
    /// Left, and the side: left minus right.
    LeftSide,
    /// The side, and right.
    SideRight,
    /// The mid, which is half the sum of left and right, rounded down, and the side.
    MidSide,
}

/// The channel assignment of a code of the format.
pub(crate) fn assignment_of(code: u8) -> ChannelAssignment
    requires { code ≤ 10 }
    ensures assignment { result ≡ assignment_of code }
    ensures code { code_of result ≡ code }
    ensures valid { IsAssignment result }
{
    if code < 8 {
        return ChannelAssignment::Independent(code + 1);
    }
    if code == 8 {
        return ChannelAssignment::LeftSide;
    }
    if code == 9 {
        return ChannelAssignment::SideRight;
    }
    ChannelAssignment::MidSide
}

impl ChannelAssignment {
    /// The channel assignment of a code of the format: 0 to 7 are one to eight independent channels, 8 is left and
    /// side, 9 side and right, 10 mid and side. `None` for the reserved codes.
    pub fn from_code(code: u8) -> Option<ChannelAssignment>
        ensures assignment { result ≡ cond (nat_lt 10 code) None (Some (assignment_of code)) }
        ensures code { IfSome result (λ a. code_of a ≡ code) }
        ensures valid { IfSome result (λ a. IsAssignment a) }
    {
        if code > 10 {
            return None;
        }
        Some(assignment_of(code))
    }

    /// The code of the format, 0 to 10: see [`ChannelAssignment::from_code`]. There are 1 to 8 independent channels.
    pub fn code(self) -> u8
        requires { IsAssignment self }
        ensures code { result ≡ code_of self }
        ensures again { assignment_of result ≡ self }
        ensures greatest { result ≤ 10 }
    {
        match self {
            ChannelAssignment::Independent(count) => count - 1,
            ChannelAssignment::LeftSide => 8,
            ChannelAssignment::SideRight => 9,
            ChannelAssignment::MidSide => 10,
        }
    }

    /// Whether two channels are decorrelated stereo.
    pub fn is_decorrelated(self) -> bool
        requires { IsAssignment self }
        ensures { result ≡ nat_lt 7 (code_of self) }
    {
        match self {
            ChannelAssignment::Independent(_) => false,
            ChannelAssignment::LeftSide => true,
            ChannelAssignment::SideRight => true,
            ChannelAssignment::MidSide => true,
        }
    }
}
