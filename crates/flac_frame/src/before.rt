//! What the next frame of a stream depends on.

ghost use Rattle.std.specs.Prelude.{◌≡◌};

use flac_header::{BlockingStrategy, FrameHeader};
use std::marker::Model;

/// What the next frame of a stream depends on: the first block size, the blocking strategy, the number that the next
/// frame must have, and the size of the last block (RFC 9639, sections 9.1.1 and 9.1.5).
#[derive(Drop)]
pub(crate) struct Before {
    pub(crate) first_size: u32,
    pub(crate) strategy: BlockingStrategy,
    pub(crate) next: u64,
    pub(crate) size: u32,
}

impl Model for Before {
    ghost use Rattle.flac_header.specs.Strategy.{is_variable};
    ghost use Rattle.flac_frame.specs.Left.{Left};

    ghost Value = { Left };

    ghost view = { λ b. record { first_size = b.first_size; variable = is_variable b.strategy; next = b.next; size = b.size } };
}

impl Before {
    ghost use Rattle.flac_frame.specs.Frame.{left_by};

    /// The same after one more frame, with this header.
    pub(crate) fn after(before: &Option<Before>, header: &FrameHeader) -> Before
        ensures { result ≡ left_by before.now header.now.variable header.now.number header.now.size }
    {
        let size = header.size();
        let step = if header.variable() { size as u64 } else { 1 };
        Before {
            first_size: match before {
                None => size,
                Some(before) => before.first_size,
            },
            strategy: header.blocking_strategy(),
            next: header.number() + step,
            size,
        }
    }
}
