//! The shape of a frame's samples.

ghost use Rattle.std.specs.Prelude.{◌≤◌};

use flac_subframe::Limits;

/// How many channels a frame has, how many samples each of them has, the bits of a sample, and what the profile allows
/// in a subframe.
#[derive(Drop)]
pub(crate) struct Shape {
    pub(crate) channels: usize,
    pub(crate) block: u32,
    pub(crate) depth: u32,
    pub(crate) limits: Limits,
    ghost few: { channels ≤ 8 },
    ghost sized: { (1 ≤ block) × (block ≤ 65535) },
    ghost deep: { (1 ≤ depth) × (depth ≤ 32) },
    ghost limited: { (limits.partition ≤ 15) × (limits.linear ≤ 32) },
}
