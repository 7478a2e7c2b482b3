//! Streams that are encoded at once, and blocks for them.

ghost use Rattle.std.specs.Prelude.{◌≡◌, true};
ghost use Rattle.flac_native.specs.Given.{fits_plan};

use flac_bits::Collected;
use flac_frame::Audio;
use flac_meta::{BlockList, Comments};
use flac_native::{Plan, encode};
use std::alloc::Global;
use std::mem::drop;
use std::test::Fail;

/// A stream of some samples by a plan, without further blocks.
pub fn encoded_by(alloc: Global, plan: &Plan, audio: &Audio) -> Result<Vec<u8>, Fail>
    requires { fits_plan plan.now audio.now ≡ true }
{
    let list = BlockList::new(Vec::new(alloc))?;
    let mut target = Collected::new(alloc);
    let outcome = encode(alloc, plan, &list, audio, &mut target);
    drop(list);
    outcome?;
    Ok(target.into_bytes())
}

/// The same in blocks of so many samples, with a seek point each so many.
pub fn encoded(alloc: Global, audio: &Audio, block: u32, every: u32) -> Result<Vec<u8>, Fail> {
    let plan = Plan::new_in(audio.profile(), block, audio, every)?;
    encoded_by(alloc, &plan, audio)
}

/// A block of no vendor and no comments.
pub fn no_comments(alloc: Global) -> Result<BlockList, Fail> {
    Ok(BlockList::of_comments(alloc, Comments::new(alloc, b"")?)?)
}
