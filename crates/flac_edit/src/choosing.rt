//! Which padding takes the new comments.

ghost use Rattle.std.specs.Prelude.{◌≡◌, ◌≤◌, ◌<◌, ◌+◌, ◌^◌, true, false, length, OnOk, IfOk, IfSome};
ghost use Rattle.flac_edit.specs.Calls.{AtEachMoment, InTheEnd, FailureIsCounted, IfDone};
ghost use Rattle.flac_edit.specs.Device.{Only};
ghost use Rattle.flac_edit.specs.Places.{total_of};
ghost use Rattle.flac_edit.specs.inner.Chosen.{LeavesOldOrChanged, HasChanged};

use crate::device::{Device, DeviceError};
use crate::padding::{PaddingAfter, PaddingBefore, edit_after, edit_before};
use crate::slots::{
    Slot, comments_at, first_with_room, head_size, is_run, last_paddings, leading_padding,
    leading_paddings, total,
};
use flac_meta::{Comments, MOST_BYTES};
use std::alloc::Global;

/// Puts the comments in the place of block `i`, if that is padding with room for them, and is followed by `count`
/// blocks that are padding and the comments of the file. Returns whether it did.
fn try_before<D: Device>(
    alloc: Global,
    device: &mut D,
    slots: &[Slot],
    i: usize,
    count: usize,
    comments: &Comments,
) -> Result<bool, DeviceError>
    requires there { i ≤ length slots.now }
    requires counted { 4 + total_of slots.now < 2 ^ 64 }
    requires inside { D.known device.old ≡ true → 4 + total_of slots.now ≤ length (D.seen device.old) }
    requires durable { D.known device.old ≡ true → Only (D.seen device.old) (D.time device.old) }
    ensures known { D.known device.new ≡ D.known device.old }
    // A crash at any moment leaves the blocks as they were, or with the new comments, before the same frames.
    ensures any_moment { AtEachMoment D.Device device.old device.new (LeavesOldOrChanged slots.now comments.now) }
    // At Ok(true) it has the new ones, and they are stored.
    ensures edited { IfDone result (InTheEnd D.Device device.old device.new (HasChanged slots.now comments.now)) }
    ensures stored { OnOk result (D.known device.old ≡ true → Only (D.seen device.new) (D.time device.new)) }
    // At Ok(false) nothing was done.
    ensures untouched { IfOk result (λ done. done ≡ false → device.new ≡ device.old) }
    // `Failed` is returned only if the device failed.
    ensures failed { FailureIsCounted D.Device device.old device.new result }
{
    let (front, back) = slots.split_at(i);
    let Some((padding, others)) = leading_padding(back) else {
        return Ok(false);
    };
    if count > others.len() {
        return Ok(false);
    }
    let (more, rest) = others.split_at(count);
    if !is_run(more) {
        return Ok(false);
    }
    let at = 4 + total(front);
    let following = total(more);
    let size = comments.length();
    if size + 4 > padding as u64 || padding as u64 > MOST_BYTES {
        return Ok(false);
    }
    if following as u64 > MOST_BYTES || at % 512 > 508 {
        return Ok(false);
    }
    if padding as u64 + following as u64 > size + 4 + MOST_BYTES {
        return Ok(false);
    }
    let place = PaddingBefore {
        at,
        padding,
        following: following as u32,
        last: rest.is_empty(),
    };
    edit_before(alloc, device, &place, comments)?;
    Ok(true)
}

/// Puts the comments into padding after `count` blocks from block `i` on that are padding and the comments of the file,
/// if there is room for them. Returns whether it did.
fn try_after<D: Device>(
    alloc: Global,
    device: &mut D,
    slots: &[Slot],
    i: usize,
    count: usize,
    comments: &Comments,
) -> Result<bool, DeviceError>
    requires there { i ≤ length slots.now }
    requires counted { 4 + total_of slots.now < 2 ^ 64 }
    requires inside { D.known device.old ≡ true → 4 + total_of slots.now ≤ length (D.seen device.old) }
    requires durable { D.known device.old ≡ true → Only (D.seen device.old) (D.time device.old) }
    ensures known { D.known device.new ≡ D.known device.old }
    // A crash at any moment leaves the blocks as they were, or with the new comments, before the same frames.
    ensures any_moment { AtEachMoment D.Device device.old device.new (LeavesOldOrChanged slots.now comments.now) }
    // At Ok(true) it has the new ones, and they are stored.
    ensures edited { IfDone result (InTheEnd D.Device device.old device.new (HasChanged slots.now comments.now)) }
    ensures stored { OnOk result (D.known device.old ≡ true → Only (D.seen device.new) (D.time device.new)) }
    // At Ok(false) nothing was done.
    ensures untouched { IfOk result (λ done. done ≡ false → device.new ≡ device.old) }
    // `Failed` is returned only if the device failed.
    ensures failed { FailureIsCounted D.Device device.old device.new result }
{
    let (front, back) = slots.split_at(i);
    if count > back.len() {
        return Ok(false);
    }
    let (heads, tail) = back.split_at(count);
    let Some((padding, rest)) = leading_padding(tail) else {
        return Ok(false);
    };
    if !is_run(heads) {
        return Ok(false);
    }
    let at = 4 + total(front);
    let preceding = total(heads);
    let size = comments.length();
    if size + 8 > padding as u64 || padding as u64 > MOST_BYTES {
        return Ok(false);
    }
    if preceding as u64 > MOST_BYTES || at % 512 > 508 {
        return Ok(false);
    }
    let place = PaddingAfter {
        at,
        preceding: preceding as u32,
        padding,
        last: rest.is_empty(),
    };
    edit_after(alloc, device, &place, comments)?;
    Ok(true)
}

/// Where the run of the comments is among the blocks of a file.
#[derive(Clone, Copy, Debug)]
pub(crate) struct Run {
    /// The index of its first block.
    pub start: usize,
    /// The index of the comments.
    pub comments: usize,
    /// The index of the first block after it.
    pub end: usize,
}

/// The comments with all padding beside them.
fn run_of(slots: &[Slot]) -> Option<Run>
    ensures order { IfSome result (λ run. (run.start ≤ run.comments) × (run.comments < run.end)) }
    ensures inside { IfSome result (λ run. run.end ≤ length slots.now) }
{
    let comments = comments_at(slots)?;
    let after = comments + 1;
    Some(Run {
        start: last_paddings(&slots[..comments]),
        comments,
        end: after + leading_paddings(&slots[after..]),
    })
}

/// Puts the comments in the place of the first padding before the old ones that has room. Returns whether it did.
fn try_first_before<D: Device>(
    alloc: Global,
    device: &mut D,
    slots: &[Slot],
    run: &Run,
    comments: &Comments,
) -> Result<bool, DeviceError>
    requires order { (run.now.start ≤ run.now.comments) × (run.now.comments < run.now.end) }
    requires end { run.now.end ≤ length slots.now }
    requires counted { 4 + total_of slots.now < 2 ^ 64 }
    requires inside { D.known device.old ≡ true → 4 + total_of slots.now ≤ length (D.seen device.old) }
    requires durable { D.known device.old ≡ true → Only (D.seen device.old) (D.time device.old) }
    ensures known { D.known device.new ≡ D.known device.old }
    // A crash at any moment leaves the blocks as they were, or with the new comments, before the same frames.
    ensures any_moment { AtEachMoment D.Device device.old device.new (LeavesOldOrChanged slots.now comments.now) }
    // At Ok(true) it has the new ones, and they are stored.
    ensures edited { IfDone result (InTheEnd D.Device device.old device.new (HasChanged slots.now comments.now)) }
    ensures stored { OnOk result (D.known device.old ≡ true → Only (D.seen device.new) (D.time device.new)) }
    // At Ok(false) nothing was done.
    ensures untouched { IfOk result (λ done. done ≡ false → device.new ≡ device.old) }
    // `Failed` is returned only if the device failed.
    ensures failed { FailureIsCounted D.Device device.old device.new result }
{
    let size = comments.length();
    match first_with_room(&slots[run.start..run.comments], size + 4) {
        Some(i) => {
            let at = run.start + i;
            try_before(alloc, device, slots, at, run.end - 1 - at, comments)
        }
        None => Ok(false),
    }
}

/// Puts the comments into the first padding after the old ones that has room. Returns whether it did.
fn try_first_after<D: Device>(
    alloc: Global,
    device: &mut D,
    slots: &[Slot],
    run: &Run,
    comments: &Comments,
) -> Result<bool, DeviceError>
    requires order { (run.now.start ≤ run.now.comments) × (run.now.comments < run.now.end) }
    requires end { run.now.end ≤ length slots.now }
    requires counted { 4 + total_of slots.now < 2 ^ 64 }
    requires inside { D.known device.old ≡ true → 4 + total_of slots.now ≤ length (D.seen device.old) }
    requires durable { D.known device.old ≡ true → Only (D.seen device.old) (D.time device.old) }
    ensures known { D.known device.new ≡ D.known device.old }
    // A crash at any moment leaves the blocks as they were, or with the new comments, before the same frames.
    ensures any_moment { AtEachMoment D.Device device.old device.new (LeavesOldOrChanged slots.now comments.now) }
    // At Ok(true) it has the new ones, and they are stored.
    ensures edited { IfDone result (InTheEnd D.Device device.old device.new (HasChanged slots.now comments.now)) }
    ensures stored { OnOk result (D.known device.old ≡ true → Only (D.seen device.new) (D.time device.new)) }
    // At Ok(false) nothing was done.
    ensures untouched { IfOk result (λ done. done ≡ false → device.new ≡ device.old) }
    // `Failed` is returned only if the device failed.
    ensures failed { FailureIsCounted D.Device device.old device.new result }
{
    let size = comments.length();
    let after = run.comments + 1;
    match first_with_room(&slots[after..run.end], size + 8) {
        Some(i) => {
            let count = after + i - run.start;
            try_after(alloc, device, slots, run.start, count, comments)
        }
        None => Ok(false),
    }
}

/// Replaces the comments of a file in place, if padding beside them has room. Returns whether it did.
pub(crate) fn change_in_place<D: Device>(
    alloc: Global,
    device: &mut D,
    slots: &[Slot],
    comments: &Comments,
) -> Result<bool, DeviceError>
    requires inside { D.known device.old ≡ true → 4 + total_of slots.now ≤ length (D.seen device.old) }
    requires durable { D.known device.old ≡ true → Only (D.seen device.old) (D.time device.old) }
    ensures known { D.known device.new ≡ D.known device.old }
    // A crash at any moment leaves the blocks as they were, or with the new comments, before the same frames.
    ensures any_moment { AtEachMoment D.Device device.old device.new (LeavesOldOrChanged slots.now comments.now) }
    // At Ok(true) it has the new ones, and they are stored.
    ensures edited { IfDone result (InTheEnd D.Device device.old device.new (HasChanged slots.now comments.now)) }
    ensures stored { OnOk result (D.known device.old ≡ true → Only (D.seen device.new) (D.time device.new)) }
    // At Ok(false) nothing was done.
    ensures untouched { IfOk result (λ done. done ≡ false → device.new ≡ device.old) }
    // `Failed` is returned only if the device failed.
    ensures failed { FailureIsCounted D.Device device.old device.new result }
{
    let Some(_size) = head_size(slots) else {
        return Ok(false);
    };
    let Some(run) = run_of(slots) else {
        return Ok(false);
    };
    if try_first_before(alloc, device, slots, &run, comments)? {
        return Ok(true);
    }
    try_first_after(alloc, device, slots, &run, comments)
}
