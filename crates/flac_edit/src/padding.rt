//! Edits in padding before the comments, and after them.

ghost use Rattle.std.specs.Prelude.{◌≡◌, ◌≤◌, ◌<◌, ◌+◌, ◌%◌, ◌^◌, true, length, OnOk};
ghost use Rattle.flac_meta.specs.Spelling.{comments_length};
ghost use Rattle.flac_edit.specs.Calls.{AtEachMoment, InTheEnd, FailureIsCounted, IsInside};
ghost use Rattle.flac_edit.specs.Device.{Only};
ghost use Rattle.flac_edit.specs.inner.Changed.{LeavesBefore, HasNewBefore, LeavesAfter, HasNewAfter};

use crate::device::{Device, DeviceError};
use crate::flipping::flip;
use crate::planning::{change_after, change_before};
use flac_meta::Comments;
use std::alloc::Global;

/// Padding before the comments, with nothing between them but padding.
#[derive(Clone, Copy, Debug)]
pub(crate) struct PaddingBefore {
    /// The offset of the padding's header in the file, in bytes.
    pub at: usize,
    /// The length of the padding's content in bytes.
    pub padding: u32,
    /// The length of the blocks after it, to the end of the run: the comments, and padding.
    pub following: u32,
    /// Whether the run ends with the last block.
    pub last: bool,
}

/// Padding after the comments, with nothing between them but padding.
#[derive(Clone, Copy, Debug)]
pub(crate) struct PaddingAfter {
    /// The offset of the first header of the run in the file, in bytes.
    pub at: usize,
    /// The length of the blocks before the padding, from there on: the comments, and padding.
    pub preceding: u32,
    /// The length of the padding's content in bytes.
    pub padding: u32,
    /// Whether this padding is the last block.
    pub last: bool,
}

/// Puts comments in the place of padding before the old ones; all that follows them in the run becomes one padding.
pub(crate) fn edit_before<D: Device>(
    alloc: Global,
    device: &mut D,
    place: &PaddingBefore,
    comments: &Comments,
) -> Result<(), DeviceError>
    requires room { comments_length comments.now + 4 ≤ place.now.padding }
    requires short { place.now.padding + place.now.following ≤ comments_length comments.now + 4 + 16777215 }
    requires padding { place.now.padding ≤ 16777215 }
    requires sector { place.now.at % 512 ≤ 508 }
    requires counted { place.now.at + 4 + place.now.padding + place.now.following < 2 ^ 64 }
    requires inside { IsInside D.Device device.old (place.now.at + 4 + place.now.padding + place.now.following) }
    requires durable { D.known device.old ≡ true → Only (D.seen device.old) (D.time device.old) }
    ensures known { D.known device.new ≡ D.known device.old }
    // A crash at any moment of the call leaves the old blocks or the new ones, before the same frames.
    ensures any_moment { AtEachMoment D.Device device.old device.new (LeavesBefore place.now comments.now) }
    // At Ok it has the new ones, and they are stored.
    ensures edited { OnOk result (InTheEnd D.Device device.old device.new (HasNewBefore place.now comments.now)) }
    ensures stored { OnOk result (D.known device.old ≡ true → Only (D.seen device.new) (D.time device.new)) }
    // `Failed` is returned only if the device failed.
    ensures failed { FailureIsCounted D.Device device.old device.new result }
{
    match change_before(
        alloc,
        place.at,
        place.padding,
        place.following,
        place.last,
        comments,
    ) {
        Ok(plan) => flip(device, &plan),
        Err(_) => Err(DeviceError::Memory),
    }
}

/// Puts comments into padding after the old ones; all that precedes them in the run becomes one padding.
pub(crate) fn edit_after<D: Device>(
    alloc: Global,
    device: &mut D,
    place: &PaddingAfter,
    comments: &Comments,
) -> Result<(), DeviceError>
    requires room { comments_length comments.now + 8 ≤ place.now.padding }
    requires short { place.now.preceding ≤ 16777215 }
    requires some { 4 ≤ place.now.preceding }
    requires padding { place.now.padding ≤ 16777215 }
    requires sector { place.now.at % 512 ≤ 508 }
    requires counted { place.now.at + place.now.preceding + 4 + place.now.padding < 2 ^ 64 }
    requires inside { IsInside D.Device device.old (place.now.at + place.now.preceding + 4 + place.now.padding) }
    requires durable { D.known device.old ≡ true → Only (D.seen device.old) (D.time device.old) }
    ensures known { D.known device.new ≡ D.known device.old }
    // A crash at any moment of the call leaves the old blocks or the new ones, before the same frames.
    ensures any_moment { AtEachMoment D.Device device.old device.new (LeavesAfter place.now comments.now) }
    // At Ok it has the new ones, and they are stored.
    ensures edited { OnOk result (InTheEnd D.Device device.old device.new (HasNewAfter place.now comments.now)) }
    ensures stored { OnOk result (D.known device.old ≡ true → Only (D.seen device.new) (D.time device.new)) }
    // `Failed` is returned only if the device failed.
    ensures failed { FailureIsCounted D.Device device.old device.new result }
{
    match change_after(
        alloc,
        place.at,
        place.preceding,
        place.padding,
        place.last,
        comments,
    ) {
        Ok(plan) => flip(device, &plan),
        Err(_) => Err(DeviceError::Memory),
    }
}
