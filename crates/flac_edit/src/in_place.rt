//! Edits in place.

ghost use Rattle.std.specs.Prelude.{◌≡◌, ◌≤◌, ◌+◌, true, false, length, OnOk, IfOk};
ghost use Rattle.flac_bits.specs.Forms.{AreBytes};
ghost use Rattle.flac_meta.specs.Valid.{AllAre, IsComments};
ghost use Rattle.flac_edit.specs.Calls.{AtEachMoment, InTheEnd, FailureIsCounted, IfDone};
ghost use Rattle.flac_edit.specs.Device.{Only};
ghost use Rattle.flac_edit.specs.Places.{total_of, LeavesOldOrEdited, ReadsOldOrEdited, HasComments};

use crate::choosing::change_in_place;
use crate::device::{Device, DeviceError};
use crate::slots::Slot;
use flac_bits::bytes_fit;
use flac_meta::{Bytes, Comments};
use std::alloc::Global;

/// Each byte of each text is below 256.
fn texts_fit(texts: &[Bytes])
    ensures { AllAre AreBytes texts.now }
{
    for text in texts {
        bytes_fit(text.as_slice());
    }
}

/// The bytes of comments fit.
fn comments_fit(comments: &Comments)
    ensures { IsComments comments.now }
{
    bytes_fit(comments.vendor.as_slice());
    texts_fit(comments.list.as_slice());
}

/// Replaces the comments of a native file in place, if padding beside them has room. `slots` are the blocks of the
/// file, STREAMINFO the first. Returns whether it did; if it did not, nothing was written, and a new file has to be.
///
/// The comments and the padding beside them, with no other block between, become the new comments and padding, in as
/// many bytes. All other blocks and the frames stay as they are (RFC 9639, section 8). The padding before the comments
/// needs room for the new ones and a header of 4 bytes, or that after them for the new ones and two headers. Nothing
/// may be left to store when the call begins: sync a file that was just opened.
///
/// ```
/// // STREAMINFO, 16 bytes of comments, 8192 bytes of padding
/// let slots = [Slot::Other(34), Slot::Comments(16), Slot::Padding(8192)];
/// let new = edited(alloc, &comments, &[Edit::Set(b"TITLE", b"Air")])?;
/// if !edit_in_place(alloc, &mut device, &slots, &new)? {
///     // no room: write a new file
/// }
/// ```
///
/// # Errors
/// [`DeviceError::Memory`] if an allocation fails, [`DeviceError::Failed`] if the device failed. The file has the old
/// comments or the new ones, and either may be stored: open and sync it again before the next edit.
pub fn edit_in_place<D: Device>(
    alloc: Global,
    device: &mut D,
    slots: &[Slot],
    comments: &Comments,
) -> Result<bool, DeviceError>
    requires inside { D.known device.old ≡ true → 4 + total_of slots.now ≤ length (D.seen device.old) }
    requires durable { D.known device.old ≡ true → Only (D.seen device.old) (D.time device.old) }
    ensures known { D.known device.new ≡ D.known device.old }
    // A crash at any moment leaves a file that is read as the old blocks, or as those with the new comments, before the
    // same frames.
    ensures any_moment { AtEachMoment D.Device device.old device.new (LeavesOldOrEdited slots.now comments.now) }
    // Whatever is returned, a read finds the old blocks, or those with the new comments.
    ensures reads { InTheEnd D.Device device.old device.new (ReadsOldOrEdited slots.now comments.now) }
    // At Ok(true) it has the new comments, and they are stored.
    ensures edited { IfDone result (InTheEnd D.Device device.old device.new (HasComments slots.now comments.now)) }
    ensures stored { OnOk result (D.known device.old ≡ true → Only (D.seen device.new) (D.time device.new)) }
    // At Ok(false) nothing was done.
    ensures untouched { IfOk result (λ done. done ≡ false → device.new ≡ device.old) }
    // `Failed` is returned only if the device failed.
    ensures failed { FailureIsCounted D.Device device.old device.new result }
{
    comments_fit(comments);
    change_in_place(alloc, device, slots, comments)
}
