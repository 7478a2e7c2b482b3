//! Three writes by which new comments take the place of old ones.

ghost use Rattle.std.specs.Prelude.{◌≡◌, true, length, OnOk};
ghost use Rattle.flac_edit.specs.Calls.{AtEachMoment, InTheEnd, FailureIsCounted};
ghost use Rattle.flac_edit.specs.Device.{Only, IsWord};
ghost use Rattle.flac_edit.specs.inner.Flips.{IsInside, LeavesEither, HasNew};

use crate::device::{Device, DeviceError};
use crate::store::store;

/// What is written, and where: offsets in the file, in bytes.
#[derive(Drop)]
pub(crate) struct Change {
    /// Where the new comments are written: inside padding.
    pub at: usize,
    /// The new comments.
    pub bytes: Vec<u8>,
    /// Where the header is written that makes a reader find them.
    pub header_at: usize,
    /// That header: 4 bytes.
    pub header: Vec<u8>,
    /// Where the bytes begin that no reader looks at then.
    pub zeros_at: usize,
    /// Zeros for them.
    pub zeros: Vec<u8>,
}

/// Writes the new comments into padding, then the header, then the zeros; each is stored before the next.
pub(crate) fn flip<D: Device>(device: &mut D, plan: &Change) -> Result<(), DeviceError>
    requires inside { D.known device.old ≡ true → IsInside plan.now (D.seen device.old) }
    requires word { IsWord plan.now.header_at (length plan.now.header.items) }
    requires durable { D.known device.old ≡ true → Only (D.seen device.old) (D.time device.old) }
    ensures known { D.known device.new ≡ D.known device.old }
    // A crash at any moment leaves the old blocks or the new ones, before the same frames.
    ensures any_moment { AtEachMoment D.Device device.old device.new (LeavesEither plan.now) }
    // At Ok it has the new ones, and they are stored.
    ensures edited { OnOk result (InTheEnd D.Device device.old device.new (HasNew plan.now)) }
    ensures stored { OnOk result (D.known device.old ≡ true → Only (D.seen device.new) (D.time device.new)) }
    // `Failed` is returned only if the device failed.
    ensures failed { FailureIsCounted D.Device device.old device.new result }
{
    store(device, plan.at, &plan.bytes)?;
    store(device, plan.header_at, &plan.header)?;
    store(device, plan.zeros_at, &plan.zeros)
}
