//! A write that is stored before the next one begins.

ghost use Rattle.std.specs.Prelude.{◌≡◌, ◌≤◌, true, length, OnOk};
ghost use Rattle.flac_edit.specs.Calls.{AtEachMoment, FailureIsCounted};
ghost use Rattle.flac_edit.specs.Device.{Fits, Only, Holds, LeavesTorn, LeavesWhole};

use crate::device::{Device, DeviceError};

/// Writes bytes over others, and stores them.
pub(crate) fn store<D: Device>(device: &mut D, at: usize, bytes: &[u8]) -> Result<(), DeviceError>
    requires fits { D.known device.old ≡ true → Fits at bytes.now (D.seen device.old) }
    requires durable { D.known device.old ≡ true → Only (D.seen device.old) (D.time device.old) }
    ensures known { D.known device.new ≡ D.known device.old }
    ensures stored { OnOk result (D.known device.old ≡ true
        → Holds (D.seen device.old) at bytes.now (D.seen device.new)) }
    // proof only
    ensures long { OnOk result (D.known device.old ≡ true
        → length (D.seen device.new) ≡ length (D.seen device.old)) }
    ensures durable { OnOk result (D.known device.old ≡ true → Only (D.seen device.new) (D.time device.new)) }
    ensures any_moment { AtEachMoment D.Device device.old device.new (LeavesTorn at (length bytes.now)) }
    ensures whole { AtEachMoment D.Device device.old device.new (LeavesWhole at bytes.now) }
    ensures faults { D.known device.old ≡ true → D.faults device.old ≤ D.faults device.new }
    ensures failed { FailureIsCounted D.Device device.old device.new result }
{
    device.write_at(at, bytes)?;
    device.sync()
}
