//! Two readers that go on side by side.

ghost use Rattle.std.specs.Prelude.{◌≡◌, ◌≤◌, IfOk, OnOk};
ghost use Rattle.flac_reader.specs.Coming.{size_of};
ghost use Rattle.flac_reader.specs.Giving.{last_frame};
ghost use Rattle.flac_compare.specs.inner.Stepping.{Stays, MeetsNone, Enters, CountsRest};

use flac_native::{Fault, Place, Why};
use flac_reader::{Container, Reader};

/// Goes to the next frame if nothing is left of the one that was read last, and notes how many inter-channel samples
/// are left of it then. False at the end.
pub(crate) fn enter<C: Container>(reader: &mut Reader<C>, left: &mut usize) -> Result<bool, Fault>
    requires { left.old ≤ size_of (last_frame reader.old) }
    ensures within { OnOk result (left.new ≤ size_of (last_frame reader.new)) }
    // proof only
    ensures stays { Stays reader.old reader.new }
    ensures met { OnOk result (MeetsNone reader.old reader.new) }
    ensures enters { Enters reader.old left.old reader.new left.new result }
{
    if *left > 0 {
        return Ok(true);
    }
    match reader.step() {
        Ok(()) => {}
        Err(fault) => return Err(fault),
    }
    match reader.frame() {
        Some(frame) => {
            *left = frame.len();
            Ok(true)
        }
        None => Ok(false),
    }
}

/// Reads on to the end, and counts the inter-channel samples that come, up to 2^64 - 1. `left` of them are left of the
/// frame that was read last.
pub(crate) fn count_rest<C: Container>(reader: &mut Reader<C>, left: usize) -> Result<u64, Fault>
    requires { left ≤ size_of (last_frame reader.old) }
    // proof only
    ensures stays { Stays reader.old reader.new }
    ensures met { OnOk result (MeetsNone reader.old reader.new) }
    ensures counts { CountsRest reader.old left reader.new result }
{
    let mut left = left;
    let mut count: u64 = 0;
    'frames: for _ in 0..u64::MAX {
        match enter(reader, &mut left) {
            Ok(true) => {}
            Ok(false) => return Ok(count),
            Err(fault) => return Err(fault),
        }
        count = count.saturating_add(left as u64);
        left = 0;
    }
    Err(Fault {
        at: Place::Frame(u64::MAX),
        why: Why::Memory,
    })
}
