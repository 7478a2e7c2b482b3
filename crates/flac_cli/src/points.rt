//! Seek points of a stream that is there, for `flac edit`.

ghost use Rattle.std.specs.Prelude.{◌≡◌, IfSome};
ghost use Rattle.flac_rescue.specs.Points.{ArePoints};

use crate::report::refuse;
use flac_bits::{Target, Why};
use flac_meta::SeekPoint;
use flac_native::Profile;
use flac_ogg::verify;
use flac_rescue::{PointsFault, seek_points};
use std::alloc::Global;

/// Writes the line that a stream gets no seek points.
fn refuse_points<E: Target>(err: &mut E, path: &str, fault: PointsFault) {
    let _status = match fault {
        PointsFault::Head(fault) => refuse(err, path, Some(fault.at), fault.why),
        PointsFault::Memory => refuse(err, path, None, Why::Memory),
        PointsFault::NotWhole => refuse(err, path, None, Why::BadSync),
    };
}

/// The seek points of a native stream, as [`seek_points`] gives them; `None` if it is refused: then the line of the
/// error was written to `err`, if that could be written. The stream is verified before, all of it.
pub fn points_of<E: Target>(
    alloc: Global,
    path: &str,
    bytes: &[u8],
    every: u32,
    err: &mut E,
) -> Option<Vec<SeekPoint>>
    ensures points { IfSome result (λ points. ArePoints bytes.now every points.items) }
    // Nothing was written to standard error unless it is refused.
    ensures silent { IfSome result (λ _. err.new ≡ err.old) }
{
    if let Err(fault) = verify(alloc, bytes, Profile::Lax) {
        let _status = refuse(err, path, Some(fault.at), fault.why);
        return None;
    }
    match seek_points(alloc, bytes, every) {
        Ok(points) => Some(points),
        Err(fault) => {
            refuse_points(err, path, fault);
            None
        }
    }
}
