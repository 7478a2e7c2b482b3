//! Prints what is missing of a stream.

ghost use Rattle.std.specs.Prelude.{◌≡◌, OnOk, OnErr};
ghost use Rattle.flac_rescue.specs.Report.{HasTold};

use crate::lines::report;
use crate::survey::{SurveyFault, survey_bytes};
use flac_bits::{Target, send_all};
use std::alloc::Global;

/// Prints what is missing of a native stream, the bytes of a file of this path: the lines of [`report`]. Nothing is
/// printed if all of it is there.
///
/// # Errors
/// Those of [`survey_bytes`]; then nothing was printed.
pub fn tell_missing<E: Target>(
    alloc: Global,
    path: &str,
    bytes: &[u8],
    err: &mut E,
) -> Result<(), SurveyFault>
    ensures told { OnOk result (HasTold E.Target bytes.now path.now err.old err.new) }
    ensures nothing { OnErr result (err.new ≡ err.old) }
{
    let survey = survey_bytes(alloc, bytes)?;
    let text = report(alloc, path, &survey)?;
    // If it cannot be written, there is no one left to report it to.
    let _ = send_all(err, text.as_slice());
    Ok(())
}
