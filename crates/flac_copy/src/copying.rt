//! Copies the frames of a stream.

ghost use Rattle.std.specs.Prelude.{◌≡◌, false, OnOk, IfErr};
ghost use Rattle.flac_copy.specs.Copying.{EndsCopy, CopiesFrames, is_of_blocks};

use crate::fault::CopyFault;
use crate::input::Input;
use crate::output::Output;
use flac_bits::{Source, Target, Why};
use flac_native::{Fault, Place, Track};
use std::alloc::Global;

/// The fault of an input at a place; that of the target if it failed.
pub(crate) fn fault_at(at: Place, why: Why) -> CopyFault
    ensures { is_of_blocks result ≡ false }
{
    match why {
        Why::Write => CopyFault::Write,
        _ => CopyFault::Input(Fault { at, why }),
    }
}

/// Ends the copy after its last frame: compares what STREAMINFO states of all samples, and writes what is held back.
fn end_copy<W: Target>(track: &mut Track, out: &Output, target: &mut W) -> Result<(), Why>
    ensures { OnOk result (EndsCopy W.Target track.old out.now target.old target.new) }
{
    track.end()?;
    match out.finish(target) {
        Ok(()) => Ok(()),
        Err(why) => Err(why),
    }
}

/// What [`end_copy`] does; a failure is at the end.
fn end_at<W: Target>(track: &mut Track, out: &Output, target: &mut W) -> Result<(), CopyFault>
    ensures fault { IfErr result (λ e. is_of_blocks e ≡ false) }
    ensures ends { OnOk result (EndsCopy W.Target track.old out.now target.old target.new) }
{
    match end_copy(track, out, target) {
        Ok(()) => Ok(()),
        Err(why) => Err(fault_at(Place::End, why)),
    }
}

/// Copies all frames that are still to come, and ends the stream.
///
/// # Errors
/// The fault of the stream at its place, or of the target.
pub(crate) fn copy_frames<R: Source, W: Target>(
    alloc: Global,
    input: &mut Input<R>,
    track: &mut Track,
    out: &mut Output,
    target: &mut W,
) -> Result<(), CopyFault>
    ensures copies { OnOk result (CopiesFrames R.Source W.Target track.old input.old out.old target.old target.new) }
    ensures fault { IfErr result (λ e. is_of_blocks e ≡ false) }
{
    let mut bytes = Vec::new(alloc);
    // More frames than this have no place.
    'frames: for _ in 0..u64::MAX {
        let at = track.place();
        match input.next(track, &mut bytes) {
            Ok(true) => match out.put(bytes.as_slice(), track.view().len(), target) {
                Ok(()) => {}
                Err(why) => return Err(fault_at(at, why)),
            },
            Ok(false) => return end_at(track, out, target),
            Err(fault) => return Err(CopyFault::Input(fault)),
        }
    }
    Err(fault_at(track.place(), Why::Truncated))
}
