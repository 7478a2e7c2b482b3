//! `flac tag` of a stream in either container, which is written anew.

ghost use Rattle.std.specs.Prelude.{◌≡◌, ◌≤◌, true, false, Some, None, IfOk, IfSome, OnOk};
ghost use Rattle.flac_cli.specs.Calls.{IfServed};
ghost use Rattle.flac_cli.specs.ListedJson.{IsReasonOf};
ghost use Rattle.flac_cli.specs.Named.{NamesRetagging};
ghost use Rattle.flac_cli.specs.OggEdits.{KeepsItsComments, ChangesItsComments, RetagsAlike};

use crate::ogg_edit::{refuse_stream, write_opened};
use crate::ogg_export::{head_blocks, no_memory, placed};
use crate::report::{Paths, refuse};
use crate::retag::is_of_target;
use flac_bits::{Source, Target};
use flac_copy::open;
use flac_edit::{Edit, comments_change, retagged_blocks};
use flac_native::{Profile, RetagFault};
use std::alloc::Global;
use std::mem::drop;

/// Whether edits change the comments of a stream, native or Ogg.
///
/// # Errors
/// Those of [`head_blocks`]; out of memory.
fn change_in<R: Source>(
    alloc: Global,
    edits: &[Edit<'_>],
    source: &mut R,
) -> Result<bool, RetagFault>
    ensures kept { IfOk result (λ changes. changes ≡ false → KeepsItsComments R.Source source.old edits.now) }
    ensures changed { IfOk result (λ changes. changes ≡ true → ChangesItsComments R.Source source.old edits.now) }
{
    let blocks = match head_blocks(alloc, source) {
        Ok(blocks) => blocks,
        Err(fault) => return Err(fault),
    };
    match comments_change(alloc, &blocks, edits) {
        Ok(changes) => Ok(changes),
        Err(_) => Err(no_memory()),
    }
}

/// Whether edits change the comments of a stream, native or Ogg, as [`comments_change`] says; no frame is read. `None`
/// if it is refused before its last metadata block: then the line of the error was written to `err`, if that could be
/// written.
pub fn ogg_comments_change<R: Source + Drop, E: Target>(
    alloc: Global,
    path: &str,
    edits: &[Edit<'_>],
    source: R,
    err: &mut E,
) -> Option<bool>
    // `false`: the edits change none of the comments of the blocks with which the input begins.
    ensures kept { result ≡ Some false → KeepsItsComments R.Source source edits.now }
    // `true`: they change them.
    ensures changed { result ≡ Some true → ChangesItsComments R.Source source edits.now }
    // Nothing was written to standard error unless it is refused.
    ensures silent { IfSome result (λ _. err.new ≡ err.old) }
    // `None`: the line of a reason of this file was added to standard error, if that did not fail.
    ensures named { result ≡ None → IfServed E.Target err.old err.new (IsReasonOf path.now) }
{
    let mut source = source;
    match change_in(alloc, edits, &mut source) {
        Ok(changes) => Some(changes),
        Err(fault) => {
            let _status = refuse_stream(err, path, fault);
            None
        }
    }
}

/// Writes a stream, native or Ogg, with edited comments.
///
/// # Errors
/// The stream is refused at this place, or the target failed; out of memory.
fn retag_stream<R: Source + Drop, W: Target>(
    alloc: Global,
    edits: &[Edit<'_>],
    source: R,
    target: &mut W,
) -> Result<(), RetagFault>
    ensures { OnOk result (RetagsAlike R.Source W.Target source edits.now target.old target.new) }
{
    let (blocks, copying) = match open(alloc, source, Profile::Lax) {
        Ok(opened) => opened,
        Err(fault) => return Err(placed(fault)),
    };
    let made = retagged_blocks(alloc, &blocks, edits);
    drop(blocks);
    match made {
        Ok(list) => write_opened(copying, &list, target),
        Err(_) => Err(no_memory()),
    }
}

/// Writes a stream with edited comments in the container in which it was read, an Ogg stream with the same serial
/// number. All other metadata blocks stay, in Ogg after the comments, and so do the bytes of each frame. No padding is
/// added. The frames are decoded, also outside the streamable subset, and what STREAMINFO states of all samples is
/// compared. Returns the status: 1 if it failed, and the line of the error was written to `err`, if that could be
/// written.
pub fn retag_ogg<R: Source + Drop, W: Target, E: Target>(
    alloc: Global,
    paths: &Paths<'_>,
    edits: &[Edit<'_>],
    source: R,
    target: &mut W,
    err: &mut E,
) -> u8
    ensures status { result ≤ 1 }
    // After status 0 the input is a stream, and it was written with the edited comments and the same frames.
    ensures retagged { result ≡ 0 → RetagsAlike R.Source W.Target source edits.now target.old target.new }
    // After status 0 nothing was written to standard error.
    ensures silent { result ≡ 0 → err.new ≡ err.old }
    // After status 1 the line of a reason was added to standard error, if that did not fail. It names the output if that
    // could not be written (39), and else the input.
    ensures named { result ≡ 1 → IfServed E.Target err.old err.new
        (NamesRetagging paths.now.input.now paths.now.output.now) }
{
    match retag_stream(alloc, edits, source, target) {
        Ok(()) => 0,
        Err(fault) => {
            let path = paths.at_fault(is_of_target(fault));
            refuse(err, path, fault.at, fault.why)
        }
    }
}
