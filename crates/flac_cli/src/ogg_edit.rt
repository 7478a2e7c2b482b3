//! `flac edit` of a stream in either container, which is written anew.

ghost use Rattle.std.specs.Prelude.{◌≡◌, ◌≤◌, false, Some, None, IfOk, IfSome, OnOk};
ghost use Rattle.flac_copy.specs.Written.{WritesAlike};
ghost use Rattle.flac_cli.specs.Calls.{IfServed};
ghost use Rattle.flac_cli.specs.ListedJson.{IsReasonOf};
ghost use Rattle.flac_cli.specs.OggEdits.{KeepsItsBlocks, EditsAlike, NamesEdits};

use crate::edit::{EditPaths, refuse_edits};
use crate::ogg_export::{head_blocks, placed};
use crate::report::refuse;
use flac_bits::{Source, Target, Why};
use flac_copy::{CopyFault, Copying, open};
use flac_edit::{BlockEdits, EditFault, edited_blocks, edits_change};
use flac_meta::Block;
use flac_native::{Profile, RetagFault};
use std::alloc::Global;
use std::mem::drop;

/// Writes the line of a fault of the stream at a path, and returns the status 1.
pub(crate) fn refuse_stream<E: Target>(err: &mut E, path: &str, fault: RetagFault) -> u8
    ensures status { result ≡ 1 }
    ensures line { IfServed E.Target err.old err.new (IsReasonOf path.now) }
{
    refuse(err, path, fault.at, fault.why)
}

/// Writes the line of edits that failed, and returns the status 1.
fn refuse_edit<E: Target>(err: &mut E, paths: &EditPaths<'_>, fault: EditFault) -> u8
    ensures status { result ≡ 1 }
    ensures line { IfServed E.Target err.old err.new (NamesEdits paths.now) }
{
    match fault {
        EditFault::Stream(fault) => refuse_stream(err, paths.stream, fault),
        EditFault::Blocks(fault) => refuse_edits(err, paths, fault),
    }
}

/// The place and the reason of a copy that failed.
fn fault_of_copy(fault: CopyFault) -> RetagFault {
    match fault {
        CopyFault::Input(fault) => placed(fault),
        CopyFault::Blocks(why) => RetagFault { at: None, why },
        CopyFault::Write => RetagFault {
            at: None,
            why: Why::Write,
        },
    }
}

/// Writes a stream that was opened with these metadata blocks, in the container in which it was read.
///
/// # Errors
/// The stream is refused at this place, or the blocks cannot be written, or the target failed.
pub(crate) fn write_opened<S: Source + Drop, W: Target>(
    copying: Copying<S>,
    blocks: &[Block],
    target: &mut W,
) -> Result<(), RetagFault>
    ensures { OnOk result (WritesAlike S.Source W.Target copying blocks.now target.old target.new) }
{
    match copying.write_alike(blocks, target) {
        Ok(()) => Ok(()),
        Err(fault) => Err(fault_of_copy(fault)),
    }
}

/// Whether edits change the metadata blocks of a stream, native or Ogg.
///
/// # Errors
/// Those of [`head_blocks`] and of [`edits_change`].
fn change_in<R: Source>(
    alloc: Global,
    edits: &BlockEdits<'_>,
    source: &mut R,
) -> Result<bool, EditFault>
    ensures { IfOk result (λ changes. changes ≡ false → KeepsItsBlocks R.Source source.old edits.now) }
{
    match head_blocks(alloc, source) {
        Ok(blocks) => edits_change(alloc, &blocks, edits),
        Err(fault) => Err(EditFault::Stream(fault)),
    }
}

/// Whether edits change the metadata blocks of a stream, native or Ogg, as [`edits_change`] says; no frame is read.
/// `None` if it is refused, or the edits do not fit its blocks: then the line of the error was written to `err`, if
/// that could be written.
pub fn ogg_edits_change<R: Source + Drop, E: Target>(
    alloc: Global,
    paths: &EditPaths<'_>,
    edits: &BlockEdits<'_>,
    source: R,
    err: &mut E,
) -> Option<bool>
    // `false`: the edits fit the blocks with which the input begins, and the edited ones are written as these are.
    ensures kept { result ≡ Some false → KeepsItsBlocks R.Source source edits.now }
    // Nothing was written to standard error unless it is refused.
    ensures silent { IfSome result (λ _. err.new ≡ err.old) }
    // `None`: the line of a reason of the stream, or of edits that do not fit, was added to standard error, if that did
    // not fail.
    ensures named { result ≡ None → IfServed E.Target err.old err.new (NamesEdits paths.now) }
{
    let mut source = source;
    match change_in(alloc, edits, &mut source) {
        Ok(changes) => Some(changes),
        Err(fault) => {
            let _status = refuse_edit(err, paths, fault);
            None
        }
    }
}

/// Writes a stream, native or Ogg, with edited metadata blocks.
///
/// # Errors
/// The edits do not fit the blocks; the stream is refused at this place, or the target failed; out of memory.
fn edit_stream<R: Source + Drop, W: Target>(
    alloc: Global,
    edits: &BlockEdits<'_>,
    source: R,
    target: &mut W,
) -> Result<(), EditFault>
    ensures { OnOk result (EditsAlike R.Source W.Target source edits.now target.old target.new) }
{
    let (blocks, copying) = match open(alloc, source, Profile::Lax) {
        Ok(opened) => opened,
        Err(fault) => return Err(EditFault::Stream(placed(fault))),
    };
    let made = edited_blocks(alloc, edits, &blocks);
    drop(blocks);
    let list = match made {
        Ok(list) => list,
        Err(fault) => return Err(fault),
    };
    match write_opened(copying, &list, target) {
        Ok(()) => Ok(()),
        Err(fault) => Err(EditFault::Stream(fault)),
    }
}

/// Writes a stream with edited metadata blocks in the container in which it was read, an Ogg stream with the same
/// serial number; the bytes of each frame stay. An Ogg stream has the comments first, and no seek table, since its
/// offsets have no meaning there. The frames are decoded, also outside the streamable subset, and what STREAMINFO
/// states of all samples is compared. Returns the status: 1 if it failed, and the line of the error was written to
/// `err`, if that could be written.
pub fn edit_ogg<R: Source + Drop, W: Target, E: Target>(
    alloc: Global,
    paths: &EditPaths<'_>,
    edits: &BlockEdits<'_>,
    source: R,
    target: &mut W,
    err: &mut E,
) -> u8
    ensures status { result ≤ 1 }
    // After status 0 the input is a stream whose blocks the edits fit, and it was written with the edited blocks and
    // the same frames.
    ensures edited { result ≡ 0 → EditsAlike R.Source W.Target source edits.now target.old target.new }
    // After status 0 nothing was written to standard error.
    ensures silent { result ≡ 0 → err.new ≡ err.old }
    // After status 1 the line of a reason of the stream, or of edits that do not fit, was added to standard error, if
    // that did not fail.
    ensures named { result ≡ 1 → IfServed E.Target err.old err.new (NamesEdits paths.now) }
{
    match edit_stream(alloc, edits, source, target) {
        Ok(()) => 0,
        Err(fault) => refuse_edit(err, paths, fault),
    }
}
