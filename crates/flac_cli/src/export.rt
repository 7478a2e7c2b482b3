//! `flac export`: a part of the metadata of a native stream.

ghost use Rattle.std.specs.Prelude.{◌≡◌, ◌≤◌};
ghost use Rattle.flac_cli.specs.Calls.{IfServed};
ghost use Rattle.flac_cli.specs.Editing.{part_of, ExportsPart};
ghost use Rattle.flac_cli.specs.OggEdits.{NamesExport};

use crate::edit::{EditPaths, refuse_edits};
use crate::report::refuse;
use crate::retag::is_of_target;
use flac_bits::{Source, Target};
use flac_edit::{EditFault, Part, export_part};
use flac_jobs::{ExportPart, Exporting};
use std::alloc::Global;

/// The part that a word names; a cue sheet is that of the file at the input's path.
pub(crate) fn part_of<'a>(exporting: &Exporting<'a>, part: ExportPart) -> Part<'a>
    ensures { result ≡ part_of exporting.now part }
{
    match part {
        ExportPart::Tags => Part::Tags,
        ExportPart::Picture => Part::Picture,
        ExportPart::CueSheet => Part::CueSheet(exporting.input),
        ExportPart::Block(number) => Part::Block(number),
    }
}

/// Writes the line of a part that could not be exported, and returns the status 1.
pub(crate) fn refuse_part<E: Target>(err: &mut E, exporting: &Exporting<'_>, fault: EditFault) -> u8
    ensures status { result ≡ 1 }
    ensures line { IfServed E.Target err.old err.new (NamesExport exporting.now) }
{
    match fault {
        EditFault::Blocks(fault) => {
            let paths = EditPaths {
                stream: exporting.input,
                sheet: None,
            };
            refuse_edits(err, &paths, fault)
        }
        EditFault::Stream(fault) => {
            let path = if is_of_target(fault) {
                exporting.output
            } else {
                exporting.input
            };
            refuse(err, path, fault.at, fault.why)
        }
    }
}

/// Writes a part of the metadata of a native stream, as [`export_part`] does. Returns the status: 1 if it failed, and
/// the line of the error was written to `err`, if that could be written.
pub fn export_file<R: Source, W: Target, E: Target>(
    alloc: Global,
    exporting: &Exporting<'_>,
    part: ExportPart,
    source: &mut R,
    target: &mut W,
    err: &mut E,
) -> u8
    ensures status { result ≤ 1 }
    // After status 0 that part of the input was written.
    ensures exported { result ≡ 0 → ExportsPart R.Source W.Target exporting.now part source.old target.old target.new }
    // After status 0 nothing was written to standard error.
    ensures silent { result ≡ 0 → err.new ≡ err.old }
{
    match export_part(alloc, source, part_of(exporting, part), target) {
        Ok(()) => 0,
        Err(fault) => refuse_part(err, exporting, fault),
    }
}
