//! `flac edit`: metadata blocks of a native file, in a new file.

ghost use Rattle.std.specs.Prelude.{◌≡◌, ◌≤◌, ◌++◌, true, false, map, option_map, Some, IfOk, IfSome};
ghost use Rattle.flac_edit.specs.Changed.{KeepsBlocksOf};
ghost use Rattle.flac_edit.specs.Rewritten.{SendsBlocks};
ghost use Rattle.flac_cli.specs.Calls.{IfServed};
ghost use Rattle.flac_cli.specs.Editing.{removal_of, form_given, form_of, picture_of, edit_place, cue_name, edit_name, edit_path, edit_line};

use crate::lines::{At, write_line};
use crate::report::refuse;
use flac_bits::{Source, Target};
use flac_cue::CueWhy;
use flac_edit::{BlockEdits, BlockFault, EditFault, Removal, blocks_change, rewrite_blocks};
use flac_image::image_of;
use flac_jobs::{BlockName, PictureForm, PictureWord};
use flac_meta::{Bytes, Picture};
use flac_native::Place;
use std::alloc::{AllocError, Global};

/// The paths that the lines of an edit or an export name.
#[derive(Clone, Copy, Debug, PartialEq, Eq)]
pub struct EditPaths<'a> {
    /// The path of the stream.
    pub stream: &'a str,
    /// The path of the cue sheet that the stream gets; `None` if it gets none.
    pub sheet: Option<&'a str>,
}

/// The removal that a word gives.
fn removal_of(name: &BlockName) -> Removal
    ensures { result ≡ removal_of name.now }
{
    match name {
        BlockName::Number(number) => Removal::Number(*number),
        BlockName::Kind(kind) => Removal::Kind(*kind),
        BlockName::Application(id) => Removal::Application(*id),
    }
}

/// The removals that the command line gives.
///
/// # Errors
/// `AllocError` if an allocation fails.
pub fn removals_of(alloc: Global, names: &[BlockName]) -> Result<Vec<Removal>, AllocError>
    ensures { IfOk result (λ removals. removals.items ≡ map removal_of names.now) }
{
    let mut removals = Vec::new(alloc);
    for name in names {
        removals.push(removal_of(name))?;
    }
    Ok(removals)
}

/// The media type and the sizes of a picture: those that the command line states, or else those of the header of the
/// file; `None` if they are not there.
fn form_of<'a>(word: &PictureWord<'a>, bytes: &[u8]) -> Option<PictureForm<'a>>
    ensures { option_map form_given result ≡ form_of word.now bytes.now }
{
    if let Some(form) = word.form {
        return Some(form);
    }
    let image = image_of(bytes)?;
    Some(PictureForm {
        media: image.kind.media(),
        width: image.width,
        height: image.height,
        depth: image.depth,
        colours: image.colours,
    })
}

/// The picture of a word of the command line, whose file has these bytes (RFC 9639, section 8.8); `None` if neither the
/// word nor the header of a PNG or JPEG picture states its sizes. It has no description.
///
/// # Errors
/// `AllocError` if an allocation fails.
pub fn picture_of(
    alloc: Global,
    word: &PictureWord<'_>,
    bytes: &[u8],
) -> Result<Option<Picture>, AllocError>
    ensures { IfOk result (λ made. made ≡ picture_of word.now bytes.now) }
{
    let Some(form) = form_of(word, bytes) else {
        return Ok(None);
    };
    let media = Vec::from_slice(alloc, form.media.as_bytes())?;
    let data = Vec::from_slice(alloc, bytes)?;
    Ok(Some(Picture {
        kind: word.kind,
        media: Bytes::from_vec(media),
        text: Bytes::from_vec(Vec::new(alloc)),
        width: form.width,
        height: form.height,
        depth: form.depth,
        colours: form.colours,
        bytes: Bytes::from_vec(data),
    }))
}

/// Where the blocks of a file do not fit edits, or lack a part.
fn place_of(fault: BlockFault) -> At
    ensures { result ≡ edit_place fault }
{
    match fault {
        BlockFault::NoBlock(number) => At::Place(Place::Block(u64::from(number))),
        BlockFault::NoPicture => At::Whole,
        BlockFault::NoCueSheet => At::Whole,
        BlockFault::NoTotal => At::Whole,
        BlockFault::CueLine(line, _) => At::Line(line),
        BlockFault::SecondPicture(_) => At::Whole,
    }
}

/// The number and the name of the rule of cue sheets that a line breaks (RFC 9639, section 8.7).
fn cue_name(why: CueWhy) -> &'static str
    ensures { result.now ≡ cue_name why }
{
    match why {
        CueWhy::Catalogue => "80 CueCatalogue",
        CueWhy::Track => "81 CueTrack",
        CueWhy::NoIndex => "82 CueNoIndex",
        CueWhy::Flags => "83 CueFlags",
        CueWhy::Isrc => "84 CueIsrc",
        CueWhy::Index => "85 CueIndex",
        CueWhy::Offset => "86 CueOffset",
        CueWhy::LeadIn => "87 CueLeadIn",
        CueWhy::LeadOut => "88 CueLeadOut",
        CueWhy::NoTrack => "89 CueNoTrack",
    }
}

/// The number and the name of such a fault.
fn name_of(fault: BlockFault) -> &'static str
    ensures { result.now ≡ edit_name fault }
{
    match fault {
        BlockFault::NoBlock(_) => "57 NoBlock",
        BlockFault::NoPicture => "59 NoPicture",
        BlockFault::NoCueSheet => "91 NoCueSheet",
        BlockFault::NoTotal => "90 NoTotal",
        BlockFault::CueLine(_, why) => cue_name(why),
        BlockFault::SecondPicture(_) => "58 SecondPicture",
    }
}

/// The path of the file that such a fault is in: that of the cue sheet if a line of it is wrong.
fn path_of<'a>(paths: &EditPaths<'a>, fault: BlockFault) -> &'a str
    ensures { result.now ≡ edit_path paths.now fault }
{
    match fault {
        BlockFault::CueLine(_, _) => paths.sheet.unwrap_or(paths.stream),
        _ => paths.stream,
    }
}

/// Writes the line that edits do not fit the blocks of a file, or that it lacks a part, and returns the status 1.
pub(crate) fn refuse_edits<E: Target>(err: &mut E, paths: &EditPaths<'_>, fault: BlockFault) -> u8
    ensures status { result ≡ 1 }
    ensures line { IfServed E.Target err.old err.new
        (λ before after. after ≡ before ++ edit_line paths.now fault) }
{
    let path = path_of(paths, fault);
    let at = place_of(fault);
    let name = name_of(fault);
    // If it cannot be written, there is no one left to report it to.
    let _ = write_line(err, path, at, name);
    1
}

/// Whether edits change the metadata blocks of a native file, as [`blocks_change`] says; `None` if it is refused: then
/// the line of the error was written to `err`, if that could be written.
pub fn edit_changes<R: Source, E: Target>(
    alloc: Global,
    paths: &EditPaths<'_>,
    edits: &BlockEdits<'_>,
    source: &mut R,
    err: &mut E,
) -> Option<bool>
    // `false`: the edited blocks are written as the old ones are.
    ensures kept { result ≡ Some false → KeepsBlocksOf R.Source source.old edits.now }
    // Nothing was written to standard error unless it is refused.
    ensures silent { IfSome result (λ _. err.new ≡ err.old) }
{
    match blocks_change(alloc, source, edits) {
        Ok(changes) => Some(changes),
        Err(EditFault::Stream(fault)) => {
            let _status = refuse(err, paths.stream, fault.at, fault.why);
            None
        }
        Err(EditFault::Blocks(fault)) => {
            let _status = refuse_edits(err, paths, fault);
            None
        }
    }
}

/// Writes a native stream with edited metadata blocks, as [`rewrite_blocks`] does. Returns the status: 1 if it failed,
/// and the line of the error was written to `err`, if that could be written.
pub fn edit_file<R: Source, W: Target, E: Target>(
    alloc: Global,
    paths: &EditPaths<'_>,
    edits: &BlockEdits<'_>,
    source: &mut R,
    target: &mut W,
    err: &mut E,
) -> u8
    ensures status { result ≤ 1 }
    // After status 0 the input was written with its blocks edited so, and its frames as they are.
    ensures edited { result ≡ 0 → SendsBlocks R.Source W.Target source.old edits.now target.old target.new }
    // After status 0 nothing was written to standard error.
    ensures silent { result ≡ 0 → err.new ≡ err.old }
{
    match rewrite_blocks(alloc, source, edits, target) {
        Ok(()) => 0,
        Err(EditFault::Stream(fault)) => refuse(err, paths.stream, fault.at, fault.why),
        Err(EditFault::Blocks(fault)) => refuse_edits(err, paths, fault),
    }
}
