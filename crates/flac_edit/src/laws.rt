//! Laws: what holds of the definitions. Calling them does nothing; a proof may name them.

ghost use Rattle.flac_edit.specs.CueSheets.{CueSheetsComeBack};
ghost use Rattle.flac_edit.specs.Edited.{EditsSettle};
ghost use Rattle.flac_edit.specs.Lines.{LinesAreRead};
ghost use Rattle.flac_edit.specs.Streams.{StreamsStay};

use flac_cue::cue_comes_back;

/// A cue sheet that keeps the rules of the audio of its stream, as STREAMINFO says it, is exported as a text that gives
/// the same cue sheet for that stream, whatever the file's name (RFC 9639, section 8.7).
pub fn cue_sheets_come_back()
    ensures { CueSheetsComeBack }
{
    cue_comes_back();
}

/// If a file is a stream, then what an edit in place and a crash leave of it is a stream of the old items, or of the
/// same STREAMINFO, edited blocks and the same frames (RFC 9639, section 6).
pub fn streams_stay()
    ensures { StreamsStay }
{}

/// Edits that begin with [`Edit::Clear`](crate::Edit::Clear) or [`Edit::Replace`](crate::Edit::Replace), that are one
/// [`Edit::Remove`](crate::Edit::Remove) or one [`Edit::Set`](crate::Edit::Set), change nothing of their own result.
pub fn edits_settle()
    ensures { EditsSettle }
{}

/// Comments with names that are written as lines ([`comment_lines`](crate::comment_lines)) are read as the same ones
/// ([`comments_of_lines`](crate::comments_of_lines)), and what is read of any lines has names (RFC 9639, section 8.6).
pub fn lines_are_read()
    ensures { LinesAreRead }
{}
