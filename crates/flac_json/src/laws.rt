//! Laws of lines of JSON.

ghost use Rattle.flac_json.specs.Determined.{BlocksAreDetermined};
ghost use Rattle.flac_json.specs.Json.{TextsHaveOneReading};
ghost use Rattle.flac_json.specs.Lines.{LinesArePutTogether};

/// A text of JSON is that of one value: no name, no text and no bytes in it make it read otherwise.
pub fn texts_have_one_reading()
    ensures { TextsHaveOneReading }
{}

/// The object of a metadata block determines its number and the block, but for the data of a picture, of an application
/// and of a block of another type, of which it determines the length and the MD5.
pub fn blocks_are_determined()
    ensures { BlocksAreDetermined }
{}

/// The line of a file is what is before the blocks, the objects of the blocks with commas between them, and what is after
/// them.
pub fn lines_are_put_together()
    ensures { LinesArePutTogether }
{}
