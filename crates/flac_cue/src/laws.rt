//! Laws of cue sheets as text.

ghost use Rattle.flac_cue.specs.ComesBack.{CueComesBack};

/// A cue sheet that keeps the rules of its fields, of a CD or not, is read again from its text, whatever the file's name.
pub fn cue_comes_back()
    ensures { CueComesBack }
{}
