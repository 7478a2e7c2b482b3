//! Laws of paths that are printed.

ghost use Rattle.flac_shelf.specs.Shown.{PathsAreShown};

/// Two paths that are printed alike are the same, and what is printed of a path has no control character: so no path
/// ends a line.
pub fn paths_are_shown()
    ensures { PathsAreShown }
{}
