//! Laws of lines of a report.

ghost use Rattle.flac_report.specs.Lines.{CutReportsAreRead, LinesAreApart, LinesAreDetermined};

/// Two files whose lines are the same have the same path, size and time, and the same audio, or both have none.
pub fn lines_are_determined()
    ensures { LinesAreDetermined }
{}

/// The lines of a report are those of its files, in their order: no path ends a line, or begins one.
pub fn lines_are_apart()
    ensures { LinesAreApart }
{}

/// The lines of a report that was cut off are those of its first files, in their order; the last one may be a part of a
/// line.
pub fn cut_reports_are_read()
    ensures { CutReportsAreRead }
{}
