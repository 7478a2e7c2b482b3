//! Laws of what the program writes.

ghost use Rattle.flac_cli.specs.Objects.{LinesHaveOneReading};
ghost use Rattle.flac_cli.specs.Outcomes.{KeptFilesAreRead, KeptFilesAreDecoded};
ghost use Rattle.flac_cli.specs.ReportRead.{ReportsAreReadBack, ReadFilesAreSame};
ghost use Rattle.flac_cli.specs.Sought.{SoughtIsPart};
ghost use Rattle.flac_cli.specs.Waves.{KeptFilesComeBack};

/// The WAV file of a stream that was encoded of a WAV file, and keeps it, is that file, byte for byte, however the
/// stream is read: it has one reading.
pub fn kept_files_come_back()
    ensures { KeptFilesComeBack }
{}

/// What was encoded of a WAV file, and keeps it, is a stream that becomes a WAV file. So decoding it to a WAV file, in
/// the same profile, ends with status 0, unless memory runs out or a device fails.
pub fn kept_files_are_read()
    ensures read { KeptFilesAreRead }
    ensures decoded { KeptFilesAreDecoded }
{}

/// A line of the report of `flac verify` is that of one list of members: no path, whatever bytes it has, makes it read
/// otherwise.
pub fn lines_have_one_reading()
    ensures { LinesHaveOneReading }
{}

/// The lines that [`crate::verify_files`] adds to a report are read back by `recorded_of` of `flac_report`: in order,
/// as the path of each file, its size, its time, and its audio, or that it was not good. So a file that did not change
/// is the same as in the report.
pub fn reports_are_read_back()
    ensures read { ReportsAreReadBack }
    ensures same { ReadFilesAreSame }
{}

/// What [`crate::seek_excerpt`] writes is the part that [`crate::decode_excerpt`] writes: if the device has a native
/// stream, it was moved to one of its frames, and the frames are numbered from 0 on (RFC 9639, section 9.1.5).
pub fn sought_parts_are_parts()
    ensures { SoughtIsPart }
{}
