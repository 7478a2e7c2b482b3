//! Laws of WAV files.

ghost use Rattle.flac_wave.specs.Wave.{WavesComeBack, AreOneFile, AreFileOrNone, AreRefusedOnce};
ghost use Rattle.flac_wave.specs.Plain.{FormatsCanBeWritten, PlainFilesAreRead, PlainFilesAreMade};
ghost use Rattle.flac_wave.specs.Shift.{SamplesComeBack};

/// The pieces and the samples of a WAV file make the same file again, byte for byte.
pub fn waves_come_back()
    ensures { WavesComeBack }
{}

/// Bytes are one WAV file, or none for one reason at one place, and not both.
pub fn waves_are_read_once()
    ensures one { AreOneFile }
    ensures once { AreFileOrNone }
    ensures refused { AreRefusedOnce }
{}

/// A plain WAV file is read as what it was made of (`read`), which the format of a stream can be (`format`). It is made
/// of pieces and samples as the file that a stream keeps (`made`).
pub fn plain_files_are_read()
    ensures format { FormatsCanBeWritten }
    ensures read { PlainFilesAreRead }
    ensures made { PlainFilesAreMade }
{}

/// Samples whose lowest bits are zeros come back when they were lowered and raised.
pub fn samples_come_back()
    ensures { SamplesComeBack }
{}
