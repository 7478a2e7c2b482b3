//! Lists of files.

ghost use Rattle.std.specs.Prelude.{◌≡◌, ◌≤◌, ◌<◌, ℕ, Bool, true, false, cond, List, [], ◌∷◌, IfSome};
ghost use Rattle.flac_shelf.specs.Listed.{Listed, OpensIf, HasNotFailed, AreEdges};

use crate::edges::Edges;
use crate::past::Earlier;
use crate::stamp::Stamp;
use flac_bits::Source;

/// Files, one after another, each with its path and its bytes.
///
/// [`Shelf::next`] goes to the next file; the other calls are about that one. The ghost members exist for proofs only.
/// What a contract says of a file's bytes holds if they are known to a proof (`known`).
pub trait Shelf {
    /// What a file is read from.
    type File: Source;

    /// Whether the files that are still to come, and their bytes, are known.
    ghost known: { Self → Bool };

    /// The file that the shelf is at, if it is known.
    ghost current: { Self → Listed };

    /// The files after it, if they are known.
    ghost files: { Self → List Listed };

    /// The paths of an older report that no file has had when all files have come, if they are known.
    ghost gone: { Self → List (List ℕ) };

    /// How many files were given back after their device had failed. If the count can rise no more, the files count as
    /// unknown.
    ghost faults: { Self → ℕ };

    /// How many files can still come at most.
    ghost most: { Self → ℕ };

    /// Goes to the next file. Returns whether there is one.
    fn next(&mut self) -> bool
        ensures known { known self.old ≡ true → known self.new ≡ true }
        ensures files { known self.old ≡ true → files self.old ≡ cond result (current self.new ∷ files self.new) [] }
        ensures over { known self.old ≡ true → result ≡ false → files self.new ≡ [] }
        ensures gone { known self.old ≡ true → gone self.new ≡ gone self.old }
        ensures faults { faults self.new ≡ faults self.old }
        ensures most { result ≡ true → most self.new < most self.old };

    /// The path of the file, as it is reported.
    fn path(&self) -> &str
        ensures { known self.now ≡ true → result.now ≡ (current self.now).path };

    /// The size and the time of the file, as far as they are known.
    fn stamp(&self) -> Stamp
        ensures { known self.now ≡ true → result ≡ (current self.now).stamp };

    /// What is known of the file from an older report.
    fn earlier(&self) -> Earlier
        ensures { known self.now ≡ true → result ≡ (current self.now).earlier };

    /// Whether the file can be read more than once.
    fn reads_again(&self) -> bool
        ensures { known self.now ≡ true → IfSome (current self.now).contents (λ of. result ≡ of.again) };

    /// How the whole file begins and ends, as it is stored; `None` if it cannot be read more than once.
    fn edges(&self) -> Option<Edges>
        ensures { known self.now ≡ true → AreEdges (current self.now).stored result };

    /// Whether tags of other programs are around the bytes that the file is read as; `None` if that was not looked for.
    fn tagged(&self) -> Option<bool>
        ensures { known self.now ≡ true → result ≡ (current self.now).tagged };

    /// Opens the file, to be read from its start. `None` if it cannot be opened.
    fn open(&mut self) -> Option<Self::File>
        ensures opened { known self.old ≡ true → OpensIf Self.File.Source (current self.old).contents result }
        ensures known { known self.old ≡ true → known self.new ≡ true }
        ensures current { current self.new ≡ current self.old }
        ensures files { files self.new ≡ files self.old }
        ensures gone { gone self.new ≡ gone self.old }
        ensures faults { faults self.new ≡ faults self.old }
        ensures most { most self.new ≡ most self.old };

    /// Takes an opened file back, and counts it if its device failed.
    fn close(&mut self, file: Self::File)
        ensures unfailed { known self.old ≡ true → faults self.new ≡ faults self.old →
            HasNotFailed Self.File.Source file }
        ensures kept { faults self.old ≤ faults self.new }
        ensures known { known self.old ≡ true → faults self.new ≡ faults self.old → known self.new ≡ true }
        ensures current { current self.new ≡ current self.old }
        ensures files { files self.new ≡ files self.old }
        ensures gone { gone self.new ≡ gone self.old }
        ensures most { most self.new ≡ most self.old };
}
