//! `flac verify`: reads many files, and prints a line for each.

ghost use Rattle.std.specs.Prelude.{◌≡◌, ◌≤◌, ◌↔◌, ◌||◌, true};
ghost use Rattle.flac_cli.specs.Verified.{HaveCome, IfNoneFails, FilesAreWhole};
ghost use Rattle.flac_cli.specs.Verifies.{VerifiesFiles};
ghost use Rattle.flac_cli.specs.inner.Verifying.{IsFoundAgain, IsCounted, Stays, ReadsIn, ReadsOutside, Finds, IsAllGood, IfAllGood};

use crate::verify_change::{Change, compare};
use crate::verify_facts::{Facts, FactsRead, Flaw, read_facts};
use crate::verify_lines::{report, report_end};
use crate::verify_missing::list_missing;
use crate::verify_report::{Entry, enter};
use flac_bits::{Target, Why};
use flac_native::Profile;
use flac_shelf::Shelf;
use std::alloc::Global;

/// What `flac verify` does for each file.
#[derive(Clone, Copy, Debug)]
pub struct Checks {
    /// Whether a stream must be in the streamable subset (RFC 9639, section 7).
    pub subset: bool,
    /// Whether what is missing of a native stream that is refused is listed.
    pub all: bool,
}

/// What a file was found to be.
#[derive(Drop)]
pub(crate) enum Finding {
    /// A stream.
    Good(Facts),
    /// Refused at a place, for a reason.
    Bad(Flaw),
    /// It cannot be opened.
    Unopened,
}

/// How many files there were, each count up to 2^64 - 1.
#[derive(Clone, Copy)]
pub(crate) struct Tally {
    pub(crate) files: u64,
    /// Those that are streams.
    pub(crate) good: u64,
    /// The others.
    pub(crate) bad: u64,
    /// Whether standard output took each line.
    pub(crate) is_written: bool,
    /// Whether the report did.
    pub(crate) is_reported: bool,
    /// Whether each file is as good as it was in the older report, with the same audio.
    pub(crate) is_kept: bool,
}

impl Tally {
    /// Counts a file, whose line standard output took or not; `is_entered`: the report took its line and those before.
    fn add(&mut self, finding: &Finding, change: Change, is_sent: bool, is_entered: bool)
        ensures { IsCounted finding.now change is_sent is_entered self.old self.new }
    {
        self.is_kept = self.is_kept && change.is_kept();
        self.is_written = self.is_written && is_sent;
        self.is_reported = is_entered;
        self.files = self.files.saturating_add(1);
        match finding {
            Finding::Good(_) => self.good = self.good.saturating_add(1),
            Finding::Bad(_) => self.bad = self.bad.saturating_add(1),
            Finding::Unopened => self.bad = self.bad.saturating_add(1),
        }
    }
}

/// Reads the current file in this profile.
fn read_in<S: Shelf>(alloc: Global, shelf: &mut S, profile: Profile) -> Finding
    ensures found { IfNoneFails S.known S.faults shelf.old shelf.new (ReadsIn profile (S.current shelf.old) result) }
    ensures stays { Stays S.known S.current S.files S.gone S.faults S.most shelf.old shelf.new }
{
    match shelf.open() {
        Some(file) => {
            let FactsRead { source, outcome } = read_facts(alloc, file, profile);
            shelf.close(source);
            match outcome {
                Ok(facts) => Finding::Good(facts),
                Err(flaw) => Finding::Bad(flaw),
            }
        }
        None => Finding::Unopened,
    }
}

/// Reads the current file without the limits of the streamable subset, which it does not keep.
fn read_outside<S: Shelf>(alloc: Global, shelf: &mut S) -> Finding
    ensures found { IfNoneFails S.known S.faults shelf.old shelf.new (ReadsOutside (S.current shelf.old) result) }
    ensures stays { Stays S.known S.current S.files S.gone S.faults S.most shelf.old shelf.new }
{
    match read_in(alloc, shelf, Profile::Lax) {
        Finding::Good(facts) => Finding::Good(Facts {
            outside: true,
            ..facts
        }),
        Finding::Bad(flaw) => Finding::Bad(flaw),
        Finding::Unopened => Finding::Unopened,
    }
}

/// Whether memory ran out.
pub(crate) fn is_memory(why: Why) -> bool
    ensures { (result ≡ true) ↔ (why ≡ Why.Memory) }
{
    matches!(why, Why::Memory)
}

/// Finds out what the current file is, which can be read again: first in the streamable subset, so that only a file
/// outside of it is read twice.
fn find_again<S: Shelf>(alloc: Global, shelf: &mut S) -> Finding
    ensures found { IfNoneFails S.known S.faults shelf.old shelf.new
        (IsFoundAgain (S.current shelf.old).contents result) }
    ensures stays { Stays S.known S.current S.files S.gone S.faults S.most shelf.old shelf.new }
{
    match read_in(alloc, shelf, Profile::Subset) {
        Finding::Good(facts) => Finding::Good(facts),
        Finding::Unopened => Finding::Unopened,
        Finding::Bad(flaw) => {
            if is_memory(flaw.fault.why) {
                return Finding::Bad(flaw);
            }
            read_outside(alloc, shelf)
        }
    }
}

/// Finds out what the current file is.
fn find<S: Shelf>(alloc: Global, shelf: &mut S, subset: bool) -> Finding
    ensures found { IfNoneFails S.known S.faults shelf.old shelf.new (Finds subset (S.current shelf.old) result) }
    ensures stays { Stays S.known S.current S.files S.gone S.faults S.most shelf.old shelf.new }
{
    if subset {
        return read_in(alloc, shelf, Profile::Subset);
    }
    let again = shelf.reads_again();
    if again {
        return find_again(alloc, shelf);
    }
    read_in(alloc, shelf, Profile::Lax)
}

/// Whether it is looked for that a stream is in the streamable subset.
fn is_sought(subset: bool, again: bool) -> bool
    ensures { result ≡ (subset || again) }
{
    subset || again
}

/// The status: 0 if every line was written, no file was bad, and each is as it was in the older report.
fn status_of(is_written: bool, tally: &Tally) -> u8
    ensures zero { result ≡ 0 → IsAllGood is_written tally.now }
    ensures one { IfAllGood is_written tally.now (result ≡ 0) }
    ensures most { result ≤ 1 }
{
    if is_written && tally.is_reported && tally.is_kept && tally.bad == 0 {
        0
    } else {
        1
    }
}

/// Reads the files of a list, one after another, and prints a line for each. Returns the status: 0 if each of them is a
/// stream, native or Ogg, or Ogg streams one after another (RFC 3533, section 4), and every line was written; else 1. The
/// empty packets that other programs write at the end of an Ogg stream are left out.
///
/// With [`Checks::subset`] a file must be in the streamable subset (RFC 9639, section 7); otherwise all of FLAC is
/// read.
///
/// The line of a stream is written to `out`: `ok PATH: frames N samples N`, with its numbers of frames and of
/// inter-channel samples, both up to 2^64 - 1. Several streams are counted together, and ` streams N` comes after the
/// counts. Then come these words:
///
/// - ` no-md5`, if STREAMINFO, or that of one of the streams, does not state the digest of the samples (section 8.2);
/// - ` no-total`, if it does not state their number;
/// - ` outside-subset`, if the file can be read again and a stream is not in the streamable subset;
/// - ` id3`, if the list says that tags of other programs are around the stream ([`Shelf::tagged`]).
///
/// The line of another file is written to `err`: `flac: PATH: PLACE: NUMBER NAME`, or `flac: PATH: cannot be opened`. If a
/// stream after the first is refused, it is `flac: PATH: stream N: PLACE: NUMBER NAME`, by the places of that stream.
/// Paths are printed as [`flac_shelf::shown`] gives them, so that each line is that of one file. After all files `out`
/// gets the line `verified N ok N bad N`.
///
/// With [`Checks::all`] a file that is refused is read again, whole into memory. The lines of [`flac_rescue::report`]
/// come after its own: which samples of a native stream are missing, and at which bytes, counted from the first byte
/// that the file's source gives. The line `flac: PATH: what is missing cannot be listed` is in their place:
///
/// - of an Ogg stream;
/// - if the marker or a metadata block is damaged, or too many frames are out of order;
/// - of a file that can be read only once, or that cannot be read again;
/// - if memory runs out: then the line ends with `: 2 Memory`.
///
/// If there is an older report, a word of [`Change`] ends the line of each file. The status is 1 too if a file has
/// other audio than in that report.
///
/// `report_to` gets a line of JSON (RFC 8259) for each file, as it is done: an object of the path, the status `ok`,
/// `bad` or `unopened`, and what else is known. After a line that it does not take it gets no other. `recorded_of` of
/// `flac_report` reads these lines back.
pub fn verify_files<S: Shelf, O: Target, E: Target, P: Target>(
    alloc: Global,
    shelf: &mut S,
    checks: Checks,
    out: &mut O,
    err: &mut E,
    report_to: &mut P,
) -> u8
    // The status is 0 or 1.
    ensures status { result ≤ 1 }
    // If no file's device fails: the lines say what each file is by its own bytes, in order, also those of the report;
    // after the line of a file that is refused come those of a survey of its bytes, if that is asked for. The status is
    // 0 exactly if each file is a stream or several and every line was written. Or memory ran out: then a line says that.
    ensures verified { VerifiesFiles S.Shelf O.Target E.Target P.Target checks result shelf out err report_to }
    // So after status 0 each file is a stream, or streams one after another.
    ensures streams { result ≡ 0 → FilesAreWhole S.known S.faults S.files checks.subset shelf.old shelf.new }
    // All files have come. So the paths that are left of an older report are those that no file of the list has.
    ensures gone { IfNoneFails S.known S.faults shelf.old shelf.new
        (HaveCome S.files S.gone shelf.old shelf.new) }
{
    let mut tally = Tally {
        files: 0,
        good: 0,
        bad: 0,
        is_written: true,
        is_reported: true,
        is_kept: true,
    };
    'files: while shelf.next() {
        let finding = find(alloc, shelf, checks.subset);
        let stamp = shelf.stamp();
        let change = compare(&shelf.earlier(), &stamp, &finding);
        let tagged = shelf.tagged();
        let is_sent = report(&finding, change, tagged, shelf.path(), out, err);
        let again = shelf.reads_again();
        let entry = Entry {
            path: shelf.path(),
            stamp,
            is_sought: is_sought(checks.subset, again),
            tagged,
        };
        let is_entered = enter(report_to, &entry, &finding, tally.is_reported);
        list_missing(alloc, shelf, checks.all, &finding, err);
        tally.add(&finding, change, is_sent, is_entered);
    }
    let is_written = report_end(&tally, out, err);
    status_of(is_written, &tally)
}
