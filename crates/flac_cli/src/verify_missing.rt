//! What `flac verify --all` prints of a file that is refused: what is missing of its stream.

ghost use Rattle.std.specs.Prelude.{◌≡◌, ◌↔◌, true, IfOk, IfErr, codes};
ghost use Rattle.flac_rescue.specs.Placed.{left_text};
ghost use Rattle.flac_rescue.specs.Survey.{IsSurvey};
ghost use Rattle.flac_shelf.specs.Shown.{shown};
ghost use Rattle.flac_cli.specs.Missing.{IsOutOfMemory, IsSaidOf, asks_missing};
ghost use Rattle.flac_cli.specs.inner.Missing.{line_for, AreLinesAbout, IsUnsurveyed, IsUnlisted, HasContents, IsUnreadFile, SaysAgain, IsUnsaid, SaysListed, ListsMissing, ListsIfAsked, OkOfCurrent, ErrOfCurrent};
ghost use Rattle.flac_cli.specs.inner.Verifying.{IsTold, Stays};

use crate::lines::At;
use crate::verify::{Finding, is_memory};
use crate::verify_lines::tell_bad;
use flac_bits::{Target, Why, send_all};
use flac_rescue::{Survey, SurveyFault, report_left, survey_bytes};
use flac_shelf::{Shelf, shown};
use flac_wave::read_all;
use flac_whole_pages::{Left, left_of};
use std::alloc::{AllocError, Global};

/// Why it is not said what is missing of a file.
#[derive(Clone, Copy)]
enum Unlisted {
    /// The file cannot be read again, or its bytes are refused by a survey.
    Unsurveyed,
    /// Memory ran out.
    Memory,
}

impl Unlisted {
    /// Why it is not said of a file that is not read, or whose metadata blocks are not, for this reason.
    fn of(why: Why) -> Unlisted
        ensures { (result ≡ Unlisted.Memory) ↔ (why ≡ Why.Memory) }
    {
        if is_memory(why) {
            Unlisted::Memory
        } else {
            Unlisted::Unsurveyed
        }
    }

    /// Why it is not said of bytes that are not surveyed.
    fn of_survey(fault: SurveyFault) -> Unlisted
        ensures { (result ≡ Unlisted.Memory) ↔ IsOutOfMemory fault }
    {
        match fault {
            SurveyFault::Head(fault) => Unlisted::of(fault.why),
            SurveyFault::Memory => Unlisted::Memory,
            SurveyFault::Unordered => Unlisted::Unsurveyed,
        }
    }

    /// What is printed of the file.
    fn text(self) -> &'static str
        ensures unsurveyed { self ≡ Unlisted.Unsurveyed → result.now ≡ codes "what is missing cannot be listed" }
        ensures memory { self ≡ Unlisted.Memory → result.now ≡ codes "what is missing cannot be listed: 2 Memory" }
    {
        match self {
            Unlisted::Unsurveyed => "what is missing cannot be listed",
            Unlisted::Memory => "what is missing cannot be listed: 2 Memory",
        }
    }
}

/// A survey of a native stream of these bytes.
fn survey_of(alloc: Global, bytes: &[u8]) -> Result<Survey, Unlisted>
    ensures survey { IfOk result (λ survey. IsSurvey bytes.now survey) }
    ensures unlisted { IfErr result (IsUnsurveyed bytes.now) }
{
    match survey_bytes(alloc, bytes) {
        Ok(survey) => Ok(survey),
        Err(fault) => Err(Unlisted::of_survey(fault)),
    }
}

/// The lines of a survey of the file of this path, of which this is left.
fn lines_of(alloc: Global, path: &str, left: &Left, survey: &Survey) -> Result<Vec<u8>, AllocError>
    ensures { IfOk result (λ text. text.items ≡ left_text (shown path.now) left.now survey.now) }
{
    let name = shown(alloc, path)?;
    report_left(alloc, name.as_str(), left, survey)
}

/// The lines about what is left of a stream.
fn lines_about(alloc: Global, path: &str, left: &Left) -> Result<Vec<u8>, Unlisted>
    ensures lines { IfOk result (λ text. AreLinesAbout path.now left.now text.items) }
    ensures unlisted { IfErr result (IsUnsurveyed left.now.bytes.items) }
{
    match survey_of(alloc, &left.bytes) {
        Ok(survey) => match lines_of(alloc, path, left, &survey) {
            Ok(text) => Ok(text),
            Err(_) => Err(Unlisted::Memory),
        },
        Err(unlisted) => Err(unlisted),
    }
}

/// The lines about the stream in these bytes: of all of them, or of the whole pages of an Ogg stream.
fn lines_in(alloc: Global, path: &str, bytes: Vec<u8>) -> Result<Vec<u8>, Unlisted>
    ensures lines { IfOk result (λ text. IsSaidOf path.now bytes.items text.items) }
    ensures unlisted { IfErr result (λ e. IsSaidOf path.now bytes.items (line_for path.now e)) }
{
    match left_of(alloc, bytes) {
        Ok(left) => lines_about(alloc, path, &left),
        Err(_) => Err(Unlisted::Memory),
    }
}

/// The bytes of the current file, read again.
fn bytes_of<S: Shelf>(alloc: Global, shelf: &mut S) -> Result<Vec<u8>, Unlisted>
    ensures read { OkOfCurrent S.known S.faults S.current shelf.old shelf.new HasContents result }
    ensures unread { ErrOfCurrent S.known S.faults S.current shelf.old shelf.new IsUnreadFile result }
    ensures stays { Stays S.known S.current S.files S.gone S.faults S.most shelf.old shelf.new }
{
    match shelf.open() {
        Some(mut file) => match read_all(alloc, &mut file) {
            Ok(bytes) => {
                shelf.close(file);
                Ok(bytes)
            }
            Err(why) => {
                shelf.close(file);
                Err(Unlisted::of(why))
            }
        },
        None => Err(Unlisted::Unsurveyed),
    }
}

/// The lines about the current file, which is read again.
fn survey_again<S: Shelf>(alloc: Global, shelf: &mut S) -> Result<Vec<u8>, Unlisted>
    ensures lines { OkOfCurrent S.known S.faults S.current shelf.old shelf.new SaysAgain result }
    ensures unlisted { ErrOfCurrent S.known S.faults S.current shelf.old shelf.new IsUnsaid result }
    ensures stays { Stays S.known S.current S.files S.gone S.faults S.most shelf.old shelf.new }
{
    match bytes_of(alloc, shelf) {
        Ok(bytes) => lines_in(alloc, shelf.path(), bytes),
        Err(unlisted) => Err(unlisted),
    }
}

/// The lines about the current file, if it can be read again.
fn survey<S: Shelf>(alloc: Global, shelf: &mut S) -> Result<Vec<u8>, Unlisted>
    ensures lines { OkOfCurrent S.known S.faults S.current shelf.old shelf.new SaysListed result }
    ensures unlisted { ErrOfCurrent S.known S.faults S.current shelf.old shelf.new IsUnlisted result }
    ensures stays { Stays S.known S.current S.files S.gone S.faults S.most shelf.old shelf.new }
{
    let again = shelf.reads_again();
    if again {
        return survey_again(alloc, shelf);
    }
    Err(Unlisted::Unsurveyed)
}

/// Sends lines.
fn tell_all<E: Target>(err: &mut E, text: &[u8])
    ensures { IsTold E.Target text.now err.old err.new }
{
    // If they cannot be written, there is no one left to report it to.
    let _ = send_all(err, text);
}

/// Prints what is missing of the current file.
fn tell_missing<S: Shelf, E: Target>(alloc: Global, shelf: &mut S, err: &mut E)
    ensures told { ListsMissing S.known S.faults S.current E.Target true shelf.old shelf.new err.old err.new }
    ensures stays { Stays S.known S.current S.files S.gone S.faults S.most shelf.old shelf.new }
{
    match survey(alloc, shelf) {
        Ok(text) => tell_all(err, &text),
        Err(unlisted) => tell_bad(err, shelf.path(), 0, At::Whole, unlisted.text(), ""),
    }
}

/// Whether it is printed what is missing of a file that was found to be this.
fn asks_missing(all: bool, finding: &Finding) -> bool
    ensures { result ≡ asks_missing all finding.now }
{
    match finding {
        Finding::Good(_) => false,
        Finding::Bad(_) => all,
        Finding::Unopened => false,
    }
}

/// Prints what is missing of the current file, if that is asked for and the file was refused.
pub(crate) fn list_missing<S: Shelf, E: Target>(
    alloc: Global,
    shelf: &mut S,
    all: bool,
    finding: &Finding,
    err: &mut E,
)
    ensures told { ListsIfAsked S.known S.faults S.current E.Target all finding.now
        shelf.old shelf.new err.old err.new }
    ensures stays { Stays S.known S.current S.files S.gone S.faults S.most shelf.old shelf.new }
{
    if asks_missing(all, finding) {
        tell_missing(alloc, shelf, err);
    }
}
