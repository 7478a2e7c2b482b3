//! `flac verify`.

use flac_around::BetweenShelf;
use flac_bits::{Counted, Target};
use flac_cli::{Checks, report_gone, verify_files};
use flac_files::{FileShelf, ReportFile, end_report, read_older};
use flac_jobs::Verification;
use flac_shelf::{ComparedShelf, Older, ResumedShelf};

/// The files that are verified, each read between tags, without those that a report has as good, and with what an older
/// report has of them.
type VerifiedShelf = BetweenShelf<ComparedShelf<ResumedShelf<FileShelf>>>;

/// Verifies files, and those of folders. Returns the status.
pub(crate) fn verify(rt: &HostRuntime, verification: &Verification<'_>) -> u8 {
    let Ok(shelf) = FileShelf::new(rt, verification.paths.as_slice()) else {
        let _ = eprintln!(rt; "flac: command: 2 Memory");
        return 1;
    };
    match verification.against {
        Some(path) => match read_older(rt, path) {
            Ok(older) => verify_against(rt, verification, shelf, Some(older)),
            Err(refused) => refused.tell(rt),
        },
        None => verify_against(rt, verification, shelf, None),
    }
}

/// Verifies the files of a list, compared with an older report, if there is one. Returns the status.
fn verify_against(
    rt: &HostRuntime,
    verification: &Verification<'_>,
    shelf: FileShelf,
    older: Option<Older>,
) -> u8 {
    match ReportFile::open(rt, verification) {
        Ok(report) => verify_into(rt, verification, report, (shelf, older)),
        Err(refused) => refused.tell(rt),
    }
}

/// Verifies the files of a list, with a report. Returns the status.
fn verify_into(
    rt: &HostRuntime,
    verification: &Verification<'_>,
    report: ReportFile,
    files: (FileShelf, Option<Older>),
) -> u8 {
    let ReportFile { output, good } = report;
    let (shelf, older) = files;
    let shelf = ComparedShelf::new(ResumedShelf::new(shelf, good), older);
    let mut err = Counted::new(rt.stderr());
    let mut lines = Counted::new(output);
    let status = verify_all(
        rt,
        BetweenShelf::new(shelf),
        Checks {
            subset: verification.subset,
            all: verification.all,
        },
        &mut err,
        &mut lines,
    );
    if lines.last_error().is_some() {
        let path = verification.report.or(verification.resume).unwrap_or("");
        let _ = eprintln!(rt; "flac: {path}: 39 Write");
        return 1;
    }
    match end_report(rt, verification, lines.into_inner()) {
        Ok(()) => status,
        Err(refused) => refused.tell(rt),
    }
}

/// Verifies files, and reports those of an older report that were not met. Returns the status.
fn verify_all<E: Target, P: Target>(
    rt: &HostRuntime,
    mut shelf: VerifiedShelf,
    checks: Checks,
    err: &mut E,
    lines: &mut P,
) -> u8 {
    let mut out = Counted::new(rt.stdout());
    let status = verify_files(rt.alloc(), &mut shelf, checks, &mut out, err, lines);
    match shelf.into_shelf().into_older() {
        Some(mut older) => {
            if report_gone(&mut older, err) {
                return 1;
            }
            status
        }
        None => status,
    }
}
