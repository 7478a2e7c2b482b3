//! `flac same`: the two files that are compared.

use flac_around::{Between, Trimmed};
use flac_bits::Counted;
use flac_cli::compare_files;
use flac_files::{FileRefused, Input, JobFiles};
use flac_jobs::{Comparison, Job};

/// Opens a stream that is read.
///
/// # Errors
/// It cannot be opened.
fn opened<'a>(rt: &HostRuntime, input: &'a str) -> Result<Input, FileRefused<'a>> {
    let job = Job::Test { input, lax: true };
    let files = JobFiles::open(rt, &job, false)?;
    Ok(files.input)
}

/// Compares two streams. Returns the status.
pub(crate) fn same(rt: &HostRuntime, comparison: &Comparison<'_>) -> u8 {
    let first = match opened(rt, comparison.first) {
        Ok(input) => input,
        Err(refused) => return refused.tell(rt),
    };
    let second = match opened(rt, comparison.second) {
        Ok(input) => input,
        Err(refused) => return refused.tell(rt),
    };
    let mut first = Trimmed::new(Between::new(Counted::new(first)));
    let mut second = Trimmed::new(Between::new(Counted::new(second)));
    let mut out = Counted::new(rt.stdout());
    let mut err = Counted::new(rt.stderr());
    compare_files(
        rt.alloc(),
        comparison,
        &mut first,
        &mut second,
        &mut out,
        &mut err,
    )
}
