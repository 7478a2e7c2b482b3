//! `flac retag`: a stream with other comments.

ghost use Rattle.std.specs.Prelude.{◌≡◌, ◌≢◌, true, OnOk, IfErr, ◌↔◌, ◌≤◌};
ghost use Rattle.flac_native.specs.Retag.{not_written};
ghost use Rattle.flac_cli.specs.Asked.{texts_of};
ghost use Rattle.flac_cli.specs.Calls.{IfServed};
ghost use Rattle.flac_cli.specs.Reports.{Serves};
ghost use Rattle.flac_cli.specs.Named.{NamesRetagging};
ghost use Rattle.flac_cli.specs.Retagged.{RetagsTo};
ghost use Rattle.flac_cli.specs.inner.Outcomes.{ReturnsRetagging, ReportsRetag, ForPaths};

use crate::comments::comments_of;
use crate::report::{Paths, refuse};
use flac_bits::{Source, Target, Why};
use flac_native::{RetagFault, retag};
use std::alloc::Global;

/// Writes a stream with these words as comments in place of its own.
pub(crate) fn retag_with<R: Source, W: Target>(
    alloc: Global,
    source: &mut R,
    words: &[&str],
    target: &mut W,
) -> Result<(), RetagFault>
    ensures written { OnOk result (RetagsTo R.Source W.Target (texts_of words.now) source.old target.old target.new) }
    // If no device failed, the outcome is what the input is.
    ensures outcome { ReturnsRetagging R.Source W.Target words.now source.old source.new target.old target.new result }
    ensures served { IfErr result (λ f. Serves W.Target target.old target.new → f ≢ not_written) }
{
    let Ok(comments) = comments_of(alloc, words) else {
        return Err(RetagFault {
            at: None,
            why: Why::Memory,
        });
    };
    retag(alloc, source, &comments, target)
}

/// Whether the error is that of the file that a retagging writes.
pub(crate) fn is_of_target(fault: RetagFault) -> bool
    ensures { (result ≡ true) ↔ (fault ≡ not_written) }
{
    matches!((fault.at, fault.why), (None, Why::Write))
}

/// Writes a stream with these words as comments. Returns the status.
pub(crate) fn run_retag<R: Source, W: Target, E: Target>(
    alloc: Global,
    paths: &Paths<'_>,
    words: &[&str],
    source: &mut R,
    target: &mut W,
    err: &mut E,
) -> u8
    ensures status { result ≤ 1 }
    ensures retagged { result ≡ 0 → RetagsTo R.Source W.Target (texts_of words.now) source.old target.old target.new }
    ensures reported { ReportsRetag R.Source W.Target E.Target words.now paths.now result source target err }
    ensures named { result ≡ 1 → IfServed E.Target err.old err.new (ForPaths NamesRetagging paths.now) }
{
    match retag_with(alloc, source, words, target) {
        Ok(()) => 0,
        Err(fault) => {
            let path = paths.at_fault(is_of_target(fault));
            refuse(err, path, fault.at, fault.why)
        }
    }
}
