//! What became of a file that was edited.

use flac_files::{FileRefused, NewFile, Output, TagFile};

/// Tells what became of a file: with `verbose` prints the word for it; `None` if its refusal was printed. Returns the
/// status.
pub(crate) fn tell_edited(
    rt: &HostRuntime,
    path: &str,
    verbose: bool,
    done: Result<Option<&'static str>, FileRefused<'_>>,
) -> u8 {
    match done {
        Ok(Some(word)) if verbose => print_done(rt, path, word),
        Ok(Some(_)) => 0,
        Ok(None) => 1,
        Err(refused) => refused.tell(rt),
    }
}

/// Ends the edit of a file, to which a new one was written: with status 0 that takes its place, with the time at which
/// it was changed if that is kept. Returns what became of it; `None` after another status.
pub(crate) fn end_edit<'a>(
    rt: &HostRuntime,
    file: &TagFile<'a>,
    keep_times: bool,
    output: Output,
    ending: NewFile<'a>,
    status: u8,
) -> Result<Option<&'static str>, FileRefused<'a>> {
    let kept = if keep_times {
        file.keep_time_of(&output)
    } else {
        Ok(())
    };
    ending.end(rt, output, if kept.is_ok() { status } else { 1 })?;
    kept?;
    Ok((status == 0).then_some("rewritten"))
}

/// Prints what became of a file. Returns the status.
fn print_done(rt: &HostRuntime, path: &str, word: &str) -> u8 {
    if println!(rt; "{path}: {word}").is_err() {
        let _ = eprintln!(rt; "flac: {path}: 39 Write");
        return 1;
    }
    0
}
