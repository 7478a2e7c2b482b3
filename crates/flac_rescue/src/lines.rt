//! The lines about a stream in which something is missing.

ghost use Rattle.std.specs.Prelude.{◌≡◌, ◌<◌, ◌++◌, IfOk, OnOk, flat_map, Some};
ghost use Rattle.flac_rescue.specs.Report.{samples_line, bytes_line, gap_line, spot_text, other_line, cut_line, and_samples, of_total, last_line, lines_text, report_text};

use crate::missing::Gap;
use crate::survey::Survey;
use crate::texts::{begin, put, put_number, put_place, put_samples};
use flac_salvage::WholeFrame;
use std::alloc::{AllocError, Global};

/// Adds the line of a gap in which samples are missing.
fn put_missing(out: &mut Vec<u8>, path: &str, rate: u32, gap: &Gap) -> Result<(), AllocError>
    requires rate { 0 < rate }
    requires some { gap.now.first < gap.now.next }
    ensures { OnOk result (out.new.items ≡ out.old.items ++ samples_line path.now rate gap.now) }
{
    begin(out, path)?;
    put_place(out, gap.start, gap.end)?;
    put_samples(out, rate, gap.first, gap.next)?;
    put(out, "\n")?;
    Ok(())
}

/// Adds the line of a gap that has bytes alone.
fn put_bytes(out: &mut Vec<u8>, path: &str, gap: &Gap) -> Result<(), AllocError>
    ensures { OnOk result (out.new.items ≡ out.old.items ++ bytes_line path.now gap.now) }
{
    begin(out, path)?;
    put_place(out, gap.start, gap.end)?;
    put(out, ": no frame, no sample is missing\n")?;
    Ok(())
}

/// Adds the line of a gap.
fn put_gap(out: &mut Vec<u8>, path: &str, rate: u32, gap: &Gap) -> Result<(), AllocError>
    requires { 0 < rate }
    ensures { OnOk result (out.new.items ≡ out.old.items ++ gap_line path.now rate gap.now) }
{
    if gap.first < gap.next {
        return put_missing(out, path, rate, gap);
    }
    if gap.start < gap.end {
        return put_bytes(out, path, gap);
    }
    Ok(())
}

/// Adds the lines of gaps.
fn put_gaps(out: &mut Vec<u8>, path: &str, rate: u32, gaps: &[Gap]) -> Result<(), AllocError>
    requires { 0 < rate }
    ensures { OnOk result (out.new.items ≡ out.old.items ++ flat_map (gap_line path.now rate) gaps.now) }
{
    for gap in gaps {
        put_gap(out, path, rate, gap)?;
    }
    Ok(())
}

/// Adds where a frame stands, and its samples.
fn put_spot(out: &mut Vec<u8>, frame: &WholeFrame) -> Result<(), AllocError>
    ensures { OnOk result (out.new.items ≡ out.old.items ++ spot_text frame.now) }
{
    put(out, "frame at byte ")?;
    put_number(out, frame.at as u64)?;
    put(out, ": out of order, ")?;
    put_number(out, frame.size as u64)?;
    put(out, " samples from ")?;
    put_number(out, frame.first)?;
    Ok(())
}

/// Adds the line of a frame that is not kept.
fn put_other(out: &mut Vec<u8>, path: &str, frame: &WholeFrame) -> Result<(), AllocError>
    ensures { OnOk result (out.new.items ≡ out.old.items ++ other_line path.now frame.now) }
{
    begin(out, path)?;
    put_spot(out, frame)?;
    put(out, "\n")?;
    Ok(())
}

/// Adds the lines of frames that are not kept.
fn put_others(out: &mut Vec<u8>, path: &str, others: &[WholeFrame]) -> Result<(), AllocError>
    ensures { OnOk result (out.new.items ≡ out.old.items ++ flat_map (other_line path.now) others.now) }
{
    for frame in others {
        put_other(out, path, frame)?;
    }
    Ok(())
}

/// Adds the line of the offset at which the search ended.
fn put_end(out: &mut Vec<u8>, path: &str, at: usize) -> Result<(), AllocError>
    ensures { OnOk result (out.new.items ≡ out.old.items ++ cut_line path.now (Some at)) }
{
    begin(out, path)?;
    put(out, "searched up to byte ")?;
    put_number(out, at as u64)?;
    put(out, " only\n")?;
    Ok(())
}

/// Adds that line, if the search ended early.
fn put_cut(out: &mut Vec<u8>, path: &str, cut: Option<usize>) -> Result<(), AllocError>
    ensures { OnOk result (out.new.items ≡ out.old.items ++ cut_line path.now cut) }
{
    match cut {
        Some(at) => put_end(out, path, at),
        None => Ok(()),
    }
}

/// How many samples these frames have, at most 2^64 - 1.
fn samples_of(frames: &[WholeFrame]) -> u64
    ensures { result ≡ and_samples 0 frames.now }
{
    let mut sum: u64 = 0;
    for frame in frames {
        sum = sum.saturating_add(frame.size as u64);
    }
    sum
}

/// Adds the total, if one is stated.
fn put_total(out: &mut Vec<u8>, total: u64) -> Result<(), AllocError>
    ensures { OnOk result (out.new.items ≡ out.old.items ++ of_total total) }
{
    if total == 0 {
        return Ok(());
    }
    put(out, " of ")?;
    put_number(out, total)
}

/// Adds the last line.
fn put_last(
    out: &mut Vec<u8>,
    path: &str,
    total: u64,
    kept: &[WholeFrame],
) -> Result<(), AllocError>
    ensures { OnOk result (out.new.items ≡ out.old.items ++ last_line path.now total kept.now) }
{
    begin(out, path)?;
    put(out, "found ")?;
    let samples = samples_of(kept);
    put_number(out, samples)?;
    put_total(out, total)?;
    put(out, " samples in ")?;
    put_number(out, kept.len() as u64)?;
    put(out, " frames\n")?;
    Ok(())
}

/// The lines of these gaps and other frames of a stream, and of where the search ended.
pub(crate) fn lines_of(
    alloc: Global,
    path: &str,
    survey: &Survey,
    gaps: &[Gap],
    others: &[WholeFrame],
    cut: Option<usize>,
) -> Result<Vec<u8>, AllocError>
    ensures { IfOk result (λ text. text.items ≡ lines_text path.now survey.now gaps.now others.now cut) }
{
    let mut out = Vec::new(alloc);
    put_gaps(&mut out, path, survey.info.rate(), gaps)?;
    put_others(&mut out, path, others)?;
    put_cut(&mut out, path, cut)?;
    if !out.is_empty() {
        put_last(&mut out, path, survey.info.total(), &survey.kept)?;
    }
    Ok(out)
}

/// The lines about the stream of a file of this path: for each gap that is not empty the bytes and the samples, with
/// their times; for each whole frame that is not kept where it is; where the search ended, if it ended early; and how
/// much was found. No line if all of the stream is there.
///
/// # Errors
/// An allocation fails.
pub fn report(alloc: Global, path: &str, survey: &Survey) -> Result<Vec<u8>, AllocError>
    ensures { IfOk result (λ text. text.items ≡ report_text path.now survey.now) }
{
    lines_of(
        alloc,
        path,
        survey,
        &survey.gaps,
        &survey.others,
        survey.found.cut,
    )
}
