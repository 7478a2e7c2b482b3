//! `flac salvage`: a stream of what is left of a damaged one.

ghost use Rattle.std.specs.Prelude.{◌≡◌, ◌≢◌, ◌≤◌, ◌⊎◌, ◌∷◌, ◌++◌, [], true, Some, None, IfOk, IfErr, OnOk, OnErr};
ghost use Rattle.flac_meta.specs.declared.block.Block.{Block};
ghost use Rattle.flac_native.specs.Sent.{TargetFailed};
ghost use Rattle.flac_rescue.specs.Placed.{left_text};
ghost use Rattle.flac_rescue.specs.Survey.{IsSurvey};
ghost use Rattle.flac_rescue.specs.declared.survey.Survey.{Survey};
ghost use Rattle.flac_whole_pages.specs.Left.{IsNativeLeft};
ghost use Rattle.flac_cli.specs.Asked.{asked_of};
ghost use Rattle.flac_cli.specs.Calls.{IfServed, IfAllServe, IfKnown};
ghost use Rattle.flac_cli.specs.Recoded.{carried};
ghost use Rattle.flac_cli.specs.RecodeRefusals.{IsOutside, NamesRecoding};
ghost use Rattle.flac_cli.specs.Salvages.{salvage_asks, salvage_files, fills, keeps_wave, lack, is_shorter, fitting, salvage_refusal, IsSalvageReason, RefusesSalvage, SalvagesFile, BeginsSalvage, CanBeSalvaged, TellsMissing};
ghost use Rattle.flac_cli.specs.declared.encode.Refusal.TheVariants as refusal;
ghost use Rattle.flac_cli.specs.declared.recode.RecodeRefusal.TheVariants.{Refused};
ghost use Rattle.flac_cli.specs.inner.Salvaging.{HoldsLeft, IsTooMuchSilence, AreLinesOf, AreLinesFor, SalvagesBytes, BeginsBytes, SalvagesTo, BeginsTo, IsSalvageError};
ghost use Rattle.flac_cli.specs.inner.Recoding.{not_written};

use crate::encode::{Encoding, Refusal, write_stream};
use crate::held_stream::{HeldStream, keep_block};
use crate::held_wave::is_riff;
use crate::recode::{RecodeRefusal, encoding_of, ready_of, refuse_recoding};
use crate::searching::searched;
use flac_bits::{Source, Target, Why, send_all};
use flac_frame::SetupFault;
use flac_jobs::{Filling, Salvage};
use flac_meta::Block;
use flac_native::EncodeFault;
use flac_rescue::{
    Gap, SalvageFault, Survey, SurveyFault, report_left, salvage_samples, survey_bytes,
};
use flac_wave::read_all;
use flac_whole_pages::{Left, left_of};
use std::alloc::{AllocError, Global};

impl From<SurveyFault> for RecodeRefusal {
    ghost use Rattle.flac_cli.specs.Salvages.{survey_refusal};

    ghost from_gives = { λ fault e. e ≡ survey_refusal fault };

    fn from(fault: SurveyFault) -> RecodeRefusal {
        match fault {
            SurveyFault::Head(fault) => RecodeRefusal::Unread(fault),
            SurveyFault::Memory => RecodeRefusal::Refused(Refusal::Input(Why::Memory)),
            SurveyFault::Unordered => RecodeRefusal::Refused(Refusal::Input(Why::Sequence)),
        }
    }
}

impl From<SalvageFault> for RecodeRefusal {
    ghost use Rattle.flac_cli.specs.Salvages.{salvage_refusal};

    ghost from_gives = { λ fault e. e ≡ salvage_refusal fault };

    fn from(fault: SalvageFault) -> RecodeRefusal {
        match fault {
            SalvageFault::Memory => RecodeRefusal::Refused(Refusal::Input(Why::Memory)),
            SalvageFault::TooLong => RecodeRefusal::Refused(Refusal::Setup(SetupFault::TooLong)),
        }
    }
}

/// What is left of a native stream in an input.
fn left_in(alloc: Global, bytes: Vec<u8>) -> Result<Left, Why>
    ensures left { IfOk result (λ left. IsNativeLeft bytes.items left) }
    ensures memory { IfErr result (λ e. e ≡ Why.Memory) }
{
    let left = left_of(alloc, bytes)?;
    Ok(left)
}

/// The lines of what is missing of the stream of a file of this path, of which this is left.
fn lines_of(alloc: Global, path: &str, left: &Left, survey: &Survey) -> Result<Vec<u8>, Why>
    ensures lines { IfOk result (λ text. text.items ≡ left_text path.now left.now survey.now) }
    ensures memory { IfErr result (λ e. e ≡ Why.Memory) }
{
    let text = report_left(alloc, path, left, survey)?;
    Ok(text)
}

/// Whether a block keeps a piece of a WAV file.
fn keeps_wave(block: &Block) -> bool
    ensures { result ≡ keeps_wave block.now }
{
    match block {
        Block::Application { id, bytes: _ } => is_riff(id),
        _ => false,
    }
}

/// Whether samples are missing in one of these gaps.
fn lack(gaps: &[Gap]) -> bool
    ensures { result ≡ lack gaps.now }
{
    for gap in gaps {
        if gap.first < gap.next {
            return true;
        }
    }
    false
}

/// Whether fewer samples are written than there were.
fn is_shorter(silence: bool, survey: &Survey) -> bool
    ensures shorter { result ≡ is_shorter silence survey.now }
{
    !silence && lack(&survey.gaps)
}

/// Keeps a copy of a block that fits what is written, unless it is STREAMINFO or a seek table.
fn keep_fitting(blocks: &mut Vec<Block>, block: &Block, shorter: bool) -> Result<(), AllocError>
    ensures { OnOk result (blocks.new.items ≡ blocks.old.items ++ carried (fitting shorter (block.now ∷ []))) }
{
    if shorter && keeps_wave(block) {
        return Ok(());
    }
    keep_block(blocks, block)
}

/// Copies of the blocks that fit what is written, in their order, without STREAMINFO and the seek table. A WAV file
/// that is kept states how many samples it has: it does not fit fewer.
///
/// # Errors
/// [`Why::Memory`] if an allocation fails.
fn fitting_blocks(alloc: Global, blocks: &[Block], shorter: bool) -> Result<Vec<Block>, Why>
    ensures kept { IfOk result (λ kept. kept.items ≡ carried (fitting shorter blocks.now)) }
    ensures memory { IfErr result (λ e. e ≡ Why.Memory) }
{
    let mut kept = Vec::new(alloc);
    for block in blocks {
        keep_fitting(&mut kept, block, shorter)?;
    }
    Ok(kept)
}

/// Holds what was found of a stream: the samples of the frames that are kept, with what fills the gaps.
fn held_of(
    alloc: Global,
    bytes: &[u8],
    survey: &Survey,
    silence: bool,
) -> Result<HeldStream, RecodeRefusal>
    requires { IsSurvey bytes.now survey.now }
    ensures held { IfOk result (λ held. HoldsLeft silence bytes.now survey.now held) }
    ensures refused { IfErr result (λ e. IsTooMuchSilence silence survey.now e) }
    ensures unwritten { IfErr result (λ e. e ≢ Refused (refusal.Output EncodeFault.Write)) }
{
    let channels = salvage_samples(alloc, bytes, survey, silence)?;
    let shorter = is_shorter(silence, survey);
    let blocks = fitting_blocks(alloc, &survey.blocks, shorter)?;
    Ok(HeldStream {
        info: Some(survey.info),
        blocks,
        channels,
    })
}

/// Encodes what was found of a stream, and writes it. After an error, nothing or a prefix of the stream was sent.
///
/// # Errors
/// The first reason for which it cannot be encoded as asked for; an error of the target, or out of memory.
fn write_left<W: Target>(
    alloc: Global,
    encoding: &Encoding<'_>,
    bytes: &[u8],
    survey: &Survey,
    silence: bool,
    target: &mut W,
) -> Result<(), RecodeRefusal>
    requires { IsSurvey bytes.now survey.now }
    ensures written { OnOk result (SalvagesBytes W.Target encoding.now silence bytes.now target.old target.new) }
    ensures begun { OnErr result (BeginsBytes W.Target encoding.now silence bytes.now target.old target.new) }
    ensures accepted { OnOk result (IsSalvageReason (asked_of encoding.now) silence bytes.now None) }
    ensures refused { IfErr result (λ e.
        IsOutside e ⊎ IsSalvageReason (asked_of encoding.now) silence bytes.now (Some e)) }
    ensures failed { IfErr result (λ e. e ≡ not_written → TargetFailed W.Target target.old target.new) }
{
    let held = held_of(alloc, bytes, survey, silence)?;
    let ready = ready_of(alloc, encoding, Vec::new(alloc), held)?;
    let tried = searched(alloc, encoding.effort, ready.plan, &ready.audio)?;
    write_stream(
        alloc,
        encoding.container,
        &tried,
        &ready.list,
        &ready.audio,
        target,
    )?;
    Ok(())
}

/// Does what [`write_left`] does with what is found in what is left of a stream, and returns the lines of what is
/// missing.
///
/// # Errors
/// Those of [`survey_bytes`] and of [`write_left`].
fn salvage_left<W: Target>(
    alloc: Global,
    encoding: &Encoding<'_>,
    path: &str,
    left: &Left,
    silence: bool,
    target: &mut W,
) -> Result<Vec<u8>, RecodeRefusal>
    ensures written { OnOk result (SalvagesBytes W.Target encoding.now silence left.now.bytes.items
        target.old target.new) }
    ensures lines { IfOk result (λ text. AreLinesOf path.now text.items left.now) }
    ensures begun { OnErr result (BeginsBytes W.Target encoding.now silence left.now.bytes.items
        target.old target.new) }
    ensures accepted { OnOk result (IsSalvageReason (asked_of encoding.now) silence left.now.bytes.items None) }
    ensures refused { IfErr result (λ e.
        IsOutside e ⊎ IsSalvageReason (asked_of encoding.now) silence left.now.bytes.items (Some e)) }
    ensures failed { IfErr result (λ e. e ≡ not_written → TargetFailed W.Target target.old target.new) }
{
    let bytes = left.bytes.as_slice();
    let survey = survey_bytes(alloc, bytes)?;
    let text = lines_of(alloc, path, left, &survey)?;
    write_left(alloc, encoding, bytes, &survey, silence, target)?;
    Ok(text)
}

/// Whether missing samples are silence.
fn fills(filling: Filling) -> bool
    ensures { result ≡ fills filling }
{
    match filling {
        Filling::Silence => true,
        Filling::Nothing => false,
    }
}

/// Reads all bytes of a source, and does what [`salvage_left`] does with what is left of a stream in them.
fn salvage_source<R: Source, W: Target>(
    alloc: Global,
    encoding: &Encoding<'_>,
    salvage: &Salvage<'_>,
    source: &mut R,
    target: &mut W,
) -> Result<Vec<u8>, RecodeRefusal>
    ensures written { OnOk result (SalvagesTo R.Source W.Target encoding.now salvage.now
        source.old target.old target.new) }
    ensures lines { IfOk result (λ text. IfKnown R.Source source.old (AreLinesFor salvage.now.input.now text.items)) }
    ensures begun { OnErr result (BeginsTo R.Source W.Target encoding.now salvage.now
        source.old target.old target.new) }
    ensures accepted { OnOk result (IfKnown R.Source source.old (CanBeSalvaged (asked_of encoding.now) salvage.now)) }
    ensures refused { IfErr result (λ e. IsSalvageError R.Source encoding.now salvage.now source.old source.new e) }
    ensures failed { IfErr result (λ e. e ≡ not_written → TargetFailed W.Target target.old target.new) }
{
    let bytes = read_all(alloc, source)?;
    let left = left_in(alloc, bytes)?;
    let silence = fills(salvage.filling);
    let text = salvage_left(alloc, encoding, salvage.input, &left, silence, target)?;
    Ok(text)
}

/// Writes a stream of what is left of a stream, damaged or not, native or in Ogg, also outside the streamable subset.
/// Returns the exit status: 0 if the new stream is written, whatever is missing, else 1.
///
/// All bytes of the stream are held. An input that does not begin with the marker `fLaC` is searched for whole Ogg
/// pages; what those of its first stream of FLAC hold is what is left ([`left_of`]). The whole frames in it that belong
/// together are decoded, and their samples are encoded anew, with the same metadata blocks but for STREAMINFO and the
/// seek table. What is missing is silence; or it is left out, and so are the blocks that keep a WAV file.
///
/// `source` is the stream, `target` the file that is written, `err` is standard error. After status 0 the lines of
/// [`report`] were written to `err`: what is missing, none if nothing is. After status 1 it was the line of the error:
///
/// - the fault of the marker or of a metadata block;
/// - 18 if its frames are out of order, and too many;
/// - 45 if there would be too much silence;
/// - else those of [`recode_file`](crate::recode_file).
pub fn salvage_file<R: Source, W: Target, E: Target>(
    alloc: Global,
    salvage: &Salvage<'_>,
    source: &mut R,
    target: &mut W,
    err: &mut E,
) -> u8
    // The status is 0 or 1.
    ensures status { result ≤ 1 }
    // After status 0 exactly one stream of what is left was added to the target.
    ensures salvaged { result ≡ 0 → SalvagesFile R.Source W.Target salvage.now source.old target.old target.new }
    // After status 0 the lines of what is missing were added to standard error, if that did not fail.
    ensures told { result ≡ 0 → TellsMissing R.Source E.Target salvage.now source.old err.old err.new }
    // After status 0 there was no reason to refuse it.
    ensures accepted { result ≡ 0 → IfKnown R.Source source.old (CanBeSalvaged (salvage_asks salvage.now) salvage.now) }
    // After status 1 nothing was added to the target, or a prefix of such a stream.
    ensures begun { result ≡ 1 → BeginsSalvage R.Source W.Target salvage.now source.old target.old target.new }
    // After status 1, if no device failed, the line of the first reason to refuse it was added to standard error; or
    // memory ran out, and the line says that.
    ensures refused { result ≡ 1 →
        IfAllServe R.Source W.Target E.Target source target err (RefusesSalvage salvage.now) }
    // After status 1, whatever failed, its line was added to standard error, if that did not fail. It names the output
    // if that could not be written (39), and else the input.
    ensures named { result ≡ 1 → IfServed E.Target err.old err.new (NamesRecoding (salvage_files salvage.now)) }
{
    let recoding = salvage.to_recoding();
    let encoding = encoding_of(&recoding, &[]);
    match salvage_source(alloc, &encoding, salvage, source, target) {
        Ok(text) => {
            // If it cannot be written, there is no one left to report it to.
            let _ = send_all(err, &text);
            0
        }
        Err(refused) => refuse_recoding(alloc, err, &recoding, refused),
    }
}
