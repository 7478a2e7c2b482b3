//! The cue sheet that edits put into a stream.

ghost use Rattle.std.specs.Prelude.{◌≡◌, Ok, Err, IfOk, IfErr};
ghost use Rattle.flac_edit.specs.BlockEdits.{is_cd, audio_of, sheet_for, new_sheet};
ghost use Rattle.flac_edit.specs.Rewritten.{IfRefused};

use crate::block_edits::{BlockEdits, BlockFault};
use crate::rewriting_blocks::EditFault;
use flac_bits::Why;
use flac_cue::{CueAudio, CueFault, cue_sheet};
use flac_meta::{Block, CueSheet, StreamInfo};
use flac_native::RetagFault;
use std::alloc::Global;

/// Whether audio is that of a CD: its rate, depth and channels, and a whole number of frames of 588 samples.
fn is_cd(info: &StreamInfo) -> bool
    ensures { result ≡ is_cd info.now }
{
    (info.rate() == 44100 && info.depth() == 16)
        && (info.channels() <= 2 && info.total() % 588 == 0)
}

/// The audio that STREAMINFO, the first block, says; `None` if the number of its samples is unknown.
fn audio_of(blocks: &[Block]) -> Option<CueAudio>
    ensures { result ≡ audio_of blocks.now }
{
    let Some(Block::StreamInfo(info)) = blocks.first() else {
        return None;
    };
    if info.total() == 0 {
        return None;
    }
    Some(CueAudio {
        total: info.total(),
        rate: info.rate(),
        cd: is_cd(info),
    })
}

/// The cue sheet of a text.
fn sheet_for(alloc: Global, audio: Option<CueAudio>, text: &[u8]) -> Result<CueSheet, EditFault>
    ensures made { IfOk result (λ sheet. sheet_for audio text.now ≡ Ok sheet) }
    ensures refused { IfErr result (IfRefused (λ why. sheet_for audio text.now ≡ Err why)) }
{
    let Some(audio) = audio else {
        return Err(EditFault::Blocks(BlockFault::NoTotal));
    };
    match cue_sheet(alloc, &audio, text) {
        Ok(sheet) => Ok(sheet),
        Err(CueFault::Line(line, why)) => Err(EditFault::Blocks(BlockFault::CueLine(line, why))),
        Err(CueFault::Memory) => Err(EditFault::Stream(RetagFault {
            at: None,
            why: Why::Memory,
        })),
    }
}

/// The cue sheet that edits put among these blocks; `None` if they have none.
pub(crate) fn new_sheet(
    alloc: Global,
    edits: &BlockEdits<'_>,
    blocks: &[Block],
) -> Result<Option<CueSheet>, EditFault>
    ensures made { IfOk result (λ sheet. new_sheet edits.now blocks.now ≡ Ok sheet) }
    ensures refused { IfErr result (IfRefused (λ why. new_sheet edits.now blocks.now ≡ Err why)) }
{
    let Some(text) = edits.cue else {
        return Ok(None);
    };
    match sheet_for(alloc, audio_of(blocks), text) {
        Ok(sheet) => Ok(Some(sheet)),
        Err(fault) => Err(fault),
    }
}
