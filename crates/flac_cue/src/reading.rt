//! Reading: the cue sheet that a text says.

ghost use Rattle.std.specs.Prelude.{◌≡◌, ◌==◌, length, false, Ok, Err, IfOk, IfErr};
ghost use Rattle.flac_meta.specs.Listed.{is_bad_sheet};
ghost use Rattle.flac_cue.specs.inner.Takes.{IsFinished};
ghost use Rattle.flac_cue.specs.Reading.{lead_out, finished, without_mark, sheet_in, IfLine, lines_in, after_text};

use crate::audio::CueAudio;
use crate::fault::{CueFault, CueWhy, Wrong};
use crate::open::{Open, begin, close, push_track, take_line};
use flac_meta::{CueIndices, CueSheet, CueTrack};
use std::alloc::Global;

/// Takes the lines of a text, and returns how many there are.
fn take_lines(
    alloc: Global,
    audio: &CueAudio,
    open: &mut Open,
    text: &[u8],
) -> Result<u64, CueFault>
    ensures read { IfOk result (λ count. after_text audio.now open.old text.now ≡ Ok open.new) }
    ensures counted { IfOk result (λ count. count ≡ length (lines_in text.now)) }
    ensures refused { IfErr result (IfLine (λ line why. after_text audio.now open.old text.now ≡ Err (line, why))) }
{
    let mut count = 0;
    for (index, line) in text.split(|byte| *byte == b'\n').enumerate() {
        count = index as u64 + 1;
        match take_line(alloc, audio, open, line) {
            Ok(()) => {}
            Err(wrong) => return Err(wrong.at(count)),
        }
    }
    Ok(count)
}

/// The lead-out of a sheet.
fn lead_out(alloc: Global, audio: &CueAudio) -> CueTrack
    ensures { result ≡ lead_out audio.now }
{
    CueTrack {
        offset: audio.total,
        number: if audio.cd { 170 } else { 255 },
        isrc: [0; 12],
        audio: true,
        pre_emphasis: false,
        indices: CueIndices::from_vec(Vec::new(alloc)),
    }
}

/// The sheet after the last line.
#[tactic(auto, unfolding(crate::specs::Reading::finished))]
fn finish(alloc: Global, audio: &CueAudio, mut ended: Open) -> Result<CueSheet, Wrong>
    ensures { IsFinished (finished audio.now ended) result }
{
    if ended.track.number == 0 {
        return Err(Wrong::Rule(CueWhy::NoTrack));
    }
    close(alloc, &mut ended, lead_out(alloc, audio))?;
    let Open {
        catalogue,
        lead_in,
        mut tracks,
        track,
        next: _,
    } = ended;
    push_track(alloc, &mut tracks, track)?;
    Ok(CueSheet {
        catalogue,
        lead_in,
        cd: audio.cd,
        tracks,
    })
}

/// A text without the byte order mark of UTF-8 before it.
fn without_mark(text: &[u8]) -> &[u8]
    ensures { result.now ≡ without_mark text.now }
{
    if 3 <= text.len() && (text[0] == 0xEF && (text[1] == 0xBB && text[2] == 0xBF)) {
        return &text[3..];
    }
    text
}

/// The cue sheet that a text says.
#[tactic(auto, unfolding(crate::specs::Reading::sheet_in))]
fn sheet_in(alloc: Global, audio: &CueAudio, text: &[u8]) -> Result<CueSheet, CueFault>
    ensures read { IfOk result (λ sheet. sheet_in audio.now text.now ≡ Ok sheet) }
    ensures refused { IfErr result (IfLine (λ line why. sheet_in audio.now text.now ≡ Err (line, why))) }
{
    let mut open = begin(alloc, audio);
    let count = take_lines(alloc, audio, &mut open, without_mark(text))?;
    match finish(alloc, audio, open) {
        Ok(sheet) => Ok(sheet),
        Err(wrong) => Err(wrong.at(count)),
    }
}

/// The cue sheet that a text says of this audio (RFC 9639, section 8.7), as `metaflac` imports it: `CATALOG`, `TRACK`,
/// `FLAGS`, `ISRC` and `INDEX`, in letters of either case; of remarks `REM FLAC__lead-in` and `REM FLAC__lead-out`. Other
/// lines say nothing of a cue sheet and are passed over. Words are separated by blanks or tabs, or are in quotation marks;
/// lines end with a line feed, before which a carriage return may be. Places are times, `mm:ss:ff` of 75 frames a second,
/// or, not on a CD, numbers of samples. The lead-in has 88200 samples on a CD, 0 otherwise, if no remark says another
/// number; the lead-out is at the end of the audio. So it reads what [`crate::cue_text`] writes. The sheet has at most 255
/// tracks, and each at most 255 index points: it may be written as a block.
///
/// ```
/// let audio = CueAudio { total: 235_200, rate: 44_100, cd: true };
/// let sheet = cue_sheet(rt.alloc(), &audio, b"FILE \"a.flac\" FLAC\nTRACK 01 AUDIO\nINDEX 01 00:00:00\n")?;
/// ```
///
/// # Errors
/// - [`CueFault::Line`]: the first line that is wrong, and why. What is missing at the end is a fault of the last line.
/// - [`CueFault::Memory`]: an allocation fails.
pub fn cue_sheet(alloc: Global, audio: &CueAudio, text: &[u8]) -> Result<CueSheet, CueFault>
    ensures read { IfOk result (λ sheet. sheet_in audio.now text.now ≡ Ok sheet) }
    ensures refused { IfErr result (IfLine (λ line why. sheet_in audio.now text.now ≡ Err (line, why))) }
    ensures fits { IfOk result (λ sheet. is_bad_sheet sheet ≡ false) }
{
    sheet_in(alloc, audio, text)
}
