//! Writing: the text of a cue sheet.

ghost use Rattle.std.specs.Prelude.{◌≡◌, ◌==◌, ◌≤◌, length, ◌<◌, ◌++◌, ◌∷◌, [], codes, decimal, OnOk, IfOk, flat_map};
ghost use Rattle.flac_cue.specs.Text.{padded, time_text, offset_text, place, text_of, name_byte, name_text, kind_text, index_line, track_text, catalogue_line, isrc_line, flags_line, file_line, lead_in_line, lead_out_line, ending_text, cue_text};

use crate::words::place_of;
use flac_meta::{CueIndex, CueSheet, CueTrack};
use itoa::Buffer;
use std::alloc::{AllocError, Global};

/// Adds a number in decimal digits.
fn push_number(text: &mut Vec<u8>, number: u64) -> Result<(), AllocError>
    ensures { OnOk result (text.new.items ≡ text.old.items ++ decimal number) }
{
    let mut buffer = Buffer::new();
    text.extend_from_slice(buffer.format(number).as_bytes())?;
    Ok(())
}

/// Adds a number in two digits at least.
fn push_padded(text: &mut Vec<u8>, number: u64) -> Result<(), AllocError>
    ensures { OnOk result (text.new.items ≡ text.old.items ++ padded number) }
{
    if number < 10 {
        text.push(b'0')?;
    }
    push_number(text, number)
}

/// Adds a place on a CD: minutes, seconds and frames.
fn push_time(text: &mut Vec<u8>, sample: u64) -> Result<(), AllocError>
    ensures { OnOk result (text.new.items ≡ text.old.items ++ time_text sample) }
{
    let frames = sample / 588;
    push_padded(text, frames / 4500)?;
    text.push(b':')?;
    push_padded(text, frames / 75 % 60)?;
    text.push(b':')?;
    push_padded(text, frames % 75)
}

/// Adds a place: a time on a CD, else the number of the sample.
fn push_offset(text: &mut Vec<u8>, cd: bool, sample: u64) -> Result<(), AllocError>
    ensures { OnOk result (text.new.items ≡ text.old.items ++ offset_text cd sample) }
{
    if cd {
        return push_time(text, sample);
    }
    push_number(text, sample)
}

/// Adds the line of an index point of a track that begins at this sample.
fn push_index(text: &mut Vec<u8>, cd: bool, start: u64, index: &CueIndex) -> Result<(), AllocError>
    ensures { OnOk result (text.new.items ≡ text.old.items ++ index_line cd start index.now) }
{
    text.extend_from_slice(b"    INDEX ")?;
    push_padded(text, u64::from(index.number))?;
    text.push(b' ')?;
    push_offset(text, cd, start.saturating_add(index.offset))?;
    text.push(b'\n')?;
    Ok(())
}

/// Adds the lines of index points.
fn push_indices(
    text: &mut Vec<u8>,
    cd: bool,
    start: u64,
    indices: &[CueIndex],
) -> Result<(), AllocError>
    ensures { OnOk result (text.new.items ≡ text.old.items ++ flat_map (index_line cd start) indices.now) }
{
    for index in indices {
        push_index(text, cd, start, index)?;
    }
    Ok(())
}

/// The bytes of a field before the zeros that fill it up.
pub(crate) fn text_of(field: &[u8]) -> &[u8]
    ensures { result.now ≡ text_of field.now }
{
    &field[..place_of(0, field)]
}

/// Adds the line of a recording code, if there is one.
fn push_isrc(text: &mut Vec<u8>, isrc: &[u8; 12]) -> Result<(), AllocError>
    ensures { OnOk result (text.new.items ≡ text.old.items ++ isrc_line isrc.now) }
{
    let code = text_of(isrc);
    if code.is_empty() {
        return Ok(());
    }
    text.extend_from_slice(b"    ISRC ")?;
    text.extend_from_slice(code)?;
    text.push(b'\n')?;
    Ok(())
}

/// Adds the line of the flags, if a track has pre-emphasis.
fn push_flags(text: &mut Vec<u8>, pre_emphasis: bool) -> Result<(), AllocError>
    ensures { OnOk result (text.new.items ≡ text.old.items ++ flags_line pre_emphasis) }
{
    if pre_emphasis {
        text.extend_from_slice(b"    FLAGS PRE\n")?;
    }
    Ok(())
}

/// The word for the kind of a track, and the end of its line.
fn kind_text(audio: bool) -> &'static str
    ensures { result.now ≡ kind_text audio }
{
    if audio { " AUDIO\n" } else { " DATA\n" }
}

/// Adds the lines of a track.
fn push_track(text: &mut Vec<u8>, cd: bool, track: &CueTrack) -> Result<(), AllocError>
    ensures { OnOk result (text.new.items ≡ text.old.items ++ track_text cd track.now) }
{
    text.extend_from_slice(b"  TRACK ")?;
    push_padded(text, u64::from(track.number))?;
    text.extend_from_slice(kind_text(track.audio).as_bytes())?;
    push_flags(text, track.pre_emphasis)?;
    push_isrc(text, &track.isrc)?;
    push_indices(text, cd, track.offset, track.indices.as_slice())
}

/// Adds the lines of tracks.
fn push_tracks(text: &mut Vec<u8>, cd: bool, tracks: &[CueTrack]) -> Result<(), AllocError>
    ensures { OnOk result (text.new.items ≡ text.old.items ++ flat_map (track_text cd) tracks.now) }
{
    for track in tracks {
        push_track(text, cd, track)?;
    }
    Ok(())
}

/// Adds the line of the lead-in.
fn push_lead_in(text: &mut Vec<u8>, lead_in: u64) -> Result<(), AllocError>
    ensures { OnOk result (text.new.items ≡ text.old.items ++ lead_in_line lead_in) }
{
    text.extend_from_slice(b"REM FLAC__lead-in ")?;
    push_number(text, lead_in)?;
    text.push(b'\n')?;
    Ok(())
}

/// Adds the line of the lead-out.
fn push_lead_out(text: &mut Vec<u8>, track: &CueTrack) -> Result<(), AllocError>
    ensures { OnOk result (text.new.items ≡ text.old.items ++ lead_out_line track.now) }
{
    text.extend_from_slice(b"REM FLAC__lead-out ")?;
    push_number(text, u64::from(track.number))?;
    text.push(b' ')?;
    push_number(text, track.offset)?;
    text.push(b'\n')?;
    Ok(())
}

/// Adds the line of the lead-out, of each of these tracks.
fn push_lead_outs(text: &mut Vec<u8>, tracks: &[CueTrack]) -> Result<(), AllocError>
    ensures { OnOk result (text.new.items ≡ text.old.items ++ flat_map lead_out_line tracks.now) }
{
    for track in tracks {
        push_lead_out(text, track)?;
    }
    Ok(())
}

/// Adds the lines of the tracks, and those of lead-in and lead-out.
fn push_ending(text: &mut Vec<u8>, sheet: &CueSheet) -> Result<(), AllocError>
    ensures { OnOk result
        (text.new.items ≡ text.old.items ++ ending_text sheet.now.cd sheet.now.lead_in sheet.now.tracks) }
{
    let tracks = sheet.tracks.as_slice();
    let end = tracks.len().saturating_sub(1);
    push_tracks(text, sheet.cd, &tracks[..end])?;
    push_lead_in(text, sheet.lead_in)?;
    push_lead_outs(text, &tracks[end..])
}

/// Adds the line of the catalogue number, if there is one.
fn push_catalogue(text: &mut Vec<u8>, catalogue: &[u8; 128]) -> Result<(), AllocError>
    ensures { OnOk result (text.new.items ≡ text.old.items ++ catalogue_line catalogue.now) }
{
    let number = text_of(catalogue);
    if number.is_empty() {
        return Ok(());
    }
    text.extend_from_slice(b"CATALOG ")?;
    text.extend_from_slice(number)?;
    text.push(b'\n')?;
    Ok(())
}

/// A byte of a file's name in quotation marks.
fn name_byte(byte: u8) -> u8
    ensures { result ≡ name_byte byte }
{
    if byte < b' ' || byte == b'"' {
        b'\''
    } else {
        byte
    }
}

/// Adds the bytes of a file's name.
fn push_name(text: &mut Vec<u8>, name: &[u8]) -> Result<(), AllocError>
    ensures { OnOk result (text.new.items ≡ text.old.items ++ name_text name.now) }
{
    for byte in name {
        text.push(name_byte(*byte))?;
    }
    Ok(())
}

/// Adds the line of the file.
fn push_file(text: &mut Vec<u8>, name: &[u8]) -> Result<(), AllocError>
    ensures { OnOk result (text.new.items ≡ text.old.items ++ file_line name.now) }
{
    text.extend_from_slice(b"FILE \"")?;
    push_name(text, name)?;
    text.extend_from_slice(b"\" FLAC\n")?;
    Ok(())
}

/// Adds the text of a cue sheet.
fn push_cue(text: &mut Vec<u8>, name: &[u8], sheet: &CueSheet) -> Result<(), AllocError>
    ensures { OnOk result (text.new.items ≡ text.old.items ++ cue_text name.now sheet.now) }
{
    push_catalogue(text, &sheet.catalogue)?;
    push_file(text, name)?;
    push_ending(text, sheet)
}

/// The text of a cue sheet (RFC 9639, section 8.7) of the file of this name: lines as `metaflac` exports them. Offsets are
/// minutes, seconds and frames of 588 samples in the cue sheet of a CD, in others numbers of samples. The last track is
/// the lead-out: it and the lead-in are remarks. In the name `'` stands for quotation marks and for bytes below 32.
///
/// ```
/// let text = cue_text(rt.alloc(), "album.flac", &sheet)?;
/// ```
///
/// # Errors
/// `AllocError` if an allocation fails.
pub fn cue_text(alloc: Global, name: &str, sheet: &CueSheet) -> Result<Vec<u8>, AllocError>
    ensures { IfOk result (λ text. text.items ≡ cue_text name.now sheet.now) }
{
    let mut text = Vec::new(alloc);
    push_cue(&mut text, name.as_bytes(), sheet)?;
    Ok(text)
}
