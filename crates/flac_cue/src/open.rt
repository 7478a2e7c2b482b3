//! The cue sheet that is being read: what each line adds to it.

ghost use Rattle.std.specs.Prelude.{◌≡◌, ◌≤◌, ◌++◌, ◌∷◌, [], OnOk, IfOk, IfSome, is_some, not, ◌&&◌, codes, nat_eq, length, true};
ghost use Rattle.flac_cue.specs.inner.Takes.{Takes, Closes};
ghost use Rattle.flac_cue.specs.Words.{is_digit};
ghost use Rattle.flac_cue.specs.Reading.{zeros, field_of, is, is_set, are_digits, are_printable, is_catalogue, after_catalogue, greatest, may_follow, closed, new_track, after_track_number, after_track, is_begun, is_pre, has_pre, after_flags, are_alphanumeric, after_isrc, next_index, sample_of_time, sample_of, start_of, with_index, after_index_at, after_index, after_lead_in, after_lead_out, after_remark, after_command, after_line, begun};

use crate::audio::CueAudio;
use crate::fault::{CueWhy, Wrong};
use crate::text::text_of;
use crate::words::{after_word, number_of, time_of, word_of};
use flac_meta::{CueIndex, CueIndices, CueTrack, CueTracks};
use std::alloc::{AllocError, Global};
use std::mem;

/// What the lines so far say.
#[derive(Debug, Drop)]
pub(crate) struct Open {
    /// The media catalogue number.
    pub catalogue: [u8; 128],
    /// The samples of the lead-in.
    pub lead_in: u64,
    /// The tracks that are complete.
    pub tracks: CueTracks,
    /// The track that is being read; its number is 0 before the first one.
    pub track: CueTrack,
    /// The first sample that the next index point may have.
    pub next: u64,
}

/// Whether a word is this name, in letters of either case.
fn is(name: &[u8], word: &[u8]) -> bool
    ensures { result ≡ is name.now word.now }
{
    word.eq_ignore_ascii_case(name)
}

/// Whether a field is not empty.
fn is_set(field: &[u8]) -> bool
    ensures { result ≡ is_set field.now }
{
    !text_of(field).is_empty()
}

/// Whether a byte is a decimal digit.
fn is_digit(byte: u8) -> bool
    ensures { result ≡ is_digit byte }
{
    48 <= byte && byte <= 57
}

/// Whether each byte is a decimal digit.
fn are_digits(word: &[u8]) -> bool
    ensures { result ≡ are_digits word.now }
{
    for byte in word {
        if !is_digit(*byte) {
            return false;
        }
    }
    true
}

/// Whether each byte is a printable character.
fn are_printable(word: &[u8]) -> bool
    ensures { result ≡ are_printable word.now }
{
    for byte in word {
        if !(32 <= *byte && *byte <= 126) {
            return false;
        }
    }
    true
}

/// Whether each byte is a digit or a capital letter.
fn are_alphanumeric(word: &[u8]) -> bool
    ensures { result ≡ are_alphanumeric word.now }
{
    for byte in word {
        if !(is_digit(*byte) || (65 <= *byte && *byte <= 90)) {
            return false;
        }
    }
    true
}

/// Whether a word is a catalogue number.
#[tactic(auto, unfolding(crate::specs::Reading::is_catalogue))]
fn is_catalogue(cd: bool, word: &[u8]) -> bool
    ensures value { result ≡ is_catalogue cd word.now }
    ensures fits { result ≡ true → length word.now ≤ 128 }
{
    if cd {
        return word.len() == 13 && are_digits(word);
    }
    (0 < word.len() && word.len() <= 128) && are_printable(word)
}

/// A field that begins with a word, and is filled up with zeros.
fn catalogue_of(word: &[u8]) -> [u8; 128]
    requires { length word.now ≤ 128 }
    ensures { result ≡ field_of 128 word.now }
{
    let mut field = [0; 128];
    field[..word.len()].copy_from_slice(word);
    field
}

/// Takes the catalogue number.
#[tactic(auto, unfolding(crate::specs::Reading::after_catalogue))]
fn take_catalogue(audio: &CueAudio, open: &mut Open, rest: &[u8]) -> Result<(), Wrong>
    ensures { Takes result open.new (after_catalogue audio.now open.old rest.now) }
{
    let word = word_of(rest);
    if !is_set(&open.catalogue) && is_catalogue(audio.cd, word) {
        open.catalogue = catalogue_of(word);
        return Ok(());
    }
    Err(Wrong::Rule(CueWhy::Catalogue))
}

/// The greatest number of a track and of an index point.
fn greatest(cd: bool) -> u64
    ensures { result ≡ greatest cd }
{
    if cd { 99 } else { 254 }
}

/// Whether a track of this number may follow one of that number.
fn may_follow(cd: bool, last: u8, next: u64) -> bool
    ensures value { result ≡ may_follow cd last next }
    ensures small { result ≡ true → next ≤ 254 }
{
    (0 < next && next <= greatest(cd)) && (last == 0 || next == u64::from(last) + 1)
}

/// A track without index points.
fn new_track(alloc: Global, number: u8, audio: bool) -> CueTrack
    ensures { result ≡ new_track number audio }
{
    CueTrack {
        offset: 0,
        number,
        isrc: [0; 12],
        audio,
        pre_emphasis: false,
        indices: CueIndices::from_vec(Vec::new(alloc)),
    }
}

/// Adds a track to a list.
pub(crate) fn push_track(
    alloc: Global,
    tracks: &mut CueTracks,
    track: CueTrack,
) -> Result<(), AllocError>
    ensures { OnOk result (tracks.new ≡ tracks.old ++ track ∷ []) }
{
    let mut items = mem::replace(tracks, CueTracks::from_vec(Vec::new(alloc))).into_vec();
    items.push(track)?;
    *tracks = CueTracks::from_vec(items);
    Ok(())
}

/// Adds an index point to a list.
fn push_index(alloc: Global, indices: &mut CueIndices, index: CueIndex) -> Result<(), AllocError>
    ensures { OnOk result (indices.new ≡ indices.old ++ index ∷ []) }
{
    let mut items = mem::replace(indices, CueIndices::from_vec(Vec::new(alloc))).into_vec();
    items.push(index)?;
    *indices = CueIndices::from_vec(items);
    Ok(())
}

/// Ends the track that is being read, and begins another one in its place.
#[tactic(auto, unfolding(crate::specs::Reading::closed))]
pub(crate) fn close(alloc: Global, open: &mut Open, next: CueTrack) -> Result<(), Wrong>
    ensures { Closes result open.old open.new next (closed open.old) }
{
    let track = mem::replace(&mut open.track, next);
    if track.number == 0 {
        return Ok(());
    }
    if track.indices.is_empty() {
        return Err(Wrong::Rule(CueWhy::NoIndex));
    }
    push_track(alloc, &mut open.tracks, track)?;
    Ok(())
}

/// Takes a track of this number and kind.
#[tactic(auto, unfolding(crate::specs::Reading::after_track_number))]
fn take_track_number(
    alloc: Global,
    audio: &CueAudio,
    open: &mut Open,
    number: u64,
    kind: &[u8],
) -> Result<(), Wrong>
    ensures { Takes result open.new (after_track_number audio.now open.old number kind.now) }
{
    if may_follow(audio.cd, open.track.number, number) && !kind.is_empty() {
        let next = new_track(alloc, number as u8, is(b"AUDIO", kind));
        return close(alloc, open, next);
    }
    Err(Wrong::Rule(CueWhy::Track))
}

/// Takes a track.
#[tactic(auto, unfolding(crate::specs::Reading::after_track))]
fn take_track(alloc: Global, audio: &CueAudio, open: &mut Open, rest: &[u8]) -> Result<(), Wrong>
    ensures { Takes result open.new (after_track audio.now open.old rest.now) }
{
    match number_of(word_of(rest)) {
        Some(number) => { take_track_number(alloc, audio, open, number, word_of(after_word(rest))) }
        None => Err(Wrong::Rule(CueWhy::Track)),
    }
}

/// Whether a track has begun, and has no index point yet.
fn is_begun(open: &Open) -> bool
    ensures { result ≡ is_begun open.now }
{
    open.track.number != 0 && open.track.indices.is_empty()
}

/// Whether the first flag is pre-emphasis.
fn is_pre(flags: &[u8]) -> bool
    ensures { result ≡ is_pre flags.now }
{
    is(b"PRE", word_of(flags))
}

/// Whether pre-emphasis is among flags.
fn has_pre(flags: &[u8]) -> bool
    ensures { result ≡ has_pre flags.now }
{
    let second = after_word(flags);
    let third = after_word(second);
    let fourth = after_word(third);
    is_pre(flags) || (is_pre(second) || (is_pre(third) || is_pre(fourth)))
}

/// Takes the flags of a track.
#[tactic(auto, unfolding(crate::specs::Reading::after_flags))]
fn take_flags(open: &mut Open, rest: &[u8]) -> Result<(), Wrong>
    ensures { Takes result open.new (after_flags open.old rest.now) }
{
    if is_begun(open) {
        open.track.pre_emphasis = has_pre(rest);
        return Ok(());
    }
    Err(Wrong::Rule(CueWhy::Flags))
}

/// A word as a recording code; `None` if it is none.
fn isrc_of(word: &[u8]) -> Option<[u8; 12]>
    ensures value { IfSome result (λ code. code ≡ word.now) }
    ensures which { is_some result ≡ (nat_eq (length word.now) 12 && are_alphanumeric word.now) }
{
    if !are_alphanumeric(word) {
        return None;
    }
    <[u8; 12]>::try_from(word).ok()
}

/// Takes the recording code of a track.
#[tactic(auto, unfolding(crate::specs::Reading::after_isrc))]
fn take_isrc(open: &mut Open, rest: &[u8]) -> Result<(), Wrong>
    ensures { Takes result open.new (after_isrc open.old rest.now) }
{
    if is_begun(open) && !is_set(&open.track.isrc) {
        if let Some(isrc) = isrc_of(word_of(rest)) {
            open.track.isrc = isrc;
            return Ok(());
        }
    }
    Err(Wrong::Rule(CueWhy::Isrc))
}

/// Whether an index point of this number may follow these.
#[tactic(auto, unfolding(crate::specs::Reading::next_index))]
fn next_index(cd: bool, indices: &[CueIndex], number: u64) -> bool
    ensures value { result ≡ next_index cd indices.now number }
    ensures small { result ≡ true → number ≤ 254 }
{
    match indices {
        [first, ..] => {
            number <= greatest(cd)
                && number == u64::from(first.number).saturating_add(indices.len() as u64)
        }
        [] => number <= 1,
    }
}

/// The sample of a time, if a frame has a whole number of samples.
#[tactic(auto, unfolding(crate::specs::Reading::sample_of_time))]
fn sample_of_time(audio: &CueAudio, word: &[u8]) -> Option<u64>
    ensures { result ≡ sample_of_time audio.now word.now }
{
    let frames = time_of(word)?;
    if audio.rate % 75 == 0 {
        return Some(frames.saturating_mul(u64::from(audio.rate / 75)));
    }
    None
}

/// The sample of a place.
#[tactic(auto, unfolding(crate::specs::Reading::sample_of))]
fn sample_of(audio: &CueAudio, word: &[u8]) -> Option<u64>
    ensures { result ≡ sample_of audio.now word.now }
{
    if audio.cd {
        return sample_of_time(audio, word);
    }
    match number_of(word) {
        Some(sample) => Some(sample),
        None => sample_of_time(audio, word),
    }
}

/// Adds an index point at a sample to a track.
fn add_index(alloc: Global, track: &mut CueTrack, number: u8, sample: u64) -> Result<(), AllocError>
    ensures { OnOk result (track.new ≡ with_index track.old number sample) }
{
    if track.indices.is_empty() {
        track.offset = sample;
    }
    let offset = sample.saturating_sub(track.offset);
    push_index(alloc, &mut track.indices, CueIndex { offset, number })
}

/// Takes an index point of this number at a sample.
#[tactic(auto, unfolding(crate::specs::Reading::after_index_at))]
fn take_index_at(
    alloc: Global,
    audio: &CueAudio,
    open: &mut Open,
    number: u64,
    sample: u64,
) -> Result<(), Wrong>
    ensures { Takes result open.new (after_index_at audio.now open.old number sample) }
{
    if open.track.number == 0 || !next_index(audio.cd, open.track.indices.as_slice(), number) {
        return Err(Wrong::Rule(CueWhy::Index));
    }
    if sample < open.next || audio.total <= sample {
        return Err(Wrong::Rule(CueWhy::Offset));
    }
    add_index(alloc, &mut open.track, number as u8, sample)?;
    open.next = sample + 1;
    Ok(())
}

/// Takes an index point.
#[tactic(auto, unfolding(crate::specs::Reading::after_index))]
fn take_index(alloc: Global, audio: &CueAudio, open: &mut Open, rest: &[u8]) -> Result<(), Wrong>
    ensures { Takes result open.new (after_index audio.now open.old rest.now) }
{
    match number_of(word_of(rest)) {
        Some(number) => match sample_of(audio, word_of(after_word(rest))) {
            Some(sample) => take_index_at(alloc, audio, open, number, sample),
            None => Err(Wrong::Rule(CueWhy::Offset)),
        },
        None => Err(Wrong::Rule(CueWhy::Index)),
    }
}

/// Takes the lead-in.
#[tactic(auto, unfolding(crate::specs::Reading::after_lead_in))]
fn take_lead_in(open: &mut Open, rest: &[u8]) -> Result<(), Wrong>
    ensures { Takes result open.new (after_lead_in open.old rest.now) }
{
    match number_of(word_of(rest)) {
        Some(samples) => {
            open.lead_in = samples;
            Ok(())
        }
        None => Err(Wrong::Rule(CueWhy::LeadIn)),
    }
}

/// Takes the lead-out.
#[tactic(auto, unfolding(crate::specs::Reading::after_lead_out))]
fn take_lead_out(audio: &CueAudio, open: &mut Open, rest: &[u8]) -> Result<(), Wrong>
    ensures { Takes result open.new (after_lead_out audio.now open.old rest.now) }
{
    match number_of(word_of(after_word(rest))) {
        Some(sample) if sample == audio.total => Ok(()),
        _ => Err(Wrong::Rule(CueWhy::LeadOut)),
    }
}

/// Takes a remark.
#[tactic(auto, unfolding(crate::specs::Reading::after_remark))]
fn take_remark(audio: &CueAudio, open: &mut Open, rest: &[u8]) -> Result<(), Wrong>
    ensures { Takes result open.new (after_remark audio.now open.old rest.now) }
{
    let name = word_of(rest);
    if is(b"FLAC__lead-in", name) {
        return take_lead_in(open, after_word(rest));
    }
    if is(b"FLAC__lead-out", name) {
        return take_lead_out(audio, open, after_word(rest));
    }
    Ok(())
}

/// Takes a command.
#[tactic(auto, unfolding(crate::specs::Reading::after_command))]
fn take_command(
    alloc: Global,
    audio: &CueAudio,
    open: &mut Open,
    command: &[u8],
    rest: &[u8],
) -> Result<(), Wrong>
    ensures { Takes result open.new (after_command audio.now open.old command.now rest.now) }
{
    if is(b"CATALOG", command) {
        return take_catalogue(audio, open, rest);
    }
    if is(b"TRACK", command) {
        return take_track(alloc, audio, open, rest);
    }
    if is(b"FLAGS", command) {
        return take_flags(open, rest);
    }
    if is(b"ISRC", command) {
        return take_isrc(open, rest);
    }
    if is(b"INDEX", command) {
        return take_index(alloc, audio, open, rest);
    }
    if is(b"REM", command) {
        return take_remark(audio, open, rest);
    }
    Ok(())
}

/// Takes a line.
pub(crate) fn take_line(
    alloc: Global,
    audio: &CueAudio,
    open: &mut Open,
    line: &[u8],
) -> Result<(), Wrong>
    ensures { Takes result open.new (after_line audio.now open.old line.now) }
{
    take_command(alloc, audio, open, word_of(line), after_word(line))
}

/// What is known before the first line.
pub(crate) fn begin(alloc: Global, audio: &CueAudio) -> Open
    ensures { result ≡ begun audio.now }
{
    Open {
        catalogue: [0; 128],
        lead_in: if audio.cd { 88200 } else { 0 },
        tracks: CueTracks::from_vec(Vec::new(alloc)),
        track: new_track(alloc, 0, true),
        next: 0,
    }
}
