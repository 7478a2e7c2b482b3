//! Cue sheets (RFC 9639, section 8.7).

ghost use Rattle.std.specs.Prelude.{◌≡◌, ◌+◌, ◌≤◌, min, false, OnOk, IfOk, ◌*◌, ◌<◌, ◌^◌, length};
ghost use Rattle.flac_meta.specs.inner.Cues.{fields_of, track_front_spelling, track_flags_spelling, sheet_front_spelling};
ghost use Rattle.flac_meta.specs.Spelling.{tracks_length, each_spelled, index_spelling, track_spelling, sheet_spelling};
ghost use Rattle.flac_meta.specs.Listed.{overflows, is_bad_sheet};
ghost use Rattle.flac_bits.specs.Lists.{list_of};
ghost use Rattle.flac_bits.specs.Reading.{Reads, ReadsGivenMemory, Call};
ghost use Rattle.flac_meta.specs.CueSheet.{cue_count, cue_index, track_front, cue_track, cue_tracks, sheet_front, cue_sheet};
ghost use Rattle.flac_bits.specs.Written.{Writes};

use crate::fields::{Field, capped, flag, read_zeros, too_short};
use crate::lists::Entries;
use crate::put::{put_fields, put_zeros};
use flac_bits::{BitReader, BitWriter, Source, Target, Why, read_bytes};
use std::alloc::{AllocError, Global};

/// An index point of a track (RFC 9639, section 8.7.1.1).
#[derive(Clone, Copy, Debug, PartialEq, Eq)]
pub struct CueIndex {
    /// Samples from the offset of the track.
    pub offset: u64,
    /// The number of the index point.
    pub number: u8,
}

/// The index points of a track.
pub type CueIndices = Entries<CueIndex>;

impl Clone for CueIndices {
    ghost is_clone = { λ a b. b ≡ a };

    fn clone(&self) -> Result<CueIndices, AllocError> {
        self.copied()
    }
}

/// A track of a cue sheet (RFC 9639, section 8.7.1).
#[derive(Clone, Debug, PartialEq, Eq, Drop)]
pub struct CueTrack {
    /// Samples from the beginning of the audio.
    pub offset: u64,
    /// The track's number.
    pub number: u8,
    /// The International Standard Recording Code; zeros if there is none.
    pub isrc: [u8; 12],
    /// Whether it is an audio track.
    pub audio: bool,
    /// Whether it has pre-emphasis.
    pub pre_emphasis: bool,
    /// Its index points, at most 255 if it is to be written.
    pub indices: CueIndices,
}

/// The tracks of a cue sheet.
pub type CueTracks = Entries<CueTrack>;

impl Clone for CueTracks {
    ghost is_clone = { λ a b. b ≡ a };

    fn clone(&self) -> Result<CueTracks, AllocError> {
        self.copied()
    }
}

/// A cue sheet (RFC 9639, section 8.7).
#[derive(Clone, Debug, PartialEq, Eq, Drop)]
pub struct CueSheet {
    /// The media catalogue number, filled up with zeros.
    pub catalogue: [u8; 128],
    /// How many samples the lead-in has.
    pub lead_in: u64,
    /// Whether it is of a CD.
    pub cd: bool,
    /// The tracks, with the lead-out; 1 to 255 if it is to be written.
    pub tracks: CueTracks,
}

/// The length of these tracks, after `before` bytes.
pub(crate) fn tracks_after(before: u64, tracks: &[CueTrack]) -> u64
    requires { before ≤ 16777216 }
    ensures { result ≡ min (before + tracks_length tracks.now) 16777216 }
{
    let mut total = before;
    for track in tracks {
        total = capped(total, 36);
        let count = track.indices.as_slice().len();
        total = capped(total, count.saturating_mul(12));
    }
    total
}

/// Whether a track has more index points than one byte can count.
fn overflow(tracks: &[CueTrack]) -> bool
    ensures { result ≡ overflows tracks.now }
{
    for track in tracks {
        if track.indices.as_slice().len() > 255 {
            return true;
        }
    }
    false
}

/// Whether a cue sheet has no track, or more tracks or index points than one byte can count.
pub(crate) fn is_bad(sheet: &CueSheet) -> bool
    ensures { result ≡ is_bad_sheet sheet.now }
{
    let tracks = sheet.tracks.as_slice();
    if tracks.len() == 0 || tracks.len() > 255 {
        return true;
    }
    overflow(tracks)
}

/// Reads an index point of a track (RFC 9639, section 8.7.1.1).
#[tactic(auto, unfolding(crate::specs::CueSheet::cue_index, crate::specs::Fields::reserved))]
fn read_index<R: Source>(bits: &mut BitReader<R>) -> Result<CueIndex, Why>
    ensures reading { Call 0 (Reads (λ i. i) cue_index) bits.old bits.new result }
{
    let offset = bits.take(64)?;
    let number = bits.take(8)? as u8;
    if !read_zeros(bits, 8 * 3)? {
        return Err(Why::CueSheet);
    }
    Ok(CueIndex { offset, number })
}

/// Reads `count` index points.
#[tactic(auto, using(flac_bits::proofs::Lists::list_more, flac_bits::proofs::Lists::list_end, flac_bits::proofs::Lists::list_start))]
fn read_indices<R: Source>(
    alloc: Global,
    bits: &mut BitReader<R>,
    count: u8,
) -> Result<CueIndices, Why>
    ensures count { IfOk result (λ t. length t ≡ count) }
    ensures reading { Call 0 (ReadsGivenMemory (λ t. t) (list_of count cue_index)) bits.old bits.new result }
{
    let mut items = Vec::new(alloc);
    for i in 0..count {
        let _i = i;
        let index = read_index(bits)?;
        items.push(index)?;
    }
    Ok(CueIndices::from_vec(items))
}

/// The fields of a track before its index points.
#[derive(Clone, Copy)]
struct TrackFront {
    offset: u64,
    number: u8,
    isrc: [u8; 12],
    audio: bool,
    pre_emphasis: bool,
}

/// Reads the fields of a track before its index points.
#[tactic(auto, unfolding(crate::specs::CueSheet::track_front, crate::specs::Fields::reserved))]
fn read_track_front<R: Source>(bits: &mut BitReader<R>) -> Result<TrackFront, Why>
    ensures reading { Call 0 (Reads fields_of track_front) bits.old bits.new result }
{
    let offset = bits.take(64)?;
    let number = bits.take(8)? as u8;
    let mut isrc = [0u8; 12];
    read_bytes(bits, &mut isrc)?;
    let audio = bits.take(1)? == 0;
    let pre_emphasis = bits.take(1)? == 1;
    if !read_zeros(bits, 6 + 8 * 13)? {
        return Err(Why::CueSheet);
    }
    Ok(TrackFront {
        offset,
        number,
        isrc,
        audio,
        pre_emphasis,
    })
}

/// Reads a track, of a content of which `left` bytes are left (RFC 9639, section 8.7.1).
#[tactic(auto, unfolding(crate::specs::CueSheet::cue_track))]
fn read_track<R: Source>(alloc: Global, bits: &mut BitReader<R>, left: u32) -> Result<CueTrack, Why>
    requires { left < 2 ^ 24 }
    ensures fits { IfOk result (λ t. 36 + 12 * length t.indices ≤ left) }
    ensures reading { Call 0 (ReadsGivenMemory (λ t. t) (cue_track left)) bits.old bits.new result }
{
    if left < 35 {
        return Err(too_short(bits, left));
    }
    let front = read_track_front(bits)?;
    let isrc = front.isrc;
    let count = read_count(bits, left - 35)?;
    if left - 36 < 12 * count as u32 {
        return Err(Why::BlockLength);
    }
    let indices = read_indices(alloc, bits, count)?;
    Ok(CueTrack {
        offset: front.offset,
        number: front.number,
        isrc,
        audio: front.audio,
        pre_emphasis: front.pre_emphasis,
        indices,
    })
}

/// Reads the number of tracks or of index points, of a content of which `left` bytes are left.
#[tactic(auto, unfolding(crate::specs::CueSheet::cue_count))]
fn read_count<R: Source>(bits: &mut BitReader<R>, left: u32) -> Result<u8, Why>
    requires { left < 2 ^ 24 }
    ensures fits { OnOk result (1 ≤ left) }
    ensures reading { Call 0 (Reads (λ n. n) (cue_count left)) bits.old bits.new result }
{
    if left < 1 {
        return Err(too_short(bits, left));
    }
    Ok(bits.take(8)? as u8)
}

/// Reads `count` tracks, which are all of the `left` bytes that are left of the content.
#[tactic(auto, using(crate::proofs::Turns::tracks_more, crate::proofs::Turns::tracks_end, crate::proofs::Turns::turn_start))]
fn read_tracks<R: Source>(
    alloc: Global,
    bits: &mut BitReader<R>,
    count: u8,
    left: u32,
) -> Result<CueTracks, Why>
    requires { left < 2 ^ 24 }
    ensures reading { Call 0 (ReadsGivenMemory (λ t. t) (cue_tracks count left)) bits.old bits.new result }
{
    let mut tracks = Vec::new(alloc);
    let mut left = left;
    for i in 0..count {
        let _i = i;
        let track = read_track(alloc, bits, left)?;
        left -= 36 + 12 * track.indices.as_slice().len() as u32;
        tracks.push(track)?;
    }
    if left != 0 {
        return Err(Why::BlockLength);
    }
    Ok(CueTracks::from_vec(tracks))
}

/// Reads the fields of a cue sheet before its tracks.
#[tactic(auto, unfolding(crate::specs::CueSheet::sheet_front, crate::specs::Fields::reserved))]
fn read_sheet_front<R: Source>(bits: &mut BitReader<R>) -> Result<([u8; 128], u64, bool), Why>
    ensures reading { Call 0 (Reads (λ f. f) sheet_front) bits.old bits.new result }
{
    let mut catalogue = [0u8; 128];
    read_bytes(bits, &mut catalogue)?;
    let lead_in = bits.take(64)?;
    let cd = bits.take(1)? == 1;
    if !read_zeros(bits, 7 + 8 * 258)? {
        return Err(Why::CueSheet);
    }
    Ok((catalogue, lead_in, cd))
}

/// Reads a cue sheet of `left` bytes (RFC 9639, section 8.7).
#[tactic(auto, unfolding(crate::specs::CueSheet::cue_sheet))]
pub(crate) fn read_cue_sheet<R: Source>(
    alloc: Global,
    bits: &mut BitReader<R>,
    left: u32,
) -> Result<CueSheet, Why>
    requires { left < 2 ^ 24 }
    ensures reading { Call 0 (ReadsGivenMemory (λ s. s) (cue_sheet left)) bits.old bits.new result }
{
    if left < 395 {
        return Err(too_short(bits, left));
    }
    let (catalogue, lead_in, cd) = read_sheet_front(bits)?;
    let count = read_count(bits, left - 395)?;
    if count == 0 {
        return Err(Why::CueSheet);
    }
    if left - 396 < 36 * count as u32 {
        return Err(Why::BlockLength);
    }
    let tracks = read_tracks(alloc, bits, count, left - 396)?;
    Ok(CueSheet {
        catalogue,
        lead_in,
        cd,
        tracks,
    })
}

/// Writes an index point of a track (RFC 9639, section 8.7.1.1).
fn put_index<W: Target>(writer: &mut BitWriter<W>, index: &CueIndex) -> Result<(), Why>
    ensures { Writes (index_spelling index.now) writer.old writer.new result }
{
    put_fields(
        writer,
        &[
            Field {
                bits: 64,
                value: index.offset,
            },
            Field {
                bits: 8,
                value: index.number as u64,
            },
            Field {
                bits: 8 * 3,
                value: 0,
            },
        ],
    )
}

/// Writes the index points of a track.
fn put_indices<W: Target>(writer: &mut BitWriter<W>, indices: &[CueIndex]) -> Result<(), Why>
    ensures { Writes (each_spelled index_spelling indices.now) writer.old writer.new result }
{
    for index in indices {
        put_index(writer, index)?;
    }
    Ok(())
}

/// Writes the offset, the number and the recording code of a track.
fn put_track_front<W: Target>(writer: &mut BitWriter<W>, track: &CueTrack) -> Result<(), Why>
    ensures { Writes (track_front_spelling track.now) writer.old writer.new result }
{
    writer.put(64, track.offset)?;
    writer.put(8, track.number as u64)?;
    writer.put_bytes(&track.isrc)
}

/// Writes the flags of a track, the reserved bits after them, and how many index points it has.
fn put_track_flags<W: Target>(writer: &mut BitWriter<W>, track: &CueTrack) -> Result<(), Why>
    requires { length track.now.indices ≤ 255 }
    ensures { Writes (track_flags_spelling track.now) writer.old writer.new result }
{
    let data = flag(!track.audio);
    let emphasis = flag(track.pre_emphasis);
    let count = track.indices.len();
    put_fields(
        writer,
        &[
            Field {
                bits: 1,
                value: data,
            },
            Field {
                bits: 1,
                value: emphasis,
            },
            // 6 bits and 13 bytes are reserved
            Field {
                bits: 6 + 8 * 5,
                value: 0,
            },
            Field {
                bits: 8 * 8,
                value: 0,
            },
            Field {
                bits: 8,
                value: count as u64,
            },
        ],
    )
}

/// Writes a track (RFC 9639, section 8.7.1).
fn put_track<W: Target>(writer: &mut BitWriter<W>, track: &CueTrack) -> Result<(), Why>
    requires { length track.now.indices ≤ 255 }
    ensures { Writes (track_spelling track.now) writer.old writer.new result }
{
    put_track_front(writer, track)?;
    put_track_flags(writer, track)?;
    put_indices(writer, track.indices.as_slice())
}

/// Writes the tracks of a cue sheet.
fn put_tracks<W: Target>(writer: &mut BitWriter<W>, tracks: &[CueTrack]) -> Result<(), Why>
    requires { overflows tracks.now ≡ false }
    ensures { Writes (each_spelled track_spelling tracks.now) writer.old writer.new result }
{
    for track in tracks {
        put_track(writer, track)?;
    }
    Ok(())
}

/// Writes the fields of a cue sheet before its tracks.
fn put_sheet_front<W: Target>(writer: &mut BitWriter<W>, sheet: &CueSheet) -> Result<(), Why>
    ensures { Writes (sheet_front_spelling sheet.now) writer.old writer.new result }
{
    writer.put_bytes(&sheet.catalogue)?;
    writer.put(64, sheet.lead_in)?;
    writer.put(1, flag(sheet.cd))?;
    put_zeros(writer, 7 + 8 * 258)
}

/// Writes a cue sheet (RFC 9639, section 8.7).
pub(crate) fn put_sheet<W: Target>(writer: &mut BitWriter<W>, sheet: &CueSheet) -> Result<(), Why>
    requires { is_bad_sheet sheet.now ≡ false }
    ensures { Writes (sheet_spelling sheet.now) writer.old writer.new result }
{
    let tracks = sheet.tracks.as_slice();
    put_sheet_front(writer, sheet)?;
    writer.put(8, tracks.len() as u64)?;
    put_tracks(writer, tracks)
}
