//! Metadata blocks as JSON (RFC 9639, section 8).

ghost use Rattle.std.specs.Prelude.{◌≡◌, ◌++◌, codes, decimal, map, IfOk, OnOk};
ghost use Rattle.flac_meta.specs.declared.block.Block.TheVariants.{Application};
ghost use Rattle.flac_json.specs.Json.{json_text, items_of, items_text, more_items, more_members};
ghost use Rattle.flac_json.specs.Blocks.{info_members, data_members, comments_members, sheet_members, picture_members, point_json, equals_at, comment_json, without_zeros, index_json, track_json, own_members, type_name, block_json};

use crate::fields::{Field, push_more, push_object, push_open};
use crate::texts::push_number;
use flac_info::StreamInfo;
use flac_meta::{Block, Bytes, Comments, CueIndex, CueSheet, CueTrack, Picture, SeekPoint};
use md5::{Digest, Md5};
use std::alloc::{AllocError, Global};

/// Adds the members of a STREAMINFO (section 8.2).
fn push_info(text: &mut Vec<u8>, info: &StreamInfo) -> Result<(), AllocError>
    ensures { OnOk result (text.new.items ≡ text.old.items ++ more_members (info_members info.now)) }
{
    let digest = info.digest();
    push_more(
        text,
        &[
            Field::Number("min_block_size", u64::from(info.least_block())),
            Field::Number("max_block_size", u64::from(info.greatest_block())),
            Field::Number("min_frame_size", u64::from(info.least_frame())),
            Field::Number("max_frame_size", u64::from(info.greatest_frame())),
            Field::Number("rate", u64::from(info.rate())),
            Field::Number("channels", u64::from(info.channels())),
            Field::Number("depth", u64::from(info.depth())),
            Field::Number("samples", info.total()),
            Field::Digits("md5", &digest),
        ],
    )
}

/// Adds the members of data that is not shown: its length and its MD5.
fn push_data(text: &mut Vec<u8>, bytes: &[u8]) -> Result<(), AllocError>
    ensures { OnOk result (text.new.items ≡ text.old.items ++ more_members (data_members bytes.now)) }
{
    let digest = Md5::digest(bytes);
    push_more(
        text,
        &[
            Field::Number("data_length", bytes.len() as u64),
            Field::Digits("data_md5", &digest),
        ],
    )
}

/// Adds a seek point (section 8.5.1).
fn push_point(text: &mut Vec<u8>, point: &SeekPoint) -> Result<(), AllocError>
    ensures { OnOk result (text.new.items ≡ text.old.items ++ json_text (point_json point.now)) }
{
    let first = if point.is_placeholder() {
        Field::Truth("placeholder", true)
    } else {
        Field::Number("sample", point.sample)
    };
    push_object(
        text,
        &first,
        &[
            Field::Number("offset", point.offset),
            Field::Number("samples", u64::from(point.length)),
        ],
    )
}

/// Adds seek points, each after a comma.
fn push_more_points(text: &mut Vec<u8>, points: &[SeekPoint]) -> Result<(), AllocError>
    ensures { OnOk result (text.new.items ≡ text.old.items ++ more_items (items_of (map point_json points.now))) }
{
    for point in points {
        text.push(b',')?;
        push_point(text, point)?;
    }
    Ok(())
}

/// Adds seek points.
fn push_points(text: &mut Vec<u8>, points: &[SeekPoint]) -> Result<(), AllocError>
    ensures { OnOk result (text.new.items ≡ text.old.items ++ items_text (items_of (map point_json points.now))) }
{
    match points.split_first() {
        Some((point, rest)) => {
            push_point(text, point)?;
            push_more_points(text, rest)
        }
        None => Ok(()),
    }
}

/// Where the first `=` of a comment is; the number of its bytes if there is none.
fn equals_at(comment: &[u8]) -> usize
    ensures { result ≡ equals_at comment.now }
{
    for (index, byte) in comment.iter().enumerate() {
        if *byte == b'=' {
            return index;
        }
    }
    comment.len()
}

/// Adds a comment (section 8.6): its name and its value.
fn push_comment(text: &mut Vec<u8>, comment: &[u8]) -> Result<(), AllocError>
    ensures { OnOk result (text.new.items ≡ text.old.items ++ json_text (comment_json comment.now)) }
{
    let index = equals_at(comment);
    if index < comment.len() {
        let name = Field::Bytes("name", &comment[..index]);
        let value = Field::Bytes("value", &comment[index + 1..]);
        return push_object(text, &name, &[value]);
    }
    push_object(text, &Field::Bytes("text", comment), &[])
}

/// Adds comments, each after a comma.
fn push_more_comments(text: &mut Vec<u8>, comments: &[Bytes]) -> Result<(), AllocError>
    ensures { OnOk result (text.new.items ≡ text.old.items ++ more_items (items_of (map comment_json comments.now))) }
{
    for comment in comments {
        text.push(b',')?;
        push_comment(text, comment.as_slice())?;
    }
    Ok(())
}

/// Adds comments.
fn push_comments(text: &mut Vec<u8>, comments: &[Bytes]) -> Result<(), AllocError>
    ensures { OnOk result (text.new.items ≡ text.old.items ++ items_text (items_of (map comment_json comments.now))) }
{
    match comments.split_first() {
        Some((comment, rest)) => {
            push_comment(text, comment.as_slice())?;
            push_more_comments(text, rest)
        }
        None => Ok(()),
    }
}

/// Adds the members of a Vorbis comment block (section 8.6).
fn push_comment_block(text: &mut Vec<u8>, comments: &Comments) -> Result<(), AllocError>
    ensures { OnOk result (text.new.items ≡ text.old.items ++ more_members (comments_members comments.now)) }
{
    push_more(text, &[Field::Bytes("vendor", comments.vendor())])?;
    text.extend_from_slice(b",\"comments\":[")?;
    push_comments(text, comments.list.as_slice())?;
    text.push(b']')?;
    Ok(())
}

/// Bytes without the zeros at their end.
pub fn without_zeros(bytes: &[u8]) -> &[u8]
    ensures { result.now ≡ without_zeros bytes.now }
{
    let mut end = bytes.len();
    while end > 0 {
        if bytes[end - 1] == 0 {
            end -= 1;
        } else {
            return &bytes[..end];
        }
    }
    &bytes[..end]
}

/// Adds an index point (section 8.7.1.1).
fn push_index(text: &mut Vec<u8>, index: &CueIndex) -> Result<(), AllocError>
    ensures { OnOk result (text.new.items ≡ text.old.items ++ json_text (index_json index.now)) }
{
    let first = Field::Number("number", u64::from(index.number));
    push_object(text, &first, &[Field::Number("offset", index.offset)])
}

/// Adds index points, each after a comma.
fn push_more_indices(text: &mut Vec<u8>, indices: &[CueIndex]) -> Result<(), AllocError>
    ensures { OnOk result (text.new.items ≡ text.old.items ++ more_items (items_of (map index_json indices.now))) }
{
    for index in indices {
        text.push(b',')?;
        push_index(text, index)?;
    }
    Ok(())
}

/// Adds index points.
fn push_indices(text: &mut Vec<u8>, indices: &[CueIndex]) -> Result<(), AllocError>
    ensures { OnOk result (text.new.items ≡ text.old.items ++ items_text (items_of (map index_json indices.now))) }
{
    match indices.split_first() {
        Some((index, rest)) => {
            push_index(text, index)?;
            push_more_indices(text, rest)
        }
        None => Ok(()),
    }
}

/// Adds a track (section 8.7.1).
fn push_track(text: &mut Vec<u8>, track: &CueTrack) -> Result<(), AllocError>
    ensures { OnOk result (text.new.items ≡ text.old.items ++ json_text (track_json track.now)) }
{
    push_open(
        text,
        &Field::Number("number", u64::from(track.number)),
        &[
            Field::Number("offset", track.offset),
            Field::Bytes("isrc", without_zeros(&track.isrc)),
            Field::Truth("audio", track.audio),
            Field::Truth("pre_emphasis", track.pre_emphasis),
        ],
    )?;
    text.extend_from_slice(b",\"indices\":[")?;
    push_indices(text, track.indices.as_slice())?;
    text.extend_from_slice(b"]}")?;
    Ok(())
}

/// Adds tracks, each after a comma.
fn push_more_tracks(text: &mut Vec<u8>, tracks: &[CueTrack]) -> Result<(), AllocError>
    ensures { OnOk result (text.new.items ≡ text.old.items ++ more_items (items_of (map track_json tracks.now))) }
{
    for track in tracks {
        text.push(b',')?;
        push_track(text, track)?;
    }
    Ok(())
}

/// Adds tracks.
fn push_tracks(text: &mut Vec<u8>, tracks: &[CueTrack]) -> Result<(), AllocError>
    ensures { OnOk result (text.new.items ≡ text.old.items ++ items_text (items_of (map track_json tracks.now))) }
{
    match tracks.split_first() {
        Some((track, rest)) => {
            push_track(text, track)?;
            push_more_tracks(text, rest)
        }
        None => Ok(()),
    }
}

/// Adds the members of a cue sheet (section 8.7).
fn push_sheet(text: &mut Vec<u8>, sheet: &CueSheet) -> Result<(), AllocError>
    ensures { OnOk result (text.new.items ≡ text.old.items ++ more_members (sheet_members sheet.now)) }
{
    push_more(
        text,
        &[
            Field::Bytes("catalog", without_zeros(&sheet.catalogue)),
            Field::Number("lead_in", sheet.lead_in),
            Field::Truth("cd", sheet.cd),
        ],
    )?;
    text.extend_from_slice(b",\"tracks\":[")?;
    push_tracks(text, sheet.tracks.as_slice())?;
    text.push(b']')?;
    Ok(())
}

/// Adds the members of a picture but its data (section 8.8).
fn push_picture(text: &mut Vec<u8>, picture: &Picture) -> Result<(), AllocError>
    ensures { OnOk result (text.new.items ≡ text.old.items ++ more_members (picture_members picture.now)) }
{
    push_more(
        text,
        &[
            Field::Number("picture_type", u64::from(picture.kind)),
            Field::Bytes("media_type", picture.media.as_slice()),
            Field::Bytes("description", picture.text.as_slice()),
            Field::Number("width", u64::from(picture.width)),
            Field::Number("height", u64::from(picture.height)),
            Field::Number("depth", u64::from(picture.depth)),
            Field::Number("colors", u64::from(picture.colours)),
        ],
    )?;
    push_data(text, picture.bytes.as_slice())
}

/// Adds the members of a seek table (section 8.5).
fn push_table(text: &mut Vec<u8>, points: &[SeekPoint]) -> Result<(), AllocError>
    ensures { OnOk result (text.new.items ≡ text.old.items ++ more_members (own_members (Block.SeekTable points.now))) }
{
    text.extend_from_slice(b",\"points\":[")?;
    push_points(text, points)?;
    text.push(b']')?;
    Ok(())
}

/// Adds the members of an application block (section 8.4).
fn push_application(text: &mut Vec<u8>, id: &[u8; 4], bytes: &[u8]) -> Result<(), AllocError>
    ensures { OnOk result (text.new.items ≡ text.old.items
        ++ more_members (own_members (Application id.now bytes.now))) }
{
    push_more(text, &[Field::Digits("id", id)])?;
    push_data(text, bytes)
}

/// Adds the members of a block after those that each has.
fn push_own(text: &mut Vec<u8>, block: &Block) -> Result<(), AllocError>
    ensures { OnOk result (text.new.items ≡ text.old.items ++ more_members (own_members block.now)) }
{
    match block {
        Block::StreamInfo(info) => push_info(text, info),
        Block::Padding(_) => Ok(()),
        Block::Application { id, bytes } => push_application(text, id, bytes.as_slice()),
        Block::SeekTable(table) => push_table(text, table.points()),
        Block::VorbisComment(comments) => push_comment_block(text, comments),
        Block::CueSheet(sheet) => push_sheet(text, sheet),
        Block::Picture(picture) => push_picture(text, picture),
        Block::Other { kind: _, bytes } => push_data(text, bytes.as_slice()),
    }
}

/// The name of a block's type (section 8.1): `TYPE_` and its number for one that has no name.
fn type_name(alloc: Global, block: &Block) -> Result<Vec<u8>, AllocError>
    ensures { IfOk result (λ name. name.items ≡ type_name block.now) }
{
    match block {
        Block::StreamInfo(_) => Vec::from_slice(alloc, b"STREAMINFO"),
        Block::Padding(_) => Vec::from_slice(alloc, b"PADDING"),
        Block::Application { id: _, bytes: _ } => Vec::from_slice(alloc, b"APPLICATION"),
        Block::SeekTable(_) => Vec::from_slice(alloc, b"SEEKTABLE"),
        Block::VorbisComment(_) => Vec::from_slice(alloc, b"VORBIS_COMMENT"),
        Block::CueSheet(_) => Vec::from_slice(alloc, b"CUESHEET"),
        Block::Picture(_) => Vec::from_slice(alloc, b"PICTURE"),
        Block::Other { kind, bytes: _ } => other_name(alloc, *kind),
    }
}

/// The name of a type that has none of its own.
fn other_name(alloc: Global, kind: u8) -> Result<Vec<u8>, AllocError>
    ensures { IfOk result (λ name. name.items ≡ codes "TYPE_" ++ decimal kind) }
{
    let mut name = Vec::from_slice(alloc, b"TYPE_")?;
    push_number(&mut name, u64::from(kind))?;
    Ok(name)
}

/// Adds a block with this name of its type.
fn push_block(text: &mut Vec<u8>, index: u64, name: &[u8], block: &Block) -> Result<(), AllocError>
    requires { name.now ≡ type_name block.now }
    ensures { OnOk result (text.new.items ≡ text.old.items ++ json_text (block_json index block.now)) }
{
    push_open(
        text,
        &Field::Number("number", index),
        &[
            Field::Text("type", name),
            Field::Number("length", block.length()),
        ],
    )?;
    push_own(text, block)?;
    text.push(b'}')?;
    Ok(())
}

/// The object of a metadata block (RFC 9639, section 8): its number in the stream, counted from 0, its type, the length
/// of its content in bytes, and its fields. Of a picture, of application data and of a block of another type it has the
/// length and the MD5 of the data.
///
/// ```
/// let text = block_json(rt.alloc(), 1, &Block::Padding(8192))?; // {"number":1,"type":"PADDING","length":8192}
/// ```
///
/// # Errors
/// `AllocError` if an allocation fails.
pub fn block_json(alloc: Global, index: u64, block: &Block) -> Result<Vec<u8>, AllocError>
    ensures { IfOk result (λ text. text.items ≡ json_text (block_json index block.now)) }
{
    let name = type_name(alloc, block)?;
    let mut text = Vec::new(alloc);
    push_block(&mut text, index, name.as_slice(), block)?;
    Ok(text)
}
