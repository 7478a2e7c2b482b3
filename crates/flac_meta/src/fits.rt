//! Proof only: the numbers and bytes of blocks are in the ranges of their types. The calls do nothing.

ghost use Rattle.flac_bits.specs.Forms.{AreBytes};
ghost use Rattle.flac_meta.specs.Valid.{AllAre, FitsFields, IsInfo, IsPoint, IsComments, IsIndex, IsTrack, IsSheet, IsPicture};

use crate::block::Block;
use crate::comments::Comments;
use crate::cue_sheet::{CueIndex, CueSheet, CueTrack};
use crate::lists::Bytes;
use crate::picture::Picture;
use crate::seek_table::SeekPoint;
use flac_bits::bytes_fit;
use flac_info::StreamInfo;

/// Each byte of each text is below 256.
fn texts_fit(texts: &[Bytes])
    ensures { AllAre AreBytes texts.now }
{
    for text in texts {
        bytes_fit(text.as_slice());
    }
}

/// The numbers and bytes of a STREAMINFO fit.
fn info_fits(info: &StreamInfo)
    ensures { IsInfo info.now }
{
    bytes_fit(&info.digest());
}

/// The numbers of a seek point fit.
fn point_fits(point: &SeekPoint)
    ensures { IsPoint point.now }
{
    let _sample = point.sample;
    let _offset = point.offset;
    let _length = point.length;
}

/// The numbers of all seek points fit.
fn points_fit(points: &[SeekPoint])
    ensures { AllAre IsPoint points.now }
{
    for point in points {
        point_fits(point);
    }
}

/// The bytes of comments fit.
fn comments_fit(comments: &Comments)
    ensures { IsComments comments.now }
{
    bytes_fit(comments.vendor.as_slice());
    texts_fit(comments.list.as_slice());
}

/// The numbers of an index point fit.
fn index_fits(index: &CueIndex)
    ensures { IsIndex index.now }
{
    let _offset = index.offset;
    let _number = index.number;
}

/// The numbers of all index points fit.
fn indices_fit(indices: &[CueIndex])
    ensures { AllAre IsIndex indices.now }
{
    for index in indices {
        index_fits(index);
    }
}

/// The numbers and bytes of a track fit.
fn track_fits(track: &CueTrack)
    ensures { IsTrack track.now }
{
    let _offset = track.offset;
    let _number = track.number;
    bytes_fit(&track.isrc);
    indices_fit(track.indices.as_slice());
}

/// The numbers and bytes of all tracks fit.
fn tracks_fit(tracks: &[CueTrack])
    ensures { AllAre IsTrack tracks.now }
{
    for track in tracks {
        track_fits(track);
    }
}

/// The numbers and bytes of a cue sheet fit.
fn sheet_fits(sheet: &CueSheet)
    ensures { IsSheet sheet.now }
{
    let _lead_in = sheet.lead_in;
    bytes_fit(&sheet.catalogue);
    tracks_fit(sheet.tracks.as_slice());
}

/// The numbers and bytes of a picture fit.
fn picture_fits(picture: &Picture)
    ensures { IsPicture picture.now }
{
    let _kind = picture.kind;
    let _width = picture.width;
    let _height = picture.height;
    let _depth = picture.depth;
    let _colours = picture.colours;
    bytes_fit(picture.media.as_slice());
    bytes_fit(picture.text.as_slice());
    bytes_fit(picture.bytes.as_slice());
}

/// The numbers and bytes of a block fit.
fn block_fits(block: &Block)
    ensures { FitsFields block.now }
{
    match block {
        Block::StreamInfo(info) => info_fits(info),
        Block::Padding(_) => {}
        Block::Application { id, bytes } => {
            bytes_fit(id);
            bytes_fit(bytes.as_slice());
        }
        Block::SeekTable(table) => points_fit(table.points()),
        Block::VorbisComment(comments) => comments_fit(comments),
        Block::CueSheet(sheet) => sheet_fits(sheet),
        Block::Picture(picture) => picture_fits(picture),
        Block::Other { kind: _, bytes } => bytes_fit(bytes.as_slice()),
    }
}

/// The numbers and bytes of all blocks fit.
pub(crate) fn blocks_fit(blocks: &[Block])
    ensures { AllAre FitsFields blocks.now }
{
    for block in blocks {
        block_fits(block);
    }
}
