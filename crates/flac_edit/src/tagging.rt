//! Edits the comments of a file in place, after it was read.

ghost use Rattle.std.specs.Prelude.{◌≡◌, ◌≢◌, ◌≤◌, ◌<◌, ◌+◌, ◌↔◌, true, length, Err, OnOk, IfOk, IfErr, IfSome};
ghost use Rattle.flac_edit.specs.Calls.{FailureIsCounted, FaultIsCounted};
ghost use Rattle.flac_edit.specs.Device.{Only};
ghost use Rattle.flac_edit.specs.Places.{slot_of, slots_of, total_of};
ghost use Rattle.flac_edit.specs.inner.Tagging.{LeavesSameOrEdited, ReadsSameOrEdited, HasEdited};
ghost use Rattle.flac_edit.specs.Faults.{IsOfStream, IfStream, RefusalIsDueIn};
ghost use Rattle.flac_edit.specs.declared.tagging.TagFault.TheVariants as fault;
ghost use Rattle.flac_edit.specs.Tagged.{no_comments, comments_among, KeepComments, LeavesTagged, ReadsTagged, HasTagged, KeepsComments, IfNothingChanges, IfFlipped, IfSame};

use crate::device::{Device, DeviceError};
use crate::edits::{Edit, edited};
use crate::in_place::edit_in_place;
use crate::slots::Slot;
use flac_bits::{BitReader, Source, Why};
use flac_meta::{Block, Bytes, Comments, MOST_BYTES, Texts};
use flac_native::{Fault, read_blocks};
use std::alloc::{AllocError, Global};

/// What became of a file whose comments are edited in place.
#[derive(Clone, Copy, Debug, PartialEq, Eq)]
pub enum Tagged {
    /// The edits change none of its comments. Nothing was written.
    Same,
    /// It has the edited comments.
    Flipped,
    /// There is no room for them in place. Nothing was written.
    NoRoom,
}

/// Why the comments of a file were not edited in place.
#[derive(Clone, Copy, Debug, PartialEq, Eq)]
pub enum TagFault {
    /// The marker or a metadata block is refused, or could not be read.
    Stream(Fault),
    /// The device failed, or an allocation.
    Device(DeviceError),
}

/// The comments of a stream without a comment block.
fn no_comments(alloc: Global) -> Comments
    ensures { result ≡ no_comments }
{
    Comments {
        vendor: Bytes::from_vec(Vec::new(alloc)),
        list: Texts::from_vec(Vec::new(alloc)),
    }
}

/// The comments among the metadata blocks of a stream: those of the comment block, of which there is one at most (RFC
/// 9639, section 8.6); no comments and no vendor if there is no such block.
///
/// # Errors
/// `AllocError` if an allocation fails.
pub fn comments_among(alloc: Global, blocks: &[Block]) -> Result<Comments, AllocError>
    ensures { IfOk result (λ found. found ≡ comments_among blocks.now) }
{
    for block in blocks {
        if let Block::VorbisComment(comments) = block {
            return comments.clone();
        }
    }
    Ok(no_comments(alloc))
}

/// What a block is, and how long; `None` if it is too long for any block.
fn slot_of(block: &Block) -> Option<Slot>
    ensures { IfSome result (λ slot. slot ≡ slot_of block.now) }
{
    let size = block.length();
    if size > MOST_BYTES {
        return None;
    }
    Some(match block {
        Block::Padding(size) => Slot::Padding(*size),
        Block::VorbisComment(_) => Slot::Comments(size as u32),
        _ => Slot::Other(size as u32),
    })
}

/// What the blocks are, and how long; `None` if one is too long for any block.
fn slots_of(alloc: Global, blocks: &[Block]) -> Result<Option<Vec<Slot>>, AllocError>
    ensures { IfOk result (λ found. IfSome found (λ slots. slots.items ≡ slots_of blocks.now)) }
{
    let mut slots = Vec::new(alloc);
    for block in blocks {
        match slot_of(block) {
            Some(slot) => slots.push(slot)?,
            None => return Ok(None),
        }
    }
    Ok(Some(slots))
}

/// Whether these are the same comments, by the same program.
pub(crate) fn are_same(one: &Comments, other: &Comments) -> bool
    ensures { (result ≡ true) ↔ (one.now ≡ other.now) }
{
    one == other
}

/// Edits the comments in place of a file that has these blocks, STREAMINFO the first.
fn change_comments<D: Device>(
    alloc: Global,
    device: &mut D,
    blocks: &[Block],
    edits: &[Edit<'_>],
) -> Result<Tagged, DeviceError>
    requires inside { D.known device.old ≡ true
        → 4 + total_of (slots_of blocks.now) ≤ length (D.seen device.old) }
    requires durable { D.known device.old ≡ true → Only (D.seen device.old) (D.time device.old) }
    ensures known { D.known device.new ≡ D.known device.old }
    ensures any_moment { LeavesSameOrEdited D.Device edits.now blocks.now device.old device.new }
    ensures reads { ReadsSameOrEdited D.Device edits.now blocks.now device.old device.new }
    ensures flipped { IfFlipped result (HasEdited D.Device edits.now blocks.now device.old device.new) }
    ensures stored { OnOk result (D.known device.old ≡ true → Only (D.seen device.new) (D.time device.new)) }
    ensures untouched { IfOk result (λ done. done ≢ Tagged.Flipped → device.new ≡ device.old) }
    ensures same { IfOk result (λ done. (done ≡ Tagged.Same) ↔ KeepComments edits.now blocks.now) }
    ensures failed { FailureIsCounted D.Device device.old device.new result }
{
    let old = comments_among(alloc, blocks)?;
    let new = edited(alloc, &old, edits)?;
    if are_same(&new, &old) {
        return Ok(Tagged::Same);
    }
    let Some(slots) = slots_of(alloc, blocks)? else {
        return Ok(Tagged::NoRoom);
    };
    if edit_in_place(alloc, device, &slots, &new)? {
        return Ok(Tagged::Flipped);
    }
    Ok(Tagged::NoRoom)
}

/// Edits the comments of a native file in place (RFC 9639, sections 6 and 8.6), as [`edit_in_place`] does: it reads the
/// marker and the metadata blocks from `source`, and writes to `device`, which is the same file. No byte from the first
/// frame on is read for it, and none is ever written.
///
/// A crash at any moment leaves a file with the blocks as they were, or with the edited comments, before the same
/// frames. Comments that no edit names stay byte by byte, and so do all other blocks. The same edits once more change
/// nothing if they begin with [`Edit::Clear`].
///
/// Nothing may be left to store when the call begins: sync a file that was just opened.
///
/// ```
/// match tag_in_place(alloc, &mut device, &mut source, &[Edit::Set(b"TITLE", b"Air")])? {
///     Tagged::Same | Tagged::Flipped => {}
///     Tagged::NoRoom => {} // write a new file: see `rewrite`
/// }
/// ```
///
/// # Errors
/// - [`TagFault::Stream`]: the marker or a block is refused, as [`flac_native::decode`] refuses it; the source returned
///   an error ([`Why::Read`]), or an allocation failed there ([`Why::Memory`]). Nothing was written.
/// - [`TagFault::Device`]: an allocation failed, or the device failed. The file has the old comments or the new ones:
///   open and sync it again before the next edit.
pub fn tag_in_place<R: Source, D: Device>(
    alloc: Global,
    device: &mut D,
    source: &mut R,
    edits: &[Edit<'_>],
) -> Result<Tagged, TagFault>
    // The source reads the file, from its first byte on.
    requires same { D.known device.old ≡ true
        → (R.known source.old ≡ true) × (R.coming source.old ≡ D.seen device.old) }
    requires durable { D.known device.old ≡ true → Only (D.seen device.old) (D.time device.old) }
    ensures known { D.known device.new ≡ D.known device.old }
    // A crash at any moment leaves a file that is read as the old blocks, or as those with the edited comments, before
    // the same frames.
    ensures any_moment { LeavesTagged R.Source D.Device source.old edits.now device.old device.new }
    // Whatever is returned, a read finds the old blocks, or those with the edited comments.
    ensures reads { ReadsTagged R.Source D.Device source.old edits.now device.old device.new }
    // `Flipped`: it has the edited comments. After each Ok all is stored.
    ensures flipped { IfFlipped result (HasTagged R.Source D.Device source.old edits.now device.old device.new) }
    ensures stored { OnOk result (D.known device.old ≡ true → Only (D.seen device.new) (D.time device.new)) }
    // Unless it is `Flipped`, nothing was written; nor was it if the stream is refused.
    ensures untouched { IfOk result (λ done. done ≢ Tagged.Flipped → device.new ≡ device.old) }
    ensures unread { IfErr result (λ f. IsOfStream f → device.new ≡ device.old) }
    // `Same` if the edits change none of its comments, and only then.
    ensures same { IfSame result (KeepsComments R.Source source.old edits.now) }
    ensures idle { IfOk result (λ done. IfNothingChanges R.Source source.old edits.now (done ≡ Tagged.Same)) }
    // Refused only as the marker and the blocks are, at that place and for that reason.
    ensures refused { IfErr result (IfStream (RefusalIsDueIn R.Source source.old source.new)) }
    // `Failed` is returned only if the device failed.
    ensures failed { FaultIsCounted D.Device device.old device.new (result ≡ Err (fault.Device DeviceError.Failed)) }
{
    let mut reader = BitReader::new(source);
    let read = read_blocks(alloc, &mut reader);
    let _source = reader.into_source(); // for its clauses alone
    let blocks = match read {
        Ok(blocks) => blocks,
        Err(fault) => return Err(TagFault::Stream(fault)),
    };
    let outcome = change_comments(alloc, device, &blocks, edits);
    drop(blocks);
    match outcome {
        Ok(done) => Ok(done),
        Err(error) => Err(TagFault::Device(error)),
    }
}
