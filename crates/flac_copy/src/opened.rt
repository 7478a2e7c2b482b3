//! A stream that was opened to be copied.

ghost use Rattle.std.specs.Prelude.{◌≡◌, true, false, not, IfOk, IfSome};
ghost use Rattle.std.specs.List.{list_all};
ghost use Rattle.flac_copy.specs.Serials.{serial_of};
ghost use Rattle.flac_copy.specs.Opened.{is_info, HasOneInfo, BecomesCopying, OpensAs, Opens};

use crate::again::Again;
use crate::head::read_head;
use crate::input::Input;
use crate::ogg_head::read_headers;
use crate::replayed::Replayed;
use crate::serial::find_serial;
use flac_bits::{Source, Why};
use flac_meta::{Block, StreamInfo};
use flac_native::{Fault, Place, Profile, Track};
use flac_ogg::{Fronted, begins_page, pull_front};
use flac_pages::Pages;
use std::alloc::Global;
use std::mem::drop;

/// A stream, native or Ogg, whose metadata was read by [`open`], and that is to be written with other metadata, each
/// frame's bytes as they are: by [`Copying::write_alike`], [`Copying::write_native`] or [`Copying::write_ogg`].
///
/// It holds one frame, and up to 8192 bytes more, in an Ogg stream one page more.
#[derive(Drop)]
pub struct Copying<S: Source> {
    pub(crate) alloc: Global,
    pub(crate) input: Input<S>,
    pub(crate) track: Track,
    pub(crate) info: StreamInfo,
    /// The serial number of an Ogg stream.
    pub(crate) serial: Option<u32>,
}

impl<S: Source> Copying<S> {
    /// The serial number of the Ogg stream that was opened (RFC 3533, section 6, field 5); `None` for a native stream.
    pub fn serial(&self) -> Option<u32>
        ensures { result ≡ serial_of self.now }
    {
        self.serial
    }
}

/// Whether a block is STREAMINFO.
fn is_info(block: &Block) -> bool
    ensures { result ≡ is_info block.now }
{
    matches!(block, Block::StreamInfo(_))
}

/// Whether none of these blocks is STREAMINFO.
fn has_no_info(blocks: &[Block]) -> bool
    ensures { result ≡ list_all (λ b. not (is_info b)) blocks.now }
{
    blocks.iter().all(|block| !is_info(block))
}

/// STREAMINFO, if it is the first of these blocks, and only the first.
fn one_info(blocks: &[Block]) -> Option<StreamInfo>
    ensures { IfSome result (λ info. HasOneInfo info blocks.now) }
{
    let Some((first, others)) = blocks.split_first() else {
        return None;
    };
    if !has_no_info(others) {
        return None;
    }
    match first {
        Block::StreamInfo(info) => Some(*info),
        _ => None,
    }
}

/// The stream after its blocks.
fn after_blocks<S: Source + Drop>(
    alloc: Global,
    blocks: Vec<Block>,
    input: Input<S>,
    track: Track,
    serial: Option<u32>,
) -> Result<(Vec<Block>, Copying<S>), Fault>
    ensures { IfOk result (λ r. BecomesCopying blocks.items input track serial r.0.items r.1) }
{
    match one_info(blocks.as_slice()) {
        Some(info) => {
            let _digest = info.digest(); // for its clauses alone
            Ok((
                blocks,
                Copying {
                    alloc,
                    input,
                    track,
                    info,
                    serial,
                },
            ))
        }
        None => Err(Fault {
            at: Place::Block(0),
            why: Why::NotStreamInfoFirst,
        }),
    }
}

/// Opens a native stream.
fn open_native<S: Source + Drop>(
    alloc: Global,
    source: S,
    profile: Profile,
) -> Result<(Vec<Block>, Copying<S>), Fault>
    ensures { IfOk result (λ r. OpensAs S.Source false profile source r.0.items r.1) }
{
    let mut again = Again::new(alloc, source);
    let mut track = Track::new(alloc, profile);
    match read_head(alloc, &mut again, &mut track) {
        Ok(blocks) => after_blocks(alloc, blocks, Input::Native(again), track, None),
        Err(fault) => Err(fault),
    }
}

/// The place of an error before the first page was read: that of the source at the page, else at the marker.
fn first_place(why: Why) -> Place {
    match why {
        Why::Read => Place::Page(0),
        _ => Place::Marker,
    }
}

/// Opens an Ogg stream.
fn open_ogg<S: Source + Drop>(
    alloc: Global,
    source: S,
    profile: Profile,
) -> Result<(Vec<Block>, Copying<S>), Fault>
    ensures { IfOk result (λ r. OpensAs S.Source true profile source r.0.items r.1) }
{
    let mut again = Again::new(alloc, source);
    let serial = match find_serial(&mut again) {
        Ok(serial) => serial,
        Err(why) => {
            return Err(Fault {
                at: first_place(why),
                why,
            });
        }
    };
    let mut pages = match Pages::new(alloc, Replayed::new(again)) {
        Ok(pages) => pages,
        Err(why) => {
            return Err(Fault {
                at: Place::Marker,
                why,
            });
        }
    };
    let mut track = Track::new(alloc, profile);
    match read_headers(alloc, &mut pages, &mut track) {
        Ok(blocks) => after_blocks(alloc, blocks, Input::Ogg(pages), track, serial),
        Err(fault) => Err(fault),
    }
}

/// Opens a stream to be copied: an Ogg stream if the first byte is `O`, that of a page (RFC 9639, section 10.1), a
/// native one otherwise (section 6). Returns its metadata blocks, of which STREAMINFO is the first, and the stream
/// after them.
///
/// It holds the blocks, and up to 8192 bytes more, in an Ogg stream one packet and one page more.
///
/// ```
/// let (mut blocks, copying) = open(rt.alloc(), Counted::new(file), Profile::Subset)?;
/// // change the blocks after the first
/// copying.write_alike(blocks.as_slice(), &mut target)?;
/// ```
///
/// # Errors
/// - [`Why::Read`] at the marker if the source returns an error for the first byte; [`Why::Memory`] if an allocation
///   fails.
/// - The fault of the marker, a page or a block at its place, as [`flac_ogg::decode_any`] reports it; but a packet that
///   is cut off, or longer than any part, is refused as such, whatever its bytes are.
pub fn open<R: Source + Drop>(
    alloc: Global,
    source: R,
    profile: Profile,
) -> Result<(Vec<Block>, Copying<Fronted<R>>), Fault>
    // If the bytes are known: they are a stream of these blocks, and of the frames that are left; its serial number is
    // that of its first page.
    ensures { IfOk result (λ r. Opens R.Source profile source r.0.items r.1) }
{
    let mut source = source;
    let front = match pull_front(&mut source) {
        Ok(front) => front,
        Err(fault) => {
            drop(source);
            return Err(fault);
        }
    };
    let source = Fronted { front, source };
    if begins_page(front) {
        open_ogg(alloc, source, profile)
    } else {
        open_native(alloc, source, profile)
    }
}
