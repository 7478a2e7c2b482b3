//! Copies a stream into Ogg.

ghost use Rattle.std.specs.Prelude.{OnOk};
ghost use Rattle.flac_copy.specs.ToOgg.{CopiesToOgg};

use crate::fault::CopyFault;
use crate::opened::open;
use flac_bits::{Source, Target};
use flac_native::Profile;
use std::alloc::Global;
use std::mem::drop;

/// Copies a stream, native or Ogg, into Ogg, each frame's bytes as they are (RFC 9639, sections 9 and 10.1).
///
/// The stream is read whole and judged as [`flac_ogg::decode_any`] judges it: each frame is decoded, and the number of
/// samples and the digest are compared. STREAMINFO stays. Of the other metadata blocks the comments come first, empty
/// ones if there are none, and a seek table is left out, since its offsets have no meaning in Ogg. Each frame is a
/// packet, whose last page has the number of samples so far as its granule position.
///
/// It holds the blocks, their packets with the pages, two frames with the pages of one, and up to 8192 bytes more, of
/// an Ogg stream one page more.
///
/// ```
/// copy_to_ogg(rt.alloc(), serial, Profile::Subset, &mut source, &mut target)?;
/// ```
///
/// # Errors
/// - [`CopyFault::Input`]: the stream is refused at this place; or the source returned an error there
///   ([`Why::Read`](flac_bits::Why::Read)), or an allocation failed ([`Why::Memory`](flac_bits::Why::Memory)). A prefix
///   was written.
/// - [`CopyFault::Blocks`]: an allocation for the header packets failed. Nothing was written.
/// - [`CopyFault::Write`]: the target returned an error. A prefix was written.
pub fn copy_to_ogg<R: Source, W: Target>(
    alloc: Global,
    serial: u32,
    profile: Profile,
    source: &mut R,
    target: &mut W,
) -> Result<(), CopyFault>
    // Ok only if the bytes are a stream of the profile, and the target was sent an Ogg stream with the same frames,
    // byte by byte.
    ensures { OnOk result (CopiesToOgg R.Source W.Target serial profile source.old target.old target.new) }
{
    match open(alloc, source, profile) {
        Ok((blocks, copying)) => {
            let outcome = copying.write_ogg(serial, blocks.as_slice(), target);
            drop(blocks);
            outcome
        }
        Err(fault) => Err(CopyFault::Input(fault)),
    }
}
