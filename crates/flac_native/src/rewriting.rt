//! Writes a stream with other metadata blocks.

ghost use Rattle.std.specs.Prelude.{◌≡◌, ◌≢◌, ◌<◌, true, OnOk, IfOk, IfErr};
ghost use Rattle.flac_bits.specs.Bits.{bits_of};
ghost use Rattle.flac_bits.specs.Written.{Adds};
ghost use Rattle.flac_native.specs.Retag.{not_read, not_written};
ghost use Rattle.flac_native.specs.Rewriting.{head_of, SendsWithBlocks};
ghost use Rattle.flac_native.specs.Sent.{TargetFailed};

use crate::encoding::write_each;
use crate::native::MARKER;
use crate::retagging::{RetagFault, copy_rest};
use flac_bits::{BitReader, BitWriter, Collected, Source, Target, Why, send_all};
use flac_meta::Block;
use std::alloc::Global;

/// Writes the marker fLaC and these blocks, of which the last is marked (RFC 9639, section 6).
fn write_head<W: Target>(blocks: &[Block], writer: &mut BitWriter<W>) -> Result<(), Why>
    ensures { OnOk result (Adds (head_of blocks.now) writer.old writer.new) }
{
    writer.put(32, MARKER)?;
    write_each(blocks, blocks.len(), writer)
}

/// The same bytes in memory.
fn head_bytes(alloc: Global, blocks: &[Block]) -> Result<Vec<u8>, Why>
    ensures made { IfOk result (λ head. bits_of head.items ≡ head_of blocks.now) }
    ensures unwritten { IfErr result (λ e. e ≢ Why.Write) }
{
    let mut writer = BitWriter::new(Collected::new(alloc));
    match write_head(blocks, &mut writer) {
        Ok(()) => writer.into_bytes(),
        Err(why) => Err(why.in_memory()),
    }
}

/// Writes the marker, these blocks, of which the last is marked, and then all bytes that are still to come (RFC 9639,
/// section 6). The reader is at the first frame, as after [`read_blocks`](crate::read_blocks); the frames are copied as
/// they are, 4096 bytes at a time.
///
/// # Errors
/// - Without a place: a reason why a block cannot be written, such as [`Why::BlockLength`], and [`Why::Memory`] if an
///   allocation failed. Nothing was written.
/// - [`Why::Write`] without a place: the target returned an error. A prefix of the output was written.
/// - [`Why::Read`] at frame 0: the source returned an error. The blocks and a prefix of the rest were written.
pub fn send_with_blocks<R: Source, W: Target>(
    alloc: Global,
    reader: &mut BitReader<R>,
    blocks: &[Block],
    target: &mut W,
) -> Result<(), RetagFault>
    requires { reader.old.cursor.mark.unread ≡ 0 }
    // What was sent is the marker, these blocks, and what the reader had still to read.
    ensures written { OnOk result (SendsWithBlocks W.Target blocks.now reader.old target.old target.new) }
    // Unless a device failed, nothing was sent.
    ensures nothing { IfErr result (λ f. f ≢ not_read → f ≢ not_written → target.new ≡ target.old) }
    // With `Write` the target returned an error, with `Read` the source, which is counted.
    ensures write { IfErr result (λ f. f.why ≡ Why.Write → TargetFailed W.Target target.old target.new) }
    ensures read { IfErr result (λ f. f ≡ not_read → reader.old.known ≡ true → reader.old.raised < reader.new.raised) }
{
    let head = match head_bytes(alloc, blocks) {
        Ok(head) => head,
        Err(why) => return Err(RetagFault { at: None, why }),
    };
    let sent = send_all(target, head.as_slice());
    drop(head);
    match sent {
        Ok(()) => copy_rest(reader, target),
        Err(_) => Err(RetagFault {
            at: None,
            why: Why::Write,
        }),
    }
}
