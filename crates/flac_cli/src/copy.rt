//! `flac recode --copy`: a stream whose frames are copied as they are.

ghost use Rattle.std.specs.Prelude.{◌≡◌, ◌≤◌, OnOk};
ghost use Rattle.flac_cli.specs.Calls.{IfServed};
ghost use Rattle.flac_cli.specs.Copies.{serial_in, CopiesStream, AddsCopyFault, NamesCopy};

use crate::report::refuse;
use flac_bits::{Source, Target, Why};
use flac_copy::{CopyFault, open};
use flac_jobs::{ContainerKind, StreamCopy};
use flac_native::Profile;
use std::alloc::Global;
use std::mem::drop;

/// The serial number of an Ogg stream; `None` for a native one.
fn serial_in(container: ContainerKind) -> Option<u32>
    ensures { result ≡ serial_in container }
{
    match container {
        ContainerKind::Native => None,
        ContainerKind::Ogg { serial } => Some(serial),
    }
}

/// Copies the frames of a stream, native or Ogg, also outside the streamable subset, after its own blocks.
///
/// # Errors
/// The fault of the stream or of the target, or that the blocks cannot be written in this container.
fn copy_stream<R: Source + Drop, W: Target>(
    alloc: Global,
    container: ContainerKind,
    source: R,
    target: &mut W,
) -> Result<(), CopyFault>
    ensures { OnOk result (CopiesStream R.Source W.Target container source target.old target.new) }
{
    match open(alloc, source, Profile::Lax) {
        Ok((blocks, copying)) => {
            let outcome = copying.write(serial_in(container), blocks.as_slice(), target);
            drop(blocks);
            outcome
        }
        Err(fault) => Err(CopyFault::Input(fault)),
    }
}

/// Writes the line of a copy that failed, and returns the status 1.
fn refuse_copy<E: Target>(err: &mut E, copy: &StreamCopy<'_>, fault: CopyFault) -> u8
    ensures status { result ≡ 1 }
    ensures line { IfServed E.Target err.old err.new (AddsCopyFault copy.now fault) }
{
    match fault {
        CopyFault::Input(fault) => refuse(err, copy.input, Some(fault.at), fault.why),
        CopyFault::Blocks(why) => refuse(err, copy.input, None, why),
        CopyFault::Write => refuse(err, copy.output, None, Why::Write),
    }
}

/// Reads a stream, native or Ogg, also outside the streamable subset, and writes it in the container that is asked for:
/// the same metadata blocks, and the bytes of each frame as they are. An Ogg stream has its comments first, empty ones
/// if there are none, and no seek table (RFC 9639, section 10.1). The frames are decoded, and the number of samples and
/// the digest are compared with STREAMINFO. Returns the exit status: 0 if the stream is written, else 1.
///
/// - `source`: the stream.
/// - `target`: the file that is written. After status 1 nothing or a prefix was written.
/// - `err`: standard error. After status 1 the line of the error was written to it.
pub fn copy_file<R: Source + Drop, W: Target, E: Target>(
    alloc: Global,
    copy: &StreamCopy<'_>,
    source: R,
    target: &mut W,
    err: &mut E,
) -> u8
    // The status is 0 or 1.
    ensures status { result ≤ 1 }
    // After status 0 the input is a stream of blocks and frames, and exactly a stream of the same blocks (in Ogg
    // without seek tables, comments first) and of the same frames, byte by byte, was added to the target.
    ensures copied { result ≡ 0 → CopiesStream R.Source W.Target copy.now.container source target.old target.new }
    // After status 0 nothing was written to standard error.
    ensures silent { result ≡ 0 → err.new ≡ err.old }
    // After status 1, whatever failed, its line was added to standard error, if that did not fail. It names the output
    // if that could not be written (39), and else the input.
    ensures named { result ≡ 1 → IfServed E.Target err.old err.new (NamesCopy copy.now) }
{
    match copy_stream(alloc, copy.container, source, target) {
        Ok(()) => 0,
        Err(fault) => refuse_copy(err, copy, fault),
    }
}
