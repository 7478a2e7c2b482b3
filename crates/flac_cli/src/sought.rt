//! `flac decode` of a part of a native stream in a file, which is read from a frame before the part on.

ghost use Rattle.std.specs.Prelude.{◌≡◌, ◌≢◌, ◌≤◌, Some, None, IfSome, OnOk};
ghost use Rattle.flac_compare.specs.inner.Stepping.{Stays, MeetsNone};
ghost use Rattle.flac_reader.specs.Giving.{last_frame};
ghost use Rattle.flac_reader.specs.Seeking.{IsNumbered};
ghost use Rattle.flac_cli.specs.Calls.{IfServed};
ghost use Rattle.flac_cli.specs.Excerpts.{NamesExcerpt};
ghost use Rattle.flac_cli.specs.Sought.{HasSought};
ghost use Rattle.flac_cli.specs.inner.Sought.{FindsSome, SendsFound};

use crate::excerpt::{ExcerptFault, refuse_excerpt, send_file, span_of};
use crate::frame_search::Wanted;
use crate::streams::profile_of;
use flac_bits::{Source, Target, Why};
use flac_jobs::Excerpt;
use flac_native::{Counted, Fault, Place, Profile};
use flac_reader::{BitReader, Container, Keep, Opened, Reader, move_to, open};
use std::alloc::Global;
use std::io::{Read, Seek};

/// Whether the frames of a stream are of one size, that of STREAMINFO, and numbered from 0 on (RFC 9639, section
/// 9.1.5), as its first frame says, at which its reader is. Then each number says which samples a frame has.
fn is_numbered<C: Container>(reader: &Reader<C>) -> bool {
    let block = usize::from(reader.info().greatest_block());
    match reader.frame() {
        Some(first) => !first.variable() && first.number() == 0 && first.len() == block,
        None => false,
    }
}

/// The fault of a part with the number of its frame in the stream, of which a reader has given some frames.
fn placed<C: Container>(reader: &Reader<C>, fault: ExcerptFault) -> ExcerptFault {
    match fault {
        ExcerptFault::Unread(fault) => {
            let block = u64::from(reader.info().greatest_block()).max(1);
            let number = (reader.first_sample() / block).saturating_add(1);
            let at = match fault.why {
                Why::Memory => fault.at,
                _ => Place::Frame(number),
            };
            ExcerptFault::Unread(Fault { at, why: fault.why })
        }
        other => other,
    }
}

/// After all frames: whether there were as many samples as STREAMINFO states, if it states their number.
fn counted<C: Container>(reader: &Reader<C>) -> Result<(), ExcerptFault> {
    let total = reader.info().total();
    if total == 0 || reader.first_sample() == total {
        return Ok(());
    }
    Err(ExcerptFault::Unread(Fault {
        at: Place::End,
        why: Why::TotalMismatch,
    }))
}

/// Sends the file of a part of the stream of a reader that is at the frame that holds the first sample of the part.
fn send_found<C: Container, W: Target>(
    alloc: Global,
    reader: &mut Reader<C>,
    excerpt: &Excerpt<'_>,
    target: &mut W,
) -> Result<(), ExcerptFault>
    ensures stays { Stays reader.old reader.new }
    ensures met { OnOk result (MeetsNone reader.old reader.new) }
    ensures says { OnOk result (SendsFound W.Target excerpt.now reader.old target.old target.new) }
{
    let span = match span_of(reader.info(), excerpt.from, excerpt.to) {
        Ok(span) => span,
        Err(fault) => return Err(ExcerptFault::Range(fault)),
    };
    let total = span.stated(reader.info().total());
    let span = span.after(reader.first_sample());
    match send_file(alloc, reader, span, total, excerpt.wave, target) {
        Ok(()) => {}
        Err(fault) => return Err(placed(reader, fault)),
    }
    match excerpt.to {
        Some(_) => Ok(()),
        None => counted(reader),
    }
}

/// A reader of the same stream, in a device whose bytes are those of the stream, at the frame that holds a sample.
/// `None` if it is not found, or if it is not worth a search.
fn found<R: Source + Drop, T: Read + Seek + Copy + Drop>(
    alloc: Global,
    reader: Reader<BitReader<R>>,
    device: T,
    profile: Profile,
    sample: u64,
) -> Option<Reader<BitReader<Counted<T>>>>
    ensures blocks { IfSome result (λ r. (r.blocks ≡ reader.blocks) × (r.info ≡ reader.info)) }
    ensures first { IfSome result (IsNumbered reader.info) }
    ensures found { IfSome result (FindsSome T.Seek T.Read device profile reader.info sample) }
{
    if !is_numbered(&reader) {
        return None;
    }
    let wanted = Wanted {
        info: reader.info(),
        profile,
        sample,
    };
    let start = reader.frames_start();
    let mut looking = device;
    let offset = wanted
        .offset_before(alloc, &mut looking, start)
        .unwrap_or(start);
    if offset == start {
        return None;
    }
    let Ok(device) = move_to(device, offset) else {
        return None;
    };
    match reader.seek_from(alloc, Counted::new(device), profile, sample) {
        Ok(reader) => at_frame(reader),
        Err(_) => None,
    }
}

/// A reader, if it is at a frame.
fn at_frame<C: Container + Drop>(reader: Reader<C>) -> Option<Reader<C>>
    ensures same { IfSome result (λ r. r ≡ reader) }
    ensures some { IfSome result (λ r. last_frame r ≢ None) }
{
    match reader.frame() {
        Some(_) => Some(reader),
        None => None,
    }
}

/// Opens a native stream, finds the part that is asked for, and sends it. `None` if it is to be read from the
/// beginning: nothing was sent.
fn send_sought<T: Read + Seek + Copy + Drop, W: Target>(
    alloc: Global,
    excerpt: &Excerpt<'_>,
    device: T,
    target: &mut W,
) -> Option<Result<(), ExcerptFault>>
    ensures none { result ≡ None → target.new ≡ target.old }
    ensures says { IfSome result (λ r. OnOk r
        (HasSought T.Seek T.Read W.Target excerpt.now device target.old target.new)) }
{
    let profile = profile_of(excerpt.lax);
    let opened = match open(alloc, Counted::new(device), profile, Keep::Tags) {
        Ok(opened) => opened,
        Err(_) => return None,
    };
    match opened {
        Opened::Native(reader) => {
            let sample = excerpt.from.sample_at(reader.info().rate());
            match found(alloc, reader, device, profile, sample) {
                Some(reader) => {
                    let mut reader = reader;
                    Some(send_found(alloc, &mut reader, excerpt, target))
                }
                None => None,
            }
        }
        Opened::Ogg(_) => None,
    }
}

/// Decodes a part of a native stream as [`crate::decode_excerpt`] does, but reads it from a frame shortly before the
/// part on. Returns the exit status; `None` if the part has to be decoded from the beginning of the stream: then
/// nothing was written. `device`, such as `&File`, is at the first byte of the stream, which is that of the device;
/// each copy of it moves all others.
///
/// The frame is found by halving the file among whole frames: their numbers say which samples they have, since all have
/// the same size (RFC 9639, section 9.1.5). Seek tables are not read. What is before that frame, and what is after the
/// part, may be damaged. `None` comes for an Ogg stream; for one whose first frame is not number 0, has a variable
/// block size or another than STREAMINFO states; if the part begins near the first frame, or after the last; and if the
/// stream is refused before the part.
pub fn seek_excerpt<T: Read + Seek + Copy + Drop, W: Target, E: Target>(
    alloc: Global,
    excerpt: &Excerpt<'_>,
    device: T,
    target: &mut W,
    err: &mut E,
) -> Option<u8>
    // The status is 0 or 1.
    ensures status { IfSome result (λ n. n ≤ 1) }
    // Nothing was written if there is none.
    ensures none { result ≡ None → (target.new ≡ target.old) × (err.new ≡ err.old) }
    // After status 0 the input is read as the metadata of a native stream, and some of its bytes on as frames of it, of
    // which the first that holds the first sample of the part, by its number, was taken: exactly the part was added.
    ensures sought { result ≡ Some 0 → HasSought T.Seek T.Read W.Target excerpt.now device target.old target.new }
    // After status 1, whatever failed, its line was added to standard error, if that did not fail. It names the output
    // if that could not be written, and else the input.
    ensures named { result ≡ Some 1 → IfServed E.Target err.old err.new (NamesExcerpt excerpt.now) }
{
    match send_sought(alloc, excerpt, device, target) {
        Some(Ok(())) => Some(0),
        Some(Err(fault)) => Some(refuse_excerpt(err, excerpt, fault)),
        None => None,
    }
}
