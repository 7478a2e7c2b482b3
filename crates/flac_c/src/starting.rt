//! Makes cursors in a native stream.

ghost use Rattle.std.specs.Prelude.{◌≡◌, ◌≢◌, ◌⊎◌, [], IfOk, IfErr, Some, None};
ghost use Rattle.flac_header.specs.declared.subset.Profile.{Profile};
ghost use Rattle.flac_native.specs.Item.{fault_pair};
ghost use Rattle.flac_c.specs.Cursors.{OfStream, StartsIfStream};
ghost use Rattle.flac_c.specs.Answers.{IsAnswered, in_c};
ghost use Rattle.flac_c.specs.inner.Blocks.{IsFound, FrontRead, IsStart};
ghost use Rattle.flac_c.specs.Starts.{at_point, StandsFirst, StandsBefore, RefusesHead};

use crate::cursor::FlacProvedCursor;
use crate::fault::{FlacProvedFault, in_c};
use crate::info::info_counted;
use crate::metadata::{Metadata, read_parts};
use flac_bits::{BitReader, Memory, Why};
use flac_meta::SeekPoint;
use flac_native::{Fault, Place};
use std::alloc::Global;

/// Reads the marker and all blocks, and returns how many bytes they have.
fn read_front(alloc: Global, bytes: &[u8], found: &mut Metadata) -> Result<u64, Fault>
    requires { (profile : Profile) → IsFound profile found.old.sample [] found.old }
    ensures read { IfOk result (λ n. (profile : Profile) → FrontRead profile bytes.now n found.old.sample found.new) }
    ensures refused { IfErr result (λ f. (profile : Profile) → RefusesHead profile bytes.now (Some (fault_pair f))) }
{
    // Read only for the proof, which then knows that a slice is shorter than 2^64 bytes.
    let _len = bytes.len();
    let mut bits = BitReader::new(Memory::new(bytes));
    let outcome = read_parts(alloc, &mut bits, found);
    let taken = bits.bytes_taken();
    // Given back only for the proof, which then knows that a source in memory returns no error.
    let _source = bits.into_source();
    match outcome {
        Ok(()) => Ok(taken),
        Err(fault) => Err(fault),
    }
}

/// Makes a cursor at the first frame. `found` gets the seek point at or before the sample that is sought.
fn read_start(alloc: Global, bytes: &[u8], found: &mut Metadata) -> Result<FlacProvedCursor, Fault>
    requires { (profile : Profile) → IsFound profile found.old.sample [] found.old }
    ensures read { IfOk result
        (λ c. (profile : Profile) → IsStart profile bytes.now found.old.sample c found.new.point) }
    ensures refused { IfErr result (λ f. (profile : Profile) → RefusesHead profile bytes.now (Some (fault_pair f))) }
{
    let offset = match read_front(alloc, bytes, found) {
        Ok(offset) => offset,
        Err(fault) => return Err(fault),
    };
    match &found.info {
        Some(info) => Ok(FlacProvedCursor {
            offset,
            frames: 0,
            sample: 0,
            info: info_counted(info, found.comments),
        }),
        None => Err(Fault {
            at: Place::Marker,
            why: Why::NotStreamInfoFirst,
        }),
    }
}

/// The cursor at the frame that a seek point names. Its offset is counted from the first frame.
fn at_point(point: Option<SeekPoint>, first: FlacProvedCursor) -> FlacProvedCursor
    ensures { result ≡ at_point point first }
{
    match point {
        Some(point) => FlacProvedCursor {
            offset: first.offset.saturating_add(point.offset),
            sample: point.sample,
            frames: first.frames,
            info: first.info,
        },
        None => first,
    }
}

/// Reads the metadata of a native stream, and makes a cursor at its first frame, for `flac_proved_next` and
/// `flac_proved_next_in` (RFC 9639, sections 6 and 8): metadata is the same in each profile. An Ogg stream is refused
/// at the marker.
///
/// Returns 0, or the number of the fault of the marker or of a block, or 2 if an allocation fails; `cursor` is
/// unchanged then.
#[unsafe(no_mangle)]
pub extern "C" fn flac_proved_start(
    alloc: Global,
    bytes: &[u8],
    cursor: &mut FlacProvedCursor,
    fault: &mut FlacProvedFault,
) -> u32
    ensures first { result ≡ 0 → (profile : Profile) → StandsFirst profile bytes.now cursor.new }
    ensures streams { StartsIfStream bytes.now cursor.new result }
    ensures refused { result ≢ 0 → (profile : Profile) → IsAnswered (RefusesHead profile bytes.now) fault.new }
    ensures kept { result ≢ 0 → cursor.new ≡ cursor.old }
    ensures number { result ≡ fault.new.number }
    ensures clear { result ≡ 0 → fault.new ≡ in_c None }
{
    let mut found = Metadata::new(0);
    match read_start(alloc, bytes, &mut found) {
        Ok(first) => {
            *cursor = first;
            *fault = in_c(Ok(()));
            0
        }
        Err(refusal) => {
            *fault = in_c(Err(refusal));
            fault.number
        }
    }
}

/// Reads the metadata of a native stream, and makes a cursor at the frame that the last seek point at or before this
/// sample names, or at the first frame if there is no such point (RFC 9639, section 8.5). A seek table may be wrong:
/// whether a frame is there, and has this sample, shows when `flac_proved_next` reads it. An Ogg stream is refused at
/// the marker.
///
/// Returns 0, or the number of the fault of the marker or of a block, or 2 if an allocation fails; `cursor` is
/// unchanged then.
#[unsafe(no_mangle)]
pub extern "C" fn flac_proved_seek(
    alloc: Global,
    bytes: &[u8],
    sample: u64,
    cursor: &mut FlacProvedCursor,
    fault: &mut FlacProvedFault,
) -> u32
    ensures before { result ≡ 0 → (profile : Profile) → StandsBefore profile bytes.now sample cursor.new }
    ensures streams { (profile : Profile) → OfStream profile bytes.now (λ _. (result ≡ 2) ⊎ (result ≡ 0)) }
    ensures refused { result ≢ 0 → (profile : Profile) → IsAnswered (RefusesHead profile bytes.now) fault.new }
    ensures kept { result ≢ 0 → cursor.new ≡ cursor.old }
    ensures number { result ≡ fault.new.number }
    ensures clear { result ≡ 0 → fault.new ≡ in_c None }
{
    let mut found = Metadata::new(sample);
    match read_start(alloc, bytes, &mut found) {
        Ok(first) => {
            *cursor = at_point(found.point, first);
            *fault = in_c(Ok(()));
            0
        }
        Err(refusal) => {
            *fault = in_c(Err(refusal));
            fault.number
        }
    }
}
