//! Decodes one frame of a native stream after another.

ghost use Rattle.std.specs.Prelude.{◌≡◌, ◌≢◌, ◌≤◌, ◌<◌, ◌+◌, IfOk, IfErr, IsOkAnd, None, drop};
ghost use Rattle.flac_info.specs.Info.{KeepsRules};
ghost use Rattle.flac_frame.specs.Viewed.{frame_of};
ghost use Rattle.flac_c.specs.Answers.{IsAnswered, in_c};
ghost use Rattle.flac_c.specs.Cursors.{info_from_c, NoFrame, OfFrameAt, HandsOver, HandsNext, HandsFrame, HandsIfThere, HandsOrLacks, HandsAny, GivesNext, RefusesNext, GoesOnAny};
ghost use Rattle.flac_native.specs.FrameAt.{IsFrameAt, NoFrameAt};
ghost use Rattle.flac_c.specs.Profiles.{profile_of};

use crate::cursor::{FlacProvedCursor, info_from_c, passed};
use crate::fault::{FlacProvedFault, in_c};
use crate::profiles::profile_of;
use flac_bits::{BitReader, Memory, Why};
use flac_frame::{FrameBuffers, FrameView};
use flac_meta::StreamInfo;
use flac_native::{Fault, Place, Profile, bytes_from};
use std::alloc::Global;

/// Reads the frame with which these bytes begin, whatever its number is, and returns how many bytes it has.
pub(crate) fn fill_frame(
    bytes: &[u8],
    info: &StreamInfo,
    profile: Profile,
    buffers: &mut FrameBuffers,
) -> Result<u64, Why>
    requires rules { KeepsRules info.now }
    requires channels { info.now.channels ≤ buffers.old.channels }
    requires block { info.now.greatest_block ≤ buffers.old.max_block }
    requires first { buffers.old.before ≡ None }
    ensures found { IfOk result (λ n. IsFrameAt profile info.now bytes.now buffers.new.held n) }
    ensures fault { IfErr result (λ why. NoFrameAt profile info.now bytes.now why) }
    ensures only { OfFrameAt profile info.now bytes.now
        (λ f n. IsOkAnd result (λ m. (buffers.new.held ≡ f) × (m ≡ n))) }
{
    // Read only for the proof, which then knows that a slice is shorter than 2^64 bytes.
    let _len = bytes.len();
    let mut bits = BitReader::new(Memory::new(bytes));
    let outcome = buffers.fill(&mut bits, info, profile);
    let taken = bits.bytes_taken();
    // Given back only for the proof, which then knows that a source in memory returns no error.
    let _source = bits.into_source();
    match outcome {
        Ok(()) => Ok(taken),
        Err(why) => Err(why),
    }
}

/// Writes the samples of a frame that ends at an offset, if there is room for all of them, and moves the cursor after
/// it. Returns how many samples it has.
fn hand_over(
    frame: &FrameView<'_>,
    end: u64,
    cursor: &mut FlacProvedCursor,
    out: &mut [i32],
) -> usize
    requires { cursor.old.info.greatest_block ≤ 65535 }
    ensures { HandsOver (frame_of frame.now) end cursor.old cursor.new out.old out.new result }
{
    let count = frame.channels() * frame.len();
    if count <= out.len() {
        let _all = frame.interleave(out);
        *cursor = passed(cursor, frame, end);
    }
    count
}

/// Reads the frame at a cursor into buffers, and writes its samples.
fn step(
    bytes: &[u8],
    info: &StreamInfo,
    profile: Profile,
    buffers: &mut FrameBuffers,
    cursor: &mut FlacProvedCursor,
    out: &mut [i32],
) -> Result<usize, Why>
    requires rules { KeepsRules info.now }
    requires channels { info.now.channels ≤ buffers.old.channels }
    requires block { info.now.greatest_block ≤ buffers.old.max_block }
    requires first { buffers.old.before ≡ None }
    requires short { cursor.old.info.greatest_block ≤ 65535 }
    ensures found { IfOk result
        (λ len. HandsNext profile info.now bytes.now cursor.old cursor.new out.old out.new len) }
    ensures fault { IfErr result (λ why. NoFrameAt profile info.now (drop cursor.old.offset bytes.now) why) }
    ensures kept { IfErr result (λ _. (cursor.new ≡ cursor.old) × (out.new ≡ out.old)) }
    ensures only { HandsIfThere profile info.now bytes.now result cursor.old cursor.new out.old out.new }
{
    let taken = match fill_frame(bytes_from(bytes, cursor.offset), info, profile, buffers) {
        Ok(taken) => taken,
        Err(why) => return Err(why),
    };
    let end = cursor.offset + taken;
    Ok(hand_over(&buffers.view(), end, cursor, out))
}

/// Does what [`step`] does, and allocates the buffers.
fn step_alone(
    alloc: Global,
    bytes: &[u8],
    profile: Profile,
    cursor: &mut FlacProvedCursor,
    out: &mut [i32],
) -> Result<usize, Why>
    ensures found { IfOk result (HandsFrame profile bytes.now cursor.old cursor.new out.old out.new) }
    ensures fault { IfErr result (NoFrame profile bytes.now cursor.old) }
    ensures kept { IfErr result (λ _. (cursor.new ≡ cursor.old) × (out.new ≡ out.old)) }
    ensures only { HandsOrLacks profile bytes.now result cursor.old cursor.new out.old out.new }
{
    let info = info_from_c(&cursor.info)?;
    let mut buffers = FrameBuffers::new(
        alloc,
        u32::from(info.channels()),
        u32::from(info.greatest_block()),
    )?;
    step(bytes, &info, profile, &mut buffers, cursor, out)
}

/// Does what [`flac_proved_next`] does, in a profile.
fn next_by(
    alloc: Global,
    bytes: &[u8],
    profile: Profile,
    cursor: &mut FlacProvedCursor,
    out: &mut [i32],
    len: &mut usize,
    fault: &mut FlacProvedFault,
) -> u32
    ensures given { result ≡ 0 → GivesNext profile bytes.now cursor.old cursor.new out.old out.new len.new }
    ensures refused { result ≢ 0 → IsAnswered (RefusesNext profile bytes.now cursor.old) fault.new }
    ensures frames { HandsAny profile bytes.now result cursor.old cursor.new out.old out.new len.new }
    ensures streams { GoesOnAny profile bytes.now result cursor.old cursor.new out.old out.new len.new }
    ensures kept { result ≢ 0 → (cursor.new ≡ cursor.old) × (out.new ≡ out.old) × (len.new ≡ len.old) }
    ensures number { result ≡ fault.new.number }
    ensures clear { result ≡ 0 → fault.new ≡ in_c None }
{
    if cursor.offset == bytes.len() as u64 {
        *fault = in_c(Ok(()));
        *len = 0;
        return 0;
    }
    let at = Place::Frame(cursor.frames);
    match step_alone(alloc, bytes, profile, cursor, out) {
        Ok(count) => {
            *fault = in_c(Ok(()));
            *len = count;
            0
        }
        Err(why) => {
            *fault = in_c(Err(Fault { at, why }));
            fault.number
        }
    }
}

/// Decodes the frame at a cursor in a stream of the streamable subset, and writes its samples to the front of `out`:
/// those of all channels at the first index, channel by channel, then those at the next. `len` becomes the number of
/// its samples. If there is room for all of them, the cursor moves to the next frame; otherwise nothing is written, and
/// the cursor stays. At the end of the bytes `len` becomes 0, and the cursor stays.
///
/// The frame must agree with STREAMINFO. It may have any number, and neither the number of all samples nor their MD5 is
/// compared (RFC 9639, sections 8.2 and 9).
///
/// Returns 0, or the number of the fault of the frame, or 8 if the cursor's stream information breaks a rule of
/// STREAMINFO, or 2 if an allocation fails. The fault's place is the frame, counted from where the cursor was made. The
/// cursor, `out` and `len` are unchanged then.
#[unsafe(no_mangle)]
pub extern "C" fn flac_proved_next(
    alloc: Global,
    bytes: &[u8],
    cursor: &mut FlacProvedCursor,
    out: &mut [i32],
    len: &mut usize,
    fault: &mut FlacProvedFault,
) -> u32
    ensures given { result ≡ 0 → GivesNext Profile.Subset bytes.now cursor.old cursor.new out.old out.new len.new }
    ensures refused { result ≢ 0 → IsAnswered (RefusesNext Profile.Subset bytes.now cursor.old) fault.new }
    ensures frames { HandsAny Profile.Subset bytes.now result cursor.old cursor.new out.old out.new len.new }
    ensures streams { GoesOnAny Profile.Subset bytes.now result cursor.old cursor.new out.old out.new len.new }
    ensures kept { result ≢ 0 → (cursor.new ≡ cursor.old) × (out.new ≡ out.old) × (len.new ≡ len.old) }
    ensures number { result ≡ fault.new.number }
    ensures clear { result ≡ 0 → fault.new ≡ in_c None }
{
    next_by(alloc, bytes, Profile::Subset, cursor, out, len, fault)
}

/// Decodes the frame at a cursor in a stream of a profile, as [`flac_proved_next`] does: 0 stands for the streamable
/// subset, any other number for all streams (RFC 9639, section 7).
///
/// Returns what [`flac_proved_next`] returns. The cursor, `out` and `len` are unchanged if that is not 0.
#[unsafe(no_mangle)]
pub extern "C" fn flac_proved_next_in(
    alloc: Global,
    bytes: &[u8],
    profile: u32,
    cursor: &mut FlacProvedCursor,
    out: &mut [i32],
    len: &mut usize,
    fault: &mut FlacProvedFault,
) -> u32
    ensures given { result ≡ 0 →
        GivesNext (profile_of profile) bytes.now cursor.old cursor.new out.old out.new len.new }
    ensures refused { result ≢ 0 → IsAnswered (RefusesNext (profile_of profile) bytes.now cursor.old) fault.new }
    ensures frames { HandsAny (profile_of profile) bytes.now result cursor.old cursor.new out.old out.new len.new }
    ensures streams { GoesOnAny (profile_of profile) bytes.now result cursor.old cursor.new out.old out.new len.new }
    ensures kept { result ≢ 0 → (cursor.new ≡ cursor.old) × (out.new ≡ out.old) × (len.new ≡ len.old) }
    ensures number { result ≡ fault.new.number }
    ensures clear { result ≡ 0 → fault.new ≡ in_c None }
{
    next_by(alloc, bytes, profile_of(profile), cursor, out, len, fault)
}
