//! Passes frames of a native stream: to the frame of a number, and to the frame that holds a sample.

ghost use Rattle.std.specs.Prelude.{◌≡◌, ◌≢◌, None, OnOk, IfOk, IfErr};
ghost use Rattle.flac_c.specs.Answers.{IsAnswered, in_c};
ghost use Rattle.flac_c.specs.Cursors.{NoFrame, passed};
ghost use Rattle.flac_c.specs.Passing.{PassesFrame, PassesAny, Passes, RefusesOn, OfFrames, GoesFurther, GoesFurtherAny};
ghost use Rattle.flac_c.specs.inner.Passing.{StopsOn};
ghost use Rattle.flac_c.specs.Profiles.{profile_of};

use crate::cursor::{FlacProvedCursor, info_from_c, passed};
use crate::fault::{FlacProvedFault, in_c};
use crate::profiles::profile_of;
use crate::stepping::fill_frame;
use flac_bits::Why;
use flac_frame::FrameBuffers;
use flac_native::{Fault, Place, Profile, bytes_from};
use std::alloc::Global;

/// The cursor after the frame at a cursor.
fn after_frame(
    alloc: Global,
    bytes: &[u8],
    profile: Profile,
    cursor: &FlacProvedCursor,
) -> Result<FlacProvedCursor, Why>
    ensures found { IfOk result (PassesFrame profile bytes.now cursor.now) }
    ensures fault { IfErr result (NoFrame profile bytes.now cursor.now) }
    ensures only { PassesAny profile bytes.now cursor.now result }
{
    let info = info_from_c(&cursor.info)?;
    let mut buffers = FrameBuffers::new(
        alloc,
        u32::from(info.channels()),
        u32::from(info.greatest_block()),
    )?;
    let rest = bytes_from(bytes, cursor.offset);
    match fill_frame(rest, &info, profile, &mut buffers) {
        Ok(taken) => Ok(passed(cursor, &buffers.view(), cursor.offset + taken)),
        Err(why) => Err(why),
    }
}

/// Passes frames from a cursor on, which is then at the next one: at most `count` of them, and none that ends after the
/// sample of this number. It stops at the end of the bytes.
fn pass_frames(
    alloc: Global,
    bytes: &[u8],
    profile: Profile,
    count: u64,
    sample: u64,
    cursor: &mut FlacProvedCursor,
) -> Result<(), Why>
    ensures passed { OnOk result (Passes profile bytes.now count sample cursor.old cursor.new) }
    ensures further { OnOk result (GoesFurther profile bytes.now count sample cursor.old cursor.new) }
    ensures refused { IfErr result (StopsOn profile bytes.now sample cursor.old cursor.new) }
    ensures memory { IfErr result (λ why. OfFrames profile bytes.now cursor.old (λ front frames. why ≡ Why.Memory)) }
{
    for done in 0..count {
        if cursor.offset == bytes.len() as u64 {
            return Ok(());
        }
        match after_frame(alloc, bytes, profile, cursor) {
            Ok(next) => {
                if next.sample > sample {
                    return Ok(());
                }
                *cursor = next;
            }
            Err(why) => return Err(why),
        }
    }
    Ok(())
}

/// Does what [`flac_proved_pass`] does, in a profile.
fn pass_by(
    alloc: Global,
    bytes: &[u8],
    profile: Profile,
    count: u64,
    sample: u64,
    cursor: &mut FlacProvedCursor,
    fault: &mut FlacProvedFault,
) -> u32
    ensures passed { result ≡ 0 → Passes profile bytes.now count sample cursor.old cursor.new }
    ensures streams { GoesFurtherAny profile bytes.now count sample result cursor.old cursor.new }
    ensures refused { result ≢ 0 → IsAnswered (RefusesOn profile bytes.now sample cursor.old) fault.new }
    ensures kept { result ≢ 0 → cursor.new ≡ cursor.old }
    ensures number { result ≡ fault.new.number }
    ensures clear { result ≡ 0 → fault.new ≡ in_c None }
{
    let mut at = *cursor;
    match pass_frames(alloc, bytes, profile, count, sample, &mut at) {
        Ok(()) => {
            *cursor = at;
            *fault = in_c(Ok(()));
            0
        }
        Err(why) => {
            let place = Place::Frame(at.frames);
            *fault = in_c(Err(Fault { at: place, why }));
            fault.number
        }
    }
}

/// Passes frames of a native stream of the streamable subset, from a cursor on: at most `count` of them, and none that
/// ends after the sample of this number, which is counted from 0 in each channel. The cursor is then at the frame after
/// them: after `flac_proved_start` and with a `sample` of 2^64 - 1 that is the frame of number `count`; with a `count`
/// of 2^64 - 1 it is the frame that holds the sample, unless the cursor was after it. If there is none it is at the
/// end.
///
/// Each frame that is passed is decoded, and judged as by `flac_proved_next` (RFC 9639, section 9).
///
/// Returns 0, or what `flac_proved_next` returns of the first frame that is refused; the cursor is unchanged then.
#[unsafe(no_mangle)]
pub extern "C" fn flac_proved_pass(
    alloc: Global,
    bytes: &[u8],
    count: u64,
    sample: u64,
    cursor: &mut FlacProvedCursor,
    fault: &mut FlacProvedFault,
) -> u32
    ensures passed { result ≡ 0 → Passes Profile.Subset bytes.now count sample cursor.old cursor.new }
    ensures streams { GoesFurtherAny Profile.Subset bytes.now count sample result cursor.old cursor.new }
    ensures refused { result ≢ 0 → IsAnswered (RefusesOn Profile.Subset bytes.now sample cursor.old) fault.new }
    ensures kept { result ≢ 0 → cursor.new ≡ cursor.old }
    ensures number { result ≡ fault.new.number }
    ensures clear { result ≡ 0 → fault.new ≡ in_c None }
{
    pass_by(alloc, bytes, Profile::Subset, count, sample, cursor, fault)
}

/// Passes frames of a native stream of a profile, as [`flac_proved_pass`] does: 0 stands for the streamable subset, any
/// other number for all streams (RFC 9639, section 7).
///
/// Returns what [`flac_proved_pass`] returns. The cursor is unchanged if that is not 0.
#[unsafe(no_mangle)]
pub extern "C" fn flac_proved_pass_in(
    alloc: Global,
    bytes: &[u8],
    profile: u32,
    count: u64,
    sample: u64,
    cursor: &mut FlacProvedCursor,
    fault: &mut FlacProvedFault,
) -> u32
    ensures passed { result ≡ 0 → Passes (profile_of profile) bytes.now count sample cursor.old cursor.new }
    ensures streams { GoesFurtherAny (profile_of profile) bytes.now count sample result cursor.old cursor.new }
    ensures refused { result ≢ 0 → IsAnswered (RefusesOn (profile_of profile) bytes.now sample cursor.old) fault.new }
    ensures kept { result ≢ 0 → cursor.new ≡ cursor.old }
    ensures number { result ≡ fault.new.number }
    ensures clear { result ≡ 0 → fault.new ≡ in_c None }
{
    pass_by(
        alloc,
        bytes,
        profile_of(profile),
        count,
        sample,
        cursor,
        fault,
    )
}
