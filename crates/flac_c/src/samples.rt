//! Decodes a stream to numbers.

ghost use Rattle.std.specs.Prelude.{◌≡◌, ◌≢◌, ◌++◌, [], nat_lt, OnOk, None};
ghost use Rattle.flac_frame.specs.Viewed.{frame_of};
ghost use Rattle.flac_frame.specs.Interleaved.{interleaved};
ghost use Rattle.flac_ogg.specs.Verifying.{Verifies};
ghost use Rattle.flac_c.specs.Answers.{IsAnswered, in_c};
ghost use Rattle.flac_c.specs.Profiles.{profile_of};
ghost use Rattle.flac_c.specs.Sampled.{numbers_from, WritesStream};
ghost use Rattle.flac_c.specs.inner.Sampled.{numbers_in};

use crate::decoding::collect;
use crate::fault::{FlacProvedFault, in_c};
use crate::profiles::profile_of;
use crate::texts::copy;
use flac_frame::FrameView;
use flac_meta::Block;
use flac_native::{Failures, Profile, Sink, SinkFault};
use std::alloc::{AllocError, Global};

/// Collects the samples of each frame.
#[derive(Drop)]
struct Numbers {
    list: Vec<i32>,
    failures: Failures,
}

/// Adds the samples of a frame.
fn push_frame(frame: &FrameView<'_>, list: &mut Vec<i32>) -> Result<(), AllocError>
    ensures { OnOk result (list.new.items ≡ list.old.items ++ interleaved (frame_of frame.now)) }
{
    let front = list.len();
    let count = frame.channels() * frame.len();
    list.resize(front + count, 0)?;
    let _all = frame.interleave(&mut list[front..]);
    Ok(())
}

impl Sink for Numbers {
    ghost takes = { λ old item new. new.list.items ≡ old.list.items ++ numbers_in item };

    ghost known = { λ s. nat_lt s.failures.count 18446744073709551615 };

    ghost errors = { λ s. s.failures.count };

    ghost names = { λ _. [] };

    fn block(&mut self, _block: &Block) -> Result<(), SinkFault> {
        Ok(())
    }

    fn frame(&mut self, frame: &FrameView<'_>) -> Result<(), SinkFault> {
        match push_frame(frame, &mut self.list) {
            Ok(()) => Ok(()),
            Err(_) => self.failures.fail(),
        }
    }
}

/// Does what [`flac_proved_samples`] does, in a profile.
fn samples_by(
    alloc: Global,
    bytes: &[u8],
    profile: Profile,
    out: &mut [i32],
    len: &mut usize,
    fault: &mut FlacProvedFault,
) -> u32
    ensures decoded { result ≡ 0 → WritesStream profile bytes.now numbers_from out.old out.new len.new }
    ensures refused { result ≢ 0 → IsAnswered (Verifies profile bytes.now) fault.new }
    ensures kept { result ≢ 0 → (out.new ≡ out.old) × (len.new ≡ len.old) }
    ensures number { result ≡ fault.new.number }
    ensures clear { result ≡ 0 → fault.new ≡ in_c None }
{
    let mut sink = Numbers {
        list: Vec::new(alloc),
        failures: Failures::new(),
    };
    if let Err(refusal) = collect(alloc, bytes, profile, &mut sink) {
        *fault = in_c(Err(refusal));
        return fault.number;
    }
    *fault = in_c(Ok(()));
    *len = copy(sink.list.as_slice(), out);
    0
}

/// Decodes a stream of the streamable subset, native or Ogg (RFC 9639, sections 6, 7 and 10.1), and writes its samples
/// to the front of `out`, as far as there is room: those of all channels at the first index, channel by channel, then
/// those at the next. `len` becomes the number of all samples.
///
/// Returns 0 if the bytes are one whole stream. Otherwise it returns the number of the fault, as `flac_proved_verify`
/// does, or 2 if an allocation fails; `out` and `len` are unchanged then.
#[unsafe(no_mangle)]
pub extern "C" fn flac_proved_samples(
    alloc: Global,
    bytes: &[u8],
    out: &mut [i32],
    len: &mut usize,
    fault: &mut FlacProvedFault,
) -> u32
    ensures decoded { result ≡ 0 → WritesStream Profile.Subset bytes.now numbers_from out.old out.new len.new }
    ensures refused { result ≢ 0 → IsAnswered (Verifies Profile.Subset bytes.now) fault.new }
    ensures kept { result ≢ 0 → (out.new ≡ out.old) × (len.new ≡ len.old) }
    ensures number { result ≡ fault.new.number }
    ensures clear { result ≡ 0 → fault.new ≡ in_c None }
{
    samples_by(alloc, bytes, Profile::Subset, out, len, fault)
}

/// Decodes a stream of a profile to numbers, as [`flac_proved_samples`] does: 0 stands for the streamable subset, any
/// other number for all streams (RFC 9639, section 7).
///
/// Returns 0 if the bytes are one whole stream. Otherwise it returns the number of the fault, as
/// `flac_proved_verify_in` does, or 2 if an allocation fails; `out` and `len` are unchanged then.
#[unsafe(no_mangle)]
pub extern "C" fn flac_proved_samples_in(
    alloc: Global,
    bytes: &[u8],
    profile: u32,
    out: &mut [i32],
    len: &mut usize,
    fault: &mut FlacProvedFault,
) -> u32
    ensures decoded { result ≡ 0 → WritesStream (profile_of profile) bytes.now numbers_from out.old out.new len.new }
    ensures refused { result ≢ 0 → IsAnswered (Verifies (profile_of profile) bytes.now) fault.new }
    ensures kept { result ≢ 0 → (out.new ≡ out.old) × (len.new ≡ len.old) }
    ensures number { result ≡ fault.new.number }
    ensures clear { result ≡ 0 → fault.new ≡ in_c None }
{
    samples_by(alloc, bytes, profile_of(profile), out, len, fault)
}
