//! Decodes a stream to bytes.

ghost use Rattle.std.specs.Prelude.{◌≡◌, ◌≢◌, true, OnOk, IfErr, Some, None};
ghost use Rattle.flac_native.specs.Item.{fault_pair};
ghost use Rattle.flac_ogg.specs.Verifying.{Verifies};
ghost use Rattle.flac_c.specs.Answers.{IsAnswered, in_c};
ghost use Rattle.flac_c.specs.Profiles.{profile_of};
ghost use Rattle.flac_c.specs.Sampled.{DecodesTo};
ghost use Rattle.flac_c.specs.inner.Sampled.{TakesStream};

use crate::fault::{FlacProvedFault, in_c};
use crate::profiles::profile_of;
use crate::texts::copy;
use flac_bits::{Collected, Memory, Why};
use flac_native::{Fault, Profile, SampleWriter, Sink};
use flac_ogg::decode_any;
use std::alloc::Global;

/// The reason for which a decoding is refused whose sink fails only if an allocation fails.
fn of_memory(why: Why) -> Why
    ensures sink { why ≡ Why.Sink → result ≡ Why.Memory }
    ensures others { why ≢ Why.Sink → result ≡ why }
{
    match why {
        Why::Sink => Why::Memory,
        other => other,
    }
}

/// Decodes a stream into a sink that fails only if an allocation fails. That is the error then.
pub(crate) fn collect<S: Sink>(
    alloc: Global,
    bytes: &[u8],
    profile: Profile,
    sink: &mut S,
) -> Result<(), Fault>
    requires known { S.known sink.old ≡ true }
    requires none { S.errors sink.old ≡ 0 }
    ensures done { OnOk result (TakesStream profile S.Sink bytes.now sink.old sink.new) }
    ensures refused { IfErr result (λ f. Verifies profile bytes.now (Some (fault_pair f))) }
{
    let mut source = Memory::new(bytes);
    match decode_any(alloc, &mut source, profile, sink) {
        Ok(()) => Ok(()),
        Err(fault) => Err(Fault {
            at: fault.at,
            why: of_memory(fault.why),
        }),
    }
}

/// Does what [`flac_proved_decode`] does, in a profile.
fn decode_by(
    alloc: Global,
    bytes: &[u8],
    width: u32,
    profile: Profile,
    out: &mut [u8],
    len: &mut usize,
    fault: &mut FlacProvedFault,
) -> u32
    ensures decoded { result ≡ 0 → DecodesTo profile bytes.now width out.old out.new len.new }
    ensures refused { result ≢ 0 → IsAnswered (Verifies profile bytes.now) fault.new }
    ensures kept { result ≢ 0 → (out.new ≡ out.old) × (len.new ≡ len.old) }
    ensures number { result ≡ fault.new.number }
    ensures clear { result ≡ 0 → fault.new ≡ in_c None }
{
    let mut sink = SampleWriter::new(Collected::new(alloc), width.min(4) as usize);
    if let Err(refusal) = collect(alloc, bytes, profile, &mut sink) {
        *fault = in_c(Err(refusal));
        return fault.number;
    }
    *fault = in_c(Ok(()));
    let target = sink.into_target();
    *len = copy(target.bytes(), out);
    0
}

/// Decodes a stream of the streamable subset, native or Ogg (RFC 9639, sections 6, 7 and 10.1), and writes its samples
/// as bytes to the front of `out`, as far as there is room: those of all channels at the first index, channel by
/// channel, then those at the next. Each has `width` bytes in two's complement, the lowest first; 0 stands for the
/// fewest bytes that hold its bits, and more than 4 for 4. `len` becomes the number of bytes of all samples.
///
/// Returns 0 if the bytes are one whole stream. Otherwise it returns the number of the fault, as `flac_proved_verify`
/// does, or 2 if an allocation fails; `out` and `len` are unchanged then.
#[unsafe(no_mangle)]
pub extern "C" fn flac_proved_decode(
    alloc: Global,
    bytes: &[u8],
    width: u32,
    out: &mut [u8],
    len: &mut usize,
    fault: &mut FlacProvedFault,
) -> u32
    ensures decoded { result ≡ 0 → DecodesTo Profile.Subset bytes.now width out.old out.new len.new }
    ensures refused { result ≢ 0 → IsAnswered (Verifies Profile.Subset bytes.now) fault.new }
    ensures kept { result ≢ 0 → (out.new ≡ out.old) × (len.new ≡ len.old) }
    ensures number { result ≡ fault.new.number }
    ensures clear { result ≡ 0 → fault.new ≡ in_c None }
{
    decode_by(alloc, bytes, width, Profile::Subset, out, len, fault)
}

/// Decodes a stream of a profile to bytes, as [`flac_proved_decode`] does: 0 stands for the streamable subset, any
/// other number for all streams (RFC 9639, section 7).
///
/// Returns 0 if the bytes are one whole stream. Otherwise it returns the number of the fault, as
/// `flac_proved_verify_in` does, or 2 if an allocation fails; `out` and `len` are unchanged then.
#[unsafe(no_mangle)]
pub extern "C" fn flac_proved_decode_in(
    alloc: Global,
    bytes: &[u8],
    width: u32,
    profile: u32,
    out: &mut [u8],
    len: &mut usize,
    fault: &mut FlacProvedFault,
) -> u32
    ensures decoded { result ≡ 0 → DecodesTo (profile_of profile) bytes.now width out.old out.new len.new }
    ensures refused { result ≢ 0 → IsAnswered (Verifies (profile_of profile) bytes.now) fault.new }
    ensures kept { result ≢ 0 → (out.new ≡ out.old) × (len.new ≡ len.old) }
    ensures number { result ≡ fault.new.number }
    ensures clear { result ≡ 0 → fault.new ≡ in_c None }
{
    decode_by(alloc, bytes, width, profile_of(profile), out, len, fault)
}
