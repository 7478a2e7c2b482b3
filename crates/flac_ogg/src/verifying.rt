//! Bytes in memory: verifying a stream, and encoding and decoding again.

ghost use Rattle.std.specs.Prelude.{◌≢◌, ⊤, [], true, IfErr, ◌≡◌, ◌↔◌, List, false, IfOk, Err};
ghost use Rattle.flac_bits.specs.Handing.{outcome_of};
ghost use Rattle.flac_native.specs.Item.{fault_pair};
ghost use Rattle.flac_ogg.specs.Verifying.{Verifies, bytes_reading};
ghost use Rattle.flac_native.specs.Given.{fits_plan};
ghost use Rattle.flac_native.specs.Numbers.{is_of_whole};
ghost use Rattle.flac_native.specs.Seeking.{repeats_table};
ghost use Rattle.flac_native.specs.Stream.{Piece};
ghost use Rattle.flac_ogg.specs.RoundTrip.{EncodedBytes, IsJust, NativeBytes, OggBytes, is_no_ogg, is_repeated};
ghost use Rattle.flac_ogg.specs.Writing.{may_be_ogg};

use crate::decoding::decode_any;
use crate::encoding::encode_ogg;
use flac_bits::{Collected, Memory, Why, bytes_fit};
use flac_frame::{Audio, FrameView};
use flac_meta::{Block, BlockList};
use flac_native::{EncodeFault, Fault, Plan, Profile, Sink, SinkFault, encode};
use std::alloc::Global;

/// Takes every block and every frame.
#[derive(Drop)]
struct Anything;

impl Sink for Anything {
    ghost takes = { λ old item new. ⊤ };

    ghost known = { λ _. true };

    ghost errors = { λ _. 0 };

    ghost names = { λ _. [] };

    fn block(&mut self, _block: &Block) -> Result<(), SinkFault> {
        Ok(())
    }

    fn frame(&mut self, _frame: &FrameView<'_>) -> Result<(), SinkFault> {
        Ok(())
    }
}

/// Verifies that bytes are exactly one stream: an Ogg stream if the first byte is `O` (RFC 9639, section 10.1), a
/// native one otherwise (section 6). It checks the layout, the checksums of frames and pages, and the number and the
/// MD5 digest of the samples, if STREAMINFO states them.
///
/// ```
/// let outcome = verify(rt.alloc(), &bytes, Profile::Subset);
/// ```
///
/// # Errors
/// The place and the reason for which the stream is refused: those of [`crate::decode_ogg`] or of [`crate::decode`]. Or
/// [`Why::Memory`] if an allocation fails; no device is read.
pub fn verify(alloc: Global, bytes: &[u8], profile: Profile) -> Result<(), Fault>
    ensures verifies { Verifies profile bytes.now (outcome_of fault_pair result) }
    // No device is read, so none fails.
    ensures read { IfErr result (λ f. f.why ≢ Why.Read) }
    ensures sink { IfErr result (λ f. f.why ≢ Why.Sink) }
    ensures write { IfErr result (λ f. f.why ≢ Why.Write) }
{
    let mut source = Memory::new(bytes);
    let mut sink = Anything;
    decode_any(alloc, &mut source, profile, &mut sink)
}

/// Encodes into memory as a native stream.
fn native_bytes(
    alloc: Global,
    plan: &Plan,
    list: &BlockList,
    audio: &Audio,
) -> Result<Vec<u8>, EncodeFault>
    requires { fits_plan plan.now audio.now ≡ true }
    ensures encoded { IfOk result (λ bytes. NativeBytes plan.now list.now audio.now bytes.items) }
    ensures repeated { (result ≡ Err EncodeFault.RepeatedBlock) ↔ (repeats_table plan.now list.now ≡ true) }
    ensures mapping { result ≢ Err EncodeFault.BadMapping }
    ensures write { result ≢ Err EncodeFault.Write }
    ensures whole { IfErr result (λ e. is_of_whole e ≡ true) }
{
    let mut target = Collected::new(alloc);
    match encode(alloc, plan, list, audio, &mut target) {
        Ok(()) => {
            let bytes = target.into_bytes();
            bytes_fit(bytes.as_slice());
            Ok(bytes)
        }
        Err(fault) => Err(fault.in_memory()),
    }
}

/// Encodes into memory as an Ogg stream with this serial number.
fn ogg_bytes(
    alloc: Global,
    serial: u32,
    plan: &Plan,
    list: &BlockList,
    audio: &Audio,
) -> Result<Vec<u8>, EncodeFault>
    requires { fits_plan plan.now audio.now ≡ true }
    ensures encoded { IfOk result (λ bytes. OggBytes serial plan.now list.now audio.now bytes.items) }
    ensures repeated { result ≢ Err EncodeFault.RepeatedBlock }
    ensures mapping { (result ≡ Err EncodeFault.BadMapping) ↔ (may_be_ogg plan.now list.now ≡ false) }
    ensures write { result ≢ Err EncodeFault.Write }
    ensures whole { IfErr result (λ e. is_of_whole e ≡ true) }
{
    let mut target = Collected::new(alloc);
    match encode_ogg(alloc, serial, plan, list, audio, &mut target) {
        Ok(()) => {
            let bytes = target.into_bytes();
            bytes_fit(bytes.as_slice());
            Ok(bytes)
        }
        Err(fault) => Err(fault.in_memory()),
    }
}

/// Decodes a stream of a profile again. Its only error is `Memory`: an allocation failed.
fn decode_again(alloc: Global, bytes: &[u8], profile: Profile) -> Result<(), Why>
    requires { (items : List Piece) × IsJust (bytes_reading profile bytes.now) items }
    ensures memory { IfErr result (λ e. e ≡ Why.Memory) }
{
    match verify(alloc, bytes, profile) {
        Ok(()) => Ok(()),
        Err(fault) => Err(fault.why),
    }
}

/// Encodes samples into memory, decodes the bytes again in the plan's profile, and returns them: an Ogg stream with
/// this serial number (RFC 9639, section 10.1), or without one a native stream (section 6). They are a stream of
/// exactly what was given, as if by [`encode_ogg`] or [`encode`].
///
/// The plan must fit the samples ([`Plan::fits`]).
///
/// ```
/// let bytes = encode_and_decode(rt.alloc(), None, &plan, &blocks, &audio)?;
/// ```
///
/// # Errors
/// - [`EncodeFault::BadMapping`] for an Ogg stream, if the list does not begin with a Vorbis comment or the plan asks
///   for a seek table.
/// - [`EncodeFault::RepeatedBlock`] for a native stream, if the list has a seek table and the plan asks for one.
/// - [`EncodeFault::Memory`] if an allocation fails, in encoding or in decoding.
pub fn encode_and_decode(
    alloc: Global,
    serial: Option<u32>,
    plan: &Plan,
    list: &BlockList,
    audio: &Audio,
) -> Result<Vec<u8>, EncodeFault>
    requires { fits_plan plan.now audio.now ≡ true }
    ensures encoded { IfOk result (λ bytes. EncodedBytes serial plan.now list.now audio.now bytes.items) }
    ensures mapping { (result ≡ Err EncodeFault.BadMapping) ↔ (is_no_ogg serial plan.now list.now ≡ true) }
    ensures repeated { (result ≡ Err EncodeFault.RepeatedBlock) ↔ (is_repeated serial plan.now list.now ≡ true) }
    ensures write { result ≢ Err EncodeFault.Write }
    ensures whole { IfErr result (λ e. is_of_whole e ≡ true) }
{
    let bytes = match serial {
        Some(serial) => ogg_bytes(alloc, serial, plan, list, audio)?,
        None => native_bytes(alloc, plan, list, audio)?,
    };
    match decode_again(alloc, bytes.as_slice(), plan.profile()) {
        Ok(()) => Ok(bytes),
        Err(_) => Err(EncodeFault::Memory),
    }
}
