//! The head of a plain WAV file.

ghost use Rattle.std.specs.Prelude.{◌≡◌, ◌≢◌, ◌<◌, map, IfOk, None, option_map};
ghost use Rattle.flac_frame.specs.Setup.{number_of};
ghost use Rattle.flac_wave.specs.Wave.{all_of};
ghost use Rattle.flac_c.specs.Answers.{IsCopied};
ghost use Rattle.flac_c.specs.Encoded.{IsMemoryOr};
ghost use Rattle.flac_c.specs.Waves.{head_fault, head_of};

use crate::texts::copy;
use flac_bits::Why;
use flac_frame::SetupFault;
use flac_wave::{WaveFormat, plain_pieces};
use std::alloc::{AllocError, Global};

/// Why there is no head of a file of this format and this length, if there is none.
#[tactic(auto, unfolding(crate::specs::Waves::head_fault))]
fn head_fault(rate: u32, channels: u32, bits: u32, total: u64) -> Option<SetupFault>
    ensures { result ≡ head_fault rate channels bits total }
{
    if channels == 0 || channels > 8 {
        return Some(SetupFault::BadChannels);
    }
    if rate >= 1 << 27 {
        return Some(SetupFault::BadRate);
    }
    if bits == 0 || bits > 32 {
        return Some(SetupFault::BadDepth);
    }
    if total >= 1 << 36 {
        return Some(SetupFault::TooLong);
    }
    None
}

/// The bytes of pieces, one after another.
fn joined(alloc: Global, pieces: &[Vec<u8>]) -> Result<Vec<u8>, AllocError>
    ensures { IfOk result (λ v. v.items ≡ all_of (map (λ p. p.items) pieces.now)) }
{
    let mut bytes = Vec::new(alloc);
    for piece in pieces {
        bytes.extend_from_slice(piece.as_slice())?;
    }
    Ok(bytes)
}

/// The head of a plain file.
///
/// # Errors
/// An allocation failed.
#[tactic(auto, unfolding(crate::specs::Waves::head_fault))]
fn plain_head(
    alloc: Global,
    rate: u32,
    channels: u32,
    bits: u32,
    total: u64,
) -> Result<Vec<u8>, AllocError>
    requires { head_fault rate channels bits total ≡ None }
    ensures { IfOk result (λ v. v.items ≡ head_of rate channels bits total) }
{
    let format = WaveFormat::plain(rate, channels, bits);
    let pieces = plain_pieces(alloc, &format, total)?;
    joined(alloc, pieces.as_slice())
}

/// Copies the head of a plain WAV file to the front of `out`, as far as there is room: all that comes before `total`
/// samples of each channel, at most 104 bytes. It is that of an RF64 file if one of RIFF would have 4294967303 bytes or
/// more. If `total` is 0, it is unknown: the lengths in the head are FFFFFFFF, and the samples go to the end of the
/// file. After the samples comes a zero, if their number of bytes is odd and `total` is not 0. `len` becomes the length
/// of the head.
///
/// Returns 0, or the number of the first reason for which there is none: 42 if `channels` is 0 or above 8, 40 if `rate`
/// is 134217728 Hz (2^27) or more, 41 if `bits` is 0 or above 32, 45 if `total` is 68719476736 (2^36) or more. Or 2 if
/// an allocation fails. `out` and `len` are unchanged then.
#[unsafe(no_mangle)]
#[tactic(auto, using(crate::proofs::Encodings::some_setup))]
pub extern "C" fn flac_proved_wave_head(
    alloc: Global,
    rate: u32,
    channels: u32,
    bits: u32,
    total: u64,
    out: &mut [u8],
    len: &mut usize,
) -> u32
    ensures head { result ≡ 0 → IsCopied (head_of rate channels bits total) out.old out.new len.new }
    ensures accepted { result ≡ 0 → head_fault rate channels bits total ≡ None }
    ensures refused { result ≢ 0 → IsMemoryOr (option_map number_of (head_fault rate channels bits total)) result }
    ensures kept { result ≢ 0 → (out.new ≡ out.old) × (len.new ≡ len.old) }
{
    if let Some(fault) = head_fault(rate, channels, bits, total) {
        return u32::from(fault.number());
    }
    match plain_head(alloc, rate, channels, bits, total) {
        Ok(head) => {
            *len = copy(head.as_slice(), out);
            0
        }
        Err(_) => u32::from(Why::Memory.number()),
    }
}
