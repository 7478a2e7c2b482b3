//! Reading of whole slices of bytes.

ghost use Rattle.std.specs.Prelude.{◌*◌, length};
ghost use Rattle.flac_bits.specs.Forms.{AreBytes};
ghost use Rattle.flac_bits.specs.Reading.{ReadsBytes, CallInPlace, PullsFor};
ghost use Rattle.flac_bits.specs.Unchecked.{ReadsAnew};

use crate::reader::BitReader;
use crate::source::Source;
use crate::why::Why;

/// Fills `out` with the next bytes. The reader need not be at a whole byte.
///
/// # Errors
/// Those of [`BitReader`], if fewer bytes are left: [`Why::Truncated`] at the end of the input, [`Why::FrameTooLong`]
/// at a fence, [`Why::Read`] if the source fails. What `out` has then is not specified.
pub fn read_bytes<R: Source>(bits: &mut BitReader<R>, out: &mut [u8]) -> Result<(), Why>
    ensures reading { CallInPlace (8 * length out.old) (ReadsBytes (length out.old) out.new) bits.old bits.new result }
    ensures needed { PullsFor (8 * length out.old) bits.old bits.new result }
{
    if bits.unread() > 0 {
        return read_each(bits, out);
    }
    match bits.take_bytes(out) {
        Ok(n) => {
            if n < out.len() {
                return Err(bits.short());
            }
            Ok(())
        }
        Err(why) => Err(why),
    }
}

/// What [`read_bytes`] does, byte by byte: for a reader that is inside a byte.
#[inline(never)]
#[tactic(auto, using(crate::proofs::Lists::list_more, crate::proofs::Lists::list_end, crate::proofs::Lists::list_start))]
fn read_each<R: Source>(bits: &mut BitReader<R>, out: &mut [u8]) -> Result<(), Why>
    ensures reading { CallInPlace (8 * length out.old) (ReadsBytes (length out.old) out.new) bits.old bits.new result }
    ensures needed { PullsFor (8 * length out.old) bits.old bits.new result }
{
    for i in 0..out.len() {
        out[i] = bits.take(8)? as u8;
    }
    Ok(())
}

/// Fills `out` with the next bytes, as [`read_bytes`] does, and restarts the checks after them if the reader is at a
/// whole byte. At a whole byte no check of these bytes is computed.
///
/// # Errors
/// Those of [`read_bytes`].
pub fn read_unchecked<R: Source>(bits: &mut BitReader<R>, out: &mut [u8]) -> Result<(), Why>
    ensures reading { CallInPlace (8 * length out.old) (ReadsAnew (length out.old) out.new) bits.old bits.new result }
    ensures needed { PullsFor (8 * length out.old) bits.old bits.new result }
{
    if bits.unread() > 0 {
        read_each(bits, out)?;
        bits.start_checks();
        return Ok(());
    }
    let count = bits.take_pieces(out, false)?;
    if count < out.len() {
        Err(bits.short())
    } else {
        Ok(())
    }
}

/// Law: each byte is below 256. It does nothing: a function calls it whose proof needs this of a slice.
pub fn bytes_fit(bytes: &[u8])
    ensures { AreBytes bytes.now }
{}
