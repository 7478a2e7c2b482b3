//! Sending of all of some bytes.

ghost use Rattle.std.specs.Prelude.{◌≡◌, IfErr};
ghost use Rattle.flac_bits.specs.Sending.{Sends};

use crate::target::Target;
use crate::why::Why;

/// Sends all the bytes. After an error, a prefix of them was sent.
///
/// # Errors
/// [`Why::Write`] if the target returned an error.
pub fn send_all<W: Target>(target: &mut W, bytes: &[u8]) -> Result<(), Why>
    ensures sends { Sends W.Target bytes.now target.old target.new result }
    ensures write { IfErr result (λ e. e ≡ Why.Write) }
{
    let mut left = bytes;
    while !left.is_empty() {
        match target.send(left) {
            Ok(n) => left = &left[n..],
            Err(_) => return Err(Why::Write),
        }
    }
    Ok(())
}
