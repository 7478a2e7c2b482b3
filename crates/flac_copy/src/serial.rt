//! The serial number of an Ogg stream.

ghost use Rattle.std.specs.Prelude.{◌≡◌, None, IfOk};
ghost use Rattle.flac_copy.specs.Serials.{serial_in, ShowsSerial};

use crate::again::Again;
use flac_bits::{Source, Why};

/// How many bytes a page has up to the end of its serial number (RFC 3533, section 6, fields 1 to 5).
const END: usize = 18;

/// The serial number of the page that begins with these bytes, if they are enough (RFC 3533, section 6, field 5).
fn serial_in(bytes: &[u8]) -> Option<u32>
    ensures { result ≡ serial_in bytes.now }
{
    if bytes.len() < END {
        return None;
    }
    let mut number = [0; 4];
    number.copy_from_slice(&bytes[END - 4..END]);
    Some(u32::from_le_bytes(number))
}

/// The serial number of the page that a source begins with, whose bytes come again; `None` if the source ends before
/// it.
///
/// # Errors
/// [`Why::Read`] if the source returns an error, [`Why::Memory`] if an allocation fails.
pub(crate) fn find_serial<R: Source>(again: &mut Again<R>) -> Result<Option<u32>, Why>
    requires { again.old.fault ≡ None }
    ensures { IfOk result (λ serial. ShowsSerial R.Source again.old again.new serial) }
{
    match again.hold(END) {
        Ok(()) => Ok(serial_in(again.front(END))),
        Err(Why::Truncated) => Ok(None),
        Err(why) => Err(why),
    }
}
