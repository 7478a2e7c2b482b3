//! A device that is moved, and is returned with its error if it cannot be.

ghost use Rattle.std.specs.Prelude.{◌≡◌, ◌<◌, is_some, nat_lt, IfOk, IfErr, option_copied};
ghost use Rattle.flac_reader.specs.Moved.{IsMoved, IsNotMoved};

use flac_native::Counted;
use std::io;
use std::io::{Seek, SeekFrom};

/// A device that is returned with a fault, and the last error that it returned: of moving it, or of reading it. What
/// [`Reader::seek_file`](crate::Reader::seek_file) returns of its device if it fails.
#[derive(Drop)]
pub struct Returned<T> {
    device: T,
    last: Option<io::Error>,
}

impl<T> Returned<T> {
    /// A device that was read.
    pub(crate) fn after_reading(counted: Counted<T>) -> Returned<T>
        ensures device { result.device ≡ counted.device }
        ensures last { is_some result.last ≡ nat_lt 0 counted.errors }
    {
        let last = counted.last_error().copied();
        Returned {
            device: counted.into_inner(),
            last,
        }
    }

    /// The device's last error, or `None` if it had none. After [`Why::Read`](crate::Why::Read) this says what went
    /// wrong.
    ///
    /// ```
    /// match reader.seek_file(rt.alloc(), file, Profile::Subset, 44100) {
    ///     Ok(reader) => play(reader),
    ///     Err(refused) => print(refused.fault, refused.left.last_error()),
    /// }
    /// ```
    pub fn last_error(&self) -> Option<&io::Error>
        ensures { option_copied result ≡ self.now.last }
    {
        self.last.as_ref()
    }

    /// Returns the device.
    pub fn into_inner(self) -> T
        ensures { result ≡ self.device }
    {
        let Returned { device, last: _ } = self;
        device
    }
}

/// Moves a device to its byte of this number, counted from 0.
///
/// # Errors
/// That of the device, with the device: it was asked, and may be anywhere.
pub fn move_to<T: Seek>(device: T, at: u64) -> Result<T, Returned<T>>
    ensures moved { IfOk result (λ moved. IsMoved T.Seek device moved at) }
    ensures unmoved { IfErr result (λ left. IsNotMoved T.Seek device left) }
{
    let mut device = device;
    match device.seek(SeekFrom::Start(at)) {
        Ok(_) => Ok(device),
        Err(error) => Err(Returned {
            device,
            last: Some(error),
        }),
    }
}
