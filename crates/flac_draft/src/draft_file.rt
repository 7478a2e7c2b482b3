//! A file as a target that can be written over.

ghost use Rattle.std.specs.Prelude.{◌≡◌, ◌<◌, ◌≤◌, ◌+◌, ◌-◌, ◌^◌, min, false, [], length, None, Some, IfOk, option_copied};

use crate::rewritable::Rewritable;
use flac_bits::Target;
use std::io;
use std::io::{Seek, SeekFrom, Write};

/// A target over any `std::io::Write` that is a `std::io::Seek`, such as a new file, from its position on. It counts
/// the device's errors and keeps the last one.
///
/// What a device keeps is not known to a proof. A buffer of the device's own is not flushed. A file that was opened to
/// append to cannot be written over. After an error nothing more is to be sent, since the device may have another
/// position.
///
/// ```
/// let file = File::create(&rt, "song.flac")?;
/// let mut encoder = DraftEncoder::new_in(alloc, &format, list, DraftFile::new(file)?)?;
/// ```
#[derive(Drop)]
pub struct DraftFile<T> {
    device: T,
    /// The device's position before the first byte that was sent.
    start: u64,
    /// How many bytes were sent.
    len: u64,
    errors: u64,
    last: Option<io::Error>,
}

impl<T: Seek + Drop> DraftFile<T> {
    /// Makes a target of the device, from its position on, with no error so far.
    ///
    /// # Errors
    /// The device's own, if its position is not known.
    pub fn new(device: T) -> io::Result<DraftFile<T>>
        ensures len { IfOk result (λ file. file.len ≡ 0) }
        ensures errors { IfOk result (λ file. file.errors ≡ 0) }
        ensures last { IfOk result (λ file. file.last ≡ None) }
    {
        let mut device = device;
        let start = device.stream_position()?;
        Ok(DraftFile {
            device,
            start,
            len: 0,
            errors: 0,
            last: None,
        })
    }
}

impl<T> DraftFile<T> {
    /// The device's last error, or `None` if it had none.
    pub fn last_error(&self) -> Option<&io::Error>
        ensures { option_copied result ≡ self.now.last }
    {
        self.last.as_ref()
    }

    /// Returns the device.
    pub fn into_inner(self) -> T
        ensures { result ≡ self.device }
    {
        let DraftFile {
            device,
            start: _,
            len: _,
            errors: _,
            last: _,
        } = self;
        device
    }

    /// Counts an error, up to 2^64 - 1, and keeps it.
    fn count(&mut self, error: io::Error)
        ensures errors { self.new.errors ≡ min (self.old.errors + 1) (2 ^ 64 - 1) }
        ensures kept { self.old.errors ≤ self.new.errors }
        ensures last { self.new.last ≡ Some error }
    {
        self.errors = self.errors.saturating_add(1);
        self.last = Some(error);
    }
}

/// Sends some of the bytes to a device, at least one, if there are any.
fn send_some<T: Write>(device: &mut T, bytes: &[u8]) -> io::Result<usize>
    ensures count { IfOk result (λ n. n ≤ length bytes.now) }
    ensures some { IfOk result (λ n. 0 < length bytes.now → 0 < n) }
{
    let n = device.write(bytes)?;
    if n == 0 && !bytes.is_empty() {
        return Err(io::Error::from(io::ErrorKind::WriteZero));
    }
    Ok(n)
}

/// Writes bytes at a position of a device, and then goes to another.
fn put_at<T: Write + Seek>(device: &mut T, at: u64, bytes: &[u8], then: u64) -> io::Result<()> {
    device.seek(SeekFrom::Start(at))?;
    device.write_all(bytes)?;
    device.seek(SeekFrom::Start(then))?;
    Ok(())
}

impl<T: Write> Target for DraftFile<T> {
    ghost known = { λ _. false };

    ghost sent = { λ _. [] };

    ghost errors = { λ f. f.errors };

    ghost names = { λ _. [] };

    fn send(&mut self, bytes: &[u8]) -> io::Result<usize> {
        match send_some(&mut self.device, bytes) {
            Ok(n) => {
                self.len = self.len.saturating_add(n as u64);
                Ok(n)
            }
            Err(error) => {
                self.count(error);
                Err(error)
            }
        }
    }
}

impl<T: Write + Seek> Rewritable for DraftFile<T> {
    fn sent_len(&self) -> u64 {
        self.len
    }

    fn write_over(&mut self, at: u64, bytes: &[u8]) -> io::Result<()> {
        if at > self.len || bytes.len() as u64 > self.len - at {
            let error = io::Error::from(io::ErrorKind::UnexpectedEof);
            self.count(error);
            return Err(error);
        }
        let place = self.start.saturating_add(at);
        let end = self.start.saturating_add(self.len);
        match put_at(&mut self.device, place, bytes, end) {
            Ok(()) => Ok(()),
            Err(error) => {
                self.count(error);
                Err(error)
            }
        }
    }
}
