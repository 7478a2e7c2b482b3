//! A source over any reader, and a target over any writer.

ghost use Rattle.std.specs.Prelude.{◌≡◌, ◌<◌, ◌≤◌, ◌+◌, ◌-◌, [], length, take, IfOk, OnOk, OnErr, MatchResult, Some, is_some, option_copied, unwrap_or, min, ◌&&◌, nat_lt, ◌^◌};
ghost use Rattle.flac_bits.specs.State.{Rises, the_end};
ghost use Rattle.std.specs.Io.{ReadsAtMost};

use crate::source::Source;
use crate::target::Target;
use std::io;
use std::io::{Read, Write};

/// A source over any `std::io::Read`, or a target over any `std::io::Write`, such as a file. It counts the device's
/// errors and keeps the last one.
///
/// At most 2^64 - 1 bytes are read from a reader. If a writer takes none of the bytes that it is given, this is an
/// error too. A writer's own buffer is not flushed.
#[derive(Drop)]
pub struct Counted<T> {
    device: T,
    errors: u64,
    room: u64,
    last: Option<io::Error>,
    ghost kept: { is_some last ≡ nat_lt 0 errors },
}

impl<T> Counted<T> {
    /// Makes a source or a target of the device, with no error so far.
    ///
    /// ```
    /// let file = File::open(&rt, "song.flac")?;
    /// let mut bits = BitReader::new(Counted::new(file));
    /// ```
    pub fn new(device: T) -> Counted<T>
        ensures { (result.device ≡ device) × (result.errors ≡ 0) × (result.room ≡ 2 ^ 64 - 1) }
    {
        Counted {
            device,
            errors: 0,
            room: u64::MAX,
            last: None,
        }
    }

    /// The device's last error, or `None` if it had none. After `Why::Read` or `Why::Write` this says what went wrong,
    /// such as `No space left on device`.
    ///
    /// ```
    /// let mut file = Counted::new(file);
    /// let outcome = encode(rt.alloc(), &plan, &blocks, &audio, &mut file);
    /// if let Some(error) = file.last_error() {
    ///     let _ = eprintln!(rt; "{error}");
    /// }
    /// ```
    pub fn last_error(&self) -> Option<&io::Error>
        ensures error { option_copied result ≡ self.now.last }
        ensures counted { is_some result ≡ nat_lt 0 self.now.errors }
    {
        self.last.as_ref()
    }

    /// Counts an error, up to 2^64 - 1, and keeps it.
    fn count(&mut self, error: io::Error)
        ensures device { self.new.device ≡ self.old.device }
        ensures room { self.new.room ≡ self.old.room }
        ensures errors { self.new.errors ≡ min (self.old.errors + 1) (2 ^ 64 - 1) }
        ensures kept { self.old.errors ≤ self.new.errors }
        ensures last { self.new.last ≡ Some error }
    {
        self.errors = self.errors.saturating_add(1);
        self.last = Some(error);
    }

    /// Returns the device.
    pub fn into_inner(self) -> T
        ensures { result ≡ self.device }
    {
        let Counted {
            device,
            errors: _,
            room: _,
            last: _,
        } = self;
        device
    }
}

impl<T: Read> Source for Counted<T> {
    ghost use Rattle.flac_bits.specs.Devices.{IsKnown, IsEmpty, DeviceGave};

    ghost known = { λ s. is_some (T.remaining s.device) && nat_lt s.errors (2 ^ 64 - 1) };

    ghost coming = { λ s. take s.room (unwrap_or (T.remaining s.device) []) };

    ghost after = { λ _. the_end };

    ghost errors = { λ s. s.errors };

    ghost raised = { λ s. s.errors };

    ghost most = { λ s. s.room };

    ghost names = { λ _. [] };

    /// Reads some bytes from the device. An error of the device is counted, kept and returned.
    fn pull(&mut self, buf: &mut [u8]) -> io::Result<usize>
        ensures bound { ReadsAtMost result buf.new }
        ensures known { OnOk result (IsKnown T.remaining self.old.device → IsKnown T.remaining self.new.device) }
        ensures bytes { IfOk result (λ n. DeviceGave T.remaining (take n buf.new) self.old self.new) }
        ensures end { IfOk result (λ n. n ≡ 0 → 0 < length buf.new → IsEmpty T.remaining self.old) }
        ensures most { IfOk result (λ n. self.new.room + n ≤ self.old.room) }
        ensures counted { OnOk result (self.new.errors ≡ self.old.errors) }
        ensures kept { self.old.errors ≤ self.new.errors }
        ensures risen { OnErr result (Rises self.old.errors self.new.errors) }
        ensures by_one { OnErr result (self.new.errors ≡ min (self.old.errors + 1) (2 ^ 64 - 1)) }
        ensures last { MatchResult result (λ _. self.new.last ≡ self.old.last) (λ e. self.new.last ≡ Some e) }
    {
        let most = self.room.min(buf.len() as u64) as usize;
        match self.device.read(&mut buf[..most]) {
            Ok(n) => {
                self.room -= n as u64;
                Ok(n)
            }
            Err(error) => {
                self.count(error);
                Err(error)
            }
        }
    }
}

impl<T: Write> Target for Counted<T> {
    ghost use Rattle.flac_bits.specs.Devices.{IsKnown, Got, GotNone};

    ghost known = { λ s. is_some (T.contents s.device) && nat_lt s.errors (2 ^ 64 - 1) };

    ghost sent = { λ s. unwrap_or (T.contents s.device) [] };

    ghost errors = { λ s. s.errors };

    ghost names = { λ _. [] };

    /// Writes some of the bytes to the device. An error is counted, kept and returned, also if the device took no byte.
    fn send(&mut self, bytes: &[u8]) -> io::Result<usize>
        ensures count { IfOk result (λ n. n ≤ length bytes.now) }
        ensures some { IfOk result (λ n. 0 < length bytes.now → 0 < n) }
        ensures known { OnOk result (IsKnown T.contents self.old.device → IsKnown T.contents self.new.device) }
        ensures bytes { IfOk result (λ n. Got T.contents (take n bytes.now) self.old.device self.new.device) }
        ensures nothing { OnErr result (GotNone T.contents self.old.device self.new.device) }
        ensures counted { OnOk result (self.new.errors ≡ self.old.errors) }
        ensures kept { self.old.errors ≤ self.new.errors }
        ensures risen { OnErr result (Rises self.old.errors self.new.errors) }
        ensures by_one { OnErr result (self.new.errors ≡ min (self.old.errors + 1) (2 ^ 64 - 1)) }
        ensures last { MatchResult result (λ _. self.new.last ≡ self.old.last) (λ e. self.new.last ≡ Some e) }
    {
        match self.device.write(bytes) {
            Ok(n) => {
                if n == 0 && !bytes.is_empty() {
                    let nothing = io::Error::from(io::ErrorKind::WriteZero);
                    self.count(nothing);
                    return Err(nothing);
                }
                Ok(n)
            }
            Err(e) => {
                self.count(e);
                Err(e)
            }
        }
    }
}
