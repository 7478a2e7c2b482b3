use flac_bits::{
    BitWriter, Collected, Counted, FailAt, Target, Why, number_len, put_little_32, write_number,
};
use std::alloc::Global;
use std::io;
use std::io::{ErrorKind, Write};
use std::process::Abort;
use std::test::Fail;
use test_vectors::bytes_of;

/// Calls of a writer, and the bytes that are written.
const CALLS: &str = "four 10, signed -3, unary 2, rice 9, align, bytes | ad250102
digits | 303132333435363738396162636465666768
four 10, digits, align | a3031323334353637383961626364656667680
values, align | 216000000000000000000000000000000000000010
number 8364 | e282ac
number 127, number 128, number 65535, number 65536, number 2147483647, number 68719476735 | 7f c280 efbfbf f0908080 fdbfbfbfbfbf febfbfbfbfbfbf
little | 78563412";

/// Calls a writer by name.
fn put<W: Target>(writer: &mut BitWriter<W>, name: &str, number: i64) -> Result<(), Why> {
    match name {
        "four" => writer.put(4, number.unsigned_abs().min(15)),
        "signed" => writer.put_signed(4, number),
        "unary" => writer.put_unary(number.unsigned_abs()),
        "rice" => writer.put_rice(2, number.unsigned_abs()),
        "values" => writer.put_rice_partition(2, &[4, -5, 0, 300]),
        "bytes" => writer.put_bytes(&[1, 2]),
        "digits" => writer.put_bytes(b"0123456789abcdefgh"),
        "number" => write_number(number.unsigned_abs().min(0xF_FFFF_FFFF), writer),
        "little" => put_little_32(0x1234_5678, writer),
        _ => writer.align(),
    }
}

/// Makes a call of a row.
fn put_step<W: Target>(writer: &mut BitWriter<W>, step: &str) -> Result<(), Fail> {
    let (name, number) = step.split_once(' ').unwrap_or((step, "0"));
    put(writer, name, number.parse::<i64>()?)?;
    Ok(())
}

/// Makes the calls of a row.
fn put_steps<W: Target>(writer: &mut BitWriter<W>, calls: &str) -> Result<(), Fail> {
    for step in calls.split(", ") {
        put_step(writer, step)?;
    }
    Ok(())
}

/// How many bytes the writer counts after these calls, and the bytes that they write.
fn written(alloc: Global, calls: &str) -> Result<(u64, Vec<u8>), Fail> {
    let mut writer = BitWriter::new(Collected::new(alloc));
    put_steps(&mut writer, calls)?;
    let count = writer.bytes_written();
    Ok((count, writer.into_bytes()?))
}

/// Whether the calls of a row write its bytes, and the writer counts them.
fn is_written(alloc: Global, row: &str) -> Result<bool, Fail> {
    let (calls, words) = row.split_once(" | ").unwrap_or((row, ""));
    let wanted = bytes_of(alloc, words)?;
    let (count, found) = written(alloc, calls)?;
    Ok(count == wanted.len() as u64 && found.as_slice() == wanted.as_slice())
}

#[test]
fn calls(rt: HostRuntime) -> Result<(), Fail> {
    for row in CALLS.lines() {
        assert!(rt; is_written(rt.alloc(), row)?, "{row}");
    }
    Ok(())
}

/// A byte, and nine more over which the checks are made.
fn put_checked<W: Target>(writer: &mut BitWriter<W>) -> Result<(), Why> {
    writer.put(8, 7)?;
    writer.start_checks()?;
    writer.put_bytes(b"123456789")
}

#[test]
fn checks(rt: HostRuntime) -> Result<(), Fail> {
    let mut writer = BitWriter::new(Collected::new(rt.alloc()));
    put_checked(&mut writer)?;
    assert!(rt; writer.check8() == 0xF4 && writer.check16() == 0xFEE8);
    assert!(rt; writer.bytes_written() == 10);
    Ok(())
}

/// Four bits, a thousand words, and a unary number of 1004 bits.
fn put_words<W: Target>(writer: &mut BitWriter<W>) -> Result<(), Why> {
    writer.put(4, 5)?;
    for i in 0..1000u64 {
        writer.put(64, i)?;
    }
    writer.put_unary(1003)?;
    writer.finish()
}

#[test]
fn many_words(rt: HostRuntime) -> Result<(), Fail> {
    let mut writer = BitWriter::new(Collected::new(rt.alloc()));
    put_words(&mut writer)?;
    let bytes = writer.into_target().into_bytes();
    assert!(rt; bytes.len() == 8126);
    assert!(rt; bytes.get(8000).copied() == Some(0x70) && bytes.last().copied() == Some(1));
    Ok(())
}

/// A writer that takes one byte at a time and fails after n bytes.
#[derive(Drop)]
struct Trickle {
    bytes: [u8; 8],
    count: usize,
    most: usize,
}

impl Write for Trickle {
    fn write(&mut self, buf: &[u8]) -> io::Result<usize> {
        if self.count >= self.most || self.count >= 8 {
            return Err(io::Error::from(ErrorKind::Other));
        }
        match buf.first() {
            Some(byte) => {
                self.bytes[self.count] = *byte;
                self.count += 1;
                Ok(1)
            }
            None => Ok(0),
        }
    }

    fn flush(&mut self) -> io::Result<()> {
        Ok(())
    }
}

fn trickled(most: usize) -> (Result<(), Why>, Trickle) {
    let mut trickle = Trickle {
        bytes: [0; 8],
        count: 0,
        most,
    };
    let mut writer = BitWriter::new(Counted::new(&mut trickle));
    let written = writer.put(48, 0x0102_0304_0506);
    let sent = writer.finish();
    let _target = writer.into_target();
    (written.and(sent), trickle)
}

#[test]
fn one_byte_at_a_time(rt: HostRuntime) {
    let rows = [
        (8, Ok(()), [1, 2, 3, 4, 5, 6, 0, 0]),
        (3, Err(Why::Write), [1, 2, 3, 0, 0, 0, 0, 0]),
    ];
    for (most, wanted, bytes) in rows {
        let (outcome, trickle) = trickled(most);
        assert!(rt; outcome == wanted && trickle.bytes == bytes, "at {most}");
    }
}

/// A writer that takes nothing.
#[derive(Drop)]
struct Full;

impl Write for Full {
    fn write(&mut self, _buf: &[u8]) -> io::Result<usize> {
        Ok(0)
    }

    fn flush(&mut self) -> io::Result<()> {
        Ok(())
    }
}

#[test]
fn a_full_device(rt: HostRuntime) {
    let mut writer = BitWriter::new(Counted::new(Full));
    assert!(rt; writer.put(8, 1).is_ok());
    assert!(rt; writer.finish() == Err(Why::Write));
}

/// A writer on a device without room. 28 is the number that Linux gives this.
#[derive(Drop)]
struct NoRoom;

impl Write for NoRoom {
    fn write(&mut self, _buf: &[u8]) -> io::Result<usize> {
        Err(io::Error::from_raw_os_error(28))
    }

    fn flush(&mut self) -> io::Result<()> {
        Ok(())
    }
}

/// The text of the error that a writer's target kept.
fn last_text<T>(alloc: Global, target: &Counted<T>) -> Result<String, Fail> {
    let error = target.last_error().ok_or(Why::Write)?;
    Ok(format!(in alloc; "{error}")?)
}

/// Writes a byte on a device without room: whether it is taken and then not sent, and the text of the error that is
/// kept.
fn no_room(alloc: Global) -> (bool, Result<String, Fail>) {
    let mut writer = BitWriter::new(Counted::new(NoRoom));
    let failed = writer.put(8, 1).is_ok() && writer.finish() == Err(Why::Write);
    (failed, last_text(alloc, &writer.into_target()))
}

/// Sends a byte to a device that takes nothing: whether that fails, where no error was kept before, and the text of the
/// one that is kept.
fn nothing_taken(alloc: Global) -> (bool, Result<String, Fail>) {
    let mut full = Counted::new(Full);
    let failed = full.last_error().is_none() && full.send(&[1]).is_err();
    (failed, last_text(alloc, &full))
}

/// Compares the text of a kept error.
fn keeps(rt: &impl Abort, outcome: (bool, Result<String, Fail>), wanted: &str) -> Result<(), Fail> {
    let (failed, text) = outcome;
    let text = text?;
    assert!(rt; failed && text.as_str() == wanted);
    Ok(())
}

#[test]
fn the_last_error_of_a_writer(rt: HostRuntime) -> Result<(), Fail> {
    let alloc = rt.alloc();
    keeps(&rt, no_room(alloc), "No space left on device (os error 28)")?;
    keeps(&rt, nothing_taken(alloc), "write zero")
}

/// How many of these bytes a target takes, 255 if it fails.
fn sent<W: Target>(target: &mut W, bytes: &[u8]) -> usize {
    target.send(bytes).unwrap_or(255)
}

/// The second call fails, and sends nothing.
#[test]
fn a_target_that_fails_once(rt: HostRuntime) {
    let mut target = FailAt::new(Collected::new(rt.alloc()), 1);
    assert!(rt; sent(&mut target, b"ab") == 2);
    assert!(rt; sent(&mut target, b"cd") == 255);
    assert!(rt; sent(&mut target, b"ef") == 2);
    assert!(rt; target.calls() == 3);
    assert!(rt; target.into_inner().bytes() == b"abef".as_slice());
}

/// Only an error of writing is one of memory.
#[test]
fn errors_in_memory(rt: HostRuntime) {
    assert!(rt; Why::Write.in_memory() == Why::Memory);
    assert!(rt; Why::Spent.in_memory() == Why::Spent);
}

/// The largest number of each length (RFC 9639, section 9.1.5), and the number after it.
#[test]
fn lengths_of_numbers(rt: HostRuntime) {
    assert!(rt; number_len(0x7F) == 1 && number_len(0x80) == 2);
    assert!(rt; number_len(0x7FF) == 2 && number_len(0x800) == 3);
    assert!(rt; number_len(0xFFFF) == 3 && number_len(0x1_0000) == 4);
    assert!(rt; number_len(0x1F_FFFF) == 4 && number_len(0x20_0000) == 5);
    assert!(rt; number_len(0x3FF_FFFF) == 5 && number_len(0x400_0000) == 6);
    assert!(rt; number_len(0x7FFF_FFFF) == 6 && number_len(0x8000_0000) == 7);
}
