//! `flac same` over streams in memory.

use flac_bits::{Collected, Counted, Memory, Target};
use flac_cli::compare_files;
use flac_jobs::Comparison;
use std::alloc::Global;
use std::io;
use std::io::{ErrorKind, Write};
use std::process::Abort;
use std::test::Fail;
use test_vectors::{EQUAL_8, EQUAL_24, EXAMPLE, ONE_SAMPLE, RISING, SILENT, bytes_of};

/// Compares two streams, with what is written to standard error in memory.
fn same_on<O: Target>(
    alloc: Global,
    streams: (&[u8], &[u8]),
    out: &mut O,
    err: &mut Collected,
) -> u8 {
    let paths = Comparison {
        first: "a.flac",
        second: "b.flac",
    };
    let mut first = Memory::new(streams.0);
    let mut second = Memory::new(streams.1);
    compare_files(alloc, &paths, &mut first, &mut second, out, err)
}

/// Whether comparing these streams returns this status and prints these texts.
fn is_compared(
    alloc: Global,
    first: &str,
    second: &str,
    due: (u8, &str, &str),
) -> Result<bool, Fail> {
    let first = bytes_of(alloc, first)?;
    let second = bytes_of(alloc, second)?;
    let mut out = Collected::new(alloc);
    let mut err = Collected::new(alloc);
    let status = same_on(alloc, (&first, &second), &mut out, &mut err);
    Ok((status, out.bytes(), err.bytes()) == (due.0, due.1.as_bytes(), due.2.as_bytes()))
}

#[test]
fn lines_of_differences(rt: HostRuntime) -> Result<(), Fail> {
    let alloc = rt.alloc();
    assert!(rt; is_compared(alloc, EXAMPLE, ONE_SAMPLE, (0, "", ""))?);
    assert!(rt; is_compared(alloc, RISING, RISING, (0, "", ""))?);
    let due = (1, "differ at sample 1 channel 0\n", "");
    assert!(rt; is_compared(alloc, RISING, SILENT, due)?);
    let due = (1, "channels 2 1\n", "");
    assert!(rt; is_compared(alloc, EXAMPLE, RISING, due)?);
    let due = (1, "bits 8 24\n", "");
    assert!(rt; is_compared(alloc, EQUAL_8, EQUAL_24, due)?);
    let due = (1, "bits 24 8\n", "");
    assert!(rt; is_compared(alloc, EQUAL_24, EQUAL_8, due)?);
    Ok(())
}

#[test]
fn refused_streams(rt: HostRuntime) -> Result<(), Fail> {
    let alloc = rt.alloc();
    let due = (1, "", "flac: a.flac: marker: 3 Truncated\n");
    assert!(rt; is_compared(alloc, "664c61", RISING, due)?);
    let due = (1, "", "flac: b.flac: marker: 4 BadMarker\n");
    assert!(rt; is_compared(alloc, RISING, "00112233", due)?);
    Ok(())
}

/// A device that takes no byte.
#[derive(Drop)]
pub(crate) struct Full;

impl Write for Full {
    fn write(&mut self, _bytes: &[u8]) -> io::Result<usize> {
        Err(io::Error::from(ErrorKind::StorageFull))
    }

    fn flush(&mut self) -> io::Result<()> {
        Ok(())
    }
}

#[test]
fn a_line_that_is_not_written(rt: HostRuntime) -> Result<(), Fail> {
    let alloc = rt.alloc();
    let rising = bytes_of(alloc, RISING)?;
    let silent = bytes_of(alloc, SILENT)?;
    let mut err = Collected::new(alloc);
    let status = same_on(alloc, (&rising, &silent), &mut Counted::new(Full), &mut err);
    assert!(rt; status == 1);
    assert!(rt; err.bytes() == b"flac: standard output: 39 Write\n".as_slice());
    Ok(())
}
