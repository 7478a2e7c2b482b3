//! Programs that go to the frame that holds a sample, and read it: in a native stream in memory, which they open, and in
//! a device. Their contracts say what they find, and follow from the clauses that the libraries export.

ghost use Rattle.std.specs.Prelude.{◌≡◌, true, is_some, Ok, IfOk, IfErr};
ghost use Rattle.flac_reader.specs.Giving.{last_frame};
ghost use Rattle.test_library.specs.Onward.{seen_of, ShowsStream, ShowsDevice};

use flac_reader::{
    BitReader, Container, Fault, Keep, Memory, Place, Profile, Reader, Source, Why, open_native,
    streams_are_cut,
};
use std::alloc::Global;
use std::io;
use std::io::{Cursor, ErrorKind, Read, Seek, SeekFrom};
use std::test::Fail;
use test_vectors::TEN_THOUSAND;

/// The number of a frame's first sample, and how many samples each channel has.
type Seen = Option<(u64, u64)>;

/// Reads the next frame.
fn next_frame<C: Container>(reader: &mut Reader<C>) -> Result<Seen, Fault>
    ensures { reader.old.ahead ≡ true → result ≡ Ok (seen_of reader.old.after (last_frame reader.old)) }
{
    let size = match reader.next() {
        Ok(Some(frame)) => frame.len() as u64,
        Ok(None) => return Ok(None),
        Err(fault) => return Err(fault),
    };
    Ok(Some((reader.first_sample(), size)))
}

/// The frame of a stream that holds a sample; `None` if there is none.
fn frame_with(alloc: Global, stream: &[u8], profile: Profile, sample: u64) -> Result<Seen, Fault>
    ensures { ShowsStream profile sample stream.now result }
{
    streams_are_cut(); // for its clauses alone
    let reader = match open_native(alloc, Memory::new(stream), profile, Keep::Tags) {
        Ok(reader) => reader,
        Err(refused) => return Err(refused.fault),
    };
    let mut reader = match reader.seek_in(alloc, stream, profile, sample) {
        Ok(reader) => reader,
        Err(fault) => return Err(fault),
    };
    next_frame(&mut reader)
}

/// Why a sample was not found in a device: the fault, and the device's last error.
#[derive(Debug, Drop)]
struct Failure {
    fault: Fault,
    error: Option<io::Error>,
}

/// The frame of a device that holds a sample, by what a reader of the same stream knows; `None` if there is none.
fn frame_on<R: Source + Drop, T: Read + Seek + Drop>(
    alloc: Global,
    reader: Reader<BitReader<R>>,
    device: T,
    sample: u64,
) -> Result<Seen, Failure>
    // What is found is among the frames that the device has where it was moved.
    ensures shows { IfOk result (ShowsDevice T.Seek T.Read reader device sample) }
    // An error of the device is reported only with the error.
    ensures asked { IfErr result (λ x. x.fault.why ≡ Why.Read → is_some x.error ≡ true) }
{
    match reader.seek_file(alloc, device, Profile::Subset, sample) {
        Ok(reader) => {
            let mut reader = reader;
            match next_frame(&mut reader) {
                Ok(seen) => Ok(seen),
                Err(fault) => Err(Failure { fault, error: None }),
            }
        }
        Err(refused) => {
            let fault = refused.fault;
            let error = refused.left.last_error().copied();
            Err(Failure { fault, error })
        }
    }
}

/// A device without bytes that cannot be moved.
#[derive(Drop)]
struct Unmovable {}

impl Read for Unmovable {
    fn read(&mut self, _buf: &mut [u8]) -> io::Result<usize> {
        Ok(0)
    }
}

impl Seek for Unmovable {
    fn seek(&mut self, _to: SeekFrom) -> io::Result<u64> {
        Err(io::Error::from(ErrorKind::NotSeekable))
    }
}

/// What is found in a device, with the number of the fault and the kind of the device's error if it is refused.
fn outcome<T: Read + Seek + Drop>(
    alloc: Global,
    stream: &[u8],
    device: T,
    sample: u64,
) -> Result<Seen, (Fault, Option<ErrorKind>)> {
    let reader = match open_native(alloc, Memory::new(stream), Profile::Subset, Keep::All) {
        Ok(reader) => reader,
        Err(refused) => return Err((refused.fault, None)),
    };
    match frame_on(alloc, reader, device, sample) {
        Ok(seen) => Ok(seen),
        Err(failure) => Err((failure.fault, failure.error.map(|error| error.kind()))),
    }
}

#[test]
fn frames_of_devices(rt: HostRuntime) -> Result<(), Fail> {
    let stream = hex::decode(rt.alloc(), TEN_THOUSAND)?;
    let found = outcome(rt.alloc(), &stream, Cursor::new(stream.as_slice()), 5000);
    assert!(rt; found == Ok(Some((4096, 4096))));
    let found = outcome(rt.alloc(), &stream, Cursor::new(stream.as_slice()), 10000);
    assert!(rt; found == Ok(None));
    let fault = Fault {
        at: Place::Frame(0),
        why: Why::Read,
    };
    let found = outcome(rt.alloc(), &stream, Unmovable {}, 5000);
    assert!(rt; found == Err((fault, Some(ErrorKind::NotSeekable))));
    Ok(())
}

/// The stream is the samples 0, 1, .., 9999 in frames of 4096, 4096 and 1808 samples.
#[test]
fn frames_with_samples(rt: HostRuntime) -> Result<(), Fail> {
    let stream = hex::decode(rt.alloc(), TEN_THOUSAND)?;
    let found = frame_with(rt.alloc(), &stream, Profile::Subset, 4095);
    assert!(rt; found == Ok(Some((0, 4096))));
    let found = frame_with(rt.alloc(), &stream, Profile::Subset, 4096);
    assert!(rt; found == Ok(Some((4096, 4096))));
    let found = frame_with(rt.alloc(), &stream, Profile::Subset, 9999);
    assert!(rt; found == Ok(Some((8192, 1808))));
    let found = frame_with(rt.alloc(), &stream, Profile::Subset, 10000);
    assert!(rt; found == Ok(None));
    Ok(())
}
