//! A native stream of the reference encoder, and the Ogg stream that mutagen's page writer makes of its packets.

use flac_bits::{Collected, FailAt, Memory};
use flac_copy::{CopyFault, copy_to_ogg};
use flac_native::{Fault, Place, Profile, Why};
use std::alloc::Global;
use std::mem::drop;
use std::test::Fail;

/// Three frames of 32, 32 and 6 samples, with a seek table, as flac 1.4.2 writes them.
pub(crate) const NATIVE: &str =
    "664c6143000000220020002000001500002b01f400f0000000466318d99a738bfb2680e62b09ee78aae90300001200000000000000000000\
    000000000000002084000028200000007265666572656e6365206c6962464c414320312e342e3220323032323130323200000000fff86408\
    001fbe1800000256049406a301688f0dce88d05d25e684bc490c1f951be51de84a0df08e10412ffff86408011fab16016903a705cd0149d0\
    a5dd3ace6ce38516093654c9650690d92438add1fa9620b2c0fff864080205d21802c104ec06f208b10108680dd7";

/// The same frames in Ogg, with the serial number 1 and without the seek table. flac 1.4.2 and oggz-validate accept it.
pub(crate) const OGG: &str =
    "4f676753000200000000000000000100000000000000e7087cc901337f464c414301000001664c6143000000220020002000001500002b01\
    f400f0000000466318d99a738bfb2680e62b09ee78aae94f676753000000000000000000000100000001000000619847cf012c8400002820\
    0000007265666572656e6365206c6962464c414320312e342e32203230323231303232000000004f67675300002000000000000000010000\
    0002000000c561829c012bfff86408001fbe1800000256049406a301688f0dce88d05d25e684bc490c1f951be51de84a0df08e10412f4f67\
    67530000400000000000000001000000030000002fd801ed012afff86408011fab16016903a705cd0149d0a5dd3ace6ce38516093654c965\
    0690d92438add1fa9620b2c04f676753000446000000000000000100000004000000fc972ef20115fff864080205d21802c104ec06f208b1\
    0108680dd7";

/// What the copy of a stream is: the outcome, and what was written.
fn copied(alloc: Global, stream: &[u8]) -> (Result<(), CopyFault>, Vec<u8>) {
    let mut target = Collected::new(alloc);
    let outcome = copy_to_ogg(
        alloc,
        1,
        Profile::Subset,
        &mut Memory::new(stream),
        &mut target,
    );
    (outcome, target.into_bytes())
}

#[test]
fn frames_are_kept(rt: HostRuntime) -> Result<(), Fail> {
    let stream = hex::decode(rt.alloc(), NATIVE)?;
    let expected = hex::decode(rt.alloc(), OGG)?;
    let (outcome, written) = copied(rt.alloc(), &stream);
    let same = written.as_slice() == expected.as_slice();
    drop(written);
    assert!(rt; outcome == Ok(()));
    assert!(rt; same);
    Ok(())
}

/// The last frame is damaged: the first is written before that is found.
#[test]
fn damage_is_found(rt: HostRuntime) -> Result<(), Fail> {
    let mut stream = hex::decode(rt.alloc(), NATIVE)?;
    let _last = stream.pop();
    stream.push(0)?;
    let expected = hex::decode(rt.alloc(), OGG)?;
    let (outcome, written) = copied(rt.alloc(), &stream);
    let begun = expected.as_slice().starts_with(written.as_slice());
    let some = written.len() > 100;
    drop(written);
    let fault = Fault {
        at: Place::Frame(2),
        why: Why::FrameCheck,
    };
    assert!(rt; outcome == Err(CopyFault::Input(fault)));
    assert!(rt; begun && some);
    Ok(())
}

/// The stream is cut off after two frames: the digest is not that of all samples.
#[test]
fn missing_frames_are_found(rt: HostRuntime) -> Result<(), Fail> {
    let stream = hex::decode(rt.alloc(), NATIVE)?;
    let (outcome, written) = copied(rt.alloc(), &stream[..stream.len().saturating_sub(21)]);
    drop(written);
    let fault = Fault {
        at: Place::End,
        why: Why::TotalMismatch,
    };
    assert!(rt; outcome == Err(CopyFault::Input(fault)));
    Ok(())
}

#[test]
fn failures_of_the_target(rt: HostRuntime) -> Result<(), Fail> {
    let stream = hex::decode(rt.alloc(), NATIVE)?;
    let mut target = FailAt::new(Collected::new(rt.alloc()), 2);
    let outcome = copy_to_ogg(
        rt.alloc(),
        1,
        Profile::Subset,
        &mut Memory::new(&stream),
        &mut target,
    );
    drop(target);
    assert!(rt; outcome == Err(CopyFault::Write));
    Ok(())
}

#[test]
fn failures_of_the_source(rt: HostRuntime) -> Result<(), Fail> {
    let stream = hex::decode(rt.alloc(), NATIVE)?;
    let mut source = FailAt::new(Memory::new(&stream), 1);
    let mut target = Collected::new(rt.alloc());
    let outcome = copy_to_ogg(rt.alloc(), 1, Profile::Subset, &mut source, &mut target);
    drop(target);
    let why = match outcome {
        Err(CopyFault::Input(fault)) => Some(fault.why),
        _ => None,
    };
    assert!(rt; why == Some(Why::Read));
    Ok(())
}
