//! Streams that are opened, and written with their own metadata or with other comments.

use crate::to_ogg::{NATIVE, OGG};
use flac_bits::{Collected, Memory, Pieces, Why};
use flac_copy::{CopyFault, open};
use flac_meta::Block;
use flac_native::{Fault, Place, Profile};
use std::alloc::{AllocError, Global};
use std::mem::drop;
use std::test::Fail;

/// The native stream without its seek table, as metaflac 1.4.2 leaves it (`--remove --block-type=SEEKTABLE
/// --dont-use-padding`). The frames of the Ogg stream are the same.
const PLAIN: &str =
    "664c6143000000220020002000001500002b01f400f0000000466318d99a738bfb2680e62b09ee78aae984000028200000007265666572656e\
    6365206c6962464c414320312e342e3220323032323130323200000000fff86408001fbe1800000256049406a301688f0dce88d05d25e684bc\
    490c1f951be51de84a0df08e10412ffff86408011fab16016903a705cd0149d0a5dd3ace6ce38516093654c9650690d92438add1fa9620b2c0\
    fff864080205d21802c104ec06f208b10108680dd7";

/// The native stream with a title, as metaflac 1.4.2 leaves it (`--set-tag=TITLE=Two --dont-use-padding`).
const TAGGED: &str =
    "664c6143000000220020002000001500002b01f400f0000000466318d99a738bfb2680e62b09ee78aae90300001200000000000000000000\
    000000000000002084000035200000007265666572656e6365206c6962464c414320312e342e32203230323231303232010000000900000054\
    49544c453d54776ffff86408001fbe1800000256049406a301688f0dce88d05d25e684bc490c1f951be51de84a0df08e10412ffff86408011f\
    ab16016903a705cd0149d0a5dd3ace6ce38516093654c9650690d92438add1fa9620b2c0fff864080205d21802c104ec06f208b10108680dd7";

/// The Ogg stream with a title, as mutagen 1.46 leaves it (`OggFLAC`, saved without padding).
const TAGGED_OGG: &str =
    "4f676753000200000000000000000100000000000000e7087cc901337f464c414301000001664c6143000000220020002000001500002b01\
    f400f0000000466318d99a738bfb2680e62b09ee78aae94f676753000000000000000000000100000001000000f882497e01398400003520\
    0000007265666572656e6365206c6962464c414320312e342e3220323032323130323201000000090000005449544c453d54776f4f676753\
    000020000000000000000100000002000000c561829c012bfff86408001fbe1800000256049406a301688f0dce88d05d25e684bc490c1f95\
    1be51de84a0df08e10412f4f6767530000400000000000000001000000030000002fd801ed012afff86408011fab16016903a705cd0149d0\
    a5dd3ace6ce38516093654c9650690d92438add1fa9620b2c04f676753000446000000000000000100000004000000fc972ef20115fff864\
    080205d21802c104ec06f208b10108680dd7";

/// What a copy is written as.
#[derive(Clone, Copy)]
enum To {
    Native,
    Ogg,
    /// The container in which it was read.
    Alike,
    /// An Ogg stream with this serial number, or a native stream.
    As(Option<u32>),
}

/// A title after the comments of the last block.
fn add_title(alloc: Global, blocks: &mut Vec<Block>) -> Result<(), AllocError> {
    match blocks.pop() {
        Some(Block::VorbisComment(comments)) => {
            let mut comments = comments;
            comments.push(alloc, b"TITLE", b"Two")?;
            blocks.push(Block::VorbisComment(comments))?;
            Ok(())
        }
        Some(other) => {
            drop(other);
            Ok(())
        }
        None => Ok(()),
    }
}

/// What a stream is with its own metadata, or with a title more: the outcome, and what was written.
fn rewritten(
    alloc: Global,
    stream: &[u8],
    title: bool,
    to: To,
) -> Result<(Result<(), CopyFault>, Vec<u8>), AllocError> {
    let mut target = Collected::new(alloc);
    let outcome = match open(alloc, Memory::new(stream), Profile::Subset) {
        Ok((mut blocks, copying)) => {
            if title {
                add_title(alloc, &mut blocks)?;
            }
            match to {
                To::Native => copying.write_native(&blocks, &mut target),
                To::Ogg => copying.write_ogg(1, &blocks, &mut target),
                To::Alike => copying.write_alike(&blocks, &mut target),
                To::As(serial) => copying.write(serial, &blocks, &mut target),
            }
        }
        Err(fault) => Err(CopyFault::Input(fault)),
    };
    Ok((outcome, target.into_bytes()))
}

/// Whether a stream is written so.
fn is_written(
    alloc: Global,
    stream: &str,
    title: bool,
    to: To,
    expected: &str,
) -> Result<bool, Fail> {
    let stream = hex::decode(alloc, stream)?;
    let expected = hex::decode(alloc, expected)?;
    let (outcome, written) = rewritten(alloc, &stream, title, to)?;
    let same = written.as_slice() == expected.as_slice();
    drop(written);
    drop(expected);
    drop(stream);
    Ok(same && outcome == Ok(()))
}

#[test]
fn ogg_to_native(rt: HostRuntime) -> Result<(), Fail> {
    let same = is_written(rt.alloc(), OGG, false, To::Native, PLAIN)?;
    assert!(rt; same);
    Ok(())
}

#[test]
fn ogg_to_ogg(rt: HostRuntime) -> Result<(), Fail> {
    let same = is_written(rt.alloc(), OGG, false, To::Ogg, OGG)?;
    assert!(rt; same);
    Ok(())
}

#[test]
fn native_to_native(rt: HostRuntime) -> Result<(), Fail> {
    let same = is_written(rt.alloc(), NATIVE, false, To::Native, NATIVE)?;
    assert!(rt; same);
    Ok(())
}

#[test]
fn a_title_in_native(rt: HostRuntime) -> Result<(), Fail> {
    let same = is_written(rt.alloc(), NATIVE, true, To::Native, TAGGED)?;
    assert!(rt; same);
    Ok(())
}

#[test]
fn a_title_in_ogg(rt: HostRuntime) -> Result<(), Fail> {
    let same = is_written(rt.alloc(), OGG, true, To::Ogg, TAGGED_OGG)?;
    assert!(rt; same);
    Ok(())
}

#[test]
fn a_title_as_native_was_read(rt: HostRuntime) -> Result<(), Fail> {
    let same = is_written(rt.alloc(), NATIVE, true, To::Alike, TAGGED)?;
    assert!(rt; same);
    Ok(())
}

#[test]
fn a_title_as_ogg_was_read(rt: HostRuntime) -> Result<(), Fail> {
    let same = is_written(rt.alloc(), OGG, true, To::Alike, TAGGED_OGG)?;
    assert!(rt; same);
    Ok(())
}

#[test]
fn in_a_given_container(rt: HostRuntime) -> Result<(), Fail> {
    let native = is_written(rt.alloc(), OGG, false, To::As(None), PLAIN)?;
    let ogg = is_written(rt.alloc(), OGG, true, To::As(Some(1)), TAGGED_OGG)?;
    assert!(rt; native);
    assert!(rt; ogg);
    Ok(())
}

/// The serial number of a stream, if it can be opened.
fn serial_of(alloc: Global, stream: &[u8]) -> Option<u32> {
    match open(alloc, Memory::new(stream), Profile::Subset) {
        Ok((blocks, copying)) => {
            drop(blocks);
            copying.serial()
        }
        Err(_) => None,
    }
}

#[test]
fn serial_numbers(rt: HostRuntime) -> Result<(), Fail> {
    let native = hex::decode(rt.alloc(), NATIVE)?;
    let ogg = hex::decode(rt.alloc(), OGG)?;
    let (outcome, other) = rewritten(rt.alloc(), &native, false, To::As(Some(0x0102_0304)))?;
    let of_native = serial_of(rt.alloc(), &native);
    let of_ogg = serial_of(rt.alloc(), &ogg);
    let of_other = serial_of(rt.alloc(), &other);
    drop(other);
    drop(ogg);
    drop(native);
    assert!(rt; outcome == Ok(()));
    assert!(rt; of_native == None);
    assert!(rt; of_ogg == Some(1));
    assert!(rt; of_other == Some(0x0102_0304));
    Ok(())
}

/// An Ogg stream that is written as it was read keeps its serial number.
#[test]
fn another_serial_number_stays(rt: HostRuntime) -> Result<(), Fail> {
    let native = hex::decode(rt.alloc(), NATIVE)?;
    let (first, ogg) = rewritten(rt.alloc(), &native, false, To::As(Some(0x0102_0304)))?;
    let (second, again) = rewritten(rt.alloc(), &ogg, false, To::Alike)?;
    let same = again.as_slice() == ogg.as_slice();
    drop(again);
    drop(ogg);
    drop(native);
    assert!(rt; first == Ok(()));
    assert!(rt; second == Ok(()));
    assert!(rt; same);
    Ok(())
}

/// A source that gives one byte at a time.
#[test]
fn pieces_of_one_byte(rt: HostRuntime) -> Result<(), Fail> {
    let stream = hex::decode(rt.alloc(), OGG)?;
    let mut target = Collected::new(rt.alloc());
    let source = Pieces::new(Memory::new(&stream), 1);
    let outcome = match open(rt.alloc(), source, Profile::Subset) {
        Ok((blocks, copying)) => copying.write_alike(&blocks, &mut target),
        Err(fault) => Err(CopyFault::Input(fault)),
    };
    let same = target.bytes() == stream.as_slice();
    drop(target);
    drop(stream);
    assert!(rt; outcome == Ok(()));
    assert!(rt; same);
    Ok(())
}

/// The first bytes of a page: too few for its serial number.
#[test]
fn part_of_a_page(rt: HostRuntime) -> Result<(), Fail> {
    let stream = hex::decode(rt.alloc(), OGG)?;
    let first = stream.get(..17).unwrap_or(&[]);
    let (outcome, written) = rewritten(rt.alloc(), first, false, To::Alike)?;
    drop(written);
    let fault = Fault {
        at: Place::Page(0),
        why: Why::Truncated,
    };
    assert!(rt; outcome == Err(CopyFault::Input(fault)));
    Ok(())
}

/// A list that begins with another block is refused.
#[test]
fn another_first_block(rt: HostRuntime) -> Result<(), Fail> {
    let stream = hex::decode(rt.alloc(), OGG)?;
    let mut target = Collected::new(rt.alloc());
    let outcome = match open(rt.alloc(), Memory::new(&stream), Profile::Subset) {
        Ok((blocks, copying)) => copying.write_native(&blocks[1..], &mut target),
        Err(fault) => Err(CopyFault::Input(fault)),
    };
    drop(target);
    assert!(rt; outcome == Err(CopyFault::Blocks(Why::NotStreamInfoFirst)));
    Ok(())
}

/// A byte of the last frame is changed, and so the page is refused.
#[test]
fn damage_in_ogg(rt: HostRuntime) -> Result<(), Fail> {
    let mut stream = hex::decode(rt.alloc(), OGG)?;
    let _last = stream.pop();
    stream.push(0)?;
    let (outcome, written) = rewritten(rt.alloc(), &stream, false, To::Native)?;
    drop(written);
    let fault = Fault {
        at: Place::Page(4),
        why: Why::PageCheck,
    };
    assert!(rt; outcome == Err(CopyFault::Input(fault)));
    Ok(())
}

/// The first page alone: a metadata block is missing.
#[test]
fn no_blocks_in_ogg(rt: HostRuntime) -> Result<(), Fail> {
    let stream = hex::decode(rt.alloc(), OGG)?;
    let first = stream.get(..79).unwrap_or(&[]);
    let (outcome, written) = rewritten(rt.alloc(), first, false, To::Native)?;
    drop(written);
    let fault = Fault {
        at: Place::End,
        why: Why::NoEndPage,
    };
    assert!(rt; outcome == Err(CopyFault::Input(fault)));
    Ok(())
}
