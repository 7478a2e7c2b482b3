//! Other comments for a stream: the example of RFC 9639, appendix D.1, its digest unknown.

use flac_native::{
    Block, Bytes, Collected, Comments, Container, Decoder, Fault, Item, Memory, Pieces, Place,
    Profile, RetagFault, SinkFault, Texts, Why, only_one_head, retag,
};
use std::alloc::Global;
use std::error::Error;
use std::mem::drop;
use std::process::Abort;
use std::test::Fail;
use test_vectors::{CUT_COMMENTS, EXAMPLE, EXAMPLE_INFO, EXAMPLE_TAGGED, TWO_INFOS};

/// The example with the comment TITLE=y.
const EXAMPLE_RETAGGED: &str =
    "664c6143000000221000100000000f00000f0ac442f00000000100000000000000000000000000000000840000210e000000666c61\
    632070726f66696c65203101000000070000005449544c453d79fff869180000bf0358fd03128baa9a";

/// The example with the comment TITLE=x, after two bytes of padding.
const PADDED: &str =
    "664c6143000000221000100000000f00000f0ac442f00000000100000000000000000000000000000000010000020000840000210e\
    000000666c61632070726f66696c65203101000000070000005449544c453d78fff869180000bf0358fd03128baa9a";

/// The same with the padding after the comment.
const PADDED_RETAGGED: &str =
    "664c6143000000221000100000000f00000f0ac442f00000000100000000000000000000000000000000040000210e000000666c61\
    632070726f66696c65203101000000070000005449544c453d78810000020000fff869180000bf0358fd03128baa9a";

/// Comments of one text.
fn comments(alloc: Global, text: &[u8]) -> Result<Comments, Why> {
    let mut list = Vec::new(alloc);
    list.push(Bytes::from_vec(Vec::from_slice(alloc, text)?))?;
    Ok(Comments {
        vendor: Bytes::from_vec(Vec::from_slice(alloc, b"flac profile 1")?),
        list: Texts::from_vec(list),
    })
}

/// What is written of a stream with these comments, or why nothing is.
fn retagged(alloc: Global, stream: &[u8], comments: Comments) -> Result<Vec<u8>, RetagFault> {
    let mut source = Pieces::new(Memory::new(stream), 5);
    let mut target = Collected::new(alloc);
    let outcome = retag(alloc, &mut source, &comments, &mut target);
    drop(comments);
    outcome?;
    Ok(target.into_bytes())
}

/// What is written of the stream of some hex digits with this comment.
fn tagged(alloc: Global, text: &str, stream: &str) -> Result<Vec<u8>, Fail> {
    let stream = hex::decode(alloc, stream)?;
    let comments = comments(alloc, text.as_bytes())?;
    Ok(retagged(alloc, &stream, comments)?)
}

/// Sets a comment, and compares what is written.
fn is_set(
    rt: &impl Abort,
    alloc: Global,
    text: &str,
    stream: &str,
    wanted: &str,
) -> Result<(), Fail> {
    let found = tagged(alloc, text, stream)?;
    let wanted = hex::decode(alloc, wanted)?;
    assert!(rt; found.as_slice() == wanted.as_slice());
    Ok(())
}

/// A comment is added, and replaced; new ones stand before padding.
#[test]
fn comments_are_set(rt: HostRuntime) -> Result<(), Fail> {
    only_one_head();
    let alloc = rt.alloc();
    is_set(&rt, alloc, "TITLE=x", EXAMPLE, EXAMPLE_TAGGED)?;
    is_set(&rt, alloc, "TITLE=y", EXAMPLE_TAGGED, EXAMPLE_RETAGGED)?;
    is_set(&rt, alloc, "TITLE=x", PADDED, PADDED_RETAGGED)
}

/// Bytes that are no frames.
fn rest(alloc: Global) -> Result<Vec<u8>, Fail> {
    let mut rest = Vec::new(alloc);
    for i in 0..9000u32 {
        rest.push((i % 251) as u8)?;
    }
    Ok(rest)
}

/// What is written of the example's STREAMINFO and these bytes after it with the comment TITLE=x.
fn headed(alloc: Global, rest: &[u8]) -> Result<Vec<u8>, Fail> {
    let mut stream = hex::decode(alloc, EXAMPLE_INFO)?;
    stream.extend_from_slice(rest)?;
    let comments = comments(alloc, b"TITLE=x")?;
    Ok(retagged(alloc, &stream, comments)?)
}

/// Whether these bytes come after blocks of 79 bytes.
fn is_copied(found: &[u8], rest: &[u8]) -> bool {
    found.len() == 79 + 9000 && rest.len() == 9000 && found.ends_with(rest)
}

/// What comes after the blocks is not judged.
#[test]
fn the_rest_is_copied(rt: HostRuntime) -> Result<(), Fail> {
    let rest = rest(rt.alloc())?;
    let found = headed(rt.alloc(), &rest)?;
    assert!(rt; is_copied(&found, &rest));
    Ok(())
}

/// The outcome of setting the comment TITLE=x, and how many bytes are written.
fn outcome(alloc: Global, stream: &[u8]) -> Result<(Result<(), RetagFault>, usize), Why> {
    let comments = comments(alloc, b"TITLE=x")?;
    let mut target = Collected::new(alloc);
    let outcome = retag(alloc, &mut Memory::new(stream), &comments, &mut target);
    drop(comments);
    Ok((outcome, target.bytes().len()))
}

/// Checks that a stream is not given a comment, and nothing is written.
fn is_refused(
    rt: &impl Abort,
    alloc: Global,
    stream: &str,
    at: Place,
    why: Why,
) -> Result<(), Fail> {
    let stream = hex::decode(alloc, stream)?;
    let (outcome, count) = outcome(alloc, &stream)?;
    let at = Some(at);
    assert!(rt; outcome == Err(RetagFault { at, why }));
    assert!(rt; count == 0);
    Ok(())
}

/// A second STREAMINFO, a cut block, another marker.
#[test]
fn refused_metadata(rt: HostRuntime) -> Result<(), Fail> {
    let alloc = rt.alloc();
    is_refused(&rt, alloc, TWO_INFOS, Place::Block(1), Why::RepeatedBlock)?;
    is_refused(&rt, alloc, CUT_COMMENTS, Place::Block(1), Why::Truncated)?;
    is_refused(&rt, alloc, "664c6158", Place::Marker, Why::BadMarker)
}

/// A byte more than a block header can tell, of a source that is not read.
#[test]
fn too_long_comments(rt: HostRuntime) -> Result<(), Fail> {
    let mut vendor = Vec::new(rt.alloc());
    vendor.resize(16777208, 0x20)?;
    let comments = Comments {
        vendor: Bytes::from_vec(vendor),
        list: Texts::from_vec(Vec::new(rt.alloc())),
    };
    let (at, why) = (None, Why::BlockLength);
    let found = retagged(rt.alloc(), b"", comments);
    assert!(rt; found.err() == Some(RetagFault { at, why }));
    Ok(())
}

/// The value of the first comment of a stream, if it has this name.
fn first_value<C: Container>(
    alloc: Global,
    decoder: &mut Decoder<C>,
    name: &[u8],
) -> Result<Option<Vec<u8>>, Fail> {
    for _ in 0..u64::MAX {
        match decoder.next()? {
            Item::Block(Block::VorbisComment(comments)) => {
                if let Some((found, value)) = comments.parts(0) {
                    if found == name {
                        return Ok(Some(Vec::from_slice(alloc, value)?));
                    }
                }
            }
            Item::Block(_) => {}
            _ => return Ok(None),
        }
    }
    Ok(None)
}

#[test]
fn tags_of_a_stream(rt: HostRuntime) -> Result<(), Fail> {
    let stream = hex::decode(rt.alloc(), EXAMPLE_TAGGED)?;
    let mut decoder = Decoder::new(rt.alloc(), Memory::new(&stream), Profile::Subset);
    let title = first_value(rt.alloc(), &mut decoder, b"TITLE");
    drop(decoder);
    let title = title?.unwrap_or(Vec::new(rt.alloc()));
    assert!(rt; title.as_slice() == b"x".as_slice());
    Ok(())
}

/// The text of an error of any type, as a program prints it.
fn text_of<E: Error>(alloc: Global, error: &E) -> Result<String, Fail> {
    Ok(format!(in alloc; "{error}")?)
}

/// The errors are those of the standard library, too, so that a program can pass each of them on.
#[test]
fn errors_are_of_std(rt: HostRuntime) -> Result<(), Fail> {
    let alloc = rt.alloc();
    let at = Place::Frame(3);
    let why = Why::FrameCheck;
    let cut = RetagFault {
        at: Some(Place::Block(0)),
        why: Why::Truncated,
    };
    assert!(rt; text_of(alloc, &why)?.as_str() == "26 FrameCheck");
    assert!(rt; text_of(alloc, &Fault { at, why })?.as_str() == "frame 3: 26 FrameCheck");
    assert!(rt; text_of(alloc, &cut)?.as_str() == "block 0: 3 Truncated");
    assert!(rt; text_of(alloc, &SinkFault)?.as_str() == "the sink did not take the item");
    Ok(())
}
