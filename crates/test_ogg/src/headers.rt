//! The header packets of an Ogg stream, and a packet that is held back until it is known whether more follow.

use crate::ogg::comments;
use flac_ogg::{Block, HeldPacket, begins_with_comment, headers_of};
use flac_pages::{PacketKind, PacketMarks};
use std::alloc::Global;
use std::mem::drop;
use std::test::Fail;
use test_vectors::{ONE_SAMPLE_COMMENTED, PAGES, PAGES_OF_NO_SAMPLES};

/// The first two pages of a stream of two channels, apart: that of the mapping, and that of a comment block of no
/// vendor and no comments.
fn first_pages(alloc: Global, stream: &str) -> Result<(Vec<u8>, Vec<u8>), Fail> {
    let pages = hex::decode(alloc, stream)?;
    let mapping = Vec::from_slice(alloc, pages.get(..79).unwrap_or(&[]))?;
    let comment = Vec::from_slice(alloc, pages.get(79..119).unwrap_or(&[]))?;
    Ok((mapping, comment))
}

/// Whether a packet is held back as the page of that comment block, which is the last one if no samples follow.
fn is_comment(alloc: Global, held: &HeldPacket) -> Result<bool, Fail> {
    let (_, middle) = first_pages(alloc, PAGES)?;
    let (_, last) = first_pages(alloc, PAGES_OF_NO_SAMPLES)?;
    Ok(
        held.middle.as_slice() == middle.as_slice()
            && held.last.as_slice() == last.as_slice()
            && held.next == 2,
    )
}

/// The headers of the example: the page of the mapping is sent, that of the comment block held back.
#[test]
fn headers_of_a_stream(rt: HostRuntime) -> Result<(), Fail> {
    let alloc = rt.alloc();
    let native = hex::decode(alloc, ONE_SAMPLE_COMMENTED)?;
    let (mapping, _) = first_pages(alloc, PAGES)?;
    assert!(rt; native.len() >= 42);
    let list = comments(alloc, 0)?;
    let outcome = headers_of(alloc, 1, native.as_slice(), &list);
    drop(list);
    let headers = outcome?;
    assert!(rt; headers.serial == 1);
    assert!(rt; headers.sent.as_slice() == mapping.as_slice());
    assert!(rt; is_comment(alloc, &headers.held)?);
    Ok(())
}

#[test]
fn held_back(rt: HostRuntime) -> Result<(), Fail> {
    let block = hex::decode(rt.alloc(), "840000080000000000000000")?;
    let marks = PacketMarks {
        serial: 1,
        sequence: 1,
        kind: PacketKind::Header,
        first: false,
        last: false,
    };
    let held = HeldPacket::new(rt.alloc(), marks, block.as_slice())?;
    assert!(rt; is_comment(rt.alloc(), &held)?);
    Ok(())
}

/// Whether a list with a comment block after this many paddings begins with it.
fn begins_after(alloc: Global, paddings: usize) -> Result<bool, Fail> {
    let list = comments(alloc, paddings)?;
    let begins = begins_with_comment(list.blocks());
    drop(list);
    Ok(begins)
}

#[test]
fn comment_first(rt: HostRuntime) -> Result<(), Fail> {
    assert!(rt; begins_after(rt.alloc(), 0)?);
    assert!(rt; !begins_after(rt.alloc(), 1)?);
    assert!(rt; !begins_with_comment(&[Block::Padding(0)]));
    assert!(rt; !begins_with_comment(&[]));
    Ok(())
}
