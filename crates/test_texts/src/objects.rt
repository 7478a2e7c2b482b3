//! Blocks as lines of JSON, as they were written by hand from RFC 8259.

use flac_json::{Field, block_json, line_end, line_front};
use flac_meta::{Block, Bytes, Comments, StreamInfo, Texts};
use std::alloc::{AllocError, Global};
use std::test::Fail;

/// A vector of these bytes.
fn bytes_of(alloc: Global, bytes: &[u8]) -> Result<Bytes, AllocError> {
    Ok(Bytes::from_vec(Vec::from_slice(alloc, bytes)?))
}

/// A list of these texts.
fn texts_of(alloc: Global, texts: &[&[u8]]) -> Result<Texts, AllocError> {
    let mut list = Vec::new(alloc);
    for text in texts {
        list.push(bytes_of(alloc, text)?)?;
    }
    Ok(Texts::from_vec(list))
}

/// A block of comments with these texts.
fn comment_block(alloc: Global, vendor: &[u8], texts: &[&[u8]]) -> Result<Block, AllocError> {
    let list = texts_of(alloc, texts)?;
    let vendor = bytes_of(alloc, vendor)?;
    Ok(Block::VorbisComment(Comments { vendor, list }))
}

#[test]
fn padding(rt: HostRuntime) -> Result<(), Fail> {
    let text = block_json(rt.alloc(), 1, &Block::Padding(8192))?;
    assert!(rt;
        text.as_slice() == b"{\"number\":1,\"type\":\"PADDING\",\"length\":8192}".as_slice()
    );
    Ok(())
}

#[test]
fn comments(rt: HostRuntime) -> Result<(), Fail> {
    let block = comment_block(
        rt.alloc(),
        b"a\"b\\\x01",
        &[b"TITLE=x=y", b"none", b"A=\xff\x0a"],
    )?;
    let text = block_json(rt.alloc(), 2, &block)?;
    assert!(rt;
        text.as_slice()
            == b"{\"number\":2,\"type\":\"VORBIS_COMMENT\",\"length\":42,\"vendor\":\"a\\u0022b\\u005c\\u0001\",\"comments\":[{\"name\":\"TITLE\",\"value\":\"x=y\"},{\"text\":\"none\"},{\"name\":\"A\",\"value\":{\"hex\":\"ff0a\"}}]}".as_slice()
    );
    Ok(())
}

#[test]
fn lines(rt: HostRuntime) -> Result<(), Fail> {
    let front = line_front(rt.alloc(), "a b", Some("ogg"))?;
    assert!(rt;
        front.as_slice() == b"{\"path\":\"a b\",\"container\":\"ogg\",\"blocks\":[".as_slice()
    );
    let unknown = line_front(rt.alloc(), "", None)?;
    assert!(rt; unknown.as_slice() == b"{\"path\":\"\",\"blocks\":[".as_slice());
    let end = line_end(
        rt.alloc(),
        &[Field::Text("status", b"ok"), Field::Number("frames", 2)],
    )?;
    assert!(rt; end.as_slice() == b"],\"status\":\"ok\",\"frames\":2}\n".as_slice());
    Ok(())
}

/// The data of a block of another type, as Python's json and hashlib modules write it.
#[test]
fn another_type(rt: HostRuntime) -> Result<(), Fail> {
    let bytes = bytes_of(rt.alloc(), b"a")?;
    let text = block_json(rt.alloc(), 7, &Block::Other { kind: 9, bytes })?;
    assert!(rt;
        text.as_slice()
            == b"{\"number\":7,\"type\":\"TYPE_9\",\"length\":1,\"data_length\":1,\"data_md5\":\"0cc175b9c0f1b6a831c399e269772661\"}".as_slice()
    );
    Ok(())
}

/// STREAMINFO with nothing known but the format.
#[test]
fn stream_info(rt: HostRuntime) -> Result<(), Fail> {
    let block = Block::StreamInfo(StreamInfo::of_format(4096, 44100, 2, 16));
    let text = block_json(rt.alloc(), 0, &block)?;
    assert!(rt;
        text.as_slice()
            == b"{\"number\":0,\"type\":\"STREAMINFO\",\"length\":34,\"min_block_size\":4096,\"max_block_size\":4096,\"min_frame_size\":0,\"max_frame_size\":0,\"rate\":44100,\"channels\":2,\"depth\":16,\"samples\":0,\"md5\":\"00000000000000000000000000000000\"}".as_slice()
    );
    Ok(())
}
