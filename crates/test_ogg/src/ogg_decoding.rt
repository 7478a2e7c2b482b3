//! An Ogg stream item by item, and either container by one call: the stream of RFC 9639, appendix D.1, with an empty
//! list of comments, each packet in a page of its own.

ghost use Rattle.std.specs.Prelude.{⊤, [], true};

use flac_ogg::{
    Block, Fault, FrameView, Memory, Place, Profile, Sink, SinkFault, Why, decode_any, ogg_decoder,
    verify,
};
use std::alloc::Global;
use std::mem::drop;
use std::process::Abort;
use std::test::Fail;
use test_calls::{PEAKS, are_of_a_cut, next_type, peaks_to_end, two_faults};
use test_vectors::{EXAMPLE, PAGES};

#[test]
fn peaks_of_pages(rt: HostRuntime) -> Result<(), Fail> {
    let stream = hex::decode(rt.alloc(), PAGES)?;
    let mut decoder = ogg_decoder(rt.alloc(), Memory::new(&stream), Profile::Subset)?;
    let found = peaks_to_end(&mut decoder);
    drop(decoder);
    assert!(rt; found == PEAKS);
    Ok(())
}

#[test]
fn refused_once_in_pages(rt: HostRuntime) -> Result<(), Fail> {
    let mut stream = hex::decode(rt.alloc(), PAGES)?;
    let _last = stream.pop();
    let mut decoder = ogg_decoder(rt.alloc(), Memory::new(&stream), Profile::Subset)?;
    let blocks = (next_type(&mut decoder), next_type(&mut decoder));
    let faults = two_faults(&mut decoder);
    drop(decoder);
    assert!(rt; blocks == (0, 4));
    assert!(rt; are_of_a_cut(faults, Place::Page(2)));
    Ok(())
}

/// Counts blocks, and keeps the first sample of the first two channels.
#[derive(Drop)]
struct First {
    blocks: u32,
    samples: [i32; 2],
}

impl Sink for First {
    ghost takes = { λ old item new. ⊤ };

    ghost known = { λ _. true };

    ghost errors = { λ _. 0 };

    ghost names = { λ _. [] };

    fn block(&mut self, _block: &Block) -> Result<(), SinkFault> {
        self.blocks = self.blocks.saturating_add(1);
        Ok(())
    }

    fn frame(&mut self, frame: &FrameView<'_>) -> Result<(), SinkFault> {
        for i in 0..2 {
            if i < frame.channels() {
                self.samples[i] = frame.channel(i).first().copied().unwrap_or(0);
            }
        }
        Ok(())
    }
}

fn decoded(alloc: Global, stream: &[u8]) -> Result<(u32, [i32; 2]), Fault> {
    let mut first = First {
        blocks: 0,
        samples: [0; 2],
    };
    let mut source = Memory::new(stream);
    decode_any(alloc, &mut source, Profile::Subset, &mut first)?;
    Ok((first.blocks, first.samples))
}

/// Decodes a stream that hex text gives, and compares how many blocks it has, and its first samples.
fn decodes(
    rt: &impl Abort,
    alloc: Global,
    stream: &str,
    wanted: Result<(u32, [i32; 2]), Fault>,
) -> Result<(), Fail> {
    let stream = hex::decode(alloc, stream)?;
    assert!(rt; decoded(alloc, &stream) == wanted);
    Ok(())
}

#[test]
fn either_container(rt: HostRuntime) -> Result<(), Fail> {
    decodes(&rt, rt.alloc(), EXAMPLE, Ok((1, [25588, 10416])))?;
    decodes(&rt, rt.alloc(), PAGES, Ok((2, [25588, 10416])))?;
    let at = Place::Marker;
    let why = Why::Truncated;
    decodes(&rt, rt.alloc(), "", Err(Fault { at, why }))
}

/// Verifies bytes, and compares the outcome.
fn verifies(rt: &impl Abort, alloc: Global, stream: &[u8], wanted: Result<(), Fault>) {
    assert!(rt; verify(alloc, stream, Profile::Subset) == wanted);
}

#[test]
fn verified_in_memory(rt: HostRuntime) -> Result<(), Fail> {
    let mut native = hex::decode(rt.alloc(), EXAMPLE)?;
    let stream = hex::decode(rt.alloc(), PAGES)?;
    verifies(&rt, rt.alloc(), &native, Ok(()));
    verifies(&rt, rt.alloc(), &stream, Ok(()));
    let _last = native.pop();
    let at = Place::Frame(0);
    let why = Why::Truncated;
    verifies(&rt, rt.alloc(), &native, Err(Fault { at, why }));
    Ok(())
}
