//! Streams whose reading fails: each call of a source in turn, and each of a sink. What was yielded before is the
//! front of what a run without a fault gives.

ghost use Rattle.std.specs.Prelude.{⊤, [], true, ◌≡◌, ◌<◌, OnOk, OnErr};
ghost use Rattle.flac_bits.specs.Failing.{failed};

use crate::pieces::sum_of;
use flac_bits::{FailAt, Memory, Pieces, Source};
use flac_frame::FrameView;
use flac_meta::Block;
use flac_native::{Container, Decoder, Fault, Item, Place, Profile, Sink, SinkFault, Why, decode};
use flac_ogg::{decode_ogg, ogg_decoder};
use std::alloc::Global;
use std::mem::drop;
use std::process::Abort;
use std::test::Fail;
use test_vectors::{EXAMPLE, PAGES, TEN_THOUSAND};

/// No call fails.
pub(crate) const NEVER: u64 = u64::MAX;

/// A stream, the lengths of its parts, and how many blocks it has. A part is the marker, a block or a frame, and of an
/// Ogg stream a page, which holds one item.
pub(crate) struct Layout {
    stream: &'static str,
    ogg: bool,
    parts: [usize; 6],
    blocks: usize,
}

/// The example of RFC 9639, appendix D.1: one frame of one sample of two channels.
pub(crate) const ONE_FRAME: Layout = Layout {
    stream: EXAMPLE,
    ogg: false,
    parts: [4, 38, 15, 0, 0, 0],
    blocks: 1,
};

/// 10000 samples in three frames, with a seek table.
const THREE_FRAMES: Layout = Layout {
    stream: TEN_THOUSAND,
    ogg: false,
    parts: [4, 38, 58, 15, 15, 17],
    blocks: 2,
};

/// One sample of two channels with a comment block, in three pages.
const THREE_PAGES: Layout = Layout {
    stream: PAGES,
    ogg: true,
    parts: [79, 40, 43, 0, 0, 0],
    blocks: 2,
};

impl Layout {
    /// How many parts there are.
    fn len(&self) -> usize {
        let mut count = 0usize;
        for length in self.parts {
            if length > 0 {
                count = count.saturating_add(1);
            }
        }
        count
    }

    /// How many parts are whole before the byte of this number.
    pub(crate) fn whole_before(&self, byte: usize) -> usize {
        let mut left = byte;
        let mut count = 0usize;
        for length in self.parts {
            if length > 0 && left >= length {
                left -= length;
                count = count.saturating_add(1);
            } else {
                return count;
            }
        }
        count
    }

    /// How many items are in n parts.
    fn items_in(&self, parts: usize) -> usize {
        if self.ogg {
            parts
        } else {
            parts.saturating_sub(1)
        }
    }

    /// The place of an item.
    fn item_place(&self, item: usize) -> Place {
        if item < self.blocks {
            Place::Block(item as u64)
        } else {
            Place::Frame(item.saturating_sub(self.blocks) as u64)
        }
    }

    /// The place of a part, also of one after the last.
    pub(crate) fn part_place(&self, part: usize) -> Place {
        if self.ogg {
            Place::Page(part as u64)
        } else if part == 0 {
            Place::Marker
        } else {
            self.item_place(part - 1)
        }
    }
}

/// The items that were yielded: how many, and a number of each of the first eight.
#[derive(Clone, Copy, PartialEq, Eq)]
struct Items {
    count: usize,
    numbers: [u32; 8],
}

/// No items.
const NOTHING: Items = Items {
    count: 0,
    numbers: [0; 8],
};

impl Items {
    /// One item more.
    fn add(&mut self, number: u32) {
        if self.count < 8 {
            self.numbers[self.count] = number;
        }
        self.count = self.count.saturating_add(1);
    }

    /// One block more.
    fn add_block(&mut self, block: &Block) {
        self.add(
            (block.length() as u32)
                .wrapping_mul(128)
                .wrapping_add(block.kind() as u32),
        );
    }

    /// One frame more.
    fn add_frame(&mut self, frame: &FrameView<'_>) {
        let mut sum = 1;
        for i in 0..8 {
            if i < frame.channels() {
                sum = sum_of(sum, frame.channel(i));
            }
        }
        self.add(sum);
    }

    /// The first items alone.
    fn first(&self, count: usize) -> Items {
        let mut numbers = [0; 8];
        for i in 0..8 {
            if i < count {
                numbers[i] = self.numbers[i];
            }
        }
        Items { count, numbers }
    }
}

/// A sink that notes what it is handed, and fails where a source of nothing does that it asks each time.
#[derive(Drop)]
struct Noting {
    turns: FailAt<Memory<'static>>,
    items: Items,
}

impl Noting {
    /// One call more, which may be the one that fails.
    fn turn(&mut self) -> Result<(), SinkFault>
        ensures counted { OnOk result (failed self.new.turns.at self.new.turns.calls
            ≡ failed self.old.turns.at self.old.turns.calls) }
        ensures rises { OnErr result (failed self.old.turns.at self.old.turns.calls
            < failed self.new.turns.at self.new.turns.calls) }
    {
        match self.turns.pull(&mut []) {
            Ok(_) => Ok(()),
            Err(_) => Err(SinkFault),
        }
    }
}

impl Sink for Noting {
    ghost takes = { λ old item new. ⊤ };

    ghost known = { λ _. true };

    ghost errors = { λ s. failed s.turns.at s.turns.calls };

    ghost names = { λ _. [] };

    fn block(&mut self, block: &Block) -> Result<(), SinkFault> {
        self.turn()?;
        self.items.add_block(block);
        Ok(())
    }

    fn frame(&mut self, frame: &FrameView<'_>) -> Result<(), SinkFault> {
        self.turn()?;
        self.items.add_frame(frame);
        Ok(())
    }
}

/// A stream in memory, which comes in pieces of n bytes.
#[derive(Clone, Copy)]
struct Input<'a> {
    stream: &'a [u8],
    ogg: bool,
    most: usize,
}

/// What came of reading a stream: its end, the items before, and how often the source was asked.
type Found = (Result<(), Fault>, Items, u64);

/// Reads a stream by a sink. A call of the source fails, or one of the sink.
fn sunk(alloc: Global, input: &Input<'_>, source_at: u64, sink_at: u64) -> Found {
    let pieces = Pieces::new(Memory::new(input.stream), input.most.max(1));
    let mut source = FailAt::new(pieces, source_at);
    let mut sink = Noting {
        turns: FailAt::new(Memory::new(&[]), sink_at),
        items: NOTHING,
    };
    let end = if input.ogg {
        decode_ogg(alloc, &mut source, Profile::Subset, &mut sink)
    } else {
        decode(alloc, &mut source, Profile::Subset, &mut sink)
    };
    (end, sink.items, source.calls())
}

/// Notes the next item: whether there is one.
fn note_next<C: Container>(decoder: &mut Decoder<C>, items: &mut Items) -> Result<bool, Fault> {
    match decoder.next()? {
        Item::Block(block) => items.add_block(&block),
        Item::Frame(frame) => items.add_frame(&frame),
        Item::End => return Ok(false),
    }
    Ok(true)
}

/// Notes what a decoder gives, up to the end.
fn note_all<C: Container>(decoder: &mut Decoder<C>, items: &mut Items) -> Result<(), Fault> {
    for _ in 0..u64::MAX {
        if !note_next(decoder, items)? {
            break;
        }
    }
    Ok(())
}

/// What a decoder gives up to its end or its fault, and what it answers then, asked twice more.
type Drained = (Result<(), Fault>, Items, [Result<(), Fault>; 2]);

/// What a decoder gives.
fn drained<C: Container>(decoder: &mut Decoder<C>) -> Drained {
    let mut items = NOTHING;
    let end = note_all(decoder, &mut items);
    (end, items, [decoder.step(), decoder.step()])
}

/// What the decoder of a native stream gives.
fn drained_native<R: Source + Drop>(alloc: Global, source: R) -> Drained {
    let mut decoder = Decoder::new(alloc, source, Profile::Subset);
    let found = drained(&mut decoder);
    drop(decoder);
    found
}

/// What the decoder of an Ogg stream gives.
fn drained_pages<R: Source + Drop>(alloc: Global, source: R) -> Drained {
    match ogg_decoder(alloc, source, Profile::Subset) {
        Ok(mut decoder) => {
            let found = drained(&mut decoder);
            drop(decoder);
            found
        }
        Err(fault) => (Err(fault), NOTHING, [Err(fault), Err(fault)]),
    }
}

/// Reads a stream item by item, of whose source a call fails; and what the decoder answers then.
fn stepped(alloc: Global, input: &Input<'_>, at: u64) -> (Found, [Result<(), Fault>; 2]) {
    let pieces = Pieces::new(Memory::new(input.stream), input.most.max(1));
    let mut source = FailAt::new(pieces, at);
    let (end, items, after) = if input.ogg {
        drained_pages(alloc, &mut source)
    } else {
        drained_native(alloc, &mut source)
    };
    ((end, items, source.calls()), after)
}

/// Whether a sink and a decoder get this of a stream, where this call of the source fails, and the decoder answers this
/// then.
fn both_get(
    alloc: Global,
    input: &Input<'_>,
    call: u64,
    wanted: &Found,
    then: Result<(), Fault>,
) -> bool {
    let (found, after) = stepped(alloc, input, call);
    sunk(alloc, input, call, NEVER) == *wanted && found == *wanted && after == [then; 2]
}

/// What comes where the source fails that is asked for the byte of this number: the fault is at the part of that byte,
/// or after the last, and the items before were yielded.
fn failed_at(layout: &Layout, whole: &Items, byte: usize) -> (Place, Items) {
    let part = layout.whole_before(byte);
    (layout.part_place(part), whole.first(layout.items_in(part)))
}

/// What a sink gets of a stream, which is the same for a decoder. The source is asked for each piece, and once at the
/// end.
fn read_whole(rt: &impl Abort, alloc: Global, layout: &Layout, input: &Input<'_>) -> (Items, u64) {
    let (end, items, calls) = sunk(alloc, input, NEVER, NEVER);
    let pieces = input.stream.len().div_ceil(input.most.max(1)) as u64;
    assert!(rt; end == Ok(()) && calls == pieces.saturating_add(1));
    assert!(rt; items.count == layout.items_in(layout.len()));
    assert!(rt; both_get(alloc, input, NEVER, &(end, items, calls), Ok(())));
    (items, calls)
}

/// This call of the source fails. The decoder is spent then, and asks no more.
fn read_fails(
    rt: &impl Abort,
    alloc: Global,
    layout: &Layout,
    input: &Input<'_>,
    whole: &Items,
    n: u64,
) {
    let byte = (n as usize).saturating_mul(input.most);
    let (at, items) = failed_at(layout, whole, byte.min(input.stream.len()));
    let read = Err(Fault { at, why: Why::Read });
    let spent = Err(Fault {
        at,
        why: Why::Spent,
    });
    let wanted = (read, items, n.saturating_add(1));
    assert!(rt; both_get(alloc, input, n, &wanted, spent), "call {n}");
}

/// Each call of a source fails in turn.
fn each_read_fails(
    rt: &impl Abort,
    alloc: Global,
    layout: &Layout,
    most: usize,
) -> Result<(), Fail> {
    let stream = hex::decode(alloc, layout.stream)?;
    let input = Input {
        stream: &stream,
        ogg: layout.ogg,
        most,
    };
    let (whole, calls) = read_whole(rt, alloc, layout, &input);
    for n in 0..calls {
        read_fails(rt, alloc, layout, &input, &whole, n);
    }
    Ok(())
}

/// This call of the sink fails: the fault is at the item that was yielded, and those before were taken.
fn item_fails(
    rt: &impl Abort,
    alloc: Global,
    layout: &Layout,
    input: &Input<'_>,
    whole: &Items,
    n: usize,
) {
    let (end, items, _) = sunk(alloc, input, NEVER, n as u64);
    let (at, why) = (layout.item_place(n), Why::Sink);
    assert!(rt; end == Err(Fault { at, why }), "item {n}");
    assert!(rt; items == whole.first(n), "item {n}");
}

/// Each call of a sink fails in turn.
fn each_item_fails(rt: &impl Abort, alloc: Global, layout: &Layout) -> Result<(), Fail> {
    let stream = hex::decode(alloc, layout.stream)?;
    let input = Input {
        stream: &stream,
        ogg: layout.ogg,
        most: 4096,
    };
    let (whole, _) = read_whole(rt, alloc, layout, &input);
    for n in 0..whole.count {
        item_fails(rt, alloc, layout, &input, &whole, n);
    }
    Ok(())
}

#[test]
fn reads_fail(rt: HostRuntime) -> Result<(), Fail> {
    for most in [1, 2, 3, 4096] {
        each_read_fails(&rt, rt.alloc(), &ONE_FRAME, most)?;
        each_read_fails(&rt, rt.alloc(), &THREE_PAGES, most)?;
    }
    Ok(())
}

#[test]
fn reads_of_three_frames_fail(rt: HostRuntime) -> Result<(), Fail> {
    for most in [1, 7, 4096] {
        each_read_fails(&rt, rt.alloc(), &THREE_FRAMES, most)?;
    }
    Ok(())
}

#[test]
fn sinks_fail(rt: HostRuntime) -> Result<(), Fail> {
    for layout in [&ONE_FRAME, &THREE_FRAMES, &THREE_PAGES] {
        each_item_fails(&rt, rt.alloc(), layout)?;
    }
    Ok(())
}
