//! Where a stream is between two of its parts, and its metadata blocks.

ghost use Rattle.std.specs.Prelude.{◌≡◌, cond, OnErr, IfOk};
ghost use Rattle.flac_bits.specs.Reading.{ReadsGivenMemory, Call};
ghost use Rattle.flac_meta.specs.Block.{block as block_layout, seen_after};
ghost use Rattle.flac_meta.specs.Header.{nothing_seen};
ghost use Rattle.flac_native.specs.Stream.{phase_after, raised, place_in};
ghost use Rattle.flac_native.specs.Track.{is_after_blocks};

use crate::fault::Place;
use crate::track::Phase;
use flac_bits::{BitReader, Source, Why};
use flac_meta::{Block, Seen, read_block};
use std::alloc::Global;

/// What [`read_block`] does, proved by the reading of the layout.
fn read_by_layout<R: Source>(
    alloc: Global,
    bits: &mut BitReader<R>,
    seen: &mut Seen,
) -> Result<(bool, Block), Why>
    // proof only
    ensures reading { Call 32 (ReadsGivenMemory (λ x. x) (block_layout seen.old)) bits.old bits.new result }
    ensures seen { IfOk result (λ x. seen.new ≡ seen_after seen.old x.1) }
    ensures unseen { OnErr result (seen.new ≡ seen.old) }
{
    read_block(alloc, bits, seen)
}

/// Which part of a stream comes next, and which kinds of metadata blocks came before it: all that reading the marker
/// and the metadata depends on (RFC 9639, sections 6 and 8.1).
#[derive(Clone, Copy)]
pub(crate) struct Position {
    /// The kind of the next part.
    pub(crate) phase: Phase,
    /// The index of the next block or frame, counted from 0, at most 2^64 - 1.
    pub(crate) index: u64,
    /// The kinds of blocks that came.
    pub(crate) seen: Seen,
}

impl Position {
    /// Before the marker.
    pub(crate) fn start() -> Position
        ensures { result ≡ record { phase = Phase.Opening; index = 0; seen = nothing_seen } }
    {
        Position {
            phase: Phase::Opening,
            index: 0,
            seen: Seen::new(),
        }
    }

    /// Whether the last metadata block was read.
    pub(crate) fn is_past_metadata(&self) -> bool
        ensures { result ≡ is_after_blocks self.now.phase }
    {
        match self.phase {
            Phase::Opening => false,
            Phase::Blocks => false,
            Phase::Frames => true,
        }
    }

    /// The place of the next part.
    pub(crate) fn place(&self) -> Place
        ensures { result ≡ place_in self.now.phase self.now.index }
    {
        match self.phase {
            Phase::Opening => Place::Marker,
            Phase::Blocks => Place::Block(self.index),
            Phase::Frames => Place::Frame(self.index),
        }
    }

    /// Reads the next metadata block, and returns whether it is marked last, and the block (RFC 9639, section 8). After
    /// an error the position must not be used to read on.
    pub(crate) fn read_block<R: Source>(
        &mut self,
        alloc: Global,
        bits: &mut BitReader<R>,
    ) -> Result<(bool, Block), Why>
        ensures reading { Call 32 (ReadsGivenMemory (λ x. x) (block_layout self.old.seen)) bits.old bits.new result }
        ensures phase { IfOk result (λ x. self.new.phase ≡ phase_after x.0) }
        ensures index { IfOk result (λ x. self.new.index ≡ cond x.0 0 (raised self.old.index)) }
        ensures seen { IfOk result (λ x. self.new.seen ≡ seen_after self.old.seen x.1) }
    {
        let (last, block) = read_by_layout(alloc, bits, &mut self.seen)?;
        if last {
            self.phase = Phase::Frames;
            self.index = 0;
        } else {
            self.phase = Phase::Blocks;
            self.index = self.index.saturating_add(1);
        }
        Ok((last, block))
    }
}
