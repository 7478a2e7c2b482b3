//! The points of a seek table, gathered while the frames are written (RFC 9639, section 8.5).

ghost use Rattle.std.specs.Prelude.{◌≡◌, ◌<◌, ◌≤◌, ◌+◌, ◌^◌, None, IfOk, OnOk, OnErr};
ghost use Rattle.flac_meta.specs.Listed.{block_fault};
ghost use Rattle.flac_meta.specs.declared.block.Block.TheVariants as blocks;
ghost use Rattle.flac_draft.specs.Table.{no_table, table_for, reserved, pointed, lengthened, takes};
ghost use Rattle.flac_draft.specs.inner.Gathering.{AreBefore};

use flac_meta::SeekPoint;
use flac_native::{count_points, has_point};
use std::alloc::{AllocError, Global};
use std::marker::Model;

/// The most points that a seek table has: each has 18 bytes, and a block at most 16777215 (RFC 9639, sections 8.1 and
/// 8.5).
pub(crate) const MOST_POINTS: usize = 932067;

/// A point that names no frame (RFC 9639, section 8.5.1).
const VACANT: SeekPoint = SeekPoint {
    sample: u64::MAX,
    offset: 0,
    length: 0,
};

/// The points of the frames so far, of a seek table for which the number of samples was stated.
#[derive(Drop)]
pub(crate) struct PointTable {
    /// The samples of each channel that were stated.
    total: u64,
    /// The samples from one point to the next; 0 if there is no table.
    every: u32,
    points: Vec<SeekPoint>,
    /// How many bytes the frames have.
    bytes: u64,
}

impl Model for PointTable {
    ghost use Rattle.std.specs.Prelude.{◌≡◌, ◌<◌, ◌≤◌, ◌^◌, true, length, None};
    ghost use Rattle.flac_meta.specs.SeekTable.{in_order};
    ghost use Rattle.flac_draft.specs.Table.{Table};

    ghost Value = { Table };

    ghost view = { λ t. record {
      total = t.total;
      every = t.every;
      points = t.points.items;
      bytes = t.bytes;
    } };

    ghost invariant = { λ t. record {
      total : t.total < 2 ^ 36;
      few : length t.points.items ≤ 932067;
      order : in_order None t.points.items ≡ true;
    } };
}

impl PointTable {
    /// No table.
    pub(crate) fn none(alloc: Global) -> PointTable
        ensures { result ≡ no_table }
    {
        PointTable {
            total: 0,
            every: 0,
            points: Vec::new(alloc),
            bytes: 0,
        }
    }

    /// The table of `total` samples of each channel without a frame; none if `every` is 0.
    pub(crate) fn new(alloc: Global, total: u64, every: u32) -> PointTable
        requires { 0 < every → total < 2 ^ 36 }
        ensures { result ≡ table_for total every }
    {
        if every == 0 {
            return PointTable::none(alloc);
        }
        PointTable {
            total,
            every,
            points: Vec::new(alloc),
            bytes: 0,
        }
    }

    /// As many points that name no frame as the table of blocks of `size` has.
    pub(crate) fn reserved(&self, alloc: Global, size: u32) -> Result<Vec<SeekPoint>, AllocError>
        requires size { (16 ≤ size) × (size ≤ 65535) }
        ensures { IfOk result (λ points. points.items ≡ reserved size self.now) }
    {
        let count = count_points(size as u64, self.total, self.every as u64);
        let mut points = Vec::new(alloc);
        for index in 0..count {
            // Read only for the proof, whose invariant names it.
            let _index = index;
            points.push(VACANT)?;
        }
        Ok(points)
    }

    /// Adds the point of the frame whose first sample is `start`, in blocks of `size`, if it has one.
    pub(crate) fn note(&mut self, size: u32, start: u64) -> Result<(), AllocError>
        requires size { (16 ≤ size) × (size ≤ 65535) }
        requires before { AreBefore start self.old.points }
        ensures noted { OnOk result (self.new ≡ pointed size start self.old) }
        ensures kept { OnErr result (self.new ≡ self.old) }
    {
        let size = size as u64;
        let total = self.total;
        if start >= total || !has_point(size, total, self.every as u64, start / size) {
            return Ok(());
        }
        if self.points.len() >= MOST_POINTS {
            return Ok(());
        }
        let length = size.min(total - start) as u16;
        self.points.push(SeekPoint {
            sample: start,
            offset: self.bytes,
            length,
        })?;
        Ok(())
    }

    /// Counts the bytes of a frame.
    pub(crate) fn count(&mut self, bytes: u64)
        requires { self.old.bytes + bytes < 2 ^ 64 }
        ensures { self.new ≡ lengthened bytes self.old }
    {
        self.bytes += bytes;
    }

    /// Whether the table is written for this number of samples: there is none, or it was stated.
    pub(crate) fn takes(&self, samples: u64) -> bool
        ensures { result ≡ takes self.now samples }
    {
        self.every == 0 || samples == self.total
    }

    /// The points.
    pub(crate) fn into_points(self) -> Vec<SeekPoint>
        ensures points { result.items ≡ self.points }
        ensures good { block_fault (blocks.SeekTable result.items) ≡ None }
    {
        let PointTable { points, .. } = self;
        points
    }
}
