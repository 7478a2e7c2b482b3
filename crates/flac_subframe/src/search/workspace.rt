//! The working arrays for choosing and writing one subframe after another.

ghost use Rattle.std.specs.Prelude.{◌≡◌, ◌≤◌, IfOk, IfErr};
ghost use Rattle.flac_bits.specs.declared.why.Why.{Why};

use crate::format::limits::Limits;
use crate::format::numbers::{APART, power};
use crate::search::entry::Entry;
use flac_bits::Why;
use std::alloc::Global;
use std::marker::Model;

/// The working arrays for choosing and writing one subframe after another, made for blocks of at most some number of
/// samples and for partition orders up to some greatest (RFC 9639, section 9.2.7). With an order of 15 there are 2^15
/// and 2^16 places for what is known of each partition, 1.7 MB in all; with one of 8 some 13 kB.
pub struct Workspace {
    pub(crate) longs: Vec<i64>,
    pub(crate) shorts: Vec<i32>,
    pub(crate) folds: Vec<u32>,
    pub(crate) costs: Vec<u64>,
    pub(crate) entries: Vec<Entry>,
    pub(crate) bytes: Vec<u8>,
    max_block: usize,
    pub(crate) most: u32,
}

impl Drop for Workspace {
    fn drop(self) {
        let Workspace {
            longs: _,
            shorts: _,
            folds: _,
            costs: _,
            entries: _,
            bytes: _,
            max_block: _,
            most: _,
        } = self;
    }
}

impl Model for Workspace {
    ghost use Rattle.std.specs.Prelude.{◌≡◌, ◌≤◌, ◌+◌, ◌*◌, ◌^◌, vec_len};
    ghost use Rattle.flac_subframe.specs.search.Capacity.{Capacity};

    ghost Value = { Capacity };

    ghost view = { λ w. record { block = w.max_block; most = w.most } };

    ghost invariant = { λ w. record {
      longs : vec_len w.longs ≡ 2 * w.max_block + 256;
      shorts : vec_len w.shorts ≡ 2 * w.max_block + 256;
      folds : vec_len w.folds ≡ w.max_block;
      costs : vec_len w.costs ≡ 2 * 2 ^ w.most;
      entries : vec_len w.entries ≡ 4 * 2 ^ w.most;
      bytes : vec_len w.bytes ≡ 3 * 2 ^ w.most;
      block : w.max_block ≤ 65535;
      most : w.most ≤ 15;
    } };
}

impl Workspace {
    /// Allocates the arrays for blocks of at most `max_block` samples, 1 to 65535, and for partition orders up to that
    /// of the limits.
    ///
    /// # Errors
    /// [`Why::Memory`] if an allocation fails.
    pub fn new(alloc: Global, max_block: u32, limits: &Limits) -> Result<Workspace, Why>
        requires block { max_block ≤ 65535 }
        requires partition { limits.now.partition ≤ 15 }
        ensures ok { IfOk result (λ w. w ≡ record { block = max_block; most = limits.now.partition }) }
        ensures err { IfErr result (λ e. e ≡ Why.Memory) }
    {
        let most = limits.partition;
        let count = power(most as u8);
        let max_block = max_block as usize;
        let longs = vec![in alloc; 0i64; 2 * max_block + APART]?;
        let shorts = vec![in alloc; 0i32; 2 * max_block + APART]?;
        let folds = vec![in alloc; 0u32; max_block]?;
        let costs = vec![in alloc; 0u64; 2 * count]?;
        let entries = vec![in alloc; Entry::none(); 4 * count]?;
        let bytes = vec![in alloc; 0u8; 3 * count]?;
        Ok(Workspace {
            longs,
            shorts,
            folds,
            costs,
            entries,
            bytes,
            max_block,
            most,
        })
    }
}
