//! Series by their places in label order.

ghost use Rattle.std.specs.Prelude.{◌≡◌, ℕ, ◌<◌, ◌≤◌, ◌^◌, [], IfOk, length, vec_len, slice_index_or};
ghost use Rattle.std.specs.List.{All};
ghost use Rattle.std.specs.Ordering.{is_lt};
ghost use Rattle.pf_base.specs.LabelOrder.{labels_cmp};
ghost use Rattle.pf_base.specs.LabelSets.{IsLabels};
ghost use Rattle.pf_base.specs.ShardHash.{shard_of};
ghost use Rattle.pf_block.specs.Indexes.{hashes_of};
ghost use Rattle.pf_block.specs.LabelOrders.{ids_by_label};
ghost use Rattle.pf_block.specs.SeriesIds.{id_of, ids_with};
ghost use Rattle.pf_block.specs.Snaps.{are_apart};

use crate::index::Index;
use pf_base::{Labels, OutOfMemory, shard_of_hash};
use std::alloc::Global;
use std::marker::Model;

/// An index, the ids of its series in label order, the place of each there, and by id the hash of each that gives its
/// shard.
#[derive(Drop)]
pub struct Ranked {
    index: Index,
    by_label: Vec<u32>,
    ranks: Vec<u32>,
    hashes: Vec<u64>,
}

impl Model for Ranked {
    ghost use Rattle.std.specs.Prelude.{List};
    ghost use Rattle.pf_base.specs.LabelSets.{Pairs};

    ghost Value = { List Pairs };

    ghost use Rattle.pf_block.specs.Indexes.{AreRanked};

    ghost view = { λ r. r.index };

    ghost invariant = { λ r. AreRanked r.index r.by_label.items r.ranks.items r.hashes.items };
}

/// The place of each id in a list of ids. Of one that stands there twice it is the last place.
fn places(alloc: Global, ids: &[u32]) -> Result<Vec<u32>, OutOfMemory>
    requires few { length ids.now < 2 ^ 32 }
    requires within { All (λ id. id < length ids.now) ids.now }
    ensures count { IfOk result (λ v. length v.items ≡ length ids.now) }
    ensures within { IfOk result (λ v. (k : ℕ) → k < length ids.now → slice_index_or v.items (slice_index_or ids.now k 0) 0 < length ids.now) }
    ensures placed { IfOk result (λ v. (k : ℕ) → k < length ids.now → slice_index_or ids.now (slice_index_or v.items (slice_index_or ids.now k 0) 0) 0 ≡ slice_index_or ids.now k 0) }
{
    let mut places = vec![in alloc; 0u32; ids.len()]?;
    for place in 0..ids.len() {
        let id = ids[place] as usize;
        places[id] = place as u32;
    }
    Ok(places)
}

/// The hash of each series that gives its shard, by id.
fn hashes(alloc: Global, index: &Index) -> Result<Vec<u64>, OutOfMemory>
    ensures { IfOk result (λ v. v.items ≡ hashes_of index.now) }
{
    let mut hashes = Vec::with_capacity(alloc, index.count() as usize)?;
    for id in 0..index.count() {
        hashes.push(index.labels(id).shard_hash())?;
    }
    Ok(hashes)
}

impl Ranked {
    /// An index with its series in label order.
    pub fn of(alloc: Global, index: Index) -> Result<Ranked, OutOfMemory>
        ensures { IfOk result (λ r. r ≡ index) }
    {
        let _count = index.count();
        let by_label = index.by_label()?;
        let ranks = places(alloc, &by_label)?;
        let hashes = hashes(alloc, &index)?;
        Ok(Ranked {
            index,
            by_label,
            ranks,
            hashes,
        })
    }

    /// The index.
    pub fn index(&self) -> &Index
        ensures { result.now ≡ self.now }
    {
        &self.index
    }

    /// The ids of the series in label order.
    pub fn by_label(&self) -> &[u32]
        ensures value { result.now ≡ ids_by_label self.now }
        ensures count { length result.now ≡ length self.now }
        ensures within { All (λ id. id < length self.now) result.now }
    {
        &self.by_label
    }

    /// The place of a series in label order.
    pub fn rank(&self, id: u32) -> u32
        requires { id < length self.now }
        ensures within { result < length self.now }
        ensures place { slice_index_or (ids_by_label self.now) result 0 ≡ id }
    {
        self.ranks[id as usize]
    }

    /// Whether a series stands before another in label order.
    pub fn is_before(&self, id: u32, other: u32) -> bool
        requires first { id < length self.now }
        requires second { other < length self.now }
        ensures { result ≡ is_lt (labels_cmp (slice_index_or self.now id []) (slice_index_or self.now other [])) }
    {
        let _count = self.index.count();
        self.ranks[id as usize] < self.ranks[other as usize]
    }

    /// The shard of a series among n.
    pub fn shard(&self, id: u32, n: u32) -> u32
        requires within { id < length self.now }
        requires some { 1 ≤ n }
        ensures { result ≡ shard_of (slice_index_or self.now id []) n }
    {
        shard_of_hash(self.hashes[id as usize], n)
    }
}
