//! Indexes on one another, the newest last.

ghost use Rattle.std.specs.Prelude.{◌≡◌, ◌++◌, ◌+◌, ◌<◌, ◌≤◌, ◌^◌, [], IfOk, length, map, slice_index_or, true};
ghost use Rattle.std.specs.Arc.{arc_value};
ghost use Rattle.std.specs.List.{All};
ghost use Rattle.std.specs.Ordering.{is_lt};
ghost use Rattle.pf_base.specs.LabelOrder.{labels_cmp};
ghost use Rattle.pf_base.specs.LabelSets.{IsLabels};
ghost use Rattle.pf_base.specs.ShardHash.{shard_of};
ghost use Rattle.pf_block.specs.IndexStacks.{AreBehind, joined};
ghost use Rattle.pf_block.specs.LabelOrders.{in_label_order, rise_from};
ghost use Rattle.pf_block.specs.SeriesIds.{id_of, ids_with};
ghost use Rattle.pf_block.specs.Snaps.{are_apart};

use crate::index::Index;
use crate::index_layers::{find_in, is_before, labels_in, shard_in};
use crate::interleaving::in_label_order;
use crate::postings::Postings;
use crate::ranked::Ranked;
use pf_base::{Labels, OutOfMemory};
use std::alloc::Global;
use std::marker::Model;
use std::sync::Arc;

/// Series by their ids, in indexes that are shared. Each of these has at least twice the series of the next.
#[derive(Drop)]
pub struct IndexStack {
    layers: Vec<Arc<Ranked>>,
    count: u32,
}

impl Model for IndexStack {
    ghost use Rattle.std.specs.Prelude.{List, map};
    ghost use Rattle.std.specs.Arc.{arc_value};
    ghost use Rattle.pf_base.specs.LabelSets.{Pairs};
    ghost use Rattle.pf_block.specs.IndexStacks.{IsIndexStack, joined};

    ghost Value = { List Pairs };

    ghost view = { λ s. joined (map arc_value s.layers.items) };

    ghost invariant = { λ s. IsIndexStack (map arc_value s.layers.items) s.count };
}

/// How many of the first indexes stay below a further one. It takes in the last one as long as that has fewer than twice its
/// series and those of the ones that it took in before.
fn kept_below(layers: &[Arc<Ranked>], top: u32) -> usize
    ensures { result ≤ length layers.now }
{
    let mut kept = layers.len();
    let mut series = top as usize;
    while kept > 0 {
        let last = layers[kept - 1].index().count() as usize;
        if last / 2 >= series {
            return kept;
        }
        series = series.saturating_add(last);
        kept -= 1;
    }
    kept
}

/// The series of some indexes, and of a further one, in one.
fn merged(layers: &[Arc<Ranked>], top: Index) -> Result<Index, OutOfMemory>
    requires { are_apart (joined (map arc_value layers.now) ++ top) ≡ true }
    ensures { IfOk result (λ i. i ≡ joined (map arc_value layers.now) ++ top) }
{
    let Some((oldest, newer)) = layers.split_first() else {
        return Ok(top);
    };
    let mut index = oldest.index().copied()?;
    for layer in newer {
        index = index.with_all(layer.index())?;
    }
    let all = index.with_all(&top)?;
    Ok(all)
}

/// A further index on others.
fn on_first(
    alloc: Global,
    layers: &[Arc<Ranked>],
    top: Index,
) -> Result<Vec<Arc<Ranked>>, OutOfMemory>
    ensures { IfOk result (λ v. joined (map arc_value v.items) ≡ joined (map arc_value layers.now) ++ top) }
{
    let mut stack = Vec::with_capacity(alloc, layers.len() + 1)?;
    for layer in layers {
        stack.push(Arc::try_clone(layer)?)?;
    }
    stack.push(Arc::new(alloc, Ranked::of(alloc, top)?)?)?;
    Ok(stack)
}

impl IndexStack {
    /// No series.
    pub fn new(alloc: Global) -> IndexStack
        ensures { result ≡ [] }
    {
        IndexStack {
            layers: Vec::new(alloc),
            count: 0,
        }
    }

    /// With the series of a further index at the end.
    pub fn with(&self, alloc: Global, top: Index) -> Result<IndexStack, OutOfMemory>
        requires { AreBehind self.now top }
        ensures { IfOk result (λ s. s ≡ self.now ++ top) }
    {
        let count = self.count + top.count();
        let kept = kept_below(&self.layers, top.count());
        let top = merged(&self.layers[kept..], top)?;
        let layers = on_first(alloc, &self.layers[..kept], top)?;
        Ok(IndexStack { layers, count })
    }

    /// The number of series, fewer than 2^32.
    pub fn count(&self) -> u32
        ensures value { result ≡ length self.now }
        ensures few { length self.now < 2 ^ 32 }
        ensures apart { are_apart self.now ≡ true }
        ensures lawful { All IsLabels self.now }
    {
        let _layers = &self.layers;
        self.count
    }

    /// The labels of a series.
    pub fn labels(&self, id: u32) -> &Labels
        requires { id < length self.now }
        ensures { result.now ≡ slice_index_or self.now id [] }
    {
        labels_in(&self.layers, id)
    }

    /// The series with these labels.
    pub fn find(&self, labels: &Labels) -> Option<u32>
        ensures { result ≡ id_of labels.now self.now }
    {
        find_in(&self.layers, labels)
    }

    /// The series that have a pair, by rising id.
    pub fn postings<'a>(&'a self, name: &'a str, value: &'a str) -> Postings<'a>
        ensures { result ≡ ids_with name.now value.now self.now }
    {
        Postings::over(&self.layers, name, value)
    }

    /// The shard of a series among n.
    pub fn shard(&self, id: u32, n: u32) -> u32
        requires within { id < length self.now }
        requires some { 1 ≤ n }
        ensures { result ≡ shard_of (slice_index_or self.now id []) n }
    {
        shard_in(&self.layers, id, n)
    }

    /// Whether a series stands before another in label order.
    pub fn is_before(&self, id: u32, other: u32) -> bool
        requires first { id < length self.now }
        requires second { other < length self.now }
        ensures { result ≡ is_lt (labels_cmp (slice_index_or self.now id []) (slice_index_or self.now other [])) }
    {
        is_before(&self.layers, id, other)
    }

    /// Some series in label order, given by rising id.
    pub fn in_label_order(&self, alloc: Global, ids: &[u32]) -> Result<Vec<u32>, OutOfMemory>
        requires rising { rise_from 0 ids.now ≡ true }
        requires within { All (λ id. id < length self.now) ids.now }
        ensures { IfOk result (λ v. v.items ≡ in_label_order self.now ids.now) }
    {
        in_label_order(alloc, &self.layers, self.count, ids)
    }
}
