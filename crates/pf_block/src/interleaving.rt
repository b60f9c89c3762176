//! Series of several indexes in label order.

ghost use Rattle.std.specs.Prelude.{◌≡◌, ◌++◌, ◌<◌, ◌≤◌, ◌^◌, ℕ, IfOk, false, length, map, slice_index_or, true};
ghost use Rattle.std.specs.Arc.{arc_value};
ghost use Rattle.std.specs.List.{All};
ghost use Rattle.std.specs.Ordering.{is_gt, is_lt};
ghost use Rattle.pf_block.specs.IndexStacks.{joined};
ghost use Rattle.pf_block.specs.LabelOrders.{ids_cmp, in_label_order, rise_from};
ghost use Rattle.pf_block.specs.Snaps.{are_apart};

use crate::index_layers::labels_in;
use crate::ordering::ordered;
use crate::ranked::Ranked;
use pf_base::OutOfMemory;
use std::alloc::Global;
use std::sync::Arc;

/// How many of some series that stand in label order come before another. The first ones are asked, in steps that double,
/// and then it is sought by halves.
fn count_before(layers: &[Arc<Ranked>], ids: &[u32], id: u32) -> usize
    requires apart { are_apart (joined (map arc_value layers.now)) ≡ true }
    requires ordered { ids.now ≡ in_label_order (joined (map arc_value layers.now)) ids.now }
    requires within { All (λ i. i < length (joined (map arc_value layers.now))) ids.now }
    requires there { id < length (joined (map arc_value layers.now)) }
    ensures within { result ≤ length ids.now }
    ensures before { (k : ℕ) → k < result → is_gt (ids_cmp (joined (map arc_value layers.now)) id (slice_index_or ids.now k 0)) ≡ true }
    ensures behind { (k : ℕ) → result ≤ k → k < length ids.now → is_gt (ids_cmp (joined (map arc_value layers.now)) id (slice_index_or ids.now k 0)) ≡ false }
{
    let labels = labels_in(layers, id);
    let mut low = 0usize;
    let mut high = ids.len();
    let mut step = 0usize;
    while low < high {
        let place = low + step.min((high - low) / 2);
        if labels_in(layers, ids[place]) < labels {
            low = place + 1;
            step = step.saturating_mul(2).saturating_add(1);
        } else {
            high = place;
        }
    }
    low
}

/// Series in label order, among others that are.
fn placed(
    alloc: Global,
    layers: &[Arc<Ranked>],
    few: &[u32],
    many: &[u32],
) -> Result<Vec<u32>, OutOfMemory>
    requires apart { are_apart (joined (map arc_value layers.now)) ≡ true }
    requires few { few.now ≡ in_label_order (joined (map arc_value layers.now)) few.now }
    requires many { many.now ≡ in_label_order (joined (map arc_value layers.now)) many.now }
    requires few_within { All (λ i. i < length (joined (map arc_value layers.now))) few.now }
    requires many_within { All (λ i. i < length (joined (map arc_value layers.now))) many.now }
    ensures { IfOk result (λ v. v.items ≡ in_label_order (joined (map arc_value layers.now)) (few.now ++ many.now)) }
{
    let mut found = Vec::with_capacity(alloc, few.len() + many.len())?;
    let mut rest = many;
    for id in few {
        let count = count_before(layers, rest, *id);
        let (before, behind) = rest.split_at(count);
        found.extend_from_slice(before)?;
        found.push(*id)?;
        rest = behind;
    }
    found.extend_from_slice(rest)?;
    Ok(found)
}

/// Series of two lists in label order, each of which is.
fn merged(
    alloc: Global,
    layers: &[Arc<Ranked>],
    first: Vec<u32>,
    second: Vec<u32>,
) -> Result<Vec<u32>, OutOfMemory>
    requires apart { are_apart (joined (map arc_value layers.now)) ≡ true }
    requires first { first.items ≡ in_label_order (joined (map arc_value layers.now)) first.items }
    requires second { second.items ≡ in_label_order (joined (map arc_value layers.now)) second.items }
    requires first_within { All (λ i. i < length (joined (map arc_value layers.now))) first.items }
    requires second_within { All (λ i. i < length (joined (map arc_value layers.now))) second.items }
    ensures { IfOk result (λ v. v.items ≡ in_label_order (joined (map arc_value layers.now)) (first.items ++ second.items)) }
{
    if second.is_empty() {
        return Ok(first);
    }
    if first.is_empty() {
        return Ok(second);
    }
    if first.len() < second.len() {
        let found = placed(alloc, layers, &first, &second)?;
        return Ok(found);
    }
    let found = placed(alloc, layers, &second, &first)?;
    Ok(found)
}

/// How many of some ids that rise are below another.
fn count_below(ids: &[u32], first: u32) -> usize
    requires { rise_from 0 ids.now ≡ true }
    ensures within { result ≤ length ids.now }
    ensures below { (k : ℕ) → k < result → slice_index_or ids.now k 0 < first }
    ensures above { (k : ℕ) → result ≤ k → k < length ids.now → first ≤ slice_index_or ids.now k 0 }
{
    ids.partition_point(|id| *id < first)
}

/// Some series in label order: those of each index by its own order, and then interleaved, those of the newest ones first.
pub fn in_label_order(
    alloc: Global,
    layers: &[Arc<Ranked>],
    count: u32,
    ids: &[u32],
) -> Result<Vec<u32>, OutOfMemory>
    requires apart { are_apart (joined (map arc_value layers.now)) ≡ true }
    requires count { count ≡ length (joined (map arc_value layers.now)) }
    requires rising { rise_from 0 ids.now ≡ true }
    requires within { All (λ i. i < length (joined (map arc_value layers.now))) ids.now }
    ensures { IfOk result (λ v. v.items ≡ in_label_order (joined (map arc_value layers.now)) ids.now) }
{
    let mut found = Vec::new(alloc);
    let mut first = count;
    let mut end = ids.len();
    let mut place = layers.len();
    while place > 0 {
        place -= 1;
        let layer = &layers[place];
        first -= layer.index().count();
        let begin = count_below(&ids[..end], first);
        let part = ordered(alloc, layer, first, &ids[begin..end])?;
        found = merged(alloc, layers, part, found)?;
        end = begin;
    }
    Ok(found)
}
