//! Series of one index in label order.

ghost use Rattle.std.specs.Prelude.{◌≡◌, ◌+◌, ◌<◌, ◌≤◌, ◌^◌, ℕ, List, IfOk, false, length, map, nat_eq, slice_index_or, true, vec_len};
ghost use Rattle.std.specs.List.{All, filter, list_any};
ghost use Rattle.pf_block.specs.LabelOrders.{ids_by_label, in_label_order, rise_from};

use crate::ranked::Ranked;
use pf_base::OutOfMemory;
use std::alloc::Global;

/// A sort of so many series takes about as long as a walk over all of one in this many.
const WALKED: usize = 16;

/// Some series of an index, whose ids begin at `first`, in label order.
pub fn ordered(
    alloc: Global,
    layer: &Ranked,
    first: u32,
    ids: &[u32],
) -> Result<Vec<u32>, OutOfMemory>
    requires few { first + length layer.now < 2 ^ 32 }
    requires rising { rise_from first ids.now ≡ true }
    requires within { All (λ id. id < first + length layer.now) ids.now }
    ensures { IfOk result (λ v. (locals : List ℕ) → ids.now ≡ map (λ id. first + id) locals → v.items ≡ map (λ id. first + id) (in_label_order layer.now locals)) }
{
    if ids.len() < layer.index().count() as usize / WALKED {
        return sorted(alloc, layer, first, ids);
    }
    picked(alloc, layer, first, ids)
}

/// The same by a sort of the places of these alone.
fn sorted(alloc: Global, layer: &Ranked, first: u32, ids: &[u32]) -> Result<Vec<u32>, OutOfMemory>
    requires few { first + length layer.now < 2 ^ 32 }
    requires rising { rise_from first ids.now ≡ true }
    requires within { All (λ id. id < first + length layer.now) ids.now }
    ensures { IfOk result (λ v. (locals : List ℕ) → ids.now ≡ map (λ id. first + id) locals → v.items ≡ map (λ id. first + id) (in_label_order layer.now locals)) }
{
    let mut ranks = ranks_of(alloc, layer, first, ids)?;
    ranks.sort_unstable();
    let found = ids_at(alloc, layer, first, &ranks)?;
    Ok(found)
}

/// The places of some series in label order.
fn ranks_of(alloc: Global, layer: &Ranked, first: u32, ids: &[u32]) -> Result<Vec<u32>, OutOfMemory>
    requires above { All (λ id. first ≤ id) ids.now }
    requires within { All (λ id. id < first + length layer.now) ids.now }
    ensures within { IfOk result (λ v. All (λ rank. rank < length layer.now) v.items) }
    ensures places { IfOk result (λ v. map (λ rank. first + slice_index_or (ids_by_label layer.now) rank 0) v.items ≡ ids.now) }
{
    let mut ranks = Vec::with_capacity(alloc, ids.len())?;
    for id in ids {
        ranks.push(layer.rank(*id - first))?;
    }
    Ok(ranks)
}

/// The series at some places in label order.
fn ids_at(alloc: Global, layer: &Ranked, first: u32, ranks: &[u32]) -> Result<Vec<u32>, OutOfMemory>
    requires few { first + length layer.now < 2 ^ 32 }
    requires within { All (λ rank. rank < length layer.now) ranks.now }
    ensures { IfOk result (λ v. v.items ≡ map (λ rank. first + slice_index_or (ids_by_label layer.now) rank 0) ranks.now) }
{
    let by_label = layer.by_label();
    let mut ids = Vec::with_capacity(alloc, ranks.len())?;
    for rank in ranks {
        ids.push(first + by_label[*rank as usize])?;
    }
    Ok(ids)
}

/// The same by a walk over all series.
fn picked(alloc: Global, layer: &Ranked, first: u32, ids: &[u32]) -> Result<Vec<u32>, OutOfMemory>
    requires few { first + length layer.now < 2 ^ 32 }
    requires rising { rise_from first ids.now ≡ true }
    requires within { All (λ id. id < first + length layer.now) ids.now }
    ensures { IfOk result (λ v. (locals : List ℕ) → ids.now ≡ map (λ id. first + id) locals → v.items ≡ map (λ id. first + id) (in_label_order layer.now locals)) }
{
    let marks = marks(alloc, first, ids, layer.index().count() as usize)?;
    let found = marked(alloc, layer, first, &marks, ids.len())?;
    Ok(found)
}

/// Which of so many series from `first` on are in a list.
fn marks(alloc: Global, first: u32, ids: &[u32], count: usize) -> Result<Vec<bool>, OutOfMemory>
    requires { All (λ id. first ≤ id) ids.now }
    ensures { IfOk result (λ v. (vec_len v ≡ count) × ((k : ℕ) → k < count → slice_index_or v.items k false ≡ list_any (nat_eq (first + k)) ids.now)) }
{
    let mut marks = vec![in alloc; false; count]?;
    for id in ids {
        let place = (*id - first) as usize;
        if place < count {
            marks[place] = true;
        }
    }
    Ok(marks)
}

/// The series of an index that are marked. `count` is how many these will be.
fn marked(
    alloc: Global,
    layer: &Ranked,
    first: u32,
    marks: &[bool],
    count: usize,
) -> Result<Vec<u32>, OutOfMemory>
    requires few { first + length layer.now < 2 ^ 32 }
    requires marks { length layer.now ≤ length marks.now }
    ensures { IfOk result (λ v. v.items ≡ map (λ id. first + id) (filter (λ id. slice_index_or marks.now id false) (ids_by_label layer.now))) }
{
    let by_label = layer.by_label();
    let mut found = Vec::with_capacity(alloc, count)?;
    for id in by_label {
        if marks[*id as usize] {
            found.push(first + *id)?;
        }
    }
    Ok(found)
}
