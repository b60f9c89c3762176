//! The accepted series in label order.

ghost use Rattle.std.specs.Prelude.{◌≡◌, ◌<◌, IfOk, length, map};
ghost use Rattle.std.specs.List.{All};
ghost use Rattle.pf_index.specs.Listing.{ids_of};
ghost use Rattle.pf_model.specs.Binding.{accepted_ids, accepted_of, bound_series, selectors_of};
ghost use Rattle.pf_model.specs.Trees.{Tree};

use crate::listing::{all_ids, listed_ids, listed_values, shortest};
use crate::sieving::sieved;
use pf_base::OutOfMemory;
use pf_block::Snap;
use pf_model::Matchers;
use std::alloc::Global;

/// The ids of the series of a snapshot that matchers accept, in label order.
pub fn select(alloc: Global, snap: &Snap, matchers: &Matchers) -> Result<Vec<u32>, OutOfMemory>
    ensures accepted { IfOk result (λ v. v.items ≡ accepted_ids matchers.now snap.now.labels) }
    ensures within { IfOk result (λ v. All (λ id. id < length snap.now.labels) v.items) }
{
    let ids = accepted(alloc, snap, matchers)?;
    let ids = snap.in_label_order(alloc, &ids)?;
    Ok(ids)
}

/// For each of some matchers the ids of the series that they accept, in label order.
pub fn select_all(
    alloc: Global,
    snap: &Snap,
    matchers: &[Matchers],
) -> Result<Vec<Vec<u32>>, OutOfMemory>
    ensures accepted { IfOk result (λ v. map (λ ids. ids.items) v.items ≡ map (λ ms. accepted_ids ms snap.now.labels) matchers.now) }
    ensures bound { IfOk result (λ v. (tree : Tree) → matchers.now ≡ selectors_of tree → map (λ ids. ids.items) v.items ≡ bound_series tree snap.now.labels) }
    ensures within { IfOk result (λ v. All (λ ids. All (λ id. id < length snap.now.labels) ids.items) v.items) }
{
    let mut lists = Vec::with_capacity(alloc, matchers.len())?;
    for one in matchers {
        lists.push(select(alloc, snap, one)?)?;
    }
    Ok(lists)
}

/// The series that matchers accept, by rising id.
#[tactic(auto, using(crate::proofs::Covered::all_accepted, crate::proofs::Covered::all_within))]
fn accepted(alloc: Global, snap: &Snap, matchers: &Matchers) -> Result<Vec<u32>, OutOfMemory>
    ensures { IfOk result (λ v. v.items ≡ ids_of (accepted_of matchers.now snap.now.labels)) }
{
    if let Some(place) = shortest(snap, matchers) {
        let matcher = matchers.matcher(place);
        let values = listed_values(alloc, matcher)?;
        if !values.is_empty() {
            let _count = snap.series_count();
            let ids = listed_ids(alloc, snap, matcher.label.as_str(), &values)?;
            let found = sieved(alloc, snap, matchers, Some(place), ids)?;
            return Ok(found);
        }
    }
    let ids = all_ids(alloc, snap)?;
    let found = sieved(alloc, snap, matchers, None, ids)?;
    Ok(found)
}
