//! The series that the legs of a query read.

ghost use Rattle.std.specs.Prelude.{◌≡◌, ◌<◌, ◌≤◌, ◌++◌, ◌∷◌, [], length, map, slice_index_or, slice_set, IfOk, OnOk};
ghost use Rattle.std.specs.List.{All};
ghost use Rattle.pf_model.specs.Lists.{joined};
ghost use Rattle.pf_model.specs.Merging.{below};
ghost use Rattle.pf_shard.specs.Bound.{ids_in_shard};

use pf_base::OutOfMemory;
use pf_block::Snap;
use std::alloc::Global;

/// Puts an id into the list of its shard.
fn put_id(lists: &mut Vec<Vec<u32>>, shard: usize, id: u32) -> Result<(), OutOfMemory>
    requires { shard < length lists.old.items }
    ensures { OnOk result (map (λ v. v.items) lists.new.items
        ≡ slice_set (map (λ v. v.items) lists.old.items) shard (slice_index_or (map (λ v. v.items) lists.old.items) shard [] ++ id ∷ [])) }
{
    lists[shard].push(id)?;
    Ok(())
}

fn empty_lists(alloc: Global, count: u32) -> Result<Vec<Vec<u32>>, OutOfMemory>
    ensures { IfOk result (λ v. map (λ ids. ids.items) v.items ≡ below (λ shard. []) count) }
{
    let mut found = Vec::new(alloc);
    for _ in 0..count {
        found.push(Vec::new(alloc))?;
    }
    Ok(found)
}

/// The ids of each shard among some, in their order. The shard of each series is found once.
fn by_shard(
    alloc: Global,
    snap: &Snap,
    ids: &[u32],
    shards: u32,
) -> Result<Vec<Vec<u32>>, OutOfMemory>
    requires some { 1 ≤ shards }
    requires inside { All (λ id. id < length snap.now.labels) ids.now }
    ensures { IfOk result (λ v. map (λ list. list.items) v.items ≡ below (λ shard. ids_in_shard shard shards snap.now.labels ids.now) shards) }
{
    let mut lists = empty_lists(alloc, shards)?;
    for i in 0..ids.len() {
        let id = ids[i];
        let shard = snap.shard(id, shards);
        put_id(&mut lists, shard as usize, id)?;
    }
    Ok(lists)
}

/// Some lists of ids, each divided by shard, one after another.
pub(crate) fn all_by_shard(
    alloc: Global,
    snap: &Snap,
    series: &[Vec<u32>],
    shards: u32,
) -> Result<Vec<Vec<u32>>, OutOfMemory>
    requires some { 1 ≤ shards }
    requires inside { All (λ ids. All (λ id. id < length snap.now.labels) ids.items) series.now }
    ensures { IfOk result (λ v. map (λ list. list.items) v.items
        ≡ joined (λ ids. below (λ shard. ids_in_shard shard shards snap.now.labels ids) shards) (map (λ ids. ids.items) series.now)) }
{
    let mut found = Vec::new(alloc);
    for ids in series {
        let mut lists = by_shard(alloc, snap, ids, shards)?;
        found.append(&mut lists)?;
    }
    Ok(found)
}
