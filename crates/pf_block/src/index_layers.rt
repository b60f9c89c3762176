//! Series in the indexes that stand on one another.

ghost use Rattle.std.specs.Prelude.{◌≡◌, ◌<◌, ◌≤◌, ◌^◌, [], length, map, slice_index_or, true};
ghost use Rattle.std.specs.Arc.{arc_value};
ghost use Rattle.std.specs.Ordering.{is_lt};
ghost use Rattle.pf_base.specs.LabelOrder.{labels_cmp};
ghost use Rattle.pf_base.specs.ShardHash.{shard_of};
ghost use Rattle.pf_block.specs.IndexStacks.{IsPlace, joined};
ghost use Rattle.pf_block.specs.SeriesIds.{id_of};
ghost use Rattle.pf_block.specs.Snaps.{are_apart};

use crate::ranked::Ranked;
use pf_base::Labels;
use std::sync::Arc;

/// The place of the index that has a series, and the id of the series there.
fn place_of(layers: &[Arc<Ranked>], id: u32) -> (usize, u32)
    requires { id < length (joined (map arc_value layers.now)) }
    ensures { IsPlace (map arc_value layers.now) id result.0 result.1 }
{
    let mut local = id;
    for place in 0..layers.len() {
        let layer = &layers[place];
        let count = layer.index().count();
        if local < count {
            return (place, local);
        }
        local -= count;
    }
    unreachable!()
}

/// The labels of a series.
pub fn labels_in(layers: &[Arc<Ranked>], id: u32) -> &Labels
    requires { id < length (joined (map arc_value layers.now)) }
    ensures { result.now ≡ slice_index_or (joined (map arc_value layers.now)) id [] }
{
    let (place, local) = place_of(layers, id);
    let layer = &layers[place];
    layer.index().labels(local)
}

/// The shard of a series among n.
pub fn shard_in(layers: &[Arc<Ranked>], id: u32, n: u32) -> u32
    requires within { id < length (joined (map arc_value layers.now)) }
    requires some { 1 ≤ n }
    ensures { result ≡ shard_of (slice_index_or (joined (map arc_value layers.now)) id []) n }
{
    let (place, local) = place_of(layers, id);
    let layer = &layers[place];
    layer.shard(local, n)
}

/// Whether a series stands before another in label order. Label sets are compared where they stand in two indexes.
pub fn is_before(layers: &[Arc<Ranked>], id: u32, other: u32) -> bool
    requires apart { are_apart (joined (map arc_value layers.now)) ≡ true }
    requires first { id < length (joined (map arc_value layers.now)) }
    requires second { other < length (joined (map arc_value layers.now)) }
    ensures { result ≡ is_lt (labels_cmp (slice_index_or (joined (map arc_value layers.now)) id []) (slice_index_or (joined (map arc_value layers.now)) other [])) }
{
    let (place, local) = place_of(layers, id);
    let (other_place, other_local) = place_of(layers, other);
    let layer = &layers[place];
    if place == other_place {
        return layer.is_before(local, other_local);
    }
    let other_layer = &layers[other_place];
    layer.index().labels(local) < other_layer.index().labels(other_local)
}

/// The series with these labels.
pub fn find_in(layers: &[Arc<Ranked>], labels: &Labels) -> Option<u32>
    requires { length (joined (map arc_value layers.now)) < 2 ^ 32 }
    ensures { result ≡ id_of labels.now (joined (map arc_value layers.now)) }
{
    let mut first = 0;
    for layer in layers {
        if let Some(local) = layer.index().find(labels) {
            return Some(first + local);
        }
        first += layer.index().count();
    }
    None
}
