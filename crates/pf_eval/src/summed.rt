//! What a shard knows of the groups of an aggregation of an instant selector. The series are read one after another, and no column of
//! theirs is kept.

ghost use Rattle.std.specs.Prelude.{◌≡◌, ◌<◌, ◌≤◌, ◌+◌, ◌*◌, ℕ, pos, true, List, [], length, map, IfOk};
ghost use Rattle.std.specs.List.{All};
ghost use Rattle.pf_base.specs.declared.plain.Row.{Row};
ghost use Rattle.pf_model.specs.Aggregation.{group_key};
ghost use Rattle.pf_model.specs.Built.{are_near};
ghost use Rattle.pf_model.specs.declared.cell.StepCell.TheVariants.{Good};
ghost use Rattle.pf_model.specs.declared.expr.Matcher.{Matcher};
ghost use Rattle.pf_model.specs.Evaluation.{read_time, selected};
ghost use Rattle.pf_model.specs.Legs.{grouped_part, of_shard};
ghost use Rattle.pf_model.specs.Lists.{Each};
ghost use Rattle.pf_model.specs.Merging.{below};
ghost use Rattle.pf_columns.specs.Groups.{those_of};
ghost use Rattle.pf_shard.specs.Bound.{shard_ids};
ghost use Rattle.pf_shard.specs.Groups.{IsWithin, group_columns, groups_at, known_over};
ghost use Rattle.pf_store.specs.Standing.{StandsFor};
ghost use Rattle.pf_selectors.specs.SeriesColumns.{series_column};
ghost use Rattle.pf_selectors.specs.Times.{AreTimes, time_at};

use crate::bound::times_of;
use crate::reading::read_times;
use pf_base::{Grid, OutOfMemory};
use pf_block::Snap;
use pf_model::{Grouping, Mods};
use pf_selectors::{Times, read_values, series_groups};
use pf_shard::{GroupSteps, Known};
use std::alloc::Global;

/// What is known at each step of the groups of some series, by the places of the series' keys.
fn known_series(
    alloc: Global,
    snap: &Snap,
    ids: &[u32],
    places: &[usize],
    times: &Times,
    count: usize,
) -> Result<Known, OutOfMemory>
    requires inside { All (λ id. id < length snap.now.labels) ids.now }
    requires times { AreTimes times.now }
    requires some { 0 < times.now.len }
    requires alike { length places.now ≡ length ids.now }
    requires within { All (λ o. o < count) places.now }
    requires few { length ids.now ≤ 4294967295 }
    ensures known { IfOk result (λ v. v ≡ below (λ g. known_over times.now.len (those_of g places.now (map (series_column snap.now times.now) ids.now))) count) }
    ensures within { IfOk result (λ v. Each (λ ps. Each (IsWithin 4294967295) ps) v) }
{
    let span = times.span();
    let mut samples = Vec::new(alloc);
    let mut values = Vec::with_capacity(alloc, times.len as usize)?;
    let mut known = Known::new(alloc, count, times.len)?;
    for i in 0..ids.len() {
        read_values(snap, ids[i], times, span, &mut samples, &mut values)?;
        known.add(places[i], &values);
    }
    Ok(known)
}

/// What is known of the groups of some series, at the times that they are read at.
fn series_known(
    alloc: Global,
    grouping: &Grouping,
    snap: &Snap,
    ids: &[u32],
    times: &Times,
) -> Result<GroupSteps, OutOfMemory>
    requires inside { All (λ id. id < length snap.now.labels) ids.now }
    requires times { AreTimes times.now }
    requires some { 0 < times.now.len }
    ensures columns { IfOk result (λ g. g.columns ≡ group_columns (group_key grouping.now.without grouping.now.labels) (map (series_column snap.now times.now) ids.now) times.now.len) }
    ensures bads { IfOk result (λ g. g.bads ≡ []) }
{
    if ids.len() > u32::MAX as usize {
        return Err(OutOfMemory);
    }
    let groups = series_groups(alloc, snap, ids, grouping)?;
    let known = known_series(alloc, snap, ids, &groups.of, times, groups.keys.len())?;
    let steps = known.steps(alloc, groups.keys)?;
    Ok(steps)
}

/// What a shard knows of the groups of an aggregation of an instant selector over a run, where `ids` are the series of the shard that the
/// selector reads. Over 2^32 - 1 series are told as want of memory.
pub(crate) fn selected_groups(
    alloc: Global,
    grouping: &Grouping,
    mods: Mods,
    snap: &Snap,
    ids: &[u32],
    run: &Grid,
) -> Result<GroupSteps, OutOfMemory>
    requires inside { All (λ id. id < length snap.now.labels) ids.now }
    requires near { are_near mods ≡ true }
    ensures { IfOk result (λ g. (samples : List Row) (ms : List Matcher) (shard shards : ℕ) → StandsFor snap.now samples
        → ids.now ≡ shard_ids shard shards ms snap.now.labels → (k : ℕ) → k < run.now.len
        → groups_at g k ≡ grouped_part grouping.now (Good (selected (of_shard shard shards samples) ms (read_time mods (pos (run.now.start + k * run.now.step)))))) }
{
    let _count = snap.series_count();
    let _len = run.len();
    let times = times_of(run);
    let read = read_times(mods, &times);
    let groups = series_known(alloc, grouping, snap, ids, &read)?;
    Ok(groups)
}
