//! What selectors read over a run of steps.

ghost use Rattle.std.specs.Prelude.{◌≡◌, ◌<◌, ◌≤◌, ◌∷◌, ◌-ℤ◌, ℕ, ℤ, pos, true, false, List, [], Some, length, map, IfOk, MatchOption};
ghost use Rattle.std.specs.List.{All, list_all};
ghost use Rattle.pf_base.specs.Limits.{greatest_time};
ghost use Rattle.pf_base.specs.declared.plain.Row.{Row};
ghost use Rattle.pf_base.specs.LabelSets.{is_label_name};
ghost use Rattle.pf_model.specs.declared.expr.Matcher.{Matcher};
ghost use Rattle.pf_model.specs.Binding.{accepted_ids};
ghost use Rattle.pf_model.specs.Built.{are_near, is_distance, name_labels};
ghost use Rattle.pf_model.specs.Cells.{cell_of};
ghost use Rattle.pf_model.specs.Evaluation.{fixed_time, read_time, selected, selection, timed};
ghost use Rattle.pf_model.specs.InstantFunctions.{absent_labels, each_value};
ghost use Rattle.pf_model.specs.Legs.{of_shard};
ghost use Rattle.pf_model.specs.Log.{AreApart};
ghost use Rattle.pf_model.specs.Outcomes.{elements, of_cell, range_call};
ghost use Rattle.pf_shard.specs.Bound.{shard_ids};
ghost use Rattle.pf_store.specs.Standing.{StandsFor};
ghost use Rattle.pf_selectors.specs.Times.{AreStarts, AreTimes, time_at};
ghost use Rattle.pf_eval.specs.Bound.{HasLevels, HasRoom};
ghost use Rattle.pf_eval.specs.Nodes.{is_text, node_at};

use crate::node::Node;
use pf_base::OutOfMemory;
use pf_block::Snap;
use pf_math::absent_labels;
use pf_model::{At, Mods, RangeFn, Selector};
use pf_selectors::{Times, ranged, sample_times, selected};
use std::alloc::Global;

/// The time that `@` fixes, if it fixes one.
fn fixed_by(at: Option<At>) -> Option<u64>
    ensures { MatchOption result ((t : ℤ) → fixed_time at t ≡ t) (λ millis. at ≡ Some (At.Time millis)) }
{
    match at {
        Some(At::Time { millis }) => Some(millis),
        Some(At::Start) | Some(At::End) | None => None,
    }
}

/// A fixed time less the offset, at each step.
#[tactic(auto, using(crate::proofs::ReadTimes::offset_within))]
fn fixed_times<'a>(mods: Mods, millis: u64, len: u32) -> Times<'a>
    requires near { are_near mods ≡ true }
    requires time { millis ≤ greatest_time }
    ensures start { result.start ≡ pos millis -ℤ mods.offset }
    ensures step { result.step ≡ pos 0 }
    ensures len { result.len ≡ len }
    ensures list { result.list.now ≡ [] }
{
    Times {
        start: millis as i64 - mods.offset,
        step: 0,
        len,
        list: &[],
    }
}

/// The times of a run less the offset.
#[tactic(auto, using(crate::proofs::ReadTimes::offset_within))]
fn moved_times<'a>(mods: Mods, times: &Times<'a>) -> Times<'a>
    requires near { are_near mods ≡ true }
    requires start { HasLevels 1 times.now.start }
    ensures start { result.start ≡ times.now.start -ℤ mods.offset }
    ensures step { result.step ≡ times.now.step }
    ensures len { result.len ≡ times.now.len }
    ensures list { result.list.now ≡ times.now.list.now }
{
    Times {
        start: times.start - mods.offset,
        step: times.step,
        len: times.len,
        list: times.list,
    }
}

/// The times that a selector or a subquery reads at.
#[tactic(auto, using(crate::proofs::ReadTimes::millis_within))]
pub(crate) fn read_times<'a>(mods: Mods, times: &Times<'a>) -> Times<'a>
    requires near { are_near mods ≡ true }
    requires room { HasRoom 1 times.now }
    ensures len { result.len ≡ times.now.len }
    ensures start { result.start ≡ read_time mods times.now.start }
    ensures times { (k : ℕ) → k < times.now.len → time_at result k ≡ read_time mods (time_at times.now k) }
    ensures within { AreTimes result }
{
    match fixed_by(mods.at) {
        Some(millis) => fixed_times(mods, millis, times.len),
        None => moved_times(mods, times),
    }
}

/// What an instant selector gives.
pub(crate) fn selection(
    alloc: Global,
    snap: &Snap,
    ids: &[u32],
    mods: Mods,
    times: &Times,
) -> Result<Node, OutOfMemory>
    requires inside { All (λ id. id < length snap.now.labels) ids.now }
    requires near { are_near mods ≡ true }
    requires room { HasRoom 1 times.now }
    ensures kind { IfOk result (λ n. is_text n ≡ false) }
    ensures value { IfOk result (λ n. (samples : List Row) (ms : List Matcher) → StandsFor snap.now samples → ids.now ≡ accepted_ids ms snap.now.labels → (k : ℕ) → k < times.now.len
        → node_at n k ≡ elements (selected samples ms (read_time mods (time_at times.now k)))) }
    ensures shard { IfOk result (λ n. (samples : List Row) (ms : List Matcher) (shard shards : ℕ) → StandsFor snap.now samples
        → ids.now ≡ shard_ids shard shards ms snap.now.labels → (k : ℕ) → k < times.now.len
        → node_at n k ≡ elements (selected (of_shard shard shards samples) ms (read_time mods (time_at times.now k)))) }
{
    let read = read_times(mods, times);
    let found = selected(alloc, snap, ids, &read)?;
    Ok(Node::Vector(found))
}

/// What a function of a range selector gives, at the times that the selector reads at.
fn over_windows(
    alloc: Global,
    f: RangeFn,
    selector: &Selector,
    range: u64,
    snap: &Snap,
    ids: &[u32],
    read: &Times,
) -> Result<Node, OutOfMemory>
    requires inside { All (λ id. id < length snap.now.labels) ids.now }
    requires names { list_all (λ m. is_label_name m.label) selector.now ≡ true }
    requires times { AreTimes read.now }
    requires starts { AreStarts range read.now }
    ensures kind { IfOk result (λ n. is_text n ≡ false) }
    ensures value { IfOk result (λ n. (samples : List Row) → StandsFor snap.now samples → AreApart samples → ids.now ≡ accepted_ids selector.now snap.now.labels → (k : ℕ) → k < read.now.len
        → node_at n k ≡ range_call f (absent_labels selector.now) (selection samples selector.now (Some range) (time_at read.now k) ∷ [])) }
    ensures shard { IfOk result (λ n. (samples : List Row) (shard shards : ℕ) → StandsFor snap.now samples → AreApart samples
        → ids.now ≡ shard_ids shard shards selector.now snap.now.labels → (k : ℕ) → k < read.now.len
        → node_at n k ≡ range_call f (absent_labels selector.now) (selection (of_shard shard shards samples) selector.now (Some range) (time_at read.now k) ∷ [])) }
{
    let absent = absent_labels(alloc, selector)?;
    let found = ranged(alloc, f, &absent, range, snap, ids, read)?;
    Ok(Node::Vector(found))
}

/// The times of the samples that an instant selector reads, at the times that it reads at.
fn times_read(alloc: Global, snap: &Snap, ids: &[u32], read: &Times) -> Result<Node, OutOfMemory>
    requires inside { All (λ id. id < length snap.now.labels) ids.now }
    requires times { AreTimes read.now }
    ensures kind { IfOk result (λ n. is_text n ≡ false) }
    ensures value { IfOk result (λ n. (samples : List Row) (ms : List Matcher) → StandsFor snap.now samples → ids.now ≡ accepted_ids ms snap.now.labels → (k : ℕ) → k < read.now.len
        → node_at n k ≡ of_cell (cell_of (each_value Some (selected (map timed samples) ms (time_at read.now k))))) }
    ensures shard { IfOk result (λ n. (samples : List Row) (ms : List Matcher) (shard shards : ℕ) → StandsFor snap.now samples
        → ids.now ≡ shard_ids shard shards ms snap.now.labels → (k : ℕ) → k < read.now.len
        → node_at n k ≡ of_cell (cell_of (each_value Some (selected (map timed (of_shard shard shards samples)) ms (time_at read.now k))))) }
{
    let found = sample_times(alloc, snap, ids, read)?;
    Ok(Node::Vector(found))
}

/// A function of a range selector.
pub(crate) fn over_range(
    alloc: Global,
    f: RangeFn,
    selector: &Selector,
    range: u64,
    snap: &Snap,
    ids: &[u32],
    mods: Mods,
    times: &Times,
) -> Result<Node, OutOfMemory>
    requires inside { All (λ id. id < length snap.now.labels) ids.now }
    requires names { name_labels selector.now ≡ true }
    requires range { is_distance range ≡ true }
    requires near { are_near mods ≡ true }
    requires room { HasRoom 1 times.now }
    ensures kind { IfOk result (λ n. is_text n ≡ false) }
    ensures value { IfOk result (λ n. (samples : List Row) → StandsFor snap.now samples → AreApart samples → ids.now ≡ accepted_ids selector.now snap.now.labels → (k : ℕ) → k < times.now.len
        → node_at n k ≡ range_call f (absent_labels selector.now) (selection samples selector.now (Some range) (read_time mods (time_at times.now k)) ∷ [])) }
    ensures shard { IfOk result (λ n. (samples : List Row) (shard shards : ℕ) → StandsFor snap.now samples → AreApart samples
        → ids.now ≡ shard_ids shard shards selector.now snap.now.labels → (k : ℕ) → k < times.now.len
        → node_at n k ≡ range_call f (absent_labels selector.now) (selection (of_shard shard shards samples) selector.now (Some range) (read_time mods (time_at times.now k)) ∷ [])) }
{
    let read = read_times(mods, times);
    let found = over_windows(alloc, f, selector, range, snap, ids, &read)?;
    Ok(found)
}

/// `timestamp` of an instant selector.
pub(crate) fn timestamps(
    alloc: Global,
    snap: &Snap,
    ids: &[u32],
    mods: Mods,
    times: &Times,
) -> Result<Node, OutOfMemory>
    requires inside { All (λ id. id < length snap.now.labels) ids.now }
    requires near { are_near mods ≡ true }
    requires room { HasRoom 1 times.now }
    ensures kind { IfOk result (λ n. is_text n ≡ false) }
    ensures value { IfOk result (λ n. (samples : List Row) (ms : List Matcher) → StandsFor snap.now samples → ids.now ≡ accepted_ids ms snap.now.labels → (k : ℕ) → k < times.now.len
        → node_at n k ≡ of_cell (cell_of (each_value Some (selected (map timed samples) ms (read_time mods (time_at times.now k)))))) }
    ensures shard { IfOk result (λ n. (samples : List Row) (ms : List Matcher) (shard shards : ℕ) → StandsFor snap.now samples
        → ids.now ≡ shard_ids shard shards ms snap.now.labels → (k : ℕ) → k < times.now.len
        → node_at n k ≡ of_cell (cell_of (each_value Some (selected (map timed (of_shard shard shards samples)) ms (read_time mods (time_at times.now k)))))) }
{
    let read = read_times(mods, times);
    let found = times_read(alloc, snap, ids, &read)?;
    Ok(found)
}
