//! What the legs of a query are together over a run.

ghost use Rattle.std.specs.Prelude.{◌≡◌, ◌<◌, ◌≤◌, ◌+◌, ◌*◌, ℕ, pos, List, [], length, map, Some, IfOk};
ghost use Rattle.std.specs.List.{slice_get};
ghost use Rattle.pf_base.specs.declared.plain.Row.{Row};
ghost use Rattle.pf_model.specs.Evaluation.{eval};
ghost use Rattle.pf_model.specs.Legs.{leg_part};
ghost use Rattle.pf_model.specs.Lists.{Each};
ghost use Rattle.pf_columns.specs.Steps.{step_at};
ghost use Rattle.pf_selectors.specs.Times.{AreTimes, time_at};
ghost use Rattle.pf_shard.specs.declared.parts.Part.{Part};
ghost use Rattle.pf_shard.specs.Bound.{AreEvaluable};
ghost use Rattle.pf_shard.specs.Lawful.{AreSharded, IsLawful, leg_count, legs_data};
ghost use Rattle.pf_shard.specs.LegParts.{FitsNodes, part_at};
ghost use Rattle.pf_eval.specs.Merged.{AreOfShards, IsGroups, IsMerged, sharded_in};

use crate::bound::{steps_of, times_of};
use crate::merged::merged_node;
use pf_base::{Grid, OutOfMemory};
use pf_columns::StepCells;
use pf_selectors::Times;
use pf_shard::{GroupSteps, Legs, Part, Resolved};
use std::alloc::Global;
use std::collections::VecDeque;

/// What the whole query is at each step.
fn whole_of(part: Part) -> StepCells
    requires { FitsNodes [] part }
    ensures { part ≡ Part.Whole result }
{
    match part {
        Part::Whole(steps) => steps,
        Part::Groups(_) => unreachable!(),
    }
}

/// What a shard knows of groups at each step.
fn groups_of(part: Part) -> GroupSteps
    requires { IsGroups part }
    ensures { part ≡ Part.Groups result }
{
    match part {
        Part::Groups(groups) => groups,
        Part::Whole(_) => unreachable!(),
    }
}

fn all_groups(alloc: Global, parts: Vec<Part>) -> Result<VecDeque<GroupSteps>, OutOfMemory>
    requires { Each IsGroups parts.items }
    ensures { IfOk result (λ d. parts.items ≡ map Part.Groups d.items) }
{
    let mut found = Vec::with_capacity(alloc, parts.len())?;
    for part in parts {
        found.push(groups_of(part))?;
    }
    Ok(VecDeque::from_vec(found))
}

/// What a query that has one leg is at each step.
fn whole_steps(parts: Vec<Part>) -> StepCells
    requires one { length parts.items ≡ 1 }
    requires fits { Each (FitsNodes []) parts.items }
    ensures { slice_get parts.items 0 ≡ Some (Part.Whole result) }
{
    let mut parts = parts;
    let Some(part) = parts.pop() else {
        unreachable!()
    };
    whole_of(part)
}

/// What a query over a snapshot is at each of some times, from the parts of all shards of its aggregations.
fn steps_from_groups(
    alloc: Global,
    resolved: &Resolved,
    shards: u32,
    groups: VecDeque<GroupSteps>,
    times: &Times,
) -> Result<StepCells, OutOfMemory>
    requires merged { IsMerged resolved.now.query shards groups.items resolved.now.patterns }
    requires times { AreTimes times.now }
    requires positive { 0 < shards }
    requires few { shards ≤ 64 }
    ensures { IfOk result (λ s. (samples : List Row) → AreOfShards samples shards times.now (sharded_in resolved.now.query) groups.items → (k : ℕ) → k < times.now.len
        → step_at s k ≡ eval samples resolved.now.query (time_at times.now k)) }
{
    let mut groups = groups;
    let node = merged_node(
        alloc,
        &resolved.patterns,
        &resolved.expr,
        shards,
        &mut groups,
        times,
    )?;
    steps_of(alloc, node)
}

/// What a query is at each step that is evaluated shard by shard.
fn merged_steps(
    alloc: Global,
    legs: &Legs,
    parts: Vec<Part>,
    run: &Grid,
) -> Result<StepCells, OutOfMemory>
    requires sharded { AreSharded (legs_data legs.now) }
    requires evaluable { AreEvaluable legs.now.resolved }
    requires some { legs.now.nodes ≡ [] → ⊥ }
    requires many { length parts.items ≡ length legs.now.nodes * legs.now.shards }
    requires groups { Each IsGroups parts.items }
    ensures { IfOk result (λ s. (samples : List Row)
        → ((i : ℕ) (p : Part) → slice_get parts.items i ≡ Some p → (k : ℕ) → k < run.now.len
        → part_at p k ≡ leg_part samples (legs_data legs.now) i (pos (run.now.start + k * run.now.step)))
        → (k : ℕ) → k < run.now.len → step_at s k ≡ eval samples legs.now.resolved.query (pos (run.now.start + k * run.now.step))) }
{
    let groups = all_groups(alloc, parts)?;
    let times = times_of(run);
    let steps = steps_from_groups(alloc, &legs.resolved, legs.shards, groups, &times)?;
    Ok(steps)
}

/// What the legs of a query are together over a run: the value of the query at each step. The shards of each aggregation that is
/// evaluated shard by shard are merged once a run, and the query is evaluated from these. The parts are taken, and nothing of
/// them is copied. This project's own, after Mimir's query sharding. It calls itself as deep as the tree is high.
pub fn merge(
    alloc: Global,
    legs: &Legs,
    parts: Vec<Part>,
    run: &Grid,
) -> Result<StepCells, OutOfMemory>
    requires lawful { IsLawful (legs_data legs.now) }
    requires evaluable { AreEvaluable legs.now.resolved }
    requires many { length parts.items ≡ leg_count (legs_data legs.now) }
    requires fits { Each (FitsNodes legs.now.nodes) parts.items }
    ensures value { IfOk result (λ s. (samples : List Row)
        → ((i : ℕ) (p : Part) → slice_get parts.items i ≡ Some p → (k : ℕ) → k < run.now.len
        → part_at p k ≡ leg_part samples (legs_data legs.now) i (pos (run.now.start + k * run.now.step)))
        → (k : ℕ) → k < run.now.len → step_at s k ≡ eval samples legs.now.resolved.query (pos (run.now.start + k * run.now.step))) }
{
    if legs.nodes.is_empty() {
        return Ok(whole_steps(parts));
    }
    let steps = merged_steps(alloc, legs, parts, run)?;
    Ok(steps)
}
