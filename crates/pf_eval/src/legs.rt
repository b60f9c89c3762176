//! Queries bound over snapshots, and what their legs are over runs.

ghost use Rattle.std.specs.Prelude.{◌≡◌, ◌<◌, ◌≤◌, ◌+◌, ◌*◌, ℕ, pos, true, List, [], length, Some, IfOk};
ghost use Rattle.std.specs.List.{All};
ghost use Rattle.pf_base.specs.declared.plain.Row.{Row};
ghost use Rattle.pf_model.specs.Binding.{bound_series, patterns_of};
ghost use Rattle.pf_model.specs.Built.{is_evaluated};
ghost use Rattle.pf_model.specs.Evaluation.{eval};
ghost use Rattle.pf_model.specs.Legs.{leg_part, node_part, of_shard};
ghost use Rattle.pf_model.specs.Log.{AreApart};
ghost use Rattle.pf_model.specs.Sharding.{is_sharded, legs_over};
ghost use Rattle.pf_model.specs.Trees.{height, tree_of};
ghost use Rattle.pf_columns.specs.Steps.{step_at};
ghost use Rattle.pf_store.specs.Standing.{StandsFor};
ghost use Rattle.pf_shard.specs.declared.parts.Part.{Part};
ghost use Rattle.pf_shard.specs.Bound.{AreBoundOver, IsBoundOver, node_matchers, shard_ids};
ghost use Rattle.pf_shard.specs.Groups.{groups_at};
ghost use Rattle.pf_shard.specs.Lawful.{IsLawful, leg_count, legs_data};
ghost use Rattle.pf_shard.specs.LegParts.{FitsNodes, part_at};

use crate::bound::steps_over;
use crate::called::instant_selector;
use crate::numbered::numbered;
use crate::plain::plain_steps;
use crate::sharding::all_by_shard;
use crate::summed::selected_groups;
use pf_asked::Asked;
use pf_base::{Grid, OutOfMemory};
use pf_block::Snap;
use pf_columns::StepCells;
use pf_index::select_all;
use pf_model::Expr;
use pf_shard::{GroupSteps, Legs, Part, Resolved, partials_over, rewrite};
use std::alloc::Global;
use std::sync::Arc;

/// What is asked over a snapshot, with the ids of the series that each of its selectors takes. The tree and the patterns are
/// shared. Prometheus, Querying basics: Time series selectors.
pub fn bind(alloc: Global, asked: &Asked, snap: &Snap) -> Result<Resolved, OutOfMemory>
    ensures query { IfOk result (λ r. r.query ≡ asked.now.query.tree) }
    ensures series { IfOk result (λ r. r.series ≡ bound_series asked.now.query.tree snap.now.labels) }
    ensures patterns { IfOk result (λ r. r.patterns ≡ patterns_of asked.now.query.tree) }
    ensures bound { IfOk result (λ r. IsBoundOver r snap.now.labels) }
{
    let series = select_all(alloc, snap, &asked.matchers)?;
    let expr = Arc::try_clone(&asked.expr)?;
    let patterns = Arc::try_clone(&asked.patterns)?;
    Ok(Resolved {
        expr,
        series,
        patterns,
    })
}

/// The legs of what is asked over a snapshot, over so many shards, each with the series that it reads. Each series' shard is
/// found once.
pub fn legs_over(
    alloc: Global,
    asked: &Asked,
    snap: &Snap,
    shards: u32,
) -> Result<Legs, OutOfMemory>
    requires { (1 ≤ shards) × (shards ≤ 64) }
    ensures data { IfOk result (λ l. legs_data l ≡ record { query = asked.now.query.tree; nodes = legs_over asked.now.query.tree shards; shards = shards }) }
    ensures lawful { IfOk result (λ l. IsLawful (legs_data l)) }
    ensures bound { IfOk result (λ l. AreBoundOver l snap.now.labels) }
{
    let resolved = Arc::new(alloc, bind(alloc, asked, snap)?)?;
    let mut legs = rewrite(alloc, resolved, shards)?;
    if legs.nodes.is_empty() {
        return Ok(legs);
    }
    let series = all_by_shard(alloc, snap, &legs.resolved.series, shards)?;
    legs.series = series;
    Ok(legs)
}

/// What a query over a snapshot is at each step of a run.
#[tactic(auto, using(crate::proofs::BoundLegs::all_among))]
fn resolved_steps(
    alloc: Global,
    resolved: &Resolved,
    snap: &Snap,
    run: &Grid,
) -> Result<StepCells, OutOfMemory>
    requires { IsBoundOver resolved.now snap.now.labels }
    ensures { IfOk result (λ s. (samples : List Row) → StandsFor snap.now samples → AreApart samples → (k : ℕ) → k < run.now.len
        → step_at s k ≡ eval samples resolved.now.query (pos (run.now.start + k * run.now.step))) }
{
    steps_over(
        alloc,
        &resolved.expr,
        &resolved.series,
        &resolved.patterns,
        snap,
        run,
    )
}

/// What a shard knows of the groups of an aggregation over a run, from the series of the shard that its selector reads.
fn node_groups(
    alloc: Global,
    node: &Expr,
    snap: &Snap,
    ids: &[u32],
    run: &Grid,
) -> Result<GroupSteps, OutOfMemory>
    requires sharded { is_sharded (tree_of node.now) ≡ true }
    requires evaluated { is_evaluated (tree_of node.now) ≡ true }
    requires low { height (tree_of node.now) ≤ 64 }
    requires inside { All (λ id. id < length snap.now.labels) ids.now }
    ensures { IfOk result (λ g. (samples : List Row) (shard shards : ℕ) → StandsFor snap.now samples → AreApart samples
        → ids.now ≡ shard_ids shard shards (node_matchers (Some (tree_of node.now))) snap.now.labels → (k : ℕ) → k < run.now.len
        → groups_at g k ≡ node_part (Some (tree_of node.now)) (of_shard shard shards samples) (pos (run.now.start + k * run.now.step))) }
{
    let Expr::Aggregate { grouping, args, .. } = node else {
        unreachable!()
    };
    let arg = &args[0];
    if let Some(read) = instant_selector(arg) {
        let groups = selected_groups(alloc, grouping, read.mods, snap, ids, run)?;
        return Ok(groups);
    }
    let steps = plain_steps(alloc, snap, arg, ids, run)?;
    let groups = partials_over(alloc, grouping, steps, run.len())?;
    Ok(groups)
}

/// What a leg of a node is over a run.
fn node_leg(
    alloc: Global,
    legs: &Legs,
    leg: u32,
    snap: &Snap,
    run: &Grid,
) -> Result<GroupSteps, OutOfMemory>
    requires lawful { IsLawful (legs_data legs.now) }
    requires nodes { legs.now.nodes ≡ [] → ⊥ }
    requires leg { leg < leg_count (legs_data legs.now) }
    requires bound { AreBoundOver legs.now snap.now.labels }
    ensures { IfOk result (λ g. (samples : List Row) → StandsFor snap.now samples → AreApart samples → (k : ℕ) → k < run.now.len
        → groups_at g k ≡ leg_part samples (legs_data legs.now) leg (pos (run.now.start + k * run.now.step))) }
{
    let number = legs.nodes[(leg / legs.shards) as usize];
    let node = numbered(&legs.resolved.expr, number);
    let ids = &legs.series[leg as usize];
    let groups = node_groups(alloc, node, snap, ids, run)?;
    Ok(groups)
}

/// What a leg is over a run: the value of the query, where it has one leg, or else what a shard knows of the groups of a node.
/// Prometheus, Querying basics; that legs are evaluated one by one is this project's own, after Mimir's query sharding.
pub fn eval_leg(
    alloc: Global,
    legs: &Legs,
    leg: u32,
    snap: &Snap,
    run: &Grid,
) -> Result<Part, OutOfMemory>
    requires lawful { IsLawful (legs_data legs.now) }
    requires leg { leg < leg_count (legs_data legs.now) }
    requires bound { AreBoundOver legs.now snap.now.labels }
    ensures fits { IfOk result (λ p. FitsNodes legs.now.nodes p) }
    ensures value { IfOk result (λ p. (samples : List Row) → StandsFor snap.now samples → AreApart samples → (k : ℕ) → k < run.now.len
        → part_at p k ≡ leg_part samples (legs_data legs.now) leg (pos (run.now.start + k * run.now.step))) }
{
    if legs.nodes.is_empty() {
        let steps = resolved_steps(alloc, &legs.resolved, snap, run)?;
        return Ok(Part::Whole(steps));
    }
    let groups = node_leg(alloc, legs, leg, snap, run)?;
    Ok(Part::Groups(groups))
}
