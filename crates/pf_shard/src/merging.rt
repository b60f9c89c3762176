//! The groups of all shards of an aggregation, merged.

ghost use Rattle.std.specs.Prelude.{◌≡◌, ◌<◌, ◌≤◌, ◌+◌, ◌∷◌, ℕ, Some, None, [], true, length, map, IfOk, MatchOption, OnOk};
ghost use Rattle.std.specs.Option.{OnSome};
ghost use Rattle.pf_model.specs.Lists.{Each};
ghost use Rattle.pf_model.specs.Merging.{all_groups, below, finished, first_error, merged_cell, merged_groups};
ghost use Rattle.pf_model.specs.Sharding.{is_mergeable};
ghost use Rattle.pf_columns.specs.Columns.{AreRising};
ghost use Rattle.pf_columns.specs.Steps.{bad_in, step_at};
ghost use Rattle.pf_shard.specs.Groups.{AreWithin, IsWithin, groups_at, groups_in, keys_in};
ghost use Rattle.pf_shard.specs.JoinedGroups.{both_each, column_of_both, finished_column, finished_or_none, first_of, heads_cmp, joined_columns};

use crate::grouped::both;
use crate::groups::{GroupColumn, GroupSteps};
use pf_base::{OutOfMemory, Partial, Value};
use pf_columns::{Column, StepCells};
use pf_model::{AggOp, ErrorKind};
use std::alloc::Global;
use std::cmp::Ordering;
use std::collections::VecDeque;
use std::marker::Model;

/// Adds what is known at each step to what else is known there.
fn add_all(known: &mut Vec<Option<Partial>>, more: &[Option<Partial>]) -> Result<(), OutOfMemory>
    requires known { Each (IsWithin 1099511627775) known.old.items }
    requires more { Each (IsWithin 4294967295) more.now }
    ensures { OnOk result (known.new.items ≡ both_each known.old.items more.now) }
{
    let count = known.len().min(more.len());
    for i in 0..count {
        known[i] = both(known[i], more[i]);
    }
    known.extend_from_slice(&more[count..])?;
    Ok(())
}

/// Two columns of one key.
fn together(one: GroupColumn, other: GroupColumn) -> Result<GroupColumn, OutOfMemory>
    requires one { Each (IsWithin 1099511627775) one.partials }
    requires other { Each (IsWithin 4294967295) other.partials }
    ensures { IfOk result (λ c. c ≡ column_of_both one other) }
{
    let GroupColumn { key, mut partials } = one;
    add_all(&mut partials, &other.partials)?;
    Ok(GroupColumn { key, partials })
}

/// Which of two lists has the lesser key in front. Where the second is at its end, the first; and else where the first is, the
/// second.
fn heads_cmp(first: &VecDeque<GroupColumn>, second: &VecDeque<GroupColumn>) -> Ordering
    ensures { result ≡ heads_cmp first.now.items second.now.items }
{
    let Some(other) = second.front() else {
        return Ordering::Less;
    };
    let Some(one) = first.front() else {
        return Ordering::Greater;
    };
    one.key.cmp(&other.key)
}

/// The next column of two lists by rising keys, one of both where both have its key.
fn next_of(
    first: &mut VecDeque<GroupColumn>,
    second: &mut VecDeque<GroupColumn>,
) -> Result<Option<GroupColumn>, OutOfMemory>
    requires first { AreWithin 1099511627775 first.old.items }
    requires second { AreWithin 4294967295 second.old.items }
    ensures next { IfOk result (λ o. MatchOption o (joined_columns first.old.items second.old.items ≡ [])
        (λ c. joined_columns first.old.items second.old.items ≡ c ∷ joined_columns first.new.items second.new.items)) }
    ensures fewer { IfOk result (λ o. OnSome o (length first.new.items + length second.new.items < length first.old.items + length second.old.items)) }
    ensures first_left { OnOk result (AreWithin 1099511627775 first.new.items) }
    ensures second_left { OnOk result (AreWithin 4294967295 second.new.items) }
{
    match heads_cmp(first, second) {
        Ordering::Less => Ok(first.pop_front()),
        Ordering::Equal => {
            let Some(one) = first.pop_front() else {
                unreachable!()
            };
            let Some(other) = second.pop_front() else {
                unreachable!()
            };
            let column = together(one, other)?;
            Ok(Some(column))
        }
        Ordering::Greater => Ok(second.pop_front()),
    }
}

/// Two lists by rising keys, the columns of one key joined. It goes once over both.
fn joined(
    alloc: Global,
    first: Vec<GroupColumn>,
    second: Vec<GroupColumn>,
) -> Result<Vec<GroupColumn>, OutOfMemory>
    requires first { AreWithin 1099511627775 first.items }
    requires second { AreWithin 4294967295 second.items }
    ensures { IfOk result (λ v. v.items ≡ joined_columns first.items second.items) }
{
    let mut found = Vec::with_capacity(alloc, first.len().max(second.len()))?;
    let mut ones = VecDeque::from_vec(first);
    let mut others = VecDeque::from_vec(second);
    while let Some(column) = next_of(&mut ones, &mut others)? {
        found.push(column)?;
    }
    Ok(found)
}

/// The error of a step, if it has one.
fn bad_of(bads: &[Option<ErrorKind>], step: u32) -> Option<ErrorKind>
    ensures { result ≡ bad_in bads.now step }
{
    match bads.get(step as usize) {
        Some(bad) => *bad,
        None => None,
    }
}

fn first_of(a: Option<ErrorKind>, b: Option<ErrorKind>) -> Option<ErrorKind>
    ensures { result ≡ first_of a b }
{
    match a {
        Some(kind) => Some(kind),
        None => b,
    }
}

fn all_first(
    alloc: Global,
    a: &[Option<ErrorKind>],
    b: &[Option<ErrorKind>],
    len: u32,
) -> Result<Vec<Option<ErrorKind>>, OutOfMemory>
    ensures { IfOk result (λ v. v.items ≡ below (λ k. first_of (bad_in a.now k) (bad_in b.now k)) len) }
{
    let mut found = Vec::with_capacity(alloc, len as usize)?;
    for i in 0..len {
        found.push(first_of(bad_of(a, i), bad_of(b, i)))?;
    }
    Ok(found)
}

/// At each step the first of two errors.
fn first_bads(
    alloc: Global,
    a: Vec<Option<ErrorKind>>,
    b: Vec<Option<ErrorKind>>,
    len: u32,
) -> Result<Vec<Option<ErrorKind>>, OutOfMemory>
    ensures { IfOk result (λ v. (k : ℕ) → k < len → bad_in v.items k ≡ first_of (bad_in a.items k) (bad_in b.items k)) }
{
    if b.is_empty() {
        return Ok(a);
    }
    if a.is_empty() {
        return Ok(b);
    }
    let found = all_first(alloc, &a, &b, len)?;
    Ok(found)
}

/// What some shards know of groups, merged: columns by rising keys, and the errors of steps.
#[derive(Drop)]
struct Known {
    columns: Vec<GroupColumn>,
    bads: Vec<Option<ErrorKind>>,
}

impl Model for Known {
    ghost use Rattle.pf_shard.specs.Groups.{GroupStepsData};

    ghost Value = { GroupStepsData };

    ghost view = { λ g. record { columns = g.columns.items; bads = g.bads.items } };
}

/// What some shards know, with what a further one does.
fn with_shard(alloc: Global, known: Known, part: GroupSteps, len: u32) -> Result<Known, OutOfMemory>
    requires { AreWithin 1099511627775 known.columns }
    ensures columns { IfOk result (λ n. n.columns ≡ joined_columns known.columns part.columns) }
    ensures bads { IfOk result (λ n. (k : ℕ) → k < len → bad_in n.bads k ≡ first_of (bad_in known.bads k) (bad_in part.bads k)) }
    ensures part { AreRising (keys_in part.columns) }
    ensures within { AreWithin 4294967295 part.columns }
{
    let Known { columns, bads } = known;
    let GroupSteps {
        columns: more,
        bads: later,
    } = part;
    let columns = joined(alloc, columns, more)?;
    let bads = first_bads(alloc, bads, later, len)?;
    Ok(Known { columns, bads })
}

/// What all shards know.
fn known_of(alloc: Global, parts: Vec<GroupSteps>, len: u32) -> Result<Known, OutOfMemory>
    requires { length parts.items ≤ 256 }
    ensures rising { IfOk result (λ n. AreRising (keys_in n.columns)) }
    ensures within { IfOk result (λ n. AreWithin 1099511627775 n.columns) }
    ensures bads { IfOk result (λ n. (k : ℕ) → k < len → bad_in n.bads k ≡ first_error (map (λ p. groups_at p k) parts.items)) }
    ensures groups { IfOk result (λ n. (k : ℕ) → first_error (map (λ p. groups_at p k) parts.items) ≡ None
        → groups_in n.columns k ≡ merged_groups (all_groups (map (λ p. groups_at p k) parts.items))) }
{
    let mut found = Known {
        columns: Vec::new(alloc),
        bads: Vec::new(alloc),
    };
    for part in parts {
        found = with_shard(alloc, found, part, len)?;
    }
    Ok(found)
}

/// The value of an aggregation from what is known of a group.
fn finished(op: AggOp, known: Partial) -> Value
    requires mergeable { is_mergeable op ≡ true }
    requires within { IsWithin 1099511627775 (Some known) }
    ensures { result ≡ finished op known }
{
    match op {
        AggOp::Sum => Value::new(known.sum),
        AggOp::Avg => Value::new(known.sum / known.count as i128),
        AggOp::Min => known.least,
        AggOp::Max => known.greatest,
        AggOp::Count => Value::new(known.count as i128 * 1_000_000),
        AggOp::Group | AggOp::Topk | AggOp::Bottomk | AggOp::Quantile => unreachable!(),
    }
}

/// The same, where something is known.
fn finished_or_none(op: AggOp, known: Option<Partial>) -> Option<Value>
    requires mergeable { is_mergeable op ≡ true }
    requires within { IsWithin 1099511627775 known }
    ensures { result ≡ finished_or_none op known }
{
    match known {
        Some(known) => Some(finished(op, known)),
        None => None,
    }
}

/// The values of a group at each step.
fn finished_values(
    alloc: Global,
    op: AggOp,
    partials: &[Option<Partial>],
) -> Result<Vec<Option<Value>>, OutOfMemory>
    requires mergeable { is_mergeable op ≡ true }
    requires within { Each (IsWithin 1099511627775) partials.now }
    ensures { IfOk result (λ v. v.items ≡ map (finished_or_none op) partials.now) }
{
    let mut found = Vec::with_capacity(alloc, partials.len())?;
    for known in partials {
        found.push(finished_or_none(op, *known))?;
    }
    Ok(found)
}

/// The column of a group.
fn finished_column(alloc: Global, op: AggOp, column: GroupColumn) -> Result<Column, OutOfMemory>
    requires mergeable { is_mergeable op ≡ true }
    requires within { Each (IsWithin 1099511627775) column.partials }
    ensures { IfOk result (λ c. c ≡ finished_column op column) }
{
    let GroupColumn { key, partials } = column;
    let values = finished_values(alloc, op, &partials)?;
    Ok(Column {
        labels: key,
        values,
    })
}

fn finished_columns(
    alloc: Global,
    op: AggOp,
    columns: Vec<GroupColumn>,
) -> Result<Vec<Column>, OutOfMemory>
    requires mergeable { is_mergeable op ≡ true }
    requires within { AreWithin 1099511627775 columns.items }
    ensures { IfOk result (λ v. v.items ≡ map (finished_column op) columns.items) }
{
    let mut found = Vec::with_capacity(alloc, columns.len())?;
    for column in columns {
        found.push(finished_column(alloc, op, column)?)?;
    }
    Ok(found)
}

/// What all shards of an aggregation know of its groups, merged, at each of so many steps: the aggregation over all samples. Sums
/// are clamped, and divided for `avg`, after the merge; of the errors of a step that of the first shard comes. Keys are compared
/// once a run. The parts are taken, and nothing of them is copied. This project's own, after Mimir's query sharding.
pub fn merge_shards(
    alloc: Global,
    op: AggOp,
    parts: Vec<GroupSteps>,
    len: u32,
) -> Result<StepCells, OutOfMemory>
    requires mergeable { is_mergeable op ≡ true }
    requires few { length parts.items ≤ 256 }
    ensures { IfOk result (λ s. (k : ℕ) → k < len → step_at s k ≡ merged_cell op (map (λ p. groups_at p k) parts.items)) }
{
    let known = known_of(alloc, parts, len)?;
    let Known { columns, bads } = known;
    let columns = finished_columns(alloc, op, columns)?;
    Ok(StepCells { columns, bads })
}
