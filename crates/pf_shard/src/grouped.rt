//! What is known of the groups of a run's columns, found once a run.

ghost use Rattle.std.specs.Prelude.{◌≡◌, ◌<◌, ◌≤◌, ◌+◌, ◌∷◌, ℕ, Some, [], length, map, slice_index_or, slice_set, IfOk};
ghost use Rattle.std.specs.List.{All};
ghost use Rattle.pf_model.specs.Aggregation.{group_key};
ghost use Rattle.pf_model.specs.Legs.{grouped_part, partial_of};
ghost use Rattle.pf_model.specs.Lists.{Each};
ghost use Rattle.pf_model.specs.Merging.{below};
ghost use Rattle.pf_columns.specs.Columns.{AreRising};
ghost use Rattle.pf_columns.specs.Groups.{those_of};
ghost use Rattle.pf_columns.specs.Steps.{step_at};
ghost use Rattle.pf_shard.specs.Groups.{AreWithin, IsWithin, both, group_columns, groups_at, known_one, known_over, with_keys, with_values};

use crate::groups::{GroupColumn, GroupSteps};
use crate::partials::together;
use pf_base::{Labels, OutOfMemory, Partial, Value};
use pf_columns::{Column, GroupIds, StepCells};
use pf_model::Grouping;
use std::alloc::Global;
use std::marker::Model;

/// What is known of a group twice, together.
pub(crate) fn both(a: Option<Partial>, b: Option<Partial>) -> Option<Partial>
    requires a { IsWithin 1099511627775 a }
    requires b { IsWithin 1099511627775 b }
    ensures { result ≡ both a b }
{
    match (a, b) {
        (Some(a), Some(b)) => Some(together(a, b)),
        (Some(a), None) => Some(a),
        (None, b) => b,
    }
}

/// What is known of one value.
fn known_one(value: Value) -> Partial
    ensures value { result ≡ partial_of (value ∷ []) }
    ensures within { IsWithin 1 (Some result) }
{
    Partial {
        sum: value.micros() as i128,
        count: 1,
        least: value,
        greatest: value,
    }
}

/// What is known of a group with one value more, if there is one.
fn with_value(known: Option<Partial>, value: Option<Value>) -> Option<Partial>
    requires { IsWithin 4294967295 known }
    ensures value { result ≡ both known (known_one value) }
    ensures within { (n : ℕ) → IsWithin n known → IsWithin (n + 1) result }
{
    match value {
        Some(value) => both(known, Some(known_one(value))),
        None => known,
    }
}

/// Adds the values of a column to what is known at each step.
fn add_values(known: &mut Vec<Option<Partial>>, values: &[Option<Value>])
    requires { Each (IsWithin 4294967295) known.old.items }
    ensures values { known.new.items ≡ with_values known.old.items values.now }
    ensures within { (n : ℕ) → Each (IsWithin n) known.old.items → Each (IsWithin (n + 1)) known.new.items }
{
    let count = known.len().min(values.len());
    for i in 0..count {
        known[i] = with_value(known[i], values[i]);
    }
}

/// Nothing, at each of so many steps.
fn nothing_at(alloc: Global, len: u32) -> Result<Vec<Option<Partial>>, OutOfMemory>
    ensures { IfOk result (λ v. v.items ≡ known_over len []) }
{
    let mut found = Vec::with_capacity(alloc, len as usize)?;
    for _ in 0..len {
        found.push(None)?;
    }
    Ok(found)
}

/// What is known of each of some groups at each step of a run, while the values of columns are added one after another.
#[derive(Drop)]
pub struct Known {
    lists: Vec<Vec<Option<Partial>>>,
}

impl Model for Known {
    ghost use Rattle.std.specs.Prelude.{List, Option, map};
    ghost use Rattle.pf_base.specs.declared.plain.Partial.{Partial};

    ghost Value = { List (List (Option Partial)) };

    ghost view = { λ k. map (λ v. v.items) k.lists.items };
}

impl Known {
    /// Nothing of so many groups at each of so many steps.
    pub fn new(alloc: Global, count: usize, len: u32) -> Result<Known, OutOfMemory>
        ensures known { IfOk result (λ k. k ≡ below (λ g. known_over len []) count) }
        ensures within { IfOk result (λ k. Each (λ ps. Each (IsWithin 0) ps) k) }
    {
        let mut lists = Vec::with_capacity(alloc, count)?;
        for _ in 0..count {
            lists.push(nothing_at(alloc, len)?)?;
        }
        Ok(Known { lists })
    }

    /// Adds the values of a column to what is known of a group.
    pub fn add(&mut self, place: usize, values: &[Option<Value>])
        requires place { place < length self.old }
        requires within { Each (λ ps. Each (IsWithin 4294967295) ps) self.old }
        ensures values { self.new ≡ slice_set self.old place (with_values (slice_index_or self.old place []) values.now) }
        ensures within { (n : ℕ) → Each (λ ps. Each (IsWithin n) ps) self.old → Each (λ ps. Each (IsWithin (n + 1)) ps) self.new }
    {
        add_values(&mut self.lists[place], values);
    }

    /// What a shard knows of groups with these keys at each step, without errors.
    pub fn steps(self, alloc: Global, keys: Vec<Labels>) -> Result<GroupSteps, OutOfMemory>
        requires alike { length self ≡ length keys.items }
        requires rising { AreRising keys.items }
        requires within { Each (λ ps. Each (IsWithin 4294967295) ps) self }
        ensures { IfOk result (λ g. (g.columns ≡ with_keys keys.items self) × (g.bads ≡ [])) }
    {
        let columns = with_keys(alloc, keys, self)?;
        Ok(GroupSteps {
            columns,
            bads: Vec::new(alloc),
        })
    }
}

/// What is known of each group at each step, by the places of the columns' keys.
fn known_by_place(
    alloc: Global,
    places: &[usize],
    columns: &[Column],
    count: usize,
    len: u32,
) -> Result<Known, OutOfMemory>
    requires alike { length places.now ≡ length columns.now }
    requires inside { All (λ o. o < count) places.now }
    requires few { length columns.now ≤ 4294967295 }
    ensures known { IfOk result (λ k. k ≡ below (λ g. known_over len (those_of g places.now columns.now)) count) }
    ensures within { IfOk result (λ k. Each (λ ps. Each (IsWithin 4294967295) ps) k) }
{
    let mut found = Known::new(alloc, count, len)?;
    for i in 0..columns.len() {
        let column = &columns[i];
        found.add(places[i], &column.values);
    }
    Ok(found)
}

/// Keys with what is known of the group of each.
fn with_keys(
    alloc: Global,
    keys: Vec<Labels>,
    known: Known,
) -> Result<Vec<GroupColumn>, OutOfMemory>
    requires { length known ≡ length keys.items }
    ensures { IfOk result (λ v. v.items ≡ with_keys keys.items known) }
{
    let mut found = Vec::with_capacity(alloc, keys.len())?;
    let Known { lists } = known;
    let mut rest = lists.into_iter();
    for key in keys {
        let Some(partials) = rest.next() else {
            unreachable!()
        };
        found.push(GroupColumn { key, partials })?;
    }
    Ok(found)
}

/// What is known of the groups of columns at each step.
fn known_columns(
    alloc: Global,
    grouping: &Grouping,
    columns: &[Column],
    len: u32,
) -> Result<Vec<GroupColumn>, OutOfMemory>
    ensures known { IfOk result (λ v. v.items ≡ group_columns (group_key grouping.now.without grouping.now.labels) columns.now len) }
    ensures within { IfOk result (λ v. AreWithin 4294967295 v.items) }
{
    if columns.len() > u32::MAX as usize {
        return Err(OutOfMemory);
    }
    let ids = GroupIds::by(alloc, grouping, columns)?;
    let known = known_by_place(alloc, &ids.of, columns, ids.keys.len(), len)?;
    let found = with_keys(alloc, ids.keys, known)?;
    Ok(found)
}

/// What a shard knows of the groups of an aggregation at each of so many steps, from what its argument is there. The groups are
/// found once for all steps, and each value is added once. The errors of steps stay. Over 2^32 - 1 columns are told as want of
/// memory. This project's own, after Mimir's query sharding.
pub fn partials_over(
    alloc: Global,
    grouping: &Grouping,
    steps: StepCells,
    len: u32,
) -> Result<GroupSteps, OutOfMemory>
    ensures { IfOk result (λ g. (k : ℕ) → k < len → groups_at g k ≡ grouped_part grouping.now (step_at steps k)) }
{
    let StepCells { columns, bads } = steps;
    let columns = known_columns(alloc, grouping, &columns, len)?;
    Ok(GroupSteps { columns, bads })
}
