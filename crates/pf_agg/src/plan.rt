//! What an aggregation makes of groups.

ghost use Rattle.std.specs.Prelude.{◌≡◌, List, map, length, take, IfOk};
ghost use Rattle.pf_base.specs.Sorting.{isort};
ghost use Rattle.pf_model.specs.Aggregation.{ElementGroup, aggregated, each_group, first_of_each, quantiles};
ghost use Rattle.pf_model.specs.Cells.{in_label_order, values_of};
ghost use Rattle.pf_model.specs.Lists.{joined};
ghost use Rattle.pf_agg.specs.Buckets.{grouped};
ghost use Rattle.pf_agg.specs.Plans.{planned, value_of_group};
ghost use Rattle.pf_agg.specs.Ranks.{order_of};
ghost use Rattle.pf_columns.specs.Groups.{group_value};

use crate::groups::Groups;
use crate::rank::{Rank, first_of_each, whole_units};
use pf_base::{Labels, OutOfMemory, Value};
use pf_columns::{GroupOp, group_value, quantile};
use pf_model::{AggOp, Cell, Element};
use std::alloc::Global;

/// What is computed of the values of a group.
#[derive(Clone, Copy)]
pub(crate) enum GroupValue {
    /// What an aggregation without a parameter gives.
    Of { op: GroupOp },
    /// The value at a share of the places of the sorted values.
    Quantile { share: Value },
}

/// What is made of each group.
#[derive(Clone, Copy)]
pub(crate) enum Plan {
    /// One element, with the key as its labels.
    Each { value: GroupValue },
    /// The first so many elements.
    First { rank: Rank, most: usize },
    /// Nothing: the parameter has no value.
    Nothing,
}

fn each_of(op: GroupOp) -> Plan
    ensures { (gs : List ElementGroup) → planned result gs ≡ each_group (group_value op) gs }
{
    Plan::Each {
        value: GroupValue::Of { op },
    }
}

fn first(rank: Rank, param: Option<Value>) -> Plan
    ensures { (gs : List ElementGroup) → planned result gs ≡ first_of_each (order_of rank) param gs }
{
    match param {
        Some(value) => Plan::First {
            rank,
            most: whole_units(value),
        },
        None => Plan::Nothing,
    }
}

fn quantiles(param: Option<Value>) -> Plan
    ensures { (gs : List ElementGroup) → planned result gs ≡ quantiles param gs }
{
    match param {
        Some(share) => Plan::Each {
            value: GroupValue::Quantile { share },
        },
        None => Plan::Nothing,
    }
}

impl Plan {
    pub(crate) fn of(op: AggOp, param: Option<Value>) -> Plan
        ensures { (gs : List ElementGroup) → planned result gs ≡ aggregated op param gs }
    {
        match op {
            AggOp::Sum => each_of(GroupOp::Sum),
            AggOp::Avg => each_of(GroupOp::Avg),
            AggOp::Min => each_of(GroupOp::Min),
            AggOp::Max => each_of(GroupOp::Max),
            AggOp::Count => each_of(GroupOp::Count),
            AggOp::Group => each_of(GroupOp::Group),
            AggOp::Topk => first(Rank::Falling, param),
            AggOp::Bottomk => first(Rank::Rising, param),
            AggOp::Quantile => quantiles(param),
        }
    }
}

fn value_of_group(value: GroupValue, values: Vec<Value>) -> Result<Value, OutOfMemory>
    ensures { IfOk result (λ v. v ≡ value_of_group value values.items) }
{
    match value {
        GroupValue::Of { op } => Ok(group_value(op, &values)),
        GroupValue::Quantile { share } => quantile(share, values),
    }
}

/// The values of some elements.
fn values_of(alloc: Global, elements: &[&Element]) -> Result<Vec<Value>, OutOfMemory>
    ensures { IfOk result (λ v. v.items ≡ values_of (map (λ e. e.now) elements.now)) }
{
    let mut found = Vec::new(alloc);
    for element in elements {
        found.push(element.value)?;
    }
    Ok(found)
}

/// The element of one group.
fn element_of(
    alloc: Global,
    value: &GroupValue,
    key: &Labels,
    elements: &[&Element],
) -> Result<Element, OutOfMemory>
    ensures { IfOk result (λ e. e ≡ record { labels = key.now; value = value_of_group value.now (values_of (map (λ f. f.now) elements.now)) }) }
{
    let values = values_of(alloc, elements)?;
    let value = value_of_group(*value, values)?;
    Ok(Element {
        labels: key.clone()?,
        value,
    })
}

/// An element for each group.
fn each(
    alloc: Global,
    value: &GroupValue,
    keys: &[Labels],
    buckets: &[Vec<&Element>],
) -> Result<Cell, OutOfMemory>
    requires { length buckets.now ≡ length keys.now }
    ensures { IfOk result (λ c. c ≡ each_group (value_of_group value.now) (grouped keys.now (map (λ b. map (λ e. e.now) b.items) buckets.now))) }
{
    let mut found = Vec::new(alloc);
    for i in 0..keys.len() {
        found.push(element_of(alloc, value, &keys[i], &buckets[i])?)?;
    }
    Ok(Cell { elements: found })
}

/// The first so many elements of each group.
fn first_of_groups(
    alloc: Global,
    rank: Rank,
    most: usize,
    groups: &Groups<'_>,
) -> Result<Cell, OutOfMemory>
    requires { length groups.now.buckets.items ≡ length groups.now.keys.items }
    ensures { IfOk result (λ c. c ≡ in_label_order (joined (λ g. take most (isort (order_of rank) g.elements)) (grouped groups.now.keys.items (map (λ b. map (λ e. e.now) b.items) groups.now.buckets.items)))) }
{
    let cell = first_of_each(alloc, rank, most, &groups.buckets)?;
    Ok(cell)
}

/// What a plan makes of groups.
pub(crate) fn made(alloc: Global, plan: &Plan, groups: &Groups<'_>) -> Result<Cell, OutOfMemory>
    requires { length groups.now.buckets.items ≡ length groups.now.keys.items }
    ensures { IfOk result (λ c. c ≡ planned plan.now (grouped groups.now.keys.items (map (λ b. map (λ e. e.now) b.items) groups.now.buckets.items))) }
{
    match plan {
        Plan::Each { value } => { each(alloc, value, &groups.keys, &groups.buckets) }
        Plan::First { rank, most } => { first_of_groups(alloc, *rank, *most, groups) }
        Plan::Nothing => Ok(Cell {
            elements: Vec::new(alloc),
        }),
    }
}
