//! Aggregations. The groups are found once for all steps.

ghost use Rattle.std.specs.Prelude.{◌≡◌, ◌++◌, ◌∷◌, ◌<◌, ℕ, Option, ℤ, [], true, map, length, slice_index_or, slice_set, IfOk, MatchOption, OnOk};
ghost use Rattle.std.specs.List.{All};
ghost use Rattle.pf_model.specs.Aggregation.{aggregate, group_key};
ghost use Rattle.pf_model.specs.Cells.{values_of};
ghost use Rattle.pf_model.specs.Merging.{below};
ghost use Rattle.pf_model.specs.declared.cell.StepCell.TheVariants.{Good};
ghost use Rattle.pf_columns.specs.Columns.{cell_at, columns_labels, value_in};
ghost use Rattle.pf_columns.specs.Groups.{bucket_columns, found_at, found_of, group_column, group_value, has_parameter, id_columns, keys_by, operator, quantile_of, those_of};
ghost use Rattle.pf_columns.specs.Ranks.{columns_by};
ghost use Rattle.pf_columns.specs.Steps.{bad_in, step_at, unless_bad};

use crate::column::{Column, value_of};
use crate::groups::GroupIds;
use crate::ranked::{Rank, first_columns};
use crate::steps::StepCells;
use crate::values::{greatest, least, mean, quantile, total};
use pf_base::{Labels, OutOfMemory, Value};
use pf_model::{AggOp, Grouping};
use std::alloc::Global;

/// An aggregation that has one value for each group and no parameter.
#[derive(Clone, Copy)]
pub enum GroupOp {
    Sum,
    Avg,
    Min,
    Max,
    Count,
    Group,
}

impl GroupOp {
    /// The aggregation, where it is of this kind. None for `topk`, `bottomk` and `quantile`.
    pub fn of(op: AggOp) -> Option<GroupOp>
        ensures { MatchOption result (has_parameter op ≡ true) (λ g. operator g ≡ op) }
    {
        match op {
            AggOp::Sum => Some(GroupOp::Sum),
            AggOp::Avg => Some(GroupOp::Avg),
            AggOp::Min => Some(GroupOp::Min),
            AggOp::Max => Some(GroupOp::Max),
            AggOp::Count => Some(GroupOp::Count),
            AggOp::Group => Some(GroupOp::Group),
            AggOp::Topk | AggOp::Bottomk | AggOp::Quantile => None,
        }
    }
}

/// The value of a group.
#[tactic(auto, using(crate::proofs::Bounds::one_is))]
pub fn group_value(op: GroupOp, values: &[Value]) -> Value
    ensures { result ≡ group_value op values.now }
{
    match op {
        GroupOp::Sum => Value::new(total(values)),
        GroupOp::Avg => mean(values),
        GroupOp::Min => least(values),
        GroupOp::Max => greatest(values),
        GroupOp::Count => Value::new(values.len() as i128 * 1_000_000),
        GroupOp::Group => Value::new(1_000_000),
    }
}

/// What is found of the values of a group at each step.
#[derive(Clone, Copy)]
pub enum GroupFn<'a> {
    /// The value of an aggregation without a parameter.
    Each(GroupOp),
    /// The value at a share of the places of the sorted values: each step has its own, or none.
    Quantile(&'a [Option<Value>]),
}

/// What is found of the values of a group, none where it has none.
fn found_of(op: GroupOp, values: &[Value]) -> Option<Value>
    ensures { result ≡ found_of (group_value op) values.now }
{
    if values.is_empty() {
        return None;
    }
    Some(group_value(op, values))
}

/// Puts a column into a bucket.
fn put_column<'a>(
    buckets: &mut Vec<Vec<&'a Column>>,
    place: usize,
    column: &'a Column,
) -> Result<(), OutOfMemory>
    requires { place < length buckets.old.items }
    ensures { OnOk result (map (λ b. map (λ c. c.now) b.items) buckets.new.items
        ≡ slice_set (map (λ b. map (λ c. c.now) b.items) buckets.old.items) place (slice_index_or (map (λ b. map (λ c. c.now) b.items) buckets.old.items) place [] ++ column.now ∷ [])) }
{
    buckets[place].push(column)?;
    Ok(())
}

fn empty_buckets<'a>(alloc: Global, count: usize) -> Result<Vec<Vec<&'a Column>>, OutOfMemory>
    ensures { IfOk result (λ v. map (λ b. map (λ c. c.now) b.items) v.items ≡ below (λ g. []) count) }
{
    let mut found = Vec::with_capacity(alloc, count)?;
    for _ in 0..count {
        found.push(Vec::new(alloc))?;
    }
    Ok(found)
}

/// The columns of each group, in their order.
fn buckets_of<'a>(
    alloc: Global,
    places: &[usize],
    columns: &'a [Column],
    count: usize,
) -> Result<Vec<Vec<&'a Column>>, OutOfMemory>
    requires alike { length places.now ≡ length columns.now }
    requires within { All (λ o. o < count) places.now }
    ensures { IfOk result (λ v. map (λ b. map (λ c. c.now) b.items) v.items ≡ below (λ g. those_of g places.now columns.now) count) }
{
    let mut found = empty_buckets(alloc, count)?;
    for i in 0..columns.len() {
        put_column(&mut found, places[i], &columns[i])?;
    }
    Ok(found)
}

/// The values of some columns at a step. They take the room of earlier ones.
fn values_at(
    mut values: Vec<Value>,
    columns: &[&Column],
    step: u32,
) -> Result<Vec<Value>, OutOfMemory>
    ensures { IfOk result (λ v. v.items ≡ values_of (cell_at (map (λ c. c.now) columns.now) step)) }
{
    values.clear();
    for &column in columns {
        if let Some(value) = value_of(&column.values, step) {
            values.push(value)?;
        }
    }
    Ok(values)
}

/// The value of an aggregation without a parameter, of a group at each step.
fn op_values(
    alloc: Global,
    op: GroupOp,
    columns: &[&Column],
    len: u32,
) -> Result<Vec<Option<Value>>, OutOfMemory>
    ensures { IfOk result (λ v. v.items ≡ below (λ k. found_of (group_value op) (values_of (cell_at (map (λ c. c.now) columns.now) k))) len) }
{
    let mut found = Vec::with_capacity(alloc, len as usize)?;
    let mut values = Vec::new(alloc);
    for i in 0..len {
        values = values_at(values, columns, i)?;
        found.push(found_of(op, &values))?;
    }
    Ok(found)
}

/// The value at a share of the places of a group's sorted values. None without a share, or of no values.
fn quantile_of(share: Option<Value>, values: Vec<Value>) -> Result<Option<Value>, OutOfMemory>
    ensures { IfOk result (λ o. o ≡ quantile_of share values.items) }
{
    let Some(share) = share else {
        return Ok(None);
    };
    if values.is_empty() {
        return Ok(None);
    }
    let found = quantile(share, values)?;
    Ok(Some(found))
}

/// The quantile of a group at each step.
fn quantile_values(
    alloc: Global,
    params: &[Option<Value>],
    columns: &[&Column],
    len: u32,
) -> Result<Vec<Option<Value>>, OutOfMemory>
    ensures { IfOk result (λ v. v.items ≡ below (λ k. quantile_of (value_in params.now k) (values_of (cell_at (map (λ c. c.now) columns.now) k))) len) }
{
    let mut found = Vec::with_capacity(alloc, len as usize)?;
    for i in 0..len {
        let values = values_at(Vec::new(alloc), columns, i)?;
        found.push(quantile_of(value_of(params, i), values)?)?;
    }
    Ok(found)
}

/// What is found of the values of a group at each step.
fn group_values(
    alloc: Global,
    function: &GroupFn<'_>,
    columns: &[&Column],
    len: u32,
) -> Result<Vec<Option<Value>>, OutOfMemory>
    ensures { IfOk result (λ v. v.items ≡ below (λ k. found_at function.now k (values_of (cell_at (map (λ c. c.now) columns.now) k))) len) }
{
    match function {
        GroupFn::Each(op) => op_values(alloc, *op, columns, len),
        GroupFn::Quantile(params) => quantile_values(alloc, params, columns, len),
    }
}

/// The column of a bucket.
fn column_of_bucket(
    alloc: Global,
    function: &GroupFn<'_>,
    key: &Labels,
    bucket: &[&Column],
    len: u32,
) -> Result<Column, OutOfMemory>
    ensures { IfOk result (λ c. c ≡ record { labels = key.now; values = below (λ k. found_at function.now k (values_of (cell_at (map (λ c. c.now) bucket.now) k))) len }) }
{
    Ok(Column {
        labels: key.clone()?,
        values: group_values(alloc, function, bucket, len)?,
    })
}

/// A column of each bucket.
fn columns_of_buckets(
    alloc: Global,
    function: &GroupFn<'_>,
    keys: &[Labels],
    buckets: &[Vec<&Column>],
    len: u32,
) -> Result<Vec<Column>, OutOfMemory>
    requires { length buckets.now ≡ length keys.now }
    ensures { IfOk result (λ v. v.items ≡ bucket_columns (found_at function.now) (map (λ b. map (λ c. c.now) b.items) buckets.now) len keys.now) }
{
    let mut found = Vec::with_capacity(alloc, keys.len())?;
    for i in 0..keys.len() {
        found.push(column_of_bucket(alloc, function, &keys[i], &buckets[i], len)?)?;
    }
    Ok(found)
}

/// A column for each group.
fn columns_by_place(
    alloc: Global,
    function: &GroupFn<'_>,
    keys: &[Labels],
    places: &[usize],
    columns: &[Column],
    len: u32,
) -> Result<Vec<Column>, OutOfMemory>
    requires alike { length places.now ≡ length columns.now }
    requires within { All (λ o. o < length keys.now) places.now }
    ensures { IfOk result (λ v. v.items ≡ id_columns (found_at function.now) places.now columns.now len 0 keys.now) }
{
    let buckets = buckets_of(alloc, places, columns, keys.len())?;
    let found = columns_of_buckets(alloc, function, keys, &buckets, len)?;
    Ok(found)
}

/// The columns of an aggregation.
fn grouped(
    alloc: Global,
    function: &GroupFn<'_>,
    grouping: &Grouping,
    columns: &[Column],
    len: u32,
) -> Result<Vec<Column>, OutOfMemory>
    ensures { IfOk result (λ v. v.items ≡ map (group_column (found_at function.now) (group_key grouping.now.without grouping.now.labels) columns.now len)
        (keys_by (group_key grouping.now.without grouping.now.labels) (columns_labels columns.now))) }
{
    let ids = GroupIds::by(alloc, grouping, columns)?;
    let found = columns_by_place(alloc, function, &ids.keys, &ids.of, columns, len)?;
    Ok(found)
}

/// An aggregation with one value for each group, at each of so many steps. The errors of steps stay.
pub fn aggregated(
    alloc: Global,
    op: GroupOp,
    grouping: &Grouping,
    steps: StepCells,
    len: u32,
) -> Result<StepCells, OutOfMemory>
    ensures { IfOk result (λ s. (param : Option ℤ) → (k : ℕ) → k < len
        → step_at s k ≡ unless_bad (bad_in steps.bads k) (Good (aggregate (operator op) grouping.now.without grouping.now.labels param (cell_at steps.columns k)))) }
{
    let columns = grouped(alloc, &GroupFn::Each(op), grouping, &steps.columns, len)?;
    Ok(StepCells {
        columns,
        bads: steps.bads,
    })
}

/// The columns of an aggregation with a parameter.
fn columns_by(
    alloc: Global,
    op: AggOp,
    grouping: &Grouping,
    params: &[Option<Value>],
    columns: Vec<Column>,
    len: u32,
) -> Result<Vec<Column>, OutOfMemory>
    requires { has_parameter op ≡ true }
    ensures { IfOk result (λ v. v.items ≡ columns_by op (group_key grouping.now.without grouping.now.labels) params.now columns.items len) }
{
    match op {
        AggOp::Topk => first_columns(alloc, Rank::Falling, grouping, params, columns, len),
        AggOp::Bottomk => first_columns(alloc, Rank::Rising, grouping, params, columns, len),
        AggOp::Quantile => grouped(alloc, &GroupFn::Quantile(params), grouping, &columns, len),
        _ => unreachable!(),
    }
}

/// An aggregation with a parameter, at each of so many steps; a step whose parameter has no value has no element. The errors
/// of steps stay. A step of `topk` and `bottomk` takes time linear in the number of columns on average, however many elements
/// are wanted, and a byte for each column until all steps are done; one of `quantile` sorts the values of each group.
pub fn aggregated_by(
    alloc: Global,
    op: AggOp,
    grouping: &Grouping,
    params: &[Option<Value>],
    steps: StepCells,
    len: u32,
) -> Result<StepCells, OutOfMemory>
    requires { has_parameter op ≡ true }
    ensures { IfOk result (λ s. (k : ℕ) → k < len → step_at s k ≡ unless_bad (bad_in steps.bads k)
        (Good (aggregate op grouping.now.without grouping.now.labels (value_in params.now k) (cell_at steps.columns k)))) }
{
    let StepCells { columns, bads } = steps;
    let columns = columns_by(alloc, op, grouping, params, columns, len)?;
    Ok(StepCells { columns, bads })
}
