//! Signs and binary operators beside a scalar: each element of a vector is changed by itself.

ghost use Rattle.std.specs.Prelude.{◌≡◌, ◌<◌, ℕ, Some, None, map, IfOk};
ghost use Rattle.pf_model.specs.Cells.{cell_of};
ghost use Rattle.pf_model.specs.Matching.{of_scalars};
ghost use Rattle.pf_model.specs.Merging.{below};
ghost use Rattle.pf_model.specs.Outcomes.{negated, of_cell, signed};
ghost use Rattle.pf_columns.specs.Columns.{cell_at, value_in};
ghost use Rattle.pf_columns.specs.Steps.{bad_in, step_at, unless_bad};
ghost use Rattle.pf_eval.specs.Nodes.{altered, applied, changed, is_text, labelled, node_at, onto};
ghost use Rattle.pf_eval.specs.declared.node.Node.TheVariants as node;

use crate::node::{Node, Scalars, value_of};
use pf_base::{Labels, OutOfMemory, Value};
use pf_columns::{Column, StepCells, normalised};
use pf_math::{negated, of_scalars, operated, result_labels};
use pf_model::{BinaryOp, ErrorKind};
use std::alloc::Global;

/// A change of an element by itself, beside a scalar on its left or on its right.
#[derive(Clone, Copy)]
pub(crate) enum Change {
    Negation,
    Left(BinaryOp),
    Right(BinaryOp),
}

fn applied(change: Change, scalar: Option<Value>, value: Value) -> Option<Value>
    ensures { result ≡ applied change scalar value }
{
    match (change, scalar) {
        (Change::Negation, _) => Some(negated(value)),
        (Change::Left(op), Some(a)) => operated(op, value, a, value),
        (Change::Right(op), Some(b)) => operated(op, value, value, b),
        (Change::Left(_) | Change::Right(_), None) => None,
    }
}

fn labelled(change: Change, labels: &Labels) -> Result<Labels, OutOfMemory>
    ensures { IfOk result (λ l. l ≡ labelled change labels.now) }
{
    match change {
        Change::Negation => labels.without_name(),
        Change::Left(op) | Change::Right(op) => result_labels(op, labels),
    }
}

/// The values of a column, changed beside a scalar.
fn changed_values(
    alloc: Global,
    change: Change,
    scalars: &[Option<Value>],
    values: &[Option<Value>],
    len: u32,
) -> Result<Vec<Option<Value>>, OutOfMemory>
    ensures { IfOk result (λ v. v.items ≡ below (λ k. onto (value_in values.now k) (applied change (value_in scalars.now k))) len) }
{
    let mut found = Vec::with_capacity(alloc, len as usize)?;
    for i in 0..len {
        let value = match value_of(values, i) {
            Some(value) => applied(change, value_of(scalars, i), value),
            None => None,
        };
        found.push(value)?;
    }
    Ok(found)
}

fn changed_columns(
    alloc: Global,
    change: Change,
    scalars: &[Option<Value>],
    columns: &[Column],
    len: u32,
) -> Result<Vec<Column>, OutOfMemory>
    ensures { IfOk result (λ v. v.items ≡ map (changed (labelled change) (λ k. applied change (value_in scalars.now k)) len) columns.now) }
{
    let mut found = Vec::with_capacity(alloc, columns.len())?;
    for column in columns {
        found.push(Column {
            labels: labelled(change, &column.labels)?,
            values: changed_values(alloc, change, scalars, &column.values, len)?,
        })?;
    }
    Ok(found)
}

/// The elements of columns, each changed by itself, beside the errors of steps.
pub(crate) fn altered(
    alloc: Global,
    change: Change,
    scalars: &[Option<Value>],
    columns: &[Column],
    bads: Vec<Option<ErrorKind>>,
    len: u32,
) -> Result<StepCells, OutOfMemory>
    ensures { IfOk result (λ s. (k : ℕ) → k < len → step_at s k ≡ unless_bad (bad_in bads.items k) (cell_of (altered change (value_in scalars.now k) (cell_at columns.now k)))) }
{
    let columns = changed_columns(alloc, change, scalars, columns, len)?;
    let found = normalised(alloc, columns, bads, len)?;
    Ok(found)
}

/// A vector with its signs turned.
fn negated_steps(alloc: Global, steps: StepCells, len: u32) -> Result<StepCells, OutOfMemory>
    ensures { IfOk result (λ s. (k : ℕ) → k < len → of_cell (step_at s k) ≡ negated (of_cell (step_at steps k))) }
{
    let columns = changed_columns(alloc, Change::Negation, &[], &steps.columns, len)?;
    let found = normalised(alloc, columns, steps.bads, len)?;
    Ok(found)
}

/// A scalar with its sign turned.
fn negated_scalars(alloc: Global, scalars: Scalars, len: u32) -> Result<Scalars, OutOfMemory>
    ensures { IfOk result (λ s. (k : ℕ) → k < len → node_at (node.Scalar s) k ≡ negated (node_at (node.Scalar scalars) k)) }
{
    let values = changed_values(alloc, Change::Negation, &[], &scalars.values, len)?;
    Ok(Scalars {
        values,
        bads: scalars.bads,
    })
}

/// A node with its sign turned.
fn negation(alloc: Global, arg: Node, len: u32) -> Result<Node, OutOfMemory>
    ensures value { IfOk result (λ n. (k : ℕ) → k < len → node_at n k ≡ negated (node_at arg k)) }
    ensures kind { IfOk result (λ n. is_text n ≡ is_text arg) }
{
    match arg {
        Node::Scalar(scalars) => {
            let found = negated_scalars(alloc, scalars, len)?;
            Ok(Node::Scalar(found))
        }
        Node::Vector(steps) => {
            let found = negated_steps(alloc, steps, len)?;
            Ok(Node::Vector(found))
        }
        Node::Text(text) => Ok(Node::Text(text)),
    }
}

/// A signed node. A plus changes nothing.
pub(crate) fn signed(alloc: Global, minus: bool, arg: Node, len: u32) -> Result<Node, OutOfMemory>
    ensures value { IfOk result (λ n. (k : ℕ) → k < len → node_at n k ≡ signed minus (node_at arg k)) }
    ensures kind { IfOk result (λ n. is_text n ≡ is_text arg) }
{
    if !minus {
        return Ok(arg);
    }
    negation(alloc, arg, len)
}

/// An operator of two scalars.
pub(crate) fn operated_scalars(
    alloc: Global,
    op: BinaryOp,
    lefts: &[Option<Value>],
    rights: &[Option<Value>],
    len: u32,
) -> Result<Vec<Option<Value>>, OutOfMemory>
    ensures { IfOk result (λ v. v.items ≡ below (λ k. of_scalars op (value_in lefts.now k) (value_in rights.now k)) len) }
{
    let mut found = Vec::with_capacity(alloc, len as usize)?;
    for i in 0..len {
        found.push(of_scalars(op, value_of(lefts, i), value_of(rights, i)))?;
    }
    Ok(found)
}
