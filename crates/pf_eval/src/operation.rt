//! Binary operators between two nodes.

ghost use Rattle.std.specs.Prelude.{◌≡◌, ◌<◌, ℕ, true, false, IfOk};
ghost use Rattle.std.specs.List.{list_all};
ghost use Rattle.pf_base.specs.LabelSets.{is_label_name};
ghost use Rattle.pf_model.specs.Outcomes.{of_cell, operation};
ghost use Rattle.pf_columns.specs.Steps.{step_at};
ghost use Rattle.pf_eval.specs.Nodes.{is_text, node_at};
ghost use Rattle.pf_eval.specs.declared.node.Node.TheVariants as node;

use crate::change::{Change, altered, operated_scalars};
use crate::node::{Node, Scalars, first_bads};
use crate::pairing::joined;
use pf_base::OutOfMemory;
use pf_columns::StepCells;
use pf_model::{BinaryOp, Matching};
use std::alloc::Global;

/// An operator of two scalars.
fn scalars_of(
    alloc: Global,
    op: BinaryOp,
    matching: &Matching,
    left: Scalars,
    right: Scalars,
    len: u32,
) -> Result<Scalars, OutOfMemory>
    ensures { IfOk result (λ s. (k : ℕ) → k < len
        → node_at (node.Scalar s) k ≡ operation op matching.now (node_at (node.Scalar left) k) (node_at (node.Scalar right) k)) }
{
    let values = operated_scalars(alloc, op, &left.values, &right.values, len)?;
    let bads = first_bads(alloc, left.bads, right.bads, len)?;
    Ok(Scalars { values, bads })
}

/// An operator with a scalar on its left.
fn beside_left(
    alloc: Global,
    op: BinaryOp,
    matching: &Matching,
    left: Scalars,
    right: StepCells,
    len: u32,
) -> Result<StepCells, OutOfMemory>
    ensures { IfOk result (λ s. (k : ℕ) → k < len
        → of_cell (step_at s k) ≡ operation op matching.now (node_at (node.Scalar left) k) (of_cell (step_at right k))) }
{
    let bads = first_bads(alloc, left.bads, right.bads, len)?;
    let found = altered(
        alloc,
        Change::Left(op),
        &left.values,
        &right.columns,
        bads,
        len,
    )?;
    Ok(found)
}

/// An operator with a scalar on its right.
fn beside_right(
    alloc: Global,
    op: BinaryOp,
    matching: &Matching,
    left: StepCells,
    right: Scalars,
    len: u32,
) -> Result<StepCells, OutOfMemory>
    ensures { IfOk result (λ s. (k : ℕ) → k < len
        → of_cell (step_at s k) ≡ operation op matching.now (of_cell (step_at left k)) (node_at (node.Scalar right) k)) }
{
    let bads = first_bads(alloc, left.bads, right.bads, len)?;
    let found = altered(
        alloc,
        Change::Right(op),
        &right.values,
        &left.columns,
        bads,
        len,
    )?;
    Ok(found)
}

/// A binary operator between two nodes that are no texts. Of two errors of a step the left one comes.
pub(crate) fn operation(
    alloc: Global,
    op: BinaryOp,
    matching: &Matching,
    left: Node,
    right: Node,
    len: u32,
) -> Result<Node, OutOfMemory>
    requires named { list_all is_label_name matching.now.include ≡ true }
    requires left { is_text left ≡ false }
    requires right { is_text right ≡ false }
    ensures value { IfOk result (λ n. (k : ℕ) → k < len → node_at n k ≡ operation op matching.now (node_at left k) (node_at right k)) }
    ensures kind { IfOk result (λ n. is_text n ≡ false) }
{
    match (left, right) {
        (Node::Scalar(left), Node::Scalar(right)) => {
            let found = scalars_of(alloc, op, matching, left, right, len)?;
            Ok(Node::Scalar(found))
        }
        (Node::Scalar(left), Node::Vector(right)) => {
            let found = beside_left(alloc, op, matching, left, right, len)?;
            Ok(Node::Vector(found))
        }
        (Node::Vector(left), Node::Scalar(right)) => {
            let found = beside_right(alloc, op, matching, left, right, len)?;
            Ok(Node::Vector(found))
        }
        (Node::Vector(left), Node::Vector(right)) => {
            let found = joined(alloc, op, matching, left, right, len)?;
            Ok(Node::Vector(found))
        }
        (Node::Text(_), _) | (_, Node::Text(_)) => unreachable!(),
    }
}
