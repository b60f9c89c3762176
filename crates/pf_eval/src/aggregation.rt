//! Aggregations.

ghost use Rattle.std.specs.Prelude.{◌≡◌, ◌<◌, ℕ, false, map, IfOk};
ghost use Rattle.pf_model.specs.Aggregation.{aggregate};
ghost use Rattle.pf_model.specs.InstantFunctions.{first_scalar};
ghost use Rattle.pf_model.specs.Outcomes.{aggregation};
ghost use Rattle.pf_model.specs.declared.cell.StepCell.TheVariants.{Good};
ghost use Rattle.pf_columns.specs.Columns.{cell_at, value_in};
ghost use Rattle.pf_columns.specs.Steps.{bad_in, step_at, unless_bad};
ghost use Rattle.pf_eval.specs.Nodes.{is_text, node_at, nodes_at};

use crate::arguments::arguments_of;
use crate::node::Node;
use pf_base::{OutOfMemory, Value};
use pf_columns::{GroupOp, StepCells, aggregated, aggregated_by};
use pf_model::{AggOp, Grouping};
use std::alloc::Global;

/// The values of the first scalar among some, none where there is no scalar.
fn first_values(scalars: &[Vec<Option<Value>>]) -> &[Option<Value>]
    ensures { (k : ℕ) → value_in result.now k ≡ first_scalar (map (λ vs. value_in vs.items k) scalars.now) }
{
    match scalars.first() {
        Some(values) => values,
        None => &[],
    }
}

/// An aggregation of a vector, beside a scalar where it has a parameter.
fn over_steps(
    alloc: Global,
    op: AggOp,
    grouping: &Grouping,
    params: &[Option<Value>],
    steps: StepCells,
    len: u32,
) -> Result<StepCells, OutOfMemory>
    ensures { IfOk result (λ s. (k : ℕ) → k < len
        → step_at s k ≡ unless_bad (bad_in steps.bads k) (Good (aggregate op grouping.now.without grouping.now.labels (value_in params.now k) (cell_at steps.columns k)))) }
{
    match GroupOp::of(op) {
        Some(op) => aggregated(alloc, op, grouping, steps, len),
        None => aggregated_by(alloc, op, grouping, params, steps, len),
    }
}

/// An aggregation of the first vector among some nodes, beside the first scalar. The first error among them comes first.
pub(crate) fn aggregation(
    alloc: Global,
    op: AggOp,
    grouping: &Grouping,
    args: Vec<Node>,
    len: u32,
) -> Result<Node, OutOfMemory>
    ensures kind { IfOk result (λ n. is_text n ≡ false) }
    ensures value { IfOk result (λ n. (k : ℕ) → k < len → node_at n k ≡ aggregation op grouping.now (nodes_at args.items k)) }
{
    let found = arguments_of(alloc, args, len)?;
    let steps = StepCells {
        columns: found.columns,
        bads: found.bads,
    };
    let steps = over_steps(
        alloc,
        op,
        grouping,
        first_values(&found.scalars),
        steps,
        len,
    )?;
    Ok(Node::Vector(steps))
}
