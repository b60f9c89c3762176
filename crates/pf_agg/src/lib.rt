//! Aggregations of a vector.
//!
//! What the layers above use: `aggregate` is the value of each aggregation over a vector, by the table of the definitions, and
//! `partials` is what is known of each group, so that it can be merged with what other vectors know of it. The groups are
//! found once: the keys are sorted, each element's key is found among them by a binary search, and the elements of each group
//! stand together.
#![tactic(auto)]

ghost use Rattle.std.specs.Prelude.{◌≡◌, IfOk};
ghost use Rattle.pf_model.specs.Aggregation.{aggregate};
ghost use Rattle.pf_model.specs.Legs.{partials};
ghost use Rattle.pf_columns.specs.Columns.{AreRising};
ghost use Rattle.pf_columns.specs.Partials.{keys_of, parts_of};

mod groups;
mod partial;
mod plan;
mod rank;

use crate::groups::groups_of;
use crate::partial::partials_of;
use crate::plan::{Plan, made};
use pf_base::{Labels, OutOfMemory, Partial, Value};
use pf_model::{AggOp, Cell, Grouping};
use std::alloc::Global;

/// The value of an aggregation over a vector, in label order. The parameter is that of `topk`, `bottomk` and `quantile`, which
/// give nothing where it has no value; the others have none. Sums are exact and moved into the bounds, and averages are cut
/// toward zero. Prometheus, Operators: Aggregation operators; the forms in whole micros, and label order among elements of
/// equal values, are this project's own.
pub fn aggregate(
    alloc: Global,
    op: AggOp,
    grouping: &Grouping,
    param: Option<Value>,
    cell: &Cell,
) -> Result<Cell, OutOfMemory>
    ensures { IfOk result (λ c. c ≡ aggregate op grouping.now.without grouping.now.labels param cell.now) }
{
    let plan = Plan::of(op, param);
    let groups = groups_of(alloc, grouping, &cell.elements)?;
    made(alloc, &plan, &groups)
}

/// What is known of each group of a vector: its key, the exact sum of its values in micros, which isn't moved into the bounds,
/// their number, the least and the greatest. They stand by rising keys, in label order. Of no element there is no group. This
/// project's own, after Mimir's query sharding.
pub fn partials(
    alloc: Global,
    grouping: &Grouping,
    cell: &Cell,
) -> Result<Vec<(Labels, Partial)>, OutOfMemory>
    ensures groups { IfOk result (λ v. parts_of v.items ≡ partials grouping.now cell.now) }
    ensures rising { IfOk result (λ v. AreRising (keys_of v.items)) }
{
    let by_key = groups_of(alloc, grouping, &cell.elements)?;
    let found = partials_of(alloc, &by_key.keys, &by_key.buckets)?;
    Ok(found)
}
