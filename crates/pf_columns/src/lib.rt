//! The values of a query's node over a whole run of steps, as columns: a label set with its value at each step.
//!
//! What the layers above use:
//!
//! - `StepCells` is what a vector is at each step of a run: columns by rising label sets, and the errors of steps. `step`
//!   gives one step, `first_bad` the first that has an error, and `cells` the cells of a run without one.
//! - `normalised` makes it of what a node gives: of columns in any order and of any labels it makes, at each step, the
//!   vector in label order, or `DoubleLabels`.
//! - `Cells` are the cells of consecutive steps without errors. A copy and a `part` share all elements, and so does a `cut`
//!   but where it keeps few of them. `gather` makes the matrix over a grid.
//! - `join_cells` are the cells of several runs, one after another.
//! - `GroupIds` are the groups of columns, found once for all steps, or those of keys that are given by numbers, and
//!   `key_behind` makes a key. `aggregated` are the aggregations that have one value for each group and no parameter, and
//!   `aggregated_by` those with one.
//! - `buckets_by` are the places of each group, and `first_of_group` is `topk` or `bottomk` of one group alone, for a caller that goes
//!   group by group.
//!
//! A node that drops the metric name goes so:
//!
//! ```text
//! let mut changed = Vec::new(alloc);
//! for column in steps.columns {
//!     changed.push(Column { labels: column.labels.without_name()?, values: column.values })?;
//! }
//! let steps = normalised(alloc, changed, steps.bads, grid.len())?;
//! match steps.first_bad(grid.len()) {
//!     Some(bad) => Err(Failure { time: grid.at(bad.step), kind: bad.kind }),
//!     None => Ok(steps.cells(alloc, grid.len())?.gather(alloc, &grid)?),
//! }
//! ```
#![tactic(auto)]

mod aggregate;
mod cells;
mod column;
mod gather;
mod groups;
mod halves;
mod joining;
mod ranked;
mod steps;
mod values;

pub use aggregate::{GroupOp, aggregated, aggregated_by, group_value};
pub use cells::Cells;
pub use column::{Column, has_value};
pub use groups::{GroupIds, key_behind};
pub use joining::join_cells;
pub use ranked::{Rank, buckets_by, first_of_group};
pub use steps::{BadStep, StepCells, normalised};
pub use values::quantile;
