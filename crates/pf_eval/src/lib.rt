//! Evaluation of queries.
//!
//! What the layers above use: `eval_bound` is the direct evaluation of a query over a grid, from the series that its selectors
//! take of a snapshot and the patterns of its calls. It goes node by node over the whole run, in columns. By legs and runs it
//! goes so: `legs_over` puts what is asked over a snapshot, in legs, `eval_leg` gives what a leg is over a run, and `merge` what
//! the legs are together there.
#![tactic(auto)]

mod aggregation;
mod arguments;
mod bound;
mod built;
mod called;
mod change;
mod given;
mod instant;
mod legs;
mod merged;
mod merging;
mod node;
mod numbered;
mod operation;
mod pairing;
mod plain;
mod ranked;
mod reading;
mod sharding;
mod subquery;
mod summed;

pub use bound::{EvalError, eval_bound};
pub use legs::{bind, eval_leg, legs_over};
pub use merging::merge;
