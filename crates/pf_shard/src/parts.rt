//! What legs are over runs.

use crate::groups::GroupSteps;
use pf_columns::StepCells;

/// What a leg is over a run of steps.
#[derive(Drop)]
pub enum Part {
    /// At each step the value of the whole query, or its error.
    Whole(StepCells),
    /// At each step what one shard knows of the groups of an aggregation, or its error.
    Groups(GroupSteps),
}
