//! Queries that are evaluated shard by shard.
//!
//! What the layers above use:
//!
//! - `Resolved` is a query over a snapshot, and `Legs` its parts that are evaluated one by one: `rewrite` makes them, and
//!   `leg_count` tells how many there are. A `Part` is what one of them is over a run: the whole query at each step, or
//!   `GroupSteps`, what one shard knows there of the groups of an aggregation.
//! - `Known` is what is known of groups while columns are added one by one.
//! - `partials_over` gives what a shard knows over a run, and `merge_shards` the aggregation from all shards. `add_partials` merges
//!   what is known of groups at one step.
#![tactic(auto)]

mod grouped;
mod groups;
mod legs;
mod merging;
mod nodes;
mod partials;
mod parts;
mod shared;

pub use grouped::{Known, partials_over};
pub use groups::GroupSteps;
pub use legs::{Legs, Resolved, leg_count, rewrite};
pub use merging::merge_shards;
pub use partials::add_partials;
pub use parts::Part;
