//! Queries with their range put in, the times that they read, and which of them are evaluated shard by shard.
#![tactic(auto)]

mod law;
mod reading;
mod resolution;
mod sharding;
mod steady;

pub use law::reads_no_others;
pub use reading::{lowest, reach};
pub use resolution::{resolve, resolved_over};
pub use sharding::{is_sharded, shardable};
pub use steady::is_steady;
